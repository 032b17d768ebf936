//! Whether one entry at most stands in two slots.

ghost use Rattle.std.specs.Prelude.{◌≡◌, ◌<◌, ◌≤◌, ◌^◌, ℕ, nat_eq, IfOk, IfErr, IsNone, IfSome, IsTrue, IsFalse, length};
ghost use Rattle.tcam_device.specs.Order.{AreAlike, HasOneTwin};
ghost use Rattle.readback.specs.Fault.{IsOneTooMany};
ghost use Rattle.readback.specs.Stage.{IsTwinSlot};

use crate::standing::same_match;
use rule_model::Entry;

/// The greater slot of an entry that stands in two, if one does, or a slot that holds an entry once too often.
pub(crate) fn twin_of(held: &[Option<Entry>]) -> Result<Option<u32>, u32>
    requires { length held.now < 2 ^ 32 }
    ensures twin { IfOk result (λ twin. IsTwinSlot held.now twin) }
    ensures one { IfOk result (λ twin. HasOneTwin held.now) }
    ensures more { IfErr result (λ slot. IsOneTooMany held.now slot) }
{
    let mut twin = None;
    for at in 0..held.len() {
        if let Some(lesser) = partner_of(held, at) {
            if twin.is_some() || !same_result(held, lesser, at) {
                return Err(at as u32);
            }
            twin = Some(at as u32);
        }
    }
    Ok(twin)
}

/// The least slot before one that holds the same entry as this.
fn partner_of(held: &[Option<Entry>], at: usize) -> Option<usize>
    requires { at < length held.now }
    ensures some { IfSome result (λ lesser. AreAlike held.now lesser at) }
    ensures none { IsNone result → (lesser : ℕ) → AreAlike held.now lesser at → ⊥ }
{
    for lesser in 0..at {
        if are_alike(held, lesser, at) {
            return Some(lesser);
        }
    }
    None
}

/// Whether a slot and one behind it hold one entry, whatever their results.
fn are_alike(held: &[Option<Entry>], lesser: usize, at: usize) -> bool
    requires less { lesser < at }
    requires at { at < length held.now }
    ensures alike { IsTrue result → AreAlike held.now lesser at }
    ensures other { IsFalse result → AreAlike held.now lesser at → ⊥ }
{
    match (&held[lesser], &held[at]) {
        (Some(first), Some(second)) => same_match(first, second),
        _ => false,
    }
}

/// Whether two slots that hold an entry each have one result.
fn same_result(held: &[Option<Entry>], lesser: usize, at: usize) -> bool
    requires lesser { lesser < length held.now }
    requires at { at < length held.now }
    ensures { (alike : AreAlike held.now lesser at) → result ≡ nat_eq alike.first.result alike.second.result }
{
    match (&held[lesser], &held[at]) {
        (Some(first), Some(second)) => first.result == second.result,
        _ => false,
    }
}

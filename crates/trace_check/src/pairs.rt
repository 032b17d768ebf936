//! Which two slots hold one entry, while a copy of it is made.

ghost use Rattle.std.specs.Prelude.{◌≡◌, ◌≢◌, ◌↔◌, ◌⊎◌, ◌<◌, ◌≤◌, ◌^◌, IfOk, IfErr, IsTrue, IfSome, IsNone, Some, None, length, option_map, slice_set};
ghost use Rattle.slot_order.specs.Order.{slot};
ghost use Rattle.rule_model.specs.Entry.{entry_for};
ghost use Rattle.tcam_device.specs.Order.{HasOneTwin};
ghost use Rattle.trace_check.specs.declared.slots.Pair as pairs;
ghost use Rattle.trace_check.specs.Behind.{entries_in};
ghost use Rattle.trace_check.specs.Kept.{HasResult, IsPair};
ghost use Rattle.trace_check.specs.Local.{KeepsTwins};

use crate::known::Known;
use crate::placed::Placed;
use crate::slots::{Pair, copy_of};

/// An entry comes that stands elsewhere with another result, or while two other slots hold one entry.
#[derive(Drop)]
pub(crate) struct CopyFault;

/// Which two slots hold one entry behind a write of one, if two do.
pub(crate) fn pair_behind(
    pair: Option<Pair>,
    places: &Placed,
    at: usize,
    content: &Option<Known>,
) -> Result<Option<Pair>, CopyFault>
    requires inside { at < length places.now }
    requires few { length places.now < 2 ^ 32 }
    ensures kept { IfOk result (λ after. HasOneTwin (entries_in places.now) → IsPair (entries_in places.now) pair
        → KeepsTwins (entries_in places.now) at (option_map entry_for content.now)
        × IsPair (slice_set (entries_in places.now) at (option_map entry_for content.now)) after) }
    ensures broken { IfErr result (λ _. HasOneTwin (entries_in places.now) → IsPair (entries_in places.now) pair
        → KeepsTwins (entries_in places.now) at (option_map entry_for content.now) → ⊥) }
{
    let others = pair_without(pair, at);
    match content {
        None => Ok(others),
        Some(comes) => match copy_of(places, at, &comes.entry) {
            None => Ok(others),
            Some(other) => pair_with(others, places, at, other, comes.entry.result),
        },
    }
}

/// The slot that is written and another one that holds its entry, if no two others hold one and the other has its result.
fn pair_with(
    others: Option<Pair>,
    places: &Placed,
    at: usize,
    other: usize,
    answer: u32,
) -> Result<Option<Pair>, CopyFault>
    requires inside { at < length places.now }
    requires other { other < length places.now }
    requires few { length places.now < 2 ^ 32 }
    ensures pair { IfOk result (λ after. (pair : pairs.Pair) × (after ≡ Some pair)
        × (((pair.lesser ≡ at) × (pair.greater ≡ other) × (at < other)) ⊎ ((pair.lesser ≡ other) × (pair.greater ≡ at) × (other ≤ at)))) }
    ensures alone { IfOk result (λ after. (others ≡ None) × HasResult (slot places.now other) answer) }
    ensures broken { IfErr result (λ _. (others ≡ None) × HasResult (slot places.now other) answer → ⊥) }
{
    if others.is_some() {
        return Err(CopyFault);
    }
    if !has_result(places.at(other), answer) {
        return Err(CopyFault);
    }
    Ok(Some(pair_of(at as u32, other as u32)))
}

/// The two slots, if neither is this one.
fn pair_without(pair: Option<Pair>, at: usize) -> Option<Pair>
    ensures some { IfSome result (λ left. (pair ≡ Some left) × (left.lesser ≢ at) × (left.greater ≢ at)) }
    ensures none { IsNone result → (pair ≡ None) ⊎ ((held : pairs.Pair) × (pair ≡ Some held) × ((held.lesser ≡ at) ⊎ (held.greater ≡ at))) }
{
    let Some(held) = pair else {
        return None;
    };
    if held.lesser as usize == at {
        return None;
    }
    if held.greater as usize == at {
        return None;
    }
    Some(held)
}

/// Two slots, the lesser first.
fn pair_of(a: u32, b: u32) -> Pair
    ensures first { a < b → (result.lesser ≡ a) × (result.greater ≡ b) }
    ensures second { b ≤ a → (result.lesser ≡ b) × (result.greater ≡ a) }
{
    if a < b {
        Pair {
            lesser: a,
            greater: b,
        }
    } else {
        Pair {
            lesser: b,
            greater: a,
        }
    }
}

/// Whether a slot holds an entry with this result.
fn has_result(place: &Option<Known>, answer: u32) -> bool
    ensures { IsTrue result ↔ HasResult place.now answer }
{
    match place {
        None => false,
        Some(held) => held.ranked.result == answer,
    }
}

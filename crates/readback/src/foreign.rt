//! Whether each slot that holds an entry is in use and has a piece.

ghost use Rattle.std.specs.Prelude.{◌≡◌, ◌⊎◌, ◌<◌, ◌≤◌, ◌^◌, ℕ, IfSome, IsNone, IsTrue, IsFalse, Some, None, length};
ghost use Rattle.slot_order.specs.Order.{slot};
ghost use Rattle.rule_model.specs.declared.words.Entry as entries;
ghost use Rattle.rule_model.specs.Entry.{RankedPiece};

use commit_writes::Ranked;
use rule_model::Entry;

/// The least slot that holds an entry and isn't in use, or has no piece.
pub(crate) fn foreign_slot(
    slots: u32,
    held: &[Option<Entry>],
    places: &[Option<Ranked>],
) -> Option<u32>
    requires size { length places.now ≡ length held.now }
    requires few { length held.now < 2 ^ 32 }
    ensures some { IfSome result (λ at. (entry : entries.Entry) × (slot held.now at ≡ Some entry) × ((slots ≤ at) ⊎ (slot places.now at ≡ None))) }
    ensures none { IsNone result → (at : ℕ) (entry : entries.Entry) → slot held.now at ≡ Some entry
        → (at < slots) × ((ranked : RankedPiece) × (slot places.now at ≡ Some ranked)) }
{
    for at in 0..held.len() {
        if is_foreign(&held[at], &places[at], at < slots as usize) {
            return Some(at as u32);
        }
    }
    None
}

/// Whether a slot holds an entry though it has no piece or isn't in use.
fn is_foreign(slot: &Option<Entry>, place: &Option<Ranked>, used: bool) -> bool
    ensures yes { IsTrue result → (entry : entries.Entry) × (slot.now ≡ Some entry) × (IsFalse used ⊎ (place.now ≡ None)) }
    ensures no { IsFalse result → (entry : entries.Entry) → slot.now ≡ Some entry → IsTrue used × ((ranked : RankedPiece) × (place.now ≡ Some ranked)) }
{
    match (slot, place) {
        (None, _) => false,
        (Some(_), None) => true,
        (Some(_), Some(_)) => !used,
    }
}

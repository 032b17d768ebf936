//! What a write of one slot does to the others: whether what comes is in order with them, whether it or what it replaces
//! stands elsewhere, and which entry stands twice.

ghost use Rattle.std.specs.Prelude.{◌≡◌, ◌≢◌, ◌↔◌, ◌<◌, ◌≤◌, ℕ, IfSome, IsNone, IsTrue, IsFalse, Some, length};
ghost use Rattle.slot_order.specs.Order.{slot};
ghost use Rattle.rule_model.specs.Piece.{PiecesOverlap};
ghost use Rattle.rule_model.specs.Entry as entries;
ghost use Rattle.rule_model.specs.Entry.{RankedPiece, entry_for};

use crate::known::{Known, same_entry, same_match};
use crate::placed::{Placed, ranks_above, ranks_below};
use block_windows::span_of;
use commit_writes::Ranked;
use rule_model::{Entry, piece_overlaps};

/// Two slots that hold one entry, the lesser first.
#[derive(Clone, Copy, Debug, PartialEq, Eq)]
pub(crate) struct Pair {
    pub(crate) lesser: u32,
    pub(crate) greater: u32,
}

/// Whether some slot before one holds a piece that overlaps this one and is lower.
pub(crate) fn is_behind_lower(places: &Placed, at: usize, ranked: &Ranked) -> bool
    requires { at ≤ length places.now }
    ensures some { IsTrue result → (i : ℕ) × (low : RankedPiece) × (i < at) × (slot places.now i ≡ Some low)
        × PiecesOverlap low.piece ranked.now.piece × (low.rank < ranked.now.rank) }
    ensures none { IsFalse result → (i : ℕ) (first : RankedPiece) → i < at → slot places.now i ≡ Some first
        → PiecesOverlap first.piece ranked.now.piece → ranked.now.rank ≤ first.rank }
{
    let ranks = ranks_below(ranked.rank);
    let windows = span_of(&ranked.piece.dst, 0);
    let mut lesser = places.next_near(ranks, windows, 0, at);
    while lesser < at {
        if is_under(places.at(lesser), ranked) {
            return true;
        }
        lesser = places.next_near(ranks, windows, lesser + 1, at);
    }
    false
}

/// Whether some slot behind one holds a piece that overlaps this one and is higher.
pub(crate) fn is_before_higher(places: &Placed, at: usize, ranked: &Ranked) -> bool
    requires { at < length places.now }
    ensures some { IsTrue result → (j : ℕ) × (high : RankedPiece) × (at < j) × (slot places.now j ≡ Some high)
        × PiecesOverlap ranked.now.piece high.piece × (ranked.now.rank < high.rank) }
    ensures none { IsFalse result → (j : ℕ) (second : RankedPiece) → at < j → slot places.now j ≡ Some second
        → PiecesOverlap ranked.now.piece second.piece → second.rank ≤ ranked.now.rank }
{
    let slots = places.len();
    let ranks = ranks_above(ranked.rank);
    let windows = span_of(&ranked.piece.dst, 0);
    let mut greater = places.next_near(ranks, windows, at + 1, slots);
    while greater < slots {
        if is_over(places.at(greater), ranked) {
            return true;
        }
        greater = places.next_near(ranks, windows, greater + 1, slots);
    }
    false
}

/// Whether a slot has a piece of lower priority than another that it overlaps.
fn is_under(place: &Option<Known>, ranked: &Ranked) -> bool
    ensures { IsTrue result ↔ ((low : RankedPiece) × (place.now ≡ Some low) × PiecesOverlap low.piece ranked.now.piece × (low.rank < ranked.now.rank)) }
{
    match place {
        None => false,
        Some(low) => {
            low.ranked.rank < ranked.rank && piece_overlaps(&low.ranked.piece, &ranked.piece)
        }
    }
}

/// Whether a slot has a piece of higher priority than another that it overlaps.
fn is_over(place: &Option<Known>, ranked: &Ranked) -> bool
    ensures { IsTrue result ↔ ((high : RankedPiece) × (place.now ≡ Some high) × PiecesOverlap ranked.now.piece high.piece × (ranked.now.rank < high.rank)) }
{
    match place {
        None => false,
        Some(high) => {
            ranked.rank < high.ranked.rank && piece_overlaps(&ranked.piece, &high.ranked.piece)
        }
    }
}

/// Another slot than one that holds an entry of the same value, mask and tag as this.
pub(crate) fn copy_of(places: &Placed, at: usize, entry: &Entry) -> Option<usize>
    ensures some { IfSome result (λ other. (other ≢ at) × ((copy : RankedPiece) × (slot places.now other ≡ Some copy)
        × IsTrue (entries.same_match entry.now (entry_for copy)))) }
    ensures inside { IfSome result (λ other. other < length places.now) }
    ensures none { IsNone result → (other : ℕ) (copy : RankedPiece) → other ≢ at → slot places.now other ≡ Some copy
        → IsTrue (entries.same_match entry.now (entry_for copy)) → ⊥ }
{
    let alike = places.alike(entry);
    for other in alike {
        if is_copy(places, at, *other, entry) {
            return Some(*other);
        }
    }
    None
}

/// Whether a slot is another than one and holds an entry of the same value, mask and tag.
fn is_copy(places: &Placed, at: usize, other: usize, entry: &Entry) -> bool
    ensures copy { IsTrue result ↔ (other ≢ at) × ((copy : RankedPiece) × (slot places.now other ≡ Some copy)
        × IsTrue (entries.same_match entry.now (entry_for copy))) }
    ensures inside { IsTrue result → other < length places.now }
{
    if other == at {
        return false;
    }
    if other >= places.len() {
        return false;
    }
    holds_match(places.at(other), entry)
}

/// Whether a slot holds an entry of the same value, mask and tag.
fn holds_match(place: &Option<Known>, entry: &Entry) -> bool
    ensures { IsTrue result ↔ ((copy : RankedPiece) × (place.now ≡ Some copy) × IsTrue (entries.same_match entry.now (entry_for copy))) }
{
    match place {
        None => false,
        Some(held) => same_match(entry, &held.entry),
    }
}

/// The piece of a slot that holds just this entry.
pub(crate) fn standing(places: &Placed, entry: &Entry) -> Option<Ranked>
    ensures found { IfSome result (λ ranked. (entry_for ranked ≡ entry.now) × ((at : ℕ) × (slot places.now at ≡ Some ranked))) }
    ensures none { IsNone result → (at : ℕ) (ranked : RankedPiece) → slot places.now at ≡ Some ranked → entry_for ranked ≡ entry.now → ⊥ }
{
    let alike = places.alike(entry);
    for at in alike {
        if let Some(ranked) = piece_at(places, *at, entry) {
            return Some(ranked);
        }
    }
    None
}

/// The piece of a slot, if there is such a slot and it holds just this entry.
fn piece_at(places: &Placed, at: usize, entry: &Entry) -> Option<Ranked>
    ensures found { IfSome result (λ ranked. (slot places.now at ≡ Some ranked) × (entry_for ranked ≡ entry.now)) }
    ensures none { IsNone result → (ranked : RankedPiece) → slot places.now at ≡ Some ranked → entry_for ranked ≡ entry.now → ⊥ }
{
    if at < places.len() {
        piece_with(places.at(at), entry)
    } else {
        None
    }
}

/// The piece of a slot, if it holds just this entry.
fn piece_with(place: &Option<Known>, entry: &Entry) -> Option<Ranked>
    ensures found { IfSome result (λ ranked. (place.now ≡ Some ranked) × (entry_for ranked ≡ entry.now)) }
    ensures none { IsNone result → (ranked : RankedPiece) → place.now ≡ Some ranked → entry_for ranked ≡ entry.now → ⊥ }
{
    match place {
        None => None,
        Some(held) => {
            if same_entry(&held.entry, entry) {
                Some(held.ranked)
            } else {
                None
            }
        }
    }
}

//! Whether the pieces in the slots are in order.

ghost use Rattle.std.specs.Prelude.{◌≡◌, ◌↔◌, ◌<◌, ◌≤◌, ◌^◌, ℕ, IfSome, IsNone, IsTrue, IsFalse, Some, length};
ghost use Rattle.slot_order.specs.Order.{slot};
ghost use Rattle.rule_model.specs.Piece.{PiecesOverlap};
ghost use Rattle.rule_model.specs.Entry.{RankedPiece};
ghost use Rattle.readback.specs.Places.{AreInOrder, IsBehindLower};

use commit_writes::Ranked;
use rule_model::piece_overlaps;

/// The least slot whose piece stands behind an overlapping one of lower priority.
pub(crate) fn crossed(places: &[Option<Ranked>]) -> Option<u32>
    requires { length places.now < 2 ^ 32 }
    ensures some { IfSome result (λ at. IsBehindLower places.now at) }
    ensures none { IsNone result → AreInOrder places.now }
{
    for at in 0..places.len() {
        if let Some(ranked) = &places[at] {
            if is_behind_lower(places, at, ranked) {
                return Some(at as u32);
            }
        }
    }
    None
}

/// Whether a slot before a piece's slot has an overlapping piece of lower priority.
fn is_behind_lower(places: &[Option<Ranked>], at: usize, ranked: &Ranked) -> bool
    requires { slot places.now at ≡ Some ranked.now }
    ensures some { IsTrue result → IsBehindLower places.now at }
    ensures none { IsFalse result → (i : ℕ) (first : RankedPiece) → i < at → slot places.now i ≡ Some first
        → PiecesOverlap first.piece ranked.now.piece → ranked.now.rank ≤ first.rank }
{
    for lesser in 0..at {
        if is_under(&places[lesser], ranked) {
            return true;
        }
    }
    false
}

/// Whether a slot has a piece of lower priority than another that it overlaps.
fn is_under(place: &Option<Ranked>, ranked: &Ranked) -> bool
    ensures { IsTrue result ↔ ((low : RankedPiece) × (place.now ≡ Some low) × PiecesOverlap low.piece ranked.now.piece × (low.rank < ranked.now.rank)) }
{
    match place {
        None => false,
        Some(low) => low.rank < ranked.rank && piece_overlaps(&low.piece, &ranked.piece),
    }
}

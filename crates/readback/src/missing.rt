//! Whether the pieces that a commit leaves where they are stand.

ghost use Rattle.std.specs.Prelude.{◌≡◌, ◌↔◌, ◌⊎◌, IfSome, IsNone, IsTrue, Contains, true, false};
ghost use Rattle.std.specs.List.{AllByRecursion};
ghost use Rattle.rule_model.specs.Entry.{RankedPiece, entry_for};
ghost use Rattle.readback.specs.Tasks.{stands_in};

use crate::commit::{Coded, Commit};
use crate::reading::find;
use crate::standing::stands;
use rule_model::{Entry, Rank};

/// The priority of the first old piece that isn't taken out and stands in no slot. An erased piece is told by its
/// entry.
pub(crate) fn missing(held: &[Option<Entry>], commit: &Commit) -> Option<Rank>
    ensures some { IfSome result (λ priority. (ranked : RankedPiece) × Contains commit.now.old ranked
        × ((other : RankedPiece) → Contains commit.now.erased other → entry_for other ≡ entry_for ranked → ⊥)
        × (stands_in held.now ranked ≡ false) × (ranked.rank ≡ priority)) }
    ensures none { IsNone result → (ranked : RankedPiece) → Contains commit.now.old ranked
        → ((other : RankedPiece) × Contains commit.now.erased other × (entry_for other ≡ entry_for ranked)) ⊎ (stands_in held.now ranked ≡ true) }
{
    for piece in &commit.old {
        if !stands(held, piece) && !is_listed(&commit.erased, piece) {
            return Some(piece.rank());
        }
    }
    None
}

/// Whether one of some pieces has the entry of this one.
fn is_listed(pieces: &[Coded], piece: &Coded) -> bool
    ensures { IsTrue result ↔ ((other : RankedPiece) × Contains pieces.now other × (entry_for other ≡ entry_for piece.now)) }
{
    find(pieces, &piece.entry).is_some()
}

//! The ids of the live pieces that overlap one, found by a pass over all of them.
ghost use Rattle.std.specs.Prelude.{◌≡◌, ◌++◌, ◌∷◌, [], IfOk, OnOk};
ghost use Rattle.overlap_index.specs.declared.scan.Side.TheVariants as side;
ghost use Rattle.placement.specs.Live.{is_over};
ghost use Rattle.overlap_index.specs.Sides.{ids_on, side_of};
ghost use Rattle.overlap_index.specs.Near.{columns_of};

use crate::columns::Columns;
use crate::near::spans_of;
use placement::LivePiece;
use rule_model::piece_overlaps;
use std::alloc::{AllocError, Global};

/// Which of the pieces that overlap one: those of higher or those of lower priority.
#[derive(Clone, Copy, Debug, Drop)]
pub(crate) enum Side {
    /// Higher priority.
    Above,
    /// Lower priority.
    Below,
}

/// The ids on either side of a piece.
#[derive(Drop)]
pub(crate) struct Found {
    pub(crate) above: Vec<u32>,
    pub(crate) below: Vec<u32>,
}

impl Found {
    /// Puts the id of one live piece more on its side of a piece, if it is on one.
    pub(crate) fn put(&mut self, other: &LivePiece, of: &LivePiece) -> Result<(), AllocError>
        ensures above { OnOk result (self.new.above.items ≡ self.old.above.items ++ ids_on side.Above of.now (other.now ∷ [])) }
        ensures below { OnOk result (self.new.below.items ≡ self.old.below.items ++ ids_on side.Below of.now (other.now ∷ [])) }
    {
        match side_of(other, of) {
            Some(Side::Above) => self.above.push(other.id)?,
            Some(Side::Below) => self.below.push(other.id)?,
            None => {}
        }
        Ok(())
    }
}

/// The ids on either side of a piece. Pieces that are far from it aren't looked at.
pub(crate) fn overlapping(
    alloc: Global,
    of: &LivePiece,
    pieces: &[LivePiece],
    columns: &Columns,
) -> Result<Found, AllocError>
    requires { columns.now ≡ columns_of pieces.now }
    ensures above { IfOk result (λ found. found.above.items ≡ ids_on side.Above of.now pieces.now) }
    ensures below { IfOk result (λ found. found.below.items ≡ ids_on side.Below of.now pieces.now) }
{
    let spans = spans_of(&of.piece);
    let mut found = Found {
        above: Vec::new(alloc),
        below: Vec::new(alloc),
    };
    let mut next = 0;
    while next < pieces.len() {
        next = columns.next_near(spans, next);
        if next < pieces.len() {
            found.put(&pieces[next], of)?;
            next += 1;
        }
    }
    Ok(found)
}

/// On which side of a piece another one is: on none where no key matches both, or they are of one priority.
fn side_of(other: &LivePiece, of: &LivePiece) -> Option<Side>
    ensures { result ≡ side_of other.now of.now }
{
    if is_over(other, of) {
        Some(Side::Above)
    } else if is_over(of, other) {
        Some(Side::Below)
    } else {
        None
    }
}

/// Whether the first piece overlaps the second and has the higher priority. The priorities are looked at first: that
/// is the cheaper test, and of two pieces it fails one way round at least, so that both ways compare them once.
pub(crate) fn is_over(upper: &LivePiece, lower: &LivePiece) -> bool
    ensures { result ≡ is_over upper.now lower.now }
{
    lower.rank < upper.rank && piece_overlaps(&upper.piece, &lower.piece)
}

//! The ids that overlap a live one: as they are linked, or by a pass over all that are live.
ghost use Rattle.std.specs.Prelude.{◌≡◌};
ghost use Rattle.std.specs.Iterator.{YieldsFirst, item_count};
ghost use Rattle.overlap_index.specs.Passing.{left_of_pass};
ghost use Rattle.overlap_index.specs.Sides.{is_on};

use crate::scan::{Side, is_over};
use order_chains::Partners;
use placement::LivePiece;
use std::marker::Model;

/// The ids on one side of a live one, seen as the list of those that are left.
#[derive(Drop)]
pub struct Overlaps<'a> {
    pub(crate) origin: Origin<'a>,
}

/// Where they come from.
#[derive(Drop)]
pub(crate) enum Origin<'a> {
    Linked(Partners<'a>),
    Passed(Pass<'a>),
}

/// A pass over live pieces, from a place on.
#[derive(Drop)]
pub(crate) struct Pass<'a> {
    pub(crate) pieces: &'a [LivePiece],
    pub(crate) of: LivePiece,
    pub(crate) side: Side,
    pub(crate) at: usize,
}

impl<'a> Model for Overlaps<'a> {
    ghost use Rattle.std.specs.Prelude.{List, ℕ};

    ghost Value = { List ℕ };

    ghost use Rattle.overlap_index.specs.Passing.{left_of};

    ghost view = { λ o. left_of o.origin };
}

impl<'a> Iterator for Overlaps<'a> {
    type Item = u32;

    ghost next_gives = { YieldsFirst (λ rest. rest) };

    ghost remaining = { item_count (λ rest. rest) };

    fn next(&mut self) -> Option<u32> {
        match &mut self.origin {
            Origin::Linked(partners) => partners.next(),
            Origin::Passed(pass) => pass.next_on(),
        }
    }
}

impl<'a> Pass<'a> {
    /// The next id on the side.
    fn next_on(&mut self) -> Option<u32>
        ensures { YieldsFirst left_of_pass self.old result self.new }
    {
        while self.at < self.pieces.len() {
            let one = &self.pieces[self.at];
            self.at += 1;
            if is_on(self.side, one, &self.of) {
                return Some(one.id);
            }
        }
        None
    }
}

/// Whether a piece is on this side of another.
fn is_on(side: Side, other: &LivePiece, of: &LivePiece) -> bool
    ensures { result ≡ is_on side other.now of.now }
{
    match side {
        Side::Above => is_over(other, of),
        Side::Below => is_over(of, other),
    }
}

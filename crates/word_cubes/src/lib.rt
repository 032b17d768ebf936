//! Cubes of search words: those that agree with a value wherever a mask is set, as an entry's words do.
//!
//! Where an entry hits some words of a cube and not others, it tests a bit that is free in the cube. By that bit the
//! cube is cut in two halves, and each of its words is in one of them. So what holds of each word of a cube is found by
//! cutting, with no more to be shown than that.
//!
//! [`Extent`] says which words of a cube an entry hits: none, each, or some, with a bit to cut at.
#![tactic(auto)]

mod cutting;
mod lanes;

ghost use Rattle.std.specs.Prelude.{◌≡◌};
ghost use Rattle.rule_model.specs.Entry.{hits};
ghost use Rattle.word_cubes.specs.Cube.{cube_holds};

pub use cutting::{halves, with_lane};
pub use lanes::{extent_of, lane_of};
use rule_model::{Entry, Word};

/// The words that agree with the value wherever the mask is set.
#[derive(Clone, Copy, Debug, PartialEq, Eq)]
pub struct Cube {
    pub value: Word,
    pub mask: Word,
}

/// Which words of a cube an entry hits.
#[derive(Clone, Copy, Debug, PartialEq, Eq)]
pub enum Extent {
    /// None of them.
    Misses,
    /// Each of them.
    Hits,
    /// It tests a bit that is free in the cube: one of a lane, the greatest of the first lane that has such bits.
    Splits { lane: usize, bit: u32 },
}

/// The words that an entry hits.
pub fn cube_of(entry: &Entry) -> Cube
    ensures { (word : Word) → cube_holds result word ≡ hits entry.now word }
{
    Cube {
        value: entry.value,
        mask: entry.mask,
    }
}

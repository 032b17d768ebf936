//! The search for a packet that gets a wrong answer, among the keys whose words are in a cube.
//!
//! What the device answers, and what the old and the new set do, are three lists of entries, of which the first that hits
//! a word decides. In a cube in which each list has one answer for all words, the answers are compared; in another one
//! some first entry tests a bit that is free, and the cube is cut there (`word_cubes`). An entry that hits no word of a
//! half is left out there, and so is all behind one that hits each. So the search is exact, and its proof is no more
//! than that each word of a cube is in one of its halves.
//!
//! Mostly nothing is cut: where the device has the same entries in a cube as a set that will do, it answers alike. Else
//! the cube is cut at the first entry that one of the two has and the other hasn't.
//!
//! # Decided
//! - **The search ends behind so many cubes** and tells so: how many there are is bounded by no more than the number of
//!   keys, where entries overlap as they like.
//! - **A cube that tests a word of a table is cut at the port** where it would leak: few of its words may be words of keys.
//!   What the words at all ports of a cube have in common is known, so that most of it is soon left out.
#![tactic(auto)]

mod alike;
mod descent;
mod narrowing;
mod settled;
mod tables;

pub use descent::search;
use driver_trace::{Asked, Compared};
pub use narrowing::{narrowed, narrowed_slots};
use rule_model::Entry;
pub use settled::agree;
use std::vec::Vec;
pub use tables::{PortTables, PortWords};
use word_cubes::Cube;

/// What is asked of the answers.
#[derive(Clone, Copy, Debug, PartialEq, Eq)]
pub struct Question {
    pub by: Compared,
    pub asked: Asked,
}

/// Entries of which the first that hits a word decides: of the device, of the old and of the new set.
#[derive(Debug, Drop)]
pub struct AnswerLists {
    pub device: Vec<Entry>,
    pub old: Vec<Entry>,
    pub new: Vec<Entry>,
}

/// What a search found in a cube.
#[derive(Clone, Copy, Debug, PartialEq, Eq)]
pub enum Sought {
    /// No key whose word is in it gets a wrong answer.
    Clear,
    /// Each word of this cube gets a wrong answer.
    Leaks(Cube),
    /// There were too many cubes.
    TooMany,
}

//! Rows of marks, 64 a word, in which a search passes 64 places with no mark at a step.
ghost use Rattle.std.specs.Prelude.{◌≡◌, ◌<◌, ◌≤◌, true, false, [], OnOk, OnErr, length, replicate, slice_set, slice_index_or};
ghost use Rattle.word_tree.specs.Marks.{IsNextSet, IsLastSet};

use crate::{MOST_PLACES, flat};
use std::alloc::{AllocError, Global};
use std::marker::Model;
use word_tree::words::put;

/// A row of places, each marked or not.
#[derive(Debug, Drop)]
pub struct Marks {
    // The bit of each place, 64 places a word, 1 where it is marked.
    words: Vec<u64>,
    // How many places there are.
    places: u32,
}

impl Model for Marks {
    ghost use Rattle.std.specs.Prelude.{ℕ, ◌+◌, ◌*◌, ◌<◌, ◌≤◌, Bool, List, length};
    ghost use Rattle.slot_order.specs.Order.{most_slots};
    ghost use Rattle.word_tree.specs.Marks.{marks_of};

    ghost Value = { List Bool };

    ghost view = { λ m. marks_of m.words.items 0 m.places };

    ghost invariant = { λ m. (m.places ≤ most_slots) × (m.places ≤ length m.words.items * 64) × (length m.words.items * 64 < most_slots + 64) };
}

impl Marks {
    /// Makes a row of no places, which takes its memory from `alloc` as it is restarted.
    pub fn new(alloc: Global) -> Marks
        ensures { result ≡ [] }
    {
        Marks {
            words: Vec::new(alloc),
            places: 0,
        }
    }

    /// Makes it a row of `places` places, up to `MOST_PLACES`, none of them marked, in the memory that it has where that is
    /// enough. After a refusal it has no places.
    pub fn restart(&mut self, places: u32) -> Result<(), AllocError>
        requires { places ≤ MOST_PLACES }
        ensures unmarked { OnOk result (self.new ≡ replicate places false) }
        ensures refused { OnErr result (self.new ≡ []) }
    {
        self.places = 0;
        self.words.clear();
        self.words.resize(places.div_ceil(64) as usize, 0)?;
        self.places = places;
        Ok(())
    }

    /// The number of places, up to `MOST_PLACES`.
    pub fn places(&self) -> u32
        ensures number { result ≡ length self.now }
        ensures most { result ≤ MOST_PLACES }
    {
        self.places
    }

    /// Marks a place, and no other one.
    pub fn mark(&mut self, at: u32)
        requires { at < length self.old }
        ensures { self.new ≡ slice_set self.old at true }
    {
        put(&mut self.words, at);
    }

    /// Whether a place is marked.
    pub fn is_marked(&self, at: u32) -> bool
        requires { at < length self.now }
        ensures { result ≡ slice_index_or self.now at false }
    {
        (self.words[(at / 64) as usize] >> (at % 64)) % 2 == 1
    }

    /// The least marked place from `from` on and before `to`, or `None` exactly where none there is.
    pub fn next_marked(&self, from: u32, to: u32) -> Option<u32>
        requires { to ≤ length self.now }
        ensures { IsNextSet self.now from to result }
    {
        flat::next_marked(&self.words, from, to)
    }

    /// The greatest marked place from `from` on and before `to`, or `None` exactly where none there is.
    pub fn last_marked(&self, from: u32, to: u32) -> Option<u32>
        requires { to ≤ length self.now }
        ensures { IsLastSet self.now from to result }
    {
        flat::last_marked(&self.words, from, to)
    }
}

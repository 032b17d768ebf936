//! Sets of numbers below a bound, as a tree of words of 64 bits.
//!
//! A `Members` is a row of places, each marked or not, and contracts see it as that row. The lowest
//! level has a bit for each place, and each level above it a bit for each word below, which tells
//! whether that word isn't 0. So a search passes 64 places, 4,096 or more with no mark at a step, and
//! takes at most a step up and one down for each level. No call but `new` and `try_copy` takes memory.
//!
//! # Decided
//! - **All words stand in one vector, the root's first, and bit `q` of all of them tells of word `q + 1`.** So a bit's child
//!   is one word behind its own number, a word's parent is the bit before its number, and there is no table of levels: that
//!   all levels agree is one sentence (`IsTree`). The lowest level begins at bit 0, 64, 4,160 or 266,304, by how many levels
//!   there are. The price is that these stand there whole: 1 word past 64 places, 65 past 4,096, 4,161 past 262,144.
//! - **A mark is set where it isn't yet**, so that the number of marks is kept beside them: a place that is marked again costs
//!   a look at its bit. Whoever marks some places again and again in a row that is short and soon given up has a flat one.
#![tactic(auto)]

ghost use Rattle.std.specs.Prelude.{◌≡◌, suc, ◌+◌, ◌<◌, ◌≤◌, true, false, IfOk, length, replicate, slice_set, slice_index_or, count_by};
ghost use Rattle.word_tree.specs.Marks.{IsNextSet, IsLastSet, IsNearestSet, IsBelow, IsFrom, nearer_of};
ghost use Rattle.word_tree.specs.Tree.{start};

mod tree;
pub mod words;

use std::alloc::{AllocError, Global};
use std::marker::Model;

/// The greatest number of places.
pub const MOST_PLACES: u32 = 16_777_216;

/// A row of places, each marked or not.
#[derive(Debug, Drop)]
pub struct Members {
    // The bits of all levels, the root's word first.
    words: Vec<u64>,
    // How many levels there are above the lowest.
    depth: u32,
    // The first bit of the lowest level.
    base: u32,
    // How many places there are.
    places: u32,
    // How many places are marked.
    count: u32,
}

impl Model for Members {
    ghost use Rattle.std.specs.Prelude.{◌≡◌, Bool, List, count_by};
    ghost use Rattle.word_tree.specs.Marks.{marks_of};
    ghost use Rattle.word_tree.specs.Tree.{IsRow};

    ghost Value = { List Bool };

    ghost view = { λ m. marks_of m.words.items m.base m.places };

    ghost invariant = { λ m. IsRow m.words.items m.depth m.base m.places × (m.count ≡ count_by (λ mark. mark) (marks_of m.words.items m.base m.places)) };
}

impl Members {
    /// Makes a row of `places` places, up to `MOST_PLACES`, none of them marked.
    pub fn new(alloc: Global, places: u32) -> Result<Members, AllocError>
        requires { places ≤ MOST_PLACES }
        ensures { IfOk result (λ marks. marks ≡ replicate places false) }
    {
        let depth = depth_of(places);
        let base = base_of(depth);
        let words = vec![in alloc; 0; (base / 64 + places.div_ceil(64)) as usize]?;
        Ok(Members {
            words,
            depth,
            base,
            places,
            count: 0,
        })
    }

    /// The number of places, up to `MOST_PLACES`.
    pub fn places(&self) -> u32
        ensures number { result ≡ length self.now }
        ensures most { result ≤ MOST_PLACES }
    {
        self.places
    }

    /// The number of marked places.
    pub fn count(&self) -> u32
        ensures { result ≡ count_by (λ mark. mark) self.now }
    {
        self.count
    }

    /// Whether a place is marked.
    pub fn contains(&self, at: u32) -> bool
        requires { at < length self.now }
        ensures { result ≡ slice_index_or self.now at false }
    {
        let bit = self.base + at;
        (self.words[(bit / 64) as usize] >> (bit % 64)) % 2 == 1
    }

    /// Marks a place, and no other one.
    pub fn insert(&mut self, at: u32)
        requires { at < length self.old }
        ensures { self.new ≡ slice_set self.old at true }
    {
        if !self.contains(at) {
            tree::set(&mut self.words, self.depth, self.base + at);
            self.count += 1;
        }
    }

    /// Takes the mark of a place away, and no other one.
    pub fn remove(&mut self, at: u32)
        requires { at < length self.old }
        ensures { self.new ≡ slice_set self.old at false }
    {
        if self.contains(at) {
            tree::clear(&mut self.words, self.depth, self.base + at);
            self.count -= 1;
        }
    }

    /// The least marked place from `from` on and before `to`, or `None` exactly where none there is.
    pub fn next(&self, from: u32, to: u32) -> Option<u32>
        requires { to ≤ length self.now }
        ensures { IsNextSet self.now from to result }
    {
        if from >= to {
            return None;
        }
        let Some(bit) = tree::next_leaf(&self.words, self.depth, self.base + from) else {
            return None;
        };
        let at = bit - self.base;
        if at < to { Some(at) } else { None }
    }

    /// The greatest marked place from `from` on and before `to`, or `None` exactly where none there is.
    pub fn last(&self, from: u32, to: u32) -> Option<u32>
        requires { to ≤ length self.now }
        ensures { IsLastSet self.now from to result }
    {
        if from >= to {
            return None;
        }
        let Some(bit) = tree::last_leaf(&self.words, self.depth, self.base + (to - 1)) else {
            return None;
        };
        let at = bit - self.base;
        if from <= at { Some(at) } else { None }
    }

    /// The marked place from `from` on and before `to` that is nearest to `mid`, the lower one of two at
    /// the same distance. `mid` may lie outside. `None` exactly where none there is marked.
    pub fn nearest(&self, from: u32, to: u32, mid: u32) -> Option<u32>
        requires { to ≤ length self.now }
        ensures { IsNearestSet self.now from to mid result }
    {
        let above = self.next(mid.max(from), to);
        let below = self.last(from, mid.min(to));
        nearer(mid, below, above)
    }

    /// Marks all places.
    pub fn fill(&mut self)
        ensures { self.new ≡ replicate (length self.old) true }
    {
        let places = self.places();
        for at in 0..places {
            self.insert(at);
        }
    }

    /// Makes a copy of its own memory.
    pub fn try_copy(&self, alloc: Global) -> Result<Members, AllocError>
        ensures { IfOk result (λ copy. copy ≡ self.now) }
    {
        let words = Vec::from_slice(alloc, &self.words)?;
        Ok(Members {
            words,
            depth: self.depth,
            base: self.base,
            places: self.places,
            count: self.count,
        })
    }
}

/// Of a place below `mid` and one that isn't, the nearer one, the lower of two at one distance.
fn nearer(mid: u32, below: Option<u32>, above: Option<u32>) -> Option<u32>
    requires below { IsBelow mid below }
    requires above { IsFrom mid above }
    ensures { result ≡ nearer_of mid below above }
{
    let Some(low) = below else {
        return above;
    };
    let Some(high) = above else {
        return below;
    };
    if high - mid < mid - low { above } else { below }
}

/// How many levels a tree of so many places has above the lowest.
fn depth_of(places: u32) -> u32
    requires { places ≤ MOST_PLACES }
    ensures deep { result ≤ 3 }
    ensures room { start result + places ≤ start (suc result) }
{
    if places <= 64 {
        0
    } else if places <= 4_096 {
        1
    } else if places <= 262_144 {
        2
    } else {
        3
    }
}

/// The first bit of the lowest level of a tree.
fn base_of(depth: u32) -> u32
    requires { depth ≤ 3 }
    ensures { result ≡ start depth }
{
    if depth == 0 {
        0
    } else if depth == 1 {
        64
    } else if depth == 2 {
        4_160
    } else {
        266_304
    }
}

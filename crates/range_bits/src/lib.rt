//! Which bit of a translation table stands for which live range of ports.
//!
//! A device translates each of a packet's two ports into a word of 16 bits, by a table of one word for each port. A
//! range of ports that isn't one block gets a bit of its field: an entry tests that bit in place of the port, and in
//! the table the bit is set at exactly the range's ports. So such a range takes one entry, where its cover may need 30.
//!
//! A `BitMap` holds the live ranges of one field, by their bits. A new range gets the least free bit, and a bit that is
//! released is free for the next one. `word_for` makes a table's word at a port: each live bit by its range, and the
//! other bits as they were. No entry tests a free bit, so what it says costs no write.
//!
//!     0: 1-1023    1: 80-443    2: free    ..
//!     the word at port 443 is 0b11, and 0b01 at port 444, with its other bits as before
//!
//! The map has room for its 16 ranges in itself, and no call takes memory.
//!
//! # Decided
//! - **`range_of` takes any bit**, and answers None from 16 on: None comes exactly where the bit isn't live.
//! - **That a bit belongs to one live range is the map's invariant**, which `live`, `assign` and `release` hand out.
#![tactic(auto)]

mod laws;

ghost use Rattle.std.specs.Prelude.{◌≡◌, ◌≢◌, ℕ, ◌+◌, ◌<◌, ◌≤◌, ◌↔◌, None, Some, [], ◌∷◌, IsSome, IsNone, IsErr, IfSome, IfOk, OnErr, IsTrue, slice_set};
ghost use Rattle.rule_model.specs.PortRange.{PortRange, IsPortRange, is_bit_set, range_holds};
ghost use Rattle.range_bits.specs.LiveRanges.{no_ranges, range_at, bit_of, free_bit, with_ranges, newly_live, with_bit, word_for};
ghost use Rattle.range_bits.specs.FieldMap.{IsFieldMap, live_count};

pub use laws::{kept_ranges_have_one_bit, new_ranges_get_one_bit};
use rule_model::Ports;
use std::marker::Model;
use thiserror::Error;

/// How many bits a field has.
pub const FIELD_BITS: u8 = 16;

/// Each of a field's 16 bits has a live range already.
#[derive(Clone, Copy, Debug, PartialEq, Eq, Error)]
#[error("no bit is free")]
pub struct NoBit;

/// The live ranges of a field of ports, by their bits.
#[derive(Clone, Copy, Debug)]
pub struct BitMap {
    ranges: [Option<Ports>; FIELD_BITS as usize],
}

impl Model for BitMap {
    ghost use Rattle.range_bits.specs.LiveRanges.{LiveRanges};
    ghost use Rattle.range_bits.specs.FieldMap.{IsFieldMap};

    ghost Value = { LiveRanges };

    ghost view = { λ m. m.ranges };

    ghost inverse = { λ m. record { ranges = m } };

    ghost invariant = { λ m. IsFieldMap m.ranges };
}

impl BitMap {
    /// A field without live ranges: each of its bits is free.
    pub fn new() -> BitMap
        ensures { result ≡ no_ranges }
    {
        BitMap {
            ranges: [None; FIELD_BITS as usize],
        }
    }

    /// The bit of a range, below `FIELD_BITS`. None comes exactly where the range isn't live.
    pub fn bit_of(&self, range: Ports) -> Option<u8>
        ensures bit { result ≡ bit_of self.now range }
        ensures none { IsNone result ↔ ((bit : ℕ) → range_at self.now bit ≢ Some range) }
        ensures below { IfSome result (λ bit. bit < FIELD_BITS) }
        ensures live { IfSome result (λ bit. range_at self.now bit ≡ Some range) }
        ensures one { IfSome result (λ bit. (other : ℕ) → range_at self.now other ≡ Some range → other ≡ bit) }
    {
        let ranges = &self.ranges;
        for bit in 0..FIELD_BITS {
            if ranges[bit as usize] == Some(range) {
                return Some(bit);
            }
        }
        None
    }

    /// Gives a range that isn't live the least free bit, which is below `FIELD_BITS`, and changes no other bit.
    /// `NoBit` comes exactly where each bit has a live range, and then nothing changes.
    pub fn assign(&mut self, range: Ports) -> Result<u8, NoBit>
        requires { bit_of self.old range ≡ None }
        ensures next { self.new ≡ with_ranges self.old (range ∷ []) }
        ensures bit { IfOk result (λ bit. free_bit self.old ≡ Some bit) }
        ensures given { IfOk result (λ bit. self.new ≡ slice_set self.old bit (Some range)) }
        ensures below { IfOk result (λ bit. bit < FIELD_BITS) }
        ensures free { IfOk result (λ bit. range_at self.old bit ≡ None) }
        ensures least { IfOk result (λ bit. (lower : ℕ) → lower < bit → IsSome (range_at self.old lower)) }
        ensures live { IfOk result (λ bit. range_at self.new bit ≡ Some range) }
        ensures others { IfOk result (λ bit. (other : ℕ) → other ≢ bit →
            range_at self.new other ≡ range_at self.old other) }
        ensures more { IfOk result (λ _. live_count self.new ≡ live_count self.old + 1) }
        ensures full { IsErr result ↔ (live_count self.old ≡ FIELD_BITS) }
        ensures unchanged { OnErr result (self.new ≡ self.old) }
        ensures map { IsFieldMap self.new }
    {
        right_range(range);
        match self.free_bit() {
            Some(bit) => {
                self.ranges[bit as usize] = Some(range);
                Ok(bit)
            }
            None => Err(NoBit),
        }
    }

    /// Frees a bit that has a live range, and changes no other bit.
    pub fn release(&mut self, bit: u8)
        requires { IsSome (range_at self.old bit) }
        ensures change { self.new ≡ slice_set self.old bit None }
        ensures free { range_at self.new bit ≡ None }
        ensures others { (other : ℕ) → other ≢ bit → range_at self.new other ≡ range_at self.old other }
        ensures fewer { live_count self.new + 1 ≡ live_count self.old }
        ensures map { IsFieldMap self.new }
    {
        self.ranges[bit as usize] = None;
    }

    /// How many ranges are live, at most `FIELD_BITS`.
    pub fn live(&self) -> u8
        ensures number { result ≡ live_count self.now }
        ensures most { result ≤ FIELD_BITS }
        ensures map { IsFieldMap self.now }
    {
        self.ranges.iter().filter(|held| held.is_some()).count() as u8
    }

    /// The range that has a bit. None comes exactly where the bit isn't live, as none from `FIELD_BITS` on is.
    pub fn range_of(&self, bit: u8) -> Option<Ports>
        ensures range { result ≡ range_at self.now bit }
        ensures right { IfSome result (λ range. IsPortRange range) }
        ensures below { IsSome result → bit < FIELD_BITS }
        ensures map { IsFieldMap self.now }
    {
        let ranges = &self.ranges;
        if bit >= FIELD_BITS {
            return None;
        }
        ranges[bit as usize]
    }

    /// The word of a translation table at a port, which was `old`: each live bit is set exactly where its range holds
    /// the port, and each other bit is as in `old`.
    pub fn word_for(&self, port: u16, old: u16) -> u16
        ensures word { result ≡ word_for self.now port old }
        ensures live { (bit : ℕ) (range : PortRange) → range_at self.now bit ≡ Some range →
            IsTrue (is_bit_set result bit) ↔ IsTrue (range_holds range port) }
        ensures others { (bit : ℕ) → range_at self.now bit ≡ None → is_bit_set result bit ≡ is_bit_set old bit }
    {
        let ranges = &self.ranges;
        let mut word = old;
        for live in 0..FIELD_BITS {
            if let Some(range) = ranges[live as usize] {
                word = with_bit(word, live, range.holds(port));
            }
        }
        word
    }

    /// The live ranges whose bits were free in an earlier map, under the same bits.
    pub fn newer_than(&self, before: &BitMap) -> BitMap
        ensures newer { result ≡ newly_live before.now self.now }
        ensures live { (bit : ℕ) (range : PortRange) → (range_at result bit ≡ Some range) ↔
            ((range_at before.now bit ≡ None) × (range_at self.now bit ≡ Some range)) }
    {
        let ranges = &self.ranges;
        let earlier = &before.ranges;
        let mut newer = [None; FIELD_BITS as usize];
        for place in 0..FIELD_BITS {
            if earlier[place as usize].is_none() {
                newer[place as usize] = ranges[place as usize];
            }
        }
        BitMap { ranges: newer }
    }

    /// The least free bit. None comes exactly where no bit is free.
    fn free_bit(&self) -> Option<u8>
        ensures bit { result ≡ free_bit self.now }
        ensures map { IsFieldMap self.now }
    {
        let ranges = &self.ranges;
        for least in 0..FIELD_BITS {
            if ranges[least as usize].is_none() {
                return Some(least);
            }
        }
        None
    }
}

/// A word with one bit set or clear, and its other bits as they are.
fn with_bit(word: u16, bit: u8, on: bool) -> u16
    requires { bit < FIELD_BITS }
    ensures { result ≡ with_bit word bit on }
{
    let mask = 1u16 << bit;
    if on { word | mask } else { word & !mask }
}

/// A range is right, by its type.
fn right_range(range: Ports)
    ensures { IsPortRange range }
{
    let _first = range.lo();
}

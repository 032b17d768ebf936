// One lane of every slot: a column of values, and one of masks.
ghost use Rattle.std.specs.Prelude.{◌≡◌, ℕ, ◌+◌, ◌<◌, ◌≤◌, length, slice_index, true, IfOk};
ghost use Rattle.lane_lookup.specs.Columns.{blank_lane, lane_off, with_cell};

use eight_lanes::eight;
use std::alloc::{AllocError, Global};
use std::marker::Model;
use std::simd::prelude::*;

/// The values and the masks of one lane, by slot, and whether some mask was ever other than 0.
#[derive(Drop)]
pub(crate) struct Column {
    values: Vec<u32>,
    masks: Vec<u32>,
    pub(crate) used: bool,
}

impl Model for Column {
    ghost use Rattle.lane_lookup.specs.Columns.{Lane};

    ghost Value = { Lane };

    ghost view = { λ c. record { values = c.values.items; masks = c.masks.items; used = c.used } };
}

impl Column {
    /// Zeros for this many slots.
    pub(crate) fn new(alloc: Global, slots: usize) -> Result<Column, AllocError>
        ensures { IfOk result (λ column. column ≡ blank_lane slots) }
    {
        Ok(Column {
            values: Vec::from_elem(alloc, 0, slots)?,
            masks: Vec::from_elem(alloc, 0, slots)?,
            used: false,
        })
    }

    /// Puts one slot's value and mask.
    pub(crate) fn set(&mut self, slot: usize, value: u32, mask: u32)
        requires values { slot < length self.old.values }
        requires masks { slot < length self.old.masks }
        ensures { self.new ≡ with_cell self.old value mask slot }
    {
        self.values[slot] = value;
        self.masks[slot] = mask;
        self.used = self.used || mask != 0;
    }

    /// Of the eight slots from `at` on, the bits of the lane that keep each from hitting the word.
    pub(crate) fn off(&self, at: usize, word: u32) -> u32x8
        requires values { at + 8 ≤ length self.now.values }
        requires masks { at + 8 ≤ length self.now.masks }
        ensures len { length result ≡ 8 }
        ensures lanes { (k : ℕ) → k < 8 → slice_index result k ≡ lane_off self.now word (at + k) }
    {
        off_eight(&self.values, &self.masks, at, word)
    }
}

/// The same of a column of values and one of masks.
fn off_eight(values: &[u32], masks: &[u32], at: usize, word: u32) -> u32x8
    requires values { at + 8 ≤ length values.now }
    requires masks { at + 8 ≤ length masks.now }
    ensures len { length result ≡ 8 }
    ensures lanes { (k : ℕ) → k < 8 → slice_index result k ≡ lane_off (record { values = values.now; masks = masks.now; used = true }) word (at + k) }
{
    (u32x8::splat(word) ^ eight(values, at)) & eight(masks, at)
}

//! What was done since the last drain.

ghost use Rattle.std.specs.Prelude.{◌≡◌, ◌<◌, ℕ, true, false, nat_eq, IfOk, length, slice_index_or};
ghost use Rattle.split_device.specs.State.{IsSplitInUse, SplitState};
ghost use Rattle.split_device.specs.Drains.{SinceDrain, is_drain_due, nothing_since, since_write};
ghost use Rattle.split_order.specs.Since.{IsSince, StandsIn};

use split_device::SplitWrite;
use std::alloc::{AllocError, Global};

/// Which slots in use were erased since the last drain, whether a slot was written, and whether a word of a table was.
#[derive(Drop)]
pub(crate) struct Since {
    // For each slot in use the stretch between two drains in which it was erased last, 0 where it never was: so a drain, of
    // which a commit may have as many as entries that move, begins another stretch, and walks over no slots.
    erased: Vec<u32>,
    // The number of this stretch, from 1. At the last number of its type all begins anew.
    stretch: u32,
    slots: bool,
    bits: bool,
}

impl Since {
    /// Nothing was done yet.
    pub(crate) fn new(alloc: Global, slots: u32) -> Result<Since, AllocError>
        ensures size { IfOk result (λ since. length since.erased.items ≡ slots) }
        ensures since { IfOk result (λ since. IsSince since nothing_since) }
    {
        Ok(Since {
            erased: vec![in alloc; 0u32; slots as usize]?,
            stretch: 1,
            slots: false,
            bits: false,
        })
    }

    /// Whether a drain must come before a part, whose slot holds an entry or not.
    pub(crate) fn is_due(&self, part: &SplitWrite, stands: bool) -> bool
        requires { IsSplitInUse (length self.now.erased.items) part.now }
        ensures { (since : SinceDrain) → IsSince self.now since → (state : SplitState) → StandsIn state part.now stands → result ≡ is_drain_due state since part.now }
    {
        match part {
            SplitWrite::Slot(_, _) => self.bits,
            SplitWrite::Result(slot, _, _) => self.bits || self.waits(*slot, stands),
            SplitWrite::Table(_, _, _) => false,
        }
    }

    /// Whether a result word waits for a drain: of a slot that holds an entry where any slot was written since the last one,
    /// and of an empty slot where that one was erased since.
    fn waits(&self, slot: u32, stands: bool) -> bool
        requires { slot < length self.now.erased.items }
        ensures { result ≡ elim stands [ true ↦ self.now.slots | false ↦ nat_eq (slice_index_or self.now.erased.items slot 0) self.now.stretch ] }
    {
        if stands {
            self.slots
        } else {
            self.erased[slot as usize] == self.stretch
        }
    }

    /// A part was made.
    pub(crate) fn note(&mut self, part: &SplitWrite)
        requires { IsSplitInUse (length self.old.erased.items) part.now }
        ensures size { length self.new.erased.items ≡ length self.old.erased.items }
        ensures since { (since : SinceDrain) → IsSince self.old since → IsSince self.new (since_write since part.now) }
    {
        match part {
            SplitWrite::Slot(slot, None) => {
                self.slots = true;
                self.erased[*slot as usize] = self.stretch;
            }
            SplitWrite::Slot(_, Some(_)) => self.slots = true,
            SplitWrite::Result(_, _, _) => {}
            SplitWrite::Table(_, _, _) => self.bits = true,
        }
    }

    /// The device drained.
    pub(crate) fn drained(&mut self)
        ensures size { length self.new.erased.items ≡ length self.old.erased.items }
        ensures since { (since : SinceDrain) → IsSince self.old since → IsSince self.new nothing_since }
    {
        self.slots = false;
        self.bits = false;
        if self.stretch < u32::MAX {
            self.stretch += 1;
            return;
        }
        self.begin_anew();
    }

    /// No slot was erased in any stretch, and the first one begins.
    fn begin_anew(&mut self)
        ensures size { length self.new.erased.items ≡ length self.old.erased.items }
        ensures erased { (at : ℕ) → at < length self.new.erased.items → slice_index_or self.new.erased.items at 0 ≡ 0 }
        ensures stretch { self.new.stretch ≡ 1 }
        ensures slots { self.new.slots ≡ self.old.slots }
        ensures bits { self.new.bits ≡ self.old.bits }
    {
        self.stretch = 1;
        for place in 0..self.erased.len() {
            self.erased[place] = 0;
        }
    }
}

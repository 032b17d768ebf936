// Slots, result words and tables in memory, with the look-ups in flight.
ghost use Rattle.std.specs.Prelude.{◌≡◌, ◌<◌, ◌≤◌, ◌+◌, ◌↔◌, [], length, IfOk, OnOk, true};
ghost use Rattle.tcam_device.specs.Flight.{most_in_flight};
ghost use Rattle.split_device.specs.State.{IsSplitInUse, blank_split, split_apply, split_lookup};
ghost use Rattle.split_device.specs.Flight.{flight_count, no_flight, oldest_read, with_read, with_search, with_word};

use crate::memory::Memory;
use circular_buffer::HeapCircularBuffer;
use rule_model::{Key, Rank, Word};
use slot_order::MOST_SLOTS;
use split_device::SplitWrite;
use std::alloc::{AllocError, Global};
use std::marker::Model;
use tcam_device::MOST_IN_FLIGHT;

/// A memory, and what is in flight of it: words and found slots, each with its key. Both queues have their room from the
/// first, so no look-up takes memory.
#[derive(Drop)]
pub(crate) struct Lookups {
    memory: Memory,
    words: HeapCircularBuffer<(Key, Word)>,
    found: HeapCircularBuffer<(Key, Option<u32>)>,
}

impl Model for Lookups {
    ghost use Rattle.split_hardware.specs.Shadow.{LookedUp, HasFlightRoom};

    ghost Value = { LookedUp };

    ghost view = { λ l. record { state = l.memory.state; flight = record { words = l.words.items; found = l.found.items }; spare = l.memory.spare } };

    ghost invariant = { λ l. HasFlightRoom (record { words = l.words.items; found = l.found.items }) l.words.capacity l.found.capacity };
}

impl Lookups {
    /// A blank memory of this many slots, with nothing in flight, and room for no write.
    pub(crate) fn new(alloc: Global, slots: u32) -> Result<Lookups, AllocError>
        requires least { 0 < slots }
        requires most { slots ≤ MOST_SLOTS }
        ensures { IfOk result (λ lookups. lookups ≡ record { state = blank_split slots; flight = no_flight; spare = 0 }) }
    {
        Ok(Lookups {
            memory: Memory::new(alloc, slots)?,
            words: HeapCircularBuffer::with_capacity(alloc, MOST_IN_FLIGHT as usize)?,
            found: HeapCircularBuffer::with_capacity(alloc, MOST_IN_FLIGHT as usize)?,
        })
    }

    /// Makes room for this many writes. It fails only for want of memory.
    pub(crate) fn reserve(&mut self, n: u64) -> Result<(), AllocError>
        ensures state { self.new.state ≡ self.old.state }
        ensures flight { self.new.flight ≡ self.old.flight }
        ensures enough { OnOk result (n ≤ self.new.spare) }
        ensures least { self.old.spare ≤ self.new.spare }
    {
        self.memory.reserve(n)
    }

    /// The number of slots.
    pub(crate) fn count(&self) -> u32
        ensures { result ≡ length self.now.state.slots }
    {
        self.memory.count()
    }

    /// Makes a write of a slot that there is, or of a table. It takes no memory.
    pub(crate) fn make(&mut self, write: &SplitWrite)
        requires place { IsSplitInUse (length self.old.state.slots) write.now }
        requires room { 0 < self.old.spare }
        ensures state { self.new.state ≡ split_apply self.old.state write.now }
        ensures flight { self.new.flight ≡ self.old.flight }
        ensures spare { self.old.spare ≤ self.new.spare + 1 }
    {
        self.memory.make(write);
    }

    /// The result word of the least slot that hits the key's word.
    pub(crate) fn look(&self, key: &Key) -> Option<(Rank, u32)>
        ensures { result ≡ split_lookup self.now.state key.now }
    {
        let word = self.memory.word(key);
        let slot = self.memory.find(&word);
        self.memory.read(slot)
    }

    /// Puts the key's word by the tables now into flight.
    pub(crate) fn translate(&mut self, key: &Key)
        requires { flight_count self.old.flight < most_in_flight }
        ensures flight { self.new.flight ≡ with_word self.old.state self.old.flight key.now }
        ensures state { self.new.state ≡ self.old.state }
        ensures spare { self.new.spare ≡ self.old.spare }
    {
        let word = self.memory.word(key);
        match self.words.try_push_back((*key, word)) {
            Ok(()) => {}
            Err(_) => unreachable!(),
        }
    }

    /// Takes the oldest word out of flight, and puts the least slot that hits it, or none, into flight as a found slot.
    /// False comes exactly where no word is in flight.
    pub(crate) fn search(&mut self) -> bool
        ensures searched { (result ≡ true) ↔ (0 < length self.old.flight.words) }
        ensures flight { self.new.flight ≡ with_search self.old.state self.old.flight }
        ensures state { self.new.state ≡ self.old.state }
        ensures spare { self.new.spare ≡ self.old.spare }
    {
        match self.words.pop_front() {
            None => false,
            Some((key, word)) => {
                let slot = self.memory.find(&word);
                match self.found.try_push_back((key, slot)) {
                    Ok(()) => true,
                    Err(_) => unreachable!(),
                }
            }
        }
    }

    /// Takes the oldest found slot out of flight, and answers its result word.
    pub(crate) fn read(&mut self) -> Option<Option<(Rank, u32)>>
        ensures answer { result ≡ oldest_read self.old.state self.old.flight.found }
        ensures flight { self.new.flight ≡ with_read self.old.flight }
        ensures state { self.new.state ≡ self.old.state }
        ensures spare { self.new.spare ≡ self.old.spare }
    {
        match self.found.pop_front() {
            None => None,
            Some((_, slot)) => Some(self.memory.read(slot)),
        }
    }

    /// How many words and found slots are in flight.
    pub(crate) fn in_flight(&self) -> u32
        ensures { result ≡ flight_count self.now.flight }
    {
        self.words.len() as u32 + self.found.len() as u32
    }
}

// Slots and tables in memory, with the words of look-ups in flight.
ghost use Rattle.std.specs.Prelude.{◌≡◌, ◌<◌, ◌≤◌, ◌+◌, [], length, drop, slice_index, IfOk, OnOk};
ghost use Rattle.slot_order.specs.Order as order;
ghost use Rattle.tcam_device.specs.State.{IsInUse, apply, blank, lookup, table_of};
ghost use Rattle.tcam_device.specs.Flight.{most_in_flight, with_word, search_answer};

use crate::memory::Memory;
use circular_buffer::HeapCircularBuffer;
use rule_model::{Entry, Key, Rank, Word};
use slot_order::MOST_SLOTS;
use std::alloc::{AllocError, Global};
use std::marker::Model;
use tcam_device::{Field, MOST_IN_FLIGHT, Write};

/// A memory, and the words of it that are in flight with their keys. The queue has its room from the first, so no
/// look-up takes memory.
#[derive(Drop)]
pub(crate) struct Lookups {
    memory: Memory,
    flight: HeapCircularBuffer<(Key, Word)>,
}

impl Model for Lookups {
    ghost use Rattle.std.specs.Prelude.{◌≡◌};
    ghost use Rattle.tcam_device.specs.Flight.{most_in_flight};
    ghost use Rattle.memory_tcam.specs.Tcam.{RoomyPipeline};

    ghost Value = { RoomyPipeline };

    ghost view = { λ l. record { state = l.memory.state; flight = l.flight.items; spare = l.memory.spare } };

    ghost invariant = { λ l. l.flight.capacity ≡ most_in_flight };
}

impl Lookups {
    /// A blank memory of this many slots, no word in flight, and room for no write.
    pub(crate) fn new(alloc: Global, slots: u32) -> Result<Lookups, AllocError>
        requires least { 0 < slots }
        requires most { slots ≤ MOST_SLOTS }
        ensures { IfOk result (λ lookups. lookups ≡ record { state = blank slots; flight = []; spare = 0 }) }
    {
        Ok(Lookups {
            memory: Memory::new(alloc, slots)?,
            flight: HeapCircularBuffer::with_capacity(alloc, MOST_IN_FLIGHT as usize)?,
        })
    }

    /// Makes room for this many writes. It fails only for want of memory.
    pub(crate) fn reserve(&mut self, n: u64) -> Result<(), AllocError>
        ensures state { self.new.state ≡ self.old.state }
        ensures flight { self.new.flight ≡ self.old.flight }
        ensures enough { OnOk result (n ≤ self.new.spare) }
        ensures least { self.old.spare ≤ self.new.spare }
    {
        self.memory.reserve(n)
    }

    /// The number of slots.
    pub(crate) fn count(&self) -> u32
        ensures { result ≡ length self.now.state.slots }
    {
        self.memory.count()
    }

    /// What stands in a slot.
    pub(crate) fn slot(&self, slot: u32) -> Option<Entry>
        requires { slot < length self.now.state.slots }
        ensures { result ≡ order.slot self.now.state.slots slot }
    {
        self.memory.slot(slot)
    }

    /// The word of a table at a port.
    pub(crate) fn table_word(&self, field: Field, port: u16) -> u16
        ensures { result ≡ slice_index (table_of field self.now.state) port }
    {
        self.memory.table_word(field, port)
    }

    /// Makes a write of a slot that there is, or of a table. It takes no memory.
    pub(crate) fn make(&mut self, write: &Write)
        requires place { IsInUse (length self.old.state.slots) write.now }
        requires room { 0 < self.old.spare }
        ensures state { self.new.state ≡ apply self.old.state write.now }
        ensures flight { self.new.flight ≡ self.old.flight }
        ensures spare { self.old.spare ≤ self.new.spare + 1 }
    {
        self.memory.make(write);
    }

    /// Tag and result of the least slot that hits the key's word.
    pub(crate) fn look(&self, key: &Key) -> Option<(Rank, u32)>
        ensures { result ≡ lookup self.now.state key.now }
    {
        self.memory.look(key)
    }

    /// Puts the key's word by the tables now into flight.
    pub(crate) fn translate(&mut self, key: &Key)
        requires { length self.old.flight < most_in_flight }
        ensures flight { self.new.flight ≡ with_word self.old.state key.now self.old.flight }
        ensures state { self.new.state ≡ self.old.state }
        ensures spare { self.new.spare ≡ self.old.spare }
    {
        let word = self.memory.word(key);
        match self.flight.try_push_back((*key, word)) {
            Ok(()) => {}
            Err(_) => unreachable!(),
        }
    }

    /// Takes the oldest word out of flight, and answers tag and result of the least slot that hits it.
    pub(crate) fn search(&mut self) -> Option<Option<(Rank, u32)>>
        ensures answer { result ≡ search_answer self.old.state self.old.flight }
        ensures flight { self.new.flight ≡ drop 1 self.old.flight }
        ensures state { self.new.state ≡ self.old.state }
        ensures spare { self.new.spare ≡ self.old.spare }
    {
        match self.flight.pop_front() {
            None => None,
            Some((_, word)) => Some(self.memory.find(&word)),
        }
    }

    /// How many words are in flight.
    pub(crate) fn in_flight(&self) -> u32
        ensures { result ≡ length self.now.flight }
    {
        self.flight.len() as u32
    }
}

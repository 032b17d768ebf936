// Slots and translation tables in memory, as a state.
ghost use Rattle.std.specs.Prelude.{◌≡◌, ◌<◌, ◌≤◌, ◌+◌, length, slice_index, IfOk, OnOk};
ghost use Rattle.slot_order.specs.Order as order;
ghost use Rattle.slot_order.specs.Order.{first_hit};
ghost use Rattle.rule_model.specs.Entry as entries;
ghost use Rattle.tcam_device.specs.State.{IsInUse, apply, blank, told, lookup, search_word, table_of};
ghost use Rattle.tcam_device.specs.Flight.{word_answer};

use lane_lookup::Columns;
use port_table::PortTable;
use rule_model::{Entry, Key, Rank, Word, word_of};
use slot_order::MOST_SLOTS;
use std::alloc::{AllocError, Global};
use std::marker::Model;
use tcam_device::{Field, Write};

/// The slots and both translation tables of a device. The tables take memory as there is room to be made for writes, so
/// room for as many is in each of them.
#[derive(Drop)]
pub(crate) struct Memory {
    slots: Columns,
    src: PortTable,
    dst: PortTable,
}

impl Model for Memory {
    ghost use Rattle.std.specs.Prelude.{min};
    ghost use Rattle.memory_tcam.specs.Tcam.{RoomyState};

    ghost Value = { RoomyState };

    ghost view = { λ m. record { state = record { slots = m.slots; src = m.src.words; dst = m.dst.words }; spare = min m.src.spare m.dst.spare } };
}

impl Memory {
    /// Empty slots, this many, tables of words that are 0, and room for no write.
    pub(crate) fn new(alloc: Global, slots: u32) -> Result<Memory, AllocError>
        requires least { 0 < slots }
        requires most { slots ≤ MOST_SLOTS }
        ensures { IfOk result (λ memory. memory ≡ record { state = blank slots; spare = 0 }) }
    {
        let slots = Columns::new(alloc, slots)?;
        let src = PortTable::new(alloc);
        let dst = PortTable::new(alloc);
        Ok(Memory { slots, src, dst })
    }

    /// Makes room for this many writes. It fails only for want of memory.
    pub(crate) fn reserve(&mut self, n: u64) -> Result<(), AllocError>
        ensures state { self.new.state ≡ self.old.state }
        ensures enough { OnOk result (n ≤ self.new.spare) }
        ensures least { self.old.spare ≤ self.new.spare }
    {
        self.src.reserve(n)?;
        self.dst.reserve(n)
    }

    /// The number of slots.
    pub(crate) fn count(&self) -> u32
        ensures { result ≡ length self.now.state.slots }
    {
        self.slots.len()
    }

    /// What stands in a slot.
    pub(crate) fn slot(&self, slot: u32) -> Option<Entry>
        requires { slot < length self.now.state.slots }
        ensures { result ≡ order.slot self.now.state.slots slot }
    {
        self.slots.get(slot)
    }

    /// Makes a write of a slot that there is, or of a table. It takes no memory.
    pub(crate) fn make(&mut self, write: &Write)
        requires place { IsInUse (length self.old.state.slots) write.now }
        requires room { 0 < self.old.spare }
        ensures state { self.new.state ≡ apply self.old.state write.now }
        ensures spare { self.old.spare ≤ self.new.spare + 1 }
    {
        match write {
            Write::Slot(slot, entry) => self.put(*slot, *entry),
            Write::Table(field, port, word) => self.put_word(*field, *port, *word),
        }
    }

    /// Puts an entry into a slot, or erases it.
    pub(crate) fn put(&mut self, slot: u32, entry: Option<Entry>)
        requires { slot < length self.old.state.slots }
        ensures state { self.new.state ≡ apply self.old.state (Write.Slot slot entry) }
        ensures spare { self.new.spare ≡ self.old.spare }
    {
        self.slots.set(slot, entry);
    }

    /// Puts a table's word at a port.
    pub(crate) fn put_word(&mut self, field: Field, port: u16, word: u16)
        requires { 0 < self.old.spare }
        ensures state { self.new.state ≡ apply self.old.state (Write.Table field port word) }
        ensures spare { self.old.spare ≤ self.new.spare + 1 }
    {
        match field {
            Field::Src => self.src.set(port, word),
            Field::Dst => self.dst.set(port, word),
        }
    }

    /// The word of a table at a port.
    pub(crate) fn table_word(&self, field: Field, port: u16) -> u16
        ensures { result ≡ slice_index (table_of field self.now.state) port }
    {
        match field {
            Field::Src => self.src.word(port),
            Field::Dst => self.dst.word(port),
        }
    }

    /// The key's word by the tables.
    pub(crate) fn word(&self, key: &Key) -> Word
        ensures { result ≡ search_word self.now.state key.now }
    {
        word_of(key, self.src.word(key.sport), self.dst.word(key.dport))
    }

    /// Tag and result of the least slot that hits a word.
    pub(crate) fn find(&self, word: &Word) -> Option<(Rank, u32)>
        ensures { result ≡ word_answer self.now.state word.now }
    {
        find(&self.slots, word)
    }

    /// Tag and result of the least slot that hits the key's word.
    pub(crate) fn look(&self, key: &Key) -> Option<(Rank, u32)>
        ensures { result ≡ lookup self.now.state key.now }
    {
        find(&self.slots, &self.word(key))
    }
}

/// Tag and result of the least of these slots that hits the word.
fn find(slots: &Columns, word: &Word) -> Option<(Rank, u32)>
    ensures { result ≡ told (first_hit entries.hits slots.now word.now) }
{
    let slot = slots.first(word)?;
    let entry = slots.get(slot)?;
    Some((entry.tag, entry.result))
}

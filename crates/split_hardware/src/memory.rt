// Slots, result words and translation tables in memory, as a state.
ghost use Rattle.std.specs.Prelude.{◌≡◌, ◌<◌, ◌≤◌, ◌+◌, length, IfOk, OnOk};
ghost use Rattle.tcam_device.specs.State.{search_word};
ghost use Rattle.split_device.specs.State.{IsSplitInUse, blank_split, hit_slot, read_at, split_apply, undivided};
ghost use Rattle.split_device.specs.declared.SplitWrite.{SplitWrite};
ghost use Rattle.split_hardware.specs.Shadow.{half};

use lane_lookup::Columns;
use port_table::PortTable;
use rule_model::{Entry, Key, Rank, Word, word_of};
use slot_order::MOST_SLOTS;
use split_device::SplitWrite;
use std::alloc::{AllocError, Global};
use std::marker::Model;
use tcam_device::Field;

/// The least rank, which a blank result word has.
const LEAST: Rank = Rank { high: 0, low: 0 };

/// The slots, their result words and both translation tables of a device. The tables take memory as room is made for writes,
/// so room for as many is in each of them.
#[derive(Drop)]
pub(crate) struct Memory {
    slots: Columns,
    results: Vec<(Rank, u32)>,
    src: PortTable,
    dst: PortTable,
}

impl Model for Memory {
    ghost use Rattle.std.specs.Prelude.{◌≡◌, length, min};
    ghost use Rattle.split_hardware.specs.Shadow.{RoomyMemory, halves};

    ghost Value = { RoomyMemory };

    ghost view = { λ m. record { state = record { slots = halves m.slots; results = m.results.items; src = m.src.words; dst = m.dst.words }; spare = min m.src.spare m.dst.spare } };

    ghost invariant = { λ m. length m.results.items ≡ length (halves m.slots) };
}

impl Memory {
    /// Empty slots, this many, blank result words, tables of words that are 0, and room for no write.
    pub(crate) fn new(alloc: Global, slots: u32) -> Result<Memory, AllocError>
        requires least { 0 < slots }
        requires most { slots ≤ MOST_SLOTS }
        ensures { IfOk result (λ memory. memory ≡ record { state = blank_split slots; spare = 0 }) }
    {
        let results = Vec::from_elem(alloc, (LEAST, 0), slots as usize)?;
        let slots = Columns::new(alloc, slots)?;
        let src = PortTable::new(alloc);
        let dst = PortTable::new(alloc);
        Ok(Memory {
            slots,
            results,
            src,
            dst,
        })
    }

    /// Makes room for this many writes. It fails only for want of memory.
    pub(crate) fn reserve(&mut self, n: u64) -> Result<(), AllocError>
        ensures state { self.new.state ≡ self.old.state }
        ensures enough { OnOk result (n ≤ self.new.spare) }
        ensures least { self.old.spare ≤ self.new.spare }
    {
        self.src.reserve(n)?;
        self.dst.reserve(n)
    }

    /// The number of slots.
    pub(crate) fn count(&self) -> u32
        ensures { result ≡ length self.now.state.slots }
    {
        self.slots.len()
    }

    /// Makes one write of a slot that there is, or of a table. It takes no memory.
    pub(crate) fn make(&mut self, write: &SplitWrite)
        requires place { IsSplitInUse (length self.old.state.slots) write.now }
        requires room { 0 < self.old.spare }
        ensures state { self.new.state ≡ split_apply self.old.state write.now }
        ensures spare { self.old.spare ≤ self.new.spare + 1 }
    {
        match write {
            SplitWrite::Slot(slot, parts) => self.put(*slot, parts),
            SplitWrite::Result(slot, tag, answer) => self.put_result(*slot, *tag, *answer),
            SplitWrite::Table(field, port, word) => self.put_word(*field, *port, *word),
        }
    }

    /// Puts a value and a mask into a slot, or erases it.
    fn put(&mut self, slot: u32, parts: &Option<(Word, Word)>)
        requires { slot < length self.old.state.slots }
        ensures state { self.new.state ≡ split_apply self.old.state (SplitWrite.Slot slot parts.now) }
        ensures spare { self.new.spare ≡ self.old.spare }
    {
        self.slots.set(slot, entry_of(parts));
    }

    /// Puts the result word of a slot.
    fn put_result(&mut self, slot: u32, tag: Rank, answer: u32)
        requires { slot < length self.old.state.slots }
        ensures state { self.new.state ≡ split_apply self.old.state (SplitWrite.Result slot tag answer) }
        ensures spare { self.new.spare ≡ self.old.spare }
    {
        self.results[slot as usize] = (tag, answer);
    }

    /// Puts a table's word at a port.
    fn put_word(&mut self, field: Field, port: u16, word: u16)
        requires { 0 < self.old.spare }
        ensures state { self.new.state ≡ split_apply self.old.state (SplitWrite.Table field port word) }
        ensures spare { self.old.spare ≤ self.new.spare + 1 }
    {
        match field {
            Field::Src => self.src.set(port, word),
            Field::Dst => self.dst.set(port, word),
        }
    }

    /// The search word of a key by the tables.
    pub(crate) fn word(&self, key: &Key) -> Word
        ensures { result ≡ search_word (undivided self.now.state) key.now }
    {
        word_of(key, self.src.word(key.sport), self.dst.word(key.dport))
    }

    /// The least slot that hits a word.
    pub(crate) fn find(&self, word: &Word) -> Option<u32>
        ensures { result ≡ hit_slot self.now.state.slots word.now }
    {
        self.slots.first(word)
    }

    /// What is read at a slot that was found.
    pub(crate) fn read(&self, slot: Option<u32>) -> Option<(Rank, u32)>
        ensures { result ≡ read_at self.now.state.results slot }
    {
        match slot {
            None => None,
            Some(slot) => match self.results.get(slot as usize) {
                None => Some((LEAST, 0)),
                Some(word) => Some(*word),
            },
        }
    }
}

/// A value and a mask as an entry of the least tag and of result 0.
fn entry_of(parts: &Option<(Word, Word)>) -> Option<Entry>
    ensures { half result ≡ parts.now }
{
    match parts {
        None => None,
        Some((value, mask)) => Some(Entry {
            value: *value,
            mask: *mask,
            tag: LEAST,
            result: 0,
        }),
    }
}

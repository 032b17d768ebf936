//! A device that is watched: slots with any entries, and both tables.

ghost use Rattle.std.specs.Prelude.{◌≡◌, ◌<◌, ◌≤◌, ◌+◌, ◌∷◌, [], IfOk, OnOk, OnErr, drop, length, replicate, take};
ghost use Rattle.slot_order.specs.Order.{first_hit, slot};
ghost use Rattle.rule_model.specs.Entry as entries;
ghost use Rattle.tcam_device.specs.State as state;
ghost use Rattle.tcam_device.specs.declared.Write.TheVariants as write;
ghost use Rattle.driver_trace.specs.Known.{moved_slots, with_block};
ghost use Rattle.leak_search.specs.Found.{AreWords};

use leak_search::{PortTables, PortWords};
use rule_model::{Entry, Field, Key, Rank, Word, hits, word_of};
use std::alloc::{AllocError, Global};
use std::marker::Model;
use std::vec::Vec;

/// What the slots and both tables hold.
#[derive(Drop)]
pub struct Watched {
    slots: Vec<Option<Entry>>,
    tables: PortTables,
}

impl Model for Watched {
    ghost use Rattle.tcam_device.specs.State.{State};

    ghost Value = { State };

    ghost view = { λ w. record { slots = w.slots.items; src = w.tables.src; dst = w.tables.dst } };
}

impl Watched {
    /// A blank device of so many slots. It fails only for want of memory.
    pub fn new(alloc: Global, slots: u32) -> Result<Watched, AllocError>
        ensures { IfOk result (λ device. device ≡ state.blank slots) }
    {
        let held = no_entries(alloc, slots)?;
        let src = PortWords::new(alloc)?;
        let dst = PortWords::new(alloc)?;
        Ok(Watched {
            slots: held,
            tables: PortTables { src, dst },
        })
    }

    /// Gives a slot an entry, or empties it; the answer is what stood there.
    pub fn put(&mut self, at: u32, content: &Option<Entry>) -> Option<Entry>
        requires { at < length self.old.slots }
        ensures stood { result ≡ slot self.old.slots at }
        ensures state { self.new ≡ state.apply self.old (write.Slot at content.now) }
    {
        let stood = self.at(at);
        self.slots[at as usize] = *content;
        stood
    }

    /// What stands in a slot.
    pub fn at(&self, at: u32) -> Option<Entry>
        requires { at < length self.now.slots }
        ensures { result ≡ slot self.now.slots at }
    {
        self.slots[at as usize]
    }

    /// Gives a table's port a word.
    pub fn write(&mut self, field: Field, port: u16, word: u16)
        ensures { self.new ≡ state.apply self.old (write.Table field port word) }
    {
        match field {
            Field::Src => self.tables.src.set(port, word),
            Field::Dst => self.tables.dst.set(port, word),
        }
    }

    /// Moves a block of slots. It fails only for want of memory, and the device is as before then.
    pub fn move_block(
        &mut self,
        alloc: Global,
        from: u32,
        to: u32,
        count: u32,
    ) -> Result<(), AllocError>
        requires from { from + count ≤ length self.old.slots }
        requires to { to + count ≤ length self.old.slots }
        ensures moved { OnOk result (self.new ≡ record self.old { slots = moved_slots self.old.slots from to count }) }
        ensures same { OnErr result (self.new ≡ self.old) }
    {
        move_slots(alloc, &mut self.slots, from, to, count)
    }

    /// What stands in a block of slots. It fails only for want of memory.
    pub fn block(
        &self,
        alloc: Global,
        from: u32,
        count: u32,
    ) -> Result<Vec<Option<Entry>>, AllocError>
        requires { from + count ≤ length self.now.slots }
        ensures { IfOk result (λ block. block.items ≡ take count (drop from self.now.slots)) }
    {
        let slots = self.held();
        block_of(alloc, slots, from, count)
    }

    /// What a packet gets.
    pub fn look(&self, key: &Key) -> Option<(Rank, u32)>
        ensures { result ≡ state.lookup self.now key.now }
    {
        let word = self.word(key);
        let slots = self.held();
        found(slots, &word)
    }

    /// The words of both tables are words of 16 bits, by their type.
    pub fn has_words(&self)
        ensures src { AreWords self.now.src }
        ensures dst { AreWords self.now.dst }
    {
        let tables = self.tables();
        tables.src.are_words();
        tables.dst.are_words();
    }

    /// The search word of a key.
    fn word(&self, key: &Key) -> Word
        ensures { result ≡ state.search_word self.now key.now }
    {
        word_of(
            key,
            self.tables.src.at(key.sport),
            self.tables.dst.at(key.dport),
        )
    }

    /// What stands in the slots.
    pub(crate) fn held(&self) -> &[Option<Entry>]
        ensures { result.now ≡ self.now.slots }
    {
        self.slots.as_slice()
    }

    /// Both tables.
    pub(crate) fn tables(&self) -> &PortTables
        ensures src { result.now.src ≡ self.now.src }
        ensures dst { result.now.dst ≡ self.now.dst }
    {
        &self.tables
    }
}

/// So many empty slots.
fn no_entries(alloc: Global, slots: u32) -> Result<Vec<Option<Entry>>, AllocError>
    ensures { IfOk result (λ empty. empty.items ≡ replicate slots None) }
{
    let mut empty = Vec::new(alloc);
    for _ in 0..slots {
        empty.push(None)?;
    }
    Ok(empty)
}

/// A block of slots. It fails only for want of memory.
fn block_of(
    alloc: Global,
    slots: &[Option<Entry>],
    from: u32,
    count: u32,
) -> Result<Vec<Option<Entry>>, AllocError>
    requires { from + count ≤ length slots.now }
    ensures { IfOk result (λ block. block.items ≡ take count (drop from slots.now)) }
{
    let first = from as usize;
    let past = first + count as usize;
    let block = Vec::from_slice(alloc, &slots[first..past])?;
    Ok(block)
}

/// Moves a block of slots. It fails only for want of memory, and they are as before then.
fn move_slots(
    alloc: Global,
    slots: &mut Vec<Option<Entry>>,
    from: u32,
    to: u32,
    count: u32,
) -> Result<(), AllocError>
    requires from { from + count ≤ length slots.old.items }
    requires to { to + count ≤ length slots.old.items }
    ensures moved { OnOk result (slots.new.items ≡ moved_slots slots.old.items from to count) }
    ensures same { OnErr result (slots.new.items ≡ slots.old.items) }
{
    let before = slots.as_slice();
    let block = block_of(alloc, before, from, count)?;
    let empty = no_entries(alloc, count)?;
    let nothing = empty.as_slice();
    let held = block.as_slice();
    put_block(slots, from as usize, nothing);
    put_block(slots, to as usize, held);
    Ok(())
}

/// Writes others over a block of slots.
fn put_block(slots: &mut Vec<Option<Entry>>, at: usize, block: &[Option<Entry>])
    requires { at + length block.now ≤ length slots.old.items }
    ensures block { slots.new.items ≡ with_block slots.old.items at block.now }
    ensures size { length slots.new.items ≡ length slots.old.items }
{
    let past = at + block.len();
    slots[at..past].copy_from_slice(block);
}

/// Tag and result of the least of these slots that hits a word.
fn found(slots: &[Option<Entry>], word: &Word) -> Option<(Rank, u32)>
    ensures { result ≡ state.told (first_hit entries.hits slots.now word.now) }
{
    for held in slots {
        match told_by(held, word) {
            Some(told) => return Some(told),
            None => {}
        }
    }
    None
}

/// Tag and result of one slot, where it hits a word.
fn told_by(held: &Option<Entry>, word: &Word) -> Option<(Rank, u32)>
    ensures { result ≡ state.told (first_hit entries.hits (held.now ∷ []) word.now) }
{
    match held {
        None => None,
        Some(entry) => told_if_hit(entry, word),
    }
}

/// Tag and result of an entry, where it hits a word.
fn told_if_hit(entry: &Entry, word: &Word) -> Option<(Rank, u32)>
    ensures { result ≡ state.told (first_hit entries.hits (Some entry.now ∷ []) word.now) }
{
    if hits(entry, word) {
        Some((entry.tag, entry.result))
    } else {
        None
    }
}

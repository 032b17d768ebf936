// Slots, result words and translation tables in memory, as a state.
ghost use Rattle.std.specs.Prelude.{◌≡◌, ◌≢◌, ◌<◌, ◌≤◌, ◌^◌, ℕ, length, replicate, position, slice_index_or, None, IfOk, false};
ghost use Rattle.split_device.specs.State as spec;
ghost use Rattle.split_device.specs.State.{blank_split, no_result, parts_hit, split_apply, undivided};
ghost use Rattle.tcam_device.specs.State.{search_word};

use crate::SplitWrite;
use rule_model::{Entry, Field, Key, Rank, Word, hits, word_of};
use slot_order::MOST_SLOTS;
use std::alloc::{AllocError, Global};
use std::marker::Model;

/// How many words a translation table has, one a port.
const PORTS: usize = 65_536;

/// The least rank, which a blank result word has.
const LEAST: Rank = Rank { high: 0, low: 0 };

/// The slots, their result words and both translation tables of a device.
#[derive(Drop)]
pub(crate) struct Memory {
    slots: Vec<Option<(Word, Word)>>,
    results: Vec<(Rank, u32)>,
    src: Vec<u16>,
    dst: Vec<u16>,
}

impl Model for Memory {
    ghost use Rattle.split_device.specs.State.{SplitState};
    ghost use Rattle.split_device.specs.Memory.{IsSplitMemory};

    ghost Value = { SplitState };

    ghost view = { λ m. record { slots = m.slots.items; results = m.results.items; src = m.src.items; dst = m.dst.items } };

    ghost invariant = { λ m. IsSplitMemory (record { slots = m.slots.items; results = m.results.items; src = m.src.items; dst = m.dst.items }) };
}

impl Memory {
    /// Empty slots, this many, blank result words, and tables of words that are 0.
    pub(crate) fn new(alloc: Global, slots: u32) -> Result<Memory, AllocError>
        requires least { 0 < slots }
        requires most { slots ≤ MOST_SLOTS }
        ensures { IfOk result (λ memory. memory ≡ blank_split slots) }
    {
        let n = slots as usize;
        let slots = empty_slots(alloc, n)?;
        let results = Vec::from_elem(alloc, (LEAST, 0), n)?;
        let src = vec![in alloc; 0u16; PORTS]?;
        let dst = vec![in alloc; 0u16; PORTS]?;
        Ok(Memory {
            slots,
            results,
            src,
            dst,
        })
    }

    /// The number of slots.
    pub(crate) fn count(&self) -> u32
        ensures { result ≡ length self.now.slots }
    {
        self.slots.len() as u32
    }

    /// Makes one write of a slot that there is.
    pub(crate) fn make(&mut self, write: &SplitWrite)
        requires { spec.IsSplitInUse (length self.old.slots) write.now }
        ensures { self.new ≡ split_apply self.old write.now }
    {
        match write {
            SplitWrite::Slot(slot, parts) => self.slots[*slot as usize] = *parts,
            SplitWrite::Result(slot, tag, answer) => self.results[*slot as usize] = (*tag, *answer),
            SplitWrite::Table(Field::Src, port, word) => self.src[*port as usize] = *word,
            SplitWrite::Table(Field::Dst, port, word) => self.dst[*port as usize] = *word,
        }
    }

    /// The search word of a key by the tables.
    pub(crate) fn word(&self, key: &Key) -> Word
        ensures { result ≡ search_word (undivided self.now) key.now }
    {
        word_of(
            key,
            self.src[key.sport as usize],
            self.dst[key.dport as usize],
        )
    }

    /// The least slot that hits a word.
    pub(crate) fn find(&self, word: &Word) -> Option<u32>
        ensures { result ≡ spec.hit_slot self.now.slots word.now }
    {
        first_of(&self.slots, word)
    }

    /// What is read at a slot that was found.
    pub(crate) fn read(&self, slot: Option<u32>) -> Option<(Rank, u32)>
        ensures { result ≡ spec.read_at self.now.results slot }
    {
        match slot {
            None => None,
            Some(slot) => match self.results.get(slot as usize) {
                None => Some((LEAST, 0)),
                Some(word) => Some(*word),
            },
        }
    }
}

/// So many empty slots.
fn empty_slots(alloc: Global, n: usize) -> Result<Vec<Option<(Word, Word)>>, AllocError>
    ensures { IfOk result (λ slots. slots.items ≡ replicate n None) }
{
    Vec::from_elem(alloc, None, n)
}

/// The least of some slots that hits a word.
fn first_of(slots: &[Option<(Word, Word)>], word: &Word) -> Option<u32>
    requires { length slots.now ≤ MOST_SLOTS }
    ensures { result ≡ spec.hit_slot slots.now word.now }
{
    for (slot, parts) in slots.iter().enumerate() {
        if slot_hits(parts, word) {
            return Some(slot as u32);
        }
    }
    None
}

/// Whether a slot's value and mask hit a word.
fn slot_hits(parts: &Option<(Word, Word)>, word: &Word) -> bool
    ensures { result ≡ parts_hit word.now parts.now }
{
    match parts {
        None => false,
        Some((value, mask)) => hits(
            &Entry {
                value: *value,
                mask: *mask,
                tag: LEAST,
                result: 0,
            },
            word,
        ),
    }
}

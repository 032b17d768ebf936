//! What the slots hold.

use rule_model::Entry;
use std::alloc::{AllocError, Global};

/// The slots in use, and what each holds.
#[derive(Drop)]
pub(crate) struct Table {
    slots: Vec<Option<Entry>>,
    count: u32,
}

impl Table {
    /// So many slots, which hold nothing.
    pub(crate) fn blank(alloc: Global, slots: u32) -> Result<Table, AllocError> {
        Ok(Table {
            slots: vec![in alloc; None; slots as usize]?,
            count: slots,
        })
    }

    /// What the slots hold, from the first on.
    pub(crate) fn slots(&self) -> &[Option<Entry>] {
        self.slots.as_slice()
    }

    /// What a slot holds.
    pub(crate) fn get(&self, slot: u32) -> Option<Entry> {
        match self.slots.get(slot as usize) {
            Some(held) => *held,
            None => None,
        }
    }

    /// Whether a slot holds this entry, with whatever result.
    fn holds(&self, slot: u32, entry: &Entry) -> bool {
        match self.slots.get(slot as usize) {
            Some(Some(held)) => is_same(held, entry),
            _ => false,
        }
    }

    /// A slot holds this from now on.
    pub(crate) fn set(&mut self, slot: u32, held: Option<Entry>) {
        if let Some(place) = self.slots.get_mut(slot as usize) {
            *place = held;
        }
    }

    /// The first slot but one that holds this entry too, with whatever result.
    pub(crate) fn other(&self, slot: u32, entry: &Entry) -> Option<u32> {
        (0..self.count).find(|at| *at != slot && self.holds(*at, entry))
    }
}

/// Whether two entries are one, but for their results.
pub(crate) fn is_same(entry: &Entry, other: &Entry) -> bool {
    entry.tag == other.tag && entry.value == other.value && entry.mask == other.mask
}

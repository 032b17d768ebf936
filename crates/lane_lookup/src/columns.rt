// A list of slots, kept in columns too.
ghost use Rattle.std.specs.Prelude.{◌≡◌, ℕ, ◌<◌, ◌≤◌, None, false, length, replicate, slice_set, vec_capacity, IfOk};
ghost use Rattle.std.specs.List.{AllByRecursion};
ghost use Rattle.slot_order.specs.Order as order;
ghost use Rattle.rule_model.specs.Entry.{first_hitting, slot_hits};
ghost use Rattle.lane_lookup.specs.Columns.{HasPlace, blank_lane, used_from, with_row};

use crate::column::Column;
use crate::eight::try_eight;
use rule_model::{Entry, LANES, Word, hits};
use slot_order::MOST_SLOTS;
use std::alloc::{AllocError, Global};
use std::marker::Model;

/// Slots of entries, seen as the list of them.
#[derive(Drop)]
pub struct Columns {
    slots: Vec<Option<Entry>>,
    lanes: Vec<Column>,
    used: Vec<usize>,
    vacant: Vec<u32>,
}

impl Model for Columns {
    ghost use Rattle.std.specs.Prelude.{List, Option, vec_capacity};
    ghost use Rattle.rule_model.specs.declared.words.Entry.{Entry};
    ghost use Rattle.lane_lookup.specs.Columns.{AreColumns, AreUsed};

    ghost Value = { List (Option Entry) };

    ghost view = { λ c. c.slots.items };

    ghost invariant = { λ c. AreColumns c.slots.items c.lanes.items c.vacant.items × AreUsed c.lanes.items c.used.items (vec_capacity c.used) };
}

impl Columns {
    /// From 1 to `MOST_SLOTS` slots, all empty.
    pub fn new(alloc: Global, slots: u32) -> Result<Columns, AllocError>
        requires least { 0 < slots }
        requires most { slots ≤ MOST_SLOTS }
        ensures { IfOk result (λ columns. columns ≡ replicate slots None) }
    {
        let n = slots as usize;
        Ok(Columns {
            slots: Vec::from_elem(alloc, None, n)?,
            lanes: blank_lanes(alloc, n)?,
            used: Vec::with_capacity(alloc, LANES)?,
            vacant: Vec::from_elem(alloc, 1, n)?,
        })
    }

    /// The number of slots.
    pub fn len(&self) -> u32
        ensures value { result ≡ length self.now }
        ensures most { result ≤ MOST_SLOTS }
    {
        self.slots.len() as u32
    }

    /// What stands in a slot: an entry, or None exactly where the slot is empty.
    pub fn get(&self, slot: u32) -> Option<Entry>
        requires { slot < length self.now }
        ensures { result ≡ order.slot self.now slot }
    {
        self.slots[slot as usize]
    }

    /// Puts an entry into a slot, or empties it.
    pub fn set(&mut self, slot: u32, entry: Option<Entry>)
        requires { slot < length self.old }
        ensures { self.new ≡ slice_set self.old slot entry }
    {
        let slot = slot as usize;
        self.slots[slot] = entry;
        match &entry {
            None => self.vacant[slot] = 1,
            Some(row) => {
                self.vacant[slot] = 0;
                put_row(&mut self.lanes, slot, &row.value, &row.mask);
                list_used(&self.lanes, &mut self.used);
            }
        }
    }

    /// The least slot that hits the word, or None exactly where no slot does.
    pub fn first(&self, word: &Word) -> Option<u32>
        ensures { result ≡ first_hitting self.now word.now }
    {
        let eights = self.slots.len() / 8;
        let mut last: usize = 0;
        for step in 0..eights {
            let tried = try_eight(&self.lanes, &self.used, &self.vacant, word, step * 8, last);
            if tried.before < 8 {
                return Some((step * 8) as u32 + tried.before);
            }
            last = tried.lane;
        }
        self.first_from(word, eights * 8)
    }

    /// The least slot that hits the word, where none before `from` does.
    fn first_from(&self, word: &Word, from: usize) -> Option<u32>
        requires passed { (k : ℕ) → k < from → slot_hits word.now (order.slot self.now k) ≡ false }
        ensures { result ≡ first_hitting self.now word.now }
    {
        for slot in from..self.slots.len() {
            if let Some(entry) = &self.slots[slot]
                && hits(entry, word)
            {
                return Some(slot as u32);
            }
        }
        None
    }
}

/// A column of zeros for each lane.
fn blank_lanes(alloc: Global, slots: usize) -> Result<Vec<Column>, AllocError>
    ensures { IfOk result (λ lanes. lanes.items ≡ replicate 11 (blank_lane slots)) }
{
    let mut lanes = Vec::with_capacity(alloc, LANES)?;
    for lane in 0..LANES {
        lanes.push(Column::new(alloc, slots)?)?;
    }
    Ok(lanes)
}

/// Puts one slot's value and mask, each of eleven lanes, into the columns.
fn put_row(lanes: &mut Vec<Column>, slot: usize, value: &Word, mask: &Word)
    requires count { length lanes.old.items ≡ 11 }
    requires place { AllByRecursion (HasPlace slot) lanes.old.items }
    ensures row { lanes.new.items ≡ with_row lanes.old.items value.now.lane mask.now.lane slot }
    ensures widths { (length value.now.lane ≡ 11) × (length mask.now.lane ≡ 11) }
{
    for lane in 0..LANES {
        lanes[lane].set(slot, value.lane[lane], mask.lane[lane]);
    }
}

/// Lists the lanes in use anew, in memory that has room for every lane.
fn list_used(lanes: &[Column], used: &mut Vec<usize>)
    requires count { length lanes.now ≡ 11 }
    requires room { 11 ≤ vec_capacity used.old }
    ensures listed { used.new.items ≡ used_from lanes.now 0 }
    ensures room { vec_capacity used.new ≡ vec_capacity used.old }
{
    used.clear();
    for (lane, column) in lanes.iter().enumerate() {
        if column.used {
            used.push_reserved(lane);
        }
    }
}

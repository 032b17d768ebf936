//! How many parts the writes of a plan take, where each is made by parts: on a device whose results stand beside its slots.

ghost use Rattle.std.specs.Prelude.{◌≡◌, ◌≤◌, ◌^◌, None, true, length};
ghost use Rattle.batch_order.specs.ByParts.{longest_parts, paired_number, part_number, parts_number, put_back, put_number};
ghost use Rattle.batch_order.specs.CarriedOut.{writes_left};
ghost use Rattle.batch_order.specs.Noting.{all_undo};
ghost use Rattle.batch_order.specs.Planning.{all_writes, as_writes};
ghost use Rattle.batch_order.specs.Steps.{is_unwritten};
ghost use Rattle.rule_model.specs.Entry as entries;

use crate::entries::LiveEntries;
use crate::manager::Manager;
use crate::planned_writes::{PlannedWrites, write_of};
use crate::undoing::PlannedUndo;
use commit_writes::Rewrite;
use rule_model::Entry;
use tcam_device::Write;

impl Manager {
    /// How many parts the writes of a plan take of which none was made: two of an entry that is put into an empty slot, one of
    /// a new result, three of an entry in place of another one, and one of an erase or of a table's word.
    pub fn parts(&self) -> u64
        requires unwritten { is_unwritten self.now.held ≡ true }
        requires few { length (writes_left self.now.held) ≤ 2 ^ 35 }
        ensures { result ≡ parts_number self.now.state (writes_left self.now.held) }
    {
        match &self.held {
            None => 0,
            Some(held) => parts_of_all(&held.writes, &held.undo, &held.rewrites, &self.live),
        }
    }

    /// How many parts the longest insertion takes of a plan of which no write was made: three of each entry that it puts, but
    /// one. It is 0 where the plan has no insertion, and where none is held.
    pub fn most_parts(&self) -> u32
        ensures plan { is_unwritten self.now.held ≡ true → result ≡ longest_parts self.now.state (writes_left self.now.held) }
        ensures none { self.now.held ≡ None → result ≡ 0 }
    {
        match &self.held {
            None => 0,
            Some(held) => held.most_parts,
        }
    }
}

/// How many parts some planned writes take, by those that put back what each of them replaces.
fn parts_of_all(
    writes: &PlannedWrites,
    undo: &PlannedUndo,
    rewrites: &[Rewrite],
    live: &LiveEntries,
) -> u64
    requires few { length (all_writes writes.now) ≤ 2 ^ 35 }
    requires size { length (all_undo undo.now) ≡ length (all_writes writes.now) }
    ensures { result ≡ paired_number (as_writes live.now.entries rewrites.now (all_writes writes.now)) (as_writes live.now.entries rewrites.now (all_undo undo.now)) }
{
    let mut parts = 0;
    for place in 0..writes.len() {
        let planned = writes.get(place).unwrap();
        let write = write_of(&planned, live, rewrites);
        let back = undo.get(place).unwrap();
        let before = write_of(&back, live, rewrites);
        parts += part_count(&write, &before) as u64;
    }
    parts
}

/// How many parts a write takes, by the one that puts back what it replaces.
fn part_count(write: &Write, before: &Write) -> u32
    ensures parts { result ≡ part_number (put_back before.now) write.now }
    ensures few { result ≤ 3 }
{
    match (write, before) {
        (Write::Slot(_, Some(entry)), Write::Slot(_, held)) => put_count(entry, held),
        (Write::Slot(_, Some(_)), Write::Table(_, _, _)) => 2,
        (Write::Slot(_, None), _) => 1,
        (Write::Table(_, _, _), _) => 1,
    }
}

/// How many parts an entry takes that is put where this one stands.
fn put_count(entry: &Entry, held: &Option<Entry>) -> u32
    ensures parts { result ≡ put_number held.now entry.now }
    ensures few { result ≤ 3 }
{
    match held {
        None => 2,
        Some(standing) => { if same_match(entry, standing) { 1 } else { 3 } }
    }
}

/// Whether two entries have the same value, mask and tag.
fn same_match(a: &Entry, b: &Entry) -> bool
    ensures { result ≡ entries.same_match a.now b.now }
{
    a.value == b.value && a.mask == b.mask && a.tag == b.tag
}

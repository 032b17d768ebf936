//! The writes of a plan, a few bytes each: the entry of a slot is named, and put in when the write's turn comes.
//!
//! They stand in one list of each kind, in the order in which a commit makes them, so that whoever plans a kind pushes
//! straight into the plan.

ghost use Rattle.std.specs.Prelude.{◌≡◌, ◌<◌, ◌^◌, [], length, option_map, slice_get};
ghost use Rattle.batch_order.specs.Planning.{as_write, all_writes};

use crate::entries::LiveEntries;
use commit_writes::{Rewrite, TableWord};
use move_planner::Moves;
use placement::Move;
use rule_model::Entry;
use std::alloc::Global;
use tcam_device::Write;

/// A write of a plan.
#[derive(Clone, Copy)]
pub(crate) enum PlannedWrite {
    /// The word of a translation table.
    Tabled(TableWord),
    /// Into a slot goes the entry of an id as it stands before the commit has finished, or none.
    Moved(Move),
    /// Into a slot goes the new entry at this place among those of the commit.
    Rewritten(u32, u32),
}

/// The writes of a plan: first the words of the tables, then the moves, and last the new entries and the erases of what
/// goes.
#[derive(Drop)]
pub(crate) struct PlannedWrites {
    pub(crate) words: Vec<TableWord>,
    pub(crate) moves: Moves,
    pub(crate) changes: Vec<PlannedWrite>,
}

impl PlannedWrites {
    /// No writes.
    pub(crate) fn new(alloc: Global) -> PlannedWrites
        ensures none { all_writes result ≡ [] }
        ensures no_changes { result.changes.items ≡ [] }
    {
        PlannedWrites {
            words: Vec::new(alloc),
            moves: Moves::new(alloc),
            changes: Vec::new(alloc),
        }
    }

    /// How many there are.
    pub(crate) fn len(&self) -> usize
        ensures count { result ≡ length (all_writes self.now) }
        ensures small { result < 2 ^ 62 }
    {
        // Slices tell how many of their items there can be, so the sum fits.
        let words = self.words.as_slice().len();
        let changes = self.changes.as_slice().len();
        words + self.moves.len() as usize + changes
    }

    /// The write at a place, if so many are there.
    pub(crate) fn get(&self, place: usize) -> Option<PlannedWrite>
        ensures { result ≡ slice_get (all_writes self.now) place }
    {
        if place < self.words.len() {
            return Some(PlannedWrite::Tabled(self.words[place]));
        }
        let place = place - self.words.len();
        let moves = self.moves.len() as usize;
        if place < moves {
            return Some(PlannedWrite::Moved(self.moves.at(place as u64)));
        }
        self.changes.get(place - moves).copied()
    }
}

/// The device write that a planned one is.
pub(crate) fn write_of(planned: &PlannedWrite, live: &LiveEntries, rewrites: &[Rewrite]) -> Write
    ensures { result ≡ as_write live.now.entries rewrites.now planned.now }
{
    match planned {
        PlannedWrite::Tabled(word) => word.write(),
        PlannedWrite::Moved(Move::Put(slot, id)) => Write::Slot(*slot, live.at(*id)),
        PlannedWrite::Moved(Move::Erase(slot)) => Write::Slot(*slot, None),
        PlannedWrite::Rewritten(slot, place) => Write::Slot(*slot, new_entry(rewrites, *place)),
    }
}

/// The new entry at a place.
fn new_entry(rewrites: &[Rewrite], place: u32) -> Option<Entry>
    ensures { result ≡ option_map (λ rewrite. rewrite.entry) (slice_get rewrites.now place) }
{
    match rewrites.get(place as usize) {
        Some(rewrite) => Some(rewrite.entry),
        None => None,
    }
}

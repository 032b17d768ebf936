//! Which id each slot holds.
//!
//! An `Arrangement` is a list of slots, each empty or an id, and contracts see it as that list. An
//! id may stand in several slots, as it does while an entry moves. Searches for a free slot look
//! outwards from where it is wanted. No call but `new` and `try_copy` takes memory.
//!
//! Beside the slots stands a tree of words with a mark for each slot that is empty (`word_tree`), so a
//! search for one takes a step or two for each level, however far it is. `Marks` is a flat row of marks
//! for whoever marks slots, of which a search passes 64 at a step.
//!
//! A table of homes stands beside them too: for each id below the number of slots the least slot
//! that holds it, and the sum of all that do. A planner asks for the homes of all entries that
//! overlap one, and moves an entry by putting it into a second slot before the first is written
//! over: so of an id in two slots the sum less the one is the other, and neither an entry that moves
//! nor one that goes is searched for. Only an id in three slots or more is, and one past the table.
//!
//! # Decided
//! - **The sum of an id's slots stands in the place of their number**, eight bytes for four. The number says that an entry that
//!   goes is in no other slot, and the sum says it too; but of an entry that moves up the number doesn't tell where to, and
//!   each such move walked to the new slot.
//! - **Free slots are marked in a tree, and what a planner marks in a flat row.** The free slots stay from change to change
//!   and are few where a search is long. A row of a planner is made anew for an insertion, marked, some places many times,
//!   and walked from end to end: there each mark costs less than in a tree, and no walk is long.
#![tactic(auto)]

ghost use Rattle.std.specs.Prelude.{◌≡◌, ◌==◌, ℕ, ◌+◌, ◌<◌, ◌≤◌, None, Some, IfOk, length, replicate, slice_set, count_by, is_none};
ghost use Rattle.slot_order.specs.Order.{slot as held_in};
ghost use Rattle.slot_pool.specs.Arrangement.{IsFirstFree, home_of, nearest_free, next_free_above, last_free_below, HasTwin};

mod flat;
mod homes;
mod mark_row;
mod sums;

pub use mark_row::Marks;
use slot_order::MOST_SLOTS;
use std::alloc::{AllocError, Global};
use std::marker::Model;
use word_tree::Members;

/// The most slots of an arrangement, and the most places of a row of marks.
pub const MOST_PLACES: u32 = MOST_SLOTS;

/// Slots, each empty or holding an id.
#[derive(Debug, Drop)]
pub struct Arrangement {
    slots: Vec<Option<u32>>,
    // The least slot of each id below the number of slots.
    homes: Vec<Option<u32>>,
    // The sum of the slots that hold each of these ids.
    sums: Vec<u64>,
    // Which slots are empty.
    free: Members,
}

impl Model for Arrangement {
    ghost use Rattle.std.specs.Prelude.{◌≡◌, ◌≤◌, length, map, is_none};
    ghost use Rattle.slot_order.specs.Order.{most_slots};
    ghost use Rattle.slot_pool.specs.Arrangement.{Slots};
    ghost use Rattle.slot_pool.specs.Homes.{AreHomes, AreSums};

    ghost Value = { Slots };

    ghost view = { λ a. a.slots.items };

    ghost invariant = { λ a. (1 ≤ length a.slots.items) × (length a.slots.items ≤ most_slots) × AreHomes a.slots.items a.homes.items × (a.free ≡ map (λ held. is_none held) a.slots.items) × AreSums a.slots.items a.sums.items };
}

impl Arrangement {
    /// Makes `slots` empty slots, from 1 to `MOST_PLACES`.
    pub fn new(alloc: Global, slots: u32) -> Result<Arrangement, AllocError>
        requires some { 1 ≤ slots }
        requires most { slots ≤ MOST_PLACES }
        ensures { IfOk result (λ arrangement. arrangement ≡ replicate slots None) }
    {
        let mut free = Members::new(alloc, slots)?;
        free.fill();
        let homes = vec![in alloc; None; slots as usize]?;
        let sums = vec![in alloc; 0; slots as usize]?;
        let slots = vec![in alloc; None; slots as usize]?;
        Ok(Arrangement {
            slots,
            homes,
            sums,
            free,
        })
    }

    /// The number of slots, from 1 to `MOST_PLACES`.
    pub fn slots(&self) -> u32
        ensures number { result ≡ length self.now }
        ensures some { 1 ≤ result }
        ensures most { result ≤ MOST_PLACES }
    {
        self.slots.len() as u32
    }

    /// The id that stands in a slot, or `None` exactly where the slot is empty.
    pub fn at(&self, slot: u32) -> Option<u32>
        requires { slot < length self.now }
        ensures { result ≡ held_in self.now slot }
    {
        self.slots[slot as usize]
    }

    /// The least slot that holds an id, or `None` exactly where none does.
    pub fn home(&self, id: u32) -> Option<u32>
        ensures { result ≡ home_of self.now id }
    {
        if (id as usize) < self.homes.len() {
            self.homes[id as usize]
        } else {
            homes::first_of(&self.slots, 0, id)
        }
    }

    /// The number of empty slots.
    pub fn free_count(&self) -> u32
        ensures { result ≡ count_by (λ held. is_none held) self.now }
    {
        self.free.count()
    }

    /// The empty slot from `from` on and before `to` that is nearest to `mid`, the lower one of two
    /// at the same distance. `mid` may lie outside, even past the last slot. `None` exactly where no
    /// slot there is empty.
    pub fn nearest_free(&self, from: u32, to: u32, mid: u32) -> Option<u32>
        requires from { from ≤ length self.now }
        requires to { to ≤ length self.now }
        ensures { result ≡ nearest_free self.now from to mid }
    {
        self.free.nearest(from, to, mid)
    }

    /// The least empty slot from `from` on and before `to`, or `None` exactly where no slot there is
    /// empty.
    pub fn first_free(&self, from: u32, to: u32) -> Option<u32>
        requires { to ≤ length self.now }
        ensures { IsFirstFree self.now from to result }
    {
        self.free.next(from, to)
    }

    /// The least empty slot above a slot, or `None` exactly where there is none.
    pub fn next_free_above(&self, slot: u32) -> Option<u32>
        requires { slot < length self.now }
        ensures { result ≡ next_free_above self.now slot }
    {
        self.free.next(slot + 1, self.slots())
    }

    /// The greatest empty slot below a slot, or `None` exactly where there is none.
    pub fn last_free_below(&self, slot: u32) -> Option<u32>
        requires { slot < length self.now }
        ensures { result ≡ last_free_below self.now slot }
    {
        self.free.last(0, slot)
    }

    /// Puts an id into an empty slot, and changes no other one.
    pub fn put(&mut self, slot: u32, id: u32)
        requires place { slot < length self.old }
        requires free { held_in self.old slot ≡ None }
        ensures { self.new ≡ slice_set self.old slot (Some id) }
    {
        homes::put(&mut self.slots, &mut self.homes, &mut self.sums, slot, id);
        self.free.remove(slot);
    }

    /// Empties a slot, and changes no other one.
    pub fn erase(&mut self, slot: u32)
        requires { slot < length self.old }
        ensures { self.new ≡ slice_set self.old slot None }
    {
        homes::erase(&mut self.slots, &mut self.homes, &mut self.sums, slot);
        self.free.insert(slot);
    }

    /// Puts an id over the one in a slot, which stands in another slot too, and changes no other
    /// slot.
    pub fn over(&mut self, slot: u32, id: u32)
        requires place { slot < length self.old }
        requires twin { HasTwin self.old slot }
        ensures { self.new ≡ slice_set self.old slot (Some id) }
    {
        self.erase(slot);
        self.put(slot, id);
    }

    /// Makes a copy of its own memory.
    pub fn try_copy(&self, alloc: Global) -> Result<Arrangement, AllocError>
        ensures { IfOk result (λ copy. copy ≡ self.now) }
    {
        let slots = Vec::from_slice(alloc, &self.slots)?;
        let homes = Vec::from_slice(alloc, &self.homes)?;
        let sums = Vec::from_slice(alloc, &self.sums)?;
        let free = self.free.try_copy(alloc)?;
        Ok(Arrangement {
            slots,
            homes,
            sums,
            free,
        })
    }
}

//! Chains of ids that make way for one another.
ghost use Rattle.std.specs.Prelude.{◌≡◌, ◌<◌, ◌+◌, ◌-◌, ◌++◌, ℕ, Some, OnOk, OnErr, length, slice_index_or, IsTrue, MatchOption};
ghost use Rattle.slot_order.specs.Order.{slot as held_in};
ghost use Rattle.slot_pool.specs.Arrangement.{HasTwin, passes};
ghost use Rattle.placement.specs.Live.{is_above, is_live};
ghost use Rattle.placement.specs.Placement.{IsInOrder, StopsBelow, StopsAbove, after_moves, moves_along};
ghost use Rattle.placement.specs.Insertion.{AreMade, free_slots};
ghost use Rattle.move_planner.specs.Noted.{AreNoted};
ghost use Rattle.move_planner.specs.Steps.{AllLive};
ghost use Rattle.placement.specs.Ready.{IsTold, StepsDown, StepsUp, CanShift};

use crate::Moves;
use crate::places::{greater, lesser};
use overlap_index::Index;
use placement::Move;
use slot_pool::Arrangement;
use std::alloc::AllocError;

/// The slots of a chain, and the free slot that its last member moves to.
#[derive(Debug, Drop)]
pub(crate) struct Chain {
    pub(crate) free: u32,
    pub(crate) members: Vec<u32>,
}

impl Chain {
    /// The slot of the first member.
    pub(crate) fn first(&self) -> u32
        requires { 0 < length self.now.members.items }
        ensures { result ≡ slice_index_or self.now.members.items 0 self.now.free }
    {
        self.members[0]
    }

    /// The slot of the last member.
    pub(crate) fn last(&self) -> u32
        requires { 0 < length self.now.members.items }
        ensures { result ≡ slice_index_or self.now.members.items (length self.now.members.items - 1) self.now.free }
    {
        self.members[self.members.len() - 1]
    }

    /// Moves the last member to the free slot, then each earlier one over the slot of the one
    /// after it. After a refusal the moves that the plan gained are made.
    pub(crate) fn shift(
        &self,
        slots: &mut Arrangement,
        plan: &mut Moves,
        undo: &mut Moves,
    ) -> Result<(), AllocError>
        requires { CanShift slots.old self.now.free self.now.members.items }
        ensures plan { OnOk result (plan.new ≡ plan.old ++ moves_along slots.old self.now.free self.now.members.items) }
        ensures slots { OnOk result (slots.new ≡ after_moves slots.old (moves_along slots.old self.now.free self.now.members.items)) }
        ensures twin { OnOk result (HasTwin slots.new (slice_index_or self.now.members.items 0 self.now.free)) }
        ensures free { OnOk result (free_slots slots.new + 1 ≡ free_slots slots.old) }
        ensures made { OnErr result (AreMade slots.old slots.new plan.old plan.new) }
        ensures noted { AreNoted slots.old slots.new plan.old plan.new undo.old undo.new }
    {
        let mut to = self.free;
        for i in (0..self.members.len()).rev() {
            let from = self.members[i];
            if let Some(id) = slots.at(from) {
                plan.make(slots, undo, Move::Put(to, id))?;
            }
            to = from;
        }
        Ok(())
    }
}

/// The slot that a down chain goes on to, if it is before the free one: the first behind `slot` whose id is below the
/// one there.
pub(crate) fn step_down(slots: &Arrangement, index: &Index, slot: u32, free: u32) -> Option<u32>
    requires before { slot < free }
    requires inside { free < length slots.now }
    requires live { AllLive index.now slots.now }
    requires told { IsTold index.now slots.now }
    requires order { IsInOrder (is_above index.now.live) slots.now }
    ensures { StepsDown (is_above index.now.live) slots.now free slot result }
{
    if !index.is_told() {
        return listed_down(slots, index, slot, free);
    }
    let id = slots.at(slot)?;
    if_before(index.first_below(id), free)
}

/// The slot that an up chain goes on to, if it is behind the free one: the mirror.
pub(crate) fn step_up(slots: &Arrangement, index: &Index, slot: u32, free: u32) -> Option<u32>
    requires after { free < slot }
    requires inside { slot < length slots.now }
    requires live { AllLive index.now slots.now }
    requires told { IsTold index.now slots.now }
    requires once { (i j other : ℕ) → held_in slots.now i ≡ Some other → held_in slots.now j ≡ Some other → i ≡ j }
    requires order { IsInOrder (is_above index.now.live) slots.now }
    ensures { StepsUp (is_above index.now.live) slots.now free slot result }
{
    if !index.is_told() {
        return listed_up(slots, index, slot, free);
    }
    let id = slots.at(slot)?;
    if_behind(index.last_above(id), free)
}

/// The next slot of a down chain, by the list of those below an id: this and the slots are gone through side by side, until
/// either ends or the slot is found.
fn listed_down(slots: &Arrangement, index: &Index, slot: u32, free: u32) -> Option<u32>
    requires before { slot < free }
    requires inside { free < length slots.now }
    requires live { AllLive index.now slots.now }
    requires order { IsInOrder (is_above index.now.live) slots.now }
    ensures { StepsDown (is_above index.now.live) slots.now free slot result }
{
    let id = slots.at(slot)?;
    let mut at = slot;
    let mut first = None;
    for other in index.below(id) {
        at += 1;
        if at == free {
            return None;
        }
        if holds_lower(slots, index, id, at) {
            return Some(at);
        }
        first = lesser(first, slots.home(other));
    }
    if_before(first, free)
}

/// The next slot of an up chain, by the list of those above an id: the mirror.
fn listed_up(slots: &Arrangement, index: &Index, slot: u32, free: u32) -> Option<u32>
    requires after { free < slot }
    requires inside { slot < length slots.now }
    requires live { AllLive index.now slots.now }
    requires once { (i j other : ℕ) → held_in slots.now i ≡ Some other → held_in slots.now j ≡ Some other → i ≡ j }
    requires order { IsInOrder (is_above index.now.live) slots.now }
    ensures { StepsUp (is_above index.now.live) slots.now free slot result }
{
    let id = slots.at(slot)?;
    let mut at = slot;
    let mut last = None;
    for other in index.above(id) {
        at -= 1;
        if at == free {
            return None;
        }
        if holds_upper(slots, index, id, at) {
            return Some(at);
        }
        last = greater(last, slots.home(other));
    }
    if_behind(last, free)
}

/// Whether a slot holds an id that is below this one.
fn holds_lower(slots: &Arrangement, index: &Index, id: u32, slot: u32) -> bool
    requires inside { slot < length slots.now }
    requires live { AllLive index.now slots.now }
    requires id { IsTrue (is_live index.now.live id) }
    ensures { result ≡ passes (λ other. is_above index.now.live id other) (held_in slots.now slot) }
{
    match slots.at(slot) {
        Some(other) => index.is_above(id, other),
        None => false,
    }
}

/// Whether a slot holds an id that is above this one.
fn holds_upper(slots: &Arrangement, index: &Index, id: u32, slot: u32) -> bool
    requires inside { slot < length slots.now }
    requires live { AllLive index.now slots.now }
    requires id { IsTrue (is_live index.now.live id) }
    ensures { result ≡ passes (λ other. is_above index.now.live other id) (held_in slots.now slot) }
{
    match slots.at(slot) {
        Some(other) => index.is_above(other, id),
        None => false,
    }
}

/// A slot, if there is one and it is before the free one.
fn if_before(slot: Option<u32>, free: u32) -> Option<u32>
    ensures { MatchOption result (StopsBelow free slot) (λ next. (slot ≡ Some next) × (next < free)) }
{
    slot.filter(|next| *next < free)
}

/// A slot, if there is one and it is behind the free one.
fn if_behind(slot: Option<u32>, free: u32) -> Option<u32>
    ensures { MatchOption result (StopsAbove free slot) (λ next. (slot ≡ Some next) × (free < next)) }
{
    slot.filter(|next| free < *next)
}

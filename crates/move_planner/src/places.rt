//! Where a new id may stand, and which place it takes.
ghost use Rattle.std.specs.Prelude.{◌≡◌, ◌<◌, ◌≤◌, ◌+◌, ◌-◌, ◌/◌, ◌^◌, ℕ, IsTrue, IsSome, Some, length};
ghost use Rattle.slot_order.specs.Order.{slot as held_in};
ghost use Rattle.slot_pool.specs.Arrangement.{nearest_free};
ghost use Rattle.placement.specs.Live.{AreApart, is_live, is_above};
ghost use Rattle.placement.specs.Placement.{IsInOrder, first_lower, last_upper, next_slot, gap_start, gap_end, aimed_at};
ghost use Rattle.placement.specs.Ready.{IsTold};
ghost use Rattle.move_planner.specs.Steps.{lesser, greater};

use overlap_index::Index;
use placement::Aim;
use slot_order::MOST_SLOTS;
use slot_pool::Arrangement;

/// The least slot of an id below this one. Where it is told where ids stand it is that of the one which is above all others.
pub(crate) fn first_lower(slots: &Arrangement, index: &Index, id: u32) -> Option<u32>
    requires live { IsTrue (is_live index.now.live id) }
    requires told { IsTold index.now slots.now }
    requires order { IsInOrder (is_above index.now.live) slots.now }
    ensures first { result ≡ first_lower (is_above index.now.live) slots.now id }
    ensures apart { AreApart index.now.slots index.now.live }
{
    if index.is_told() {
        index.first_below(id)
    } else {
        first_listed(slots, index, id)
    }
}

/// The greatest slot of an id above this one, where each id stands in one slot.
pub(crate) fn last_upper(slots: &Arrangement, index: &Index, id: u32) -> Option<u32>
    requires live { IsTrue (is_live index.now.live id) }
    requires told { IsTold index.now slots.now }
    requires once { (i j other : ℕ) → held_in slots.now i ≡ Some other → held_in slots.now j ≡ Some other → i ≡ j }
    ensures last { result ≡ last_upper (is_above index.now.live) slots.now id }
    ensures apart { AreApart index.now.slots index.now.live }
{
    if index.is_told() {
        index.last_above(id)
    } else {
        last_listed(slots, index, id)
    }
}

/// The least slot of an id below this one, of all that are.
fn first_listed(slots: &Arrangement, index: &Index, id: u32) -> Option<u32>
    requires { IsTrue (is_live index.now.live id) }
    ensures first { result ≡ first_lower (is_above index.now.live) slots.now id }
    ensures apart { AreApart index.now.slots index.now.live }
{
    let mut first = None;
    for other in index.below(id) {
        first = lesser(first, slots.home(other));
    }
    first
}

/// The greatest slot of an id above this one, of all that are.
fn last_listed(slots: &Arrangement, index: &Index, id: u32) -> Option<u32>
    requires live { IsTrue (is_live index.now.live id) }
    requires once { (i j other : ℕ) → held_in slots.now i ≡ Some other → held_in slots.now j ≡ Some other → i ≡ j }
    ensures last { result ≡ last_upper (is_above index.now.live) slots.now id }
    ensures apart { AreApart index.now.slots index.now.live }
{
    let mut last = None;
    for other in index.above(id) {
        last = greater(last, slots.home(other));
    }
    last
}

/// The lesser of two slots, or the one that there is.
pub(crate) fn lesser(a: Option<u32>, b: Option<u32>) -> Option<u32>
    ensures { result ≡ lesser a b }
{
    match (a, b) {
        (Some(a), Some(b)) => Some(a.min(b)),
        (Some(a), None) => Some(a),
        (None, b) => b,
    }
}

/// The greater of two slots, or the one that there is.
pub(crate) fn greater(a: Option<u32>, b: Option<u32>) -> Option<u32>
    ensures { result ≡ greater a b }
{
    match (a, b) {
        (Some(a), Some(b)) => Some(a.max(b)),
        (Some(a), None) => Some(a),
        (None, b) => b,
    }
}

/// The slot behind this one, or the first of all.
pub(crate) fn next_slot(slot: Option<u32>) -> u32
    requires { next_slot slot < 2 ^ 32 }
    ensures { result ≡ next_slot slot }
{
    match slot {
        Some(slot) => slot + 1,
        None => 0,
    }
}

/// The slots in which a live id may stand: those from `start` on and before `end`, which its last
/// upper and its first lower id bound. Where `end` is before `start` the last upper id stands past
/// the first lower one.
#[derive(Clone, Copy, Debug)]
pub(crate) struct Gap {
    pub(crate) upper: Option<u32>,
    pub(crate) lower: Option<u32>,
    pub(crate) start: u32,
    pub(crate) end: u32,
}

impl Gap {
    /// How far the last upper id stands past the first lower one.
    pub(crate) fn span(&self) -> u32
        ensures { result ≡ self.now.start - 1 - self.now.end }
    {
        self.start.saturating_sub(1).saturating_sub(self.end)
    }
}

/// The gap of a live id, from one look at all that overlaps it on either side, or at none of it where it is told where ids
/// stand: then none crosses another.
pub(crate) fn find_gap(slots: &Arrangement, index: &Index, id: u32) -> Gap
    requires few { length slots.now ≤ MOST_SLOTS }
    requires live { IsTrue (is_live index.now.live id) }
    requires told { IsTold index.now slots.now }
    requires order { IsInOrder (is_above index.now.live) slots.now }
    requires once { (i j other : ℕ) → held_in slots.now i ≡ Some other → held_in slots.now j ≡ Some other → i ≡ j }
    ensures upper { result.upper ≡ last_upper (is_above index.now.live) slots.now id }
    ensures lower { result.lower ≡ first_lower (is_above index.now.live) slots.now id }
    ensures start { result.start ≡ gap_start (is_above index.now.live) slots.now id }
    ensures end { result.end ≡ gap_end (is_above index.now.live) slots.now id }
    ensures straight { IsSome index.now.told → result.start ≤ result.end }
    ensures apart { AreApart index.now.slots index.now.live }
{
    let _told = index.is_told();
    let upper = last_upper(slots, index, id);
    let lower = first_lower(slots, index, id);
    let start = next_slot(upper);
    let end = lower.unwrap_or(slots.slots());
    Gap {
        upper,
        lower,
        start,
        end,
    }
}

/// The place in a gap, from `start` on and before `end`, that a new id takes: the free slot nearest
/// to its aim, the lower one of two. `None` exactly where no slot of the gap is free.
pub(crate) fn choose(slots: &Arrangement, start: u32, end: u32, aim: Aim) -> Option<u32>
    requires few { length slots.now ≤ MOST_SLOTS }
    requires ordered { start ≤ end }
    requires inside { end ≤ length slots.now }
    ensures { result ≡ nearest_free slots.now start end (aimed_at aim start end) }
{
    slots.nearest_free(start, end, aimed_at(aim, start, end))
}

/// The slot that an aim means in a gap from `start` on and before `end`.
fn aimed_at(aim: Aim, start: u32, end: u32) -> u32
    requires { start + end < 2 ^ 32 }
    ensures { result ≡ aimed_at aim start end }
{
    match aim {
        Aim::Middle => (start + end).saturating_sub(1) / 2,
        Aim::At(slot) => slot,
        Aim::Start => start,
        Aim::End => end.saturating_sub(1),
    }
}

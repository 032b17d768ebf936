//! Which entries must stand behind a new id, and which before it.
ghost use Rattle.std.specs.Prelude.{◌≡◌, ℕ, ◌+◌, ◌<◌, ◌≤◌, ◌∷◌, [], IsTrue, Some, OnOk, length};
ghost use Rattle.slot_order.specs.Order.{slot};
ghost use Rattle.placement.specs.Live.{is_live, is_above};
ghost use Rattle.placement.specs.Placement.{gap_start, gap_end};
ghost use Rattle.placement.specs.Ready.{IsReady};
ghost use Rattle.move_planner.specs.Steps.{IsLastMarked, IsFirstMarked, AreMarked, AreReached, AreLedTo, LeadFrom, AreFoundSides};

use crate::places::Gap;
use overlap_index::{Index, Overlaps};
use slot_pool::{Arrangement, Marks};
use std::alloc::{AllocError, Global};

/// Of the slots from `start` on and before `end`: which hold an entry that must stand behind a new
/// id, and which one that must stand before it. The rows of marks keep their memory from one insertion to the next.
#[derive(Debug, Drop)]
pub struct Sides {
    pub(crate) start: u32,
    pub(crate) end: u32,
    pub(crate) behind: Marks,
    pub(crate) before: Marks,
}

impl Sides {
    /// The sides of no slots, which take their memory from `alloc` as insertions need it.
    pub fn new(alloc: Global) -> Sides {
        Sides {
            start: 0,
            end: 0,
            behind: Marks::new(alloc),
            before: Marks::new(alloc),
        }
    }
}

/// The sides of the slots between the first lower and the last upper entry of an id, these two
/// among them.
pub(crate) fn find_sides(
    slots: &Arrangement,
    index: &Index,
    id: u32,
    gap: Gap,
    sides: &mut Sides,
) -> Result<(), AllocError>
    requires ready { IsReady index.now id slots.now }
    requires start { gap.start ≡ gap_start (is_above index.now.live) slots.now id }
    requires end { gap.end ≡ gap_end (is_above index.now.live) slots.now id }
    requires crossed { gap_end (is_above index.now.live) slots.now id < gap_start (is_above index.now.live) slots.now id }
    ensures { OnOk result (AreFoundSides (is_above index.now.live) slots.now id sides.new) }
{
    sides.start = gap.end;
    sides.end = gap.start;
    mark_behind(slots, index, id, gap.end, gap.start, &mut sides.behind)?;
    mark_before(slots, index, id, gap.end, gap.start, &mut sides.before)?;
    Ok(())
}

/// The slots from `start` on and before `end` whose entry must stand behind an id. What is below the id
/// is marked, and then, by rising slots, what is below a marked entry: that stands behind it.
fn mark_behind(
    slots: &Arrangement,
    index: &Index,
    id: u32,
    start: u32,
    end: u32,
    marks: &mut Marks,
) -> Result<(), AllocError>
    requires ready { IsReady index.now id slots.now }
    requires from { start ≡ gap_end (is_above index.now.live) slots.now id }
    requires order { start ≤ end }
    requires inside { end ≤ length slots.now }
    ensures { OnOk result (AreLedTo (is_above index.now.live) slots.now id start end marks.new) }
{
    marks.restart(end - start)?;
    mark_below(slots, index, id, start, marks);
    let mut from = start;
    while let Some(slot) = first_marked(marks, start, from, end) {
        if let Some(held) = slots.at(slot) {
            mark_below(slots, index, held, start, marks);
        }
        from = slot + 1;
    }
    Ok(())
}

/// The slots from `start` on and before `end` whose entry must stand before an id: the mirror.
fn mark_before(
    slots: &Arrangement,
    index: &Index,
    id: u32,
    start: u32,
    end: u32,
    marks: &mut Marks,
) -> Result<(), AllocError>
    requires ready { IsReady index.now id slots.now }
    requires to { end ≡ gap_start (is_above index.now.live) slots.now id }
    requires order { start ≤ end }
    requires inside { end ≤ length slots.now }
    ensures { OnOk result (LeadFrom (is_above index.now.live) slots.now id start end marks.new) }
{
    marks.restart(end - start)?;
    mark_above(slots, index, id, start, marks);
    let mut to = end;
    while let Some(slot) = last_marked(marks, start, to) {
        if let Some(held) = slots.at(slot) {
            mark_above(slots, index, held, start, marks);
        }
        to = slot;
    }
    Ok(())
}

/// Marks the slots of what is below an id.
fn mark_below(slots: &Arrangement, index: &Index, id: u32, start: u32, marks: &mut Marks)
    requires live { IsTrue (is_live index.now.live id) }
    requires once { (i j other : ℕ) → slot slots.now i ≡ Some other → slot slots.now j ≡ Some other → i ≡ j }
    ensures { AreReached (λ other. is_above index.now.live id other) slots.now start marks.old marks.new }
{
    mark_all(slots, start, marks, index.below(id));
}

/// Marks the slots of what is above an id.
fn mark_above(slots: &Arrangement, index: &Index, id: u32, start: u32, marks: &mut Marks)
    requires live { IsTrue (is_live index.now.live id) }
    requires once { (i j other : ℕ) → slot slots.now i ≡ Some other → slot slots.now j ≡ Some other → i ≡ j }
    ensures { AreReached (λ other. is_above index.now.live other id) slots.now start marks.old marks.new }
{
    mark_all(slots, start, marks, index.above(id));
}

/// Marks the slots of some ids, of those that the marks are of.
fn mark_all(slots: &Arrangement, start: u32, marks: &mut Marks, others: Overlaps<'_>)
    ensures { AreMarked slots.now start others.entry marks.old marks.new }
{
    for other in others {
        mark(slots, start, marks, other);
    }
}

/// Marks the slot of an id, if it is one of those that the marks are of.
fn mark(slots: &Arrangement, start: u32, marks: &mut Marks, id: u32)
    ensures { AreMarked slots.now start (id ∷ []) marks.old marks.new }
{
    let Some(slot) = slots.home(id) else {
        return;
    };
    if slot >= start && slot - start < marks.places() {
        marks.mark(slot - start);
    }
}

/// The last marked slot from `start` on and before another, where the marks begin with `start`.
pub(crate) fn last_marked(marks: &Marks, start: u32, end: u32) -> Option<u32>
    requires order { start ≤ end }
    requires inside { end ≤ start + length marks.now }
    ensures { IsLastMarked marks.now start end result }
{
    match marks.last_marked(0, end - start) {
        Some(at) => Some(start + at),
        None => None,
    }
}

/// The first marked slot from one on and before another, where the marks begin with `start`.
pub(crate) fn first_marked(marks: &Marks, start: u32, from: u32, end: u32) -> Option<u32>
    requires low { start ≤ from }
    requires order { from ≤ end }
    requires inside { end ≤ start + length marks.now }
    ensures { IsFirstMarked marks.now start from end result }
{
    match marks.next_marked(from - start, end - start) {
        Some(at) => Some(start + at),
        None => None,
    }
}

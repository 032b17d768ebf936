//! The turns that put the entries that must stand before a new id and those that must stand behind it apart.
ghost use Rattle.std.specs.Prelude.{◌≡◌, ℕ, ◌-◌, ◌<◌, ◌≤◌, Bool, None, IfOk, OnOk, OnErr, length};
ghost use Rattle.slot_pool.specs.Arrangement.{next_free_above, last_free_below};
ghost use Rattle.placement.specs.Live.{LivePieces, is_above};
ghost use Rattle.placement.specs.Placement.{gap_start, gap_end, IsInOrder};
ghost use Rattle.placement.specs.Insertion.{AreMade};
ghost use Rattle.placement.specs.Ready.{CanShift, IsReady};
ghost use Rattle.move_planner.specs.Made.{moves_made};
ghost use Rattle.move_planner.specs.Noted.{AreNoted};
ghost use Rattle.move_planner.specs.Steps.{IsShiftedOut, FindsEarly, FindsLate, FindsPasser, IsUnderway, MayPass, IsFurther, UndoesCrossing, cleared};

use crate::Moves;
use crate::boundary::best_boundary;
use crate::chains::Chain;
use crate::places::Gap;
use crate::shorter::{Ends, shorter_chain};
use crate::sides::{Sides, find_sides, first_marked, last_marked};
use overlap_index::Index;
use placement::Move;
use slot_order::MOST_SLOTS;
use slot_pool::Arrangement;
use std::alloc::{AllocError, Global};

/// A boundary, and how far it is clear on either side: no slot from `low` on and before it holds an
/// entry that must stand behind it, and none from it on and before `high` one that must stand before.
#[derive(Clone, Copy, Debug)]
pub(crate) struct Cut {
    pub(crate) boundary: u32,
    pub(crate) low: u32,
    pub(crate) high: u32,
}

/// Moves each entry that stands on the wrong side of the best boundary of a crossed gap past that
/// boundary, the nearest first. After a refusal the moves that the plan gained are made.
pub(crate) fn uncross(
    alloc: Global,
    slots: &mut Arrangement,
    index: &Index,
    plan: &mut Moves,
    undo: &mut Moves,
    sides: &mut Sides,
    id: u32,
    gap: Gap,
) -> Result<(), AllocError>
    requires ready { IsReady index.now id slots.old }
    requires untold { index.now.told ≡ None }
    requires start { gap.start ≡ gap_start (is_above index.now.live) slots.old id }
    requires end { gap.end ≡ gap_end (is_above index.now.live) slots.old id }
    requires crossed { gap_end (is_above index.now.live) slots.old id < gap_start (is_above index.now.live) slots.old id }
    ensures uncrossed { OnOk result (UndoesCrossing index.now id slots.old slots.new plan.old plan.new) }
    ensures made { OnErr result (AreMade slots.old slots.new plan.old plan.new) }
    ensures noted { AreNoted slots.old slots.new plan.old plan.new undo.old undo.new }
{
    find_sides(slots, index, id, gap, sides)?;
    let boundary = best_boundary(slots, sides);
    let mut cut = Cut {
        boundary,
        low: boundary,
        high: boundary,
    };
    while let Some(next) = pass_one(alloc, slots, index, plan, undo, sides, cut)? {
        cut = next;
    }
    Ok(())
}

/// Moves the nearest entry on the wrong side of a boundary past it: the last early or the first late
/// one, that with the shorter chain. `None` where none is left.
fn pass_one(
    alloc: Global,
    slots: &mut Arrangement,
    index: &Index,
    plan: &mut Moves,
    undo: &mut Moves,
    sides: &Sides,
    cut: Cut,
) -> Result<Option<Cut>, AllocError>
    requires underway { (id : ℕ) × (behind : ℕ → Bool) × (before : ℕ → Bool) × IsUnderway index.now id behind before slots.old sides.now cut }
    requires untold { index.now.told ≡ None }
    ensures passed { IfOk result (λ next. (id : ℕ) (behind before : ℕ → Bool) → IsUnderway index.now id behind before slots.old sides.now cut
        → MayPass index.now id behind before (moves_made slots.old plan.old) (moves_made slots.new plan.new) sides.now cut next) }
    ensures further { IfOk result (IsFurther sides.now cut) }
    ensures made { OnErr result (AreMade slots.old slots.new plan.old plan.new) }
    ensures noted { AreNoted slots.old slots.new plan.old plan.new undo.old undo.new }
{
    let Some(chain) = passer(alloc, slots, index, sides, cut)? else {
        return Ok(None);
    };
    turn(slots, plan, undo, &chain)?;
    Ok(Some(cleared(cut, chain.first())))
}

/// The chain of the entry that passes next. `None` where none is left.
fn passer(
    alloc: Global,
    slots: &Arrangement,
    index: &Index,
    sides: &Sides,
    cut: Cut,
) -> Result<Option<Chain>, AllocError>
    requires underway { (id : ℕ) × (behind : ℕ → Bool) × (before : ℕ → Bool) × IsUnderway index.now id behind before slots.now sides.now cut }
    requires untold { index.now.told ≡ None }
    ensures { IfOk result (λ found. (id : ℕ) (behind before : ℕ → Bool) → IsUnderway index.now id behind before slots.now sides.now cut
        → FindsPasser (is_above index.now.live) behind before slots.now sides.now cut found) }
{
    let down = early_ends(slots, sides, cut);
    let up = late_ends(slots, sides, cut);
    shorter_chain(alloc, slots, index, down, up)
}

/// The last entry before a boundary that must stand behind it, and the least free slot from the
/// boundary on. `None` where one of these isn't there.
fn early_ends(slots: &Arrangement, sides: &Sides, cut: Cut) -> Option<Ends>
    requires { (index : LivePieces) × (id : ℕ) × (behind : ℕ → Bool) × (before : ℕ → Bool) × IsUnderway index id behind before slots.now sides.now cut }
    ensures { (index : LivePieces) (id : ℕ) (behind before : ℕ → Bool) → IsUnderway index id behind before slots.now sides.now cut
        → FindsEarly behind slots.now sides.now cut result }
{
    let from = last_marked(&sides.behind, sides.start, cut.low)?;
    let free = slots.next_free_above(cut.boundary - 1)?;
    Some(Ends { from, free })
}

/// The first entry from a boundary on that must stand before it, and the greatest free slot before
/// the boundary. `None` where one of these isn't there.
fn late_ends(slots: &Arrangement, sides: &Sides, cut: Cut) -> Option<Ends>
    requires { (index : LivePieces) × (id : ℕ) × (behind : ℕ → Bool) × (before : ℕ → Bool) × IsUnderway index id behind before slots.now sides.now cut }
    ensures { (index : LivePieces) (id : ℕ) (behind before : ℕ → Bool) → IsUnderway index id behind before slots.now sides.now cut
        → FindsLate before slots.now sides.now cut result }
{
    let from = first_marked(&sides.before, sides.start, cut.high, sides.end)?;
    let free = slots.last_free_below(cut.boundary)?;
    Some(Ends { from, free })
}

/// How far a boundary is clear once what stood in a slot has passed it.
fn cleared(cut: Cut, slot: u32) -> Cut
    requires { slot < MOST_SLOTS }
    ensures { result ≡ cleared cut slot }
{
    if slot < cut.boundary {
        Cut { low: slot, ..cut }
    } else {
        Cut {
            high: slot + 1,
            ..cut
        }
    }
}

/// Moves along a chain, and erases its first slot.
fn turn(
    slots: &mut Arrangement,
    plan: &mut Moves,
    undo: &mut Moves,
    chain: &Chain,
) -> Result<(), AllocError>
    requires { CanShift slots.old chain.now.free chain.now.members.items }
    ensures turned { OnOk result (IsShiftedOut slots.old slots.new plan.old plan.new chain.now) }
    ensures made { OnErr result (AreMade slots.old slots.new plan.old plan.new) }
    ensures noted { AreNoted slots.old slots.new plan.old plan.new undo.old undo.new }
{
    chain.shift(slots, plan, undo)?;
    plan.make(slots, undo, Move::Erase(chain.first()))
}

//! The last part of an insertion: the new id's own move, and the chain that makes way for it.
ghost use Rattle.std.specs.Prelude.{◌≡◌, ◌<◌, ◌≤◌, IfSome, IfOk, OnOk, OnErr, length};
ghost use Rattle.placement.specs.Live.{is_above};
ghost use Rattle.placement.specs.Placement.{first_lower, last_upper, gap_start, gap_end};
ghost use Rattle.placement.specs.Insertion.{AreMade};
ghost use Rattle.placement.specs.Ready.{IsReady, IsTold};
ghost use Rattle.move_planner.specs.Noted.{AreNoted};
ghost use Rattle.move_planner.specs.Steps.{IsFull, IsPlaced, IsWay, ends_down, ends_up};

use crate::Moves;
use crate::chains::Chain;
use crate::landing::landed;
use crate::places::{Gap, choose};
use crate::shorter::{Ends, shorter_chain};
use overlap_index::Index;
use placement::{Aim, Move};
use rule_model::Rank;
use slot_order::MOST_SLOTS;
use slot_pool::Arrangement;
use std::alloc::{AllocError, Global};

/// Places a new id that nothing crosses: into its gap, or over the first slot of the shorter of two
/// chains that moves out of its way, its last member to where the aim wishes it. After a refusal the
/// moves that the plan gained are made.
pub(crate) fn place(
    alloc: Global,
    slots: &mut Arrangement,
    index: &Index,
    plan: &mut Moves,
    undo: &mut Moves,
    id: u32,
    aim: Aim,
    coming: &[Rank],
    gap: Gap,
) -> Result<(), AllocError>
    requires ready { IsReady index.now id slots.old }
    requires told { IsTold index.now slots.old }
    requires coming { length coming.now ≤ MOST_SLOTS }
    requires upper { gap.upper ≡ last_upper (is_above index.now.live) slots.old id }
    requires lower { gap.lower ≡ first_lower (is_above index.now.live) slots.old id }
    requires start { gap.start ≡ gap_start (is_above index.now.live) slots.old id }
    requires end { gap.end ≡ gap_end (is_above index.now.live) slots.old id }
    requires uncrossed { gap_start (is_above index.now.live) slots.old id ≤ gap_end (is_above index.now.live) slots.old id }
    ensures placed { OnOk result (IsPlaced index.now (record { aim = aim; coming = coming.now }) id slots.old slots.new plan.old plan.new) }
    ensures made { OnErr result (AreMade slots.old slots.new plan.old plan.new) }
    ensures noted { AreNoted slots.old slots.new plan.old plan.new undo.old undo.new }
{
    if let Some(slot) = choose(slots, gap.start, gap.end, aim) {
        return plan.make(slots, undo, Move::Put(slot, id));
    }
    let chain = way(alloc, slots, index, id, gap)?;
    let chain = landed(slots, index, aim, coming, chain);
    chain.shift(slots, plan, undo)?;
    plan.make(slots, undo, Move::Put(chain.first(), id))
}

/// The chain that makes way for a new id whose gap has no free slot: the shorter of that down from its
/// first lower id and that up from its last upper one, each to the nearest free slot.
fn way(
    alloc: Global,
    slots: &Arrangement,
    index: &Index,
    id: u32,
    gap: Gap,
) -> Result<Chain, AllocError>
    requires ready { IsReady index.now id slots.now }
    requires told { IsTold index.now slots.now }
    requires upper { gap.upper ≡ last_upper (is_above index.now.live) slots.now id }
    requires lower { gap.lower ≡ first_lower (is_above index.now.live) slots.now id }
    requires full { IsFull (is_above index.now.live) slots.now id }
    requires uncrossed { gap_start (is_above index.now.live) slots.now id ≤ gap_end (is_above index.now.live) slots.now id }
    ensures { IfOk result (IsWay (is_above index.now.live) slots.now id) }
{
    let down = down_ends(slots, gap.lower);
    let up = up_ends(slots, gap.upper);
    match shorter_chain(alloc, slots, index, down, up)? {
        Some(chain) => Ok(chain),
        None => unreachable!(),
    }
}

/// The ends of the down chain from a slot, to the least free slot above it.
fn down_ends(slots: &Arrangement, from: Option<u32>) -> Option<Ends>
    requires { IfSome from (λ at. at < length slots.now) }
    ensures { result ≡ ends_down slots.now from }
{
    let from = from?;
    let free = slots.next_free_above(from)?;
    Some(Ends { from, free })
}

/// The ends of the up chain from a slot, to the greatest free slot below it.
fn up_ends(slots: &Arrangement, from: Option<u32>) -> Option<Ends>
    requires { IfSome from (λ at. at < length slots.now) }
    ensures { result ≡ ends_up slots.now from }
{
    let from = from?;
    let free = slots.last_free_below(from)?;
    Some(Ends { from, free })
}

//! The shorter of two chains, found by walking both a step at a time.
ghost use Rattle.std.specs.Prelude.{◌≡◌, ◌++◌, ◌∷◌, [], ℕ, Some, IfSome, IfOk, OnOk, length};
ghost use Rattle.slot_order.specs.Order.{slot as held_in};
ghost use Rattle.placement.specs.Live.{is_above};
ghost use Rattle.placement.specs.Placement.{IsInOrder};
ghost use Rattle.placement.specs.Ready.{IsTold};
ghost use Rattle.move_planner.specs.Steps.{AllLive, CanGoDown, CanGoUp, IsDown, IsUp, IsShorter, FindsShorter};

use crate::chains::{Chain, step_down, step_up};
use overlap_index::Index;
use slot_pool::Arrangement;
use std::alloc::{AllocError, Global};

/// The slot that a chain begins at, and the free slot that its last member moves to.
#[derive(Clone, Copy, Debug)]
pub(crate) struct Ends {
    pub(crate) from: u32,
    pub(crate) free: u32,
}

/// A chain under way: the members so far, and the last of them.
#[derive(Debug, Drop)]
struct Walk {
    last: u32,
    members: Vec<u32>,
}

impl Walk {
    /// Begins at a slot.
    fn begin(alloc: Global, from: u32) -> Result<Walk, AllocError>
        ensures last { IfOk result (λ walk. walk.last ≡ from) }
        ensures members { IfOk result (λ walk. walk.members.items ≡ from ∷ []) }
    {
        let mut members = Vec::new(alloc);
        members.push(from)?;
        Ok(Walk {
            last: from,
            members,
        })
    }

    /// Takes one more member.
    fn push(&mut self, next: u32) -> Result<(), AllocError>
        ensures last { OnOk result (self.new.last ≡ next) }
        ensures members { OnOk result (self.new.members.items ≡ self.old.members.items ++ next ∷ []) }
    {
        self.members.push(next)?;
        self.last = next;
        Ok(())
    }
}

/// The shorter of the down chain and the up chain between two pairs of ends, the down chain of equal
/// ones, or the one that there is.
pub(crate) fn shorter_chain(
    alloc: Global,
    slots: &Arrangement,
    index: &Index,
    down: Option<Ends>,
    up: Option<Ends>,
) -> Result<Option<Chain>, AllocError>
    requires down { IfSome down (CanGoDown slots.now) }
    requires up { IfSome up (CanGoUp slots.now) }
    requires live { AllLive index.now slots.now }
    requires told { IsTold index.now slots.now }
    requires once { (i j other : ℕ) → held_in slots.now i ≡ Some other → held_in slots.now j ≡ Some other → i ≡ j }
    requires order { IsInOrder (is_above index.now.live) slots.now }
    ensures { IfOk result (FindsShorter (is_above index.now.live) slots.now down up) }
{
    let chain = match (down, up) {
        (Some(down), Some(up)) => first_to_end(alloc, slots, index, down, up)?,
        (Some(down), None) => walk_down(alloc, slots, index, down)?,
        (None, Some(up)) => walk_up(alloc, slots, index, up)?,
        (None, None) => return Ok(None),
    };
    Ok(Some(chain))
}

/// Of a down chain and an up chain, walked in turns from the down chain on, the one that ends first.
fn first_to_end(
    alloc: Global,
    slots: &Arrangement,
    index: &Index,
    down: Ends,
    up: Ends,
) -> Result<Chain, AllocError>
    requires down { CanGoDown slots.now down }
    requires up { CanGoUp slots.now up }
    requires live { AllLive index.now slots.now }
    requires told { IsTold index.now slots.now }
    requires once { (i j other : ℕ) → held_in slots.now i ≡ Some other → held_in slots.now j ≡ Some other → i ≡ j }
    requires order { IsInOrder (is_above index.now.live) slots.now }
    ensures { IfOk result (IsShorter (is_above index.now.live) slots.now (Some down) (Some up)) }
{
    let mut downwards = Walk::begin(alloc, down.from)?;
    let mut upwards = Walk::begin(alloc, up.from)?;
    while let Some(lower) = step_down(slots, index, downwards.last, down.free) {
        let Some(upper) = step_up(slots, index, upwards.last, up.free) else {
            return Ok(Chain {
                free: up.free,
                members: upwards.members,
            });
        };
        downwards.push(lower)?;
        upwards.push(upper)?;
    }
    Ok(Chain {
        free: down.free,
        members: downwards.members,
    })
}

/// The down chain between two ends.
fn walk_down(
    alloc: Global,
    slots: &Arrangement,
    index: &Index,
    ends: Ends,
) -> Result<Chain, AllocError>
    requires down { CanGoDown slots.now ends }
    requires live { AllLive index.now slots.now }
    requires told { IsTold index.now slots.now }
    requires order { IsInOrder (is_above index.now.live) slots.now }
    ensures { IfOk result (IsDown (is_above index.now.live) slots.now ends.from (Some ends.free)) }
{
    let mut walk = Walk::begin(alloc, ends.from)?;
    while let Some(next) = step_down(slots, index, walk.last, ends.free) {
        walk.push(next)?;
    }
    Ok(Chain {
        free: ends.free,
        members: walk.members,
    })
}

/// The up chain between two ends.
fn walk_up(
    alloc: Global,
    slots: &Arrangement,
    index: &Index,
    ends: Ends,
) -> Result<Chain, AllocError>
    requires up { CanGoUp slots.now ends }
    requires live { AllLive index.now slots.now }
    requires told { IsTold index.now slots.now }
    requires once { (i j other : ℕ) → held_in slots.now i ≡ Some other → held_in slots.now j ≡ Some other → i ≡ j }
    requires order { IsInOrder (is_above index.now.live) slots.now }
    ensures { IfOk result (IsUp (is_above index.now.live) slots.now ends.from (Some ends.free)) }
{
    let mut walk = Walk::begin(alloc, ends.from)?;
    while let Some(next) = step_up(slots, index, walk.last, ends.free) {
        walk.push(next)?;
    }
    Ok(Chain {
        free: ends.free,
        members: walk.members,
    })
}

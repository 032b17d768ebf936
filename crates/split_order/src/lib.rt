//! The manager of a device whose results stand in a memory of their own, beside the slots.
//!
//! **One planner serves both kinds of device.** A [`SplitManager`] is a `batch_order::Manager`, which judges and plans,
//! and what lowers its plan: each undivided write that is due is made by its parts, one a step, and once its last part
//! is made the planner is told so (`Manager::pass_write`). Nothing is planned twice, and a plan is as small as the planner's.
//!
//! **The one hard idea.** A look-up finds a slot and reads the slot's result word later. So an entry's result word is
//! written before its value and mask; a slot is erased before another entry is written there, and between the two stands
//! a drain, for which nothing may be in flight; and a drain stands before the results of standing entries change, if any
//! slot was written since the last one. Then what a look-up reads is what some moment between its search and its read
//! would have answered (`split_device`), and each moment shows the old or the new rules (`split_writes`).
//!
//! **What it keeps** beside the planner is what was done since the last drain (`since`), of each slot, and how far it came
//! with the write that is due. What stands in that write's slot the planner tells (`Manager::replaced`).
//!
//! # Decided
//! - **`since` runs on over commits** from the blank device, since a look-up may find its slot in one and be read in another.
//!   A plan that is dropped leaves it.
//! - **No plan is turned round, and none is gone on with behind a restart**: nothing here leads there, so the planner's plan
//!   goes forward always.
//! - **`most` is the planner's count** (`Manager::most_parts`): three parts for each entry that an insertion puts, less one,
//!   which is what each insertion takes (`exact`, in `split_writes/specs/Segment`).
//! - **What was made is a history** (`History`), which takes no memory: the result words of empty slots are known by it alone.
#![tactic(auto)]

mod due;
mod manager;
mod since;
mod steps;

pub use batch_order::{Mode, Placement, Refusal, Rejection};
pub use manager::SplitManager;
pub use rule_store::BatchFault;
use split_device::SplitWrite;
pub use split_writes::SplitDone;
use thiserror::Error;

/// What one step did.
#[derive(Clone, Copy, Debug, PartialEq, Eq)]
pub enum SplitStep {
    /// It made this write, the next part of the plan.
    Wrote(SplitWrite),
    /// A drain was next, and nothing was in flight: it drained.
    Drained,
    /// A drain is next, and so many words and found slots are in flight: nothing changed.
    Waiting(u32),
    /// The plan had nothing left: the rules are the new set now, and no plan is held.
    Finished(SplitDone),
    /// No plan was held, and nothing changed.
    Idle,
}

/// Why `carry_out` came to no end of the commit.
#[derive(Clone, Copy, Debug, PartialEq, Eq, Error)]
pub enum SplitUnfinished {
    /// One part failed as often as each may be tried. Those before it were made, and the commit is still under way, with this
    /// many parts to make, of which it is the next.
    #[error("the device failed with {left} writes to make")]
    Stuck { left: u64 },
    /// A drain is next, and so many words and found slots are in flight. The commit is still under way, with this many parts
    /// to make, and goes on once these have been read.
    #[error("{flying} look-ups are in flight with {left} writes to make")]
    Waiting { flying: u32, left: u64 },
}

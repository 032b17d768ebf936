//! What the slots and tables of a device tell of a commit that was stopped after any write.
//!
//! A commit puts entries in, gives others new results, and takes others out, in that order. Where it was stopped the
//! device shows a **stage** of it: a first part of these tasks is done, and the rest isn't. `specs/Tasks` lists the
//! tasks, `specs/Stage` says what a stage is, `specs/Fault` what is wrong with a device that shows none, and
//! `specs/Going` which writes go on from a stage to the new set.
//!
//! **What is known of stages** stands as laws, calls that make nothing (`laws`): a commit that writes slots in use
//! alone passes only stages, also while it is taken back; a stage answers each key as the old set or as the new one;
//! writes that go on from one, with insertions that keep the order, pass only stages, and end with the new set; and the
//! faults are exactly what is wrong with a device that shows none.
//!
//! Whether a batch is taken at all is told by the rules alone (`verdict`), without memory. **How far its commit came**
//! is told by the device (`find_stage`): the stage that it shows, or what is wrong with it. Slots and tables are read
//! back, and then each clause of a stage is a walk over lists: which piece each slot holds (`reading`), and whether it
//! may (`foreign`), the order (`crossing`), twins (`doubled`), pieces that stay (`missing`), and the tasks
//! (`progress`). Whoever is to go on with the commit gets the pieces too (`show_commit`).
//!
//! # Decided
//! - **A stage is said by tasks in one order** (`specs/Stage`). A result that doesn't change is no task. Of two slots
//!   that hold one entry the greater is the twin, and one at most is. That a segment passes only stages asks that it
//!   writes slots in use alone, and that the state before it is a manager's between commits (`MayBegin`): the manager's
//!   `Holds` says both of each.
//! - **A stage is found by walks over lists**, of which the contract says nothing: Ok comes only with the stage and its
//!   numbers, a fault only where it applies, so for a stage none but want of memory. The walks compare each slot with
//!   each piece, and slots with each other, which a restart can wait for; of several faults the first in the order of
//!   the walks is told. Numbers of tasks past a `u32` would be told as want of memory: no device has the slots for
//!   them.
//! - **What the rules alone refuse is told by one type** ([`Rejection`]), which a manager's refusal has beside a held plan
//!   and want of memory. Where the set alone takes more than there is, 0 is told as free.
//! - **What is left of a stopped commit is planned as a commit is**: insertions, results and erases over ids, in the
//!   forms of `commit_writes/specs/Planned`, so a plan of the manager's is one of these. The pieces that stand take the
//!   place of the old set's: each has an id, and the twin has none, since its erase is the first slot write. The laws
//!   ask no more of a stage than `find_stage` finds. Words in flight are current for the ranges that the stage tells
//!   (`stopped_ranges`): those that are live meanwhile once an inserted piece stands, else those before the commit, and
//!   only then a restart drains.
//!
//! # What is left of a stopped commit
//! A restart plans it from the stage that it finds, and here is the theory of that. It gives an id to each piece that
//! stands (`specs/Standing`), plans an insertion for each that is still to come, and then new results and erases, as a
//! commit's plan does. `specs/PlannedRest` says what such a plan is, and `specs/Restart` what it is behind the table
//! words that differ and the erase of the twin, on a device with as many slots as are in use or more.
//!
//! The laws (`rest_laws`) say that ids that are read back so are in order, that the writes go on to the new set,
//! hitless after each of them and within the bounds, and where they lead (`specs/Ending`): a manager's restart rests on
//! them.
#![tactic(auto)]

mod bits;
mod commit;
mod crossing;
mod doubled;
mod finding;
mod foreign;
mod judging;
mod laws;
mod missing;
mod progress;
mod reading;
mod rest_laws;
mod staging;
mod standing;
mod words;

pub use commit::Coded;
pub use judging::verdict;
pub use laws::{
    last_stages_answer_new, one_piece_stands_twice, only_stages_have_no_fault, rests_pass_stages,
    returns_pass_stages, segments_pass_stages, stages_answer_old_or_new, stages_have_no_fault,
    tasks_part_once,
};
use range_bits::BitMap;
pub use rest_laws::{
    planned_restarts_are_counted, planned_restarts_come_to_rest, planned_restarts_cross_nothing,
    planned_restarts_go_on, planned_restarts_lead_on, planned_restarts_serve,
    planned_restarts_show_old_or_new, planned_rests_pass_stages, stages_have_standing_ids,
    stages_serve, stages_use_no_other_slots, stopped_commits_are_current,
    stopped_restarts_are_current,
};
pub use rule_model::Field;
use rule_model::Rank;
pub use rule_store::Mode;
use rule_store::{BatchFault, Store};
pub use staging::{Shown, find_stage, show_commit};
use thiserror::Error;

/// Why a batch isn't taken, judged by the rules alone: neither a held plan nor want of memory is a reason here.
#[derive(Clone, Copy, Debug, PartialEq, Eq, Error)]
pub enum Rejection {
    /// A command of the batch can't be carried out.
    #[error("a command can't be carried out: {0}")]
    Unsound(BatchFault),
    /// The additions need more bits for their port ranges than a field has free.
    #[error("{need} {field} bits needed and {free} free")]
    Bits { field: Field, need: u32, free: u32 },
    /// The additions need more entries than there are free slots.
    #[error("{need} slots needed and {free} free")]
    Slots { need: u32, free: u32 },
}

/// What a manager leaves of itself: the rules of its set, and which of their port ranges has which bit.
#[derive(Drop)]
pub struct Parts {
    pub rules: Store,
    pub src: BitMap,
    pub dst: BitMap,
}

/// How far a commit came: how many of its tasks are done and how many are left, those that change nothing in neither,
/// and the greater slot of an entry that stands in two.
#[derive(Clone, Copy, Debug, PartialEq, Eq)]
pub struct Stage {
    pub done: u32,
    pub left: u32,
    pub twin: Option<u32>,
}

/// Why a device shows no stage of a commit.
#[derive(Clone, Copy, Debug, PartialEq, Eq, Error)]
pub enum StageFault {
    /// The bits that were handed in are not those of the set's port ranges.
    #[error("other {0} port ranges have bits than those of the rules")]
    BitsDiffer(Field),
    /// A bit of a table's word at this port doesn't say whether the port is in the bit's range.
    #[error("the {field} table's word at port {port} is wrong")]
    Word { field: Field, port: u16 },
    /// The slot holds an entry that is none of the commit's, or isn't in use.
    #[error("slot {slot} holds an entry of no rule")]
    Foreign { slot: u32 },
    /// A lesser slot holds an entry of lower priority that overlaps the one here.
    #[error("slot {slot} stands behind a lower one that it overlaps")]
    Crossed { slot: u32 },
    /// A lesser slot holds the entry too, with another result, or a lesser slot than this is such a one too.
    #[error("slot {slot} holds an entry once more")]
    Twin { slot: u32 },
    /// An entry of this rule is missing, or a task of it is done before an earlier one.
    #[error("the rule of priority {priority} is carried out in part")]
    Gap { priority: Rank },
    /// Want of memory.
    #[error("out of memory")]
    Memory,
}

//! Checks of traces, judged from the trace alone: where the answer is yes, every write of the trace is one after which each
//! packet has the answer of the set before its commit or of the set after it.
//!
//! A [`Checker`] takes a trace line by line. `specs/Places` says which lines a trace may have next, `specs/Orderly` what
//! an orderly trace is, by the stages of `readback`, `specs/Hitless` what it says, `specs/Answers` what is told of one,
//! and `specs/Segments` that each commit's lines are orderly.
//!
//! What a write of a slot can break of a stage shows at that slot (`specs/Local`), so a line is judged by some walks
//! over the slots and over the tasks of its commit: which piece comes (`known`), whether it is in order with the others,
//! and what stands twice (`slots`, `pairs`), which tasks are done (`tasks`). No walk compares slots with each other. Of a
//! commit under way (`commit`) is kept, from line to line, how many of its tasks are done and which two slots hold one
//! entry (`specs/Kept`); of the trace (`trace`) its set, what the device holds, and how many commits and writes there
//! were (`specs/Traced`). Contracts see a checker as its place and what `specs/Orderly` has known of the trace there,
//! and none of this.
//!
//! # Decided
//! - **A commit is judged from the first line behind its commands on**: its batch by the rules alone, then each event.
//! - **A checker that doesn't take a line is spent**, so `take` takes it by value: nothing is told of lines behind the
//!   first that is wrong, and a line that wasn't judged for want of memory isn't judged again.
//! - **The bits of ranges aren't in a trace**, and are reckoned: a new range gets the least free bit. So a driver that
//!   gives others is refused at its first entry that tests one.
//! - **The order is judged by walks over the slots**, before and behind the one that is written. A piece takes 240 bytes,
//!   so columns stand beside the pieces (`placed`), of their ranks in 32 bits and of the upper 32 bits of their
//!   destinations: a walk passes over eight slots in a step, and looks at the pieces that are left. Of a dense list these
//!   are few by their ranks, since pieces that overlap stand in the order of ranks, and of routes by their destinations.
//!   Of each page of 64 slots the least and the greatest rank are known (`pages`), so that most pages are passed over
//!   whole where ranks stand in their order.
//! - **Where an entry stands is asked of one group of slots** (`groups`): which piece comes that stands, and whether a copy
//!   of what comes, or of what goes, stands elsewhere. The group is told by the entry's tag and ports, so that the pieces
//!   of one rule are in several. Each slot that has a piece is listed in its entry's group; a slot that is listed is
//!   looked at, so it needn't hold one.
//! - **More writes than a `u64` counts, or rules than a `u32`, are told as want of memory.**
#![tactic(auto)]

mod checker;
mod commit;
mod groups;
mod known;
mod laws;
mod pages;
mod pairs;
mod placed;
mod places;
mod slots;
mod tasks;
mod trace;
mod words;

pub use checker::{Checker, Counts};
pub use laws::{
    answers_are_one, orderly_traces_are_hitless, orderly_traces_are_taken, orderly_traces_get_yes,
    places_are_exact, segments_are_orderly, slot_writes_are_local, table_writes_are_local,
    taken_traces_are_hitless, traces_are_commits, yes_is_hitless, yes_is_orderly,
};
pub use places::Place;
use thiserror::Error;

/// Why a line isn't taken.
#[derive(Clone, Copy, Debug, PartialEq, Eq, Error)]
pub enum CheckFault {
    /// No trace has it there.
    #[error("no trace has the line there")]
    Misplaced,
    /// It breaks the order of its commit, or tells another number of writes.
    #[error("out of order")]
    Unordered,
    #[error("out of memory")]
    Memory,
}

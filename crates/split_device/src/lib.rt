//! A device whose results stand in a memory of their own, beside the slots.
//!
//! A slot has a value and a mask, and beside it stands its result word, a tag and a result. A look-up is three events:
//! a key's word is made by the tables, the least slot that hits it is found, and the slot's result word is read. Between
//! any two of them the manager may write. `specs/State` says what such a device holds and answers, `specs/Flight` what
//! the three events are, `specs/Drains` where writes may stand so that each look-up is one of its key at a moment between
//! its search and its read.
//!
//! # Decided
//! - **The trait is none of `tcam_device`**: its writes are other ones, and a look-up has one event more, so `Device` with
//!   more cases would leave each of its users with writes that can't come; and each line of it there would prove nearly
//!   all crates anew. Events and flight are had by every device, as histories where it can't tell them; a journal beside
//!   the events isn't, since nothing speaks of it. The price is that `reserve` and `drain` stand in two traits with the
//!   same clauses.
//! - **A drain parts look-ups from a write by what was done since the last one, over commits too** (`SinceDrain`,
//!   `is_drain_due`): before a result word of a slot that was erased since; before one of a slot that holds an entry,
//!   where any slot was written since; and behind words of a table, where every commit that gives a new bit has one. If it
//!   began anew with each commit, a look-up that found its slot in one could have an entry of higher priority inserted in
//!   the next and its result changed in the third, and would read what no undivided look-up of its key ever answered
//!   (`neither` in `proofs/Examples`). So the laws speak of look-ups that wait, in whatever commit they were searched
//!   (`AreWaiting`), and hand them on.
//! - **Each read is of a moment, and old or new by a commit begun by then whose sets that moment shows**
//!   (`reads_are_by_commits`). Which commit a moment is within `split_turns` says, whose moments have the rules. A look-up
//!   that was searched in an earlier commit may be of a moment then. So that a read gets the old or the new set's answer of
//!   the commit in hand is said where the look-ups that waited before it have seen no other (`AreBetweenSets`).
//! - **`MemSplit` is for tests**: its search goes through all slots, and it keeps all its events. A program's device is to
//!   keep none, as `memory_tcam::Shadowed` over hardware does for whole entries.
#![tactic(auto)]

mod device;
mod flight;
mod laws;
mod mem;
mod memory;

pub use device::SplitDevice;
pub use laws::{
    answers_as_undivided, devices_are_pipelines, reads_are_by_commits, reads_are_of_a_moment,
    twice_as_once, twice_in_time,
};
pub use mem::MemSplit;
use rule_model::{Field, Rank, Word};

/// One write: the value and the mask of a slot or its erase, a slot's result word, or the word of a translation table
/// at a port.
#[derive(Clone, Copy, Debug, PartialEq, Eq)]
pub enum SplitWrite {
    Slot(u32, Option<(Word, Word)>),
    Result(u32, Rank, u32),
    Table(Field, u16, u16),
}

/// What a manager makes of a device: a write, or a drain, which stands where nothing is in flight.
#[derive(Clone, Copy, Debug, PartialEq, Eq)]
pub enum SplitAction {
    Written(SplitWrite),
    Drained,
}

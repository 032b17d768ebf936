//! Turns over one commit on a device with split results: steps of its manager, translations, searches and reads, in the
//! order of a list.
//!
//! [`drive_split`] is every interleaving of a manager with look-ups of three events, in one thread: the list says who comes
//! next. Whatever the list, each read answers what an undivided look-up of its key would at a moment between its search and
//! its read, and so the answer of the rules then or of those that the commit led to then. A driver with threads of its own
//! finds here what may stand between what.
//!
//! # Decided
//! - **The moments of a look-up are kept beside it, each with the rules then** (`Moment`, `LookUp`): so a clause says which
//!   sets a read's answer may be of, also where the commit has finished between its search and its read. The pipeline of
//!   `split_device` has no rules, since a device knows of none.
//! - **No found slot may be unread when the turns begin**, since nothing tells at which moments it was in flight, and which
//!   sets those showed. One that is unread when they end was searched by them; who reads it by hand is told its key and
//!   its slot, and no more.
//! - **A turn that fails is a step with a part due, and isn't tried again** (`StandsBefore`, `cause` of `drive_split`): the
//!   count of failures rises by one, with `Device` alone.
//! - **Between two commits nothing more is asked than between two turns**: the words in flight are current for the ranges
//!   that are live then (`live_now`), since a step leaves them so, the last one of a commit too (`LeavesCurrent` of
//!   `split_order`), and `prepare` changes none of them.
#![tactic(auto)]

mod turns;

use rule_model::Key;
use thiserror::Error;
pub use turns::drive_split;

/// Who comes next.
#[derive(Clone, Copy, Debug, PartialEq, Eq)]
pub enum SplitTurn {
    /// The manager makes a step of the commit under way.
    Step,
    /// The word of this key is put into flight.
    Translate(Key),
    /// The oldest word in flight is searched, and the slot that it finds is in flight then.
    Search,
    /// The result word of the oldest found slot is read.
    Read,
}

/// Why turns aren't carried out to their end.
#[derive(Clone, Copy, Debug, PartialEq, Eq, Error)]
pub enum SplitDriveFault {
    /// Want of memory, before the first turn.
    #[error("out of memory")]
    Memory,
    /// A write failed. The turns before stand.
    #[error("the device can't be written")]
    Device,
}

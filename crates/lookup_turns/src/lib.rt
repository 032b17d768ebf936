//! Turns over one commit: steps of its manager, translations and searches, in the order of a list.
//!
//! [`drive`] is every interleaving of a manager with look-ups of two events, in one thread: the list says who comes
//! next. Whatever the list, each search answers what an undivided look-up of its key would at that moment, and so the
//! old rules' answer or that of the new ones. A driver with threads of its own finds here what may stand between what.
//!
//! # Decided
//! - **Turns are made in a crate of their own**, and not in `replay`: they need no script, no report and no sink, and
//!   nothing stands above them, so the gate's long chain doesn't grow. That the device is the manager's and the words
//!   in flight are current is a premise, since a driver has both from `Manager::new` on and `drive` gives them back,
//!   after a fault too. It says what was done to the device besides (`events`), which the answers alone wouldn't.
//! - **A turn that fails is a step with a write due, and isn't tried again** (`StandsBefore.step`, `.due`, `cause` of
//!   `drive`): the count of failures rises by one, with `Device` alone. A clause that it only rose was met by a body
//!   that tried a failed turn again in silence. Turns also keep the way back of the commit under way, and the room for
//!   it.
#![tactic(auto)]

mod turns;

use rule_model::Key;
use thiserror::Error;
pub use turns::drive;

/// Who comes next.
#[derive(Clone, Copy, Debug, PartialEq, Eq)]
pub enum Turn {
    /// The manager makes a step of the commit under way.
    Step,
    /// The word of this key is put into flight.
    Translate(Key),
    /// The oldest word in flight is searched.
    Search,
}

/// Why turns aren't carried out to their end.
#[derive(Clone, Copy, Debug, PartialEq, Eq, Error)]
pub enum DriveFault {
    /// Want of memory, before the first turn.
    #[error("out of memory")]
    Memory,
    /// A write failed. The turns before stand.
    #[error("the device can't be written")]
    Device,
}

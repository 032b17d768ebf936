//! A router of two tables: an access list and routes, each on a device of its own whose results stand beside its slots.
//!
//! A [`Router`] takes the acts of one script, one at a time. A change joins the pending batch of its table; a packet is
//! looked up in both devices as they stand; a commit is judged by both tables and, where both take it, carried out part by
//! part: the list's first, then the routes'. Where either refuses neither device is written, and both batches are dropped.
//!
//! # The one hard idea
//! What an act does is a list of effects, parts and drains of either device and report lines in one order, said of rule
//! lists, what was made of each device, and the report alone (`specs/Run`). Each table's part of a commit is a segment by
//! parts, so between any two of its effects that device answers each key as the old rules or the new ones of that table do.
//! Of both together nothing is said: a packet may get the new answer of the list and the old one of the routes. `apply` has
//! exactly the effects of its act, or those before the line or the part that failed, and no memory is taken between two parts.
//!
//! # How it stands
//! `router` has the acts, `committing` what becomes of a commit, `carrying` what carries one table's part out, `report` the
//! lines, `alike` what callers may know of every router.
//!
//! # A device that fails
//! A part that failed is tried again at once, [`TRIES`] times in all. Where it failed each time the rest of the commit is
//! held, of both tables, and no further act is taken.
//!
//! # Decided
//! - **A router stands at a value** (`progress_of`) that its managers and its counts give, with all that was made of each
//!   device since it was blank: so what a commit does is said without the devices, and a premise (`AreAt`) says that these
//!   are there.
//! - **The list is judged first, and where it refuses the routes aren't asked**: the line names one reason. Where the routes
//!   refuse, or have no memory, the list's plan is dropped (`SplitManager::cancel`), which leaves it as before.
//! - **A packet's line is what the rules answer**, and no clause says who was asked. The devices are, which hold what the
//!   managers made and so answer the same.
//! - **Nothing may be in flight while no commit is unfinished**: a router begins no look-up of three events, so no drain
//!   waits. Who drives look-ups beside a commit has [`drive_split`] for one table.
//! - **`Memory` comes only where the list's verdict takes the batch**, and before any part.
//! - **A trace line is written behind its part**, one call of the sink for each: where it is refused the part was made, and the
//!   rest of the commit is held, also where nothing is left of it.
//! - **`Held` is the end of a router**: it tells how many parts are left of both tables, and there is no call that goes on.
//!   The devices answer old or new then, so they may be left as they are, or be read by whoever mends them.
//! - **Each table's insertions go where the placement says, and no slot past those in use is written**: both are said of a
//!   table's part of a commit (`IsPartOfCommit` in `specs/Run`). A device is known here by its events, and a planner by what it
//!   keeps of the slots in use; that these are one where no commit is under way is a part of what a router is.
//! - **A router is of one version of IP**, which its routes are of, and by which its report names rules.
//! - **The writes of all commits are counted in 128 bits**, since no bound of a commit's parts is promised that 64 bits
//!   would hold so many times over.
#![tactic(auto)]

mod alike;
mod carrying;
mod committing;
mod report;
mod router;

pub use router::Router;
use rule_model::Key;
use rule_store::Command;
pub use split_order::{Mode, Placement};
pub use split_turns::{SplitDriveFault, SplitTurn, drive_split};
use thiserror::Error;

/// How often a part is tried before its failure stops the commit.
pub const TRIES: u32 = 4;

/// One of the two tables.
#[derive(Clone, Copy, Debug, PartialEq, Eq)]
pub enum Side {
    /// The access list.
    List,
    /// The routes.
    Routes,
}

/// What one line of a script does.
#[derive(Clone, Copy, Debug, PartialEq, Eq)]
pub enum RouterAct {
    /// A change joins the pending batch of a table.
    Change(Side, Command),
    /// A packet is looked up in both tables.
    Packet(Key),
    /// Both pending batches are committed.
    Commit,
}

/// Why an act isn't carried out to its end.
#[derive(Clone, Copy, Debug, PartialEq, Eq, Error)]
pub enum RouterFault {
    /// The table has as many pending changes as may wait, 4,096 or 1,048,576. Nothing has changed.
    #[error("batch full")]
    BatchFull,
    /// The sink failed.
    #[error("the report can't be written")]
    Sink,
    /// A device failed, at each try of one part.
    #[error("the device can't be written")]
    Device,
    /// Want of memory. Nothing has changed.
    #[error("out of memory")]
    Memory,
    /// A commit is unfinished, since a device failed. Nothing has changed.
    #[error("a commit is unfinished, with {left} writes to make")]
    Held {
        /// The parts that are left to make, of both tables.
        left: u64,
    },
}

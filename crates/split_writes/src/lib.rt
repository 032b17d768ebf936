//! What a commit writes on a device whose results stand in a memory of their own: the pure theory.
//!
//! A commit is planned as undivided writes, as for any other device (`commit_writes`). Each of them is made by **parts**
//! (`specs/Parts`): a new entry's result word, then its value and mask; in place of another entry, whose slot is erased
//! first; a new result as a result word alone. Between the parts stand drains, where a look-up in flight might else read a
//! result word of another entry than it found. `specs/Segment` says that the parts of a commit's segment are hitless too,
//! each in its time, and within the bound on insertions (`specs/Insertion`).
//!
//! Why it holds: an insertion puts an entry over another one only where that one stands in a second slot, so erasing its
//! slot first changes no answer; and a result word of an empty slot is read by nobody. There is no code but the numbers of
//! a commit.
//!
//! # Decided
//! - **A commit is lowered from its undivided writes** (`made_of`), and its own drain of new bits is taken over where it
//!   stands, also where no part asks for one. So one planner serves both kinds of device, and a segment by parts
//!   (`IsSplitSegment`) is the parts and drains of a segment, and no other list.
//! - **An insertion by parts ends with the write of a slot that completes an entry which stood in no slot**, by the result
//!   word that stands there; a result word ends none (`split_insertions`). So insertions by parts are the parts of
//!   insertions, with the same spans, and one that puts `p` entries takes exactly `3p - 1` parts: three for each, but that
//!   one slot more is filled than erased. The bound is `2 + 3(m - 1)(1 + c)`: two for the new entry, and three for each
//!   entry that moves.
//! - **That parts are hitless follows from the clauses of a segment, and the bound from its plan** (`ArePlannedOn`, which
//!   `Holds.placed` gives). The former holds in both modes by one proof, over `rising`.
#![tactic(auto)]

mod laws;

pub use laws::{
    commits_are_under_way, goes_on_by_drains, goes_on_by_events, goes_on_by_writes, makes_segments,
    parts_are_hitless, sees_old_or_new, sees_old_or_new_on_the_way,
};

/// The numbers of a commit by parts: its writes and those to the translation tables, the writes of its longest insertion,
/// and the greatest crossing span of one. A drain is no write.
#[derive(Clone, Copy, Debug, PartialEq, Eq)]
pub struct SplitDone {
    pub writes: u64,
    pub words: u32,
    pub most: u32,
    pub span: u32,
}

//! Traces of any driver: their lines, and when they are hitless.
//!
//! A driver of another kind makes its writes in an order of its own, moves entries as it likes, cuts rules into entries
//! in its own way, gives ranges its own bits, and may keep as many copies as there is room for. Its trace has the lines
//! of `trace_file`, and two more:
//!
//!     {"move":[FROM,TO,COUNT]}
//!     {"back":NUMBER}
//!
//! A move is one event: what stood in so many slots stands from another one on, and of these slots those that nothing
//! came to are empty. `back` stands in the place of `done` where a call failed and undid itself: the set is the one that
//! its commit began with.
//!
//! `specs/DriverLines` says which line a text is, `specs/Known` what is known behind some lines, `specs/Judged` when a
//! line is hitless, and `specs/Told` what is told of a whole text. Nothing is asked but what packets see: behind each
//! write every key gets the answer of the set before its commit or of the set after it, at the commit's end the latter.
//!
//! # Decided
//! - **Answers are compared by priority and result, or by the result alone** ([`Compared`]): a log may know what a packet
//!   gets, and not whose entry it was.
//! - **A leak is a packet**: a key that is wrong behind a write, with what it gets and with what it might have got
//!   ([`Leak`]). It is so by three look-ups.
//! - **A commit's commands have to be those of a sound batch** (`rule_store`), so that it is known which set was meant; a
//!   command that isn't may not stand there. Whether its entries have room isn't asked.
//! - **A drain asks nothing**: look-ups are undivided here.
#![tactic(auto)]

mod laws;
mod lines;

pub use laws::{leaks_are_not_hitless, no_is_a_leak, yes_is_hitless_by_lines};
pub use lines::read_driver_line;
use rule_model::{Key, Rank};
use trace_file::TraceLine;

/// One line of a driver's trace.
#[derive(Clone, Copy, Debug, PartialEq, Eq)]
pub enum DriverLine {
    /// A line that our own traces have too.
    Common(TraceLine),
    /// What stood in so many slots from a first one on stands from another one on, by one event.
    Move { from: u32, to: u32, count: u32 },
    /// The commit was taken back, by its number.
    Back(u32),
}

/// By what answers are compared.
#[derive(Clone, Copy, Debug, PartialEq, Eq)]
pub enum Compared {
    /// By the priority of the rule that decides, and its result.
    Answers,
    /// By the result alone.
    Results,
}

/// What a line asks of the device behind it.
#[derive(Clone, Copy, Debug, PartialEq, Eq)]
pub enum Asked {
    /// Each key has the old or the new answer.
    OldOrNew,
    /// Each has the new one.
    New,
    /// Each has the old one.
    Old,
    /// Nothing.
    Nothing,
}

/// A packet that gets a wrong answer: its key, what it gets, and what the old and the new set answer; each answer is the
/// priority and the result of a rule, or none.
#[derive(Clone, Copy, Debug, PartialEq, Eq)]
pub struct Leak {
    pub key: Key,
    pub gets: Option<(Rank, u32)>,
    pub old: Option<(Rank, u32)>,
    pub new: Option<(Rank, u32)>,
}

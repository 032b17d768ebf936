//! Look-ups of two events over a trace: laws, with nothing to run.
//!
//! A chip that translates ports makes a key's word by its tables at one moment, and compares it with its slots at a later
//! one; writes may stand between. Of an orderly trace (`trace_check`) each write is hitless for look-ups that are undivided.
//! These laws say it of such a look-up too, as long as none is under way over a drain: it has the answer of the set before
//! the commit that is under way when its word is searched, or of the set after it (`specs/LookUps`).
//!
//! # Decided
//! - **A crate above the checker, and below the check of a text**: a yes of `trace_verify` says what these laws do, and the
//!   checker of lines isn't proved after them.
//! - **Of the first lines of a trace too**, so of what a checker has taken, wherever it stands. Which ranges are served
//!   from a drain on shows behind it: those that are live meanwhile where an entry comes that the commit puts in, since the
//!   tables serve them there and no word is written in between; else those before the commit, the only ones that are
//!   tested.
#![tactic(auto)]

mod laws;

pub use laws::{
    orderly_traces_answer_as_look_ups, orderly_traces_serve, orderly_traces_serve_look_ups,
    taken_traces_serve_look_ups,
};

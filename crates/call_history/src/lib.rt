//! What became of the calls of an object, as contracts see it.
//!
//! - A failure has a cause: the object counts its failures, and a call answers one exactly where the count rose
//!   (`specs/Cause`). So none is passed over in silence, and none is tried again.
//! - A [`History`] is a list that only contracts see: an object remembers in it what happened, at no cost.
//! - [`Calls`] are the numbers of the calls that are to fail, for an object that fails on purpose.
#![tactic(auto)]

mod calls;
mod history;

pub use calls::Calls;
pub use history::{History, Piece, Pieces};

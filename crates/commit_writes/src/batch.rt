//! What a batch does to a set of rules: its changes, a priority each, and by them the pieces of rules that a commit
//! puts in, those that get another result, and those that it takes out.
//!
//! A rule is cut into its pieces once ([`set_pieces`], [`batch_pieces`]): by covers one for each block of its source
//! range and each of its destination range, and by bits one, with the bits of its ranges.

mod changes;
mod pieces;

pub use pieces::{Pieces, Ranked, batch_pieces, set_pieces};

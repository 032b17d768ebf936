//! The chains along which entries move, and turns past a boundary: the pure theory, over entries of any kind.
//!
//! `specs/Moves` has the chains along which entries move to a free slot, and turns: a chain moves, and its first slot is
//! erased. `specs/Cuts` has boundaries: what stands on the wrong side of one, and when it has room; turns past one are in
//! `proofs/Passing`. The lemmas: along a chain's moves and along turns past a boundary the slots are in order after every
//! write, and there are as many turns as entries stand on its wrong side; some boundary has room, and the best has at most
//! as many on its wrong side as the span has slots; a chain's members overlap one after the other at falling priorities,
//! and so are at most as many as the longest such chain has.
//!
//! # What it cost
//! Entries and priorities are parameters, so each crate above instantiates the lemmas at its own entries; down chains and
//! up chains are one, with the way as an argument (`Way`): what comes before what on it is all that their proofs ask
//! (`proofs/Ways`). Turns past a boundary are of two kinds, since what stands before it isn't what stands behind.
//!
//! # What isn't here
//! Which chain is taken, and where a new entry goes: that is `placement`'s, and `move_planner` plans it. No code.
#![tactic(auto)]

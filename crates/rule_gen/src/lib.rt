//! Commands of an access list that are made from a number, to try a memory with.
//!
//! A linear congruential generator draws numbers below 32,768, and six draws make a rule. The commands
//! come in batches: each removes the rules of the batch before, adds as many of its own, and is ended by
//! a commit. The sequence numbers of a batch's rules are even or odd as the number of the batch is, so no
//! batch removes what it adds. From seed 1, with 2 batches of 1 rule:
//!
//!     add sequence 3, commit, remove sequence 3, add sequence 2, commit
//!
//! [`Maker`] draws as it goes, and keeps nothing but the generator's state and how far it has come: no call
//! takes memory. Contracts see it as the list of the commands still to come.
#![tactic(auto)]

mod draws;
mod maker;

pub use maker::Maker;
use rule_store::Command;

/// One of the commands: a change, or the commit that ends a batch.
#[derive(Clone, Copy, Debug, PartialEq, Eq)]
pub enum Made {
    /// A change of the pending batch.
    Change(Command),
    /// Ends a batch, and carries it out.
    Commit,
}

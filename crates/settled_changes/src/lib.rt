//! Changes that don't ask what is there: a rule is to stand, or to go, whether it was there or not.
//!
//! A [`Request`] is a strict command, or one of these. [`Requests`] are settled over a set into a batch of strict commands
//! that leads where they say ([`settle`]): strict ones as they are, and for the others the fewest that do. This batch is
//! judged and carried out as any other, so nothing that speaks of batches knows of requests. A whole new set is settled
//! likewise ([`settle_whole`]), and so is what requests make of no rules ([`settle_all`]).
//!
//! # Decided
//! - **Of several forgiving requests for one rule the last counts**, as where they were made one after the other. A daemon
//!   tells several times in a burst what one prefix is now, and the batch has nothing of what a later one takes back.
//! - **A rule that a strict and a forgiving request name is `Twice`**, at the later of the two, and no further fault of a
//!   forgiving one exists. Else what a strict one takes to stand there would depend on what the forgiving ones come to.
//! - **Each change stands at the place of the last request for its rule.** A batch is carried out by priority and not by
//!   place, so this is seen in its text alone.
//! - **The requests stay their caller's.** Settled over another set they come to another batch, so a caller whose commit
//!   was taken back, or who restarts, settles the same ones again.
//! - **A whole new set is a [`Store`]**, since that is a set by its type: a list of rules may name a priority twice, and
//!   whoever makes a set of it decides what that means.
//! - **A batch has room for 3,145,728 commands**, though no more than 4,096 changes wait for a commit, or 1,048,576 where the
//!   caller says so (`push_within`): two for each request, since a rule whose conditions change takes two, and one for each of
//!   1,048,576 rules that a whole new set lacks. So nothing
//!   that a table is asked for is too long, and no [`SettleFault`] says so. [`settle_whole`] takes sets of any
//!   size, and answers `Full` where they need more.
#![tactic(auto)]

use rule_model::{Rank, Rule};
use rule_store::{BatchFault, Command};
use thiserror::Error;

mod changes;
mod faults;
mod laws;
mod requested;
mod requests;
mod settling;

pub use laws::{
    accepted_leads_where_asked, changes_only_what_differs, gives_the_whole_set, is_settled_once,
    keeps_strict_batches, leads_where_asked, makes_the_least_change,
};
pub use requested::Requested;
pub use requests::Requests;
pub use settling::{settle, settle_all, settle_whole};

/// One change that is asked for.
#[derive(Clone, Copy, Debug, PartialEq, Eq)]
pub enum Request {
    /// A strict command, which fails where the set is not as it takes it to be.
    Strict(Command),
    /// The rule is to stand, whatever stood at its priority.
    Put(Rule),
    /// No rule of this priority is to stand.
    Drop(Rank),
}

impl Request {
    ghost use Rattle.std.specs.Prelude.{◌≡◌};
    ghost use Rattle.settled_changes.specs.Requests.{asked_priority};

    /// The priority that the request names.
    pub fn priority(&self) -> Rank
        ensures { result ≡ asked_priority self.now }
    {
        match self {
            Request::Strict(command) => command.priority(),
            Request::Put(rule) => rule.priority,
            Request::Drop(priority) => *priority,
        }
    }
}

/// Why requests come to no batch.
#[derive(Clone, Copy, Debug, PartialEq, Eq, Error)]
pub enum SettleFault {
    /// This request is the first that the set doesn't take, by the priority that it names.
    #[error("a request can't be carried out: {0}")]
    Unsound(BatchFault),
    /// Want of memory.
    #[error("out of memory")]
    Memory,
}

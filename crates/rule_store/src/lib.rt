//! Rule sets, batches of changes to them, and which batches a memory takes.
//!
//! A [`Store`] is a set of rules, read by falling priority. The rules stand in a table by their keys, and beside it the
//! keys by falling priority in counted blocks: a rule is found by halving the blocks and then a block, an insertion or a
//! removal shifts the keys of one block alone, and what stands above a priority is told by the blocks. Memory is taken by
//! `reserve`, never by a change; contracts see how many rules more have theirs as `spare`.
//!
//! A [`Batch`] is a list of commands. Each is kept with how it names its priority among the earlier ones,
//! told at its push by a map from priorities to their uses. So [`Store::check`] names the first command
//! that the set doesn't take by one look-up a command, without memory, and [`Store::apply`] makes the
//! changes of a batch that has none. An addition behind a removal of the same priority replaces the rule.
//!
//! `entries_of` and `entries_added` count the entries of the memory that a set takes and that a batch adds:
//! for a rule that replaces another only the pieces which that one doesn't have.
//!
//! # Decided
//! - **A set is seen as its list by falling priority.** What it answers doesn't depend on that order.
//! - **`need > free` is compared as `slots < used + need`**, which is right also where the set alone takes more than
//!   there is.
//! - **A commit keeps the commands of its batch and not the batch** (`Commands`): they are carried out at its end, and
//!   how a further one would name its priority is asked only of a batch that grows. So they are copied in one go, and no
//!   map is built anew; the batch stays its caller's, who hands it to a restart, or clears it.
#![tactic(auto)]

use rule_model::{Rank, Rule};
use thiserror::Error;

mod applied;
mod entries;
mod laws;
mod pending;
mod search;
mod stored;
mod table;

pub use entries::{entries_needed, same_conditions};
pub use laws::{has_added_and_kept_rules, is_a_set_afterward};
pub use pending::{BATCH_COMMANDS, Batch, Commands, LimitedBatch, PENDING_COMMANDS, PushFault};
pub use stored::Store;

/// How port ranges are encoded in entries.
#[derive(Clone, Copy, Debug, PartialEq, Eq)]
pub enum Mode {
    /// One entry for each pair of blocks of the two ranges' covers.
    Cover,
    /// One entry for each rule, which tests a bit for each range that is no block.
    Bits,
}

/// One change of a batch.
#[derive(Clone, Copy, Debug, PartialEq, Eq)]
pub enum Command {
    /// Adds a rule.
    Add(Rule),
    /// Gives the rule of a priority another result.
    Set { priority: Rank, result: u32 },
    /// Removes the rule of a priority.
    Del(Rank),
}

impl Command {
    ghost use Rattle.std.specs.Prelude.{◌≡◌};
    ghost use Rattle.rule_store.specs.Batch.{named_priority};

    /// The priority that the command names.
    pub fn priority(&self) -> Rank
        ensures { result ≡ named_priority self.now }
    {
        match self {
            Command::Add(rule) => rule.priority,
            Command::Set { priority, .. } => *priority,
            Command::Del(priority) => *priority,
        }
    }
}

/// Why a command of a batch fails, with the priority that it names.
#[derive(Clone, Copy, Debug, PartialEq, Eq, Error)]
pub enum BatchFault {
    /// An earlier command of the batch names it, and the two are no removal and then an addition.
    #[error("priority {0} is named twice")]
    Twice(Rank),
    /// It is to be added, and the set has it.
    #[error("priority {0} is taken")]
    Taken(Rank),
    /// It is to be changed or removed, and the set doesn't have it.
    #[error("priority {0} is absent")]
    Absent(Rank),
}

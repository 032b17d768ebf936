//! The priorities that a batch names.

ghost use Rattle.std.specs.Prelude.{IfOk};
ghost use Rattle.removals_first.specs.Tests.{AreNames};

use rule_model::Rank;
use rule_store::{Batch, Command};
use std::alloc::{AllocError, Global};
use std::collections::BTreeSet;

/// The priorities that a batch names, and those that it removes.
#[derive(Drop)]
pub(crate) struct Names {
    pub(crate) named: BTreeSet<Rank>,
    pub(crate) removed: BTreeSet<Rank>,
}

/// What a batch names.
pub(crate) fn names_of(alloc: Global, batch: &Batch) -> Result<Names, AllocError>
    ensures { IfOk result (λ names. AreNames names.named names.removed batch.now) }
{
    let mut named = BTreeSet::new(alloc);
    let mut removed = BTreeSet::new(alloc);
    for i in 0..batch.len() {
        let command = batch.at(i);
        let priority = command.priority();
        named.insert(priority)?;
        if let Command::Del(_) = command {
            removed.insert(priority)?;
        }
    }
    Ok(Names { named, removed })
}

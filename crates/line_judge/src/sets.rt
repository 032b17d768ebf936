//! The set that a commit leads to.

ghost use Rattle.std.specs.Prelude.{◌≡◌, IfOk};
ghost use Rattle.rule_store.specs.Batch.{IsSound, set_after};

use rule_store::{Batch, Store};
use std::alloc::{AllocError, Global};

/// The set after a batch. It fails for want of memory, and where there were more rules than a `u32` counts.
pub(crate) fn set_behind(alloc: Global, rules: &Store, batch: &Batch) -> Result<Store, AllocError>
    requires { IsSound rules.now.rules batch.now }
    ensures { IfOk result (λ set. set.rules ≡ set_after rules.now.rules batch.now) }
{
    let more = batch.len();
    if rules.len().checked_add(more).is_none() {
        return Err(AllocError);
    }
    let mut set = copied(alloc, rules)?;
    set.reserve(more)?;
    let commands = batch.commands(alloc)?;
    set.apply(&commands);
    Ok(set)
}

/// A copy of a set. It fails only for want of memory.
fn copied(alloc: Global, rules: &Store) -> Result<Store, AllocError>
    ensures { IfOk result (λ copy. copy.rules ≡ rules.now.rules) }
{
    let count = rules.len();
    let mut copy = Store::new(alloc);
    copy.reserve(count)?;
    for i in 0..count {
        copy.insert(*rules.at(i));
    }
    Ok(copy)
}

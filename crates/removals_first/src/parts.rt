//! A batch in two parts, of which the first makes room for the second.

ghost use Rattle.std.specs.Prelude.{◌≡◌, IfOk, map, filter};
ghost use Rattle.std.specs.BTreeSet.{contains};
ghost use Rattle.std.specs.Ordering.{nat_cmp};
ghost use Rattle.removals_first.specs.Early.{early_batch, late_batch, spared_rules};
ghost use Rattle.removals_first.specs.Tests as spec;

use crate::early::early_ranks;
use crate::names::names_of;
use rule_model::Rank;
use rule_store::{Batch, Command, Store};
use std::alloc::{AllocError, Global};
use std::collections::{BTreeSet, VecDeque};

/// A batch in two: removals that may be made before anything is added, so that their slots are free then, and the rest. Each
/// is a batch of its own, to be prepared and carried out one after the other, the second over the rules that the first one
/// leaves. Where the batch is sound over the set so are both, they lead to the set after it, and the set between gives each
/// key the old or the new answer: so no packet sees another one. The first may be empty. It fails only for want of memory, and
/// takes some |removed| (|added| + |named|) |rules| tests at most.
pub fn part(alloc: Global, rules: &Store, batch: &Batch) -> Result<(Batch, Batch), AllocError>
    ensures early { IfOk result (λ parts. parts.0 ≡ early_batch (spared_rules rules.now.rules batch.now)) }
    ensures late { IfOk result (λ parts. parts.1 ≡ late_batch (spared_rules rules.now.rules batch.now) batch.now) }
{
    let names = names_of(alloc, batch)?;
    let early = early_ranks(alloc, rules, batch, &names)?;
    let late = late_part(alloc, batch, &early.set)?;
    let first = early_part(alloc, early.ranks)?;
    Ok((first, late))
}

// The removals of these rules.
fn early_part(alloc: Global, mut ranks: VecDeque<Rank>) -> Result<Batch, AllocError>
    ensures { IfOk result (λ part. part ≡ map (λ priority. Command.Del priority) ranks.items) }
{
    let mut part = Batch::new(alloc);
    while let Some(priority) = ranks.pop_front() {
        match part.push_settled(Command::Del(priority)) {
            Ok(()) => {}
            // There is room: the batch that is parted removes each of them.
            Err(_) => return Err(AllocError),
        }
    }
    Ok(part)
}

// The commands that don't remove one of these rules.
fn late_part(alloc: Global, batch: &Batch, early: &BTreeSet<Rank>) -> Result<Batch, AllocError>
    ensures { IfOk result (λ part. part ≡ filter (spec.stays_late (contains nat_cmp early.now)) batch.now) }
{
    let mut part = Batch::new(alloc);
    for i in 0..batch.len() {
        let command = batch.at(i);
        if stays_late(&command, early) {
            match part.push_settled(command) {
                Ok(()) => {}
                // There is room, as the whole batch has some.
                Err(_) => return Err(AllocError),
            }
        }
    }
    Ok(part)
}

// Whether a command removes none of these rules.
fn stays_late(command: &Command, early: &BTreeSet<Rank>) -> bool
    ensures { result ≡ spec.stays_late (contains nat_cmp early.now) command.now }
{
    match command {
        Command::Del(priority) => !early.contains(priority),
        Command::Add(_) | Command::Set { .. } => true,
    }
}

//! The batch that requests, or a whole new set, come to over a set.

ghost use Rattle.std.specs.Prelude.{◌≡◌, ◌++◌, ◌<◌, ◌≤◌, [], length, not, IfOk, IfErr, OnOk, Err};
ghost use Rattle.rule_store.specs.Batch.{IsSound, most_commands, set_after};
ghost use Rattle.settled_changes.specs.Requests.{AreTaken, asked_set};
ghost use Rattle.settled_changes.specs.Settled.{IsWhyNoSet, IsWhyUnsettled, settled, puts_of, drops_of, whole_requests};

use crate::changes::commands_of;
use crate::faults::first_fault;
use crate::requests::no_command;
use crate::{Request, Requests, SettleFault};
use rule_store::{Batch, Command, PushFault, Store};
use slot_order::MOST_SLOTS;
use std::alloc::{AllocError, Global};
use std::collections::VecDeque;

/// The batch that requests come to over a set of rules: it leads where they say, one after the other, by strict ones as they
/// are and the fewest for the others, so that of several forgiving ones for a rule the last counts. It is sound over this set, as a manager's `prepare` asks; over
/// another it may not be, so settle over the rules as they stand, with no commit under way. `Unsound` names the first
/// request that fails: a strict one as in a batch of the strict ones alone, and the later of two that name one rule, where
/// one is strict and the other isn't. There is room for what they come to. Rules and requests stay as they are. It takes
/// some `n log n` steps, of as many requests and rules.
#[tactic(auto, using(crate::proofs::Many::twice_as_many))]
pub fn settle(alloc: Global, rules: &Store, requests: &Requests) -> Result<Batch, SettleFault>
    ensures settled { IfOk result (λ batch. batch ≡ settled rules.now.rules requests.now) }
    ensures taken { OnOk result (AreTaken rules.now.rules requests.now) }
    ensures sound { IfOk result (λ batch. IsSound rules.now.rules batch) }
    ensures leads { IfOk result (λ batch. set_after rules.now.rules batch ≡ asked_set rules.now.rules requests.now) }
    ensures fault { IfErr result (λ fault. IsWhyUnsettled rules.now.rules requests.now fault) }
{
    let _is_a_set = rules.len();
    let _most = requests.len();
    match first_fault(alloc, rules, requests) {
        Ok(None) => {}
        Ok(Some(fault)) => return Err(SettleFault::Unsound(fault)),
        Err(AllocError) => return Err(SettleFault::Memory),
    }
    match batch_of(alloc, rules, requests.as_slice()) {
        Ok(batch) => Ok(batch),
        // A batch has room for two commands a request.
        Err(PushFault::Full) => unreachable!(),
        Err(PushFault::Memory) => Err(SettleFault::Memory),
    }
}

/// The batch that makes a set of rules exactly another one: rules that the new set lacks go, equal ones stay untouched, and
/// others get another result or are replaced. It is sound over this set. `Full` comes exactly where that takes more than
/// `BATCH_COMMANDS`, two for a rule that is replaced. Both sets stay as they are.
pub fn settle_whole(alloc: Global, rules: &Store, whole: &Store) -> Result<Batch, PushFault>
    ensures settled { IfOk result (λ batch. batch ≡ settled rules.now.rules (whole_requests rules.now.rules whole.now.rules)) }
    ensures sound { IfOk result (λ batch. IsSound rules.now.rules batch) }
    ensures leads { IfOk result (λ batch. set_after rules.now.rules batch ≡ whole.now.rules) }
    ensures full { result ≡ Err PushFault.Full
        → most_commands < length (settled rules.now.rules (whole_requests rules.now.rules whole.now.rules)) }
{
    let _are_sets = (rules.len(), whole.len());
    match requests_of(alloc, rules, whole) {
        Ok(requests) => batch_of(alloc, rules, requests.as_slice()),
        Err(AllocError) => Err(PushFault::Memory),
    }
}

/// The batch that makes a set of `MOST_SLOTS` rules at most exactly what requests make of no rules at all, one after the other: a
/// whole new set, of which a strict addition of a rule that an earlier one added fails, and so does a change or a removal of
/// one that none did. It is sound over the set of rules. `Unsound` names the first request that fails so, and there is room
/// for the batch. Rules and requests stay as they are.
#[tactic(auto, using(crate::proofs::OverNone::whole_fits))]
pub fn settle_all(alloc: Global, rules: &Store, requests: &Requests) -> Result<Batch, SettleFault>
    requires few { length rules.now.rules ≤ MOST_SLOTS }
    ensures settled { IfOk result (λ batch. batch ≡ settled rules.now.rules (whole_requests rules.now.rules (asked_set [] requests.now))) }
    ensures taken { OnOk result (AreTaken [] requests.now) }
    ensures sound { IfOk result (λ batch. IsSound rules.now.rules batch) }
    ensures leads { IfOk result (λ batch. set_after rules.now.rules batch ≡ asked_set [] requests.now) }
    ensures fault { IfErr result (λ fault. IsWhyNoSet requests.now fault) }
{
    let _most = requests.len();
    let whole = match set_of(alloc, requests) {
        Ok(whole) => whole,
        Err(fault) => return Err(fault),
    };
    match settle_whole(alloc, rules, &whole) {
        Ok(batch) => Ok(batch),
        // A batch has room for two commands a rule of the new set, and one a rule of the old one.
        Err(PushFault::Full) => unreachable!(),
        Err(PushFault::Memory) => Err(SettleFault::Memory),
    }
}

// The set that requests make of no rules.
fn set_of(alloc: Global, requests: &Requests) -> Result<Store, SettleFault>
    ensures made { IfOk result (λ whole. whole.rules ≡ asked_set [] requests.now) }
    ensures taken { OnOk result (AreTaken [] requests.now) }
    ensures fault { IfErr result (λ fault. IsWhyNoSet requests.now fault) }
{
    let mut whole = Store::new(alloc);
    match settle(alloc, &whole, requests) {
        Ok(batch) => match fill(alloc, &mut whole, &batch) {
            Ok(()) => Ok(whole),
            Err(AllocError) => Err(SettleFault::Memory),
        },
        Err(fault) => Err(fault),
    }
}

// Makes the changes of a batch.
fn fill(alloc: Global, rules: &mut Store, batch: &Batch) -> Result<(), AllocError>
    requires none { rules.old.rules ≡ [] }
    requires sound { IsSound rules.old.rules batch.now }
    ensures { OnOk result (rules.new.rules ≡ set_after rules.old.rules batch.now) }
{
    let commands = batch.commands(alloc)?;
    rules.reserve(batch.len())?;
    rules.apply(&commands);
    Ok(())
}

// The batch that requests come to, whether the set takes them or not.
fn batch_of(alloc: Global, rules: &Store, requests: &[Request]) -> Result<Batch, PushFault>
    ensures settled { IfOk result (λ batch. batch ≡ settled rules.now.rules requests.now) }
    ensures full { result ≡ Err PushFault.Full → most_commands < length (settled rules.now.rules requests.now) }
{
    match commands_of(alloc, rules, requests) {
        Ok(commands) => batch_from(alloc, commands),
        Err(AllocError) => Err(PushFault::Memory),
    }
}

// A batch of these commands.
fn batch_from(alloc: Global, mut commands: VecDeque<Command>) -> Result<Batch, PushFault>
    ensures made { IfOk result (λ batch. batch ≡ commands.items) }
    ensures full { result ≡ Err PushFault.Full → most_commands < length commands.items }
{
    let mut batch = Batch::new(alloc);
    while let Some(command) = commands.pop_front() {
        batch.push_settled(command)?;
    }
    Ok(batch)
}

// The requests that make a set of rules exactly another one.
fn requests_of(alloc: Global, rules: &Store, whole: &Store) -> Result<Vec<Request>, AllocError>
    ensures { IfOk result (λ requests. requests.items ≡ whole_requests rules.now.rules whole.now.rules) }
{
    let _named = no_command();
    let mut requests = Vec::new(alloc);
    put_all(whole, &mut requests)?;
    drop_others(rules, whole, &mut requests)?;
    Ok(requests)
}

// Asks for each rule of a set.
fn put_all(whole: &Store, requests: &mut Vec<Request>) -> Result<(), AllocError>
    ensures { OnOk result (requests.new.items ≡ requests.old.items ++ puts_of whole.now.rules) }
{
    let _named = no_command();
    for i in 0..whole.len() {
        let rule = *whole.at(i);
        requests.push(Request::Put(rule))?;
    }
    Ok(())
}

// Asks that each rule go whose priority another set lacks.
fn drop_others(rules: &Store, whole: &Store, requests: &mut Vec<Request>) -> Result<(), AllocError>
    ensures { OnOk result (requests.new.items ≡ requests.old.items ++ drops_of rules.now.rules whole.now.rules) }
{
    let _named = no_command();
    for i in 0..rules.len() {
        let priority = rules.at(i).priority;
        if whole.rule(priority).is_none() {
            requests.push(Request::Drop(priority))?;
        }
    }
    Ok(())
}

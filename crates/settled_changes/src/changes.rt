//! The commands that requests come to over a set.

ghost use Rattle.std.specs.Prelude.{◌≡◌, ◌++◌, IfOk, OnOk, option_copied};
ghost use Rattle.settled_changes.specs.Settled as spec;

use crate::Request;
use rule_model::{Rank, Rule};
use rule_store::{Command, Store, same_conditions};
use std::alloc::{AllocError, Global};
use std::collections::{BTreeSet, VecDeque};

/// The commands that requests come to over a set, in their order.
pub(crate) fn commands_of(
    alloc: Global,
    rules: &Store,
    requests: &[Request],
) -> Result<VecDeque<Command>, AllocError>
    ensures { IfOk result (λ commands. commands.items ≡ spec.settled rules.now.rules requests.now) }
{
    let mut commands = VecDeque::new(alloc);
    // From the last to the first: so it is known of each whether a later one names its rule.
    let mut named = BTreeSet::new(alloc);
    let mut place = requests.len();
    while place > 0 {
        place -= 1;
        let request = requests[place];
        let is_last = named.insert(request.priority())?;
        put_in_front(rules, &request, is_last, &mut commands)?;
    }
    Ok(commands)
}

// Puts what a request comes to in front of what the later ones do.
fn put_in_front(
    rules: &Store,
    request: &Request,
    is_last: bool,
    commands: &mut VecDeque<Command>,
) -> Result<(), AllocError>
    ensures { OnOk result (commands.new.items ≡ spec.change_where rules.now.rules request.now is_last ++ commands.old.items) }
{
    match request {
        Request::Strict(command) => {
            commands.push_front(*command)?;
            Ok(())
        }
        Request::Put(rule) if is_last => put_rule(rules.rule(rule.priority), rule, commands),
        Request::Drop(priority) if is_last => {
            drop_rule(rules.rule(*priority), *priority, commands)
        }
        _ => Ok(()),
    }
}

// Puts in front what has a rule stand where this stands.
fn put_rule(
    old: Option<&Rule>,
    new: &Rule,
    commands: &mut VecDeque<Command>,
) -> Result<(), AllocError>
    ensures { OnOk result (commands.new.items ≡ spec.put_change (option_copied old.entry) new.now ++ commands.old.items) }
{
    let priority = new.priority;
    match old {
        None => commands.push_front(Command::Add(*new))?,
        Some(old) => {
            if !same_conditions(old, new) {
                commands.push_front(Command::Add(*new))?;
                commands.push_front(Command::Del(priority))?;
            } else if old.result != new.result {
                let result = new.result;
                commands.push_front(Command::Set { priority, result })?;
            }
        }
    }
    Ok(())
}

// Puts in front what has no rule stand where this stands.
fn drop_rule(
    old: Option<&Rule>,
    priority: Rank,
    commands: &mut VecDeque<Command>,
) -> Result<(), AllocError>
    ensures { OnOk result (commands.new.items ≡ spec.drop_change (option_copied old.entry) priority ++ commands.old.items) }
{
    if old.is_some() {
        commands.push_front(Command::Del(priority))?;
    }
    Ok(())
}

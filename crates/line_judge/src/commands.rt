//! Whether a command can be meant behind those of its batch.

ghost use Rattle.std.specs.Prelude.{◌≡◌, ◌↔◌, [], IsTrue, is_none};
ghost use Rattle.rule_model.specs.RuleSet.{has_priority};
ghost use Rattle.rule_store.specs.Batch.{IsSound, command_fault, commands_naming};
ghost use Rattle.line_judge.specs.Meant.{IsLastOf};

use rule_model::Rank;
use rule_store::{Batch, Command, Store};

/// Whether no command of a batch names a priority; it may be told of less.
pub(crate) fn is_unnamed(batch: &Batch, priority: Rank) -> bool
    ensures { IsTrue result → commands_naming priority batch.now ≡ [] }
{
    for i in 0..batch.len() {
        let command = batch.at(i);
        if command.priority() == priority {
            return false;
        }
    }
    true
}

/// Whether the last command of a batch can be meant where the others can: where it is known that none of them names its
/// priority the set alone tells it, and else the whole batch is checked.
pub(crate) fn is_last_meant(rules: &Store, batch: &Batch, command: &Command, unnamed: bool) -> bool
    requires { IsLastOf rules.now.rules batch.now command.now unnamed }
    ensures { IsTrue result ↔ IsSound rules.now.rules batch.now }
{
    if unnamed {
        is_meant_alone(rules, command)
    } else {
        is_sound(rules, batch)
    }
}

/// Whether a command can be meant by itself.
fn is_meant_alone(rules: &Store, command: &Command) -> bool
    ensures { result ≡ is_none (command_fault rules.now.rules [] command.now) }
{
    let known = is_known(rules, command.priority());
    match command {
        Command::Add(_) => !known,
        Command::Set { .. } => known,
        Command::Del(_) => known,
    }
}

/// Whether a set has a rule of this priority.
fn is_known(rules: &Store, priority: Rank) -> bool
    ensures { result ≡ has_priority rules.now.rules priority }
{
    match rules.rule(priority) {
        None => false,
        Some(_) => true,
    }
}

/// Whether each command of a batch can be meant.
fn is_sound(rules: &Store, batch: &Batch) -> bool
    ensures { IsTrue result ↔ IsSound rules.now.rules batch.now }
{
    match rules.check(batch) {
        Ok(()) => true,
        Err(_) => false,
    }
}

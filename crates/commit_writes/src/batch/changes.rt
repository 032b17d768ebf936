//! What a batch changes in a set of rules, a priority each.

ghost use Rattle.std.specs.Prelude.{◌≡◌, None, IfOk, option_copied};
ghost use Rattle.rule_model.specs.RuleSet.{IsRuleSet, rule_at};
ghost use Rattle.rule_store.specs.Batch.{batch_fault, named_priority};
ghost use Rattle.commit_writes.specs.Changes as changes;
ghost use Rattle.commit_writes.specs.Changes.{AreChanges, AreLastCommands};

use rule_model::{Rank, Rule};
use rule_store::{Batch, Command, Store};
use std::alloc::{AllocError, Global};
use std::collections::BTreeMap;
use std::marker::Model;

/// What a batch changes at one priority: the rule of the set there, and the rule there after the batch, where there is
/// one.
#[derive(Clone, Copy)]
pub(crate) struct Change {
    pub(crate) old: Option<Rule>,
    pub(crate) new: Option<Rule>,
}

impl Model for Change {
    ghost use Rattle.commit_writes.specs.Changes.{RuleChange};

    ghost Value = { RuleChange };

    ghost view = { λ c. record { old = c.old; new = c.new } };

    ghost inverse = { λ c. record { old = c.old; new = c.new } };
}

/// The changes of a batch that a set takes, by falling priority.
pub(crate) fn changes_of(
    alloc: Global,
    rules: &Store,
    batch: &Batch,
) -> Result<Vec<Change>, AllocError>
    requires is_set { IsRuleSet rules.now.rules }
    requires sound { batch_fault rules.now.rules batch.now ≡ None }
    ensures { IfOk result (λ changes. AreChanges rules.now.rules batch.now changes.items) }
{
    // A batch names a priority again only to add a rule in place of the one that it removed: the last command that
    // names it tells what stands there afterward.
    let mut last = last_commands(alloc, batch)?;
    let mut changes = Vec::new(alloc);
    while let Some((_, place)) = last.pop_last() {
        changes.push(change_by(rules, &batch.at(place)))?;
    }
    Ok(changes)
}

/// The place of the last command that names each priority.
fn last_commands(alloc: Global, batch: &Batch) -> Result<BTreeMap<Rank, u32>, AllocError>
    ensures { IfOk result (λ last. AreLastCommands batch.now batch.now last) }
{
    let mut last = BTreeMap::new(alloc);
    for place in 0..batch.len() {
        last.insert(batch.at(place).priority(), place)?;
    }
    Ok(last)
}

/// What a command changes in a set at its priority.
fn change_by(rules: &Store, command: &Command) -> Change
    ensures { result ≡ changes.change_by rules.now.rules command.now }
{
    let old = rules.rule(command.priority());
    Change {
        old: old.copied(),
        new: rule_behind(old, command),
    }
}

/// What stands at a command's priority behind it, where this stood in the set.
fn rule_behind(old: Option<&Rule>, command: &Command) -> Option<Rule>
    ensures { result ≡ changes.rule_behind (option_copied old.entry) command.now }
{
    match command {
        Command::Add(rule) => Some(*rule),
        Command::Set { result, .. } => {
            let rule = *old?;
            Some(Rule {
                result: *result,
                ..rule
            })
        }
        Command::Del(_) => None,
    }
}

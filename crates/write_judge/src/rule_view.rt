//! A set of rules with its entries.

ghost use Rattle.std.specs.Prelude.{◌≡◌, IfOk, OnOk};
ghost use Rattle.std.specs.List.{AllByRecursion};
ghost use Rattle.rule_model.specs.Rule.{HasConditions};
ghost use Rattle.rule_model.specs.RuleSet.{IsRuleSet, answer};
ghost use Rattle.rule_store.specs.Batch.{IsSound, set_after};
ghost use Rattle.leak_search.specs.Found.{AnswerAlike};
ghost use Rattle.rule_entries.specs.RuleEntries as entries;

use leak_search::narrowed;
use rule_entries::rule_entries;
use rule_model::{Entry, Key, Rank, rule_conditions};
use rule_store::{Batch, Store};
use std::alloc::{AllocError, Global};
use std::marker::Model;
use std::vec::Vec;
use word_cubes::Cube;

/// A set of rules, and its entries by covers, once they were asked for.
#[derive(Drop)]
pub struct RuleView {
    rules: Store,
    entries: Option<Vec<Entry>>,
}

impl Model for RuleView {
    ghost use Rattle.std.specs.Prelude.{◌≡◌, IfSome, List};
    ghost use Rattle.std.specs.List.{AllByRecursion};
    ghost use Rattle.rule_model.specs.declared.Rule.{Rule};
    ghost use Rattle.rule_model.specs.Rule.{HasConditions};
    ghost use Rattle.rule_model.specs.RuleSet.{IsRuleSet};
    ghost use Rattle.rule_entries.specs.RuleEntries.{rule_entries};

    ghost Value = { List Rule };

    ghost view = { λ v. v.rules.rules };

    ghost invariant = { λ v. IsRuleSet v.rules.rules × AllByRecursion HasConditions v.rules.rules × IfSome v.entries (λ entries. entries.items ≡ rule_entries v.rules.rules) };
}

impl RuleView {
    /// A set with its entries. It fails only for want of memory.
    pub fn new(alloc: Global, rules: Store) -> Result<RuleView, AllocError>
        ensures { IfOk result (λ view. view ≡ rules.rules) }
    {
        let _count = rules.len();
        are_right(&rules);
        let entries = rule_entries(alloc, &rules)?;
        Ok(RuleView {
            rules,
            entries: Some(entries),
        })
    }

    /// Makes the entries, where they weren't asked for yet. It fails only for want of memory.
    pub fn complete(&mut self, alloc: Global) -> Result<(), AllocError>
        ensures { self.new ≡ self.old }
    {
        if self.entries.is_some() {
            return Ok(());
        }
        match rule_entries(alloc, &self.rules) {
            Ok(entries) => {
                self.entries = Some(entries);
                Ok(())
            }
            Err(AllocError) => Err(AllocError),
        }
    }

    /// Makes the changes of a batch, in the time of these: the entries are made when they are asked for. It fails for want of
    /// memory, and where there were more rules than a `u32` counts.
    pub fn apply(&mut self, alloc: Global, batch: &Batch) -> Result<(), AllocError>
        requires { IsSound self.old batch.now }
        ensures { OnOk result (self.new ≡ set_after self.old batch.now) }
    {
        self.entries = None;
        let changed = applied(alloc, &mut self.rules, batch);
        let _count = self.rules.len();
        are_right(&self.rules);
        changed
    }

    /// What the set answers.
    pub fn answer(&self, key: &Key) -> Option<(Rank, u32)>
        ensures { result ≡ answer self.now key.now }
    {
        match self.rules.best(key) {
            None => None,
            Some(rule) => Some((rule.priority, rule.result)),
        }
    }

    /// Those of the entries that hit some word of a cube, up to the first that hits each. It fails only for want of memory.
    pub(crate) fn narrowed(&self, alloc: Global, cube: &Cube) -> Result<Vec<Entry>, AllocError>
        ensures { IfOk result (λ some. AnswerAlike cube.now some.items (entries.rule_entries self.now)) }
    {
        match &self.entries {
            Some(entries) => narrowed(alloc, entries.as_slice(), cube),
            None => narrowed_anew(alloc, &self.rules, cube),
        }
    }

    /// It is a set of rules, whose conditions are right.
    pub fn is_right(&self)
        ensures is_set { IsRuleSet self.now }
        ensures right { AllByRecursion HasConditions self.now }
    {
        let _count = self.rules.len();
    }

    /// The set itself.
    pub fn rules(&self) -> &Store
        ensures { result.now.rules ≡ self.now }
    {
        &self.rules
    }
}

/// The conditions of a set's rules are right, by their types.
fn are_right(rules: &Store)
    ensures { AllByRecursion HasConditions rules.now.rules }
{
    for i in 0..rules.len() {
        rule_conditions(rules.at(i));
    }
}

/// Makes the changes of a batch to a set.
fn applied(alloc: Global, rules: &mut Store, batch: &Batch) -> Result<(), AllocError>
    requires { IsSound rules.old.rules batch.now }
    ensures { OnOk result (rules.new.rules ≡ set_after rules.old.rules batch.now) }
{
    let more = batch.len();
    if rules.len().checked_add(more).is_none() {
        return Err(AllocError);
    }
    rules.reserve(more)?;
    let commands = batch.commands(alloc)?;
    rules.apply(&commands);
    Ok(())
}

/// Those of a set's entries, made for this.
fn narrowed_anew(alloc: Global, rules: &Store, cube: &Cube) -> Result<Vec<Entry>, AllocError>
    requires is_set { IsRuleSet rules.now.rules }
    requires right { AllByRecursion HasConditions rules.now.rules }
    ensures { IfOk result (λ some. AnswerAlike cube.now some.items (entries.rule_entries rules.now.rules)) }
{
    let made = rule_entries(alloc, rules)?;
    let all = made.as_slice();
    let some = narrowed(alloc, all, cube)?;
    Ok(some)
}

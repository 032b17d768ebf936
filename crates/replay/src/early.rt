//! Removals of what is pending that are committed before the rest, where they may go first.

ghost use Rattle.std.specs.Prelude.{true, ◌≡◌, ◌&&◌, ◌≤◌, [], None, IfOk, IfSome, OnErr, length};
ghost use Rattle.std.specs.List.{AllByRecursion};
ghost use Rattle.rule_model.specs.Rule.{HasConditions};
ghost use Rattle.rule_model.specs.RuleSet.{IsRuleSet};
ghost use Rattle.rule_store.specs.Batch.{IsSound, set_after};
ghost use Rattle.rule_store.specs.Verdict as verdicts;
ghost use Rattle.replay.specs.Early.{AreParts, MayJoin, Parts, goes_in_two, is_accepted, joined};

use crate::run::Run;
use batch_order::Mode;
use readback::verdict;
use removals_first::part;
use rule_model::rule_conditions;
use rule_store::{Batch, Store};
use settled_changes::{Requested, SettleFault};
use slot_order::MOST_SLOTS;
use std::alloc::{AllocError, Global};

impl Run {
    /// Whether removals go first where they may.
    pub fn puts_removals_first(&self) -> bool
        ensures { result ≡ self.now.parts }
    {
        self.watch.parts()
    }

    /// The run, whose `part` parts what is pending from now on, or doesn't.
    pub fn with_removals_first(mut self, parts: bool) -> Run
        requires idle { self.manager.held ≡ None }
        ensures { result ≡ record self { parts = parts } }
    {
        self.watch.put_parts(parts);
        self
    }

    /// Whether large batches may wait.
    pub fn is_large(&self) -> bool
        ensures { result ≡ self.now.large }
    {
        self.watch.is_large()
    }

    /// The run, of which from now on up to 1,048,576 changes may wait for a commit, or 4,096.
    pub fn with_large(mut self, large: bool) -> Run
        requires idle { self.manager.held ≡ None }
        ensures { result ≡ record self { large = large } }
    {
        self.watch.put_large(large);
        self
    }

    /// Parts what is pending in two, where removals are to go first and some may: what is pending is these removals then,
    /// to be committed by `Act::Commit` as any batch is, with a line of its own, and the answer is what is left behind them,
    /// which `join` has pending again. Both are accepted then, the second over the set that the first leaves. Where the set
    /// doesn't take what is pending, no removal may go first, nothing would be left, or that had no room, the answer is None,
    /// and nothing has changed. It fails only for want of memory, where removals are to go first.
    pub fn part(&mut self) -> Result<Option<Batch>, AllocError>
        requires idle { self.old.manager.held ≡ None }
        ensures parts { IfOk result (λ rest. Parts self.old rest self.new) }
        ensures joins { IfOk result (λ rest. IfSome rest (MayJoin self.new)) }
        ensures unchanged { OnErr result (self.new ≡ self.old) }
        ensures wants { OnErr result (self.old.parts ≡ true) }
    {
        if !self.watch.parts() {
            return Ok(None);
        }
        let Some((first, rest)) = self.two_parts()? else {
            return Ok(None);
        };
        self.pending = first;
        self.asked = Requested::Nothing;
        self.early = true;
        Ok(Some(rest))
    }

    /// The rest of what was parted is pending, behind the commit of the removals that went first.
    pub fn join(&mut self, rest: Batch)
        requires idle { self.old.manager.held ≡ None }
        requires none_pending { self.old.pending ≡ [] }
        requires strict { self.old.asked ≡ Requested.Nothing }
        requires joins { MayJoin self.old rest }
        ensures { self.new ≡ joined rest self.old }
    {
        self.pending = rest;
        self.early = false;
    }

    // The two parts of what is pending, where it is to be made in two.
    fn two_parts(&self) -> Result<Option<(Batch, Batch)>, AllocError>
        ensures { IfOk result (λ parts. AreParts self.now.manager.slots self.now.manager.mode self.now.manager.rules self.now.pending self.now.asked parts) }
    {
        let (slots, mode, _) = self.manager.setting();
        let rules = self.manager.rules();
        if !self.asked.is_any() {
            return parts_of(self.alloc, rules, &self.pending, slots, mode);
        }
        match self.asked.settle(self.alloc, rules) {
            Ok(batch) => parts_of(self.alloc, rules, &batch, slots, mode),
            Err(SettleFault::Unsound(_)) => Ok(None),
            Err(SettleFault::Memory) => Err(AllocError),
        }
    }
}

/// Whether a commit of a strict batch over a set is made in two parts where removals are to go first, as `Run::part` parts
/// it. It fails only for want of memory.
pub fn goes_in_two(
    alloc: Global,
    rules: &Store,
    batch: &Batch,
    slots: u32,
    mode: Mode,
) -> Result<bool, AllocError>
    requires few { length rules.now.rules ≤ MOST_SLOTS }
    ensures { IfOk result (λ in_two. in_two ≡ goes_in_two slots mode rules.now.rules batch.now Requested.Nothing) }
{
    Ok(parts_of(alloc, rules, batch, slots, mode)?.is_some())
}

// The two parts of a strict batch over a set, where it is to be made in two.
fn parts_of(
    alloc: Global,
    rules: &Store,
    batch: &Batch,
    slots: u32,
    mode: Mode,
) -> Result<Option<(Batch, Batch)>, AllocError>
    requires few { length rules.now.rules ≤ MOST_SLOTS }
    ensures { IfOk result (λ parts. AreParts slots mode rules.now.rules batch.now Requested.Nothing parts) }
{
    if rules.check(batch).is_err() {
        return Ok(None);
    }
    right_rules(rules);
    batch.changes_rules();
    let (first, rest) = part(alloc, rules, batch)?;
    if first.is_empty() || rest.is_empty() {
        return Ok(None);
    }
    if are_taken(alloc, rules, &first, &rest, slots, mode)? {
        Ok(Some((first, rest)))
    } else {
        Ok(None)
    }
}

// Whether the set takes a batch, and the set behind that another one.
fn are_taken(
    alloc: Global,
    rules: &Store,
    first: &Batch,
    rest: &Batch,
    slots: u32,
    mode: Mode,
) -> Result<bool, AllocError>
    requires few { length rules.now.rules ≤ MOST_SLOTS }
    ensures { IfOk result (λ taken. taken ≡ is_accepted (verdicts.verdict slots mode rules.now.rules first.now)
        && is_accepted (verdicts.verdict slots mode (set_after rules.now.rules first.now) rest.now)) }
{
    if verdict(rules, first, slots, mode).is_err() {
        return Ok(false);
    }
    let behind = set_behind(alloc, rules, first)?;
    Ok(verdict(&behind, rest, slots, mode).is_ok())
}

// The set behind a batch.
fn set_behind(alloc: Global, rules: &Store, batch: &Batch) -> Result<Store, AllocError>
    requires sound { IsSound rules.now.rules batch.now }
    requires few { length rules.now.rules ≤ MOST_SLOTS }
    ensures { IfOk result (λ behind. behind.rules ≡ set_after rules.now.rules batch.now) }
{
    let mut behind = copied(alloc, rules)?;
    behind.reserve(batch.len())?;
    let commands = batch.commands(alloc)?;
    behind.apply(&commands);
    Ok(behind)
}

// The conditions of a set's rules are right, by their types.
fn right_rules(rules: &Store)
    ensures right { AllByRecursion HasConditions rules.now.rules }
    ensures is_set { IsRuleSet rules.now.rules }
{
    for place in 0..rules.len() {
        rule_conditions(rules.at(place));
    }
}

// A copy of a set.
fn copied(alloc: Global, rules: &Store) -> Result<Store, AllocError>
    ensures { IfOk result (λ copy. copy.rules ≡ rules.now.rules) }
{
    let count = rules.len();
    let mut copy = Store::new(alloc);
    copy.reserve(count)?;
    for i in 0..count {
        copy.insert(*rules.at(i));
    }
    Ok(copy)
}

//! Which rules go first.

ghost use Rattle.std.specs.Prelude.{◌≡◌, ◌<◌, ◌+◌, Some, IfOk, drop, slice_get, length};
ghost use Rattle.std.specs.List.{list_any};
ghost use Rattle.std.specs.BTreeSet.{contains};
ghost use Rattle.std.specs.Ordering.{nat_cmp};
ghost use Rattle.rule_store.specs.Batch.{additions};
ghost use Rattle.removals_first.specs.Tests as spec;
ghost use Rattle.removals_first.specs.Tests.{AreNames, AreRanks};
ghost use Rattle.removals_first.specs.Early as rules_of;

use crate::covers::rule_covers;
use crate::names::Names;
use rule_model::{Rank, Rule, overlaps};
use rule_store::{Batch, Command, Store};
use std::alloc::{AllocError, Global};
use std::collections::{BTreeSet, VecDeque};

/// Priorities in falling order, and as a set.
#[derive(Drop)]
pub(crate) struct Ranks {
    pub(crate) ranks: VecDeque<Rank>,
    pub(crate) set: BTreeSet<Rank>,
}

/// The rules that go first, told from the lowest up.
pub(crate) fn early_ranks(
    alloc: Global,
    rules: &Store,
    batch: &Batch,
    names: &Names,
) -> Result<Ranks, AllocError>
    requires { AreNames names.now.named names.now.removed batch.now }
    ensures { IfOk result (λ early. AreRanks (rules_of.spared_rules rules.now.rules batch.now) early.ranks.items early.set) }
{
    let mut ranks = VecDeque::new(alloc);
    let mut set = BTreeSet::new(alloc);
    let mut place = rules.len();
    while place > 0 {
        place -= 1;
        if goes_first(rules, batch, names, &set, place) {
            let priority = rules.at(place).priority;
            ranks.push_front(priority)?;
            set.insert(priority)?;
        }
    }
    Ok(Ranks { ranks, set })
}

// Whether the rule at a place goes first, where these lower ones do.
fn goes_first(
    rules: &Store,
    batch: &Batch,
    names: &Names,
    early: &BTreeSet<Rank>,
    place: u32,
) -> bool
    requires { place < length rules.now.rules }
    ensures { (rule : Rule) → slice_get rules.now.rules place ≡ Some rule
        → result ≡ spec.goes_first_by (contains nat_cmp names.now.named) (contains nat_cmp names.now.removed) (contains nat_cmp early.now)
        rules.now.rules batch.now rule (drop (place + 1) rules.now.rules) }
{
    let _count = rules.len();
    let rule = rules.at(place);
    names.removed.contains(&rule.priority)
        && !is_hindered(rules, batch, names, rule)
        && !is_hindered_below(rules, names, early, rule, place + 1)
}

// Whether a rule that the batch adds keeps one from going first.
fn is_hindered(rules: &Store, batch: &Batch, names: &Names, rule: &Rule) -> bool
    ensures { result ≡ list_any (spec.hinders (contains nat_cmp names.now.named) rules.now.rules rule.now) (additions batch.now) }
{
    for i in 0..batch.len() {
        if let Command::Add(new) = batch.at(i) {
            if hinders(rules, names, rule, &new) {
                return true;
            }
        }
    }
    false
}

// Whether a rule of the set from a place on does, where these go first too.
fn is_hindered_below(
    rules: &Store,
    names: &Names,
    early: &BTreeSet<Rank>,
    rule: &Rule,
    from: u32,
) -> bool
    ensures { result ≡ list_any (spec.hinders_below (contains nat_cmp names.now.named) (contains nat_cmp early.now) rules.now.rules rule.now)
        (drop from rules.now.rules) }
{
    for i in from..rules.len() {
        if hinders_below(rules, names, early, rule, rules.at(i)) {
            return true;
        }
    }
    false
}

fn hinders(rules: &Store, names: &Names, rule: &Rule, new: &Rule) -> bool
    ensures { result ≡ spec.hinders (contains nat_cmp names.now.named) rules.now.rules rule.now new.now }
{
    overlaps(rule, new) && !is_spared(rules, names, rule, new)
}

fn hinders_below(
    rules: &Store,
    names: &Names,
    early: &BTreeSet<Rank>,
    rule: &Rule,
    other: &Rule,
) -> bool
    ensures { result ≡ spec.hinders_below (contains nat_cmp names.now.named) (contains nat_cmp early.now) rules.now.rules rule.now other.now }
{
    if !names.named.contains(&other.priority) || early.contains(&other.priority) {
        return false;
    }
    hinders(rules, names, rule, other)
}

// Whether a rule of the set spares all keys that two others match.
fn is_spared(rules: &Store, names: &Names, rule: &Rule, other: &Rule) -> bool
    ensures { result ≡ spec.is_spared_by (contains nat_cmp names.now.named) rules.now.rules rule.now other.now }
{
    for i in 0..rules.len() {
        if spares(names, rule, other, rules.at(i)) {
            return true;
        }
    }
    false
}

fn spares(names: &Names, rule: &Rule, other: &Rule, cover: &Rule) -> bool
    ensures { result ≡ spec.spares (contains nat_cmp names.now.named) rule.now other.now cover.now }
{
    rule_covers(cover, rule, other)
        && (rule.priority < cover.priority
            || (other.priority < cover.priority && !names.named.contains(&cover.priority)))
}

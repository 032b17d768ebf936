//! Batches for which there is no room: of slots, or of bits.

use crate::changes::write_name;
use crate::explainer::Explainer;
use commit_writes::{added_ranges, free_bits};
use range_bits::FIELD_BITS;
use replay::Family;
use rule_model::{Field, Rank, Rule};
use rule_store::{Command, Mode, entries_needed};
use std::alloc::AllocError;

/// How many rules are told that take the most entries.
const MOST_TOLD: usize = 5;

/// A rule of an access list, and how many entries it takes.
#[derive(Clone, Copy, Debug, PartialEq, Eq)]
struct RuleSize {
    entries: u64,
    priority: Rank,
    line: u32,
}

/// That a field of ports has no room for the ranges of a batch.
pub(crate) fn tell_bits(
    number: u32,
    field: Field,
    need: u32,
    free: u32,
    text: &mut String,
) -> Result<(), AllocError> {
    let side = field_name(field);
    writeln!(
        text,
        "line {number}: the batch has {need} new ranges of {side} ports, and {free} of {FIELD_BITS} bits are free"
    )
}

/// What a field is called.
fn field_name(field: Field) -> &'static str {
    match field {
        Field::Src => "source",
        Field::Dst => "destination",
    }
}

/// That the slots have no room for a batch, and what takes them.
pub(crate) fn tell_slots(
    explainer: &Explainer,
    number: u32,
    need: u32,
    free: u32,
    text: &mut String,
) -> Result<(), AllocError> {
    let slots = explainer.wanted.slots;
    writeln!(
        text,
        "line {number}: the batch takes {need} slots, and {free} of {slots} are free"
    )?;
    if removes(explainer) {
        writeln!(
            text,
            "line {number}: what it removes makes room for a later commit alone"
        )?;
    }
    match (explainer.wanted.family, explainer.wanted.mode) {
        (Family::Acl, Mode::Cover) | (Family::Acl6, Mode::Cover) => {
            tell_greatest(explainer, text)?;
            tell_by_bits(explainer, number, text)
        }
        _ => Ok(()),
    }
}

/// Whether the pending batch removes a rule.
fn removes(explainer: &Explainer) -> bool {
    for i in 0..explainer.batch.len() {
        if let Command::Del(_) = explainer.batch.at(i) {
            return true;
        }
    }
    false
}

/// The rules of the set and of the batch that take the most entries, the greatest first.
fn tell_greatest(explainer: &Explainer, text: &mut String) -> Result<(), AllocError> {
    for found in greatest(explainer) {
        if let Some(found) = found {
            let line = found.line;
            let entries = found.entries;
            write!(text, "line {line}: ")?;
            write_name(text, explainer.wanted.family, found.priority)?;
            writeln!(text, " takes {entries}")?;
        }
    }
    Ok(())
}

/// The rules that take the most entries, the greatest first, of equals the first in the set and then in the batch.
fn greatest(explainer: &Explainer) -> [Option<RuleSize>; MOST_TOLD] {
    let mut found = [None; MOST_TOLD];
    for i in 0..explainer.rules.len() {
        let rule = explainer.rules.at(i);
        let line = match explainer.seen.get(&rule.priority) {
            Some(seen) => seen.line,
            None => 0,
        };
        put(&mut found, sized(rule, line));
    }
    for i in 0..explainer.batch.len() {
        if let Command::Add(rule) = explainer.batch.at(i) {
            let line = explainer.lines.get(i as usize).copied();
            put(&mut found, sized(&rule, line.unwrap_or(0)));
        }
    }
    found
}

/// A rule with the entries that it takes by covers.
fn sized(rule: &Rule, line: u32) -> RuleSize {
    RuleSize {
        entries: entries_needed(Mode::Cover, rule),
        priority: rule.priority,
        line,
    }
}

/// Puts a rule among the greatest, in front of those that take less, which keep their order.
fn put(found: &mut [Option<RuleSize>; MOST_TOLD], new: RuleSize) {
    let mut next = Some(new);
    let mut moves = false;
    for place in 0..MOST_TOLD {
        let is_less = match (found[place], next) {
            (Some(there), Some(coming)) => moves || there.entries < coming.entries,
            (None, _) => true,
            (_, None) => false,
        };
        if is_less {
            let there = found[place];
            found[place] = next;
            next = there;
            moves = true;
        }
    }
}

/// What the batch would take with a bit for each range, beside an entry for each rule that stands.
fn tell_by_bits(explainer: &Explainer, number: u32, text: &mut String) -> Result<(), AllocError> {
    let slots = explainer.wanted.slots;
    let need = explainer.rules.entries_added(Mode::Bits, &explainer.batch);
    let free = slots.saturating_sub(explainer.rules.len());
    let src = bits_needed(explainer, Field::Src);
    let dst = bits_needed(explainer, Field::Dst);
    let bits = u32::from(FIELD_BITS);
    if src > bits || dst > bits {
        writeln!(
            text,
            "line {number}: --ranges bits has {bits} ranges a side, and here are {src} of source and {dst} of destination ports"
        )
    } else {
        writeln!(
            text,
            "line {number}: with --ranges bits it takes {need} slots, and {free} of {slots} are free"
        )
    }
}

/// How many ranges of a field the set and the batch have that need a bit, and more than there are where the set alone
/// has more.
fn bits_needed(explainer: &Explainer, field: Field) -> u32 {
    let added = added_ranges(field, &explainer.rules, &explainer.batch);
    match free_bits(field, &explainer.rules) {
        Some(free) => (u32::from(FIELD_BITS) - free).saturating_add(added),
        None => (u32::from(FIELD_BITS) + 1).saturating_add(added),
    }
}

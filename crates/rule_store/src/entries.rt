//! How many entries of the memory rules take.

ghost use Rattle.std.specs.Prelude.{◌≡◌, ◌*◌, ◌≤◌, length, option_copied};
ghost use Rattle.std.specs.List.{list_any};
ghost use Rattle.rule_model.specs.PortRange as ports;
ghost use Rattle.rule_model.specs.Piece as pieces;
ghost use Rattle.rule_store.specs.Common as common;
ghost use Rattle.rule_store.specs.Verdict as verdict;

use crate::{Batch, Command, Mode, Store};
use rule_model::{Cover, Ports, Rule, cover};

// Whether a cover has a block.
fn has_block(cover: &Cover, block: Ports) -> bool
    ensures { result ≡ list_any (ports.same_range block) cover.now }
{
    for i in 0..cover.len() {
        if block == cover.at(i) {
            return true;
        }
    }
    false
}

// How many blocks of the first cover are blocks of the second one.
fn common_blocks(a: &Cover, b: &Cover) -> u64
    ensures count { result ≡ common.common_blocks a.now b.now }
    ensures most { result ≤ 30 }
{
    let mut count = 0;
    for i in 0..a.len() {
        count += u64::from(has_block(b, a.at(i)));
    }
    count
}

// How many blocks of the first range's cover are blocks of the second one's.
fn common_size(a: &Ports, b: &Ports) -> u64
    ensures count { result ≡ common.common_size a.now b.now }
    ensures most { result ≤ 30 }
{
    common_blocks(&cover(*a), &cover(*b))
}

// Whether two rules have the same addresses and the same protocol.
fn same_ends(a: &Rule, b: &Rule) -> bool
    ensures { result ≡ common.same_ends a.now b.now }
{
    a.src == b.src && a.dst == b.dst && a.proto == b.proto
}

/// How many entries a rule takes, 900 at most.
pub fn entries_needed(mode: Mode, rule: &Rule) -> u64
    ensures count { result ≡ verdict.entries_needed mode rule.now }
    ensures most { result ≤ 900 }
{
    match mode {
        Mode::Cover => u64::from(rule_model::cover_size(rule.sport))
            * u64::from(rule_model::cover_size(rule.dport)),
        Mode::Bits => 1,
    }
}

// How many entries of a rule by covers the one that it replaces has too.
fn kept_entries(old: &Rule, new: &Rule) -> u64
    ensures { result ≡ common.kept_size old.now new.now }
{
    if !same_ends(new, old) {
        return 0;
    }
    common_size(&new.sport, &old.sport) * common_size(&new.dport, &old.dport)
}

/// Whether two rules have the same conditions: all but their priorities and results.
pub fn same_conditions(a: &Rule, b: &Rule) -> bool
    ensures { result ≡ pieces.same_piece (pieces.whole_piece a.now) (pieces.whole_piece b.now) }
{
    same_ends(a, b) && a.sport == b.sport && a.dport == b.dport
}

// How many entries a rule takes that the one which it replaces doesn't have.
fn fresh_entries(mode: Mode, old: &Rule, new: &Rule) -> u64
    ensures count { result ≡ length (verdict.fresh_pieces mode old.now new.now) }
    ensures most { result ≤ 900 }
{
    match mode {
        Mode::Cover => entries_needed(mode, new) - kept_entries(old, new),
        Mode::Bits => u64::from(!same_conditions(new, old)),
    }
}

// How many entries a rule takes in the place of another, if there is one.
fn entries_over(mode: Mode, old: Option<&Rule>, new: &Rule) -> u64
    ensures count { result ≡ length (verdict.added_pieces_over mode (option_copied old.entry) new.now) }
    ensures most { result ≤ 900 }
{
    match old {
        Some(old) => fresh_entries(mode, old, new),
        None => entries_needed(mode, new),
    }
}

impl Store {
    /// How many entries a batch takes beside those of the set, 900 for each command at most. An addition in
    /// place of a rule of the set takes only those that the rule doesn't have.
    pub fn entries_added(&self, mode: Mode, batch: &Batch) -> u64
        ensures count { result ≡ verdict.entries_added mode self.now.rules batch.now }
        ensures most { result ≤ 900 * length batch.now }
    {
        let mut total = 0;
        for i in 0..batch.len() {
            if let Command::Add(rule) = batch.at(i) {
                total += entries_over(mode, self.rule(rule.priority), &rule);
            }
        }
        total
    }
}

//! The entries of a set of rules by prefix covers: what a memory would hold that has the set and nothing else.
//!
//! A set and a device are so compared by one means: both are lists of entries, of which the first that hits a key's word
//! answers (`rule_entries_answer`).
#![tactic(auto)]

mod laws;

ghost use Rattle.std.specs.Prelude.{◌≡◌, IfOk, map};
ghost use Rattle.std.specs.List.{AllByRecursion};
ghost use Rattle.rule_model.specs.Rule.{HasConditions};
ghost use Rattle.rule_model.specs.RuleSet.{IsRuleSet};
ghost use Rattle.rule_model.specs.Entry.{IsEncodable, entry_for};
ghost use Rattle.rule_entries.specs.RuleEntries as spec;

use commit_writes::{Ranked, set_pieces};
pub use laws::rule_entries_answer;
use rule_model::{Entry, entry_of};
use rule_store::Store;
use std::alloc::{AllocError, Global};
use std::vec::Vec;

/// The entries of a set, by falling priority. It fails only for want of memory.
pub fn rule_entries(alloc: Global, rules: &Store) -> Result<Vec<Entry>, AllocError>
    requires is_set { IsRuleSet rules.now.rules }
    requires right { AllByRecursion HasConditions rules.now.rules }
    ensures { IfOk result (λ entries. entries.items ≡ spec.rule_entries rules.now.rules) }
{
    let pieces = set_pieces(alloc, &None, rules)?;
    let all = pieces.as_slice();
    let entries = entries_for(alloc, all)?;
    Ok(entries)
}

/// The entries of some pieces.
fn entries_for(alloc: Global, pieces: &[Ranked]) -> Result<Vec<Entry>, AllocError>
    requires { AllByRecursion (λ ranked. IsEncodable ranked.piece) pieces.now }
    ensures { IfOk result (λ entries. entries.items ≡ map entry_for pieces.now) }
{
    let mut entries = Vec::new(alloc);
    for ranked in pieces {
        let entry = entry_with(ranked);
        entries.push(entry)?;
    }
    Ok(entries)
}

/// The entry of a piece.
fn entry_with(ranked: &Ranked) -> Entry
    requires { IsEncodable ranked.now.piece }
    ensures { result ≡ entry_for ranked.now }
{
    entry_of(&ranked.piece, ranked.rank, ranked.result)
}

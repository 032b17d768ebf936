//! How long the longest overlap chain of a rule set is.
//!
//! An overlap chain is a list of rules of strictly falling priority, each of which overlaps the next. Its greatest length is
//! the `m` of the bounds on insertions, which so far every promise took as a number that bounds the chains: here it is told.
//!
//! # How it goes
//! From the lowest rule up: the longest chain that begins with a rule is one longer than the longest one that begins with a
//! lower rule which the first overlaps. So each pair of rules is tested once, and a number is kept for each rule.
//!
//! # What it cost
//! Time that grows with the square of the rules, 8 million tests of pairs for 4,096 of them. An index of overlaps would test
//! fewer, and there is one in a manager; but that holds pieces, of which a rule has up to 900, and chains are of rules.
//!
//! # Decided
//! - **A crate of its own above `rule_store`**, and no call of `Store`: nothing of a commit stands on it, so nothing is proved
//!   anew where it changes.
//! - **What is told is the least bound** (`IsLongestChain`), by the definition of a bound that the promises of insertions have
//!   (`BoundsChains` of `rule_model`), and no function beside it.
#![tactic(auto)]

ghost use Rattle.std.specs.Prelude.{◌≡◌, ◌+◌, ◌≤◌, IfOk, drop, length};
ghost use Rattle.rule_model.specs.Rule.{rules_meet};
ghost use Rattle.rule_chains.specs.Chains.{IsLongestChain};
ghost use Rattle.rule_chains.specs.Lengths as spec;
ghost use Rattle.rule_chains.specs.Lengths.{lengths_of, longest_where};

use rule_model::{Rule, overlaps, rule_conditions};
use rule_store::Store;
use std::alloc::{AllocError, Global};

/// The length of the longest overlap chain of a set: 0 where it is empty, and else that of a longest list of its rules in
/// which each has a greater priority than the next and overlaps it. It fails only for want of memory, of which it takes four
/// bytes a rule until it returns; it tests each pair of rules at most once.
pub fn longest_chain(alloc: Global, rules: &Store) -> Result<u32, AllocError>
    ensures { IfOk result (λ longest. IsLongestChain rules.now.rules longest) }
{
    let mut lengths = vec![in alloc; 0u32; rules.len() as usize]?;
    Ok(longest_by(rules, &mut lengths))
}

// The same, with room for the lengths of the chains that begin with each rule.
fn longest_by(rules: &Store, lengths: &mut [u32]) -> u32
    requires { length lengths.old ≡ length rules.now.rules }
    ensures { IsLongestChain rules.now.rules result }
{
    let mut longest = 0;
    // The rules from here on have their lengths.
    let mut from = rules.len();
    while from > 0 {
        let place = from - 1;
        let upper = rules.at(place);
        rule_conditions(upper);
        let own = 1 + longest_below(rules, lengths, upper, from);
        lengths[place as usize] = own;
        longest = with_length(longest, true, own);
        from = place;
    }
    longest
}

// The greatest length of a chain that begins with a rule from a place on which overlaps this one.
fn longest_below(rules: &Store, lengths: &[u32], upper: &Rule, from: u32) -> u32
    requires count { length lengths.now ≡ length rules.now.rules }
    requires within { from ≤ length rules.now.rules }
    requires known { drop from lengths.now ≡ lengths_of (drop from rules.now.rules) }
    ensures longest { result ≡ longest_where (rules_meet upper.now) (drop from rules.now.rules) }
    ensures most { from + result ≤ length rules.now.rules }
{
    let mut longest = 0;
    for below in from..rules.len() {
        let meets = overlaps(upper, rules.at(below));
        longest = with_length(longest, meets, lengths[below as usize]);
    }
    longest
}

// The longest length so far, where a chain of another length counts.
fn with_length(longest: u32, counts: bool, other: u32) -> u32
    ensures { result ≡ spec.with_length longest counts other }
{
    if counts { longest.max(other) } else { longest }
}

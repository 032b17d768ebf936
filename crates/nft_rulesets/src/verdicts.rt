//! What becomes of packets: verdicts, and maps that have one for each value.

ghost use Rattle.std.specs.Prelude.{◌≡◌, ◌++◌, ◌∷◌, [], Ok, Err, Some, None, IfOk, OnOk, MatchResult, option_map, codes};
ghost use Rattle.json.specs.Find.{get};
ghost use Rattle.json.specs.Value.{items_view, value_view};
ghost use Rattle.nft_rulesets.specs.Looks.{sole, pair_in, text_at};
ghost use Rattle.nft_rulesets.specs.Verdicts.{both_decided, decided, field_mapped, found_lets_on, go_to, items_decided, jump_to, leads_to, lets_on, mapped_by, pairs_decided, pairs_of, plain_pairs, verdict_of, verdict_rules, with_target, ArePut};
ghost use Rattle.nft_rulesets.specs.Matches.{field_of};
ghost use Rattle.nft_rulesets.specs.Values.{set_in};

use crate::asked::Asked;
use crate::defined::{elements, place_of};
use crate::fields::{Field, field_of};
use crate::looks::{has_members, items_of, pair_in, sole, text_at};
use crate::products::pair_tests;
use crate::values::{element_span, name_in, set_in};
use crate::why::Why;
use json::Value;
use rule_model::IpVersion;
use std::alloc::{AllocError, Global};
use written_chains::{ChainRule, Target, Tests};

/// What becomes of packets.
#[derive(Clone, Copy, Debug, PartialEq, Eq)]
pub(crate) enum Verdict {
    /// They are permitted or denied.
    Decides(bool),
    /// They leave the chain.
    Returns,
    /// They walk the chain at this place, and come back.
    Jumps(usize),
    /// They walk it, and leave this one.
    Goes(usize),
    /// They go on.
    Continues,
}

/// The chain that a verdict leads to.
fn leads_to(asked: &Asked, all: &[Value], body: &Value) -> Option<usize>
    ensures { result ≡ leads_to asked.now (items_view all.now) (text_at (codes "target") (value_view body.now)) }
{
    match text_at(body, "target") {
        Some(name) => place_of(asked, "chain", name.as_bytes(), all),
        None => None,
    }
}

/// A jump to a chain, if there is one.
fn jump_to(chain: Option<usize>) -> Result<Verdict, Why>
    ensures { result ≡ jump_to chain }
{
    match chain {
        Some(place) => Ok(Verdict::Jumps(place)),
        None => Err(Why::Target),
    }
}

/// A way to a chain and not back, if there is one.
fn go_to(chain: Option<usize>) -> Result<Verdict, Why>
    ensures { result ≡ go_to chain }
{
    match chain {
        Some(place) => Ok(Verdict::Goes(place)),
        None => Err(Why::Target),
    }
}

/// The verdict of a statement.
pub(crate) fn verdict_of(
    asked: &Asked,
    all: &[Value],
    key: &str,
    body: &Value,
) -> Result<Verdict, Why>
    ensures { result ≡ verdict_of asked.now (items_view all.now) key.now (value_view body.now) }
{
    if key == "accept" {
        Ok(Verdict::Decides(true))
    } else if key == "drop" || key == "reject" {
        Ok(Verdict::Decides(false))
    } else if key == "return" {
        Ok(Verdict::Returns)
    } else if key == "continue" {
        Ok(Verdict::Continues)
    } else if key == "jump" {
        jump_to(leads_to(asked, all, body))
    } else if key == "goto" {
        go_to(leads_to(asked, all, body))
    } else {
        Err(Why::Statement)
    }
}

/// Whether a verdict lets packets go on to what is behind it, a jump those that come back.
fn lets_on(verdict: Verdict) -> bool
    ensures { result ≡ lets_on verdict }
{
    match verdict {
        Verdict::Jumps(_) | Verdict::Continues => true,
        Verdict::Decides(_) | Verdict::Returns | Verdict::Goes(_) => false,
    }
}

/// Whether it is one, and does.
pub(crate) fn found_lets_on(verdict: Result<Verdict, Why>) -> bool
    ensures { result ≡ found_lets_on verdict }
{
    match verdict {
        Ok(found) => lets_on(found),
        Err(_) => false,
    }
}

/// Puts the rules of a chain there that have these tests, and this target.
fn put_target(
    into: &mut Vec<ChainRule>,
    chain: usize,
    tests: &[Tests],
    target: Target,
) -> Result<(), AllocError>
    ensures { OnOk result (into.new.items ≡ into.old.items ++ with_target chain tests.now target) }
{
    for one in tests {
        into.push(ChainRule {
            chain,
            tests: *one,
            target,
        })?;
    }
    Ok(())
}

/// Puts the rules of a chain there that a verdict is.
fn put_verdict(
    into: &mut Vec<ChainRule>,
    chain: usize,
    tests: &[Tests],
    verdict: Verdict,
) -> Result<(), AllocError>
    ensures { OnOk result (into.new.items ≡ into.old.items ++ verdict_rules chain tests.now verdict) }
{
    match verdict {
        Verdict::Decides(permits) => put_target(into, chain, tests, Target::Decides(permits)),
        Verdict::Returns => put_target(into, chain, tests, Target::Returns),
        Verdict::Jumps(callee) => put_target(into, chain, tests, Target::Jumps(callee)),
        Verdict::Goes(callee) => {
            put_target(into, chain, tests, Target::Jumps(callee))?;
            put_target(into, chain, tests, Target::Returns)
        }
        Verdict::Continues => Ok(()),
    }
}

/// Puts the rules of a chain there that a verdict is, if it is one. Err: why it isn't said.
pub(crate) fn put_decided(
    into: &mut Vec<ChainRule>,
    chain: usize,
    tests: &[Tests],
    verdict: Result<Verdict, Why>,
) -> Result<Result<(), Why>, AllocError>
    ensures { IfOk result (λ answer. ArePut answer (decided chain tests.now verdict) into.old.items into.new.items) }
{
    match verdict {
        Ok(found) => {
            put_verdict(into, chain, tests, found)?;
            Ok(Ok(()))
        }
        Err(why) => Ok(Err(why)),
    }
}

/// Puts the rules there of a pair of a map.
fn put_pair(
    alloc: Global,
    into: &mut Vec<ChainRule>,
    asked: &Asked,
    all: &[Value],
    chain: usize,
    tests: &[Tests],
    field: Field,
    pair: &Value,
) -> Result<Result<(), Why>, AllocError>
    ensures { IfOk result (λ answer. ArePut answer (both_decided asked.now (items_view all.now) chain tests.now field (pair_in (value_view pair.now))) into.old.items into.new.items) }
{
    match pair_in(pair) {
        Some(both) => match sole(both.1) {
            Some(to) => {
                let span = element_span(field, asked.version, both.0);
                match pair_tests(alloc, tests, field, span)? {
                    Ok(held) => {
                        let verdict = verdict_of(asked, all, to.0, &to.1);
                        put_decided(into, chain, held.as_slice(), verdict)
                    }
                    Err(why) => Ok(Err(why)),
                }
            }
            None => Ok(Err(Why::Values)),
        },
        None => Ok(Err(Why::Values)),
    }
}

/// Puts the rules there of all pairs of a map. Err: why they aren't said.
fn put_pairs(
    alloc: Global,
    into: &mut Vec<ChainRule>,
    asked: &Asked,
    all: &[Value],
    chain: usize,
    tests: &[Tests],
    field: Field,
    pairs: &[Value],
) -> Result<Result<(), Why>, AllocError>
    ensures { IfOk result (λ answer. ArePut answer (pairs_decided asked.now (items_view all.now) chain tests.now field (items_view pairs.now)) into.old.items into.new.items) }
{
    for pair in pairs {
        match put_pair(alloc, into, asked, all, chain, tests, field, pair)? {
            Ok(()) => {}
            Err(why) => return Ok(Err(why)),
        }
    }
    Ok(Ok(()))
}

/// The pairs of a map that stands here.
pub(crate) fn plain_pairs<'v, 'a>(listed: &'v Value<'a>) -> Result<&'v [Value<'a>], Why>
    ensures { MatchResult result (λ pairs. plain_pairs (set_in (sole (value_view listed.now))) ≡ Ok (items_view pairs.now))
        (λ why. plain_pairs (set_in (sole (value_view listed.now))) ≡ Err why) }
{
    match set_in(listed) {
        Some(body) => match items_of(body) {
            Some(pairs) => Ok(pairs),
            None => Err(Why::Values),
        },
        None => Err(Why::Values),
    }
}

/// Puts the rules there of the pairs of a map that stands here, or has a name.
fn put_listed(
    alloc: Global,
    into: &mut Vec<ChainRule>,
    asked: &Asked,
    all: &[Value],
    chain: usize,
    tests: &[Tests],
    field: Field,
    listed: &Value,
) -> Result<Result<(), Why>, AllocError>
    ensures { IfOk result (λ answer. ArePut answer (items_decided asked.now (items_view all.now) chain tests.now field (pairs_of asked.now (items_view all.now) (Some (value_view listed.now)))) into.old.items into.new.items) }
{
    match name_in(listed) {
        Some(name) => match elements(asked, "map", name, all) {
            Some(pairs) => put_pairs(alloc, into, asked, all, chain, tests, field, pairs),
            None => Ok(Err(Why::Set)),
        },
        None => match plain_pairs(listed) {
            Ok(pairs) => put_pairs(alloc, into, asked, all, chain, tests, field, pairs),
            Err(why) => Ok(Err(why)),
        },
    }
}

/// Puts the rules there of a map's pairs, where the field has values.
fn put_data(
    alloc: Global,
    into: &mut Vec<ChainRule>,
    asked: &Asked,
    all: &[Value],
    chain: usize,
    tests: &[Tests],
    field: Field,
    body: &Value,
) -> Result<Result<(), Why>, AllocError>
    ensures { IfOk result (λ answer. ArePut answer (items_decided asked.now (items_view all.now) chain tests.now field (pairs_of asked.now (items_view all.now) (get (codes "data") (value_view body.now)))) into.old.items into.new.items) }
{
    match body.get("data") {
        Some(listed) => put_listed(alloc, into, asked, all, chain, tests, field, listed),
        None => Ok(Err(Why::Values)),
    }
}

/// Puts the rules there of a map of this field.
fn put_field(
    alloc: Global,
    into: &mut Vec<ChainRule>,
    asked: &Asked,
    all: &[Value],
    chain: usize,
    tests: &[Tests],
    field: Field,
    body: &Value,
) -> Result<Result<(), Why>, AllocError>
    ensures { IfOk result (λ answer. ArePut answer (field_mapped asked.now (items_view all.now) chain tests.now field (get (codes "data") (value_view body.now))) into.old.items into.new.items) }
{
    match field {
        Field::Absent => Ok(Ok(())),
        Field::Version => Ok(Err(Why::Match)),
        _ => put_data(alloc, into, asked, all, chain, tests, field, body),
    }
}

/// The field of a map's key.
fn key_field(version: IpVersion, body: &Value) -> Result<Field, Why>
    ensures { result ≡ field_of version (get (codes "key") (value_view body.now)) }
{
    match body.get("key") {
        Some(key) => field_of(version, key),
        None => Err(Why::Match),
    }
}

/// Puts the rules there of a map whose key is one field, behind these tests. Err: why it isn't said.
pub(crate) fn put_mapped_field(
    alloc: Global,
    into: &mut Vec<ChainRule>,
    asked: &Asked,
    all: &[Value],
    chain: usize,
    tests: &[Tests],
    body: &Value,
) -> Result<Result<(), Why>, AllocError>
    ensures { IfOk result (λ answer. ArePut answer (mapped_by asked.now (items_view all.now) chain tests.now (value_view body.now) (field_of asked.now.version (get (codes "key") (value_view body.now)))) into.old.items into.new.items) }
{
    match key_field(asked.version, body) {
        Ok(field) => {
            if !has_members(body, 2) {
                return Ok(Err(Why::Operator));
            }
            put_field(alloc, into, asked, all, chain, tests, field, body)
        }
        Err(why) => Ok(Err(why)),
    }
}

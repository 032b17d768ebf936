//! Comparisons and maps of fields together (`ip saddr . tcp dport`).

ghost use Rattle.std.specs.Prelude.{◌≡◌, ◌++◌, ◌∷◌, [], Ok, Err, Some, None, IfOk, OnOk, MatchResult, option_map, codes};
ghost use Rattle.std.specs.List.{list_any};
ghost use Rattle.json.specs.Find.{as_array, get};
ghost use Rattle.json.specs.Value.{items_view, value_view};
ghost use Rattle.nft_rulesets.specs.Concats.{concat_at, parts_in};
ghost use Rattle.nft_rulesets.specs.Looks.{sole, pair_in};
ghost use Rattle.nft_rulesets.specs.Matches.{are_absent, field_behind, field_of, fields_by, fields_from, fields_in, is_absent, left_matched, matched, part_field, parts_compared, parts_listed, parts_matched, parts_named, parts_operated, parts_right};
ghost use Rattle.nft_rulesets.specs.Products.{are_met};
ghost use Rattle.nft_rulesets.specs.Values.{set_in};
ghost use Rattle.nft_rulesets.specs.Verdicts.{apart_pairs, are_apart, fields_mapped, found_lets_on, mapped, pair_held, pair_lets_on, pairs_of, parts_decided, parts_items, parts_mapped, parts_pairs, passed_on, sole_lets_on, tests_or_none, ArePut};

use crate::asked::Asked;
use crate::concats::{concat_in, element_product, elements_product};
use crate::defined::elements;
use crate::fields::{Field, field_of};
use crate::looks::{has_members, items_of, pair_in, sole};
use crate::matches::{matched_field, operator_of};
use crate::products::are_met;
use crate::values::{name_in, set_in};
use crate::verdicts::{found_lets_on, plain_pairs, put_decided, put_mapped_field, verdict_of};
use crate::why::Why;
use json::Value;
use rule_model::IpVersion;
use std::alloc::{AllocError, Global};
use written_chains::{ChainRule, Tests};

/// What stands together in a member.
fn concat_at<'v, 'a>(body: &'v Value<'a>, key: &str) -> Option<&'v Value<'a>>
    ensures { option_map (λ found. value_view found.now) result ≡ concat_at (get key.now (value_view body.now)) }
{
    match body.get(key) {
        Some(found) => concat_in(found),
        None => None,
    }
}

/// One of several fields.
fn part_field(version: IpVersion, part: &Value) -> Result<Field, Why>
    ensures { result ≡ part_field (field_of version (Some (value_view part.now))) }
{
    match field_of(version, part) {
        Ok(Field::Version) => Err(Why::Match),
        Ok(field) => Ok(field),
        Err(why) => Err(why),
    }
}

/// The fields of some parts. Err: why they aren't said.
fn fields_from(
    alloc: Global,
    version: IpVersion,
    parts: &[Value],
) -> Result<Result<Vec<Field>, Why>, AllocError>
    ensures { IfOk result (λ answer. MatchResult answer (λ fields. fields_from version [] (items_view parts.now) ≡ Ok fields.items)
        (λ why. fields_from version [] (items_view parts.now) ≡ Err why)) }
{
    let mut fields = Vec::new(alloc);
    for part in parts {
        match part_field(version, part) {
            Ok(field) => fields.push(field)?,
            Err(why) => return Ok(Err(why)),
        }
    }
    Ok(Ok(fields))
}

/// The fields of a left side that has several.
fn fields_in(
    alloc: Global,
    version: IpVersion,
    body: &Value,
) -> Result<Result<Vec<Field>, Why>, AllocError>
    ensures { IfOk result (λ answer. MatchResult answer (λ fields. fields_in version (parts_in (Some (value_view body.now))) ≡ Ok fields.items)
        (λ why. fields_in version (parts_in (Some (value_view body.now))) ≡ Err why)) }
{
    match items_of(body) {
        Some(parts) => fields_from(alloc, version, parts),
        None => Ok(Err(Why::Match)),
    }
}

/// Whether packets don't have one of some fields.
fn are_absent(fields: &[Field]) -> bool
    ensures { result ≡ are_absent fields.now }
{
    fields.iter().any(|field| field.is_absent())
}

// ---- comparisons

/// The tests of a rule that hold where some fields are in an element, or in one of a set that stands here.
fn parts_listed(
    alloc: Global,
    version: IpVersion,
    fields: &[Field],
    tests: &[Tests],
    right: &Value,
) -> Result<Result<Vec<Tests>, Why>, AllocError>
    ensures { IfOk result (λ answer. MatchResult answer (λ both. parts_listed version fields.now tests.now (value_view right.now) (set_in (sole (value_view right.now))) ≡ Ok both.items)
        (λ why. parts_listed version fields.now tests.now (value_view right.now) (set_in (sole (value_view right.now))) ≡ Err why)) }
{
    match set_in(right) {
        Some(body) => match items_of(body) {
            Some(items) => elements_product(alloc, version, fields, tests, items),
            None => Ok(Err(Why::Values)),
        },
        None => element_product(alloc, version, fields, tests, right),
    }
}

/// Or in one of a set that has a name.
fn parts_right(
    alloc: Global,
    asked: &Asked,
    all: &[Value],
    fields: &[Field],
    tests: &[Tests],
    right: &Value,
) -> Result<Result<Vec<Tests>, Why>, AllocError>
    ensures { IfOk result (λ answer. MatchResult answer (λ both. parts_right asked.now (items_view all.now) fields.now tests.now (Some (value_view right.now)) ≡ Ok both.items)
        (λ why. parts_right asked.now (items_view all.now) fields.now tests.now (Some (value_view right.now)) ≡ Err why)) }
{
    match name_in(right) {
        Some(name) => match elements(asked, "set", name, all) {
            Some(items) => elements_product(alloc, asked.version, fields, tests, items),
            None => Ok(Err(Why::Set)),
        },
        None => parts_listed(alloc, asked.version, fields, tests, right),
    }
}

/// The tests of a rule that hold with a comparison of these fields.
fn parts_compared(
    alloc: Global,
    asked: &Asked,
    all: &[Value],
    fields: &[Field],
    tests: &[Tests],
    negated: bool,
    body: &Value,
) -> Result<Result<Vec<Tests>, Why>, AllocError>
    ensures { IfOk result (λ answer. MatchResult answer (λ both. parts_compared asked.now (items_view all.now) fields.now tests.now negated (get (codes "right") (value_view body.now)) ≡ Ok both.items)
        (λ why. parts_compared asked.now (items_view all.now) fields.now tests.now negated (get (codes "right") (value_view body.now)) ≡ Err why)) }
{
    if negated {
        return Ok(Err(Why::Operator));
    }
    if are_absent(fields) {
        return Ok(Ok(Vec::new(alloc)));
    }
    match body.get("right") {
        Some(right) => parts_right(alloc, asked, all, fields, tests, right),
        None => Ok(Err(Why::Values)),
    }
}

/// The tests of a rule that hold with a comparison of the fields of these parts.
fn parts_matched(
    alloc: Global,
    asked: &Asked,
    all: &[Value],
    tests: &[Tests],
    body: &Value,
    parts: &Value,
) -> Result<Result<Vec<Tests>, Why>, AllocError>
    ensures { IfOk result (λ answer. MatchResult answer (λ both. parts_matched asked.now (items_view all.now) tests.now (value_view body.now) (fields_in asked.now.version (parts_in (Some (value_view parts.now)))) ≡ Ok both.items)
        (λ why. parts_matched asked.now (items_view all.now) tests.now (value_view body.now) (fields_in asked.now.version (parts_in (Some (value_view parts.now)))) ≡ Err why)) }
{
    match fields_in(alloc, asked.version, parts)? {
        Ok(fields) => match operator_of(body) {
            Some(negated) => parts_compared(
                alloc,
                asked,
                all,
                fields.as_slice(),
                tests,
                negated,
                body,
            ),
            None => Ok(Err(Why::Operator)),
        },
        Err(why) => Ok(Err(why)),
    }
}

/// The tests of a rule that hold with a comparison too. Err: why it isn't said.
pub(crate) fn matched(
    alloc: Global,
    asked: &Asked,
    all: &[Value],
    tests: &[Tests],
    body: &Value,
) -> Result<Result<Vec<Tests>, Why>, AllocError>
    ensures { IfOk result (λ answer. MatchResult answer (λ both. matched asked.now (items_view all.now) tests.now (value_view body.now) ≡ Ok both.items)
        (λ why. matched asked.now (items_view all.now) tests.now (value_view body.now) ≡ Err why)) }
{
    match concat_at(body, "left") {
        Some(parts) => parts_matched(alloc, asked, all, tests, body, parts),
        None => matched_field(alloc, asked, all, tests, body),
    }
}

// ---- maps

/// Puts the rules there of a pair of a map.
fn put_parts_pair(
    alloc: Global,
    into: &mut Vec<ChainRule>,
    asked: &Asked,
    all: &[Value],
    chain: usize,
    tests: &[Tests],
    fields: &[Field],
    pair: &Value,
) -> Result<Result<(), Why>, AllocError>
    ensures { IfOk result (λ answer. ArePut answer (parts_decided asked.now (items_view all.now) chain tests.now fields.now (pair_in (value_view pair.now))) into.old.items into.new.items) }
{
    match pair_in(pair) {
        Some(both) => match sole(both.1) {
            Some(to) => match element_product(alloc, asked.version, fields, tests, both.0)? {
                Ok(held) => {
                    let verdict = verdict_of(asked, all, to.0, &to.1);
                    put_decided(into, chain, held.as_slice(), verdict)
                }
                Err(why) => Ok(Err(why)),
            },
            None => Ok(Err(Why::Values)),
        },
        None => Ok(Err(Why::Values)),
    }
}

/// Puts the rules there of all pairs of a map. Err: why they aren't said.
fn put_parts_pairs(
    alloc: Global,
    into: &mut Vec<ChainRule>,
    asked: &Asked,
    all: &[Value],
    chain: usize,
    tests: &[Tests],
    fields: &[Field],
    pairs: &[Value],
) -> Result<Result<(), Why>, AllocError>
    ensures { IfOk result (λ answer. ArePut answer (parts_pairs asked.now (items_view all.now) chain tests.now fields.now (items_view pairs.now)) into.old.items into.new.items) }
{
    for pair in pairs {
        match put_parts_pair(alloc, into, asked, all, chain, tests, fields, pair)? {
            Ok(()) => {}
            Err(why) => return Ok(Err(why)),
        }
    }
    Ok(Ok(()))
}

/// Whether a verdict of a map lets packets go on.
fn sole_lets_on(asked: &Asked, all: &[Value], to: &Value) -> bool
    ensures { result ≡ sole_lets_on asked.now (items_view all.now) (sole (value_view to.now)) }
{
    match sole(to) {
        Some(found) => found_lets_on(verdict_of(asked, all, found.0, &found.1)),
        None => false,
    }
}

/// Whether a pair does.
fn pair_lets_on(asked: &Asked, all: &[Value], pair: &Value) -> bool
    ensures { result ≡ pair_lets_on asked.now (items_view all.now) (pair_in (value_view pair.now)) }
{
    match pair_in(pair) {
        Some(both) => sole_lets_on(asked, all, both.1),
        None => false,
    }
}

/// The tests of a pair; none, if they aren't said.
fn pair_held(
    alloc: Global,
    version: IpVersion,
    fields: &[Field],
    tests: &[Tests],
    pair: &Value,
) -> Result<Vec<Tests>, AllocError>
    ensures { IfOk result (λ held. held.items ≡ pair_held version fields.now tests.now (pair_in (value_view pair.now))) }
{
    match pair_in(pair) {
        Some(both) => match element_product(alloc, version, fields, tests, both.0)? {
            Ok(held) => Ok(held),
            Err(_) => Ok(Vec::new(alloc)),
        },
        None => Ok(Vec::new(alloc)),
    }
}

/// Puts the tests of a pair to those of the pairs that let packets go on, if it does.
fn put_passed(passed: &mut Vec<Tests>, on: bool, held: &[Tests]) -> Result<(), AllocError>
    ensures { OnOk result (passed.new.items ≡ passed_on on passed.old.items held.now) }
{
    if on {
        passed.extend_from_slice(held)?;
    }
    Ok(())
}

/// Whether no pair of a map has packets of one before it that lets them go on: they would go on behind the map, and in a list
/// they would meet the later pair.
fn are_apart(
    alloc: Global,
    asked: &Asked,
    all: &[Value],
    fields: &[Field],
    tests: &[Tests],
    pairs: &[Value],
) -> Result<bool, AllocError>
    ensures { IfOk result (λ apart. apart ≡ are_apart asked.now (items_view all.now) fields.now tests.now [] (items_view pairs.now)) }
{
    let mut passed: Vec<Tests> = Vec::new(alloc);
    for pair in pairs {
        let held = pair_held(alloc, asked.version, fields, tests, pair)?;
        if are_met(passed.as_slice(), held.as_slice()) {
            return Ok(false);
        }
        put_passed(&mut passed, pair_lets_on(asked, all, pair), held.as_slice())?;
    }
    Ok(true)
}

/// Puts the rules there of all pairs of a map whose pairs are apart. Err: why they aren't said.
fn put_apart(
    alloc: Global,
    into: &mut Vec<ChainRule>,
    asked: &Asked,
    all: &[Value],
    chain: usize,
    tests: &[Tests],
    fields: &[Field],
    pairs: &[Value],
) -> Result<Result<(), Why>, AllocError>
    ensures { IfOk result (λ answer. ArePut answer (apart_pairs asked.now (items_view all.now) chain tests.now fields.now (items_view pairs.now)) into.old.items into.new.items) }
{
    if !are_apart(alloc, asked, all, fields, tests, pairs)? {
        return Ok(Err(Why::Overlap));
    }
    put_parts_pairs(alloc, into, asked, all, chain, tests, fields, pairs)
}

/// Puts the rules there of the pairs of a map that stands here, or has a name.
fn put_parts_listed(
    alloc: Global,
    into: &mut Vec<ChainRule>,
    asked: &Asked,
    all: &[Value],
    chain: usize,
    tests: &[Tests],
    fields: &[Field],
    listed: &Value,
) -> Result<Result<(), Why>, AllocError>
    ensures { IfOk result (λ answer. ArePut answer (parts_items asked.now (items_view all.now) chain tests.now fields.now (pairs_of asked.now (items_view all.now) (Some (value_view listed.now)))) into.old.items into.new.items) }
{
    match name_in(listed) {
        Some(name) => match elements(asked, "map", name, all) {
            Some(pairs) => put_apart(alloc, into, asked, all, chain, tests, fields, pairs),
            None => Ok(Err(Why::Set)),
        },
        None => match plain_pairs(listed) {
            Ok(pairs) => put_apart(alloc, into, asked, all, chain, tests, fields, pairs),
            Err(why) => Ok(Err(why)),
        },
    }
}

/// Puts the rules there of a map of these fields.
fn put_fields(
    alloc: Global,
    into: &mut Vec<ChainRule>,
    asked: &Asked,
    all: &[Value],
    chain: usize,
    tests: &[Tests],
    fields: &[Field],
    body: &Value,
) -> Result<Result<(), Why>, AllocError>
    ensures { IfOk result (λ answer. ArePut answer (fields_mapped asked.now (items_view all.now) chain tests.now fields.now (get (codes "data") (value_view body.now))) into.old.items into.new.items) }
{
    if are_absent(fields) {
        return Ok(Ok(()));
    }
    match body.get("data") {
        Some(listed) => put_parts_listed(alloc, into, asked, all, chain, tests, fields, listed),
        None => Ok(Err(Why::Values)),
    }
}

/// Puts the rules there of a map whose key is the fields of these parts.
fn put_parts(
    alloc: Global,
    into: &mut Vec<ChainRule>,
    asked: &Asked,
    all: &[Value],
    chain: usize,
    tests: &[Tests],
    body: &Value,
    parts: &Value,
) -> Result<Result<(), Why>, AllocError>
    ensures { IfOk result (λ answer. ArePut answer (parts_mapped asked.now (items_view all.now) chain tests.now (value_view body.now) (fields_in asked.now.version (parts_in (Some (value_view parts.now))))) into.old.items into.new.items) }
{
    match fields_in(alloc, asked.version, parts)? {
        Ok(fields) => {
            if !has_members(body, 2) {
                return Ok(Err(Why::Operator));
            }
            put_fields(
                alloc,
                into,
                asked,
                all,
                chain,
                tests,
                fields.as_slice(),
                body,
            )
        }
        Err(why) => Ok(Err(why)),
    }
}

/// Puts the rules there of a map, behind these tests. Err: why it isn't said.
pub(crate) fn put_mapped(
    alloc: Global,
    into: &mut Vec<ChainRule>,
    asked: &Asked,
    all: &[Value],
    chain: usize,
    tests: &[Tests],
    body: &Value,
) -> Result<Result<(), Why>, AllocError>
    ensures { IfOk result (λ answer. ArePut answer (mapped asked.now (items_view all.now) chain tests.now (value_view body.now)) into.old.items into.new.items) }
{
    match concat_at(body, "key") {
        Some(parts) => put_parts(alloc, into, asked, all, chain, tests, body, parts),
        None => put_mapped_field(alloc, into, asked, all, chain, tests, body),
    }
}

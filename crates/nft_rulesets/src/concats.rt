//! Fields that are compared together: an element holds what all of its parts hold.

ghost use Rattle.std.specs.Prelude.{◌≡◌, ◌+◌, ◌++◌, [], Ok, Err, Some, None, IfOk, MatchResult, nat_le, length, option_map, codes};
ghost use Rattle.json.specs.Find.{as_array};
ghost use Rattle.json.specs.Value.{items_view, value_view};
ghost use Rattle.nft_rulesets.specs.Looks.{sole};
ghost use Rattle.nft_rulesets.specs.Concats.{concat_at, concat_in, element_parts, element_product, elements_from, elements_product, held_by, listed_product, parts_in, parts_product, put_behind};
ghost use Rattle.nft_rulesets.specs.Values.{unwrapped};

use crate::fields::Field;
use crate::looks::{items_of, sole};
use crate::products::pair_tests;
use crate::values::{unwrapped, value_span};
use crate::why::Why;
use iptables::MOST_LINES;
use json::Value;
use rule_model::IpVersion;
use std::alloc::{AllocError, Global};
use written_chains::Tests;

/// What stands together in a value.
pub(crate) fn concat_in<'v, 'a>(value: &'v Value<'a>) -> Option<&'v Value<'a>>
    ensures { option_map (λ found. value_view found.now) result ≡ concat_in (value_view value.now) }
{
    match sole(value) {
        Some(found) => {
            if found.0 == "concat" {
                return Some(&found.1);
            }
            None
        }
        None => None,
    }
}

/// The parts of an element.
fn element_parts<'v, 'a>(value: &'v Value<'a>) -> Option<&'v [Value<'a>]>
    ensures { option_map (λ found. items_view found.now) result ≡ element_parts (value_view value.now) }
{
    match unwrapped(value) {
        Some(found) => match concat_in(found) {
            Some(body) => items_of(body),
            None => None,
        },
        None => None,
    }
}

/// The tests of a rule that hold where each of some fields is in the part at its place. Err: why that isn't said.
fn parts_product(
    alloc: Global,
    version: IpVersion,
    fields: &[Field],
    tests: &[Tests],
    parts: &[Value],
) -> Result<Result<Vec<Tests>, Why>, AllocError>
    ensures { IfOk result (λ answer. MatchResult answer (λ both. parts_product version fields.now tests.now (items_view parts.now) ≡ Ok both.items)
        (λ why. parts_product version fields.now tests.now (items_view parts.now) ≡ Err why)) }
{
    let mut held = Vec::from_slice(alloc, tests)?;
    for place in 0..fields.len() {
        if place >= parts.len() {
            return Ok(Err(Why::Values));
        }
        let span = value_span(fields[place], version, &parts[place]);
        match pair_tests(alloc, held.as_slice(), fields[place], span)? {
            Ok(both) => held = both,
            Err(why) => return Ok(Err(why)),
        }
    }
    if parts.len() > fields.len() {
        return Ok(Err(Why::Values));
    }
    Ok(Ok(held))
}

/// The same by an element of a set, or of a map.
pub(crate) fn element_product(
    alloc: Global,
    version: IpVersion,
    fields: &[Field],
    tests: &[Tests],
    value: &Value,
) -> Result<Result<Vec<Tests>, Why>, AllocError>
    ensures { IfOk result (λ answer. MatchResult answer (λ both. element_product version fields.now tests.now (value_view value.now) ≡ Ok both.items)
        (λ why. element_product version fields.now tests.now (value_view value.now) ≡ Err why)) }
{
    match element_parts(value) {
        Some(parts) => parts_product(alloc, version, fields, tests, parts),
        None => Ok(Err(Why::Values)),
    }
}

/// The tests of a rule that hold where some fields are in one of some elements.
pub(crate) fn elements_product(
    alloc: Global,
    version: IpVersion,
    fields: &[Field],
    tests: &[Tests],
    items: &[Value],
) -> Result<Result<Vec<Tests>, Why>, AllocError>
    ensures { IfOk result (λ answer. MatchResult answer (λ both. elements_product version fields.now tests.now (items_view items.now) ≡ Ok both.items)
        (λ why. elements_product version fields.now tests.now (items_view items.now) ≡ Err why)) }
{
    let mut held: Vec<Tests> = Vec::new(alloc);
    for item in items {
        match element_product(alloc, version, fields, tests, item)? {
            Ok(more) => {
                if held.len() + more.len() > MOST_LINES {
                    return Ok(Err(Why::Many));
                }
                held.extend_from_slice(more.as_slice())?;
            }
            Err(why) => return Ok(Err(why)),
        }
    }
    Ok(Ok(held))
}

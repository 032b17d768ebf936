//! What a comparison tests.

ghost use Rattle.std.specs.Prelude.{◌≡◌, ◌≢◌, Ok, Err, Some, None, [], IfOk, MatchResult, MatchOption, option_map, codes};
ghost use Rattle.json.specs.Value.{items_view, value_view};
ghost use Rattle.nft_rulesets.specs.Matches.{field_compared, field_matched, of_same, operated, operator_of, right_compared, text_value, version_named, version_tests, field_of};
ghost use Rattle.json.specs.Find.{get};

use crate::asked::Asked;
use crate::fields::{Field, field_of, is_version};
use crate::looks::{has_members, text_is};
use crate::products::compared;
use crate::values::right_spans;
use crate::why::Why;
use json::Value;
use rule_model::IpVersion;
use std::alloc::{AllocError, Global};
use written_chains::Tests;

/// Whether a comparison is negated.
pub(crate) fn operator_of(body: &Value) -> Option<bool>
    ensures { result ≡ operator_of (value_view body.now) }
{
    if !has_members(body, 3) {
        None
    } else if text_is(body, "op", b"==") {
        Some(false)
    } else if text_is(body, "op", b"!=") {
        Some(true)
    } else {
        None
    }
}

/// The version that a text names.
fn version_named(text: Option<&str>) -> Option<IpVersion>
    ensures { result ≡ version_named (option_map (λ given. given.now) text.entry) }
{
    match text {
        Some("ipv4") => Some(IpVersion::V4),
        Some("ipv6") => Some(IpVersion::V6),
        _ => None,
    }
}

/// Whether a comparison holds whose two sides are the same, or aren't.
fn of_same(same: bool, negated: bool) -> bool
    ensures { result ≡ of_same same negated }
{
    same != negated
}

/// Tests in room of their own.
pub(crate) fn copied(alloc: Global, tests: &[Tests]) -> Result<Vec<Tests>, AllocError>
    ensures { IfOk result (λ copy. copy.items ≡ tests.now) }
{
    Vec::from_slice(alloc, tests)
}

/// The tests of a rule that hold with a comparison of the version.
fn version_tests(
    alloc: Global,
    tests: &[Tests],
    version: IpVersion,
    negated: bool,
    wanted: Option<IpVersion>,
) -> Result<Result<Vec<Tests>, Why>, AllocError>
    ensures { IfOk result (λ answer. MatchResult answer (λ both. version_tests tests.now version negated wanted ≡ Ok both.items) (λ why. version_tests tests.now version negated wanted ≡ Err why)) }
{
    match wanted {
        Some(named) => {
            if of_same(is_version(version, named), negated) {
                return Ok(Ok(copied(alloc, tests)?));
            }
            Ok(Ok(Vec::new(alloc)))
        }
        None => Ok(Err(Why::Values)),
    }
}

/// The tests of a rule that hold with a comparison of a field that has spans.
fn right_compared(
    alloc: Global,
    asked: &Asked,
    all: &[Value],
    tests: &[Tests],
    field: Field,
    negated: bool,
    body: &Value,
) -> Result<Result<Vec<Tests>, Why>, AllocError>
    ensures { IfOk result (λ answer. MatchResult answer (λ both. right_compared asked.now (items_view all.now) tests.now field negated (get (codes "right") (value_view body.now)) ≡ Ok both.items)
        (λ why. right_compared asked.now (items_view all.now) tests.now field negated (get (codes "right") (value_view body.now)) ≡ Err why)) }
{
    match body.get("right") {
        Some(right) => match right_spans(alloc, asked, all, field, right)? {
            Ok(spans) => compared(alloc, tests, field, negated, spans.as_slice()),
            Err(why) => Ok(Err(why)),
        },
        None => Ok(Err(Why::Values)),
    }
}

/// The text of the right side.
fn right_text<'a>(body: &Value<'a>) -> Option<&'a str>
    ensures { option_map (λ text. text.now) result ≡ text_value (get (codes "right") (value_view body.now)) }
{
    match body.get("right") {
        Some(right) => right.as_str(),
        None => None,
    }
}

/// The tests of a rule that hold with a comparison of this field.
fn field_compared(
    alloc: Global,
    asked: &Asked,
    all: &[Value],
    tests: &[Tests],
    field: Field,
    negated: bool,
    body: &Value,
) -> Result<Result<Vec<Tests>, Why>, AllocError>
    ensures { IfOk result (λ answer. MatchResult answer (λ both. field_compared asked.now (items_view all.now) tests.now field negated (get (codes "right") (value_view body.now)) ≡ Ok both.items)
        (λ why. field_compared asked.now (items_view all.now) tests.now field negated (get (codes "right") (value_view body.now)) ≡ Err why)) }
{
    match field {
        Field::Absent => Ok(Ok(Vec::new(alloc))),
        Field::Version => version_tests(
            alloc,
            tests,
            asked.version,
            negated,
            version_named(right_text(body)),
        ),
        _ => right_compared(alloc, asked, all, tests, field, negated, body),
    }
}

/// The tests of a rule that hold with a comparison of one field. Err: why it isn't said.
pub(crate) fn matched_field(
    alloc: Global,
    asked: &Asked,
    all: &[Value],
    tests: &[Tests],
    body: &Value,
) -> Result<Result<Vec<Tests>, Why>, AllocError>
    ensures { IfOk result (λ answer. MatchResult answer (λ both. field_matched asked.now (items_view all.now) tests.now (value_view body.now) (field_of asked.now.version (get (codes "left") (value_view body.now))) ≡ Ok both.items)
        (λ why. field_matched asked.now (items_view all.now) tests.now (value_view body.now) (field_of asked.now.version (get (codes "left") (value_view body.now))) ≡ Err why)) }
{
    match left_field(asked.version, body) {
        Ok(field) => match operator_of(body) {
            Some(negated) => field_compared(alloc, asked, all, tests, field, negated, body),
            None => Ok(Err(Why::Operator)),
        },
        Err(why) => Ok(Err(why)),
    }
}

/// The field of the left side.
fn left_field(version: IpVersion, body: &Value) -> Result<Field, Why>
    ensures { result ≡ field_of version (get (codes "left") (value_view body.now)) }
{
    match body.get("left") {
        Some(left) => field_of(version, left),
        None => Err(Why::Match),
    }
}

//! The chains, sets and maps of a table, among all items.

ghost use Rattle.std.specs.Prelude.{◌≡◌, ◌+◌, Some, None, option_map, codes};
ghost use Rattle.std.specs.Str.{bytes_eq};
ghost use Rattle.json.specs.Value.{items_view, members_view, value_view};
ghost use Rattle.nft_rulesets.specs.Defined.{all_counters, all_flags, are_counters, are_flags, defines, elements, elements_at, elements_in, is_base, is_counter, is_flag, is_hooked, is_named, is_ours, is_set, is_set_key, listed_elements, place_of, set_keys};
ghost use Rattle.nft_rulesets.specs.Looks.{sole};
ghost use Rattle.json.specs.Find.{get};
ghost use Rattle.json.specs.Json.{no_items};

use crate::asked::Asked;
use crate::looks::{item_at, items_of, sole, text_is};
use json::Value;

/// Whether a member names the table that is asked for.
pub(crate) fn is_ours(asked: &Asked, key: &str, body: &Value) -> bool
    ensures { result ≡ is_ours asked.now key.now (value_view body.now) }
{
    text_is(body, "family", asked.family) && text_is(body, key, asked.table)
}

/// Whether a body defines this name in that table.
pub(crate) fn is_named(asked: &Asked, name: &[u8], body: &Value) -> bool
    ensures { result ≡ is_named asked.now name.now (Some (value_view body.now)) }
{
    is_ours(asked, "table", body) && text_is(body, "name", name)
}

/// Whether an item defines this name in that table.
fn defines(asked: &Asked, kind: &str, name: &[u8], value: &Value) -> bool
    ensures { result ≡ defines asked.now kind.now name.now (value_view value.now) }
{
    match value.get(kind) {
        Some(body) => is_named(asked, name, body),
        None => false,
    }
}

/// The place of the first definition of a name.
pub(crate) fn place_of(asked: &Asked, kind: &str, name: &[u8], all: &[Value]) -> Option<usize>
    ensures { result ≡ place_of asked.now kind.now name.now (items_view all.now) }
{
    for place in 0..all.len() {
        if defines(asked, kind, name, &all[place]) {
            return Some(place);
        }
    }
    None
}

/// Whether packets meet the chain at a place without a jump.
pub(crate) fn is_base(all: &[Value], place: usize) -> bool
    ensures { result ≡ is_base (items_view all.now) place }
{
    match item_at(all, place) {
        Some(value) => is_hooked(value),
        None => false,
    }
}

/// Whether an item is such a chain.
fn is_hooked(value: &Value) -> bool
    ensures { result ≡ is_hooked (Some (value_view value.now)) }
{
    match value.get("chain") {
        Some(body) => body.get("hook").is_some(),
        None => false,
    }
}

/// A key of a set that has no part in what it holds.
fn is_set_key(key: &str) -> bool
    ensures { result ≡ is_set_key key.now }
{
    key == "family"
        || key == "name"
        || key == "table"
        || key == "type"
        || key == "handle"
        || key == "flags"
        || key == "elem"
        || key == "map"
        || key == "comment"
        || key == "auto-merge"
        || key == "stmt"
}

/// Whether a body has no other key.
fn is_set(body: &Value) -> bool
    ensures { result ≡ is_set (value_view body.now) }
{
    match body {
        Value::Object(members) => set_keys(members.as_slice()),
        _ => false,
    }
}

/// Whether members have no other key.
fn set_keys(members: &[(&str, Value)]) -> bool
    ensures { result ≡ set_keys (members_view members.now) }
{
    for member in members {
        if !is_set_key(member.0) {
            return false;
        }
    }
    true
}

/// A flag of a set that doesn't change by itself.
fn is_flag(value: &Value) -> bool
    ensures { result ≡ is_flag (value_view value.now) }
{
    match value {
        Value::String(text) => *text == "interval" || *text == "constant",
        _ => false,
    }
}

/// Whether these are such flags.
fn all_flags(items: &[Value]) -> bool
    ensures { result ≡ all_flags (items_view items.now) }
{
    for item in items {
        if !is_flag(item) {
            return false;
        }
    }
    true
}

/// Whether the flags of a set are.
fn are_flags(body: &Value) -> bool
    ensures { result ≡ are_flags (get (codes "flags") (value_view body.now)) }
{
    match body.get("flags") {
        Some(flags) => match items_of(flags) {
            Some(items) => all_flags(items),
            None => false,
        },
        None => true,
    }
}

/// A statement of a set that counts the packets that it has, and nothing else.
fn is_counter(value: &Value) -> bool
    ensures { result ≡ is_counter (sole (value_view value.now)) }
{
    match sole(value) {
        Some(found) => found.0 == "counter",
        None => false,
    }
}

/// Whether these are such statements.
fn all_counters(items: &[Value]) -> bool
    ensures { result ≡ all_counters (items_view items.now) }
{
    for item in items {
        if !is_counter(item) {
            return false;
        }
    }
    true
}

/// Whether the statements of a set are.
fn are_counters(body: &Value) -> bool
    ensures { result ≡ are_counters (get (codes "stmt") (value_view body.now)) }
{
    match body.get("stmt") {
        Some(statements) => match items_of(statements) {
            Some(items) => all_counters(items),
            None => false,
        },
        None => true,
    }
}

/// The elements of a set.
fn elements_in<'v, 'a>(body: &'v Value<'a>) -> Option<&'v [Value<'a>]>
    ensures { option_map (λ found. items_view found.now) result ≡ elements_in (value_view body.now) }
{
    if is_set(body) && are_flags(body) && are_counters(body) {
        return listed_elements(body);
    }
    None
}

/// Those that stand there.
fn listed_elements<'v, 'a>(body: &'v Value<'a>) -> Option<&'v [Value<'a>]>
    ensures { option_map (λ found. items_view found.now) result ≡ listed_elements (get (codes "elem") (value_view body.now)) }
{
    match body.get("elem") {
        Some(found) => items_of(found),
        None => {
            let none: &'v [Value<'a>] = none_of();
            Some(none)
        }
    }
}

/// No items.
fn none_of<'v, 'a>() -> &'v [Value<'a>]
    ensures { items_view result.now ≡ no_items }
{
    &[]
}

/// The elements of the set, or of the map, that an item is.
fn elements_at<'v, 'a>(kind: &str, value: &'v Value<'a>) -> Option<&'v [Value<'a>]>
    ensures { option_map (λ found. items_view found.now) result ≡ elements_at kind.now (Some (value_view value.now)) }
{
    match value.get(kind) {
        Some(body) => elements_in(body),
        None => None,
    }
}

/// The elements of the set, or of the map, of a name.
pub(crate) fn elements<'v, 'a>(
    asked: &Asked,
    kind: &str,
    name: &[u8],
    all: &'v [Value<'a>],
) -> Option<&'v [Value<'a>]>
    ensures { option_map (λ found. items_view found.now) result ≡ elements asked.now kind.now name.now (items_view all.now) }
{
    match place_of(asked, kind, name, all) {
        Some(place) => match item_at(all, place) {
            Some(value) => elements_at(kind, value),
            None => None,
        },
        None => None,
    }
}

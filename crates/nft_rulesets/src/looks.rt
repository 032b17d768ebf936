//! Looking into values of JSON.

ghost use Rattle.std.specs.Prelude.{◌≡◌, ◌++◌, ◌∷◌, [], Some, None, OnOk, MatchOption, option_map};
ghost use Rattle.std.specs.Str.{bytes_eq};
ghost use Rattle.json.specs.Json.{member, no_members};
ghost use Rattle.json.specs.Value.{items_view, value_view};
ghost use Rattle.json.specs.Find.{as_array, as_number, get_item};
ghost use Rattle.json_routes.specs.Lines.{named_key};
ghost use Rattle.nft_rulesets.specs.Looks.{has_members, named_text, pair_in, sole, text_at, text_is, word_at};

use json::Value;
use json_routes::{named_key, text_of};

/// Whether a value is an object of so many members.
pub(crate) fn has_members(value: &Value, count: usize) -> bool
    ensures { result ≡ has_members count (value_view value.now) }
{
    match value {
        Value::Object(members) => members.len() == count,
        _ => false,
    }
}

/// The key and the value of an object that has no others.
pub(crate) fn sole<'v, 'a>(value: &'v Value<'a>) -> Option<&'v (&'a str, Value<'a>)>
    ensures { MatchOption result (sole (value_view value.now) ≡ None)
        (λ found. sole (value_view value.now) ≡ Some (found.now.0.now, value_view found.now.1)) }
{
    match value {
        Value::Object(members) => {
            if members.len() == 1 {
                return Some(&members[0]);
            }
            None
        }
        _ => None,
    }
}

/// The items of an array.
pub(crate) fn items_of<'v, 'a>(value: &'v Value<'a>) -> Option<&'v [Value<'a>]>
    ensures { option_map (λ items. items_view items.now) result ≡ as_array (value_view value.now) }
{
    match value {
        Value::Array(items) => Some(items.as_slice()),
        _ => None,
    }
}

/// The item at a place.
pub(crate) fn item_at<'v, 'a>(all: &'v [Value<'a>], place: usize) -> Option<&'v Value<'a>>
    ensures { option_map (λ found. value_view found.now) result ≡ get_item place (items_view all.now) }
{
    if place < all.len() {
        return Some(&all[place]);
    }
    None
}

/// The two items of an array that has no others.
pub(crate) fn pair_in<'v, 'a>(value: &'v Value<'a>) -> Option<(&'v Value<'a>, &'v Value<'a>)>
    ensures { MatchOption result (pair_in (value_view value.now) ≡ None)
        (λ pair. pair_in (value_view value.now) ≡ Some (value_view pair.0.now, value_view pair.1.now)) }
{
    match value {
        Value::Array(items) => {
            if items.len() == 2 {
                return Some((&items[0], &items[1]));
            }
            None
        }
        _ => None,
    }
}

/// The text of a member.
pub(crate) fn text_at<'a>(value: &Value<'a>, key: &str) -> Option<&'a str>
    ensures { option_map (λ text. text.now) result ≡ text_at key.now (value_view value.now) }
{
    match value.get(key) {
        Some(found) => found.as_str(),
        None => None,
    }
}

/// Whether the text of a member is this one.
pub(crate) fn text_is(value: &Value, key: &str, name: &[u8]) -> bool
    ensures { result ≡ text_is key.now (value_view value.now) name.now }
{
    match text_at(value, key) {
        Some(text) => text.as_bytes() == name,
        None => false,
    }
}

/// What a comment names the text, or the number, of a member by.
pub(crate) fn word_at<'a>(value: &Value<'a>, key: &str) -> &'a [u8]
    ensures { result.now ≡ word_at key.now (value_view value.now) }
{
    match value.get(key) {
        Some(found) => named_text(text_of(found)),
        None => b"?",
    }
}

/// What a comment names a text by.
fn named_text<'a>(text: Option<&'a str>) -> &'a [u8]
    ensures { result.now ≡ named_text (option_map (λ given. given.now) text.entry) }
{
    match text {
        Some(given) => named_key(given.as_bytes()),
        None => b"?",
    }
}

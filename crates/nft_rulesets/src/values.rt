//! What a value of JSON says: the addresses, protocols or ports from a first to a last one.

ghost use Rattle.std.specs.Prelude.{◌≡◌, ◌≤◌, Ok, Err, Some, None, IfOk, MatchResult, MatchOption, option_map, codes};
ghost use Rattle.json.specs.Find.{as_str, get};
ghost use Rattle.json.specs.Value.{items_view, members_view, value_view};
ghost use Rattle.line_words.specs.Kinds as kinds;
ghost use Rattle.nft_rulesets.specs.Looks.{sole, pair_in};
ghost use Rattle.nft_rulesets.specs.Values.{address_in, address_span, bits, element_in, element_keys, element_span, element_spans, is_element, is_element_key, joined_spans, kind_span, length_at, length_span, name_in, number_in, only_number, pair_span, plain_spans, point_span, port_in, prefix_span, proto_in, proto_word, right_spans, set_in, single_span, sole_span, spanned, spans_of_items, unwrapped, value_span, within_bits, set_name};

use crate::asked::Asked;
use crate::defined::elements;
use crate::fields::Field;
use crate::looks::{has_members, items_of, pair_in, sole, text_at};
use crate::spans::{Span, block_span};
use crate::why::Why;
use iptables::proto_named;
use json::Value;
use json_routes::text_of;
use line_words::{address_of, port_of, protocol_of};
use rule_model::{Addr, IpVersion};
use std::alloc::{AllocError, Global};

/// The bits of an address.
fn bits(version: IpVersion) -> u8
    ensures { result ≡ bits version }
{
    match version {
        IpVersion::V4 => 32,
        IpVersion::V6 => 128,
    }
}

/// One number, if there is one.
fn only_number(value: Option<u16>) -> Option<Span>
    ensures { result ≡ only_number value }
{
    match value {
        Some(number) => Some(Span {
            lo: u128::from(number),
            hi: u128::from(number),
        }),
        None => None,
    }
}

/// The address of a text.
fn address_in(version: IpVersion, text: Option<&str>) -> Option<Addr>
    ensures { result ≡ address_in version (option_map (λ given. given.now) text.entry) }
{
    match text {
        Some(given) => match address_of(given.as_bytes(), version) {
            Ok(address) => Some(address),
            Err(_) => None,
        },
        None => None,
    }
}

/// The addresses of a block of an address and a length.
fn length_span(addr: Option<Addr>, len: u8) -> Option<Span>
    requires { len ≤ 128 }
    ensures { result ≡ length_span addr len }
{
    match addr {
        Some(found) => block_span(found, len),
        None => None,
    }
}

/// One address.
fn address_span(version: IpVersion, text: Option<&str>) -> Option<Span>
    ensures { result ≡ address_span version (option_map (λ given. given.now) text.entry) }
{
    length_span(address_in(version, text), bits(version))
}

/// The number of a protocol.
fn proto_in(text: Option<&str>) -> Option<u16>
    ensures { result ≡ proto_in (option_map (λ given. given.now) text.entry) }
{
    match text {
        Some(given) => proto_word(given.as_bytes()),
        None => None,
    }
}

/// The number of a protocol, by its name or its number.
fn proto_word(word: &[u8]) -> Option<u16>
    ensures { result ≡ proto_word word.now }
{
    match proto_named(word) {
        Some(proto) => Some(u16::from(proto)),
        None => match protocol_of(word) {
            Ok(proto) => Some(u16::from(proto)),
            Err(_) => None,
        },
    }
}

/// The number of a port.
fn port_in(text: Option<&str>) -> Option<u16>
    ensures { result ≡ port_in (option_map (λ given. given.now) text.entry) }
{
    match text {
        Some(given) => match port_of(given.as_bytes()) {
            Ok(port) => Some(port),
            Err(_) => None,
        },
        None => None,
    }
}

/// What a text, or a number, says of a field.
fn point_span(field: Field, version: IpVersion, value: &Value) -> Option<Span>
    ensures { result ≡ point_span field version (value_view value.now) }
{
    match field {
        Field::Source | Field::Receiver => address_span(version, value.as_str()),
        Field::Protocol => only_number(proto_in(text_of(value))),
        Field::SourcePort(_) | Field::ReceiverPort(_) => only_number(port_in(text_of(value))),
        Field::Version | Field::Absent => None,
    }
}

/// From the first number of one span to the last one of another.
fn joined_spans(first: Option<Span>, last: Option<Span>) -> Option<Span>
    ensures { result ≡ joined_spans first last }
{
    match (first, last) {
        (Some(low), Some(high)) => {
            if low.lo <= high.hi {
                return Some(Span {
                    lo: low.lo,
                    hi: high.hi,
                });
            }
            None
        }
        _ => None,
    }
}

/// What a range says.
fn pair_span(field: Field, version: IpVersion, body: &Value) -> Option<Span>
    ensures { result ≡ pair_span field version (pair_in (value_view body.now)) }
{
    match pair_in(body) {
        Some(pair) => joined_spans(
            point_span(field, version, pair.0),
            point_span(field, version, pair.1),
        ),
        None => None,
    }
}

/// A length up to the bits of an address.
fn within_bits(version: IpVersion, len: Option<u16>) -> Option<u8>
    ensures { result ≡ within_bits version len }
{
    match len {
        Some(given) => {
            if given <= u16::from(bits(version)) {
                return Some(given as u8);
            }
            None
        }
        None => None,
    }
}

/// The length of a prefix.
fn length_at(version: IpVersion, body: &Value) -> Option<u8>
    ensures { result ≡ length_at version (value_view body.now) }
{
    match body.get("len") {
        Some(len) => within_bits(version, port_in(len.as_number())),
        None => None,
    }
}

/// What a prefix says.
fn prefix_span(version: IpVersion, body: &Value) -> Option<Span>
    ensures { result ≡ prefix_span version (value_view body.now) }
{
    if !has_members(body, 2) {
        return None;
    }
    match length_at(version, body) {
        Some(len) => length_span(address_in(version, text_at(body, "addr")), len),
        None => None,
    }
}

/// What a range, or a prefix, says.
fn kind_span(field: Field, version: IpVersion, kind: &str, body: &Value) -> Option<Span>
    ensures { result ≡ kind_span field version kind.now (value_view body.now) }
{
    if kind == "range" {
        pair_span(field, version, body)
    } else if kind == "prefix" && field.is_address() {
        prefix_span(version, body)
    } else {
        None
    }
}

/// The same of an object that has no other member.
fn sole_span(field: Field, version: IpVersion, value: &Value) -> Option<Span>
    ensures { result ≡ sole_span field version (sole (value_view value.now)) }
{
    match sole(value) {
        Some(found) => kind_span(field, version, found.0, &found.1),
        None => None,
    }
}

/// What a value says.
pub(crate) fn value_span(field: Field, version: IpVersion, value: &Value) -> Option<Span>
    ensures { result ≡ value_span field version (value_view value.now) }
{
    match point_span(field, version, value) {
        Some(span) => Some(span),
        None => sole_span(field, version, value),
    }
}

/// A key of an element besides which its value stands alone.
fn is_element_key(key: &str) -> bool
    ensures { result ≡ is_element_key key.now }
{
    key == "val" || key == "comment" || key == "counter"
}

/// Whether members have no other key.
fn element_keys(members: &[(&str, Value)]) -> bool
    ensures { result ≡ element_keys (members_view members.now) }
{
    for member in members {
        if !is_element_key(member.0) {
            return false;
        }
    }
    true
}

/// Whether a body has no other key.
fn is_element(body: &Value) -> bool
    ensures { result ≡ is_element (value_view body.now) }
{
    match body {
        Value::Object(members) => element_keys(members.as_slice()),
        _ => false,
    }
}

/// The value of an element.
fn element_in<'v, 'a>(body: &'v Value<'a>) -> Option<&'v Value<'a>>
    ensures { option_map (λ found. value_view found.now) result ≡ element_in (value_view body.now) }
{
    if is_element(body) {
        return body.get("val");
    }
    None
}

/// The value of an element, or a value that is none.
pub(crate) fn unwrapped<'v, 'a>(value: &'v Value<'a>) -> Option<&'v Value<'a>>
    ensures { option_map (λ found. value_view found.now) result ≡ unwrapped (value_view value.now) }
{
    match sole(value) {
        Some(found) => {
            if found.0 == "elem" {
                return element_in(&found.1);
            }
            Some(value)
        }
        None => Some(value),
    }
}

/// What an element says.
pub(crate) fn element_span(field: Field, version: IpVersion, value: &Value) -> Option<Span>
    ensures { result ≡ element_span field version (value_view value.now) }
{
    match unwrapped(value) {
        Some(found) => value_span(field, version, found),
        None => None,
    }
}

/// What elements say, if each says something.
fn element_spans(
    alloc: Global,
    field: Field,
    version: IpVersion,
    items: &[Value],
) -> Result<Result<Vec<Span>, Why>, AllocError>
    ensures { IfOk result (λ answer. MatchResult answer (λ spans. element_spans field version (items_view items.now) ≡ Some spans.items)
        (λ why. (why ≡ Why.Values) × (element_spans field version (items_view items.now) ≡ None))) }
{
    let mut spans = Vec::new(alloc);
    for item in items {
        match element_span(field, version, item) {
            Some(span) => spans.push(span)?,
            None => return Ok(Err(Why::Values)),
        }
    }
    Ok(Ok(spans))
}

/// The name of the set, or of the map, that a value names.
pub(crate) fn name_in<'a>(value: &Value<'a>) -> Option<&'a [u8]>
    ensures { option_map (λ name. name.now) result ≡ name_in (value_view value.now) }
{
    match value.as_str() {
        Some(text) => set_name(text.as_bytes()),
        None => None,
    }
}

/// A name behind an at sign.
fn set_name(text: &[u8]) -> Option<&[u8]>
    ensures { option_map (λ name. name.now) result ≡ set_name text.now }
{
    match text {
        [] => None,
        [byte, name @ ..] => {
            if *byte == b'@' {
                return Some(name);
            }
            None
        }
    }
}

/// The body of a set that stands here.
pub(crate) fn set_in<'v, 'a>(value: &'v Value<'a>) -> Option<&'v Value<'a>>
    ensures { option_map (λ found. value_view found.now) result ≡ set_in (sole (value_view value.now)) }
{
    match sole(value) {
        Some(found) => {
            if found.0 == "set" {
                return Some(&found.1);
            }
            None
        }
        None => None,
    }
}

/// What a value that names no set says.
fn plain_spans(
    alloc: Global,
    field: Field,
    version: IpVersion,
    right: &Value,
) -> Result<Result<Vec<Span>, Why>, AllocError>
    ensures { IfOk result (λ answer. MatchResult answer (λ spans. plain_spans field version (value_view right.now) (set_in (sole (value_view right.now))) ≡ Ok spans.items)
        (λ why. plain_spans field version (value_view right.now) (set_in (sole (value_view right.now))) ≡ Err why)) }
{
    match set_in(right) {
        Some(body) => match items_of(body) {
            Some(items) => element_spans(alloc, field, version, items),
            None => Ok(Err(Why::Values)),
        },
        None => single_span(alloc, element_span(field, version, right)),
    }
}

/// One span.
fn single_span(alloc: Global, span: Option<Span>) -> Result<Result<Vec<Span>, Why>, AllocError>
    ensures { IfOk result (λ answer. MatchResult answer (λ spans. single_span span ≡ Ok spans.items) (λ why. single_span span ≡ Err why)) }
{
    match span {
        Some(found) => {
            let mut spans = Vec::new(alloc);
            spans.push(found)?;
            Ok(Ok(spans))
        }
        None => Ok(Err(Why::Values)),
    }
}

/// The spans that the right side of a comparison is. Err: why it isn't said.
pub(crate) fn right_spans(
    alloc: Global,
    asked: &Asked,
    all: &[Value],
    field: Field,
    right: &Value,
) -> Result<Result<Vec<Span>, Why>, AllocError>
    ensures { IfOk result (λ answer. MatchResult answer (λ spans. right_spans asked.now (items_view all.now) field (value_view right.now) ≡ Ok spans.items)
        (λ why. right_spans asked.now (items_view all.now) field (value_view right.now) ≡ Err why)) }
{
    match name_in(right) {
        Some(name) => match elements(asked, "set", name, all) {
            Some(items) => element_spans(alloc, field, asked.version, items),
            None => Ok(Err(Why::Set)),
        },
        None => plain_spans(alloc, field, asked.version, right),
    }
}

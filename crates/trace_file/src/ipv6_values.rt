//! What the values in a line of a trace of IPv6 stand for: a rank has five numbers and an address four, words of 32 bits
//! with the highest first.

ghost use Rattle.std.specs.Prelude.{◌≡◌, ◌<◌, map};
ghost use Rattle.serde_json.specs.View.{view};
ghost use Rattle.trace_file.specs.Ipv6Values.{block_at, change_in, entry_at, entry_in, number_at, part_at, ports_at, proto_at, rank_at, rank_in, rule_at, rule_in, wide_number_at, word_at};
ghost use Rattle.trace_file.specs.Values.{most, values_in};

use crate::values::{
    number_of_8_bits, number_of_16_bits, number_of_32_bits, ports_of, protocol_of,
};
use rule_model::{Entry, Ports, Prefix, Rank, Rule, Word};
use serde_json::Value;

/// The values of an array; another value has none.
fn values_of(value: &Value) -> &[Value]
    ensures { map view result.now ≡ values_in (view value.now) }
{
    match value.as_array() {
        Some(values) => values.as_slice(),
        None => &[],
    }
}

/// The word of 32 bits at a place.
fn part_at(values: &[Value], at: usize) -> Option<u32>
    ensures { result ≡ part_at (map view values.now) at }
{
    number_of_32_bits(values.get(at)?)
}

/// The whole number of 8 bits at a place.
fn byte_at(values: &[Value], at: usize) -> Option<u8>
    ensures { result ≡ number_at (most 8) (map view values.now) at }
{
    number_of_8_bits(values.get(at)?)
}

/// The number of 128 bits of four words from a place on.
fn wide_number_at(values: &[Value], at: usize) -> Option<u128>
    requires { at < 32 }
    ensures { result ≡ wide_number_at (map view values.now) at }
{
    let first = part_at(values, at)?;
    let second = part_at(values, at + 1)?;
    let third = part_at(values, at + 2)?;
    let fourth = part_at(values, at + 3)?;
    let upper = (u128::from(first) << 96) + (u128::from(second) << 64);
    Some(upper + (u128::from(third) << 32) + u128::from(fourth))
}

/// A priority or a tag from a place on: its high part, and the four words of its low part.
fn rank_at(values: &[Value], at: usize) -> Option<Rank>
    requires { at < 31 }
    ensures { result ≡ rank_at (map view values.now) at }
{
    let high = byte_at(values, at)?;
    Some(Rank {
        high,
        low: wide_number_at(values, at + 1)?,
    })
}

/// The prefix of an address from a place on and the length behind it, where no bit past the length is set.
fn prefix_at(values: &[Value], at: usize) -> Option<Prefix>
    requires { at < 32 }
    ensures { result ≡ block_at (map view values.now) at }
{
    let address = wide_number_at(values, at)?;
    Prefix::v6(address, byte_at(values, at + 4)?).ok()
}

/// The protocol at a place, or null for any.
fn protocol_at(values: &[Value], at: usize) -> Option<Option<u8>>
    ensures { result ≡ proto_at (map view values.now) at }
{
    protocol_of(values.get(at)?)
}

/// The ports from the first at a place to the last behind it.
fn ports_at(values: &[Value], at: usize) -> Option<Ports>
    requires { at < 32 }
    ensures { result ≡ ports_at (map view values.now) at }
{
    let first = values.get(at)?;
    ports_of(first, values.get(at + 1)?)
}

/// A rule, of 21 values.
fn rule_at(values: &[Value]) -> Option<Rule>
    ensures { result ≡ rule_at (map view values.now) }
{
    Some(Rule {
        priority: rank_at(values, 0)?,
        src: prefix_at(values, 5)?,
        dst: prefix_at(values, 10)?,
        proto: protocol_at(values, 15)?,
        sport: ports_at(values, 16)?,
        dport: ports_at(values, 18)?,
        result: part_at(values, 20)?,
    })
}

/// A word of eleven lanes from a place on.
fn word_at(values: &[Value], at: usize) -> Option<Word>
    requires { at < 32 }
    ensures { result ≡ word_at (map view values.now) at }
{
    Some(Word {
        lane: [
            part_at(values, at)?,
            part_at(values, at + 1)?,
            part_at(values, at + 2)?,
            part_at(values, at + 3)?,
            part_at(values, at + 4)?,
            part_at(values, at + 5)?,
            part_at(values, at + 6)?,
            part_at(values, at + 7)?,
            part_at(values, at + 8)?,
            part_at(values, at + 9)?,
            part_at(values, at + 10)?,
        ],
    })
}

/// An entry, of 28 values: its value, its mask, its tag and its result.
fn entry_at(values: &[Value]) -> Option<Entry>
    ensures { result ≡ entry_at (map view values.now) }
{
    Some(Entry {
        value: word_at(values, 0)?,
        mask: word_at(values, 11)?,
        tag: rank_at(values, 22)?,
        result: part_at(values, 27)?,
    })
}

/// A priority, of an array's five values.
pub(crate) fn rank6_of(value: &Value) -> Option<Rank>
    ensures { result ≡ rank_in (values_in (view value.now)) }
{
    let values = values_of(value);
    if values.len() == 5 {
        rank_at(values, 0)
    } else {
        None
    }
}

/// A priority and the result that it gets, of an array's six values.
pub(crate) fn change6_of(value: &Value) -> Option<(Rank, u32)>
    ensures { result ≡ change_in (values_in (view value.now)) }
{
    let values = values_of(value);
    if values.len() != 6 {
        return None;
    }
    let rank = rank_at(values, 0)?;
    Some((rank, part_at(values, 5)?))
}

/// A rule, of an array's 21 values.
pub(crate) fn rule6_of(value: &Value) -> Option<Rule>
    ensures { result ≡ rule_in (values_in (view value.now)) }
{
    let values = values_of(value);
    if values.len() == 21 {
        rule_at(values)
    } else {
        None
    }
}

/// An entry, of an array's 28 values.
pub(crate) fn entry6_of(value: &Value) -> Option<Entry>
    ensures { result ≡ entry_in (values_in (view value.now)) }
{
    let values = values_of(value);
    if values.len() == 28 {
        entry_at(values)
    } else {
        None
    }
}

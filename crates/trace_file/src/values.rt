//! What the values in a line stand for: numbers, ranges of ports, and the prefixes, rules and entries of IPv4.

ghost use Rattle.std.specs.Prelude.{◌≡◌};
ghost use Rattle.serde_json.specs.View.{view};
ghost use Rattle.trace_file.specs.Values.{most, number_to, rank_in, block_in, proto_in, ports_in, rule_in, word_in, entry_in, values_in};

use rule_model::{Entry, Ports, Prefix, Rank, Rule, Word};
use serde_json::Value;

/// A whole number of 8 bits.
pub(crate) fn number_of_8_bits(value: &Value) -> Option<u8>
    ensures { result ≡ number_to (most 8) (view value.now) }
{
    u8::try_from(value.as_u64()?).ok()
}

/// A whole number of 16 bits.
pub(crate) fn number_of_16_bits(value: &Value) -> Option<u16>
    ensures { result ≡ number_to (most 16) (view value.now) }
{
    u16::try_from(value.as_u64()?).ok()
}

/// A whole number of 32 bits.
pub(crate) fn number_of_32_bits(value: &Value) -> Option<u32>
    ensures { result ≡ number_to (most 32) (view value.now) }
{
    u32::try_from(value.as_u64()?).ok()
}

/// A whole number of 64 bits.
pub(crate) fn number_of_64_bits(value: &Value) -> Option<u64>
    ensures { result ≡ number_to (most 64) (view value.now) }
{
    value.as_u64()
}

/// A priority or a tag, of one number of 40 bits: the upper 8 are the high part.
pub(crate) fn rank_of(value: &Value) -> Option<Rank>
    ensures { result ≡ rank_in (view value.now) }
{
    let number = value.as_u64()?;
    let high = u8::try_from(number >> 32).ok()?;
    Some(Rank {
        high,
        low: u128::from(number & u64::from(u32::MAX)),
    })
}

/// The prefix of an IPv4 address and a length, where no bit past the length is set.
fn prefix_of(address: &Value, len: &Value) -> Option<Prefix>
    ensures { result ≡ block_in (view address.now) (view len.now) }
{
    Prefix::v4(number_of_32_bits(address)?, number_of_8_bits(len)?).ok()
}

/// A protocol, or null for any.
pub(crate) fn protocol_of(value: &Value) -> Option<Option<u8>>
    ensures { result ≡ proto_in (view value.now) }
{
    if value.is_null() {
        return Some(None);
    }
    Some(Some(number_of_8_bits(value)?))
}

/// The ports from the first to the last.
pub(crate) fn ports_of(first: &Value, last: &Value) -> Option<Ports>
    ensures { result ≡ ports_in (view first.now) (view last.now) }
{
    Ports::new(number_of_16_bits(first)?, number_of_16_bits(last)?)
}

/// A rule, of an array's eleven values.
pub(crate) fn rule_of(value: &Value) -> Option<Rule>
    ensures { result ≡ rule_in (values_in (view value.now)) }
{
    match value.as_array()?.as_slice() {
        [
            rank,
            src,
            src_len,
            dst,
            dst_len,
            proto,
            sport_lo,
            sport_hi,
            dport_lo,
            dport_hi,
            answer,
        ] => {
            Some(Rule {
                priority: rank_of(rank)?,
                src: prefix_of(src, src_len)?,
                dst: prefix_of(dst, dst_len)?,
                proto: protocol_of(proto)?,
                sport: ports_of(sport_lo, sport_hi)?,
                dport: ports_of(dport_lo, dport_hi)?,
                result: number_of_32_bits(answer)?,
            })
        }
        _ => None,
    }
}

/// A word of the five lanes that IPv4 has: the first of each address, ports, protocol and bits.
fn word_of(src: &Value, dst: &Value, ports: &Value, proto: &Value, bits: &Value) -> Option<Word>
    ensures { result ≡ word_in (view src.now) (view dst.now) (view ports.now) (view proto.now) (view bits.now) }
{
    let source = number_of_32_bits(src)?;
    let destination = number_of_32_bits(dst)?;
    Some(Word {
        lane: [
            source,
            0,
            0,
            0,
            destination,
            0,
            0,
            0,
            number_of_32_bits(ports)?,
            number_of_32_bits(proto)?,
            number_of_32_bits(bits)?,
        ],
    })
}

/// An entry, of an array's twelve values: its value, its mask, its tag and its result.
pub(crate) fn entry_of(value: &Value) -> Option<Entry>
    ensures { result ≡ entry_in (values_in (view value.now)) }
{
    match value.as_array()?.as_slice() {
        [
            src,
            dst,
            ports,
            proto,
            bits,
            src_mask,
            dst_mask,
            ports_mask,
            proto_mask,
            bits_mask,
            tag,
            answer,
        ] => {
            Some(Entry {
                value: word_of(src, dst, ports, proto, bits)?,
                mask: word_of(src_mask, dst_mask, ports_mask, proto_mask, bits_mask)?,
                tag: rank_of(tag)?,
                result: number_of_32_bits(answer)?,
            })
        }
        _ => None,
    }
}

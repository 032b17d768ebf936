//! IPv6 addresses and prefixes in groups of hexadecimal digits.

ghost use Rattle.std.specs.Prelude.{◌≡◌, ◌*◌, ◌^◌, ◌<◌, ◌≤◌, None, Some, IfSome, MatchOption, option_and_then};
ghost use Rattle.hex.specs.Hex.{hex_digit_value};
ghost use Rattle.line_words.specs.Kinds.{address_of, block_of};
ghost use Rattle.line_words.specs.Ipv6.{group_value, groups_of, few_groups, at_double_colon, eight_groups, shortened_number, ipv6_number, ipv6_notation};

use crate::WordFault;
use crate::numbers::{number_up_to, split_once};
use rule_model::{Addr, Prefix, PrefixFault};

/// How many groups an address has.
const GROUPS: u32 = 8;

/// Some groups of 16 bits: how many, and the number that they are, the most significant first.
#[derive(Clone, Copy)]
struct Groups {
    count: u32,
    value: u128,
}

/// An IPv6 address, or BadAddress.
pub fn ipv6_address(word: &[u8]) -> Result<Addr, WordFault>
    ensures { result ≡ address_of ipv6_notation word.now }
{
    ipv6_number(word).ok_or(WordFault::BadAddress)
}

/// An IPv6 prefix (RFC 4291, section 2.3): an address, a slash and a length up to 128.
///
/// BadPrefix where the word has another form, and HostBits where it has this form and a bit past the
/// length is set.
pub fn ipv6_prefix(word: &[u8]) -> Result<Prefix, WordFault>
    ensures { result ≡ ipv6_notation.block word.now }
{
    let (address, len) = split_once(word, b'/').ok_or(WordFault::BadPrefix)?;
    let number = ipv6_number(address).ok_or(WordFault::BadPrefix)?;
    let len = number_up_to(128, len).ok_or(WordFault::BadPrefix)?;
    block_of(number, len as u8)
}

/// The block of an IPv6 address and a length, or HostBits where a bit past the length is set.
fn block_of(address: u128, len: u8) -> Result<Prefix, WordFault>
    requires { len ≤ 128 }
    ensures { result ≡ block_of (record { addr = address; len = len }) }
{
    match Prefix::v6(address, len) {
        Ok(prefix) => Ok(prefix),
        Err(PrefixFault::Length) => Err(WordFault::BadPrefix),
        Err(PrefixFault::HostBits) => Err(WordFault::HostBits),
    }
}

/// The 128 bits of an IPv6 address (RFC 4291, section 2.2): eight groups parted by colons, or at most seven where
/// two colons together, once, stand for the missing zero groups. It has no dotted IPv4 part.
fn ipv6_number(word: &[u8]) -> Option<u128>
    ensures { result ≡ ipv6_number word.now }
{
    match double_colon(word) {
        None => whole_number(word),
        Some((front, back)) => shortened_number(front, back),
    }
}

/// What stands before and behind the first two colons that stand together.
fn double_colon(word: &[u8]) -> Option<(&[u8], &[u8])>
    ensures { MatchOption result (at_double_colon word.now ≡ None)
        (λ parts. at_double_colon word.now ≡ Some (parts.0.now, parts.1.now)) }
{
    for place in 0..word.len() {
        if word[place..].starts_with(b"::") {
            return Some((&word[..place], &word[place + 2..]));
        }
    }
    None
}

/// The address whose groups all are written.
fn whole_number(word: &[u8]) -> Option<u128>
    ensures { result ≡ option_and_then eight_groups (groups_of word.now) }
{
    let groups = groups_of(word)?;
    if groups.count == GROUPS {
        Some(groups.value)
    } else {
        None
    }
}

/// The address with zero groups between two parts. The front is shifted twice, since no shift is by all 128 bits.
fn shortened_number(front: &[u8], back: &[u8]) -> Option<u128>
    ensures { result ≡ shortened_number front.now back.now }
{
    let before = groups_of(front)?;
    let behind = groups_of(back)?;
    if before.count + behind.count >= GROUPS {
        return None;
    }
    let upper = before.value << (16 * (7 - before.count)) << 16;
    Some(upper + behind.value)
}

/// Groups parted by colons, no more than an address has. No text is no group.
fn groups_of(text: &[u8]) -> Option<Groups>
    ensures value { result ≡ option_and_then few_groups (groups_of text.now) }
    ensures few { IfSome result (λ groups. groups.count ≤ 8) }
    ensures fits { IfSome result (λ groups. groups.value < 2 ^ (16 * groups.count)) }
{
    if text.is_empty() {
        return Some(Groups { count: 0, value: 0 });
    }
    let mut rest = text;
    let mut value = 0u128;
    for count in 0..GROUPS {
        match split_once(rest, b':') {
            None => {
                let value = value * 65536 + u128::from(group_value(rest)?);
                return Some(Groups {
                    count: count + 1,
                    value,
                });
            }
            Some((group, behind)) => {
                value = value * 65536 + u128::from(group_value(group)?);
                rest = behind;
            }
        }
    }
    None
}

/// The value of a group: one to four hexadecimal digits, in either case.
fn group_value(digits: &[u8]) -> Option<u16>
    ensures value { result ≡ group_value digits.now }
    ensures small { IfSome result (λ value. value < 65536) }
{
    if digits.is_empty() || digits.len() > 4 {
        return None;
    }
    let mut value = 0u32;
    for digit in digits {
        value = value * 16 + u32::from(hex_digit(*digit)?);
    }
    Some(value as u16)
}

/// The value of a hexadecimal digit, in either case.
fn hex_digit(byte: u8) -> Option<u8>
    ensures value { result ≡ hex_digit_value byte }
    ensures small { IfSome result (λ digit. digit < 16) }
{
    match byte {
        b'0'..=b'9' => Some(byte - b'0'),
        b'a'..=b'f' => Some(byte - b'a' + 10),
        b'A'..=b'F' => Some(byte - b'A' + 10),
        _ => None,
    }
}

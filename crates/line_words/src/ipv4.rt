//! IPv4 addresses and prefixes in dotted decimal form.

ghost use Rattle.std.specs.Prelude.{◌≡◌, ◌≤◌, ◌∷◌, None, MatchOption};
ghost use Rattle.rule_model.specs.AddressBlock.{ipv4_block};
ghost use Rattle.line_words.specs.Kinds.{parts_at, ipv4_number, ipv4_notation, address_of, block_of};

use crate::WordFault;
use crate::numbers::{number_of_8_bits, number_up_to, split_once};
use rule_model::{Addr, Prefix, PrefixFault};

/// The 32 bits of an IPv4 address: four numbers up to 255 parted by dots.
fn ipv4_number(word: &[u8]) -> Option<u32>
    ensures { result ≡ ipv4_number word.now }
{
    let (first, second, third, fourth) = four_parts(word)?;
    let first = number_of_8_bits(first)?;
    let second = number_of_8_bits(second)?;
    let third = number_of_8_bits(third)?;
    let fourth = number_of_8_bits(fourth)?;
    Some(u32::from_be_bytes([first, second, third, fourth]))
}

/// The parts of a word between its first three dots, and what stands behind them.
fn four_parts(word: &[u8]) -> Option<(&[u8], &[u8], &[u8], &[u8])>
    ensures { MatchOption result (ipv4_number word.now ≡ None)
        (λ parts. parts_at 46 word.now ≡ parts.0.now ∷ parts.1.now ∷ parts.2.now ∷ parts_at 46 parts.3.now) }
{
    let (first, rest) = split_once(word, b'.')?;
    let (second, rest) = split_once(rest, b'.')?;
    let (third, fourth) = split_once(rest, b'.')?;
    Some((first, second, third, fourth))
}

/// An IPv4 address in the upper 32 bits, or BadAddress.
pub fn ipv4_address(word: &[u8]) -> Result<Addr, WordFault>
    ensures { result ≡ address_of ipv4_notation word.now }
{
    let number = ipv4_number(word).ok_or(WordFault::BadAddress)?;
    Ok(Addr::from(number) << 96)
}

/// An IPv4 prefix (RFC 4632, section 3.1): an address, a slash and a length up to 32.
///
/// BadPrefix where the word has another form, and HostBits where it has this form and a bit past the
/// length is set.
pub fn ipv4_prefix(word: &[u8]) -> Result<Prefix, WordFault>
    ensures { result ≡ ipv4_notation.block word.now }
{
    let (address, len) = split_once(word, b'/').ok_or(WordFault::BadPrefix)?;
    let number = ipv4_number(address).ok_or(WordFault::BadPrefix)?;
    let len = number_up_to(32, len).ok_or(WordFault::BadPrefix)?;
    block_of(number, len as u8)
}

/// The block of an IPv4 address and a length, or HostBits where a bit past the length is set.
fn block_of(address: u32, len: u8) -> Result<Prefix, WordFault>
    requires { len ≤ 32 }
    ensures { result ≡ block_of (ipv4_block address len) }
{
    match Prefix::v4(address, len) {
        Ok(prefix) => Ok(prefix),
        Err(PrefixFault::Length) => Err(WordFault::BadPrefix),
        Err(PrefixFault::HostBits) => Err(WordFault::HostBits),
    }
}

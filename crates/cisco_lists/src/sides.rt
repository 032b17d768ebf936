//! A side of an entry: the addresses of its source or of its destination.

ghost use Rattle.std.specs.Prelude.{◌≡◌, ◌≤◌, IfSome};
ghost use Rattle.line_words.specs.Kinds.{block_of};
ghost use Rattle.cisco_lists.specs.Sides.{checked_block, host_at, masked_at, no_side, side_at, wild_at, wild_length, with_length};
ghost use Rattle.cisco_lists.specs.Walk.{taken};

use crate::cursor::Cursor;
use crate::why::{Why, is_group};
use ip_routes::is_named;
use line_words::{WordFault, address_of, prefix_of};
use rule_model::{Addr, IpVersion, Prefix, PrefixFault};

/// What an address is to be divided by for the number of an IPv4 one, which stands in its upper 32 bits.
const IPV4_UNIT: u128 = 79_228_162_514_264_337_593_543_950_336;

/// The side that the next words are: `any`, `host` and an address, a prefix, or an address and a wildcard mask.
pub(crate) fn side(at: &mut Cursor<'_>) -> Prefix
    ensures { taken result at.new ≡ side_at at.old }
{
    let word = at.next();
    if is_named(word, b"any") {
        return Prefix::any();
    }
    if is_named(word, b"host") {
        return host(at);
    }
    if is_group(word) {
        return refuse(at, Why::Group);
    }
    match prefix_of(word, IpVersion::V4) {
        Ok(block) => block,
        Err(_) => wild(word, at),
    }
}

/// No side, for this reason.
fn refuse(at: &mut Cursor<'_>, why: Why) -> Prefix
    ensures { taken result at.new ≡ no_side why at.old }
{
    at.fail(why);
    Prefix::any()
}

/// One address, the next word.
fn host(at: &mut Cursor<'_>) -> Prefix
    ensures { taken result at.new ≡ host_at at.old }
{
    let word = at.next();
    match address_of(word, IpVersion::V4) {
        Ok(address) => checked(at, address, 32),
        Err(_) => refuse(at, Why::Address),
    }
}

/// The addresses of a block, where none of its bits past the length is set.
fn checked(at: &mut Cursor<'_>, address: Addr, len: u8) -> Prefix
    requires { len ≤ 32 }
    ensures { taken result at.new ≡ checked_block (record { addr = address; len = len }) at.old }
{
    match block_of(address, len) {
        Ok(block) => block,
        Err(_) => refuse(at, Why::Address),
    }
}

/// The block of an address and a length, or HostBits where a bit past the length is set.
fn block_of(address: Addr, len: u8) -> Result<Prefix, WordFault>
    requires { len ≤ 32 }
    ensures { result ≡ block_of (record { addr = address; len = len }) }
{
    match Prefix::v6(address, len) {
        Ok(prefix) => Ok(prefix),
        Err(PrefixFault::Length) => Err(WordFault::BadPrefix),
        Err(PrefixFault::HostBits) => Err(WordFault::HostBits),
    }
}

/// The addresses that this word and the next one, a wildcard mask, stand for.
fn wild(word: &[u8], at: &mut Cursor<'_>) -> Prefix
    ensures { taken result at.new ≡ wild_at word.now at.old }
{
    match address_of(word, IpVersion::V4) {
        Ok(address) => masked(at, address),
        Err(_) => refuse(at, Why::Address),
    }
}

/// Those of this address and the mask that is the next word.
fn masked(at: &mut Cursor<'_>, address: Addr) -> Prefix
    ensures { taken result at.new ≡ masked_at address at.old }
{
    let word = at.next();
    match address_of(word, IpVersion::V4) {
        Ok(wild) => with_length(at, address, wild_length((wild / IPV4_UNIT) as u32)),
        Err(_) => refuse(at, Why::Wildcard),
    }
}

/// Those of this address and length, if there is one.
fn with_length(at: &mut Cursor<'_>, address: Addr, len: Option<u8>) -> Prefix
    requires { IfSome len (λ bits. bits ≤ 32) }
    ensures { taken result at.new ≡ with_length address len at.old }
{
    match len {
        Some(len) => checked(at, address, len),
        None => refuse(at, Why::Wildcard),
    }
}

/// The length of the prefix that a wildcard mask leaves: its ones are its last bits, and no others.
fn wild_length(wild: u32) -> Option<u8>
    ensures length { result ≡ wild_length wild }
    ensures few { IfSome result (λ bits. bits ≤ 32) }
{
    let ones = wild.count_ones();
    if 1u64 << ones == u64::from(wild) + 1 {
        return Some((32 - ones) as u8);
    }
    None
}

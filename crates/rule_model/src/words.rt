//! Search words and the entries of a ternary memory.
//!
//! A word is eleven lanes of 32 bits. An entry has a value and a mask, and hits a word where
//! `(word ^ value) & mask` is 0 in every lane. A search word, an entry's value and its mask are laid
//! out by one function, [`word_of`]: the value of a piece is the word of the first key that it
//! matches, and its mask the word of a key of the bits that it tests.
//!
//! Prefixes are tested by their leading bits. A range of ports is tested in the port lane where it is
//! one block, or else by a bit of its translation table, which holds for each port which ranges have it:
//! such an entry tests that bit alone and no bit of the port.

ghost use Rattle.std.specs.Prelude.{◌≡◌, ℕ, ◌/◌, ◌%◌, ◌^◌, ◌<◌, ◌≤◌, IfSome};
ghost use Rattle.rule_model.specs.PortRange.{IsPortRange};
ghost use Rattle.rule_model.specs.Word as layout;
ghost use Rattle.rule_model.specs.Entry as spec;
ghost use Rattle.rule_model.specs.Entry.{IsEncodable, IsMasked, HitsExactly};

use crate::{Addr, Key, Piece, Ports, Rank};

/// How many lanes a word has.
pub const LANES: usize = 11;

/// Eleven lanes: the source address and the destination address, four each and the most significant
/// first, then the two ports, the protocol, and the two words that the translation tables give.
#[derive(Clone, Copy, Debug, PartialEq, Eq)]
pub struct Word {
    /// The lanes, in this order.
    pub lane: [u32; LANES],
}

/// An entry of the memory. It hits a word that agrees with its value where its mask is set.
#[derive(Clone, Copy, Debug, PartialEq, Eq)]
pub struct Entry {
    /// The bits that a word is to have where the mask is set.
    pub value: Word,
    /// The bits that are tested.
    pub mask: Word,
    /// The priority of its rule.
    pub tag: Rank,
    /// What a packet gets.
    pub result: u32,
}

/// The search word of a key, by the words that the source and the destination table have at its ports.
pub fn word_of(key: &Key, srcbits: u16, dstbits: u16) -> Word
    ensures { result ≡ layout.word_of key.now srcbits dstbits }
{
    let proto = u32::from(key.proto) << 24;
    Word {
        lane: [
            address_lane(key.src, 96),
            address_lane(key.src, 64),
            address_lane(key.src, 32),
            address_lane(key.src, 0),
            address_lane(key.dst, 96),
            address_lane(key.dst, 64),
            address_lane(key.dst, 32),
            address_lane(key.dst, 0),
            pair_lane(key.sport, key.dport),
            proto,
            pair_lane(srcbits, dstbits),
        ],
    }
}

/// The entry that stands for a piece, with its rule's priority as the tag and its rule's result. A range
/// without a bit has to be one block of ports, and a bit is below 16.
pub fn entry_of(piece: &Piece, tag: Rank, answer: u32) -> Entry
    requires { IsEncodable piece.now }
    ensures entry { result ≡ spec.entry_of piece.now tag answer }
    ensures hits { HitsExactly piece.now result }
    ensures masked { IsMasked result.value.lane result.mask.lane }
{
    let value = Key {
        src: piece.src.addr(),
        dst: piece.dst.addr(),
        proto: proto_value(piece.proto),
        sport: port_value(piece.sport, piece.srcbit),
        dport: port_value(piece.dport, piece.dstbit),
    };
    let mask = Key {
        src: leading_ones(piece.src.len()),
        dst: leading_ones(piece.dst.len()),
        proto: proto_mask(piece.proto),
        sport: port_mask(piece.sport, piece.srcbit),
        dport: port_mask(piece.dport, piece.dstbit),
    };
    let srcbits = bit_mask(piece.srcbit);
    let dstbits = bit_mask(piece.dstbit);
    Entry {
        value: word_of(&value, srcbits, dstbits),
        mask: word_of(&mask, srcbits, dstbits),
        tag,
        result: answer,
    }
}

/// Whether the entry hits the word: they agree wherever the entry's mask is set.
pub fn hits(entry: &Entry, word: &Word) -> bool
    ensures { result ≡ spec.hits entry.now word.now }
{
    for i in 0..LANES {
        if (word.lane[i] ^ entry.value.lane[i]) & entry.mask.lane[i] != 0 {
            return false;
        }
    }
    true
}

/// The lane of an address that begins `shift` bits above its lowest bit.
fn address_lane(address: Addr, shift: u32) -> u32
    requires { shift ≤ 96 }
    ensures { result ≡ address / 2 ^ shift % 2 ^ 32 }
{
    ((address >> shift) & u128::from(u32::MAX)) as u32
}

/// Two numbers of 16 bits in one lane.
fn pair_lane(upper: u16, lower: u16) -> u32
    ensures { result ≡ layout.pair_lane upper lower }
{
    (u32::from(upper) << 16) | u32::from(lower)
}

/// The mask of an address block of this length: as many leading ones.
fn leading_ones(len: u8) -> Addr
    requires { len ≤ 128 }
    ensures { result ≡ spec.leading_ones len }
{
    if len == 0 {
        return 0;
    }
    Addr::MAX << (128 - len)
}

/// The protocol, or 0 where any protocol will do.
fn proto_value(proto: Option<u8>) -> u8
    ensures value { result ≡ spec.proto_value proto }
    ensures fits { IfSome proto (λ number. number < 2 ^ 8) }
{
    match proto {
        None => 0,
        Some(number) => number,
    }
}

/// All eight bits of a protocol, or none where any protocol will do.
fn proto_mask(proto: Option<u8>) -> u8
    ensures { result ≡ spec.proto_mask proto }
{
    match proto {
        None => 0,
        Some(_) => u8::MAX,
    }
}

/// The first port of a range, or 0 where the range is tested by a bit.
fn port_value(ports: Ports, bit: Option<u8>) -> u16
    ensures { result ≡ spec.port_value ports bit }
{
    match bit {
        None => ports.lo(),
        Some(_) => 0,
    }
}

/// The bits that the ports of a block share, or none where the range is tested by a bit.
fn port_mask(ports: Ports, bit: Option<u8>) -> u16
    ensures mask { result ≡ spec.port_mask ports bit }
    ensures range { IsPortRange ports }
{
    let within = ports.hi() - ports.lo();
    match bit {
        None => u16::MAX - within,
        Some(_) => 0,
    }
}

/// The bit of a table's word by which a range is tested, if it has one.
fn bit_mask(bit: Option<u8>) -> u16
    requires { IfSome bit (λ number. number < 16) }
    ensures { result ≡ spec.bit_mask bit }
{
    match bit {
        None => 0,
        Some(number) => 1 << number,
    }
}

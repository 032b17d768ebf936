//! The kinds of words that are no addresses, and packet keys.

ghost use Rattle.std.specs.Prelude.{◌≡◌, ◌≤◌, ◌∷◌, length};
ghost use Rattle.line_words.specs.Kinds.{result_of, sequence_of, count_of, action_of, named_action, proto_of, proto_choice, port_of, parts_at, port_parts, ports_of, key_of, frame_key};
ghost use Rattle.line_words.specs.Notations.{notation_for};

use crate::WordFault;
use crate::addresses::address_of;
use crate::numbers::{number_of_8_bits, number_of_16_bits, number_up_to, split_once};
use crate::words::Words;
use packet_keys::{FrameFault, key_of_frame, key6_of_frame};
use rule_model::{IpVersion, Key, Ports};
use script_lines::LINE_BYTES;

/// The most bytes that a frame of one line has.
const FRAME_BYTES: usize = LINE_BYTES / 2;

/// A route's result: a number of 32 bits, or BadResult.
pub fn result_of(word: &[u8]) -> Result<u32, WordFault>
    ensures { result ≡ result_of word.now }
{
    number_up_to(u32::MAX, word).ok_or(WordFault::BadResult)
}

/// The sequence number of a rule of an access list: a number of 32 bits that isn't 0, or BadSequence.
pub fn sequence_of(word: &[u8]) -> Result<u32, WordFault>
    ensures { result ≡ sequence_of word.now }
{
    match number_up_to(u32::MAX, word) {
        None | Some(0) => Err(WordFault::BadSequence),
        Some(number) => Ok(number),
    }
}

/// A number of writes: of 32 bits, or BadCount.
pub fn count_of(word: &[u8]) -> Result<u32, WordFault>
    ensures { result ≡ count_of word.now }
{
    number_up_to(u32::MAX, word).ok_or(WordFault::BadCount)
}

/// The result of a rule of an access list: 1 for `permit`, 0 for `deny`, and the number of 32 bits behind `=`, or
/// BadAction.
pub fn action_of(word: &[u8]) -> Result<u32, WordFault>
    ensures { result ≡ action_of word.now }
{
    match word {
        [b'=', number @ ..] => number_up_to(u32::MAX, number).ok_or(WordFault::BadAction),
        _ => named_action(word),
    }
}

/// 1 for `permit` and 0 for `deny`, or BadAction.
fn named_action(word: &[u8]) -> Result<u32, WordFault>
    ensures { result ≡ named_action word.now }
{
    match word {
        b"permit" => Ok(1),
        b"deny" => Ok(0),
        _ => Err(WordFault::BadAction),
    }
}

/// A protocol by its name, as `icmp`, `tcp` and `udp`, or by its number of 8 bits, or BadProtocol.
pub fn protocol_of(word: &[u8]) -> Result<u8, WordFault>
    ensures { result ≡ proto_of word.now }
{
    match word {
        b"icmp" => Ok(1),
        b"tcp" => Ok(6),
        b"udp" => Ok(17),
        _ => number_of_8_bits(word).ok_or(WordFault::BadProtocol),
    }
}

/// No protocol for `any`, or one by its name or its number, or BadProtocol.
pub fn protocol_choice(word: &[u8]) -> Result<Option<u8>, WordFault>
    ensures { result ≡ proto_choice word.now }
{
    match word {
        b"any" => Ok(None),
        _ => Ok(Some(protocol_of(word)?)),
    }
}

/// A port, a number of 16 bits, or BadPorts.
pub fn port_of(word: &[u8]) -> Result<u16, WordFault>
    ensures { result ≡ port_of word.now }
{
    number_of_16_bits(word).ok_or(WordFault::BadPorts)
}

/// Every port for `any`, one port, or two ports with a dash between, the first not above the second, or
/// BadPorts.
pub fn ports_of(word: &[u8]) -> Result<Ports, WordFault>
    ensures { result ≡ ports_of word.now }
{
    match word {
        b"any" => Ok(Ports::any()),
        _ => port_or_range(word),
    }
}

/// One port, or two with a dash between.
fn port_or_range(word: &[u8]) -> Result<Ports, WordFault>
    ensures { result ≡ port_parts (parts_at 45 word.now) }
{
    match split_once(word, b'-') {
        None => port_range(word, word),
        Some((first, last)) => port_range(first, last),
    }
}

/// The ports from the first to the last, or BadPorts where the first is above the last.
fn port_range(first: &[u8], last: &[u8]) -> Result<Ports, WordFault>
    ensures { result ≡ port_parts (first.now ∷ parts_at 45 last.now) }
{
    let lo = port_of(first)?;
    let hi = port_of(last)?;
    Ports::new(lo, hi).ok_or(WordFault::BadPorts)
}

/// The key that five words are: source, destination, protocol, source port and destination port. The addresses are
/// in the notation of a version of IP.
///
/// WordCount where there are more or fewer words, and else the fault of the leftmost bad one.
pub fn key_of(mut words: Words<'_>, version: IpVersion) -> Result<Key, WordFault>
    ensures { result ≡ key_of (notation_for version) words.entry }
{
    let src = words.required()?;
    let dst = words.required()?;
    let proto = words.required()?;
    let sport = words.required()?;
    let dport = words.required()?;
    words.end()?;
    Ok(Key {
        src: address_of(src, version)?,
        dst: address_of(dst, version)?,
        proto: protocol_of(proto)?,
        sport: port_of(sport)?,
        dport: port_of(dport)?,
    })
}

/// The key of the frame of a version of IP that a word has as pairs of hexadecimal digits, in either case.
///
/// BadHex where the word is no such pairs, and else the frame's own fault.
pub fn frame_key(word: &[u8], version: IpVersion) -> Result<Key, WordFault>
    requires { length word.now ≤ LINE_BYTES }
    ensures { result ≡ frame_key (notation_for version) word.now }
{
    let mut room = [0u8; FRAME_BYTES];
    let frame = &mut room[..word.len() / 2];
    hex::decode_to_slice(word, frame).map_err(|_| WordFault::BadHex)?;
    key_in(frame, version).map_err(WordFault::Frame)
}

/// The key of a frame of a version of IP.
fn key_in(frame: &[u8], version: IpVersion) -> Result<Key, FrameFault>
    ensures { result ≡ (notation_for version).frame frame.now }
{
    match version {
        IpVersion::V4 => key_of_frame(frame),
        IpVersion::V6 => key6_of_frame(frame),
    }
}

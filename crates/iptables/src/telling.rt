//! What is written of a line, and of a list.

ghost use Rattle.std.specs.Prelude.{◌≡◌, ◌≤◌, ◌<◌, ◌^◌, ◌++◌, ◌∷◌, IfOk, OnOk, decimal, take, length};
ghost use Rattle.written_chains.specs.Walks.{or_policy};
ghost use Rattle.kept_numbers.specs.Written.{numbered_line, numbered_text};
ghost use Rattle.iptables.specs.Telling.{action_text, address_text, anew_note, dotted, empty_line, line_words, list_text, list_words, note_line, ports_text, proto_text, side_text, table_line, unsaid_text};

use crate::why::Why;
use itoa::Buffer;
use kept_numbers::{OlderLine, Words, numbers_for};
use line_words::Ipv6Text;
use rule_model::{Addr, IpVersion, Ports, Prefix};
use std::alloc::{AllocError, Global};
use written_chains::{Line, Tests};

/// The most bytes of a word that a comment names.
const WORD_BYTES: usize = 64;

/// The most lines of a list, but its last one: a batch of a script has room for 4,096 changes.
pub const MOST_LINES: usize = 4095;

/// Puts bytes there.
fn put_bytes(into: &mut Vec<u8>, bytes: &[u8]) -> Result<(), AllocError>
    ensures { OnOk result (into.new.items ≡ into.old.items ++ bytes.now) }
{
    into.extend_from_slice(bytes)?;
    Ok(())
}

/// Puts a number there, in decimal.
fn put_number(into: &mut Vec<u8>, number: u64) -> Result<(), AllocError>
    ensures { OnOk result (into.new.items ≡ into.old.items ++ decimal number) }
{
    let mut digits = Buffer::new();
    into.extend_from_slice(digits.format(number).as_bytes())?;
    Ok(())
}

/// The front of a word, as long as a comment names it.
fn shortened(word: &[u8]) -> &[u8]
    ensures { result.now ≡ take 64 word.now }
{
    if word.len() <= WORD_BYTES {
        return word;
    }
    &word[..WORD_BYTES]
}

/// Puts there why a line isn't said, and the word, which is cut off where it is long.
pub(crate) fn put_why(into: &mut Vec<u8>, why: Why, word: &[u8]) -> Result<(), AllocError>
    ensures { OnOk result (into.new.items ≡ into.old.items ++ unsaid_text why word.now) }
{
    put_bytes(into, why.text().as_bytes())?;
    put_bytes(into, b": ")?;
    put_bytes(into, shortened(word))?;
    Ok(())
}

/// Puts the comment there on a rule that decides nothing.
pub(crate) fn put_note(into: &mut Vec<u8>, text: &[u8]) -> Result<(), AllocError>
    ensures { OnOk result (into.new.items ≡ into.old.items ++ note_line text.now) }
{
    put_bytes(into, b"# no verdict: ")?;
    put_bytes(into, text)?;
    put_bytes(into, b"\n")?;
    Ok(())
}

/// Puts the comment there on a rule that holds no packet.
pub(crate) fn put_empty(into: &mut Vec<u8>, text: &[u8]) -> Result<(), AllocError>
    ensures { OnOk result (into.new.items ≡ into.old.items ++ empty_line text.now) }
{
    put_bytes(into, b"# no packet: ")?;
    put_bytes(into, text)?;
    put_bytes(into, b"\n")?;
    Ok(())
}

/// Puts the comment there on another table.
pub(crate) fn put_table(into: &mut Vec<u8>, text: &[u8]) -> Result<(), AllocError>
    ensures { OnOk result (into.new.items ≡ into.old.items ++ table_line text.now) }
{
    put_bytes(into, b"# another table: ")?;
    put_bytes(into, text)?;
    put_bytes(into, b"\n")?;
    Ok(())
}

/// Puts the lines of a list there, and the last one, which gives each packet the policy. A line has the number of the older
/// line of the same words, or one between those of its neighbours; without older lines they are numbered by tens.
pub fn put_list(
    alloc: Global,
    into: &mut Vec<u8>,
    version: IpVersion,
    policy: bool,
    lines: &[Line],
    last: &Tests,
    older: &[OlderLine],
) -> Result<(), AllocError>
    requires { length lines.now ≤ MOST_LINES }
    ensures { OnOk result (into.new.items ≡ into.old.items ++ list_text version policy last.now older.now lines.now) }
{
    let words = list_words(alloc, version, policy, lines, last)?;
    let all = numbers_for(alloc, older, words.as_slice())?;
    put_bytes(into, anew_note(all.anew).as_bytes())?;
    put_numbered(into, all.numbers.as_slice(), words.as_slice())?;
    Ok(())
}

/// The comment on a list of which all lines are numbered anew.
fn anew_note(anew: bool) -> &'static str
    ensures { result.now ≡ anew_note anew }
{
    if anew {
        "# numbered anew: no number is left between\n"
    } else {
        ""
    }
}

/// The words of the lines of a list, and of the last one.
fn list_words(
    alloc: Global,
    version: IpVersion,
    policy: bool,
    lines: &[Line],
    last: &Tests,
) -> Result<Vec<Words>, AllocError>
    requires { length lines.now ≤ MOST_LINES }
    ensures words { IfOk result (λ words. words.items ≡ list_words version policy last.now lines.now) }
    ensures few { IfOk result (λ words. length words.items ≤ 4096) }
{
    let mut words = Vec::new(alloc);
    for line in lines {
        let permits = line.action.unwrap_or(policy);
        words.push(line_words(alloc, version, permits, &line.tests)?)?;
    }
    words.push(line_words(alloc, version, policy, last)?)?;
    Ok(words)
}

/// The words of a line, with the blank before them.
fn line_words(
    alloc: Global,
    version: IpVersion,
    permits: bool,
    tests: &Tests,
) -> Result<Words, AllocError>
    ensures { IfOk result (λ words. words ≡ line_words version permits tests.now) }
{
    let mut bytes = Vec::new(alloc);
    put_words(&mut bytes, version, permits, tests)?;
    Ok(Words::new(bytes))
}

/// Puts commands there that add lines of these numbers.
fn put_numbered(into: &mut Vec<u8>, numbers: &[u64], words: &[Words]) -> Result<(), AllocError>
    ensures { OnOk result (into.new.items ≡ into.old.items ++ numbered_text numbers.now words.now) }
{
    for place in 0..numbers.len() {
        if place >= words.len() {
            return Ok(());
        }
        put_line(into, numbers[place], &words[place])?;
    }
    Ok(())
}

/// Puts the command there that adds a line.
fn put_line(into: &mut Vec<u8>, number: u64, words: &Words) -> Result<(), AllocError>
    ensures { OnOk result (into.new.items ≡ into.old.items ++ numbered_line number words.now) }
{
    put_bytes(into, b"acl add ")?;
    put_number(into, number)?;
    put_bytes(into, words.as_bytes())?;
    put_bytes(into, b"\n")?;
    Ok(())
}

/// Puts the words of a line there.
fn put_words(
    into: &mut Vec<u8>,
    version: IpVersion,
    permits: bool,
    tests: &Tests,
) -> Result<(), AllocError>
    ensures { OnOk result (into.new.items ≡ into.old.items ++ line_words version permits tests.now) }
{
    put_bytes(into, action_text(permits).as_bytes())?;
    put_side(into, version, &tests.src)?;
    put_bytes(into, b" ")?;
    put_side(into, version, &tests.dst)?;
    put_bytes(into, b" ")?;
    put_proto(into, tests.proto)?;
    put_bytes(into, b" ")?;
    put_ports(into, &tests.sport)?;
    put_bytes(into, b" ")?;
    put_ports(into, &tests.dport)?;
    Ok(())
}

/// The word of a verdict, between spaces.
fn action_text(permits: bool) -> &'static str
    ensures { result.now ≡ action_text permits }
{
    if permits { " permit " } else { " deny " }
}

/// Puts a block of addresses there.
fn put_side(into: &mut Vec<u8>, version: IpVersion, side: &Prefix) -> Result<(), AllocError>
    ensures { OnOk result (into.new.items ≡ into.old.items ++ side_text version side.now) }
{
    if side.len() == 0 {
        return put_bytes(into, b"any");
    }
    put_address(into, version, side.addr())?;
    put_bytes(into, b"/")?;
    put_number(into, u64::from(side.len()))?;
    Ok(())
}

/// Puts an address there.
fn put_address(into: &mut Vec<u8>, version: IpVersion, address: Addr) -> Result<(), AllocError>
    ensures { OnOk result (into.new.items ≡ into.old.items ++ address_text version address) }
{
    match version {
        IpVersion::V4 => put_dotted(into, address),
        IpVersion::V6 => put_bytes(into, Ipv6Text::new(address).as_str().as_bytes()),
    }
}

/// Puts an address of IPv4 there, which stands in the upper 32 bits.
fn put_dotted(into: &mut Vec<u8>, address: Addr) -> Result<(), AllocError>
    ensures { OnOk result (into.new.items ≡ into.old.items ++ dotted address) }
{
    put_number(into, ((address >> 120) % 256) as u64)?;
    put_bytes(into, b".")?;
    put_number(into, ((address >> 112) % 256) as u64)?;
    put_bytes(into, b".")?;
    put_number(into, ((address >> 104) % 256) as u64)?;
    put_bytes(into, b".")?;
    put_number(into, ((address >> 96) % 256) as u64)?;
    Ok(())
}

/// Puts a protocol there.
fn put_proto(into: &mut Vec<u8>, proto: Option<u8>) -> Result<(), AllocError>
    ensures { OnOk result (into.new.items ≡ into.old.items ++ proto_text proto) }
{
    match proto {
        None => put_bytes(into, b"any"),
        Some(1) => put_bytes(into, b"icmp"),
        Some(6) => put_bytes(into, b"tcp"),
        Some(17) => put_bytes(into, b"udp"),
        Some(number) => put_number(into, u64::from(number)),
    }
}

/// Puts a range of ports there.
fn put_ports(into: &mut Vec<u8>, ports: &Ports) -> Result<(), AllocError>
    ensures { OnOk result (into.new.items ≡ into.old.items ++ ports_text ports.now) }
{
    if ports.lo() == 0 && ports.hi() == 65535 {
        return put_bytes(into, b"any");
    }
    if ports.lo() == ports.hi() {
        return put_number(into, u64::from(ports.lo()));
    }
    put_number(into, u64::from(ports.lo()))?;
    put_bytes(into, b"-")?;
    put_number(into, u64::from(ports.hi()))?;
    Ok(())
}

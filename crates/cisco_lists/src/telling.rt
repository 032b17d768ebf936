//! What is written of an entry, of another list, and of a line that isn't said.

ghost use Rattle.std.specs.Prelude.{◌≡◌, ◌≤◌, ◌+◌, ◌%◌, ◌++◌, IfOk, OnOk, codes, decimal, length, take};
ghost use Rattle.cisco_lists.specs.Telling.{action_text, dotted_text, dport_lines, entry_text, last_text, length_text, log_text, named_line, protocol_text, remark_text, rule_line, side_text, span_text, sport_lines, unsaid_text};

use crate::entry::Entry;
use crate::ports::Span;
use crate::why::Why;
use ip_routes::shortened;
use itoa::Buffer;
use rule_model::Prefix;
use std::alloc::AllocError;

/// What an address is to be divided by for the number of an IPv4 one, which stands in its upper 32 bits.
const IPV4_UNIT: u128 = 79_228_162_514_264_337_593_543_950_336;

/// The most bytes of a remark's line that a comment has: with its mark a comment fits a line of a script.
const REMARK_BYTES: usize = 500;

/// Puts bytes there.
pub(crate) fn put_bytes(into: &mut Vec<u8>, bytes: &[u8]) -> Result<(), AllocError>
    ensures { OnOk result (into.new.items ≡ into.old.items ++ bytes.now) }
{
    into.extend_from_slice(bytes)?;
    Ok(())
}

/// Puts a number there, in decimal.
fn put_number(into: &mut Vec<u8>, number: u64) -> Result<(), AllocError>
    ensures { OnOk result (into.new.items ≡ into.old.items ++ decimal number) }
{
    let mut digits = Buffer::new();
    into.extend_from_slice(digits.format(number).as_bytes())?;
    Ok(())
}

/// The same, of a number that may have more than 64 bits.
fn put_long_number(into: &mut Vec<u8>, number: u128) -> Result<(), AllocError>
    ensures { OnOk result (into.new.items ≡ into.old.items ++ decimal number) }
{
    let mut digits = Buffer::new();
    into.extend_from_slice(digits.format(number).as_bytes())?;
    Ok(())
}

/// Puts there why a line isn't said, and the word, which is cut off where it is long.
pub(crate) fn put_why(into: &mut Vec<u8>, why: Why, word: &[u8]) -> Result<(), AllocError>
    ensures { OnOk result (into.new.items ≡ into.old.items ++ unsaid_text why word.now) }
{
    put_bytes(into, why.text().as_bytes())?;
    put_bytes(into, b": ")?;
    put_bytes(into, shortened(word))?;
    Ok(())
}

/// Puts a comment there that names a list.
pub(crate) fn put_named(into: &mut Vec<u8>, front: &[u8], name: &[u8]) -> Result<(), AllocError>
    ensures { OnOk result (into.new.items ≡ into.old.items ++ named_line front.now name.now) }
{
    put_bytes(into, front)?;
    put_bytes(into, shortened(name))?;
    put_bytes(into, b"\n")?;
    Ok(())
}

/// Puts the comment there that the line of a remark is.
pub(crate) fn put_remark(into: &mut Vec<u8>, text: &[u8]) -> Result<(), AllocError>
    ensures { OnOk result (into.new.items ≡ into.old.items ++ remark_text text.now) }
{
    put_bytes(into, b"# ")?;
    put_bytes(into, remark_front(text))?;
    put_bytes(into, b"\n")?;
    Ok(())
}

/// The front of the line of a remark.
fn remark_front(text: &[u8]) -> &[u8]
    ensures { result.now ≡ take 500 text.now }
{
    if text.len() <= REMARK_BYTES {
        return text;
    }
    &text[..REMARK_BYTES]
}

/// Puts the lines of an entry there, from this number on.
pub(crate) fn put_entry(into: &mut Vec<u8>, number: u64, entry: &Entry) -> Result<(), AllocError>
    requires { number ≤ 4294967296 }
    ensures { OnOk result (into.new.items ≡ into.old.items ++ entry_text number entry.now) }
{
    put_log(into, entry.is_logged())?;
    put_sports(into, number, entry, entry.source_ports())?;
    Ok(())
}

/// Puts the comment there on an entry whose packets are logged.
fn put_log(into: &mut Vec<u8>, logs: bool) -> Result<(), AllocError>
    ensures { OnOk result (into.new.items ≡ into.old.items ++ log_text logs) }
{
    if logs {
        return put_bytes(into, b"# logged\n");
    }
    Ok(())
}

/// Puts the lines of these source ports there, which are no more than ten.
fn put_sports(
    into: &mut Vec<u8>,
    number: u64,
    entry: &Entry,
    sports: &[Span],
) -> Result<(), AllocError>
    requires small { number ≤ 4294967296 }
    requires few { length sports.now ≤ 10 }
    ensures { OnOk result (into.new.items ≡ into.old.items ++ sport_lines entry.now number sports.now) }
{
    let dports = entry.destination_ports();
    let mut next = number;
    for sport in sports {
        next = put_dports(into, next, entry, *sport, dports)?;
    }
    Ok(())
}

/// Puts the lines of a range of source ports and these destination ports there. The answer is the next number.
fn put_dports(
    into: &mut Vec<u8>,
    number: u64,
    entry: &Entry,
    sport: Span,
    dports: &[Span],
) -> Result<u64, AllocError>
    requires small { number ≤ 4294968296 }
    requires few { length dports.now ≤ 10 }
    ensures lines { OnOk result (into.new.items ≡ into.old.items ++ dport_lines entry.now sport number dports.now) }
    ensures next { IfOk result (λ next. next ≡ number + length dports.now) }
{
    let mut next = number;
    for dport in dports {
        put_rule(into, next, entry, sport, *dport)?;
        next += 1;
    }
    Ok(next)
}

/// Puts the line of a pair of ports there.
fn put_rule(
    into: &mut Vec<u8>,
    number: u64,
    entry: &Entry,
    sport: Span,
    dport: Span,
) -> Result<(), AllocError>
    ensures { OnOk result (into.new.items ≡ into.old.items ++ rule_line entry.now sport dport number) }
{
    put_bytes(into, b"acl add ")?;
    put_number(into, number)?;
    put_bytes(into, action(entry.permits).as_bytes())?;
    put_side(into, &entry.src)?;
    put_side(into, &entry.dst)?;
    put_protocol(into, entry.protocol)?;
    put_span(into, sport)?;
    put_span(into, dport)?;
    put_bytes(into, b"\n")?;
    Ok(())
}

/// The word of an action, behind a space.
fn action(permits: bool) -> &'static str
    ensures { result.now ≡ action_text permits }
{
    if permits { " permit" } else { " deny" }
}

/// Puts a side there, behind a space.
fn put_side(into: &mut Vec<u8>, side: &Prefix) -> Result<(), AllocError>
    ensures { OnOk result (into.new.items ≡ into.old.items ++ side_text side.now) }
{
    if side.len() == 0 {
        return put_bytes(into, b" any");
    }
    put_bytes(into, b" ")?;
    put_dotted(into, side.addr() / IPV4_UNIT)?;
    put_length(into, side.len())?;
    Ok(())
}

/// Puts the length of a prefix there, behind a slash.
fn put_length(into: &mut Vec<u8>, len: u8) -> Result<(), AllocError>
    ensures { OnOk result (into.new.items ≡ into.old.items ++ length_text len) }
{
    put_bytes(into, b"/")?;
    put_number(into, u64::from(len))?;
    Ok(())
}

/// An IPv4 address in dotted decimal.
fn put_dotted(into: &mut Vec<u8>, address: u128) -> Result<(), AllocError>
    ensures { OnOk result (into.new.items ≡ into.old.items ++ dotted_text address) }
{
    put_part(into, address / 16_777_216)?;
    put_part(into, address / 65_536)?;
    put_part(into, address / 256)?;
    put_long_number(into, address % 256)?;
    Ok(())
}

/// The last eight bits of a number, and a dot.
fn put_part(into: &mut Vec<u8>, part: u128) -> Result<(), AllocError>
    ensures { OnOk result (into.new.items ≡ into.old.items ++ (decimal (part % 256) ++ codes ".")) }
{
    put_long_number(into, part % 256)?;
    put_bytes(into, b".")?;
    Ok(())
}

/// Puts a protocol there, behind a space.
fn put_protocol(into: &mut Vec<u8>, protocol: Option<u8>) -> Result<(), AllocError>
    ensures { OnOk result (into.new.items ≡ into.old.items ++ protocol_text protocol) }
{
    match protocol {
        None => put_bytes(into, b" any"),
        Some(1) => put_bytes(into, b" icmp"),
        Some(6) => put_bytes(into, b" tcp"),
        Some(17) => put_bytes(into, b" udp"),
        Some(number) => put_spaced(into, u64::from(number)),
    }
}

/// Puts a number there, behind a space.
fn put_spaced(into: &mut Vec<u8>, number: u64) -> Result<(), AllocError>
    ensures { OnOk result (into.new.items ≡ into.old.items ++ (codes " " ++ decimal number)) }
{
    put_bytes(into, b" ")?;
    put_number(into, number)?;
    Ok(())
}

/// Puts ports there, behind a space.
fn put_span(into: &mut Vec<u8>, span: Span) -> Result<(), AllocError>
    ensures { OnOk result (into.new.items ≡ into.old.items ++ span_text span) }
{
    if span.first == 0 && span.last == 65535 {
        return put_bytes(into, b" any");
    }
    put_spaced(into, u64::from(span.first))?;
    put_last(into, span)?;
    Ok(())
}

/// Puts the last of some ports there, behind a dash, where it isn't the first one too.
fn put_last(into: &mut Vec<u8>, span: Span) -> Result<(), AllocError>
    ensures { OnOk result (into.new.items ≡ into.old.items ++ last_text span) }
{
    if span.first == span.last {
        return Ok(());
    }
    put_bytes(into, b"-")?;
    put_number(into, u64::from(span.last))?;
    Ok(())
}

//! The line that is printed of a judgement.

ghost use Rattle.std.specs.Prelude.{◌≡◌, ◌++◌, OnOk, codes, decimal};
ghost use Rattle.import_lines.specs.Import.{stop_line};
ghost use Rattle.judge_cli.specs.Lines.{address_text, answer_text, answers_text, dotted_text, found_text, key_text, leak_line, told_text, yes_line};

use driver_trace::Leak;
use driver_verify::DriverVerdict;
use itoa::Buffer;
use line_words::Ipv6Text;
use rule_model::{Addr, IpVersion, Key, Rank};
use std::alloc::AllocError;

/// What an address is to be divided by for the number of an IPv4 one, which stands in its upper 32 bits.
const IPV4_UNIT: u128 = 79_228_162_514_264_337_593_543_950_336;

/// Puts the line there that tells of a judgement; nothing, where the source failed or memory was wanting.
pub(crate) fn put_told(into: &mut Vec<u8>, verdict: &DriverVerdict) -> Result<(), AllocError>
    ensures { OnOk result (into.new.items ≡ into.old.items ++ told_text verdict.now) }
{
    match verdict {
        DriverVerdict::Yes { commits, writes } => put_yes(into, *commits, *writes),
        DriverVerdict::No {
            line,
            version,
            leak,
        } => put_leak(into, *line, *version, leak),
        DriverVerdict::NotJudged { line } => put_fault(into, *line, b"not judged"),
        DriverVerdict::Bad { line } => put_fault(into, *line, b"bad trace"),
        DriverVerdict::TooLong { line } => put_fault(into, *line, b"line too long"),
        DriverVerdict::BadByte { line } => put_fault(into, *line, b"bad byte"),
        DriverVerdict::Read => put_bytes(into, b""),
        DriverVerdict::Memory => put_bytes(into, b""),
    }
}

/// The line of a trace that is hitless.
fn put_yes(into: &mut Vec<u8>, commits: u64, writes: u64) -> Result<(), AllocError>
    ensures { OnOk result (into.new.items ≡ into.old.items ++ yes_line commits writes) }
{
    put_bytes(into, b"yes commits ")?;
    put_number(into, commits)?;
    put_bytes(into, b" writes ")?;
    put_number(into, writes)?;
    put_bytes(into, b"\n")?;
    Ok(())
}

/// The line that names a line of the trace, and why the judgement ends there.
fn put_fault(into: &mut Vec<u8>, line: u64, why: &[u8]) -> Result<(), AllocError>
    ensures { OnOk result (into.new.items ≡ into.old.items ++ stop_line line why.now) }
{
    put_bytes(into, b"line ")?;
    put_number(into, line)?;
    put_bytes(into, b" ")?;
    put_bytes(into, why)?;
    put_bytes(into, b"\n")?;
    Ok(())
}

/// The line that names a leak, and where it is.
fn put_leak(
    into: &mut Vec<u8>,
    line: u64,
    version: IpVersion,
    leak: &Leak,
) -> Result<(), AllocError>
    ensures { OnOk result (into.new.items ≡ into.old.items ++ leak_line version line leak.now) }
{
    put_bytes(into, b"no line ")?;
    put_number(into, line)?;
    put_bytes(into, b" packet ")?;
    put_key(into, version, &leak.key)?;
    put_answers(into, leak)?;
    Ok(())
}

/// A key: both addresses, the protocol and both ports.
fn put_key(into: &mut Vec<u8>, version: IpVersion, key: &Key) -> Result<(), AllocError>
    ensures { OnOk result (into.new.items ≡ into.old.items ++ key_text version key.now) }
{
    put_address(into, version, key.src)?;
    put_bytes(into, b" ")?;
    put_address(into, version, key.dst)?;
    put_more(into, u64::from(key.proto))?;
    put_more(into, u64::from(key.sport))?;
    put_more(into, u64::from(key.dport))?;
    Ok(())
}

/// An address of this version of IP.
fn put_address(into: &mut Vec<u8>, version: IpVersion, address: Addr) -> Result<(), AllocError>
    ensures { OnOk result (into.new.items ≡ into.old.items ++ address_text version address) }
{
    match version {
        IpVersion::V4 => put_dotted(into, address / IPV4_UNIT),
        IpVersion::V6 => {
            let text = Ipv6Text::new(address);
            put_bytes(into, text.as_str().as_bytes())
        }
    }
}

/// An IPv4 address in dotted decimal.
fn put_dotted(into: &mut Vec<u8>, address: u128) -> Result<(), AllocError>
    ensures { OnOk result (into.new.items ≡ into.old.items ++ dotted_text address) }
{
    put_part(into, address / 16_777_216)?;
    put_part(into, address / 65_536 % 256)?;
    put_part(into, address / 256 % 256)?;
    put_long_number(into, address % 256)?;
    Ok(())
}

/// A part of it, and the dot behind it.
fn put_part(into: &mut Vec<u8>, part: u128) -> Result<(), AllocError>
    ensures { OnOk result (into.new.items ≡ into.old.items ++ (decimal part ++ codes ".")) }
{
    put_long_number(into, part)?;
    put_bytes(into, b".")?;
    Ok(())
}

/// What a packet gets, and what it might have got.
fn put_answers(into: &mut Vec<u8>, leak: &Leak) -> Result<(), AllocError>
    ensures { OnOk result (into.new.items ≡ into.old.items ++ answers_text leak.now) }
{
    put_named(into, b" gets ", leak.gets)?;
    put_named(into, b", old ", leak.old)?;
    put_named(into, b", new ", leak.new)?;
    put_bytes(into, b"\n")?;
    Ok(())
}

/// An answer behind its name.
fn put_named(into: &mut Vec<u8>, name: &[u8], answer: Option<(Rank, u32)>) -> Result<(), AllocError>
    ensures { OnOk result (into.new.items ≡ into.old.items ++ (name.now ++ answer_text answer)) }
{
    put_bytes(into, name)?;
    put_answer(into, answer)?;
    Ok(())
}

/// An answer: the priority of a rule and its result, or none.
fn put_answer(into: &mut Vec<u8>, answer: Option<(Rank, u32)>) -> Result<(), AllocError>
    ensures { OnOk result (into.new.items ≡ into.old.items ++ answer_text answer) }
{
    match answer {
        None => put_bytes(into, b"none"),
        Some((priority, told)) => put_found(into, priority, told),
    }
}

/// The priority of a rule, in its high and its low part, and its result.
fn put_found(into: &mut Vec<u8>, priority: Rank, told: u32) -> Result<(), AllocError>
    ensures { OnOk result (into.new.items ≡ into.old.items ++ found_text priority told) }
{
    put_number(into, u64::from(priority.high))?;
    put_bytes(into, b":")?;
    put_long_number(into, priority.low)?;
    put_more(into, u64::from(told))?;
    Ok(())
}

/// A number behind a space.
fn put_more(into: &mut Vec<u8>, number: u64) -> Result<(), AllocError>
    ensures { OnOk result (into.new.items ≡ into.old.items ++ (codes " " ++ decimal number)) }
{
    put_bytes(into, b" ")?;
    put_number(into, number)?;
    Ok(())
}

/// A number, in decimal.
fn put_number(into: &mut Vec<u8>, number: u64) -> Result<(), AllocError>
    ensures { OnOk result (into.new.items ≡ into.old.items ++ decimal number) }
{
    let mut digits = Buffer::new();
    into.extend_from_slice(digits.format(number).as_bytes())?;
    Ok(())
}

/// A number that may have more than 64 bits, in decimal.
fn put_long_number(into: &mut Vec<u8>, number: u128) -> Result<(), AllocError>
    ensures { OnOk result (into.new.items ≡ into.old.items ++ decimal number) }
{
    let mut digits = Buffer::new();
    into.extend_from_slice(digits.format(number).as_bytes())?;
    Ok(())
}

/// Bytes.
fn put_bytes(into: &mut Vec<u8>, bytes: &[u8]) -> Result<(), AllocError>
    ensures { OnOk result (into.new.items ≡ into.old.items ++ bytes.now) }
{
    into.extend_from_slice(bytes)?;
    Ok(())
}

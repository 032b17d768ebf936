//! What is written of a change, and of a frame that isn't said.

ghost use Rattle.std.specs.Prelude.{◌≡◌, ◌++◌, [], IfOk, OnOk, decimal, map};
ghost use Rattle.std.specs.List.{list_any};
ghost use Rattle.fpm_routes.specs.Telling.{block_address, commit_text, dotted_number, dotted_part, drop_line, is_change, note_line, prefix_text, put_line, unsaid_text};
ghost use Rattle.fpm_routes.specs.Views.{change_of};

use crate::changes::{Change, Deed};
use crate::ways::{put_bytes, put_number};
use crate::why::Unsaid;
use line_words::Ipv6Text;
use rule_model::{Addr, IpVersion, Prefix};
use std::alloc::AllocError;

/// The lowest bit of an IPv4 address in one of 128 bits.
const IPV4_UNIT: u128 = 79_228_162_514_264_337_593_543_950_336;

/// Puts the reason there why a frame isn't said.
pub(crate) fn put_why(into: &mut Vec<u8>, unsaid: Unsaid) -> Result<(), AllocError>
    ensures { OnOk result (into.new.items ≡ into.old.items ++ unsaid_text unsaid) }
{
    into.extend_from_slice(unsaid.why.text().as_bytes())?;
    into.extend_from_slice(b": ")?;
    put_number(into, u64::from(unsaid.number))?;
    Ok(())
}

/// Puts an address of this version there.
fn put_block_address(
    into: &mut Vec<u8>,
    version: IpVersion,
    address: Addr,
) -> Result<(), AllocError>
    ensures { OnOk result (into.new.items ≡ into.old.items ++ block_address version address) }
{
    match version {
        IpVersion::V4 => put_dotted_number(into, (address / IPV4_UNIT) as u32),
        IpVersion::V6 => {
            let text = Ipv6Text::new(address);
            put_bytes(into, text.as_str().as_bytes())
        }
    }
}

/// Puts a part of an IPv4 address there, and the dot behind it.
fn put_part(into: &mut Vec<u8>, part: u32) -> Result<(), AllocError>
    ensures { OnOk result (into.new.items ≡ into.old.items ++ dotted_part part) }
{
    put_number(into, u64::from(part))?;
    put_bytes(into, b".")?;
    Ok(())
}

/// Puts an IPv4 address there.
fn put_dotted_number(into: &mut Vec<u8>, number: u32) -> Result<(), AllocError>
    ensures { OnOk result (into.new.items ≡ into.old.items ++ dotted_number number) }
{
    put_part(into, number / 16_777_216)?;
    put_part(into, number / 65_536 % 256)?;
    put_part(into, number / 256 % 256)?;
    put_number(into, u64::from(number % 256))?;
    Ok(())
}

/// Puts a prefix there.
fn put_prefix(into: &mut Vec<u8>, version: IpVersion, prefix: &Prefix) -> Result<(), AllocError>
    ensures { OnOk result (into.new.items ≡ into.old.items ++ prefix_text version prefix.now) }
{
    put_block_address(into, version, prefix.addr())?;
    into.extend_from_slice(b"/")?;
    put_number(into, u64::from(prefix.len()))?;
    Ok(())
}

/// Puts the command there that gives a prefix this answer.
pub(crate) fn put_put(
    into: &mut Vec<u8>,
    version: IpVersion,
    prefix: &Prefix,
    number: usize,
) -> Result<(), AllocError>
    ensures { OnOk result (into.new.items ≡ into.old.items ++ put_line (prefix_text version prefix.now) number) }
{
    into.extend_from_slice(b"route put ")?;
    put_prefix(into, version, prefix)?;
    into.extend_from_slice(b" ")?;
    put_number(into, number as u64)?;
    into.extend_from_slice(b"\n")?;
    Ok(())
}

/// Puts the command there that drops a prefix.
pub(crate) fn put_drop(
    into: &mut Vec<u8>,
    version: IpVersion,
    prefix: &Prefix,
) -> Result<(), AllocError>
    ensures { OnOk result (into.new.items ≡ into.old.items ++ drop_line (prefix_text version prefix.now)) }
{
    into.extend_from_slice(b"route drop ")?;
    put_prefix(into, version, prefix)?;
    into.extend_from_slice(b"\n")?;
    Ok(())
}

/// Puts a comment there.
pub(crate) fn put_note(into: &mut Vec<u8>, words: &[u8]) -> Result<(), AllocError>
    ensures { OnOk result (into.new.items ≡ into.old.items ++ note_line words.now) }
{
    into.extend_from_slice(b"# ")?;
    into.extend_from_slice(words)?;
    into.extend_from_slice(b"\n")?;
    Ok(())
}

/// Whether this is a change of a prefix.
fn is_change(change: &Change) -> bool
    ensures { result ≡ is_change (change_of change.now) }
{
    match change.deed {
        Deed::Put => true,
        Deed::Drop => true,
        Deed::Note => false,
    }
}

/// Whether one of these is a change of a prefix.
fn is_commit(changes: &[Change]) -> bool
    ensures { result ≡ list_any is_change (map change_of changes.now) }
{
    for change in changes {
        if is_change(change) {
            return true;
        }
    }
    false
}

/// Puts the commit there that a frame is, if it changes something.
pub(crate) fn put_commit(into: &mut Vec<u8>, changes: &[Change]) -> Result<(), AllocError>
    ensures { OnOk result (into.new.items ≡ into.old.items ++ commit_text (map change_of changes.now)) }
{
    if is_commit(changes) {
        return put_bytes(into, b"commit\n");
    }
    Ok(())
}

//! The lines that an import writes of its own: of what is left out, and of the line at which a script ends.

ghost use Rattle.std.specs.Prelude.{◌≡◌, ◌++◌, OnOk, decimal};
ghost use Rattle.import_lines.specs.Import.{end_line, left_out_count, left_out_line, stop_line};

use itoa::Buffer;
use std::alloc::AllocError;

/// Puts a number there, in decimal.
fn put_number(into: &mut Vec<u8>, number: u64) -> Result<(), AllocError>
    ensures { OnOk result (into.new.items ≡ into.old.items ++ decimal number) }
{
    let mut digits = Buffer::new();
    into.extend_from_slice(digits.format(number).as_bytes())?;
    Ok(())
}

/// Puts bytes there.
fn put_bytes(into: &mut Vec<u8>, bytes: &[u8]) -> Result<(), AllocError>
    ensures { OnOk result (into.new.items ≡ into.old.items ++ bytes.now) }
{
    into.extend_from_slice(bytes)?;
    Ok(())
}

/// Puts the last line of a script there that ends at the line of this number.
pub(crate) fn put_stop(into: &mut Vec<u8>, number: u64, why: &[u8]) -> Result<(), AllocError>
    ensures { OnOk result (into.new.items ≡ into.old.items ++ stop_line number why.now) }
{
    into.extend_from_slice(b"line ")?;
    put_number(into, number)?;
    into.extend_from_slice(b" ")?;
    into.extend_from_slice(why)?;
    into.extend_from_slice(b"\n")?;
    Ok(())
}

/// Puts the last line of a script there whose input doesn't say, with all its lines, what would stand behind them.
pub(crate) fn put_end_line(into: &mut Vec<u8>, why: &[u8]) -> Result<(), AllocError>
    ensures { OnOk result (into.new.items ≡ into.old.items ++ end_line why.now) }
{
    put_bytes(into, b"end of input: ")?;
    put_bytes(into, why)?;
    put_bytes(into, b"\n")?;
    Ok(())
}

/// Puts there what stands behind all lines, behind the count of those that are left out.
pub(crate) fn put_end(into: &mut Vec<u8>, left_out: u64, bytes: &[u8]) -> Result<(), AllocError>
    ensures { OnOk result (into.new.items ≡ into.old.items ++ (left_out_count left_out ++ bytes.now)) }
{
    put_left_out_count(into, left_out)?;
    into.extend_from_slice(bytes)?;
    Ok(())
}

/// Puts the comment there that tells of the line of this number, which is left out.
pub(crate) fn put_left_out(into: &mut Vec<u8>, number: u64, why: &[u8]) -> Result<(), AllocError>
    ensures { OnOk result (into.new.items ≡ into.old.items ++ left_out_line number why.now) }
{
    put_bytes(into, b"# left out: line ")?;
    put_number(into, number)?;
    put_bytes(into, b": ")?;
    put_bytes(into, why)?;
    put_bytes(into, b"\n")?;
    Ok(())
}

/// Puts the comment there that tells how many lines are left out, if there are any.
pub(crate) fn put_left_out_count(into: &mut Vec<u8>, count: u64) -> Result<(), AllocError>
    ensures { OnOk result (into.new.items ≡ into.old.items ++ left_out_count count) }
{
    if count == 0 {
        return Ok(());
    }
    put_bytes(into, b"# left out: ")?;
    put_number(into, count)?;
    put_bytes(into, b" lines\n")?;
    Ok(())
}

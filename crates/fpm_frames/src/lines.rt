//! The lines that an import writes of its own: of what is left out, and of the frame at which a script ends.

ghost use Rattle.std.specs.Prelude.{◌≡◌, ◌++◌, OnOk, decimal};
ghost use Rattle.fpm_frames.specs.Imported.{left_out_frame, left_out_frames, stop_frame};

use itoa::Buffer;
use std::alloc::AllocError;

/// Puts a number there, in decimal.
fn put_number(into: &mut Vec<u8>, number: u64) -> Result<(), AllocError>
    ensures { OnOk result (into.new.items ≡ into.old.items ++ decimal number) }
{
    let mut digits = Buffer::new();
    into.extend_from_slice(digits.format(number).as_bytes())?;
    Ok(())
}

/// Puts bytes there.
fn put_bytes(into: &mut Vec<u8>, bytes: &[u8]) -> Result<(), AllocError>
    ensures { OnOk result (into.new.items ≡ into.old.items ++ bytes.now) }
{
    into.extend_from_slice(bytes)?;
    Ok(())
}

/// Puts the last line of a script there that ends at the frame of this number.
pub(crate) fn put_stop(into: &mut Vec<u8>, number: u64, why: &[u8]) -> Result<(), AllocError>
    ensures { OnOk result (into.new.items ≡ into.old.items ++ stop_frame number why.now) }
{
    into.extend_from_slice(b"frame ")?;
    put_number(into, number)?;
    into.extend_from_slice(b" ")?;
    into.extend_from_slice(why)?;
    into.extend_from_slice(b"\n")?;
    Ok(())
}

/// Puts the comment there that tells of the frame of this number, which is left out.
pub(crate) fn put_left_out(into: &mut Vec<u8>, number: u64, why: &[u8]) -> Result<(), AllocError>
    ensures { OnOk result (into.new.items ≡ into.old.items ++ left_out_frame number why.now) }
{
    put_bytes(into, b"# left out: frame ")?;
    put_number(into, number)?;
    put_bytes(into, b": ")?;
    put_bytes(into, why)?;
    put_bytes(into, b"\n")?;
    Ok(())
}

/// Puts the comment there that tells how many frames are left out, if there are any.
pub(crate) fn put_left_out_count(into: &mut Vec<u8>, count: u64) -> Result<(), AllocError>
    ensures { OnOk result (into.new.items ≡ into.old.items ++ left_out_frames count) }
{
    if count == 0 {
        return Ok(());
    }
    put_bytes(into, b"# left out: ")?;
    put_number(into, count)?;
    put_bytes(into, b" frames\n")?;
    Ok(())
}

//! What is written of an event.

ghost use Rattle.std.specs.Prelude.{◌≡◌, ◌++◌, OnOk, decimal};
ghost use Rattle.ip_monitor.specs.Telling.{answer_lines, drop_lines, passed_line, passed_text, put_lines};

use crate::events::Passed;
use crate::ranks::Ranked;
use ip_routes::shortened;
use itoa::Buffer;
use std::alloc::AllocError;

impl Passed {
    /// Why, as a comment begins.
    fn text(self) -> &'static str
        ensures { result.now ≡ passed_text self }
    {
        match self {
            Passed::Table => "# another table: ",
            Passed::Version => "# another version: ",
        }
    }
}

/// Puts bytes there.
fn put_bytes(into: &mut Vec<u8>, bytes: &[u8]) -> Result<(), AllocError>
    ensures { OnOk result (into.new.items ≡ into.old.items ++ bytes.now) }
{
    into.extend_from_slice(bytes)?;
    Ok(())
}

/// Puts a number there, in decimal.
fn put_number(into: &mut Vec<u8>, number: u64) -> Result<(), AllocError>
    ensures { OnOk result (into.new.items ≡ into.old.items ++ decimal number) }
{
    let mut digits = Buffer::new();
    into.extend_from_slice(digits.format(number).as_bytes())?;
    Ok(())
}

/// Puts the comment there on an event that doesn't change the table.
pub(crate) fn put_passed(into: &mut Vec<u8>, passed: Passed, word: &[u8]) -> Result<(), AllocError>
    ensures { OnOk result (into.new.items ≡ into.old.items ++ passed_line passed word.now) }
{
    put_bytes(into, passed.text().as_bytes())?;
    put_bytes(into, shortened(word))?;
    put_bytes(into, b"\n")?;
    Ok(())
}

/// Puts the commit there that gives a prefix the answer of its route of least metric, or drops it where it has none.
pub(crate) fn put_answer(
    into: &mut Vec<u8>,
    prefix: &[u8],
    least: Option<Ranked>,
) -> Result<(), AllocError>
    ensures { OnOk result (into.new.items ≡ into.old.items ++ answer_lines prefix.now least) }
{
    match least {
        None => put_drop(into, prefix),
        Some(rank) => put_route(into, prefix, rank.number),
    }
}

/// Puts the commit there that drops a prefix.
fn put_drop(into: &mut Vec<u8>, prefix: &[u8]) -> Result<(), AllocError>
    ensures { OnOk result (into.new.items ≡ into.old.items ++ drop_lines prefix.now) }
{
    put_bytes(into, b"route drop ")?;
    put_bytes(into, prefix)?;
    put_bytes(into, b"\ncommit\n")?;
    Ok(())
}

/// Puts the commit there that gives a prefix this answer.
fn put_route(into: &mut Vec<u8>, prefix: &[u8], number: usize) -> Result<(), AllocError>
    ensures { OnOk result (into.new.items ≡ into.old.items ++ put_lines prefix.now number) }
{
    put_bytes(into, b"route put ")?;
    put_bytes(into, prefix)?;
    put_bytes(into, b" ")?;
    put_number(into, number as u64)?;
    put_bytes(into, b"\ncommit\n")?;
    Ok(())
}

//! What is written of a route, and of a line that isn't said.

ghost use Rattle.std.specs.Prelude.{◌≡◌, ◌++◌, OnOk, decimal, take};
ghost use Rattle.ip_routes.specs.Telling.{hop_line, kept_line, route_line_text, unsaid_text};

use crate::attributes::Why;
use crate::reading::Reading;
use itoa::Buffer;
use std::alloc::AllocError;

/// The most bytes of a word that a comment names.
const WORD_BYTES: usize = 64;

/// Puts a number there, in decimal.
fn put_number(into: &mut Vec<u8>, number: u64) -> Result<(), AllocError>
    ensures { OnOk result (into.new.items ≡ into.old.items ++ decimal number) }
{
    let mut digits = Buffer::new();
    into.extend_from_slice(digits.format(number).as_bytes())?;
    Ok(())
}

/// Puts the comment there that says what a number stands for.
pub(crate) fn put_hop(into: &mut Vec<u8>, number: usize, way: &[u8]) -> Result<(), AllocError>
    ensures { OnOk result (into.new.items ≡ into.old.items ++ hop_line number way.now) }
{
    into.extend_from_slice(b"# ")?;
    put_number(into, number as u64)?;
    into.extend_from_slice(b" = ")?;
    into.extend_from_slice(way)?;
    into.extend_from_slice(b"\n")?;
    Ok(())
}

/// Puts the command there that adds a route.
pub(crate) fn put_route(into: &mut Vec<u8>, prefix: &[u8], number: usize) -> Result<(), AllocError>
    ensures { OnOk result (into.new.items ≡ into.old.items ++ route_line_text prefix.now number) }
{
    into.extend_from_slice(b"route add ")?;
    into.extend_from_slice(prefix)?;
    into.extend_from_slice(b" ")?;
    put_number(into, number as u64)?;
    into.extend_from_slice(b"\n")?;
    Ok(())
}

/// Puts the comment there on a route behind one of its prefix that counts.
pub(crate) fn put_kept(into: &mut Vec<u8>, route: &Reading) -> Result<(), AllocError>
    ensures { OnOk result (into.new.items ≡ into.old.items ++ kept_line route.now) }
{
    into.extend_from_slice(b"# kept: ")?;
    into.extend_from_slice(route.text())?;
    into.extend_from_slice(b" metric ")?;
    put_number(into, u64::from(route.metric()))?;
    into.extend_from_slice(b" ")?;
    into.extend_from_slice(route.way())?;
    into.extend_from_slice(b"\n")?;
    Ok(())
}

/// Puts there why a line isn't said, and the word, which is cut off where it is long.
pub fn put_why(into: &mut Vec<u8>, why: Why, word: &[u8]) -> Result<(), AllocError>
    ensures { OnOk result (into.new.items ≡ into.old.items ++ unsaid_text why word.now) }
{
    into.extend_from_slice(why.text().as_bytes())?;
    into.extend_from_slice(b": ")?;
    into.extend_from_slice(shortened(word))?;
    Ok(())
}

/// The front of a word, as long as a comment names it.
pub fn shortened(word: &[u8]) -> &[u8]
    ensures { result.now ≡ take 64 word.now }
{
    if word.len() <= WORD_BYTES {
        return word;
    }
    &word[..WORD_BYTES]
}

//! The lines of an older list, as a script has them.

ghost use Rattle.std.specs.Prelude.{◌≡◌, ◌<◌, ◌≤◌, ◌+◌, ◌==◌, ◌∷◌, ℕ, List, Ok, Err, Some, IfOk, IfSome, MatchResult, length};
ghost use Rattle.std.specs.List.{position};
ghost use Rattle.std.specs.Str.{bytes_eq};
ghost use Rattle.kept_numbers.specs.Older.{IsSaid, added, added_by, behind, is_passed, older_lines, said, taken};

use crate::words::{OlderLine, Words};
use line_words::sequence_of;
use std::alloc::{AllocError, Global};

/// The lines of a list, by the script that an import wrote: `acl add` of a number and words. Its comments, `commit` and `acl
/// all` say nothing of them. Err: the number of a line that is another one. It fails for want of memory alone.
pub fn older_lines(alloc: Global, text: &[u8]) -> Result<Result<Vec<OlderLine>, usize>, AllocError>
    ensures { IfOk result (λ answer. MatchResult answer (λ older. older_lines text.now ≡ Ok older.items) (λ number. older_lines text.now ≡ Err number)) }
{
    let mut older = Vec::new(alloc);
    let mut line = Vec::new(alloc);
    let mut number = 1;
    for byte in text {
        match take_byte(alloc, &mut older, &mut line, number, *byte)? {
            Some(next) => number = next,
            None => return Ok(Err(number)),
        }
    }
    if take_line(alloc, &mut older, line.as_slice())? {
        return Ok(Ok(older));
    }
    Ok(Err(number))
}

/// Takes a byte, and answers the number of the line in which the next one stands. None: the line that it ends is one that no
/// import writes.
fn take_byte(
    alloc: Global,
    older: &mut Vec<OlderLine>,
    line: &mut Vec<u8>,
    number: usize,
    byte: u8,
) -> Result<Option<usize>, AllocError>
    requires { number < 18446744073709551615 }
    ensures goes { IfOk result (λ next. (bytes : List ℕ) → behind older.old.items number line.old.items (byte ∷ bytes) ≡ taken next number older.new.items line.new.items bytes) }
    ensures few { IfOk result (λ next. IfSome next (λ n. n ≤ number + 1)) }
{
    if byte == b'\n' {
        return take_end(alloc, older, line, number);
    }
    line.push(byte)?;
    Ok(Some(number))
}

/// Takes the end of a line.
fn take_end(
    alloc: Global,
    older: &mut Vec<OlderLine>,
    line: &mut Vec<u8>,
    number: usize,
) -> Result<Option<usize>, AllocError>
    requires { number < 18446744073709551615 }
    ensures goes { IfOk result (λ next. (bytes : List ℕ) → behind older.old.items number line.old.items (10 ∷ bytes) ≡ taken next number older.new.items line.new.items bytes) }
    ensures few { IfOk result (λ next. IfSome next (λ n. n ≤ number + 1)) }
{
    if take_line(alloc, older, line.as_slice())? {
        line.clear();
        return Ok(Some(number + 1));
    }
    Ok(None)
}

/// Puts what a line says of the list there, and answers whether it is one that a script has.
fn take_line(alloc: Global, into: &mut Vec<OlderLine>, line: &[u8]) -> Result<bool, AllocError>
    ensures { IfOk result (λ known. IsSaid known (said line.now) into.old.items into.new.items) }
{
    if is_passed(line) {
        return Ok(true);
    }
    match line.strip_prefix(b"acl add ") {
        None => Ok(false),
        Some(rest) => take_added(alloc, into, rest),
    }
}

/// Whether a line says nothing of the list.
fn is_passed(line: &[u8]) -> bool
    ensures { result ≡ is_passed line.now }
{
    line.is_empty() || line[0] == b'#' || is_same(line, b"commit") || is_same(line, b"acl all")
}

/// Whether a line is this one.
fn is_same(line: &[u8], other: &[u8]) -> bool
    ensures { result ≡ bytes_eq line.now other.now }
{
    line == other
}

/// Puts the line there of which a number and words are left.
fn take_added(alloc: Global, into: &mut Vec<OlderLine>, rest: &[u8]) -> Result<bool, AllocError>
    ensures { IfOk result (λ known. IsSaid known (added rest.now) into.old.items into.new.items) }
{
    match first_blank(rest) {
        None => Ok(false),
        Some(place) => take_at(alloc, into, rest, place),
    }
}

/// And where the number ends at this place.
fn take_at(
    alloc: Global,
    into: &mut Vec<OlderLine>,
    rest: &[u8],
    place: usize,
) -> Result<bool, AllocError>
    requires { place < length rest.now }
    ensures { IfOk result (λ known. IsSaid known (added_by rest.now (Some place)) into.old.items into.new.items) }
{
    match sequence_of(&rest[..place]) {
        Err(_) => Ok(false),
        Ok(number) => {
            let words = Words::new(Vec::from_slice(alloc, &rest[place..])?);
            into.push(OlderLine { number, words })?;
            Ok(true)
        }
    }
}

/// The place of the first blank.
fn first_blank(text: &[u8]) -> Option<usize>
    ensures place { result ≡ position (λ byte. byte == 32) text.now }
    ensures within { IfSome result (λ place. place < length text.now) }
{
    text.iter().position(|byte| *byte == b' ')
}

//! Which lines keep the number of an older one.

ghost use Rattle.std.specs.Prelude.{◌≡◌, IfOk, drop};
ghost use Rattle.kept_numbers.specs.Kept.{begins, is_gone, kept, mark_of, mark_of_first, rest_of, standing, stays};

use crate::words::{OlderLine, Words};
use std::alloc::{AllocError, Global};

/// For each line the number of the older line that it is, if it is one. These older lines stand in the same order.
pub fn kept(
    alloc: Global,
    older: &[OlderLine],
    lines: &[Words],
) -> Result<Vec<Option<u32>>, AllocError>
    ensures { IfOk result (λ marks. marks.items ≡ kept older.now lines.now) }
{
    let mut marks = Vec::new(alloc);
    let mut rest = older;
    for place in 0..lines.len() {
        let line = &lines[place];
        let at = standing(rest, line, &lines[place + 1..]);
        marks.push(mark_of(at, line))?;
        rest = rest_of(at, line);
    }
    Ok(marks)
}

/// The older lines from the first one on that isn't gone, where a new line is to be told, before these others.
fn standing<'o>(older: &'o [OlderLine], line: &Words, lines: &[Words]) -> &'o [OlderLine]
    ensures { result.now ≡ standing older.now line.now lines.now }
{
    for place in 0..older.len() {
        if stays(&older[place], &older[place + 1..], line, lines) {
            return &older[place..];
        }
    }
    &older[older.len()..]
}

/// Whether an older line stands where a new one is to be told: it is the same, or it isn't gone.
fn stays(first: &OlderLine, behind: &[OlderLine], line: &Words, lines: &[Words]) -> bool
    ensures { result ≡ stays first.now behind.now line.now lines.now }
{
    first.words.same(line) || !is_gone(&first.words, behind, line, lines)
}

/// Whether an older line of other words than a new one is gone: the new line comes behind it in the older list, and sooner
/// than the older one comes behind the new one.
fn is_gone(words: &Words, behind: &[OlderLine], line: &Words, lines: &[Words]) -> bool
    ensures { result ≡ is_gone words.now behind.now line.now lines.now }
{
    for place in 0..behind.len() {
        if begins(lines, place, words) {
            return false;
        }
        if behind[place].words.same(line) {
            return true;
        }
    }
    false
}

/// Whether the line at a place has these words, if there is one.
fn begins(lines: &[Words], place: usize, words: &Words) -> bool
    ensures { result ≡ begins (drop place lines.now) words.now }
{
    if place >= lines.len() {
        return false;
    }
    lines[place].same(words)
}

/// The number of the first of some older lines, if a line is that one.
fn mark_of(at: &[OlderLine], line: &Words) -> Option<u32>
    ensures { result ≡ mark_of at.now line.now }
{
    match at {
        [] => None,
        [first, ..] => mark_of_first(first, line),
    }
}

/// The number of an older line, if a line is that one.
fn mark_of_first(first: &OlderLine, line: &Words) -> Option<u32>
    ensures { result ≡ mark_of_first first.now line.now }
{
    if first.words.same(line) {
        return Some(first.number);
    }
    None
}

/// The older lines behind a line that may be the first of them.
fn rest_of<'o>(at: &'o [OlderLine], line: &Words) -> &'o [OlderLine]
    ensures { result.now ≡ rest_of at.now line.now }
{
    match at {
        [] => at,
        [first, behind @ ..] => { if first.words.same(line) { behind } else { at } }
    }
}

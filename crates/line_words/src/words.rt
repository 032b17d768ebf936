//! A walk over the words of a line.

ghost use Rattle.std.specs.Prelude.{◌≡◌, ◌+◌, ◌≤◌, false, [], ◌∷◌, length, slice_index, IsTrue, IsNone, ◌↔◌, ◌<◌, MatchResult, IfSome, IfOk};
ghost use Rattle.std.specs.Iterator.{item_count};
ghost use Rattle.std.specs.List.{position, prefix_len};
ghost use Rattle.line_words.specs.Words.{is_blank, is_skipped, words_of};
ghost use Rattle.line_words.specs.Walk.{TakesWord};

use crate::WordFault;
use script_lines::LINE_BYTES;
use std::marker::Model;

/// The words of a line that have not been taken yet, from the left. A contract sees their list.
#[derive(Drop)]
pub struct Words<'a> {
    /// The end of the line, from a place outside any word that was taken.
    rest: &'a [u8],
}

impl<'a> Model for Words<'a> {
    ghost use Rattle.std.specs.Prelude.{ℕ, ◌≤◌, List, length};
    ghost use Rattle.line_words.specs.Words.{words_of};

    ghost Value = { List (List ℕ) };

    ghost view = { λ w. words_of w.rest.now };

    ghost invariant = { λ w. length w.rest.now ≤ 512 };
}

impl<'a> Words<'a> {
    /// The words of a line.
    fn new(line: &'a [u8]) -> Self
        requires { length line.now ≤ LINE_BYTES }
        ensures { result ≡ words_of line.now }
    {
        Words { rest: line }
    }

    /// Takes the next word, or answers WordCount where there is none.
    pub fn required(&mut self) -> Result<&'a [u8], WordFault>
        ensures word { MatchResult result (λ word. self.old ≡ word.now ∷ self.new) (λ fault. (fault ≡ WordFault.WordCount) × (self.old ≡ [])) }
        ensures short { IfOk result (λ word. length word.now ≤ LINE_BYTES) }
    {
        self.next().ok_or(WordFault::WordCount)
    }

    /// Ends the walk, or answers WordCount where a word is left.
    pub fn end(mut self) -> Result<(), WordFault>
        ensures { MatchResult result (λ _. self.entry ≡ []) (λ fault. (fault ≡ WordFault.WordCount) × (0 < length self.entry)) }
    {
        match self.next() {
            None => Ok(()),
            Some(_) => Err(WordFault::WordCount),
        }
    }
}

impl<'a> Iterator for Words<'a> {
    type Item = &'a [u8];

    ghost next_gives = { TakesWord };

    ghost remaining = { item_count (λ words. words) };

    fn next(&mut self) -> Option<&'a [u8]> {
        let text = without_blanks(self.rest);
        if text.is_empty() {
            return None;
        }
        let (word, rest) = cut_word(text);
        self.rest = rest;
        Some(word)
    }
}

/// The first word of a line and the words behind it, or nothing where the line is skipped: it has no
/// word, or its first begins with `#`.
pub fn command_words(line: &[u8]) -> Option<(&[u8], Words<'_>)>
    requires { length line.now ≤ LINE_BYTES }
    ensures skipped { IsNone result ↔ IsTrue (is_skipped (words_of line.now)) }
    ensures words { IfSome result (λ found. words_of line.now ≡ found.0.now ∷ found.1) }
{
    let mut words = Words::new(line);
    let first = words.next()?;
    if first.starts_with(b"#") {
        return None;
    }
    Some((first, words))
}

/// A text without the blanks that it begins with.
pub fn without_blanks(text: &[u8]) -> &[u8]
    ensures words { words_of result.now ≡ words_of text.now }
    ensures solid { 0 < length result.now → is_blank (slice_index result.now 0) ≡ false }
    ensures len { length result.now ≤ length text.now }
{
    &text[leading_blanks(text)..]
}

/// How many blanks a text begins with.
fn leading_blanks(text: &[u8]) -> usize
    ensures count { result ≡ prefix_len is_blank text.now }
    ensures within { result ≤ length text.now }
    ensures solid { result < length text.now → is_blank (slice_index text.now result) ≡ false }
{
    text.iter().take_while(|byte| is_blank(**byte)).count()
}

/// The word that a text begins with, and what stands behind it.
pub fn cut_word(text: &[u8]) -> (&[u8], &[u8])
    requires some { 0 < length text.now }
    requires solid { is_blank (slice_index text.now 0) ≡ false }
    ensures words { words_of text.now ≡ result.0.now ∷ words_of result.1.now }
    ensures len { length result.0.now + length result.1.now ≡ length text.now }
{
    let end = first_blank(text).unwrap_or(text.len());
    text.split_at(end)
}

/// The place of the first blank of a text.
fn first_blank(text: &[u8]) -> Option<usize>
    ensures { result ≡ position is_blank text.now }
{
    text.iter().position(|byte| is_blank(*byte))
}

/// Whether a byte parts words: space, tab or carriage return.
fn is_blank(byte: u8) -> bool
    ensures { result ≡ is_blank byte }
{
    matches!(byte, b' ' | b'\t' | b'\r')
}

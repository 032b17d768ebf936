//! Where the words of a line stand.

ghost use Rattle.std.specs.Prelude.{◌≡◌, ◌+◌, ◌≤◌, [], ◌∷◌, None, Some, IfSome, MatchOption, drop, length, slice_get};
ghost use Rattle.line_words.specs.Words.{words_of};

use line_words::{cut_word, without_blanks};

/// The first word of a text and what stands behind it, if it has one.
fn first_word(text: &[u8]) -> Option<(&[u8], &[u8])>
    ensures words { MatchOption result (words_of text.now ≡ [])
        (λ parts. words_of text.now ≡ parts.0.now ∷ words_of parts.1.now) }
    ensures short { IfSome result (λ parts. length parts.0.now + length parts.1.now ≤ length text.now) }
{
    let solid = without_blanks(text);
    if solid.is_empty() {
        return None;
    }
    Some(cut_word(solid))
}

/// What stands behind so many words of a line: nothing where it has fewer.
fn text_behind(line: &[u8], count: usize) -> &[u8]
    ensures words { words_of result.now ≡ drop count (words_of line.now) }
    ensures short { length result.now ≤ length line.now }
{
    let mut text = line;
    for _ in 0..count {
        match first_word(text) {
            Some((_, rest)) => text = rest,
            None => return text,
        }
    }
    text
}

/// The word of a line at a place, from 0, if it has so many.
pub(crate) fn word_at(line: &[u8], place: usize) -> Option<&[u8]>
    ensures word { MatchOption result (slice_get (words_of line.now) place ≡ None)
        (λ word. slice_get (words_of line.now) place ≡ Some word.now) }
    ensures short { IfSome result (λ word. length word.now ≤ length line.now) }
{
    match first_word(text_behind(line, place)) {
        Some((word, _)) => Some(word),
        None => None,
    }
}

//! The words of a line, and texts in quotes, which may have several.

ghost use Rattle.std.specs.Prelude.{◌≡◌, ◌∷◌, [], MatchOption};
ghost use Rattle.std.specs.Str.{bytes_eq};
ghost use Rattle.line_words.specs.Words.{words_of};
ghost use Rattle.iptables.specs.Words.{ends_quote, has_escape, is_passing, opens_quote};

use line_words::{cut_word, without_blanks};

/// The first word of a text, and what stands behind it; none where it has no word.
pub(crate) fn first_word(text: &[u8]) -> Option<(&[u8], &[u8])>
    ensures { MatchOption result (words_of text.now ≡ []) (λ found. words_of text.now ≡ found.0.now ∷ words_of found.1.now) }
{
    let solid = without_blanks(text);
    if solid.is_empty() {
        return None;
    }
    Some(cut_word(solid))
}

/// Whether a word is this one.
pub(crate) fn is_named(word: &[u8], name: &[u8]) -> bool
    ensures { result ≡ bytes_eq word.now name.now }
{
    word == name
}

/// Whether a word ends a text in quotes.
pub(crate) fn ends_quote(word: &[u8]) -> bool
    ensures { result ≡ ends_quote word.now }
{
    !word.is_empty() && word[word.len() - 1] == b'"'
}

/// Whether a word begins a text in quotes that goes on behind it.
pub(crate) fn opens_quote(word: &[u8]) -> bool
    ensures { result ≡ opens_quote word.now }
{
    if word.len() < 2 {
        return ends_quote(word);
    }
    word[0] == b'"' && !ends_quote(word)
}

/// Whether a text has a byte by which quotes within it are written.
pub(crate) fn has_escape(text: &[u8]) -> bool
    ensures { result ≡ has_escape text.now }
{
    text.iter().any(|byte| *byte == b'\\')
}

/// Whether a target decides nothing: a packet goes on behind the rule.
pub(crate) fn is_passing(word: &[u8]) -> bool
    ensures { result ≡ is_passing word.now }
{
    is_named(word, b"LOG")
        || is_named(word, b"NFLOG")
        || is_named(word, b"AUDIT")
        || is_named(word, b"TRACE")
}

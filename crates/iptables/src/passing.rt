//! Whether a rule decides anything.

ghost use Rattle.std.specs.Prelude.{◌≡◌, false, length};
ghost use Rattle.line_words.specs.Words.{words_of};
ghost use Rattle.iptables.specs.Passing.{is_jump, no_jump, passes, passes_at, still_quoted};

use crate::words::{ends_quote, first_word, has_escape, is_named, is_passing, opens_quote};

/// Whether a rule decides nothing: it has no target, or one behind which a packet goes on. It is told by all words behind
/// the name of its chain. A quote may be part of the name of a device or of a set, so where `-j` or `-g` stands in quotes
/// before such a target, or behind it, it may be the one that counts. Quotes that are open at the end go on in the next line,
/// where a target may stand.
pub(crate) fn passes(text: &[u8]) -> bool
    ensures { result ≡ passes false (words_of text.now) }
{
    let mut rest = text;
    let mut quoted = false;
    'words: loop {
        let (word, behind) = match first_word(rest) {
            Some(found) => found,
            None => return !quoted,
        };
        if has_escape(word) {
            return false;
        }
        if is_jump(word) {
            return !quoted && passes_at(behind);
        }
        quoted = still_quoted(quoted, word);
        rest = behind;
    }
}

/// Whether a word says that a target follows.
fn is_jump(word: &[u8]) -> bool
    ensures { result ≡ is_jump word.now }
{
    is_named(word, b"-j") || is_named(word, b"-g")
}

/// Whether a text in quotes goes on behind a word.
fn still_quoted(quoted: bool, word: &[u8]) -> bool
    ensures { result ≡ still_quoted quoted word.now }
{
    if quoted {
        return !ends_quote(word);
    }
    opens_quote(word)
}

/// Whether the target that stands first in a text decides nothing, and no word behind it says that another one follows.
fn passes_at(text: &[u8]) -> bool
    ensures { result ≡ passes_at (words_of text.now) }
{
    match first_word(text) {
        Some((word, behind)) => is_passing(word) && no_jump(behind),
        None => false,
    }
}

/// Whether no word of a text says that a target follows, but in quotes that end.
fn no_jump(text: &[u8]) -> bool
    ensures { result ≡ no_jump false (words_of text.now) }
{
    let mut rest = text;
    let mut quoted = false;
    'words: loop {
        let (word, behind) = match first_word(rest) {
            Some(found) => found,
            None => return !quoted,
        };
        if !quoted && is_jump(word) {
            return false;
        }
        quoted = still_quoted(quoted, word);
        rest = behind;
    }
}

//! A walk over the words of a line, which keeps the first fault.

ghost use Rattle.std.specs.Prelude.{◌≡◌, ◌∷◌, [], MatchOption, ◌++◌};
ghost use Rattle.std.specs.Str.{bytes_eq};
ghost use Rattle.line_words.specs.Words.{words_of};
ghost use Rattle.cisco_lists.specs.Walk.{WordsAt, at_text, behind_word, failed, first_of};

use crate::why::Why;
use line_words::{cut_word, without_blanks};
use std::marker::Model;

/// The words of a line that have not been taken yet. Contracts see their list, the word that was taken last, and why the line
/// isn't said, if it isn't: then no word is left, and that word is the one at fault.
#[derive(Drop)]
pub(crate) struct Cursor<'t> {
    text: &'t [u8],
    word: &'t [u8],
    fault: Option<Why>,
}

impl<'t> Model for Cursor<'t> {
    ghost use Rattle.line_words.specs.Words.{words_of};
    ghost use Rattle.cisco_lists.specs.Walk.{WordsAt};

    ghost Value = { WordsAt };

    ghost view = { λ c. record { words = words_of c.text.now; word = c.word.now; fault = c.fault } };
}

impl<'t> Cursor<'t> {
    /// Before the first word of a line.
    pub(crate) fn new(text: &'t [u8]) -> Cursor<'t>
        ensures { result ≡ at_text text.now }
    {
        Cursor {
            text,
            word: b"",
            fault: None,
        }
    }

    /// The next word, of no bytes where there is none.
    pub(crate) fn peek(&self) -> &'t [u8]
        ensures { result.now ≡ first_of self.now.words }
    {
        match first_word(self.text) {
            None => b"",
            Some((word, _)) => word,
        }
    }

    /// Takes the next word. Where there is none it answers one of no bytes, and nothing is taken.
    pub(crate) fn next(&mut self) -> &'t [u8]
        ensures word { result.now ≡ first_of self.old.words }
        ensures behind { self.new ≡ behind_word self.old }
    {
        match first_word(self.text) {
            None => b"",
            Some((word, rest)) => {
                self.text = rest;
                self.word = word;
                word
            }
        }
    }

    /// The line isn't said, for this reason, where there was none yet.
    pub(crate) fn fail(&mut self, why: Why)
        ensures { self.new ≡ failed why self.old }
    {
        if self.fault.is_none() {
            self.fault = Some(why);
            self.text = b"";
        }
    }

    /// Why the line isn't said, if it isn't.
    pub(crate) fn fault(&self) -> Option<Why>
        ensures { result ≡ self.now.fault }
    {
        self.fault
    }

    /// The word that was taken last.
    pub(crate) fn word(&self) -> &'t [u8]
        ensures { result.now ≡ self.now.word }
    {
        self.word
    }
}

/// The first word of a text, and what stands behind it; none where it has no word.
fn first_word(text: &[u8]) -> Option<(&[u8], &[u8])>
    ensures { MatchOption result (words_of text.now ≡ []) (λ found. words_of text.now ≡ found.0.now ∷ words_of found.1.now) }
{
    let solid = without_blanks(text);
    if solid.is_empty() {
        return None;
    }
    Some(cut_word(solid))
}

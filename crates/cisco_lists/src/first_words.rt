//! What a line is by its first word.

ghost use Rattle.std.specs.Prelude.{◌≡◌};
ghost use Rattle.cisco_lists.specs.Lines.{is_entry, is_mark, is_other, is_passed, starts_number};

use ip_routes::is_named;

/// Whether a word begins with a digit.
pub(crate) fn starts_number(word: &[u8]) -> bool
    ensures { result ≡ starts_number word.now }
{
    match word {
        [byte, ..] => byte.is_ascii_digit(),
        _ => false,
    }
}

/// Whether a line that begins with this word changes no answer.
pub(crate) fn is_passed(word: &[u8]) -> bool
    ensures { result ≡ is_passed word.now }
{
    is_mark(word)
        || is_named(word, b"exit")
        || is_named(word, b"end")
        || is_named(word, b"counters")
        || is_named(word, b"statistics")
}

/// Whether it is no word, or the mark of a comment.
fn is_mark(word: &[u8]) -> bool
    ensures { result ≡ is_mark word.now }
{
    match word {
        [byte, ..] => *byte == b'!',
        _ => true,
    }
}

/// Whether an entry begins with this word.
pub(crate) fn is_entry(word: &[u8]) -> bool
    ensures { result ≡ is_entry word.now }
{
    is_named(word, b"permit")
        || is_named(word, b"deny")
        || is_named(word, b"remark")
        || starts_number(word)
}

/// Whether a list that is no list of IPv4 stands behind this word.
pub(crate) fn is_other(word: &[u8]) -> bool
    ensures { result ≡ is_other word.now }
{
    is_named(word, b"ipv6") || is_named(word, b"mac")
}

//! The sentence that tells of a trouble.

ghost use Rattle.std.specs.Prelude.{◌≤◌};

use crate::actions::tell_action;
use crate::addresses::tell_packet_address;
use crate::commands::{tell_first, tell_missing, tell_skipped, tell_too_many, tell_verb, verbs_of};
use crate::forms::{Grammar, Kind};
use crate::frames::tell_frame;
use crate::numbers::tell_number;
use crate::parts::tell;
use crate::places::word_at;
use crate::ports::{tell_packet_port, tell_ports};
use crate::prefixes::{tell_prefix, tell_side};
use crate::protocols::tell_protocol;
use crate::search::{Trouble, Why};
use script_lines::{LINE_BYTES, Line};
use std::alloc::AllocError;
use std::str;

/// Writes what is wrong with a line behind a text, without a line feed: the number of the word, from 1, the word or the part
/// of it that is wrong, and what was meant.
pub fn tell_trouble(
    text: &mut String,
    grammar: Grammar,
    line: &Line,
    trouble: &Trouble,
) -> Result<(), AllocError>
    requires place { trouble.now.place ≤ LINE_BYTES }
    requires len { line.now.len ≤ LINE_BYTES }
{
    let number = trouble.place + 1;
    let word = word_of(line, trouble.place);
    write!(text, "word {number}")?;
    match trouble.why {
        Why::Missing(form) => tell_missing(text, form),
        Why::Unknown if word.is_empty() => {
            let verbs = verbs_of(grammar);
            write!(text, " is missing: {verbs}")
        }
        Why::Unknown => {
            text.push_str(", ")?;
            if trouble.place == 0 {
                tell_first(text, word, grammar)
            } else {
                tell_verb(text, word, grammar)
            }
        }
        Why::Skipped(form, _) => {
            text.push_str(", ")?;
            tell_skipped(text, word, form, trouble.place)
        }
        Why::TooMany(form) => {
            text.push_str(", ")?;
            tell_too_many(text, word, form)
        }
        Why::Bad(kind) => {
            text.push_str(", ")?;
            tell_bad(text, grammar, kind, word, trouble)
        }
        Why::Unexplained => {
            text.push_str(", ")?;
            tell(text, word, trouble.fault.text())
        }
    }
}

/// The word of a line at a place, or no text where it has none. The bytes of a line are characters of ASCII.
fn word_of(line: &Line, place: usize) -> &str
    requires { line.now.len ≤ LINE_BYTES }
{
    let bytes = word_at(&line.bytes[..usize::from(line.len)], place).unwrap_or(b"");
    str::from_utf8(bytes).unwrap_or("")
}

/// What is wrong with a word that isn't of its kind.
fn tell_bad(
    text: &mut String,
    grammar: Grammar,
    kind: Kind,
    word: &str,
    trouble: &Trouble,
) -> Result<(), AllocError> {
    let version = grammar.version();
    match kind {
        Kind::Prefix => tell_prefix(text, word, version),
        Kind::Side => tell_side(text, word, version),
        Kind::Answer | Kind::Count => tell_number(text, word, 0, 4294967295),
        Kind::Sequence => tell_number(text, word, 1, 4294967295),
        Kind::Action => tell_action(text, word),
        Kind::ProtocolSpec => tell_protocol(text, word, false),
        Kind::Protocol => tell_protocol(text, word, true),
        Kind::PortSpec => tell_ports(text, word),
        Kind::Port => tell_packet_port(text, word),
        Kind::Address => tell_packet_address(text, word, version),
        Kind::Hex => tell_frame(text, word, trouble.fault, version),
    }
}

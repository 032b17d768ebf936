//! A rule, word by word.

ghost use Rattle.std.specs.Prelude.{◌≡◌, ◌*◌, [], ◌∷◌, Ok, Err, IfOk, MatchResult, nat_le};
ghost use Rattle.line_words.specs.Words.{words_of};
ghost use Rattle.iptables.specs.Reading.{Read, behind_value, expecting, face_field, few_tests, field_of, first_seen, is_end, is_module, may_end, negated_by, nothing_read, option_by, part_of, port_field, read_by, read_comment, read_module, read_negated, read_option, read_quoted, read_target, read_value, read_word, read_words, step, target_of, valued, why_no_module, why_no_option, why_not};
ghost use Rattle.iptables.specs.Values.{any_tests, met_with, value_said};

use crate::fields::{Ends, Side, met_with};
use crate::names::Names;
use crate::targets::target_of;
use crate::values::{Field, proto_behind, value_said};
use crate::why::Why;
use crate::words::{ends_quote, first_word, has_escape, is_named, opens_quote};
use rule_model::IpVersion;
use std::alloc::{AllocError, Global};
use written_chains::{Target, Tests};

/// The most tests of a rule.
const MOST_TESTS: usize = 4095;

/// A word of a rule that is no value.
#[derive(Clone, Copy, Debug, PartialEq, Eq)]
pub(crate) enum Part {
    /// One that says what it is.
    Option,
    /// The same behind `!`.
    Negated,
    /// The name of what the words behind it are of.
    Module,
    /// A comment, in quotes if it has several words.
    Comment,
    /// More of it.
    Quoted,
    /// A target.
    Target,
    /// How packets are rejected.
    Skipped,
}

/// What the next word of a rule is to be.
#[derive(Clone, Copy, Debug, PartialEq, Eq)]
pub(crate) enum Expects {
    /// This.
    Says(Part),
    /// A value that this field is tested for.
    Value(Field),
}

/// What the words of a rule have said so far, but for its tests.
#[derive(Clone, Copy, Debug, PartialEq, Eq)]
pub(crate) struct Seen {
    pub(crate) expects: Expects,
    // Whether the value that is to come is one that packets don't have.
    pub(crate) negated: bool,
    // The protocol of the packets that the rule holds, if it is one.
    pub(crate) proto: Option<u8>,
    pub(crate) target: Option<Target>,
}

/// Nothing is said yet.
fn first_seen() -> Seen
    ensures { result ≡ first_seen }
{
    Seen {
        expects: Expects::Says(Part::Option),
        negated: false,
        proto: None,
        target: None,
    }
}

/// Reads all words of a rule behind the name of its chain, and what it tests: a packet that one of the tests holds is one
/// that the rule holds. Err: why it isn't said, and the word.
pub(crate) fn read_rule<'t>(
    alloc: Global,
    tests: &mut Vec<Tests>,
    text: &'t [u8],
    names: &Names,
    version: IpVersion,
    face: &[u8],
) -> Result<Result<Seen, (Why, &'t [u8])>, AllocError>
    requires { tests.old.items ≡ any_tests ∷ [] }
    ensures { IfOk result (λ answer. MatchResult answer (λ seen. read_words version face.now names.now nothing_read [] (words_of text.now) ≡ Ok (record { seen = seen; tests = tests.new.items }))
        (λ unsaid. read_words version face.now names.now nothing_read [] (words_of text.now) ≡ Err (record { why = unsaid.0; word = unsaid.1.now }))) }
{
    let mut seen = first_seen();
    let mut rest = text;
    let mut last: &[u8] = b"";
    'words: loop {
        let found = match first_word(rest) {
            Some(found) => found,
            None => {
                if may_end(seen.expects) {
                    return Ok(Ok(seen));
                }
                return Ok(Err((Why::Value, last)));
            }
        };
        seen = match read_word(alloc, &seen, tests, found.0, names, version, face)? {
            Ok(next) => next,
            Err(why) => return Ok(Err((why, found.0))),
        };
        last = found.0;
        rest = found.1;
    }
}

/// Whether a rule may end where this is to come.
fn may_end(expects: Expects) -> bool
    ensures { result ≡ may_end expects }
{
    match expects {
        Expects::Says(part) => is_end(part),
        Expects::Value(_) => false,
    }
}

/// The same of a word that is no value.
fn is_end(part: Part) -> bool
    ensures { result ≡ is_end part }
{
    match part {
        Part::Option => true,
        Part::Negated => false,
        Part::Module => false,
        Part::Comment => false,
        Part::Quoted => false,
        Part::Target => false,
        Part::Skipped => false,
    }
}

/// The same, where another word is to come.
fn expecting(seen: &Seen, expects: Expects) -> Seen
    ensures { result ≡ expecting seen.now expects }
{
    Seen { expects, ..*seen }
}

/// Reads a word, which has no backslash.
fn read_word(
    alloc: Global,
    seen: &Seen,
    tests: &mut Vec<Tests>,
    word: &[u8],
    names: &Names,
    version: IpVersion,
    face: &[u8],
) -> Result<Result<Seen, Why>, AllocError>
    ensures { IfOk result (λ answer. MatchResult answer (λ next. read_word version face.now names.now (record { seen = seen.now; tests = tests.old.items }) word.now ≡ Ok (record { seen = next; tests = tests.new.items }))
        (λ reason. read_word version face.now names.now (record { seen = seen.now; tests = tests.old.items }) word.now ≡ Err reason)) }
{
    if has_escape(word) {
        return Ok(Err(Why::Escape));
    }
    match seen.expects {
        Expects::Says(part) => Ok(step(seen, word, names, face, part)),
        Expects::Value(field) => read_value(alloc, seen, tests, word, version, face, field),
    }
}

/// Reads the value of an option.
fn read_value(
    alloc: Global,
    seen: &Seen,
    tests: &mut Vec<Tests>,
    word: &[u8],
    version: IpVersion,
    face: &[u8],
    field: Field,
) -> Result<Result<Seen, Why>, AllocError>
    ensures { IfOk result (λ answer. MatchResult answer (λ next. read_value version face.now (record { seen = seen.now; tests = tests.old.items }) field word.now ≡ Ok (record { seen = next; tests = tests.new.items }))
        (λ reason. read_value version face.now (record { seen = seen.now; tests = tests.old.items }) field word.now ≡ Err reason)) }
{
    match value_said(alloc, version, face, seen.proto, field, seen.negated, word)? {
        Ok(said) => {
            if !few_tests(tests.len(), said.len()) {
                return Ok(Err(Why::Many));
            }
            *tests = met_with(alloc, tests.as_slice(), said.as_slice())?;
            Ok(Ok(behind_value(seen, field, word)))
        }
        Err(why) => Ok(Err(why)),
    }
}

/// Whether there are no more pairs of so many tests than a rule may have.
fn few_tests(tests: usize, said: usize) -> bool
    ensures { result ≡ nat_le (tests * said) 4095 }
{
    match tests.checked_mul(said) {
        Some(pairs) => pairs <= MOST_TESTS,
        None => false,
    }
}

/// The same behind a value.
fn behind_value(seen: &Seen, field: Field, word: &[u8]) -> Seen
    ensures { result ≡ behind_value seen.now field word.now }
{
    Seen {
        expects: Expects::Says(Part::Option),
        negated: false,
        proto: proto_behind(seen.proto, field, seen.negated, word),
        target: seen.target,
    }
}

/// Reads a word that is no value, by what it is to be.
fn step(seen: &Seen, word: &[u8], names: &Names, face: &[u8], part: Part) -> Result<Seen, Why>
    ensures { result ≡ step face.now names.now seen.now word.now part }
{
    match part {
        Part::Option => read_option(seen, word, face),
        Part::Negated => read_negated(seen, word, face),
        Part::Module => read_module(seen, word),
        Part::Comment => Ok(read_comment(seen, word)),
        Part::Quoted => Ok(read_quoted(seen, word)),
        Part::Target => read_target(seen, word, names),
        Part::Skipped => Ok(expecting(seen, Expects::Says(Part::Option))),
    }
}

/// Reads a word that says what it is.
fn read_option(seen: &Seen, word: &[u8], face: &[u8]) -> Result<Seen, Why>
    ensures { result ≡ read_option face.now seen.now word.now }
{
    match field_of(word, face) {
        Some(field) => Ok(expecting(seen, Expects::Value(field))),
        None => match part_of(word) {
            Ok(part) => Ok(expecting(seen, Expects::Says(part))),
            Err(why) => Err(why),
        },
    }
}

/// Reads one behind `!`.
fn read_negated(seen: &Seen, word: &[u8], face: &[u8]) -> Result<Seen, Why>
    ensures { result ≡ read_negated face.now seen.now word.now }
{
    match field_of(word, face) {
        Some(field) => Ok(Seen {
            expects: Expects::Value(field),
            negated: true,
            ..*seen
        }),
        None => Err(why_not(part_of(word))),
    }
}

/// Why a word isn't said behind `!` that tests no field.
fn why_not(part: Result<Part, Why>) -> Why
    ensures { result ≡ why_not part }
{
    match part {
        Ok(_) => Why::Negation,
        Err(why) => why,
    }
}

/// The field that a word tests, where packets come in by this interface, or by any.
fn field_of(word: &[u8], face: &[u8]) -> Option<Field>
    ensures { result ≡ field_of face.now word.now }
{
    if is_named(word, b"-s") {
        Some(Field::Block(Side::Src))
    } else if is_named(word, b"-d") {
        Some(Field::Block(Side::Dst))
    } else if is_named(word, b"--src-range") {
        Some(Field::Span(Side::Src))
    } else if is_named(word, b"--dst-range") {
        Some(Field::Span(Side::Dst))
    } else if is_named(word, b"-p") {
        Some(Field::Proto)
    } else if is_named(word, b"-i") {
        face_field(face)
    } else {
        port_field(word)
    }
}

/// The interface, where the list is for the packets of one.
fn face_field(face: &[u8]) -> Option<Field>
    ensures { result ≡ face_field face.now }
{
    if face.is_empty() {
        return None;
    }
    Some(Field::Face)
}

/// The ports that a word tests.
fn port_field(word: &[u8]) -> Option<Field>
    ensures { result ≡ port_field word.now }
{
    if is_named(word, b"--sport") {
        Some(Field::Ports(Ends::Of(Side::Src), false))
    } else if is_named(word, b"--dport") {
        Some(Field::Ports(Ends::Of(Side::Dst), false))
    } else if is_named(word, b"--sports") {
        Some(Field::Ports(Ends::Of(Side::Src), true))
    } else if is_named(word, b"--dports") {
        Some(Field::Ports(Ends::Of(Side::Dst), true))
    } else if is_named(word, b"--ports") {
        Some(Field::Ports(Ends::Either, true))
    } else {
        None
    }
}

/// What a word asks for that tests no field.
fn part_of(word: &[u8]) -> Result<Part, Why>
    ensures { result ≡ part_of word.now }
{
    if is_named(word, b"!") {
        Ok(Part::Negated)
    } else if is_named(word, b"-m") {
        Ok(Part::Module)
    } else if is_named(word, b"-j") {
        Ok(Part::Target)
    } else if is_named(word, b"--comment") {
        Ok(Part::Comment)
    } else if is_named(word, b"--reject-with") {
        Ok(Part::Skipped)
    } else {
        Err(why_no_option(word))
    }
}

/// Why a rule with another word isn't said.
fn why_no_option(word: &[u8]) -> Why
    ensures { result ≡ why_no_option word.now }
{
    if is_named(word, b"-i") || is_named(word, b"-o") {
        return Why::Interface;
    }
    Why::Word
}

/// Reads the name of what the words behind it are of.
fn read_module(seen: &Seen, word: &[u8]) -> Result<Seen, Why>
    ensures { result ≡ read_module seen.now word.now }
{
    if is_module(word) {
        return Ok(expecting(seen, Expects::Says(Part::Option)));
    }
    Err(why_no_module(word))
}

/// Whether the words of a module are known.
fn is_module(word: &[u8]) -> bool
    ensures { result ≡ is_module word.now }
{
    is_named(word, b"tcp")
        || is_named(word, b"udp")
        || is_named(word, b"multiport")
        || is_named(word, b"iprange")
        || is_named(word, b"comment")
}

/// Why a rule of another one isn't said.
fn why_no_module(word: &[u8]) -> Why
    ensures { result ≡ why_no_module word.now }
{
    if is_named(word, b"conntrack") || is_named(word, b"state") {
        return Why::State;
    }
    Why::Match
}

/// Reads a comment, or the first word of it.
fn read_comment(seen: &Seen, word: &[u8]) -> Seen
    ensures { result ≡ read_comment seen.now word.now }
{
    if opens_quote(word) {
        return expecting(seen, Expects::Says(Part::Quoted));
    }
    expecting(seen, Expects::Says(Part::Option))
}

/// Reads more of it.
fn read_quoted(seen: &Seen, word: &[u8]) -> Seen
    ensures { result ≡ read_quoted seen.now word.now }
{
    if ends_quote(word) {
        return expecting(seen, Expects::Says(Part::Option));
    }
    expecting(seen, Expects::Says(Part::Quoted))
}

/// Reads a target.
fn read_target(seen: &Seen, word: &[u8], names: &Names) -> Result<Seen, Why>
    ensures { result ≡ read_target seen.now seen.now.target (target_of names.now word.now) }
{
    if seen.target.is_some() {
        return Err(Why::Twice);
    }
    match target_of(word, names) {
        None => Err(Why::Target),
        Some(target) => Ok(Seen {
            expects: Expects::Says(Part::Option),
            target: Some(target),
            ..*seen
        }),
    }
}

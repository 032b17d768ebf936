//! Which word of a line is at fault.

ghost use Rattle.std.specs.Prelude.{◌≡◌, ◌≤◌, ℕ, List, IfSome, IsSome, codes, length, option_map, take};
ghost use Rattle.std.specs.Str.{bytes_eq};
ghost use Rattle.line_words.specs.Kinds.{Notation};
ghost use Rattle.line_words.specs.Notations.{notation_for};
ghost use Rattle.line_words.specs.Words.{words_of};
ghost use Rattle.script_faults.specs.Troubles as troubles;
ghost use Rattle.route_reader.specs.Grammar.{route_line};
ghost use Rattle.acl_reader.specs.Grammar.{acl_line};
ghost use Rattle.script_faults.specs.Troubles.{IsAtFault, fault_by, grammar_version, line_fault, list_command_fault, route_command_fault};

use crate::forms::{Form, Grammar, Kind, form_of, kind_at, words_in};
use crate::places::word_at;
use acl_reader::{AclCommand, read_acl};
use line_words::{
    WordFault, action_of, address_of, count_of, frame_key, port_of, ports_of, prefix_of,
    protocol_choice, protocol_of, result_of, sequence_of, side_of,
};
use route_reader::{RouteCommand, read_route};
use rule_model::IpVersion;
use script_lines::{LINE_BYTES, Line};

/// Why a word is at fault.
#[derive(Clone, Copy, Debug, PartialEq, Eq)]
pub enum Why {
    /// It begins no command of the script's kind.
    Unknown,
    /// It is missing: the command has more words.
    Missing(Form),
    /// The word of this kind is missing before it: the command has more words, and this one is the next one's.
    Skipped(Form, Kind),
    /// It is one too many for this command.
    TooMany(Form),
    /// It isn't of its kind.
    Bad(Kind),
    /// The reader's fault is that of no word that was found.
    Unexplained,
}

/// What is wrong with a line: the reader's fault, the place of the word that has it, from 0, and why it has. At the
/// place of a word that is missing none stands, or the next one.
#[derive(Clone, Copy, Debug, PartialEq, Eq)]
pub struct Trouble {
    pub fault: WordFault,
    pub place: usize,
    pub why: Why,
}

/// What is wrong with a line of a script of this kind, by its reader. Nothing comes exactly where the reader reads it: it is
/// a command, or it is skipped.
pub fn trouble_of(grammar: Grammar, line: &Line) -> Option<Trouble>
    requires { line.now.len ≤ LINE_BYTES }
    ensures fault { option_map (λ trouble. trouble.fault) result ≡ line_fault grammar (take line.now.len line.now.bytes) }
    ensures word { IfSome result (λ trouble. IsAtFault (notation_for (grammar_version grammar)) (words_of (take line.now.len line.now.bytes)) trouble.fault trouble.place trouble.why) }
    ensures near { IfSome result (λ trouble. trouble.place ≤ 9) }
{
    match fault_of(grammar, line) {
        Some(fault) => {
            let (place, why) = wrong_word(grammar, fault, &line.bytes[..usize::from(line.len)]);
            Some(Trouble { fault, place, why })
        }
        None => None,
    }
}

/// The fault of a line by its reader, if it has one.
fn fault_of(grammar: Grammar, line: &Line) -> Option<WordFault>
    requires { line.now.len ≤ LINE_BYTES }
    ensures { result ≡ line_fault grammar (take line.now.len line.now.bytes) }
{
    match grammar {
        Grammar::Routes(version) => read_route(line, version).err(),
        Grammar::List(version) => read_acl(line, version).err(),
        Grammar::Router(version) => router_fault(version, line),
    }
}

/// The fault of a line of a router's script, if it has one: its first word says which reader reads it.
fn router_fault(version: IpVersion, line: &Line) -> Option<WordFault>
    requires { line.now.len ≤ LINE_BYTES }
    ensures { result ≡ troubles.router_fault version (words_of (take line.now.len line.now.bytes)) (take line.now.len line.now.bytes) }
{
    match word_at(&line.bytes[..usize::from(line.len)], 0) {
        Some(first) => fault_from(version, first, line),
        None => read_route(line, version).err(),
    }
}

/// The fault of a line of a router's script that begins with this word, if it has one.
fn fault_from(version: IpVersion, first: &[u8], line: &Line) -> Option<WordFault>
    requires { line.now.len ≤ LINE_BYTES }
    ensures { result ≡ troubles.fault_from version first.now (take line.now.len line.now.bytes) }
{
    if is_of_one_table(first) {
        return Some(WordFault::UnknownCommand);
    }
    if is_acl(first) {
        return list_fault(version, line);
    }
    routes_fault(version, line)
}

/// The fault of a line for a router's list, if it has one.
fn list_fault(version: IpVersion, line: &Line) -> Option<WordFault>
    requires { line.now.len ≤ LINE_BYTES }
    ensures { result ≡ fault_by list_command_fault (acl_line (notation_for version) (take line.now.len line.now.bytes)) }
{
    match read_acl(line, version) {
        Ok(Some(command)) => list_command_fault(&command),
        Ok(None) => None,
        Err(fault) => Some(fault),
    }
}

/// The fault of a line for a router's routes, or for both of its tables, if it has one.
fn routes_fault(version: IpVersion, line: &Line) -> Option<WordFault>
    requires { line.now.len ≤ LINE_BYTES }
    ensures { result ≡ fault_by route_command_fault (route_line (notation_for version) (take line.now.len line.now.bytes)) }
{
    match read_route(line, version) {
        Ok(Some(command)) => route_command_fault(&command),
        Ok(None) => None,
        Err(fault) => Some(fault),
    }
}

/// The fault of a command of an access list in a router's script, which has none that doesn't ask what is there.
fn list_command_fault(command: &AclCommand) -> Option<WordFault>
    ensures { result ≡ list_command_fault command.now }
{
    match command {
        AclCommand::Put(_) | AclCommand::Drop(_) | AclCommand::All => {
            Some(WordFault::UnknownCommand)
        }
        AclCommand::Add(_) | AclCommand::Set(_, _) | AclCommand::Del(_) | AclCommand::Common(_) => {
            None
        }
    }
}

/// The same of a command of routes.
fn route_command_fault(command: &RouteCommand) -> Option<WordFault>
    ensures { result ≡ route_command_fault command.now }
{
    match command {
        RouteCommand::Put(_, _) | RouteCommand::Drop(_) | RouteCommand::All => {
            Some(WordFault::UnknownCommand)
        }
        RouteCommand::Add(_, _)
        | RouteCommand::Set(_, _)
        | RouteCommand::Del(_)
        | RouteCommand::Common(_) => None,
    }
}

/// Whether a word begins a command of scripts of one table, and none of a router's.
fn is_of_one_table(word: &[u8]) -> bool
    ensures { result ≡ troubles.is_of_one_table word.now }
{
    matches!(word, b"probe" | b"trial" | b"crash")
}

/// Whether this is the word `acl`.
fn is_acl(word: &[u8]) -> bool
    ensures { result ≡ bytes_eq word.now (codes "acl") }
{
    matches!(word, b"acl")
}

/// The place of the word that has the fault of a line, from 0, and why.
fn wrong_word(grammar: Grammar, fault: WordFault, text: &[u8]) -> (usize, Why)
    requires { length text.now ≤ LINE_BYTES }
    ensures word { IsAtFault (notation_for (grammar_version grammar)) (words_of text.now) fault result.0 result.1 }
    ensures near { result.0 ≤ 9 }
{
    let first = word_at(text, 0).unwrap_or(b"");
    match form_of(grammar, first, word_at(text, 1)) {
        Err(place) => no_command(fault, place),
        Ok(form) => wrong_in(form, fault, grammar.version(), text),
    }
}

/// The word at a place that begins no command, where that is the fault.
fn no_command(fault: WordFault, place: usize) -> (usize, Why)
    requires { place ≤ 1 }
    ensures word { (notation : Notation) → (words : List (List ℕ)) → IsAtFault notation words fault result.0 result.1 }
    ensures near { result.0 ≤ 9 }
{
    match fault {
        WordFault::UnknownCommand => (place, Why::Unknown),
        _ => (0, Why::Unexplained),
    }
}

/// The word of a command that has a fault, and why.
fn wrong_in(form: Form, fault: WordFault, version: IpVersion, text: &[u8]) -> (usize, Why)
    requires { length text.now ≤ LINE_BYTES }
    ensures word { IsAtFault (notation_for version) (words_of text.now) fault result.0 result.1 }
    ensures near { result.0 ≤ 9 }
{
    match fault {
        WordFault::WordCount => miscounted(form, version, text),
        // A router's script has no such command.
        WordFault::UnknownCommand => (1, Why::Unknown),
        _ => wrong_among(form, fault, version, text),
    }
}

/// The word that a command has too many, and else the leftmost one that is missing.
fn miscounted(form: Form, version: IpVersion, text: &[u8]) -> (usize, Why)
    requires { length text.now ≤ LINE_BYTES }
    ensures word { IsAtFault (notation_for version) (words_of text.now) WordFault.WordCount result.0 result.1 }
    ensures near { result.0 ≤ 9 }
{
    let words = words_in(form);
    match word_at(text, words) {
        Some(_) => (words, Why::TooMany(form)),
        None => missing(form, words, version, text),
    }
}

/// The leftmost word that is missing of a command of so many words: one in whose place the next one stands, or else the one
/// behind the last.
fn missing(form: Form, words: usize, version: IpVersion, text: &[u8]) -> (usize, Why)
    requires words { words ≤ 9 }
    requires short { length text.now ≤ LINE_BYTES }
    ensures word { IsAtFault (notation_for version) (words_of text.now) WordFault.WordCount result.0 result.1 }
    ensures near { result.0 ≤ 9 }
{
    for place in 0..words {
        match word_at(text, place) {
            Some(word) => {
                if let Some(kind) = skipped_kind(form, place, word, version) {
                    return (place, Why::Skipped(form, kind));
                }
            }
            None => return (place, Why::Missing(form)),
        }
    }
    (0, Why::Unexplained)
}

/// The kind of the word that is to stand at a place of a command, where this one isn't of it and is of the next one's.
fn skipped_kind(form: Form, place: usize, word: &[u8], version: IpVersion) -> Option<Kind>
    requires { length word.now ≤ LINE_BYTES }
    ensures { IfSome result (λ kind. IsSome (troubles.word_fault (notation_for version) kind word.now)) }
{
    let kind = kind_at(form, place)?;
    let next = kind_at(form, place.saturating_add(1))?;
    match (
        word_fault(kind, word, version),
        word_fault(next, word, version),
    ) {
        (Some(_), None) => Some(kind),
        _ => None,
    }
}

/// The leftmost word of a command that has a fault.
fn wrong_among(form: Form, fault: WordFault, version: IpVersion, text: &[u8]) -> (usize, Why)
    requires { length text.now ≤ LINE_BYTES }
    ensures word { IsAtFault (notation_for version) (words_of text.now) fault result.0 result.1 }
    ensures near { result.0 ≤ 9 }
{
    for place in 0..words_in(form) {
        if let Some(kind) = bad_kind(form, place, fault, version, text) {
            return (place, Why::Bad(kind));
        }
    }
    (0, Why::Unexplained)
}

/// The kind of the word at a place of a command, if it has one and, as a word of it, this fault.
fn bad_kind(
    form: Form,
    place: usize,
    fault: WordFault,
    version: IpVersion,
    text: &[u8],
) -> Option<Kind>
    requires { length text.now ≤ LINE_BYTES }
    ensures { IfSome result (λ kind. IsAtFault (notation_for version) (words_of text.now) fault place (Why.Bad kind)) }
{
    let kind = kind_at(form, place)?;
    let word = word_at(text, place)?;
    match word_fault(kind, word, version) {
        Some(found) if found == fault => Some(kind),
        _ => None,
    }
}

/// The fault of a word that is to be of a kind, if it has one.
fn word_fault(kind: Kind, word: &[u8], version: IpVersion) -> Option<WordFault>
    requires { length word.now ≤ LINE_BYTES }
    ensures { result ≡ troubles.word_fault (notation_for version) kind word.now }
{
    match kind {
        Kind::Prefix => prefix_of(word, version).err(),
        Kind::Answer => result_of(word).err(),
        Kind::Sequence => sequence_of(word).err(),
        Kind::Action => action_of(word).err(),
        Kind::Side => side_of(word, version).err(),
        Kind::ProtocolSpec => protocol_choice(word).err(),
        Kind::PortSpec => ports_of(word).err(),
        Kind::Address => address_of(word, version).err(),
        Kind::Protocol => protocol_of(word).err(),
        Kind::Port => port_of(word).err(),
        Kind::Count => count_of(word).err(),
        Kind::Hex => frame_key(word, version).err(),
    }
}

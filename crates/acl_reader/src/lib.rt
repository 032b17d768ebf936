//! The commands of an access-list script.
//!
//!     acl add SEQ ACTION SIDE SIDE PROTOSPEC PORTSPEC PORTSPEC
//!     acl set SEQ ACTION
//!     acl del SEQ
//!     acl put SEQ ACTION SIDE SIDE PROTOSPEC PORTSPEC PORTSPEC
//!     acl drop SEQ
//!     acl all
//!     probe KEY
//!     packet KEY
//!     frame HEX
//!     commit
//!     trial COUNT
//!     crash COUNT
//!
//! Addresses, prefixes and frames are those of one version of IP, which the caller names. `read_acl` is equal to the
//! grammar both ways: it answers a command only where the line is one, and a fault only where the line has that fault.
//! Faults are found in a fixed order: the words that begin no command, then a wrong number of words, then the leftmost
//! bad word. The sides and the ports of a rule are written source first. A rule on ports isn't tied to a protocol. What
//! is common to both kinds of script stands in `line_words`; here is what access lists alone have. Nothing takes
//! memory.
#![tactic(auto)]

ghost use Rattle.std.specs.Prelude.{◌≡◌, ◌≤◌, ◌∷◌, codes, take};
ghost use Rattle.std.specs.Str.{bytes_eq};
ghost use Rattle.line_words.specs.Notations.{notation_for};
ghost use Rattle.acl_reader.specs.Grammar.{acl_command, acl_line, acl_words, addition, change, forgiving_addition, forgiving_removal, listed_rule, removal, whole_set};

use line_words::{
    CommonCommand, WordFault, Words, action_of, command_words, common_command, ports_of,
    protocol_choice, sequence_of, side_of,
};
use rule_model::{IpVersion, Rule, list_rank};
use script_lines::{LINE_BYTES, Line};

/// A command of an access-list script.
#[derive(Clone, Copy, Debug, PartialEq, Eq)]
pub enum AclCommand {
    /// Adds a rule, whose priority is that of its sequence number.
    Add(Rule),
    /// Gives the rule of this sequence number this result.
    Set(u32, u32),
    /// Removes the rule of this sequence number.
    Del(u32),
    /// Has a rule stand, whether one of its sequence number stood or not.
    Put(Rule),
    /// Has no rule of this sequence number stand, whether one stood or not.
    Drop(u32),
    /// Has the changes from here to the commit make the whole new set.
    All,
    /// One that both kinds of script have.
    Common(CommonCommand),
}

/// Reads a line of an access-list script: the command that it is, or nothing where it has no word or its
/// first word begins with `#`. Addresses, prefixes and frames are read as those of this version of IP.
///
/// UnknownCommand comes where the first word, or for `acl` the first two, begin no command. WordCount
/// comes where the command has another number of words. Else the fault is that of the leftmost word
/// that isn't of its kind.
pub fn read_acl(line: &Line, version: IpVersion) -> Result<Option<AclCommand>, WordFault>
    requires { line.now.len ≤ LINE_BYTES }
    ensures { result ≡ acl_line (notation_for version) (take line.now.len line.now.bytes) }
{
    match command_words(&line.bytes[..usize::from(line.len)]) {
        None => Ok(None),
        Some((first, words)) => Ok(Some(command_of(first, words, version)?)),
    }
}

/// The command of a line that begins with this word, from the words behind it.
fn command_of(first: &[u8], rest: Words<'_>, version: IpVersion) -> Result<AclCommand, WordFault>
    ensures { result ≡ acl_command (notation_for version) (first.now ∷ rest.entry) }
{
    if is_acl(first) {
        return acl_words(rest, version);
    }
    Ok(AclCommand::Common(common_command(first, rest, version)?))
}

/// Whether this is the word `acl`.
fn is_acl(word: &[u8]) -> bool
    ensures { result ≡ bytes_eq word.now (codes "acl") }
{
    matches!(word, b"acl")
}

/// The command of a line whose first word is `acl`, from the words behind it.
fn acl_words(mut words: Words<'_>, version: IpVersion) -> Result<AclCommand, WordFault>
    ensures { result ≡ acl_words (notation_for version) words.entry }
{
    let verb = words.next().ok_or(WordFault::UnknownCommand)?;
    match verb {
        b"add" => addition(words, version),
        b"set" => change(words),
        b"del" => removal(words),
        b"put" => forgiving_addition(words, version),
        b"drop" => forgiving_removal(words),
        b"all" => whole_set(words),
        _ => Err(WordFault::UnknownCommand),
    }
}

/// The addition of a rule, from its seven words.
fn addition(words: Words<'_>, version: IpVersion) -> Result<AclCommand, WordFault>
    ensures { result ≡ addition (notation_for version) words.entry }
{
    Ok(AclCommand::Add(listed_rule(words, version)?))
}

/// The rule of a list, from its seven words.
fn listed_rule(mut words: Words<'_>, version: IpVersion) -> Result<Rule, WordFault>
    ensures { result ≡ listed_rule (notation_for version) words.entry }
{
    let sequence = words.required()?;
    let action = words.required()?;
    let src = words.required()?;
    let dst = words.required()?;
    let proto = words.required()?;
    let sport = words.required()?;
    let dport = words.required()?;
    words.end()?;
    let number = sequence_of(sequence)?;
    let answer = action_of(action)?;
    Ok(Rule {
        priority: list_rank(number),
        src: side_of(src, version)?,
        dst: side_of(dst, version)?,
        proto: protocol_choice(proto)?,
        sport: ports_of(sport)?,
        dport: ports_of(dport)?,
        result: answer,
    })
}

/// The new result of a rule, from its two words.
fn change(mut words: Words<'_>) -> Result<AclCommand, WordFault>
    ensures { result ≡ change words.entry }
{
    let sequence = words.required()?;
    let action = words.required()?;
    words.end()?;
    Ok(AclCommand::Set(sequence_of(sequence)?, action_of(action)?))
}

/// The removal of a rule, from its one word.
fn removal(mut words: Words<'_>) -> Result<AclCommand, WordFault>
    ensures { result ≡ removal words.entry }
{
    let sequence = words.required()?;
    words.end()?;
    Ok(AclCommand::Del(sequence_of(sequence)?))
}

/// A rule that is to stand, from its seven words.
fn forgiving_addition(words: Words<'_>, version: IpVersion) -> Result<AclCommand, WordFault>
    ensures { result ≡ forgiving_addition (notation_for version) words.entry }
{
    Ok(AclCommand::Put(listed_rule(words, version)?))
}

/// A rule that is to go, from its one word.
fn forgiving_removal(mut words: Words<'_>) -> Result<AclCommand, WordFault>
    ensures { result ≡ forgiving_removal words.entry }
{
    let sequence = words.required()?;
    words.end()?;
    Ok(AclCommand::Drop(sequence_of(sequence)?))
}

/// The beginning of a whole new set, where no word is left.
fn whole_set(words: Words<'_>) -> Result<AclCommand, WordFault>
    ensures { result ≡ whole_set words.entry }
{
    words.end()?;
    Ok(AclCommand::All)
}

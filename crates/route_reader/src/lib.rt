//! The commands of a route script.
//!
//!     route add PREFIX RESULT
//!     route set PREFIX RESULT
//!     route del PREFIX
//!     route put PREFIX RESULT
//!     route drop PREFIX
//!     route all
//!     probe KEY
//!     packet KEY
//!     frame HEX
//!     commit
//!     trial COUNT
//!     crash COUNT
//!
//! Addresses, prefixes and frames are those of one version of IP, which the caller names. `read_route` is equal to the
//! grammar both ways: it answers a command only where the line is one, and a fault only where the line has that fault.
//! Faults are found in a fixed order: the words that begin no command, then a wrong number of words, then the leftmost
//! bad word. What is common to both kinds of script stands in `line_words`; here is what routes alone have, and which
//! rule a route of a version is (`routes`). Nothing takes memory.
#![tactic(auto)]

mod routes;

ghost use Rattle.std.specs.Prelude.{◌≡◌, ◌≤◌, ◌∷◌, codes, take};
ghost use Rattle.std.specs.Str.{bytes_eq};
ghost use Rattle.line_words.specs.Notations.{notation_for};
ghost use Rattle.route_reader.specs.Grammar.{addition, change, forgiving_addition, forgiving_removal, removal, route_command, route_line, route_words, whole_set};

use line_words::{
    CommonCommand, WordFault, Words, command_words, common_command, prefix_of, result_of,
};
pub use routes::{route_of, route_rank};
use rule_model::{IpVersion, Prefix};
use script_lines::{LINE_BYTES, Line};

/// A command of a route script.
#[derive(Clone, Copy, Debug, PartialEq, Eq)]
pub enum RouteCommand {
    /// Adds a route with its result.
    Add(Prefix, u32),
    /// Gives a route that stands this result.
    Set(Prefix, u32),
    /// Removes a route.
    Del(Prefix),
    /// Has a route stand with its result, whether one stood or not.
    Put(Prefix, u32),
    /// Has no route of this prefix stand, whether one stood or not.
    Drop(Prefix),
    /// Has the changes from here to the commit make the whole new set.
    All,
    /// One that both kinds of script have.
    Common(CommonCommand),
}

/// Reads a line of a route script: the command that it is, or nothing where it has no word or its first
/// word begins with `#`. Addresses, prefixes and frames are read as those of this version of IP.
///
/// UnknownCommand comes where the first word, or for `route` the first two, begin no command. WordCount
/// comes where the command has another number of words. Else the fault is that of the leftmost word
/// that isn't of its kind.
pub fn read_route(line: &Line, version: IpVersion) -> Result<Option<RouteCommand>, WordFault>
    requires { line.now.len ≤ LINE_BYTES }
    ensures { result ≡ route_line (notation_for version) (take line.now.len line.now.bytes) }
{
    match command_words(&line.bytes[..usize::from(line.len)]) {
        None => Ok(None),
        Some((first, words)) => Ok(Some(command_of(first, words, version)?)),
    }
}

/// The command of a line that begins with this word, from the words behind it.
fn command_of(first: &[u8], rest: Words<'_>, version: IpVersion) -> Result<RouteCommand, WordFault>
    ensures { result ≡ route_command (notation_for version) (first.now ∷ rest.entry) }
{
    if is_route(first) {
        return route_words(rest, version);
    }
    Ok(RouteCommand::Common(common_command(first, rest, version)?))
}

/// Whether this is the word `route`.
fn is_route(word: &[u8]) -> bool
    ensures { result ≡ bytes_eq word.now (codes "route") }
{
    matches!(word, b"route")
}

/// The command of a line whose first word is `route`, from the words behind it.
fn route_words(mut words: Words<'_>, version: IpVersion) -> Result<RouteCommand, WordFault>
    ensures { result ≡ route_words (notation_for version) words.entry }
{
    let verb = words.next().ok_or(WordFault::UnknownCommand)?;
    match verb {
        b"add" => addition(words, version),
        b"set" => change(words, version),
        b"del" => removal(words, version),
        b"put" => forgiving_addition(words, version),
        b"drop" => forgiving_removal(words, version),
        b"all" => whole_set(words),
        _ => Err(WordFault::UnknownCommand),
    }
}

/// The addition of a route, from its two words.
fn addition(mut words: Words<'_>, version: IpVersion) -> Result<RouteCommand, WordFault>
    ensures { result ≡ addition (notation_for version) words.entry }
{
    let prefix = words.required()?;
    let answer = words.required()?;
    words.end()?;
    Ok(RouteCommand::Add(prefix_of(prefix, version)?, result_of(answer)?))
}

/// The change of a route's result, from its two words.
fn change(mut words: Words<'_>, version: IpVersion) -> Result<RouteCommand, WordFault>
    ensures { result ≡ change (notation_for version) words.entry }
{
    let prefix = words.required()?;
    let answer = words.required()?;
    words.end()?;
    Ok(RouteCommand::Set(prefix_of(prefix, version)?, result_of(answer)?))
}

/// The removal of a route, from its one word.
fn removal(mut words: Words<'_>, version: IpVersion) -> Result<RouteCommand, WordFault>
    ensures { result ≡ removal (notation_for version) words.entry }
{
    let prefix = words.required()?;
    words.end()?;
    Ok(RouteCommand::Del(prefix_of(prefix, version)?))
}

/// A route that is to stand, from its two words.
fn forgiving_addition(mut words: Words<'_>, version: IpVersion) -> Result<RouteCommand, WordFault>
    ensures { result ≡ forgiving_addition (notation_for version) words.entry }
{
    let prefix = words.required()?;
    let answer = words.required()?;
    words.end()?;
    Ok(RouteCommand::Put(prefix_of(prefix, version)?, result_of(answer)?))
}

/// A route that is to go, from its one word.
fn forgiving_removal(mut words: Words<'_>, version: IpVersion) -> Result<RouteCommand, WordFault>
    ensures { result ≡ forgiving_removal (notation_for version) words.entry }
{
    let prefix = words.required()?;
    words.end()?;
    Ok(RouteCommand::Drop(prefix_of(prefix, version)?))
}

/// The beginning of a whole new set, where no word is left.
fn whole_set(words: Words<'_>) -> Result<RouteCommand, WordFault>
    ensures { result ≡ whole_set words.entry }
{
    words.end()?;
    Ok(RouteCommand::All)
}

//! The lines of a router's script, which has the commands of both its tables.
//!
//!     acl add SEQ ACTION SIDE SIDE PROTOSPEC PORTSPEC PORTSPEC
//!     acl set SEQ ACTION
//!     acl del SEQ
//!     route add PREFIX RESULT
//!     route set PREFIX RESULT
//!     route del PREFIX
//!     packet KEY
//!     frame HEX
//!     commit
//!
//! `acl_reader` and `route_reader` read them. What they know besides, `probe`, `trial` and `crash`, is no command here: the
//! first word says so, whatever words follow. Addresses, prefixes and frames are those of one version of IP, which the
//! caller names. Nothing takes memory.
//!
//! # Decided
//! - **The first word says which reader reads a line**: `acl` the list's, any other the routes'. So what both know, `packet`,
//!   `frame` and `commit`, is the routes', and what neither knows has the same fault from either.
#![tactic(auto)]

ghost use Rattle.std.specs.Prelude.{◌≡◌, ◌≤◌, ◌∷◌, ◌↔◌, ℕ, List, Ok, Err, IfOk, IfErr, IfSome, IsNone, IsTrue, codes, length, take};
ghost use Rattle.std.specs.Str.{bytes_eq};
ghost use Rattle.rule_model.specs.Rule as rule;
ghost use Rattle.script_lines.specs.Lines.{numbered};
ghost use Rattle.line_words.specs.Commands.{line_of};
ghost use Rattle.line_words.specs.Notations.{notation_for};
ghost use Rattle.line_words.specs.Texts.{word_fault_text};
ghost use Rattle.line_words.specs.Words.{is_skipped, words_of};
ghost use Rattle.route_reader.specs.Grammar.{route_line};
ghost use Rattle.route_reader.specs.Routes as routes;
ghost use Rattle.acl_reader.specs.Grammar.{acl_line};
ghost use Rattle.router.specs.Routing.{IsActOf};
ghost use Rattle.router_reader.specs.Readings.{acl_act, common_act, is_of_one_table, read_by, route_act, router_command, router_reading};

use acl_reader::{AclCommand, read_acl};
use line_words::{CommonCommand, WordFault, command_words};
use route_reader::{RouteCommand, read_route, route_of, route_rank};
use router::{RouterAct, Side};
use rule_model::{IpVersion, Prefix, list_rank};
use rule_store::Command;
use script_lines::{LINE_BYTES, Line};

/// What a line of a router's script does, or the text of its fault, of at most 32 bytes; nothing where it has no word or its
/// first word begins with `#`. Addresses, prefixes and frames are read as those of this version of IP.
///
/// `unknown command` comes where the first word, or for `acl` and `route` the first two, begin no command of a router: for
/// `probe`, `trial` and `crash` whatever words follow, and for `put`, `drop` and `all` where those that follow are right.
/// `word count` comes where the command has another number of words. Else the fault is that of the leftmost word that isn't
/// of its kind.
pub fn read_router_act(line: &Line, version: IpVersion) -> Result<Option<RouterAct>, &'static str>
    requires { line.now.len ≤ LINE_BYTES }
    ensures ok { IfOk result (λ found. router_reading version (numbered line.now).text ≡ Ok found) }
    ensures err { IfErr result (λ text. router_reading version (numbered line.now).text ≡ Err text.now) }
    ensures act { IfOk result (λ found. IfSome found (IsActOf version)) }
    ensures short { IfErr result (λ text. length text.now ≤ 32) }
{
    match act_of_line(line, version) {
        Ok(found) => Ok(found),
        Err(fault) => Err(fault_text(&fault)),
    }
}

/// The text of a word's fault.
fn fault_text(fault: &WordFault) -> &'static str
    ensures text { result.now ≡ word_fault_text fault.now }
    ensures short { length result.now ≤ 32 }
{
    fault.text()
}

/// What a line does, or its fault.
fn act_of_line(line: &Line, version: IpVersion) -> Result<Option<RouterAct>, WordFault>
    requires { line.now.len ≤ LINE_BYTES }
    ensures read { result ≡ line_of (router_command version) (take line.now.len line.now.bytes) }
    ensures act { IfOk result (λ found. IfSome found (IsActOf version)) }
{
    let Some(first) = first_word(line) else {
        return Ok(None);
    };
    if is_of_one_table(first) {
        return Err(WordFault::UnknownCommand);
    }
    if is_acl(first) {
        return list_act_of(line, version);
    }
    route_act_of(line, version)
}

/// The first word of a line, or nothing where the line is skipped.
fn first_word(line: &Line) -> Option<&[u8]>
    requires { line.now.len ≤ LINE_BYTES }
    ensures skipped { IsNone result ↔ IsTrue (is_skipped (words_of (take line.now.len line.now.bytes))) }
    ensures word { IfSome result (λ first. (rest : List (List ℕ)) × (words_of (take line.now.len line.now.bytes) ≡ first.now ∷ rest)) }
{
    let (first, _) = command_words(&line.bytes[..usize::from(line.len)])?;
    Some(first)
}

/// Whether this word begins a command of a script of one table, and none of a router's.
fn is_of_one_table(word: &[u8]) -> bool
    ensures { result ≡ is_of_one_table word.now }
{
    matches!(word, b"probe" | b"trial" | b"crash")
}

/// Whether this is the word `acl`.
fn is_acl(word: &[u8]) -> bool
    ensures { result ≡ bytes_eq word.now (codes "acl") }
{
    matches!(word, b"acl")
}

/// What a line does by the list's reader.
fn list_act_of(line: &Line, version: IpVersion) -> Result<Option<RouterAct>, WordFault>
    requires { line.now.len ≤ LINE_BYTES }
    ensures read { result ≡ read_by acl_act (acl_line (notation_for version) (take line.now.len line.now.bytes)) }
    ensures act { IfOk result (λ found. IfSome found (IsActOf version)) }
{
    match read_acl(line, version)? {
        None => Ok(None),
        Some(command) => Ok(Some(acl_act(&command)?)),
    }
}

/// What a line does by the routes' reader.
fn route_act_of(line: &Line, version: IpVersion) -> Result<Option<RouterAct>, WordFault>
    requires { line.now.len ≤ LINE_BYTES }
    ensures read { result ≡ read_by (route_act version) (route_line (notation_for version) (take line.now.len line.now.bytes)) }
    ensures act { IfOk result (λ found. IfSome found (IsActOf version)) }
{
    match read_route(line, version)? {
        None => Ok(None),
        Some(command) => Ok(Some(route_act(&command, version)?)),
    }
}

/// The act that a command of an access-list script is, if it is one of a router's.
fn acl_act(command: &AclCommand) -> Result<RouterAct, WordFault>
    ensures read { result ≡ acl_act command.now }
    ensures act { (version : IpVersion) → IfOk result (IsActOf version) }
{
    match command {
        AclCommand::Add(rule) => Ok(RouterAct::Change(Side::List, Command::Add(*rule))),
        AclCommand::Set(sequence, answer) => Ok(RouterAct::Change(
            Side::List,
            Command::Set {
                priority: list_rank(*sequence),
                result: *answer,
            },
        )),
        AclCommand::Del(sequence) => Ok(RouterAct::Change(
            Side::List,
            Command::Del(list_rank(*sequence)),
        )),
        AclCommand::Put(_) | AclCommand::Drop(_) | AclCommand::All => {
            Err(WordFault::UnknownCommand)
        }
        AclCommand::Common(command) => common_act(command),
    }
}

/// The act that a command of a route script is, if it is one of a router's. What it adds is a route of its version of IP.
fn route_act(command: &RouteCommand, version: IpVersion) -> Result<RouterAct, WordFault>
    requires { routes.IsCommandOf version command.now }
    ensures read { result ≡ route_act version command.now }
    ensures act { IfOk result (IsActOf version) }
{
    match command {
        RouteCommand::Add(prefix, answer) => Ok(route_addition(*prefix, *answer, version)),
        RouteCommand::Set(prefix, answer) => Ok(RouterAct::Change(
            Side::Routes,
            Command::Set {
                priority: route_rank(prefix, version),
                result: *answer,
            },
        )),
        RouteCommand::Del(prefix) => Ok(RouterAct::Change(
            Side::Routes,
            Command::Del(route_rank(prefix, version)),
        )),
        RouteCommand::Put(_, _) | RouteCommand::Drop(_) | RouteCommand::All => {
            Err(WordFault::UnknownCommand)
        }
        RouteCommand::Common(command) => common_act(command),
    }
}

/// The act that adds a route of a version of IP.
fn route_addition(prefix: Prefix, answer: u32, version: IpVersion) -> RouterAct
    requires { routes.IsBlockOf version prefix }
    ensures act_is { result ≡ RouterAct.Change Side.Routes (Command.Add (rule.route_rule (routes.route_rank version prefix) prefix answer)) }
    ensures act { IsActOf version result }
{
    RouterAct::Change(
        Side::Routes,
        Command::Add(route_of(prefix, answer, version)),
    )
}

/// The act that a command of both kinds of script is, if it is one of a router's.
fn common_act(command: &CommonCommand) -> Result<RouterAct, WordFault>
    ensures read { result ≡ common_act command.now }
    ensures act { (version : IpVersion) → IfOk result (IsActOf version) }
{
    match command {
        CommonCommand::Packet(key) => Ok(RouterAct::Packet(*key)),
        CommonCommand::Commit => Ok(RouterAct::Commit),
        CommonCommand::Probe(_) | CommonCommand::Trial(_) | CommonCommand::Crash(_) => {
            Err(WordFault::UnknownCommand)
        }
    }
}

//! What a line is, by the table in which it stands.

ghost use Rattle.std.specs.Prelude.{◌≡◌, [], Ok, Err, IfOk, MatchResult};
ghost use Rattle.line_words.specs.Words.{words_of};
ghost use Rattle.iptables.specs.Lines.{added, begins_with, chain_change, change_of, declared, hook_name, in_filter, has_quote, in_other, is_ambiguous, is_other_hook, kind_of, names_passing, names_verdict, outside, plain, policy_of, remark_change, rule_change, target_change, word_change};

use crate::fields::any_tests;
use crate::names::Names;
use crate::passing::passes;
use crate::reading::read_rule;
use crate::why::Why;
use crate::words::{first_word, is_named};
use rule_model::IpVersion;
use std::alloc::{AllocError, Global};
use written_chains::{Target, Tests};

/// A chain that packets meet first.
#[derive(Clone, Copy, Debug, PartialEq, Eq)]
pub enum Hook {
    /// Packets to this machine.
    Input,
    /// Packets that it sends on.
    Forward,
    /// Packets from it.
    Output,
}

impl Hook {
    /// The chain's name.
    pub(crate) fn name(self) -> &'static str
        ensures { result.now ≡ hook_name self }
    {
        match self {
            Hook::Input => "INPUT",
            Hook::Forward => "FORWARD",
            Hook::Output => "OUTPUT",
        }
    }
}

/// The table in which a line stands.
#[derive(Clone, Copy, Debug, PartialEq, Eq)]
pub(crate) enum Table {
    /// None.
    Outside,
    /// The table filter.
    Filter,
    /// Another one.
    Other,
}

/// What the first word of a line says that it is.
#[derive(Clone, Copy, Debug, PartialEq, Eq)]
pub(crate) enum Kind {
    /// A line of another table.
    Nothing,
    /// A comment.
    Remark,
    /// The beginning of a table, or its end.
    Begins(Table),
    /// A chain and its policy.
    Declares,
    /// A rule.
    Rule,
    /// The end of the table filter.
    Lists,
    /// It isn't known.
    Unknown,
}

/// What a line changes.
#[derive(Clone, Copy, Debug, PartialEq, Eq)]
pub(crate) enum Change {
    Nothing,
    /// Another table begins, or ends.
    Begins(Table),
    /// A chain is declared, of this policy if it has one.
    Declares(Option<bool>),
    /// Rules of the chain of this number come behind the others, all of one target.
    Adds(usize, Target),
    /// A rule that decides nothing.
    Notes,
    /// A rule that holds no packet.
    Empty,
    /// All rules are there.
    Lists,
}

/// What a line changes; the tests of the rule that it adds are put there. Err: why it isn't said, and the word.
pub(crate) fn change_of<'t>(
    alloc: Global,
    tests: &mut Vec<Tests>,
    table: Table,
    hook: Hook,
    names: &Names,
    version: IpVersion,
    face: &[u8],
    text: &'t [u8],
) -> Result<Result<Change, (Why, &'t [u8])>, AllocError>
    requires { tests.old.items ≡ [] }
    ensures { IfOk result (λ answer. MatchResult answer (λ change. change_of table hook names.now version face.now (words_of text.now) ≡ Ok (record { change = change; tests = tests.new.items }))
        (λ unsaid. change_of table hook names.now version face.now (words_of text.now) ≡ Err (record { why = unsaid.0; word = unsaid.1.now }))) }
{
    match first_word(text) {
        None => Ok(Ok(Change::Nothing)),
        Some((first, rest)) => word_change(
            alloc,
            tests,
            kind_of(table, first),
            hook,
            names,
            version,
            face,
            first,
            rest,
        ),
    }
}

/// The same of a line that begins with this word.
fn word_change<'t>(
    alloc: Global,
    tests: &mut Vec<Tests>,
    kind: Kind,
    hook: Hook,
    names: &Names,
    version: IpVersion,
    face: &[u8],
    first: &'t [u8],
    rest: &'t [u8],
) -> Result<Result<Change, (Why, &'t [u8])>, AllocError>
    requires { tests.old.items ≡ [] }
    ensures { IfOk result (λ answer. MatchResult answer (λ change. word_change kind hook names.now version face.now first.now (words_of rest.now) ≡ Ok (record { change = change; tests = tests.new.items }))
        (λ unsaid. word_change kind hook names.now version face.now first.now (words_of rest.now) ≡ Err (record { why = unsaid.0; word = unsaid.1.now }))) }
{
    match kind {
        Kind::Nothing => Ok(Ok(Change::Nothing)),
        Kind::Remark => Ok(remark_change(rest)),
        Kind::Begins(table) => Ok(Ok(Change::Begins(table))),
        Kind::Declares => Ok(declared(first, rest)),
        Kind::Rule => { rule_change(alloc, tests, hook, names, version, face, first, rest) }
        Kind::Lists => Ok(Ok(Change::Lists)),
        Kind::Unknown => Ok(Err((Why::Word, first))),
    }
}

/// A comment, from the words behind its first one. `iptables-save` says by one that it doesn't print all chains of a table.
fn remark_change(rest: &[u8]) -> Result<Change, (Why, &[u8])>
    ensures { MatchResult result (λ change. remark_change (words_of rest.now) ≡ plain change)
        (λ unsaid. remark_change (words_of rest.now) ≡ Err (record { why = unsaid.0; word = unsaid.1.now })) }
{
    match first_word(rest) {
        None => Ok(Change::Nothing),
        Some((word, _)) => {
            if is_named(word, b"Table") {
                return Err((Why::Beside, word));
            }
            Ok(Change::Nothing)
        }
    }
}

/// What the first word of a line in a table says that it is.
fn kind_of(table: Table, first: &[u8]) -> Kind
    ensures { result ≡ kind_of table first.now }
{
    if begins_with(first, b'#') {
        return Kind::Remark;
    }
    match table {
        Table::Outside => outside(first),
        Table::Filter => in_filter(first),
        Table::Other => in_other(first),
    }
}

/// Whether a word begins with a byte.
fn begins_with(word: &[u8], byte: u8) -> bool
    ensures { result ≡ begins_with word.now byte }
{
    !word.is_empty() && word[0] == byte
}

/// The same outside of a table.
fn outside(first: &[u8]) -> Kind
    ensures { result ≡ outside first.now }
{
    if is_named(first, b"*filter") {
        Kind::Begins(Table::Filter)
    } else if begins_with(first, b'*') {
        Kind::Begins(Table::Other)
    } else {
        Kind::Unknown
    }
}

/// The same in a table but filter.
fn in_other(first: &[u8]) -> Kind
    ensures { result ≡ in_other first.now }
{
    if is_named(first, b"COMMIT") {
        return Kind::Begins(Table::Outside);
    }
    Kind::Nothing
}

/// The same in the table filter.
fn in_filter(first: &[u8]) -> Kind
    ensures { result ≡ in_filter first.now }
{
    if is_named(first, b"COMMIT") {
        Kind::Lists
    } else if is_named(first, b"-A") {
        Kind::Rule
    } else if begins_with(first, b':') {
        Kind::Declares
    } else {
        Kind::Unknown
    }
}

/// A chain that is declared, from the words behind its name.
fn declared<'t>(first: &'t [u8], rest: &'t [u8]) -> Result<Change, (Why, &'t [u8])>
    ensures { MatchResult result (λ change. declared first.now (words_of rest.now) ≡ plain change)
        (λ unsaid. declared first.now (words_of rest.now) ≡ Err (record { why = unsaid.0; word = unsaid.1.now })) }
{
    match first_word(rest) {
        None => Err((Why::Value, first)),
        Some((word, _)) => {
            if is_ambiguous(first) {
                return Err((Why::Target, first));
            }
            match policy_of(word) {
                Some(policy) => Ok(Change::Declares(policy)),
                None => Err((Why::Policy, word)),
            }
        }
    }
}

/// Whether a chain is declared that has the name of a target, as `nft` makes them, but `iptables` doesn't, since jumps to it
/// look like that target, or a quote in its name, which looks like the end of a text.
fn is_ambiguous(first: &[u8]) -> bool
    ensures { result ≡ is_ambiguous first.now }
{
    has_quote(first) || names_verdict(first) || names_passing(first)
}

/// Whether a quote stands in a text.
fn has_quote(text: &[u8]) -> bool
    ensures { result ≡ has_quote text.now }
{
    text.iter().any(|byte| *byte == b'"')
}

/// Whether a chain is declared that has the name of a target that decides.
fn names_verdict(first: &[u8]) -> bool
    ensures { result ≡ names_verdict first.now }
{
    is_named(first, b":ACCEPT")
        || is_named(first, b":DROP")
        || is_named(first, b":REJECT")
        || is_named(first, b":RETURN")
}

/// Whether a chain is declared that has the name of a target behind which a packet goes on.
fn names_passing(first: &[u8]) -> bool
    ensures { result ≡ names_passing first.now }
{
    is_named(first, b":LOG")
        || is_named(first, b":NFLOG")
        || is_named(first, b":AUDIT")
        || is_named(first, b":TRACE")
}

/// A policy, or that a chain has none.
fn policy_of(word: &[u8]) -> Option<Option<bool>>
    ensures { result ≡ policy_of word.now }
{
    if is_named(word, b"ACCEPT") {
        Some(Some(true))
    } else if is_named(word, b"DROP") {
        Some(Some(false))
    } else if is_named(word, b"-") {
        Some(None)
    } else {
        None
    }
}

/// A rule, from the words behind the first one.
fn rule_change<'t>(
    alloc: Global,
    tests: &mut Vec<Tests>,
    hook: Hook,
    names: &Names,
    version: IpVersion,
    face: &[u8],
    first: &'t [u8],
    rest: &'t [u8],
) -> Result<Result<Change, (Why, &'t [u8])>, AllocError>
    requires { tests.old.items ≡ [] }
    ensures { IfOk result (λ answer. MatchResult answer (λ change. rule_change hook names.now version face.now first.now (words_of rest.now) ≡ Ok (record { change = change; tests = tests.new.items }))
        (λ unsaid. rule_change hook names.now version face.now first.now (words_of rest.now) ≡ Err (record { why = unsaid.0; word = unsaid.1.now }))) }
{
    match first_word(rest) {
        None => Ok(Err((Why::Value, first))),
        Some((chain, behind)) => {
            if is_other_hook(hook, chain) {
                return Ok(Ok(Change::Nothing));
            }
            match names.number_of(chain) {
                None => Ok(Err((Why::Chain, chain))),
                Some(number) => {
                    chain_change(alloc, tests, number, names, version, face, chain, behind)
                }
            }
        }
    }
}

/// Whether a chain is one that packets meet first, and another one than this.
fn is_other_hook(hook: Hook, chain: &[u8]) -> bool
    ensures { result ≡ is_other_hook hook chain.now }
{
    match hook {
        Hook::Input => is_named(chain, b"FORWARD") || is_named(chain, b"OUTPUT"),
        Hook::Forward => is_named(chain, b"INPUT") || is_named(chain, b"OUTPUT"),
        Hook::Output => is_named(chain, b"INPUT") || is_named(chain, b"FORWARD"),
    }
}

/// A rule of the chain of this number, from the words behind its name.
fn chain_change<'t>(
    alloc: Global,
    tests: &mut Vec<Tests>,
    number: usize,
    names: &Names,
    version: IpVersion,
    face: &[u8],
    chain: &'t [u8],
    behind: &'t [u8],
) -> Result<Result<Change, (Why, &'t [u8])>, AllocError>
    requires { tests.old.items ≡ [] }
    ensures { IfOk result (λ answer. MatchResult answer (λ change. chain_change number names.now version face.now chain.now (words_of behind.now) ≡ Ok (record { change = change; tests = tests.new.items }))
        (λ unsaid. chain_change number names.now version face.now chain.now (words_of behind.now) ≡ Err (record { why = unsaid.0; word = unsaid.1.now }))) }
{
    if passes(behind) {
        return Ok(Ok(Change::Notes));
    }
    tests.push(any_tests())?;
    match read_rule(alloc, tests, behind, names, version, face)? {
        Ok(seen) => Ok(target_change(number, seen.target, tests.as_slice(), chain)),
        Err(unsaid) => Ok(Err(unsaid)),
    }
}

/// A rule of the chain of this number and name, by its target and its tests.
fn target_change<'t>(
    number: usize,
    target: Option<Target>,
    tests: &[Tests],
    chain: &'t [u8],
) -> Result<Change, (Why, &'t [u8])>
    ensures { MatchResult result (λ change. target_change number target tests.now chain.now ≡ Ok change)
        (λ unsaid. target_change number target tests.now chain.now ≡ Err (record { why = unsaid.0; word = unsaid.1.now })) }
{
    match target {
        Some(found) => Ok(added(number, found, tests)),
        None => Err((Why::Target, chain)),
    }
}

/// What a rule of these tests changes: nothing, where there are none, since it holds no packet.
fn added(number: usize, target: Target, tests: &[Tests]) -> Change
    ensures { result ≡ added number target tests.now }
{
    if tests.is_empty() {
        return Change::Empty;
    }
    Change::Adds(number, target)
}

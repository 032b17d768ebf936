//! The format: a line is told by what is known of those before it.

ghost use Rattle.std.specs.Prelude.{◌≡◌, ◌++◌, ◌∷◌, [], Ok, Err, Some, None, IfOk, OnOk, MatchResult, length, ◌≤◌};
ghost use Rattle.import_lines.specs.Import.{IsTold};
ghost use Rattle.line_words.specs.Words.{words_of};
ghost use Rattle.iptables.specs.Lines.{change_of, hook_name};
ghost use Rattle.iptables.specs.Names.{name_number};
ghost use Rattle.iptables.specs.Values.{any_tests};
ghost use Rattle.iptables.specs.Telling.{change_after, change_told, closing_by, declared_name, is_whole, line_after, line_told, list_of, listed, listed_told, name_behind, nothing_known, refused_why, rules_of, save_closing, begun_text, with_list};

use crate::faces::FaceName;
use crate::fields::any_tests;
use crate::lines::{Change, Hook, Table, change_of};
use crate::names::Names;
use crate::telling::{MOST_LINES, put_empty, put_list, put_note, put_table, put_why};
use crate::why::Why;
use crate::words::{first_word, is_named};
use import_lines::{LineFormat, Told};
use kept_numbers::OlderLine;
use rule_model::IpVersion;
use std::alloc::{AllocError, Global};
use std::marker::Model;
use written_chains::{ChainRule, Line, Refused, Target, Tests, written_out};

/// How deep jumps are nested, the first chain counted.
const DEPTH: usize = 32;

/// The lines of `iptables-save`, or `ip6tables-save`, of which one chain is told.
#[derive(Drop)]
pub struct Iptables {
    version: IpVersion,
    hook: Hook,
    // By which packets come in; no name for any.
    face: FaceName,
    // The lines of an older list of it.
    older: Vec<OlderLine>,
    table: Table,
    // The chains that are declared.
    names: Names,
    // The rules of all chains, in their order.
    rules: Vec<ChainRule>,
    // What a packet gets that no rule decides.
    policy: Option<bool>,
    // Whether the list is written.
    listed: bool,
}

impl Model for Iptables {
    ghost use Rattle.iptables.specs.Telling.{Known};

    ghost Value = { Known };

    ghost view = { λ f. record { version = f.version; hook = f.hook; face = f.face; older = f.older.items; table = f.table; names = f.names; rules = f.rules.items; policy = f.policy; listed = f.listed } };
}

impl Iptables {
    /// No line is read yet, of which the list of this chain is to be made, for packets that come in by this interface, or by
    /// any where it has no name. Lines of these older ones keep their numbers. Takes no memory.
    pub fn new(
        alloc: Global,
        version: IpVersion,
        hook: Hook,
        face: FaceName,
        older: Vec<OlderLine>,
    ) -> Iptables
        ensures { result ≡ nothing_known version hook face older.items }
    {
        Iptables {
            version,
            hook,
            face,
            older,
            table: Table::Outside,
            names: Names::new(alloc),
            rules: Vec::new(alloc),
            policy: None,
            listed: false,
        }
    }

    /// What a line changes; the tests of the rule that it adds are put there. Err: why it isn't said, and the word.
    fn change<'t>(
        &self,
        alloc: Global,
        tests: &mut Vec<Tests>,
        text: &'t [u8],
    ) -> Result<Result<Change, (Why, &'t [u8])>, AllocError>
        requires { tests.old.items ≡ [] }
        ensures { IfOk result (λ answer. MatchResult answer (λ change. change_of self.now.table self.now.hook self.now.names self.now.version self.now.face (words_of text.now) ≡ Ok (record { change = change; tests = tests.new.items }))
            (λ unsaid. change_of self.now.table self.now.hook self.now.names self.now.version self.now.face (words_of text.now) ≡ Err (record { why = unsaid.0; word = unsaid.1.now }))) }
    {
        change_of(
            alloc,
            tests,
            self.table,
            self.hook,
            &self.names,
            self.version,
            self.face.as_bytes(),
            text,
        )
    }

    /// Makes a change, and tells it. A rule that it adds has these tests.
    fn make(
        &mut self,
        alloc: Global,
        change: Change,
        tests: &[Tests],
        text: &[u8],
        into: &mut Vec<u8>,
    ) -> Result<Told, AllocError>
        requires { into.old.items ≡ [] }
        ensures told { IfOk result (λ answer. IsTold answer into.new.items (change_told self.old text.now change)) }
        ensures said { IfOk result (λ answer. answer ≡ Told.Said → self.new ≡ change_after self.old text.now tests.now change) }
        ensures unsaid { IfOk result (λ answer. answer ≡ Told.Unsaid → self.new ≡ self.old) }
    {
        match change {
            Change::Nothing => Ok(Told::Said),
            Change::Begins(table) => {
                self.begin(table);
                put_begun(into, table, text)?;
                Ok(Told::Said)
            }
            Change::Declares(policy) => {
                self.declare(alloc, policy, text)?;
                Ok(Told::Said)
            }
            Change::Adds(chain, target) => {
                self.add(chain, target, tests)?;
                Ok(Told::Said)
            }
            Change::Notes => {
                put_note(into, text)?;
                Ok(Told::Said)
            }
            Change::Empty => {
                put_empty(into, text)?;
                Ok(Told::Said)
            }
            Change::Lists => self.list(alloc, into),
        }
    }

    /// A table begins, or ends.
    fn begin(&mut self, table: Table)
        ensures { self.new ≡ record self.old { table = table } }
    {
        self.table = table;
    }

    /// Rules of a chain come behind the others, one for each of the tests.
    fn add(&mut self, chain: usize, target: Target, tests: &[Tests]) -> Result<(), AllocError>
        ensures { OnOk result (self.new ≡ record self.old { rules = self.old.rules ++ rules_of chain target tests.now }) }
    {
        put_rules(&mut self.rules, chain, target, tests)
    }

    /// The chain is declared that a line names.
    fn declare(
        &mut self,
        alloc: Global,
        policy: Option<bool>,
        text: &[u8],
    ) -> Result<(), AllocError>
        ensures { OnOk result (self.new ≡ change_after self.old text.now [] (Change.Declares policy)) }
    {
        let name = declared_name(text);
        self.names.declare(alloc, name)?;
        if is_named(name, self.hook.name().as_bytes()) {
            self.policy = policy;
        }
        Ok(())
    }

    /// Tells the list.
    fn list(&mut self, alloc: Global, into: &mut Vec<u8>) -> Result<Told, AllocError>
        requires { into.old.items ≡ [] }
        ensures told { IfOk result (λ answer. IsTold answer into.new.items (listed_told self.old (list_of self.old))) }
        ensures said { IfOk result (λ answer. answer ≡ Told.Said → self.new ≡ with_list self.old) }
        ensures unsaid { IfOk result (λ answer. answer ≡ Told.Unsaid → self.new ≡ self.old) }
    {
        match self.lines(alloc)? {
            Ok((policy, lines)) => {
                put_list(
                    alloc,
                    into,
                    self.version,
                    policy,
                    lines.as_slice(),
                    &any_tests(),
                    self.older.as_slice(),
                )?;
                self.end_list();
                Ok(Told::Said)
            }
            Err(why) => {
                put_why(into, why, self.hook.name().as_bytes())?;
                Ok(Told::Unsaid)
            }
        }
    }

    /// The list is written.
    fn end_list(&mut self)
        ensures { self.new ≡ with_list self.old }
    {
        self.table = Table::Outside;
        self.listed = true;
    }

    /// The number of the chain that is asked for, if it is declared.
    fn chain(&self) -> Option<usize>
        ensures { result ≡ name_number self.now.names (hook_name self.now.hook) }
    {
        self.names.number_of(self.hook.name().as_bytes())
    }

    /// The chain's policy, and its lines but the last one. Err: why it has no list, as where one is written.
    fn lines(&self, alloc: Global) -> Result<Result<(bool, Vec<Line>), Why>, AllocError>
        ensures list { IfOk result (λ answer. MatchResult answer (λ found. list_of self.now ≡ Ok (found.0, found.1.items)) (λ why. list_of self.now ≡ Err why)) }
        ensures few { IfOk result (λ answer. IfOk answer (λ found. length found.1.items ≤ 4095)) }
    {
        if self.listed {
            return Ok(Err(Why::Second));
        }
        match self.policy {
            Some(policy) => listed(alloc, self.rules.as_slice(), policy, self.chain()),
            None => Ok(Err(Why::Chain)),
        }
    }
}

/// The same of a chain of this policy, where it has this number. Err: why it has no list.
fn listed(
    alloc: Global,
    rules: &[ChainRule],
    policy: bool,
    chain: Option<usize>,
) -> Result<Result<(bool, Vec<Line>), Why>, AllocError>
    ensures list { IfOk result (λ answer. MatchResult answer (λ found. listed rules.now (Some policy) chain ≡ Ok (found.0, found.1.items)) (λ why. listed rules.now (Some policy) chain ≡ Err why)) }
    ensures few { IfOk result (λ answer. IfOk answer (λ found. length found.1.items ≤ 4095)) }
{
    match chain {
        Some(number) => lines_of(alloc, rules, number, policy),
        None => Ok(Err(Why::Chain)),
    }
}

/// The lines of a chain of this policy. Err: why it has no list.
fn lines_of(
    alloc: Global,
    rules: &[ChainRule],
    chain: usize,
    policy: bool,
) -> Result<Result<(bool, Vec<Line>), Why>, AllocError>
    ensures list { IfOk result (λ answer. MatchResult answer (λ found. listed rules.now (Some policy) (Some chain) ≡ Ok (found.0, found.1.items)) (λ why. listed rules.now (Some policy) (Some chain) ≡ Err why)) }
    ensures few { IfOk result (λ answer. IfOk answer (λ found. length found.1.items ≤ 4095)) }
{
    match written_out(alloc, rules, chain, DEPTH, MOST_LINES)? {
        Ok(lines) => Ok(Ok((policy, lines))),
        Err(refused) => Ok(Err(why_of(refused))),
    }
}

/// Why a chain has no list.
fn why_of(refused: Refused) -> Why
    ensures { result ≡ refused_why refused }
{
    match refused {
        Refused::TooDeep => Why::Deep,
        Refused::TooMany => Why::Many,
    }
}

/// The name of a chain that is declared by a line: its first word without the first byte.
fn declared_name(text: &[u8]) -> &[u8]
    ensures { result.now ≡ declared_name (words_of text.now) }
{
    match first_word(text) {
        Some((first, _)) => name_behind(first),
        None => b"",
    }
}

/// A word without its first byte.
fn name_behind(word: &[u8]) -> &[u8]
    ensures { result.now ≡ name_behind word.now }
{
    match word {
        [] => b"",
        [_, name @ ..] => name,
    }
}

/// Puts the comment there on another table, if it is one.
fn put_begun(into: &mut Vec<u8>, table: Table, text: &[u8]) -> Result<(), AllocError>
    ensures { OnOk result (into.new.items ≡ into.old.items ++ begun_text table text.now) }
{
    match table {
        Table::Other => put_table(into, text),
        Table::Filter => Ok(()),
        Table::Outside => Ok(()),
    }
}

/// Puts the rules of a chain there that have one target, a rule for each of the tests.
fn put_rules(
    into: &mut Vec<ChainRule>,
    chain: usize,
    target: Target,
    tests: &[Tests],
) -> Result<(), AllocError>
    ensures { OnOk result (into.new.items ≡ into.old.items ++ rules_of chain target tests.now) }
{
    for each in tests {
        into.push(ChainRule {
            chain,
            tests: *each,
            target,
        })?;
    }
    Ok(())
}

/// Whether the list is written, and no other one is begun.
fn is_whole(table: Table, listed: bool) -> bool
    ensures { result ≡ is_whole table listed }
{
    match table {
        Table::Filter => false,
        Table::Other => listed,
        Table::Outside => listed,
    }
}

/// Puts the commit of a list there, or that there is none.
fn put_closing(into: &mut Vec<u8>, whole: bool) -> Result<Told, AllocError>
    requires { into.old.items ≡ [] }
    ensures { IfOk result (λ answer. IsTold answer into.new.items (closing_by whole)) }
{
    if whole {
        into.extend_from_slice(b"commit\n")?;
        return Ok(Told::Said);
    }
    into.extend_from_slice(b"no list")?;
    Ok(Told::Unsaid)
}

impl LineFormat for Iptables {
    ghost told = { line_told };

    ghost behind = { line_after };

    ghost closing = { save_closing };

    fn take(&mut self, alloc: Global, text: &[u8], into: &mut Vec<u8>) -> Result<Told, AllocError> {
        let mut tests = Vec::new(alloc);
        match self.change(alloc, &mut tests, text)? {
            Ok(change) => self.make(alloc, change, tests.as_slice(), text, into),
            Err(unsaid) => {
                put_why(into, unsaid.0, unsaid.1)?;
                Ok(Told::Unsaid)
            }
        }
    }

    fn close(&self, _alloc: Global, into: &mut Vec<u8>) -> Result<Told, AllocError> {
        put_closing(into, is_whole(self.table, self.listed))
    }
}

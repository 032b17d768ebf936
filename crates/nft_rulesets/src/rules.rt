//! A rule, statement by statement.

ghost use Rattle.std.specs.Prelude.{◌≡◌, ◌++◌, ◌∷◌, [], Ok, Err, Some, None, IfOk, OnOk, MatchResult, MatchOption, codes, option_map, if◌then◌else◌};
ghost use Rattle.json.specs.Find.{get};
ghost use Rattle.json.specs.Value.{items_view, value_view};
ghost use Rattle.nft_rulesets.specs.Looks.{sole, text_at};
ghost use Rattle.nft_rulesets.specs.Rules.{all_pass, answered, by_key, detail, first_reading, is_passing, left_words, only_counts, passes_by, rule_place, rule_read, side_words, statement_read, statement_words, unsaid_text, verdict_tests, words_by, with_rules, with_tests, with_verdict};
ghost use Rattle.nft_rulesets.specs.Matches.{matched};
ghost use Rattle.nft_rulesets.specs.Verdicts.{mapped};

use crate::asked::Asked;
use crate::fields::is_version;
use crate::looks::{sole, text_at, word_at};
use crate::matches::copied;
use crate::products::{meets_all, proto_test};
use crate::together::{matched, put_mapped};
use crate::verdicts::{put_decided, verdict_of};
use crate::why::Why;
use iptables::any_tests;
use json::Value;
use json_routes::{named_key, text_of};
use rule_model::IpVersion;
use std::alloc::{AllocError, Global};
use std::marker::Model;
use written_chains::{ChainRule, Tests};

/// Whether a statement of this key leaves packets to the rules behind it.
fn is_passing(key: &str) -> bool
    ensures { result ≡ is_passing key.now }
{
    key == "match"
        || key == "counter"
        || key == "log"
        || key == "limit"
        || key == "quota"
        || key == "continue"
}

/// Whether a statement does.
fn passes(statement: &Value) -> bool
    ensures { result ≡ passes_by (sole (value_view statement.now)) }
{
    match sole(statement) {
        Some(found) => is_passing(found.0),
        None => false,
    }
}

/// Whether each of some statements does: the rule decides nothing.
pub(crate) fn all_pass(statements: &[Value]) -> bool
    ensures { result ≡ all_pass (items_view statements.now) }
{
    for statement in statements {
        if !passes(statement) {
            return false;
        }
    }
    true
}

/// Tests of packets, if there are any that it holds.
fn held_if(alloc: Global, holds: bool, tests: &[Tests]) -> Result<Vec<Tests>, AllocError>
    ensures { IfOk result (λ held. held.items ≡ (if holds then tests.now else [])) }
{
    if holds {
        return copied(alloc, tests);
    }
    Ok(Vec::new(alloc))
}

/// The tests of packets that a rejection of this kind answers: a message of one version of IP, or of TCP, those of that alone,
/// and nft may print the rule without the comparison that it has for it.
fn answered(
    alloc: Global,
    version: IpVersion,
    kind: Option<&str>,
    tests: &[Tests],
) -> Result<Vec<Tests>, AllocError>
    ensures { IfOk result (λ held. held.items ≡ answered version (option_map (λ given. given.now) kind.entry) tests.now) }
{
    match kind {
        Some("icmp") => held_if(alloc, is_version(version, IpVersion::V4), tests),
        Some("icmpv6") => held_if(alloc, is_version(version, IpVersion::V6), tests),
        Some("tcp reset") => meets_all(alloc, tests, &[proto_test(6)]),
        _ => copied(alloc, tests),
    }
}

/// The tests that hold with a verdict.
fn verdict_tests(
    alloc: Global,
    asked: &Asked,
    tests: &[Tests],
    key: &str,
    body: &Value,
) -> Result<Vec<Tests>, AllocError>
    ensures { IfOk result (λ held. held.items ≡ verdict_tests asked.now tests.now key.now (value_view body.now)) }
{
    if key == "reject" {
        return answered(alloc, asked.version, text_at(body, "type"), tests);
    }
    copied(alloc, tests)
}

/// Whether a statement counts or tells of packets, and nothing else: of counters that a map names the map has those of some
/// packets, and the others leave the rule.
fn only_counts(key: &str, body: &Value) -> bool
    ensures { result ≡ only_counts key.now (value_view body.now) }
{
    key == "log" || key == "counter" && body.get("map").is_none()
}

/// What statements have said: the tests so far, or the rules that a verdict made of them.
#[derive(Drop)]
struct Reading {
    tests: Vec<Tests>,
    rules: Vec<ChainRule>,
    ended: bool,
}

impl Model for Reading {
    ghost use Rattle.nft_rulesets.specs.Rules.{ReadSoFar};

    ghost Value = { ReadSoFar };

    ghost view = { λ r. record { tests = r.tests.items; rules = r.rules.items; ended = r.ended } };
}

impl Reading {
    /// No statement is read yet.
    fn first(alloc: Global) -> Result<Reading, AllocError>
        ensures { IfOk result (λ reading. reading ≡ first_reading) }
    {
        let mut tests = Vec::new(alloc);
        tests.push(any_tests())?;
        Ok(Reading {
            tests,
            rules: Vec::new(alloc),
            ended: false,
        })
    }

    /// Reads a statement. Err: why it isn't said.
    fn take(
        &mut self,
        alloc: Global,
        asked: &Asked,
        all: &[Value],
        chain: usize,
        statement: &Value,
    ) -> Result<Result<(), Why>, AllocError>
        ensures { IfOk result (λ answer. MatchResult answer (λ done. statement_read asked.now (items_view all.now) chain self.old (value_view statement.now) ≡ Ok self.new)
            (λ why. statement_read asked.now (items_view all.now) chain self.old (value_view statement.now) ≡ Err why)) }
    {
        match sole(statement) {
            Some(found) => {
                if self.ended {
                    return Ok(Err(Why::Behind));
                }
                self.take_key(alloc, asked, all, chain, found.0, &found.1)
            }
            None => Ok(Err(Why::Statement)),
        }
    }

    /// The same by its key.
    fn take_key(
        &mut self,
        alloc: Global,
        asked: &Asked,
        all: &[Value],
        chain: usize,
        key: &str,
        body: &Value,
    ) -> Result<Result<(), Why>, AllocError>
        ensures { IfOk result (λ answer. MatchResult answer (λ done. by_key asked.now (items_view all.now) chain self.old key.now (value_view body.now) ≡ Ok self.new)
            (λ why. by_key asked.now (items_view all.now) chain self.old key.now (value_view body.now) ≡ Err why)) }
    {
        if key == "match" {
            self.take_match(alloc, asked, all, body)
        } else if key == "vmap" {
            self.take_map(alloc, asked, all, chain, body)
        } else if only_counts(key, body) {
            Ok(Ok(()))
        } else {
            self.take_verdict(alloc, asked, all, chain, key, body)
        }
    }

    /// Reads a comparison.
    fn take_match(
        &mut self,
        alloc: Global,
        asked: &Asked,
        all: &[Value],
        body: &Value,
    ) -> Result<Result<(), Why>, AllocError>
        ensures { IfOk result (λ answer. MatchResult answer (λ done. with_tests self.old (matched asked.now (items_view all.now) self.old.tests (value_view body.now)) ≡ Ok self.new)
            (λ why. with_tests self.old (matched asked.now (items_view all.now) self.old.tests (value_view body.now)) ≡ Err why)) }
    {
        match matched(alloc, asked, all, self.tests.as_slice(), body)? {
            Ok(tests) => {
                self.tests = tests;
                Ok(Ok(()))
            }
            Err(why) => Ok(Err(why)),
        }
    }

    /// Reads a map.
    fn take_map(
        &mut self,
        alloc: Global,
        asked: &Asked,
        all: &[Value],
        chain: usize,
        body: &Value,
    ) -> Result<Result<(), Why>, AllocError>
        ensures { IfOk result (λ answer. MatchResult answer (λ done. with_rules self.old (mapped asked.now (items_view all.now) chain self.old.tests (value_view body.now)) ≡ Ok self.new)
            (λ why. with_rules self.old (mapped asked.now (items_view all.now) chain self.old.tests (value_view body.now)) ≡ Err why)) }
    {
        let put = put_mapped(
            alloc,
            &mut self.rules,
            asked,
            all,
            chain,
            self.tests.as_slice(),
            body,
        )?;
        self.ended = true;
        Ok(put)
    }

    /// Reads a verdict.
    fn take_verdict(
        &mut self,
        alloc: Global,
        asked: &Asked,
        all: &[Value],
        chain: usize,
        key: &str,
        body: &Value,
    ) -> Result<Result<(), Why>, AllocError>
        ensures { IfOk result (λ answer. MatchResult answer (λ done. with_verdict asked.now (items_view all.now) chain self.old key.now (value_view body.now) ≡ Ok self.new)
            (λ why. with_verdict asked.now (items_view all.now) chain self.old key.now (value_view body.now) ≡ Err why)) }
    {
        self.tests = verdict_tests(alloc, asked, self.tests.as_slice(), key, body)?;
        let verdict = verdict_of(asked, all, key, body);
        let put = put_decided(&mut self.rules, chain, self.tests.as_slice(), verdict)?;
        self.ended = true;
        Ok(put)
    }
}

/// Puts a text there behind a space, if a member has one.
fn put_detail(into: &mut Vec<u8>, body: &Value, key: &str) -> Result<(), AllocError>
    ensures { OnOk result (into.new.items ≡ into.old.items ++ detail key.now (value_view body.now)) }
{
    match body.get(key) {
        Some(found) => match text_of(found) {
            Some(text) => {
                into.extend_from_slice(b" ")?;
                into.extend_from_slice(named_key(text.as_bytes()))?;
                Ok(())
            }
            None => Ok(()),
        },
        None => Ok(()),
    }
}

/// Puts there what a comment names the left side of a comparison by.
fn put_left(into: &mut Vec<u8>, left: &Value) -> Result<(), AllocError>
    ensures { OnOk result (into.new.items ≡ into.old.items ++ left_words (sole (value_view left.now))) }
{
    match sole(left) {
        Some(found) => {
            into.extend_from_slice(named_key(found.0.as_bytes()))?;
            put_detail(into, &found.1, "key")?;
            put_detail(into, &found.1, "protocol")?;
            put_detail(into, &found.1, "field")
        }
        None => {
            into.extend_from_slice(b"?")?;
            Ok(())
        }
    }
}

/// Puts there what a comment names a statement by that has a left side.
fn put_side(into: &mut Vec<u8>, key: &str, body: &Value, side: &str) -> Result<(), AllocError>
    ensures { OnOk result (into.new.items ≡ into.old.items ++ side_words key.now (get side.now (value_view body.now))) }
{
    match body.get(side) {
        Some(left) => put_left(into, left),
        None => {
            into.extend_from_slice(named_key(key.as_bytes()))?;
            Ok(())
        }
    }
}

/// Puts there what a comment names a statement by.
fn put_statement(into: &mut Vec<u8>, statement: &Value) -> Result<(), AllocError>
    ensures { OnOk result (into.new.items ≡ into.old.items ++ statement_words (sole (value_view statement.now))) }
{
    match sole(statement) {
        Some(found) => put_words(into, found.0, &found.1),
        None => {
            into.extend_from_slice(b"?")?;
            Ok(())
        }
    }
}

/// The same by its key.
fn put_words(into: &mut Vec<u8>, key: &str, body: &Value) -> Result<(), AllocError>
    ensures { OnOk result (into.new.items ≡ into.old.items ++ words_by key.now (value_view body.now)) }
{
    if key == "match" {
        put_side(into, key, body, "left")
    } else if key == "vmap" {
        put_side(into, key, body, "key")
    } else {
        into.extend_from_slice(named_key(key.as_bytes()))?;
        Ok(())
    }
}

/// Puts there where a rule stands.
pub(crate) fn put_place(into: &mut Vec<u8>, body: &Value) -> Result<(), AllocError>
    ensures { OnOk result (into.new.items ≡ into.old.items ++ rule_place (value_view body.now)) }
{
    into.extend_from_slice(b"handle ")?;
    into.extend_from_slice(word_at(body, "handle"))?;
    into.extend_from_slice(b" of ")?;
    into.extend_from_slice(word_at(body, "chain"))?;
    Ok(())
}

/// Puts there why a statement of a rule isn't said.
fn put_unsaid(
    into: &mut Vec<u8>,
    why: Why,
    statement: &Value,
    body: &Value,
) -> Result<(), AllocError>
    ensures { OnOk result (into.new.items ≡ into.old.items ++ unsaid_text why (value_view statement.now) (value_view body.now)) }
{
    into.extend_from_slice(why.text().as_bytes())?;
    into.extend_from_slice(b": ")?;
    put_statement(into, statement)?;
    into.extend_from_slice(b", ")?;
    put_place(into, body)
}

/// The rules that a rule of this chain is. None: why it isn't said is put into room that is empty.
pub(crate) fn read_rule(
    alloc: Global,
    asked: &Asked,
    all: &[Value],
    chain: usize,
    body: &Value,
    statements: &[Value],
    into: &mut Vec<u8>,
) -> Result<Option<Vec<ChainRule>>, AllocError>
    requires { into.old.items ≡ [] }
    ensures { IfOk result (λ answer. MatchOption answer (rule_read asked.now (items_view all.now) chain (value_view body.now) (items_view statements.now) ≡ Err into.new.items)
        (λ rules. (rule_read asked.now (items_view all.now) chain (value_view body.now) (items_view statements.now) ≡ Ok rules.items) × (into.new.items ≡ []))) }
{
    let mut reading = Reading::first(alloc)?;
    for statement in statements {
        match reading.take(alloc, asked, all, chain, statement)? {
            Ok(()) => {}
            Err(why) => {
                put_unsaid(into, why, statement, body)?;
                return Ok(None);
            }
        }
    }
    Ok(Some(reading.rules))
}

//! What an item comes to.

ghost use Rattle.std.specs.Prelude.{◌≡◌, ◌++◌, [], Some, None, IfOk, OnOk, option_map, codes};
ghost use Rattle.json.specs.Find.{get};
ghost use Rattle.json.specs.Value.{items_view, value_view};
ghost use Rattle.nft_rulesets.specs.Looks.{sole, text_at};
ghost use Rattle.nft_rulesets.specs.Items.{IsItem, chain_item, chain_said, family_fits, is_definition, item_by_key, item_read, listed_statements, no_packet, own_table, packet_note, policy_named, policy_said, rule_place_of, rule_said, statements_said, table_note, table_said, type_said, verdict_note};
ghost use Rattle.nft_rulesets.specs.Rules.{rule_place};

use crate::asked::Asked;
use crate::defined::{is_base, is_named, is_ours, place_of};
use crate::looks::{items_of, sole, text_at, text_is, word_at};
use crate::rules::{all_pass, put_place, read_rule};
use import_lines::Told;
use json::Value;
use json_routes::named_key;
use rule_model::IpVersion;
use std::alloc::{AllocError, Global};
use written_chains::ChainRule;

/// Puts the comment there on a rule that holds no packet.
fn put_no_packet(into: &mut Vec<u8>, body: &Value) -> Result<(), AllocError>
    ensures { OnOk result (into.new.items ≡ into.old.items ++ no_packet (value_view body.now)) }
{
    into.extend_from_slice(b"# no packet: ")?;
    put_place(into, body)?;
    into.extend_from_slice(b"\n")?;
    Ok(())
}

/// The same if there are no rules.
fn put_packet_note(into: &mut Vec<u8>, rules: &[ChainRule], body: &Value) -> Result<(), AllocError>
    ensures { OnOk result (into.new.items ≡ into.old.items ++ packet_note rules.now (value_view body.now)) }
{
    match rules {
        [] => put_no_packet(into, body),
        [_, ..] => Ok(()),
    }
}

/// Puts the comment there on a rule that decides nothing.
fn put_verdict_note(into: &mut Vec<u8>, body: &Value) -> Result<(), AllocError>
    ensures { OnOk result (into.new.items ≡ into.old.items ++ verdict_note (value_view body.now)) }
{
    into.extend_from_slice(b"# no verdict: ")?;
    put_place(into, body)?;
    into.extend_from_slice(b"\n")?;
    Ok(())
}

/// Tells a rule of the chain at this place by its statements.
fn tell_statements(
    alloc: Global,
    asked: &Asked,
    all: &[Value],
    chain: usize,
    body: &Value,
    statements: &[Value],
    rules: &mut Vec<ChainRule>,
    into: &mut Vec<u8>,
) -> Result<Told, AllocError>
    requires { into.old.items ≡ [] }
    ensures { IfOk result (λ answer. IsItem answer (statements_said asked.now (items_view all.now) chain (value_view body.now) (Some (items_view statements.now))) into.new.items rules.old.items rules.new.items) }
{
    if all_pass(statements) {
        put_verdict_note(into, body)?;
        return Ok(Told::Said);
    }
    match read_rule(alloc, asked, all, chain, body, statements, into)? {
        Some(found) => {
            put_packet_note(into, found.as_slice(), body)?;
            rules.extend_from_slice(found.as_slice())?;
            Ok(Told::Said)
        }
        None => Ok(Told::Unsaid),
    }
}

/// The statements of a rule.
fn statements_of<'v, 'a>(body: &'v Value<'a>) -> Option<&'v [Value<'a>]>
    ensures { option_map (λ found. items_view found.now) result ≡ listed_statements (get (codes "expr") (value_view body.now)) }
{
    match body.get("expr") {
        Some(found) => items_of(found),
        None => None,
    }
}

/// Puts there why a rule isn't said.
fn put_no(into: &mut Vec<u8>, what: &[u8], body: &Value) -> Result<Told, AllocError>
    requires { into.old.items ≡ [] }
    ensures told { IfOk result (λ answer. answer ≡ Told.Unsaid) }
    ensures text { OnOk result (into.new.items ≡ what.now ++ rule_place (value_view body.now)) }
{
    into.extend_from_slice(what)?;
    put_place(into, body)?;
    Ok(Told::Unsaid)
}

/// Tells a rule of the chain at this place, if there is one.
fn tell_chain_rule(
    alloc: Global,
    asked: &Asked,
    all: &[Value],
    chain: Option<usize>,
    body: &Value,
    rules: &mut Vec<ChainRule>,
    into: &mut Vec<u8>,
) -> Result<Told, AllocError>
    requires { into.old.items ≡ [] }
    ensures { IfOk result (λ answer. IsItem answer (chain_said asked.now (items_view all.now) (value_view body.now) chain) into.new.items rules.old.items rules.new.items) }
{
    match chain {
        Some(place) => {
            if is_base(all, place) && !text_is(body, "chain", asked.chain) {
                return Ok(Told::Said);
            }
            match statements_of(body) {
                Some(statements) => {
                    tell_statements(alloc, asked, all, place, body, statements, rules, into)
                }
                None => put_no(into, b"no statements: ", body),
            }
        }
        None => put_no(into, b"no chain: ", body),
    }
}

/// The place of a rule's chain.
fn place_of_rule(asked: &Asked, all: &[Value], body: &Value) -> Option<usize>
    ensures { result ≡ rule_place_of asked.now (items_view all.now) (text_at (codes "chain") (value_view body.now)) }
{
    match text_at(body, "chain") {
        Some(name) => place_of(asked, "chain", name.as_bytes(), all),
        None => None,
    }
}

/// Tells a rule.
fn tell_rule(
    alloc: Global,
    asked: &Asked,
    all: &[Value],
    body: &Value,
    rules: &mut Vec<ChainRule>,
    into: &mut Vec<u8>,
) -> Result<Told, AllocError>
    requires { into.old.items ≡ [] }
    ensures { IfOk result (λ answer. IsItem answer (rule_said asked.now (items_view all.now) (value_view body.now)) into.new.items rules.old.items rules.new.items) }
{
    if !is_ours(asked, "table", body) {
        return Ok(Told::Said);
    }
    let chain = place_of_rule(asked, all, body);
    tell_chain_rule(alloc, asked, all, chain, body, rules, into)
}

/// The policy of a name.
pub(crate) fn policy_named(text: Option<&str>) -> Option<bool>
    ensures { result ≡ policy_named (option_map (λ given. given.now) text.entry) }
{
    match text {
        Some("accept") => Some(true),
        Some("drop") => Some(false),
        _ => None,
    }
}

/// Whether packets of a version meet the chains of a table of this family.
pub(crate) fn family_fits(version: IpVersion, family: &[u8]) -> bool
    ensures { result ≡ family_fits version family.now }
{
    match version {
        IpVersion::V4 => family == b"inet".as_slice() || family == b"ip".as_slice(),
        IpVersion::V6 => family == b"inet".as_slice() || family == b"ip6".as_slice(),
    }
}

/// Tells whether the chain that is asked for has a list.
fn tell_type(asked: &Asked, body: &Value, into: &mut Vec<u8>) -> Result<Told, AllocError>
    requires { into.old.items ≡ [] }
    ensures { IfOk result (λ answer. IsItem answer (type_said asked.now (value_view body.now)) into.new.items [] []) }
{
    if !family_fits(asked.version, asked.family) {
        into.extend_from_slice(b"another version: ")?;
        into.extend_from_slice(named_key(asked.family))?;
        return Ok(Told::Unsaid);
    }
    if !text_is(body, "type", b"filter") {
        into.extend_from_slice(b"type of chain: ")?;
        into.extend_from_slice(word_at(body, "type"))?;
        return Ok(Told::Unsaid);
    }
    match policy_named(text_at(body, "policy")) {
        Some(_) => Ok(Told::Said),
        None => {
            into.extend_from_slice(b"no policy: ")?;
            into.extend_from_slice(named_key(asked.chain))?;
            Ok(Told::Unsaid)
        }
    }
}

/// Tells a chain.
fn tell_chain(asked: &Asked, body: &Value, into: &mut Vec<u8>) -> Result<Told, AllocError>
    requires { into.old.items ≡ [] }
    ensures { IfOk result (λ answer. IsItem answer (chain_item asked.now (value_view body.now)) into.new.items [] []) }
{
    if is_named(asked, asked.chain, body) {
        return tell_type(asked, body, into);
    }
    Ok(Told::Said)
}

/// Tells the table that is asked for: packets may not meet the chains of one with flags, as of one at rest (`dormant`).
fn tell_own_table(body: &Value, into: &mut Vec<u8>) -> Result<Told, AllocError>
    requires { into.old.items ≡ [] }
    ensures { IfOk result (λ answer. IsItem answer (own_table (value_view body.now)) into.new.items [] []) }
{
    if body.get("flags").is_some() {
        into.extend_from_slice(b"flags of table: ")?;
        into.extend_from_slice(word_at(body, "name"))?;
        return Ok(Told::Unsaid);
    }
    Ok(Told::Said)
}

/// Tells a table.
fn tell_table(asked: &Asked, body: &Value, into: &mut Vec<u8>) -> Result<Told, AllocError>
    requires { into.old.items ≡ [] }
    ensures { IfOk result (λ answer. IsItem answer (table_said asked.now (value_view body.now)) into.new.items [] []) }
{
    if is_ours(asked, "name", body) {
        return tell_own_table(body, into);
    }
    into.extend_from_slice(b"# another table: ")?;
    into.extend_from_slice(word_at(body, "family"))?;
    into.extend_from_slice(b" ")?;
    into.extend_from_slice(word_at(body, "name"))?;
    into.extend_from_slice(b"\n")?;
    Ok(Told::Said)
}

/// What says nothing of packets before a rule names it, and then is looked for.
fn is_definition(key: &str) -> bool
    ensures { result ≡ is_definition key.now }
{
    key == "metainfo"
        || key == "set"
        || key == "map"
        || key == "counter"
        || key == "quota"
        || key == "limit"
        || key == "flowtable"
        || key == "ct helper"
        || key == "ct timeout"
        || key == "ct expectation"
}

/// Tells an item by its key.
fn tell_key(
    alloc: Global,
    asked: &Asked,
    all: &[Value],
    key: &str,
    body: &Value,
    rules: &mut Vec<ChainRule>,
    into: &mut Vec<u8>,
) -> Result<Told, AllocError>
    requires { into.old.items ≡ [] }
    ensures { IfOk result (λ answer. IsItem answer (item_by_key asked.now (items_view all.now) key.now (value_view body.now)) into.new.items rules.old.items rules.new.items) }
{
    if is_definition(key) {
        Ok(Told::Said)
    } else if key == "table" {
        tell_table(asked, body, into)
    } else if key == "chain" {
        tell_chain(asked, body, into)
    } else if key == "rule" {
        tell_rule(alloc, asked, all, body, rules, into)
    } else {
        into.extend_from_slice(b"unknown item: ")?;
        into.extend_from_slice(named_key(key.as_bytes()))?;
        Ok(Told::Unsaid)
    }
}

/// Puts what an item comes to into room that is empty, and its rules behind those of the items before it.
pub(crate) fn tell_item(
    alloc: Global,
    asked: &Asked,
    all: &[Value],
    value: &Value,
    rules: &mut Vec<ChainRule>,
    into: &mut Vec<u8>,
) -> Result<Told, AllocError>
    requires { into.old.items ≡ [] }
    ensures { IfOk result (λ answer. IsItem answer (item_read asked.now (items_view all.now) (value_view value.now)) into.new.items rules.old.items rules.new.items) }
{
    match sole(value) {
        Some(found) => tell_key(alloc, asked, all, found.0, &found.1, rules, into),
        None => {
            into.extend_from_slice(b"no item")?;
            Ok(Told::Unsaid)
        }
    }
}

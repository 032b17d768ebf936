//! The list of a chain.

ghost use Rattle.std.specs.Prelude.{◌≡◌, ◌≤◌, ◌++◌, Some, None, IfOk, OnOk, length, codes, false};
ghost use Rattle.json.specs.Value.{items_view, value_view};
ghost use Rattle.nft_rulesets.specs.Items.{IsListed, list_of, list_or, no_list, placed_list, policy_at, policy_in, policy_list, refused_why};
ghost use Rattle.nft_rulesets.specs.Rules.{why_text};
ghost use Rattle.json.specs.Find.{get_item};

use crate::asked::Asked;
use crate::defined::place_of;
use crate::items::{family_fits, policy_named};
use crate::looks::{item_at, text_at, text_is};
use crate::why::Why;
use iptables::{MOST_LINES, any_tests, put_list};
use json::Value;
use json_routes::named_key;
use std::alloc::{AllocError, Global};
use written_chains::{ChainRule, Refused, written_out};

/// How deep jumps are nested, the first chain counted.
const DEPTH: usize = 32;

/// The policy of a chain that may be asked for.
fn policy_in(body: &Value) -> Option<bool>
    ensures { result ≡ policy_in (value_view body.now) }
{
    if text_is(body, "type", b"filter") {
        return policy_named(text_at(body, "policy"));
    }
    None
}

/// The same of the item at a place.
fn policy_at(all: &[Value], place: usize) -> Option<bool>
    ensures { result ≡ policy_at (get_item place (items_view all.now)) }
{
    match item_at(all, place) {
        Some(value) => match value.get("chain") {
            Some(body) => policy_in(body),
            None => None,
        },
        None => None,
    }
}

/// Why a chain isn't written out.
fn refused_why(refused: Refused) -> Why
    ensures { result ≡ refused_why refused }
{
    match refused {
        Refused::TooDeep => Why::Deep,
        Refused::TooMany => Why::Many,
    }
}

/// Puts there why there is no list.
fn put_no_list(into: &mut Vec<u8>, why: &[u8], name: &[u8]) -> Result<bool, AllocError>
    ensures text { OnOk result (into.new.items ≡ into.old.items ++ no_list why.now name.now) }
    ensures none { IfOk result (λ answer. answer ≡ false) }
{
    into.extend_from_slice(b"no list: ")?;
    into.extend_from_slice(why)?;
    into.extend_from_slice(b": ")?;
    into.extend_from_slice(named_key(name))?;
    into.extend_from_slice(b"\n")?;
    Ok(false)
}

/// Puts the list of the chain at a place there, which has this policy, and its commit; or why there is none.
fn put_chain(
    alloc: Global,
    asked: &Asked,
    rules: &[ChainRule],
    chain: usize,
    policy: bool,
    into: &mut Vec<u8>,
) -> Result<bool, AllocError>
    ensures { IfOk result (λ answer. IsListed answer (policy_list asked.now rules.now chain (Some policy)) into.old.items into.new.items) }
{
    match written_out(alloc, rules, chain, DEPTH, MOST_LINES)? {
        Ok(lines) => {
            put_list(
                alloc,
                into,
                asked.version,
                policy,
                lines.as_slice(),
                &any_tests(),
                asked.older,
            )?;
            into.extend_from_slice(b"commit\n")?;
            Ok(true)
        }
        Err(refused) => put_no_list(into, refused_why(refused).text().as_bytes(), asked.chain),
    }
}

/// Puts the list of the chain that is asked for there, and its commit; or why there is none. Answers whether there is.
pub(crate) fn put_lines(
    alloc: Global,
    asked: &Asked,
    all: &[Value],
    rules: &[ChainRule],
    into: &mut Vec<u8>,
) -> Result<bool, AllocError>
    ensures { IfOk result (λ answer. IsListed answer (list_of asked.now (items_view all.now) rules.now) into.old.items into.new.items) }
{
    if !family_fits(asked.version, asked.family) {
        return put_no_list(into, b"no chain", asked.chain);
    }
    match place_of(asked, "chain", asked.chain, all) {
        Some(chain) => match policy_at(all, chain) {
            Some(policy) => put_chain(alloc, asked, rules, chain, policy, into),
            None => put_no_list(into, b"no chain", asked.chain),
        },
        None => put_no_list(into, b"no chain", asked.chain),
    }
}

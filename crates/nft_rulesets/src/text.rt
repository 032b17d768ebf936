//! What a text of JSON comes to.

ghost use Rattle.std.specs.Prelude.{◌≡◌, [], Some, IfOk, option_map};
ghost use Rattle.json.specs.Value.{items_view, value_view};
ghost use Rattle.nft_rulesets.specs.Texts.{TextTold, items_in, no_ruleset};

use crate::asked::Asked;
use crate::looks::items_of;
use crate::script::Telling;
use json::{Error, Scratch, Value};
use script_runs::Status;
use std::alloc::{AllocError, Global};

/// Puts the script there that a text comes to, and answers the status that it has.
pub(crate) fn tell_text(
    alloc: Global,
    asked: &Asked,
    leave_out: bool,
    text: &[u8],
    script: &mut Vec<u8>,
) -> Result<Status, AllocError>
    requires { script.old.items ≡ [] }
    ensures { IfOk result (λ answer. TextTold asked.now leave_out text.now script.new.items answer) }
{
    let mut scratch = Scratch::new(alloc);
    let value = match Value::from_slice(alloc, text, &mut scratch) {
        Ok(value) => value,
        Err(Error::Invalid) => return put_no_ruleset(script),
        // Of a reader that takes any length, and keys that come twice, memory alone is left.
        Err(_) => return Err(AllocError),
    };
    match ruleset_in(&value) {
        Some(items) => Telling::new(alloc, leave_out).tell_all(alloc, asked, items, script),
        None => put_no_ruleset(script),
    }
}

/// The items of a ruleset.
fn ruleset_in<'v, 'a>(value: &'v Value<'a>) -> Option<&'v [Value<'a>]>
    ensures { option_map (λ items. items_view items.now) result ≡ items_in (Some (value_view value.now)) }
{
    match value.get("nftables") {
        Some(found) => items_of(found),
        None => None,
    }
}

/// Puts the line there that tells of a text that is no ruleset.
fn put_no_ruleset(script: &mut Vec<u8>) -> Result<Status, AllocError>
    requires { script.old.items ≡ [] }
    ensures text { IfOk result (λ answer. script.new.items ≡ no_ruleset) }
    ensures status { IfOk result (λ answer. answer ≡ Status.Script) }
{
    script.extend_from_slice(b"no JSON ruleset\n")?;
    Ok(Status::Script)
}

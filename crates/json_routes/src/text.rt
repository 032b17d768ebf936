//! What a text of JSON comes to.

ghost use Rattle.std.specs.Prelude.{◌≡◌, [], IfOk, option_map};
ghost use Rattle.json.specs.Find.{as_array};
ghost use Rattle.json.specs.Value.{items_view, value_view};
ghost use Rattle.json_routes.specs.Items.{no_routes};
ghost use Rattle.json_routes.specs.Texts.{TextTold, no_array};

use crate::script::Telling;
use json::{Error, Scratch, Value};
use rule_model::IpVersion;
use script_runs::Status;
use std::alloc::{AllocError, Global};

/// Puts the script there that a text comes to, and answers the status that it has.
pub(crate) fn tell_text(
    alloc: Global,
    version: IpVersion,
    leave_out: bool,
    text: &[u8],
    script: &mut Vec<u8>,
) -> Result<Status, AllocError>
    requires { script.old.items ≡ [] }
    ensures { IfOk result (λ answer. TextTold leave_out (no_routes version) text.now script.new.items answer) }
{
    let mut scratch = Scratch::new(alloc);
    let value = match Value::from_slice(alloc, text, &mut scratch) {
        Ok(value) => value,
        Err(Error::Invalid) => return put_no_array(script),
        // Of a reader that takes any length, and keys that come twice, memory alone is left.
        Err(_) => return Err(AllocError),
    };
    match items_of(&value) {
        Some(items) => Telling::new(alloc, version, leave_out).tell_all(alloc, items, script),
        None => put_no_array(script),
    }
}

/// The items of an array.
fn items_of<'v, 'a>(value: &'v Value<'a>) -> Option<&'v [Value<'a>]>
    ensures { option_map (λ items. items_view items.now) result ≡ as_array (value_view value.now) }
{
    match value {
        Value::Array(items) => Some(items.as_slice()),
        _ => None,
    }
}

/// Puts the line there that tells of a text that is no array.
fn put_no_array(script: &mut Vec<u8>) -> Result<Status, AllocError>
    requires { script.old.items ≡ [] }
    ensures text { IfOk result (λ answer. script.new.items ≡ no_array) }
    ensures status { IfOk result (λ answer. answer ≡ Status.Script) }
{
    script.extend_from_slice(b"no JSON array\n")?;
    Ok(Status::Script)
}

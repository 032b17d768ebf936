//! The address of a next hop of the other version of IP, and flags.

ghost use Rattle.std.specs.Prelude.{◌≡◌, ◌++◌, IfOk};
ghost use Rattle.import_lines.specs.Import.{IsTold};
ghost use Rattle.json.specs.Value.{items_view, members_view, value_view};
ghost use Rattle.json_routes.specs.Lines.{address_line, address_member, each_item, each_member, flags_line, onto, value_line};

use crate::line::{put_bad, put_unknown, put_value, put_word};
use crate::parts::is_of_address;
use import_lines::Told;
use json::Value;
use std::alloc::AllocError;

/// Puts an address there, behind `via`.
pub(crate) fn put_address(line: &mut Vec<u8>, key: &str, value: &Value) -> Result<Told, AllocError>
    ensures { IfOk result (λ answer. IsTold answer line.new.items (onto line.old.items (address_line key.now (value_view value.now)))) }
{
    match value {
        Value::Object(members) => {
            put_word(line, b"via")?;
            put_address_members(line, members.as_slice())
        }
        _ => put_bad(line, key),
    }
}

/// Puts the words of its members there.
fn put_address_members(line: &mut Vec<u8>, members: &[(&str, Value)]) -> Result<Told, AllocError>
    ensures { IfOk result (λ answer. IsTold answer line.new.items (onto line.old.items (each_member address_member (members_view members.now)))) }
{
    for member in members {
        match put_address_member(line, member.0, &member.1)? {
            Told::Said => {}
            Told::Unsaid => return Ok(Told::Unsaid),
        }
    }
    Ok(Told::Said)
}

/// Puts the word of a member there.
fn put_address_member(line: &mut Vec<u8>, key: &str, value: &Value) -> Result<Told, AllocError>
    ensures { IfOk result (λ answer. IsTold answer line.new.items (onto line.old.items (address_member key.now (value_view value.now)))) }
{
    if is_of_address(key) {
        return put_value(line, key, value);
    }
    put_unknown(line, key)
}

/// Puts flags there.
pub(crate) fn put_flags(line: &mut Vec<u8>, key: &str, value: &Value) -> Result<Told, AllocError>
    ensures { IfOk result (λ answer. IsTold answer line.new.items (onto line.old.items (flags_line key.now (value_view value.now)))) }
{
    match value {
        Value::Array(items) => put_each_flag(line, key, items.as_slice()),
        _ => put_bad(line, key),
    }
}

/// Puts each of them there.
fn put_each_flag(line: &mut Vec<u8>, key: &str, items: &[Value]) -> Result<Told, AllocError>
    ensures { IfOk result (λ answer. IsTold answer line.new.items (onto line.old.items (each_item (value_line key.now) (items_view items.now)))) }
{
    for item in items {
        match put_value(line, key, item)? {
            Told::Said => {}
            Told::Unsaid => return Ok(Told::Unsaid),
        }
    }
    Ok(Told::Said)
}

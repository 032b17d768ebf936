//! The members of a route or of a next hop, and a set of next hops.

ghost use Rattle.std.specs.Prelude.{◌≡◌, ◌++◌, IfOk};
ghost use Rattle.import_lines.specs.Import.{IsTold};
ghost use Rattle.json.specs.Value.{items_view, members_view, value_view};
ghost use Rattle.json_routes.specs.Lines.{each_item, each_member, hop_line, hops_line, line_of_part, member_line, onto, value_line, word_line};

use crate::address::{put_address, put_flags};
use crate::line::{put_bad, put_encapsulated, put_unknown, put_value, put_word};
use crate::parts::{Part, part_of};
use import_lines::Told;
use json::Value;
use std::alloc::AllocError;

/// Puts the words of a member there.
pub(crate) fn put_member(line: &mut Vec<u8>, key: &str, value: &Value) -> Result<Told, AllocError>
    ensures { IfOk result (λ answer. IsTold answer line.new.items (onto line.old.items (member_line key.now (value_view value.now)))) }
{
    match part_of(key) {
        Part::Bare => put_value(line, key, value),
        Part::Gateway => put_named(line, "via", key, value),
        Part::Named => put_named(line, key, key, value),
        Part::Address => put_address(line, key, value),
        Part::Flags => put_flags(line, key, value),
        Part::Passed => Ok(Told::Said),
        Part::Encap => put_encapsulated(line),
        Part::Unknown => put_unknown(line, key),
    }
}

/// Puts the word of a value there behind a name.
fn put_named(line: &mut Vec<u8>, name: &str, key: &str, value: &Value) -> Result<Told, AllocError>
    ensures { IfOk result (λ answer. IsTold answer line.new.items (onto line.old.items (onto (word_line name.now) (value_line key.now (value_view value.now))))) }
{
    put_word(line, name.as_bytes())?;
    put_value(line, key, value)
}

/// Puts the words of some members there.
fn put_members(line: &mut Vec<u8>, members: &[(&str, Value)]) -> Result<Told, AllocError>
    ensures { IfOk result (λ answer. IsTold answer line.new.items (onto line.old.items (each_member member_line (members_view members.now)))) }
{
    for member in members {
        match put_member(line, member.0, &member.1)? {
            Told::Said => {}
            Told::Unsaid => return Ok(Told::Unsaid),
        }
    }
    Ok(Told::Said)
}

/// Puts a set of next hops there.
pub(crate) fn put_hops(line: &mut Vec<u8>, key: &str, value: &Value) -> Result<Told, AllocError>
    ensures { IfOk result (λ answer. IsTold answer line.new.items (onto line.old.items (hops_line key.now (value_view value.now)))) }
{
    match value {
        Value::Array(items) => put_each_hop(line, key, items.as_slice()),
        _ => put_bad(line, key),
    }
}

/// Puts each of them there.
fn put_each_hop(line: &mut Vec<u8>, key: &str, items: &[Value]) -> Result<Told, AllocError>
    ensures { IfOk result (λ answer. IsTold answer line.new.items (onto line.old.items (each_item (hop_line key.now) (items_view items.now)))) }
{
    for item in items {
        match put_hop(line, key, item)? {
            Told::Said => {}
            Told::Unsaid => return Ok(Told::Unsaid),
        }
    }
    Ok(Told::Said)
}

/// Puts one of them there.
fn put_hop(line: &mut Vec<u8>, key: &str, value: &Value) -> Result<Told, AllocError>
    ensures { IfOk result (λ answer. IsTold answer line.new.items (onto line.old.items (hop_line key.now (value_view value.now)))) }
{
    match value {
        Value::Object(members) => {
            put_word(line, b"nexthop")?;
            put_members(line, members.as_slice())
        }
        _ => put_bad(line, key),
    }
}

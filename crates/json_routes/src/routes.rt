//! A route as a line.

ghost use Rattle.std.specs.Prelude.{◌≡◌, ◌++◌, [], IfOk};
ghost use Rattle.import_lines.specs.Import.{IsTold};
ghost use Rattle.json.specs.Value.{members_view, value_view};
ghost use Rattle.json_routes.specs.Lines.{each_member, onto, route_line, route_member};

use crate::hops::{put_hops, put_member};
use import_lines::Told;
use json::Value;
use std::alloc::AllocError;

/// Puts the line of a route there, or why the value is none.
pub(crate) fn put_route(line: &mut Vec<u8>, value: &Value) -> Result<Told, AllocError>
    ensures { IfOk result (λ answer. IsTold answer line.new.items (route_line (value_view value.now))) }
{
    line.clear();
    match value {
        Value::Object(members) => put_route_members(line, members.as_slice()),
        _ => {
            line.extend_from_slice(b"no object")?;
            Ok(Told::Unsaid)
        }
    }
}

/// Puts the words of its members there.
fn put_route_members(line: &mut Vec<u8>, members: &[(&str, Value)]) -> Result<Told, AllocError>
    ensures { IfOk result (λ answer. IsTold answer line.new.items (onto line.old.items (each_member route_member (members_view members.now)))) }
{
    for member in members {
        match put_route_member(line, member.0, &member.1)? {
            Told::Said => {}
            Told::Unsaid => return Ok(Told::Unsaid),
        }
    }
    Ok(Told::Said)
}

/// Puts the words of one of them there.
fn put_route_member(line: &mut Vec<u8>, key: &str, value: &Value) -> Result<Told, AllocError>
    ensures { IfOk result (λ answer. IsTold answer line.new.items (onto line.old.items (route_member key.now (value_view value.now)))) }
{
    if key == "nexthops" {
        return put_hops(line, key, value);
    }
    put_member(line, key, value)
}

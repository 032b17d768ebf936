//! What an item comes to.

ghost use Rattle.std.specs.Prelude.{◌≡◌, [], IfOk};
ghost use Rattle.import_lines.specs.Import.{IsTold};
ghost use Rattle.json.specs.Value.{value_view};
ghost use Rattle.json_routes.specs.Items.{item_after, item_told, line_told};
ghost use Rattle.ip_routes.specs.Telling.{route_after};

use crate::routes::put_route;
use import_lines::{LineFormat, Told};
use ip_routes::IpRoutes;
use json::Value;
use script_lines::LINE_BYTES;
use std::alloc::{AllocError, Global};

/// Puts what a route comes to into room that is empty, and what it is as a line into other room.
pub(crate) fn tell_item(
    alloc: Global,
    routes: &mut IpRoutes,
    line: &mut Vec<u8>,
    value: &Value,
    into: &mut Vec<u8>,
) -> Result<Told, AllocError>
    requires { into.old.items ≡ [] }
    ensures told { IfOk result (λ answer. IsTold answer into.new.items (item_told routes.old (value_view value.now))) }
    ensures said { IfOk result (λ answer. answer ≡ Told.Said → routes.new ≡ item_after routes.old (value_view value.now)) }
    ensures unsaid { IfOk result (λ answer. answer ≡ Told.Unsaid → routes.new ≡ routes.old) }
{
    match put_route(line, value)? {
        Told::Said => tell_line(alloc, routes, line.as_slice(), into),
        Told::Unsaid => put_why(into, line.as_slice()),
    }
}

/// Tells the line of a route.
fn tell_line(
    alloc: Global,
    routes: &mut IpRoutes,
    line: &[u8],
    into: &mut Vec<u8>,
) -> Result<Told, AllocError>
    requires { into.old.items ≡ [] }
    ensures told { IfOk result (λ answer. IsTold answer into.new.items (line_told routes.old line.now)) }
    ensures said { IfOk result (λ answer. answer ≡ Told.Said → routes.new ≡ route_after routes.old line.now) }
    ensures unsaid { IfOk result (λ answer. answer ≡ Told.Unsaid → routes.new ≡ routes.old) }
{
    if line.is_empty() {
        return put_why(into, b"no prefix");
    }
    if line.len() > LINE_BYTES {
        return put_why(into, b"long route");
    }
    routes.take(alloc, line, into)
}

/// Puts the reason there why a route isn't said.
fn put_why(into: &mut Vec<u8>, why: &[u8]) -> Result<Told, AllocError>
    requires { into.old.items ≡ [] }
    ensures why { IfOk result (λ answer. into.new.items ≡ why.now) }
    ensures unsaid { IfOk result (λ answer. answer ≡ Told.Unsaid) }
{
    into.extend_from_slice(why)?;
    Ok(Told::Unsaid)
}

//! Which line of a driver's trace a text is.

ghost use Rattle.std.specs.Prelude.{◌≡◌, ◌≤◌, Err, IfOk, take};
ghost use Rattle.serde_json.specs.View.{view, members_view};
ghost use Rattle.trace_file.specs.Values.{most, number_to, values_in};
ghost use Rattle.trace_file.specs.Lines.{slots_in};
ghost use Rattle.driver_trace.specs.DriverLines.{IsDriverLineOf, IsOtherLineOf, driver_member, driver_members, move_in, other_line_in};

use crate::DriverLine;
use rule_model::IpVersion;
use script_lines::{LINE_BYTES, Line};
use serde_json::{Map, Value};
use slot_order::SCRIPT_SLOTS;
use std::alloc::Global;
use trace_file::{TraceFault, read_line};

/// Reads one line of a driver's trace of this version, from memory that it gives back; a head is read by either version.
/// Bad comes only where the text is no line of such a trace; Memory may come of any text.
pub fn read_driver_line(
    alloc: Global,
    line: &Line,
    version: IpVersion,
) -> Result<DriverLine, TraceFault>
    requires { line.now.len ≤ LINE_BYTES }
    ensures line { IfOk result (IsDriverLineOf version (take line.now.len line.now.bytes)) }
    ensures bad { result ≡ Err TraceFault.Bad → (found : DriverLine) → ¬ IsDriverLineOf version (take line.now.len line.now.bytes) found }
{
    match read_line(alloc, line, version) {
        Ok(found) => Ok(DriverLine::Common(found)),
        Err(TraceFault::Memory) => Err(TraceFault::Memory),
        Err(TraceFault::Bad) => read_other(alloc, line),
    }
}

/// Reads a line that only another driver's trace has.
fn read_other(alloc: Global, line: &Line) -> Result<DriverLine, TraceFault>
    requires { line.now.len ≤ LINE_BYTES }
    ensures line { IfOk result (IsOtherLineOf (take line.now.len line.now.bytes)) }
    ensures bad { result ≡ Err TraceFault.Bad → (found : DriverLine) → ¬ IsOtherLineOf (take line.now.len line.now.bytes) found }
{
    match Value::from_slice(alloc, &line.bytes[..usize::from(line.len)]) {
        Ok(value) => match other_line(&value) {
            Some(found) => Ok(found),
            None => Err(TraceFault::Bad),
        },
        Err(fault) if fault.is_memory() => Err(TraceFault::Memory),
        Err(_) => Err(TraceFault::Bad),
    }
}

/// The line that a value is which our own traces don't have.
fn other_line(value: &Value) -> Option<DriverLine>
    ensures { result ≡ other_line_in (view value.now) }
{
    other_members(value.as_object()?)
}

/// The line of an object's members.
fn other_members(map: &Map<String, Value>) -> Option<DriverLine>
    ensures { result ≡ driver_members (members_view map.now.entries) }
{
    let mut members = map.iter();
    let (key, value) = members.next()?;
    if members.next().is_some() {
        return None;
    }
    other_member(key.as_str(), value)
}

/// A line of one member.
fn other_member(key: &str, value: &Value) -> Option<DriverLine>
    ensures { result ≡ driver_member key.now (view value.now) }
{
    match key {
        "move" => move_of(value),
        "back" => Some(DriverLine::Back(number_of_32_bits(value)?)),
        _ => None,
    }
}

/// A first slot, the first slot where its block comes to, and how many.
fn move_of(value: &Value) -> Option<DriverLine>
    ensures { result ≡ move_in (values_in (view value.now)) }
{
    match value.as_array()?.as_slice() {
        [from, to, count] => {
            Some(DriverLine::Move {
                from: number_of_32_bits(from)?,
                to: number_of_32_bits(to)?,
                count: count_of(count)?,
            })
        }
        _ => None,
    }
}

/// How many slots, from 1 to `SCRIPT_SLOTS`.
fn count_of(value: &Value) -> Option<u32>
    ensures { result ≡ slots_in (view value.now) }
{
    let count = number_of_32_bits(value)?;
    if 1 <= count && count <= SCRIPT_SLOTS {
        Some(count)
    } else {
        None
    }
}

/// A whole number of 32 bits.
fn number_of_32_bits(value: &Value) -> Option<u32>
    ensures { result ≡ number_to (most 32) (view value.now) }
{
    u32::try_from(value.as_u64()?).ok()
}

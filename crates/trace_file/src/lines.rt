//! Which line of a trace a JSON value is, by the version of IP of the trace.

ghost use Rattle.std.specs.Prelude.{◌≡◌};
ghost use Rattle.serde_json.specs.View.{view, members_view};
ghost use Rattle.trace_file.specs.Lines.{choice_in, family_in, field_in, slots_in, added_in, change_in, changed_in, removed_in, drain_in, one_member, put_in, entry_by, fault_in, two_members, table_in, head_in, three_members, members_line, line_in};
ghost use Rattle.trace_file.specs.Values.{values_in};

use crate::TraceLine;
use crate::ipv6_values::{change6_of, entry6_of, rank6_of, rule6_of};
use crate::values::{
    entry_of, number_of_16_bits, number_of_32_bits, number_of_64_bits, rank_of, rule_of,
};
use rule_model::{Entry, Field, IpVersion, Rank, Rule};
use serde_json::{Map, Value};
use slot_order::SCRIPT_SLOTS;

/// The line that a value is.
pub(crate) fn line_of(version: IpVersion, value: &Value) -> Option<TraceLine>
    ensures { result ≡ line_in version (view value.now) }
{
    members_line(version, value.as_object()?)
}

/// The line of an object's members, which come by rising names.
fn members_line(version: IpVersion, map: &Map<String, Value>) -> Option<TraceLine>
    ensures { result ≡ members_line version (members_view map.now.entries) }
{
    let mut members = map.iter();
    let (first, value) = members.next()?;
    let Some((second, other)) = members.next() else {
        return one_member(version, first.as_str(), value);
    };
    let Some((third, last)) = members.next() else {
        return two_members(version, first.as_str(), value, second.as_str(), other);
    };
    if members.next().is_some() {
        return None;
    }
    three_members(
        first.as_str(),
        value,
        second.as_str(),
        other,
        third.as_str(),
        last,
    )
}

/// A line of one member.
fn one_member(version: IpVersion, key: &str, value: &Value) -> Option<TraceLine>
    ensures { result ≡ one_member version key.now (view value.now) }
{
    match key {
        "commit" => Some(TraceLine::Commit(number_of_32_bits(value)?)),
        "add" => Some(TraceLine::Add(added_of(version, value)?)),
        "set" => changed_of(version, value),
        "del" => Some(TraceLine::Del(removed_of(version, value)?)),
        "erase" => Some(TraceLine::Erase(number_of_32_bits(value)?)),
        "drain" => drain_of(value),
        "done" => Some(TraceLine::Done(number_of_32_bits(value)?)),
        "refused" => Some(TraceLine::Refused(number_of_32_bits(value)?)),
        "end" => Some(TraceLine::End(number_of_64_bits(value)?)),
        _ => None,
    }
}

/// The rule that is added.
fn added_of(version: IpVersion, value: &Value) -> Option<Rule>
    ensures { result ≡ added_in version (view value.now) }
{
    match version {
        IpVersion::V4 => rule_of(value),
        IpVersion::V6 => rule6_of(value),
    }
}

/// A change of a result.
fn changed_of(version: IpVersion, value: &Value) -> Option<TraceLine>
    ensures { result ≡ changed_in version (view value.now) }
{
    match version {
        IpVersion::V4 => change_of(value),
        IpVersion::V6 => {
            let (rank, answer) = change6_of(value)?;
            Some(TraceLine::Set(rank, answer))
        }
    }
}

/// The priority of the rule that is removed.
fn removed_of(version: IpVersion, value: &Value) -> Option<Rank>
    ensures { result ≡ removed_in version (view value.now) }
{
    match version {
        IpVersion::V4 => rank_of(value),
        IpVersion::V6 => rank6_of(value),
    }
}

/// A priority and the result that it gets.
fn change_of(value: &Value) -> Option<TraceLine>
    ensures { result ≡ change_in (values_in (view value.now)) }
{
    match value.as_array()?.as_slice() {
        [rank, answer] => Some(TraceLine::Set(rank_of(rank)?, number_of_32_bits(answer)?)),
        _ => None,
    }
}

/// True, and no other value.
fn drain_of(value: &Value) -> Option<TraceLine>
    ensures { result ≡ drain_in (view value.now) }
{
    if value.as_bool()? {
        Some(TraceLine::Drain)
    } else {
        None
    }
}

/// A line of two members.
fn two_members(
    version: IpVersion,
    first: &str,
    value: &Value,
    second: &str,
    other: &Value,
) -> Option<TraceLine>
    ensures { result ≡ two_members version first.now (view value.now) second.now (view other.now) }
{
    match (first, second) {
        ("put", "slot") => put_of(version, value, other),
        ("fault", "line") => fault_of(value, other),
        _ => None,
    }
}

/// An entry and its slot.
fn put_of(version: IpVersion, entry: &Value, slot: &Value) -> Option<TraceLine>
    ensures { result ≡ put_in version (view entry.now) (view slot.now) }
{
    let found = entry_by(version, entry)?;
    Some(TraceLine::Put(number_of_32_bits(slot)?, found))
}

/// The entry that is put.
fn entry_by(version: IpVersion, value: &Value) -> Option<Entry>
    ensures { result ≡ entry_by version (view value.now) }
{
    match version {
        IpVersion::V4 => entry_of(value),
        IpVersion::V6 => entry6_of(value),
    }
}

/// A fault's line. Its text is any string.
fn fault_of(text: &Value, line: &Value) -> Option<TraceLine>
    ensures { result ≡ fault_in (view text.now) (view line.now) }
{
    text.as_str()?;
    Some(TraceLine::Fault(number_of_32_bits(line)?))
}

/// A line of three members.
fn three_members(
    first: &str,
    value: &Value,
    second: &str,
    other: &Value,
    third: &str,
    last: &Value,
) -> Option<TraceLine>
    ensures { result ≡ three_members first.now (view value.now) second.now (view other.now) third.now (view last.now) }
{
    match (first, second, third) {
        ("family", "mode", "slots") => head_of(value, other, last),
        ("port", "table", "word") => table_of(value, other, last),
        _ => None,
    }
}

/// The family, the encoding of ranges and the slots in use.
fn head_of(family: &Value, mode: &Value, slots: &Value) -> Option<TraceLine>
    ensures { result ≡ head_in (view family.now) (view mode.now) (view slots.now) }
{
    let (version, acl) = family_of(family)?;
    Some(TraceLine::Head {
        version,
        acl,
        bits: choice_of("cover", "bits", mode)?,
        slots: slots_of(slots)?,
    })
}

/// A family: its version, and whether it is an access list.
fn family_of(value: &Value) -> Option<(IpVersion, bool)>
    ensures { result ≡ family_in (view value.now) }
{
    match value.as_str()? {
        "route" => Some((IpVersion::V4, false)),
        "acl" => Some((IpVersion::V4, true)),
        "route6" => Some((IpVersion::V6, false)),
        "acl6" => Some((IpVersion::V6, true)),
        _ => None,
    }
}

/// A port, its table and the word.
fn table_of(port: &Value, table: &Value, word: &Value) -> Option<TraceLine>
    ensures { result ≡ table_in (view port.now) (view table.now) (view word.now) }
{
    let place = number_of_16_bits(port)?;
    let field = field_of(table)?;
    Some(TraceLine::Table(field, place, number_of_16_bits(word)?))
}

/// One of two words: true where it is the second.
fn choice_of(first: &str, second: &str, value: &Value) -> Option<bool>
    ensures { result ≡ choice_in first.now second.now (view value.now) }
{
    let word = value.as_str()?;
    if word == first {
        return Some(false);
    }
    if word == second { Some(true) } else { None }
}

/// The name of a table.
fn field_of(value: &Value) -> Option<Field>
    ensures { result ≡ field_in (view value.now) }
{
    if choice_of("src", "dst", value)? {
        Some(Field::Dst)
    } else {
        Some(Field::Src)
    }
}

/// The number of slots in use, from 1 to `SCRIPT_SLOTS`.
fn slots_of(value: &Value) -> Option<u32>
    ensures { result ≡ slots_in (view value.now) }
{
    let slots = number_of_32_bits(value)?;
    if 1 <= slots && slots <= SCRIPT_SLOTS {
        Some(slots)
    } else {
        None
    }
}

//! The lines of a report in JSON, which are those of a trace file.
ghost use Rattle.std.specs.Prelude.{◌≡◌, ◌≤◌, [], length};
ghost use Rattle.json_text.specs.JsonText.{json_line};
ghost use Rattle.replay.specs.JsonLines as lines;
ghost use Rattle.replay.specs.JsonLines.{behind, is_by_bits, is_list, shared_line};
ghost use Rattle.report_lines.specs.Outside.{WritesLine};

use crate::Family;
use batch_order::Mode;
use json_text::JsonLine;
use report_lines::write_text;
use rule_model::IpVersion;
use rule_store::Command;
use script_lines::{Failed, Sink};
use tcam_device::Write;
use trace_file::TraceLine;

/// The first line: the family of the rules, how port ranges are tested, and the slots in use.
pub(crate) fn head_line(family: Family, mode: Mode, slots: u32) -> TraceLine
    ensures { result ≡ lines.head_line family mode slots }
{
    TraceLine::Head {
        version: family.version(),
        acl: is_list(family),
        bits: is_by_bits(mode),
        slots,
    }
}

// Whether the rules are those of an access list.
fn is_list(family: Family) -> bool
    ensures { result ≡ is_list family }
{
    match family {
        Family::Route | Family::Route6 => false,
        Family::Acl | Family::Acl6 => true,
    }
}

// Whether port ranges are tested by bits.
fn is_by_bits(mode: Mode) -> bool
    ensures { result ≡ is_by_bits mode }
{
    match mode {
        Mode::Cover => false,
        Mode::Bits => true,
    }
}

/// The line of a command.
pub(crate) fn change_line(command: &Command) -> TraceLine
    ensures { result ≡ lines.change_line command.now }
{
    match *command {
        Command::Add(rule) => TraceLine::Add(rule),
        Command::Set { priority, result } => TraceLine::Set(priority, result),
        Command::Del(priority) => TraceLine::Del(priority),
    }
}

/// The line of a device write.
pub(crate) fn journal_line(write: &Write) -> TraceLine
    ensures { result ≡ lines.journal_line write.now }
{
    match *write {
        Write::Slot(slot, Some(entry)) => TraceLine::Put(slot, entry),
        Write::Slot(slot, None) => TraceLine::Erase(slot),
        Write::Table(field, port, word) => TraceLine::Table(field, port, word),
    }
}

/// Writes a line of a trace of this version. Takes no memory. Where the sink fails, a part of the line was taken, perhaps
/// none or all of it.
pub(crate) fn write_json<K: Sink>(
    sink: &mut K,
    version: IpVersion,
    line: &TraceLine,
) -> Result<(), Failed>
    ensures { WritesLine K.taken K.accepted K.faults sink.old sink.new (json_line version [] line.now) result }
{
    write_text(sink, JsonLine::new(line, version, "").as_str())
}

/// Writes a line without a rank, which both versions have alike. Takes no memory. Where the sink fails, a part of the line
/// was taken, perhaps none or all of it.
pub(crate) fn write_shared<K: Sink>(sink: &mut K, line: &TraceLine) -> Result<(), Failed>
    ensures { WritesLine K.taken K.accepted K.faults sink.old sink.new (shared_line [] line.now) result }
{
    write_json(sink, IpVersion::V4, line)
}

/// Writes a line without a rank behind the head, where that is due, with the text of the fault of a line at fault, which has
/// at most 32 bytes. Takes no memory. Where the sink fails, a part of this was taken, perhaps none or all of it.
pub(crate) fn write_behind<K: Sink>(
    sink: &mut K,
    head: Option<TraceLine>,
    line: &TraceLine,
    fault: &str,
) -> Result<(), Failed>
    requires short { length fault.now ≤ 32 }
    ensures { WritesLine K.taken K.accepted K.faults sink.old sink.new (behind head (shared_line fault.now line.now)) result }
{
    match head {
        None => write_text(sink, JsonLine::new(line, IpVersion::V4, fault).as_str()),
        Some(first) => {
            write_shared(sink, &first)?;
            write_text(sink, JsonLine::new(line, IpVersion::V4, fault).as_str())
        }
    }
}

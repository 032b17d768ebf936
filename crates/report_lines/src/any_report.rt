//! The lines that every report may have.

ghost use Rattle.std.specs.Prelude.{◌≤◌, length};
ghost use Rattle.report_lines.specs.Text.{fault_line};
ghost use Rattle.report_lines.specs.Outside.{WritesLine};

use crate::report_line::ReportLine;
use script_lines::{Failed, Sink, write_all};

/// Writes the line that names the fault of a script's line or a trace's, which is counted from 1. The fault's text has at
/// most 32 bytes. Takes no memory. Where the sink fails, a part of the line was taken, perhaps none or all of it.
pub fn write_fault<K: Sink>(sink: &mut K, line: u64, fault: &str) -> Result<(), Failed>
    requires short { length fault.now ≤ 32 }
    ensures { WritesLine K.taken K.accepted K.faults sink.old sink.new (fault_line line fault.now) result }
{
    ReportLine::new("line").number(line).word(fault).write(sink)
}

/// Writes a text as it is, with no line feed of its own. Takes no memory. Where the sink fails, a part of the text was
/// taken, perhaps none or all of it.
pub fn write_text<K: Sink>(sink: &mut K, text: &str) -> Result<(), Failed>
    ensures { WritesLine K.taken K.accepted K.faults sink.old sink.new text.now result }
{
    write_all(sink, text.as_bytes())
}

//! What `tcam draw` does: reads a trace to its end, and then writes one picture of it, or why there is none.

ghost use Rattle.std.specs.Prelude.{◌≡◌, ◌≢◌, ◌⊎◌};
ghost use Rattle.call_history.specs.Cause.{IsCounted};
ghost use Rattle.trace_draw.specs.Told.{IsFault, IsOf, Tells};

use crate::asked::{Asked, Wanted, WordsFault, read_words};
use crate::occupancy::draw_occupancy;
use crate::picture::draw_commits;
use crate::reading::{ReadFault, read_trace};
use crate::texts::{DRAW_HELP, USAGE};
use crate::tracer::Tracer;
use script_lines::{Failed, Sink, Source, write_all};
use script_runs::Status;
use std::alloc::{AllocError, Global};

/// Draws what the words ask for of the trace that the source gives: the program's name first, `draw` behind it, and then
/// the options. The sink is handed one text, behind all reading: the picture, where the status is `Done`; that there is no
/// such commit, where it is `Refused`; the line that names the fault of a line of the trace, where it is `Script`; the
/// word `usage` for words that are no command line. Of a failed source and for want of memory it is handed nothing.
/// `ReadFault` comes exactly where the source failed, `WriteFault` exactly where the sink did, `DeviceFault` never.
pub fn draw<S: Source, K: Sink>(
    alloc: Global,
    words: &[String],
    source: &mut S,
    sink: &mut K,
) -> Status
    ensures told { Tells K.taken K.accepted K.faults sink.old sink.new result }
    ensures cause { IsCounted (result ≡ Status.ReadFault) (S.faults source.old) (S.faults source.new) }
{
    let wanted = match read_words(alloc, words) {
        Ok(Asked::Picture(wanted)) => wanted,
        Ok(Asked::Help) => return tell(sink, DRAW_HELP, Status::Done),
        Err(WordsFault::Usage) => return tell(sink, USAGE, Status::Usage),
        Err(WordsFault::Memory) => return Status::Memory,
    };
    match read_trace(alloc, wanted, source) {
        Ok(tracer) => tell_picture(alloc, wanted, &tracer, sink),
        Err(ReadFault::Bad { line }) => tell_fault(alloc, line, "bad trace", sink),
        Err(ReadFault::TooLong { line }) => tell_fault(alloc, line, "line too long", sink),
        Err(ReadFault::BadByte { line }) => tell_fault(alloc, line, "bad byte", sink),
        Err(ReadFault::Read) => Status::ReadFault,
        Err(ReadFault::Memory) => Status::Memory,
    }
}

/// Writes the picture that is wanted, or that there is no such commit.
fn tell_picture<K: Sink>(alloc: Global, wanted: Wanted, tracer: &Tracer, sink: &mut K) -> Status
    ensures told { Tells K.taken K.accepted K.faults sink.old sink.new result }
    ensures kind { result ≢ Status.ReadFault }
{
    let drawn = match (wanted, tracer.rows.commits) {
        (Wanted::Occupancy, _) => draw_occupancy(alloc, tracer),
        (_, Some((first, last))) => draw_commits(alloc, tracer, first, last),
        (Wanted::Last, None) => return tell(sink, "no commit\n", Status::Refused),
        (Wanted::Commits { first, .. }, None) => return tell_absent(alloc, first, sink),
    };
    match drawn {
        Ok(text) => tell(sink, &text, Status::Done),
        Err(AllocError) => Status::Memory,
    }
}

/// Writes that a trace has no commit of this number.
fn tell_absent<K: Sink>(alloc: Global, commit: u32, sink: &mut K) -> Status
    ensures told { Tells K.taken K.accepted K.faults sink.old sink.new result }
    ensures kind { result ≢ Status.ReadFault }
{
    match format!(in alloc; "no commit {commit}\n") {
        Ok(text) => tell(sink, &text, Status::Refused),
        Err(AllocError) => Status::Memory,
    }
}

/// Writes the line that names the fault of a trace's line.
fn tell_fault<K: Sink>(alloc: Global, line: u64, fault: &str, sink: &mut K) -> Status
    requires { IsFault fault.now }
    ensures told { Tells K.taken K.accepted K.faults sink.old sink.new result }
    ensures kind { result ≢ Status.ReadFault }
{
    match format!(in alloc; "line {line} {fault}\n") {
        Ok(text) => tell(sink, &text, Status::Script),
        Err(AllocError) => Status::Memory,
    }
}

/// Writes a text, which this status tells of, and answers the status that follows.
fn tell<K: Sink>(sink: &mut K, text: &str, last: Status) -> Status
    requires kind { last ≢ Status.WriteFault }
    requires text { IsOf last text.now }
    ensures told { Tells K.taken K.accepted K.faults sink.old sink.new result }
    ensures kind { (result ≡ last) ⊎ (result ≡ Status.WriteFault) }
{
    match write_all(sink, text.as_bytes()) {
        Ok(()) => last,
        Err(Failed) => Status::WriteFault,
    }
}

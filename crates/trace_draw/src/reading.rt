//! A trace, line by line, to its end or to the first line that isn't taken.

ghost use Rattle.std.specs.Prelude.{◌≡◌, ◌≢◌, ◌≤◌, Err};
ghost use Rattle.call_history.specs.Cause.{IsCounted};

use crate::asked::Wanted;
use crate::tracer::{TakeFault, Tracer};
use script_lines::{Line, LineFault, Lines, Source};
use std::alloc::{AllocError, Global};
use trace_file::{TraceFault, read_line};

/// Why there is no picture of a trace.
#[derive(Clone, Copy, Debug, PartialEq, Eq)]
pub(crate) enum ReadFault {
    /// The line is none of a trace, or may not stand there; where the trace isn't whole, the line behind the last one.
    Bad { line: u64 },
    /// The line has a byte after its first 512, and it is no line feed.
    TooLong { line: u64 },
    /// A byte of the line is neither printable (32 to 126) nor a tab, a carriage return or a line feed.
    BadByte { line: u64 },
    /// The source failed.
    Read,
    /// Want of memory.
    Memory,
}

/// What is known of a whole trace, which the source gives, as far as a picture wants it.
pub(crate) fn read_trace<S: Source>(
    alloc: Global,
    wanted: Wanted,
    source: &mut S,
) -> Result<Tracer, ReadFault>
    ensures { IsCounted (result ≡ Err ReadFault.Read) (S.faults source.old) (S.faults source.new) }
{
    let mut tracer = match Tracer::new(alloc, wanted) {
        Ok(tracer) => tracer,
        Err(AllocError) => return Err(ReadFault::Memory),
    };
    let mut lines = Lines::new();
    let mut number: u64 = 1;
    'rounds: loop {
        match round(alloc, &mut lines, number, &mut tracer, source) {
            Ok(true) => {}
            Ok(false) => return Ok(tracer),
            Err(fault) => return Err(fault),
        }
        if number == u64::MAX {
            return Err(ReadFault::Memory);
        }
        number += 1;
    }
}

/// Reads the next line, which has this number, and takes it. Answers whether there was one: the trace is whole otherwise.
fn round<S: Source>(
    alloc: Global,
    lines: &mut Lines,
    number: u64,
    tracer: &mut Tracer,
    source: &mut S,
) -> Result<bool, ReadFault>
    ensures { IsCounted (result ≡ Err ReadFault.Read) (S.faults source.old) (S.faults source.new) }
{
    let line = match lines.next(source) {
        Err(LineFault::Read) => return Err(ReadFault::Read),
        Err(LineFault::ScriptTooLong { .. }) => return Err(ReadFault::TooLong { line: number }),
        Err(LineFault::TooLong { .. }) => return Err(ReadFault::TooLong { line: number }),
        Err(LineFault::BadByte { .. }) => return Err(ReadFault::BadByte { line: number }),
        Ok(None) if tracer.is_whole() => return Ok(false),
        Ok(None) => return Err(ReadFault::Bad { line: number }),
        Ok(Some(line)) => line,
    };
    lines.begin_anew();
    take(alloc, tracer, &line, number)
}

/// Takes a line, which has this number.
fn take(alloc: Global, tracer: &mut Tracer, line: &Line, number: u64) -> Result<bool, ReadFault>
    requires { line.now.len ≤ 512 }
    ensures { result ≢ Err ReadFault.Read }
{
    if is_blank(line) {
        return Ok(true);
    }
    let found = match read_line(alloc, line, tracer.head.version) {
        Ok(found) => found,
        Err(TraceFault::Bad) => return Err(ReadFault::Bad { line: number }),
        Err(TraceFault::Memory) => return Err(ReadFault::Memory),
    };
    match tracer.take(&found) {
        Ok(()) => Ok(true),
        Err(TakeFault::Misplaced) => Err(ReadFault::Bad { line: number }),
        Err(TakeFault::Memory) => Err(ReadFault::Memory),
    }
}

/// A line with blanks alone.
fn is_blank(line: &Line) -> bool
    requires { line.now.len ≤ 512 }
{
    line.bytes[..usize::from(line.len)]
        .iter()
        .all(|byte| matches!(*byte, b' ' | b'\t' | b'\r'))
}

//! Where a script comes from, where a report goes, and the lines of a script.
//!
//! - A `Source` gives bytes and a `Sink` takes them. Each tells what its calls that answered Ok did
//!   (`given`, `accepted`), may tell what comes and what it holds (`left`, `taken`), and counts its
//!   failures (`faults`), so that a contract above says what was read and written, and answers a failure
//!   exactly where the count rose: none is passed over in silence, and none is tried again.
//! - `Lines` cuts what a source gives into lines. Where the reads cut the bytes doesn't matter: a line
//!   is handed out as soon as it is whole, and nothing is read while a whole line or a faulty byte is
//!   held. It has a buffer of its own and takes no memory.
//! - `MemSource` and `MemSink` stand in for files, `FailSource` and `FailSink` fail at the calls that they
//!   are told to, `ReadFrom` and `WriteTo` adapt std's readers and writers.
//!
//! What isn't told isn't claimed: std's input and output foretell nothing, and of a failed write they
//! don't know what became of it. That `ReadFrom` and `WriteTo` ask std once in a call, take each of its
//! errors for a failure, and flush each write, rests on their few lines: std keeps no count of these.
//!
//! # Decided
//! - **A last line without a line feed ends the reading**: nothing is read after it, so no later read can fail behind
//!   its act.
//! - **Bytes are counted up to the greatest limit, `MOST_BYTES`, whatever the script's own is.** Of a smaller script so many
//!   are counted before its first that as many are left as it may have (`Lines::of_at_most`, `lines_of`). So all that is said
//!   of what a reader holds knows one number, and none of it names the limit of a script; that this is the script's own limit
//!   is a law by itself ([`bytes_are_the_scripts`]).
//! - **A line's bytes are counted also where the source tells nothing** (`Lines::next`, `counts`). A line takes at
//!   least one, so a script has no more commits than bytes, and fewer than a run counts.
#![tactic(auto)]

mod adapters;
mod buffer;
mod counts;
mod fake;
mod laws;
mod memory;
mod reader;
mod scan;
mod sink;
mod source;

pub use adapters::{ReadFrom, WriteTo};
pub use fake::{FailSink, FailSource};
pub use laws::bytes_are_the_scripts;
pub use memory::{MemSink, MemSource};
pub use reader::Lines;
pub use sink::{Sink, write_all};
pub use source::Source;
use thiserror::Error;

/// The bytes of a line that is not too long, without its line feed.
pub const LINE_BYTES: usize = 512;

/// The bytes of a script that is not too long, where nothing else is asked for (`usual_bytes` in definitions).
pub const SCRIPT_BYTES: u32 = 16_777_216;

/// The most bytes of any script (`most_bytes` in definitions).
pub const MOST_BYTES: u32 = 268_435_456;

/// A line of a script: its number, from 1, and its bytes without the line feed, which are the first
/// `len` of `bytes`. The others are 0.
#[derive(Clone, Copy, Debug, PartialEq, Eq)]
pub struct Line {
    pub number: u32,
    pub len: u16,
    pub bytes: [u8; LINE_BYTES],
}

/// Why no line comes. Where it is a byte, `line` is the number of its line, from 1.
#[derive(Clone, Copy, Debug, PartialEq, Eq, Error)]
pub enum LineFault {
    /// The source failed. What was read before is kept, and a later call goes on with it.
    #[error("read failed")]
    Read,
    /// There is a byte after the last that the script may have.
    #[error("script too long")]
    ScriptTooLong { line: u32 },
    /// A line has a byte after its first 512, and it is no line feed.
    #[error("line too long")]
    TooLong { line: u32 },
    /// A byte is neither printable (32 to 126) nor a tab, a carriage return or a line feed.
    #[error("bad byte")]
    BadByte { line: u32 },
}

/// Whether lines go on, are at their end, or stopped at a fault.
#[derive(Clone, Copy, Debug, PartialEq, Eq)]
pub enum Over {
    /// More lines may come.
    Going,
    /// The input was at its end, and all of its lines were handed out.
    Ended,
    /// A fault ended them.
    Stopped(LineFault),
}

/// A call of a source or a sink failed.
#[derive(Clone, Copy, Debug, PartialEq, Eq, Error)]
#[error("a read or a write failed")]
pub struct Failed;

//! The check of a whole trace: reads it line by line, and says yes only where every write of it is hitless.
//!
//! [`verify`] reads a trace from a source (`script_lines`), line by line (`trace_file`), hands each line to a checker
//! (`trace_check`), and ends at the first one that isn't taken, or at the end of the input. It keeps what the checker
//! does, and of the text one line.
//!
//! What is told of a text is `trace_check`'s (`specs/Answers`), of a text of any length. The source need not foretell
//! its bytes: the answer is right whatever comes behind those that it gave (`specs/Verify`). And no read is made in
//! vain: what came before it had left the answer open.
//!
//! # Decided
//! - **A trace may have any length.** A script ends at 16,777,216 bytes, which are some 140,000 writes, and a trace of
//!   a million writes is one to be checked. So the reader begins anew behind each line (`Lines::begin_anew`) and the
//!   lines are counted here, in 64 bits. What is left of the limits is that of a line, 512 bytes; a longer one is no
//!   line of a trace.
//! - **Past the last number of 64 bits want of memory is told**, as for the counts of a checker.
//! - **No sink is taken**: what is told is a value, and who asked for it prints it.
#![tactic(auto)]

mod check;

pub use check::verify;

/// What is told of a trace, or why nothing is. Lines are counted from 1, those with blanks alone too.
#[derive(Clone, Copy, Debug, PartialEq, Eq)]
pub enum Verified {
    /// It is orderly: so many commits were accepted, and so many device writes made.
    Yes { commits: u64, writes: u64 },
    /// The first line that breaks the order; each line before it may stand and keeps it.
    No { line: u64 },
    /// The first line that is none of a trace, or that may not stand there; where the trace isn't whole, the line behind
    /// the last one.
    Bad { line: u64 },
    /// The line has a byte after its first 512, and it is no line feed.
    TooLong { line: u64 },
    /// A byte of the line is neither printable (32 to 126) nor a tab, a carriage return or a line feed.
    BadByte { line: u64 },
    /// The source failed.
    Read,
    /// Want of memory.
    Memory,
}

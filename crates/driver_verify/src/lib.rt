//! The judgement of any driver's whole trace: reads it line by line, and says yes only where each line of it is hitless.
//!
//! [`verify_driver`] reads a trace from a source (`script_lines`), line by line (`driver_trace`), hands each line to a judge
//! (`line_judge`), and ends at the first one that isn't taken, or at the end of the input.
//!
//! What is told of a text is `driver_trace`'s (`specs/Told`), of a text of any length. The source need not foretell its
//! bytes: the answer is right whatever comes behind those that it gave (`specs/Verify`).
//!
//! # Decided
//! - **A trace may have any length**, as for `trace_verify`: the reader begins anew behind each line, and the lines are
//!   counted in 64 bits.
//! - **No sink is taken**: what is told is a value, and who asked for it prints it.
#![tactic(auto)]

mod check;

pub use check::verify_driver;
use driver_trace::Leak;
use rule_model::IpVersion;

/// What is told of a driver's trace, or why nothing is. Lines are counted from 1, those with blanks alone too.
#[derive(Clone, Copy, Debug, PartialEq, Eq)]
pub enum DriverVerdict {
    /// Each line is hitless: so many commits came to an end, and so many device writes were made.
    Yes {
        commits: u64,
        writes: u64,
    },
    /// The first line behind which a packet gets a wrong answer, that packet, and the version of IP by which that line was read,
    /// which no clause says.
    No {
        line: u64,
        version: IpVersion,
        leak: Leak,
    },
    /// A line that wasn't judged; each one before it is hitless.
    NotJudged {
        line: u64,
    },
    /// The first line that is none of a trace, or that may not stand there; where the trace isn't whole, the line behind
    /// the last one.
    Bad {
        line: u64,
    },
    /// The line has a byte after its first 512, and it is no line feed.
    TooLong {
        line: u64,
    },
    /// A byte of the line is neither printable (32 to 126) nor a tab, a carriage return or a line feed.
    BadByte {
        line: u64,
    },
    /// The source failed.
    Read,
    /// Want of memory.
    Memory,
}

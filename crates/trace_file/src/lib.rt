//! The lines of a trace: what a driver was given, and what it did to the memory, a JSON value a line.
//!
//! A trace says which rules came, commit by commit, and every device write and drain that was made of them. A
//! [`TraceLine`] is one line of it, and [`read_line`] reads it.
//!
//!     {"family":FAMILY,"mode":MODE,"slots":NUMBER}
//!     {"commit":NUMBER}
//!     {"add":[RANK,SRC,LENGTH,DST,LENGTH,PROTOCOL,FIRST,LAST,FIRST,LAST,RESULT]}
//!     {"set":[RANK,RESULT]}
//!     {"del":RANK}
//!     {"put":[5 values,5 masks,RANK,RESULT],"slot":SLOT}
//!     {"erase":SLOT}
//!     {"port":PORT,"table":TABLE,"word":WORD}
//!     {"drain":true}
//!     {"done":NUMBER}
//!     {"refused":NUMBER}
//!     {"end":WRITES}
//!     {"fault":TEXT,"line":NUMBER}
//!
//! A trace is of one version of IP, which its head's family tells: `route` and `acl` are IPv4, `route6` and `acl6` IPv6.
//! These are the lines of IPv4. In a trace of IPv6 a RANK stands as five numbers, its high part and the four words of 32
//! bits of its low part, and an address as its four words, the highest first; all other lines are the same.
//!
//!     {"add":[5 of RANK,4 of SRC,LENGTH,4 of DST,LENGTH,PROTOCOL,FIRST,LAST,FIRST,LAST,RESULT]}
//!     {"set":[5 of RANK,RESULT]}
//!     {"del":[5 of RANK]}
//!     {"put":[11 values,11 masks,5 of RANK,RESULT],"slot":SLOT}
//!
//! `specs/Values`, `Ipv6Values` and `Lines` say which line a JSON value is, and `Forms` which value a line is written as.
//! A line's value is made whole, walked once, and given back before the next line is read: so time goes by the bytes read,
//! and memory by those of one line, at most 512. No clause says that.
//!
//! # Decided
//! - **A line is judged by its JSON value** (RFC 8259), so spaces, the order of members and escapes are free, and of
//!   members of one name the last counts, as `serde_json` takes them. A text that nests deeper than 127 has no value.
//! - **Numbers are whole, and written so**: `-0`, `1.0` and `1e0` are none, since they are floats to `serde_json`.
//! - **A line is read by the version of its trace**, which who reads it knows from the head: a line of one version is
//!   none of the other where it has a rank or an address, since it has another number of values. So no trace of IPv4 is
//!   taken for one of IPv6, nor the other way round.
//! - **A number of IPv6 stands in words of 32 bits**, as the lanes of an entry do, since a whole number of JSON that
//!   readers take has 64 bits at most.
//! - **An addition has what `Prefix::v4` or `v6` and `Ports::new` take**, and an entry any lanes: whether it stands for a
//!   piece of a rule is judged where the trace is, and not here.
//! - **The text of a fault is any string, and isn't kept**, so a [`TraceLine`] is `Copy` and takes no memory.
//! - **Bytes that are no UTF-8 are no line**, so a caller needn't test them (`IsLineOf`).
#![tactic(auto)]

ghost use Rattle.std.specs.Prelude.{◌≡◌, ◌≤◌, IfOk, take};
ghost use Rattle.trace_file.specs.Lines.{IsLineOf};

mod ipv6_values;
mod laws;
mod lines;
mod values;

pub use laws::{lines_are_read_back, lines_are_utf8, lines_are_within, versions_are_apart};
use lines::line_of;
use rule_model::{Entry, Field, IpVersion, Rank, Rule};
use script_lines::{LINE_BYTES, Line};
use serde_json::Value;
use std::alloc::Global;
use thiserror::Error;

/// One line of a trace.
#[derive(Clone, Copy, Debug, PartialEq, Eq)]
pub enum TraceLine {
    /// The family of the rules, which is a version and whether they are an access list, how port ranges are encoded, and
    /// the slots in use.
    Head {
        version: IpVersion,
        acl: bool,
        bits: bool,
        slots: u32,
    },
    /// A commit that is accepted begins, by its number.
    Commit(u32),
    /// The commit adds a rule.
    Add(Rule),
    /// It gives the rule of this priority this result.
    Set(Rank, u32),
    /// It removes the rule of this priority.
    Del(Rank),
    /// A slot gets an entry.
    Put(u32, Entry),
    /// A slot is emptied.
    Erase(u32),
    /// A table's word at a port is written.
    Table(Field, u16, u16),
    /// The words in flight are searched.
    Drain,
    /// The commit is done, by its number.
    Done(u32),
    /// A commit was refused, by its number.
    Refused(u32),
    /// The run came to its end, after so many writes.
    End(u64),
    /// The run ended at the fault of a line of its script.
    Fault(u32),
}

/// Why a line gives no line of a trace.
#[derive(Clone, Copy, Debug, PartialEq, Eq, Error)]
pub enum TraceFault {
    /// It has none of the forms.
    #[error("no line of a trace")]
    Bad,
    #[error("out of memory")]
    Memory,
}

/// Reads one line of a trace of this version, from memory that it gives back; a head is read by either version. Bad comes
/// only where the text is no line of such a trace; Memory may come of any text.
pub fn read_line(alloc: Global, line: &Line, version: IpVersion) -> Result<TraceLine, TraceFault>
    requires { line.now.len ≤ LINE_BYTES }
    ensures line { IfOk result (IsLineOf version (take line.now.len line.now.bytes)) }
    ensures bad { result ≡ Err TraceFault.Bad → (found : TraceLine) → ¬ IsLineOf version (take line.now.len line.now.bytes) found }
{
    match Value::from_slice(alloc, &line.bytes[..usize::from(line.len)]) {
        Ok(value) => line_of(version, &value).ok_or(TraceFault::Bad),
        Err(fault) if fault.is_memory() => Err(TraceFault::Memory),
        Err(_) => Err(TraceFault::Bad),
    }
}

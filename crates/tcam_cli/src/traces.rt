//! The check of a trace: what is told of it is the report.

ghost use Rattle.std.specs.Prelude.{◌≡◌, ℕ, List, MatchResult};
ghost use Rattle.call_history.specs.Cause.{IsCounted};
ghost use Rattle.script_lines.specs.Given.{GivesPieces};
ghost use Rattle.trace_verify.specs.Verify.{VerifiesBy};
ghost use Rattle.trace_verify.specs.declared.Verified.{Verified};
ghost use Rattle.tcam_cli.specs.Rounds.{Reports};

use crate::Status;
use replay::{write_fault, write_no, write_yes};
use script_lines::{Failed, Sink, Source};
use std::alloc::Global;
use trace_verify::{Verified, verify};

/// Checks the trace that the source gives, and writes the line of what is told of it.
pub(crate) fn run_verify<S: Source, K: Sink>(alloc: Global, source: &mut S, sink: &mut K) -> Status
    ensures gives { (answer : Verified) × (pieces : List (List ℕ))
        × GivesPieces (S.given source.old) (S.given source.new) (S.left source.old) (S.left source.new) pieces
        × VerifiesBy pieces answer × Reports K.taken K.accepted K.faults sink.old sink.new answer result }
    ensures cause { IsCounted (result ≡ Status.ReadFault) (S.faults source.old) (S.faults source.new) }
{
    write_told(verify(alloc, source), sink)
}

/// Writes the line of what is told of a trace, if something is, and answers the status that follows.
fn write_told<K: Sink>(told: Verified, sink: &mut K) -> Status
    ensures { Reports K.taken K.accepted K.faults sink.old sink.new told result }
{
    match told {
        Verified::Yes { commits, writes } => status(write_yes(sink, commits, writes), Status::Done),
        Verified::No { line } => status(write_no(sink, line), Status::Refused),
        Verified::Bad { line } => status(write_fault(sink, line, "bad trace"), Status::Script),
        Verified::TooLong { line } => status(
            write_fault(sink, line, "line too long"),
            Status::Script,
        ),
        Verified::BadByte { line } => status(write_fault(sink, line, "bad byte"), Status::Script),
        Verified::Read => Status::ReadFault,
        Verified::Memory => Status::Memory,
    }
}

/// The status where a last line was written, or a part of it.
fn status(written: Result<(), Failed>, last: Status) -> Status
    ensures { MatchResult written (λ _. result ≡ last) (λ _. result ≡ Status.WriteFault) }
{
    match written {
        Ok(()) => last,
        Err(Failed) => Status::WriteFault,
    }
}

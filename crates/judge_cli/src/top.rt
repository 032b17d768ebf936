//! The top call: a command line, a source and a sink.

ghost use Rattle.std.specs.Prelude.{◌≡◌, ◌≢◌, ◌⊎◌, Bool, ℕ, List, map, string_bytes};
ghost use Rattle.call_history.specs.Cause.{IsCounted};
ghost use Rattle.script_lines.specs.Given.{GivesPieces, counted};
ghost use Rattle.driver_verify.specs.Verify.{VerifiesBy};
ghost use Rattle.driver_verify.specs.declared.DriverVerdict as verdicts;
ghost use Rattle.judge_cli.specs.Lines.{told_status};
ghost use Rattle.judge_cli.specs.CommandLine.{asked_by, judge_job};
ghost use Rattle.judge_cli.specs.Jobs.{CarriesOut, TellsBy, TellsLine};

use crate::asked::{Asked, read_words};
use crate::lines::put_told;
use crate::texts::{JUDGE_HELP, USAGE};
use driver_trace::Compared;
use driver_verify::{DriverVerdict, verify_driver};
use import_lines::write_last;
use option_words::WordsFault;
use script_lines::{Sink, Source};
use script_runs::Status;
use std::alloc::Global;

/// Does what the words ask for, the program's name first, `judge` behind it, and then options: judges the driver's trace that
/// the source gives and writes the line of what is told of it to the sink, or the product's own text. `Done` comes where
/// each write of the trace is hitless, and of the help; `Refused` where a packet gets a wrong answer, `DeviceFault` where a
/// line wasn't judged, `Script` where a line is at fault, `Usage` where the words are no command line, and `Memory` for
/// want of memory. `ReadFault` comes exactly where the source failed, `WriteFault` exactly where the sink did.
pub fn run_judge<S: Source, K: Sink>(
    alloc: Global,
    words: &[String],
    source: &mut S,
    sink: &mut K,
) -> Status
    ensures job { (pieces : List (List ℕ)) × GivesPieces (S.given source.old) (S.given source.new) (S.left source.old) (S.left source.new) pieces
        × ((told : verdicts.DriverVerdict) × ((which : Bool) → CarriesOut (judge_job (map (λ w. string_bytes w) words.now)) told pieces result (counted which (K.taken sink.old) (K.accepted sink.old)) (counted which (K.taken sink.new) (K.accepted sink.new)))) }
    ensures read { IsCounted (result ≡ Status.ReadFault) (S.faults source.old) (S.faults source.new) }
    ensures written { IsCounted (result ≡ Status.WriteFault) (K.faults sink.old) (K.faults sink.new) }
{
    match read_words(alloc, words) {
        Ok(asked) => carry_out(alloc, asked, source, sink),
        Err(WordsFault::Usage) => write_last(sink, USAGE.as_bytes(), Status::Usage),
        Err(WordsFault::Memory) => Status::Memory,
    }
}

/// Does what is asked for.
fn carry_out<S: Source, K: Sink>(
    alloc: Global,
    asked: Asked,
    source: &mut S,
    sink: &mut K,
) -> Status
    ensures job { (pieces : List (List ℕ)) × GivesPieces (S.given source.old) (S.given source.new) (S.left source.old) (S.left source.new) pieces
        × ((told : verdicts.DriverVerdict) × ((which : Bool) → CarriesOut (asked_by asked) told pieces result (counted which (K.taken sink.old) (K.accepted sink.old)) (counted which (K.taken sink.new) (K.accepted sink.new)))) }
    ensures read { IsCounted (result ≡ Status.ReadFault) (S.faults source.old) (S.faults source.new) }
    ensures written { IsCounted (result ≡ Status.WriteFault) (K.faults sink.old) (K.faults sink.new) }
{
    match asked {
        Asked::Judge { by } => judge(alloc, by, source, sink),
        Asked::Help => write_last(sink, JUDGE_HELP.as_bytes(), Status::Done),
    }
}

/// Judges a trace, and writes the line of what is told of it.
fn judge<S: Source, K: Sink>(alloc: Global, by: Compared, source: &mut S, sink: &mut K) -> Status
    ensures judged { (verdict : verdicts.DriverVerdict) × (pieces : List (List ℕ))
        × GivesPieces (S.given source.old) (S.given source.new) (S.left source.old) (S.left source.new) pieces × VerifiesBy by pieces verdict
        × ((which : Bool) → TellsBy verdict result (counted which (K.taken sink.old) (K.accepted sink.old)) (counted which (K.taken sink.new) (K.accepted sink.new))) }
    ensures read { IsCounted (result ≡ Status.ReadFault) (S.faults source.old) (S.faults source.new) }
    ensures written { IsCounted (result ≡ Status.WriteFault) (K.faults sink.old) (K.faults sink.new) }
{
    let verdict = verify_driver(alloc, by, source);
    tell(alloc, &verdict, sink)
}

/// Writes the line of what is told of a trace, if something is, and answers the status that follows.
fn tell<K: Sink>(alloc: Global, verdict: &DriverVerdict, sink: &mut K) -> Status
    ensures tells { (which : Bool) → TellsBy verdict.now result (counted which (K.taken sink.old) (K.accepted sink.old)) (counted which (K.taken sink.new) (K.accepted sink.new)) }
    ensures read { verdict.now ≡ DriverVerdict.Read → result ≡ Status.ReadFault }
    ensures unread { verdict.now ≢ DriverVerdict.Read → result ≢ Status.ReadFault }
    ensures written { IsCounted (result ≡ Status.WriteFault) (K.faults sink.old) (K.faults sink.new) }
{
    match verdict {
        DriverVerdict::Read => Status::ReadFault,
        DriverVerdict::Memory => Status::Memory,
        _ => tell_line(alloc, verdict, sink),
    }
}

/// Writes the line of what is told of a trace.
fn tell_line<K: Sink>(alloc: Global, verdict: &DriverVerdict, sink: &mut K) -> Status
    ensures tells { (which : Bool) → TellsLine verdict.now result (counted which (K.taken sink.old) (K.accepted sink.old)) (counted which (K.taken sink.new) (K.accepted sink.new)) }
    ensures kind { (result ≡ told_status verdict.now) ⊎ ((result ≡ Status.WriteFault) ⊎ (result ≡ Status.Memory)) }
    ensures written { IsCounted (result ≡ Status.WriteFault) (K.faults sink.old) (K.faults sink.new) }
{
    let mut room = Vec::new(alloc);
    match put_told(&mut room, verdict) {
        Ok(()) => write_last(sink, room.as_slice(), status_of(verdict)),
        Err(_) => Status::Memory,
    }
}

/// The status that follows.
fn status_of(verdict: &DriverVerdict) -> Status
    ensures { result ≡ told_status verdict.now }
{
    match verdict {
        DriverVerdict::Yes { .. } => Status::Done,
        DriverVerdict::No { .. } => Status::Refused,
        DriverVerdict::NotJudged { .. } => Status::DeviceFault,
        DriverVerdict::Bad { .. } => Status::Script,
        DriverVerdict::TooLong { .. } => Status::Script,
        DriverVerdict::BadByte { .. } => Status::Script,
        DriverVerdict::Read => Status::ReadFault,
        DriverVerdict::Memory => Status::Memory,
    }
}

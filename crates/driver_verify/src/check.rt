//! A driver's trace, line by line, to its end or to the first line that isn't taken.

ghost use Rattle.std.specs.Prelude.{◌≡◌, ◌≢◌, ◌≤◌, ◌==◌, ◌||◌, ℕ, List, Err, IfOk, IfErr};
ghost use Rattle.call_history.specs.Cause.{IsCounted};
ghost use Rattle.script_lines.specs.Given.{GivesPieces};
ghost use Rattle.script_lines.specs.Lines.{numbered};
ghost use Rattle.script_lines.specs.declared.Over.TheVariants.{Going};
ghost use Rattle.trace_check.specs.Answers.{is_blank_line};
ghost use Rattle.trace_verify.specs.Rounds.{IsAnew};
ghost use Rattle.driver_verify.specs.Rounds.{EndsAtEnd, EndsAtLine, PassesLine, RoundsBy};
ghost use Rattle.driver_verify.specs.Verify.{VerifiesBy};

use crate::DriverVerdict;
use driver_trace::{Compared, read_driver_line};
use line_judge::LineFault;
use script_lines::{Line, LineFault as TextFault, Lines, Source};
use std::alloc::Global;
use trace_file::TraceFault;
use two_judges::DriverJudge;

/// Judges a driver's trace, which the source gives, where answers are so compared. The answer is `Yes` only where the input
/// is a trace that was read to its end and each line of it is hitless for every key; `No` only where the packet that it names
/// gets a wrong answer behind that line, and each line before it is hitless. `Bad` is told where a line is the first that is
/// none of a trace or may not stand there, or where the last line is missing; `TooLong` and `BadByte` where a byte is at
/// fault before any of these; `NotJudged` only at a line that asks something of the device. `Read` comes exactly where the
/// source failed, and `Memory` may come of any text.
pub fn verify_driver<S: Source>(alloc: Global, by: Compared, source: &mut S) -> DriverVerdict
    ensures gives { (pieces : List (List ℕ)) × GivesPieces (S.given source.old) (S.given source.new) (S.left source.old) (S.left source.new) pieces
        × VerifiesBy by pieces result }
    ensures cause { IsCounted (result ≡ DriverVerdict.Read) (S.faults source.old) (S.faults source.new) }
{
    let mut judge = match DriverJudge::new(alloc, by) {
        Ok(judge) => judge,
        Err(_) => return DriverVerdict::Memory,
    };
    let mut lines = Lines::new();
    let mut number: u64 = 1;
    'rounds: loop {
        judge = match round(alloc, &mut lines, number, judge, source) {
            Ok(next) => next,
            Err(told) => return told,
        };
        if number == u64::MAX {
            return DriverVerdict::Memory;
        }
        number += 1;
    }
}

/// Reads the next line, which has this number, and judges it. Err: the judgement is at its end.
fn round<S: Source>(
    alloc: Global,
    lines: &mut Lines,
    number: u64,
    judge: DriverJudge,
    source: &mut S,
) -> Result<DriverJudge, DriverVerdict>
    requires { IsAnew lines.old }
    ensures anew { IfOk result (λ _. IsAnew lines.new) }
    ensures gives { (pieces : List (List ℕ)) × GivesPieces (S.given source.old) (S.given source.new) (S.left source.old) (S.left source.new) pieces
        × RoundsBy lines.old number judge pieces result lines.new }
    ensures rests { lines.old.over ≢ Going → S.left source.new ≡ S.left source.old }
    ensures read { IsCounted (result ≡ Err DriverVerdict.Read) (S.faults source.old) (S.faults source.new) }
{
    let line = match lines.next(source) {
        Err(TextFault::Read) => return Err(DriverVerdict::Read),
        // A reader that begins anew behind each line is within a script's length.
        Err(TextFault::ScriptTooLong { .. }) => unreachable!(),
        Err(TextFault::TooLong { .. }) => return Err(DriverVerdict::TooLong { line: number }),
        Err(TextFault::BadByte { .. }) => return Err(DriverVerdict::BadByte { line: number }),
        Ok(None) => return Err(at_end(&judge, number)),
        Ok(Some(line)) => line,
    };
    lines.begin_anew();
    judge_line(alloc, judge, &line, number)
}

/// Judges a line, which has this number. Err: the judgement ends at it.
fn judge_line(
    alloc: Global,
    judge: DriverJudge,
    line: &Line,
    number: u64,
) -> Result<DriverJudge, DriverVerdict>
    requires { line.now.len ≤ 512 }
    ensures passed { IfOk result (λ next. PassesLine judge (numbered line.now).text next) }
    ensures ended { IfErr result (λ answer. EndsAtLine judge (numbered line.now).text number answer) }
{
    if is_blank(line) {
        return Ok(judge);
    }
    let version = judge.version();
    let found = match read_driver_line(alloc, line, version) {
        Ok(found) => found,
        Err(TraceFault::Bad) => return Err(DriverVerdict::Bad { line: number }),
        Err(TraceFault::Memory) => return Err(DriverVerdict::Memory),
    };
    match judge.take(&found) {
        Ok(next) => Ok(next),
        Err(LineFault::Misplaced) => Err(DriverVerdict::Bad { line: number }),
        Err(LineFault::Leaks(leak)) => Err(DriverVerdict::No {
            line: number,
            version,
            leak,
        }),
        Err(LineFault::NotJudged) => Err(DriverVerdict::NotJudged { line: number }),
        Err(LineFault::Memory) => Err(DriverVerdict::Memory),
    }
}

/// What is told where the input ends before a line of this number.
fn at_end(judge: &DriverJudge, number: u64) -> DriverVerdict
    ensures { EndsAtEnd judge.now number result }
{
    match judge.end() {
        Some(counts) => DriverVerdict::Yes {
            commits: counts.commits,
            writes: counts.writes,
        },
        None => DriverVerdict::Bad { line: number },
    }
}

/// A line with blanks alone.
fn is_blank(line: &Line) -> bool
    requires { line.now.len ≤ 512 }
    ensures { result ≡ is_blank_line (numbered line.now).text }
{
    are_blanks(&line.bytes[..usize::from(line.len)])
}

/// Blanks alone: spaces, tabs and carriage returns.
fn are_blanks(text: &[u8]) -> bool
    ensures { result ≡ is_blank_line text.now }
{
    text.iter().all(|byte| is_blank_byte(*byte))
}

/// A space, a tab or a carriage return.
fn is_blank_byte(byte: u8) -> bool
    ensures { result ≡ ((byte == 32) || (byte == 9) || (byte == 13)) }
{
    matches!(byte, b' ' | b'\t' | b'\r')
}

//! A trace, line by line, to its end or to the first line that isn't taken.

ghost use Rattle.std.specs.Prelude.{◌≡◌, ◌≢◌, ◌≤◌, ◌==◌, ◌||◌, ℕ, List, Err, IfOk, IfErr};
ghost use Rattle.call_history.specs.Cause.{IsCounted};
ghost use Rattle.script_lines.specs.Given.{GivesPieces};
ghost use Rattle.script_lines.specs.Lines.{numbered};
ghost use Rattle.script_lines.specs.declared.Over.TheVariants.{Going};
ghost use Rattle.trace_check.specs.Answers.{is_blank_line};
ghost use Rattle.trace_verify.specs.Rounds.{EndsAtEnd, EndsAtLine, IsAnew, PassesLine, RoundsBy};
ghost use Rattle.trace_verify.specs.Verify.{VerifiesBy};

use crate::Verified;
use script_lines::{Line, LineFault, Lines, Source};
use std::alloc::Global;
use trace_check::{CheckFault, Checker};
use trace_file::{TraceFault, read_line};

/// Checks a trace, which the source gives. The answer is `Yes` exactly where the input is an orderly trace, and then
/// each of its commits is hitless for every key, for look-ups of two events too as long as none is under way over a
/// drain, and the input was read to its end; `No` where a line of it is the first that breaks the order, `Bad` where one
/// is the first that is no line of a trace or may not stand there, or where the last line is missing; `TooLong` and
/// `BadByte` where a byte is at fault before any of these. It ends at the line that it names: no byte is asked for where
/// those that came settle the answer. `Read` comes exactly where the source failed, and `Memory` may come of any text.
pub fn verify<S: Source>(alloc: Global, source: &mut S) -> Verified
    ensures gives { (pieces : List (List ℕ)) × GivesPieces (S.given source.old) (S.given source.new) (S.left source.old) (S.left source.new) pieces
        × VerifiesBy pieces result }
    ensures cause { IsCounted (result ≡ Verified.Read) (S.faults source.old) (S.faults source.new) }
{
    let mut checker = match Checker::new(alloc) {
        Ok(checker) => checker,
        Err(_) => return Verified::Memory,
    };
    let mut lines = Lines::new();
    let mut number: u64 = 1;
    'rounds: loop {
        checker = match round(alloc, &mut lines, number, checker, source) {
            Ok(next) => next,
            Err(told) => return told,
        };
        if number == u64::MAX {
            return Verified::Memory;
        }
        number += 1;
    }
}

/// Reads the next line, which has this number, and judges it. Err: the check is at its end.
fn round<S: Source>(
    alloc: Global,
    lines: &mut Lines,
    number: u64,
    checker: Checker,
    source: &mut S,
) -> Result<Checker, Verified>
    requires { IsAnew lines.old }
    ensures anew { IfOk result (λ _. IsAnew lines.new) }
    ensures gives { (pieces : List (List ℕ)) × GivesPieces (S.given source.old) (S.given source.new) (S.left source.old) (S.left source.new) pieces
        × RoundsBy lines.old number checker pieces result lines.new }
    ensures rests { lines.old.over ≢ Going → S.left source.new ≡ S.left source.old }
    ensures read { IsCounted (result ≡ Err Verified.Read) (S.faults source.old) (S.faults source.new) }
{
    let line = match lines.next(source) {
        Err(LineFault::Read) => return Err(Verified::Read),
        // A reader that begins anew behind each line is within a script's length.
        Err(LineFault::ScriptTooLong { .. }) => unreachable!(),
        Err(LineFault::TooLong { .. }) => return Err(Verified::TooLong { line: number }),
        Err(LineFault::BadByte { .. }) => return Err(Verified::BadByte { line: number }),
        Ok(None) => return Err(at_end(&checker, number)),
        Ok(Some(line)) => line,
    };
    lines.begin_anew();
    judge(alloc, checker, &line, number)
}

/// Judges a line, which has this number. Err: the check ends at it.
fn judge(alloc: Global, checker: Checker, line: &Line, number: u64) -> Result<Checker, Verified>
    requires { line.now.len ≤ 512 }
    ensures passed { IfOk result (λ next. PassesLine checker (numbered line.now).text next) }
    ensures ended { IfErr result (λ answer. EndsAtLine checker (numbered line.now).text number answer) }
{
    if is_blank(line) {
        return Ok(checker);
    }
    let found = match read_line(alloc, line, checker.version()) {
        Ok(found) => found,
        Err(TraceFault::Bad) => return Err(Verified::Bad { line: number }),
        Err(TraceFault::Memory) => return Err(Verified::Memory),
    };
    match checker.take(&found) {
        Ok(next) => Ok(next),
        Err(CheckFault::Misplaced) => Err(Verified::Bad { line: number }),
        Err(CheckFault::Unordered) => Err(Verified::No { line: number }),
        Err(CheckFault::Memory) => Err(Verified::Memory),
    }
}

/// What is told where the input ends before a line of this number.
fn at_end(checker: &Checker, number: u64) -> Verified
    ensures { EndsAtEnd checker.now number result }
{
    match checker.end() {
        Some(counts) => Verified::Yes {
            commits: counts.commits,
            writes: counts.writes,
        },
        None => Verified::Bad { line: number },
    }
}

/// A line with blanks alone.
fn is_blank(line: &Line) -> bool
    requires { line.now.len ≤ 512 }
    ensures { result ≡ is_blank_line (numbered line.now).text }
{
    are_blanks(&line.bytes[..usize::from(line.len)])
}

/// Blanks alone: spaces, tabs and carriage returns.
fn are_blanks(text: &[u8]) -> bool
    ensures { result ≡ is_blank_line text.now }
{
    text.iter().all(|byte| is_blank_byte(*byte))
}

/// A space, a tab or a carriage return.
fn is_blank_byte(byte: u8) -> bool
    ensures { result ≡ ((byte == 32) || (byte == 9) || (byte == 13)) }
{
    matches!(byte, b' ' | b'\t' | b'\r')
}

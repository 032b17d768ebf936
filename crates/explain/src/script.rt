//! A script, line by line, to its end.

ghost use Rattle.std.specs.Prelude.{◌≡◌, ◌≢◌, ◌⊎◌, ◌<◌, ◌≤◌, ℕ, List, Some, IfNone, if◌then◌else◌};
ghost use Rattle.call_history.specs.Cause.{IsCounted};
ghost use Rattle.script_lines.specs.Given.{GivesPieces, MayGive};
ghost use Rattle.script_lines.specs.declared.Over.TheVariants.{Going};
ghost use Rattle.explain.specs.Explained.{IsRightOf};
ghost use Rattle.explain.specs.Rounds.{RoundsBy};

use crate::explainer::{Explainer, Foretold, Wanted};
use report_lines::{sizes_by, write_text};
use script_lines::{Failed, LineFault, Lines, Sink, Source};
use script_runs::Status;
use std::alloc::{AllocError, Global};

/// What is told of a byte at fault.
const LONG_LINE: &str = "a line has 512 bytes at most, and what follows wasn't looked at";

const BAD_BYTE: &str =
    "a byte that no script has, neither printable ASCII nor a tab, and what follows wasn't looked at";

/// Explains the script that the source gives, to its end: the sink is handed a sentence for each line at fault and for each
/// refusal that the rule lists alone foretell, and one where nothing is wrong.
///
/// `Done` comes exactly where the script was read to its end and nothing is wrong, `Script` exactly where something is.
/// `ReadFault` and `WriteFault` come exactly where the source or the sink failed, and `Memory` for want of memory alone.
pub fn explain_script<S: Source, K: Sink>(
    alloc: Global,
    wanted: Wanted,
    source: &mut S,
    sink: &mut K,
) -> Status
    ensures right { (pieces : List (List ℕ)) × GivesPieces (S.given source.old) (S.given source.new) (S.left source.old) (S.left source.new) pieces
        × ((text after : List ℕ) → MayGive text pieces after → IsRightOf wanted text after result) }
    ensures read { IsCounted (result ≡ Status.ReadFault) (S.faults source.old) (S.faults source.new) }
    ensures write { IsCounted (result ≡ Status.WriteFault) (K.faults sink.old) (K.faults sink.new) }
{
    let mut explainer = Explainer::new(alloc, wanted);
    let mut lines = Lines::of_at_most(sizes_by(wanted.large).bytes);
    'rounds: loop {
        match round(&mut explainer, &mut lines, source, sink) {
            Some(status) => return status,
            None => {}
        }
    }
}

/// Reads the next line and tells of it. None: more may come.
fn round<S: Source, K: Sink>(
    explainer: &mut Explainer,
    lines: &mut Lines,
    source: &mut S,
    sink: &mut K,
) -> Option<Status>
    ensures goes { IfNone result ((lines.old.before < lines.new.before) × (lines.new.before ≤ 268435456)) }
    ensures wanted { IfNone result (explainer.new.wanted ≡ explainer.old.wanted) }
    ensures gives { (pieces : List (List ℕ)) × GivesPieces (S.given source.old) (S.given source.new) (S.left source.old) (S.left source.new) pieces
        × RoundsBy lines.old explainer.old pieces result lines.new explainer.new }
    ensures rests { lines.old.over ≢ Going → (S.left source.new ≡ S.left source.old) × (lines.new ≡ lines.old) }
    ensures read { IsCounted (result ≡ Some Status.ReadFault) (S.faults source.old) (S.faults source.new) }
    ensures write { IsCounted (result ≡ Some Status.WriteFault) (K.faults sink.old) (K.faults sink.new) }
{
    let line = match lines.next(source) {
        Err(LineFault::Read) => return Some(Status::ReadFault),
        Err(LineFault::ScriptTooLong { line }) => {
            let why = long_script(explainer.wanted.large);
            return Some(stop(explainer, line, why, sink));
        }
        Err(LineFault::TooLong { line }) => return Some(stop(explainer, line, LONG_LINE, sink)),
        Err(LineFault::BadByte { line }) => return Some(stop(explainer, line, BAD_BYTE, sink)),
        Ok(None) => return Some(finish(explainer, sink)),
        Ok(Some(line)) => line,
    };
    let told = match explainer.take(&line) {
        Ok(told) => told,
        Err(AllocError) => return Some(Status::Memory),
    };
    match write_text(sink, &told) {
        Ok(()) => None,
        Err(Failed) => Some(Status::WriteFault),
    }
}

/// What is told of a byte that a script has no room for.
fn long_script(large: bool) -> &'static str {
    if large {
        "a script has 268435456 bytes at most"
    } else {
        "a script has 16777216 bytes at most"
    }
}

/// Tells of a byte at fault, which ends the lines.
fn stop<K: Sink>(explainer: &mut Explainer, line: u32, why: &str, sink: &mut K) -> Status
    ensures kind { (result ≡ Status.Script) ⊎ ((result ≡ Status.WriteFault) ⊎ (result ≡ Status.Memory)) }
    ensures write { IsCounted (result ≡ Status.WriteFault) (K.faults sink.old) (K.faults sink.new) }
{
    let mut text = String::new(explainer.alloc);
    match explainer.fault(line, why, &mut text) {
        Ok(()) => tell(sink, &text, Status::Script),
        Err(AllocError) => Status::Memory,
    }
}

/// Tells what is left to be told at the end of the script, and answers whether something is wrong.
fn finish<K: Sink>(explainer: &Explainer, sink: &mut K) -> Status
    ensures kind { (result ≡ (if explainer.now.wrong then Status.Script else Status.Done)) ⊎ ((result ≡ Status.WriteFault) ⊎ (result ≡ Status.Memory)) }
    ensures write { IsCounted (result ≡ Status.WriteFault) (K.faults sink.old) (K.faults sink.new) }
{
    let text = match closing(explainer) {
        Ok(text) => text,
        Err(AllocError) => return Status::Memory,
    };
    if explainer.wrong {
        tell(sink, &text, Status::Script)
    } else {
        tell(sink, &text, Status::Done)
    }
}

/// The last sentences: that nothing is wrong, which commits weren't judged, and which changes have no commit behind them.
fn closing(explainer: &Explainer) -> Result<String, AllocError> {
    let mut text = String::new(explainer.alloc);
    if !explainer.wrong {
        text.push_str("nothing is wrong\n")?;
    }
    match explainer.foretold {
        Foretold::BehindFault { line } if explainer.unjudged => {
            writeln!(
                text,
                "line {line}: no refusal is foretold behind it, since it is at fault"
            )?
        }
        Foretold::BehindTrial { line } if explainer.unjudged => {
            writeln!(
                text,
                "line {line}: no refusal is foretold behind it, since a trial may be taken back"
            )?
        }
        _ => {}
    }
    match (explainer.foretold, explainer.pending()) {
        (Foretold::BehindFault { .. }, _) | (_, 0) => {}
        (_, 1) => text.push_str("1 change has no commit behind it\n")?,
        (_, changes) => writeln!(text, "{changes} changes have no commit behind them")?,
    }
    Ok(text)
}

/// Writes a text, and answers the status that follows.
fn tell<K: Sink>(sink: &mut K, text: &str, last: Status) -> Status
    requires { last ≢ Status.WriteFault }
    ensures kind { (result ≡ last) ⊎ (result ≡ Status.WriteFault) }
    ensures write { IsCounted (result ≡ Status.WriteFault) (K.faults sink.old) (K.faults sink.new) }
{
    match write_text(sink, text) {
        Ok(()) => last,
        Err(Failed) => Status::WriteFault,
    }
}

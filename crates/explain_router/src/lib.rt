//! The explanation of a router's script: every line that is at fault. Nothing is carried out.
//!
//! [`explain_router_script`] reads a script of two tables from a source line by line, as `tcam router` does, and hands a
//! sentence to a sink for each line at fault (`script_faults`). A run ends at the first, an explanation goes on to the end.
//!
//! # Decided
//! - **No refusal is foretold**, and the last line says so: a commit of two tables is refused where either refuses its
//!   batch, and what `explain` keeps of one table's commands would be needed of both.
//! - **Behind the first line at fault changes aren't counted**, so that a batch which is too long is told only before it.
#![tactic(auto)]

ghost use Rattle.std.specs.Prelude.{◌≡◌, ◌≢◌, ◌⊎◌, ◌<◌, ◌≤◌, ℕ, List, Ok, Some, IfNone, OnOk, if◌then◌else◌};
ghost use Rattle.call_history.specs.Cause.{IsCounted};
ghost use Rattle.script_lines.specs.Given.{GivesPieces, MayGive};
ghost use Rattle.script_lines.specs.Lines.{numbered};
ghost use Rattle.script_lines.specs.declared.Over.TheVariants.{Going};
ghost use Rattle.report_lines.specs.Sizes.{sizes_by};
ghost use Rattle.router.specs.Script.{full_fault};
ghost use Rattle.router_reader.specs.Readings.{router_reading};
ghost use Rattle.explain_router.specs.Explained.{AreFew, IsRightOf, RoundsBy, behind_change, behind_line};

use report_lines::{sizes_by, write_text};
use router::{RouterAct, Side};
use router_reader::read_router_act;
use rule_model::IpVersion;
use script_faults::{Grammar, tell_trouble, trouble_of};
use script_lines::{Failed, Line, LineFault, Lines, Sink, Source};
use script_runs::Status;
use slot_order::MOST_SLOTS;
use std::alloc::{AllocError, Global};

/// What is told of a byte at fault.
const LONG_LINE: &str = "a line has 512 bytes at most, and what follows wasn't looked at";

const BAD_BYTE: &str =
    "a byte that no script has, neither printable ASCII nor a tab, and what follows wasn't looked at";

/// What a router's script is explained for: its version of IP, and whether it has the large sizes.
#[derive(Clone, Copy, Debug, PartialEq, Eq)]
pub struct RouterWanted {
    pub version: IpVersion,
    pub large: bool,
}

/// What is known between two lines: how many changes of each table are pending, and whether a line is at fault.
#[derive(Clone, Copy, Debug, PartialEq, Eq)]
struct Counts {
    listed: u32,
    routed: u32,
    wrong: bool,
}

/// Explains a router's script of a version of IP and of some sizes, which the source gives, to its end: the sink is handed a
/// sentence for each line at fault, and one where there is none.
///
/// `Done` comes exactly where the script was read to its end and no line is at fault, `Script` exactly where one is.
/// `ReadFault` and `WriteFault` come exactly where the source or the sink failed, and `Memory` for want of memory alone.
pub fn explain_router_script<S: Source, K: Sink>(
    alloc: Global,
    wanted: RouterWanted,
    source: &mut S,
    sink: &mut K,
) -> Status
    ensures right { (pieces : List (List ℕ)) × GivesPieces (S.given source.old) (S.given source.new) (S.left source.old) (S.left source.new) pieces
        × ((text after : List ℕ) → MayGive text pieces after → IsRightOf wanted text after result) }
    ensures read { IsCounted (result ≡ Status.ReadFault) (S.faults source.old) (S.faults source.new) }
    ensures write { IsCounted (result ≡ Status.WriteFault) (K.faults sink.old) (K.faults sink.new) }
{
    let mut counts = Counts {
        listed: 0,
        routed: 0,
        wrong: false,
    };
    let mut lines = Lines::of_at_most(sizes_by(wanted.large).bytes);
    'rounds: loop {
        match round(alloc, wanted, &mut counts, &mut lines, source, sink) {
            Some(status) => return status,
            None => {}
        }
    }
}

/// Reads the next line and tells of it. None: more may come.
fn round<S: Source, K: Sink>(
    alloc: Global,
    wanted: RouterWanted,
    counts: &mut Counts,
    lines: &mut Lines,
    source: &mut S,
    sink: &mut K,
) -> Option<Status>
    requires few { AreFew counts.old }
    ensures few { AreFew counts.new }
    ensures goes { IfNone result ((lines.old.before < lines.new.before) × (lines.new.before ≤ 268435456)) }
    ensures gives { (pieces : List (List ℕ)) × GivesPieces (S.given source.old) (S.given source.new) (S.left source.old) (S.left source.new) pieces
        × RoundsBy wanted lines.old counts.old pieces result lines.new counts.new }
    ensures rests { lines.old.over ≢ Going → (S.left source.new ≡ S.left source.old) × (lines.new ≡ lines.old) }
    ensures read { IsCounted (result ≡ Some Status.ReadFault) (S.faults source.old) (S.faults source.new) }
    ensures write { IsCounted (result ≡ Some Status.WriteFault) (K.faults sink.old) (K.faults sink.new) }
{
    let line = match lines.next(source) {
        Err(LineFault::Read) => return Some(Status::ReadFault),
        Err(LineFault::ScriptTooLong { line }) => return Some(stop(
            alloc,
            line,
            long_script(wanted.large),
            sink,
        )),
        Err(LineFault::TooLong { line }) => return Some(stop(alloc, line, LONG_LINE, sink)),
        Err(LineFault::BadByte { line }) => return Some(stop(alloc, line, BAD_BYTE, sink)),
        Ok(None) => return Some(finish(counts, sink)),
        Ok(Some(line)) => line,
    };
    let told = match take(alloc, wanted, counts, &line) {
        Ok(told) => told,
        Err(AllocError) => return Some(Status::Memory),
    };
    match write_text(sink, &told) {
        Ok(()) => None,
        Err(Failed) => Some(Status::WriteFault),
    }
}

/// Takes a line, and answers what is told of it: nothing, or a sentence with its line feed.
fn take(
    alloc: Global,
    wanted: RouterWanted,
    counts: &mut Counts,
    line: &Line,
) -> Result<String, AllocError>
    requires len { line.now.len ≤ 512 }
    requires few { AreFew counts.old }
    ensures few { AreFew counts.new }
    ensures next { OnOk result (counts.new ≡ behind_line (sizes_by wanted.large).commands (router_reading wanted.version (numbered line.now).text) counts.old) }
{
    let mut text = String::new(alloc);
    take_line(wanted, counts, line, &mut text)?;
    Ok(text)
}

/// Takes a line, and writes what is told of it behind a text.
fn take_line(
    wanted: RouterWanted,
    counts: &mut Counts,
    line: &Line,
    text: &mut String,
) -> Result<(), AllocError>
    requires len { line.now.len ≤ 512 }
    requires few { AreFew counts.old }
    ensures few { AreFew counts.new }
    ensures next { OnOk result (counts.new ≡ behind_line (sizes_by wanted.large).commands (router_reading wanted.version (numbered line.now).text) counts.old) }
{
    match read_router_act(line, wanted.version) {
        Ok(None) => Ok(()),
        Ok(Some(act)) => {
            let most = sizes_by(wanted.large).commands;
            let is_full = count(counts, &act, most);
            tell_full(text, line.number, most, is_full)
        }
        Err(fault) => {
            counts.wrong = true;
            tell_line(text, wanted.version, line, fault)
        }
    }
}

/// That the batch of a change's table is full, if it is.
fn tell_full(text: &mut String, number: u32, most: u32, is_full: bool) -> Result<(), AllocError> {
    if !is_full {
        return Ok(());
    }
    writeln!(
        text,
        "line {number}: {most} changes of its table are pending, and a batch holds no more: commit"
    )
}

/// Tells of a line at fault, with its fault where nothing more is known.
fn tell_line(
    text: &mut String,
    version: IpVersion,
    line: &Line,
    fault: &str,
) -> Result<(), AllocError>
    requires { line.now.len ≤ 512 }
{
    let grammar = Grammar::Router(version);
    let number = line.number;
    match trouble_of(grammar, line) {
        None => writeln!(text, "line {number}: {fault}"),
        Some(trouble) => {
            write!(text, "line {number}, ")?;
            tell_trouble(text, grammar, line, &trouble)?;
            text.push_str("\n")
        }
    }
}

/// Counts an act, and answers whether there is no room for it, where so many changes may wait. Behind a line at fault nothing
/// is counted.
fn count(counts: &mut Counts, act: &RouterAct, most: u32) -> bool
    requires most { most ≤ MOST_SLOTS }
    requires few { AreFew counts.old }
    ensures few { AreFew counts.new }
    ensures next { counts.new ≡ behind_line most (Ok (Some act.now)) counts.old }
{
    if counts.wrong {
        return false;
    }
    match act {
        RouterAct::Change(Side::List, _) => count_change(
            &mut counts.listed,
            &mut counts.wrong,
            most,
        ),
        RouterAct::Change(Side::Routes, _) => count_change(
            &mut counts.routed,
            &mut counts.wrong,
            most,
        ),
        RouterAct::Packet(_) => false,
        RouterAct::Commit => {
            counts.listed = 0;
            counts.routed = 0;
            false
        }
    }
}

/// Counts a change of a table, and answers whether its batch is full, which is wrong.
fn count_change(pending: &mut u32, wrong: &mut bool, most: u32) -> bool
    requires few { pending.old ≤ MOST_SLOTS }
    requires most { most ≤ MOST_SLOTS }
    ensures few { pending.new ≤ MOST_SLOTS }
    ensures next { behind_change (full_fault most pending.old) pending.old wrong.old ≡ (pending.new, wrong.new) }
{
    if *pending >= most {
        *wrong = true;
        return true;
    }
    *pending += 1;
    false
}

/// What is told of a byte that a script has no room for.
fn long_script(large: bool) -> &'static str {
    if large {
        "a script has 268435456 bytes at most"
    } else {
        "a script has 16777216 bytes at most"
    }
}

/// Tells of a byte at fault, which ends the lines.
fn stop<K: Sink>(alloc: Global, line: u32, why: &str, sink: &mut K) -> Status
    ensures kind { (result ≡ Status.Script) ⊎ ((result ≡ Status.WriteFault) ⊎ (result ≡ Status.Memory)) }
    ensures write { IsCounted (result ≡ Status.WriteFault) (K.faults sink.old) (K.faults sink.new) }
{
    match format!(in alloc; "line {line}: {why}\n") {
        Ok(text) => tell(sink, &text, Status::Script),
        Err(AllocError) => Status::Memory,
    }
}

/// Tells at the end of the script that no line is at fault, where none is, and answers whether one is.
fn finish<K: Sink>(counts: &Counts, sink: &mut K) -> Status
    ensures kind { (result ≡ (if counts.now.wrong then Status.Script else Status.Done)) ⊎ (result ≡ Status.WriteFault) }
    ensures write { IsCounted (result ≡ Status.WriteFault) (K.faults sink.old) (K.faults sink.new) }
{
    if counts.wrong {
        tell(sink, "", Status::Script)
    } else {
        let text = "no line is at fault; of a router's script no refusal is foretold\n";
        tell(sink, text, Status::Done)
    }
}

/// Writes a text, and answers the status that follows.
fn tell<K: Sink>(sink: &mut K, text: &str, last: Status) -> Status
    requires { last ≢ Status.WriteFault }
    ensures kind { (result ≡ last) ⊎ (result ≡ Status.WriteFault) }
    ensures write { IsCounted (result ≡ Status.WriteFault) (K.faults sink.old) (K.faults sink.new) }
{
    match write_text(sink, text) {
        Ok(()) => last,
        Err(Failed) => Status::WriteFault,
    }
}

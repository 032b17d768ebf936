//! An import: line by line, to the end of the input or to the first line that isn't said.

ghost use Rattle.std.specs.Prelude.{◌≡◌, ◌≢◌, ◌⊎◌, ◌<◌, ◌≤◌, ◌+◌, ◌++◌, Bool, ℕ, List, Err, OnOk, length};
ghost use Rattle.std.specs.Io.KnownBytes.{Appends};
ghost use Rattle.call_history.specs.Cause.{IsCounted};
ghost use Rattle.script_lines.specs.Given.{GivesPieces, counted};
ghost use Rattle.script_lines.specs.Lines.{numbered};
ghost use Rattle.script_lines.specs.declared.Over.TheVariants.{Going};
ghost use Rattle.import_lines.specs.Import.{end_line, left_out_count, left_out_line, stop_line, telling};
ghost use Rattle.import_lines.specs.Imported.{ImportsBy};
ghost use Rattle.import_lines.specs.Rounds.{IsAnew, RoundsBy};
ghost use Rattle.import_lines.specs.Writes.{ClosesAs, ClosesBy, LastBy, NamesBy, PassesBy, TellsLine};

use crate::lines::{put_end, put_end_line, put_left_out, put_stop};
use crate::{LineFormat, Told};
use script_lines::{Line, LineFault, Lines, Sink, Source, write_all};
use script_runs::Status;
use std::alloc::Global;
use std::marker::Model;

/// Where an import stands between two lines. Contracts see what the format knows, whether lines may be left out, and how
/// many are.
#[derive(Drop)]
struct Importing<F: LineFormat> {
    format: F,
    leave_out: bool,
    left_out: u64,
    // Room for what a line comes to, and for what is written of it.
    told: Vec<u8>,
    written: Vec<u8>,
}

impl<F: LineFormat> Model for Importing<F> {
    ghost use Rattle.import_lines.specs.Rounds.{Standing};

    ghost Value = { Standing F };

    ghost view = { λ i. record { known = i.format; leave_out = i.leave_out; left_out = i.left_out } };
}

/// Imports what the source gives: what each line comes to is written to the sink before the next one is read. `leave_out`
/// says that a line that isn't said becomes a comment; else the script ends at it.
///
/// `Done` comes where the input was read to its end, and then the script has what the format writes behind all lines. At a
/// line that isn't said, that is too long or has a byte that no line has, the status is `Script`: the last line of the
/// script names it, and what the format writes behind all lines isn't there. The same status comes at the end of an input
/// of which the format says that something is wanting there. `ReadFault` comes exactly where the source
/// failed, `WriteFault` exactly where the sink did, and `Memory` for want of memory alone: the lines that were told by then
/// stand in the script, where the sink failed perhaps with a part of the next one or all of it. Where the source failed these
/// are all lines that came whole, with their line feed.
pub fn import<F: LineFormat, S: Source, K: Sink>(
    alloc: Global,
    format: F,
    leave_out: bool,
    source: &mut S,
    sink: &mut K,
) -> Status
    ensures imports { (pieces : List (List ℕ)) × GivesPieces (S.given source.old) (S.given source.new) (S.left source.old) (S.left source.new) pieces
        × ((which : Bool) → ImportsBy (telling F.told F.behind F.closing) leave_out format pieces result (counted which (K.taken sink.old) (K.accepted sink.old)) (counted which (K.taken sink.new) (K.accepted sink.new))) }
    ensures read { IsCounted (result ≡ Status.ReadFault) (S.faults source.old) (S.faults source.new) }
    ensures written { IsCounted (result ≡ Status.WriteFault) (K.faults sink.old) (K.faults sink.new) }
{
    let mut importing = Importing {
        format,
        leave_out,
        left_out: 0,
        told: Vec::new(alloc),
        written: Vec::new(alloc),
    };
    let mut lines = Lines::new();
    let mut number: u64 = 1;
    'rounds: loop {
        match importing.round(alloc, &mut lines, number, source, sink) {
            Ok(()) => {}
            Err(status) => return status,
        }
        if number == u64::MAX {
            return Status::Memory;
        }
        number += 1;
    }
}

impl<F: LineFormat> Importing<F> {
    /// Reads the next line, which has this number, and tells it. Err: the import is at its end.
    fn round<S: Source, K: Sink>(
        &mut self,
        alloc: Global,
        lines: &mut Lines,
        number: u64,
        source: &mut S,
        sink: &mut K,
    ) -> Result<(), Status>
        requires anew { IsAnew lines.old }
        requires below { self.old.left_out < number }
        ensures anew { OnOk result (IsAnew lines.new) }
        ensures below { OnOk result (self.new.left_out ≤ number) }
        ensures gives { (pieces : List (List ℕ)) × GivesPieces (S.given source.old) (S.given source.new) (S.left source.old) (S.left source.new) pieces
            × ((which : Bool) → (written : List ℕ) × Appends (counted which (K.taken sink.old) (K.accepted sink.old)) (counted which (K.taken sink.new) (K.accepted sink.new)) written
            × RoundsBy (telling F.told F.behind F.closing) lines.old self.old number pieces written result lines.new self.new) }
        ensures rests { lines.old.over ≢ Going → S.left source.new ≡ S.left source.old }
        ensures read { IsCounted (result ≡ Err Status.ReadFault) (S.faults source.old) (S.faults source.new) }
        ensures written { IsCounted (result ≡ Err Status.WriteFault) (K.faults sink.old) (K.faults sink.new) }
    {
        let line = match lines.next(source) {
            Err(LineFault::Read) => return Err(Status::ReadFault),
            // A reader that begins anew behind each line is within a script's length.
            Err(LineFault::ScriptTooLong { .. }) => unreachable!(),
            Err(LineFault::TooLong { .. }) => {
                return Err(stop(&mut self.written, number, b"line too long", sink));
            }
            Err(LineFault::BadByte { .. }) => {
                return Err(stop(&mut self.written, number, b"bad byte", sink));
            }
            Ok(None) => return Err(self.close(alloc, sink)),
            Ok(Some(line)) => line,
        };
        lines.begin_anew();
        self.tell(alloc, &line, number, sink)
    }

    /// Tells a line, which has this number. Err: the import is at its end.
    fn tell<K: Sink>(
        &mut self,
        alloc: Global,
        line: &Line,
        number: u64,
        sink: &mut K,
    ) -> Result<(), Status>
        requires len { line.now.len ≤ 512 }
        requires below { self.old.left_out < number }
        ensures below { OnOk result (self.new.left_out ≤ number) }
        ensures tells { (which : Bool) → TellsLine (telling F.told F.behind F.closing) self.old (numbered line.now).text number result self.new (counted which (K.taken sink.old) (K.accepted sink.old)) (counted which (K.taken sink.new) (K.accepted sink.new)) }
        ensures kind { result ≢ Err Status.ReadFault }
        ensures written { IsCounted (result ≡ Err Status.WriteFault) (K.faults sink.old) (K.faults sink.new) }
    {
        self.told.clear();
        let text = text_of(line);
        match self.format.take(alloc, text, &mut self.told) {
            Ok(Told::Said) => write_on(sink, self.told.as_slice()),
            Ok(Told::Unsaid) => {
                name_line(
                    &mut self.written,
                    self.leave_out,
                    &mut self.left_out,
                    number,
                    self.told.as_slice(),
                    sink,
                )
            }
            Err(_) => Err(Status::Memory),
        }
    }

    /// Ends the script behind all lines, or says what is wanting there.
    fn close<K: Sink>(&mut self, alloc: Global, sink: &mut K) -> Status
        ensures closes { (which : Bool) → ClosesAs self.old.left_out (F.closing self.old.known) result (counted which (K.taken sink.old) (K.accepted sink.old)) (counted which (K.taken sink.new) (K.accepted sink.new)) }
        ensures kind { result ≢ Status.ReadFault }
        ensures written { IsCounted (result ≡ Status.WriteFault) (K.faults sink.old) (K.faults sink.new) }
    {
        self.told.clear();
        match self.format.close(alloc, &mut self.told) {
            Ok(Told::Said) => end(&mut self.written, self.left_out, self.told.as_slice(), sink),
            Ok(Told::Unsaid) => end_short(&mut self.written, self.told.as_slice(), sink),
            Err(_) => Status::Memory,
        }
    }
}

/// The text of a line.
fn text_of(line: &Line) -> &[u8]
    requires { line.now.len ≤ 512 }
    ensures text { result.now ≡ (numbered line.now).text }
    ensures short { length result.now ≤ 512 }
{
    &line.bytes[..usize::from(line.len)]
}

/// Tells of the line of this number, which isn't said for this reason: by a comment, behind which the import goes on, where
/// lines may be left out, and else by the last line of the script.
fn name_line<K: Sink>(
    room: &mut Vec<u8>,
    leave_out: bool,
    left_out: &mut u64,
    number: u64,
    why: &[u8],
    sink: &mut K,
) -> Result<(), Status>
    requires below { left_out.old < number }
    ensures counted { OnOk result (left_out.new ≡ left_out.old + 1) }
    ensures names { (which : Bool) → NamesBy leave_out number why.now result (counted which (K.taken sink.old) (K.accepted sink.old)) (counted which (K.taken sink.new) (K.accepted sink.new)) }
    ensures kind { result ≢ Err Status.ReadFault }
    ensures written { IsCounted (result ≡ Err Status.WriteFault) (K.faults sink.old) (K.faults sink.new) }
{
    if leave_out {
        return pass(room, left_out, number, why, sink);
    }
    Err(stop(room, number, why, sink))
}

/// Writes the comment on the line of this number, which is left out for this reason. Err: the import is at its end.
fn pass<K: Sink>(
    room: &mut Vec<u8>,
    left_out: &mut u64,
    number: u64,
    why: &[u8],
    sink: &mut K,
) -> Result<(), Status>
    requires below { left_out.old < number }
    ensures counted { OnOk result (left_out.new ≡ left_out.old + 1) }
    ensures passes { (which : Bool) → PassesBy result (left_out_line number why.now) (counted which (K.taken sink.old) (K.accepted sink.old)) (counted which (K.taken sink.new) (K.accepted sink.new)) }
    ensures kind { result ≢ Err Status.ReadFault }
    ensures written { IsCounted (result ≡ Err Status.WriteFault) (K.faults sink.old) (K.faults sink.new) }
{
    room.clear();
    *left_out += 1;
    match put_left_out(room, number, why) {
        Ok(()) => write_on(sink, room.as_slice()),
        Err(_) => Err(Status::Memory),
    }
}

/// Ends the script at the line of this number, for this reason.
fn stop<K: Sink>(room: &mut Vec<u8>, number: u64, why: &[u8], sink: &mut K) -> Status
    ensures stops { (which : Bool) → LastBy (stop_line number why.now) Status.Script result (counted which (K.taken sink.old) (K.accepted sink.old)) (counted which (K.taken sink.new) (K.accepted sink.new)) }
    ensures kind { result ≢ Status.ReadFault }
    ensures written { IsCounted (result ≡ Status.WriteFault) (K.faults sink.old) (K.faults sink.new) }
{
    room.clear();
    match put_stop(room, number, why) {
        Ok(()) => write_last(sink, room.as_slice(), Status::Script),
        Err(_) => Status::Memory,
    }
}

/// Ends the script with what stands behind all lines.
fn end<K: Sink>(room: &mut Vec<u8>, left_out: u64, bytes: &[u8], sink: &mut K) -> Status
    ensures ends { (which : Bool) → LastBy (left_out_count left_out ++ bytes.now) Status.Done result (counted which (K.taken sink.old) (K.accepted sink.old)) (counted which (K.taken sink.new) (K.accepted sink.new)) }
    ensures kind { result ≢ Status.ReadFault }
    ensures written { IsCounted (result ≡ Status.WriteFault) (K.faults sink.old) (K.faults sink.new) }
{
    room.clear();
    match put_end(room, left_out, bytes) {
        Ok(()) => write_last(sink, room.as_slice(), Status::Done),
        Err(_) => Status::Memory,
    }
}

/// Ends the script behind all lines without what would stand there, for this reason.
fn end_short<K: Sink>(room: &mut Vec<u8>, why: &[u8], sink: &mut K) -> Status
    ensures ends { (which : Bool) → LastBy (end_line why.now) Status.Script result (counted which (K.taken sink.old) (K.accepted sink.old)) (counted which (K.taken sink.new) (K.accepted sink.new)) }
    ensures kind { result ≢ Status.ReadFault }
    ensures written { IsCounted (result ≡ Status.WriteFault) (K.faults sink.old) (K.faults sink.new) }
{
    room.clear();
    match put_end_line(room, why) {
        Ok(()) => write_last(sink, room.as_slice(), Status::Script),
        Err(_) => Status::Memory,
    }
}

/// Writes the last lines of a script, or another text behind which nothing comes, and answers the status that follows.
/// `WriteFault` comes where the sink failed, which took a part of the text then, perhaps none or all of it.
pub fn write_last<K: Sink>(sink: &mut K, text: &[u8], last: Status) -> Status
    ensures closes { (which : Bool) → ClosesBy text.now last result (counted which (K.taken sink.old) (K.accepted sink.old)) (counted which (K.taken sink.new) (K.accepted sink.new)) }
    ensures kind { (result ≡ last) ⊎ (result ≡ Status.WriteFault) }
    ensures written { last ≢ Status.WriteFault → IsCounted (result ≡ Status.WriteFault) (K.faults sink.old) (K.faults sink.new) }
{
    match write_all(sink, text) {
        Ok(()) => last,
        Err(_) => Status::WriteFault,
    }
}

/// Writes lines behind which the import goes on. Err: it is at its end.
fn write_on<K: Sink>(sink: &mut K, text: &[u8]) -> Result<(), Status>
    ensures passes { (which : Bool) → PassesBy result text.now (counted which (K.taken sink.old) (K.accepted sink.old)) (counted which (K.taken sink.new) (K.accepted sink.new)) }
    ensures kind { result ≢ Err Status.ReadFault }
    ensures written { IsCounted (result ≡ Err Status.WriteFault) (K.faults sink.old) (K.faults sink.new) }
{
    match write_all(sink, text) {
        Ok(()) => Ok(()),
        Err(_) => Err(Status::WriteFault),
    }
}

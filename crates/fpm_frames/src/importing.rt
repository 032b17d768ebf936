//! An import: frame by frame, to the end of the input or to the first frame that isn't said.

ghost use Rattle.std.specs.Prelude.{◌≡◌, ◌≢◌, ◌<◌, ◌+◌, Bool, ℕ, List, Ok, Err, OnOk, length};
ghost use Rattle.std.specs.List.{concat};
ghost use Rattle.call_history.specs.Cause.{IsCounted};
ghost use Rattle.script_lines.specs.Given.{GivesPieces, HasEnd, counted};
ghost use Rattle.fpm_frames.specs.Frames.{IsFrame};
ghost use Rattle.fpm_frames.specs.Imported.{ImportsBy, RoundBy, WritesBy, first_standing, left_out_frame, left_out_frames, messages_of, stop_frame, telling};

use crate::FrameFormat;
use crate::frames::{Came, Unread, read_frame};
use crate::lines::{put_left_out, put_left_out_count, put_stop};
use import_lines::Told;
use script_lines::{Sink, Source, write_all};
use script_runs::Status;
use std::alloc::Global;
use std::marker::Model;

/// Where an import stands between two frames. Contracts see what the format knows, whether frames may be left out, the number
/// of the next one, and how many are left out.
#[derive(Drop)]
struct Importing<F: FrameFormat> {
    format: F,
    leave_out: bool,
    number: u64,
    left_out: u64,
    // Room for what a frame comes to, and for what is written of it.
    told: Vec<u8>,
    written: Vec<u8>,
}

impl<F: FrameFormat> Model for Importing<F> {
    ghost use Rattle.fpm_frames.specs.Imported.{Standing};

    ghost Value = { Standing F };

    ghost view = { λ i. record { known = i.format; leave_out = i.leave_out; number = i.number; left_out = i.left_out } };
}

/// Imports the frames that the source gives: what each comes to is written to the sink before the next one is read. `leave_out`
/// says that a frame that isn't said becomes a comment; else the script ends at it.
///
/// `Done` comes where the input was read to its end, behind a whole frame. At a frame that isn't said, at bytes with which none
/// begins, and at one that is cut off the status is `Script`: the last line of the script names it. `ReadFault` comes exactly
/// where the source failed, `WriteFault` exactly where the sink did, and `Memory` for want of memory alone: the frames that were
/// told by then stand in the script, where the sink failed perhaps with a part of the next one or all of it. Where the source
/// failed these are all frames that came whole.
pub fn import_frames<F: FrameFormat, S: Source, K: Sink>(
    alloc: Global,
    format: F,
    leave_out: bool,
    source: &mut S,
    sink: &mut K,
) -> Status
    ensures imports { (pieces : List (List ℕ)) × GivesPieces (S.given source.old) (S.given source.new) (S.left source.old) (S.left source.new) pieces
        × ((which : Bool) → ImportsBy (telling F.told F.behind) (first_standing leave_out format) pieces result (counted which (K.taken sink.old) (K.accepted sink.old)) (counted which (K.taken sink.new) (K.accepted sink.new))) }
    ensures read { IsCounted (result ≡ Status.ReadFault) (S.faults source.old) (S.faults source.new) }
    ensures written { IsCounted (result ≡ Status.WriteFault) (K.faults sink.old) (K.faults sink.new) }
{
    let mut importing = Importing {
        format,
        leave_out,
        number: 1,
        left_out: 0,
        told: Vec::new(alloc),
        written: Vec::new(alloc),
    };
    let mut frame = Vec::new(alloc);
    let mut left = u64::MAX - 1;
    while left > 0 {
        match importing.round(alloc, &mut frame, source, sink) {
            Ok(()) => {}
            Err(status) => return status,
        }
        left -= 1;
    }
    Status::Memory
}

impl<F: FrameFormat> Importing<F> {
    /// Reads the next frame into room, and tells it. Err: the import is at its end.
    fn round<S: Source, K: Sink>(
        &mut self,
        alloc: Global,
        frame: &mut Vec<u8>,
        source: &mut S,
        sink: &mut K,
    ) -> Result<(), Status>
        requires below { self.old.left_out < self.old.number }
        requires room { self.old.number < 18446744073709551615 }
        ensures below { OnOk result (self.new.left_out < self.new.number) }
        ensures number { OnOk result (self.new.number ≡ self.old.number + 1) }
        ensures gives { (pieces : List (List ℕ)) × GivesPieces (S.given source.old) (S.given source.new) (S.left source.old) (S.left source.new) pieces
            × OnOk result (HasEnd pieces → ⊥)
            × ((which : Bool) → RoundBy F (telling F.told F.behind) self.old pieces (concat pieces) result self.new (counted which (K.taken sink.old) (K.accepted sink.old)) (counted which (K.taken sink.new) (K.accepted sink.new))) }
        ensures read { IsCounted (result ≡ Err Status.ReadFault) (S.faults source.old) (S.faults source.new) }
        ensures written { IsCounted (result ≡ Err Status.WriteFault) (K.faults sink.old) (K.faults sink.new) }
    {
        let came = match read_frame(source, frame) {
            Ok(came) => came,
            Err(Unread::Fault) => return Err(Status::ReadFault),
            Err(Unread::Memory) => return Err(Status::Memory),
        };
        match came {
            Came::Frame => self.tell(alloc, frame.as_slice(), sink),
            Came::End => close(&mut self.written, self.left_out, sink),
            Came::Cut => stop(&mut self.written, self.number, b"cut off", sink),
            Came::Unknown(header) => stop(
                &mut self.written,
                self.number,
                header.why().as_bytes(),
                sink,
            ),
        }
    }

    /// Tells a frame. Err: the import is at its end.
    fn tell<K: Sink>(&mut self, alloc: Global, frame: &[u8], sink: &mut K) -> Result<(), Status>
        requires whole { IsFrame frame.now }
        requires below { self.old.left_out < self.old.number }
        requires room { self.old.number < 18446744073709551615 }
        ensures below { OnOk result (self.new.left_out < self.new.number) }
        ensures number { OnOk result (self.new.number ≡ self.old.number + 1) }
        ensures tells { (which : Bool) → (pieces : List (List ℕ)) → RoundBy F (telling F.told F.behind) self.old pieces frame.now result self.new (counted which (K.taken sink.old) (K.accepted sink.old)) (counted which (K.taken sink.new) (K.accepted sink.new)) }
        ensures kind { result ≢ Err Status.ReadFault }
        ensures written { IsCounted (result ≡ Err Status.WriteFault) (K.faults sink.old) (K.faults sink.new) }
    {
        let number = self.number;
        let leave_out = self.leave_out;
        self.told.clear();
        match self.format.take(alloc, messages_of(frame), &mut self.told) {
            Ok(Told::Said) => {
                self.number += 1;
                write(sink, self.told.as_slice(), Ok(()))
            }
            Ok(Told::Unsaid) => {
                if leave_out {
                    self.number += 1;
                    self.left_out += 1;
                    return pass(&mut self.written, number, self.told.as_slice(), sink);
                }
                stop(&mut self.written, number, self.told.as_slice(), sink)
            }
            Err(_) => Err(Status::Memory),
        }
    }
}

/// The messages of a frame.
fn messages_of(frame: &[u8]) -> &[u8]
    requires { IsFrame frame.now }
    ensures { result.now ≡ messages_of frame.now }
{
    &frame[4..]
}

/// Writes the comment on the frame of this number, which is left out for this reason. Err: the import is at its end.
fn pass<K: Sink>(room: &mut Vec<u8>, number: u64, why: &[u8], sink: &mut K) -> Result<(), Status>
    ensures passes { (which : Bool) → WritesBy (left_out_frame number why.now) (Ok tt) result (counted which (K.taken sink.old) (K.accepted sink.old)) (counted which (K.taken sink.new) (K.accepted sink.new)) }
    ensures kind { result ≢ Err Status.ReadFault }
    ensures written { IsCounted (result ≡ Err Status.WriteFault) (K.faults sink.old) (K.faults sink.new) }
{
    room.clear();
    match put_left_out(room, number, why) {
        Ok(()) => write(sink, room.as_slice(), Ok(())),
        Err(_) => Err(Status::Memory),
    }
}

/// Ends the script at the frame of this number, for this reason.
fn stop<K: Sink>(room: &mut Vec<u8>, number: u64, why: &[u8], sink: &mut K) -> Result<(), Status>
    ensures stops { (which : Bool) → WritesBy (stop_frame number why.now) (Err Status.Script) result (counted which (K.taken sink.old) (K.accepted sink.old)) (counted which (K.taken sink.new) (K.accepted sink.new)) }
    ensures kind { result ≢ Err Status.ReadFault }
    ensures written { IsCounted (result ≡ Err Status.WriteFault) (K.faults sink.old) (K.faults sink.new) }
{
    room.clear();
    match put_stop(room, number, why) {
        Ok(()) => write(sink, room.as_slice(), Err(Status::Script)),
        Err(_) => Err(Status::Memory),
    }
}

/// Ends the script behind all frames, of which so many are left out.
fn close<K: Sink>(room: &mut Vec<u8>, left_out: u64, sink: &mut K) -> Result<(), Status>
    ensures closes { (which : Bool) → WritesBy (left_out_frames left_out) (Err Status.Done) result (counted which (K.taken sink.old) (K.accepted sink.old)) (counted which (K.taken sink.new) (K.accepted sink.new)) }
    ensures kind { result ≢ Err Status.ReadFault }
    ensures written { IsCounted (result ≡ Err Status.WriteFault) (K.faults sink.old) (K.faults sink.new) }
{
    room.clear();
    match put_left_out_count(room, left_out) {
        Ok(()) => write(sink, room.as_slice(), Err(Status::Done)),
        Err(_) => Err(Status::Memory),
    }
}

/// Writes a text, behind which this follows: the import goes on, or ends with a status that is no failure.
fn write<K: Sink>(sink: &mut K, text: &[u8], next: Result<(), Status>) -> Result<(), Status>
    requires read { next ≢ Err Status.ReadFault }
    requires written { next ≢ Err Status.WriteFault }
    ensures writes { (which : Bool) → WritesBy text.now next result (counted which (K.taken sink.old) (K.accepted sink.old)) (counted which (K.taken sink.new) (K.accepted sink.new)) }
    ensures kind { result ≢ Err Status.ReadFault }
    ensures written { IsCounted (result ≡ Err Status.WriteFault) (K.faults sink.old) (K.faults sink.new) }
{
    match write_all(sink, text) {
        Ok(()) => next,
        Err(_) => Err(Status::WriteFault),
    }
}

//! An import: the whole of a source is read, and then its script written.

ghost use Rattle.std.specs.Prelude.{◌≡◌, Bool, ℕ, List, Err, IfOk};
ghost use Rattle.call_history.specs.Cause.{IsCounted};
ghost use Rattle.script_lines.specs.Given.{GivesPieces, counted};
ghost use Rattle.json_routes.specs.Items.{no_routes};
ghost use Rattle.json_routes.specs.Texts.{IsWholeOf, JsonBy};

use crate::text::tell_text;
use import_lines::write_last;
use rule_model::IpVersion;
use script_lines::{Sink, Source};
use script_runs::Status;
use std::alloc::Global;

/// Why a source wasn't read to its end.
#[derive(Clone, Copy, Debug, PartialEq, Eq)]
pub enum Unread {
    /// It failed.
    Fault,
    /// Want of memory.
    Memory,
}

/// How many bytes a read asks for.
const PIECE_BYTES: usize = 4096;

/// Imports the array of routes that the source gives, of this version of IP: reads it to its end, and writes its script.
/// `leave_out` says that a route that isn't said becomes a comment; else the script ends at it.
///
/// `Done` comes where the text is an array, and each route is said or left out. Where one isn't, or the text is no array, the
/// status is `Script`, and the last line of the script says so. `ReadFault` comes exactly where the source failed, `WriteFault`
/// exactly where the sink did, and `Memory` for want of memory alone, before anything is written.
pub fn import_json<S: Source, K: Sink>(
    alloc: Global,
    version: IpVersion,
    leave_out: bool,
    source: &mut S,
    sink: &mut K,
) -> Status
    ensures imports { (pieces : List (List ℕ)) × GivesPieces (S.given source.old) (S.given source.new) (S.left source.old) (S.left source.new) pieces
        × ((which : Bool) → JsonBy leave_out (no_routes version) pieces result (counted which (K.taken sink.old) (K.accepted sink.old)) (counted which (K.taken sink.new) (K.accepted sink.new))) }
    ensures read { IsCounted (result ≡ Status.ReadFault) (S.faults source.old) (S.faults source.new) }
    ensures written { IsCounted (result ≡ Status.WriteFault) (K.faults sink.old) (K.faults sink.new) }
{
    let text = match read_all(alloc, source) {
        Ok(text) => text,
        Err(Unread::Fault) => return Status::ReadFault,
        Err(Unread::Memory) => return Status::Memory,
    };
    let mut script = Vec::new(alloc);
    match tell_text(alloc, version, leave_out, text.as_slice(), &mut script) {
        Ok(last) => write_last(sink, script.as_slice(), last),
        Err(_) => Status::Memory,
    }
}

/// The bytes that a source gives to its end.
pub fn read_all<S: Source>(alloc: Global, source: &mut S) -> Result<Vec<u8>, Unread>
    ensures reads { (pieces : List (List ℕ)) × GivesPieces (S.given source.old) (S.given source.new) (S.left source.old) (S.left source.new) pieces × IfOk result (λ text. IsWholeOf pieces text.items) }
    ensures cause { IsCounted (result ≡ Err Unread.Fault) (S.faults source.old) (S.faults source.new) }
{
    let mut text = Vec::new(alloc);
    let mut piece = [0; PIECE_BYTES];
    let mut left = u64::MAX;
    while left > 0 {
        let read = match source.read(&mut piece) {
            Ok(read) => read,
            Err(_) => return Err(Unread::Fault),
        };
        if read == 0 {
            return Ok(text);
        }
        if text.extend_from_slice(&piece[..read]).is_err() {
            return Err(Unread::Memory);
        }
        left -= 1;
    }
    Err(Unread::Memory)
}

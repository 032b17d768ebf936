//! An import: the whole of a source is read, and then its script written.

ghost use Rattle.std.specs.Prelude.{◌≡◌, Bool, ℕ, List};
ghost use Rattle.call_history.specs.Cause.{IsCounted};
ghost use Rattle.script_lines.specs.Given.{GivesPieces, counted};
ghost use Rattle.nft_rulesets.specs.Texts.{RulesetBy};

use crate::asked::Asked;
use crate::text::tell_text;
use import_lines::write_last;
use json_routes::{Unread, read_all};
use script_lines::{Sink, Source};
use script_runs::Status;
use std::alloc::Global;

/// Imports the chain that is asked for of the ruleset that the source gives: reads it to its end, and writes its script.
/// `leave_out` says that an item that isn't said becomes a comment; else the script ends at it.
///
/// `Done` comes where the text is a ruleset with that chain, and each item is said or left out. Where one isn't, or there is
/// no list, the status is `Script`, and the last line of the script says so. `ReadFault` comes exactly where the source
/// failed, `WriteFault` exactly where the sink did, and `Memory` for want of memory alone, before anything is written.
pub fn import_nft<S: Source, K: Sink>(
    alloc: Global,
    asked: &Asked,
    leave_out: bool,
    source: &mut S,
    sink: &mut K,
) -> Status
    ensures imports { (pieces : List (List ℕ)) × GivesPieces (S.given source.old) (S.given source.new) (S.left source.old) (S.left source.new) pieces
        × ((which : Bool) → RulesetBy asked.now leave_out pieces result (counted which (K.taken sink.old) (K.accepted sink.old)) (counted which (K.taken sink.new) (K.accepted sink.new))) }
    ensures read { IsCounted (result ≡ Status.ReadFault) (S.faults source.old) (S.faults source.new) }
    ensures written { IsCounted (result ≡ Status.WriteFault) (K.faults sink.old) (K.faults sink.new) }
{
    let text = match read_all(alloc, source) {
        Ok(text) => text,
        Err(Unread::Fault) => return Status::ReadFault,
        Err(Unread::Memory) => return Status::Memory,
    };
    let mut script = Vec::new(alloc);
    match tell_text(alloc, asked, leave_out, text.as_slice(), &mut script) {
        Ok(last) => write_last(sink, script.as_slice(), last),
        Err(_) => Status::Memory,
    }
}

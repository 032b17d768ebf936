//! The loop of a router's script.

ghost use Rattle.std.specs.Prelude.{Bool, false, ◌≡◌, ◌≢◌, ◌<◌, ◌≤◌, [], ℕ, List, Ok, Err, Some, None, IsSome, IfNone, length};
ghost use Rattle.call_history.specs.Cause.{IsCounted};
ghost use Rattle.script_lines.specs.Given.{GivesPieces, counted};
ghost use Rattle.script_lines.specs.declared.Over.TheVariants.{Going};
ghost use Rattle.script_runs.specs.Script.{Whole};
ghost use Rattle.script_runs.specs.Outcomes.{status_at};
ghost use Rattle.script_runs.specs.Rounds.{RoundsBy, outputs};
ghost use Rattle.split_device.specs.Flight.{no_flight};
ghost use Rattle.report_lines.specs.Text.{fault_line};
ghost use Rattle.router.specs.Run.{ending, start};
ghost use Rattle.router.specs.Routing.{progress_of, setting_of, slots_of, AreAt, FitsBoth, IsIdle};
ghost use Rattle.router.specs.Acting.{failed_side};
ghost use Rattle.router.specs.Taken.{made_on};
ghost use Rattle.router_reader.specs.Readings.{router_reading};
ghost use Rattle.router_runs.specs.Runs.{router_kind};
ghost use Rattle.router_runs.specs.Promise.{failures_of, HasRouterCauses, IsHitlessRouter, IsRouterCarriedOut, IsRouterPromisedByGiven, RouterReadsInTime};
ghost use Rattle.router_runs.specs.Rounds.{ClosesRouterReport, IsRouterBetweenLines, LeavesBoth, StopsAtPart};

use report_lines::{sizes_by, write_fault};
use router::{Router, RouterFault};
use router_reader::read_router_act;
use script_lines::{Failed, LineFault, Lines, Sink, Source};
use script_runs::Status;
use split_device::SplitDevice;

/// Carries out a router's script from the source to its end or its first fault, from a router's start, over two blank
/// devices, the list's and the routes', each with at least as many slots as the router uses and with nothing in flight.
///
/// Before the first, between any two and after the last part or drain of a device an undivided look-up of every key gets
/// the answer of one of its table's sets or of the next one, in order, and each set is shown whole in its turn. A set
/// changes only by a commit that neither table refuses; a refused commit writes nothing to either device. Where a part or a
/// line of a trace fails, one table at most is left within a commit.
///
/// The answer is `Done` or `Refused` where the script was read to its end, `Refused` where some commit was refused by
/// either table; `Script` where a line is at fault, which the last line of the report names. `ReadFault` and `WriteFault`
/// come exactly where the count of failures of source or sink rose. A part that fails is tried again at once, four times in
/// all; `DeviceFault` comes where the fourth failed too, and the count of that device's failures rose by it: a part of it
/// is what would come next. After any of the three nothing more is read, written or printed. `Memory` comes for want of
/// memory alone, and before a commit's first part. The lines of an act are handed to the sink before the next act is
/// carried out. No input is taken in vain: of the lines that were whole before the last read none is at fault or wants
/// memory, both devices' events and the accepted report begin with their effects, and no read before it was the end of the
/// input.
pub fn run_router_script<S: Source, K: Sink, D: SplitDevice>(
    router: &mut Router,
    source: &mut S,
    sink: &mut K,
    list: &mut D,
    routes: &mut D,
) -> Status
    requires slots { FitsBoth router.old (slots_of (D.slot_count list.old) (D.slot_count routes.old)) }
    requires idle { IsIdle router.old }
    requires whole { router.old.broken ≡ false }
    requires begun { progress_of router.old ≡ start }
    requires blank { (D.events list.old ≡ []) × (D.events routes.old ≡ []) }
    requires none_in_flight { (D.flight list.old ≡ no_flight) × (D.flight routes.old ≡ no_flight) }
    ensures carried_out { IsRouterCarriedOut (router_reading router.old.version) (setting_of router.old) (slots_of (D.slot_count list.old) (D.slot_count routes.old)) result
        (S.left source.old) (S.left source.new) (K.taken sink.old) (K.taken sink.new) (made_on (D.events list.new) (D.events routes.new)) }
    ensures hitless { IsHitlessRouter (router_reading router.old.version) (setting_of router.old) (slots_of (D.slot_count list.old) (D.slot_count routes.old)) result
        (S.left source.old) (S.left source.new) (made_on (D.events list.new) (D.events routes.new)) }
    ensures given { (which : Bool) → IsRouterPromisedByGiven (router_reading router.old.version) (setting_of router.old) (slots_of (D.slot_count list.old) (D.slot_count routes.old)) result
        (S.given source.old) (S.given source.new) (counted which (K.taken sink.old) (K.accepted sink.old)) (counted which (K.taken sink.new) (K.accepted sink.new)) (made_on (D.events list.new) (D.events routes.new)) }
    ensures in_time { RouterReadsInTime (router_reading router.old.version) (setting_of router.old) (slots_of (D.slot_count list.old) (D.slot_count routes.old)) result
        (S.given source.old) (S.given source.new) (made_on (D.events list.new) (D.events routes.new)) (K.accepted sink.old) (K.accepted sink.new) }
    ensures told { (IsSome (S.left source.old) → IsSome (S.left source.new)) × (IsSome (K.taken sink.old) → IsSome (K.taken sink.new)) }
    ensures slot_counts { (D.slot_count list.new ≡ D.slot_count list.old) × (D.slot_count routes.new ≡ D.slot_count routes.old) }
    ensures causes { HasRouterCauses (router_reading router.old.version) (setting_of router.old) (slots_of (D.slot_count list.old) (D.slot_count routes.old)) (S.left source.old) result (made_on (D.events list.new) (D.events routes.new))
        (failures_of (S.faults source.old) (K.faults sink.old) (D.faults list.old) (D.faults routes.old))
        (failures_of (S.faults source.new) (K.faults sink.new) (D.faults list.new) (D.faults routes.new)) }
{
    let mut lines = Lines::of_at_most(sizes_by(router.is_large()).bytes);
    'acts: loop {
        match round(&mut lines, router, source, sink, list, routes) {
            Some(status) => return status,
            None => {}
        }
    }
}

/// Carries out the next line. None: the run goes on. A line takes a byte at least, so that no script has more commits
/// than a router counts.
fn round<S: Source, K: Sink, D: SplitDevice>(
    lines: &mut Lines,
    router: &mut Router,
    source: &mut S,
    sink: &mut K,
    list: &mut D,
    routes: &mut D,
) -> Option<Status>
    requires slots { FitsBoth router.old (slots_of (D.slot_count list.old) (D.slot_count routes.old)) }
    requires none_in_flight { (D.flight list.old ≡ no_flight) × (D.flight routes.old ≡ no_flight) }
    requires stands { IsRouterBetweenLines lines.old router.old }
    requires at { AreAt router.old (D.events list.old) (D.events routes.old) }
    ensures goes { IfNone result ((lines.old.before < lines.new.before) × IsRouterBetweenLines lines.new router.new) }
    ensures slots { IfNone result (FitsBoth router.new (slots_of (D.slot_count list.new) (D.slot_count routes.new))) }
    ensures at { IfNone result (AreAt router.new (D.events list.new) (D.events routes.new)) }
    ensures setting { setting_of router.new ≡ setting_of router.old }
    ensures gives { (pieces : List (List ℕ)) × GivesPieces (S.given source.old) (S.given source.new) (S.left source.old) (S.left source.new) pieces
        × ((which : Bool) → RoundsBy (router_kind (router_reading router.old.version) (setting_of router.old) (slots_of (D.slot_count list.old) (D.slot_count routes.old))) lines.old (progress_of router.old) pieces result
        lines.new (progress_of router.new) (outputs (made_on (D.events list.old) (D.events routes.old)) (counted which (K.taken sink.old) (K.accepted sink.old))) (outputs (made_on (D.events list.new) (D.events routes.new)) (counted which (K.taken sink.new) (K.accepted sink.new))))
        × (result ≡ Some Status.DeviceFault → StopsAtPart (router_kind (router_reading router.old.version) (setting_of router.old) (slots_of (D.slot_count list.old) (D.slot_count routes.old))) lines.old (progress_of router.old) pieces (failed_side router.new)
        (made_on (D.events list.old) (D.events routes.old)) (made_on (D.events list.new) (D.events routes.new)) (K.taken sink.old)) }
    ensures rests { lines.old.over ≢ Going → (S.left source.new ≡ S.left source.old) × (lines.new ≡ lines.old) }
    ensures no_usage { result ≢ Some Status.Usage }
    ensures read { IsCounted (result ≡ Some Status.ReadFault) (S.faults source.old) (S.faults source.new) }
    ensures write { IsCounted (result ≡ Some Status.WriteFault) (K.faults sink.old) (K.faults sink.new) }
    ensures told { IsSome (K.taken sink.old) → IsSome (K.taken sink.new) }
    ensures devices { LeavesBoth D.slot_count D.events D.flight D.faults list.old list.new routes.old routes.new (λ which. (result ≡ Some Status.DeviceFault) × (failed_side router.new ≡ which)) }
{
    router.alike();
    let line = match lines.next(source) {
        Err(LineFault::Read) => return Some(Status::ReadFault),
        Err(LineFault::ScriptTooLong { line }) => return Some(fault(line, "script too long", sink)),
        Err(LineFault::TooLong { line }) => return Some(fault(line, "line too long", sink)),
        Err(LineFault::BadByte { line }) => return Some(fault(line, "bad byte", sink)),
        Ok(None) => return Some(finish(router, sink)),
        Ok(Some(line)) => line,
    };
    let act = match read_router_act(&line, router.version()) {
        Err(text) => return Some(fault(line.number, text, sink)),
        Ok(None) => return None,
        Ok(Some(act)) => act,
    };
    match router.apply(&act, sink, list, routes) {
        Ok(()) => {
            router.alike();
            None
        }
        Err(RouterFault::BatchFull) => Some(fault(line.number, "batch full", sink)),
        // The run ends at a device's failure, so no commit is unfinished.
        Err(RouterFault::Held { .. }) => unreachable!(),
        Err(RouterFault::Sink) => Some(Status::WriteFault),
        Err(RouterFault::Device) => Some(Status::DeviceFault),
        Err(RouterFault::Memory) => Some(Status::Memory),
    }
}

/// Writes the end line of a script that was read to its end.
fn finish<K: Sink>(router: &mut Router, sink: &mut K) -> Status
    requires idle { IsIdle router.old }
    requires whole { router.old.broken ≡ false }
    ensures router { router.new ≡ router.old }
    ensures closes { ClosesRouterReport K.taken K.accepted K.faults sink.old sink.new (ending (progress_of router.old)) (status_at router.old.refused Whole) result }
    ensures kind { (result ≢ Status.Usage) × (result ≢ Status.ReadFault) × (result ≢ Status.DeviceFault) × (result ≢ Status.Memory) }
{
    match router.finish(sink) {
        Ok(false) => Status::Done,
        Ok(true) => Status::Refused,
        Err(Failed) => Status::WriteFault,
    }
}

/// Writes the line that names the fault of a script's line.
fn fault<K: Sink>(line: u32, text: &str, sink: &mut K) -> Status
    requires short { length text.now ≤ 32 }
    ensures closes { ClosesRouterReport K.taken K.accepted K.faults sink.old sink.new (fault_line line text.now) Status.Script result }
    ensures kind { (result ≢ Status.Usage) × (result ≢ Status.ReadFault) × (result ≢ Status.DeviceFault) × (result ≢ Status.Memory) }
{
    match write_fault(sink, u64::from(line), text) {
        Ok(()) => Status::Script,
        Err(Failed) => Status::WriteFault,
    }
}

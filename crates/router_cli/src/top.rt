//! The top call: a command line, a source, a sink and two devices.

ghost use Rattle.std.specs.Prelude.{Bool, ◌≡◌, ◌≢◌, ◌≤◌, ◌⊎◌, [], IsSome, map, string_bytes};
ghost use Rattle.script_lines.specs.Given.{counted};
ghost use Rattle.split_device.specs.Flight.{no_flight};
ghost use Rattle.router.specs.Routing.{slots_of};
ghost use Rattle.router.specs.Taken.{made_on};
ghost use Rattle.router_runs.specs.Promise.{failures_of};
ghost use Rattle.router_runs.specs.Rounds.{ClosesRouterReport};
ghost use Rattle.router_cli.specs.CommandLine.{router_job, wanted_router_slots};
ghost use Rattle.router_cli.specs.Promise.{HasRouterJobCauses, IsRouterJobHitless, IsRouterJobCarriedOut, IsRouterJobPromisedByGiven, RouterJobReadsInTime};

use crate::command_line::{RouterAsked, read_router_words};
use crate::own_texts::ROUTER_HELP;
use option_words::WordsFault;
use report_lines::write_text;
use router::Router;
use router_runs::run_router_script;
use script_lines::{Failed, Sink, Source};
use script_runs::Status;
use split_device::SplitDevice;
use std::alloc::Global;

/// Runs what the words of a command line ask for, the program's name first, over two blank devices, the list's and the
/// routes', each of at least as many slots as they ask for (`router_slots_wanted`) with nothing in flight: a router's script
/// from the source, or the product's own text on it.
///
/// Between any two parts or drains of a device an undivided look-up of every key gets the answer of one of its table's sets
/// or of the next one, in order. A set changes only by a commit that neither table refuses; a refused commit writes nothing
/// to either device. Where a part or a line of a trace fails, one table at most is left within a commit.
///
/// The answer is `Done` or `Refused` where the script was read to its end, `Refused` where some commit was refused by
/// either table; `Script` where a line is at fault, which the last line of the report names. `ReadFault` and `WriteFault`
/// come exactly where the count of failures of source or sink rose. A part that fails is tried again at once, four times in
/// all; `DeviceFault` comes where the fourth failed too, and the count of that device's failures rose by it: a part of it
/// is what would come next. After any of the three nothing more is read, written or printed. `Memory` comes for want of
/// memory alone, before a commit's first part. `Usage` comes where the words are no command line, and there nothing else
/// comes but a failing sink and want of memory. No input is taken in vain: of the lines that were whole before the last
/// read none is at fault or wants memory, both devices' events and the accepted report begin with their effects, and no
/// read before it was the end of the input.
pub fn run_router<S: Source, K: Sink, D: SplitDevice>(
    alloc: Global,
    words: &[String],
    source: &mut S,
    sink: &mut K,
    list: &mut D,
    routes: &mut D,
) -> Status
    requires list_slots { wanted_router_slots (router_job (map (λ w. string_bytes w) words.now)) ≤ D.slot_count list.old }
    requires route_slots { wanted_router_slots (router_job (map (λ w. string_bytes w) words.now)) ≤ D.slot_count routes.old }
    requires blank { (D.events list.old ≡ []) × (D.events routes.old ≡ []) }
    requires none_in_flight { (D.flight list.old ≡ no_flight) × (D.flight routes.old ≡ no_flight) }
    ensures carried_out { IsRouterJobCarriedOut (router_job (map (λ w. string_bytes w) words.now)) (slots_of (D.slot_count list.old) (D.slot_count routes.old)) result
        (S.left source.old) (S.left source.new) (K.taken sink.old) (K.taken sink.new) (made_on (D.events list.new) (D.events routes.new)) }
    ensures hitless { IsRouterJobHitless (router_job (map (λ w. string_bytes w) words.now)) (slots_of (D.slot_count list.old) (D.slot_count routes.old)) result
        (S.left source.old) (S.left source.new) (made_on (D.events list.new) (D.events routes.new)) }
    ensures given { (which : Bool) → IsRouterJobPromisedByGiven (router_job (map (λ w. string_bytes w) words.now)) (slots_of (D.slot_count list.old) (D.slot_count routes.old)) result
        (S.given source.old) (S.given source.new) (counted which (K.taken sink.old) (K.accepted sink.old)) (counted which (K.taken sink.new) (K.accepted sink.new)) (made_on (D.events list.new) (D.events routes.new)) }
    ensures in_time { RouterJobReadsInTime (router_job (map (λ w. string_bytes w) words.now)) (slots_of (D.slot_count list.old) (D.slot_count routes.old)) result
        (S.given source.old) (S.given source.new) (made_on (D.events list.new) (D.events routes.new)) (K.accepted sink.old) (K.accepted sink.new) }
    ensures told { (IsSome (S.left source.old) → IsSome (S.left source.new)) × (IsSome (K.taken sink.old) → IsSome (K.taken sink.new)) }
    ensures slot_counts { (D.slot_count list.new ≡ D.slot_count list.old) × (D.slot_count routes.new ≡ D.slot_count routes.old) }
    ensures causes { HasRouterJobCauses (router_job (map (λ w. string_bytes w) words.now)) (slots_of (D.slot_count list.old) (D.slot_count routes.old)) (S.left source.old) result (made_on (D.events list.new) (D.events routes.new))
        (failures_of (S.faults source.old) (K.faults sink.old) (D.faults list.old) (D.faults routes.old))
        (failures_of (S.faults source.new) (K.faults sink.new) (D.faults list.new) (D.faults routes.new)) }
{
    match read_router_words(alloc, words) {
        Ok(
            RouterAsked::Script {
                version,
                slots,
                mode,
                placement,
                trace,
                large,
            },
        ) => match Router::new(alloc, slots, mode, placement, version, trace) {
            Ok(router) => {
                let mut router = router.with_large(large);
                run_router_script(&mut router, source, sink, list, routes)
            }
            Err(_) => Status::Memory,
        },
        Ok(RouterAsked::Help) => tell(sink, ROUTER_HELP, Status::Done),
        Err(WordsFault::Usage) => tell(sink, "usage\n", Status::Usage),
        Err(WordsFault::Memory) => Status::Memory,
    }
}

/// Writes a text, and answers the status that follows, which is no failure of the sink.
fn tell<K: Sink>(sink: &mut K, text: &str, last: Status) -> Status
    requires { last ≢ Status.WriteFault }
    ensures closes { ClosesRouterReport K.taken K.accepted K.faults sink.old sink.new text.now last result }
    ensures kind { (result ≡ last) ⊎ (result ≡ Status.WriteFault) }
{
    match write_text(sink, text) {
        Ok(()) => last,
        Err(Failed) => Status::WriteFault,
    }
}

//! The commit under way, action by action: its writes, its drain, and what is told of each.

ghost use Rattle.std.specs.Prelude.{⊤, ℕ, ◌≡◌, ◌≢◌, ◌+◌, ◌<◌, ◌≤◌, ◌^◌, ◌++◌, ◌∷◌, [], Bool, false, Err, None, IsSome, IsTrue, IfOk, IfSome, OnOk, OnErr, length, min};
ghost use Rattle.std.specs.List.{AllByRecursion};
ghost use Rattle.script_lines.specs.Given.{counted};
ghost use Rattle.rule_model.specs.Key.{IsKey};
ghost use Rattle.tcam_device.specs.Flight.{writes_in};
ghost use Rattle.tcam_device.specs.declared.Action.TheVariants as Action;
ghost use Rattle.tcam_device.specs.View.{HasMade, IsSameButFlight, IsUntouched, device_state, journal};
ghost use Rattle.batch_order.specs.CarriedOut.{HasRoomBothWays, IsTried};
ghost use Rattle.batch_order.specs.Managed.{IsOn};
ghost use Rattle.batch_order.specs.Steps.{KeepsCurrent, ServesNow, Steps, actions_of, awaits_drain, next_of};
ghost use Rattle.replay.specs.Effects.{drain_told, probes_told, write_told};
ghost use Rattle.replay.specs.InFlight.{AreOf, IsSeen, flight_left, found_after};
ghost use Rattle.replay.specs.Outside.{Leaves, WritesLines, outside};
ghost use Rattle.replay.specs.Fates.{IsWithinTurn, turn_due};
ghost use Rattle.replay.specs.Pausing.{MakesUntil, MakesUpTo};
ghost use Rattle.replay.specs.Making.{snapshot};

use crate::watch::{Count, Watch};
use crate::{RunFault, TRIES};
use batch_order::{Done, Manager, Step};
use report_lines::Deed;
use script_lines::{Failed, Sink};
use tcam_device::{Device, DeviceFault, ReadBack, Writable, Write};

/// How a commit of a run ends.
#[derive(Clone, Copy, Debug, PartialEq, Eq)]
pub(crate) enum Ended {
    /// All of its writes are made.
    Finished(Done),
    /// It is taken back.
    Reverted,
}

/// Makes the writes of the commit under way, which has more than so many, until that many are told, and tells each as
/// `make_until` does. A drain that is due then isn't made.
pub(crate) fn make_up_to<K: Sink, D: ReadBack>(
    manager: &mut Manager,
    watch: &Watch,
    count: &mut Count,
    after: u32,
    sink: &mut K,
    device: &mut D,
) -> Result<(), RunFault>
    requires slots { manager.old.slots ≤ (D.view device.old).slots }
    requires in_flight { AreOf (probes_told watch.now.json watch.now.probes) count.old.waiting (D.view device.old).flight }
    requires waiting { count.old.waiting ≤ watch.now.depth }
    requires held { IsSome manager.old.held }
    requires room { HasRoomBothWays manager.old.held (D.view device.old).spare }
    requires told { count.old.told ≤ after }
    requires more { IfSome manager.old.held (λ held. after < count.old.told + length (writes_in held.actions)) }
    requires few { IfSome manager.old.held (λ held. count.old.told + length (writes_in held.actions) ≤ 2 ^ 36) }
    ensures makes { (which : Bool) → MakesUpTo (IsSeen (D.view device.old).slots (D.view device.old).events (D.view device.old).flight manager.old) after watch.now (D.view device.old).slots
        (snapshot manager.old count.old (outside (D.view device.old).events (counted which (K.taken sink.old) (K.accepted sink.old))))
        (snapshot manager.new count.new (outside (D.view device.new).events (counted which (K.taken sink.new) (K.accepted sink.new)))) result }
    ensures in_flight { result ≢ Err RunFault.Sink → AreOf (probes_told watch.now.json watch.now.probes) count.new.waiting (D.view device.new).flight }
    ensures seen { result ≢ Err RunFault.Sink → IsSeen (D.view device.old).slots (D.view device.old).events (D.view device.old).flight manager.old
        → IsSeen (D.view device.new).slots (D.view device.new).events (D.view device.new).flight manager.new }
    ensures room { HasRoomBothWays manager.new.held (D.view device.new).spare }
    ensures leaves { Leaves K.taken K.faults sink.old sink.new (D.view device.old) (D.view device.new) (result ≡ Err RunFault.Sink) (result ≡ Err RunFault.Device) }
{
    match make_until(manager, watch, count, Some(after), sink, device) {
        Ok(None) => Ok(()),
        // It has more writes than these.
        Ok(Some(_)) => unreachable!(),
        Err(fault) => Err(fault),
    }
}

/// Makes the writes that are left of the commit under way, one at a time, and tells each of them, with the number
/// behind those that were told before: up to its end, or up to its turn behind so many of them where it has more, and
/// then None comes. Before its drain the words in flight are searched. `Sink` comes where a line can't be written, and
/// `Device` where a write failed each time it was tried. The words of the last writes stay in flight.
pub(crate) fn make_until<K: Sink, D: ReadBack>(
    manager: &mut Manager,
    watch: &Watch,
    count: &mut Count,
    stop: Option<u32>,
    sink: &mut K,
    device: &mut D,
) -> Result<Option<Ended>, RunFault>
    requires slots { manager.old.slots ≤ (D.view device.old).slots }
    requires in_flight { AreOf (probes_told watch.now.json watch.now.probes) count.old.waiting (D.view device.old).flight }
    requires waiting { count.old.waiting ≤ watch.now.depth }
    requires held { IsSome manager.old.held }
    requires told { IsWithinTurn stop count.old.told }
    requires room { HasRoomBothWays manager.old.held (D.view device.old).spare }
    requires few { IfSome manager.old.held (λ held. count.old.told + length (writes_in held.actions) ≤ 2 ^ 36) }
    ensures makes { (which : Bool) → MakesUntil (IsSeen (D.view device.old).slots (D.view device.old).events (D.view device.old).flight manager.old) stop watch.now (D.view device.old).slots
        (snapshot manager.old count.old (outside (D.view device.old).events (counted which (K.taken sink.old) (K.accepted sink.old))))
        (snapshot manager.new count.new (outside (D.view device.new).events (counted which (K.taken sink.new) (K.accepted sink.new)))) result }
    ensures in_flight { result ≢ Err RunFault.Sink → AreOf (probes_told watch.now.json watch.now.probes) count.new.waiting (D.view device.new).flight }
    ensures seen { result ≢ Err RunFault.Sink → IsSeen (D.view device.old).slots (D.view device.old).events (D.view device.old).flight manager.old
        → IsSeen (D.view device.new).slots (D.view device.new).events (D.view device.new).flight manager.new }
    ensures serves { IfOk result (λ ended. IsSome ended → ServesNow manager.new) }
    ensures room { HasRoomBothWays manager.new.held (D.view device.new).spare }
    ensures leaves { Leaves K.taken K.faults sink.old sink.new (D.view device.old) (D.view device.new) (result ≡ Err RunFault.Sink) (result ≡ Err RunFault.Device) }
{
    'making: loop {
        if stops_here(manager, stop, count.told) {
            return Ok(None);
        }
        let deed = watch.next_deed(manager, device);
        match step_tried(manager, device) {
            Ok(Step::Wrote(write)) => match tell_write(watch, count, &deed, &write, sink, device) {
                Ok(()) => {}
                Err(Failed) => return Err(RunFault::Sink),
            },
            Ok(Step::Waiting(_)) => {
                match watch.search_all(count, sink, device) {
                    Ok(()) => {}
                    Err(Failed) => return Err(RunFault::Sink),
                }
                pass_drain(manager, device);
                match tell_drain(watch, count, sink) {
                    Ok(()) => {}
                    Err(Failed) => return Err(RunFault::Sink),
                }
            }
            Ok(Step::Drained) => match tell_drain(watch, count, sink) {
                Ok(()) => {}
                Err(Failed) => return Err(RunFault::Sink),
            },
            Ok(Step::Finished(done)) => return Ok(Some(Ended::Finished(done))),
            Ok(Step::Reverted(_)) => return Ok(Some(Ended::Reverted)),
            // A commit is under way.
            Ok(Step::Idle) => unreachable!(),
            Err(DeviceFault) => return Err(RunFault::Device),
        }
    }
}

// Whether a commit has made as many writes as come before its turn, and has more to make.
fn stops_here(manager: &Manager, stop: Option<u32>, told: u64) -> bool
    ensures { result ≡ turn_due stop told manager.now.held }
{
    let Some(after) = stop else {
        return false;
    };
    let Some(left) = manager.left() else {
        return false;
    };
    told >= u64::from(after) && left > 0
}

// Counts a write that was made, and tells of it and of the probes that are searched then.
fn tell_write<K: Sink, D: Device>(
    watch: &Watch,
    count: &mut Count,
    deed: &Option<Deed>,
    write: &Write,
    sink: &mut K,
    device: &mut D,
) -> Result<(), Failed>
    requires words { AreOf (probes_told watch.now.json watch.now.probes) count.old.waiting (D.view device.old).flight }
    requires few { count.old.waiting ≤ watch.now.depth }
    requires told { count.old.told < 2 ^ 36 }
    ensures told { count.new.told ≡ count.old.told + 1 }
    ensures waiting { count.new.waiting ≡ min (count.old.waiting + 1) watch.now.depth }
    ensures lines { WritesLines K.taken K.accepted K.faults sink.old sink.new
        (write_told watch.now.json watch.now.trace watch.now.family (count.old.told + 1) deed.now write.now ++ found_after watch.now.family (probes_told watch.now.json watch.now.probes) watch.now.depth (count.old.told + 1) count.old.waiting (device_state (D.view device.old)) (D.view device.old).flight) result }
    ensures flight { OnOk result ((D.view device.new).flight ≡ flight_left (probes_told watch.now.json watch.now.probes) watch.now.depth count.old.waiting (device_state (D.view device.old)) (D.view device.old).flight) }
    ensures keys { AllByRecursion IsKey (probes_told watch.now.json watch.now.probes) }
    ensures others { IsSameButFlight (D.view device.old) (D.view device.new) }
{
    let waiting = count.waiting;
    count.told += 1;
    if waiting < watch.depth() {
        count.waiting += 1;
    }
    watch.tell(count.told, waiting, deed, write, sink, device)
}

// Tells of a drain that was made: no word is in flight behind it.
fn tell_drain<K: Sink>(watch: &Watch, count: &mut Count, sink: &mut K) -> Result<(), Failed>
    ensures told { count.new.told ≡ count.old.told }
    ensures waiting { count.new.waiting ≡ 0 }
    ensures lines { WritesLines K.taken K.accepted K.faults sink.old sink.new (drain_told watch.now.json watch.now.trace count.old.told) result }
{
    count.waiting = 0;
    watch.tell_drain(count.told, sink)
}

// Makes the drain that is next, with no word in flight.
fn pass_drain<D: Writable>(manager: &mut Manager, device: &mut D)
    requires slots { manager.old.slots ≤ (D.view device.old).slots }
    requires drain { IsTrue (awaits_drain manager.old.held) }
    requires none_in_flight { (D.view device.old).flight ≡ [] }
    requires room { HasRoomBothWays manager.old.held (D.view device.old).spare }
    ensures stepped { Steps manager.old 0 manager.old.held Step.Drained manager.new }
    ensures made { HasMade (Action.Drained ∷ []) (D.view device.old) (D.view device.new) }
    ensures room { HasRoomBothWays manager.new.held (D.view device.new).spare }
    ensures faults { (D.view device.new).faults ≡ (D.view device.old).faults }
    ensures stays_on { IsOn (D.view device.old).slots (journal (D.view device.old)) manager.old → IsOn (D.view device.new).slots (journal (D.view device.new)) manager.new }
{
    match manager.step(device) {
        Ok(_) => {}
        Err(DeviceFault) => unreachable!(),
    }
}

// Takes the next step of the commit under way. A write that fails is tried again at once, `TRIES` times in all; an Err
// says that each of them failed, and nothing has changed then.
fn step_tried<D: Writable>(manager: &mut Manager, device: &mut D) -> Result<Step, DeviceFault>
    requires slots { manager.old.slots ≤ (D.view device.old).slots }
    requires room { HasRoomBothWays manager.old.held (D.view device.old).spare }
    ensures stepped { IfOk result (λ step. Steps manager.old (length (D.view device.old).flight) manager.old.held step manager.new) }
    ensures keeps { IfOk result (λ step. KeepsCurrent manager.old step manager.new) }
    ensures serves { OnOk result (ServesNow manager.new) }
    ensures stays_on { IsOn (D.view device.old).slots (journal (D.view device.old)) manager.old → IsOn (D.view device.new).slots (journal (D.view device.new)) manager.new }
    ensures made { IfOk result (λ step. HasMade (actions_of step) (D.view device.old) (D.view device.new)) }
    ensures room { HasRoomBothWays manager.new.held (D.view device.new).spare }
    ensures failed { OnErr result (manager.new ≡ manager.old) }
    ensures unmade { OnErr result (IsUntouched (D.view device.old) (D.view device.new)) }
    ensures due { OnErr result (IsSome (next_of manager.old.held)) }
    ensures tried { IfOk result (λ step. IsTried 4 (length (writes_in (actions_of step))) ⊥ (D.view device.old).faults (D.view device.new).faults) }
    ensures tried_err { OnErr result (IsTried 4 0 ⊤ (D.view device.old).faults (D.view device.new).faults) }
{
    let mut failures = 0;
    'trying: loop {
        match manager.step(device) {
            Ok(step) => {
                let _rules = manager.rules();
                return Ok(step);
            }
            Err(DeviceFault) => {
                failures += 1;
                if failures == TRIES {
                    return Err(DeviceFault);
                }
            }
        }
    }
}

//! One table's part of a commit is carried out, told where a trace is wanted, and its drains are counted.

ghost use Rattle.std.specs.Prelude.{◌≡◌, ◌^◌, ◌<◌, ◌≤◌, Bool, Err, IsSome, IfOk, IfErr, length};
ghost use Rattle.call_history.specs.Cause.{IsCounted};
ghost use Rattle.script_lines.specs.Given.{counted};
ghost use Rattle.split_device.specs.Flight.{no_flight, written};
ghost use Rattle.split_order.specs.Left.{left_of};
ghost use Rattle.router.specs.Run.{drains_in};
ghost use Rattle.router.specs.Carried.{IsCarriedTo, LeavesDevice, StopsAt, TellsParts};

use crate::TRIES;
use crate::report::{PartsTold, tell_action};
use script_lines::{Failed, Sink};
use split_device::{SplitAction, SplitDevice};
use split_order::{SplitManager, SplitStep};
use tcam_device::DeviceFault;

/// What stopped a table's part of a commit.
#[derive(Clone, Copy, Debug, PartialEq, Eq)]
pub(crate) enum Halt {
    /// One part failed at each try.
    Device,
    /// The sink refused a line of the trace.
    Sink,
}

/// Makes all parts and drains that are left of the commit under way, each part tried up to `TRIES` times and each told by a
/// line where a trace is wanted, and answers how many drains there were. `Device` says that one part failed at each try:
/// those before it were made and told, and it is next. `Sink` says that a line was refused: that of the last part or drain
/// that was made, of which a part was taken, perhaps none or all of it.
pub(crate) fn carry<D: SplitDevice, K: Sink>(
    manager: &mut SplitManager,
    device: &mut D,
    telling: &PartsTold,
    sink: &mut K,
) -> Result<u64, Halt>
    requires slots { manager.old.whole.slots ≤ D.slot_count device.old }
    requires room { length (left_of (D.slot_count device.old) manager.old) ≤ D.spare device.old }
    requires few { drains_in (left_of (D.slot_count device.old) manager.old) < 2 ^ 43 }
    requires few_parts { length (written (left_of (D.slot_count device.old) manager.old)) ≤ 2 ^ 41 }
    requires none_in_flight { D.flight device.old ≡ no_flight }
    ensures carried { IfOk result (λ drains. IsCarriedTo (D.slot_count device.old) manager.old drains manager.new (D.events device.old) (D.events device.new)) }
    ensures small { IfOk result (λ drains. drains < 2 ^ 43) }
    ensures stopped { IfErr result (λ why. StopsAt why (D.slot_count device.old) manager.old manager.new (D.events device.old) (D.events device.new)) }
    ensures lines { (which : Bool) → TellsParts telling.now.trace telling.now.version telling.now.side (D.events device.old) (D.events device.new)
        (counted which (K.taken sink.old) (K.accepted sink.old)) (counted which (K.taken sink.new) (K.accepted sink.new)) result }
    ensures device { LeavesDevice D.slot_count D.events D.flight D.faults device.old device.new (result ≡ Err Halt.Device) }
    ensures told { IsSome (K.taken sink.old) → IsSome (K.taken sink.new) }
    ensures cause { IsCounted (result ≡ Err Halt.Sink) (K.faults sink.old) (K.faults sink.new) }
{
    let mut failures = 0;
    let mut drains = 0;
    let mut parts = 0;
    'carrying: loop {
        match manager.step(device) {
            Ok(SplitStep::Wrote(part)) => {
                failures = 0;
                parts += 1;
                match tell_action(sink, telling, parts, &SplitAction::Written(part)) {
                    Ok(()) => {}
                    Err(Failed) => return Err(Halt::Sink),
                }
            }
            Ok(SplitStep::Drained) => {
                drains += 1;
                match tell_action(sink, telling, parts, &SplitAction::Drained) {
                    Ok(()) => {}
                    Err(Failed) => return Err(Halt::Sink),
                }
            }
            Ok(SplitStep::Finished(_)) => return Ok(drains),
            Ok(SplitStep::Idle) => {
                manager.serving();
                return Ok(drains);
            }
            // Nothing is in flight.
            Ok(SplitStep::Waiting(_)) => unreachable!(),
            Err(DeviceFault) => {
                failures += 1;
                if failures == TRIES {
                    return Err(Halt::Device);
                }
            }
        }
    }
}

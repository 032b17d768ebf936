//! How far a commit came, by the slots of the device alone.

ghost use Rattle.std.specs.Prelude.{◌≡◌, ◌<◌, ◌^◌, IfOk, IfErr, length};
ghost use Rattle.tcam_device.specs.State.{State};
ghost use Rattle.readback.specs.declared.StageFault.TheVariants as faults;
ghost use Rattle.readback.specs.Places.{AreIn};
ghost use Rattle.readback.specs.Sorted.{AreSorted, IsSlotFault};
ghost use Rattle.readback.specs.Tasks.{known_pieces};

use crate::commit::Commit;
use crate::crossing::crossed;
use crate::doubled::twin_of;
use crate::foreign::foreign_slot;
use crate::missing::missing;
use crate::progress::{Progress, count_tasks};
use crate::{Stage, StageFault};
use commit_writes::Ranked;
use rule_model::Entry;

/// How far a commit came by what the slots hold, of which so many are in use, and which piece each holds. What is wrong
/// is looked for in this order: an entry of no piece, one behind a lower one that it overlaps, one that stands once too
/// often, a piece that is missing, and a task that is done out of its turn.
pub(crate) fn find_in(
    slots: u32,
    held: &[Option<Entry>],
    places: &[Option<Ranked>],
    commit: &Commit,
) -> Result<Stage, StageFault>
    requires few { length held.now < 2 ^ 32 }
    requires places { AreIn held.now (known_pieces commit.now) places.now }
    ensures found { IfOk result (λ found. AreSorted slots held.now commit.now found) }
    ensures fault { IfErr result (λ fault. (state : State) → state.slots ≡ held.now → IsSlotFault slots commit.now state fault) }
{
    if let Some(slot) = foreign_slot(slots, held, places) {
        return Err(StageFault::Foreign { slot });
    }
    if let Some(slot) = crossed(places) {
        return Err(StageFault::Crossed { slot });
    }
    let twin = match twin_of(held) {
        Ok(twin) => twin,
        Err(slot) => return Err(StageFault::Twin { slot }),
    };
    if let Some(priority) = missing(held, commit) {
        return Err(StageFault::Gap { priority });
    }
    match count_tasks(held, commit) {
        Ok(came) => numbers(came, twin),
        Err(priority) => Err(StageFault::Gap { priority }),
    }
}

/// The numbers of a stage. A commit has far fewer tasks than a `u32` counts.
fn numbers(came: Progress, twin: Option<u32>) -> Result<Stage, StageFault>
    ensures done { IfOk result (λ found. found.done ≡ came.done) }
    ensures left { IfOk result (λ found. found.left ≡ came.left) }
    ensures twin { IfOk result (λ found. found.twin ≡ twin) }
    ensures full { IfErr result (λ fault. fault ≡ faults.Memory) }
{
    match (u32::try_from(came.done), u32::try_from(came.left)) {
        (Ok(done), Ok(left)) => Ok(Stage { done, left, twin }),
        _ => Err(StageFault::Memory),
    }
}

//! The manager's calls over memory that the caller writes.

ghost use Rattle.std.specs.Prelude.{◌≡◌, ◌++◌, [], IfOk, IfSome, IsSome, OnErr, length};
ghost use Rattle.tcam_device.specs.State.{IsInUse, replay};
ghost use Rattle.tcam_device.specs.Flight.{writes_in};
ghost use Rattle.batch_order.specs.Managed.{Judges, Serves, IsOn};
ghost use Rattle.batch_order.specs.CarriedOut.{HasRoomBothWays};
ghost use Rattle.batch_order.specs.Steps.{next_of};
ghost use Rattle.tcam_c.specs.Driven.{IsHandled, KeepsLive, KeepsWayBack, KeepsWords, Plans, TakesBack, due_actions, due_of, passed_of, settled, stepped_of, kind_of_due};

use crate::outside::Outside;
use batch_order::{AbortFault, Done, Manager, Refusal};
use memory_tcam::Shadowed;
use rule_store::Batch;
use tcam_device::{Action, DeviceFault};

/// Has a batch judged and planned. A plan with nothing to make has finished.
pub(crate) fn prepare(
    manager: &mut Manager,
    batch: &Batch,
    device: &mut Shadowed<Outside>,
) -> Result<Done, Refusal>
    requires driven { IsHandled manager.old device.old.slots device.old.events device.old.flight device.old.spare }
    ensures judged { Judges manager.old manager.old.held batch.now result }
    ensures ready { IfOk result (λ counts. Plans manager.old batch.now counts manager.new) }
    ensures refused { OnErr result (manager.new ≡ manager.old) }
    ensures keeps { KeepsLive manager.old manager.new }
    ensures events { device.new.events ≡ device.old.events }
    ensures driven { IsHandled manager.new device.new.slots device.new.events device.new.flight device.new.spare }
    ensures before { Serves (replay manager.old.slots (writes_in device.old.events)) manager.old.rules manager.old.held }
    ensures serves { Serves (replay manager.new.slots (writes_in device.new.events)) manager.new.rules manager.new.held }
{
    match manager.prepare(batch, device) {
        Ok(counts) => {
            settle(manager, device);
            Ok(counts)
        }
        Err(refusal) => Err(refusal),
    }
}

/// Turns the commit under way round. With no write made it is over at once.
pub(crate) fn abort(
    manager: &mut Manager,
    device: &mut Shadowed<Outside>,
) -> Result<u64, AbortFault>
    requires driven { IsHandled manager.old device.old.slots device.old.events device.old.flight device.old.spare }
    ensures aborts { TakesBack manager.old result manager.new }
    ensures keeps { KeepsLive manager.old manager.new }
    ensures back { KeepsWayBack manager.old manager.new }
    ensures events { device.new.events ≡ device.old.events }
    ensures driven { IsHandled manager.new device.new.slots device.new.events device.new.flight device.new.spare }
    ensures serves { Serves (replay manager.new.slots (writes_in device.new.events)) manager.new.rules manager.new.held }
{
    let turned = manager.abort();
    settle(manager, device);
    turned
}

/// What is due of a commit under way, forward or back: its next write, or its drain. None comes where it has nothing
/// left, and where no commit is under way.
pub(crate) fn due(manager: &Manager) -> Option<Action>
    ensures due { result ≡ due_of manager.now.held }
    ensures in_use { IfSome (next_of manager.now.held) (IsInUse manager.now.slots) }
    ensures size { length manager.now.state.slots ≡ manager.now.slots }
{
    match manager.next_write() {
        Some(write) => Some(Action::Written(write)),
        None => {
            if manager.drains_next() {
                Some(Action::Drained)
            } else {
                None
            }
        }
    }
}

/// What kind of thing is due.
#[derive(Clone, Copy)]
pub(crate) enum DueKind {
    /// No commit is under way, or it has nothing left.
    Nothing,
    /// A write, which the caller makes.
    Write,
    /// A drain, for which the caller waits.
    Drain,
}

/// What kind of thing is due, which takes less than to say what.
#[tactic(auto, using(crate::proofs::Ways::left_due, crate::proofs::Ways::some_left))]
pub(crate) fn kind_due(manager: &Manager) -> DueKind
    ensures { result ≡ kind_of_due (due_of manager.now.held) }
{
    if manager.drains_next() {
        return DueKind::Drain;
    }
    match manager.left() {
        None | Some(0) => DueKind::Nothing,
        Some(_) => DueKind::Write,
    }
}

/// The write or the drain that is due was made: what comes behind it is due then, or the commit has come to its end.
pub(crate) fn go_on(manager: &mut Manager, device: &mut Shadowed<Outside>)
    requires driven { IsHandled manager.old device.old.slots device.old.events device.old.flight device.old.spare }
    requires due { IsSome (due_of manager.old.held) }
    ensures made { manager.new ≡ passed_of manager.old.held manager.old }
    ensures back { KeepsWayBack manager.old manager.new }
    ensures keeps { KeepsWords (due_of manager.old.held) manager.old manager.new }
    ensures events { device.new.events ≡ device.old.events ++ due_actions (due_of manager.old.held) }
    ensures driven { IsHandled manager.new device.new.slots device.new.events device.new.flight device.new.spare }
    ensures serves { Serves (replay manager.new.slots (writes_in device.new.events)) manager.new.rules manager.new.held }
{
    advance(manager, device);
    settle(manager, device);
}

/// A commit under way that has nothing left comes to its end, forward or back.
pub(crate) fn settle(manager: &mut Manager, device: &mut Shadowed<Outside>)
    requires slots { device.old.slots ≡ manager.old.slots }
    requires on { IsOn manager.old.slots (writes_in device.old.events) manager.old }
    requires room { HasRoomBothWays manager.old.held device.old.spare }
    requires still { device.old.flight ≡ [] }
    ensures settled { manager.new ≡ settled manager.old }
    ensures back { KeepsWayBack manager.old manager.new }
    ensures keeps { KeepsLive manager.old manager.new }
    ensures events { device.new.events ≡ device.old.events }
    ensures driven { IsHandled manager.new device.new.slots device.new.events device.new.flight device.new.spare }
    ensures serves { Serves (replay manager.new.slots (writes_in device.new.events)) manager.new.rules manager.new.held }
{
    manager.serving();
    if let DueKind::Nothing = kind_due(manager) {
        advance(manager, device);
    }
}

/// The manager's next step over memory in which what is due was made. No word is in flight, so a drain never waits.
fn advance(manager: &mut Manager, device: &mut Shadowed<Outside>)
    requires slots { device.old.slots ≡ manager.old.slots }
    requires on { IsOn manager.old.slots (writes_in device.old.events) manager.old }
    requires room { HasRoomBothWays manager.old.held device.old.spare }
    requires still { device.old.flight ≡ [] }
    ensures stepped { manager.new ≡ stepped_of manager.old.held manager.old }
    ensures back { KeepsWayBack manager.old manager.new }
    ensures keeps { KeepsWords (due_of manager.old.held) manager.old manager.new }
    ensures events { device.new.events ≡ device.old.events ++ due_actions (due_of manager.old.held) }
    ensures slots { device.new.slots ≡ manager.new.slots }
    ensures on { IsOn manager.new.slots (writes_in device.new.events) manager.new }
    ensures room { HasRoomBothWays manager.new.held device.new.spare }
    ensures still { device.new.flight ≡ [] }
    ensures serves { Serves (replay manager.new.slots (writes_in device.new.events)) manager.new.rules manager.new.held }
{
    let _before = device.hardware();
    let step = manager.step(device);
    let _after = device.hardware();
    match step {
        Ok(_) => {}
        Err(DeviceFault) => unreachable!(),
    }
}

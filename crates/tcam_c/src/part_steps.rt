//! The calls of the manager of split results over memory that the caller writes.

ghost use Rattle.std.specs.Prelude.{◌≡◌, IfOk, OnErr};
ghost use Rattle.split_order.specs.Prepared.{JudgesSplit};
ghost use Rattle.tcam_c.specs.Driven.{IsDue, KeepsLive};
ghost use Rattle.tcam_c.specs.Split.{IsServingSplit, IsSplitHandled, IsUnsettled, PassesDue, PassesTo, PlansParts, kind_of_part, part_due, parts_left, settled_split};

use crate::outside::Outside;
use batch_order::Refusal;
use rule_store::Batch;
use split_hardware::SplitShadowed;
use split_order::SplitManager;
use split_writes::SplitDone;
use tcam_device::DeviceFault;

/// Has a batch judged and planned. A plan with nothing to make has finished.
pub(crate) fn prepare(
    manager: &mut SplitManager,
    batch: &Batch,
    device: &mut SplitShadowed<Outside>,
) -> Result<SplitDone, Refusal>
    requires { IsSplitHandled manager.old device.old.slots device.old.events device.old.flight device.old.spare }
    ensures judged { JudgesSplit manager.old.whole.slots manager.old manager.old.whole.held batch.now result }
    ensures ready { IfOk result (λ counts. PlansParts manager.old batch.now counts manager.new) }
    ensures refused { OnErr result (manager.new ≡ manager.old) }
    ensures keeps { KeepsLive manager.old.whole manager.new.whole }
    ensures driven { IsSplitHandled manager.new device.new.slots device.new.events device.new.flight device.new.spare }
    ensures before { IsServingSplit manager.old }
    ensures serves { IsServingSplit manager.new }
{
    manager.serving();
    match manager.prepare(batch, device) {
        Ok(counts) => {
            settle(manager, device);
            Ok(counts)
        }
        Err(refusal) => Err(refusal),
    }
}

/// The part or the drain that is due was made: what comes behind it is due then, or the commit has come to its end.
pub(crate) fn go_on(manager: &mut SplitManager, device: &mut SplitShadowed<Outside>)
    requires driven { IsSplitHandled manager.old device.old.slots device.old.events device.old.flight device.old.spare }
    requires due { IsDue (kind_of_part (part_due manager.old)) }
    ensures on { PassesDue (part_due manager.old) manager.old manager.new }
    ensures driven { IsSplitHandled manager.new device.new.slots device.new.events device.new.flight device.new.spare }
    ensures serves { IsServingSplit manager.new }
{
    advance(manager, device);
    settle(manager, device);
}

/// A commit under way that has nothing left comes to its end.
fn settle(manager: &mut SplitManager, device: &mut SplitShadowed<Outside>)
    requires { IsUnsettled manager.old device.old.slots device.old.events device.old.flight device.old.spare }
    ensures settled { manager.new ≡ settled_split manager.old }
    ensures keeps { KeepsLive manager.old.whole manager.new.whole }
    ensures driven { IsSplitHandled manager.new device.new.slots device.new.events device.new.flight device.new.spare }
    ensures serves { IsServingSplit manager.new }
{
    manager.serving();
    match manager.next_action() {
        None => advance(manager, device),
        Some(_) => {}
    }
}

/// The manager's next step over memory in which what is due was made. Nothing is in flight, so a drain never waits.
fn advance(manager: &mut SplitManager, device: &mut SplitShadowed<Outside>)
    requires { IsUnsettled manager.old device.old.slots device.old.events device.old.flight device.old.spare }
    ensures passed { PassesTo (parts_left manager.old) manager.old manager.new }
    ensures driven { IsUnsettled manager.new device.new.slots device.new.events device.new.flight device.new.spare }
    ensures serves { IsServingSplit manager.new }
{
    let _before = device.hardware();
    let step = manager.step(device);
    let _after = device.hardware();
    manager.serving();
    match step {
        Ok(_) => {}
        Err(DeviceFault) => unreachable!(),
    }
}

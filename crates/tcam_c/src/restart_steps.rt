//! The manager's restart over a memory that holds what the caller's does.

ghost use Rattle.std.specs.Prelude.{◌≡◌, IfOk};
ghost use Rattle.tcam_device.specs.State.{replay};
ghost use Rattle.tcam_device.specs.Flight.{writes_in};
ghost use Rattle.batch_order.specs.Managed.{Serves};
ghost use Rattle.tcam_c.specs.Driven.{IsHandled};
ghost use Rattle.tcam_c.specs.Restart.{IsRestartSettled};
ghost use Rattle.tcam_c.specs.Told.{IsAccount};

use crate::outside::Outside;
use crate::steps::settle;
use batch_order::{Manager, Mode, Placement, RestartFault};
use memory_tcam::Shadowed;
use readback::Parts;
use rule_store::Batch;
use std::alloc::Global;
use tcam_device::Writable;

/// A manager that goes on with the commit of a batch that the memory shows. One that has nothing left has finished.
pub(crate) fn restart(
    alloc: Global,
    mode: Mode,
    placement: Placement,
    parts: Parts,
    batch: &Batch,
    device: &mut Shadowed<Outside>,
) -> Result<Manager, (RestartFault, Parts)>
    requires { IsAccount device.old.slots mode device.old.events device.old.flight }
    ensures settled { IsRestartSettled device.old.slots mode placement parts batch.now (replay device.old.slots (writes_in device.old.events)) result }
    ensures driven { IfOk result (λ manager. IsHandled manager device.new.slots device.new.events device.new.flight device.new.spare) }
    ensures serves { IfOk result (λ manager. Serves (replay manager.slots (writes_in device.new.events)) manager.rules manager.held) }
    ensures events { device.new.events ≡ device.old.events }
    ensures slots { device.new.slots ≡ device.old.slots }
    ensures flight { device.new.flight ≡ device.old.flight }
{
    let slots = device.slots();
    match Manager::restart(alloc, slots, mode, placement, parts, batch, device) {
        Ok(mut manager) => {
            settle(&mut manager, device);
            Ok(manager)
        }
        Err(refused) => Err(refused),
    }
}

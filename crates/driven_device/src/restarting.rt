//! What a manager leaves of itself beside its device, and another one that goes on over the device.
ghost use Rattle.std.specs.Prelude.{◌≡◌, ◌↔◌, Ok, IfErr, IfOk, IsTrue, OnOk};
ghost use Rattle.rule_store.specs.declared.Mode.TheVariants as modes;
ghost use Rattle.tcam_device.specs.State.{blank_table, table_of};
ghost use Rattle.tcam_device.specs.View.{IsSameButSpare, device_state};
ghost use Rattle.readback.specs.Fault.{AreSetBits};
ghost use Rattle.batch_order.specs.CarriedOut.{GoesForward};
ghost use Rattle.batch_order.specs.Managed.{HasBlankTables, Serves};
ghost use Rattle.batch_order.specs.Restart.{AnswersRestart, ArePartsOf, bits_in};
ghost use Rattle.driven_device.specs.Driven.{CanHave, IsRestartedFault};

use crate::driven::can_have;
use crate::{Driven, RestartedFault};
use batch_order::{Field, Manager, Mode, Placement};
use readback::Parts;
use rule_store::Batch;
use std::alloc::Global;
use tcam_device::{Device, ReadBack};

impl<D: Device> Driven<D> {
    /// What the manager leaves of itself, the rules of its set and their live port ranges, while a commit is under way those
    /// of the old set; and the device, as it is. By covers its tables are blank, as a restart asks.
    pub fn into_parts(self) -> (Parts, D)
        ensures parts { ArePartsOf self.manager result.0 }
        ensures set_bits { AreSetBits self.manager.mode self.manager.rules (bits_in result.0) }
        ensures plain { self.manager.mode ≡ modes.Cover → HasBlankTables (device_state self.device) }
        ensures device { D.view result.1 ≡ self.device }
    {
        let parts = self.manager.into_parts();
        let device = self.device;
        (parts, device)
    }
}

impl<D: ReadBack> Driven<D> {
    /// Goes on with a batch's commit that was stopped, over the device as it was left: by what the old set's manager left
    /// of itself, and with the slots in use and the mode that it had. The manager holds the plan that goes on from what the
    /// device shows, and `step` and `carry_out` make its writes. It can't be turned round.
    ///
    /// `Slots` comes exactly where that isn't 1 to `MOST_SLOTS` slots, or the device hasn't them, then `Tables` exactly where by
    /// covers a word of a table isn't 0. Else it is refused as `Manager::restart` is: `Refused` exactly where the rules alone
    /// refuse the batch, and `Stage` by what is wrong with the parts and the device. Parts and device come back as they were.
    pub fn restart(
        alloc: Global,
        slots: u32,
        mode: Mode,
        placement: Placement,
        parts: Parts,
        batch: &Batch,
        mut device: D,
    ) -> Result<Driven<D>, (RestartedFault, Parts, D)>
        ensures answers { IfOk result (λ driven. AnswersRestart slots mode placement parts batch.now (D.view device).slots (device_state (D.view device)) (Ok driven.manager)) }
        ensures forward { IfOk result (λ driven. GoesForward driven.manager.held) }
        ensures others { IfOk result (λ driven. IsSameButSpare (D.view device) driven.device) }
        ensures in_use { OnOk result (CanHave slots (D.view device).slots) }
        ensures plain { OnOk result (mode ≡ modes.Cover → HasBlankTables (device_state (D.view device))) }
        ensures serves { IfOk result (λ driven. Serves (device_state driven.device) driven.manager.rules driven.manager.held) }
        ensures fault { IfErr result (λ refused. IsRestartedFault slots mode placement parts batch.now (D.view device) refused.0) }
        ensures parts { IfErr result (λ refused. refused.1 ≡ parts) }
        ensures device { IfErr result (λ refused. IsSameButSpare (D.view device) (D.view refused.2)) }
    {
        if !can_have(slots, device.slots()) {
            return Err((RestartedFault::Slots(slots), parts, device));
        }
        if !takes_tables(mode, &device) {
            return Err((RestartedFault::Tables, parts, device));
        }
        match Manager::restart(alloc, slots, mode, placement, parts, batch, &mut device) {
            Ok(manager) => Ok(Driven { manager, device }),
            Err((fault, back)) => Err((RestartedFault::Restart(fault), back, device)),
        }
    }
}

/// Whether the tables may hold what they do: by covers each of their words is 0.
fn takes_tables<D: ReadBack>(mode: Mode, device: &D) -> bool
    ensures { IsTrue result ↔ (mode ≡ modes.Cover → HasBlankTables (device_state (D.view device.now))) }
{
    match mode {
        Mode::Cover => has_blank_tables(device),
        Mode::Bits => true,
    }
}

/// Whether each word of both tables is 0.
fn has_blank_tables<D: ReadBack>(device: &D) -> bool
    ensures { IsTrue result ↔ HasBlankTables (device_state (D.view device.now)) }
{
    if !is_blank(device, Field::Src) {
        return false;
    }
    is_blank(device, Field::Dst)
}

/// Whether each word of a field's table is 0.
fn is_blank<D: ReadBack>(device: &D, field: Field) -> bool
    ensures { IsTrue result ↔ (table_of field (device_state (D.view device.now)) ≡ blank_table) }
{
    for port in 0..65_536u32 {
        if device.read_word(field, port as u16) != 0 {
            return false;
        }
    }
    true
}

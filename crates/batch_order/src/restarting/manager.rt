//! What a manager leaves of itself, and a manager that goes on with a commit that another one began.

ghost use Rattle.std.specs.Prelude.{◌≡◌, ◌≤◌, IfOk};
ghost use Rattle.rule_store.specs.declared.Mode.TheVariants as modes;
ghost use Rattle.tcam_device.specs.View.{IsSameButSpare, device_state, journal};
ghost use Rattle.commit_writes.specs.Bits as live_bits;
ghost use Rattle.readback.specs.Fault.{AreSetBits};
ghost use Rattle.batch_order.specs.CarriedOut.{GoesForward, HasRoomBothWays, HasRoomLeft};
ghost use Rattle.batch_order.specs.Managed.{HasBlankTables, IsOn, Serves};
ghost use Rattle.batch_order.specs.Restart.{AnswersRestart, ArePartsOf, bits_in};

use crate::Placement;
use crate::manager::Manager;
use crate::restarting::fault::RestartFault;
use crate::restarting::resuming::resume;
use crate::restarting::words::maps_of;
use crate::translation::encoding;
use range_bits::BitMap;
use readback::{Parts, StageFault, show_commit, verdict};
use rule_store::{Batch, Mode};
use slot_order::MOST_SLOTS;
use std::alloc::{AllocError, Global};
use tcam_device::ReadBack;

impl Manager {
    /// The live port ranges of the set by their bits, those of the source field and those of the destination's: none by
    /// covers, and while a commit is under way those of the old set. A driver keeps them beside the rules and the batch
    /// in hand, where a crash leaves them: they are the parts that a restart asks for.
    pub fn bits(&self) -> (BitMap, BitMap)
        ensures { ◌≡◌ {A = live_bits.FieldBits} (record { src = result.0; dst = result.1 }) self.now.bits }
    {
        maps_of(&self.translation)
    }

    /// What another manager needs, beside the parts, to go on like this one: its slots, its encoding and its placement.
    pub fn setting(&self) -> (u32, Mode, Placement)
        ensures slots { result.0 ≡ self.now.slots }
        ensures mode { result.1 ≡ self.now.mode }
        ensures placement { result.2 ≡ self.now.placement }
    {
        let slots = self.planned.slots();
        (slots, encoding(&self.translation), self.placement)
    }

    /// What is left of a manager: the rules of its set and their live port ranges, while a commit is under way those of
    /// the old set. It takes no memory. By covers the manager has left the tables of its device blank, as a restart
    /// asks.
    pub fn into_parts(self) -> Parts
        ensures parts { ArePartsOf self result }
        ensures set_bits { AreSetBits self.mode self.rules (bits_in result) }
        ensures plain { self.mode ≡ modes.Cover → HasBlankTables self.state }
    {
        let (src, dst) = maps_of(&self.translation);
        Parts {
            rules: self.rules,
            src,
            dst,
        }
    }

    /// A manager over a device that was stopped in the middle of a batch's commit, by the parts of the old set's
    /// manager, with the slots in use and the encoding that it had: 1 to `MOST_SLOTS` slots, which the device has. By covers
    /// no word of the device's tables may have a bit, as every manager by covers leaves them. No entry tests such a bit,
    /// and a stage may be found whatever the tables hold; but the manager keeps none, so it takes them to be blank, and
    /// promises that the device holds what it takes it to hold (`IsOn`).
    ///
    /// It holds the plan that goes on from what the device shows: the words of the tables that differ come first, then
    /// the erase of an entry that stands twice, and then what is left of the commit, as `prepare` plans it and by the
    /// same placement. The device is reserved for twice the writes and a drain. `step` and `carry_out` make them; the
    /// plan can't be turned round, since what stood before the commit is known to nobody.
    ///
    /// `Refused` is tried first, and comes exactly where the rules alone refuse the batch. Then `Stage` tells what is wrong
    /// with the parts and the device, in the order of `readback::find_stage`: `BitsDiffer`, where the live ranges aren't
    /// those of the rules, and what keeps the device from showing a stage of the commit. Its `Memory` may come before any
    /// of these. With each fault the parts come back as they were. The device stays as it is in each case.
    pub fn restart<D: ReadBack>(
        alloc: Global,
        slots: u32,
        mode: Mode,
        placement: Placement,
        parts: Parts,
        batch: &Batch,
        device: &mut D,
    ) -> Result<Manager, (RestartFault, Parts)>
        requires least { 1 ≤ slots }
        requires most { slots ≤ MOST_SLOTS }
        requires slots { slots ≤ (D.view device.old).slots }
        requires plain { mode ≡ modes.Cover → HasBlankTables (device_state (D.view device.old)) }
        ensures answers { AnswersRestart slots mode placement parts batch.now (D.view device.old).slots (device_state (D.view device.old)) result }
        ensures on { IfOk result (IsOn (D.view device.new).slots (journal (D.view device.new))) }
        ensures serves { IfOk result (λ manager. Serves (device_state (D.view device.new)) manager.rules manager.held) }
        ensures reserved { IfOk result (λ manager. HasRoomLeft manager.held (D.view device.new).spare) }
        ensures both_ways { IfOk result (λ manager. HasRoomBothWays manager.held (D.view device.new).spare) }
        ensures forward { IfOk result (λ manager. GoesForward manager.held) }
        ensures spare { (D.view device.old).spare ≤ (D.view device.new).spare }
        ensures others { IsSameButSpare (D.view device.old) (D.view device.new) }
    {
        match verdict(&parts.rules, batch, slots, mode) {
            Ok(()) => {}
            Err(rejection) => return Err((RestartFault::Refused(rejection), parts)),
        }
        let shown = match show_commit(alloc, &parts, batch, slots, mode, device) {
            Ok(shown) => shown,
            Err(fault) => return Err((RestartFault::Stage(fault), parts)),
        };
        let mut parts = parts;
        match resume(
            alloc, slots, mode, placement, &mut parts, batch, &shown, device,
        ) {
            Ok(resumed) => Ok(Manager {
                alloc,
                placement,
                translation: resumed.translation,
                rules: parts.rules,
                live: resumed.live,
                arrangement: resumed.arrangement,
                planned: resumed.planned,
                held: Some(resumed.held),
            }),
            Err(AllocError) => Err((RestartFault::Stage(StageFault::Memory), parts)),
        }
    }
}

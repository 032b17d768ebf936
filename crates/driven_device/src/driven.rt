//! A manager and its device, and what commits them.
ghost use Rattle.std.specs.Prelude.{◌≡◌, ◌-◌, ◌≤◌, ◌↔◌, List, IfErr, IfOk, IfSome, IsSome, IsTrue, OnErr, OnOk, length};
ghost use Rattle.call_history.specs.Cause.{HasCause};
ghost use Rattle.rule_store.specs.declared.Command.{Command};
ghost use Rattle.rule_store.specs.Batch.{set_after};
ghost use Rattle.tcam_device.specs.State.{State, apply, blank};
ghost use Rattle.tcam_device.specs.View.{HasMade, IsSameButSpare, IsUntouched, device_state, journal};
ghost use Rattle.commit_writes.specs.declared.Done.{Done};
ghost use Rattle.batch_order.specs.Managed.{Holds, Judges, Managed, Serves, fresh, live_now};
ghost use Rattle.batch_order.specs.Steps.{Aborts, KeepsCurrent, Steps, actions_of, next_of};
ghost use Rattle.batch_order.specs.Passed.{WayBackFrom};
ghost use Rattle.batch_order.specs.Laws.{StepLeaves};
ghost use Rattle.batch_order.specs.CarriedOut.{GoesForward, HasCarried, IsServed, IsStuckBy, IsTried, StopsBy, ahead, done_of, finished};
ghost use Rattle.driven_device.specs.Driven.{CanHave, IsSetUpFault};

use crate::SetUpFault;
use batch_order::{AbortFault, Done, Manager, Mode, Placement, Refusal, Step, Unfinished};
use rule_store::Batch;
use slot_order::MOST_SLOTS;
use std::alloc::{AllocError, Global};
use std::marker::Model;
use tcam_device::{Device, DeviceFault};

/// A manager, and the device that it drives. The device has its slots, and room for what is left of a commit, forward and
/// back, and it holds what the manager's writes left: so each call may come at any time.
#[derive(Drop)]
pub struct Driven<D: Device> {
    pub(crate) manager: Manager,
    pub(crate) device: D,
}

impl<D: Device> Model for Driven<D> {
    ghost use Rattle.driven_device.specs.Driven.{DrivenView, IsDriven};

    ghost Value = { DrivenView };

    ghost view = { λ driven. record { manager = driven.manager; device = D.view driven.device } };

    ghost invariant = { λ driven. IsDriven driven.manager (D.view driven.device) };
}

/// Whether a manager can have so many slots, of a device with this many.
pub(crate) fn can_have(slots: u32, device_slots: u32) -> bool
    ensures { IsTrue result ↔ CanHave slots device_slots }
{
    1 <= slots && slots <= MOST_SLOTS && slots <= device_slots
}

impl<D: Device + Drop> Driven<D> {
    /// A manager without rules over a blank device, with so many of its slots in use: over a new one, or one whose slots and
    /// tables were emptied. By `Cover` a rule takes an entry for each pair of blocks of its port ranges; by `Bits` it takes
    /// one, and each range that isn't one block takes a bit of its field's translation table. Each insertion aims where the
    /// placement says: `Rank` for routes, `Ends` for an access list.
    ///
    /// `Slots` comes exactly where that isn't 1 to `MOST_SLOTS` slots, or the device hasn't them; else it fails only for want of
    /// memory. The device is let go then.
    pub fn new(
        alloc: Global,
        slots: u32,
        mode: Mode,
        placement: Placement,
        device: D,
    ) -> Result<Driven<D>, SetUpFault>
        requires blank { device_state (D.view device) ≡ blank (D.view device).slots }
        ensures manager { IfOk result (λ driven. driven.manager ≡ fresh slots mode placement) }
        ensures device { IfOk result (λ driven. driven.device ≡ D.view device) }
        ensures in_use { OnOk result (CanHave slots (D.view device).slots) }
        ensures fault { IfErr result (λ fault. IsSetUpFault slots (D.view device).slots fault) }
    {
        if !can_have(slots, device.slots()) {
            return Err(SetUpFault::Slots(slots));
        }
        match Manager::new(alloc, slots, mode, placement) {
            Ok(manager) => Ok(Driven { manager, device }),
            Err(AllocError) => Err(SetUpFault::Memory),
        }
    }
}

impl<D: Device> Driven<D> {
    /// Judges a batch of changes to the rules. Where it is taken, all of its writes are planned and all memory for them is
    /// taken, the device's too, so that nothing can fail for memory until the commit has come to its end. The answer has the
    /// numbers of the writes, none of which is made yet: `step` and `carry_out` make them. Whatever it is, each key is
    /// answered as before.
    ///
    /// Refusals are tried in this order, and leave rules, manager, and what was written as they were. `Busy` comes exactly
    /// while a commit is under way, with the writes that are left. Else the rule lists alone decide (`Rejected`): `Unsound`
    /// by the first command that the set doesn't take; by bits `Bits`, of the source field before the destination's; `Slots`
    /// where the additions need more entries than slots are free. `Memory` comes last.
    pub fn prepare(&mut self, batch: &Batch) -> Result<Done, Refusal>
        ensures judged { Judges self.old.manager self.old.manager.held batch.now result }
        ensures ready { IfOk result (λ counts. Holds self.old.manager batch.now counts self.new.manager) }
        ensures refused { OnErr result (self.new.manager ≡ self.old.manager) }
        ensures way_back { OnOk result (WayBackFrom self.old.manager.state self.new.manager) }
        ensures others { IsSameButSpare self.old.device self.new.device }
        ensures leaves { StepLeaves self.old.manager self.new.manager self.old.device.spare self.new.device.spare }
        ensures before { Serves (device_state self.new.device) self.old.manager.rules self.old.manager.held }
        ensures serves { Serves (device_state self.new.device) self.new.manager.rules self.new.manager.held }
    {
        let answer = self.manager.prepare(batch, &mut self.device);
        self.manager.serving();
        answer
    }

    /// Makes the next write of the commit under way, forward, or back once it is turned round. Where the commit gives new
    /// bits, a drain is next once the words of the tables are written: while words are in flight the answer is `Waiting`
    /// with their number, and nothing changes; with none in flight it drains. With nothing left the answer is `Finished`, and
    /// the rules are the new set, or `Reverted`, and they are the old one. With no commit under way the answer is `Idle`, and
    /// nothing changes. It takes no memory.
    ///
    /// A failure comes exactly where a write is due and the device's count of failures rose. It changes nothing, and the
    /// same write is next again.
    ///
    /// After it, also after a failure, and also where the hardware made the write that failed, each key is answered as the
    /// rules do, and while a commit is under way as the old ones or the new ones do.
    pub fn step(&mut self) -> Result<Step, DeviceFault>
        ensures stepped { IfOk result (λ step. Steps self.old.manager (length self.old.device.flight) self.old.manager.held step self.new.manager) }
        ensures keeps { IfOk result (λ step. KeepsCurrent self.old.manager step self.new.manager) }
        ensures way_back { (begun : State) → WayBackFrom begun self.old.manager → WayBackFrom begun self.new.manager }
        ensures made { IfOk result (λ step. HasMade (actions_of step) self.old.device self.new.device) }
        ensures failed { OnErr result (self.new.manager ≡ self.old.manager) }
        ensures unmade { OnErr result (IsUntouched self.old.device self.new.device) }
        ensures due { OnErr result (IsSome (next_of self.old.manager.held)) }
        ensures cause { HasCause self.old.device.faults self.new.device.faults result }
        ensures leaves { StepLeaves self.old.manager self.new.manager self.old.device.spare self.new.device.spare }
        ensures serves { Serves (device_state self.new.device) self.new.manager.rules self.new.manager.held }
        ensures serves_err { OnErr result (IfSome (next_of self.old.manager.held) (λ write. Serves (apply (device_state self.new.device) write) self.new.manager.rules self.new.manager.held)) }
    {
        self.manager.step(&mut self.device)
    }

    /// Makes all writes that are left of the commit under way, in their order, each tried up to `tries` times, at least
    /// once: 1 tries none again. With the last of them the rules become the new set, and the answer has the numbers of the
    /// commit. With no commit under way they are all 0, and nothing changes. It takes no memory.
    ///
    /// `Stuck` comes where one write has failed `tries` times. The writes before it were made, and it is the next: so
    /// `carry_out` may be called again, and where that write surely wasn't made the commit may be turned round (`abort`).
    /// `Waiting` comes exactly where the drain is next and words are in flight, with their number: once they have been
    /// searched the call is made again. `Reverted` comes where the commit was turned round: its undo writes were made, and
    /// the rules are the old ones.
    ///
    /// Each key is answered as the old rules or the new ones do before the first write and after each, also where the write
    /// that failed was made all the same; and once the commit has finished as the new ones do.
    pub fn carry_out(&mut self, tries: u32) -> Result<Done, Unfinished>
        requires { 1 ≤ tries }
        ensures done { IfOk result (λ done. done ≡ done_of self.old.manager.held) }
        ensures was_forward { OnOk result (GoesForward self.old.manager.held) }
        ensures finished { OnOk result (self.new.manager ≡ finished self.old.manager) }
        ensures rules { OnOk result ((was : Managed) → (batch : List Command) → (counts : Done) → Holds was batch counts self.old.manager → self.new.manager.rules ≡ set_after was.rules batch) }
        ensures carried { HasCarried self.old.manager.held self.new.manager.held self.old.device self.new.device }
        ensures stopped { IfErr result (λ halt. StopsBy self.old.manager self.new.manager (journal self.old.device) (journal self.new.device) (length self.old.device.flight) halt) }
        ensures way_back { (begun : State) → WayBackFrom begun self.old.manager → WayBackFrom begun self.new.manager }
        ensures leaves { StepLeaves self.old.manager self.new.manager self.old.device.spare self.new.device.spare }
        ensures tried { IsTried tries (length (journal self.new.device) - length (journal self.old.device)) (IsStuckBy result) self.old.device.faults self.new.device.faults }
        ensures hitless { IsServed self.new.device.slots (journal self.old.device) (journal self.new.device) self.old.manager.rules (ahead self.old.manager) }
        ensures serves { Serves (device_state self.new.device) self.new.manager.rules self.new.manager.held }
        ensures serves_err { OnErr result (IfSome (next_of self.new.manager.held) (λ write. Serves (apply (device_state self.new.device) write) self.new.manager.rules self.new.manager.held)) }
    {
        self.manager.carry_out(&mut self.device, tries)
    }

    /// Turns the commit under way round: from now on `step` and `carry_out` undo the writes that were made, the last one
    /// first, and end with `Reverted`. The answer is how many undo writes there are. Each key is answered as the old rules or
    /// the new ones do all along. It writes nothing and takes no memory.
    ///
    /// The writes that are undone are those that were answered Ok. Where the last `step` answered a failure and the
    /// hardware may have made that write all the same, make it first: `step` until it is answered Ok.
    ///
    /// `Idle` comes exactly where no commit is under way, `Restarted` exactly where a restart goes on with the one that is,
    /// and else `Back` exactly where it is turned round already, with the undo writes that are left. Nothing changes then.
    pub fn abort(&mut self) -> Result<u64, AbortFault>
        ensures aborts { Aborts self.old.manager self.old.manager.held result self.new.manager }
        ensures way_back { (begun : State) → WayBackFrom begun self.old.manager → WayBackFrom begun self.new.manager }
        ensures current { live_now self.new.manager ≡ live_now self.old.manager }
        ensures device { self.new.device ≡ self.old.device }
        ensures serves { Serves (device_state self.new.device) self.new.manager.rules self.new.manager.held }
    {
        let answer = self.manager.abort();
        self.manager.serving();
        answer
    }
}

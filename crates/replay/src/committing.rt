//! How what is pending is settled and judged, and what is told of a refusal.

ghost use Rattle.std.specs.Prelude.{Bool, ◌≡◌, ◌≢◌, ◌↔◌, ◌+◌, ◌<◌, ◌≤◌, ◌^◌, [], true, false, Err, None, IsTrue, IfErr, IfOk, OnOk};
ghost use Rattle.script_lines.specs.Given.{counted};
ghost use Rattle.batch_order.specs.CarriedOut.{HasRoomBothWays};
ghost use Rattle.rule_store.specs.Batch.{IsSound};
ghost use Rattle.report_lines.specs.Told.{verdict_told};
ghost use Rattle.report_lines.specs.Outside.{WritesLine};
ghost use Rattle.settled_changes.specs.Requested.{IsAsked, TakesAsked, IsWhyNone, settled_batch};
ghost use Rattle.replay.specs.Carried.{IsAt};
ghost use Rattle.replay.specs.Fates.{AnswersLost, IsAhead, IsToCrash, commit_act};
ghost use Rattle.replay.specs.Outside.{Leaves, outside};
ghost use Rattle.replay.specs.Reports.{refusal_line};
ghost use Rattle.replay.specs.Run.{settled_at};
ghost use Rattle.replay.specs.Running.{AnswersHeld, ComesTo, IsRun, LeavesWords, limit_text, progress_of, setting_of};
ghost use Rattle.replay.specs.Unfinished.{StaysInStep, StaysUnfinished};

use crate::fate::Fate;
use crate::run::{Run, act_outcome};
use crate::{ActFault, RunFault};
use batch_order::{Refusal, Rejection};
use rule_store::{Batch, BatchFault};
use script_lines::{Failed, Sink};
use settled_changes::{Requested, SettleFault};
use std::mem::replace;
use tcam_device::ReadBack;

impl Run {
    /// Commits what is pending, nothing of which is left afterwards unless memory was wanting, and has this become of it. What
    /// is asked for is settled first, and waits as before where no batch of it is taken for want of memory.
    pub(crate) fn commit<K: Sink, D: ReadBack>(
        &mut self,
        fate: Fate,
        sink: &mut K,
        device: &mut D,
    ) -> Result<(), ActFault>
        requires slots { self.old.manager.slots ≤ (D.view device.old).slots }
        requires none_in_flight { (D.view device.old).flight ≡ [] }
        requires idle { self.old.manager.held ≡ None }
        requires first { IsAhead fate }
        requires told { self.old.json ≡ true → fate ≡ Fate.Finishes }
        requires whole { self.old.broken ≡ false }
        requires stands { IsToCrash fate → IsAt (D.view device.old).slots (D.view device.old).events (progress_of (D.view device.old).slots self.old) }
        requires commits { self.old.commits < 2 ^ 28 }
        ensures acts { (which : Bool) → ComesTo (D.view device.old).slots self.old (commit_act fate) self.new result
            (D.view device.old).events (D.view device.new).events (counted which (K.taken sink.old) (K.accepted sink.old)) (counted which (K.taken sink.new) (K.accepted sink.new)) }
        ensures taken { AnswersHeld None result }
        ensures limit { limit_text result ≡ None }
        ensures idle { OnOk result (self.new.manager.held ≡ None) }
        ensures unfinished { (which : Bool) → result ≡ Err (ActFault.Stopped RunFault.Device) → IsAt (D.view device.old).slots (D.view device.old).events (progress_of (D.view device.old).slots self.old)
            → StaysUnfinished (D.view device.old).slots (settled_at (progress_of (D.view device.old).slots self.old)) (commit_act fate) [] self.new
            (outside (D.view device.old).events (counted which (K.taken sink.old) (K.accepted sink.old)))
            (outside (D.view device.new).events (counted which (K.taken sink.new) (K.accepted sink.new))) (D.view device.new).flight }
        ensures broken { AnswersLost (commit_act fate) result self.new.broken }
        ensures room { HasRoomBothWays self.new.manager.held (D.view device.new).spare }
        ensures setting { setting_of self.new ≡ setting_of self.old }
        ensures commits { self.new.commits ≤ self.old.commits + 1 }
        ensures in_flight { LeavesWords self.new result (D.view device.old).flight (D.view device.new).flight }
        ensures in_step { result ≢ Err (ActFault.Stopped RunFault.Sink) → StaysInStep (D.view device.old).slots self.old self.new (D.view device.old).events (D.view device.new).events (D.view device.old).flight (D.view device.new).flight }
        ensures leaves { Leaves K.taken K.faults sink.old sink.new (D.view device.old) (D.view device.new) (result ≡ Err (ActFault.Stopped RunFault.Sink)) (result ≡ Err (ActFault.Stopped RunFault.Device)) }
    {
        if !self.asked.is_any() {
            return self.commit_batch(fate, sink, device);
        }
        match self.settled() {
            Ok(batch) => self.commit_settled(batch, fate, sink, device),
            Err(SettleFault::Unsound(fault)) => self.refuse(unsound(fault), sink),
            Err(SettleFault::Memory) => Err(ActFault::Stopped(RunFault::Memory)),
        }
    }

    // The batch that what is asked for comes to over the set.
    fn settled(&self) -> Result<Batch, SettleFault>
        requires asked { IsAsked self.now.asked }
        ensures settled { IfOk result (λ batch. batch ≡ settled_batch self.now.manager.rules self.now.pending self.now.asked) }
        ensures taken { OnOk result (TakesAsked self.now.manager.rules self.now.asked) }
        ensures sound { IfOk result (λ batch. IsSound self.now.manager.rules batch) }
        ensures fault { IfErr result (IsWhyNone self.now.manager.rules self.now.asked) }
    {
        self.asked.settle(self.alloc, self.manager.rules())
    }

    // Commits the batch to which what is asked for was settled.
    fn commit_settled<K: Sink, D: ReadBack>(
        &mut self,
        batch: Batch,
        fate: Fate,
        sink: &mut K,
        device: &mut D,
    ) -> Result<(), ActFault>
        requires slots { self.old.manager.slots ≤ (D.view device.old).slots }
        requires none_in_flight { (D.view device.old).flight ≡ [] }
        requires idle { self.old.manager.held ≡ None }
        requires settled { batch ≡ settled_batch self.old.manager.rules self.old.pending self.old.asked }
        requires taken { TakesAsked self.old.manager.rules self.old.asked }
        requires sound { IsSound self.old.manager.rules batch }
        requires asked { IsAsked self.old.asked }
        requires first { IsAhead fate }
        requires told { self.old.json ≡ true → fate ≡ Fate.Finishes }
        requires whole { self.old.broken ≡ false }
        requires stands { IsToCrash fate → IsAt (D.view device.old).slots (D.view device.old).events (progress_of (D.view device.old).slots self.old) }
        requires commits { self.old.commits < 2 ^ 28 }
        ensures acts { (which : Bool) → ComesTo (D.view device.old).slots self.old (commit_act fate) self.new result
            (D.view device.old).events (D.view device.new).events (counted which (K.taken sink.old) (K.accepted sink.old)) (counted which (K.taken sink.new) (K.accepted sink.new)) }
        ensures taken { AnswersHeld None result }
        ensures limit { limit_text result ≡ None }
        ensures idle { OnOk result (self.new.manager.held ≡ None) }
        ensures unfinished { (which : Bool) → result ≡ Err (ActFault.Stopped RunFault.Device) → IsAt (D.view device.old).slots (D.view device.old).events (progress_of (D.view device.old).slots self.old)
            → StaysUnfinished (D.view device.old).slots (settled_at (progress_of (D.view device.old).slots self.old)) (commit_act fate) [] self.new
            (outside (D.view device.old).events (counted which (K.taken sink.old) (K.accepted sink.old)))
            (outside (D.view device.new).events (counted which (K.taken sink.new) (K.accepted sink.new))) (D.view device.new).flight }
        ensures broken { AnswersLost (commit_act fate) result self.new.broken }
        ensures room { HasRoomBothWays self.new.manager.held (D.view device.new).spare }
        ensures setting { setting_of self.new ≡ setting_of self.old }
        ensures commits { self.new.commits ≤ self.old.commits + 1 }
        ensures in_flight { LeavesWords self.new result (D.view device.old).flight (D.view device.new).flight }
        ensures in_step { result ≢ Err (ActFault.Stopped RunFault.Sink) → StaysInStep (D.view device.old).slots self.old self.new (D.view device.old).events (D.view device.new).events (D.view device.old).flight (D.view device.new).flight }
        ensures leaves { Leaves K.taken K.faults sink.old sink.new (D.view device.old) (D.view device.new) (result ≡ Err (ActFault.Stopped RunFault.Sink)) (result ≡ Err (ActFault.Stopped RunFault.Device)) }
    {
        let (pending, asked) = self.put_settled(batch);
        let outcome = self.commit_batch(fate, sink, device);
        if waits_on(&outcome, self.broken) {
            self.put_back(pending, asked);
            return outcome;
        }
        outcome
    }

    // The batch to which what is asked for was settled waits in its place. Answers what waited.
    fn put_settled(&mut self, batch: Batch) -> (Batch, Requested)
        requires idle { self.old.manager.held ≡ None }
        requires settled { batch ≡ settled_batch self.old.manager.rules self.old.pending self.old.asked }
        requires taken { TakesAsked self.old.manager.rules self.old.asked }
        ensures pending { result.0 ≡ self.old.pending }
        ensures asked { result.1 ≡ self.old.asked }
        ensures waits { self.new ≡ record self.old { pending = batch; asked = Requested.Nothing } }
        ensures was { IsRun self.old }
    {
        let asked = replace(&mut self.asked, Requested::Nothing);
        let pending = replace(&mut self.pending, batch);
        (pending, asked)
    }

    // What waited does so again.
    fn put_back(&mut self, pending: Batch, asked: Requested)
        requires { IsRun (record self.old { pending = pending; asked = asked }) }
        ensures { self.new ≡ record self.old { pending = pending; asked = asked } }
    {
        self.pending = pending;
        self.asked = asked;
    }

    // Commits the pending batch of strict commands, which is empty afterwards unless memory was wanting.
    fn commit_batch<K: Sink, D: ReadBack>(
        &mut self,
        fate: Fate,
        sink: &mut K,
        device: &mut D,
    ) -> Result<(), ActFault>
        requires slots { self.old.manager.slots ≤ (D.view device.old).slots }
        requires none_in_flight { (D.view device.old).flight ≡ [] }
        requires idle { self.old.manager.held ≡ None }
        requires strict { self.old.asked ≡ Requested.Nothing }
        requires first { IsAhead fate }
        requires told { self.old.json ≡ true → fate ≡ Fate.Finishes }
        requires whole { self.old.broken ≡ false }
        requires stands { IsToCrash fate → IsAt (D.view device.old).slots (D.view device.old).events (progress_of (D.view device.old).slots self.old) }
        requires commits { self.old.commits < 2 ^ 28 }
        ensures acts { (which : Bool) → ComesTo (D.view device.old).slots self.old (commit_act fate) self.new result
            (D.view device.old).events (D.view device.new).events (counted which (K.taken sink.old) (K.accepted sink.old)) (counted which (K.taken sink.new) (K.accepted sink.new)) }
        ensures taken { AnswersHeld None result }
        ensures limit { limit_text result ≡ None }
        ensures idle { OnOk result (self.new.manager.held ≡ None) }
        ensures unfinished { (which : Bool) → result ≡ Err (ActFault.Stopped RunFault.Device) → IsAt (D.view device.old).slots (D.view device.old).events (progress_of (D.view device.old).slots self.old)
            → StaysUnfinished (D.view device.old).slots (progress_of (D.view device.old).slots self.old) (commit_act fate) [] self.new
            (outside (D.view device.old).events (counted which (K.taken sink.old) (K.accepted sink.old)))
            (outside (D.view device.new).events (counted which (K.taken sink.new) (K.accepted sink.new))) (D.view device.new).flight }
        ensures broken { AnswersLost (commit_act fate) result self.new.broken }
        ensures room { HasRoomBothWays self.new.manager.held (D.view device.new).spare }
        ensures setting { setting_of self.new ≡ setting_of self.old }
        ensures commits { self.new.commits ≤ self.old.commits + 1 }
        ensures in_flight { LeavesWords self.new result (D.view device.old).flight (D.view device.new).flight }
        ensures in_step { result ≢ Err (ActFault.Stopped RunFault.Sink) → StaysInStep (D.view device.old).slots self.old self.new (D.view device.old).events (D.view device.new).events (D.view device.old).flight (D.view device.new).flight }
        ensures kept { result ≡ Err (ActFault.Stopped RunFault.Memory) → self.new.broken ≡ false → self.new ≡ self.old }
        ensures leaves { Leaves K.taken K.faults sink.old sink.new (D.view device.old) (D.view device.new) (result ≡ Err (ActFault.Stopped RunFault.Sink)) (result ≡ Err (ActFault.Stopped RunFault.Device)) }
    {
        match self.manager.prepare(&self.pending, device) {
            Ok(_) => {
                self.fate = fate;
                act_outcome(&self.begin(sink, device))
            }
            Err(Refusal::Memory) => Err(ActFault::Stopped(RunFault::Memory)),
            Err(Refusal::Rejected(rejection)) => self.refuse(rejection, sink),
            // No commit is unfinished.
            Err(Refusal::Busy { .. }) => unreachable!(),
        }
    }

    // Counts a commit that is refused, drops its batch, and writes its line.
    fn refuse<K: Sink>(&mut self, rejection: Rejection, sink: &mut K) -> Result<(), ActFault>
        requires idle { self.old.manager.held ≡ None }
        requires commits { self.old.commits < 2 ^ 28 }
        ensures refused { self.new ≡ record self.old { pending = []; asked = Requested.Nothing; commits = self.old.commits + 1; refused = true } }
        ensures line { WritesLine K.taken K.accepted K.faults sink.old sink.new (refusal_line (setting_of self.old) self.old.commits (verdict_told rejection)) result }
        ensures kind { IfErr result (λ fault. fault ≡ ActFault.Stopped RunFault.Sink) }
    {
        let told = self.tell_refused(&rejection, sink);
        self.asked = Requested::Nothing;
        self.count_commit();
        self.refused = true;
        match told {
            Ok(()) => Ok(()),
            Err(Failed) => Err(ActFault::Stopped(RunFault::Sink)),
        }
    }
}

// Whether a commit that comes to this was not taken for want of memory, and what it is of waits on.
fn waits_on(outcome: &Result<(), ActFault>, broken: bool) -> bool
    ensures { IsTrue result ↔ ((outcome.now ≡ Err (ActFault.Stopped RunFault.Memory)) × (broken ≡ false)) }
{
    matches!(outcome, Err(ActFault::Stopped(RunFault::Memory))) && !broken
}

// The rejection of changes that the set doesn't take.
fn unsound(fault: BatchFault) -> Rejection
    ensures { result ≡ Rejection.Unsound fault }
{
    Rejection::Unsound(fault)
}

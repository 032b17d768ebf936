//! What a step makes of the commit under way: its next part, a drain, or its end.

ghost use Rattle.std.specs.Prelude.{◌≡◌, ◌+◌, ◌-◌, ◌++◌, ◌∷◌, ◌<◌, ◌≤◌, [], ℕ, IfOk, IfErr, OnErr, length, slice_get};
ghost use Rattle.call_history.specs.Cause.{HasCause};
ghost use Rattle.commit_writes.specs.InFlight.{AreCurrent, ArePartOf};
ghost use Rattle.batch_order.specs.Managed.{live_now};
ghost use Rattle.split_device.specs.Flight.{flight_count, written};
ghost use Rattle.split_device.specs.declared.SplitAction.{SplitAction};
ghost use Rattle.batch_order.specs.CarriedOut.{IsTried, ahead};
ghost use Rattle.split_order.specs.Left.{left_of};
ghost use Rattle.split_order.specs.Next.{LeadsDevice, IsNext, IsPartDue};
ghost use Rattle.split_order.specs.CarriedOut.{AreServed, IsFinished, IsStoppedBy, IsStuckSplit};
ghost use Rattle.split_order.specs.Steps.{Advances, Ends, IsPartNext, LeavesCurrent, SplitSteps, made_by};

use crate::due::{DuePart, due_part, standing};
use crate::manager::{NO_COMMIT, SplitManager};
use crate::{SplitStep, SplitUnfinished};
use batch_order::Step;
use split_device::{SplitAction, SplitDevice};
use split_writes::SplitDone;
use tcam_device::DeviceFault;

/// What is next.
#[derive(Clone, Copy)]
pub(crate) enum Next {
    /// No commit is under way, or it has nothing left.
    Nothing,
    /// A drain.
    Drain,
    /// This part.
    Part(DuePart),
}

impl SplitManager {
    /// Makes the next part of the commit under way, over the device that `prepare` reserved, with room for what is left.
    /// Where a drain is next it drains if nothing is in flight, and else the answer is `Waiting` with the number of words and
    /// found slots, and nothing changes. With nothing left the rules become the new set, and the answer is `Finished`. With no
    /// commit under way the answer is `Idle`, and nothing changes. What is in flight stays as it is, and of what is reserved a
    /// part or a drain takes its own room alone.
    ///
    /// After it, also after a failure, each key is answered, by what was made of the device, as the rules do, and while a
    /// commit is under way as the old ones or the new ones do; and so it is where the part that is next was made already.
    /// Words in flight that were current are so still.
    ///
    /// A failure comes exactly where a part is next and the device's count of failures rose. It changes nothing, and the same
    /// part is next again. It does no harm where the hardware has made that part all the same.
    pub fn step<D: SplitDevice>(&mut self, device: &mut D) -> Result<SplitStep, DeviceFault>
        requires slots { self.old.whole.slots ≤ D.slot_count device.old }
        requires room { length (left_of (D.slot_count device.old) self.old) ≤ D.spare device.old }
        ensures stepped { IfOk result (λ step. SplitSteps (D.slot_count device.old) self.old (flight_count (D.flight device.old)) (left_of (D.slot_count device.old) self.old) step self.new) }
        ensures current { IfOk result (λ step. LeavesCurrent self.old step self.new) }
        ensures events { IfOk result (λ step. D.events device.new ≡ D.events device.old ++ made_by step) }
        ensures spare { D.spare device.new + length (D.events device.new) ≡ D.spare device.old + length (D.events device.old) }
        ensures room { length (left_of (D.slot_count device.new) self.new) ≤ D.spare device.new }
        ensures failed { OnErr result (self.new ≡ self.old) }
        ensures events_err { OnErr result (D.events device.new ≡ D.events device.old) }
        ensures due { OnErr result (IsPartNext (left_of (D.slot_count device.old) self.old)) }
        ensures flight { D.flight device.new ≡ D.flight device.old }
        ensures slot_count { D.slot_count device.new ≡ D.slot_count device.old }
        ensures cause { HasCause (D.faults device.old) (D.faults device.new) result }
        ensures led { D.events device.old ≡ self.old.events → LeadsDevice (D.slot_count device.new) (D.events device.new) self.new }
    {
        self.serving();
        match self.next() {
            Next::Nothing => {
                let step = self.finish();
                self.serving();
                Ok(step)
            }
            Next::Drain => {
                let step = self.drain(device);
                self.serving();
                Ok(step)
            }
            Next::Part(due) => {
                // The borrow checker doesn't cover a struct that is handed on by value and used again.
                let part = due.part;
                device.write(due.part)?;
                self.advance(due);
                self.serving();
                Ok(SplitStep::Wrote(part))
            }
        }
    }

    /// The part or the drain that is next, or None where no commit is under way, or it has nothing left: what the next `step`
    /// makes. Whoever makes the parts outside of this program, as a driver in C, is told here which one is due.
    pub fn next_action(&self) -> Option<SplitAction>
        ensures { (slots : ℕ) → self.now.whole.slots ≤ slots → result ≡ slice_get (left_of slots self.now) 0 }
    {
        match self.next() {
            Next::Nothing => None,
            Next::Drain => Some(SplitAction::Drained),
            Next::Part(due) => Some(SplitAction::Written(due.part)),
        }
    }

    /// What is next.
    fn next(&self) -> Next
        ensures { IsNext self.now result }
    {
        match self.next_part() {
            Some(due) => {
                if self.since.is_due(&due.part, due.stands) {
                    Next::Drain
                } else {
                    Next::Part(due)
                }
            }
            None => {
                if self.whole.drains_next() {
                    Next::Drain
                } else {
                    Next::Nothing
                }
            }
        }
    }

    /// The part of the write that is due, if one is, whether a drain comes before it or not.
    fn next_part(&self) -> Option<DuePart>
        ensures { IsPartDue self.now result }
    {
        match self.whole.next_write() {
            None => None,
            Some(write) => {
                let held = standing(&self.whole.replaced());
                due_part(&write, &held, self.progress.made)
            }
        }
    }

    /// The part that is next was made: with the last of its write the planner's write was.
    fn advance(&mut self, due: DuePart)
        requires { IsNext self.old (Next.Part due) }
        ensures { (slots : ℕ) → self.old.whole.slots ≤ slots → Advances slots (SplitAction.Written due.part) self.old self.new }
    {
        self.whole.serving();
        self.since.note(&due.part);
        self.events = self.events.and(&SplitAction::Written(due.part));
        self.progress.begun = true;
        self.progress.left -= 1;
        if !due.last {
            self.progress.made += 1;
            return;
        }
        self.progress.made = 0;
        self.whole.pass_write();
    }

    /// Drains where a drain is next, or waits until nothing is in flight.
    fn drain<D: SplitDevice>(&mut self, device: &mut D) -> SplitStep
        requires next { IsNext self.old Next.Drain }
        requires slots { self.old.whole.slots ≤ D.slot_count device.old }
        requires room { 0 < D.spare device.old }
        ensures stepped { SplitSteps (D.slot_count device.old) self.old (flight_count (D.flight device.old)) (SplitAction.Drained ∷ []) result self.new }
        ensures events { D.events device.new ≡ D.events device.old ++ made_by result }
        ensures spare { D.spare device.new + length (made_by result) ≡ D.spare device.old }
        ensures flight { D.flight device.new ≡ D.flight device.old }
        ensures slot_count { D.slot_count device.new ≡ D.slot_count device.old }
        ensures faults { D.faults device.new ≡ D.faults device.old }
    {
        let flying = device.in_flight();
        if flying > 0 {
            return SplitStep::Waiting(flying);
        }
        device.drain();
        self.note_drain();
        SplitStep::Drained
    }

    /// The drain that is next was made: before a part, or the planner's own.
    fn note_drain(&mut self)
        requires { IsNext self.old Next.Drain }
        ensures { (slots : ℕ) → self.old.whole.slots ≤ slots → Advances slots SplitAction.Drained self.old self.new }
    {
        self.since.drained();
        self.events = self.events.and(&SplitAction::Drained);
        self.progress.begun = true;
        if !self.whole.drains_next() {
            return;
        }
        self.whole.pass();
    }

    /// With nothing left the commit under way, if there is one, comes to its end.
    fn finish(&mut self) -> SplitStep
        requires { IsNext self.old Next.Nothing }
        ensures ends { Ends self.old self.old.whole.held result self.new }
        ensures current { ArePartOf (live_now self.new.whole) (live_now self.old.whole) }
    {
        let counts = self.progress.counts;
        self.whole.serving();
        match self.whole.pass() {
            Step::Finished(_) => {
                self.whole.serving();
                self.progress = NO_COMMIT;
                SplitStep::Finished(counts)
            }
            _ => SplitStep::Idle,
        }
    }

    /// Makes all parts and drains that are left of the commit under way, in their order, over the device that `prepare`
    /// reserved, each part tried up to `tries` times, at least once: 1 tries none again. With the last of them the rules become
    /// the new set, no commit is under way, and the answer has the numbers of the commit. With none under way before they are
    /// all 0, and nothing changes. Of what is reserved each part and each drain takes its own room alone.
    ///
    /// `Stuck` comes where one part has failed `tries` times, and the device's count of failures rose by that, or stands at
    /// its last value. `Waiting` comes exactly where a drain is next and look-ups are in flight, with their number. What came
    /// before was made, that part or drain is next, and the call may be made again. With none made the plan may also be
    /// dropped by `cancel`, where the part that failed surely wasn't made.
    ///
    /// Each key is answered, by what was made of the device, as the old rules or the new ones do before the first part and
    /// after each, also where the part that failed was made all the same; and once the commit has finished as the new ones do.
    /// What is in flight stays as it is, and words in flight that were current are so still: another batch may be prepared.
    pub fn carry_out<D: SplitDevice>(
        &mut self,
        device: &mut D,
        tries: u32,
    ) -> Result<SplitDone, SplitUnfinished>
        requires slots { self.old.whole.slots ≤ D.slot_count device.old }
        requires room { length (left_of (D.slot_count device.old) self.old) ≤ D.spare device.old }
        requires tries { 1 ≤ tries }
        ensures finished { IfOk result (λ done. IsFinished (D.slot_count device.old) self.old done self.new) }
        ensures stopped { IfErr result (IsStoppedBy (D.slot_count device.old) self.old self.new (flight_count (D.flight device.old))) }
        ensures events { D.events device.new ++ left_of (D.slot_count device.new) self.new ≡ D.events device.old ++ left_of (D.slot_count device.old) self.old }
        ensures spare { D.spare device.new + length (D.events device.new) ≡ D.spare device.old + length (D.events device.old) }
        ensures room { length (left_of (D.slot_count device.new) self.new) ≤ D.spare device.new }
        ensures flight { D.flight device.new ≡ D.flight device.old }
        ensures slots { self.new.whole.slots ≡ self.old.whole.slots }
        ensures slot_count { D.slot_count device.new ≡ D.slot_count device.old }
        ensures tried { IsTried tries (length (written (D.events device.new)) - length (written (D.events device.old))) (IsStuckSplit result) (D.faults device.old) (D.faults device.new) }
        ensures current { AreCurrent (live_now self.old.whole) (D.flight device.old).words → AreCurrent (live_now self.new.whole) (D.flight device.new).words }
        ensures led { D.events device.old ≡ self.old.events → LeadsDevice (D.slot_count device.new) (D.events device.new) self.new }
        ensures hitless { D.events device.old ≡ self.old.events → AreServed (D.slot_count device.new) (D.events device.old) (D.events device.new) self.old.whole.rules (ahead self.old.whole) }
    {
        self.serving();
        let mut failures = 0;
        'carrying: loop {
            match self.step(device) {
                Ok(SplitStep::Wrote(_)) => failures = 0,
                Ok(SplitStep::Drained) => {}
                Ok(SplitStep::Finished(done)) => return Ok(done),
                Ok(SplitStep::Idle) => {
                    self.serving();
                    return Ok(NO_COMMIT.counts);
                }
                Ok(SplitStep::Waiting(flying)) => {
                    let left = self.parts_left();
                    return Err(SplitUnfinished::Waiting { flying, left });
                }
                Err(DeviceFault) => {
                    failures += 1;
                    if failures == tries {
                        let left = self.parts_left();
                        return Err(SplitUnfinished::Stuck { left });
                    }
                }
            }
        }
    }

    /// How many parts are left, none where no commit is under way.
    fn parts_left(&self) -> u64
        ensures { (slots : ℕ) → self.now.whole.slots ≤ slots → result ≡ length (written (left_of slots self.now)) }
    {
        self.progress.left
    }
}

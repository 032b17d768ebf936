//! A commit under way is carried out to its end, over its turn: there it is taken back, or another manager goes on with it.

ghost use Rattle.std.specs.Prelude.{Bool, true, false, ◌≡◌, ◌≢◌, ◌⊎◌, ◌+◌, ◌<◌, ◌≤◌, ◌^◌, ℕ, [], List, Ok, Err, IsSome, IsNone, IfSome, IfErr, OnOk, OnErr, None, Some};
ghost use Rattle.script_lines.specs.Given.{counted};
ghost use Rattle.commit_writes.specs.InFlight.{AreCurrent};
ghost use Rattle.batch_order.specs.CarriedOut.{HasRoomBothWays};
ghost use Rattle.batch_order.specs.Managed.{live_now};
ghost use Rattle.replay.specs.Effects.{Effect};
ghost use Rattle.replay.specs.Reports.{done_line, opened};
ghost use Rattle.replay.specs.Run.{Progress};
ghost use Rattle.report_lines.specs.Outside.{WritesLine};
ghost use Rattle.replay.specs.Outside.{Leaves, outside};
ghost use Rattle.replay.specs.Carried.{IsAt};
ghost use Rattle.replay.specs.Fates.{IsToCrash, commit_act, turn_of};
ghost use Rattle.replay.specs.Running.{act_outcome_of, AreLeft, LeavesWords, progress_of, setting_of};
ghost use Rattle.replay.specs.Making.{ended_line};
ghost use Rattle.replay.specs.Unfinished.{IsUnfinished, ResumesTo, StaysInStep, TakesAtCrash};
ghost use Rattle.replay.specs.Crashing.{ComesToTurn, HasMoreThan, IsAtTurn, IsLost, IsTurned, memory_wanted};
ghost use Rattle.tcam_device.specs.View.{IsSameButSpare};

use crate::RunFault;
use crate::fate::{Fate, Then};
use crate::json_report::write_shared;
use crate::report::{write_aborted, write_accepted, write_early, write_restarted};
use crate::run::Run;
use crate::steps::{Ended, make_until, make_up_to};
use crate::watch::NOTHING;
use batch_order::{Done, Manager, RestartFault};
use readback::StageFault;
use script_lines::{Failed, Sink};
use std::alloc::AllocError;
use std::mem::replace;
use tcam_device::{Device, ReadBack};
use trace_file::TraceLine;

impl Run {
    /// Tells, in JSON, of a commit that was taken, and carries it out.
    pub(crate) fn begin<K: Sink, D: ReadBack>(
        &mut self,
        sink: &mut K,
        device: &mut D,
    ) -> Result<(), RunFault>
        requires slots { self.old.manager.slots ≤ (D.view device.old).slots }
        requires in_flight { AreLeft self.old (D.view device.old).flight }
        requires held { IsSome self.old.manager.held }
        requires whole { self.old.broken ≡ false }
        requires room { HasRoomBothWays self.old.manager.held (D.view device.old).spare }
        requires stands { IsToCrash self.old.fate → IsAt (D.view device.old).slots (D.view device.old).events (progress_of (D.view device.old).slots self.old) }
        requires commits { self.old.commits < 2 ^ 28 }
        requires told { self.old.json ≡ true → self.old.fate ≡ Fate.Finishes }
        ensures resumes { (which : Bool) → (before : Progress) → IsUnfinished (D.view device.old).slots before (opened (setting_of self.old) self.old.commits self.old.pending) self.old
            → IsAt (D.view device.old).slots (D.view device.old).events (progress_of (D.view device.old).slots self.old)
            → AreCurrent (live_now self.old.manager) (D.view device.old).flight
            → ResumesTo (D.view device.old).slots before (commit_act self.old.fate) [] self.new result
            (outside (D.view device.old).events (counted which (K.taken sink.old) (K.accepted sink.old)))
            (outside (D.view device.new).events (counted which (K.taken sink.new) (K.accepted sink.new))) (D.view device.new).flight }
        ensures kind { IfErr result (λ fault. (fault ≡ RunFault.Sink) ⊎ ((fault ≡ RunFault.Device) ⊎ ((fault ≡ RunFault.Memory) × IsToCrash self.old.fate))) }
        ensures idle { OnOk result (self.new.manager.held ≡ None) }
        ensures broken { self.new.broken ≡ memory_wanted result }
        ensures room { HasRoomBothWays self.new.manager.held (D.view device.new).spare }
        ensures setting { setting_of self.new ≡ setting_of self.old }
        ensures commits { self.new.commits ≤ self.old.commits + 1 }
        ensures in_flight { LeavesWords self.new (act_outcome_of result) (D.view device.old).flight (D.view device.new).flight }
        ensures in_step { result ≢ Err RunFault.Sink → StaysInStep (D.view device.old).slots self.old self.new (D.view device.old).events (D.view device.new).events (D.view device.old).flight (D.view device.new).flight }
        ensures leaves { Leaves K.taken K.faults sink.old sink.new (D.view device.old) (D.view device.new) (result ≡ Err RunFault.Sink) (result ≡ Err RunFault.Device) }
    {
        match self.open(sink) {
            Ok(()) => self.carry_out(sink, device),
            Err(Failed) => Err(RunFault::Sink),
        }
    }

    /// Makes and tells the writes that are left of the commit under way, over its turn where that is still to come,
    /// counts it, drops its batch, and writes its line. `Memory` comes at a crash alone.
    pub(crate) fn carry_out<K: Sink, D: ReadBack>(
        &mut self,
        sink: &mut K,
        device: &mut D,
    ) -> Result<(), RunFault>
        requires slots { self.old.manager.slots ≤ (D.view device.old).slots }
        requires in_flight { AreLeft self.old (D.view device.old).flight }
        requires held { IsSome self.old.manager.held }
        requires whole { self.old.broken ≡ false }
        requires room { HasRoomBothWays self.old.manager.held (D.view device.old).spare }
        requires stands { IsToCrash self.old.fate → IsAt (D.view device.old).slots (D.view device.old).events (progress_of (D.view device.old).slots self.old) }
        requires commits { self.old.commits < 2 ^ 28 }
        ensures resumes { (which : Bool) → (before : Progress) → (front : List Effect) → IsUnfinished (D.view device.old).slots before front self.old
            → IsAt (D.view device.old).slots (D.view device.old).events (progress_of (D.view device.old).slots self.old)
            → AreCurrent (live_now self.old.manager) (D.view device.old).flight
            → ResumesTo (D.view device.old).slots before (commit_act self.old.fate) front self.new result
            (outside (D.view device.old).events (counted which (K.taken sink.old) (K.accepted sink.old)))
            (outside (D.view device.new).events (counted which (K.taken sink.new) (K.accepted sink.new))) (D.view device.new).flight }
        ensures kind { IfErr result (λ fault. (fault ≡ RunFault.Sink) ⊎ ((fault ≡ RunFault.Device) ⊎ ((fault ≡ RunFault.Memory) × IsToCrash self.old.fate))) }
        ensures idle { OnOk result (self.new.manager.held ≡ None) }
        ensures broken { self.new.broken ≡ memory_wanted result }
        ensures room { HasRoomBothWays self.new.manager.held (D.view device.new).spare }
        ensures setting { setting_of self.new ≡ setting_of self.old }
        ensures commits { self.new.commits ≤ self.old.commits + 1 }
        ensures in_flight { LeavesWords self.new (act_outcome_of result) (D.view device.old).flight (D.view device.new).flight }
        ensures in_step { result ≢ Err RunFault.Sink → StaysInStep (D.view device.old).slots self.old self.new (D.view device.old).events (D.view device.new).events (D.view device.old).flight (D.view device.new).flight }
        ensures leaves { Leaves K.taken K.faults sink.old sink.new (D.view device.old) (D.view device.new) (result ≡ Err RunFault.Sink) (result ≡ Err RunFault.Device) }
    {
        if let Some((after, then)) = self.turn_ahead() {
            match self.come_to(after, then, sink, device) {
                Ok(()) => {}
                Err(fault) => return Err(fault),
            }
            match self.hand_over(after, then, device) {
                Ok(()) => {}
                Err(AllocError) => return Err(RunFault::Memory),
            }
        }
        self.complete(sink, device)
    }

    // Behind how many writes the commit under way is turned, if it is to be and has more, and how it goes on then.
    fn turn_ahead(&self) -> Option<(u32, Then)>
        requires held { IsSome self.now.manager.held }
        ensures ahead { IfSome result (λ turn. (self.now.fate ≡ Fate.Turns turn.0 turn.1) × HasMoreThan turn.0 self.now) }
        ensures none { IsNone result → IfSome (turn_of self.now.fate) (λ after. ¬ (HasMoreThan after self.now)) }
    {
        let Fate::Turns { after, then } = self.fate else {
            return None;
        };
        let left = self.manager.left()?;
        if self.count.told + left > u64::from(after) {
            Some((after, then))
        } else {
            None
        }
    }

    // Makes and tells the writes up to the turn.
    fn come_to<K: Sink, D: ReadBack>(
        &mut self,
        after: u32,
        then: Then,
        sink: &mut K,
        device: &mut D,
    ) -> Result<(), RunFault>
        requires slots { self.old.manager.slots ≤ (D.view device.old).slots }
        requires in_flight { AreLeft self.old (D.view device.old).flight }
        requires turns { self.old.fate ≡ Fate.Turns after then }
        requires held { IsSome self.old.manager.held }
        requires more { HasMoreThan after self.old }
        requires room { HasRoomBothWays self.old.manager.held (D.view device.old).spare }
        ensures comes { (which : Bool) → (before : Progress) → (front : List Effect) → IsUnfinished (D.view device.old).slots before front self.old
            → IsAt (D.view device.old).slots (D.view device.old).events (progress_of (D.view device.old).slots self.old)
            → AreCurrent (live_now self.old.manager) (D.view device.old).flight
            → ComesToTurn (D.view device.old).slots before (commit_act self.old.fate) front self.new result
            (outside (D.view device.old).events (counted which (K.taken sink.old) (K.accepted sink.old)))
            (outside (D.view device.new).events (counted which (K.taken sink.new) (K.accepted sink.new))) (D.view device.new).flight }
        ensures at_turn { OnOk result (IsAtTurn after then self.new) }
        ensures stands { OnOk result (IsAt (D.view device.old).slots (D.view device.old).events (progress_of (D.view device.old).slots self.old)
            → IsAt (D.view device.new).slots (D.view device.new).events (progress_of (D.view device.new).slots self.new)) }
        ensures kind { IfErr result (λ fault. (fault ≡ RunFault.Sink) ⊎ (fault ≡ RunFault.Device)) }
        ensures broken { self.new.broken ≡ self.old.broken }
        ensures fate { self.new.fate ≡ self.old.fate }
        ensures room { HasRoomBothWays self.new.manager.held (D.view device.new).spare }
        ensures setting { setting_of self.new ≡ setting_of self.old }
        ensures commits { self.new.commits ≡ self.old.commits }
        ensures in_flight { result ≢ Err RunFault.Sink → AreLeft self.new (D.view device.new).flight }
        ensures in_step { result ≢ Err RunFault.Sink → StaysInStep (D.view device.old).slots self.old self.new (D.view device.old).events (D.view device.new).events (D.view device.old).flight (D.view device.new).flight }
        ensures leaves { Leaves K.taken K.faults sink.old sink.new (D.view device.old) (D.view device.new) (result ≡ Err RunFault.Sink) (result ≡ Err RunFault.Device) }
    {
        let (manager, count) = (&mut self.manager, &mut self.count);
        make_up_to(manager, &self.watch, count, after, sink, device)
    }

    // Has the commit go on from its turn so. Only a restart takes memory.
    fn hand_over<D: ReadBack>(
        &mut self,
        after: u32,
        then: Then,
        device: &mut D,
    ) -> Result<(), AllocError>
        requires slots { self.old.manager.slots ≤ (D.view device.old).slots }
        requires at_turn { IsAtTurn after then self.old }
        requires stands { IsToCrash self.old.fate → IsAt (D.view device.old).slots (D.view device.old).events (progress_of (D.view device.old).slots self.old) }
        requires room { HasRoomBothWays self.old.manager.held (D.view device.old).spare }
        ensures turned { OnOk result (IsTurned after then self.old self.new) }
        ensures unfinished { OnOk result ((before : Progress) → (front : List Effect)
            → IsUnfinished (D.view device.old).slots before front self.old → IsUnfinished (D.view device.old).slots before front self.new) }
        ensures stands { OnOk result (progress_of (D.view device.old).slots self.new ≡ progress_of (D.view device.old).slots self.old) }
        ensures current { OnOk result (AreCurrent (live_now self.old.manager) (D.view device.old).flight → AreCurrent (live_now self.new.manager) (D.view device.new).flight) }
        ensures wants { OnErr result ((before : Progress) → (front : List Effect)
            → IsUnfinished (D.view device.old).slots before front self.old → TakesAtCrash (setting_of self.old) before (commit_act self.old.fate) front) }
        ensures lost { OnErr result (IsLost self.old self.new) }
        ensures setting { setting_of self.new ≡ setting_of self.old }
        ensures room { HasRoomBothWays self.new.manager.held (D.view device.new).spare }
        ensures others { IsSameButSpare (D.view device.old) (D.view device.new) }
        ensures kind { OnErr result (IsToCrash self.old.fate) }
    {
        match then {
            Then::Back => {
                self.take_back(after);
                Ok(())
            }
            Then::Restart => self.restart(after, device),
        }
    }

    // Turns the commit round: what undoes its writes is left to make. The words in flight stay as they are.
    fn take_back(&mut self, after: u32)
        requires at_turn { IsAtTurn after Then.Back self.old }
        ensures turned { IsTurned after Then.Back self.old self.new }
        ensures unfinished { (slots : ℕ) → (before : Progress) → (front : List Effect) → IsUnfinished slots before front self.old → IsUnfinished slots before front self.new }
        ensures stands { (slots : ℕ) → progress_of slots self.new ≡ progress_of slots self.old }
        ensures current { live_now self.new.manager ≡ live_now self.old.manager }
        ensures setting { setting_of self.new ≡ setting_of self.old }
        ensures room { (spare : ℕ) → HasRoomBothWays self.old.manager.held spare → HasRoomBothWays self.new.manager.held spare }
    {
        // One that `prepare` planned and that isn't turned is taken back.
        let _writes = self.manager.abort();
        self.fate = Fate::Turned {
            after,
            then: Then::Back,
        };
    }

    // Drops the manager, and has another one go on with the commit by what the device shows, with the words in flight
    // as they are. For want of memory no call may follow.
    fn restart<D: ReadBack>(&mut self, after: u32, device: &mut D) -> Result<(), AllocError>
        requires slots { self.old.manager.slots ≤ (D.view device.old).slots }
        requires at_turn { IsAtTurn after Then.Restart self.old }
        requires stands { IsAt (D.view device.old).slots (D.view device.old).events (progress_of (D.view device.old).slots self.old) }
        requires room { HasRoomBothWays self.old.manager.held (D.view device.old).spare }
        ensures turned { OnOk result (IsTurned after Then.Restart self.old self.new) }
        ensures unfinished { OnOk result ((before : Progress) → (front : List Effect)
            → IsUnfinished (D.view device.old).slots before front self.old → IsUnfinished (D.view device.old).slots before front self.new) }
        ensures stands { OnOk result (progress_of (D.view device.old).slots self.new ≡ progress_of (D.view device.old).slots self.old) }
        ensures current { OnOk result (AreCurrent (live_now self.old.manager) (D.view device.old).flight → AreCurrent (live_now self.new.manager) (D.view device.new).flight) }
        ensures wants { OnErr result ((before : Progress) → (front : List Effect)
            → IsUnfinished (D.view device.old).slots before front self.old → TakesAtCrash (setting_of self.old) before (commit_act self.old.fate) front) }
        ensures lost { OnErr result (IsLost self.old self.new) }
        ensures setting { setting_of self.new ≡ setting_of self.old }
        ensures room { HasRoomBothWays self.new.manager.held (D.view device.new).spare }
        ensures others { IsSameButSpare (D.view device.old) (D.view device.new) }
    {
        let (slots, mode, placement) = self.manager.setting();
        // The words in flight are current for the ranges that the other manager finds.
        self.manager.serving();
        let blank = match Manager::new(self.alloc, slots, mode, placement) {
            Ok(blank) => blank,
            Err(AllocError) => {
                self.broken = true;
                return Err(AllocError);
            }
        };
        let parts = replace(&mut self.manager, blank).into_parts();
        match Manager::restart(
            self.alloc,
            slots,
            mode,
            placement,
            parts,
            &self.pending,
            device,
        ) {
            Ok(manager) => {
                self.manager = manager;
                self.fate = Fate::Turned {
                    after,
                    then: Then::Restart,
                };
                Ok(())
            }
            Err((RestartFault::Stage(StageFault::Memory), _)) => {
                self.count = NOTHING;
                self.fate = Fate::Finishes;
                self.broken = true;
                Err(AllocError)
            }
            // The device shows a stage of the commit, and the parts are those of its manager.
            Err(_) => unreachable!(),
        }
    }

    // Makes and tells the writes that are left of a commit that comes to its end by the manager that it has, counts it,
    // drops its batch, and writes its line.
    fn complete<K: Sink, D: ReadBack>(
        &mut self,
        sink: &mut K,
        device: &mut D,
    ) -> Result<(), RunFault>
        requires slots { self.old.manager.slots ≤ (D.view device.old).slots }
        requires in_flight { AreLeft self.old (D.view device.old).flight }
        requires held { IsSome self.old.manager.held }
        requires no_turn { IfSome (turn_of self.old.fate) (λ after. ¬ (HasMoreThan after self.old)) }
        requires room { HasRoomBothWays self.old.manager.held (D.view device.old).spare }
        requires commits { self.old.commits < 2 ^ 28 }
        ensures resumes { (which : Bool) → (before : Progress) → (front : List Effect) → IsUnfinished (D.view device.old).slots before front self.old
            → IsAt (D.view device.old).slots (D.view device.old).events (progress_of (D.view device.old).slots self.old)
            → AreCurrent (live_now self.old.manager) (D.view device.old).flight
            → ResumesTo (D.view device.old).slots before (commit_act self.old.fate) front self.new result
            (outside (D.view device.old).events (counted which (K.taken sink.old) (K.accepted sink.old)))
            (outside (D.view device.new).events (counted which (K.taken sink.new) (K.accepted sink.new))) (D.view device.new).flight }
        ensures kind { IfErr result (λ fault. (fault ≡ RunFault.Sink) ⊎ (fault ≡ RunFault.Device)) }
        ensures idle { OnOk result (self.new.manager.held ≡ None) }
        ensures broken { self.new.broken ≡ self.old.broken }
        ensures room { HasRoomBothWays self.new.manager.held (D.view device.new).spare }
        ensures setting { setting_of self.new ≡ setting_of self.old }
        ensures commits { self.new.commits ≤ self.old.commits + 1 }
        ensures in_flight { LeavesWords self.new (act_outcome_of result) (D.view device.old).flight (D.view device.new).flight }
        ensures in_step { result ≢ Err RunFault.Sink → StaysInStep (D.view device.old).slots self.old self.new (D.view device.old).events (D.view device.new).events (D.view device.old).flight (D.view device.new).flight }
        ensures leaves { Leaves K.taken K.faults sink.old sink.new (D.view device.old) (D.view device.new) (result ≡ Err RunFault.Sink) (result ≡ Err RunFault.Device) }
    {
        let (manager, count, fate) = (&mut self.manager, &mut self.count, self.fate);
        let ended = match make_until(manager, &self.watch, count, None, sink, device) {
            Ok(Some(ended)) => ended,
            // There is no turn to stop for.
            Ok(None) => unreachable!(),
            Err(fault) => return Err(fault),
        };
        let count = self.count;
        self.count = NOTHING;
        self.fate = Fate::Finishes;
        self.count_commit();
        self.writes += count.told;
        match self.watch.search_all(&count, sink, device) {
            Ok(()) => {}
            Err(Failed) => return Err(RunFault::Sink),
        }
        match write_ended(
            sink,
            self.watch.is_json(),
            self.early,
            self.commits,
            fate,
            &ended,
            count.told,
        ) {
            Ok(()) => Ok(()),
            Err(Failed) => Err(RunFault::Sink),
        }
    }

    /// Counts a commit, and drops its batch.
    pub(crate) fn count_commit(&mut self)
        requires idle { self.old.manager.held ≡ None }
        requires commits { self.old.commits < 2 ^ 28 }
        ensures { self.new ≡ record self.old { pending = []; commits = self.old.commits + 1 } }
    {
        self.pending.clear();
        self.commits += 1;
    }
}

// The line of a commit that has come to its end, in JSON or in words, by its number, from 1, by what became of it, and
// by its writes.
fn write_ended<K: Sink>(
    sink: &mut K,
    json: bool,
    early: bool,
    commit: u32,
    fate: Fate,
    ended: &Ended,
    writes: u64,
) -> Result<(), Failed>
    ensures { WritesLine K.taken K.accepted K.faults sink.old sink.new (ended_line json early commit fate ended.now writes) result }
{
    match ended {
        Ended::Finished(done) => match fate {
            Fate::Turned { after, .. } => write_restarted(sink, commit, after, writes),
            Fate::Finishes | Fate::Turns { .. } => write_finished(sink, json, early, commit, done),
        },
        Ended::Reverted => write_aborted(sink, commit, writes),
    }
}

// The line of a commit that finished, in JSON or in words, by its number, from 1, and what it did.
fn write_finished<K: Sink>(
    sink: &mut K,
    json: bool,
    early: bool,
    commit: u32,
    done: &Done,
) -> Result<(), Failed>
    ensures { WritesLine K.taken K.accepted K.faults sink.old sink.new (done_line json early commit done.now) result }
{
    if json {
        write_shared(sink, &TraceLine::Done(commit))
    } else if early {
        write_early(sink, commit, done)
    } else {
        write_accepted(sink, commit, done)
    }
}

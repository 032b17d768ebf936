//! A run of acts over one device.

ghost use Rattle.std.specs.Prelude.{Bool, false, ◌≡◌, ◌≢◌, ◌⊎◌, ◌+◌, ◌<◌, ◌≤◌, ◌^◌, ◌++◌, ◌∷◌, ◌||◌, [], ℕ, List, Ok, Err, None, IsSome, IfOk, IfErr, OnOk, OnErr, length};
ghost use Rattle.script_lines.specs.Given.{counted};
ghost use Rattle.call_history.specs.Cause.{HasCause};
ghost use Rattle.commit_writes.specs.InFlight.{AreCurrent};
ghost use Rattle.batch_order.specs.CarriedOut.{HasRoomBothWays};
ghost use Rattle.batch_order.specs.Managed.{live_now};
ghost use Rattle.report_lines.specs.Text.{family_version};
ghost use Rattle.replay.specs.Effects.{Effect};
ghost use Rattle.settled_changes.specs.Requested.{changes_in};
ghost use Rattle.replay.specs.Run.{Progress, ending, settled_at};
ghost use Rattle.replay.specs.Script.{limit_fault};
ghost use Rattle.report_lines.specs.Outside.{WritesLine};
ghost use Rattle.report_lines.specs.Sizes.{sizes_by};
ghost use Rattle.replay.specs.Outside.{Leaves, outside};
ghost use Rattle.replay.specs.Carried.{IsAt};
ghost use Rattle.replay.specs.Crashing.{memory_wanted};
ghost use Rattle.replay.specs.Fates.{AnswersBroken, AnswersLost, IsCrash, IsToCrash, commit_act};
ghost use Rattle.replay.specs.Running.{act_outcome_of, AnswersHeld, AreLeft, ComesTo, NothingIsDone, LeavesWords, sink_failed, begun, limit_text, progress_of, setting_of, IsActOf, IsToldIn};
ghost use Rattle.replay.specs.Unfinished.{IsUnfinished, ResumesTo, StaysInStep, StaysUnfinished};

use crate::fate::{Fate, Then};
use crate::report::write_packet;
use crate::watch::{Count, NOTHING, Watch};
use crate::{Act, ActFault, Family, RunFault};
use batch_order::{Manager, Mode, Placement};
use rule_model::{Key, key_fields};
use rule_store::Batch;
use script_lines::{Failed, Sink};
use settled_changes::Requested;
use slot_order::MOST_SLOTS;
use std::alloc::{AllocError, Global};
use std::marker::Model;
use tcam_device::{Device, ReadBack};

/// A run of acts: its manager, what is told of each write, the pending batch, and what the report counts.
#[derive(Drop)]
pub struct Run {
    pub(crate) alloc: Global,
    pub(crate) manager: Manager,
    pub(crate) watch: Watch,
    pub(crate) pending: Batch,
    /// What is asked for beside strict commands alone.
    pub(crate) asked: Requested,
    pub(crate) commits: u32,
    pub(crate) writes: u64,
    pub(crate) refused: bool,
    /// Whether what is pending are removals that go before a rest.
    pub(crate) early: bool,
    /// How far the unfinished commit has come, 0 and 0 where none is unfinished.
    pub(crate) count: Count,
    /// What becomes of the unfinished commit.
    pub(crate) fate: Fate,
    /// Whether no call may follow: the sink failed, or there was no memory to go on with a commit that crashed.
    pub(crate) broken: bool,
}

impl Model for Run {
    ghost use Rattle.replay.specs.Running.{Running, IsRun};

    ghost Value = { Running };

    ghost view = { λ r. record { manager = r.manager; family = r.watch.family; trace = r.watch.trace; depth = r.watch.depth; json = r.watch.json; names = r.watch.names; parts = r.watch.parts; large = r.watch.large; probes = r.watch.probes; pending = r.pending; asked = r.asked; commits = r.commits; writes = r.writes; refused = r.refused; early = r.early; told = r.count.told; waiting = r.count.waiting; fate = r.fate; broken = r.broken } };

    ghost invariant = { λ r. IsRun (record { manager = r.manager; family = r.watch.family; trace = r.watch.trace; depth = r.watch.depth; json = r.watch.json; names = r.watch.names; parts = r.watch.parts; large = r.watch.large; probes = r.watch.probes; pending = r.pending; asked = r.asked; commits = r.commits; writes = r.writes; refused = r.refused; early = r.early; told = r.count.told; waiting = r.count.waiting; fate = r.fate; broken = r.broken }) };
}

impl Run {
    /// A run before its first act, over a blank device with so many slots in use, 1 to `MOST_SLOTS`: no rules, no probe, and
    /// no change pending. The mode says how port ranges are tested, and each insertion aims where the placement says.
    /// With a trace each write of a commit has its line. The words of the probes are searched a depth of writes after
    /// the one that they were made behind, at most 15. In JSON the report has the lines of a trace file of the family's
    /// version of IP: its head before its first line; of each accepted commit its number, its commands, its writes and
    /// drains, and that it is done; the number of a refused one; and a last line. Neither a trace nor a probe or packet
    /// adds to it. With names a trace tells what each write does, by what the slots hold before it, the rule by its name and
    /// what its entry tests in the words of a script. It fails only for want of memory.
    pub fn new(
        alloc: Global,
        slots: u32,
        mode: Mode,
        placement: Placement,
        family: Family,
        trace: bool,
        depth: u32,
        json: bool,
        names: bool,
    ) -> Result<Run, AllocError>
        requires least { 1 ≤ slots }
        requires most { slots ≤ MOST_SLOTS }
        requires depth { depth ≤ 15 }
        ensures { IfOk result (λ run. run ≡ begun slots mode placement family trace depth json names) }
    {
        Ok(Run {
            alloc,
            manager: Manager::new(alloc, slots, mode, placement)?,
            watch: Watch::new(alloc, family, trace, depth, json, names)?,
            pending: Batch::new(alloc),
            asked: Requested::Nothing,
            commits: 0,
            writes: 0,
            refused: false,
            early: false,
            count: NOTHING,
            fate: Fate::Finishes,
            broken: false,
        })
    }

    /// The family of the run's scripts.
    pub fn family(&self) -> Family
        ensures { result ≡ self.now.family }
    {
        self.watch.family()
    }

    /// Whether the report is in JSON.
    pub fn is_json(&self) -> bool
        ensures { result ≡ self.now.json }
    {
        self.watch.is_json()
    }

    /// Whether no call may follow: the sink failed, or there was no memory to go on with a commit that crashed. Behind
    /// `Memory` it tells whether the run is as before.
    pub fn is_broken(&self) -> bool
        ensures { result ≡ self.now.broken }
    {
        self.broken
    }

    /// Carries out an act of a script of the run's family, over a device with at least as many slots as the run uses.
    /// In a script of routes each rule that is added is one of an IPv4 prefix. A run that reports in JSON takes neither
    /// a trial nor a crash, and of commands those whose numbers are within the limits of a trace. The device is where the
    /// run stands: it was blank before the first act, and nobody else has written it since. The run has made fewer than
    /// 268,435,456 commits.
    ///
    /// A change joins the pending batch. With 4,096 changes pending, or 1,048,576 where large batches may wait, the answer is
    /// `BatchFull`, and nothing has changed. One that doesn't ask what is there has the batch settled over the set at its
    /// commit, to a batch of strict commands that leads where its changes say, one after the other, so that of several of
    /// these the last counts; where a strict change and such a one name the same rule, the commit is refused by the later of
    /// the two. `All` has the changes from there to the commit make the whole new set, what they make of no rules, and a
    /// commit right behind it leaves none. With changes pending the answer to it is `ChangesPending`, and nothing has
    /// changed.
    ///
    /// A probe is looked up after each later write. With 16 probes the answer is `ProbesFull`, and nothing has
    /// changed. A packet's line is what the set answers; the device is asked, which holds the run's writes and so
    /// answers the same.
    ///
    /// A commit is judged by the set, the batch and the slots alone. A refused one writes nothing to the device: its
    /// line is written, with the first reason, and the set stays. An accepted one makes its writes one at a time, and
    /// none of them leaves a state in which a packet gets another answer than the old set's or the new one's. After
    /// each write its line is written, where a trace is wanted, then a word is made of each probe, and the words that
    /// were made a depth of writes before are searched, each with its line. Then the set is the one after the batch,
    /// and the commit's line is written, with its numbers. Either is counted, and drops the batch.
    ///
    /// `Held` comes exactly where a commit is unfinished after `Device`, before any other answer, with the writes that
    /// are left; nothing has changed. `Memory` comes at a change, or at a commit that would be accepted or is to be
    /// settled. Nothing was done then, and the run is as before, unless it came at a crash, as below. `Sink` comes
    /// exactly where the sink's count of failures rose: all that comes before the line was done, and a part of the line was taken, perhaps none
    /// or all of it. No call may follow it. `Device` comes where one write failed four times, and the device's count of
    /// failures rose by that: the writes of the commit before the failed one were made and told, and its line wasn't
    /// written. The rest of it is held, and `resume` goes on with it. A write that fails less often is made, once, and
    /// nothing tells of its failures.
    ///
    /// A trial is a commit that is taken back right after so many writes, where it has more: each of them is undone,
    /// the last first, by a write that has its line as any other, and the set, the live ranges and the device are as
    /// before.
    ///
    /// A crash is a commit whose manager is dropped right after so many writes, where it has more. Another one is made
    /// of the set, of the batch and of what the device shows, and makes the writes that are left: they are counted on
    /// from those before, and the commit's line tells how many these were. Over the crash, too, each packet gets the
    /// old answer or the new one. `Memory` may come at the crash as well. The writes before it were made and told then,
    /// and no call may follow.
    ///
    /// While no commit is unfinished no word is in flight. The words of the probes are in flight within a commit alone,
    /// and all of them are searched before its drain and before its line. Each line tells what an undivided look-up of
    /// its probe's key would find at the moment of the search. A drain is no write; with a trace it has its line.
    pub fn apply<K: Sink, D: ReadBack>(
        &mut self,
        act: &Act,
        sink: &mut K,
        device: &mut D,
    ) -> Result<(), ActFault>
        requires slots { self.old.manager.slots ≤ (D.view device.old).slots }
        requires none_in_flight { self.old.manager.held ≡ None → (D.view device.old).flight ≡ [] }
        requires act { IsActOf self.old.family act.now }
        requires told { IsToldIn self.old.json (family_version self.old.family) act.now }
        requires whole { self.old.broken ≡ false }
        requires stands { IsCrash act.now → IsAt (D.view device.old).slots (D.view device.old).events (progress_of (D.view device.old).slots self.old) }
        requires commits { self.old.commits < 2 ^ 28 }
        ensures acts { (which : Bool) → ComesTo (D.view device.old).slots self.old act.now self.new result
            (D.view device.old).events (D.view device.new).events (counted which (K.taken sink.old) (K.accepted sink.old)) (counted which (K.taken sink.new) (K.accepted sink.new)) }
        ensures held { AnswersHeld self.old.manager.held result }
        ensures limit { self.old.manager.held ≡ None → limit_text result ≡ limit_fault (sizes_by self.old.large).commands act.now (changes_in self.old.pending self.old.asked) (length self.old.probes) }
        ensures idle { OnOk result (self.new.manager.held ≡ None) }
        ensures unfinished { (which : Bool) → result ≡ Err (ActFault.Stopped RunFault.Device) → IsAt (D.view device.old).slots (D.view device.old).events (progress_of (D.view device.old).slots self.old)
            → StaysUnfinished (D.view device.old).slots (settled_at (progress_of (D.view device.old).slots self.old)) act.now [] self.new
            (outside (D.view device.old).events (counted which (K.taken sink.old) (K.accepted sink.old)))
            (outside (D.view device.new).events (counted which (K.taken sink.new) (K.accepted sink.new))) (D.view device.new).flight }
        ensures broken { AnswersBroken act.now result self.new.broken }
        ensures room { HasRoomBothWays self.old.manager.held (D.view device.old).spare → HasRoomBothWays self.new.manager.held (D.view device.new).spare }
        ensures setting { setting_of self.new ≡ setting_of self.old }
        ensures commits { self.new.commits ≤ self.old.commits + 1 }
        ensures in_flight { LeavesWords self.new result (D.view device.old).flight (D.view device.new).flight }
        ensures in_step { StaysInStep (D.view device.old).slots self.old self.new (D.view device.old).events (D.view device.new).events (D.view device.old).flight (D.view device.new).flight }
        ensures leaves { Leaves K.taken K.faults sink.old sink.new (D.view device.old) (D.view device.new) (result ≡ Err (ActFault.Stopped RunFault.Sink)) (result ≡ Err (ActFault.Stopped RunFault.Device)) }
    {
        if let Some(left) = self.manager.left() {
            return Err(ActFault::Held { left });
        }
        let result = self.perform(act, sink, device);
        self.mark(&result);
        result
    }

    /// Goes on with a commit that is unfinished after `Device`, from the write that failed, which has four tries again,
    /// through the commit's line. Its writes keep their numbers, and no write and no line comes twice. `Ok` says that
    /// no commit is unfinished, and where none was, nothing is done. It asks for the device as it was left, with the
    /// words in flight that were left: those of the probes, for the last writes that were told.
    ///
    /// `Device` comes as in `apply`, and then `resume` may be called again: the caller says how often, and how long it
    /// waits between. `Sink` comes as there, too, and no call may follow it. A commit that is still to crash goes on to
    /// its crash and over it, and `Memory` may come there, as in `apply`. Nothing else comes, since all other memory
    /// for the commit was taken before its first write.
    pub fn resume<K: Sink, D: ReadBack>(
        &mut self,
        sink: &mut K,
        device: &mut D,
    ) -> Result<(), RunFault>
        requires slots { self.old.manager.slots ≤ (D.view device.old).slots }
        requires in_flight { AreLeft self.old (D.view device.old).flight }
        requires whole { self.old.broken ≡ false }
        requires room { HasRoomBothWays self.old.manager.held (D.view device.old).spare }
        requires stands { IsToCrash self.old.fate → IsAt (D.view device.old).slots (D.view device.old).events (progress_of (D.view device.old).slots self.old) }
        requires commits { self.old.commits < 2 ^ 28 }
        ensures resumes { (which : Bool) → (before : Progress) → (front : List Effect) → IsUnfinished (D.view device.old).slots before front self.old
            → IsAt (D.view device.old).slots (D.view device.old).events (progress_of (D.view device.old).slots self.old)
            → AreCurrent (live_now self.old.manager) (D.view device.old).flight
            → ResumesTo (D.view device.old).slots before (commit_act self.old.fate) front self.new result
            (outside (D.view device.old).events (counted which (K.taken sink.old) (K.accepted sink.old)))
            (outside (D.view device.new).events (counted which (K.taken sink.new) (K.accepted sink.new))) (D.view device.new).flight }
        ensures nothing { (which : Bool) → self.old.manager.held ≡ None → (result ≡ Ok tt) × NothingIsDone self.old self.new
            (D.view device.old).events (D.view device.new).events (counted which (K.taken sink.old) (K.accepted sink.old)) (counted which (K.taken sink.new) (K.accepted sink.new)) }
        ensures kind { IfErr result (λ fault. (fault ≡ RunFault.Sink) ⊎ ((fault ≡ RunFault.Device) ⊎ ((fault ≡ RunFault.Memory) × IsToCrash self.old.fate))) }
        ensures idle { OnOk result (self.new.manager.held ≡ None) }
        ensures broken { self.new.broken ≡ (memory_wanted result || sink_failed (act_outcome_of result)) }
        ensures room { HasRoomBothWays self.new.manager.held (D.view device.new).spare }
        ensures setting { setting_of self.new ≡ setting_of self.old }
        ensures commits { self.new.commits ≤ self.old.commits + 1 }
        ensures in_flight { LeavesWords self.new (act_outcome_of result) (D.view device.old).flight (D.view device.new).flight }
        ensures in_step { StaysInStep (D.view device.old).slots self.old self.new (D.view device.old).events (D.view device.new).events (D.view device.old).flight (D.view device.new).flight }
        ensures leaves { Leaves K.taken K.faults sink.old sink.new (D.view device.old) (D.view device.new) (result ≡ Err RunFault.Sink) (result ≡ Err RunFault.Device) }
    {
        if self.manager.left().is_none() {
            return Ok(());
        }
        let result = self.carry_out(sink, device);
        self.mark(&act_outcome(&result));
        result
    }

    // Remembers whether the sink failed.
    fn mark(&mut self, outcome: &Result<(), ActFault>)
        ensures { self.new ≡ record self.old { broken = self.old.broken || sink_failed outcome.now } }
    {
        let failed = matches!(outcome, Err(ActFault::Stopped(RunFault::Sink)));
        self.broken = self.broken || failed;
    }

    // Carries out an act while no commit is unfinished.
    fn perform<K: Sink, D: ReadBack>(
        &mut self,
        act: &Act,
        sink: &mut K,
        device: &mut D,
    ) -> Result<(), ActFault>
        requires slots { self.old.manager.slots ≤ (D.view device.old).slots }
        requires none_in_flight { (D.view device.old).flight ≡ [] }
        requires act { IsActOf self.old.family act.now }
        requires told { IsToldIn self.old.json (family_version self.old.family) act.now }
        requires idle { self.old.manager.held ≡ None }
        requires whole { self.old.broken ≡ false }
        requires stands { IsCrash act.now → IsAt (D.view device.old).slots (D.view device.old).events (progress_of (D.view device.old).slots self.old) }
        requires commits { self.old.commits < 2 ^ 28 }
        ensures acts { (which : Bool) → ComesTo (D.view device.old).slots self.old act.now self.new result
            (D.view device.old).events (D.view device.new).events (counted which (K.taken sink.old) (K.accepted sink.old)) (counted which (K.taken sink.new) (K.accepted sink.new)) }
        ensures taken { AnswersHeld None result }
        ensures limit { limit_text result ≡ limit_fault (sizes_by self.old.large).commands act.now (changes_in self.old.pending self.old.asked) (length self.old.probes) }
        ensures idle { OnOk result (self.new.manager.held ≡ None) }
        ensures unfinished { (which : Bool) → result ≡ Err (ActFault.Stopped RunFault.Device) → IsAt (D.view device.old).slots (D.view device.old).events (progress_of (D.view device.old).slots self.old)
            → StaysUnfinished (D.view device.old).slots (settled_at (progress_of (D.view device.old).slots self.old)) act.now [] self.new
            (outside (D.view device.old).events (counted which (K.taken sink.old) (K.accepted sink.old)))
            (outside (D.view device.new).events (counted which (K.taken sink.new) (K.accepted sink.new))) (D.view device.new).flight }
        ensures broken { AnswersLost act.now result self.new.broken }
        ensures room { HasRoomBothWays self.new.manager.held (D.view device.new).spare }
        ensures setting { setting_of self.new ≡ setting_of self.old }
        ensures commits { self.new.commits ≤ self.old.commits + 1 }
        ensures in_flight { LeavesWords self.new result (D.view device.old).flight (D.view device.new).flight }
        ensures in_step { result ≢ Err (ActFault.Stopped RunFault.Sink) → StaysInStep (D.view device.old).slots self.old self.new (D.view device.old).events (D.view device.new).events (D.view device.old).flight (D.view device.new).flight }
        ensures leaves { Leaves K.taken K.faults sink.old sink.new (D.view device.old) (D.view device.new) (result ≡ Err (ActFault.Stopped RunFault.Sink)) (result ≡ Err (ActFault.Stopped RunFault.Device)) }
    {
        match *act {
            Act::Command(command) => self.push(command),
            Act::Ask(request) => self.ask(request),
            Act::All => self.begin_whole(),
            Act::Probe(key) => self.probe(key),
            Act::Packet(key) => self.packet(&key, sink, device),
            Act::Commit => self.commit(Fate::Finishes, sink, device),
            Act::Trial(after) => self.commit(
                Fate::Turns {
                    after,
                    then: Then::Back,
                },
                sink,
                device,
            ),
            Act::Crash(after) => self.commit(
                Fate::Turns {
                    after,
                    then: Then::Restart,
                },
                sink,
                device,
            ),
        }
    }

    // A key is probed from now on.
    fn probe(&mut self, key: Key) -> Result<(), ActFault>
        requires idle { self.old.manager.held ≡ None }
        ensures probed { OnOk result (self.new ≡ record self.old { probes = self.old.probes ++ key ∷ [] }) }
        ensures limit { limit_text result ≡ limit_fault (sizes_by self.old.large).commands (Act.Probe key) (length self.old.pending) (length self.old.probes) }
        ensures unchanged { OnErr result (self.new ≡ self.old) }
        ensures kind { IfErr result (λ fault. fault ≡ ActFault.ProbesFull) }
    {
        if self.watch.is_full() {
            return Err(ActFault::ProbesFull);
        }
        self.watch.probe(key);
        Ok(())
    }

    // Looks a packet up, and writes what it finds.
    fn packet<K: Sink, D: Device>(
        &self,
        key: &Key,
        sink: &mut K,
        device: &D,
    ) -> Result<(), ActFault>
        requires slots { self.now.manager.slots ≤ (D.view device.now).slots }
        requires idle { self.now.manager.held ≡ None }
        ensures acts { (which : Bool) → ComesTo (D.view device.now).slots self.now (Act.Packet key.now) self.now result
            (D.view device.now).events (D.view device.now).events (counted which (K.taken sink.old) (K.accepted sink.old)) (counted which (K.taken sink.new) (K.accepted sink.new)) }
        ensures kind { IfErr result (λ fault. fault ≡ ActFault.Stopped RunFault.Sink) }
        ensures told { IsSome (K.taken sink.old) → IsSome (K.taken sink.new) }
        ensures cause { HasCause (K.faults sink.old) (K.faults sink.new) result }
    {
        key_fields(key);
        if self.watch.is_json() {
            return Ok(());
        }
        match write_packet(sink, self.watch.family(), device.look(key)) {
            Ok(()) => Ok(()),
            Err(Failed) => Err(ActFault::Stopped(RunFault::Sink)),
        }
    }

    /// Writes the last line of a run that came to its end: the rules of the set, their entries, the device writes of
    /// its commits, none of which is unfinished, and the changes that are pending. Answers whether a commit was
    /// refused. Where the sink fails, a part of the line was taken, perhaps none or all of it. The run stays as it was.
    pub fn finish<K: Sink>(&mut self, sink: &mut K) -> Result<bool, Failed>
        requires whole { self.old.broken ≡ false }
        requires idle { self.old.manager.held ≡ None }
        ensures refused { IfOk result (λ refused. refused ≡ self.old.refused) }
        ensures unchanged { self.new ≡ self.old }
        ensures line { (device_slots : ℕ) → WritesLine K.taken K.accepted K.faults sink.old sink.new (ending (setting_of self.old) (progress_of device_slots self.old)) result }
    {
        match self.tell_end(sink) {
            Ok(()) => Ok(self.refused),
            Err(Failed) => Err(Failed),
        }
    }
}

/// What an act answers whose commit comes to this.
pub(crate) fn act_outcome(outcome: &Result<(), RunFault>) -> Result<(), ActFault>
    ensures { result ≡ act_outcome_of outcome.now }
{
    match *outcome {
        Ok(()) => Ok(()),
        Err(fault) => Err(ActFault::Stopped(fault)),
    }
}

//! The manager of one device.

ghost use Rattle.std.specs.Prelude.{◌≡◌, ◌+◌, ◌-◌, ◌*◌, ◌^◌, [], ◌≤◌, ◌<◌, ℕ, Option, Some, None, Err, IfSome, IsSome, IfOk, IfErr, OnOk, OnErr, length, map, option_map};
ghost use Rattle.std.specs.List.{AllByRecursion};
ghost use Rattle.call_history.specs.Cause.{HasCause};
ghost use Rattle.tcam_device.specs.declared.Write.{Write};
ghost use Rattle.tcam_device.specs.State.{Shows, State, apply, on_device};
ghost use Rattle.tcam_device.specs.Flight.{writes_in};
ghost use Rattle.tcam_device.specs.Hitless.{ShowsOldOrNew};
ghost use Rattle.tcam_device.specs.View.{HasMade, IsSameButSpare, IsUntouched, device_state, journal};
ghost use Rattle.rule_store.specs.Verdict.{entries_of, slots_verdict, verdict, Accepted};
ghost use Rattle.rule_store.specs.Batch.{ChangesRules, batch_fault};
ghost use Rattle.commit_writes.specs.Changes.{coded_by, during_of};
ghost use Rattle.readback.specs.Judged.{judgement};
ghost use Rattle.batch_order.specs.Managed.{Managed, Judges, Holds, IsOn, Serves, fresh, live_now};
ghost use Rattle.batch_order.specs.Steps.{Aborts, KeepsCurrent, ServesNow, Steps, actions_of, next_of};
ghost use Rattle.batch_order.specs.Turning.{IsHeldRight};
ghost use Rattle.batch_order.specs.Passed.{WayBackFrom};
ghost use Rattle.commit_writes.specs.Bits.{bits_with};
ghost use Rattle.commit_writes.specs.Serving.{HaveFreeBits};
ghost use Rattle.commit_writes.specs.Shape.{fresh_writes};
ghost use Rattle.batch_order.specs.Noting.{BeginsWithWords, IsUnnoted};
ghost use Rattle.batch_order.specs.Planning.{all_writes};
ghost use Rattle.batch_order.specs.Laws.{StepLeaves};
ghost use Rattle.batch_order.specs.CarriedOut.{GoesForward, HasCarried, HasRoomBothWays, HasRoomLeft, IsServed, IsStuckBy, IsTried, StopsBy, ahead, done_of, finished};

use crate::entries::LiveEntries;
use crate::held::Held;
use crate::parts::parts_of;
use crate::plan::{Plan, erase_all};
use crate::planned_writes::PlannedWrite;
use crate::stood::Stood;
use crate::translation::{
    Translation, blank_translation, check_field, encoding, gives_bits, plan_words,
};
use crate::writes::plan_writes;
use crate::{AbortFault, Done, Field, Placement, Refusal, Rejection, Step, Unfinished};
use commit_writes::FieldBits;
use rule_store::{Batch, Mode, Store};
use slot_order::MOST_SLOTS;
use slot_pool::Arrangement;
use std::alloc::{AllocError, Global};
use std::marker::Model;
use tcam_device::{DeviceFault, Writable, Write};

/// The numbers where no commit is under way.
const NOTHING_DONE: Done = Done {
    writes: 0,
    words: 0,
    most: 0,
    span: 0,
};

/// The manager of one device: its rules, where their entries stand, and the commit under way, if there is one.
#[derive(Drop)]
pub struct Manager {
    pub(crate) alloc: Global,
    pub(crate) placement: Placement,
    /// What is live and stands before the writes of a commit under way: none by covers.
    pub(crate) translation: Option<Translation>,
    pub(crate) rules: Store,
    pub(crate) live: LiveEntries,
    /// Where the entries of the set stand, before the writes of a commit under way; where a restart goes on with one,
    /// those that the device showed. Only proofs know it.
    pub(crate) arrangement: Stood,
    /// Where the entries stand once the writes of the commit under way are made, and with none under way where they stand.
    pub(crate) planned: Arrangement,
    pub(crate) held: Option<Held>,
}

impl Model for Manager {
    ghost use Rattle.std.specs.Prelude.{length, option_map};
    ghost use Rattle.batch_order.specs.Managed.{Managed};
    ghost use Rattle.batch_order.specs.Kept.{IsManaged, bits_of, held_of, mode_of, state_of};
    ghost use Rattle.batch_order.specs.Undoing.{StandsAt};
    ghost use Rattle.batch_order.specs.Entries.{AreTold};

    ghost Value = { Managed };

    ghost view = { λ m. record {
      slots = length m.arrangement;
      mode = mode_of m.translation;
      placement = m.placement;
      rules = m.rules.rules;
      bits = bits_of m.translation;
      state = state_of m.translation m.live.entries m.arrangement m.held;
      held = option_map (held_of m.translation m.arrangement m.rules.rules m.live.entries) m.held;
    } };

    ghost invariant = { λ m. IsManaged m.translation m.rules m.live m.arrangement m.held × StandsAt m.arrangement m.planned m.held × AreTold m.live m.planned };
}

impl Manager {
    /// A manager of a blank device with so many slots in use, 1 to `MOST_SLOTS`, and no rules. By `Cover` a rule takes an entry for
    /// each pair of blocks of its port ranges; by `Bits` it takes one, and each range that isn't one block takes a bit of its
    /// field's translation table. Each insertion aims where the placement says. It fails only for want of memory.
    ///
    /// From here on nobody else may write the device: what is promised of it holds of one that the manager's writes
    /// alone have changed.
    pub fn new(
        alloc: Global,
        slots: u32,
        mode: Mode,
        placement: Placement,
    ) -> Result<Manager, AllocError>
        requires least { 1 ≤ slots }
        requires most { slots ≤ MOST_SLOTS }
        ensures fresh { IfOk result (λ manager. manager ≡ fresh slots mode placement) }
        ensures on_blank { IfOk result (λ manager. (device_slots : ℕ) → slots ≤ device_slots → IsOn device_slots [] manager) }
    {
        let planned = Arrangement::new(alloc, slots)?;
        Ok(Manager {
            alloc,
            placement,
            translation: blank_translation(alloc, mode)?,
            rules: Store::new(alloc),
            live: LiveEntries::new(alloc, slots)?,
            arrangement: Stood::of(&planned),
            planned,
            held: None,
        })
    }

    /// The rules of the set; while a commit is under way, those of the old set. With none under way a device that
    /// holds what the manager's writes left answers as they do, and after each write of a commit each key gets the
    /// answer of the old rules or that of the new ones.
    pub fn rules(&self) -> &Store
        ensures rules { result.now.rules ≡ self.now.rules }
        ensures few { length self.now.rules ≤ MOST_SLOTS }
        ensures answers { self.now.held ≡ None → (device_slots : ℕ) → self.now.slots ≤ device_slots
            → Shows (on_device device_slots self.now.state) self.now.rules }
        ensures on_the_way { IfSome self.now.held (λ held. (device_slots : ℕ) → self.now.slots ≤ device_slots
            → ShowsOldOrNew (on_device device_slots self.now.state) self.now.rules held.rules) }
        ensures serves { ServesNow self.now }
    {
        &self.rules
    }

    /// How many entries the rules of the set take.
    pub fn entries(&self) -> u32
        ensures { result ≡ entries_of self.now.mode self.now.rules }
    {
        self.rules.entries_of(encoding(&self.translation)) as u32
    }

    /// How many writes of the commit under way are still to make, forward, or back once it is turned round. None comes
    /// exactly where no commit is under way.
    pub fn left(&self) -> Option<u64>
        ensures { result ≡ option_map (λ held. length (writes_in held.actions)) self.now.held }
    {
        match &self.held {
            None => None,
            Some(held) => Some(held.left() as u64),
        }
    }

    /// Judges a batch of changes to the rules, over a device with at least the slots in use. Where the batch is taken, all of
    /// its writes are planned, its insertions by the placement, and all memory for them is taken, the device's too: then
    /// nothing can fail for memory until the commit has finished. The device is reserved for twice the writes and a drain, so
    /// that what is made can be undone. The answer has the numbers of the writes. Words in flight stay as they are.
    ///
    /// Refusals are tried in this order. `Busy` comes exactly while a commit is under way, with the writes that are
    /// left. Else the rule lists alone decide (`Rejected`, by [`Rejection`]): `Unsound` by the first command that the set
    /// doesn't take; by bits `Bits`, of the source field before the destination's, where the additions have more new ranges
    /// that aren't one block than bits are free; `Slots` where they need more entries than slots are free. `Memory` comes
    /// last. A refusal writes nothing, and leaves rules, manager, and the device's journal as they were.
    ///
    /// Whatever it answers, each key is answered, by the device's journal, as before: as the rules of the set do, and with
    /// a commit under way already as its old ones or its new ones do.
    pub fn prepare<D: Writable>(&mut self, batch: &Batch, device: &mut D) -> Result<Done, Refusal>
        requires slots { self.old.slots ≤ (D.view device.old).slots }
        ensures judged { Judges self.old self.old.held batch.now result }
        ensures ready { IfOk result (λ counts. Holds self.old batch.now counts self.new) }
        ensures refused { OnErr result (self.new ≡ self.old) }
        ensures reserved { OnOk result (HasRoomBothWays self.new.held (D.view device.new).spare) }
        ensures enough { IfOk result (λ counts. counts.writes ≤ (D.view device.new).spare) }
        ensures way_back { OnOk result (WayBackFrom self.old.state self.new) }
        ensures spare { (D.view device.old).spare ≤ (D.view device.new).spare }
        ensures others { IsSameButSpare (D.view device.old) (D.view device.new) }
        ensures leaves { StepLeaves self.old self.new (D.view device.old).spare (D.view device.new).spare }
        ensures stays_on { IsOn (D.view device.old).slots (journal (D.view device.old)) self.old → IsOn (D.view device.new).slots (journal (D.view device.new)) self.new }
        ensures serves { IsOn (D.view device.old).slots (journal (D.view device.old)) self.old → Serves (device_state (D.view device.new)) self.old.rules self.old.held }
    {
        self.serving();
        let counts = self.plan_commit(batch)?;
        // The writes, those that undo them, and a drain.
        match device.reserve(2 * counts.writes + 1) {
            Ok(()) => Ok(counts),
            Err(AllocError) => {
                self.cancel();
                Err(Refusal::Memory)
            }
        }
    }

    /// Judges a batch and plans its writes as `prepare` does, over no device: for whoever makes the writes elsewhere,
    /// by `next_write`, `drains_next` and `pass`. The answer has the numbers of the writes.
    pub fn plan_commit(&mut self, batch: &Batch) -> Result<Done, Refusal>
        ensures judged { Judges self.old self.old.held batch.now result }
        ensures ready { IfOk result (λ counts. Holds self.old batch.now counts self.new) }
        ensures refused { OnErr result (self.new ≡ self.old) }
        ensures forward { GoesForward self.old.held → GoesForward self.new.held }
        ensures way_back { OnOk result (WayBackFrom self.old.state self.new) }
    {
        if let Some(left) = self.left() {
            return Err(Refusal::Busy { left });
        }
        match self.rules.check(batch) {
            Ok(()) => {}
            Err(fault) => return Err(Refusal::Rejected(Rejection::Unsound(fault))),
        }
        match self.check_room(batch) {
            Ok(()) => {}
            Err(rejection) => return Err(Refusal::Rejected(rejection)),
        }
        batch.changes_rules();
        match self.plan(batch) {
            Ok(counts) => Ok(counts),
            Err(AllocError) => Err(Refusal::Memory),
        }
    }

    /// Whether the batch's new port ranges fit the free bits, and its entries the free slots.
    fn check_room(&self, batch: &Batch) -> Result<(), Rejection>
        requires idle { self.now.held ≡ None }
        requires sound { batch_fault self.now.rules batch.now ≡ None }
        ensures fits { OnOk result (verdict self.now.slots self.now.mode self.now.rules batch.now ≡ Accepted) }
        ensures short { IfErr result (λ rejection. judgement (verdict self.now.slots self.now.mode self.now.rules batch.now) ≡ Err rejection) }
    {
        match &self.translation {
            None => self.check_slots(batch),
            Some(translation) => {
                match check_field(&translation.bits, Field::Src, batch) {
                    Ok(()) => {}
                    Err(short) => return Err(short),
                }
                match check_field(&translation.bits, Field::Dst, batch) {
                    Ok(()) => self.check_slots(batch),
                    Err(short) => Err(short),
                }
            }
        }
    }

    /// Whether the entries that the batch adds fit the free slots.
    fn check_slots(&self, batch: &Batch) -> Result<(), Rejection>
        requires idle { self.now.held ≡ None }
        requires sound { batch_fault self.now.rules batch.now ≡ None }
        ensures fits { OnOk result (slots_verdict self.now.slots self.now.mode self.now.rules batch.now ≡ Accepted) }
        ensures short { IfErr result (λ rejection. judgement (slots_verdict self.now.slots self.now.mode self.now.rules batch.now) ≡ Err rejection) }
    {
        // A batch has `BATCH_COMMANDS` at most, so the number fits.
        let _commands = batch.len();
        let need = self.rules.entries_added(encoding(&self.translation), batch) as u32;
        let free = self.planned.free_count();
        if need > free {
            return Err(Rejection::Slots { need, free });
        }
        Ok(())
    }

    /// Plans the commit of a batch that is taken. The arrangement stands as the plan leads to then. On want of memory all
    /// is as it was.
    fn plan(&mut self, batch: &Batch) -> Result<Done, AllocError>
        requires idle { self.old.held ≡ None }
        requires sound { batch_fault self.old.rules batch.now ≡ None }
        requires fits { verdict self.old.slots self.old.mode self.old.rules batch.now ≡ Accepted }
        requires changes { AllByRecursion ChangesRules batch.now }
        ensures ready { IfOk result (λ counts. Holds self.old batch.now counts self.new) }
        ensures refused { OnErr result (self.new ≡ self.old) }
    {
        let mut plan = Plan::new(self.alloc);
        let bits = self.plan_words(batch, &mut plan)?;
        let awaits = gives_bits(&self.translation, &bits);
        let parts = parts_of(self.alloc, &self.rules, &self.live, &bits, batch)?;
        let commands = batch.commands(self.alloc)?;
        self.rules.reserve(batch.len())?;
        let ids = plan_writes(
            self.alloc,
            self.placement,
            &mut self.translation,
            &self.rules,
            &parts,
            &mut self.live,
            &mut self.planned,
            &mut plan,
        )?;
        erase_all(&mut self.live, &mut self.planned, &parts.erased);
        let counts = plan.counts();
        self.held = Some(Held {
            prepared: true,
            writes: plan.writes,
            undo: plan.undo,
            made: 0,
            turned: None,
            awaits,
            drained: false,
            counts,
            bits,
            batch: commands,
            rewrites: parts.rewrites,
            erased: parts.erased,
            ids,
            arrangement: Stood::of(&self.planned),
            most_parts: plan.most_parts,
        });
        Ok(counts)
    }

    /// Gives the batch's new port ranges their bits, and plans the words of the tables that differ by them. Answers the
    /// live ranges while the commit is made, none by covers.
    fn plan_words(&self, batch: &Batch, plan: &mut Plan) -> Result<Option<FieldBits>, AllocError>
        requires idle { self.now.held ≡ None }
        requires free { HaveFreeBits self.now.mode self.now.rules batch.now }
        requires empty { all_writes plan.old.writes ≡ [] }
        requires none { plan.old.words ≡ 0 }
        requires unnoted { IsUnnoted plan.old.undo }
        ensures bits { IfOk result (λ bits. (coded_by bits ≡ self.now.mode) × (during_of bits ≡ bits_with self.now.mode self.now.rules batch.now self.now.bits)) }
        ensures writes { OnOk result (all_writes plan.new.writes ≡ map PlannedWrite.Tabled (fresh_writes self.now.mode self.now.bits self.now.rules batch.now self.now.state)) }
        ensures no_changes { plan.new.writes.changes.items ≡ plan.old.writes.changes.items }
        ensures begins { OnOk result (BeginsWithWords self.now.mode plan.new) }
        ensures words { OnOk result (plan.new.words ≡ length (all_writes plan.new.writes)) }
        ensures few { OnOk result (length (all_writes plan.new.writes) ≤ 2 * 2 ^ 16) }
        ensures most { plan.new.most ≡ plan.old.most }
        ensures span { plan.new.span ≡ plan.old.span }
        ensures most_parts { plan.new.most_parts ≡ plan.old.most_parts }
    {
        plan_words(&self.translation, batch, plan)
    }

    /// Makes the next write of the commit under way, over the device that `prepare` or `restart` reserved, with room
    /// for what is left. Where the commit gives new bits, a drain is next once the words of the tables are written:
    /// while words are in flight the answer is `Waiting` with their number, and nothing changes; with none in flight it
    /// drains. With nothing left the rules become the new set, and the answer is `Finished`. With no commit under way
    /// the answer is `Idle`, and nothing changes. It takes no memory.
    ///
    /// The words in flight stay as they are, and unless it drains those that were current are so still: each answers as
    /// its key's word by the tables would.
    ///
    /// After it, also after a failure, each key is answered, by the device's journal, as the rules do, and while a
    /// commit is under way as the old ones or the new ones do.
    ///
    /// A failure comes exactly where a write is due and the device's count of failures rose. It changes nothing, and
    /// the same write is next again. It does no harm where the hardware has made that write all the same: each key is
    /// answered as the old rules or the new ones do then too, and made twice the write leaves what it leaves once
    /// (`tcam_device::twice_as_once`).
    pub fn step<D: Writable>(&mut self, device: &mut D) -> Result<Step, DeviceFault>
        requires slots { self.old.slots ≤ (D.view device.old).slots }
        requires room { HasRoomLeft self.old.held (D.view device.old).spare }
        ensures stepped { IfOk result (λ step. Steps self.old (length (D.view device.old).flight) self.old.held step self.new) }
        ensures keeps { IfOk result (λ step. KeepsCurrent self.old step self.new) }
        ensures way_back { (begun : State) → WayBackFrom begun self.old → WayBackFrom begun self.new }
        ensures made { IfOk result (λ step. HasMade (actions_of step) (D.view device.old) (D.view device.new)) }
        ensures failed { OnErr result (self.new ≡ self.old) }
        ensures unmade { OnErr result (IsUntouched (D.view device.old) (D.view device.new)) }
        ensures due { OnErr result (IsSome (next_of self.old.held)) }
        ensures cause { HasCause (D.view device.old).faults (D.view device.new).faults result }
        ensures leaves { StepLeaves self.old self.new (D.view device.old).spare (D.view device.new).spare }
        ensures stays_on { IsOn (D.view device.old).slots (journal (D.view device.old)) self.old → IsOn (D.view device.new).slots (journal (D.view device.new)) self.new }
        ensures serves { IsOn (D.view device.old).slots (journal (D.view device.old)) self.old → Serves (device_state (D.view device.new)) self.new.rules self.new.held }
        ensures serves_err { OnErr result (IsOn (D.view device.old).slots (journal (D.view device.old)) self.old → IfSome (next_of self.old.held) (λ write. Serves (apply (device_state (D.view device.new)) write) self.new.rules self.new.held)) }
    {
        self.serving();
        match self.next_write() {
            None => {
                let step = self.end(device);
                self.serving();
                Ok(step)
            }
            Some(write) => {
                // The borrow checker doesn't cover a struct that is handed on by value and used again.
                let made = write;
                device.write(write)?;
                let step = self.advance(made);
                self.serving();
                Ok(step)
            }
        }
    }

    /// Turns the plan that is held round: from now on `step` and `carry_out` undo the writes that were made, the last
    /// one first, each by writing what its slot or table word held before it, and without a drain. With the last of
    /// them the rules are the old ones, and no plan is held. The answer is how many undo writes there are: none where
    /// no write was made. The way back passes no state but those that the commit passed, so each key is answered as the
    /// old rules or the new ones do all along. It writes nothing and takes no memory, and over a device that `prepare`
    /// reserved there is room for the way back.
    ///
    /// The writes that are undone are those that were answered Ok. Where the last `step` answered a failure and the
    /// hardware may have made that write all the same, make it first (`step` until it is answered Ok): no undo write
    /// goes to its slot. Over a device whose failed write did nothing, as `Writable` has it, `abort` may come at once.
    ///
    /// `Idle` comes exactly where no plan is held, `Restarted` exactly where a restart made the one that is held, and
    /// else `Back` exactly where the plan is turned round already, with the undo writes that are left. Nothing changes
    /// then.
    pub fn abort(&mut self) -> Result<u64, AbortFault>
        ensures aborts { Aborts self.old self.old.held result self.new }
        ensures way_back { (begun : State) → WayBackFrom begun self.old → WayBackFrom begun self.new }
        ensures current { live_now self.new ≡ live_now self.old }
    {
        match &mut self.held {
            None => Err(AbortFault::Idle),
            Some(held) => held.turn(),
        }
    }

    /// Makes all writes that are left of the commit under way, in their order, over the device that `prepare` or
    /// `restart` reserved, each tried up to `tries` times, at least once: 1 tries none again. With the last of them the
    /// rules become the new set, and the answer has the numbers of the commit. With no commit under way they are all 0,
    /// and nothing changes. It takes no memory.
    ///
    /// `Stuck` comes where one write has failed `tries` times, and the device's count of failures rose by that, or
    /// stands at its last value. The writes before it were made, and it is the next: so `carry_out` may be called
    /// again. Until the commit has finished no other batch is taken, and nothing else may be written. Where that write
    /// surely wasn't made the commit may be turned round (`abort`). A device that takes no write back either is
    /// blanked, and gets a new manager.
    ///
    /// `Waiting` comes exactly where the drain is next and words are in flight, with their number: what came before was
    /// made, and once they have been searched the call is made again. `Reverted` comes where the commit was turned
    /// round: its undo writes were made, and the rules are the old ones.
    ///
    /// Wherever it stops, what was done to the device and what is left are together what was left before, and a commit
    /// that `prepare` planned and that is still under way can be taken back through the states that it passed.
    ///
    /// Each key is answered, by the device's journal, as the old rules or the new ones do before the first write and
    /// after each, also where the write that failed was made all the same; and once the commit has finished as the new
    /// ones do.
    pub fn carry_out<D: Writable>(&mut self, device: &mut D, tries: u32) -> Result<Done, Unfinished>
        requires slots { self.old.slots ≤ (D.view device.old).slots }
        requires room { HasRoomLeft self.old.held (D.view device.old).spare }
        requires tries { 1 ≤ tries }
        ensures done { IfOk result (λ done. done ≡ done_of self.old.held) }
        ensures was_forward { OnOk result (GoesForward self.old.held) }
        ensures finished { OnOk result (self.new ≡ finished self.old) }
        ensures carried { HasCarried self.old.held self.new.held (D.view device.old) (D.view device.new) }
        ensures stopped { IfErr result (λ halt. StopsBy self.old self.new (journal (D.view device.old)) (journal (D.view device.new)) (length (D.view device.old).flight) halt) }
        ensures way_back { (begun : State) → WayBackFrom begun self.old → WayBackFrom begun self.new }
        ensures leaves { StepLeaves self.old self.new (D.view device.old).spare (D.view device.new).spare }
        ensures tried { IsTried tries (length (journal (D.view device.new)) - length (journal (D.view device.old))) (IsStuckBy result) (D.view device.old).faults (D.view device.new).faults }
        ensures stays_on { IsOn (D.view device.old).slots (journal (D.view device.old)) self.old → IsOn (D.view device.new).slots (journal (D.view device.new)) self.new }
        ensures hitless { IsOn (D.view device.old).slots (journal (D.view device.old)) self.old → IsServed (D.view device.new).slots (journal (D.view device.old)) (journal (D.view device.new)) self.old.rules (ahead self.old) }
        ensures serves { IsOn (D.view device.old).slots (journal (D.view device.old)) self.old → Serves (device_state (D.view device.new)) self.new.rules self.new.held }
        ensures serves_err { OnErr result (IsOn (D.view device.old).slots (journal (D.view device.old)) self.old → IfSome (next_of self.new.held) (λ write. Serves (apply (device_state (D.view device.new)) write) self.new.rules self.new.held)) }
    {
        self.serving();
        let mut failures = 0;
        'carrying: loop {
            match self.step(device) {
                Ok(Step::Wrote(_)) => failures = 0,
                Ok(Step::Drained) => {}
                Ok(Step::Finished(done)) => return Ok(done),
                Ok(Step::Idle) => return Ok(NOTHING_DONE),
                Ok(Step::Waiting(words)) => {
                    let left = self.left().unwrap_or(0);
                    return Err(Unfinished::Waiting { words, left });
                }
                Ok(Step::Reverted(undone)) => return Err(Unfinished::Reverted { undone }),
                Err(DeviceFault) => {
                    failures += 1;
                    if failures == tries {
                        let left = self.left().unwrap_or(0);
                        return Err(Unfinished::Stuck { left });
                    }
                }
            }
        }
    }

    /// A device that holds what the manager's writes left serves each key, and so it does where the next write was
    /// made already.
    pub fn serving(&self)
        ensures serves { (device_slots : ℕ) → self.now.slots ≤ device_slots → Serves (on_device device_slots self.now.state) self.now.rules self.now.held }
        ensures now { ServesNow self.now }
        ensures right { IsHeldRight self.now }
        ensures ahead { (write : Write) → next_of self.now.held ≡ Some write → (device_slots : ℕ) → self.now.slots ≤ device_slots → Serves (on_device device_slots (apply self.now.state write)) self.now.rules self.now.held }
    {
        let _rules = &self.rules;
    }
}

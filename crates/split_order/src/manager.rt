//! The manager of one device with split results.

ghost use Rattle.std.specs.Prelude.{◌≡◌, ◌+◌, ◌*◌, ◌^◌, ◌≤◌, ℕ, None, IfOk, OnOk, OnErr, length, option_map};
ghost use Rattle.rule_store.specs.Verdict.{entries_of};
ghost use Rattle.commit_writes.specs.InFlight.{ArePartOf, ServesLive};
ghost use Rattle.batch_order.specs.Managed.{live_now};
ghost use Rattle.split_device.specs.State.{undivided};
ghost use Rattle.split_device.specs.Drains.{AreTimely};
ghost use Rattle.split_device.specs.Flight.{written};
ghost use Rattle.split_order.specs.Managed.{SplitManaged, at_rest, fresh_split};
ghost use Rattle.split_order.specs.Next.{ServesAhead, ShowsOnWay};
ghost use Rattle.split_order.specs.Left.{ServesSplit, left_of, since_of, state_on};
ghost use Rattle.split_order.specs.Prepared.{HoldsSplit, JudgesSplit};
ghost use Rattle.split_order.specs.Steps.{dropped, is_untouched};

use crate::since::Since;
use batch_order::{Manager, Mode, Placement, Refusal};
use call_history::History;
use rule_store::{Batch, Store};
use slot_order::MOST_SLOTS;
use split_device::{SplitAction, SplitDevice};
use split_writes::SplitDone;
use std::alloc::{AllocError, Global};
use std::marker::Model;

/// How far a commit under way came: all is 0 where there is none.
#[derive(Clone, Copy)]
pub(crate) struct Progress {
    /// How many parts of the write that is due were made.
    pub(crate) made: u32,
    /// How many parts are still to make.
    pub(crate) left: u64,
    /// Whether a part or a drain was made.
    pub(crate) begun: bool,
    pub(crate) counts: SplitDone,
}

/// No commit is under way.
pub(crate) const NO_COMMIT: Progress = Progress {
    made: 0,
    left: 0,
    begun: false,
    counts: SplitDone {
        writes: 0,
        words: 0,
        most: 0,
        span: 0,
    },
};

/// The manager: the planner of undivided writes, what was made of the device, and how far the commit under way came.
#[derive(Drop)]
pub struct SplitManager {
    pub(crate) whole: Manager,
    pub(crate) events: History<SplitAction>,
    pub(crate) since: Since,
    pub(crate) progress: Progress,
}

impl Model for SplitManager {
    ghost use Rattle.split_order.specs.Managed.{SplitManaged};
    ghost use Rattle.split_order.specs.Kept.{IsSplitKept};

    ghost Value = { SplitManaged };

    ghost view = { λ m. record { whole = m.whole; events = m.events.items; made = m.progress.made; begun = m.progress.begun; counts = m.progress.counts } };

    ghost invariant = { λ m. IsSplitKept m.since m.progress.left (record { whole = m.whole; events = m.events.items; made = m.progress.made; begun = m.progress.begun; counts = m.progress.counts }) };
}

impl SplitManager {
    /// A manager of a blank device with so many slots in use, 1 to `MOST_SLOTS`, and no rules, as `batch_order::Manager::new` makes
    /// one. From here on nobody else may write the device.
    pub fn new(
        alloc: Global,
        slots: u32,
        mode: Mode,
        placement: Placement,
    ) -> Result<SplitManager, AllocError>
        requires least { 1 ≤ slots }
        requires most { slots ≤ MOST_SLOTS }
        ensures { IfOk result (λ manager. manager ≡ fresh_split slots mode placement) }
    {
        let whole = Manager::new(alloc, slots, mode, placement)?;
        let since = Since::new(alloc, slots)?;
        let events = History::new();
        Ok(SplitManager {
            whole,
            events,
            since,
            progress: NO_COMMIT,
        })
    }

    /// The rules of the set; while a commit is under way, those of the old set. A device of which the manager's parts and
    /// drains alone were made answers each key as they do, and while a commit is under way as the old or the new ones do.
    pub fn rules(&self) -> &Store
        ensures rules { result.now.rules ≡ self.now.whole.rules }
        ensures few { length self.now.whole.rules ≤ MOST_SLOTS }
        ensures serves { (slots : ℕ) → self.now.whole.slots ≤ slots → ServesSplit (state_on slots self.now) self.now }
    {
        self.serving();
        self.whole.rules()
    }

    /// How many entries the rules of the set take.
    pub fn entries(&self) -> u32
        ensures { result ≡ entries_of self.now.whole.mode self.now.whole.rules }
    {
        self.whole.entries()
    }

    /// How many parts of the commit under way are still to make. None comes exactly where no commit is under way.
    pub fn left(&self) -> Option<u64>
        ensures { (slots : ℕ) → self.now.whole.slots ≤ slots → result ≡ option_map (λ held. length (written (left_of slots self.now))) self.now.whole.held }
    {
        match self.whole.left() {
            None => None,
            Some(_) => Some(self.progress.left),
        }
    }

    /// Judges a batch of changes to the rules as `batch_order::Manager::prepare` does, over a device with at least the slots
    /// in use. Where the batch is taken, what is to be made of it is planned, and the device is reserved for all parts and
    /// drains. The answer has the numbers of the parts. With `m` a bound on overlap chains of the old rules and the
    /// additions, an insertion takes at most `2 + 3(m - 1)(1 + c)` of them, `c` its crossing span.
    ///
    /// Refusals are tried in the same order; `Busy` tells the parts that are left. A refusal makes nothing, and leaves rules,
    /// manager and device as they were, but for their memory. Words in flight that were current are so still.
    pub fn prepare<D: SplitDevice>(
        &mut self,
        batch: &Batch,
        device: &mut D,
    ) -> Result<SplitDone, Refusal>
        requires slots { self.old.whole.slots ≤ D.slot_count device.old }
        ensures judged { JudgesSplit (D.slot_count device.old) self.old self.old.whole.held batch.now result }
        ensures ready { IfOk result (λ counts. HoldsSplit self.old batch.now counts self.new) }
        ensures refused { OnErr result (self.new ≡ self.old) }
        ensures current { OnOk result (ArePartOf (live_now self.new.whole) (live_now self.old.whole)) }
        ensures reserved { OnOk result (length (left_of (D.slot_count device.new) self.new) ≤ D.spare device.new) }
        ensures spare { D.spare device.old ≤ D.spare device.new }
        ensures events { D.events device.new ≡ D.events device.old }
        ensures flight { D.flight device.new ≡ D.flight device.old }
        ensures slots { self.new.whole.slots ≡ self.old.whole.slots }
        ensures slot_count { D.slot_count device.new ≡ D.slot_count device.old }
        ensures faults { D.faults device.new ≡ D.faults device.old }
    {
        self.serving();
        if let Some(left) = self.left() {
            return Err(Refusal::Busy { left });
        }
        let counts = self.plan(batch)?;
        // The parts with a drain before each, and the commit's own drain.
        match device.reserve(2 * counts.writes + 1) {
            Ok(()) => Ok(counts),
            Err(AllocError) => {
                self.cancel();
                Err(Refusal::Memory)
            }
        }
    }

    /// Judges a batch and plans it, with no commit under way.
    fn plan(&mut self, batch: &Batch) -> Result<SplitDone, Refusal>
        requires idle { self.old.whole.held ≡ None }
        ensures judged { (slots : ℕ) → JudgesSplit slots self.old self.old.whole.held batch.now result }
        ensures ready { IfOk result (λ counts. HoldsSplit self.old batch.now counts self.new) }
        ensures fits { IfOk result (λ counts. (slots : ℕ) → self.old.whole.slots ≤ slots → length (left_of slots self.new) ≤ 2 * counts.writes + 1) }
        ensures few { IfOk result (λ counts. counts.writes ≤ 2 ^ 41) }
        ensures refused { OnErr result (self.new ≡ self.old) }
    {
        match self.whole.plan_commit(batch) {
            Ok(done) => {
                let counts = SplitDone {
                    writes: self.whole.parts(),
                    words: done.words,
                    most: self.whole.most_parts(),
                    span: done.span,
                };
                self.progress = Progress {
                    made: 0,
                    left: counts.writes,
                    begun: false,
                    counts,
                };
                Ok(counts)
            }
            Err(refusal) => Err(refusal),
        }
    }

    /// Drops a plan of which no part and no drain was made: no commit is under way then, and all else is as it was. False
    /// comes exactly where there is no such plan, and nothing changes then. Words in flight that were current are so still.
    /// A first part that failed must surely not have been made: else the device has it, and nobody knows.
    pub fn cancel(&mut self) -> bool
        ensures cancels { result ≡ is_untouched self.old }
        ensures dropped { self.new ≡ dropped result self.old }
        ensures current { ArePartOf (live_now self.new.whole) (live_now self.old.whole) }
    {
        if self.progress.begun {
            return false;
        }
        if !self.whole.cancel() {
            return false;
        }
        self.whole.serving();
        self.progress = NO_COMMIT;
        true
    }

    /// A device of which the manager's parts and drains alone were made serves each key, and so it does where the part that is
    /// next was made already, and after each part that is left. It serves the ranges that words in flight are current for, and
    /// each part that is left stands in its time.
    pub fn serving(&self)
        ensures serves { (slots : ℕ) → self.now.whole.slots ≤ slots → ServesSplit (state_on slots self.now) self.now }
        ensures ahead { (slots : ℕ) → self.now.whole.slots ≤ slots → ServesAhead (left_of slots self.now) (state_on slots self.now) self.now }
        ensures way { (slots : ℕ) → self.now.whole.slots ≤ slots → ShowsOnWay slots self.now }
        ensures live { (slots : ℕ) → self.now.whole.slots ≤ slots → ServesLive (live_now self.now.whole) (undivided (state_on slots self.now)) }
        ensures timely { (slots : ℕ) → self.now.whole.slots ≤ slots → AreTimely (state_on slots self.now) (since_of self.now) (left_of slots self.now) }
        ensures rest { self.now.whole.held ≡ None → self.now ≡ at_rest self.now.whole self.now.events }
    {
        self.whole.serving();
    }
}

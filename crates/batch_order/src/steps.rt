//! What a step does of the commit under way: the next write, the drain, or the end, and all of it back once the commit
//! is turned round.

ghost use Rattle.std.specs.Prelude.{◌≡◌, ◌+◌, [], ℕ, true, false, Some, None, IfSome, IsSome, IsTrue, length};
ghost use Rattle.tcam_device.specs.State.{IsInUse};
ghost use Rattle.tcam_device.specs.Flight.{writes_in};
ghost use Rattle.batch_order.specs.Steps.{IsAllMade, IsPlainlyForward, Steps, actions_of, awaits_drain, cancelled, is_turned, is_unwritten, next_of};
ghost use Rattle.batch_order.specs.Managed.{live_now};
ghost use Rattle.commit_writes.specs.InFlight.{ArePartOf};
ghost use Rattle.commit_writes.specs.Undo.{restoring};
ghost use Rattle.tcam_device.specs.declared.Write.{Write};
ghost use Rattle.tcam_device.specs.View.{HasMade};
ghost use Rattle.batch_order.specs.CarriedOut.{HasRoomLeft};

use crate::Step;
use crate::held::Held;
use crate::insertions::forget_all;
use crate::manager::Manager;
use crate::planned_writes::write_of;
use crate::translation::translate;
use tcam_device::{Writable, Write};

impl Manager {
    /// The next write, forward or back, if a commit is under way and one is due: the one that the next `step` makes.
    /// Whoever makes the writes outside of this program, as a driver in C, is told here which one is due.
    pub fn next_write(&self) -> Option<Write>
        ensures next { result ≡ next_of self.now.held }
        ensures in_use { IfSome result (IsInUse self.now.slots) }
        ensures size { length self.now.state.slots ≡ self.now.slots }
    {
        match &self.held {
            None => None,
            Some(held) => match held.due() {
                None => None,
                Some(planned) => Some(write_of(&planned, &self.live, &held.rewrites)),
            },
        }
    }

    /// The next write, this one, was made.
    pub(crate) fn advance(&mut self, write: Write) -> Step
        requires { next_of self.old.held ≡ Some write }
        ensures stepped { (words : ℕ) → Steps self.old words self.old.held result self.new }
        ensures wrote { result ≡ Step.Wrote write }
    {
        self.pass_write();
        Step::Wrote(write)
    }

    /// Where no write is due: the drain where it is next, or the end, forward or back.
    pub(crate) fn end<D: Writable>(&mut self, device: &mut D) -> Step
        requires next { next_of self.old.held ≡ None }
        requires room { HasRoomLeft self.old.held (D.view device.old).spare }
        ensures stepped { Steps self.old (length (D.view device.old).flight) self.old.held result self.new }
        ensures state { self.new.state ≡ self.old.state }
        ensures wrote { writes_in (actions_of result) ≡ [] }
        ensures made { HasMade (actions_of result) (D.view device.old) (D.view device.new) }
        ensures faults { (D.view device.new).faults ≡ (D.view device.old).faults }
    {
        if !self.drains_next() {
            return self.finish();
        }
        let words = device.in_flight();
        if words > 0 {
            return Step::Waiting(words);
        }
        device.drain();
        self.pass_drain()
    }

    /// Whether the drain is next: a commit is under way, forward, and the next `step` drains, or waits while words are
    /// in flight. Where it is, no write is due.
    pub fn drains_next(&self) -> bool
        ensures { result ≡ awaits_drain self.now.held }
    {
        match &self.held {
            None => false,
            Some(held) => held.drains_next(),
        }
    }

    /// What is due was made elsewhere, the next write or the drain, with no word in flight: what comes behind it is due
    /// then. With nothing left the commit ends, forward or back; with none under way the answer is `Idle`.
    pub fn pass(&mut self) -> Step
        ensures { Steps self.old 0 self.old.held result self.new }
    {
        match self.next_write() {
            Some(write) => self.advance(write),
            None => {
                if self.drains_next() {
                    return self.pass_drain();
                }
                self.finish()
            }
        }
    }

    /// The next write was made elsewhere, forward or back, as `pass` takes it; which it was isn't told once more.
    pub fn pass_write(&mut self)
        requires { IsSome (next_of self.old.held) }
        ensures { (words : ℕ) → (write : Write) → next_of self.old.held ≡ Some write → Steps self.old words self.old.held (Step.Wrote write) self.new }
    {
        match &mut self.held {
            None => {}
            Some(held) => held.pass(),
        }
    }

    /// What puts back what the next write replaces, of a commit that `prepare` planned and that goes forward: so it tells
    /// what stands in that write's slot.
    pub fn replaced(&self) -> Option<Write>
        ensures { (write : Write) → IsPlainlyForward self.now.held → next_of self.now.held ≡ Some write → result ≡ Some (restoring self.now.state write) }
    {
        match &self.held {
            None => None,
            Some(held) => match held.undo.get(held.made) {
                None => None,
                Some(planned) => Some(write_of(&planned, &self.live, &held.rewrites)),
            },
        }
    }

    /// Drops a plan of which no write was made, unless a restart made it: no commit is under way then, and all else is as
    /// it was before the plan. False comes exactly where there is no such plan, and nothing changes then. Words in flight
    /// that were current are so still. A first write that failed must surely not have been made: else the device has it,
    /// and nobody knows.
    pub fn cancel(&mut self) -> bool
        ensures cancels { result ≡ is_unwritten self.old.held }
        ensures dropped { self.new ≡ cancelled result self.old }
        ensures current { ArePartOf (live_now self.new) (live_now self.old) }
    {
        self.serving();
        if !self.is_unwritten() {
            return false;
        }
        self.drop_plan();
        true
    }

    /// Whether a plan is held that `prepare` or `plan_commit` made, and of which no write was made.
    fn is_unwritten(&self) -> bool
        ensures { result ≡ is_unwritten self.now.held }
    {
        match &self.held {
            None => false,
            Some(held) => held.is_unwritten(),
        }
    }

    /// The plan that is held goes, and the ids of its new entries with it. The entries stand as before it.
    fn drop_plan(&mut self)
        requires { is_unwritten self.old.held ≡ true }
        ensures { self.new ≡ cancelled true self.old }
    {
        match self.held.take() {
            None => {}
            Some(held) => {
                held.undo.take_back(&mut self.live, &mut self.planned);
                forget_all(&mut self.live, held.ids);
            }
        }
    }

    /// The drain was made.
    fn pass_drain(&mut self) -> Step
        requires { IsTrue (awaits_drain self.old.held) }
        ensures stepped { Steps self.old 0 self.old.held result self.new }
        ensures drained { result ≡ Step.Drained }
    {
        match &mut self.held {
            None => Step::Idle,
            Some(held) => {
                held.awaits = false;
                held.drained = true;
                Step::Drained
            }
        }
    }

    /// Whether a commit is under way and turned round.
    fn is_turned(&self) -> bool
        ensures { result ≡ is_turned self.now.held }
    {
        match &self.held {
            None => false,
            Some(held) => held.turned.is_some(),
        }
    }

    /// With a commit under way that has no write left it ends, forward or back.
    fn finish(&mut self) -> Step
        requires { IsAllMade self.old.held }
        ensures { (words : ℕ) → Steps self.old words self.old.held result self.new }
    {
        if self.is_turned() {
            self.revert()
        } else {
            self.complete()
        }
    }

    /// With a commit under way that isn't turned round and has no write left, the rules become the new set.
    fn complete(&mut self) -> Step
        requires made { IsAllMade self.old.held }
        requires forward { is_turned self.old.held ≡ false }
        ensures { (words : ℕ) → Steps self.old words self.old.held result self.new }
    {
        match self.held.take() {
            None => Step::Idle,
            Some(held) => {
                let Held {
                    prepared: _,
                    writes,
                    undo: _,
                    made: _,
                    turned: _,
                    awaits: _,
                    drained: _,
                    counts,
                    bits,
                    batch,
                    rewrites,
                    erased,
                    ids: _,
                    arrangement,
                    most_parts: _,
                } = held;
                self.rules.apply(&batch);
                translate(&mut self.translation, &bits, &self.rules, &writes);
                self.live.rewrite_all(&rewrites);
                self.live.forget_each(&erased);
                self.arrangement = arrangement;
                Step::Finished(counts)
            }
        }
    }

    /// With a commit that is turned round and has no undo write left, the new ids go, and the rules are the old ones.
    fn revert(&mut self) -> Step
        requires made { IsAllMade self.old.held }
        requires turned { is_turned self.old.held ≡ true }
        ensures { (words : ℕ) → Steps self.old words self.old.held result self.new }
    {
        match self.held.take() {
            None => Step::Idle,
            Some(held) => {
                let undone = held.turned.unwrap_or(0) as u64;
                held.undo.take_back(&mut self.live, &mut self.planned);
                forget_all(&mut self.live, held.ids);
                Step::Reverted(undone)
            }
        }
    }
}

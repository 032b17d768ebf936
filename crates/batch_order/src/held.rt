//! The commit under way.

ghost use Rattle.std.specs.Prelude.{◌≡◌, ◌<◌, ◌≤◌, ◌&&◌, true, false, None, Ok, Err, IsSome, is_none, length, nat_eq};
ghost use Rattle.batch_order.specs.Kept.{drains_at, due_of, left_count, passed, turned_at};
ghost use Rattle.batch_order.specs.Planning.{all_writes};

use crate::planned_writes::{PlannedWrite, PlannedWrites};
use crate::stood::Stood;
use crate::undoing::PlannedUndo;
use crate::{AbortFault, Done};
use commit_writes::{FieldBits, Rewrite};
use rule_store::Commands;

/// A commit under way: its planned writes and how many of them were made, its numbers, and what is to be done once its
/// writes are made: the batch that takes the rules to the new set, the ids that get another entry, the ids that go, by
/// rising priority, and where the entries stand then, as the manager's arrangement has them already.
#[derive(Drop)]
pub(crate) struct Held {
    /// Whether `prepare` planned it. What stood before a commit that a restart goes on with isn't known.
    pub(crate) prepared: bool,
    pub(crate) writes: PlannedWrites,
    /// What restores each of the writes, in their order, where it is prepared.
    pub(crate) undo: PlannedUndo,
    /// How many of the writes stand: it falls once the plan is turned round.
    pub(crate) made: usize,
    /// How many stood when the plan was turned round. From then on what undoes those that stand is left, the last one first:
    /// so it takes no memory, and nothing is moved.
    pub(crate) turned: Option<usize>,
    /// Whether the drain is still to come, behind the words of the tables.
    pub(crate) awaits: bool,
    /// Whether it was made.
    pub(crate) drained: bool,
    pub(crate) counts: Done,
    /// The live ranges meanwhile, those of the old set and of the new one: none by covers.
    pub(crate) bits: Option<FieldBits>,
    pub(crate) batch: Commands,
    pub(crate) rewrites: Vec<Rewrite>,
    pub(crate) erased: Vec<u32>,
    /// The ids of its new entries.
    pub(crate) ids: Vec<u32>,
    pub(crate) arrangement: Stood,
    /// The parts of its longest insertion, where each write is made by parts.
    pub(crate) most_parts: u32,
}

impl Held {
    /// Whether the drain is next.
    pub(crate) fn drains_next(&self) -> bool
        ensures { result ≡ drains_at self.now.awaits self.now.made self.now.counts }
    {
        self.awaits && self.made == self.counts.words as usize
    }

    /// The planned write that is due, if one is: none while the drain is next.
    pub(crate) fn due(&self) -> Option<PlannedWrite>
        ensures { result ≡ due_of self.now }
    {
        if self.drains_next() {
            return None;
        }
        match self.turned {
            None => self.writes.get(self.made),
            Some(_) => {
                if self.made == 0 {
                    return None;
                }
                self.undo.get(self.made - 1)
            }
        }
    }

    /// How many writes are left, forward or back.
    pub(crate) fn left(&self) -> usize
        requires { self.now.made ≤ length (all_writes self.now.writes) }
        ensures { result ≡ left_count self.now }
    {
        match self.turned {
            None => self.writes.len() - self.made,
            Some(_) => self.made,
        }
    }

    /// Whether it is prepared and goes forward, and none of its writes stands.
    pub(crate) fn is_unwritten(&self) -> bool
        ensures { result ≡ ((self.now.prepared && is_none self.now.turned) && nat_eq self.now.made 0) }
    {
        self.prepared && self.turned.is_none() && self.made == 0
    }

    /// Turns the plan round, unless it is already or isn't prepared, and answers how many undo writes there are: these are
    /// what is left then, the last one first, in place of the writes still to make and the drain.
    pub(crate) fn turn(&mut self) -> Result<u64, AbortFault>
        ensures restarted { self.old.prepared ≡ false → (result ≡ Err AbortFault.Restarted) × (self.new ≡ self.old) }
        ensures turns { self.old.prepared ≡ true → self.old.turned ≡ None → (result ≡ Ok self.old.made) × (self.new ≡ turned_at self.old) }
        ensures stays { self.old.prepared ≡ true → IsSome self.old.turned → (result ≡ Err (AbortFault.Back self.old.made)) × (self.new ≡ self.old) }
    {
        if !self.prepared {
            return Err(AbortFault::Restarted);
        }
        match self.turned {
            None => {
                self.turned = Some(self.made);
                self.awaits = false;
                Ok(self.made as u64)
            }
            Some(_) => Err(AbortFault::Back {
                left: self.made as u64,
            }),
        }
    }

    /// The write that was due was made. With a table word undone, words in flight may lack the new bits again.
    pub(crate) fn pass(&mut self)
        requires on { self.old.turned ≡ None → self.old.made < length (all_writes self.old.writes) }
        requires back { IsSome self.old.turned → 1 ≤ self.old.made }
        ensures { self.new ≡ passed self.old }
    {
        match self.turned {
            None => {
                prove!(self.made < self.writes.len());
                self.made += 1;
            }
            Some(_) => {
                self.made -= 1;
                if self.made < self.counts.words as usize {
                    self.drained = false;
                }
            }
        }
    }
}

//! The plan of a commit: its writes, planned before the first of them goes out.

ghost use Rattle.std.specs.Prelude.{◌≡◌, ◌*◌, ◌^◌, ◌<◌, ◌≤◌, ◌++◌, [], OnOk, OnErr, List, length, map, max, nat_eq};
ghost use Rattle.std.specs.List.{AllByRecursion, IsDistinct};
ghost use Rattle.commit_writes.specs.declared.Rewrite.{Rewrite};
ghost use Rattle.commit_writes.specs.Planned.{IdEntries};
ghost use Rattle.commit_writes.specs.PlannedBatch.{erase_write, erased_slots, rewrite_write};
ghost use Rattle.batch_order.specs.ByParts.{insertion_parts};
ghost use Rattle.batch_order.specs.Entries.{AreTold};
ghost use Rattle.batch_order.specs.Planning.{IsStanding, IsWithin, as_writes, all_writes};
ghost use Rattle.batch_order.specs.Noting.{GainsAtHome, HasSameNotes, IsUnnoted, changed_ids, changes_back, put_at_home};

use crate::Done;
use crate::entries::LiveEntries;
use crate::parts::CommitParts;
use crate::planned_writes::{PlannedWrite, PlannedWrites};
use crate::undoing::PlannedUndo;
use commit_writes::Rewrite;
use move_planner::{Insert, Moves, Sides};
use placement::Move;
use slot_order::MOST_SLOTS;
use slot_pool::Arrangement;
use std::alloc::{AllocError, Global};

/// The most writes of a commit.
const COMMIT_WRITES: u64 = 0x8_0000_0000;

/// The writes of a commit still to make, how many of them are words of the tables, the writes of its longest insertion,
/// and the greatest span of one.
#[derive(Drop)]
pub(crate) struct Plan {
    pub(crate) writes: PlannedWrites,
    /// What restores each of the writes.
    pub(crate) undo: PlannedUndo,
    pub(crate) words: u32,
    pub(crate) most: u32,
    pub(crate) span: u32,
    /// The parts of the longest insertion, where each write is made by parts.
    pub(crate) most_parts: u32,
    /// What the insertions of the commit mark the slots in, one after the other.
    pub(crate) sides: Sides,
}

impl Plan {
    /// A plan of no writes.
    pub(crate) fn new(alloc: Global) -> Plan
        ensures writes { all_writes result.writes ≡ [] }
        ensures no_moves { result.writes.moves ≡ [] }
        ensures no_changes { result.writes.changes.items ≡ [] }
        ensures unnoted { IsUnnoted result.undo }
        ensures words { result.words ≡ 0 }
        ensures most { result.most ≡ 0 }
        ensures span { result.span ≡ 0 }
        ensures most_parts { result.most_parts ≡ 0 }
    {
        Plan {
            writes: PlannedWrites::new(alloc),
            undo: PlannedUndo::new(alloc),
            words: 0,
            most: 0,
            span: 0,
            most_parts: 0,
            sides: Sides::new(alloc),
        }
    }

    /// Counts an insertion whose writes were pushed, of which so many put an entry somewhere. By parts each of these takes
    /// two into an empty slot and three over another entry, each erase takes one, and one slot more is filled than emptied.
    pub(crate) fn count(&mut self, insert: Insert, puts: u32)
        requires few { insert.writes < 2 ^ 32 }
        requires few_puts { 3 * puts < 2 ^ 32 }
        ensures writes { self.new.writes ≡ self.old.writes }
        ensures undo { self.new.undo ≡ self.old.undo }
        ensures words { self.new.words ≡ self.old.words }
        ensures most { self.new.most ≡ max self.old.most insert.writes }
        ensures span { self.new.span ≡ max self.old.span insert.span }
        ensures most_parts { self.new.most_parts ≡ max self.old.most_parts (insertion_parts puts) }
    {
        self.most = self.most.max(insert.writes as u32);
        self.span = self.span.max(insert.span);
        let parts = (3 * puts).saturating_sub(1);
        self.most_parts = self.most_parts.max(parts);
    }

    /// The numbers of a commit of which no write was made yet, which are those after its last.
    pub(crate) fn counts(&self) -> Done
        ensures writes { result.writes ≡ length (all_writes self.now.writes) }
        ensures words { result.words ≡ self.now.words }
        ensures most { result.most ≡ self.now.most }
        ensures span { result.span ≡ self.now.span }
    {
        Done {
            writes: self.writes.len() as u64,
            words: self.words,
            most: self.most,
            span: self.span,
        }
    }
}

/// Plans the writes behind the insertions, the new entries before the erases, and notes the id that each one's slot holds.
pub(crate) fn plan_changes(
    parts: &CommitParts,
    arrangement: &Arrangement,
    plan: &mut Plan,
) -> Result<(), AllocError>
    requires few { length parts.now.rewrites.items ≤ MOST_SLOTS }
    requires rewritten { AllByRecursion (λ rewrite. IsStanding arrangement.now rewrite.id) parts.now.rewrites.items }
    requires erased { AllByRecursion (IsStanding arrangement.now) parts.now.erased.items }
    requires within { AllByRecursion (IsWithin (length arrangement.now)) (all_writes plan.old.writes) }
    ensures within { OnOk result (AllByRecursion (IsWithin (length arrangement.now)) (all_writes plan.new.writes)) }
    ensures writes { OnOk result ((entries : IdEntries) → as_writes entries parts.now.rewrites.items (all_writes plan.new.writes)
        ≡ as_writes entries parts.now.rewrites.items (all_writes plan.old.writes) ++ (map (rewrite_write arrangement.now) parts.now.rewrites.items ++ map (erase_write arrangement.now) parts.now.erased.items)) }
    ensures words { OnOk result (plan.new.words ≡ plan.old.words) }
    ensures most { OnOk result (plan.new.most ≡ plan.old.most) }
    ensures span { OnOk result (plan.new.span ≡ plan.old.span) }
    ensures most_parts { OnOk result (plan.new.most_parts ≡ plan.old.most_parts) }
    ensures at_home { OnOk result (GainsAtHome arrangement.now (changed_ids parts.now.rewrites.items parts.now.erased.items) plan.old.writes.changes.items plan.new.writes.changes.items) }
    ensures few { OnOk result (length (all_writes plan.new.writes) ≤ 2 ^ 35) }
    ensures noted { OnOk result (plan.new.undo.changes ≡ plan.old.undo.changes ++ changes_back arrangement.now parts.now.rewrites.items parts.now.erased.items) }
    ensures others { HasSameNotes plan.old plan.new }
{
    let changes = &mut plan.writes.changes;
    let undo = &mut plan.undo.changes;
    plan_rewrites(&parts.rewrites, arrangement, changes, undo)?;
    plan_erases(&parts.erased, arrangement, changes, undo)?;
    keep_few(&plan.writes)?;
    Ok(())
}

/// Refuses a plan of more writes than a commit has at most, as for want of memory: these alone take 384 GiB, and as many to
/// restore them.
fn keep_few(writes: &PlannedWrites) -> Result<(), AllocError>
    ensures few { OnOk result (length (all_writes writes.now) ≤ 2 ^ 35) }
    ensures only { OnErr result (2 ^ 35 < length (all_writes writes.now)) }
{
    if writes.len() as u64 > COMMIT_WRITES {
        return Err(AllocError);
    }
    Ok(())
}

/// The write of each new entry to where its id stands, and what puts the id's own entry back.
fn plan_rewrites(
    rewrites: &[Rewrite],
    arrangement: &Arrangement,
    writes: &mut Vec<PlannedWrite>,
    undo: &mut Moves,
) -> Result<(), AllocError>
    requires few { length rewrites.now ≤ MOST_SLOTS }
    requires standing { AllByRecursion (λ rewrite. IsStanding arrangement.now rewrite.id) rewrites.now }
    requires within { AllByRecursion (IsWithin (length arrangement.now)) writes.old.items }
    ensures writes { OnOk result ((entries : IdEntries) → as_writes entries rewrites.now writes.new.items ≡ as_writes entries rewrites.now writes.old.items ++ map (rewrite_write arrangement.now) rewrites.now) }
    ensures within { OnOk result (AllByRecursion (IsWithin (length arrangement.now)) writes.new.items) }
    ensures at_home { OnOk result (GainsAtHome arrangement.now (map (λ rewrite. rewrite.id) rewrites.now) writes.old.items writes.new.items) }
    ensures noted { OnOk result (undo.new ≡ undo.old ++ map (λ rewrite. put_at_home arrangement.now rewrite.id) rewrites.now) }
{
    for (place, rewrite) in rewrites.iter().enumerate() {
        let slot = arrangement.home(rewrite.id).unwrap();
        writes.push(PlannedWrite::Rewritten(slot, place as u32))?;
        undo.push(Move::Put(slot, rewrite.id))?;
    }
    Ok(())
}

/// The erase of each id where it stands, and what puts it back.
fn plan_erases(
    ids: &[u32],
    arrangement: &Arrangement,
    writes: &mut Vec<PlannedWrite>,
    undo: &mut Moves,
) -> Result<(), AllocError>
    requires standing { AllByRecursion (IsStanding arrangement.now) ids.now }
    requires within { AllByRecursion (IsWithin (length arrangement.now)) writes.old.items }
    ensures writes { OnOk result ((entries : IdEntries) → (rewrites : List Rewrite) → as_writes entries rewrites writes.new.items ≡ as_writes entries rewrites writes.old.items ++ map (erase_write arrangement.now) ids.now) }
    ensures within { OnOk result (AllByRecursion (IsWithin (length arrangement.now)) writes.new.items) }
    ensures at_home { OnOk result (GainsAtHome arrangement.now ids.now writes.old.items writes.new.items) }
    ensures noted { OnOk result (undo.new ≡ undo.old ++ map (put_at_home arrangement.now) ids.now) }
{
    for id in ids {
        let slot = arrangement.home(*id).unwrap();
        writes.push(PlannedWrite::Moved(Move::Erase(slot)))?;
        undo.push(Move::Put(slot, *id))?;
    }
    Ok(())
}

/// Erases some ids, each of which stands in a slot, in the least one that holds it, and tells where they stand now.
pub(crate) fn erase_all(live: &mut LiveEntries, arrangement: &mut Arrangement, ids: &[u32])
    requires distinct { IsDistinct nat_eq ids.now }
    requires standing { AllByRecursion (IsStanding arrangement.old) ids.now }
    ensures slots { arrangement.new ≡ erased_slots arrangement.old ids.now }
    ensures live { live.new.live ≡ live.old.live }
    ensures entries { live.new.entries ≡ live.old.entries }
    ensures number { live.new.slots ≡ live.old.slots }
    ensures told { AreTold live.old arrangement.old → AreTold live.new arrangement.new }
{
    for id in ids {
        let slot = arrangement.home(*id).unwrap();
        arrangement.erase(slot);
        live.tell(arrangement, *id);
    }
}

//! What is left of a commit, planned over the pieces that stand.

ghost use Rattle.std.specs.Prelude.{◌≡◌, ◌+◌, ◌-◌, ◌*◌, ◌≤◌, ◌++◌, ◌⊎◌, [], IsTrue, IfOk, OnOk, drop, length};
ghost use Rattle.std.specs.List.{AllByRecursion, AllZip};
ghost use Rattle.rule_store.specs.Verdict.{entries_of};
ghost use Rattle.rule_model.specs.Entry.{IsEncodable};
ghost use Rattle.placement.specs.Live.{is_live};
ghost use Rattle.commit_writes.specs.PlannedBatch.{IsIdOf, IsRewriteOf};
ghost use Rattle.batch_order.specs.Arranged.{arranged_at};
ghost use Rattle.batch_order.specs.Entries.{AddsIds, AreTold, HaveIds};
ghost use Rattle.batch_order.specs.Placing.{aims_from};
ghost use Rattle.batch_order.specs.Planning.{AreAllPlanned, ArePlannedSince, IsPlannable, all_writes};
ghost use Rattle.batch_order.specs.Standing.{planned_twin};
ghost use Rattle.tcam_device.specs.View.{IsSameButSpare};

use crate::Placement;
use crate::entries::LiveEntries;
use crate::insertions::plan_more;
use crate::parts::{CommitParts, ids_of, rewrites};
use crate::plan::{Plan, plan_changes};
use crate::planned_writes::PlannedWrites;
use commit_writes::Ranked;
use placement::Move;
use readback::{Coded, Shown};
use rule_store::{Mode, Store};
use slot_order::MOST_SLOTS;
use slot_pool::Arrangement;
use std::alloc::{AllocError, Global};
use tcam_device::Writable;

/// The parts of a commit that are left: its tasks are done in the order of their kinds. What gets another result or
/// goes stands, and has an id.
pub(crate) fn parts_left(
    alloc: Global,
    live: &LiveEntries,
    shown: &Shown,
) -> Result<CommitParts, AllocError>
    requires encodable { AllByRecursion (λ ranked. IsEncodable ranked.piece) shown.now.rewritten.items }
    requires rewritten { HaveIds live.now.live (drop (shown.now.stage.done - length shown.now.inserted.items) shown.now.rewritten.items) }
    requires erased { HaveIds live.now.live (drop (shown.now.stage.done - length shown.now.inserted.items - length shown.now.rewritten.items) shown.now.erased.items) }
    ensures inserted { IfOk result (λ parts. parts.inserted.items ≡ drop shown.now.stage.done shown.now.inserted.items) }
    ensures rewrites { IfOk result (λ parts. AllZip (IsRewriteOf live.now.live)
        (drop (shown.now.stage.done - length shown.now.inserted.items) shown.now.rewritten.items) parts.rewrites.items) }
    ensures erased { IfOk result (λ parts. AllZip (IsIdOf live.now.live)
        (drop (shown.now.stage.done - length shown.now.inserted.items - length shown.now.rewritten.items) shown.now.erased.items) parts.erased.items) }
{
    let done = shown.stage.done as usize;
    let inserted = pieces_behind(alloc, &shown.inserted, done)?;
    let done = done.saturating_sub(shown.inserted.len());
    let rewritten = pieces_behind(alloc, &shown.rewritten, done)?;
    let done = done.saturating_sub(shown.rewritten.len());
    let erased = pieces_behind(alloc, &shown.erased, done)?;
    Ok(CommitParts {
        inserted,
        rewrites: rewrites(alloc, live, &rewritten)?,
        erased: ids_of(alloc, live, &erased)?,
    })
}

/// The pieces behind so many.
fn pieces_behind(alloc: Global, pieces: &[Coded], done: usize) -> Result<Vec<Ranked>, AllocError>
    ensures { IfOk result (λ left. left.items ≡ drop done pieces.now) }
{
    let mut left = Vec::new(alloc);
    for place in done..pieces.len() {
        left.push(pieces[place].ranked())?;
    }
    Ok(left)
}

/// Plans the erase of the twin, if there is one.
pub(crate) fn plan_twin(twin: Option<u32>, writes: &mut PlannedWrites) -> Result<(), AllocError>
    requires no_changes { writes.old.changes.items ≡ [] }
    ensures writes { OnOk result (all_writes writes.new ≡ all_writes writes.old ++ planned_twin twin) }
    ensures no_changes { writes.new.changes.items ≡ [] }
{
    match twin {
        None => Ok(()),
        Some(slot) => writes.moves.push(Move::Erase(slot)),
    }
}

/// Plans the insertions that are left, behind so many of the commit, then the new entries and the erases, and reserves
/// the device for all writes and a drain. Answers the ids of the new entries.
pub(crate) fn plan_rest<D: Writable>(
    alloc: Global,
    placement: Placement,
    mode: Mode,
    rules: &Store,
    made: u32,
    parts: &CommitParts,
    live: &mut LiveEntries,
    arrangement: &mut Arrangement,
    plan: &mut Plan,
    device: &mut D,
) -> Result<Vec<u32>, AllocError>
    requires standing { (length parts.now.inserted.items ≡ 0) ⊎ (length live.old.live ≡ entries_of mode rules.now.rules + made) }
    requires room { length live.old.live + length parts.now.inserted.items ≤ live.old.slots }
    requires encodable { AllByRecursion (λ ranked. IsEncodable ranked.piece) parts.now.inserted.items }
    requires plannable { IsPlannable live.old arrangement.old plan.old.writes }
    requires few { length parts.now.rewrites.items ≤ MOST_SLOTS }
    requires rewritten { AllByRecursion (λ rewrite. IsTrue (is_live live.old.live rewrite.id)) parts.now.rewrites.items }
    requires erased { AllByRecursion (λ id. IsTrue (is_live live.old.live id)) parts.now.erased.items }
    ensures planned { OnOk result (AreAllPlanned (arranged_at live.old arrangement.old) (arranged_at live.new arrangement.new) plan.old plan.new parts.now.inserted.items
        (aims_from placement mode (length arrangement.old) rules.now.rules (length live.old.live + length parts.now.inserted.items) made parts.now.inserted.items)
        parts.now.rewrites.items parts.now.erased.items) }
    ensures adds { IfOk result (λ ids. AddsIds live.old live.new ids.items) }
    ensures told { OnOk result (AreTold live.new arrangement.new) }
    ensures enough { OnOk result (2 * length (all_writes plan.new.writes) + 1 ≤ (D.view device.new).spare) }
    ensures slots { live.new.slots ≡ live.old.slots }
    ensures least { (D.view device.old).spare ≤ (D.view device.new).spare }
    ensures others { IsSameButSpare (D.view device.old) (D.view device.new) }
{
    let ids = plan_insertions(
        alloc,
        placement,
        mode,
        rules,
        made,
        &parts.inserted,
        live,
        arrangement,
        plan,
    )?;
    plan_changes(parts, arrangement, plan)?;
    // As for a plan of `prepare`.
    device.reserve(2 * plan.writes.len() as u64 + 1)?;
    Ok(ids)
}

/// Plans the insertions that are left. Where none is, so many entries may stand as the old set and the insertions have,
/// or fewer, and nothing is planned.
fn plan_insertions(
    alloc: Global,
    placement: Placement,
    mode: Mode,
    rules: &Store,
    made: u32,
    pieces: &[Ranked],
    live: &mut LiveEntries,
    arrangement: &mut Arrangement,
    plan: &mut Plan,
) -> Result<Vec<u32>, AllocError>
    requires standing { (length pieces.now ≡ 0) ⊎ (length live.old.live ≡ entries_of mode rules.now.rules + made) }
    requires room { length live.old.live + length pieces.now ≤ live.old.slots }
    requires encodable { AllByRecursion (λ ranked. IsEncodable ranked.piece) pieces.now }
    requires plannable { IsPlannable live.old arrangement.old plan.old.writes }
    ensures plannable { OnOk result (IsPlannable live.new arrangement.new plan.new.writes) }
    ensures planned { OnOk result (ArePlannedSince live.old live.new arrangement.old arrangement.new plan.old plan.new pieces.now
        (aims_from placement mode (length arrangement.old) rules.now.rules (length live.old.live + length pieces.now) made pieces.now)) }
    ensures adds { IfOk result (λ ids. AddsIds live.old live.new ids.items) }
    ensures slots { live.new.slots ≡ live.old.slots }
{
    if pieces.is_empty() {
        return Ok(Vec::new(alloc));
    }
    plan_more(
        alloc,
        placement,
        mode,
        rules,
        made,
        pieces,
        live,
        arrangement,
        plan,
    )
}

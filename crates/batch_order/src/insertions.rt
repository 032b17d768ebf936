//! The insertions of a plan: one piece after the other, the moves of each as its writes.

ghost use Rattle.std.specs.Prelude.{◌≡◌, ◌+◌, ◌-◌, ◌<◌, ◌≤◌, ◌^◌, ◌++◌, ◌∷◌, [], IfOk, OnOk, OnErr, IsTrue, IsFalse, length, map, take, drop};
ghost use Rattle.std.specs.List.{AllByRecursion};
ghost use Rattle.rule_store.specs.Verdict.{entries_of};
ghost use Rattle.rule_model.specs.Entry.{IsEncodable};
ghost use Rattle.placement.specs.Live.{is_live};
ghost use Rattle.batch_order.specs.ByParts.{moves_put};
ghost use Rattle.batch_order.specs.Entries.{AddsIds, AreLast, AreTold, KeepEntries, StayTold};
ghost use Rattle.batch_order.specs.Noting.{AreNotedIn};
ghost use Rattle.batch_order.specs.Placing.{aims_from, aims_of, ranks_of};
ghost use Rattle.batch_order.specs.Planning.{IsPlannable, IsLastLive, IsWithin, IsInserted, ArePlannedSince, all_writes};

use crate::Placement;
use crate::aims::aim_of;
use crate::entries::LiveEntries;
use crate::plan::Plan;
use commit_writes::Ranked;
use move_planner::{Insert, Moves, plan_insert};
use placement::{Aim, Move};
use rule_model::Rank;
use rule_store::{Mode, Store};
use slot_order::MOST_SLOTS;
use slot_pool::Arrangement;
use std::alloc::{AllocError, Global};

/// The most writes of an insertion that a plan takes.
const INSERTION_WRITES: u64 = 0x4000_0000;

/// Plans an insertion for each piece that a commit puts into a set, in their order and with the aims of the placement,
/// and answers the ids of their entries. On want of memory the live entries are as they were, and the arrangement is as the
/// moves left it that are noted.
pub(crate) fn plan_additions(
    alloc: Global,
    placement: Placement,
    mode: Mode,
    rules: &Store,
    pieces: &[Ranked],
    live: &mut LiveEntries,
    arrangement: &mut Arrangement,
    plan: &mut Plan,
) -> Result<Vec<u32>, AllocError>
    requires standing { length live.old.live ≡ entries_of mode rules.now.rules }
    requires room { length live.old.live + length pieces.now ≤ live.old.slots }
    requires encodable { AllByRecursion (λ ranked. IsEncodable ranked.piece) pieces.now }
    requires plannable { IsPlannable live.old arrangement.old plan.old.writes }
    ensures plannable { OnOk result (IsPlannable live.new arrangement.new plan.new.writes) }
    ensures planned { OnOk result (ArePlannedSince live.old live.new arrangement.old arrangement.new plan.old plan.new pieces.now
        (aims_of placement mode (length arrangement.old) rules.now.rules pieces.now)) }
    ensures adds { IfOk result (λ ids. AddsIds live.old live.new ids.items) }
    ensures number { IfOk result (λ ids. length ids.items ≡ length pieces.now) }
    ensures refused { OnErr result (live.new.live ≡ live.old.live) }
    ensures kept { KeepEntries live.old.live live.old.entries live.new.entries }
    ensures slots { live.new.slots ≡ live.old.slots }
    ensures told { AreTold live.new arrangement.new }
    ensures noted { AreNotedIn arrangement.old arrangement.new plan.old plan.new }
{
    plan_more(
        alloc,
        placement,
        mode,
        rules,
        0,
        pieces,
        live,
        arrangement,
        plan,
    )
}

/// Plans an insertion for each piece that a commit still puts into a set, behind so many that it has put there, as
/// `plan_additions` does.
pub(crate) fn plan_more(
    alloc: Global,
    placement: Placement,
    mode: Mode,
    rules: &Store,
    made: u32,
    pieces: &[Ranked],
    live: &mut LiveEntries,
    arrangement: &mut Arrangement,
    plan: &mut Plan,
) -> Result<Vec<u32>, AllocError>
    requires standing { length live.old.live ≡ entries_of mode rules.now.rules + made }
    requires room { length live.old.live + length pieces.now ≤ live.old.slots }
    requires encodable { AllByRecursion (λ ranked. IsEncodable ranked.piece) pieces.now }
    requires plannable { IsPlannable live.old arrangement.old plan.old.writes }
    ensures plannable { OnOk result (IsPlannable live.new arrangement.new plan.new.writes) }
    ensures planned { OnOk result (ArePlannedSince live.old live.new arrangement.old arrangement.new plan.old plan.new pieces.now
        (aims_from placement mode (length arrangement.old) rules.now.rules (length live.old.live + length pieces.now) made pieces.now)) }
    ensures adds { IfOk result (λ ids. AddsIds live.old live.new ids.items) }
    ensures number { IfOk result (λ ids. length ids.items ≡ length pieces.now) }
    ensures refused { OnErr result (live.new.live ≡ live.old.live) }
    ensures kept { KeepEntries live.old.live live.old.entries live.new.entries }
    ensures slots { live.new.slots ≡ live.old.slots }
    ensures told { AreTold live.new arrangement.new }
    ensures noted { AreNotedIn arrangement.old arrangement.new plan.old plan.new }
{
    let slots = arrangement.slots();
    let stand = slots - arrangement.free_count();
    let all = stand + pieces.len() as u32;
    let ranks = ranks_of(alloc, pieces)?;
    let mut ids = Vec::with_capacity(alloc, pieces.len())?;
    for ranked in pieces {
        let place = ids.len() as u32;
        let aim = aim_of(
            placement,
            mode,
            slots,
            rules,
            stand - made,
            all,
            made + place,
            ranked,
        );
        let coming = behind(&ranks, place);
        match plan_piece(alloc, ranked, aim, coming, live, arrangement, plan) {
            Ok(id) => ids.push_reserved(id),
            Err(fault) => {
                forget_all(live, ids);
                return Err(fault);
            }
        }
    }
    Ok(ids)
}

/// The priorities of some pieces.
fn ranks_of(alloc: Global, pieces: &[Ranked]) -> Result<Vec<Rank>, AllocError>
    ensures { IfOk result (λ ranks. ranks.items ≡ ranks_of pieces.now) }
{
    let mut ranks = Vec::with_capacity(alloc, pieces.len())?;
    for ranked in pieces {
        ranks.push(ranked.rank)?;
    }
    Ok(ranks)
}

/// The priorities behind the one at a place.
fn behind(ranks: &[Rank], place: u32) -> &[Rank]
    requires { place < length ranks.now }
    ensures { result.now ≡ drop (place + 1) ranks.now }
{
    &ranks[place as usize + 1..]
}

/// The ids that became live last are live no more.
pub(crate) fn forget_all(live: &mut LiveEntries, mut ids: Vec<u32>)
    requires { AreLast live.old.live ids.items }
    ensures live { live.new.live ≡ take (length live.old.live - length ids.items) live.old.live }
    ensures kept { KeepEntries live.new.live live.old.entries live.new.entries }
    ensures slots { live.new.slots ≡ live.old.slots }
    ensures told { StayTold live.old live.new }
{
    while let Some(id) = ids.pop() {
        live.forget(id);
    }
}

/// Makes the entry of a piece live and plans its insertion, before those of these priorities. On want of memory the live
/// entries are as they were.
fn plan_piece(
    alloc: Global,
    ranked: &Ranked,
    aim: Aim,
    coming: &[Rank],
    live: &mut LiveEntries,
    arrangement: &mut Arrangement,
    plan: &mut Plan,
) -> Result<u32, AllocError>
    requires room { length live.old.live < live.old.slots }
    requires coming { length coming.now ≤ MOST_SLOTS }
    requires encodable { IsEncodable ranked.now.piece }
    requires plannable { IsPlannable live.old arrangement.old plan.old.writes }
    ensures plannable { OnOk result (IsPlannable live.new arrangement.new plan.new.writes) }
    ensures planned { OnOk result (ArePlannedSince live.old live.new arrangement.old arrangement.new plan.old plan.new (ranked.now ∷ []) (record { aim = aim; coming = coming.now } ∷ [])) }
    ensures adds { IfOk result (λ id. AddsIds live.old live.new (id ∷ [])) }
    ensures refused { OnErr result (live.new.live ≡ live.old.live) }
    ensures kept { KeepEntries live.old.live live.old.entries live.new.entries }
    ensures slots { live.new.slots ≡ live.old.slots }
    ensures told { AreTold live.new arrangement.new }
    ensures noted { AreNotedIn arrangement.old arrangement.new plan.old plan.new }
{
    let id = live.add(&ranked.piece, ranked.rank, ranked.result)?;
    match plan_moves(alloc, id, aim, coming, live, arrangement, plan) {
        Ok(()) => Ok(id),
        Err(fault) => {
            live.forget(id);
            Err(fault)
        }
    }
}

/// Plans the insertion of a live id with an aim, its moves straight behind those of the plan. `coming` has the
/// priorities of the pieces that the commit inserts later.
fn plan_moves(
    alloc: Global,
    id: u32,
    aim: Aim,
    coming: &[Rank],
    live: &mut LiveEntries,
    arrangement: &mut Arrangement,
    plan: &mut Plan,
) -> Result<(), AllocError>
    requires new { IsLastLive live.old arrangement.old id }
    requires coming { length coming.now ≤ MOST_SLOTS }
    requires within { AllByRecursion (IsWithin live.old.slots) (all_writes plan.old.writes) }
    requires no_changes { plan.old.writes.changes.items ≡ [] }
    ensures plannable { OnOk result (IsPlannable live.new arrangement.new plan.new.writes) }
    ensures inserted { OnOk result (IsInserted live.old arrangement.old arrangement.new (record { aim = aim; coming = coming.now }) id plan.old plan.new) }
    ensures live { live.new.live ≡ live.old.live }
    ensures entries { live.new.entries ≡ live.old.entries }
    ensures slots { live.new.slots ≡ live.old.slots }
    ensures told { AreTold live.new arrangement.new }
    ensures noted { AreNotedIn arrangement.old arrangement.new plan.old plan.new }
{
    let first = plan.writes.moves.len();
    let noted = plan.undo.moves.len();
    let moves = &mut plan.writes.moves;
    let undo = &mut plan.undo.moves;
    let sides = &mut plan.sides;
    let planned = plan_insert(
        alloc,
        arrangement,
        live.index(),
        id,
        aim,
        coming,
        moves,
        undo,
        sides,
    );
    live.follow(arrangement, &plan.writes.moves, first);
    live.follow(arrangement, &plan.undo.moves, noted);
    let insert = planned?;
    keep_short(insert)?;
    let puts = puts_from(&plan.writes.moves, first);
    plan.count(insert, puts);
    Ok(())
}

/// Refuses an insertion of more moves than a plan takes of one, as for want of memory: these take 12 GiB, and as many
/// to restore them.
fn keep_short(insert: Insert) -> Result<(), AllocError>
    ensures short { OnOk result (insert.writes ≤ 2 ^ 30) }
    ensures only { OnErr result (2 ^ 30 < insert.writes) }
{
    if insert.writes > INSERTION_WRITES {
        return Err(AllocError);
    }
    Ok(())
}

/// How many moves put an entry somewhere, from this place on.
fn puts_from(moves: &Moves, first: u64) -> u32
    requires { length moves.now ≤ first + 2 ^ 31 }
    ensures { result ≡ moves_put (drop first moves.now) }
{
    let mut puts = 0;
    for place in first..moves.len() {
        puts += puts_by(moves.at(place));
    }
    puts
}

/// How many entries a move puts somewhere.
fn puts_by(step: Move) -> u32
    ensures puts { result ≡ moves_put (step ∷ []) }
    ensures few { result ≤ 1 }
{
    match step {
        Move::Put(_, _) => 1,
        Move::Erase(_) => 0,
    }
}

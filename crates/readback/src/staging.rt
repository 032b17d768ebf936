//! How far a commit came that was stopped on a device.

ghost use Rattle.std.specs.Prelude.{◌≡◌, ◌<◌, ◌≤◌, ◌^◌, length, true, Some, Err, OnOk, IfOk, IfErr, IfSome, Contains};
ghost use Rattle.std.specs.List.{AllByRecursion};
ghost use Rattle.rule_store.specs.Verdict.{Accepted, verdict};
ghost use Rattle.rule_model.specs.Entry.{RankedPiece, IsEncodable};
ghost use Rattle.tcam_device.specs.State.{IsState, State};
ghost use Rattle.tcam_device.specs.View.{device_state, journal};
ghost use Rattle.commit_writes.specs.Bits as bits;
ghost use Rattle.readback.specs.Found.{AnswersStage, IsRead, IsShown, stage_in};
ghost use Rattle.readback.specs.Laws.{CanCommit};
ghost use Rattle.readback.specs.Sorted.{AreSorted, IsSlotFault};
ghost use Rattle.readback.specs.Tasks.{commit_pieces, known_pieces, stands_in};
ghost use Rattle.readback.specs.Words.{AreRight, NamesWord};

use crate::bits::{check_maps, live_meanwhile, right_rules};
use crate::commit::{Coded, Commit, commit_of};
use crate::finding::find_in;
use crate::reading::{pieces_in, read_slots};
use crate::standing::any_stands;
use crate::words::check_words;
use crate::{Mode, Parts, Stage, StageFault};
use commit_writes::{FieldBits, Ranked};
use rule_model::Entry;
use rule_store::Batch;
use std::alloc::{AllocError, Global};
use tcam_device::ReadBack;

/// What a device shows of a batch's commit that was stopped on it: how far it came, the piece of each slot that holds
/// one, and the pieces that the commit puts in, that get another result, and that it takes out.
#[derive(Drop)]
pub struct Shown {
    pub stage: Stage,
    pub places: Vec<Option<Ranked>>,
    pub inserted: Vec<Coded>,
    pub rewritten: Vec<Coded>,
    pub erased: Vec<Coded>,
}

/// The stage of a batch's commit that a device shows, of which so many slots are in use. It takes memory for the pieces
/// of the commit and for the slots that are read back.
///
/// The faults are looked for in this order: the bits that were handed in, the tables' words for them, words for new
/// ranges where an inserted piece stands, and then the slots: an entry of no piece, one behind a lower one that it
/// overlaps, one that stands once too often, a piece that is missing, and a task done out of its turn.
pub fn find_stage<D: ReadBack>(
    alloc: Global,
    parts: &Parts,
    batch: &Batch,
    slots: u32,
    mode: Mode,
    device: &D,
) -> Result<Stage, StageFault>
    requires accepted { verdict slots mode parts.now.rules.rules batch.now ≡ Accepted }
    requires slots { slots ≤ (D.view device.now).slots }
    ensures { AnswersStage slots mode (record { src = parts.now.src; dst = parts.now.dst }) parts.now.rules.rules batch.now
        (device_state (D.view device.now)) result }
{
    match show_commit(alloc, parts, batch, slots, mode, device) {
        Ok(shown) => Ok(shown.stage),
        Err(fault) => Err(fault),
    }
}

/// The same stage with the pieces that stand in the slots, and those that the commit is about: what a plan to go on
/// needs. Where a stage is answered, the commit can be made from the set and its bits, and each word of the tables has
/// 16 bits. The faults are those of `find_stage`, in that order.
pub fn show_commit<D: ReadBack>(
    alloc: Global,
    parts: &Parts,
    batch: &Batch,
    slots: u32,
    mode: Mode,
    device: &D,
) -> Result<Shown, StageFault>
    requires accepted { verdict slots mode parts.now.rules.rules batch.now ≡ Accepted }
    requires slots { slots ≤ (D.view device.now).slots }
    ensures stage { AnswersStage slots mode (record { src = parts.now.src; dst = parts.now.dst }) parts.now.rules.rules batch.now
        (device_state (D.view device.now)) (stage_in result) }
    ensures shown { IfOk result (IsShown (commit_pieces mode (record { src = parts.now.src; dst = parts.now.dst }) parts.now.rules.rules batch.now)
        (device_state (D.view device.now)).slots) }
    ensures encodable { IfOk result (λ shown. AllByRecursion (λ ranked. IsEncodable ranked.piece)
        (known_pieces (commit_pieces mode (record { src = parts.now.src; dst = parts.now.dst }) parts.now.rules.rules batch.now))) }
    ensures can { IfOk result (λ shown. CanCommit mode (record { src = parts.now.src; dst = parts.now.dst }) parts.now.rules.rules batch.now) }
    ensures is_state { IfOk result (λ shown. IsState (D.view device.now).slots (device_state (D.view device.now))) }
{
    let live = read_live(parts, batch, slots, mode, device)?;
    let commit = match commit_of(alloc, &live, &parts.rules, batch) {
        Ok(commit) => commit,
        Err(AllocError) => return Err(StageFault::Memory),
    };
    let held = match read_slots(alloc, device) {
        Ok(held) => held,
        Err(AllocError) => return Err(StageFault::Memory),
    };
    check_new_words(device, &held, &commit, &live)?;
    show_in(alloc, slots, &held, commit)
}

/// The live ranges while the commit is made, once the bits that were handed in are found to be those of the set, and
/// each word of the tables to be right for them.
fn read_live<D: ReadBack>(
    parts: &Parts,
    batch: &Batch,
    slots: u32,
    mode: Mode,
    device: &D,
) -> Result<Option<FieldBits>, StageFault>
    requires accepted { verdict slots mode parts.now.rules.rules batch.now ≡ Accepted }
    ensures read { IfOk result (IsRead mode (record { src = parts.now.src; dst = parts.now.dst }) parts.now.rules.rules batch.now
        (D.view device.now).slots (journal (D.view device.now))) }
    ensures wrong { IfErr result (λ fault. AnswersStage slots mode (record { src = parts.now.src; dst = parts.now.dst }) parts.now.rules.rules batch.now
        (device_state (D.view device.now)) (Err fault)) }
{
    check_maps(parts, mode)?;
    let bits = FieldBits::of_maps(parts.src, parts.dst);
    check_words(device, &bits)?;
    let live = live_meanwhile(&bits, &parts.rules, batch, mode);
    right_rules(&parts.rules);
    batch.changes_rules();
    Ok(live)
}

/// What the slots show of a commit.
fn show_in(
    alloc: Global,
    slots: u32,
    held: &[Option<Entry>],
    commit: Commit,
) -> Result<Shown, StageFault>
    requires { length held.now < 2 ^ 32 }
    ensures found { IfOk result (λ shown. AreSorted slots held.now commit shown.stage) }
    ensures fault { IfErr result (λ fault. (state : State) → state.slots ≡ held.now → IsSlotFault slots commit state fault) }
    ensures shown { IfOk result (IsShown commit held.now) }
{
    let places = match pieces_in(alloc, held, &commit) {
        Ok(places) => places,
        Err(AllocError) => return Err(StageFault::Memory),
    };
    match find_in(slots, held, &places, &commit) {
        Ok(stage) => Ok(Shown {
            stage,
            places,
            inserted: commit.inserted,
            rewritten: commit.rewritten,
            erased: commit.erased,
        }),
        Err(fault) => Err(fault),
    }
}

/// Whether, where an inserted piece stands, each word has all bits right that are live meanwhile.
fn check_new_words<D: ReadBack>(
    device: &D,
    held: &[Option<Entry>],
    commit: &Commit,
    live: &Option<FieldBits>,
) -> Result<(), StageFault>
    ensures right { OnOk result ((ranked : RankedPiece) → Contains commit.now.inserted ranked → stands_in held.now ranked ≡ true
        → IfSome live.now (λ during. AreRight during (device_state (D.view device.now)))) }
    ensures wrong { IfErr result (λ fault. (during : bits.FieldBits) × (live.now ≡ Some during)
        × NamesWord during (device_state (D.view device.now)) fault
        × ((ranked : RankedPiece) × Contains commit.now.inserted ranked × (stands_in held.now ranked ≡ true))) }
{
    match live {
        Some(during) => {
            if any_stands(held, &commit.inserted) {
                check_words(device, during)
            } else {
                Ok(())
            }
        }
        None => Ok(()),
    }
}

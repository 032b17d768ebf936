//! What is left of the commit that a device shows, planned anew.

ghost use Rattle.std.specs.Prelude.{◌≡◌, ◌≤◌, ◌+◌, ◌*◌, ◌&&◌, [], IfOk, OnOk, OnErr, Some, length, nat_lt, not};
ghost use Rattle.std.specs.List.{AllByRecursion};
ghost use Rattle.rule_store.specs.declared.Mode.TheVariants as modes;
ghost use Rattle.rule_store.specs.Verdict.{Accepted, verdict};
ghost use Rattle.rule_model.specs.Entry.{IsEncodable};
ghost use Rattle.tcam_device.specs.State.{IsState};
ghost use Rattle.tcam_device.specs.View.{IsSameButSpare, device_state};
ghost use Rattle.commit_writes.specs.Proposal.{proposal};
ghost use Rattle.readback.specs.Found.{IsShown};
ghost use Rattle.readback.specs.Laws.{CanCommit};
ghost use Rattle.readback.specs.Stage.{Finds};
ghost use Rattle.readback.specs.Tasks.{commit_pieces, known_pieces};
ghost use Rattle.batch_order.specs.Arranged.{arranged_at};
ghost use Rattle.batch_order.specs.CarriedOut.{HasRoomBothWays, HasRoomLeft};
ghost use Rattle.batch_order.specs.Entries.{AreTold};
ghost use Rattle.batch_order.specs.Kept.{IsManaged, bits_of, mode_of, tables_of};
ghost use Rattle.batch_order.specs.Noting.{all_undo};
ghost use Rattle.batch_order.specs.Planning.{all_writes};
ghost use Rattle.batch_order.specs.Restart.{Resumes, bits_in};
ghost use Rattle.batch_order.specs.Managed.{HasBlankTables};
ghost use Rattle.batch_order.specs.Standing.{managed_by};
ghost use Rattle.batch_order.specs.Undoing.{StandsAt};
ghost use Rattle.batch_order.specs.Stopped.{IsPlannedOn, IsReadAgain, IsStopped, held_from};

use crate::Placement;
use crate::entries::LiveEntries;
use crate::held::Held;
use crate::parts::CommitParts;
use crate::plan::{Plan, erase_all};
use crate::restarting::rest::{parts_left, plan_rest, plan_twin};
use crate::restarting::standing::{Standing, arrangement_with_twin, standing_in};
use crate::restarting::words::read_translation;
use crate::stood::Stood;
use crate::translation::{Translation, gives_bits, plan_words};
use crate::undoing::PlannedUndo;
use commit_writes::FieldBits;
use readback::{Parts, Shown};
use rule_store::{Batch, Commands, Mode, Store};
use slot_order::MOST_SLOTS;
use slot_pool::Arrangement;
use std::alloc::{AllocError, Global};
use tcam_device::ReadBack;

/// What a rebuilt manager keeps beside its rules.
#[derive(Drop)]
pub(crate) struct Resumed {
    pub(crate) translation: Option<Translation>,
    pub(crate) live: LiveEntries,
    /// What the device shows, and where the entries stand in the end.
    pub(crate) arrangement: Stood,
    pub(crate) planned: Arrangement,
    pub(crate) held: Held,
}

/// Plans what is left of the commit that a device shows, and reserves the device and the rules for it. On want of
/// memory the parts are as they were.
pub(crate) fn resume<D: ReadBack>(
    alloc: Global,
    slots: u32,
    mode: Mode,
    placement: Placement,
    parts: &mut Parts,
    batch: &Batch,
    shown: &Shown,
    device: &mut D,
) -> Result<Resumed, AllocError>
    requires least { 1 ≤ slots }
    requires most { slots ≤ MOST_SLOTS }
    requires slots { slots ≤ (D.view device.old).slots }
    requires plain { mode ≡ modes.Cover → HasBlankTables (device_state (D.view device.old)) }
    requires accepted { verdict slots mode parts.old.rules.rules batch.now ≡ Accepted }
    requires can { CanCommit mode (bits_in parts.old) parts.old.rules.rules batch.now }
    requires is_state { IsState (D.view device.old).slots (device_state (D.view device.old)) }
    requires found { Finds slots mode (bits_in parts.old) parts.old.rules.rules batch.now (device_state (D.view device.old)) shown.now.stage }
    requires shown { IsShown (commit_pieces mode (bits_in parts.old) parts.old.rules.rules batch.now) (device_state (D.view device.old)).slots shown.now }
    requires encodable { AllByRecursion (λ ranked. IsEncodable ranked.piece) (known_pieces (commit_pieces mode (bits_in parts.old) parts.old.rules.rules batch.now)) }
    ensures managed { IfOk result (λ made. IsManaged made.translation parts.new.rules made.live made.arrangement (Some made.held)) }
    ensures resumes { IfOk result (λ made. Resumes slots mode placement parts.old batch.now (D.view device.old).slots (device_state (D.view device.old))
        (managed_by placement made.translation parts.new.rules made.live made.arrangement (Some made.held))) }
    ensures stands { IfOk result (λ made. StandsAt made.arrangement made.planned (Some made.held)) }
    ensures told { IfOk result (λ made. AreTold made.live made.planned) }
    ensures same { OnErr result (parts.new ≡ parts.old) }
    ensures reserved { IfOk result (λ made. HasRoomLeft (managed_by placement made.translation parts.new.rules made.live made.arrangement (Some made.held)).held (D.view device.new).spare) }
    ensures both_ways { IfOk result (λ made. HasRoomBothWays (managed_by placement made.translation parts.new.rules made.live made.arrangement (Some made.held)).held (D.view device.new).spare) }
    ensures spare { (D.view device.old).spare ≤ (D.view device.new).spare }
    ensures others { IsSameButSpare (D.view device.old) (D.view device.new) }
{
    let twin = shown.stage.twin;
    let mut standing = standing_in(alloc, slots, &shown.places, twin)?;
    standing.live.are_apart();
    let before = arrangement_with_twin(alloc, &standing, &shown.places, twin)?;
    let translation = read_translation(alloc, mode, parts, device)?;
    let rest = plan_all(
        alloc,
        mode,
        placement,
        &translation,
        &parts.rules,
        batch,
        shown,
        &mut standing,
        device,
    )?;
    let commands = batch.commands(alloc)?;
    let new = gives_bits(&translation, &rest.bits);
    let drain = drain_of(new, has_begun(shown));
    parts.rules.reserve(batch.len())?;
    let stood = Stood::of_gone(before);
    let end = Stood::of(&standing.arrangement);
    let held = hold(alloc, rest, drain, commands, end);
    Ok(Resumed {
        translation,
        live: standing.live,
        arrangement: stood,
        planned: standing.arrangement,
        held,
    })
}

/// Whether an inserted piece stands: the first tasks of a commit are its insertions.
fn has_begun(shown: &Shown) -> bool
    ensures { result ≡ (nat_lt 0 shown.now.stage.done && nat_lt 0 (length shown.now.inserted.items)) }
{
    shown.stage.done > 0 && !shown.inserted.is_empty()
}

/// Whether a drain is still to come, and whether it was made: where bits are new it stands before the first insertion.
fn drain_of(new: bool, begun: bool) -> (bool, bool)
    ensures awaits { result.0 ≡ (new && not begun) }
    ensures drained { result.1 ≡ (new && begun) }
{
    if begun { (false, new) } else { (new, false) }
}

/// A plan as it is held before its first write, with its drain, its batch, and where the entries stand in the end.
fn hold(alloc: Global, rest: Rest, drain: (bool, bool), batch: Commands, arrangement: Stood) -> Held
    ensures held { result ≡ held_from rest drain.0 drain.1 batch arrangement result.undo }
    ensures undo { all_undo result.undo ≡ [] }
{
    let Rest {
        plan,
        bits,
        left,
        ids,
    } = rest;
    let counts = plan.counts();
    let (awaits, drained) = drain;
    let Plan {
        writes,
        undo: _,
        words: _,
        most: _,
        span: _,
        most_parts,
        sides: _,
    } = plan;
    Held {
        prepared: false,
        counts,
        writes,
        undo: PlannedUndo::new(alloc),
        made: 0,
        turned: None,
        awaits,
        drained,
        bits,
        batch,
        rewrites: left.rewrites,
        erased: left.erased,
        ids,
        arrangement,
        most_parts,
    }
}

/// The plan of what is left, the live ranges meanwhile, what the plan changes, and the ids of its new entries.
#[derive(Drop)]
struct Rest {
    plan: Plan,
    bits: Option<FieldBits>,
    left: CommitParts,
    ids: Vec<u32>,
}

/// Plans the words of the tables that differ, the erase of the twin, and the parts that are left, over the pieces that
/// stand, and reserves the device. Then these stand as they do in the end.
fn plan_all<D: ReadBack>(
    alloc: Global,
    mode: Mode,
    placement: Placement,
    translation: &Option<Translation>,
    rules: &Store,
    batch: &Batch,
    shown: &Shown,
    standing: &mut Standing,
    device: &mut D,
) -> Result<Rest, AllocError>
    requires stopped { IsStopped (length standing.old.arrangement) mode (bits_of translation.now) rules.now.rules batch.now (device_state (D.view device.old)) shown.now }
    requires mode { mode_of translation.now ≡ mode }
    requires tables { tables_of translation.now ≡ record (device_state (D.view device.old)) { slots = [] } }
    requires read { IsReadAgain mode (bits_of translation.now) rules.now.rules batch.now (device_state (D.view device.old)) shown.now standing.old.live standing.old.arrangement }
    requires told { AreTold standing.old.live standing.old.arrangement }
    ensures planned { IfOk result (IsPlannedOn placement (D.view device.old).slots (proposal mode (bits_of translation.now) rules.now.rules batch.now)
        (device_state (D.view device.old)) shown.now (arranged_at standing.old.live standing.old.arrangement) (arranged_at standing.new.live standing.new.arrangement)) }
    ensures told { OnOk result (AreTold standing.new.live standing.new.arrangement) }
    ensures enough { IfOk result (λ rest. 2 * length (all_writes rest.plan.writes) + 1 ≤ (D.view device.new).spare) }
    ensures least { (D.view device.old).spare ≤ (D.view device.new).spare }
    ensures others { IsSameButSpare (D.view device.old) (D.view device.new) }
{
    let mut plan = Plan::new(alloc);
    let bits = plan_words(translation, batch, &mut plan)?;
    plan_twin(shown.stage.twin, &mut plan.writes)?;
    let left = parts_left(alloc, &standing.live, shown)?;
    let ids = plan_rest(
        alloc,
        placement,
        mode,
        rules,
        shown.stage.done,
        &left,
        &mut standing.live,
        &mut standing.arrangement,
        &mut plan,
        device,
    )?;
    erase_all(&mut standing.live, &mut standing.arrangement, &left.erased);
    Ok(Rest {
        plan,
        bits,
        left,
        ids,
    })
}

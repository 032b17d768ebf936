//! All writes of a commit behind the words of the tables, and what restores all of them.

ghost use Rattle.std.specs.Prelude.{◌≡◌, ◌+◌, ◌++◌, ◌≤◌, [], IsTrue, IfOk, OnOk, OnErr, length, map, nat_eq};
ghost use Rattle.std.specs.List.{AllByRecursion, IsDistinct};
ghost use Rattle.rule_store.specs.declared.Mode.TheVariants as modes;
ghost use Rattle.rule_store.specs.Verdict.{entries_of};
ghost use Rattle.rule_model.specs.Entry.{IsEncodable};
ghost use Rattle.placement.specs.Live.{is_live};
ghost use Rattle.batch_order.specs.Arranged.{arranged_at};
ghost use Rattle.batch_order.specs.Entries.{AddsIds, AreTold, KeepEntries};
ghost use Rattle.batch_order.specs.Kept.{mode_of};
ghost use Rattle.batch_order.specs.Noting.{AreChangesPlanned, BeginsWithWords, all_undo};
ghost use Rattle.batch_order.specs.Placing.{aims_of};
ghost use Rattle.batch_order.specs.Planning.{AreAllPlanned, IsPlannable, IsStanding, IsWithin, all_writes};
ghost use Rattle.batch_order.specs.Undoing.{AreRestoring, HasNotedWords, TakesBack};
ghost use Rattle.commit_writes.specs.PlannedBatch.{erased_slots};

use crate::Placement;
use crate::entries::LiveEntries;
use crate::insertions::{forget_all, plan_additions};
use crate::parts::CommitParts;
use crate::plan::{Plan, plan_changes};
use crate::translation::{Translation, encoding};
use crate::undoing::{note_words, put_back};
use rule_store::Store;
use slot_order::MOST_SLOTS;
use slot_pool::Arrangement;
use std::alloc::{AllocError, Global};

/// Plans the insertions in an arrangement, then the new entries and the erases, and notes what restores all writes. Answers
/// the ids of the new entries. The erases aren't made in the arrangement yet; once they are, what is noted takes it back. On
/// want of memory the live entries and the arrangement are as they were.
pub(crate) fn plan_writes(
    alloc: Global,
    placement: Placement,
    translation: &mut Option<Translation>,
    rules: &Store,
    parts: &CommitParts,
    live: &mut LiveEntries,
    arrangement: &mut Arrangement,
    plan: &mut Plan,
) -> Result<Vec<u32>, AllocError>
    requires standing { length live.old.live ≡ entries_of (mode_of translation.old) rules.now.rules }
    requires room { length live.old.live + length parts.now.inserted.items ≤ live.old.slots }
    requires encodable { AllByRecursion (λ ranked. IsEncodable ranked.piece) parts.now.inserted.items }
    requires plannable { IsPlannable live.old arrangement.old plan.old.writes }
    requires begins { BeginsWithWords (mode_of translation.old) plan.old }
    requires few { length parts.now.rewrites.items ≤ MOST_SLOTS }
    requires rewritten { AllByRecursion (λ rewrite. IsTrue (is_live live.old.live rewrite.id)) parts.now.rewrites.items }
    requires erased { AllByRecursion (λ id. IsTrue (is_live live.old.live id)) parts.now.erased.items }
    requires apart { IsDistinct nat_eq (map (λ rewrite. rewrite.id) parts.now.rewrites.items ++ parts.now.erased.items) }
    ensures planned { OnOk result (AreAllPlanned (arranged_at live.old arrangement.old) (arranged_at live.new arrangement.new) plan.old plan.new parts.now.inserted.items
        (aims_of placement (mode_of translation.old) (length arrangement.old) rules.now.rules parts.now.inserted.items) parts.now.rewrites.items parts.now.erased.items) }
    ensures adds { IfOk result (λ ids. AddsIds live.old live.new ids.items) }
    ensures undo { OnOk result (AreRestoring translation.old arrangement.old (all_writes plan.new.writes) (all_undo plan.new.undo)) }
    ensures takes_back { OnOk result (TakesBack arrangement.old (erased_slots arrangement.new parts.now.erased.items) plan.new.undo) }
    ensures refused { OnErr result (live.new.live ≡ live.old.live) }
    ensures back { OnErr result (arrangement.new ≡ arrangement.old) }
    ensures same { translation.new ≡ translation.old }
    ensures kept { KeepEntries live.old.live live.old.entries live.new.entries }
    ensures slots { live.new.slots ≡ live.old.slots }
    ensures told { AreTold live.new arrangement.new }
{
    let mode = encoding(translation);
    let inserted = &parts.inserted;
    match plan_additions(
        alloc,
        placement,
        mode,
        rules,
        inserted,
        live,
        arrangement,
        plan,
    ) {
        Ok(ids) => match plan_behind(translation, parts, arrangement, plan) {
            Ok(()) => Ok(ids),
            Err(fault) => {
                forget_all(live, ids);
                put_back(live, arrangement, &plan.undo.moves);
                Err(fault)
            }
        },
        Err(fault) => {
            put_back(live, arrangement, &plan.undo.moves);
            Err(fault)
        }
    }
}

/// Plans the new entries and the erases behind the insertions, and notes what they and the words of the tables replace.
fn plan_behind(
    translation: &mut Option<Translation>,
    parts: &CommitParts,
    arrangement: &Arrangement,
    plan: &mut Plan,
) -> Result<(), AllocError>
    requires few { length parts.now.rewrites.items ≤ MOST_SLOTS }
    requires rewritten { AllByRecursion (λ rewrite. IsStanding arrangement.now rewrite.id) parts.now.rewrites.items }
    requires erased { AllByRecursion (IsStanding arrangement.now) parts.now.erased.items }
    requires within { AllByRecursion (IsWithin (length arrangement.now)) (all_writes plan.old.writes) }
    requires covers { mode_of translation.old ≡ modes.Cover → plan.old.writes.words.items ≡ [] }
    requires unnoted { plan.old.undo.words.items ≡ [] }
    ensures changed { OnOk result (AreChangesPlanned arrangement.now parts.now.rewrites.items parts.now.erased.items plan.old plan.new) }
    ensures noted { OnOk result (HasNotedWords translation.old plan.old plan.new) }
    ensures moves { plan.new.undo.moves ≡ plan.old.undo.moves }
    ensures same { translation.new ≡ translation.old }
{
    plan_changes(parts, arrangement, plan)?;
    note_words(translation, &plan.writes.words, &mut plan.undo.words)
}

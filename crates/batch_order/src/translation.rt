//! What a manager keeps of the translation of port ranges: by covers nothing.

ghost use Rattle.std.specs.Prelude.{◌≡◌, ◌+◌, ◌-◌, ◌*◌, ◌^◌, ◌<◌, ◌≤◌, [], IfOk, IfErr, IfSome, OnOk, List, length, map};
ghost use Rattle.rule_store.specs.Verdict.{field_bits};
ghost use Rattle.range_bits.specs.FieldMap.{live_count};
ghost use Rattle.tcam_device.specs.State.{IsState, apply, blank, state_after};
ghost use Rattle.commit_writes.specs.declared.Rewrite.{Rewrite};
ghost use Rattle.commit_writes.specs.Actions.{have_bits};
ghost use Rattle.commit_writes.specs.Bits.{new_bits, no_bits, ranges_in};
ghost use Rattle.commit_writes.specs.Planned.{IdEntries};
ghost use Rattle.commit_writes.specs.Shape.{bit_writes};
ghost use Rattle.commit_writes.specs.Needed.{ranges_needed};
ghost use Rattle.commit_writes.specs.Changes.{coded_by, during_of};
ghost use Rattle.batch_order.specs.Kept.{bits_of, mode_of, needed_by, tables_of, translated_by};
ghost use Rattle.batch_order.specs.Noting.{BeginsWithWords, IsUnnoted};
ghost use Rattle.batch_order.specs.Planning.{all_writes, as_write, as_writes};

use crate::plan::Plan;
use crate::planned_writes::{PlannedWrite, PlannedWrites};
use crate::{Field, Rejection};
use commit_writes::{FieldBits, Tables};
use rule_store::{Batch, Mode, Store};
use std::alloc::{AllocError, Global};

/// The live port ranges by their bits, and both translation tables as they stand in the device.
#[derive(Drop)]
pub(crate) struct Translation {
    pub(crate) bits: FieldBits,
    pub(crate) tables: Tables,
}

/// What is kept for a blank device.
pub(crate) fn blank_translation(
    alloc: Global,
    mode: Mode,
) -> Result<Option<Translation>, AllocError>
    ensures mode { IfOk result (λ kept. mode_of kept ≡ mode) }
    ensures bits { IfOk result (λ kept. bits_of kept ≡ no_bits) }
    ensures tables { IfOk result (λ kept. tables_of kept ≡ blank 0) }
{
    match mode {
        Mode::Cover => Ok(None),
        Mode::Bits => Ok(Some(Translation {
            bits: FieldBits::new(),
            tables: Tables::new(alloc)?,
        })),
    }
}

/// How port ranges are encoded.
pub(crate) fn encoding(translation: &Option<Translation>) -> Mode
    ensures { result ≡ mode_of translation.now }
{
    match translation {
        None => Mode::Cover,
        Some(_) => Mode::Bits,
    }
}

/// Whether a range is live meanwhile that wasn't before.
pub(crate) fn gives_bits(translation: &Option<Translation>, during: &Option<FieldBits>) -> bool
    requires { coded_by during.now ≡ mode_of translation.now }
    ensures { result ≡ have_bits (new_bits (bits_of translation.now) (during_of during.now)) }
{
    match (translation, during) {
        (Some(kept), Some(bits)) => bits.new_since(&kept.bits).any(),
        _ => false,
    }
}

/// Whether the new ranges that a batch adds in a field fit its free bits.
pub(crate) fn check_field(bits: &FieldBits, field: Field, batch: &Batch) -> Result<(), Rejection>
    ensures fits { OnOk result (live_count (ranges_in field bits.now) + length (ranges_needed field bits.now batch.now) ≤ field_bits) }
    ensures short { IfErr result (λ rejection. (field_bits < live_count (ranges_in field bits.now) + length (ranges_needed field bits.now batch.now))
        × (rejection ≡ Rejection.Bits field (length (ranges_needed field bits.now batch.now)) (field_bits - live_count (ranges_in field bits.now)))) }
{
    let need = bits.needed(field, batch);
    let free = bits.free(field);
    if need > free {
        return Err(Rejection::Bits { field, need, free });
    }
    Ok(())
}

/// Gives a batch's new port ranges their bits, for which as many are free, and plans the words of the tables that
/// differ by them. Answers the live ranges while the commit is made, none by covers.
pub(crate) fn plan_words(
    translation: &Option<Translation>,
    batch: &Batch,
    plan: &mut Plan,
) -> Result<Option<FieldBits>, AllocError>
    requires src { IfSome translation.now (λ kept. live_count (ranges_in Field.Src kept.bits) + length (ranges_needed Field.Src kept.bits batch.now) ≤ field_bits) }
    requires dst { IfSome translation.now (λ kept. live_count (ranges_in Field.Dst kept.bits) + length (ranges_needed Field.Dst kept.bits batch.now) ≤ field_bits) }
    requires empty { all_writes plan.old.writes ≡ [] }
    requires none { plan.old.words ≡ 0 }
    requires unnoted { IsUnnoted plan.old.undo }
    ensures coded { IfOk result (λ bits. coded_by bits ≡ mode_of translation.now) }
    ensures during { IfOk result (λ bits. during_of bits ≡ needed_by translation.now batch.now) }
    ensures writes { OnOk result (all_writes plan.new.writes
        ≡ map PlannedWrite.Tabled (bit_writes (tables_of translation.now) (new_bits (bits_of translation.now) (needed_by translation.now batch.now)))) }
    ensures no_changes { plan.new.writes.changes.items ≡ plan.old.writes.changes.items }
    ensures begins { OnOk result (BeginsWithWords (mode_of translation.now) plan.new) }
    ensures words { OnOk result (plan.new.words ≡ length (all_writes plan.new.writes)) }
    ensures few { OnOk result (length (all_writes plan.new.writes) ≤ 2 * 2 ^ 16) }
    ensures most { plan.new.most ≡ plan.old.most }
    ensures span { plan.new.span ≡ plan.old.span }
    ensures most_parts { plan.new.most_parts ≡ plan.old.most_parts }
{
    let Some(kept) = translation else {
        return Ok(None);
    };
    let bits = kept.bits.with_new(batch);
    let words = &mut plan.writes.words;
    kept.tables.plan_words(&bits.new_since(&kept.bits), words)?;
    plan.words = plan.writes.words.len() as u32;
    Ok(Some(bits))
}

/// The writes of a commit are made, and its rules are the set's: the tables are those after the writes, and bits that
/// no rule needs are given up.
pub(crate) fn translate(
    translation: &mut Option<Translation>,
    bits: &Option<FieldBits>,
    rules: &Store,
    writes: &PlannedWrites,
)
    requires { IsState 0 (tables_of translation.old) }
    ensures { (entries : IdEntries) → (rewrites : List Rewrite) → translation.new ≡ translated_by translation.old bits.now rules.now.rules (as_writes entries rewrites (all_writes writes.now)) }
{
    match (translation, bits) {
        (Some(kept), Some(bits)) => {
            set_words(&mut kept.tables, writes);
            kept.bits = bits.released(rules);
        }
        _ => {}
    }
}

/// The tables get the words that are among some writes, in their order.
fn set_words(tables: &mut Tables, writes: &PlannedWrites)
    requires { IsState 0 tables.old }
    ensures { (entries : IdEntries) → (rewrites : List Rewrite) → tables.new ≡ state_after tables.old (as_writes entries rewrites (all_writes writes.now)) }
{
    for place in 0..writes.len() {
        set_word(tables, writes.get(place).unwrap());
    }
}

/// The tables get a word, if a write is one; a write of a slot changes nothing here.
fn set_word(tables: &mut Tables, write: PlannedWrite)
    requires { length tables.old.slots ≡ 0 }
    ensures { (entries : IdEntries) → (rewrites : List Rewrite) → tables.new ≡ apply tables.old (as_write entries rewrites write) }
{
    match write {
        PlannedWrite::Tabled(word) => tables.set(word),
        PlannedWrite::Moved(_) => {}
        PlannedWrite::Rewritten(..) => {}
    }
}

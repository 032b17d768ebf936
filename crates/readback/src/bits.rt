//! Which port ranges have bits before a commit, and which while it is made.

ghost use Rattle.std.specs.Prelude.{◌≡◌, ◌↔◌, IsTrue, OnOk, IfErr};
ghost use Rattle.std.specs.List.{AllByRecursion};
ghost use Rattle.rule_model.specs.declared.Field as model;
ghost use Rattle.rule_model.specs.Rule.{HasConditions};
ghost use Rattle.rule_model.specs.RuleSet.{IsRuleSet};
ghost use Rattle.range_bits.specs.FieldMap.{IsFieldMap};
ghost use Rattle.commit_writes.specs.Bits.{bits_with};
ghost use Rattle.commit_writes.specs.Serving.{HaveFreeBits};
ghost use Rattle.commit_writes.specs.Needed.{AreLive};
ghost use Rattle.commit_writes.specs.Changes.{coded_by, during_of};
ghost use Rattle.readback.specs.declared.StageFault.TheVariants as faults;
ghost use Rattle.readback.specs.Fault.{AreSetBits, AreSetRanges, set_ranges};

use crate::{Field, Mode, Parts, StageFault};
use commit_writes::{FieldBits, is_map_of};
use range_bits::BitMap;
use rule_model::rule_conditions;
use rule_store::{Batch, Store};

/// Whether the bits that were handed in are those of the set's ranges: by covers no range has one.
pub(crate) fn check_maps(parts: &Parts, mode: Mode) -> Result<(), StageFault>
    ensures are { OnOk result (AreSetBits mode parts.now.rules.rules (record { src = parts.now.src; dst = parts.now.dst })) }
    ensures src { OnOk result (IsFieldMap parts.now.src) }
    ensures dst { OnOk result (IsFieldMap parts.now.dst) }
    ensures differ { IfErr result (λ fault. (field : model.Field) × (fault ≡ faults.BitsDiffer field)
        × (AreSetRanges mode field parts.now.rules.rules (record { src = parts.now.src; dst = parts.now.dst }) → ⊥)) }
{
    if !is_right_map(&parts.src, Field::Src, &parts.rules, mode) {
        return Err(StageFault::BitsDiffer(Field::Src));
    }
    if !is_right_map(&parts.dst, Field::Dst, &parts.rules, mode) {
        return Err(StageFault::BitsDiffer(Field::Dst));
    }
    Ok(())
}

/// Whether live ranges are those of a set in a field.
fn is_right_map(live: &BitMap, field: Field, rules: &Store, mode: Mode) -> bool
    ensures right { IsTrue result ↔ AreLive live.now (set_ranges mode field rules.now.rules) }
    ensures map { IsFieldMap live.now }
{
    let count = live.live();
    match mode {
        Mode::Cover => count == 0,
        Mode::Bits => is_map_of(live, field, rules),
    }
}

/// The live ranges while the commit is made.
pub(crate) fn live_meanwhile(
    bits: &FieldBits,
    rules: &Store,
    batch: &Batch,
    mode: Mode,
) -> Option<FieldBits>
    requires are { AreSetBits mode rules.now.rules bits.now }
    requires src { IsFieldMap bits.now.src }
    requires dst { IsFieldMap bits.now.dst }
    requires few { HaveFreeBits mode rules.now.rules batch.now }
    ensures coded { coded_by result ≡ mode }
    ensures during { during_of result ≡ bits_with mode rules.now.rules batch.now bits.now }
{
    match mode {
        Mode::Cover => None,
        Mode::Bits => Some(bits.with_new(batch)),
    }
}

/// The conditions of a set's rules are right, by their types.
pub(crate) fn right_rules(rules: &Store)
    ensures right { AllByRecursion HasConditions rules.now.rules }
    ensures is_set { IsRuleSet rules.now.rules }
{
    for place in 0..rules.len() {
        rule_conditions(rules.at(place));
    }
}

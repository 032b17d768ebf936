//! The verdict on a batch, by the rules and the batch alone.

ghost use Rattle.std.specs.Prelude.{◌≡◌, ◌+◌, ◌-◌, ◌<◌, ◌≤◌, IfErr, OnOk, length};
ghost use Rattle.rule_store.specs.Verdict as verdicts;
ghost use Rattle.rule_store.specs.Verdict.{Accepted, coded_ranges, field_bits, new_ranges};
ghost use Rattle.readback.specs.Judged.{judgement};

use crate::{Field, Mode, Rejection};
use commit_writes::{added_ranges, free_bits};
use rule_store::{Batch, Store};

/// Judges a batch of changes to the rules by these alone, for so many slots in use. It takes no memory. Where the rules
/// take more bits or slots than there are, a batch is rejected also where it needs none, and the answer tells that 0
/// are free.
pub fn verdict(rules: &Store, batch: &Batch, slots: u32, mode: Mode) -> Result<(), Rejection>
    ensures answer { result ≡ judgement (verdicts.verdict slots mode rules.now.rules batch.now) }
    ensures accepted { OnOk result (verdicts.verdict slots mode rules.now.rules batch.now ≡ Accepted) }
{
    match rules.check(batch) {
        Ok(()) => check_room(rules, batch, slots, mode),
        Err(fault) => Err(Rejection::Unsound(fault)),
    }
}

/// Whether the bits that a batch needs are free in both fields, and then whether its entries fit.
fn check_room(rules: &Store, batch: &Batch, slots: u32, mode: Mode) -> Result<(), Rejection>
    ensures { result ≡ judgement (verdicts.room_verdict slots mode rules.now.rules batch.now) }
{
    match mode {
        Mode::Cover => check_slots(rules, batch, slots, Mode::Cover),
        Mode::Bits => {
            match check_bits(Field::Src, rules, batch) {
                Ok(()) => {}
                Err(short) => return Err(short),
            }
            match check_bits(Field::Dst, rules, batch) {
                Ok(()) => check_slots(rules, batch, slots, Mode::Bits),
                Err(short) => Err(short),
            }
        }
    }
}

/// Whether the bits that a batch needs in a field are free.
fn check_bits(field: Field, rules: &Store, batch: &Batch) -> Result<(), Rejection>
    ensures fit { OnOk result (length (coded_ranges field rules.now.rules) + length (new_ranges field rules.now.rules batch.now) ≤ field_bits) }
    ensures short { IfErr result (λ told. (field_bits < length (coded_ranges field rules.now.rules) + length (new_ranges field rules.now.rules batch.now))
        × (told ≡ Rejection.Bits field (length (new_ranges field rules.now.rules batch.now)) (field_bits - length (coded_ranges field rules.now.rules)))) }
{
    let need = added_ranges(field, rules, batch);
    match free_bits(field, rules) {
        None => Err(Rejection::Bits {
            field,
            need,
            free: 0,
        }),
        Some(free) => {
            if need > free {
                Err(Rejection::Bits { field, need, free })
            } else {
                Ok(())
            }
        }
    }
}

/// Whether the entries that a batch adds fit the slots that the rules leave free.
fn check_slots(rules: &Store, batch: &Batch, slots: u32, mode: Mode) -> Result<(), Rejection>
    ensures { result ≡ judgement (verdicts.slots_verdict slots mode rules.now.rules batch.now) }
{
    // A batch has `BATCH_COMMANDS` at most, and a set fewer rules than 2 ^ 32, so the numbers fit.
    let _commands = batch.len();
    let _rules = rules.len();
    let need = rules.entries_added(mode, batch);
    let used = rules.entries_of(mode);
    if used + need > u64::from(slots) {
        return Err(Rejection::Slots {
            need: need as u32,
            free: u64::from(slots).saturating_sub(used) as u32,
        });
    }
    Ok(())
}

//! How many bits a set and a batch need, told by their rules alone.

ghost use Rattle.std.specs.Prelude.{◌≡◌, ◌+◌, ◌<◌, ◌≤◌, IfSome, IsNone, length, take, if◌then◌else◌};
ghost use Rattle.rule_store.specs.Verdict.{coded_ranges, field_bits, new_ranges};

use crate::translation::ranges::{coded_range, has_range, is_added_before, range_of};
use range_bits::{BitMap, FIELD_BITS};
use rule_model::Field;
use rule_store::{Batch, Store};

/// How many bits of a field the ranges of a set leave, of those that are no single block. None comes exactly where they
/// need more bits than a field has. No memory is taken.
pub fn free_bits(field: Field, rules: &Store) -> Option<u32>
    ensures free { IfSome result (λ free. free + length (coded_ranges field rules.now.rules) ≡ field_bits) }
    ensures none { IsNone result → field_bits < length (coded_ranges field rules.now.rules) }
{
    let mut live = BitMap::new();
    for place in 0..rules.len() {
        let range = range_of(field, rules.at(place));
        if range.block() || live.bit_of(range).is_some() {
            continue;
        }
        let Ok(_bit) = live.assign(range) else {
            return None;
        };
    }
    Some(u32::from(FIELD_BITS - live.live()))
}

/// For how many ranges of a field a batch needs bits: its additions' that are no single block and that no rule of the
/// set has, each counted once. No memory is taken.
pub fn added_ranges(field: Field, rules: &Store, batch: &Batch) -> u32
    ensures count { result ≡ length (new_ranges field rules.now.rules batch.now) }
    ensures most { result ≤ length batch.now }
{
    let mut count = 0;
    for place in 0..batch.len() {
        if is_first_new(field, rules, batch, place) {
            count += 1;
        }
    }
    count
}

/// Whether the command at a place adds a range that no rule of a set has, and no earlier one adds it.
fn is_first_new(field: Field, rules: &Store, batch: &Batch, place: u32) -> bool
    requires { place < length batch.now }
    ensures { length (new_ranges field rules.now.rules (take (place + 1) batch.now))
        ≡ length (new_ranges field rules.now.rules (take place batch.now)) + (if result then 1 else 0) }
{
    let Some(range) = coded_range(field, &batch.at(place)) else {
        return false;
    };
    !has_range(field, rules, range) && !is_added_before(field, batch, place, range)
}

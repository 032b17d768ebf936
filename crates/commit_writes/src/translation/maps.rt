//! Whether live port ranges are those of a set.

ghost use Rattle.std.specs.Prelude.{◌≡◌, ◌↔◌, ◌||◌, ℕ, Some, IsTrue, Contains, is_some};
ghost use Rattle.rule_model.specs.PortRange.{PortRange, is_block};
ghost use Rattle.rule_store.specs.Verdict.{coded_ranges};
ghost use Rattle.range_bits.specs.LiveRanges.{bit_of, range_at};
ghost use Rattle.commit_writes.specs.Needed.{AreLive};

use crate::translation::ranges::{has_range, range_of};
use range_bits::{BitMap, FIELD_BITS};
use rule_model::{Field, Ports};
use rule_store::Store;

/// Whether the live ranges of a field are those of a set that are no single block, each of them and no other.
pub fn is_map_of(live: &BitMap, field: Field, rules: &Store) -> bool
    ensures { IsTrue result ↔ AreLive live.now (coded_ranges field rules.now.rules) }
{
    has_no_other(live, field, rules) && has_each(live, field, rules)
}

/// Whether each live range is one of a rule.
fn has_no_other(live: &BitMap, field: Field, rules: &Store) -> bool
    ensures { IsTrue result ↔ ((bit : ℕ) (range : PortRange) → range_at live.now bit ≡ Some range → Contains (coded_ranges field rules.now.rules) range) }
{
    for bit in 0..FIELD_BITS {
        if !is_one_of(live.range_of(bit), field, rules) {
            return false;
        }
    }
    true
}

/// Whether what a bit has, if anything, is the range of a rule.
fn is_one_of(held: Option<Ports>, field: Field, rules: &Store) -> bool
    ensures { IsTrue result ↔ ((range : PortRange) → held ≡ Some range → Contains (coded_ranges field rules.now.rules) range) }
{
    match held {
        None => true,
        Some(range) => has_range(field, rules, range),
    }
}

/// Whether each range of a rule that is no single block is live.
fn has_each(live: &BitMap, field: Field, rules: &Store) -> bool
    ensures { IsTrue result ↔ ((range : PortRange) → Contains (coded_ranges field rules.now.rules) range → IsTrue (is_some (bit_of live.now range))) }
{
    for place in 0..rules.len() {
        if !has_bit(live, range_of(field, rules.at(place))) {
            return false;
        }
    }
    true
}

/// Whether a range is live, if it is no single block.
fn has_bit(live: &BitMap, range: Ports) -> bool
    ensures { result ≡ (is_block range || is_some (bit_of live.now range)) }
{
    range.block() || live.bit_of(range).is_some()
}

//! Laws as calls: each makes nothing, and its contract is the law.
ghost use Rattle.range_bits.specs.FieldMap.{NewRangesGetOneBit, KeptRangesHaveOneBit};

/// Ranges that aren't live and get the least free bits, one after another, leave a field with 16 bits, and no range
/// with two of them.
pub fn new_ranges_get_one_bit()
    ensures { NewRangesGetOneBit }
{}

/// So does the end of a commit, where the ranges that no rule has give up their bits.
pub fn kept_ranges_have_one_bit()
    ensures { KeptRangesHaveOneBit }
{}

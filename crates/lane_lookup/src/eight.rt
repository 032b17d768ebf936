// Eight slots at a time.
ghost use Rattle.std.specs.Prelude.{◌≡◌, ℕ, ◌+◌, ◌<◌, ◌≤◌, true, false, length};
ghost use Rattle.std.specs.List.{AllByRecursion};
ghost use Rattle.lane_lookup.specs.Columns.{HasSize, IsZeroUnlessUsed, row_hits, used_from};

use crate::column::Column;
use eight_lanes::{eight, either, first_zero};
use rule_model::Word;

/// What a try of eight slots found.
#[derive(Clone, Copy, Drop)]
pub(crate) struct Tried {
    /// How many of them come before the first that hits, 8 where none does.
    pub(crate) before: u32,
    /// Where none does, the lane after which none was left, or any where all eight are empty.
    pub(crate) lane: usize,
}

/// The first of the eight slots from `at` on that hits the word. Neighbours mostly differ in the same lane, so
/// the lane that kept the eight slots before from hitting is tried alone before the others.
pub(crate) fn try_eight(
    lanes: &[Column],
    used: &[usize],
    vacant: &[u32],
    word: &Word,
    at: usize,
    last: usize,
) -> Tried
    requires count { length lanes.now ≡ 11 }
    requires listed { used.now ≡ used_from lanes.now 0 }
    requires zeros { AllByRecursion IsZeroUnlessUsed lanes.now }
    requires sizes { AllByRecursion (HasSize (length vacant.now)) lanes.now }
    requires room { at + 8 ≤ length vacant.now }
    requires last { last < 11 }
    ensures bound { result.before ≤ 8 }
    ensures before { (k : ℕ) → k < result.before → row_hits lanes.now vacant.now word.now (at + k) ≡ false }
    ensures hit { result.before < 8 → row_hits lanes.now vacant.now word.now (at + result.before) ≡ true }
    ensures lane { result.lane < 11 }
{
    if keeps_off(lanes, vacant, word, at, last) {
        return Tried {
            before: 8,
            lane: last,
        };
    }
    first_of_eight(lanes, used, vacant, word, at)
}

/// Whether this lane alone, beside the vacancies, keeps all eight slots from `at` on from hitting the word.
fn keeps_off(lanes: &[Column], vacant: &[u32], word: &Word, at: usize, lane: usize) -> bool
    requires count { length lanes.now ≡ 11 }
    requires sizes { AllByRecursion (HasSize (length vacant.now)) lanes.now }
    requires room { at + 8 ≤ length vacant.now }
    requires lane { lane < 11 }
    ensures { result ≡ true → (k : ℕ) → k < 8 → row_hits lanes.now vacant.now word.now (at + k) ≡ false }
{
    let kept = either(eight(vacant, at), lanes[lane].off(at, word.lane[lane]));
    first_zero(kept) == 8
}

/// The same by every lane in use. Only those can keep a slot from hitting, and once they keep all eight the
/// others needn't be looked at.
fn first_of_eight(lanes: &[Column], used: &[usize], vacant: &[u32], word: &Word, at: usize) -> Tried
    requires count { length lanes.now ≡ 11 }
    requires listed { used.now ≡ used_from lanes.now 0 }
    requires zeros { AllByRecursion IsZeroUnlessUsed lanes.now }
    requires sizes { AllByRecursion (HasSize (length vacant.now)) lanes.now }
    requires room { at + 8 ≤ length vacant.now }
    ensures bound { result.before ≤ 8 }
    ensures before { (k : ℕ) → k < result.before → row_hits lanes.now vacant.now word.now (at + k) ≡ false }
    ensures hit { result.before < 8 → row_hits lanes.now vacant.now word.now (at + result.before) ≡ true }
    ensures lane { result.lane < 11 }
{
    let mut off = eight(vacant, at);
    for lane in used {
        off = either(off, lanes[*lane].off(at, word.lane[*lane]));
        if first_zero(off) == 8 {
            return Tried {
                before: 8,
                lane: *lane,
            };
        }
    }
    Tried {
        before: first_zero(off),
        lane: 0,
    }
}

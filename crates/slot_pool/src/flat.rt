//! Words of bits in a flat row, 64 places a word: a search passes 64 places with no bit at a step.
ghost use Rattle.std.specs.Prelude.{◌≡◌, ℕ, ◌+◌, ◌*◌, ◌<◌, ◌≤◌, length};
ghost use Rattle.slot_pool.specs.Flat.{IsNextMarked, IsLastMarked};

use slot_order::MOST_SLOTS;
use word_tree::words::{highest, lowest};

/// The least place from `from` on and before `to` whose bit is 1.
pub(crate) fn next_marked(words: &[u64], from: u32, to: u32) -> Option<u32>
    requires most { length words.now * 64 < MOST_SLOTS + 64 }
    requires to { to ≤ length words.now * 64 }
    ensures { IsNextMarked words.now from to result }
{
    let mut first = from % 64;
    for word in from / 64..to.div_ceil(64) {
        if let Some(bit) = lowest(words[word as usize], first) {
            let at = word * 64 + bit;
            return if at < to { Some(at) } else { None };
        }
        first = 0;
    }
    None
}

/// The greatest place from `from` on and before `to` whose bit is 1.
pub(crate) fn last_marked(words: &[u64], from: u32, to: u32) -> Option<u32>
    requires most { length words.now * 64 < MOST_SLOTS + 64 }
    requires to { to ≤ length words.now * 64 }
    ensures { IsLastMarked words.now from to result }
{
    let mut end = (to + 63) % 64 + 1;
    for word in (from / 64..to.div_ceil(64)).rev() {
        if let Some(bit) = highest(words[word as usize], end) {
            let at = word * 64 + bit;
            return if from <= at { Some(at) } else { None };
        }
        end = 64;
    }
    None
}

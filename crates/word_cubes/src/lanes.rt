//! Which words of a cube an entry hits, lane by lane.

ghost use Rattle.std.specs.Prelude.{◌≡◌, ℕ, ◌<◌, IsTrue, IsFalse, IsNone, IfSome, length, slice_index};
ghost use Rattle.rule_model.specs.declared.words.Word as words;
ghost use Rattle.word_cubes.specs.Cube.{AreNear, HitsCube, IsWord, LaneAgrees, MissesCube, clash, cube_holds};

use crate::{Cube, Extent};
use rule_model::{Entry, LANES, Word};

/// Which words of the cube the entry hits.
pub fn extent_of(entry: &Entry, cube: &Cube) -> Extent
    ensures misses { result ≡ Extent.Misses → MissesCube entry.now cube.now }
    ensures hits { result ≡ Extent.Hits → HitsCube entry.now cube.now }
    ensures splits { (lane bit : ℕ) → result ≡ Extent.Splits lane bit → (lane < 11) × (bit < 32) }
{
    if is_apart(entry, cube) {
        return Extent::Misses;
    }
    match free_bit(entry, cube) {
        Some((lane, bit)) => Extent::Splits { lane, bit },
        None => Extent::Hits,
    }
}

/// Whether in some lane entry and cube differ where both test.
fn is_apart(entry: &Entry, cube: &Cube) -> bool
    ensures apart { IsTrue result → MissesCube entry.now cube.now }
    ensures near { IsFalse result → AreNear entry.now cube.now }
{
    for i in 0..LANES {
        let differing = clash_at(&entry.value, &entry.mask, cube, i);
        if differing != 0 {
            return true;
        }
    }
    false
}

/// The bits of a lane in which a value and that of a cube differ where both masks are set.
fn clash_at(value: &Word, mask: &Word, cube: &Cube, lane: usize) -> u32
    requires { lane < 11 }
    ensures bits { result ≡ clash (slice_index value.now.lane lane) (slice_index mask.now.lane lane)
        (slice_index cube.now.value.lane lane) (slice_index cube.now.mask.lane lane) }
    ensures words { (lane < length value.now.lane) × (lane < length mask.now.lane) }
    ensures lanes { (lane < length cube.now.value.lane) × (lane < length cube.now.mask.lane) }
{
    (value.lane[lane] ^ cube.value.lane[lane]) & mask.lane[lane] & cube.mask.lane[lane]
}

/// The greatest bit that the entry tests and the cube doesn't, of the first lane that has one. Where there is none an entry
/// that is near hits each word.
fn free_bit(entry: &Entry, cube: &Cube) -> Option<(usize, u32)>
    ensures none { IsNone result → AreNear entry.now cube.now → HitsCube entry.now cube.now }
    ensures some { IfSome result (λ found. (found.0 < 11) × (found.1 < 32)) }
{
    for i in 0..LANES {
        let free = entry.mask.lane[i] ^ (entry.mask.lane[i] & cube.mask.lane[i]);
        if free != 0 {
            return Some((i, free.ilog2()));
        }
    }
    None
}

/// What the words of a cube agree with in a lane: a value, and where it counts.
pub fn lane_of(cube: &Cube, lane: usize) -> (u32, u32)
    requires { lane < 11 }
    ensures { (word : words.Word) → IsWord word → IsTrue (cube_holds cube.now word) → LaneAgrees word lane result.0 result.1 }
{
    (cube.value.lane[lane], cube.mask.lane[lane])
}

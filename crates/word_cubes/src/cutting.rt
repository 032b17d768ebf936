//! Cutting cubes.

ghost use Rattle.std.specs.Prelude.{◌⊎◌, ◌<◌, IsTrue, IsNone, IfSome};
ghost use Rattle.rule_model.specs.declared.words.Word.{Word};
ghost use Rattle.word_cubes.specs.Cube.{IsWord, LaneAgrees, cube_holds};

use crate::Cube;

/// The two halves of a cube by a bit of a lane: where it is 0, and where it is 1.
pub fn halves(cube: &Cube, lane: usize, bit: u32) -> (Cube, Cube)
    requires lane { lane < 11 }
    requires bit { bit < 32 }
    ensures { (word : Word) → IsWord word → IsTrue (cube_holds cube.now word)
        → IsTrue (cube_holds result.0 word) ⊎ IsTrue (cube_holds result.1 word) }
{
    let (own, tested) = (cube.value.lane[lane], cube.mask.lane[lane]);
    let one = 1u32 << bit;
    let mut lower = *cube;
    let mut upper = *cube;
    lower.value.lane[lane] = (own | one) ^ one;
    upper.value.lane[lane] = own | one;
    lower.mask.lane[lane] = tested | one;
    upper.mask.lane[lane] = tested | one;
    (lower, upper)
}

/// The words of a cube whose lane agrees with a value wherever a mask is set. None comes only where there are none.
pub fn with_lane(cube: &Cube, lane: usize, value: u32, mask: u32) -> Option<Cube>
    requires { lane < 11 }
    ensures some { IfSome result (λ part. (word : Word) → IsWord word → IsTrue (cube_holds cube.now word) → LaneAgrees word lane value mask
        → IsTrue (cube_holds part word)) }
    ensures none { IsNone result → (word : Word) → IsWord word → IsTrue (cube_holds cube.now word) → LaneAgrees word lane value mask → ⊥ }
{
    let (own, tested) = (cube.value.lane[lane], cube.mask.lane[lane]);
    if (own ^ value) & tested & mask != 0 {
        return None;
    }
    let mut part = *cube;
    part.value.lane[lane] = (own & tested) | (value & mask);
    part.mask.lane[lane] = tested | mask;
    Some(part)
}

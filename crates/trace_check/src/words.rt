//! Whether words of the tables have the bits of live ranges right.

ghost use Rattle.std.specs.Prelude.{◌≡◌, ◌↔◌, ◌<◌, ◌^◌, ℕ, IsTrue, IsFalse, length, slice_index};
ghost use Rattle.rule_model.specs.PortRange.{is_bit_set};
ghost use Rattle.commit_writes.specs.InFlight.{HasBits};

use range_bits::{BitMap, FIELD_BITS};

/// Whether each word of a table has the bits of live ranges right.
pub(crate) fn is_right_table(live: &BitMap, table: &[u16]) -> bool
    requires { length table.now ≡ 2 ^ 16 }
    ensures { IsTrue result ↔ ((port : ℕ) → port < 2 ^ 16 → HasBits live.now port (slice_index table.now port)) }
{
    for place in 0..65_536u32 {
        if !is_right(live, place as u16, table[place as usize]) {
            return false;
        }
    }
    true
}

/// Whether a word has the bits of live ranges right at a port.
pub(crate) fn is_right(live: &BitMap, port: u16, word: u16) -> bool
    ensures right { IsTrue result → HasBits live.now port word }
    ensures wrong { IsFalse result → HasBits live.now port word → ⊥ }
{
    for bit in 0..FIELD_BITS {
        if let Some(range) = live.range_of(bit) {
            if is_set(word, bit) != range.holds(port) {
                return false;
            }
        }
    }
    true
}

/// Whether a bit of a word is set.
fn is_set(word: u16, bit: u8) -> bool
    requires { bit < 16 }
    ensures { result ≡ is_bit_set word bit }
{
    (word >> bit) % 2 == 1
}

//! Whether the words of a table have the bits of live ranges right.

ghost use Rattle.std.specs.Prelude.{◌≡◌, ◌<◌, ◌^◌, ℕ, OnOk, IfErr, IsTrue, IsFalse, slice_index};
ghost use Rattle.rule_model.specs.PortRange.{PortRange, is_bit_set, range_holds};
ghost use Rattle.range_bits.specs.LiveRanges.{range_at};
ghost use Rattle.tcam_device.specs.State.{table_of};
ghost use Rattle.tcam_device.specs.View.{device_state};
ghost use Rattle.commit_writes.specs.InFlight.{HasBits};
ghost use Rattle.readback.specs.Fault.{IsWrongWord};
ghost use Rattle.readback.specs.Words.{AreRight, AreShort, NamesWord};

use crate::{Field, StageFault};
use commit_writes::FieldBits;
use range_bits::{BitMap, FIELD_BITS};
use tcam_device::ReadBack;

/// Whether each word of both tables has the bits of live ranges right. Each is read once.
pub(crate) fn check_words<D: ReadBack>(device: &D, bits: &FieldBits) -> Result<(), StageFault>
    ensures right { OnOk result (AreRight bits.now (device_state (D.view device.now))) }
    ensures short { OnOk result (AreShort (device_state (D.view device.now))) }
    ensures wrong { IfErr result (NamesWord bits.now (device_state (D.view device.now))) }
{
    match check_table(device, Field::Src, bits.of(Field::Src)) {
        Ok(()) => {}
        Err(port) => return Err(StageFault::Word {
            field: Field::Src,
            port,
        }),
    }
    match check_table(device, Field::Dst, bits.of(Field::Dst)) {
        Ok(()) => Ok(()),
        Err(port) => Err(StageFault::Word {
            field: Field::Dst,
            port,
        }),
    }
}

/// Whether each word of a field's table has the bits of live ranges right, or the first port whose word hasn't.
fn check_table<D: ReadBack>(device: &D, field: Field, live: &BitMap) -> Result<(), u16>
    ensures right { OnOk result ((port : ℕ) → port < 2 ^ 16 → HasBits live.now port
        (slice_index (table_of field (device_state (D.view device.now))) port)) }
    ensures short { OnOk result ((port : ℕ) → port < 2 ^ 16
        → slice_index (table_of field (device_state (D.view device.now))) port < 2 ^ 16) }
    ensures wrong { IfErr result (λ port. IsWrongWord live.now port
        (slice_index (table_of field (device_state (D.view device.now))) port)) }
{
    for place in 0..65_536u32 {
        let port = place as u16;
        if !is_right(live, port, device.read_word(field, port)) {
            return Err(port);
        }
    }
    Ok(())
}

/// Whether a word has the bits of live ranges right at a port.
fn is_right(live: &BitMap, port: u16, word: u16) -> bool
    ensures right { IsTrue result → HasBits live.now port word }
    ensures wrong { IsFalse result → IsWrongWord live.now port word }
{
    for bit in 0..FIELD_BITS {
        if let Some(range) = live.range_of(bit) {
            if is_set(word, bit) != range.holds(port) {
                return false;
            }
        }
    }
    true
}

/// Whether a bit of a word is set.
fn is_set(word: u16, bit: u8) -> bool
    requires { bit < 16 }
    ensures { result ≡ is_bit_set word bit }
{
    (word >> bit) % 2 == 1
}

//! The translation of a device that was stopped.

ghost use Rattle.std.specs.Prelude.{◌≡◌, [], IfOk};
ghost use Rattle.rule_store.specs.declared.Mode.TheVariants as modes;
ghost use Rattle.tcam_device.specs.View.{device_state};
ghost use Rattle.commit_writes.specs.Bits as live_bits;
ghost use Rattle.batch_order.specs.Kept.{bits_of, mode_of, tables_of};
ghost use Rattle.batch_order.specs.Restart.{bits_in};

use crate::Field;
use crate::translation::Translation;
use commit_writes::{FieldBits, Tables};
use range_bits::BitMap;
use readback::Parts;
use rule_store::Mode;
use std::alloc::{AllocError, Global};
use tcam_device::ReadBack;

/// What was kept of a device's translation, read back.
pub(crate) fn read_translation<D: ReadBack>(
    alloc: Global,
    mode: Mode,
    parts: &Parts,
    device: &D,
) -> Result<Option<Translation>, AllocError>
    ensures mode { IfOk result (λ kept. mode_of kept ≡ mode) }
    ensures bits { IfOk result (λ kept. mode ≡ modes.Bits → bits_of kept ≡ bits_in parts.now) }
    ensures tables { IfOk result (λ kept. mode ≡ modes.Bits → tables_of kept ≡ record (device_state (D.view device.now)) { slots = [] }) }
{
    match mode {
        Mode::Cover => Ok(None),
        Mode::Bits => Ok(Some(Translation {
            bits: FieldBits::of_maps(parts.src, parts.dst),
            tables: Tables::read_back(alloc, device)?,
        })),
    }
}

/// The live ranges of a manager by their bits: none by covers.
pub(crate) fn maps_of(translation: &Option<Translation>) -> (BitMap, BitMap)
    ensures { ◌≡◌ {A = live_bits.FieldBits} (record { src = result.0; dst = result.1 }) (bits_of translation.now) }
{
    match translation {
        None => (BitMap::new(), BitMap::new()),
        Some(kept) => (*kept.bits.of(Field::Src), *kept.bits.of(Field::Dst)),
    }
}

//! The hardware as this library has it: the caller makes the writes.

ghost use Rattle.std.specs.Prelude.{IsOk};

use split_device::SplitWrite;
use split_hardware::SplitHardware;
use tcam_device::{DeviceFault, Hardware, Write};

/// Hardware, of one kind or the other, whose writes were made when they come here: the caller made each before it said so.
#[derive(Drop)]
pub(crate) struct Outside {
    pub(crate) slots: u32,
}

impl Hardware for Outside {
    ghost slot_count = { λ o. o.slots };

    // No write fails here: one that failed isn't told.
    ghost puts = { λ before write answer after. IsOk answer };

    ghost drains = { λ before after. Unit {0} };

    fn slots(&self) -> u32 {
        self.slots
    }

    fn put(&mut self, _write: &Write) -> Result<(), DeviceFault> {
        Ok(())
    }

    fn drain(&mut self) {}
}

impl SplitHardware for Outside {
    ghost slot_count = { λ o. o.slots };

    // No write fails here: one that failed isn't told.
    ghost puts = { λ before write answer after. IsOk answer };

    ghost drains = { λ before after. Unit {0} };

    fn slots(&self) -> u32 {
        self.slots
    }

    fn put(&mut self, _write: &SplitWrite) -> Result<(), DeviceFault> {
        Ok(())
    }

    fn drain(&mut self) {}
}

//! The hardware that the program drives.

ghost use Rattle.std.specs.Prelude.{IsOk, ◌≡◌};

use split_device::SplitWrite;
use split_hardware::SplitHardware;
use tcam_device::{DeviceFault, Hardware, Write};

/// Hardware of so many slots that takes each write and holds nothing: what stands in slots and tables is in the memory that
/// `Shadowed`, or `SplitShadowed`, keeps beside it. So the modelled device takes memory by its slots, however many writes are
/// made.
#[derive(Drop)]
pub struct Modelled {
    slots: u32,
}

impl Modelled {
    /// Blank hardware of so many slots.
    pub fn new(slots: u32) -> Modelled
        ensures { result.slots ≡ slots }
    {
        Modelled { slots }
    }
}

impl Hardware for Modelled {
    ghost slot_count = { λ m. m.slots };

    // No write fails.
    ghost puts = { λ before write answer after. IsOk answer };

    ghost drains = { λ before after. Unit {0} };

    fn slots(&self) -> u32 {
        self.slots
    }

    fn put(&mut self, _write: &Write) -> Result<(), DeviceFault> {
        Ok(())
    }

    fn drain(&mut self) {}
}

impl SplitHardware for Modelled {
    ghost slot_count = { λ m. m.slots };

    // No write fails.
    ghost puts = { λ before write answer after. IsOk answer };

    ghost drains = { λ before after. Unit {0} };

    fn slots(&self) -> u32 {
        self.slots
    }

    fn put(&mut self, _write: &SplitWrite) -> Result<(), DeviceFault> {
        Ok(())
    }

    fn drain(&mut self) {}
}

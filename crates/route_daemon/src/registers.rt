//! Hardware of the daemon's own.

ghost use Rattle.std.specs.Prelude.{◌≡◌};

use rule_model::Entry;
use tcam_device::{DeviceFault, Hardware, Write};

/// How many slots there are.
pub const SLOTS: u32 = 8;

/// Slots behind registers, as a driver of a real memory would have them: only `put` reaches them, and they tell nothing
/// of what they hold.
#[derive(Drop)]
pub struct Registers {
    slots: [Option<Entry>; 8],
}

impl Registers {
    /// Blank hardware: `Shadowed` takes none other.
    pub fn new() -> Registers {
        Registers { slots: [None; 8] }
    }
}

impl Hardware for Registers {
    ghost slot_count = { λ r. 8 };

    // Nothing is known of what a call of `put` does.
    ghost puts = { λ before write answer after. Unit {0} };

    ghost drains = { λ before after. Unit {0} };

    fn slots(&self) -> u32 {
        SLOTS
    }

    fn put(&mut self, write: &Write) -> Result<(), DeviceFault> {
        match write {
            Write::Slot(slot, entry) => {
                self.slots[*slot as usize] = *entry;
                Ok(())
            }
            // This memory has no translation tables, and a manager that cuts port ranges by covers writes none. But Ok
            // would say that the write was made.
            Write::Table(..) => Err(DeviceFault),
        }
    }

    // A look-up is undivided here, so none is under way.
    fn drain(&mut self) {}
}

// What can be read back of a device, over every one that tells what it holds.
ghost use Rattle.std.specs.Prelude.{◌≡◌, ◌<◌, slice_index};
ghost use Rattle.slot_order.specs.Order as order;
ghost use Rattle.tcam_device.specs.State.{table_of};
ghost use Rattle.tcam_device.specs.View.{device_state};

use crate::{Device, Field};
use rule_model::Entry;

/// A device whose slots and tables can be read back: what it tells is what its journal left there. So whoever lost what
/// was planned, and knows only that a commit was under way, can see how far it came.
pub trait ReadBack: Device {
    /// The entry of a slot that the device has. None comes exactly where the slot is empty.
    fn read_slot(&self, slot: u32) -> Option<Entry>
        requires { slot < (Self.view self.now).slots }
        ensures { result ≡ order.slot (device_state (Self.view self.now)).slots slot };

    /// The word of a table at a port.
    fn read_word(&self, field: Field, port: u16) -> u16
        ensures { result ≡ slice_index (table_of field (device_state (Self.view self.now))) port };
}

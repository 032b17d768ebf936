// How a device is written, over every one.
ghost use Rattle.std.specs.Prelude.{◌≡◌, ◌<◌, ◌≤◌, ◌∷◌, [], OnOk, OnErr, length};
ghost use Rattle.tcam_device.specs.declared.Action.{Action};
ghost use Rattle.call_history.specs.Cause.{HasCause};
ghost use Rattle.tcam_device.specs.State.{IsInUse};
ghost use Rattle.tcam_device.specs.View.{DeviceView, HasMade, IsUntouched, IsSameButSpare};

use crate::{DeviceFault, Write};
use std::alloc::AllocError;

/// Slots, numbered from 0, and two translation tables, that can be written: all that a table manager asks of a device.
/// Look-ups may be under way meanwhile, each as a word in flight.
pub trait Writable {
    /// The device as contracts see it: its slots, the writes and drains since it was blank, the words in flight, the
    /// memory made for what is to come, and how often a write has failed. A device that can't read its writes or its
    /// words back keeps them as a history that only contracts see.
    ghost view: { Self → DeviceView };

    /// The number of slots, which never changes.
    fn slots(&self) -> u32
        ensures { result ≡ (view self.now).slots };

    /// Makes room for this many writes and drains. Want of memory leaves everything as it was.
    fn reserve(&mut self, n: u64) -> Result<(), AllocError>
        ensures enough { OnOk result (n ≤ (view self.new).spare) }
        ensures least { (view self.old).spare ≤ (view self.new).spare }
        ensures spare_err { OnErr result ((view self.new).spare ≡ (view self.old).spare) }
        ensures others { IsSameButSpare (view self.old) (view self.new) };

    /// Makes one write, of a slot that the device has, whole or not at all. It takes no memory: its room was
    /// made by `reserve`. A failure comes exactly where the count of failures rises, and leaves the rest as it
    /// was. The words in flight stay as they are.
    ///
    /// Whoever is told of a failure may make the same write again, also where the memory behind the device had made
    /// it: twice it leaves what it leaves once (`twice_as_once`).
    fn write(&mut self, write: Write) -> Result<(), DeviceFault>
        requires room { 0 < (view self.old).spare }
        requires place { IsInUse (view self.old).slots write }
        ensures made { OnOk result (HasMade (Action.Written write ∷ []) (view self.old) (view self.new)) }
        ensures unmade { OnErr result (IsUntouched (view self.old) (view self.new)) }
        ensures cause { HasCause (view self.old).faults (view self.new).faults result };

    /// How many words are in flight.
    fn in_flight(&self) -> u32
        ensures { result ≡ length (view self.now).flight };

    /// Marks that no word is in flight. It takes no memory and never fails; it has its room as a write has, and changes
    /// nothing else.
    fn drain(&mut self)
        requires empty { (view self.old).flight ≡ [] }
        requires room { 0 < (view self.old).spare }
        ensures made { HasMade (Action.Drained ∷ []) (view self.old) (view self.new) }
        ensures faults { (view self.new).faults ≡ (view self.old).faults };
}

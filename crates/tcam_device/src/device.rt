// How a device is looked up, over every one.
ghost use Rattle.std.specs.Prelude.{◌≡◌, ◌<◌, length, drop};
ghost use Rattle.tcam_device.specs.State.{lookup};
ghost use Rattle.tcam_device.specs.Flight.{most_in_flight, with_word, search_answer};
ghost use Rattle.tcam_device.specs.View.{device_state, IsSameButFlight};

use crate::Writable;
use rule_model::{Key, Rank};

/// A device that is written and looked up. Its journal decides what it answers.
///
/// A look-up is undivided, `look`, or two events: `translate` makes the key's word by the tables as they stand then,
/// and `search` compares the oldest word in flight with the slots as they stand then. No call here takes memory.
pub trait Device: Writable {
    /// Tag and result of the least slot that hits the key's word by the tables, or None where no slot does. It doesn't
    /// look at the words in flight.
    fn look(&self, key: &Key) -> Option<(Rank, u32)>
        ensures { result ≡ lookup (device_state (Self.view self.now)) key.now };

    /// Puts the key's word by the tables now into flight, behind those that are. It changes nothing else.
    fn translate(&mut self, key: &Key)
        requires room { length (Self.view self.old).flight < most_in_flight }
        ensures flight { (Self.view self.new).flight ≡ with_word (device_state (Self.view self.old)) key.now (Self.view self.old).flight }
        ensures others { IsSameButFlight (Self.view self.old) (Self.view self.new) };

    /// Takes the oldest word out of flight, and answers tag and result of the least slot that hits it now, or None
    /// inside where no slot does. The outer None comes exactly where no word is in flight. It changes nothing else.
    fn search(&mut self) -> Option<Option<(Rank, u32)>>
        ensures answer { result ≡ search_answer (device_state (Self.view self.old)) (Self.view self.old).flight }
        ensures flight { (Self.view self.new).flight ≡ drop 1 (Self.view self.old).flight }
        ensures others { IsSameButFlight (Self.view self.old) (Self.view self.new) };
}

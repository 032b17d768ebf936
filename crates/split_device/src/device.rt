// What a device with split results does, over every such device.
ghost use Rattle.std.specs.Prelude.{◌≡◌, ◌<◌, ◌≤◌, ◌+◌, ◌++◌, ◌∷◌, [], ◌↔◌, ℕ, List, length, OnOk, OnErr, true};
ghost use Rattle.call_history.specs.Cause.{HasCause};
ghost use Rattle.tcam_device.specs.Flight.{most_in_flight};
ghost use Rattle.split_device.specs.declared.SplitAction.{SplitAction};
ghost use Rattle.split_device.specs.State.{IsSplitInUse, split_lookup};
ghost use Rattle.split_device.specs.Flight.{Flight, no_flight, flight_count, state_of_events, with_word, with_search, with_read, oldest_read};

use crate::{SplitAction, SplitWrite};
use rule_model::{Key, Rank};
use std::alloc::AllocError;
use tcam_device::DeviceFault;

/// A device of slots, numbered from 0, a result word for each, and two translation tables. Its writes decide what it
/// answers.
///
/// A look-up is undivided, `look`, or three events: `translate` makes the key's word by the tables as they stand then,
/// `search` finds the least slot that hits the oldest word by the slots as they stand then, and `read` reads the result
/// word of the oldest slot that was found, as it stands then. But for `reserve` no call here takes memory.
pub trait SplitDevice {
    /// The number of slots.
    ghost slot_count: { Self → ℕ };

    /// The writes and drains since it was blank, those writes that were answered Ok. A device that can't read them back
    /// keeps them as a history that only contracts see.
    ghost events: { Self → List SplitAction };

    /// What is in flight: words and found slots, each with its key: a history too where the device can't tell.
    ghost flight: { Self → Flight };

    /// How many writes and drains have their memory.
    ghost spare: { Self → ℕ };

    /// How often a write has failed.
    ghost faults: { Self → ℕ };

    /// The number of slots, which never changes.
    fn slots(&self) -> u32
        ensures { result ≡ slot_count self.now };

    /// Makes room for this many writes and drains. Want of memory leaves everything as it was.
    fn reserve(&mut self, n: u64) -> Result<(), AllocError>
        ensures enough { OnOk result (n ≤ spare self.new) }
        ensures least { spare self.old ≤ spare self.new }
        ensures spare_err { OnErr result (spare self.new ≡ spare self.old) }
        ensures events { events self.new ≡ events self.old }
        ensures flight { flight self.new ≡ flight self.old }
        ensures slots { slot_count self.new ≡ slot_count self.old }
        ensures faults { faults self.new ≡ faults self.old };

    /// Makes one write, of a slot that the device has, whole or not at all. It takes no memory: its room was made by
    /// `reserve`. A failure comes exactly where the count of failures rises, and leaves the rest as it was. What is in
    /// flight stays as it is.
    fn write(&mut self, write: SplitWrite) -> Result<(), DeviceFault>
        requires room { 0 < spare self.old }
        requires place { IsSplitInUse (slot_count self.old) write }
        ensures written { OnOk result (events self.new ≡ events self.old ++ SplitAction.Written write ∷ []) }
        ensures spare { OnOk result (spare self.new + 1 ≡ spare self.old) }
        ensures events_err { OnErr result (events self.new ≡ events self.old) }
        ensures spare_err { OnErr result (spare self.new ≡ spare self.old) }
        ensures flight { flight self.new ≡ flight self.old }
        ensures slots { slot_count self.new ≡ slot_count self.old }
        ensures cause { HasCause (faults self.old) (faults self.new) result };

    /// The result word of the least slot that hits the key's word by the tables, or None where no slot does. It doesn't
    /// look at what is in flight.
    fn look(&self, key: &Key) -> Option<(Rank, u32)>
        ensures { result ≡ split_lookup (state_of_events (slot_count self.now) (events self.now)) key.now };

    /// Puts the key's word by the tables now into flight, behind those that are. Words and found slots together may be
    /// `MOST_IN_FLIGHT`. It changes nothing else.
    fn translate(&mut self, key: &Key)
        requires room { flight_count (flight self.old) < most_in_flight }
        ensures flight { flight self.new ≡ with_word (state_of_events (slot_count self.old) (events self.old)) (flight self.old) key.now }
        ensures events { events self.new ≡ events self.old }
        ensures spare { spare self.new ≡ spare self.old }
        ensures slots { slot_count self.new ≡ slot_count self.old }
        ensures faults { faults self.new ≡ faults self.old };

    /// Takes the oldest word, and puts the least slot that hits it now, or none, into flight as a found slot. False comes
    /// exactly where no word is in flight. It changes nothing else.
    fn search(&mut self) -> bool
        ensures searched { (result ≡ true) ↔ (0 < length (flight self.old).words) }
        ensures flight { flight self.new ≡ with_search (state_of_events (slot_count self.old) (events self.old)) (flight self.old) }
        ensures events { events self.new ≡ events self.old }
        ensures spare { spare self.new ≡ spare self.old }
        ensures slots { slot_count self.new ≡ slot_count self.old }
        ensures faults { faults self.new ≡ faults self.old };

    /// Takes the oldest found slot, and answers its result word now, or None inside where no slot was found. The outer
    /// None comes exactly where there is no found slot. It changes nothing else.
    fn read(&mut self) -> Option<Option<(Rank, u32)>>
        ensures answer { result ≡ oldest_read (state_of_events (slot_count self.old) (events self.old)) (flight self.old).found }
        ensures flight { flight self.new ≡ with_read (flight self.old) }
        ensures events { events self.new ≡ events self.old }
        ensures spare { spare self.new ≡ spare self.old }
        ensures slots { slot_count self.new ≡ slot_count self.old }
        ensures faults { faults self.new ≡ faults self.old };

    /// How many words and found slots are in flight.
    fn in_flight(&self) -> u32
        ensures { result ≡ flight_count (flight self.now) };

    /// Marks that nothing is in flight. It takes no memory and never fails; it has its room as a write has, and changes
    /// nothing else.
    fn drain(&mut self)
        requires empty { flight self.old ≡ no_flight }
        requires room { 0 < spare self.old }
        ensures drained { events self.new ≡ events self.old ++ SplitAction.Drained ∷ [] }
        ensures spare { spare self.new + 1 ≡ spare self.old }
        ensures flight { flight self.new ≡ flight self.old }
        ensures slots { slot_count self.new ≡ slot_count self.old }
        ensures faults { faults self.new ≡ faults self.old };
}

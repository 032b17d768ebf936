// The device that a shadow in memory makes of hardware with split results that tells nothing.
ghost use Rattle.std.specs.Prelude.{◌≡◌, ◌<◌, ◌≤◌, [], ◌∷◌, IfOk};
ghost use Rattle.split_device.specs.Flight as spec;
ghost use Rattle.split_hardware.specs.Shadow.{HasPut};

use crate::hardware::SplitHardware;
use crate::lookups::Lookups;
use call_history::History;
use rule_model::{Key, Rank};
use slot_order::MOST_SLOTS;
use split_device::{SplitAction, SplitDevice, SplitWrite};
use std::alloc::{AllocError, Global};
use std::marker::Model;
use tcam_device::DeviceFault;

/// A device made of hardware and its shadow: slots, result words and tables in memory that follow the writes which the
/// hardware answered Ok. So look-ups answer by what the hardware answered Ok, however little it tells. The events are a
/// history that takes no memory. The shadow's slots and result words have theirs from the first, and its tables take some in
/// `reserve` as words may be written, at most 262,144 bytes, and eight a write where none was written (`port_table`). A drain
/// is made of the hardware too, and what is in flight is the shadow's.
///
/// The hardware as it was given to `new` is remembered too, alone in a list, by a history that takes no memory:
/// `given`. Each call that takes the device by `&mut` says that it keeps it. The calls of which [`SplitShadowed::hardware`]
/// tells begin there, so no write slips in before the first of them.
#[derive(Drop)]
pub struct SplitShadowed<H: SplitHardware> {
    given: History<H>,
    hardware: H,
    lookups: Lookups,
    events: History<SplitAction>,
    room: u64,
    faults: u64,
}

impl<H: SplitHardware> Model for SplitShadowed<H> {
    ghost use Rattle.std.specs.Prelude.{◌≤◌, length};
    ghost use Rattle.split_hardware.specs.Shadow.{Shadow, IsShadow};

    ghost Value = { Shadow H };

    ghost view = { λ m. record { given = m.given.items; hardware = m.hardware; slots = length m.lookups.state.slots; events = m.events.items; flight = m.lookups.flight; spare = m.room; faults = m.faults } };

    ghost invariant = { λ m. IsShadow H.puts H.drains m.given.items m.hardware (H.slot_count m.hardware) m.lookups.state m.events.items m.faults
        × (m.room ≤ m.lookups.spare) };
}

impl<H: SplitHardware> SplitShadowed<H> {
    /// Over blank hardware of 1 to `MOST_SLOTS` slots, with no event yet, nothing in flight and room for no write. Where memory
    /// for the shadow is wanting, the hardware is let go.
    pub fn new(alloc: Global, hardware: H) -> Result<SplitShadowed<H>, AllocError>
        requires least { 0 < H.slot_count hardware }
        requires most { H.slot_count hardware ≤ MOST_SLOTS }
        ensures { IfOk result (λ device. device ≡ record { given = hardware ∷ []; hardware = hardware; slots = H.slot_count hardware; events = []; flight = spec.no_flight; spare = 0; faults = 0 }) }
    {
        let given = History::new().and(&hardware);
        let lookups = Lookups::new(alloc, hardware.slots())?;
        Ok(SplitShadowed {
            given,
            hardware,
            lookups,
            events: History::new(),
            room: 0,
            faults: 0,
        })
    }

    /// The hardware. From what `new` was given it came to be what it is by these calls alone: it was asked for the
    /// writes and drains of the events, in their order, and for other writes only where it answered that they failed,
    /// each of which is counted.
    pub fn hardware(&self) -> &H
        ensures hardware { result.now ≡ self.now.hardware }
        ensures put { HasPut H.puts H.drains self.now.given self.now.events self.now.faults self.now.hardware }
    {
        &self.hardware
    }
}

/// The clauses are the trait's, and that `given` stays as it was.
impl<H: SplitHardware> SplitDevice for SplitShadowed<H> {
    ghost use Rattle.std.specs.Prelude.{◌≡◌, ◌<◌, ◌≤◌, ◌+◌, ◌++◌, ◌∷◌, ◌↔◌, [], length, OnOk, OnErr, true};
    ghost use Rattle.call_history.specs.Cause.{HasCause};
    ghost use Rattle.tcam_device.specs.Flight.{most_in_flight};
    ghost use Rattle.split_device.specs.declared.SplitAction.{SplitAction};
    ghost use Rattle.split_device.specs.State.{IsSplitInUse};
    ghost use Rattle.split_device.specs.Flight.{no_flight, flight_count, state_of_events, with_word, with_search, with_read, oldest_read};

    ghost slot_count = { λ m. m.slots };

    ghost events = { λ m. m.events };

    ghost flight = { λ m. m.flight };

    ghost spare = { λ m. m.spare };

    ghost faults = { λ m. m.faults };

    fn slots(&self) -> u32 {
        self.lookups.count()
    }

    fn reserve(&mut self, n: u64) -> Result<(), AllocError>
        ensures enough { OnOk result (n ≤ self.new.spare) }
        ensures least { self.old.spare ≤ self.new.spare }
        ensures spare_err { OnErr result (self.new.spare ≡ self.old.spare) }
        ensures events { self.new.events ≡ self.old.events }
        ensures flight { self.new.flight ≡ self.old.flight }
        ensures slots { self.new.slots ≡ self.old.slots }
        ensures faults { self.new.faults ≡ self.old.faults }
        ensures given { self.new.given ≡ self.old.given }
    {
        self.lookups.reserve(n)?;
        self.room = self.room.max(n);
        Ok(())
    }

    fn write(&mut self, write: SplitWrite) -> Result<(), DeviceFault>
        requires room { 0 < self.old.spare }
        requires place { IsSplitInUse self.old.slots write }
        ensures written { OnOk result (self.new.events ≡ self.old.events ++ SplitAction.Written write ∷ []) }
        ensures spare { OnOk result (self.new.spare + 1 ≡ self.old.spare) }
        ensures events_err { OnErr result (self.new.events ≡ self.old.events) }
        ensures spare_err { OnErr result (self.new.spare ≡ self.old.spare) }
        ensures flight { self.new.flight ≡ self.old.flight }
        ensures slots { self.new.slots ≡ self.old.slots }
        ensures cause { HasCause self.old.faults self.new.faults result }
        ensures given { self.new.given ≡ self.old.given }
    {
        if let Err(fault) = self.hardware.put(&write) {
            self.faults = self.faults.saturating_add(1);
            return Err(fault);
        }
        self.lookups.make(&write);
        self.events = self.events.and(&SplitAction::Written(write));
        self.room -= 1;
        Ok(())
    }

    fn look(&self, key: &Key) -> Option<(Rank, u32)> {
        self.lookups.look(key)
    }

    fn translate(&mut self, key: &Key)
        requires room { flight_count self.old.flight < most_in_flight }
        ensures flight { self.new.flight ≡ with_word (state_of_events self.old.slots self.old.events) self.old.flight key.now }
        ensures events { self.new.events ≡ self.old.events }
        ensures spare { self.new.spare ≡ self.old.spare }
        ensures slots { self.new.slots ≡ self.old.slots }
        ensures faults { self.new.faults ≡ self.old.faults }
        ensures given { self.new.given ≡ self.old.given }
    {
        self.lookups.translate(key);
    }

    fn search(&mut self) -> bool
        ensures searched { (result ≡ true) ↔ (0 < length self.old.flight.words) }
        ensures flight { self.new.flight ≡ with_search (state_of_events self.old.slots self.old.events) self.old.flight }
        ensures events { self.new.events ≡ self.old.events }
        ensures spare { self.new.spare ≡ self.old.spare }
        ensures slots { self.new.slots ≡ self.old.slots }
        ensures faults { self.new.faults ≡ self.old.faults }
        ensures given { self.new.given ≡ self.old.given }
    {
        self.lookups.search()
    }

    fn read(&mut self) -> Option<Option<(Rank, u32)>>
        ensures answer { result ≡ oldest_read (state_of_events self.old.slots self.old.events) self.old.flight.found }
        ensures flight { self.new.flight ≡ with_read self.old.flight }
        ensures events { self.new.events ≡ self.old.events }
        ensures spare { self.new.spare ≡ self.old.spare }
        ensures slots { self.new.slots ≡ self.old.slots }
        ensures faults { self.new.faults ≡ self.old.faults }
        ensures given { self.new.given ≡ self.old.given }
    {
        self.lookups.read()
    }

    fn in_flight(&self) -> u32 {
        self.lookups.in_flight()
    }

    fn drain(&mut self)
        requires empty { self.old.flight ≡ no_flight }
        requires room { 0 < self.old.spare }
        ensures drained { self.new.events ≡ self.old.events ++ SplitAction.Drained ∷ [] }
        ensures spare { self.new.spare + 1 ≡ self.old.spare }
        ensures flight { self.new.flight ≡ self.old.flight }
        ensures slots { self.new.slots ≡ self.old.slots }
        ensures faults { self.new.faults ≡ self.old.faults }
        ensures given { self.new.given ≡ self.old.given }
    {
        self.hardware.drain();
        self.events = self.events.and(&SplitAction::Drained);
        self.room -= 1;
    }
}

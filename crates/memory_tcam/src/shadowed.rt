// The device that a shadow in memory makes of hardware that tells nothing.
ghost use Rattle.std.specs.Prelude.{◌≡◌, ◌<◌, ◌≤◌, [], ◌∷◌, IfOk};
ghost use Rattle.tcam_device.specs.State.{replay};
ghost use Rattle.tcam_device.specs.Flight.{writes_in};
ghost use Rattle.memory_tcam.specs.Tcam.{HasPut};

use crate::lookups::Lookups;
use call_history::History;
use rule_model::{Entry, Key, Rank};
use slot_order::MOST_SLOTS;
use std::alloc::{AllocError, Global};
use std::marker::Model;
use tcam_device::{Action, Device, DeviceFault, Field, Hardware, ReadBack, Writable, Write};

/// A device made of hardware and its shadow: slots and tables in memory that follow the writes which the hardware
/// answered Ok. So look-ups answer by what the hardware answered Ok, however little it tells. The journal, with the
/// drains in it, is a history that takes no memory. The shadow's slots have theirs from the first, and its tables take some
/// in `reserve` as words may be written, at most 262,144 bytes, and four a write for each where none was written
/// (`port_table`). A drain is made of the hardware too, and words in flight are the shadow's.
///
/// The hardware as it was given to `new` is remembered too, alone in a list, by a history that takes no memory:
/// `given`. Each call that takes the device by `&mut` says that it keeps it. The calls of which [`Shadowed::hardware`]
/// tells begin there, so no write slips in before the first of them.
#[derive(Drop)]
pub struct Shadowed<H: Hardware> {
    given: History<H>,
    hardware: H,
    lookups: Lookups,
    events: History<Action>,
    room: u64,
    faults: u64,
}

impl<H: Hardware> Model for Shadowed<H> {
    ghost use Rattle.std.specs.Prelude.{◌≤◌, length};
    ghost use Rattle.memory_tcam.specs.Tcam.{Shadow, IsShadow};

    ghost Value = { Shadow H };

    ghost view = { λ m. record { given = m.given.items; hardware = m.hardware; slots = length m.lookups.state.slots; events = m.events.items; flight = m.lookups.flight; spare = m.room; faults = m.faults } };

    ghost invariant = { λ m. IsShadow H.puts H.drains m.given.items m.hardware (H.slot_count m.hardware) m.lookups.state m.events.items m.faults
        × (m.room ≤ m.lookups.spare) };
}

impl<H: Hardware> Shadowed<H> {
    /// Over blank hardware of 1 to `MOST_SLOTS` slots, with an empty journal, no word in flight and room for no write. Where
    /// memory for the shadow is wanting, the hardware is let go.
    pub fn new(alloc: Global, hardware: H) -> Result<Shadowed<H>, AllocError>
        requires least { 0 < H.slot_count hardware }
        requires most { H.slot_count hardware ≤ MOST_SLOTS }
        ensures { IfOk result (λ device. device ≡ record { given = hardware ∷ []; hardware = hardware; slots = H.slot_count hardware; events = []; flight = []; spare = 0; faults = 0 }) }
    {
        let given = History::new().and(&hardware);
        let lookups = Lookups::new(alloc, hardware.slots())?;
        Ok(Shadowed {
            given,
            hardware,
            lookups,
            events: History::new(),
            room: 0,
            faults: 0,
        })
    }

    /// The hardware. From what `new` was given it came to be what it is by these calls alone: it was asked for the
    /// writes and drains of the events, in their order, and for other writes only where it answered that they failed,
    /// each of which is counted.
    pub fn hardware(&self) -> &H
        ensures hardware { result.now ≡ self.now.hardware }
        ensures put { HasPut H.puts H.drains self.now.given self.now.events self.now.faults self.now.hardware }
    {
        &self.hardware
    }
}

/// The clauses are the trait's, and that `given` stays as it was.
impl<H: Hardware> Writable for Shadowed<H> {
    ghost use Rattle.std.specs.Prelude.{◌≡◌, ◌<◌, ◌≤◌, ◌∷◌, [], OnOk, OnErr};
    ghost use Rattle.call_history.specs.Cause.{HasCause};
    ghost use Rattle.tcam_device.specs.declared.Action.{Action};
    ghost use Rattle.tcam_device.specs.State.{IsInUse};
    ghost use Rattle.tcam_device.specs.View.{HasMade, IsUntouched, IsSameButSpare};
    ghost use Rattle.memory_tcam.specs.Tcam.{shadow_as_device};

    ghost view = { λ m. shadow_as_device m };

    fn slots(&self) -> u32 {
        self.lookups.count()
    }

    fn reserve(&mut self, n: u64) -> Result<(), AllocError>
        ensures enough { OnOk result (n ≤ self.new.spare) }
        ensures least { self.old.spare ≤ self.new.spare }
        ensures spare_err { OnErr result (self.new.spare ≡ self.old.spare) }
        ensures others { IsSameButSpare (shadow_as_device self.old) (shadow_as_device self.new) }
        ensures given { self.new.given ≡ self.old.given }
    {
        self.lookups.reserve(n)?;
        self.room = self.room.max(n);
        Ok(())
    }

    fn write(&mut self, write: Write) -> Result<(), DeviceFault>
        requires room { 0 < self.old.spare }
        requires place { IsInUse self.old.slots write }
        ensures made { OnOk result (HasMade (Action.Written write ∷ []) (shadow_as_device self.old) (shadow_as_device self.new)) }
        ensures unmade { OnErr result (IsUntouched (shadow_as_device self.old) (shadow_as_device self.new)) }
        ensures cause { HasCause self.old.faults self.new.faults result }
        ensures given { self.new.given ≡ self.old.given }
    {
        if let Err(fault) = self.hardware.put(&write) {
            self.faults = self.faults.saturating_add(1);
            return Err(fault);
        }
        self.lookups.make(&write);
        self.events = self.events.and(&Action::Written(write));
        self.room -= 1;
        Ok(())
    }

    fn in_flight(&self) -> u32 {
        self.lookups.in_flight()
    }

    fn drain(&mut self)
        requires empty { self.old.flight ≡ [] }
        requires room { 0 < self.old.spare }
        ensures made { HasMade (Action.Drained ∷ []) (shadow_as_device self.old) (shadow_as_device self.new) }
        ensures faults { self.new.faults ≡ self.old.faults }
        ensures given { self.new.given ≡ self.old.given }
    {
        self.hardware.drain();
        self.events = self.events.and(&Action::Drained);
        self.room -= 1;
    }
}

/// The clauses are the trait's, and that `given` stays as it was.
impl<H: Hardware> Device for Shadowed<H> {
    ghost use Rattle.std.specs.Prelude.{◌≡◌, ◌<◌, length, drop};
    ghost use Rattle.tcam_device.specs.Flight.{most_in_flight, with_word, search_answer};
    ghost use Rattle.tcam_device.specs.View.{IsSameButFlight};
    ghost use Rattle.memory_tcam.specs.Tcam.{shadow_as_device};

    fn look(&self, key: &Key) -> Option<(Rank, u32)> {
        self.lookups.look(key)
    }

    fn translate(&mut self, key: &Key)
        requires room { length self.old.flight < most_in_flight }
        ensures flight { self.new.flight ≡ with_word (replay self.old.slots (writes_in self.old.events)) key.now self.old.flight }
        ensures others { IsSameButFlight (shadow_as_device self.old) (shadow_as_device self.new) }
        ensures given { self.new.given ≡ self.old.given }
    {
        self.lookups.translate(key);
    }

    fn search(&mut self) -> Option<Option<(Rank, u32)>>
        ensures answer { result ≡ search_answer (replay self.old.slots (writes_in self.old.events)) self.old.flight }
        ensures flight { self.new.flight ≡ drop 1 self.old.flight }
        ensures others { IsSameButFlight (shadow_as_device self.old) (shadow_as_device self.new) }
        ensures given { self.new.given ≡ self.old.given }
    {
        self.lookups.search()
    }
}

/// Slots and tables are read from the memory beside the hardware. So this serves whoever lost the manager and kept the
/// device; of hardware that outlived its shadow it tells nothing.
impl<H: Hardware> ReadBack for Shadowed<H> {
    fn read_slot(&self, slot: u32) -> Option<Entry> {
        self.lookups.slot(slot)
    }

    fn read_word(&self, field: Field, port: u16) -> u16 {
        self.lookups.table_word(field, port)
    }
}

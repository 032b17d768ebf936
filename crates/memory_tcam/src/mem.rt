// A device in memory.
ghost use Rattle.std.specs.Prelude.{◌≡◌, ◌<◌, ◌≤◌, [], slice_index, IfOk};
ghost use Rattle.slot_order.specs.Order as order;
ghost use Rattle.tcam_device.specs.State.{replay, table_of};
ghost use Rattle.tcam_device.specs.Flight.{writes_in};

use crate::log::Log;
use crate::lookups::Lookups;
use rule_model::{Entry, Key, Rank};
use slot_order::MOST_SLOTS;
use std::alloc::{AllocError, Global};
use std::marker::Model;
use tcam_device::{Device, DeviceFault, Field, ReadBack, Writable, Write};

/// A device in memory, which never fails.
#[derive(Drop)]
pub struct MemTcam {
    lookups: Lookups,
    log: Log,
}

impl Model for MemTcam {
    ghost use Rattle.std.specs.Prelude.{◌≤◌, length};
    ghost use Rattle.memory_tcam.specs.Tcam.{Tcam, Follows};

    ghost Value = { Tcam };

    ghost view = { λ m. record { slots = length m.lookups.state.slots; events = m.log.events; flight = m.lookups.flight; spare = m.log.spare } };

    ghost invariant = { λ m. Follows m.lookups.state m.log.events × (m.log.spare ≤ m.lookups.spare) };
}

impl MemTcam {
    /// A blank device of 1 to `MOST_SLOTS` slots, with an empty journal, no word in flight and room for no write yet.
    pub fn new(alloc: Global, slots: u32) -> Result<MemTcam, AllocError>
        requires least { 0 < slots }
        requires most { slots ≤ MOST_SLOTS }
        ensures { IfOk result (λ device. device ≡ record { slots = slots; events = []; flight = []; spare = 0 }) }
    {
        Ok(MemTcam {
            lookups: Lookups::new(alloc, slots)?,
            log: Log::new(alloc),
        })
    }

    /// The writes since the device was blank, in order.
    pub fn journal(&self) -> &[Write]
        ensures { result.now ≡ writes_in self.now.events }
    {
        self.log.journal()
    }

    /// What stands in a slot that the device has: an entry, or None where it is empty.
    pub fn slot(&self, slot: u32) -> Option<Entry>
        requires { slot < self.now.slots }
        ensures { result ≡ order.slot (replay self.now.slots (writes_in self.now.events)).slots slot }
    {
        self.lookups.slot(slot)
    }

    /// The word of a table at a port.
    pub fn word(&self, field: Field, port: u16) -> u16
        ensures { result ≡ slice_index (table_of field (replay self.now.slots (writes_in self.now.events))) port }
    {
        self.lookups.table_word(field, port)
    }
}

impl Writable for MemTcam {
    ghost use Rattle.memory_tcam.specs.Tcam.{as_device};

    ghost view = { λ m. as_device m 0 };

    fn slots(&self) -> u32 {
        self.lookups.count()
    }

    fn reserve(&mut self, n: u64) -> Result<(), AllocError> {
        self.lookups.reserve(n)?;
        self.log.reserve(n)
    }

    fn write(&mut self, write: Write) -> Result<(), DeviceFault> {
        self.lookups.make(&write);
        self.log.write(&write);
        Ok(())
    }

    fn in_flight(&self) -> u32 {
        self.lookups.in_flight()
    }

    fn drain(&mut self) {
        self.log.drain();
    }
}

impl Device for MemTcam {
    fn look(&self, key: &Key) -> Option<(Rank, u32)> {
        self.lookups.look(key)
    }

    fn translate(&mut self, key: &Key) {
        self.lookups.translate(key);
    }

    fn search(&mut self) -> Option<Option<(Rank, u32)>> {
        self.lookups.search()
    }
}

impl ReadBack for MemTcam {
    fn read_slot(&self, slot: u32) -> Option<Entry> {
        self.slot(slot)
    }

    fn read_word(&self, field: Field, port: u16) -> u16 {
        self.word(field, port)
    }
}

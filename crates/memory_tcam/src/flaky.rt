// A device whose writes fail where they are told to.
ghost use Rattle.std.specs.Prelude.{◌≡◌, ◌<◌, ◌≤◌, [], slice_index, IfOk};
ghost use Rattle.slot_order.specs.Order as order;
ghost use Rattle.tcam_device.specs.State.{replay, table_of};
ghost use Rattle.tcam_device.specs.Flight.{writes_in};

use crate::MemTcam;
use call_history::Calls;
use rule_model::{Entry, Key, Rank};
use slot_order::MOST_SLOTS;
use std::alloc::{AllocError, Global};
use std::marker::Model;
use tcam_device::{Device, DeviceFault, Field, ReadBack, Writable, Write};

/// A device in memory of which the listed write calls fail.
#[derive(Drop)]
pub struct FlakyTcam<'a> {
    device: MemTcam,
    calls: Calls<'a>,
    faults: u64,
}

impl<'a> Model for FlakyTcam<'a> {
    ghost use Rattle.memory_tcam.specs.Tcam.{Flaky};

    ghost Value = { Flaky };

    ghost view = { λ f. record { device = f.device; calls = f.calls; faults = f.faults } };
}

impl<'a> FlakyTcam<'a> {
    /// A blank device of 1 to `MOST_SLOTS` slots, with an empty journal, no word in flight and room for no write yet. The
    /// write calls whose numbers are in `calls` will fail; they are counted from 1, the failing ones too.
    pub fn new(alloc: Global, slots: u32, calls: &'a [u64]) -> Result<FlakyTcam<'a>, AllocError>
        requires least { 0 < slots }
        requires most { slots ≤ MOST_SLOTS }
        ensures { IfOk result (λ flaky. flaky ≡ record { device = record { slots = slots; events = []; flight = []; spare = 0 }; calls = record { listed = calls.entry.now; made = 0 }; faults = 0 }) }
    {
        Ok(FlakyTcam {
            device: MemTcam::new(alloc, slots)?,
            calls: Calls::new(calls),
            faults: 0,
        })
    }

    /// The writes since the device was blank, in order.
    pub fn journal(&self) -> &[Write]
        ensures { result.now ≡ writes_in self.now.device.events }
    {
        self.device.journal()
    }

    /// What stands in a slot that the device has: an entry, or None where it is empty.
    pub fn slot(&self, slot: u32) -> Option<Entry>
        requires { slot < self.now.device.slots }
        ensures { result ≡ order.slot (replay self.now.device.slots (writes_in self.now.device.events)).slots slot }
    {
        self.device.slot(slot)
    }

    /// The word of a table at a port.
    pub fn word(&self, field: Field, port: u16) -> u16
        ensures { result ≡ slice_index (table_of field (replay self.now.device.slots (writes_in self.now.device.events))) port }
    {
        self.device.word(field, port)
    }
}

/// The clauses are the trait's, and which write calls fail.
impl<'a> Writable for FlakyTcam<'a> {
    ghost use Rattle.std.specs.Prelude.{◌≡◌, ◌<◌, ◌≤◌, ◌∷◌, [], ◌↔◌, IsErr, OnOk, OnErr};
    ghost use Rattle.call_history.specs.Cause.{HasCause, raised};
    ghost use Rattle.call_history.specs.Calls.{IsNextListed, with_call};
    ghost use Rattle.tcam_device.specs.declared.Action.{Action};
    ghost use Rattle.tcam_device.specs.State.{IsInUse};
    ghost use Rattle.tcam_device.specs.View.{HasMade, IsUntouched, IsSameButSpare};
    ghost use Rattle.memory_tcam.specs.Tcam.{as_device};

    ghost view = { λ f. as_device f.device f.faults };

    fn slots(&self) -> u32 {
        self.device.slots()
    }

    fn reserve(&mut self, n: u64) -> Result<(), AllocError>
        ensures enough { OnOk result (n ≤ self.new.device.spare) }
        ensures least { self.old.device.spare ≤ self.new.device.spare }
        ensures spare_err { OnErr result (self.new.device.spare ≡ self.old.device.spare) }
        ensures others { IsSameButSpare (as_device self.old.device self.old.faults) (as_device self.new.device self.new.faults) }
        ensures calls { self.new.calls ≡ self.old.calls }
    {
        self.device.reserve(n)
    }

    fn write(&mut self, write: Write) -> Result<(), DeviceFault>
        requires room { 0 < self.old.device.spare }
        requires place { IsInUse self.old.device.slots write }
        ensures listed { IsErr result ↔ IsNextListed self.old.calls }
        ensures calls { self.new.calls ≡ with_call self.old.calls }
        ensures raised { OnErr result (self.new.faults ≡ raised self.old.faults) }
        ensures faults_ok { OnOk result (self.new.faults ≡ self.old.faults) }
        ensures made { OnOk result (HasMade (Action.Written write ∷ []) (as_device self.old.device self.old.faults) (as_device self.new.device self.new.faults)) }
        ensures unmade { OnErr result (IsUntouched (as_device self.old.device self.old.faults) (as_device self.new.device self.new.faults)) }
        ensures cause { HasCause self.old.faults self.new.faults result }
    {
        if self.calls.next_fails() {
            self.faults = self.faults.saturating_add(1);
            return Err(DeviceFault);
        }
        self.device.write(write)
    }

    fn in_flight(&self) -> u32 {
        self.device.in_flight()
    }

    fn drain(&mut self)
        requires empty { self.old.device.flight ≡ [] }
        requires room { 0 < self.old.device.spare }
        ensures made { HasMade (Action.Drained ∷ []) (as_device self.old.device self.old.faults) (as_device self.new.device self.new.faults) }
        ensures calls { self.new.calls ≡ self.old.calls }
        ensures faults { self.new.faults ≡ self.old.faults }
    {
        self.device.drain();
    }
}

/// The clauses are the trait's, and that no write call is counted.
impl<'a> Device for FlakyTcam<'a> {
    ghost use Rattle.std.specs.Prelude.{◌≡◌, ◌<◌, length, drop};
    ghost use Rattle.tcam_device.specs.Flight.{most_in_flight, with_word, search_answer};
    ghost use Rattle.tcam_device.specs.View.{IsSameButFlight};
    ghost use Rattle.memory_tcam.specs.Tcam.{as_device};

    fn look(&self, key: &Key) -> Option<(Rank, u32)> {
        self.device.look(key)
    }

    fn translate(&mut self, key: &Key)
        requires room { length self.old.device.flight < most_in_flight }
        ensures flight { self.new.device.flight
            ≡ with_word (replay self.old.device.slots (writes_in self.old.device.events)) key.now self.old.device.flight }
        ensures others { IsSameButFlight (as_device self.old.device self.old.faults) (as_device self.new.device self.new.faults) }
        ensures calls { self.new.calls ≡ self.old.calls }
    {
        self.device.translate(key);
    }

    fn search(&mut self) -> Option<Option<(Rank, u32)>>
        ensures answer { result ≡ search_answer (replay self.old.device.slots (writes_in self.old.device.events)) self.old.device.flight }
        ensures flight { self.new.device.flight ≡ drop 1 self.old.device.flight }
        ensures others { IsSameButFlight (as_device self.old.device self.old.faults) (as_device self.new.device self.new.faults) }
        ensures calls { self.new.calls ≡ self.old.calls }
    {
        self.device.search()
    }
}

impl<'a> ReadBack for FlakyTcam<'a> {
    fn read_slot(&self, slot: u32) -> Option<Entry> {
        self.slot(slot)
    }

    fn read_word(&self, field: Field, port: u16) -> u16 {
        self.word(field, port)
    }
}

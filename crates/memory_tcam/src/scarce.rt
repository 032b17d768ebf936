// A device whose memory ends behind some of its writes.
ghost use Rattle.std.specs.Prelude.{◌≡◌};
ghost use Rattle.tcam_device.specs.Flight.{writes_in};

use crate::MemTcam;
use rule_model::{Entry, Key, Rank};
use std::alloc::AllocError;
use std::marker::Model;
use tcam_device::{Device, DeviceFault, Field, ReadBack, Writable, Write};

/// A device in memory that makes room for no write more once it has made so many.
#[derive(Drop)]
pub struct ScarceTcam {
    device: MemTcam,
    most: usize,
}

impl Model for ScarceTcam {
    ghost use Rattle.memory_tcam.specs.Tcam.{Scarce};

    ghost Value = { Scarce };

    ghost view = { λ s. record { device = s.device; most = s.most } };
}

impl ScarceTcam {
    /// A device as it comes, which makes room as long as fewer than `most` writes were made since it was blank. The
    /// room that it has stays.
    pub fn new(device: MemTcam, most: usize) -> ScarceTcam
        ensures { result ≡ record { device = device; most = most } }
    {
        ScarceTcam { device, most }
    }

    /// The writes since the device was blank, in order.
    pub fn journal(&self) -> &[Write]
        ensures { result.now ≡ writes_in self.now.device.events }
    {
        self.device.journal()
    }
}

/// The clauses are the trait's, and when there is no room.
impl Writable for ScarceTcam {
    ghost use Rattle.std.specs.Prelude.{◌≡◌, ◌≤◌, length, IsErr, OnOk, OnErr};
    ghost use Rattle.tcam_device.specs.Flight.{writes_in};
    ghost use Rattle.tcam_device.specs.View.{IsSameButSpare};
    ghost use Rattle.memory_tcam.specs.Tcam.{as_device};

    ghost view = { λ s. as_device s.device 0 };

    fn slots(&self) -> u32 {
        self.device.slots()
    }

    fn reserve(&mut self, n: u64) -> Result<(), AllocError>
        ensures scarce { self.old.most ≤ length (writes_in self.old.device.events) → IsErr result }
        ensures enough { OnOk result (n ≤ self.new.device.spare) }
        ensures least { self.old.device.spare ≤ self.new.device.spare }
        ensures spare_err { OnErr result (self.new.device.spare ≡ self.old.device.spare) }
        ensures others { IsSameButSpare (as_device self.old.device 0) (as_device self.new.device 0) }
        ensures most { self.new.most ≡ self.old.most }
    {
        if self.device.journal().len() >= self.most {
            return Err(AllocError);
        }
        self.device.reserve(n)
    }

    fn write(&mut self, write: Write) -> Result<(), DeviceFault> {
        self.device.write(write)
    }

    fn in_flight(&self) -> u32 {
        self.device.in_flight()
    }

    fn drain(&mut self) {
        self.device.drain();
    }
}

impl Device for ScarceTcam {
    fn look(&self, key: &Key) -> Option<(Rank, u32)> {
        self.device.look(key)
    }

    fn translate(&mut self, key: &Key) {
        self.device.translate(key);
    }

    fn search(&mut self) -> Option<Option<(Rank, u32)>> {
        self.device.search()
    }
}

impl ReadBack for ScarceTcam {
    fn read_slot(&self, slot: u32) -> Option<Entry> {
        self.device.read_slot(slot)
    }

    fn read_word(&self, field: Field, port: u16) -> u16 {
        self.device.read_word(field, port)
    }
}

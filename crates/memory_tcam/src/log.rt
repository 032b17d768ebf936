// The journal of a device in memory, with the drains among its writes.
ghost use Rattle.std.specs.Prelude.{◌≡◌, ◌<◌, ◌≤◌, ◌+◌, ◌++◌, [], ◌∷◌, max, OnOk, OnErr};
ghost use Rattle.tcam_device.specs.declared.Action.{Action};
ghost use Rattle.tcam_device.specs.Flight.{writes_in};

use std::alloc::{AllocError, Global};
use std::marker::Model;
use tcam_device::Write;

/// Writes and drains in their order. A drain is kept by a number beside the writes, so that these stand in one slice.
#[derive(Drop)]
pub(crate) struct Log {
    journal: Vec<Write>,
    /// Of each drain, how many writes stand between it and the drain before it.
    gaps: Vec<u64>,
    /// How many writes stand before the last drain.
    drained: u64,
    /// How many writes and drains have their room, in both lists, since either may grow.
    room: u64,
}

impl Model for Log {
    ghost use Rattle.std.specs.Prelude.{◌-◌, vec_len, vec_capacity};
    ghost use Rattle.memory_tcam.specs.Tcam.{Logged, events_of, IsLog};

    ghost Value = { Logged };

    ghost view = { λ l. record { events = events_of l.journal.items l.gaps.items; spare = l.room } };

    ghost invariant = { λ l. IsLog l.journal.items l.gaps.items l.drained l.room
        (vec_capacity l.journal - vec_len l.journal) (vec_capacity l.gaps - vec_len l.gaps) };
}

impl Log {
    /// Nothing is logged, and there is room for nothing.
    pub(crate) fn new(alloc: Global) -> Log
        ensures { result ≡ record { events = []; spare = 0 } }
    {
        Log {
            journal: Vec::new(alloc),
            gaps: Vec::new(alloc),
            drained: 0,
            room: 0,
        }
    }

    /// The writes, in order.
    pub(crate) fn journal(&self) -> &[Write]
        ensures { result.now ≡ writes_in self.now.events }
    {
        &self.journal
    }

    /// Makes room for this many writes and drains.
    pub(crate) fn reserve(&mut self, n: u64) -> Result<(), AllocError>
        ensures enough { OnOk result (n ≤ self.new.spare) }
        ensures least { self.old.spare ≤ self.new.spare }
        ensures most { self.new.spare ≤ max self.old.spare n }
        ensures spare_err { OnErr result (self.new.spare ≡ self.old.spare) }
        ensures events { self.new.events ≡ self.old.events }
    {
        self.journal.reserve(n as usize)?;
        self.gaps.reserve(n as usize)?;
        if n > self.room {
            self.room = n;
        }
        Ok(())
    }

    /// Puts a write behind all.
    pub(crate) fn write(&mut self, write: &Write)
        requires { 0 < self.old.spare }
        ensures logged { self.new.events ≡ self.old.events ++ Action.Written write.now ∷ [] }
        ensures journal { writes_in self.new.events ≡ writes_in self.old.events ++ write.now ∷ [] }
        ensures spare { self.new.spare + 1 ≡ self.old.spare }
    {
        // Taken apart: a write that is handed on whole, where no entry is in sight, finds no proof.
        let apart = match write {
            Write::Slot(slot, entry) => Write::Slot(*slot, *entry),
            Write::Table(field, port, word) => Write::Table(*field, *port, *word),
        };
        self.journal.push_reserved(apart);
        self.room -= 1;
    }

    /// Puts a drain behind all.
    pub(crate) fn drain(&mut self)
        requires { 0 < self.old.spare }
        ensures logged { self.new.events ≡ self.old.events ++ Action.Drained ∷ [] }
        ensures journal { writes_in self.new.events ≡ writes_in self.old.events }
        ensures spare { self.new.spare + 1 ≡ self.old.spare }
    {
        let written = self.journal.len() as u64;
        self.gaps.push_reserved(written - self.drained);
        self.drained = written;
        self.room -= 1;
    }
}

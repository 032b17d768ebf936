// A source and a sink in memory.
ghost use Rattle.std.specs.Prelude.{◌≡◌, ◌<◌, ◌≤◌, ℕ, List, [], Option, Some, length, IfOk, OnOk, OnErr};
ghost use Rattle.script_lines.specs.Memory.{Kept};

use crate::counts::fail;
use crate::{Failed, Sink, Source};
use call_history::{Piece, Pieces};
use std::alloc::{AllocError, Global};
use std::marker::Model;

/// These bytes, as many at a time as the buffer takes. It never fails.
#[derive(Drop)]
pub struct MemSource<'a> {
    bytes: &'a [u8],
    history: Pieces,
}

impl<'a> Model for MemSource<'a> {
    ghost use Rattle.script_lines.specs.Memory.{Left};

    ghost Value = { Left };

    ghost view = { λ s. record { bytes = s.bytes.now; given = s.history.items } };
}

impl<'a> MemSource<'a> {
    /// A source that has these bytes left. Takes no memory.
    pub fn new(bytes: &'a [u8]) -> MemSource<'a>
        ensures { result ≡ record { bytes = bytes.entry.now; given = [] } }
    {
        MemSource {
            bytes,
            history: Pieces::new(),
        }
    }
}

impl Source for MemSource<'_> {
    ghost use Rattle.std.specs.Prelude.{◌≡◌, ◌≤◌, ◌<◌, length, min, Ok, Some, IfOk};
    ghost use Rattle.std.specs.Io.KnownBytes.{ReadConsumes};
    ghost use Rattle.call_history.specs.Cause.{HasCause};
    ghost use Rattle.script_lines.specs.Given.{Gives};

    ghost left = { λ s. Some s.bytes };

    ghost given = { λ s. s.given };

    ghost faults = { λ s. 0 };

    fn read(&mut self, into: &mut [u8]) -> Result<usize, Failed>
        ensures count { IfOk result (λ n. n ≤ length into.new) }
        ensures bytes { ReadConsumes (Some self.old.bytes) (Some self.new.bytes) result into.new }
        ensures given { 0 < length into.new → Gives self.old.given self.new.given result into.new }
        ensures cause { HasCause 0 0 result }
        ensures most { result ≡ Ok (min (length self.old.bytes) (length into.new)) }
    {
        let n = self.bytes.len().min(into.len());
        into[..n].copy_from_slice(&self.bytes[..n]);
        self.bytes = &self.bytes[n..];
        self.history = self.history.and_piece(&Piece { bytes: &into[..n] });
        Ok(n)
    }
}

/// Bytes in memory. Room for them is made beforehand, and a write takes no memory.
#[derive(Drop)]
pub struct MemSink {
    bytes: Vec<u8>,
    room: u64,
    failed: u64,
}

impl Model for MemSink {
    ghost use Rattle.std.specs.Prelude.{◌+◌, ◌≤◌, vec_len, vec_capacity};
    ghost use Rattle.script_lines.specs.Memory.{Kept};

    ghost Value = { Kept };

    ghost view = { λ s. record { bytes = s.bytes.items; room = s.room; failed = s.failed } };

    ghost invariant = { λ s. vec_len s.bytes + s.room ≤ vec_capacity s.bytes };
}

impl MemSink {
    ghost use Rattle.std.specs.Prelude.{◌≡◌, ◌≤◌, [], IfOk, OnOk, OnErr};
    ghost use Rattle.script_lines.specs.Memory.{with_fault, with_room};

    /// A sink with no bytes and no room.
    pub fn new(alloc: Global) -> Result<MemSink, AllocError>
        ensures { IfOk result (λ sink. sink ≡ record { bytes = []; room = 0; failed = 0 }) }
    {
        Ok(MemSink {
            bytes: Vec::new(alloc),
            room: 0,
            failed: 0,
        })
    }

    /// Makes room for `n` more bytes than there are now; room that was made before counts. Refused for want
    /// of memory alone, and then all is as it was.
    pub fn reserve(&mut self, n: u64) -> Result<(), AllocError>
        ensures ok { OnOk result (self.new ≡ with_room self.old n) }
        ensures err { OnErr result (self.new ≡ self.old) }
    {
        self.bytes.reserve(n as usize)?;
        self.room = self.room.max(n);
        Ok(())
    }

    /// The bytes so far.
    pub fn bytes(&self) -> &[u8]
        ensures { result.now ≡ self.now.bytes }
    {
        &self.bytes
    }

    // Counts a failed write.
    pub(crate) fn fail(&mut self) -> Failed
        ensures counted { self.new ≡ with_fault self.old }
        ensures later { self.old.failed ≤ self.new.failed }
    {
        fail(&mut self.failed)
    }
}

impl Sink for MemSink {
    ghost use Rattle.std.specs.Prelude.{◌≡◌, ◌↔◌, ◌<◌, ◌≤◌, ℕ, length, take, Some, Ok, IsOk, IfOk, OnOk, OnErr};
    ghost use Rattle.std.specs.Io.KnownBytes.{Appends};
    ghost use Rattle.call_history.specs.Cause.{HasCause};
    ghost use Rattle.script_lines.specs.Given.{Accepts};
    ghost use Rattle.script_lines.specs.Memory.{with_piece, with_fault};

    ghost taken = { λ s. Some s.bytes };

    ghost accepted = { λ s. s.bytes };

    ghost faults = { λ s. s.failed };

    fn write(&mut self, from: &[u8]) -> Result<usize, Failed>
        ensures some { 0 < length from.now → IfOk result (λ n. 0 < n) }
        ensures count { IfOk result (λ n. n ≤ length from.now) }
        ensures bytes { IfOk result (λ n. Appends (Some self.old.bytes) (Some self.new.bytes) (take n from.now)) }
        ensures part { OnErr result ((n : ℕ) × (n ≤ length from.now) × Appends (Some self.old.bytes) (Some self.new.bytes) (take n from.now)) }
        ensures accepted { Accepts self.old.bytes self.new.bytes result from.now }
        ensures cause { HasCause self.old.failed self.new.failed result }
        ensures fits { IsOk result ↔ (length from.now ≤ self.old.room) }
        ensures all { IfOk result (λ n. n ≡ length from.now) }
        ensures ok { OnOk result (self.new ≡ with_piece self.old from.now) }
        ensures err { OnErr result (self.new ≡ with_fault self.old) }
    {
        if from.len() as u64 > self.room {
            return Err(self.fail());
        }
        self.bytes.extend_from_slice(from).unwrap();
        self.room -= from.len() as u64;
        Ok(from.len())
    }
}

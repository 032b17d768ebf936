// A source and a sink that fail at the calls that they are told to.
ghost use Rattle.std.specs.Prelude.{◌≡◌, ◌<◌, ◌≤◌, ℕ, [], IfOk, OnErr};

use crate::counts::fail;
use crate::{Failed, MemSink, MemSource, Sink, Source};
use call_history::Calls;
use std::alloc::{AllocError, Global};
use std::marker::Model;

/// These bytes, some at a time, with reads that fail.
#[derive(Drop)]
pub struct FailSource<'a> {
    source: MemSource<'a>,
    piece: u32,
    calls: Calls<'a>,
    failed: u64,
}

impl<'a> Model for FailSource<'a> {
    ghost use Rattle.std.specs.Prelude.{◌<◌};
    ghost use Rattle.script_lines.specs.Memory.{FailingLeft};

    ghost Value = { FailingLeft };

    ghost view = { λ s. record { bytes = s.source.bytes; given = s.source.given; piece = s.piece; failed = s.failed; calls = s.calls } };

    ghost invariant = { λ s. 0 < s.piece };
}

impl<'a> FailSource<'a> {
    /// A source that has `bytes` left. Reads are counted from 1, failed ones too, up to the last value of a
    /// u64. Exactly the reads whose numbers stand in `calls` fail, and none past that value. Any other gives
    /// the least of `piece`, the buffer's length and what is left. Takes no memory.
    pub fn new(bytes: &'a [u8], piece: u32, calls: &'a [u64]) -> FailSource<'a>
        requires some { 0 < piece }
        ensures { result ≡ record { bytes = bytes.entry.now; given = []; piece = piece; failed = 0; calls = record { listed = calls.entry.now; made = 0 } } }
    {
        FailSource {
            source: MemSource::new(bytes),
            piece,
            calls: Calls::new(calls),
            failed: 0,
        }
    }
}

impl Source for FailSource<'_> {
    ghost use Rattle.std.specs.Prelude.{◌≡◌, ◌↔◌, ◌≤◌, ◌<◌, length, min, Some, IsErr, IfOk, OnOk, OnErr};
    ghost use Rattle.std.specs.Io.KnownBytes.{ReadConsumes};
    ghost use Rattle.call_history.specs.Cause.{HasCause, raised};
    ghost use Rattle.script_lines.specs.Given.{Gives};
    ghost use Rattle.call_history.specs.Calls.{IsNextListed, with_call};

    ghost left = { λ s. Some s.bytes };

    ghost given = { λ s. s.given };

    ghost faults = { λ s. s.failed };

    fn read(&mut self, into: &mut [u8]) -> Result<usize, Failed>
        ensures count { IfOk result (λ n. n ≤ length into.new) }
        ensures bytes { ReadConsumes (Some self.old.bytes) (Some self.new.bytes) result into.new }
        ensures given { 0 < length into.new → Gives self.old.given self.new.given result into.new }
        ensures cause { HasCause self.old.failed self.new.failed result }
        ensures fails { IsErr result ↔ IsNextListed self.old.calls }
        ensures most { IfOk result (λ n. n ≡ min (min self.old.piece (length into.new)) (length self.old.bytes)) }
        ensures calls { self.new.calls ≡ with_call self.old.calls }
        ensures piece { self.new.piece ≡ self.old.piece }
        ensures failed_ok { OnOk result (self.new.failed ≡ self.old.failed) }
        ensures failed_err { OnErr result (self.new.failed ≡ raised self.old.failed) }
    {
        if self.calls.next_fails() {
            return Err(fail(&mut self.failed));
        }
        let most = into.len().min(self.piece as usize);
        self.source.read(&mut into[..most])
    }
}

/// Bytes in memory as in a `MemSink`, with writes that fail.
#[derive(Drop)]
pub struct FailSink<'a> {
    sink: MemSink,
    calls: Calls<'a>,
}

impl<'a> Model for FailSink<'a> {
    ghost use Rattle.script_lines.specs.Memory.{FailingKept};

    ghost Value = { FailingKept };

    ghost view = { λ s. record { kept = s.sink; calls = s.calls } };
}

impl<'a> FailSink<'a> {
    ghost use Rattle.std.specs.Prelude.{◌≡◌, [], IfOk, OnOk, OnErr};
    ghost use Rattle.script_lines.specs.Memory.{with_room};

    /// A sink with no bytes and no room. Writes are counted from 1, failed ones too, up to the last value of
    /// a u64. The writes whose numbers stand in `calls` fail and take nothing, and so do pieces past the
    /// room; none else fails.
    pub fn new(alloc: Global, calls: &'a [u64]) -> Result<FailSink<'a>, AllocError>
        ensures { IfOk result (λ sink. sink ≡ record { kept = record { bytes = []; room = 0; failed = 0 }; calls = record { listed = calls.entry.now; made = 0 } }) }
    {
        Ok(FailSink {
            sink: MemSink::new(alloc)?,
            calls: Calls::new(calls),
        })
    }

    /// Makes room for `n` more bytes than there are now; room that was made before counts. Refused for want
    /// of memory alone, and then all is as it was.
    pub fn reserve(&mut self, n: u64) -> Result<(), AllocError>
        ensures ok { OnOk result (self.new.kept ≡ with_room self.old.kept n) }
        ensures calls { self.new.calls ≡ self.old.calls }
        ensures err { OnErr result (self.new.kept ≡ self.old.kept) }
    {
        self.sink.reserve(n)
    }

    /// The bytes so far.
    pub fn bytes(&self) -> &[u8]
        ensures { result.now ≡ self.now.kept.bytes }
    {
        self.sink.bytes()
    }
}

impl Sink for FailSink<'_> {
    ghost use Rattle.std.specs.Prelude.{◌≡◌, ◌↔◌, ◌<◌, ◌≤◌, ℕ, length, take, Some, IsOk, IfOk, OnOk, OnErr};
    ghost use Rattle.std.specs.Io.KnownBytes.{Appends};
    ghost use Rattle.call_history.specs.Cause.{HasCause};
    ghost use Rattle.script_lines.specs.Given.{Accepts};
    ghost use Rattle.call_history.specs.Calls.{IsNextListed, with_call};
    ghost use Rattle.script_lines.specs.Memory.{with_piece, with_fault};

    ghost taken = { λ s. Some s.kept.bytes };

    ghost accepted = { λ s. s.kept.bytes };

    ghost faults = { λ s. s.kept.failed };

    fn write(&mut self, from: &[u8]) -> Result<usize, Failed>
        ensures some { 0 < length from.now → IfOk result (λ n. 0 < n) }
        ensures count { IfOk result (λ n. n ≤ length from.now) }
        ensures bytes { IfOk result (λ n. Appends (Some self.old.kept.bytes) (Some self.new.kept.bytes) (take n from.now)) }
        ensures part { OnErr result ((n : ℕ) × (n ≤ length from.now) × Appends (Some self.old.kept.bytes) (Some self.new.kept.bytes) (take n from.now)) }
        ensures accepted { Accepts self.old.kept.bytes self.new.kept.bytes result from.now }
        ensures cause { HasCause self.old.kept.failed self.new.kept.failed result }
        ensures fits { IsOk result ↔ ((¬ IsNextListed self.old.calls) × (length from.now ≤ self.old.kept.room)) }
        ensures all { IfOk result (λ n. n ≡ length from.now) }
        ensures calls { self.new.calls ≡ with_call self.old.calls }
        ensures ok { OnOk result (self.new.kept ≡ with_piece self.old.kept from.now) }
        ensures err { OnErr result (self.new.kept ≡ with_fault self.old.kept) }
    {
        if self.calls.next_fails() {
            return Err(self.sink.fail());
        }
        self.sink.write(from)
    }
}

// Std's readers and writers as sources and sinks. The history gets exactly what a call hands out or takes,
// and that is what std's call gave or took: both are proved, the latter since a reader may tell its bytes. On
// these few lines rests what std keeps no count of: that it is asked once in a call, that each of its errors
// is a failure, and that each write is flushed. No contract says what a file holds, or who else uses it.
ghost use Rattle.std.specs.Prelude.{◌≡◌, ◌<◌, ◌≤◌, ℕ, [], length, take, IfSome, IfNone};
ghost use Rattle.std.specs.List.{concat};
ghost use Rattle.std.specs.Io.KnownBytes.{Appends};

use crate::counts::fail;
use crate::{Failed, Sink, Source};
use call_history::{Piece, Pieces};
use std::io::{Read, Write};
use std::marker::Model;

/// Std's reader as a source. Of the bytes to come it tells what the reader tells, of those that it gave
/// all; each error of the reader is a failure.
#[derive(Drop)]
pub struct ReadFrom<R> {
    reader: R,
    history: Pieces,
    failed: u64,
}

impl<R> Model for ReadFrom<R> {
    ghost use Rattle.script_lines.specs.Memory.{Counted};

    ghost Value = { Counted R };

    ghost view = { λ s. record { inner = s.reader; pieces = s.history.items; failed = s.failed } };
}

impl<R> ReadFrom<R> {
    /// A source over this reader, which hasn't failed yet. Takes no memory.
    pub fn new(reader: R) -> ReadFrom<R>
        ensures { result ≡ record { inner = reader; pieces = []; failed = 0 } }
    {
        ReadFrom {
            reader,
            history: Pieces::new(),
            failed: 0,
        }
    }
}

impl<R: Read> Source for ReadFrom<R> {
    ghost left = { λ s. R.remaining s.inner };

    ghost given = { λ s. s.pieces };

    ghost faults = { λ s. s.failed };

    fn read(&mut self, into: &mut [u8]) -> Result<usize, Failed> {
        match self.reader.read(into) {
            Ok(n) => {
                self.history = self.history.and_piece(&Piece { bytes: &into[..n] });
                Ok(n)
            }
            Err(_) => Err(fail(&mut self.failed)),
        }
    }
}

/// Std's writer as a sink. Of the bytes that the writer holds it tells what the writer tells, of those
/// that it accepted all. It flushes after each write. An error of the writer, a failed flush, and a write
/// that takes nothing of a piece that isn't empty are failures.
#[derive(Drop)]
pub struct WriteTo<W> {
    writer: W,
    history: Pieces,
    failed: u64,
}

impl<W> Model for WriteTo<W> {
    ghost use Rattle.script_lines.specs.Memory.{Counted};

    ghost Value = { Counted W };

    ghost view = { λ s. record { inner = s.writer; pieces = s.history.items; failed = s.failed } };
}

impl<W> WriteTo<W> {
    /// A sink over this writer, which hasn't failed yet. Takes no memory.
    pub fn new(writer: W) -> WriteTo<W>
        ensures { result ≡ record { inner = writer; pieces = []; failed = 0 } }
    {
        WriteTo {
            writer,
            history: Pieces::new(),
            failed: 0,
        }
    }
}

impl<W: Write> Sink for WriteTo<W> {
    ghost taken = { λ s. W.contents s.inner };

    ghost accepted = { λ s. concat s.pieces };

    ghost faults = { λ s. s.failed };

    fn write(&mut self, from: &[u8]) -> Result<usize, Failed> {
        match written(&mut self.writer, from) {
            Some(n) => {
                self.history = self.history.and_piece(&Piece { bytes: &from[..n] });
                Ok(n)
            }
            None => Err(fail(&mut self.failed)),
        }
    }
}

// Writes and flushes. None: one of the two failed, or nothing of a piece was taken.
fn written<W: Write>(writer: &mut W, from: &[u8]) -> Option<usize>
    ensures some { 0 < length from.now → IfSome result (λ n. 0 < n) }
    ensures count { IfSome result (λ n. n ≤ length from.now) }
    ensures bytes { IfSome result (λ n. Appends (W.contents writer.old) (W.contents writer.new) (take n from.now)) }
    ensures part { IfNone result ((n : ℕ) × (n ≤ length from.now) × Appends (W.contents writer.old) (W.contents writer.new) (take n from.now)) }
{
    let n = match writer.write(from) {
        Ok(n) => n,
        Err(_) => return None,
    };
    if n == 0 && !from.is_empty() {
        return None;
    }
    match writer.flush() {
        Ok(()) => Some(n),
        Err(_) => None,
    }
}

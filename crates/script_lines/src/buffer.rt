// Bytes that are read and not used.
ghost use Rattle.std.specs.Prelude.{◌≡◌, ◌<◌, ◌≤◌, ◌+◌, [], length, drop, slice_range, IfOk, OnErr};
ghost use Rattle.std.specs.Io.KnownBytes.{Keeps};
ghost use Rattle.call_history.specs.Cause.{HasCause};
ghost use Rattle.script_lines.specs.Buffer.{Gains};

use crate::{Failed, Source};
use std::marker::Model;

/// The bytes that a buffer has room for: a line, and what a read gave beyond it.
pub const BUFFER_BYTES: usize = 4096;

/// Bytes that were read and not used, at most `BUFFER_BYTES`, in room of its own. Contracts see them, in their order.
#[derive(Drop)]
pub struct Buffer {
    array: [u8; BUFFER_BYTES],
    start: usize,
    end: usize,
}

impl Model for Buffer {
    ghost use Rattle.std.specs.Prelude.{◌≤◌, ℕ, List, slice_range};

    ghost Value = { List ℕ };

    ghost view = { λ b. slice_range b.array b.start b.end };

    ghost invariant = { λ b. (b.start ≤ b.end) × (b.end ≤ 4096) };
}

impl Buffer {
    /// A buffer that holds nothing.
    pub fn new() -> Buffer
        ensures { result ≡ [] }
    {
        Buffer {
            array: [0; BUFFER_BYTES],
            start: 0,
            end: 0,
        }
    }

    /// The bytes held, the first that was read first.
    pub fn bytes(&self) -> &[u8]
        ensures { result.now ≡ self.now }
    {
        &self.array[self.start..self.end]
    }

    /// Lets go of the first `n` bytes held, at most all.
    pub fn skip(&mut self, n: usize)
        requires { n ≤ length self.old }
        ensures { self.new ≡ drop n self.old }
    {
        self.start += n;
    }

    /// Reads once, behind the bytes held, of which there are fewer than `BUFFER_BYTES`, and answers how many bytes
    /// came: at the end of the input 0. It fails exactly where the source does, and the bytes held are as before.
    pub fn fill<S: Source>(&mut self, source: &mut S) -> Result<usize, Failed>
        requires { length self.old < 4096 }
        ensures ok { IfOk result (λ n. Gains self.old self.new (S.left source.old) (S.left source.new) (S.given source.old) (S.given source.new) n) }
        ensures err { OnErr result (self.new ≡ self.old) }
        ensures given_err { OnErr result (S.given source.new ≡ S.given source.old) }
        ensures left_err { OnErr result (Keeps (S.left source.old) (S.left source.new)) }
        ensures cause { HasCause (S.faults source.old) (S.faults source.new) result }
    {
        make_room(&mut self.array, &mut self.start, &mut self.end);
        match source.read(&mut self.array[self.end..]) {
            Ok(n) => {
                self.end += n;
                Ok(n)
            }
            Err(failed) => Err(failed),
        }
    }
}

// Where the array is used up, the bytes held move to its front.
fn make_room(array: &mut [u8; BUFFER_BYTES], start: &mut usize, end: &mut usize)
    requires order { start.old ≤ end.old }
    requires within { end.old ≤ 4096 }
    requires short { end.old < start.old + 4096 }
    ensures len { length array.new ≡ 4096 }
    ensures order { start.new ≤ end.new }
    ensures room { end.new < 4096 }
    ensures same { slice_range array.new start.new end.new ≡ slice_range array.old start.old end.old }
{
    if *end == BUFFER_BYTES {
        array.copy_within(*start.., 0);
        *end -= *start;
        *start = 0;
    }
}

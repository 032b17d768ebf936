// The lines of a source, however its reads cut them.
ghost use Rattle.std.specs.Prelude.{◌≡◌, ◌≤◌, ◌-◌, length, take, drop, replicate};

use crate::buffer::Buffer;
use crate::scan::{Found, gather};
use crate::{Failed, LINE_BYTES, Line, LineFault, MOST_BYTES, Over, Source};
use std::marker::Model;

/// Cuts what a source gives into lines. It holds the bytes that are read and not handed out.
#[derive(Drop)]
pub struct Lines {
    buffer: Buffer,
    scanned: usize,
    before: u32,
    number: u32,
    over: Over,
}

impl Model for Lines {
    ghost use Rattle.script_lines.specs.Reader.{HeldBytes};
    ghost use Rattle.script_lines.specs.Scan.{IsReader};

    ghost Value = { HeldBytes };

    ghost view = { λ l. record { pending = l.buffer; before = l.before; number = l.number; over = l.over } };

    ghost invariant = { λ l. IsReader l.buffer l.scanned l.before l.number l.over };
}

impl Lines {
    ghost use Rattle.std.specs.Prelude.{◌≡◌, ◌≢◌, ◌<◌, ◌≤◌, ◌+◌, ◌-◌, ℕ, List, [], Some, Err, IfOk, IfSome, drop, replicate};
    ghost use Rattle.std.specs.Io.KnownBytes.{Consumes};
    ghost use Rattle.call_history.specs.Cause.{IsCounted};
    ghost use Rattle.script_lines.specs.Lines.{most_bytes};
    ghost use Rattle.script_lines.specs.Reader.{Hands, Follows, HandsByGiven, Again, MayRead, Stays};
    ghost use Rattle.script_lines.specs.Given.{GivesPieces};

    /// Nothing is held, and a script of `MOST_BYTES` at most begins. Takes no memory.
    pub fn new() -> Lines
        ensures { result ≡ record { pending = []; before = 0; number = 1; over = Over.Going } }
    {
        Lines::of_at_most(MOST_BYTES)
    }

    /// Nothing is held, and a script begins that may have so many bytes, at most `MOST_BYTES`: the others are counted as if
    /// they stood before it. Takes no memory.
    pub fn of_at_most(bytes: u32) -> Lines
        requires { bytes ≤ MOST_BYTES }
        ensures { result ≡ record { pending = []; before = most_bytes - bytes; number = 1; over = Over.Going } }
    {
        Lines {
            buffer: Buffer::new(),
            scanned: 0,
            before: MOST_BYTES - bytes,
            number: 1,
            over: Over::Going,
        }
    }

    /// What is held, and what comes, is taken for the beginning of a longest script: no byte stands before it, and its first
    /// line has the number 1. So who begins anew behind each line, and counts them, reads a text of any length. Once it
    /// is over it stays so.
    pub fn begin_anew(&mut self)
        ensures { self.new ≡ record self.old { before = 0; number = 1 } }
    {
        self.before = 0;
        self.number = 1;
    }

    /// The next line, or none at the end of the input. It reads only while it holds no whole line and no
    /// byte that is a fault. At one byte ScriptTooLong, TooLong, BadByte are tried in this order. One of
    /// these, and none, is the answer of each later call too, without a read; after `Read` a later call goes
    /// on with the bytes kept. Takes no memory.
    pub fn next<S: Source>(&mut self, source: &mut S) -> Result<Option<Line>, LineFault>
        ensures hands { self.old.over ≡ Over.Going → (left after : List ℕ) → S.left source.old ≡ Some left → S.left source.new ≡ Some after
            → Hands self.old left result self.new after }
        ensures lines { self.old.over ≡ Over.Going → (left after : List ℕ) → S.left source.old ≡ Some left → S.left source.new ≡ Some after
            → Follows self.old left result self.new after }
        ensures gives { (pieces : List (List ℕ)) × GivesPieces (S.given source.old) (S.given source.new) (S.left source.old) (S.left source.new) pieces
            × HandsByGiven self.old pieces result self.new }
        ensures again { Again self.old.over result }
        ensures rests { self.old.over ≢ Over.Going → (S.left source.new ≡ S.left source.old) × (self.new ≡ self.old) }
        ensures unread { ¬ MayRead self.old → source.new ≡ source.old }
        ensures stays { Stays result self.new.over }
        ensures len { IfOk result (λ found. IfSome found (λ line. line.len ≤ 512)) }
        ensures padded { IfOk result (λ found. IfSome found (λ line. drop line.len line.bytes ≡ replicate (512 - line.len) 0)) }
        ensures falls { IfOk result (λ found. IfSome found (λ _. (self.old.before < self.new.before) × (self.new.before ≤ 268435456))) }
        ensures counts { IfOk result (λ found. IfSome found (λ line. self.old.before + line.len ≤ self.new.before)) }
        ensures takes { (bytes : List ℕ) × Consumes (S.left source.old) (S.left source.new) bytes }
        ensures cause { IsCounted (result ≡ Err LineFault.Read) (S.faults source.old) (S.faults source.new) }
    {
        match self.over {
            Over::Going => {}
            Over::Ended => return Ok(None),
            Over::Stopped(fault) => return Err(fault),
        }
        let found = match gather(
            &mut self.buffer,
            &mut self.scanned,
            self.before,
            self.number,
            source,
        ) {
            Ok(found) => found,
            Err(_) => return Err(LineFault::Read),
        };
        match found {
            Found::LineFeed => {
                let line = line_of(self.number, &self.buffer.bytes()[..self.scanned]);
                self.buffer.skip(self.scanned + 1);
                self.before += self.scanned as u32 + 1;
                self.number += 1;
                self.scanned = 0;
                Ok(Some(line))
            }
            Found::Fault(fault) => {
                self.over = Over::Stopped(fault);
                Err(fault)
            }
            Found::Open => {
                self.over = Over::Ended;
                if self.scanned == 0 {
                    return Ok(None);
                }
                let line = line_of(self.number, &self.buffer.bytes()[..self.scanned]);
                self.buffer.skip(self.scanned);
                self.before += self.scanned as u32;
                self.scanned = 0;
                Ok(Some(line))
            }
        }
    }
}

// A line of these bytes.
fn line_of(number: u32, text: &[u8]) -> Line
    requires { length text.now ≤ 512 }
    ensures number { result.number ≡ number }
    ensures len { result.len ≡ length text.now }
    ensures text { take result.len result.bytes ≡ text.now }
    ensures rest { drop result.len result.bytes ≡ replicate (512 - result.len) 0 }
{
    let mut line = Line {
        number,
        len: text.len() as u16,
        bytes: [0; LINE_BYTES],
    };
    put_front(&mut line.bytes, text);
    line
}

// Puts these bytes at the front.
fn put_front(bytes: &mut [u8; LINE_BYTES], text: &[u8])
    requires { length text.now ≤ 512 }
    ensures len { length bytes.new ≡ 512 }
    ensures front { take (length text.now) bytes.new ≡ text.now }
    ensures rest { drop (length text.now) bytes.new ≡ drop (length text.now) bytes.old }
{
    bytes[..text.len()].copy_from_slice(text);
}

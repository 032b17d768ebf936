// Where a line ends.
ghost use Rattle.std.specs.Prelude.{◌≡◌, ◌<◌, ◌≤◌, ◌+◌, ◌++◌, ℕ, List, Ok, false, length, take, drop, slice_index, IfOk, OnErr};
ghost use Rattle.std.specs.Io.KnownBytes.{Consumes, IsAtEnd};
ghost use Rattle.call_history.specs.Cause.{HasCause};
ghost use Rattle.std.specs.List.{prefix_len};
ghost use Rattle.script_lines.specs.Reader.{is_of_line, IsOpenLine};
ghost use Rattle.script_lines.specs.Scan.{StopsAt, IsScanned, Gathers};
ghost use Rattle.script_lines.specs.Given.{HasEnd};

use crate::buffer::Buffer;
use crate::{Failed, LINE_BYTES, LineFault, MOST_BYTES, Source};

/// What stands after the bytes of a line that are scanned.
pub enum Found {
    /// The line feed that ends it.
    LineFeed,
    /// A byte that makes it faulty, of the line or past the script's limit.
    Fault(LineFault),
    /// Nothing yet.
    Open,
}

/// Reads until the bytes held have a whole line at their front or a byte that is a fault, or until the input is at its
/// end, where the answer is `Open`. So many of the bytes held are scanned, before and after. `before` bytes of the
/// script came before those held, and `number` is that of the line, for its fault. Where no read is needed none is
/// made. It fails exactly where the source does; what was read before is held, and all of it is scanned.
pub fn gather<S: Source>(
    buffer: &mut Buffer,
    scanned: &mut usize,
    before: u32,
    number: u32,
    source: &mut S,
) -> Result<Found, Failed>
    requires { IsScanned buffer.old scanned.old before }
    ensures scan { IsScanned buffer.new scanned.new before }
    ensures stops { IfOk result (λ found. StopsAt found before number (take scanned.new buffer.new) (drop scanned.new buffer.new)) }
    ensures end { result ≡ Ok Found.Open → IsAtEnd (S.left source.new) }
    ensures all_err { OnErr result (scanned.new ≡ length buffer.new) }
    ensures grown { (got : List ℕ) × (buffer.new ≡ buffer.old ++ got) × Consumes (S.left source.old) (S.left source.new) got }
    ensures gives { (pieces : List (List ℕ)) × Gathers before buffer.old buffer.new (S.left source.old) (S.left source.new) (S.given source.old) (S.given source.new) pieces
        × (HasEnd pieces → result ≡ Ok Found.Open) × (result ≡ Ok Found.Open → HasEnd pieces) }
    ensures unread { ¬ IsOpenLine before buffer.old → source.new ≡ source.old }
    ensures cause { HasCause (S.faults source.old) (S.faults source.new) result }
{
    'reads: loop {
        let held = buffer.bytes();
        *scanned = scan(held, *scanned, before);
        match found_at(held, *scanned, before, number) {
            Found::Open => {}
            found => return Ok(found),
        }
        match buffer.fill(source) {
            Ok(0) => return Ok(Found::Open),
            Ok(_) => {}
            Err(failed) => return Err(failed),
        }
    }
}

// Goes on with a line of which so many bytes are scanned, up to a limit or a byte that is no part of it.
// Answers how many are scanned then.
fn scan(held: &[u8], scanned: usize, before: u32) -> usize
    requires { IsScanned held.now scanned before }
    ensures further { scanned ≤ result }
    ensures scan { IsScanned held.now result before }
    ensures other { result < length held.now → result < 512 → before + result < 268435456 → is_of_line (slice_index held.now result) ≡ false }
{
    let room = (MOST_BYTES - before) as usize;
    let most = held.len().min(LINE_BYTES).min(room);
    scanned + of_line(&held[scanned..most])
}

// What stands after the bytes that are scanned.
fn found_at(held: &[u8], scanned: usize, before: u32, number: u32) -> Found
    requires scan { IsScanned held.now scanned before }
    requires other { scanned < length held.now → scanned < 512 → before + scanned < 268435456 → is_of_line (slice_index held.now scanned) ≡ false }
    ensures { StopsAt result before number (take scanned held.now) (drop scanned held.now) }
{
    match held.get(scanned) {
        None => Found::Open,
        Some(_) if before + scanned as u32 == MOST_BYTES => Found::Fault(LineFault::ScriptTooLong {
            line: number,
        }),
        Some(b'\n') => Found::LineFeed,
        Some(_) if scanned == LINE_BYTES => Found::Fault(LineFault::TooLong { line: number }),
        Some(_) => Found::Fault(LineFault::BadByte { line: number }),
    }
}

// How many bytes at the front may stand in a line and don't end it.
fn of_line(bytes: &[u8]) -> usize
    ensures { result ≡ prefix_len (λ byte. is_of_line byte) bytes.now }
{
    bytes.iter().take_while(|byte| is_of_line(**byte)).count()
}

// A byte that may stand in a line, and doesn't end it.
fn is_of_line(byte: u8) -> bool
    ensures { result ≡ is_of_line byte }
{
    matches!(byte, b' '..=b'~' | b'\t' | b'\r')
}

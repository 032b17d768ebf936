//! The frame of all importers: the lines of what people have in, the lines of a script out.
//!
//! A format says what a line comes to (`LineFormat`): bytes of the script, or why it isn't said. [`import`] reads the lines
//! of a source, has each of them told, and writes it to a sink before it reads on, so that what is known of an open input
//! is written. What is promised is in `specs/Imported`, of whatever bytes come: each line is said, left out by name, or the
//! one at which the script ends, and what was told before a fault was written before it.
//!
//! # The one hard idea
//! **Nothing is left out in silence.** A line that can't be said exactly would change what the others mean: a list without
//! its exceptions permits or denies what nobody wrote. So a script ends at such a line, which is named by its number, the
//! word and why, and what the format would write behind all lines, the `commit`, isn't there. `--leave-out` is the
//! caller's word that it may be missing: then the line is a comment, and how many of them there were stands at the end.
//!
//! # Decided
//! - **The last line of a script that ends early is no command**, `line 12 another table: table`, as a report's last line
//!   is: who reads the script stops there too, with a status of its own. A comment would be passed over.
//! - **The first line that isn't said ends the script.** Who wants to see all of them asks with `--leave-out`.
//! - **Lines are those of a text of any length** (`Lines::begin_anew`), counted here in 64 bits, each of at most 512 bytes.
//!   A longer one, and a byte that a line can't have, end the script likewise, and nobody can leave them out: where they
//!   end isn't known.
//! - **A line is one write of the sink**, and what it comes to is made before the write. So want of memory never leaves half
//!   a line.
//! - **What should stand behind all lines may be wanting**, where an input is cut off or has nothing of what was asked for: then
//!   the last line is `end of input: no entries`, no command either, and the status that of a line that isn't said. Nobody can
//!   leave it out.
//! - **A format keeps what it knows where a line isn't said**: what is left out has no part in what comes behind it.
#![tactic(auto)]

ghost use Rattle.std.specs.Prelude.{◌≡◌, ◌≤◌, ℕ, List, [], length, IfOk};
ghost use Rattle.import_lines.specs.Import.{LineTold, IsTold};

mod importing;
mod laws;
mod lines;

pub use importing::{import, write_last};
pub use laws::all_lines_are_accounted_for;
use script_lines::LINE_BYTES;
use std::alloc::{AllocError, Global};

/// What a line came to.
#[derive(Clone, Copy, Debug, PartialEq, Eq)]
pub enum Told {
    /// It is said: the bytes are lines of the script, perhaps none.
    Said,
    /// It isn't: the bytes say why, and name the word.
    Unsaid,
}

/// A format that is read line by line.
pub trait LineFormat: Drop {
    /// What a line comes to, by what is known from those before it.
    ghost told: { Self → List ℕ → LineTold };

    /// What is known behind a line. It matters only where that line is said.
    ghost behind: { Self → List ℕ → Self };

    /// What stands behind all lines of a script, or why the input isn't said with all of them: an input that is cut off
    /// between two lines, or that has nothing of what was asked for.
    ghost closing: { Self → LineTold };

    /// Puts what this line comes to into room that is empty: whole lines of a script, or the reason of one line. What is
    /// known grows only where the line is said. It fails for want of memory alone, and what is known then means nothing.
    fn take(&mut self, alloc: Global, text: &[u8], into: &mut Vec<u8>) -> Result<Told, AllocError>
        requires short { length text.now ≤ LINE_BYTES }
        requires empty { into.old.items ≡ [] }
        ensures told { IfOk result (λ answer. IsTold answer into.new.items (told self.old text.now)) }
        ensures said { IfOk result (λ answer. answer ≡ Told.Said → self.new ≡ behind self.old text.now) }
        ensures unsaid { IfOk result (λ answer. answer ≡ Told.Unsaid → self.new ≡ self.old) };

    /// Puts what stands behind all lines into room that is empty: whole lines of a script, or the reason of one line. It
    /// fails for want of memory alone.
    fn close(&self, alloc: Global, into: &mut Vec<u8>) -> Result<Told, AllocError>
        requires { into.old.items ≡ [] }
        ensures told { IfOk result (λ answer. IsTold answer into.new.items (closing self.now)) };
}

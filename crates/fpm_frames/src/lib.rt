//! The frame of importers of a routing daemon's FPM stream: its frames in, the lines of a script out.
//!
//! A stream is frames, one behind the other: four bytes, version 1, kind 1 (netlink), and how many bytes the frame has, these
//! among them, in 16 bits, the high byte first; and then messages. A format says what the messages of a frame come to
//! (`FrameFormat`): bytes of the script, or why it isn't said. [`import_frames`] reads a frame, has it told, and writes what that
//! came to before it reads on. What is promised is in `specs/Imported`, of whatever bytes come: each frame is said, left out by
//! name, or the one at which the script ends, and what was told before a fault was written before it.
//!
//! # Decided
//! - **Nothing is read behind a frame before it is told**: four bytes are read, and then as many as they say. So what is known of
//!   an open input is written, and no clause needs to speak of bytes that are held. Price: two reads a frame at least.
//! - **Where a frame isn't one nothing behind it can be found**, so the script ends there, also where frames may be left out; and
//!   likewise where the input ends within a frame (`cut off`).
//! - **The rest is as in `import_lines`**: the last line of a script that ends early is no command, `frame 12 family: 28`; a frame
//!   is one write of the sink, made before it; a format keeps what it knows where a frame isn't said.
//! - **A frame's memory is kept for the next one**: at most 65,535 bytes.
#![tactic(auto)]

ghost use Rattle.std.specs.Prelude.{◌≡◌, ℕ, List, [], IfOk};
ghost use Rattle.import_lines.specs.Import.{LineTold, IsTold};

mod frames;
mod importing;
mod lines;

use import_lines::Told;
pub use importing::import_frames;
use std::alloc::{AllocError, Global};

/// A format that is read frame by frame.
pub trait FrameFormat: Drop {
    /// What the messages of a frame come to, by what is known from those before it.
    ghost told: { Self → List ℕ → LineTold };

    /// What is known behind them. It matters only where they are said.
    ghost behind: { Self → List ℕ → Self };

    /// Puts what the messages of a frame come to into room that is empty: whole lines of a script, or the reason of one line. What
    /// is known grows only where they are said. It fails for want of memory alone, and what is known then means nothing.
    fn take(
        &mut self,
        alloc: Global,
        messages: &[u8],
        into: &mut Vec<u8>,
    ) -> Result<Told, AllocError>
        requires empty { into.old.items ≡ [] }
        ensures told { IfOk result (λ answer. IsTold answer into.new.items (told self.old messages.now)) }
        ensures said { IfOk result (λ answer. answer ≡ Told.Said → self.new ≡ behind self.old messages.now) }
        ensures unsaid { IfOk result (λ answer. answer ≡ Told.Unsaid → self.new ≡ self.old) };
}

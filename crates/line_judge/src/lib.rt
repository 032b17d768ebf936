//! The lines of any driver's trace, judged one by one: each is hitless, or a packet gets a wrong answer behind it.
//!
//! A [`LineJudge`] keeps the set, the set that the commit under way leads to, and what the device holds. Behind each event
//! only the packets are judged that it can matter to (`write_judge`): those of the entries that go or come, or of a port;
//! and at the end of a commit those of changed rules. That is enough since every other packet had the old or the new answer
//! before, and has it still.
//!
//! # Decided
//! - **A judge that doesn't take a line is spent**, so `take` takes it by value: what a line behind the first leak does isn't
//!   told.
//! - **A command is checked with its own line**, so that one that can't be meant is told there: by the set alone where no command
//!   ahead of it names its priority, and else the whole batch is checked anew. The time of the walks over a batch goes by the
//!   square of its commands, of which there are 12,288 at most.
//! - **More writes or commits than a `u64` counts are told as want of memory.**
#![tactic(auto)]

mod commands;
mod cubes;
mod ends;
mod events;
mod follow;
mod judgements;
mod kinds;
mod line_judge;
mod sets;
mod track;

use driver_trace::Leak;
pub use line_judge::{LineCounts, LineJudge};

/// Why a line isn't taken.
#[derive(Clone, Copy, Debug, PartialEq, Eq)]
pub enum LineFault {
    /// No trace has it there.
    Misplaced,
    /// This packet gets a wrong answer behind it.
    Leaks(Leak),
    /// It wasn't judged: whether a packet gets a wrong answer behind it isn't known.
    NotJudged,
    Memory,
}

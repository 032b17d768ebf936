//! A manager and the device that it drives, in one: the front door of this library.
//!
//! A [`Driven`] is made of a blank device, or of one that a commit was stopped on. From then on nothing reaches the device
//! but by it, so all that the manager's calls ask for is so at any time: the device has the slots in use, room for what is
//! left of a commit and for taking it back, and it holds what the manager takes it to hold (`IsDriven`). A program makes
//! its calls in any order and shows nothing for them, but that `carry_out` gets one try at least.
//!
//! Whoever wants contracts sees both, by the words of `batch_order` and of `tcam_device` (`DrivenView`): what each call does
//! to the manager and to the device is what the manager's own call says, and that each key is answered as the rules do, or
//! while a commit is under way as the old ones or the new ones do, is said without a premise (`serves`, `hitless`).
//!
//! # Decided
//! - **The premises of the manager's calls are this type's invariant**, and no clause: a program that carries them through
//!   its own functions and loops writes ten lines of contract a function, and a test can't. The price is that the device is
//!   owned: whoever writes it, or asks for its memory, behind the manager's back does it before or after.
//! - **Device and parts come back where a restart is refused, and from `into_parts`**, so that a device can be blanked and
//!   loaded anew. A blank device that gets no manager is let go, as hardware that gets no shadow is.
//! - **`restart` looks at the tables by covers** (131,072 words, once), where `Manager::restart` asks for blank ones: it has
//!   no premise so, and `Tables` comes exactly where a word has a bit.
//! - **Of the words in flight no invariant is kept.** A look-up by `look` has none, and for look-ups of two events
//!   `lookup_turns` says what a search answers; a device that a restart is made of may have words in flight of which
//!   nobody knows what they are current for.
#![tactic(auto)]

mod answers;
mod driven;
mod restarting;

use batch_order::RestartFault;
pub use driven::Driven;
use thiserror::Error;

/// Why there is no manager for a device.
#[derive(Clone, Copy, Debug, PartialEq, Eq, Error)]
pub enum SetUpFault {
    /// A manager has 1 to 1,048,576 slots, and its device has them.
    #[error("{0} slots can't be in use")]
    Slots(u32),
    /// Want of memory.
    #[error("want of memory")]
    Memory,
}

/// Why no manager goes on with what a device shows.
#[derive(Clone, Copy, Debug, PartialEq, Eq, Error)]
pub enum RestartedFault {
    /// A manager has 1 to 1,048,576 slots, and its device has them.
    #[error("{0} slots can't be in use")]
    Slots(u32),
    /// By covers the tables are blank, and a word of one isn't 0.
    #[error("a table has words")]
    Tables,
    /// `Manager::restart` is refused, as it says.
    #[error("no restart: {0}")]
    Restart(RestartFault),
}

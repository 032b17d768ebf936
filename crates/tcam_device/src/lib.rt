//! The device that a table manager writes: slots of entries, and two translation tables that give words
//! to the ports of a key.
//!
//! A device is known by what it does. [`Writable`] says of every one how it is written: a write is made whole or
//! not at all, takes no memory, since `reserve` has made room for it, and fails exactly where the device's count
//! of failures rises. The writes since it was blank are its journal, and its state is the blank device with them
//! applied in order. [`Device`] adds look-ups: tag and result of the least slot that hits the key's word in that
//! state; and [`ReadBack`] that its slots and tables can be read.
//!
//! A look-up is undivided, `look`, or two events: `translate` makes the key's word by the tables as they stand then and
//! puts it into flight, and `search` compares the oldest word in flight with the slots as they stand then. A drain
//! among the writes ([`Action`]) stands only where no word is in flight, so no word that was made before it is searched
//! behind it.
//!
//! **Over hardware of your own**: write `impl Hardware` for it, which asks for the number of slots and for one call
//! that makes a write; nothing need be known of what the hardware holds. `memory_tcam::Shadowed` makes a device of it.
//! What its author answers for stands at [`Hardware`]; a write that failed and was made all the same does no harm
//! ([`twice_as_once`]).
//!
//! The devices in memory are a crate of their own, `memory_tcam`, so that how a look-up is made fast touches no proof
//! of what a device is, or of what is written to it.
//!
//! # Decided
//! - **That slots and tables can be read back is said by a trait of its own**, [`ReadBack`], above `Device`: what is
//!   read is what the journal left there. Whoever lost the manager and its plan, and kept the device, reads by it how
//!   far a commit came. Over hardware `memory_tcam::Shadowed` reads the memory beside it, and so tells nothing of
//!   hardware that outlived it. No law says that the journal is told: every device has one.
#![tactic(auto)]

mod device;
mod hardware;
mod laws;
mod read_back;
mod writable;

pub use device::Device;
pub use hardware::Hardware;
pub use laws::twice_as_once;
pub use read_back::ReadBack;
use rule_model::Entry;
pub use rule_model::Field;
use thiserror::Error;
pub use writable::Writable;

/// One write of the device: a slot's new entry or its erase, or the word of a translation table at a port.
#[derive(Clone, Copy, Debug, PartialEq, Eq)]
pub enum Write {
    /// A slot, from 0, with its new entry, or None for its erase.
    Slot(u32, Option<Entry>),
    /// A field's table, a port, and its new word.
    Table(Field, u16, u16),
}

/// What is done to a device in order: a write, or a drain, which stands only where no word is in flight.
#[derive(Clone, Copy, Debug, PartialEq, Eq)]
pub enum Action {
    /// A write was made.
    Written(Write),
    /// No word was in flight.
    Drained,
}

/// How many words may be in flight.
pub const MOST_IN_FLIGHT: u32 = 256;

/// A write of the device failed: the journal doesn't have it.
#[derive(Clone, Copy, Debug, PartialEq, Eq, Error)]
#[error("device fault")]
pub struct DeviceFault;

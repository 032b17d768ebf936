//! Devices in memory, and the device that a memory beside hardware makes of it.
//!
//! [`MemTcam`] never fails. [`FlakyTcam`] is the same one, but the write calls whose numbers it is given fail, and
//! [`ScarceTcam`] one that makes room for no write more once it has made so many. All keep the journal, and beside it
//! the slots, in columns, and the tables as the journal leaves them, so that a look-up need not go through the journal,
//! and the words in flight.
//!
//! [`Shadowed`] makes a device of hardware of which nothing is known (`tcam_device::Hardware`): the memory follows the
//! writes that the hardware answered Ok, and look-ups answer by it.
#![tactic(auto)]

mod flaky;
mod log;
mod lookups;
mod mem;
mod memory;
mod scarce;
mod shadowed;

pub use flaky::FlakyTcam;
pub use mem::MemTcam;
pub use scarce::ScarceTcam;
pub use shadowed::Shadowed;

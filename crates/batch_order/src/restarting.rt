//! A manager that is rebuilt over a device that was stopped in the middle of a commit.
//!
//! What the old manager leaves behind are its rules and their live port ranges ([`readback::Parts`]), and the device's
//! slots and tables. Together with the batch they tell how far the commit came (`readback`). So the pieces that stand
//! get ids again (`standing`), what is left of the commit is planned over them (`rest`), and the manager goes on with
//! it. There is no way back: what the slots held before is known to nobody.

mod fault;
mod manager;
mod rest;
mod resuming;
mod standing;
mod words;

pub use fault::RestartFault;

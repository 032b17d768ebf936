//! Hardware whose results stand in a memory of their own, beside the slots, as the author of a driver writes it, and the
//! device that a shadow in memory makes of it.
//!
//! [`SplitHardware`] asks for the number of slots, for one call that makes a write, and for one that waits for look-ups;
//! nothing need be known of what the hardware holds. [`SplitShadowed`] is a `SplitDevice` over it, so that
//! `split_order::SplitManager` leads hardware that tells nothing. What its author answers for stands at [`SplitHardware`]; a
//! write that failed and was made all the same does no harm where it is made again next (`split_device::twice_as_once`), as
//! it is unless the plan is dropped.
//!
//! # Decided
//! - **A crate of its own, above `split_device`**: what a device is stays apart from what makes one of hardware, as with
//!   `tcam_device` and `memory_tcam`. So a faster look-up here proves no commit anew, and none of those who lead such a
//!   device needs a memory of columns.
//! - **The shadow keeps no events.** What `SplitDevice` tells of them are histories, which take no memory, and each queue of
//!   what is in flight has its room from the first: no call takes memory but `new` and, for the tables, `reserve`.
//! - **A slot's value and mask stand in the columns of `lane_lookup`** as an entry of the least tag and of result 0, and the
//!   result words beside them: the look-up is the one of whole entries, and reads another word in the end.
#![tactic(auto)]

mod hardware;
mod lookups;
mod memory;
mod shadowed;

pub use hardware::SplitHardware;
pub use shadowed::SplitShadowed;

//! Reports in JSON as traces: laws, with nothing to run.
//!
//! A check of traces (`trace_check`) tells yes of each report that the program writes in JSON, whatever the script, where
//! the report is whole: that is `specs/Promised`, by what the top call promises. It is shown in three steps.
//! `specs/OnDevices` takes the law on the lines of a commit from the slots in use to a device that has more of them, as the
//! program's has. `specs/Traces` says that the report of acts that were all carried out is an orderly trace, whose writes
//! are those of the journal. `specs/Reported` says that the text of such a trace gets yes.
//!
//! # Decided
//! - **A crate above the program's**: nothing stands on it, so that neither the program nor the check of traces is proved
//!   after these laws.
//! - **Nothing is said of what a run printed that was cut off**, by a read, a write or want of memory: mostly it lacks its
//!   last line, and then it is no whole trace.
//! - **The numbers of a trace are within its limits by themselves**: a script has too few lines for a number of 32 bits to
//!   be passed. Only the number of writes is asked to be one of 64 bits.
#![tactic(auto)]

mod laws;

pub use laws::{
    json_reports_get_yes, json_runs_are_orderly, orderly_reports_get_yes,
    segments_are_orderly_on_devices,
};

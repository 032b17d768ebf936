//! The command line of the judge, `tcam judge`, and its top call.
//!
//! [`run_judge`] reads its words (`asked`), has what the source gives judged by `driver_verify`, and writes the one line of
//! what is told of it (`lines`). What is promised of a judgement is `driver_verify`'s; here the words, the line and the exit
//! status are added (`specs/Jobs`).
//!
//! # Decided
//! - **A line that wasn't judged has a status of its own**, 5, which a judgement has no other use for: it is neither a yes
//!   nor a no.
//! - **An answer is printed as its priority and result**, also where results alone are compared: the priority is that of a
//!   trace, in its high and its low part.
//! - **Addresses are printed as the trace's version of IP has them.** Which version that is no clause says.
#![tactic(auto)]

mod asked;
mod lines;
mod texts;
mod top;

pub use asked::{Asked, read_words};
pub use option_words::WordsFault;
pub use top::run_judge;

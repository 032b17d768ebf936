//! The command line of a router's scripts, `tcam router` and `tcam router6`, and its top call.
//!
//! # The one hard idea
//! The promise is a clause of one function, [`run_router`], over any source, sink and devices, by what its words ask for: of a
//! script it is `router_runs`' promise of a whole run, by the grammar of `router_reader`.
//!
//! # How it stands
//! `command_line` says what `clap` is to take and what its answer asks for, `own_texts` what the program says about itself;
//! `top` does what is asked for.
//!
//! # Decided
//! - **`router` and `router6` are declared here alone**, and are no command line of `tcam_cli::run`: so neither top call stands
//!   on the other, and a program that leads one table needs none of two. The second takes the same words, of IPv6. `main`
//!   chooses by the first word behind the program's name, and each of the two calls refuses what is the other's.
//! - **`--help` prints this text, and `--version` is no word here**: name and version are the program's.
//! - **There is no `--depth` or `--json`**: a router's scripts have no probe, and a trace file is of one table.
#![tactic(auto)]

mod command_line;
mod own_texts;
mod top;

pub use command_line::{RouterAsked, read_router_words, router_slots_wanted};
pub use script_runs::Status;
pub use top::run_router;

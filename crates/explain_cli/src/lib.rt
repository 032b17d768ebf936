//! `tcam explain WORDS.. < SCRIPT`: what is wrong with a command line, or else with the script that it would run. Nothing is
//! carried out.
//!
//!     $ tcam explain route --slots 4097 file.script
//!     --slots 4097: 1 to 4096
//!     file.script: the script comes on standard input: tcam route < file.script
//!
//! # How it stands
//! `top` has the call, `search` finds the words that are wrong, `options` has the options that each command takes, and
//! `own_texts` the help. What is wrong with a script `explain` tells.
//!
//! # Decided
//! - **Whether words are wrong their own reader says** (`read_words` of `tcam_cli`, `trace_draw`, `import_cli` and
//!   `judge_cli`, `read_router_words` of `router_cli`), and the search explains: words are wrong exactly where the program
//!   would answer `usage`.
//!   Where the search finds none of them wrong, a line says that they are no command line.
//! - **Each wrong word is told**, and the script only where none is: words that are wrong don't say what the script is.
//! - **Of made commands, of a trace, its judgement and what is imported the words alone are explained, and of a router's script no refusal** (`explain_router`).
#![tactic(auto)]

mod options;
mod own_texts;
mod search;
mod top;

pub use top::explain;

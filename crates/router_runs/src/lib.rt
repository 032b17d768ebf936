//! The run of a whole script over a router: its lines are read from a source, carried out over the list's device and the
//! routes', and reported to a sink.
//!
//! # The one hard idea
//! The promise is that of the program's other scripts, said by the same definitions: `router_kind` of `specs/Runs` is a
//! kind of runs (`script_runs`) whose events are two lists, one of each device, and whose writes are the parts of either.
//! So a router's run ends, reads in time and is promised by what its source gave as any other does, and no lemma of that is
//! said again here.
//!
//! # How it stands
//! `script` is the loop of lines, acts and the last line. What a line is and which acts it may be is `router_reader`'s; the
//! definitions here are over any reading.
//!
//! # Decided
//! - **What packets see is said of each table by itself** (`specs/AllTheWay`), in rule sets alone: the sets that the script
//!   leads the table through, and between any two events of its device the answer of one of them or of the next, in order.
//!   Of both together nothing is said: between the list's part of a commit and the routes' a packet may meet the new list
//!   and the old routes.
//! - **Which sets a table is led through rests on both tables' verdicts** (`table_sets_through`): a commit that one refuses
//!   changes neither.
//! - **A run that is cut within a commit is cut at one table** (`cut` of `EndsByStatus`): of the other its part is made
//!   whole by then, or not begun.
//! - **A device's fault names its device** (`which` of `HasRouterCauses`): its count rose by four for one part, and a part
//!   of it is what is due (`IsPartDue`). It is told by the router that holds the rest of the commit (`failed_side`).
//!
//! # What isn't promised
//! Speed, and that memory is there.
#![tactic(auto)]

mod script;

pub use script::run_router_script;

//! Pictures of a trace: what its commits write, and how full its table is, as an SVG.
//!
//! [`draw`] is the subcommand `tcam draw`: it reads its words (`asked`), a trace from a source to its end, line by line
//! (`reading`), keeps what the slots hold and the rows that the picture shows (`tracer`, `table`, `rows`, `levels`), and then
//! hands one text to a sink: the picture (`picture`, `occupancy`), or why there is none. `said` has a line of text for each
//! row, and `shapes` the elements of an SVG.
//!
//! What is promised is in `specs/Told`: what a failure of source, sink and memory comes to, and that a line at fault leaves
//! nothing of a picture. That the picture shows what the trace says is tested, by a script that reads both
//! (`examples/draw`).
//!
//! # Decided
//! - **All is read before anything is written**, so that no picture is cut off by a line at fault. What is kept for it has a
//!   limit: the slots, at most 4,096, the first 4,096 rows and the last 100 (`ends`). A row has all that it shows of its
//!   write, names too, so entries that have gone aren't kept.
//! - **What a write does is judged by the slots alone**: an entry that another slot has is copied, one that its slot has
//!   gets a result, and any other is new, whatever the commit says. So the picture of a driver's trace shows what the memory
//!   went through, in whatever order. Which other slot is the one that a copy is taken from a trace doesn't say: it is the
//!   least that has the entry.
//! - **An insertion is what was written since the new entry before it.** In an orderly commit the insertions stand first,
//!   so this is what a report has as `most`.
//! - **An entry's name is its destination among routes, and its priority in a list**, as on the page that plays a trace, since
//!   another driver's priorities of routes are any numbers.
//! - **Numbers of places are 64 bits and saturate**, which no picture comes near.
#![tactic(auto)]

mod asked;
mod columns;
mod drawing;
mod ends;
mod labels;
mod levels;
mod occupancy;
mod picture;
mod places;
mod reading;
mod rows;
mod said;
mod shapes;
mod table;
mod texts;
mod tracer;

pub use asked::{Asked, Wanted, WordsFault, read_words};
pub use drawing::draw;

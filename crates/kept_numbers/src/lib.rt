//! The numbers of a list's lines, by those that the same lines had in an older list.
//!
//!     the older list                          the new one
//!     10 permit 192.0.2.0/24 any udp any 53   10 permit 192.0.2.0/24 any udp any 53
//!     20 permit any any tcp any 22            15 deny 198.51.100.0/24 any any any any
//!     30 permit any any tcp any 80            20 permit any any tcp any 22
//!     40 deny any any any any any             40 deny any any any any any
//!
//! A list that is made anew, with a line more in front, would have other numbers behind that line, and who loads it would see
//! each of them as another rule. So a line of the same words keeps its number, and a line that is new gets one between those
//! of its neighbours.
//!
//! Lines are words to this crate, bytes that are the same or aren't. Which lines are the same is told from the front
//! (`keeping`): where the two lists differ, either the older line is gone or the new one is new, and that one of the two is
//! looked for which comes again sooner in the other list. Numbers come then (`numbering`).
//!
//! # Decided
//! - **Where two lists differ, the line stays that comes again sooner**, and where both come as soon, the older one. It keeps
//!   all numbers where one line comes in between (a law), and where one goes whose words come once; and all but one where a
//!   line is moved and no words come twice. The most lines that can be kept would take a table of 4,096 times 4,096 places,
//!   for lists that were changed throughout.
//! - **Several lines that come between two part the numbers between them evenly**, one gets the middle. Behind the last line
//!   that is kept numbers are tens above it.
//! - **Where no number is left between two lines, all lines are numbered anew by tens**, and it is said; elsewhere none is (a
//!   law). To move a few lines alone would leave the next change without room there.
//! - **The older list needn't be in order.** Where numbers of lines that would stay don't rise, there is no room either.
#![tactic(auto)]

mod keeping;
mod laws;
mod numbering;
mod older;
mod words;

pub use keeping::kept;
pub use laws::{
    a_line_less_keeps_others, a_line_more_keeps_all, kept_lines_are_older_ones,
    kept_where_there_is_room, new_lists_are_by_tens, numbers_rise, same_list_same_numbers,
    scripts_are_read_back,
};
pub use numbering::{MOST_LINES, Numbers, numbered, numbers_for};
pub use older::older_lines;
pub use words::{OlderLine, Words};

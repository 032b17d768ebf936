//! `ip -j route show` as a script: an array of JSON, an object a route.
//!
//!     [{"dst":"default","gateway":"192.0.2.1","dev":"eth0","flags":[]}]     # 1 = via 192.0.2.1 dev eth0
//!                                                                           route add 0.0.0.0/0 1
//!                                                                           commit
//!
//! A value is the line that `ip -o route show` prints of the same route, word for word: its members come to words in their
//! order (`line`), and that line is told as `ip_routes` tells one. So both forms of one table have one script.
//!
//! # Decided
//! - **The input is read to its end before anything is written**: a text is JSON as a whole, or not at all. So a script is of
//!   a whole table, or says that there is none. Price: the memory of the text, of its values and of the script.
//! - **Members come to words in their order**, as `ip` prints them, the kind and the prefix first. Where another program has
//!   sorted them the first word is no prefix, and the route is named.
//! - **Each key is known, or the route is named**: an unknown one may say that a route holds for some packets alone.
//! - **A text of the input is one word, or the route is named**: a space in it would be read as two.
#![tactic(auto)]

mod address;
mod hops;
mod items;
mod line;
mod parts;
mod routes;
mod script;
mod text;
mod top;

pub use line::{named_key, text_of};
pub use script::{put_left_out, put_left_out_count, put_stop};
pub use top::{Unread, import_json, read_all};

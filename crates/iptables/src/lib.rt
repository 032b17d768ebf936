//! `iptables-save` as a script of an access list: the chain of the table filter that packets meet first, written out.
//!
//!     *filter
//!     :INPUT DROP [0:0]
//!     :own - [0:0]
//!     -A INPUT -s 192.0.2.0/24 -j own
//!     -A INPUT -p tcp -m tcp --dport 22 -j ACCEPT    acl add 10 permit 192.0.2.0/24 any udp any 53
//!     -A own -p udp -m udp --dport 53 -j ACCEPT      acl add 20 permit any any tcp any 22
//!     COMMIT                                         acl add 30 deny any any any any any
//!     ..                                             commit
//!
//! A chain may be jumped to before its rules come, so rules are kept, and the list is what the line `COMMIT` comes to. What
//! it says of jumps and returns is `written_chains`'.
//!
//! A line is first told what it is, by the table in which it stands (`lines`). A rule is read word by word, by what the word
//! before it asks for (`reading`); what a value says, behind `!` or not, is a list of tests (`values`).
//!
//! # Decided
//! - **A word that isn't known isn't passed over**: it may say that the rule holds for some packets alone.
//! - **A rule without a verdict has no part in the answer**, whatever it tests: one that logs, and one without a target.
//!   It is a comment.
//! - **Rules of the two other chains that packets meet first have no part either**: nothing jumps to them. Those of all other
//!   chains are read, whether this one leads to them or not: that isn't known before the last line.
//! - **A rule that tests several values, or all but some, is several rules of one target**: one for each way to take a test of
//!   each of its options, where these hold together.
//! - **A list is for the packets of one interface, where one is asked for** (`faces`): a rule of that one tests nothing by it,
//!   and a rule of another one holds no packet. Without one a rule that names an interface isn't said.
//! - **A rule that holds no packet is a comment**, as one without a verdict.
//! - **Lines are numbered by tens**, so that a rule that comes to stand between two of them shows in a comparison as one.
#![tactic(auto)]

mod blocks;
mod faces;
mod fields;
mod format;
mod laws;
mod lines;
mod names;
mod passing;
mod ports;
mod protos;
mod reading;
mod spans;
mod targets;
mod telling;
mod values;
mod why;
mod words;

pub use faces::FaceName;
pub use fields::any_tests;
pub use format::Iptables;
pub use laws::{lists_come_again, values_hold};
pub use lines::Hook;
pub use ports::has_ports;
pub use protos::proto_named;
pub use telling::{MOST_LINES, put_list};

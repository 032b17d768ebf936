//! `ip route show` as a script of routes: the lines that `ip -o route show`, or `ip -6 -o route show`, prints of one table.
//!
//!     default via 192.0.2.1 dev eth0 metric 100       # 1 = via 192.0.2.1 dev eth0
//!                                                     route add 0.0.0.0/0 1
//!     default via 198.51.100.1 dev eth1 metric 200    # kept: 0.0.0.0/0 metric 200 via 198.51.100.1 dev eth1
//!     blackhole 10.3.0.0/16                           # 2 = blackhole
//!                                                     route add 10.3.0.0/16 2
//!     10.8.0.0/16 tos 0x10 via 192.0.2.1 dev eth0     not said: type of service: tos
//!     ..                                              commit
//!
//! A route's answer is a number, so where it goes gets one: the words behind the prefix that say it (`via`, `dev`, `nexthop`,
//! `weight`) are its **next hop**, and `blackhole`, `unreachable` and `prohibit` are one each. Numbers are given in the order
//! in which they come up, from 1, and a comment says what a number stands for before its first use.
//!
//! A line is cut into words (`words`), read word by word by what the word before it asks for (`reading`), and then told by
//! what is known of the lines before it (`telling`): which next hops have a number, and the route that was said last.
//!
//! # Decided
//! - **A word that isn't known isn't passed over**: it may say that the route holds for some packets alone. Those that say
//!   where a route came from, what it is to a packet's sender or how it is sent are known, and have no part in the answer
//!   (`Attribute::Skipped`).
//! - **Of one prefix the route of least metric counts, the first of equals**, as in the kernel; the others are comments. The
//!   kernel prints the routes of a prefix one after the other, the least metric first, in both versions of IP. So the route
//!   said last is all that is known of the others, and an import of a million routes keeps its next hops alone. Where another
//!   program has put them in another order a lesser metric isn't said, and of a prefix that comes again elsewhere the script
//!   has two additions, at which its commit is refused.
//! - **A set of next hops is one number**, by its words: how packets are shared among them is the hardware's.
//! - **A prefix is written as it was printed**, with the length of an address behind an address alone.
#![tactic(auto)]

mod attributes;
mod format;
mod hops;
mod reading;
mod telling;
mod words;

pub use attributes::{RouteKind, Why, is_another_kind, is_named, kind_of};
pub use format::IpRoutes;
pub use hops::{Hops, number_way};
pub use reading::Reading;
pub use telling::{put_why, shortened};
pub use words::first_word;

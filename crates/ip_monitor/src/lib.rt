//! `ip monitor route` as a script of changes: the lines that `ip -o monitor route` prints, an event each.
//!
//!     10.0.0.0/8 via 192.0.2.1 dev eth0 metric 20             # 1 = via 192.0.2.1 dev eth0
//!                                                             route put 10.0.0.0/8 1
//!                                                             commit
//!     10.0.0.0/8 via 192.0.2.2 dev eth0 metric 10             # 2 = via 192.0.2.2 dev eth0
//!                                                             route put 10.0.0.0/8 2
//!                                                             commit
//!     Deleted 10.0.0.0/8 via 192.0.2.2 dev eth0 metric 10     route put 10.0.0.0/8 1
//!                                                             commit
//!     local 192.0.2.5 dev eth0 table local ..                 # another table: local
//!
//! A line tells of a route that stands now, or behind `Deleted` of one that goes. Its route is read as `ip_routes` reads one,
//! and its next hop has a number as there. What a kernel answers for a prefix is its route of least metric: so of each prefix
//! all routes are known that the events tell of (`standings`), and behind an event its prefix is given the least of these,
//! or dropped where none is left (`telling`). Each event is a commit of its own.
//!
//! # Decided
//! - **A route that stands takes the place of the one of its prefix and metric**: so a kernel tells of `replace` and `change`,
//!   and in IPv6 of `append` too, with all next hops. What it tells of `append` in IPv4 looks the same.
//! - **A route that goes is the one that is known**: where that one has another next hop the event isn't said, since a part of
//!   a set goes then, or a route that was appended. One that isn't known may go: it was there before the first event.
//! - **In IPv6 a route that a router advertised takes no other's place**: two routers' may have the same metric, and which of
//!   them counts rests on the neighbours that are reached. So it isn't said.
//! - **An event of another table, or of the other version of IP, is said by a comment**: it doesn't change the table that the
//!   script is of, and a monitor tells of all of them.
//! - **Whether a route was in use doesn't matter where it goes.**
//! - **A prefix whose last route went is still known**, with no route, so that the table of metrics has at most a place for
//!   each prefix that ever came.
#![tactic(auto)]

mod events;
mod format;
mod laws;
mod ranks;
mod standings;
mod telling;

pub use format::IpMonitor;
pub use laws::least_metrics_count;

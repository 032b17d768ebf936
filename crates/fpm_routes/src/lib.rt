//! A routing daemon's FPM stream as a script of changes: the netlink messages that FRR's zebra sends by its module `dplane_fpm_nl`.
//!
//!     NEWNEXTHOP 20: via 192.0.2.1, device 3              # nhid 20 = via 192.0.2.1 dev if3
//!     NEWROUTE 10.0.0.0/8, object 20                      # 1 = nhid 20
//!                                                         route put 10.0.0.0/8 1
//!                                                         commit
//!     DELROUTE 10.0.0.0/8; NEWROUTE 10.0.0.0/8, blackhole # 2 = blackhole
//!                                                         route drop 10.0.0.0/8
//!                                                         route put 10.0.0.0/8 2
//!                                                         commit
//!
//! The messages of a frame are read one by one (`changes`): by their kind, the fields at the head of a route or of a next hop's
//! object, and their attributes (`attributes`), which say a route's prefix, table and next hop. Then each change has a line, and
//! a frame that changes something is a commit (`telling`). Of the commands of a commit that are about one prefix the last counts,
//! so a route that is deleted and added in one frame is one write.
//!
//! # Decided
//! - **A route that names a next hop's object gives the number of that name**, `nhid 20`: what it stands for is told by a comment
//!   whenever the daemon says it. So a change of an object is no change of a route, here as there.
//! - **A device is a number**, `dev if3`: a stream has no names of devices.
//! - **Each message and each attribute is known, or the frame isn't said**: an unknown one may say that a route holds for some
//!   packets alone. Those that say where a route came from or how packets are sent have no part in the answer.
//! - **A prefix has one route**: the daemon sends the one that it has chosen, so priorities have no part either.
//! - **All messages of a frame are read before any is told**: a frame is said as a whole, or not at all.
//! - **Numbers in messages have their low byte first**, as on every machine that the daemon's packages are for here.
#![tactic(auto)]

mod attributes;
mod bytes;
mod changes;
mod format;
mod telling;
mod ways;
mod why;

pub use format::FpmRoutes;

//! Extended access lists of Cisco IOS and Arista EOS as a script of an access list: the lines that
//! `show running-config | section access-list` prints, of which one list is taken.
//!
//!     ip access-list extended EDGE                              # list: EDGE
//!      permit tcp any host 192.0.2.10 eq www 443                acl add 10 permit any 192.0.2.10/32 tcp any 80
//!                                                               acl add 11 permit any 192.0.2.10/32 tcp any 443
//!      deny ip 10.0.0.0 0.255.255.255 any log                   # logged
//!                                                               acl add 20 deny 10.0.0.0/8 any any any any
//!      permit tcp any any established                           not said: established: established
//!                                                               acl add 4294967295 deny any any any any any
//!                                                               commit
//!
//! An entry's place in the list is its number, and the first one that holds answers, as in a script. So each line is told as
//! it is read (`format`), by its first word (`first_words`), the list that it stands in, which may be another one, and the
//! last number that was given. The words of an entry are walked by a cursor (`cursor`) that keeps the first fault and the
//! word at it: an action, a protocol (`names`), two sides (`sides`) with their ports (`ports`), and what may stand behind
//! them (`entry`). Then its lines are written (`telling`), one for each pair of a range of its source ports and one of its
//! destination ports.
//!
//! # Decided
//! - **A cursor has the fault, and no call answers one**: at the first fault no word is left, so what is read behind it is
//!   nothing, and an entry is asked once, at its end, whether it was one.
//! - **Numbers grow, or the line isn't said.** Both systems print a list by its numbers. An entry that takes several lines
//!   takes the numbers behind its own too, and where the next entry has one of these that one is named. So is a number behind
//!   an entry that shows none: that one has a number of the system's own, so which of the two comes first isn't known.
//! - **The deny at the end is written out**: a script answers nothing where no rule holds. A list without an entry has none,
//!   since an empty list permits or denies by the system; its script ends with the line `end of input: no entries`, and no
//!   commit.
//! - **Which list a line stands in is told by the lines above it alone**, not by how far it is indented.
//! - **A list of IPv6 isn't taken**: behind its last entry IOS permits two types of ICMP, which no rule of a script tells
//!   apart.
#![tactic(auto)]

mod cursor;
mod entry;
mod first_words;
mod format;
mod names;
mod ports;
mod sides;
mod telling;
mod why;

pub use format::CiscoList;
pub use why::Why;

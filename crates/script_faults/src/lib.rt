//! What is wrong with a line of a script: which word, and what was meant.
//!
//! The readers of both kinds of script (`route_reader`, `acl_reader`) say that a line is at fault, and name the fault. Here
//! the words are looked at again where one did: [`trouble_of`] says which word it is and why, and [`tell_trouble`] writes a
//! sentence of it, with the word.
//!
//!     word 6, 10.0.0.1: an address alone is 10.0.0.1/32
//!     word 3, /33: at most 32
//!     word 3, 10.1.2.3/8: bits past the length; 10.0.0.0/8?
//!     word 4 is missing, of PREFIX RESULT
//!
//! # How it stands
//! `forms` has the words that each command takes, `places` finds the words of a line, `search` the one that is at fault. The
//! other files have the sentences, one for each kind of word.
//!
//! # What is promised
//! A trouble comes exactly where the reader answers a fault, and has that fault (`trouble_of`). A word that it names as bad
//! has this fault, as a word of its kind; in the place of one that is missing none stands, or one that isn't of its kind; and
//! one too many is there (`IsAtFault` of `specs/Troubles`). The sentences, and that the word is the leftmost one, are tested.
//!
//! # Decided
//! - **The reader decides, and the search explains.** Of a script of one table nothing here says whether a line is right: no
//!   change of a reader can part the two. Of a router's it is said here too which commands it has none of. The search looks
//!   for the leftmost word that has the reader's fault; where it found none, the fault would be told by its own text
//!   (`Unexplained`). That there always is one is tested, and no clause says it.
//! - **A word has the number of its place, from 1**, and no column of bytes: blanks part words in any number, and an editor
//!   shows the line. A word that is missing has the number that it would have: where the next one stands in its place, the
//!   number of that one, which is named.
//! - **What is wrong may be a part of the word**, as the length of a prefix or one number of an address: that part stands
//!   before the colon.
#![tactic(auto)]

mod actions;
mod addresses;
mod commands;
mod forms;
mod frames;
mod numbers;
mod parts;
mod places;
mod ports;
mod prefixes;
mod protocols;
mod search;
mod sentence;

pub use forms::{Form, Grammar, Kind};
pub use prefixes::write_address;
pub use search::{Trouble, Why, trouble_of};
pub use sentence::tell_trouble;

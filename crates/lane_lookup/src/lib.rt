//! The slots of a ternary memory as columns, so that a look-up tries eight slots at a time.
//!
//! A look-up compares each slot's value with the word, under the slot's mask, on eleven lanes. Kept slot by
//! slot, the lanes of one slot stand side by side; kept as columns, one lane of many slots does, and one step
//! on a vector of eight takes that lane of eight slots. The bits that keep a slot from hitting, lane by lane
//! `(word ^ value) & mask`, are joined by `|`, so a slot hits where nothing is left, and one comparison with 0
//! finds the first of the eight. An empty slot has a bit of its own that keeps it from hitting, since its
//! columns say nothing.
//!
//! A lane in which every mask is 0 keeps no slot from hitting. So the lanes in which some mask was ever other
//! than 0 are listed, and only those are looked at: lanes that IPv4 never uses cost a look-up nothing, and a
//! table of destination prefixes costs it one lane. A step also ends once no slot of the eight can hit any more,
//! and the next begins with the lane that ended it: hosts of one IPv6 network differ in their last lane alone.
//! `set` lists the lanes anew, in memory that `new` took.
//!
//! The slots that are left after the last full eight are tried one by one, by their entries.
#![tactic(auto)]

mod column;
mod columns;
mod eight;

pub use columns::Columns;

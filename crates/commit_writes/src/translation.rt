//! The translation tables of a manager: which port ranges have bits, and the words that the device has for them.
//!
//! A port range that isn't one block is tested by a bit of its field, which the field's table has set at exactly the
//! range's ports. So the manager keeps, for each field, the live ranges by their bits ([`FieldBits`]), and both tables
//! as they stand in the device ([`Tables`]), by which it knows which words a new bit changes. A commit
//!
//! 1. is refused where its additions need more bits than are free (`needed`, `free`),
//! 2. gives each new range the least free bit (`with_new`), and first writes each word that differs, once for all new
//!    bits (`Tables::plan_words`),
//! 3. and when it has finished, gives up the bits of ranges that no rule has any more (`released`). Their words stay as
//!    they are: no entry tests a free bit.
//!
//! What a set and a batch need is told by their rules alone, too (`free_bits`, `added_ranges`), and
//! whether live ranges are those of a set (`is_map_of`).
//!
//! Contracts see the live ranges as `commit_writes/specs/Bits` has them, and the tables as a state without slots.
//! Memory is taken for the tables once, and for the plan of words.
//!
//! # Decided
//! - **The manager keeps both tables as they stand in the device**, 128 KiB each, by bits alone. Only words that differ
//!   are written, a device isn't asked what it holds, and the words of a bit that was given up stay, so the live ranges
//!   don't tell them. The price is that memory, and at the end of a commit a walk of its writes.
//! - **The new ranges of a batch are counted without memory**, each addition against those before it, so the time grows
//!   with the square of the additions whose range has no bit; every refusal comes before memory is asked for.
//! - **What is needed is told by the rules alone, too**, with the counts of the verdict: who judges a batch or reads a
//!   device back has no manager. By `free` and `needed` a manager tells it quicker, from the live ranges. None of these
//!   takes memory.

mod counts;
mod maps;
mod ranges;
mod tables;

pub use counts::{added_ranges, free_bits};
pub use maps::is_map_of;
pub use ranges::FieldBits;
pub use tables::{TableWord, Tables};

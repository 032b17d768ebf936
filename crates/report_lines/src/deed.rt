//! A device write as people read it: what it does, by what the slots hold before it.

use rule_model::{Entry, Field, Rank};

/// What a device write does.
#[derive(Clone, Copy, Debug, PartialEq, Eq)]
pub enum Deed {
    /// A slot gets an entry that no slot has.
    New { slot: u32, entry: Entry },
    /// A slot gets an entry that another one has too.
    Copied { slot: u32, from: u32, entry: Entry },
    /// The entry that a slot has gets its result.
    Rewritten { slot: u32, entry: Entry },
    /// A slot is emptied of an entry of the rule of this priority, or of nothing.
    Erased { slot: u32, tag: Option<Rank> },
    /// A word is put into the table of a field, at a port.
    Word { field: Field, port: u16, word: u16 },
}

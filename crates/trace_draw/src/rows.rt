//! The rows of a picture of commits.

use crate::ends::Ends;
use crate::labels::Label;
use rule_model::Field;
use std::alloc::{AllocError, Global};

/// What a write does to its slot.
#[derive(Clone, Copy, Debug, PartialEq, Eq)]
pub(crate) enum Kind {
    /// It puts an entry that no slot has.
    New,
    /// It puts an entry that another slot has.
    Copy,
    /// It puts the entry that stands there, with its result.
    Result,
    /// It empties the slot.
    Erase,
}

/// A write of a slot.
#[derive(Clone, Copy, Debug)]
pub(crate) struct SlotWrite {
    pub(crate) kind: Kind,
    pub(crate) slot: u32,
    /// Which of the commit's writes it is, from 1.
    pub(crate) number: u64,
    /// Of a copy, which move of its insertion, from 1.
    pub(crate) step: u64,
    pub(crate) before: Option<Label>,
    pub(crate) now: Option<Label>,
    /// Another slot that has the entry which is put or erased.
    pub(crate) other: Option<u32>,
}

/// How many words of a field's table were written, and the least and the greatest port.
#[derive(Clone, Copy, Debug)]
pub(crate) struct Ports {
    pub(crate) count: u64,
    pub(crate) low: u16,
    pub(crate) high: u16,
}

impl Ports {
    /// No word.
    fn none() -> Ports {
        Ports {
            count: 0,
            low: u16::MAX,
            high: 0,
        }
    }

    /// With a word more.
    fn with(self, port: u16) -> Ports {
        Ports {
            count: self.count.saturating_add(1),
            low: self.low.min(port),
            high: self.high.max(port),
        }
    }
}

/// Words of the tables that were written one behind the other.
#[derive(Clone, Copy, Debug)]
pub(crate) struct Words {
    pub(crate) src: Ports,
    pub(crate) dst: Ports,
}

impl Words {
    /// No word.
    fn none() -> Words {
        Words {
            src: Ports::none(),
            dst: Ports::none(),
        }
    }

    /// With a word more.
    fn with(self, field: Field, port: u16) -> Words {
        match field {
            Field::Src => Words {
                src: self.src.with(port),
                dst: self.dst,
            },
            Field::Dst => Words {
                src: self.src,
                dst: self.dst.with(port),
            },
        }
    }
}

/// A row of a picture.
#[derive(Clone, Copy, Debug)]
pub(crate) enum Row {
    /// A commit begins.
    Begins(u32),
    /// A commit was refused.
    Refused(u32),
    Slot(SlotWrite),
    Words(Words),
    Drain,
}

/// How much there is of what a picture shows.
#[derive(Clone, Copy, Debug)]
pub(crate) struct Counts {
    pub(crate) adds: u64,
    pub(crate) sets: u64,
    pub(crate) dels: u64,
    pub(crate) writes: u64,
    pub(crate) words: u64,
}

impl Counts {
    /// Nothing.
    pub(crate) fn none() -> Counts {
        Counts {
            adds: 0,
            sets: 0,
            dels: 0,
            writes: 0,
            words: 0,
        }
    }
}

/// The rows of the commits that are wanted, and how much there is of them.
#[derive(Drop)]
pub(crate) struct Rows {
    pub(crate) rows: Ends<Row>,
    pub(crate) counts: Counts,
    /// The first and the last commit of which there are rows.
    pub(crate) commits: Option<(u32, u32)>,
    // words behind which no other row stands yet
    open: Option<Words>,
}

impl Rows {
    /// No rows. Takes no memory.
    pub(crate) fn new(alloc: Global) -> Rows {
        Rows {
            rows: Ends::new(alloc),
            counts: Counts::none(),
            commits: None,
            open: None,
        }
    }

    /// No rows any more.
    pub(crate) fn clear(&mut self) {
        self.rows.clear();
        self.counts = Counts::none();
        self.commits = None;
        self.open = None;
    }

    /// The row with which a commit begins, or which tells that it was refused.
    pub(crate) fn begin(&mut self, commit: u32, row: Row) -> Result<(), AllocError> {
        self.commits = match self.commits {
            Some((first, _)) => Some((first, commit)),
            None => Some((commit, commit)),
        };
        self.push(row)
    }

    /// A row more.
    pub(crate) fn push(&mut self, row: Row) -> Result<(), AllocError> {
        self.close_words()?;
        self.rows.push(row)
    }

    /// A word of a table more.
    pub(crate) fn push_word(&mut self, field: Field, port: u16) {
        let words = match self.open {
            Some(words) => words,
            None => Words::none(),
        };
        self.open = Some(words.with(field, port));
        self.counts.words = self.counts.words.saturating_add(1);
    }

    /// The words behind which no row stands get theirs.
    pub(crate) fn close_words(&mut self) -> Result<(), AllocError> {
        if let Some(words) = self.open {
            self.rows.push(Row::Words(words))?;
            self.open = None;
        }
        Ok(())
    }
}

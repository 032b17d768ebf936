//! What is known of a trace so far: where it stands, what the slots hold, and the rows that a picture gets of it.

use crate::asked::Wanted;
use crate::ends::Ends;
use crate::labels::{Head, Label};
use crate::levels::{Level, used_of, used_parts};
use crate::places::Place;
use crate::rows::{Kind, Row, Rows, SlotWrite};
use crate::table::{Table, is_same};
use rule_model::{Entry, Field, IpVersion};
use std::alloc::{AllocError, Global};
use trace_file::TraceLine;

/// Why a line isn't taken.
#[derive(Clone, Copy, Debug, PartialEq, Eq)]
pub(crate) enum TakeFault {
    /// It may not stand there.
    Misplaced,
    /// Want of memory.
    Memory,
}

/// How far a commit is.
#[derive(Clone, Copy, Debug)]
struct Progress {
    // writes of slots, words of tables, writes since the last new entry, copies since it, the most writes of an insertion
    writes: u64,
    words: u64,
    since: u64,
    steps: u64,
    most: u64,
}

impl Progress {
    /// Before the first write.
    fn none() -> Progress {
        Progress {
            writes: 0,
            words: 0,
            since: 0,
            steps: 0,
            most: 0,
        }
    }

    /// Behind a write of a slot.
    fn behind(self, kind: Kind) -> Progress {
        let writes = self.writes.saturating_add(1);
        let since = self.since.saturating_add(1);
        match kind {
            Kind::New => Progress {
                writes,
                since: 0,
                steps: 0,
                most: self.most.max(since),
                words: self.words,
            },
            Kind::Copy => Progress {
                writes,
                since,
                steps: self.steps.saturating_add(1),
                ..self
            },
            Kind::Result | Kind::Erase => Progress {
                writes,
                since,
                ..self
            },
        }
    }
}

/// What is known of a trace so far.
#[derive(Drop)]
pub(crate) struct Tracer {
    alloc: Global,
    wanted: Wanted,
    place: Place,
    table: Table,
    // of the commit under way: its number, and how far it is
    commit: u32,
    progress: Progress,
    pub(crate) head: Head,
    pub(crate) rows: Rows,
    pub(crate) levels: Ends<Level>,
}

impl Tracer {
    /// Before the first line.
    pub(crate) fn new(alloc: Global, wanted: Wanted) -> Result<Tracer, AllocError> {
        let table = Table::blank(alloc, 0)?;
        Ok(Tracer {
            alloc,
            wanted,
            place: Place::AtStart,
            table,
            commit: 0,
            progress: Progress::none(),
            head: Head {
                version: IpVersion::V4,
                acl: false,
                bits: false,
                slots: 0,
            },
            rows: Rows::new(alloc),
            levels: Ends::new(alloc),
        })
    }

    /// Whether the trace is whole.
    pub(crate) fn is_whole(&self) -> bool {
        matches!(self.place, Place::AtEnd)
    }

    /// How many commits there were so far, the one under way and refused ones too.
    pub(crate) fn commits(&self) -> u32 {
        self.commit
    }

    /// Takes the next line, if it may stand there.
    pub(crate) fn take(&mut self, line: &TraceLine) -> Result<(), TakeFault> {
        let Some(place) = self.place.after(self.head.slots, line) else {
            return Err(TakeFault::Misplaced);
        };
        self.place = place;
        match self.note(line) {
            Ok(()) => Ok(()),
            Err(AllocError) => Err(TakeFault::Memory),
        }
    }

    /// Keeps what a line tells.
    fn note(&mut self, line: &TraceLine) -> Result<(), AllocError> {
        match line {
            TraceLine::Head {
                version,
                acl,
                bits,
                slots,
            } => self.begin_trace(Head {
                version: *version,
                acl: *acl,
                bits: *bits,
                slots: *slots,
            }),
            TraceLine::Commit(number) => self.begin_commit(*number),
            TraceLine::Refused(number) => self.refuse(*number),
            TraceLine::Done(_) => self.finish(),
            TraceLine::Put(slot, entry) => self.write(*slot, Some(*entry)),
            TraceLine::Erase(slot) => self.write(*slot, None),
            TraceLine::Table(field, port, _) => {
                self.write_word(*field, *port);
                Ok(())
            }
            TraceLine::Drain => self.drain(),
            TraceLine::Add(_) | TraceLine::Set(_, _) | TraceLine::Del(_) => {
                self.count_command(line);
                Ok(())
            }
            TraceLine::End(_) | TraceLine::Fault(_) => Ok(()),
        }
    }

    /// A blank table of so many slots.
    fn begin_trace(&mut self, head: Head) -> Result<(), AllocError> {
        self.table = Table::blank(self.alloc, head.slots)?;
        self.head = head;
        Ok(())
    }

    /// Whether the commit under way gets rows.
    fn has_rows(&self) -> bool {
        match self.wanted {
            Wanted::Last => true,
            Wanted::Commits { first, last } => first <= self.commit && self.commit <= last,
            Wanted::Occupancy => false,
        }
    }

    /// A commit begins that is carried out.
    fn begin_commit(&mut self, number: u32) -> Result<(), AllocError> {
        self.commit = number;
        self.progress = Progress::none();
        if self.wanted == Wanted::Last {
            self.rows.clear();
        }
        if self.has_rows() {
            self.rows.begin(number, Row::Begins(number))?;
        }
        Ok(())
    }

    /// A commit was refused. The last one that was carried out stays the last.
    fn refuse(&mut self, number: u32) -> Result<(), AllocError> {
        self.commit = number;
        self.progress = Progress::none();
        if self.has_rows() && self.wanted != Wanted::Last {
            self.rows.begin(number, Row::Refused(number))?;
        }
        self.push_level(true)
    }

    /// The commit under way is done.
    fn finish(&mut self) -> Result<(), AllocError> {
        if self.has_rows() {
            self.rows.close_words()?;
        }
        self.push_level(false)
    }

    /// A command of the commit under way.
    fn count_command(&mut self, line: &TraceLine) {
        if !self.has_rows() {
            return;
        }
        let counts = &mut self.rows.counts;
        match line {
            TraceLine::Add(_) => counts.adds = counts.adds.saturating_add(1),
            TraceLine::Set(_, _) => counts.sets = counts.sets.saturating_add(1),
            TraceLine::Del(_) => counts.dels = counts.dels.saturating_add(1),
            _ => {}
        }
    }

    /// A slot holds this from now on.
    fn write(&mut self, slot: u32, held: Option<Entry>) -> Result<(), AllocError> {
        if self.has_rows() || self.wanted == Wanted::Occupancy {
            self.judge(slot, &held)?;
        }
        self.table.set(slot, held);
        Ok(())
    }

    /// What a write does to its slot, before it is made.
    fn judge(&mut self, slot: u32, held: &Option<Entry>) -> Result<(), AllocError> {
        let before = self.table.get(slot);
        let other = self.other(slot, &before, held);
        let kind = kind_of(&before, held, other);
        self.progress = self.progress.behind(kind);
        if !self.has_rows() {
            return Ok(());
        }
        let write = SlotWrite {
            kind,
            slot,
            number: self.progress.writes,
            step: self.progress.steps,
            before: self.label(&before),
            now: self.label(held),
            other,
        };
        self.rows.counts.writes = self.rows.counts.writes.saturating_add(1);
        self.rows.push(Row::Slot(write))
    }

    /// Another slot that has the entry which is put, or which is erased.
    fn other(&self, slot: u32, before: &Option<Entry>, held: &Option<Entry>) -> Option<u32> {
        match (held, before) {
            (Some(entry), _) | (None, Some(entry)) => self.table.other(slot, entry),
            (None, None) => None,
        }
    }

    /// What a slot holds, in a picture.
    fn label(&self, held: &Option<Entry>) -> Option<Label> {
        match held {
            Some(entry) => Some(Label::of(&self.head, entry)),
            None => None,
        }
    }

    /// A word of a table.
    fn write_word(&mut self, field: Field, port: u16) {
        self.progress.words = self.progress.words.saturating_add(1);
        if self.has_rows() {
            self.rows.push_word(field, port);
        }
    }

    /// A drain.
    fn drain(&mut self) -> Result<(), AllocError> {
        if self.has_rows() {
            self.rows.push(Row::Drain)
        } else {
            Ok(())
        }
    }

    /// How full the table is behind a commit.
    fn push_level(&mut self, refused: bool) -> Result<(), AllocError> {
        if self.wanted != Wanted::Occupancy {
            return Ok(());
        }
        self.levels.push(Level {
            commit: self.commit,
            refused,
            used: used_of(&self.table),
            parts: used_parts(&self.table, self.head.slots),
            writes: self.progress.writes,
            words: self.progress.words,
            most: self.progress.most,
        })
    }
}

/// What a write does to a slot, by what it held, by what it gets, and by another slot that has that too.
fn kind_of(before: &Option<Entry>, held: &Option<Entry>, other: Option<u32>) -> Kind {
    match (before, held) {
        (_, None) => Kind::Erase,
        (Some(before), Some(held)) if is_same(before, held) => Kind::Result,
        _ if other.is_some() => Kind::Copy,
        _ => Kind::New,
    }
}

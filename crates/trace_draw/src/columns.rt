//! The columns of a picture of commits: the slots that its writes touch.

use crate::ends::{AT_EITHER_END, Ends};
use crate::labels::Label;
use crate::rows::{Row, SlotWrite};
use crate::shapes::letters_width;
use std::alloc::{AllocError, Global};

/// Where the first column begins: the numbers of writes stand before it.
pub(crate) const LEFT: u64 = 64;

/// What stands between two columns.
const BETWEEN: u64 = 16;

/// How wide a gap is.
const GAP: u64 = 80;

/// A column: a slot, the slots before it that no write touches, its place, and what the slot holds from where on.
#[derive(Clone, Copy, Debug)]
pub(crate) struct Column {
    pub(crate) slot: u32,
    pub(crate) gap: Option<(u32, u32)>,
    pub(crate) left: u64,
    pub(crate) width: u64,
    pub(crate) holds: Option<Label>,
    pub(crate) since: u64,
}

impl Column {
    /// The middle of the column.
    pub(crate) fn middle(&self) -> u64 {
        self.left.saturating_add(self.width / 2)
    }
}

/// The columns, where they end, and the slots behind the last one.
#[derive(Drop)]
pub(crate) struct Columns {
    pub(crate) list: Vec<Column>,
    pub(crate) gap: Option<(u32, u32)>,
    pub(crate) end: u64,
}

/// What the writes of a picture tell of a slot: how wide its texts are, 0 where none touches it, and what it held first,
/// where that is known.
#[derive(Clone, Copy)]
struct Touched {
    width: u64,
    known: bool,
    held: Option<Label>,
}

impl Touched {
    /// No write touches it.
    fn not() -> Touched {
        Touched {
            width: 0,
            known: false,
            held: None,
        }
    }

    /// With a text of this width, and what it held then, if that is to be kept.
    fn with(self, width: u64, keeps: bool, held: Option<Label>) -> Touched {
        let is_first = keeps && !self.known;
        Touched {
            width: self.width.max(width),
            known: self.known || keeps,
            held: if is_first { held } else { self.held },
        }
    }
}

/// The columns of these rows, over so many slots.
pub(crate) fn columns_of(
    alloc: Global,
    rows: &Ends<Row>,
    slots: u32,
) -> Result<Columns, AllocError> {
    let mut touched = vec![in alloc; Touched::not(); slots as usize]?;
    for place in 0..rows.shown() {
        let keeps = rows.left_out() == 0 || place < AT_EITHER_END;
        if let Some(Row::Slot(write)) = rows.get(place) {
            touch(alloc, &mut touched, &write, keeps)?;
        }
    }
    place_columns(alloc, touched.as_slice(), slots)
}

/// A write touches its slot, and a copy the one that it is a copy of.
fn touch(
    alloc: Global,
    touched: &mut Vec<Touched>,
    write: &SlotWrite,
    keeps: bool,
) -> Result<(), AllocError> {
    let now = label_width(alloc, &write.now)?;
    let before = label_width(alloc, &write.before)?;
    note(touched, write.slot, now.max(before), keeps, write.before);
    if let Some(other) = write.other {
        let held = if write.now.is_some() {
            write.now
        } else {
            write.before
        };
        note(touched, other, now.max(before), keeps, held);
    }
    Ok(())
}

/// A slot is touched.
fn note(touched: &mut Vec<Touched>, slot: u32, width: u64, keeps: bool, held: Option<Label>) {
    if let Some(place) = touched.get_mut(slot as usize) {
        *place = place.with(width, keeps, held);
    }
}

/// How wide a cell of this label is, with its sign.
fn label_width(alloc: Global, label: &Option<Label>) -> Result<u64, AllocError> {
    match label {
        Some(label) => {
            let text = format!(in alloc; "{label}")?;
            Ok(letters_width(text.len()).saturating_add(38))
        }
        None => Ok(72),
    }
}

/// The columns of the slots that are touched, from left to right.
fn place_columns(alloc: Global, touched: &[Touched], slots: u32) -> Result<Columns, AllocError> {
    let mut columns = Columns {
        list: Vec::new(alloc),
        gap: None,
        end: LEFT,
    };
    for slot in 0..slots {
        if let Some(touch) = touched.get(slot as usize) {
            columns.add(slot, touch)?;
        }
    }
    if columns.gap.is_some() {
        columns.end = columns.end.saturating_add(GAP);
    }
    Ok(columns)
}

impl Columns {
    /// The next slot gets a column, or is one more of a gap.
    fn add(&mut self, slot: u32, touch: &Touched) -> Result<(), AllocError> {
        if touch.width == 0 {
            self.gap = match self.gap {
                Some((first, _)) => Some((first, slot)),
                None => Some((slot, slot)),
            };
            return Ok(());
        }
        let left = if self.gap.is_some() {
            self.end.saturating_add(GAP)
        } else {
            self.end
        };
        self.list.push(Column {
            slot,
            gap: self.gap,
            left,
            width: touch.width,
            holds: touch.held,
            since: 0,
        })?;
        self.gap = None;
        self.end = left.saturating_add(touch.width).saturating_add(BETWEEN);
        Ok(())
    }

    /// The place of a slot's column in the list.
    pub(crate) fn place_of(&self, slot: u32) -> Option<usize> {
        self.list.iter().position(|column| column.slot == slot)
    }

    /// A slot's column.
    pub(crate) fn get(&self, slot: u32) -> Option<Column> {
        let place = self.place_of(slot)?;
        self.list.get(place).copied()
    }
}

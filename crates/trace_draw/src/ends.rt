//! A list of any length of which a picture shows all, or where it is too long, the first and the last.

use std::alloc::{AllocError, Global};

/// The most that a picture shows all of.
pub(crate) const MOST_SHOWN: usize = 4_096;

/// How many it shows at either end of a longer list.
pub(crate) const AT_EITHER_END: usize = 100;

/// The first items of a list, the last ones, and how many there were.
#[derive(Drop)]
pub(crate) struct Ends<T: Copy> {
    first: Vec<T>,
    // the item of number n at n modulo AT_EITHER_END
    last: Vec<T>,
    count: u64,
}

impl<T: Copy> Ends<T> {
    /// A list without items. Takes no memory.
    pub(crate) fn new(alloc: Global) -> Ends<T> {
        Ends {
            first: Vec::new(alloc),
            last: Vec::new(alloc),
            count: 0,
        }
    }

    /// An item more.
    pub(crate) fn push(&mut self, item: T) -> Result<(), AllocError> {
        if self.first.len() < MOST_SHOWN {
            self.first.push(item)?;
        }
        let at = (self.count % AT_EITHER_END as u64) as usize;
        match self.last.get_mut(at) {
            Some(place) => *place = item,
            None => self.last.push(item)?,
        }
        self.count = self.count.saturating_add(1);
        Ok(())
    }

    /// No items any more.
    pub(crate) fn clear(&mut self) {
        self.first.clear();
        self.last.clear();
        self.count = 0;
    }

    /// How many are left out between the first and the last ones.
    pub(crate) fn left_out(&self) -> u64 {
        if self.count > MOST_SHOWN as u64 {
            self.count.saturating_sub(2 * AT_EITHER_END as u64)
        } else {
            0
        }
    }

    /// How many are shown.
    pub(crate) fn shown(&self) -> usize {
        if self.left_out() == 0 {
            self.first.len()
        } else {
            2 * AT_EITHER_END
        }
    }

    /// The item of a place among those that are shown.
    pub(crate) fn get(&self, place: usize) -> Option<T> {
        if self.left_out() == 0 || place < AT_EITHER_END {
            return self.first.get(place).copied();
        }
        let number = self.count.saturating_add((place % AT_EITHER_END) as u64);
        self.last
            .get((number % AT_EITHER_END as u64) as usize)
            .copied()
    }

    /// How many stand above a place, with the line that tells how many are left out.
    pub(crate) fn lines_above(&self, place: usize) -> u64 {
        if self.left_out() > 0 && place >= AT_EITHER_END {
            (place as u64).saturating_add(1)
        } else {
            place as u64
        }
    }
}

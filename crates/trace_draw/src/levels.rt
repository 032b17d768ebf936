//! How full the table is behind a commit.

ghost use Rattle.std.specs.Prelude.{◌<◌};

use crate::table::Table;

/// How many parts of the table a bar shows at most.
pub(crate) const PARTS: usize = 64;

/// The table behind a commit.
#[derive(Clone, Copy, Debug)]
pub(crate) struct Level {
    pub(crate) commit: u32,
    pub(crate) refused: bool,
    pub(crate) used: u64,
    /// How many slots of each part are used.
    pub(crate) parts: [u8; PARTS],
    pub(crate) writes: u64,
    pub(crate) words: u64,
    /// The most writes of one insertion.
    pub(crate) most: u64,
}

/// How many parts a table has.
pub(crate) fn parts_of(slots: u32) -> u64
    ensures { 0 < result }
{
    u64::from(slots.min(PARTS as u32).max(1))
}

/// Where a part begins: the first slot of it, and behind the last one the number of slots.
pub(crate) fn part_begins(slots: u32, part: u64) -> u64 {
    part.saturating_mul(u64::from(slots))
        .div_ceil(parts_of(slots))
}

/// The part that a slot is in.
fn part_at(slots: u32, slot: u32) -> usize {
    (u64::from(slot).saturating_mul(parts_of(slots)) / u64::from(slots.max(1))) as usize
}

/// How many slots are used.
pub(crate) fn used_of(table: &Table) -> u64 {
    table.slots().iter().filter(|held| held.is_some()).count() as u64
}

/// How many slots of each part are used.
pub(crate) fn used_parts(table: &Table, slots: u32) -> [u8; PARTS] {
    let mut parts = [0; PARTS];
    for slot in 0..slots {
        if table.get(slot).is_some() {
            add_one(&mut parts, part_at(slots, slot));
        }
    }
    parts
}

/// A part has a used slot more.
fn add_one(parts: &mut [u8; PARTS], part: usize) {
    if let Some(count) = parts.get_mut(part) {
        *count = count.saturating_add(1);
    }
}

//! The entries of a list that a word of a cube can find.

ghost use Rattle.std.specs.Prelude.{◌≡◌, IfOk, IsTrue};
ghost use Rattle.slot_order.specs.Order.{first_hit};
ghost use Rattle.rule_model.specs.Entry.{hits};
ghost use Rattle.rule_model.specs.declared.words.Word.{Word};
ghost use Rattle.tcam_device.specs.State.{told};
ghost use Rattle.word_cubes.specs.Cube.{IsWord, cube_holds};
ghost use Rattle.leak_search.specs.Found.{AnswerAlike, IsSlotTakenIn, IsTakenIn, found_in};

use crate::AnswerLists;
use rule_model::Entry;
use std::alloc::{AllocError, Global};
use std::vec::Vec;
use word_cubes::{Cube, Extent, extent_of};

/// The entries that hit some word of the cube, up to the first that hits each.
pub fn narrowed(alloc: Global, entries: &[Entry], cube: &Cube) -> Result<Vec<Entry>, AllocError>
    ensures { IfOk result (λ some. AnswerAlike cube.now some.items entries.now) }
{
    let mut some = Vec::new(alloc);
    for entry in entries {
        let last = take_in(&mut some, entry, cube)?;
        if last {
            return Ok(some);
        }
    }
    Ok(some)
}

/// The entries in some slots, likewise.
pub fn narrowed_slots(
    alloc: Global,
    slots: &[Option<Entry>],
    cube: &Cube,
) -> Result<Vec<Entry>, AllocError>
    ensures { IfOk result (λ some. (word : Word) → IsWord word → IsTrue (cube_holds cube.now word)
        → found_in some.items word ≡ told (first_hit hits slots.now word)) }
{
    let mut some = Vec::new(alloc);
    for slot in slots {
        let last = take_slot_in(&mut some, slot, cube)?;
        if last {
            return Ok(some);
        }
    }
    Ok(some)
}

/// Takes in what stands in a slot, likewise.
fn take_slot_in(
    some: &mut Vec<Entry>,
    slot: &Option<Entry>,
    cube: &Cube,
) -> Result<bool, AllocError>
    ensures { IfOk result (IsSlotTakenIn cube.now some.old.items slot.now some.new.items) }
{
    match slot {
        None => Ok(false),
        Some(entry) => take_in(some, entry, cube),
    }
}

/// Takes an entry in behind others, but none that hits no word of the cube; true says that it hits each.
fn take_in(some: &mut Vec<Entry>, entry: &Entry, cube: &Cube) -> Result<bool, AllocError>
    ensures { IfOk result (IsTakenIn cube.now some.old.items entry.now some.new.items) }
{
    match extent_of(entry, cube) {
        Extent::Misses => Ok(false),
        Extent::Splits { .. } => {
            some.push(*entry)?;
            Ok(false)
        }
        Extent::Hits => {
            some.push(*entry)?;
            Ok(true)
        }
    }
}

/// The three lists, each narrowed.
pub(crate) fn narrowed_lists(
    alloc: Global,
    lists: &AnswerLists,
    cube: &Cube,
) -> Result<AnswerLists, AllocError>
    ensures device { IfOk result (λ some. AnswerAlike cube.now some.device.items lists.now.device.items) }
    ensures old { IfOk result (λ some. AnswerAlike cube.now some.old.items lists.now.old.items) }
    ensures new { IfOk result (λ some. AnswerAlike cube.now some.new.items lists.now.new.items) }
{
    let device_entries = lists.device.as_slice();
    let old_entries = lists.old.as_slice();
    let new_entries = lists.new.as_slice();
    let device = narrowed(alloc, device_entries, cube)?;
    let old = narrowed(alloc, old_entries, cube)?;
    let new = narrowed(alloc, new_entries, cube)?;
    Ok(AnswerLists { device, old, new })
}

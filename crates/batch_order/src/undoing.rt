//! The writes that take a plan back, noted while it is planned.
//!
//! What a slot held is noted with the move that changes it, what gets a new entry or goes is known by its id, and what a
//! table's word was by the tables as they stand. So what restores each write is a planned write again, of a few bytes, and
//! no slot is looked at but those that the plan writes.

ghost use Rattle.std.specs.Prelude.{◌≡◌, ◌≤◌, ◌⊎◌, ℕ, [], OnOk, IsTrue, Option, Some, length, map, slice_get, vec_capacity};
ghost use Rattle.std.specs.List.{AllByRecursion};
ghost use Rattle.rule_store.specs.declared.Mode.TheVariants as modes;
ghost use Rattle.tcam_device.specs.Insertion.{is_table_write};
ghost use Rattle.tcam_device.specs.State.{state_after};
ghost use Rattle.commit_writes.specs.Undo.{restorings};
ghost use Rattle.batch_order.specs.Kept.{mode_of, tables_of};
ghost use Rattle.batch_order.specs.Entries.{AreTold};
ghost use Rattle.batch_order.specs.Undoing.{unmade};
ghost use Rattle.move_planner.specs.Noted.{IsInside, taken_back};
ghost use Rattle.placement.specs.Ready.{AreToldBut};

use crate::entries::LiveEntries;
use crate::planned_writes::PlannedWrite;
use crate::translation::Translation;
use commit_writes::{TableWord, Tables};
use move_planner::Moves;
use slot_pool::Arrangement;
use std::alloc::{AllocError, Global};

/// What restores each write of a plan, in the plan's order: the words of the tables, then what the slots of the moves
/// held, and last what those held that get a new entry or are erased.
#[derive(Drop)]
pub(crate) struct PlannedUndo {
    pub(crate) words: Vec<TableWord>,
    pub(crate) moves: Moves,
    pub(crate) changes: Moves,
}

impl PlannedUndo {
    ghost use Rattle.std.specs.Prelude.{◌≡◌, [], slice_get};
    ghost use Rattle.slot_pool.specs.Arrangement.{Slots};
    ghost use Rattle.batch_order.specs.Noting.{all_undo};
    ghost use Rattle.batch_order.specs.Undoing.{TakesBack};

    /// What restores no write.
    pub(crate) fn new(alloc: Global) -> PlannedUndo
        ensures none { all_undo result ≡ [] }
        ensures no_words { result.words.items ≡ [] }
        ensures no_moves { result.moves ≡ [] }
        ensures no_changes { result.changes ≡ [] }
    {
        PlannedUndo {
            words: Vec::new(alloc),
            moves: Moves::new(alloc),
            changes: Moves::new(alloc),
        }
    }

    /// What restores the write at a place, if so many are there.
    pub(crate) fn get(&self, place: usize) -> Option<PlannedWrite>
        ensures { result ≡ slice_get (all_undo self.now) place }
    {
        if place < self.words.len() {
            return Some(PlannedWrite::Tabled(self.words[place]));
        }
        let place = place - self.words.len();
        let moves = self.moves.len() as usize;
        if place < moves {
            return Some(PlannedWrite::Moved(self.moves.at(place as u64)));
        }
        moved(&self.changes, place - moves)
    }

    /// Takes an arrangement back that stands as the plan leads to: as it stood before the plan. It is told where ids stand then.
    pub(crate) fn take_back(&self, live: &mut LiveEntries, arrangement: &mut Arrangement)
        requires { (before : Slots) × TakesBack before arrangement.old self.now }
        ensures back { (before : Slots) → TakesBack before arrangement.old self.now → arrangement.new ≡ before }
        ensures live { live.new.live ≡ live.old.live }
        ensures entries { live.new.entries ≡ live.old.entries }
        ensures slots { live.new.slots ≡ live.old.slots }
        ensures told { AreTold live.old arrangement.old → AreTold live.new arrangement.new }
    {
        put_back(live, arrangement, &self.changes);
        put_back(live, arrangement, &self.moves);
    }
}

/// Makes moves in an arrangement, the last one first, whatever its slots hold, and tells where the ids stand that they move.
pub(crate) fn put_back(live: &mut LiveEntries, arrangement: &mut Arrangement, moves: &Moves)
    requires { AllByRecursion (IsInside (length arrangement.old)) moves.now }
    ensures exact { arrangement.new ≡ taken_back arrangement.old moves.now }
    ensures live { live.new.live ≡ live.old.live }
    ensures entries { live.new.entries ≡ live.old.entries }
    ensures slots { live.new.slots ≡ live.old.slots }
    ensures told { AreTold live.old arrangement.old → AreTold live.new arrangement.new }
{
    for place in (0..moves.len()).rev() {
        let (left, came) = moves.make_back(arrangement, place);
        tell_if(live, arrangement, left);
        tell_if(live, arrangement, came);
    }
}

/// Tells where an id stands, if there is one.
fn tell_if(live: &mut LiveEntries, arrangement: &Arrangement, id: Option<u32>)
    ensures live { live.new.live ≡ live.old.live }
    ensures entries { live.new.entries ≡ live.old.entries }
    ensures slots { live.new.slots ≡ live.old.slots }
    ensures told { (other : Option ℕ) → AreToldBut (λ one. (other ≡ Some one) ⊎ (id ≡ Some one)) live.old.live live.old.told arrangement.now
        → AreToldBut (λ one. other ≡ Some one) live.new.live live.new.told arrangement.now }
{
    if let Some(id) = id {
        live.tell(arrangement, id);
    }
}

/// The move at a place, as a planned write, if so many are there.
fn moved(moves: &Moves, place: usize) -> Option<PlannedWrite>
    ensures { result ≡ slice_get (map PlannedWrite.Moved moves.now) place }
{
    if place < moves.len() as usize {
        Some(PlannedWrite::Moved(moves.at(place as u64)))
    } else {
        None
    }
}

/// Notes what the words of a plan replace, by the tables that a manager keeps, which are as they were then. By covers
/// there are no words, and no tables.
pub(crate) fn note_words(
    translation: &mut Option<Translation>,
    words: &[TableWord],
    undo: &mut Vec<TableWord>,
) -> Result<(), AllocError>
    requires covers { mode_of translation.old ≡ modes.Cover → words.now ≡ [] }
    requires empty { undo.old.items ≡ [] }
    ensures noted { OnOk result (undo.new.items ≡ restorings (tables_of translation.old) words.now) }
    ensures to_tables { OnOk result (AllByRecursion (λ word. IsTrue (is_table_write word)) words.now) }
    ensures same { translation.new ≡ translation.old }
{
    match translation {
        None => Ok(()),
        Some(kept) => {
            undo.reserve(words.len())?;
            make_words(&mut kept.tables, words, undo);
            unmake_words(&mut kept.tables, undo.as_slice());
            Ok(())
        }
    }
}

/// The tables get some words. What puts back each is noted, in their order.
fn make_words(tables: &mut Tables, words: &[TableWord], undo: &mut Vec<TableWord>)
    requires empty { undo.old.items ≡ [] }
    requires room { length words.now ≤ vec_capacity undo.old }
    ensures made { tables.new ≡ state_after tables.old words.now }
    ensures noted { undo.new.items ≡ restorings tables.old words.now }
    ensures to_tables { AllByRecursion (λ word. IsTrue (is_table_write word)) words.now }
{
    for word in words {
        undo.push_reserved(tables.replace(*word));
    }
}

/// The tables get some words, the last one first.
fn unmake_words(tables: &mut Tables, undo: &[TableWord])
    ensures { tables.new ≡ unmade tables.old undo.now }
{
    for place in (0..undo.len()).rev() {
        tables.set(undo[place]);
    }
}

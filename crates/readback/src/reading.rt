//! The slots of a device, and which piece of a commit each holds.

ghost use Rattle.std.specs.Prelude.{◌≡◌, ◌<◌, ◌^◌, Some, IfOk, IfSome, IsNone, Contains, length};
ghost use Rattle.rule_model.specs.declared.words.Entry as entries;
ghost use Rattle.rule_model.specs.Entry.{RankedPiece, entry_for};
ghost use Rattle.tcam_device.specs.View.{device_state};
ghost use Rattle.readback.specs.Places.{AreIn};
ghost use Rattle.readback.specs.Tasks.{known_pieces};

use crate::commit::{Coded, Commit};
use crate::standing::same_entry;
use commit_writes::Ranked;
use rule_model::Entry;
use std::alloc::{AllocError, Global};
use tcam_device::ReadBack;

/// What the slots of a device hold.
pub(crate) fn read_slots<D: ReadBack>(
    alloc: Global,
    device: &D,
) -> Result<Vec<Option<Entry>>, AllocError>
    ensures slots { IfOk result (λ held. held.items ≡ (device_state (D.view device.now)).slots) }
    ensures few { IfOk result (λ held. length held.items < 2 ^ 32) }
{
    let mut held = Vec::new(alloc);
    for slot in 0..device.slots() {
        held.push(device.read_slot(slot))?;
    }
    Ok(held)
}

/// The piece of each slot that holds the entry of one, and None for each other slot.
pub(crate) fn pieces_in(
    alloc: Global,
    held: &[Option<Entry>],
    commit: &Commit,
) -> Result<Vec<Option<Ranked>>, AllocError>
    ensures { IfOk result (λ places. AreIn held.now (known_pieces commit.now) places.items) }
{
    let mut places = Vec::new(alloc);
    for slot in held {
        places.push(piece_in(slot, commit))?;
    }
    Ok(places)
}

/// The piece whose entry a slot holds.
fn piece_in(slot: &Option<Entry>, commit: &Commit) -> Option<Ranked>
    ensures known { IfSome result (λ ranked. Contains (known_pieces commit.now) ranked × (slot.now ≡ Some (entry_for ranked))) }
    ensures strange { IsNone result → (entry : entries.Entry) → slot.now ≡ Some entry → (ranked : RankedPiece)
        → Contains (known_pieces commit.now) ranked → entry_for ranked ≡ entry → ⊥ }
{
    match slot {
        None => None,
        Some(entry) => known_piece(commit, entry),
    }
}

/// The first of the pieces that may stand meanwhile that has the entry.
fn known_piece(commit: &Commit, entry: &Entry) -> Option<Ranked>
    ensures found { IfSome result (λ ranked. Contains (known_pieces commit.now) ranked × (entry_for ranked ≡ entry.now)) }
    ensures none { IsNone result → (ranked : RankedPiece) → Contains (known_pieces commit.now) ranked → entry_for ranked ≡ entry.now → ⊥ }
{
    if let Some(ranked) = find(&commit.old, entry) {
        return Some(ranked);
    }
    if let Some(ranked) = find(&commit.inserted, entry) {
        return Some(ranked);
    }
    find(&commit.rewritten, entry)
}

/// The first of some pieces that has the entry.
pub(crate) fn find(pieces: &[Coded], entry: &Entry) -> Option<Ranked>
    ensures found { IfSome result (λ ranked. Contains pieces.now ranked × (entry_for ranked ≡ entry.now)) }
    ensures none { IsNone result → (ranked : RankedPiece) → Contains pieces.now ranked → entry_for ranked ≡ entry.now → ⊥ }
{
    for piece in pieces {
        if same_entry(&piece.entry, entry) {
            return Some(piece.ranked);
        }
    }
    None
}

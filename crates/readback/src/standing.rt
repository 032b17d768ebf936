//! Whether pieces of a commit stand in slots, and whether they show their results.

ghost use Rattle.std.specs.Prelude.{◌≡◌, ◌↔◌, IsTrue, false};
ghost use Rattle.std.specs.List.{list_any};
ghost use Rattle.rule_model.specs.Entry as entries;
ghost use Rattle.tcam_device.specs.Insertion as insertion;
ghost use Rattle.readback.specs.Tasks as tasks;

use crate::commit::Coded;
use rule_model::Entry;

/// Whether some slot holds an entry of the piece, whatever its result.
pub(crate) fn stands(held: &[Option<Entry>], piece: &Coded) -> bool
    ensures { result ≡ tasks.stands_in held.now piece.now }
{
    for slot in held {
        if holds_match(&piece.entry, slot) {
            return true;
        }
    }
    false
}

/// Whether some slot holds an entry of one of the pieces.
pub(crate) fn any_stands(held: &[Option<Entry>], pieces: &[Coded]) -> bool
    ensures { result ≡ list_any (tasks.stands_in held.now) pieces.now }
{
    for piece in pieces {
        if stands(held, piece) {
            return true;
        }
    }
    false
}

/// Whether some slot holds the piece's entry with its result.
pub(crate) fn is_told(held: &[Option<Entry>], piece: &Coded) -> bool
    ensures { result ≡ tasks.is_told_in held.now piece.now }
{
    for slot in held {
        if holds_told(&piece.entry, slot) {
            return true;
        }
    }
    false
}

/// Whether a slot holds an entry of the same value, mask and tag.
fn holds_match(entry: &Entry, slot: &Option<Entry>) -> bool
    ensures { result ≡ insertion.holds_match entry.now slot.now }
{
    match slot {
        None => false,
        Some(held) => same_match(entry, held),
    }
}

/// Whether a slot holds the entry with its result.
fn holds_told(entry: &Entry, slot: &Option<Entry>) -> bool
    ensures { result ≡ tasks.holds_told entry.now slot.now }
{
    match slot {
        None => false,
        Some(held) => same_match(entry, held) && entry.result == held.result,
    }
}

/// Whether two entries have the same value, mask and tag.
pub(crate) fn same_match(a: &Entry, b: &Entry) -> bool
    ensures { result ≡ entries.same_match a.now b.now }
{
    a.value == b.value && a.mask == b.mask && a.tag == b.tag
}

/// Whether two entries are one, with their results.
pub(crate) fn same_entry(a: &Entry, b: &Entry) -> bool
    ensures { IsTrue result ↔ (a.now ≡ b.now) }
{
    same_match(a, b) && a.result == b.result
}

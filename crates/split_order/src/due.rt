//! The part of an undivided write that is due.

ghost use Rattle.std.specs.Prelude.{◌≡◌, ◌∷◌, [], Some, slice_get};
ghost use Rattle.rule_model.specs.Entry as entries;
ghost use Rattle.split_order.specs.Due.{due_parts, last_due, over_dues, put_dues, standing_by};

use rule_model::Entry;
use split_device::SplitWrite;
use tcam_device::Write;

/// A part that is due: of a result word whether its slot holds an entry, and whether it is the last of its write.
#[derive(Clone, Copy)]
pub(crate) struct DuePart {
    pub(crate) part: SplitWrite,
    pub(crate) stands: bool,
    pub(crate) last: bool,
}

/// The part of a write that comes behind so many of its parts, where this entry stands in its slot: into an empty slot its
/// result word, then its value and mask; as a new result of the same entry that alone; and in place of another one the
/// slot's erase first.
pub(crate) fn due_part(write: &Write, standing: &Option<Entry>, made: u32) -> Option<DuePart>
    ensures { result ≡ slice_get (due_parts standing.now write.now) made }
{
    match write {
        Write::Slot(slot, None) => only(SplitWrite::Slot(*slot, None), false, made),
        Write::Slot(slot, Some(entry)) => over(*slot, entry, standing, made),
        Write::Table(field, port, word) => {
            only(SplitWrite::Table(*field, *port, *word), false, made)
        }
    }
}

/// The part of an entry that is put where this one stands.
fn over(slot: u32, entry: &Entry, standing: &Option<Entry>, made: u32) -> Option<DuePart>
    ensures { result ≡ slice_get (over_dues standing.now slot entry.now) made }
{
    match standing {
        None => put(slot, entry, made),
        Some(held) => {
            if same_match(entry, held) {
                only(
                    SplitWrite::Result(slot, entry.tag, entry.result),
                    true,
                    made,
                )
            } else if made == 0 {
                Some(DuePart {
                    part: SplitWrite::Slot(slot, None),
                    stands: false,
                    last: false,
                })
            } else {
                put(slot, entry, made - 1)
            }
        }
    }
}

/// The part of an entry that is put into an empty slot.
fn put(slot: u32, entry: &Entry, made: u32) -> Option<DuePart>
    ensures { result ≡ slice_get (put_dues slot entry.now) made }
{
    if made == 0 {
        return Some(DuePart {
            part: SplitWrite::Result(slot, entry.tag, entry.result),
            stands: false,
            last: false,
        });
    }
    only(
        SplitWrite::Slot(slot, Some((entry.value, entry.mask))),
        false,
        made - 1,
    )
}

/// The one part of a write that has no other left.
fn only(part: SplitWrite, stands: bool, made: u32) -> Option<DuePart>
    ensures { result ≡ slice_get (last_due part stands ∷ []) made }
{
    if made > 0 {
        return None;
    }
    Some(DuePart {
        part,
        stands,
        last: true,
    })
}

/// Whether two entries have the same value, mask and tag.
fn same_match(a: &Entry, b: &Entry) -> bool
    ensures { result ≡ entries.same_match a.now b.now }
{
    a.value == b.value && a.mask == b.mask && a.tag == b.tag
}

/// What stands in a slot, by the write that would put it back.
pub(crate) fn standing(replaced: &Option<Write>) -> Option<Entry>
    ensures { result ≡ standing_by replaced.now }
{
    match replaced {
        Some(Write::Slot(_, held)) => *held,
        _ => None,
    }
}

//! What a write does, by what the slots of the device hold before it.

ghost use Rattle.std.specs.Prelude.{◌≡◌, ◌<◌, None, option_map, slice_set};
ghost use Rattle.slot_order.specs.Order as order;
ghost use Rattle.tcam_device.specs.Insertion as insertion;
ghost use Rattle.tcam_device.specs.State.{IsInUse};
ghost use Rattle.tcam_device.specs.View.{device_state};
ghost use Rattle.rule_model.specs.Entry as entries;
ghost use Rattle.report_lines.specs.Named as named;
ghost use Rattle.report_lines.specs.Named.{other_holder};

use report_lines::Deed;
use rule_model::{Entry, Rank};
use tcam_device::{ReadBack, Write};

/// What a write does that is still to be made, to a slot or a table of the device.
pub(crate) fn deed_of<D: ReadBack>(write: &Write, device: &D) -> Deed
    requires { IsInUse (D.view device.now).slots write.now }
    ensures { result ≡ named.deed_of (device_state (D.view device.now)).slots write.now }
{
    match *write {
        Write::Slot(slot, Some(entry)) => put_deed(slot, entry, device),
        Write::Slot(slot, None) => Deed::Erased {
            slot,
            tag: tag_in(&device.read_slot(slot)),
        },
        Write::Table(field, port, word) => Deed::Word { field, port, word },
    }
}

// What the write of an entry to a slot does.
fn put_deed<D: ReadBack>(slot: u32, entry: Entry, device: &D) -> Deed
    requires { slot < (D.view device.now).slots }
    ensures { result ≡ named.put_deed slot entry (insertion.holds_match entry (order.slot (device_state (D.view device.now)).slots slot)) (other_holder (device_state (D.view device.now)).slots slot entry) }
{
    if holds_match(&entry, &device.read_slot(slot)) {
        return Deed::Rewritten { slot, entry };
    }
    match other_holder(slot, &entry, device) {
        Some(from) => Deed::Copied { slot, from, entry },
        None => Deed::New { slot, entry },
    }
}

// The least other slot that has the entry, whatever its result.
fn other_holder<D: ReadBack>(slot: u32, entry: &Entry, device: &D) -> Option<u32>
    requires { slot < (D.view device.now).slots }
    ensures { result ≡ other_holder (device_state (D.view device.now)).slots slot entry.now }
{
    for at in 0..device.slots() {
        if is_other_holder(slot, at, entry, device) {
            return Some(at);
        }
    }
    None
}

// Whether a slot is another one than the first, and has the entry.
fn is_other_holder<D: ReadBack>(slot: u32, at: u32, entry: &Entry, device: &D) -> bool
    requires slot { slot < (D.view device.now).slots }
    requires at { at < (D.view device.now).slots }
    ensures { result ≡ insertion.holds_match entry.now (order.slot (slice_set (device_state (D.view device.now)).slots slot None) at) }
{
    if at == slot {
        return false;
    }
    holds_match(entry, &device.read_slot(at))
}

// The priority of the rule whose entry a slot holds, if it holds one.
fn tag_in(held: &Option<Entry>) -> Option<Rank>
    ensures { result ≡ option_map (λ entry. entry.tag) held.now }
{
    match held {
        None => None,
        Some(entry) => Some(entry.tag),
    }
}

// Whether a slot holds an entry of the same value, mask and tag.
fn holds_match(entry: &Entry, held: &Option<Entry>) -> bool
    ensures { result ≡ insertion.holds_match entry.now held.now }
{
    match held {
        None => false,
        Some(standing) => same_match(entry, standing),
    }
}

// Whether two entries have the same value, mask and tag.
fn same_match(a: &Entry, b: &Entry) -> bool
    ensures { result ≡ entries.same_match a.now b.now }
{
    a.value == b.value && a.mask == b.mask && a.tag == b.tag
}

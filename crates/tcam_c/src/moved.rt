//! Where an entry that is due stands already.

ghost use Rattle.std.specs.Prelude.{◌≡◌, ◌<◌, ◌↔◌, IsTrue, Some};
ghost use Rattle.slot_order.specs.Order as order;
ghost use Rattle.rule_model.specs.Entry as entries;
ghost use Rattle.tcam_device.specs.State.{replay};
ghost use Rattle.tcam_device.specs.Flight.{writes_in};
ghost use Rattle.tcam_c.specs.Driven.{IsLeastHolder};

use crate::outside::Outside;
use memory_tcam::Shadowed;
use rule_model::Entry;
use tcam_device::{ReadBack, Writable};

/// The least slot that holds an entry, whole, or None where none does.
pub(crate) fn slot_holding(device: &Shadowed<Outside>, entry: &Entry) -> Option<u32>
    ensures { IsLeastHolder (replay device.now.slots (writes_in device.now.events)).slots device.now.slots entry.now result }
{
    for slot in 0..device.slots() {
        if holds(device, slot, entry) {
            return Some(slot);
        }
    }
    None
}

/// Whether a slot holds an entry.
fn holds(device: &Shadowed<Outside>, slot: u32, entry: &Entry) -> bool
    requires { slot < device.now.slots }
    ensures { IsTrue result ↔ (order.slot (replay device.now.slots (writes_in device.now.events)).slots slot ≡ Some entry.now) }
{
    match device.read_slot(slot) {
        None => false,
        Some(standing) => same_entry(&standing, entry),
    }
}

/// Whether two entries have the same value, mask and tag.
fn same_match(a: &Entry, b: &Entry) -> bool
    ensures { result ≡ entries.same_match a.now b.now }
{
    a.value == b.value && a.mask == b.mask && a.tag == b.tag
}

/// Whether two entries are one, with their results.
fn same_entry(a: &Entry, b: &Entry) -> bool
    ensures { IsTrue result ↔ (a.now ≡ b.now) }
{
    same_match(a, b) && a.result == b.result
}

//! The least slot of each id, and the sum of those that hold it, kept as ids come and go.
ghost use Rattle.std.specs.Prelude.{◌≡◌, ◌+◌, ◌==◌, ◌<◌, ◌≤◌, None, Some, length, slice_set};
ghost use Rattle.slot_order.specs.Order.{slot as held_in};
ghost use Rattle.slot_pool.specs.Arrangement.{passes};
ghost use Rattle.slot_pool.specs.Homes.{IsFirstOf, AreHomes, AreSums, earlier, sum_of};

use crate::sums;
use slot_order::MOST_SLOTS;

/// The least slot from a place on that holds an id.
pub(crate) fn first_of(slots: &[Option<u32>], from: u32, id: u32) -> Option<u32>
    requires few { length slots.now ≤ MOST_SLOTS }
    ensures { IsFirstOf slots.now from id result }
{
    for slot in from..slots.len() as u32 {
        if holds(slots[slot as usize], id) {
            return Some(slot);
        }
    }
    None
}

/// Puts an id into an empty slot.
pub(crate) fn put(
    slots: &mut [Option<u32>],
    homes: &mut [Option<u32>],
    sums: &mut [u64],
    slot: u32,
    id: u32,
)
    requires few { length slots.old ≤ MOST_SLOTS }
    requires place { slot < length slots.old }
    requires free { held_in slots.old slot ≡ None }
    requires homes { AreHomes slots.old homes.old }
    requires sums { AreSums slots.old sums.old }
    ensures slots { slots.new ≡ slice_set slots.old slot (Some id) }
    ensures homes { AreHomes slots.new homes.new }
    ensures sums { AreSums slots.new sums.new }
{
    sums::put(sums, slots, slot, id);
    slots[slot as usize] = Some(id);
    if id as usize >= homes.len() {
        return;
    }
    homes[id as usize] = earlier(homes[id as usize], slot);
}

/// Empties a slot. Only where two more slots or more hold what it held these are searched for.
pub(crate) fn erase(
    slots: &mut [Option<u32>],
    homes: &mut [Option<u32>],
    sums: &mut [u64],
    slot: u32,
)
    requires few { length slots.old ≤ MOST_SLOTS }
    requires place { slot < length slots.old }
    requires homes { AreHomes slots.old homes.old }
    requires sums { AreSums slots.old sums.old }
    ensures slots { slots.new ≡ slice_set slots.old slot None }
    ensures homes { AreHomes slots.new homes.new }
    ensures sums { AreSums slots.new sums.new }
{
    let held = slots[slot as usize];
    sums::erase(sums, slots, slot);
    slots[slot as usize] = None;
    let Some(id) = held else {
        return;
    };
    if id as usize >= homes.len() {
        return;
    }
    if holds(homes[id as usize], slot) {
        homes[id as usize] = next_home(slots, slot, id, sums[id as usize]);
    }
}

/// The least slot behind one that holds an id, by the sum of all that hold it. Where one alone does it is that sum.
fn next_home(slots: &[Option<u32>], slot: u32, id: u32, sum: u64) -> Option<u32>
    requires few { length slots.now ≤ MOST_SLOTS }
    requires place { slot < length slots.now }
    requires sum { sum ≡ sum_of slots.now id }
    ensures { IsFirstOf slots.now (slot + 1) id result }
{
    if sum == 0 {
        return None;
    }
    if sum > slot as u64 && (sum as usize) < slots.len() && holds(slots[sum as usize], id) {
        return Some(sum as u32);
    }
    first_of(slots, slot + 1, id)
}

/// Whether this is a number, and that one.
fn holds(held: Option<u32>, id: u32) -> bool
    ensures { result ≡ passes (λ held. held == id) held }
{
    match held {
        Some(held) => held == id,
        None => false,
    }
}

/// Of a slot, if there is one, and another the lesser.
fn earlier(home: Option<u32>, slot: u32) -> Option<u32>
    ensures { result ≡ earlier home slot }
{
    match home {
        Some(home) => Some(home.min(slot)),
        None => Some(slot),
    }
}

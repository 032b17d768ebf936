//! The sum of the slots that hold each id, kept as ids come and go: where an id stands in two slots, one of them tells
//! the other.
ghost use Rattle.std.specs.Prelude.{◌≡◌, ◌<◌, ◌≤◌, None, Some, length, slice_set};
ghost use Rattle.slot_order.specs.Order.{slot as held_in};
ghost use Rattle.slot_pool.specs.Homes.{AreSums};

use slot_order::MOST_SLOTS;

/// Adds a slot that an id is put into, which is empty.
#[tactic(auto, using(crate::proofs::SlotSums::beyond, crate::proofs::SlotSums::sums_few))]
pub(crate) fn put(sums: &mut [u64], slots: &[Option<u32>], slot: u32, id: u32)
    requires few { length slots.now ≤ MOST_SLOTS }
    requires place { slot < length slots.now }
    requires free { held_in slots.now slot ≡ None }
    requires sums { AreSums slots.now sums.old }
    ensures { AreSums (slice_set slots.now slot (Some id)) sums.new }
{
    if (id as usize) < sums.len() {
        sums[id as usize] += slot as u64;
    }
}

/// Takes away a slot that is emptied.
#[tactic(auto, using(crate::proofs::SlotSums::taken, crate::proofs::SlotSums::none_taken, crate::proofs::SlotSums::sum_holds))]
pub(crate) fn erase(sums: &mut [u64], slots: &[Option<u32>], slot: u32)
    requires place { slot < length slots.now }
    requires sums { AreSums slots.now sums.old }
    ensures { AreSums (slice_set slots.now slot None) sums.new }
{
    let Some(id) = slots[slot as usize] else {
        return;
    };
    if (id as usize) < sums.len() {
        sums[id as usize] -= slot as u64;
    }
}

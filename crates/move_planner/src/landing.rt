//! Where the last entry of a chain goes: to a free slot of its own gap, beyond it, that its aim wishes.
ghost use Rattle.std.specs.Prelude.{◌≡◌, ℕ, ◌+◌, ◌-◌, ◌<◌, ◌≤◌, IsTrue, Some, IfSome, nat_lt, length, count_by, slice_index_or};
ghost use Rattle.slot_order.specs.Order.{slot as held_in};
ghost use Rattle.slot_moves.specs.Cuts.{holds};
ghost use Rattle.slot_pool.specs.Arrangement.{nearest_free};
ghost use Rattle.placement.specs.Insertion.{free_slots};
ghost use Rattle.placement.specs.Live.{is_live, is_above, rank_in};
ghost use Rattle.placement.specs.Placement.{IsInOrder, rank_slot, share_of_held, wished_by, landing_in, landing_down, landing_up};
ghost use Rattle.placement.specs.Ready.{IsTaken, IsTold, CanShift};
ghost use Rattle.move_planner.specs.Boundary.{one};
ghost use Rattle.move_planner.specs.Steps.{AllLive, Landed};

use crate::boundary::one_if;
use crate::chains::Chain;
use crate::places::{first_lower, last_upper, next_slot};
use overlap_index::Index;
use placement::Aim;
use rule_model::Rank;
use slot_order::MOST_SLOTS;
use slot_pool::Arrangement;

/// A chain as it moves: its last member goes to the free slot beyond it, in its own gap, that the aim
/// wishes. `coming` has the priorities of the entries that the same commit inserts later.
pub(crate) fn landed(
    slots: &Arrangement,
    index: &Index,
    aim: Aim,
    coming: &[Rank],
    chain: Chain,
) -> Chain
    requires few { length slots.now ≤ MOST_SLOTS }
    requires few_coming { length coming.now ≤ MOST_SLOTS }
    requires live { AllLive index.now slots.now }
    requires told { IsTold index.now slots.now }
    requires order { IsInOrder (is_above index.now.live) slots.now }
    requires once { (i j other : ℕ) → held_in slots.now i ≡ Some other → held_in slots.now j ≡ Some other → i ≡ j }
    requires shift { CanShift slots.now chain.free chain.members.items }
    ensures { Landed (is_above index.now.live) (rank_in index.now.live) (record { aim = aim; coming = coming.now }) slots.now chain result }
{
    let last = chain.last();
    let free = if last < chain.free {
        landing_down(slots, index, aim, coming, chain.free, last)
    } else {
        landing_up(slots, index, aim, coming, chain.free, last)
    };
    Chain {
        free,
        members: chain.members,
    }
}

/// Where the last member of a down chain to a free slot goes: behind its slot and before its first
/// lower entry.
fn landing_down(
    slots: &Arrangement,
    index: &Index,
    aim: Aim,
    coming: &[Rank],
    free: u32,
    last: u32,
) -> u32
    requires few { length slots.now ≤ MOST_SLOTS }
    requires few_coming { length coming.now ≤ MOST_SLOTS }
    requires live { AllLive index.now slots.now }
    requires told { IsTold index.now slots.now }
    requires order { IsInOrder (is_above index.now.live) slots.now }
    requires taken { IsTaken slots.now last }
    ensures { result ≡ landing_down (is_above index.now.live) (rank_in index.now.live) (record { aim = aim; coming = coming.now }) slots.now free last }
{
    let Some(id) = slots.at(last) else {
        return free;
    };
    if matches!(aim, Aim::Middle) {
        return free;
    }
    let end = first_lower(slots, index, id).unwrap_or(slots.slots());
    match wish(
        slots,
        index,
        aim,
        coming,
        id,
        last + 1,
        end,
        end.saturating_sub(1),
    ) {
        Some(wish) => slots.nearest_free(last + 1, end, wish).unwrap_or(free),
        None => free,
    }
}

/// Where the last member of an up chain goes: before its slot and behind its last upper entry.
fn landing_up(
    slots: &Arrangement,
    index: &Index,
    aim: Aim,
    coming: &[Rank],
    free: u32,
    last: u32,
) -> u32
    requires few { length slots.now ≤ MOST_SLOTS }
    requires few_coming { length coming.now ≤ MOST_SLOTS }
    requires live { AllLive index.now slots.now }
    requires told { IsTold index.now slots.now }
    requires once { (i j other : ℕ) → held_in slots.now i ≡ Some other → held_in slots.now j ≡ Some other → i ≡ j }
    requires taken { IsTaken slots.now last }
    ensures { result ≡ landing_up (is_above index.now.live) (rank_in index.now.live) (record { aim = aim; coming = coming.now }) slots.now free last }
{
    let Some(id) = slots.at(last) else {
        return free;
    };
    if matches!(aim, Aim::Middle) {
        return free;
    }
    let start = next_slot(last_upper(slots, index, id));
    match wish(slots, index, aim, coming, id, start, last, start) {
        Some(wish) => slots.nearest_free(start, last, wish).unwrap_or(free),
        None => free,
    }
}

/// The slot that the last member of a chain would stand in best, of its gap from `start` on and before
/// `end`: that where it belongs, or the far end of the gap. With the middle as aim none is. Where one
/// slot alone is free it is that, since all entries have to be gone over for the other.
fn wish(
    slots: &Arrangement,
    index: &Index,
    aim: Aim,
    coming: &[Rank],
    id: u32,
    start: u32,
    end: u32,
    far: u32,
) -> Option<u32>
    requires few { length slots.now ≤ MOST_SLOTS }
    requires few_coming { length coming.now ≤ MOST_SLOTS }
    requires live { AllLive index.now slots.now }
    requires id { IsTrue (is_live index.now.live id) }
    requires inside { end ≤ length slots.now }
    ensures { (free : ℕ) → landing_in slots.now start end free result
        ≡ landing_in slots.now start end free (wished_by aim (share_of_held (rank_in index.now.live) coming.now slots.now (Some id)) far) }
{
    match aim {
        Aim::Middle => None,
        Aim::At(_) => match only_free(slots, start, end) {
            Some(only) => Some(only),
            None => Some(share_of(slots, index, coming, id)),
        },
        Aim::Start | Aim::End => Some(far),
    }
}

/// The free slot from one on and before another, if there is one and no more.
fn only_free(slots: &Arrangement, start: u32, end: u32) -> Option<u32>
    requires { end ≤ length slots.now }
    ensures { IfSome result (λ only. (wish : ℕ) → nearest_free slots.now start end wish ≡ Some only) }
{
    let only = slots.first_free(start, end)?;
    match slots.first_free(only + 1, end) {
        Some(_) => None,
        None => Some(only),
    }
}

/// Where an entry that stands belongs by its priority, among all that stand, a new one and those to
/// come. The new one isn't counted before it.
fn share_of(slots: &Arrangement, index: &Index, coming: &[Rank], id: u32) -> u32
    requires few { length slots.now ≤ MOST_SLOTS }
    requires few_coming { length coming.now ≤ MOST_SLOTS }
    requires live { AllLive index.now slots.now }
    requires id { IsTrue (is_live index.now.live id) }
    ensures { result ≡ share_of_held (rank_in index.now.live) coming.now slots.now (Some id) }
{
    let rank = index.rank_of(id);
    let before = standing_above(slots, index, rank) + coming_above(coming, rank);
    let all = slots.slots() - slots.free_count() + 1 + coming.len() as u32;
    rank_slot(slots.slots(), before, all) as u32
}

/// Where an entry with so many before it belongs, of so many in all, each with its share of the
/// slots: in the middle of its share.
pub fn rank_slot(slots: u32, before: u32, all: u32) -> u64
    requires few { slots ≤ MOST_SLOTS }
    requires some { 0 < all }
    ensures share { result ≡ rank_slot slots before all }
    ensures inside { before < all → result ≤ slots }
{
    (2 * before as u64 + 1) * slots as u64 / (2 * all as u64)
}

/// How many entries that stand have a higher priority than this.
fn standing_above(slots: &Arrangement, index: &Index, rank: Rank) -> u32
    requires few { length slots.now ≤ MOST_SLOTS }
    requires live { AllLive index.now slots.now }
    ensures count { result ≡ count_by (λ held. holds (λ id. nat_lt rank (rank_in index.now.live id)) held) slots.now }
    ensures few { result ≤ length slots.now }
    ensures taken { result + free_slots slots.now ≤ length slots.now }
{
    let mut count = 0;
    for slot in 0..slots.slots() {
        count += one_if(stands_above(slots, index, rank, slot));
    }
    count
}

/// Whether a slot holds an entry of higher priority than this.
fn stands_above(slots: &Arrangement, index: &Index, rank: Rank, slot: u32) -> bool
    requires inside { slot < length slots.now }
    requires live { AllLive index.now slots.now }
    ensures { result ≡ holds (λ id. nat_lt rank (rank_in index.now.live id)) (held_in slots.now slot) }
{
    match slots.at(slot) {
        Some(id) => rank < index.rank_of(id),
        None => false,
    }
}

/// How many of these priorities are higher than one.
fn coming_above(coming: &[Rank], rank: Rank) -> u32
    requires few { length coming.now ≤ MOST_SLOTS }
    ensures count { result ≡ count_by (λ later. nat_lt rank later) coming.now }
    ensures few { result ≤ length coming.now }
{
    let mut count = 0;
    for later in coming {
        count += one_if(rank < *later);
    }
    count
}

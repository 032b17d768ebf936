//! The best boundary of a crossed stretch: the fewest entries on its wrong side.
ghost use Rattle.std.specs.Prelude.{◌≡◌, ℕ, ◌+◌, ◌-◌, ◌<◌, ◌≤◌, length, min};
ghost use Rattle.slot_moves.specs.Cuts.{free_before, free_behind};
ghost use Rattle.move_planner.specs.Boundary.{AreQuiet, HasMarkedRoom, IsBestTo, IsNextFree, IsTallied, one, count_marks, has_room, with_better};

use crate::sides::{Sides, first_marked};
use slot_order::MOST_SLOTS;
use slot_pool::{Arrangement, Marks};

/// What stands on the wrong side of a boundary, and the free slots near it, before it and behind it.
#[derive(Clone, Copy, Debug)]
pub(crate) struct Tally {
    pub(crate) early: u32,
    pub(crate) late: u32,
    pub(crate) free_before: u32,
    pub(crate) free_behind: u32,
}

/// A boundary and how many entries stand on the wrong side of it.
#[derive(Clone, Copy, Debug)]
pub(crate) struct Choice {
    pub(crate) boundary: u32,
    pub(crate) wrong: u32,
}

/// The boundary with room that has the fewest entries on its wrong side, the last of equal ones.
pub(crate) fn best_boundary(slots: &Arrangement, sides: &Sides) -> u32
    requires few { length slots.now ≤ MOST_SLOTS }
    requires order { sides.now.start < sides.now.end }
    requires inside { sides.now.end ≤ length slots.now }
    requires behind { length sides.now.behind ≡ sides.now.end - sides.now.start }
    requires before { length sides.now.before ≡ sides.now.end - sides.now.start }
    requires some { (cut : ℕ) × (sides.now.start ≤ cut) × (cut ≤ sides.now.end) × HasMarkedRoom slots.now sides.now cut }
    ensures { IsBestTo slots.now sides.now sides.now.end result }
{
    let mut tally = tally_at_start(slots, sides);
    let mut choice = None;
    let mut cut = sides.start;
    while cut < sides.end {
        let slot = next_change(slots, sides, cut);
        choice = better(choice, tally, slot);
        tally = tally_past(slots, sides, tally, slot);
        cut = slot + 1;
    }
    match better(choice, tally, cut) {
        Some(choice) => choice.boundary,
        None => unreachable!(),
    }
}

/// The first slot from one on that is marked or free. All boundaries from that one up to it have one
/// tally, so that only the last of them is judged. The search goes no further than a word: where nothing
/// changes it answers a slot at its end. Where many slots are free most need no search.
fn next_change(slots: &Arrangement, sides: &Sides, from: u32) -> u32
    requires low { sides.now.start ≤ from }
    requires order { from < sides.now.end }
    requires inside { sides.now.end ≤ length slots.now }
    requires few { length slots.now ≤ MOST_SLOTS }
    requires behind { length sides.now.behind ≡ sides.now.end - sides.now.start }
    requires before { length sides.now.before ≡ sides.now.end - sides.now.start }
    ensures low { from ≤ result }
    ensures high { result < sides.now.end }
    ensures quiet { AreQuiet slots.now sides.now from result }
{
    if slots.at(from).is_none() {
        return from;
    }
    let last = (sides.end - 1).min(from + 64);
    let marked = first_marked(&sides.behind, sides.start, from, last).unwrap_or(last);
    let marked = first_marked(&sides.before, sides.start, from, marked).unwrap_or(marked);
    slots.first_free(from, marked).unwrap_or(marked)
}

/// The tally of the first boundary.
fn tally_at_start(slots: &Arrangement, sides: &Sides) -> Tally
    requires few { length slots.now ≤ MOST_SLOTS }
    requires order { sides.now.start < sides.now.end }
    requires inside { sides.now.end ≤ length slots.now }
    requires before { length sides.now.before ≡ sides.now.end - sides.now.start }
    ensures { IsTallied slots.now sides.now result sides.now.start }
{
    let between = free_within(slots, sides.start, sides.end);
    Tally {
        early: 0,
        late: count(&sides.before),
        free_before: free_just_before(slots, sides.start),
        free_behind: between + free_just_behind(slots, sides.end),
    }
}

/// The tally behind a slot, from the one before it.
fn tally_past(slots: &Arrangement, sides: &Sides, tally: Tally, slot: u32) -> Tally
    requires few { length slots.now ≤ MOST_SLOTS }
    requires low { sides.now.start ≤ slot }
    requires high { slot < sides.now.end }
    requires inside { sides.now.end ≤ length slots.now }
    requires behind { length sides.now.behind ≡ sides.now.end - sides.now.start }
    requires before { length sides.now.before ≡ sides.now.end - sides.now.start }
    requires tallied { IsTallied slots.now sides.now tally slot }
    ensures { IsTallied slots.now sides.now result (slot + 1) }
{
    let i = slot - sides.start;
    let free = one_if(slots.at(slot).is_none());
    Tally {
        early: tally.early + one_if(sides.behind.is_marked(i)),
        late: tally.late - one_if(sides.before.is_marked(i)),
        free_before: tally.free_before + free,
        free_behind: tally.free_behind - free,
    }
}

/// Of a choice, if there is one, and a later boundary the better one, the later one of equal ones.
fn better(choice: Option<Choice>, tally: Tally, boundary: u32) -> Option<Choice>
    requires early { tally.early ≤ MOST_SLOTS }
    requires late { tally.late ≤ MOST_SLOTS }
    requires before { tally.free_before ≤ MOST_SLOTS }
    requires behind { tally.free_behind ≤ MOST_SLOTS }
    ensures { result ≡ with_better choice tally boundary }
{
    if !has_room(tally) {
        return choice;
    }
    let wrong = tally.early + tally.late;
    match choice {
        Some(choice) => {
            if choice.wrong < wrong {
                Some(choice)
            } else {
                Some(Choice { boundary, wrong })
            }
        }
        None => Some(Choice { boundary, wrong }),
    }
}

/// Whether the entries of either side fit into the free slots beyond the boundary and the slots that
/// those of the other side leave.
fn has_room(tally: Tally) -> bool
    requires early { tally.early ≤ MOST_SLOTS }
    requires late { tally.late ≤ MOST_SLOTS }
    requires before { tally.free_before ≤ MOST_SLOTS }
    requires behind { tally.free_behind ≤ MOST_SLOTS }
    ensures { result ≡ has_room tally }
{
    tally.early <= tally.free_behind + tally.late && tally.late <= tally.free_before + tally.early
}

/// 1 for what is so.
pub(crate) fn one_if(so: bool) -> u32
    ensures { result ≡ one so }
{
    if so { 1 } else { 0 }
}

/// How many marks are set.
fn count(marks: &Marks) -> u32
    requires { length marks.now ≤ MOST_SLOTS }
    ensures { result ≡ count_marks marks.now }
{
    let mut count = 0;
    let mut from = 0;
    while let Some(at) = marks.next_marked(from, marks.places()) {
        count += 1;
        from = at + 1;
    }
    count
}

/// How many slots before one are free, two at most.
fn free_just_before(slots: &Arrangement, start: u32) -> u32
    requires { start < length slots.now }
    ensures { result ≡ min 2 (free_before start slots.now) }
{
    match slots.last_free_below(start) {
        Some(last) => 1 + one_if(slots.last_free_below(last).is_some()),
        None => 0,
    }
}

/// How many slots from one on are free, two at most.
fn free_just_behind(slots: &Arrangement, end: u32) -> u32
    requires some { 0 < end }
    requires inside { end ≤ length slots.now }
    ensures { result ≡ min 2 (free_behind end slots.now) }
{
    match slots.next_free_above(end - 1) {
        Some(next) => 1 + one_if(slots.next_free_above(next).is_some()),
        None => 0,
    }
}

/// How many slots from one on and before another are free.
fn free_within(slots: &Arrangement, start: u32, end: u32) -> u32
    requires few { length slots.now ≤ MOST_SLOTS }
    requires order { start < end }
    requires inside { end ≤ length slots.now }
    ensures { result + free_behind end slots.now ≡ free_behind start slots.now }
{
    let mut count = one_if(slots.at(start).is_none());
    let mut last = start;
    while let Some(next) = next_free_within(slots, last, end) {
        count += 1;
        last = next;
    }
    count
}

/// The least free slot above one and before another: a search passes 64 taken slots at a step.
fn next_free_within(slots: &Arrangement, slot: u32, end: u32) -> Option<u32>
    requires order { slot < end }
    requires inside { end ≤ length slots.now }
    ensures { IsNextFree slots.now slot end result }
{
    match slots.next_free_above(slot) {
        Some(next) => { if next < end { Some(next) } else { None } }
        None => None,
    }
}

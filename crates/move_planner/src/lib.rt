//! The moves that make room for a new entry, as a list of moves that is made before the first is carried out.
//!
//! # The one hard idea
//! A look-up answers the entry of the least slot that hits. So two entries need an order only where one packet key
//! hits both: the higher priority stands first. In an arrangement that is in order after every single move, each
//! look-up on the way finds the old answer. So an entry is copied to its new slot before anything goes over its old
//! one. Two copies of an entry are harmless, as long as both are in order; no copy at all isn't.
//!
//! # Where a new entry goes
//! Of the entries that overlap it, the last upper one and the first lower one bound a gap.
//!
//! 1. A slot of the gap is free: the entry goes into the one nearest to its aim, the lower of two. The caller says the
//!    aim: the middle of the gap, its start or its end, or a slot, which may lie in the gap or not. All that is promised
//!    holds of any aim.
//! 2. None is: the first lower entry makes way downwards or the last upper one upwards, along the shorter of two
//!    chains, and the new entry is put over the slot that this leaves.
//! 3. The last upper entry stands past the first lower one, as it may where these two don't overlap. Then a cut is made
//!    first, as below, and nothing crosses any more.
//!
//! # The cut
//! An entry to which a chain of overlapping entries of falling priority leads from the new one must stand behind it,
//! and one from which such a chain leads to the new one must stand before it. So a boundary is chosen between the first
//! lower and the last upper entry, and each entry on its wrong side passes it: along its chain to the nearest free slot
//! beyond, and its old slot is erased. The nearest on either side may be next, and the one with the shorter chain is.
//! Of the boundaries with room the one is taken that the fewest have to pass, the last of equal ones. A boundary has
//! room where the entries on either wrong side fit into the free slots beyond it and those that the other side's leave;
//! of the free slots those between the first lower and the last upper entry count, and up to two before them and up to
//! two behind them. One boundary always has room. Of chains of equal length the down chain is taken. In a table of 8
//! slots two lower entries, b and c, stand in slots 2 and 3 and an upper one, a, in slot 4:
//!
//! ```text
//! slot     0    1    2    3    4    5
//! before   .    .    b    c    a    .    before slot 2: a has to pass; behind slot 4: b and c
//! move 1   .    a    b    c    a    .    a is put into slot 1
//! move 2   .    a    b    c    .    .    its old slot is erased: the new entry belongs between slots 1 and 2
//! ```
//!
//! # Chains
//! An entry that moves to a free slot may pass one that it has to stand before. So that one moves first. A down chain
//! from a slot is that slot, then the first lower entry of the one in it, and so on, up to the first that isn't before
//! the free slot `f`. Its last member is put into `f`, then each earlier one over the slot of the one after it:
//!
//! ```text
//! f <- c3 <- c2 <- c1
//! ```
//!
//! Each of these moves passes only entries that don't overlap the one that moves, so the order holds after each. The
//! last member may as well go to any other free slot of its own gap beyond it (`landing`), for as many moves. By the
//! middle as aim it goes to the nearest. By a slot as aim it goes to the one nearest to where it belongs by its own
//! priority, where all entries that stand, the new one and those still to come have equal shares of the slots, so that
//! there is room behind it when the next one comes. By an end of the gap as aim it goes as far as it may. The up chain is
//! the mirror. In a table of 8 slots the routes 10.0.0.0/8, 10.1.2.0/24 and 10.1.0.0/16 stand in slots 3, 1
//! and 2, and 10.1.0.0/20 has to stand behind the /24 and before the /16:
//!
//! ```text
//! slot     0    1    2    3    4
//! before   .   /24  /16  /8    .     down: 4 <- 3 <- 2, two members; up: 0 <- 1, one member
//! move 1  /24  /24  /16  /8    .     the /24 is put into slot 0
//! move 2  /24  /20  /16  /8    .     the /20 is put over slot 1
//! ```
//!
//! # What is noted
//! What each move's slot held before it goes into a second list (`undo`), as the move that puts it back. So the moves can be
//! taken back, the last one first, also those of an insertion that ended for want of memory (`Moves::make_back` each).
//!
//! # What it costs
//! A chain's entries overlap one after the other at falling priorities. So with the new entry it has at most as many
//! members as the longest such chain among the live pieces has, `m`. Each entry that passes the boundary takes at most
//! `m` moves, and so does the rest: at most `m * (1 + w)` in all, `w` the number of entries on the wrong side of any
//! boundary with room. The best one has no more of them than the crossing span `c` has slots, so there are at most
//! `m * (1 + c)` moves. So `n` entries take at most `(n + 1)^2` moves. One move more than entries stand isn't enough,
//! for any way to insert: a lower entry, a free slot and an upper one, in three slots, take four. Where `p` lower
//! entries, one free slot and `q` upper ones stand in this order, all of either kind overlapping one another, a search
//! over small `p` and `q` found `(p + 1) * (q + 1)` moves to be the least.
//!
//! What is asked of the index is the list of what is above an entry or of what is below it. The gap takes one of
//! either, before the cut and again after it. The cut asks for what is below the new entry and below each entry of the
//! crossed stretch that must stand behind it, and for what is above the new entry and above each one that must stand
//! before it. No entry is among both, and one that is neither isn't asked for anything. Chains take one list for each
//! member: where a down chain and an up chain are both there they are walked in turns, a member of each, until one
//! ends, and the other goes no further. So without a cut at most two lists are asked for each move, and a cut takes at
//! most `s + 2` more, `s` the number of entries of its stretch that must stand behind the new one or before it. An
//! entry's slot is looked up, not searched for.
//!
//! A chain's list is seldom gone through to its end. The next member of a chain is also the first slot on the way to
//! the free one whose entry overlaps the member before, and is lower, or higher on the way up. So the list and the
//! slots are gone through side by side, a node and a slot at a time, and whichever ends first gives the answer: at most
//! as many of either as the list has entries, or as there are slots to the next member or to the free slot, whichever
//! is less. Where entries overlap much the lists are long, and the next member stands near.
//!
//! Of routes nothing is listed: the index is told where they stand, and answers with the slot of the last upper one and of the
//! first lower one. So a gap takes two questions, and each member of a chain one. What was told has to be right before the first
//! move alone: of routes nothing crosses, so no question comes behind a move.
//!
//! Where a chain's last member may choose its slot the index is asked for one list more, for the end of its gap, and by a
//! slot as aim for the priority of every entry that stands, once, unless one slot alone is free there.
//!
//! # What isn't promised
//! A least number of moves. The cut counts entries and not the moves that they take, and chains are taken one by one;
//! we don't know a good way to look further ahead that stays simple. The idea of ordering only entries that overlap is
//! that of D. Shah and P. Gupta, "Fast Updating Algorithms for TCAMs", IEEE Micro 21(1), 2001; the cut is our own.
//!
//! # Decided
//! - **Moves overwrite**: `k` entries of a chain move in `k` writes, and no slot is erased first.
//! - **The gap is found once, and once more behind a cut.** It is crossed where its end is before its start, and the
//!   crossing span is one less than by how much.
//! - **A crossing is undone by a cut** (`IsCut`, `Pass`, `IsPlacement` in `specs/Placement`, over
//!   `slot_moves/specs/Cuts`): each entry on the wrong side passes one boundary once, by one turn. Where instead the
//!   first lower entry moved past the last upper one, turn after turn, the same entries moved many times: over access
//!   and firewall lists of 4,096 entries, 90 % full, 4.42 writes an insertion became 2.17 by the cut, and 29.71 became
//!   14.07, the longest 234 for 5,007 and 1,152 for 14,040 (`docs/SPEED.md`). `plan_insert` promises `m` writes for
//!   each entry on the wrong side of any boundary with room, and `m` more (`cut`), no more entries on that of the
//!   boundary taken than the span has slots (`parted`), and that no other moves are the placement (`alone`). The price:
//!   two marks for each slot of the crossed stretch, and two chains for each turn.
//! - **No bound of one write more than entries stand is possible.** Take `b . a` in three slots, with a new entry that
//!   must stand behind `a` and before `b`. Slots 0, 1 and 2 all change; what stands in 0 and in 2 has no copy, and the
//!   new entry in slot 1 would stand before `a` and behind `b`. So the first write is of one of them into slot 1, which
//!   is written again for the new one: four at least, and four are enough (`a` to 1, `b` to 2, `a` to 0, the new one to
//!   1). The rule here takes six.
//! - **The boundary needs room near it, not free slots alone** (`HasRoomNear`). Where all free slots counted, entries
//!   went to far ones along chains of up to 105, in one insertion 3,986 writes for 279. With one slot on either side of
//!   the stretch in place of two the counts are about as good, but a row of five lines takes 7 writes for 6.
//! - **Of the two entries that may pass next the one with the shorter chain does**, as where nothing crosses. With all
//!   from one side first the longest insertion took more in most counts (1,456 for 419 in one), since slots that are
//!   left near the boundary weren't used again. **It goes to the nearest free slot**: to leave room for those to come
//!   saved writes in some counts and took more in others; to plan the old way too and take the better one gained up to
//!   5 % for twice the work. So `landed` is for the chain of the new entry alone.
//! - **What comes later is told by its priorities** (`coming`), since the shares are those of all entries that there are
//!   to be. Where only those that stand were counted, half of a firewall list that was replaced in one commit took up to
//!   twice the writes (`docs/DECISIONS.md`). Entries of one priority, the pieces of a rule, have one place: where they
//!   were told apart the counts were about the same.
//! - **A chain's next member is looked for along the list and along the slots at once** (`step_down`, `step_up`). Where
//!   each entry overlaps hundreds its list lies all over the memory, and each node costs a miss of the cache. Over a
//!   firewall list of 4,096 entries, 90 % full, planning took 818 and 941 µs in the mean by the lists alone, and 159
//!   and 164 µs so (two runs of each). The price is `is_above` of two ids in `overlap_index`.
#![tactic(auto)]

ghost use Rattle.std.specs.Prelude.{◌≡◌, ℕ, ◌+◌, ◌*◌, ◌^◌, ◌<◌, ◌≤◌, ◌++◌, ◌∷◌, [], List, Bool, Option, IsTrue, IsSome, IfOk, OnOk, OnErr, length, take, slice_get, slice_index_or};
ghost use Rattle.std.specs.List.{AllByRecursion};
ghost use Rattle.placement.specs.Live.{is_live, is_above, rank_in};
ghost use Rattle.slot_moves.specs.Cuts.{wrong_side, HasRoomNear};
ghost use Rattle.placement.specs.Placement.{AreSides, IsCut, IsPlacement, IsInOrder, first_lower, last_upper, gap_start, gap_end, span_of, after_move, after_moves};
ghost use Rattle.placement.specs.Insertion.{IsLive, IsOther, StandOnce, BoundsLiveChains, AreMade, free_slots, moves_since};
ghost use Rattle.move_planner.specs.Noted.{AreNoted, IsInside, as_held, back_of, backs_of, held_at, slot_of, taken_back};
ghost use Rattle.move_planner.specs.Steps.{CanMake, UndoesCrossing};
ghost use Rattle.placement.specs.Ready.{IsReady, IsTold};

mod boundary;
mod chains;
mod crossings;
mod landing;
mod places;
mod placing;
mod shorter;
mod sides;

use crossings::uncross;
pub use landing::rank_slot;
use overlap_index::Index;
use placement::{Aim, Move};
use places::{Gap, find_gap};
use placing::place;
use rule_model::Rank;
pub use sides::Sides;
use slot_order::MOST_SLOTS;
use slot_pool::Arrangement;
use std::alloc::{AllocError, Global};
use std::marker::Model;

/// What an insertion took.
#[derive(Clone, Copy, Debug, PartialEq, Eq)]
pub struct Insert {
    /// The number of moves.
    pub writes: u64,
    /// By how many slots the last upper id stood past the first lower one, 0 where it didn't.
    pub span: u32,
}

/// Moves, one after the other.
#[derive(Debug, Drop)]
pub struct Moves {
    moves: Vec<Move>,
}

impl Model for Moves {
    ghost use Rattle.std.specs.Prelude.{List};
    ghost use Rattle.placement.specs.declared.Move.{Move};

    ghost Value = { List Move };

    ghost view = { λ p. p.moves.items };
}

impl Moves {
    /// Makes an empty plan, which takes its memory from `alloc` as it grows.
    pub fn new(alloc: Global) -> Moves
        ensures { result ≡ [] }
    {
        Moves {
            moves: Vec::new(alloc),
        }
    }

    /// The number of moves.
    pub fn len(&self) -> u64
        ensures count { result ≡ length self.now }
        ensures small { result < 2 ^ 60 }
    {
        // A slice tells how many of its items there can be.
        self.moves.as_slice().len() as u64
    }

    /// The move with a number, from 0 on.
    pub fn at(&self, i: u64) -> Move
        requires { i < length self.now }
        ensures { result ≡ slice_index_or self.now i result }
    {
        self.moves[i as usize]
    }

    /// Puts a move behind the others. After a refusal the plan is as before.
    pub fn push(&mut self, step: Move) -> Result<(), AllocError>
        ensures pushed { OnOk result (self.new ≡ self.old ++ step ∷ []) }
        ensures same { OnErr result (self.new ≡ self.old) }
    {
        Ok(self.moves.push(step)?)
    }

    /// Makes all moves in an arrangement, the last one first, whatever its slots hold. Where they are the undo moves of a
    /// plan whose moves were made in it, it is then as it was before the plan.
    pub fn take_back(&self, slots: &mut Arrangement)
        requires { AllByRecursion (IsInside (length slots.old)) self.now }
        ensures exact { slots.new ≡ taken_back slots.old self.now }
        ensures back { (before : List (Option ℕ)) (moves : List Move) → slots.old ≡ after_moves before moves → self.now ≡ backs_of before moves → slots.new ≡ before }
    {
        for place in (0..self.len()).rev() {
            make_anyhow(slots, self.at(place));
        }
    }

    /// Makes the move at a place in an arrangement, whatever its slot holds. Tells what that held before, and what it holds.
    pub fn make_back(&self, slots: &mut Arrangement, place: u64) -> (Option<u32>, Option<u32>)
        requires place { place < length self.now }
        requires inside { AllByRecursion (IsInside (length slots.old)) self.now }
        ensures made { (step : Move) → slice_get self.now place ≡ Some step → slots.new ≡ after_move slots.old step }
        ensures moved { (step : Move) → slice_get self.now place ≡ Some step → (result.0 ≡ held_at slots.old step) × (result.1 ≡ held_at slots.new step) }
    {
        let step = self.at(place);
        let left = slots.at(slot_of(&step));
        make_anyhow(slots, step);
        (left, slots.at(slot_of(&step)))
    }

    /// Makes a move, as the last of the plan and in the arrangement, and notes what its slot held as the
    /// last of the undo moves. After a refusal all three are as before.
    pub(crate) fn make(
        &mut self,
        slots: &mut Arrangement,
        undo: &mut Moves,
        step: Move,
    ) -> Result<(), AllocError>
        requires { CanMake slots.old step }
        ensures plan { OnOk result (self.new ≡ self.old ++ step ∷ []) }
        ensures slots { OnOk result (slots.new ≡ after_move slots.old step) }
        ensures noted { AreNoted slots.old slots.new self.old self.new undo.old undo.new }
        ensures same_plan { OnErr result (self.new ≡ self.old) }
        ensures same_slots { OnErr result (slots.new ≡ slots.old) }
    {
        // Room comes first: once one list is longer, nothing can fail.
        self.moves.reserve(1)?;
        undo.moves.reserve(1)?;
        self.moves.push_reserved(step);
        undo.moves.push_reserved(back_of(slots, &step));
        make_in(slots, step);
        Ok(())
    }
}

/// The slot that a move writes.
fn slot_of(step: &Move) -> u32
    ensures { result ≡ slot_of step.now }
{
    match step {
        Move::Put(slot, _) => *slot,
        Move::Erase(slot) => *slot,
    }
}

/// Makes a move in an arrangement, over nothing or over an id that stands in another slot too.
fn make_in(slots: &mut Arrangement, step: Move)
    requires { CanMake slots.old step }
    ensures { slots.new ≡ after_move slots.old step }
{
    match step {
        Move::Put(slot, id) => {
            if slots.at(slot).is_none() {
                slots.put(slot, id);
            } else {
                slots.over(slot, id);
            }
        }
        Move::Erase(slot) => slots.erase(slot),
    }
}

/// Makes a move in an arrangement, whatever its slot holds.
fn make_anyhow(slots: &mut Arrangement, step: Move)
    requires { IsInside (length slots.old) step }
    ensures { slots.new ≡ after_move slots.old step }
{
    match step {
        Move::Put(slot, id) => {
            slots.erase(slot);
            slots.put(slot, id);
        }
        Move::Erase(slot) => slots.erase(slot),
    }
}

/// The move that puts back what a move's slot holds.
fn back_of(slots: &Arrangement, step: &Move) -> Move
    requires { CanMake slots.now step.now }
    ensures { result ≡ back_of slots.now step.now }
{
    match step {
        Move::Put(slot, _) => as_held(*slot, slots.at(*slot)),
        Move::Erase(slot) => as_held(*slot, slots.at(*slot)),
    }
}

/// The move that puts into a slot what is held there.
fn as_held(slot: u32, held: Option<u32>) -> Move
    ensures { result ≡ as_held slot held }
{
    match held {
        None => Move::Erase(slot),
        Some(id) => Move::Put(slot, id),
    }
}

/// Plans the moves that place a new live id with an aim, and makes them in the arrangement. `coming` has the priorities of
/// the entries that the same commit inserts later, `MOST_SLOTS` at most.
///
/// `slots` has at most `MOST_SLOTS` slots, of which one is free. `id` is live in `index` and stands in no slot; every other
/// live id stands in exactly one, and all in order. The plan gains the moves, each of which leaves the arrangement in
/// order, and at the end every live id stands in exactly one slot. The undo moves gain, in the same order, what puts
/// back what each move's slot held before it (`noted`), so that the moves can be taken back, the last one first. The
/// answer is the number of the moves and how far the last upper entry stood past the first lower one, 0 where nothing
/// crossed. With `m` a bound on the chains of live pieces there are at most `m` moves for each slot of that span and
/// `m` more (`bound`), and at most `m` for each entry on the wrong side of any boundary with room, and `m` more
/// (`cut`). The boundary that entries pass has no more of them than the span has slots (`parted`), and no other moves
/// are a placement of the id (`alone`). The one refusal is want of memory: then the arrangement is the old one after
/// the moves that the plan gained, and these are noted too.
///
/// Source: D. Shah and P. Gupta, "Fast Updating Algorithms for TCAMs", IEEE Micro 21(1), 2001; the cut is our own.
pub fn plan_insert(
    alloc: Global,
    slots: &mut Arrangement,
    index: &Index,
    id: u32,
    aim: Aim,
    coming: &[Rank],
    plan: &mut Moves,
    undo: &mut Moves,
    sides: &mut Sides,
) -> Result<Insert, AllocError>
    requires few { length slots.old ≤ MOST_SLOTS }
    requires coming { length coming.now ≤ MOST_SLOTS }
    requires free { 0 < free_slots slots.old }
    requires live { IsTrue (is_live index.now.live id) }
    requires standing { StandOnce (IsOther index.now.live id) slots.old }
    requires order { IsInOrder (is_above index.now.live) slots.old }
    requires told { IsTold index.now slots.old }
    ensures plan { plan.new ≡ plan.old ++ moves_since plan.old plan.new }
    ensures slots { slots.new ≡ after_moves slots.old (moves_since plan.old plan.new) }
    ensures noted { AreNoted slots.old slots.new plan.old plan.new undo.old undo.new }
    ensures placement { OnOk result (IsPlacement (is_above index.now.live) (rank_in index.now.live) (record { aim = aim; coming = coming.now }) id slots.old (moves_since plan.old plan.new)) }
    ensures writes { IfOk result (λ insert. insert.writes ≡ length (moves_since plan.old plan.new)) }
    ensures span { IfOk result (λ insert. insert.span ≡ span_of (is_above index.now.live) slots.old id) }
    ensures uncrossed { IfOk result (λ insert. gap_start (is_above index.now.live) slots.old id ≤ gap_end (is_above index.now.live) slots.old id → insert.span ≡ 0) }
    ensures order { OnOk result ((n : ℕ) → n ≤ length (moves_since plan.old plan.new)
        → IsInOrder (is_above index.now.live) (after_moves slots.old (take n (moves_since plan.old plan.new)))) }
    ensures standing { OnOk result (StandOnce (IsLive index.now.live) slots.new) }
    ensures bound { IfOk result (λ insert. (m : ℕ) → BoundsLiveChains index.now.live m → insert.writes ≤ m * (1 + insert.span)) }
    ensures cut { IfOk result (λ insert. (m boundary : ℕ) (behind before : ℕ → Bool) → BoundsLiveChains index.now.live m
        → AreSides (is_above index.now.live) slots.old id behind before
        → gap_end (is_above index.now.live) slots.old id ≤ boundary → boundary ≤ gap_start (is_above index.now.live) slots.old id
        → HasRoomNear behind before (gap_end (is_above index.now.live) slots.old id) (gap_start (is_above index.now.live) slots.old id) boundary slots.old
        → insert.writes ≤ m * (1 + wrong_side behind before boundary slots.old)) }
    ensures parted { IfOk result (λ insert. (behind before : ℕ → Bool) → AreSides (is_above index.now.live) slots.old id behind before
        → gap_end (is_above index.now.live) slots.old id < gap_start (is_above index.now.live) slots.old id
        → (boundary : ℕ) × IsCut (is_above index.now.live) slots.old id behind before boundary
        × (wrong_side behind before boundary slots.old ≤ insert.span)) }
    ensures alone { OnOk result ((moves : List Move) → IsPlacement (is_above index.now.live) (rank_in index.now.live) (record { aim = aim; coming = coming.now }) id slots.old moves → moves ≡ moves_since plan.old plan.new) }
    ensures free { OnOk result (free_slots slots.new + 1 ≡ free_slots slots.old) }
{
    let before = plan.len();
    let gap = find_gap(slots, index, id);
    let span = gap.span();
    let gap = clear_gap(alloc, slots, index, plan, undo, sides, id, gap)?;
    place(alloc, slots, index, plan, undo, id, aim, coming, gap)?;
    let writes = plan.len() - before;
    Ok(Insert { writes, span })
}

/// The gap of a new id, after the moves that undo its crossing, if it has one. After a refusal the moves
/// that the plan gained are made.
fn clear_gap(
    alloc: Global,
    slots: &mut Arrangement,
    index: &Index,
    plan: &mut Moves,
    undo: &mut Moves,
    sides: &mut Sides,
    id: u32,
    gap: Gap,
) -> Result<Gap, AllocError>
    requires ready { IsReady index.now id slots.old }
    requires told { IsTold index.now slots.old }
    requires straight { IsSome index.now.told → gap.start ≤ gap.end }
    requires upper { gap.upper ≡ last_upper (is_above index.now.live) slots.old id }
    requires lower { gap.lower ≡ first_lower (is_above index.now.live) slots.old id }
    requires start { gap.start ≡ gap_start (is_above index.now.live) slots.old id }
    requires end { gap.end ≡ gap_end (is_above index.now.live) slots.old id }
    ensures clear { OnOk result (UndoesCrossing index.now id slots.old slots.new plan.old plan.new) }
    ensures upper { IfOk result (λ now. now.upper ≡ last_upper (is_above index.now.live) slots.new id) }
    ensures lower { IfOk result (λ now. now.lower ≡ first_lower (is_above index.now.live) slots.new id) }
    ensures start { IfOk result (λ now. now.start ≡ gap_start (is_above index.now.live) slots.new id) }
    ensures end { IfOk result (λ now. now.end ≡ gap_end (is_above index.now.live) slots.new id) }
    ensures told { OnOk result (IsTold index.now slots.new) }
    ensures made { OnErr result (AreMade slots.old slots.new plan.old plan.new) }
    ensures noted { AreNoted slots.old slots.new plan.old plan.new undo.old undo.new }
{
    if gap.start <= gap.end {
        return Ok(gap);
    }
    uncross(alloc, slots, index, plan, undo, sides, id, gap)?;
    Ok(find_gap(slots, index, id))
}

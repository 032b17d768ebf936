//! The piece of each slot, and columns beside them by which a walk passes most slots over.

ghost use Rattle.std.specs.Prelude.{◌≡◌, ℕ, ◌+◌, ◌*◌, ◌/◌, ◌<◌, ◌≤◌, ◌^◌, ◌-◌, false, Contains, None, Some, IfOk, IfSome, IsTrue, OnErr, OnOk, length, replicate, slice_set};
ghost use Rattle.slot_order.specs.Order.{slot};
ghost use Rattle.rule_model.specs.Entry as entries;
ghost use Rattle.rule_model.specs.Entry.{RankedPiece, entry_for};
ghost use Rattle.trace_check.specs.Columns as columns;
ghost use Rattle.trace_check.specs.Columns.{AreCellsOf, IsNear, may_meet};
ghost use Rattle.trace_check.specs.Groups as groups;
ghost use Rattle.trace_check.specs.Groups.{group_count};
ghost use Rattle.trace_check.specs.Pages.{page_slots};

use crate::groups::{Group, group_of, no_groups, regroup};
use crate::known::Known;
use crate::pages::{PAGE, bounds_of, have_common, no_bounds, page_end};
use block_windows::{Span, also_apart, apart_eight, span_of};
use commit_writes::Ranked;
use eight_lanes::first_zero;
use rule_model::{Entry, Rank};
use std::alloc::{AllocError, Global};
use std::marker::Model;
use std::mem::replace;
use std::simd::prelude::*;

/// The pieces that the slots hold. Contracts see their list.
#[derive(Drop)]
pub(crate) struct Placed {
    pieces: Vec<Option<Known>>,
    // of each piece its rank in 32 bits, and the first and the last of the upper 32 bits of its destinations; where a slot
    // is empty they may be anything, and the rank is the greatest, which no piece has
    ranks: Vec<u32>,
    firsts: Vec<u32>,
    lasts: Vec<u32>,
    // of each page of slots between which numbers these ranks are
    bounds: Vec<Span>,
    // the slots of each group
    groups: Vec<Group>,
}

/// What the columns have of a slot.
#[derive(Clone, Copy)]
struct Cells {
    rank: u32,
    first: u32,
    last: u32,
}

impl Model for Placed {
    ghost use Rattle.std.specs.Prelude.{List, Option};
    ghost use Rattle.rule_model.specs.Entry.{RankedPiece};
    ghost use Rattle.trace_check.specs.Columns.{AreColumnsOf};
    ghost use Rattle.trace_check.specs.Groups.{AreGroupsOf};
    ghost use Rattle.trace_check.specs.Pages.{AreBoundsOf};

    ghost Value = { List (Option RankedPiece) };

    ghost view = { λ p. p.pieces.items };

    ghost invariant = { λ p. AreColumnsOf p.pieces.items p.ranks.items p.firsts.items p.lasts.items × AreGroupsOf p.pieces.items p.groups.items × AreBoundsOf p.pieces.items p.bounds.items };
}

impl Placed {
    /// So many empty slots.
    pub(crate) fn new(alloc: Global, slots: u32) -> Result<Placed, AllocError>
        ensures { IfOk result (λ places. places ≡ replicate slots None) }
    {
        let pieces = no_pieces(alloc, slots)?;
        let ranks = Vec::from_elem(alloc, u32::MAX, slots as usize)?;
        let firsts = Vec::from_elem(alloc, u32::MAX, slots as usize)?;
        let lasts = Vec::from_elem(alloc, 0u32, slots as usize)?;
        let bounds = no_bounds(alloc, slots as usize)?;
        let groups = no_groups(alloc)?;
        Ok(Placed {
            pieces,
            ranks,
            firsts,
            lasts,
            bounds,
            groups,
        })
    }

    /// How many slots there are.
    pub(crate) fn len(&self) -> usize
        ensures { result ≡ length self.now }
    {
        self.pieces.len()
    }

    /// The piece of a slot.
    pub(crate) fn at(&self, at: usize) -> &Option<Known>
        requires { at < length self.now }
        ensures { result.now ≡ slot self.now at }
    {
        &self.pieces[at]
    }

    /// Puts a piece into a slot, or empties it, and hands out what stood there. It fails only for want of memory, and then
    /// all stands as it did.
    pub(crate) fn set(
        &mut self,
        at: usize,
        content: Option<Known>,
    ) -> Result<Option<Known>, AllocError>
        requires { at < length self.old }
        ensures placed { OnOk result (self.new ≡ slice_set self.old at content) }
        ensures stood { IfOk result (λ stood. stood ≡ slot self.old at) }
        ensures same { OnErr result (self.new ≡ self.old) }
    {
        let goes = group_at(&self.pieces[at]);
        let comes = group_at(&content);
        regroup(&mut self.groups, at, goes, comes)?;
        let cells = cells_of(&content);
        self.ranks[at] = cells.rank;
        self.firsts[at] = cells.first;
        self.lasts[at] = cells.last;
        self.bounds[at / PAGE] = bounds_of(&self.ranks, at);
        Ok(replace(&mut self.pieces[at], content))
    }

    /// Slots among which are all that hold an entry of this value, mask and tag.
    pub(crate) fn alike(&self, entry: &Entry) -> &[usize]
        ensures { (at : ℕ) (ranked : RankedPiece) → slot self.now at ≡ Some ranked → IsTrue (entries.same_match entry.now (entry_for ranked)) → Contains result.now at }
    {
        self.groups[group_of(entry)].slots()
    }

    /// The next slot from one on, up to another, whose piece may be near: those that are passed over aren't. That a rank
    /// is below the greatest number of 32 bits may be taken for granted.
    pub(crate) fn next_near(&self, ranks: Span, windows: Span, from: usize, to: usize) -> usize
        requires from { from ≤ to }
        requires to { to ≤ length self.now }
        ensures from { from ≤ result }
        ensures most { result ≤ to }
        ensures passed { (k : ℕ) (ranked : RankedPiece) → from ≤ k → k < result → slot self.now k ≡ Some ranked
            → (columns.coarse_rank ranked.rank < 2 ^ 32 - 1 → IsNear ranks windows ranked) → ⊥ }
    {
        let mut next = from;
        while next < to {
            let end = page_end(next, to);
            let found = self.next_in_page(ranks, windows, next, end);
            let is_found = found < end;
            if is_found {
                return found;
            }
            next = end;
        }
        next
    }

    /// The same in a page, which is passed over by its bounds where these have no rank of the span.
    fn next_in_page(&self, ranks: Span, windows: Span, from: usize, to: usize) -> usize
        requires from { from < to }
        requires to { to ≤ length self.now }
        requires page { to ≤ from / page_slots * page_slots + page_slots }
        ensures from { from ≤ result }
        ensures most { result ≤ to }
        ensures passed { (k : ℕ) (ranked : RankedPiece) → from ≤ k → k < result → slot self.now k ≡ Some ranked
            → (columns.coarse_rank ranked.rank < 2 ^ 32 - 1 → IsNear ranks windows ranked) → ⊥ }
    {
        if !have_common(self.bounds[from / PAGE], ranks) {
            return to;
        }
        next_meeting(
            &self.ranks,
            &self.firsts,
            &self.lasts,
            ranks,
            windows,
            from,
            to,
        )
    }
}

/// So many slots without a piece.
fn no_pieces(alloc: Global, slots: u32) -> Result<Vec<Option<Known>>, AllocError>
    ensures { IfOk result (λ pieces. pieces.items ≡ replicate slots None) }
{
    let mut pieces = Vec::new(alloc);
    for _ in 0..slots {
        pieces.push(None)?;
    }
    Ok(pieces)
}

/// The next place from one on, up to another, that isn't passed over, eight in a step; of the last seven places none is.
fn next_meeting(
    ranks: &[u32],
    firsts: &[u32],
    lasts: &[u32],
    of_ranks: Span,
    of_windows: Span,
    from: usize,
    to: usize,
) -> usize
    requires from { from ≤ to }
    requires ranks { to ≤ length ranks.now }
    requires firsts { to ≤ length firsts.now }
    requires lasts { to ≤ length lasts.now }
    ensures from { from ≤ result }
    ensures most { result ≤ to }
    ensures passed { (k : ℕ) → from ≤ k → k < result → may_meet ranks.now firsts.now lasts.now of_ranks of_windows k ≡ false }
{
    let mut next = from;
    while to - next >= 8 {
        let apart = apart_eight(ranks, ranks, of_ranks, next);
        let before = first_zero(also_apart(apart, firsts, lasts, of_windows, next));
        if before < 8 {
            return next + before as usize;
        }
        next += 8;
    }
    next
}

/// The group of the entry that a slot holds.
fn group_at(place: &Option<Known>) -> Option<usize>
    ensures group { (ranked : RankedPiece) → place.now ≡ Some ranked → result ≡ Some (groups.group_of (entry_for ranked)) }
    ensures none { place.now ≡ None → result ≡ None }
    ensures inside { IfSome result (λ group. group < group_count) }
{
    match place {
        None => None,
        Some(known) => Some(group_of(&known.entry)),
    }
}

/// What the columns have of a piece.
fn cells_of(content: &Option<Known>) -> Cells
    ensures { (ranked : RankedPiece) → content.now ≡ Some ranked → AreCellsOf result ranked }
{
    match content {
        None => Cells {
            rank: u32::MAX,
            first: u32::MAX,
            last: 0,
        },
        Some(known) => cells_by(&known.ranked),
    }
}

/// What they have of a piece with its rank.
fn cells_by(ranked: &Ranked) -> Cells
    ensures { AreCellsOf result ranked.now }
{
    let windows = span_of(&ranked.piece.dst, 0);
    Cells {
        rank: coarse_rank(ranked.rank),
        first: windows.first,
        last: windows.last,
    }
}

/// A rank in 32 bits, in the order of ranks.
fn coarse_rank(rank: Rank) -> u32
    ensures value { result ≡ columns.coarse_rank rank }
    ensures fits { result < 2 ^ 32 - 1 }
{
    if rank.high > 0 {
        0x8000_0000 + (u32::from(rank.high) - 1) * 0x80_0000 + low_part(rank) / 512
    } else {
        low_part(rank) / 2
    }
}

/// The low part of a rank, or the greatest number of 32 bits where that is less.
fn low_part(rank: Rank) -> u32
    ensures { result ≡ columns.low_part rank }
{
    if rank.low < 1 << 32 {
        rank.low as u32
    } else {
        u32::MAX
    }
}

/// A rank and all below it.
pub(crate) fn ranks_below(rank: Rank) -> Span
    ensures { result ≡ columns.ranks_below rank }
{
    Span {
        first: 0,
        last: coarse_rank(rank),
    }
}

/// That rank and all above it.
pub(crate) fn ranks_above(rank: Rank) -> Span
    ensures { result ≡ columns.ranks_above rank }
{
    Span {
        first: coarse_rank(rank),
        last: u32::MAX - 1,
    }
}

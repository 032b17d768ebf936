//! The least and the greatest rank of the slots of each page, by which a walk passes whole pages over.

ghost use Rattle.std.specs.Prelude.{◌≡◌, ℕ, ◌+◌, ◌*◌, ◌/◌, ◌<◌, ◌≤◌, ◌^◌, ◌-◌, false, IfOk, length, slice_index};
ghost use Rattle.trace_check.specs.Pages.{IsWithin, page_slots};

use block_windows::Span;
use std::alloc::{AllocError, Global};

/// How many slots a page has.
pub(crate) const PAGE: usize = 64;

/// Bounds of the pages of so many slots.
pub(crate) fn no_bounds(alloc: Global, slots: usize) -> Result<Vec<Span>, AllocError>
    ensures { IfOk result (λ bounds. slots ≤ length bounds.items * page_slots) }
{
    Vec::from_elem(alloc, NO_RANK, slots / PAGE + 1)
}

/// Bounds that no rank is within.
const NO_RANK: Span = Span {
    first: u32::MAX,
    last: 0,
};

/// The least and the greatest of the ranks in 32 bits of a place's page, but for the greatest number, which no piece has.
pub(crate) fn bounds_of(ranks: &[u32], at: usize) -> Span
    requires { at < length ranks.now }
    ensures { (k : ℕ) → k < length ranks.now → k / page_slots ≡ at / page_slots → slice_index ranks.now k < 2 ^ 32 - 1 → IsWithin result (slice_index ranks.now k) }
{
    let end = page_end(at, ranks.len());
    let mut bounds = NO_RANK;
    for place in at / PAGE * PAGE..end {
        bounds = widened(bounds, ranks[place]);
    }
    bounds
}

/// A span with a rank in 32 bits more, but for the greatest number.
fn widened(bounds: Span, rank: u32) -> Span
    ensures kept { (n : ℕ) → IsWithin bounds n → IsWithin result n }
    ensures has { rank < 2 ^ 32 - 1 → IsWithin result rank }
{
    if rank == u32::MAX {
        return bounds;
    }
    Span {
        first: bounds.first.min(rank),
        last: bounds.last.max(rank),
    }
}

/// Whether two spans have a number in common.
pub(crate) fn have_common(a: Span, b: Span) -> bool
    ensures { result ≡ false → (n : ℕ) → IsWithin a n → IsWithin b n → ⊥ }
{
    a.first <= b.last && b.first <= a.last
}

/// Where the page of a place ends, or another place that comes before that.
pub(crate) fn page_end(at: usize, to: usize) -> usize
    requires { at < to }
    ensures further { at < result }
    ensures most { result ≤ to }
    ensures page { result ≤ at / page_slots * page_slots + page_slots }
    ensures all { (k : ℕ) → k < to → k / page_slots ≡ at / page_slots → k < result }
{
    let left = PAGE - at % PAGE;
    if to - at < left {
        return to;
    }
    at + left
}

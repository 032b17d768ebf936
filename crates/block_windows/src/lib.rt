//! Windows of 32 bits of the addresses of blocks, and searches of columns for ranges that have a number in common with
//! one, eight at a time.
//!
//! Two blocks that have an address in common have a number in common in every window of 32 bits, so any window may tell
//! them apart. The least and the greatest number of a window are a [`Span`], and those of many blocks stand in two
//! columns: a search passes over the places whose ranges are apart from a span. The same searches serve any other
//! columns of ranges, as of ports, or of one number each.
//!
//! Least and greatest numbers, and not number and mask, are kept, since the order of numbers is all that the proofs need.
#![tactic(auto)]

ghost use Rattle.std.specs.Prelude.{◌≡◌, ℕ, ◌+◌, ◌-◌, ◌/◌, ◌%◌, ◌^◌, ◌<◌, ◌≤◌, ◌==◌, ◌&&◌, length, slice_index, nat_le, false};
ghost use Rattle.block_windows.specs.Windows.{window_of, open_bits, first_of, last_of, span_of, meets_at};

use eight_lanes::{eight, either, first_zero};
use rule_model::Prefix;
use std::simd::prelude::*;

/// The least and the greatest number of a range.
#[derive(Clone, Copy)]
pub struct Span {
    pub first: u32,
    pub last: u32,
}

/// The 32 bits of the block's address that have so many before them, none of which is set past its length.
fn window(block: &Prefix, before: u8) -> u32
    requires { before ≤ 96 }
    ensures value { result ≡ window_of before block.now.addr }
    ensures no_host_bits { result % 2 ^ open_bits before block.now.len ≡ 0 }
{
    ((block.addr() >> (96 - before)) % (1 << 32)) as u32
}

/// How many numbers such a window of the block's addresses takes.
fn window_count(block: &Prefix, before: u8) -> u64
    ensures value { result ≡ 2 ^ open_bits before block.now.len }
    ensures some { 1 ≤ result }
    ensures most { result ≤ 2 ^ 32 }
{
    1u64 << 32u8.saturating_sub(block.len().saturating_sub(before))
}

/// The least number of such a window.
fn first_of(block: &Prefix, before: u8) -> u32
    requires { before ≤ 96 }
    ensures { result ≡ first_of before block.now }
{
    window(block, before)
}

/// The greatest.
fn last_of(block: &Prefix, before: u8) -> u32
    requires { before ≤ 96 }
    ensures { result ≡ last_of before block.now }
{
    window(block, before) + (window_count(block, before) - 1) as u32
}

/// The least and the greatest of what a block's addresses have in the window of 32 bits that has so many bits before it,
/// at most 96.
pub fn span_of(block: &Prefix, before: u8) -> Span
    requires { before ≤ 96 }
    ensures { result ≡ span_of before block.now }
{
    Span {
        first: first_of(block, before),
        last: last_of(block, before),
    }
}

/// Whether a span has each number, so that it tells nothing apart.
pub fn is_all(span: Span) -> bool
    ensures { result ≡ (span.first == 0 && span.last == 0xffff_ffff) }
{
    span.first == 0 && span.last == u32::MAX
}

/// Whether the range at one place of two columns has a number in common with a span.
pub fn meets_at(firsts: &[u32], lasts: &[u32], span: Span, at: usize) -> bool
    requires firsts { at < length firsts.now }
    requires lasts { at < length lasts.now }
    ensures { result ≡ meets_at firsts.now lasts.now span at }
{
    firsts[at] <= span.last && span.first <= lasts[at]
}

/// Of the eight ranges from `at` on, 0 for each that has a number in common with a span.
pub fn apart_eight(firsts: &[u32], lasts: &[u32], span: Span, at: usize) -> u32x8
    requires firsts { at + 8 ≤ length firsts.now }
    requires lasts { at + 8 ≤ length lasts.now }
    ensures len { length result ≡ 8 }
    ensures near { (k : ℕ) → k < 8 → (slice_index result k == 0) ≡ meets_at firsts.now lasts.now span (at + k) }
{
    either(
        above(eight(firsts, at), u32x8::splat(span.last)),
        above(u32x8::splat(span.first), eight(lasts, at)),
    )
}

/// 0 in the lanes that are 0 and whose ranges in one column more have a number in common with a span. A span of every
/// number tells nothing apart, so the column isn't looked at.
pub fn also_apart(apart: u32x8, firsts: &[u32], lasts: &[u32], span: Span, at: usize) -> u32x8
    requires lanes { length apart ≡ 8 }
    requires firsts { at + 8 ≤ length firsts.now }
    requires lasts { at + 8 ≤ length lasts.now }
    ensures len { length result ≡ 8 }
    ensures near { (k : ℕ) → k < 8 → (slice_index result k == 0) ≡ ((slice_index apart k == 0) && meets_at firsts.now lasts.now span (at + k)) }
{
    if is_all(span) {
        return apart;
    }
    either(apart, apart_eight(firsts, lasts, span, at))
}

/// The first place from `at` on, in steps of eight, where not all of the next eight ranges are apart from a span, or
/// fewer than eight are left.
pub fn pass_apart(firsts: &[u32], lasts: &[u32], span: Span, at: usize) -> usize
    requires firsts { at ≤ length firsts.now }
    requires lasts { length lasts.now ≡ length firsts.now }
    ensures from { at ≤ result }
    ensures most { result ≤ length firsts.now }
    ensures passed { (k : ℕ) → at ≤ k → k < result → meets_at firsts.now lasts.now span k ≡ false }
{
    let mut next = at;
    while firsts.len() - next >= 8 && first_zero(apart_eight(firsts, lasts, span, next)) == 8 {
        next += 8;
    }
    next
}

/// 0 in the lanes where the first number isn't above the second.
fn above(a: u32x8, b: u32x8) -> u32x8
    requires { (length a ≡ 8) × (length b ≡ 8) }
    ensures len { length result ≡ 8 }
    ensures lanes { (k : ℕ) → k < 8 → (slice_index result k == 0) ≡ nat_le (slice_index a k) (slice_index b k) }
{
    a.simd_gt(b).select(u32x8::splat(1), u32x8::splat(0))
}

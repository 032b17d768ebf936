//! Eight numbers of a column at a time, for searches that try eight places in one step on a vector.
//!
//! A search marks what keeps a place from being found: a number for each place that is other than 0 where it must be
//! passed over. `either` joins the marks of several tests by `|`, so a place is found where nothing is left, and
//! `first_zero` compares all eight with 0 at once and counts the lanes before the first that is 0.
#![tactic(auto)]

ghost use Rattle.std.specs.Prelude.{◌≡◌, ℕ, ◌+◌, ◌<◌, ◌≤◌, ◌==◌, ◌&&◌, true, false, length, slice_index, bit_or};

use std::simd::prelude::*;

/// The eight numbers of a column from a place on.
pub fn eight(column: &[u32], at: usize) -> u32x8
    requires { at + 8 ≤ length column.now }
    ensures len { length result ≡ 8 }
    ensures lanes { (k : ℕ) → k < 8 → slice_index result k ≡ slice_index column.now (at + k) }
{
    u32x8::from_slice(&column[at..])
}

/// The bits of either, lane by lane: 0 exactly where both are.
pub fn either(a: u32x8, b: u32x8) -> u32x8
    requires { (length a ≡ 8) × (length b ≡ 8) }
    ensures len { length result ≡ 8 }
    ensures lanes { (k : ℕ) → k < 8 → slice_index result k ≡ bit_or (slice_index a k) (slice_index b k) }
    ensures zeros { (k : ℕ) → k < 8 → (slice_index result k == 0) ≡ ((slice_index a k == 0) && (slice_index b k == 0)) }
{
    a | b
}

/// How many lanes come before the first that is 0, 8 where none is.
pub fn first_zero(a: u32x8) -> u32
    requires { length a ≡ 8 }
    ensures bound { result ≤ 8 }
    ensures before { (k : ℕ) → k < result → (slice_index a k == 0) ≡ false }
    ensures at { result < 8 → (slice_index a result == 0) ≡ true }
{
    let zeros = a.simd_eq(u32x8::splat(0)).to_bitmask();
    if zeros == 0 {
        8
    } else {
        zeros.trailing_zeros()
    }
}

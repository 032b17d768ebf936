//! Blocks beside a block, and beside each one that it lies in: all addresses but those in it, or those above it, or below it.

ghost use Rattle.std.specs.Prelude.{◌≡◌, ◌≤◌, ◌<◌, ◌^◌, ◌++◌, OnOk};
ghost use Rattle.iptables.specs.Values.{beside, number_of, numbered_block, sibling, sibling_tests, stands};

use crate::fields::{Side, block_tests};
use rule_model::Prefix;
use std::alloc::AllocError;
use written_chains::Tests;

/// Which of the blocks beside others.
#[derive(Clone, Copy, Debug, PartialEq, Eq)]
pub(crate) enum Which {
    /// All.
    All,
    /// Those that stand above what they are beside.
    Above,
    /// Those that stand below it.
    Below,
}

/// Puts tests on the addresses there in blocks beside the one of this length whose leading bits are this number, and beside
/// each one that it lies in.
pub(crate) fn put_beside(
    into: &mut Vec<Tests>,
    side: Side,
    which: Which,
    len: u8,
    number: u128,
) -> Result<(), AllocError>
    requires length { len ≤ 128 }
    requires fits { number < 2 ^ len }
    ensures { OnOk result (into.new.items ≡ into.old.items ++ beside side which len number) }
{
    let mut bits = number;
    let mut left = len;
    'lengths: while left > 0 {
        put_sibling(into, side, which, bits, left)?;
        bits /= 2;
        left -= 1;
    }
    Ok(())
}

/// Puts tests on the other half there of what a block is one half of, if it stands where it is to.
fn put_sibling(
    into: &mut Vec<Tests>,
    side: Side,
    which: Which,
    number: u128,
    len: u8,
) -> Result<(), AllocError>
    requires some { 1 ≤ len }
    requires length { len ≤ 128 }
    requires fits { number < 2 ^ len }
    ensures { OnOk result (into.new.items ≡ into.old.items ++ sibling_tests side which number len) }
{
    if stands(which, number) {
        into.push(block_tests(side, numbered_block(sibling(number), len)))?;
    }
    Ok(())
}

/// Whether a sibling stands where it is to.
fn stands(which: Which, number: u128) -> bool
    ensures { result ≡ stands which number }
{
    match which {
        Which::All => true,
        Which::Above => number % 2 == 0,
        Which::Below => number % 2 != 0,
    }
}

/// The leading bits of a block's addresses.
pub(crate) fn number_of(block: &Prefix) -> u128
    ensures value { result ≡ number_of block.now }
    ensures fits { result < 2 ^ block.now.len }
{
    if block.len() == 0 {
        return 0;
    }
    block.addr() >> (128 - block.len())
}

/// The number of the other half of what a block is one half of.
fn sibling(number: u128) -> u128
    ensures { result ≡ sibling number }
{
    if number % 2 == 0 {
        number + 1
    } else {
        number - 1
    }
}

/// The block of this length whose leading bits are this number.
fn numbered_block(number: u128, len: u8) -> Prefix
    requires some { 1 ≤ len }
    requires length { len ≤ 128 }
    requires fits { number < 2 ^ len }
    ensures { result ≡ numbered_block number len }
{
    match Prefix::v6(number << (128 - len), len) {
        Ok(block) => block,
        Err(_) => Prefix::any(),
    }
}

//! Blocks that are cut in two, joined, or evened out.

ghost use Rattle.std.specs.Prelude.{◌≡◌, ◌+◌, ◌^◌, ◌<◌, ◌≤◌, [], ◌++◌, ◌∷◌, All, drop, length, map, take, vec_capacity, vec_len};
ghost use Rattle.counted_blocks.specs.Counted.{block_at, weight_of};
ghost use Rattle.counted_blocks.specs.Cuts.{AreFilledBut, AreLoose, AreMended, split_at};

use crate::block::Block;
use crate::weights::Weights;
use crate::{BLOCK, HALF};

/// Cuts a block in two, the upper of which is taken from the stock.
pub(crate) fn split(
    blocks: &mut Vec<Block>,
    weights: &mut Weights,
    stock: &mut Vec<Block>,
    block: u32,
)
    requires within { block < length blocks.old.items }
    requires few { length blocks.old.items < 2 ^ 31 }
    requires block_room { vec_len blocks.old < vec_capacity blocks.old }
    requires weight_room { length weights.old.weights < weights.old.capacity }
    requires weighed { weights.old.weights ≡ map weight_of blocks.old.items }
    requires some { 0 < length stock.old.items }
    requires empty { All (λ block. block ≡ []) stock.old.items }
    ensures blocks { blocks.new.items ≡ split_at blocks.old.items block }
    ensures block_room { vec_capacity blocks.new ≡ vec_capacity blocks.old }
    ensures weighed { weights.new.weights ≡ map weight_of blocks.new.items }
    ensures weight_room { weights.new.capacity ≡ weights.old.capacity }
    ensures stock { length stock.new.items + 1 ≡ length stock.old.items }
    ensures empty { All (λ block. block ≡ []) stock.new.items }
    ensures stock_room { vec_capacity stock.new ≡ vec_capacity stock.old }
{
    let mut upper = stock.pop().unwrap();
    blocks[block as usize].split(&mut upper);
    let weight = blocks[block as usize].weigh();
    weights.set(block, weight);
    weights.insert(block + 1, upper.weigh());
    blocks.insert(block as usize + 1, upper).unwrap();
}

// Puts the items of a block behind those of the one before it, and the empty one into the stock.
fn join(blocks: &mut Vec<Block>, weights: &mut Weights, stock: &mut Vec<Block>, left: u32)
    requires loose { AreLoose blocks.old.items left }
    requires few { length blocks.old.items < 2 ^ 31 }
    requires fits { length (block_at blocks.old.items left) + length (block_at blocks.old.items (left + 1)) ≤ 128 }
    requires stock_room { vec_len stock.old < vec_capacity stock.old }
    requires weighed { weights.old.weights ≡ map weight_of blocks.old.items }
    ensures mended { AreMended blocks.old.items blocks.new.items }
    ensures fewer { length blocks.new.items + 1 ≡ length blocks.old.items }
    ensures block_room { vec_capacity blocks.new ≡ vec_capacity blocks.old }
    ensures weighed { weights.new.weights ≡ map weight_of blocks.new.items }
    ensures weight_room { weights.new.capacity ≡ weights.old.capacity }
    ensures stock { stock.new.items ≡ stock.old.items ++ [] ∷ [] }
    ensures stock_room { vec_capacity stock.new ≡ vec_capacity stock.old }
{
    let mut upper = blocks.remove(left as usize + 1);
    blocks[left as usize].append(&mut upper);
    let weight = blocks[left as usize].weigh();
    weights.remove(left + 1);
    weights.set(left, weight);
    stock.push_reserved(upper);
}

// Moves an item from the fuller one of two blocks to the other.
fn even(blocks: &mut Vec<Block>, left: u32)
    requires loose { AreLoose blocks.old.items left }
    requires few { length blocks.old.items < 2 ^ 31 }
    requires much { 128 < length (block_at blocks.old.items left) + length (block_at blocks.old.items (left + 1)) }
    ensures mended { AreMended blocks.old.items blocks.new.items }
    ensures same { length blocks.new.items ≡ length blocks.old.items }
    ensures others { blocks.new.items ≡ take left blocks.old.items ++ block_at blocks.new.items left ∷ block_at blocks.new.items (left + 1) ∷ drop (left + 2) blocks.old.items }
    ensures block_room { vec_capacity blocks.new ≡ vec_capacity blocks.old }
{
    let lower = blocks[left as usize].len();
    let upper = blocks[left as usize + 1].len();
    if lower < upper {
        let item = blocks[left as usize + 1].remove(0);
        blocks[left as usize].insert(lower, item);
    } else {
        let item = blocks[left as usize].remove(lower - 1);
        blocks[left as usize + 1].insert(0, item);
    }
}

// Evens two blocks out, and weighs them anew.
fn even_weighed(blocks: &mut Vec<Block>, weights: &mut Weights, left: u32)
    requires loose { AreLoose blocks.old.items left }
    requires few { length blocks.old.items < 2 ^ 31 }
    requires much { 128 < length (block_at blocks.old.items left) + length (block_at blocks.old.items (left + 1)) }
    requires weighed { weights.old.weights ≡ map weight_of blocks.old.items }
    ensures mended { AreMended blocks.old.items blocks.new.items }
    ensures same { length blocks.new.items ≡ length blocks.old.items }
    ensures block_room { vec_capacity blocks.new ≡ vec_capacity blocks.old }
    ensures weighed { weights.new.weights ≡ map weight_of blocks.new.items }
    ensures weight_room { weights.new.capacity ≡ weights.old.capacity }
{
    even(blocks, left);
    let lower = blocks[left as usize].weigh();
    let upper = blocks[left as usize + 1].weigh();
    weights.set(left, lower);
    weights.set(left + 1, upper);
}

// Mends two blocks of which one has an item too few: they are joined where one has room for both, and else evened out.
fn mend_pair(blocks: &mut Vec<Block>, weights: &mut Weights, stock: &mut Vec<Block>, left: u32)
    requires loose { AreLoose blocks.old.items left }
    requires few { length blocks.old.items < 2 ^ 31 }
    requires stock_room { vec_len stock.old < vec_capacity stock.old }
    requires weighed { weights.old.weights ≡ map weight_of blocks.old.items }
    requires empty { All (λ block. block ≡ []) stock.old.items }
    ensures mended { AreMended blocks.old.items blocks.new.items }
    ensures many { length blocks.new.items + length stock.new.items ≡ length blocks.old.items + length stock.old.items }
    ensures block_room { vec_capacity blocks.new ≡ vec_capacity blocks.old }
    ensures weighed { weights.new.weights ≡ map weight_of blocks.new.items }
    ensures weight_room { weights.new.capacity ≡ weights.old.capacity }
    ensures empty { All (λ block. block ≡ []) stock.new.items }
    ensures stock_room { vec_capacity stock.new ≡ vec_capacity stock.old }
{
    let lower = blocks[left as usize].len();
    let upper = blocks[left as usize + 1].len();
    if lower + upper <= BLOCK {
        join(blocks, weights, stock, left);
    } else {
        even_weighed(blocks, weights, left);
    }
}

/// Mends a block that may have an item too few, with the one behind it, or the one before it where it is the last.
pub(crate) fn mend(
    blocks: &mut Vec<Block>,
    weights: &mut Weights,
    stock: &mut Vec<Block>,
    block: u32,
)
    requires but { AreFilledBut blocks.old.items block }
    requires few { length blocks.old.items < 2 ^ 31 }
    requires stock_room { 1 < length blocks.old.items → vec_len stock.old < vec_capacity stock.old }
    requires weighed { weights.old.weights ≡ map weight_of blocks.old.items }
    requires empty { All (λ block. block ≡ []) stock.old.items }
    ensures mended { AreMended blocks.old.items blocks.new.items }
    ensures many { length blocks.new.items + length stock.new.items ≡ length blocks.old.items + length stock.old.items }
    ensures block_room { vec_capacity blocks.new ≡ vec_capacity blocks.old }
    ensures weighed { weights.new.weights ≡ map weight_of blocks.new.items }
    ensures weight_room { weights.new.capacity ≡ weights.old.capacity }
    ensures empty { All (λ block. block ≡ []) stock.new.items }
    ensures stock_room { vec_capacity stock.new ≡ vec_capacity stock.old }
{
    let last = blocks.len() as u32 - 1;
    if last == 0 || blocks[block as usize].len() >= HALF {
        return;
    }
    mend_pair(blocks, weights, stock, block.min(last - 1));
}

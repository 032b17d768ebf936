//! An ordered list of numbered items, each with a size, that is changed at any place in few steps.
//!
//! The items stand in blocks of at most 128, and of at least 64 where there is more than one. Beside the blocks stands
//! how many items each has and what they come to in size, and the same of each 32 blocks: so a place is found, and what stands
//! before it is told, by the groups, the blocks of one and a part of a block. A change shifts the items of one block. A block
//! that is full is cut in two, and one with fewer than 64 is joined with its neighbour or takes an item of it.
//!
//! Memory is taken by `reserve`, never by a change; contracts see how many items more have theirs as `room`. The blocks are
//! seen too, so that a search can go by their first items.
#![tactic(auto)]

ghost use Rattle.std.specs.Prelude.{◌≡◌, ◌↔◌, ◌+◌, ◌*◌, ◌^◌, ◌<◌, ◌≤◌, [], All, IsTrue, Some, OnOk, length, slice_get, take, vec_capacity, vec_len};
ghost use Rattle.std.specs.List.{insert, remove};
ghost use Rattle.counted_blocks.specs.Counted.{AreFilled, HasPlace, IsSpot, block_at, items_of, size_of, start_of};

use std::alloc::{AllocError, Global};
use std::marker::Model;

mod block;
mod cuts;
mod weights;

use block::Block;
use cuts::{mend, split};
use weights::{Weight, Weights};

/// The most items of a block.
pub(crate) const BLOCK: u32 = 128;

/// The least items of a block where there is more than one.
pub(crate) const HALF: u32 = 64;

/// A number, and the size that it stands for.
#[derive(Clone, Copy, Debug, PartialEq, Eq)]
pub struct Item {
    pub key: u32,
    pub size: u16,
}

/// Where a place is: in which block, and how many items stand before that block.
#[derive(Clone, Copy, Debug, PartialEq, Eq)]
pub struct Spot {
    pub block: u32,
    pub start: u32,
}

/// A list of items in blocks.
#[derive(Drop)]
pub struct CountedBlocks {
    blocks: Vec<Block>,
    // How many items each block has, and what they come to.
    weights: Weights,
    // Empty blocks for those to come.
    stock: Vec<Block>,
    alloc: Global,
    // How many items there are in all, and what they come to.
    len: u32,
    size: u64,
}

impl Model for CountedBlocks {
    ghost use Rattle.std.specs.Prelude.{vec_capacity};
    ghost use Rattle.counted_blocks.specs.Counted.{Counted, IsCounted, room_of};

    ghost Value = { Counted };

    ghost view = { λ s. record { blocks = s.blocks.items; room = room_of s.blocks.items s.stock.items } };

    ghost invariant = { λ s. IsCounted s.blocks.items (vec_capacity s.blocks) s.weights s.stock.items (vec_capacity s.stock) s.len s.size };
}

// A size in a wider type.
fn wide(size: u16) -> u64
    ensures value { result ≡ size }
    ensures most { result ≤ 65535 }
{
    u64::from(size)
}

// The half of a block of 128 items that a place of it falls into.
fn half_of(spot: Spot, place: u32) -> Spot
    requires from { spot.start ≤ place }
    requires few { spot.block < 2 ^ 31 }
    ensures lower { place < spot.start + 64 → result ≡ spot }
    ensures upper { spot.start + 64 ≤ place → result.block ≡ spot.block + 1 }
    ensures start { spot.start + 64 ≤ place → result.start ≡ spot.start + 64 }
{
    if place - spot.start < HALF {
        return spot;
    }
    Spot {
        block: spot.block + 1,
        start: spot.start + HALF,
    }
}

// Makes a stock have so many blocks, in the room that is there for them.
fn fill(stock: &mut Vec<Block>, alloc: Global, wanted: usize) -> Result<(), AllocError>
    requires few { vec_len stock.old ≤ wanted }
    requires room { wanted ≤ vec_capacity stock.old }
    requires empty { All (λ block. block ≡ []) stock.old.items }
    ensures empty { All (λ block. block ≡ []) stock.new.items }
    ensures many { OnOk result (length stock.new.items ≡ wanted) }
    ensures least { length stock.old.items ≤ length stock.new.items }
    ensures most { length stock.new.items ≤ wanted }
    ensures capacity { vec_capacity stock.new ≡ vec_capacity stock.old }
{
    while stock.len() < wanted {
        let block = Block::new(alloc)?;
        stock.push_reserved(block);
    }
    Ok(())
}

impl CountedBlocks {
    /// A list without items. It takes no memory yet.
    pub fn new(alloc: Global) -> CountedBlocks
        ensures blocks { result.blocks ≡ [] }
        ensures room { result.room ≡ 0 }
    {
        CountedBlocks {
            blocks: Vec::new(alloc),
            weights: Weights::new(alloc),
            stock: Vec::new(alloc),
            alloc,
            len: 0,
            size: 0,
        }
    }

    /// Takes memory for `n` items more, so that as many insertions need none.
    pub fn reserve(&mut self, n: u32) -> Result<(), AllocError>
        requires { length (items_of self.old.blocks) + n < 2 ^ 32 }
        ensures blocks { self.new.blocks ≡ self.old.blocks }
        ensures enough { OnOk result (n ≤ self.new.room) }
        ensures least { self.old.room ≤ self.new.room }
    {
        let wanted = (self.len + n) as usize / HALF as usize + 1;
        let there = self.blocks.len() + self.stock.len();
        if wanted <= there {
            return Ok(());
        }
        self.stock_up(wanted)
    }

    // Takes memory for so many blocks in all.
    fn stock_up(&mut self, wanted: usize) -> Result<(), AllocError>
        requires { wanted < 2 ^ 32 }
        ensures blocks { self.new.blocks ≡ self.old.blocks }
        ensures enough { OnOk result (64 * wanted ≤ length (items_of self.new.blocks) + self.new.room) }
        ensures least { self.old.room ≤ self.new.room }
    {
        let more = wanted.saturating_sub(self.blocks.len() + self.stock.len());
        self.blocks.reserve(self.stock.len() + more)?;
        self.weights.reserve(self.stock.len() + more)?;
        self.stock.reserve(self.blocks.len() + more)?;
        let full = self.stock.len() + more;
        fill(&mut self.stock, self.alloc, full)
    }

    /// How many items there are.
    pub fn len(&self) -> u32
        ensures { result ≡ length (items_of self.now.blocks) }
    {
        self.len
    }

    /// What they come to in size.
    pub fn size(&self) -> u64
        ensures size { result ≡ size_of (items_of self.now.blocks) }
        ensures most { result ≤ 65535 * length (items_of self.now.blocks) }
    {
        self.size
    }

    /// Whether there is no item.
    pub fn is_empty(&self) -> bool
        ensures { IsTrue result ↔ (items_of self.now.blocks ≡ []) }
    {
        self.len == 0
    }

    /// How many blocks there are.
    pub fn block_count(&self) -> u32
        ensures count { result ≡ length self.now.blocks }
        ensures filled { AreFilled self.now.blocks }
    {
        self.blocks.len() as u32
    }

    /// How many items a block has.
    pub fn block_len(&self, block: u32) -> u32
        requires { block < length self.now.blocks }
        ensures { result ≡ length (block_at self.now.blocks block) }
    {
        self.blocks[block as usize].len()
    }

    /// How many items stand before a block.
    pub fn start(&self, block: u32) -> u32
        requires { block ≤ length self.now.blocks }
        ensures start { result ≡ start_of self.now.blocks block }
        ensures most { result ≤ length (items_of self.now.blocks) }
    {
        self.weights.before(block).count as u32
    }

    /// The item at a place of a block.
    pub fn item(&self, block: u32, i: u32) -> Item
        requires block { block < length self.now.blocks }
        requires place { i < length (block_at self.now.blocks block) }
        ensures { slice_get (block_at self.now.blocks block) i ≡ Some result }
    {
        self.blocks[block as usize].at(i)
    }

    /// The block of a place.
    pub fn find(&self, place: u32) -> Spot
        requires some { 0 < length self.now.blocks }
        requires place { place ≤ length (items_of self.now.blocks) }
        ensures spot { IsSpot self.now.blocks place result.block result.start }
        ensures inside { HasPlace self.now.blocks place result.block result.start }
    {
        self.weights.find(place)
    }

    /// The item at a place.
    pub fn at(&self, place: u32) -> Item
        requires { place < length (items_of self.now.blocks) }
        ensures { slice_get (items_of self.now.blocks) place ≡ Some result }
    {
        let spot = self.find(place);
        self.item(spot.block, place - spot.start)
    }

    /// What the items before a place come to in size.
    pub fn size_before(&self, place: u32) -> u64
        requires { place ≤ length (items_of self.now.blocks) }
        ensures size { result ≡ size_of (take place (items_of self.now.blocks)) }
    {
        if place == 0 {
            return 0;
        }
        let spot = self.find(place);
        self.weights.before(spot.block).size
            + self.blocks[spot.block as usize].size_before(place - spot.start)
    }

    /// Puts an item at a place.
    pub fn insert(&mut self, place: u32, item: Item)
        requires place { place ≤ length (items_of self.old.blocks) }
        requires room { 0 < self.old.room }
        requires few { length (items_of self.old.blocks) + 1 < 2 ^ 32 }
        ensures items { items_of self.new.blocks ≡ insert (items_of self.old.blocks) place item }
        ensures room { self.new.room + 1 ≡ self.old.room }
    {
        self.begin();
        let spot = self.loosen(place);
        self.put(spot.block, place - spot.start, item);
    }

    // Takes a first block from the stock, where there is none.
    fn begin(&mut self)
        requires { 0 < self.old.room }
        ensures some { 0 < length self.new.blocks }
        ensures items { items_of self.new.blocks ≡ items_of self.old.blocks }
        ensures room { self.new.room ≡ self.old.room }
    {
        if self.blocks.is_empty() {
            let block = self.stock.pop().unwrap();
            self.weights.insert(0, block.weigh());
            self.blocks.push_reserved(block);
        }
    }

    // The block of a place, which is cut in two before if it is full.
    fn loosen(&mut self, place: u32) -> Spot
        requires some { 0 < length self.old.blocks }
        requires place { place ≤ length (items_of self.old.blocks) }
        requires room { 0 < self.old.room }
        ensures items { items_of self.new.blocks ≡ items_of self.old.blocks }
        ensures room { self.new.room ≡ self.old.room }
        ensures spot { IsSpot self.new.blocks place result.block result.start }
        ensures loose { length (block_at self.new.blocks result.block) < 128 }
    {
        let spot = self.find(place);
        if self.blocks[spot.block as usize].len() < BLOCK {
            return spot;
        }
        split(
            &mut self.blocks,
            &mut self.weights,
            &mut self.stock,
            spot.block,
        );
        half_of(spot, place)
    }

    // Puts an item at a place of a block that has room.
    fn put(&mut self, block: u32, i: u32, item: Item)
        requires block { block < length self.old.blocks }
        requires place { i ≤ length (block_at self.old.blocks block) }
        requires loose { length (block_at self.old.blocks block) < 128 }
        requires room { 0 < self.old.room }
        requires few { length (items_of self.old.blocks) + 1 < 2 ^ 32 }
        ensures items { items_of self.new.blocks ≡ insert (items_of self.old.blocks) (start_of self.old.blocks block + i) item }
        ensures room { self.new.room + 1 ≡ self.old.room }
    {
        self.blocks[block as usize].insert(i, item);
        let weight = self.weights.at(block);
        let size = wide(item.size);
        let more = Weight {
            count: weight.count + 1,
            size: weight.size + size,
        };
        self.weights.set(block, more);
        self.len += 1;
        self.size += size;
    }

    /// Takes the item at a place out. Its room stays for another.
    pub fn remove(&mut self, place: u32) -> Item
        requires { place < length (items_of self.old.blocks) }
        ensures value { slice_get (items_of self.old.blocks) place ≡ Some result }
        ensures items { items_of self.new.blocks ≡ remove (items_of self.old.blocks) place }
        ensures room { self.new.room ≡ self.old.room + 1 }
    {
        let spot = self.find(place);
        self.take(spot.block, place - spot.start)
    }

    // Takes the item at a place of a block out.
    fn take(&mut self, block: u32, i: u32) -> Item
        requires block { block < length self.old.blocks }
        requires place { i < length (block_at self.old.blocks block) }
        ensures value { slice_get (block_at self.old.blocks block) i ≡ Some result }
        ensures items { items_of self.new.blocks ≡ remove (items_of self.old.blocks) (start_of self.old.blocks block + i) }
        ensures room { self.new.room ≡ self.old.room + 1 }
    {
        let item = self.blocks[block as usize].remove(i);
        let weight = self.weights.at(block);
        let size = wide(item.size);
        let less = Weight {
            count: weight.count - 1,
            size: weight.size - size,
        };
        self.weights.set(block, less);
        self.len -= 1;
        self.size -= size;
        mend(&mut self.blocks, &mut self.weights, &mut self.stock, block);
        item
    }
}

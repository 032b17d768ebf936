//! A block of items.

ghost use Rattle.std.specs.Prelude.{◌≡◌, ◌+◌, ◌*◌, ◌<◌, ◌≤◌, [], ◌++◌, IfOk, Some, length, slice_get, take, drop};
ghost use Rattle.std.specs.List.{insert, remove};
ghost use Rattle.counted_blocks.specs.Counted as counted;
ghost use Rattle.counted_blocks.specs.Finding.{IsLight};

use crate::weights::Weight;
use crate::{BLOCK, HALF, Item};
use std::alloc::{AllocError, Global};
use std::marker::Model;

/// At most 128 items, whose memory is there from the start.
#[derive(Drop)]
pub(crate) struct Block {
    items: Vec<Item>,
}

impl Model for Block {
    ghost use Rattle.std.specs.Prelude.{List, ◌≤◌, vec_capacity, length};
    ghost use Rattle.counted_blocks.specs.declared.Item.{Item};
    ghost use Rattle.counted_blocks.specs.Blocks.{IsBlock};

    ghost Value = { List Item };

    ghost view = { λ b. b.items.items };

    ghost invariant = { λ b. IsBlock b.items.items (vec_capacity b.items) };
}

/// What some items come to in size.
pub(crate) fn sizes(items: &[Item]) -> u64
    requires { length items.now ≤ 128 }
    ensures size { result ≡ counted.size_of items.now }
    ensures most { result ≤ 65535 * length items.now }
{
    let mut total = 0;
    for item in items {
        total += u64::from(item.size);
    }
    total
}

impl Block {
    /// An empty block.
    pub(crate) fn new(alloc: Global) -> Result<Block, AllocError>
        ensures { IfOk result (λ block. block ≡ []) }
    {
        Ok(Block {
            items: Vec::with_capacity(alloc, BLOCK as usize)?,
        })
    }

    /// How many items there are.
    pub(crate) fn len(&self) -> u32
        ensures count { result ≡ length self.now }
        ensures most { result ≤ 128 }
    {
        self.items.len() as u32
    }

    /// The item at a place.
    pub(crate) fn at(&self, i: u32) -> Item
        requires { i < length self.now }
        ensures { slice_get self.now i ≡ Some result }
    {
        self.items[i as usize]
    }

    /// Puts an item at a place.
    pub(crate) fn insert(&mut self, i: u32, item: Item)
        requires place { i ≤ length self.old }
        requires room { length self.old < 128 }
        ensures { self.new ≡ insert self.old i item }
    {
        self.items.insert(i as usize, item).unwrap();
    }

    /// Takes the item at a place out.
    pub(crate) fn remove(&mut self, i: u32) -> Item
        requires { i < length self.old }
        ensures value { slice_get self.old i ≡ Some result }
        ensures items { self.new ≡ remove self.old i }
    {
        self.items.remove(i as usize)
    }

    /// Gives the items behind the first 64 to an empty block.
    pub(crate) fn split(&mut self, upper: &mut Block)
        requires { upper.old ≡ [] }
        ensures lower { self.new ≡ take 64 self.old }
        ensures upper { upper.new ≡ drop 64 self.old }
    {
        let half = (HALF as usize).min(self.items.len());
        upper.items.extend_from_slice(&self.items[half..]).unwrap();
        self.items.truncate(half);
    }

    /// Takes the items of another block behind its own.
    pub(crate) fn append(&mut self, upper: &mut Block)
        requires { length self.old + length upper.old ≤ 128 }
        ensures lower { self.new ≡ self.old ++ upper.old }
        ensures upper { upper.new ≡ [] }
    {
        self.items.append(&mut upper.items).unwrap();
    }

    /// How many items there are, and what they come to.
    pub(crate) fn weigh(&self) -> Weight
        ensures weight { result ≡ counted.weight_of self.now }
        ensures light { IsLight result }
    {
        Weight {
            count: self.items.len() as u64,
            size: sizes(&self.items),
        }
    }

    /// What the items before a place come to in size.
    pub(crate) fn size_before(&self, i: u32) -> u64
        requires { i ≤ length self.now }
        ensures size { result ≡ counted.size_of (take i self.now) }
        ensures most { result ≤ 65535 * i }
    {
        sizes(&self.items[..i as usize])
    }
}

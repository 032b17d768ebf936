//! What stands beside each block: how many items it has, and what they come to; and the same of each group of 32 blocks. So
//! what stands before a block is told by the groups before its own, and by the blocks before it in this one.

ghost use Rattle.std.specs.Prelude.{◌≡◌, ◌+◌, ◌*◌, ◌^◌, ◌<◌, ◌≤◌, [], All, OnOk, Some, length, slice_get, slice_set, take, vec_capacity};
ghost use Rattle.std.specs.List.{insert, remove};
ghost use Rattle.counted_blocks.specs.Counted.{count_sum, size_sum};
ghost use Rattle.counted_blocks.specs.Finding.{AreGrouped, AreSums, Fits, IsFound, IsLight, group_at, weight_sum};

use crate::Spot;
use std::alloc::{AllocError, Global};
use std::marker::Model;

/// How many blocks a group has; the last one may have fewer.
const GROUP: usize = 32;

/// A number of items, and what they come to in size.
#[derive(Clone, Copy, Debug, PartialEq, Eq)]
pub(crate) struct Weight {
    pub(crate) count: u64,
    pub(crate) size: u64,
}

/// The weights of the blocks, in their order.
#[derive(Drop)]
pub(crate) struct Weights {
    weights: Vec<Weight>,
    // What each group of blocks comes to.
    groups: Vec<Weight>,
}

impl Model for Weights {
    ghost use Rattle.std.specs.Prelude.{min, ◌*◌, vec_capacity};
    ghost use Rattle.counted_blocks.specs.Counted.{Weighed};
    ghost use Rattle.counted_blocks.specs.Finding.{IsWeighed};

    ghost Value = { Weighed };

    ghost view = { λ w. record { weights = w.weights.items; capacity = min (vec_capacity w.weights) (32 * vec_capacity w.groups) } };

    ghost invariant = { λ w. IsWeighed w.weights.items w.groups.items };
}

// What some weights come to.
fn sum(weights: &[Weight]) -> Weight
    requires { Fits weights.now }
    ensures { result ≡ weight_sum weights.now }
{
    let mut count = 0;
    let mut size = 0;
    for weight in weights {
        count += weight.count;
        size += weight.size;
    }
    Weight { count, size }
}

// The block of a place, the last one for the place behind all, and how many items stand before it.
fn find(weights: &[Weight], place: u64) -> (u32, u64)
    requires fits { Fits weights.now }
    requires some { 0 < length weights.now }
    requires few { length weights.now ≤ 2 ^ 31 }
    requires place { place ≤ count_sum weights.now }
    ensures { IsFound weights.now place result.0 result.1 }
{
    let last = weights.len() as u32 - 1;
    let mut block = 0;
    let mut start = 0;
    while block < last && start + weights[block as usize].count <= place {
        start += weights[block as usize].count;
        block += 1;
    }
    (block, start)
}

// The weights of a group.
fn group_of(weights: &[Weight], group: usize) -> &[Weight]
    requires { 32 * group ≤ length weights.now }
    ensures { result.now ≡ group_at weights.now group }
{
    let from = GROUP * group;
    let to = weights.len().min(from + GROUP);
    &weights[from..to]
}

// Sums the groups from one on anew.
fn regroup(weights: &[Weight], groups: &mut Vec<Weight>, from: usize)
    requires few { length weights.now ≤ 2 ^ 31 }
    requires light { All IsLight weights.now }
    requires from { from ≤ length groups.old.items }
    requires within { 32 * from < length weights.now + 32 }
    requires room { length weights.now ≤ 32 * vec_capacity groups.old }
    requires known { AreSums weights.now groups.old.items from }
    ensures grouped { AreGrouped weights.now groups.new.items }
    ensures capacity { vec_capacity groups.new ≡ vec_capacity groups.old }
{
    groups.truncate(from);
    while GROUP * groups.len() < weights.len() {
        let weight = sum(group_of(weights, groups.len()));
        groups.push_reserved(weight);
    }
}

impl Weights {
    /// No weights. It takes no memory yet.
    pub(crate) fn new(alloc: Global) -> Weights
        ensures { result.weights ≡ [] }
    {
        Weights {
            weights: Vec::new(alloc),
            groups: Vec::new(alloc),
        }
    }

    /// Takes memory for some weights more.
    pub(crate) fn reserve(&mut self, more: usize) -> Result<(), AllocError>
        ensures same { self.new.weights ≡ self.old.weights }
        ensures enough { OnOk result (length self.old.weights + more ≤ self.new.capacity) }
        ensures least { self.old.capacity ≤ self.new.capacity }
    {
        self.weights.reserve(more)?;
        let groups = (self.weights.len() + more) / GROUP + 1;
        self.groups
            .reserve(groups.saturating_sub(self.groups.len()))
    }

    /// The weight of a block.
    pub(crate) fn at(&self, block: u32) -> Weight
        requires { block < length self.now.weights }
        ensures { slice_get self.now.weights block ≡ Some result }
    {
        self.weights[block as usize]
    }

    /// Gives a block another weight.
    pub(crate) fn set(&mut self, block: u32, weight: Weight)
        requires block { block < length self.old.weights }
        requires light { IsLight weight }
        ensures weights { self.new.weights ≡ slice_set self.old.weights block weight }
        ensures capacity { self.new.capacity ≡ self.old.capacity }
    {
        self.weights[block as usize] = weight;
        let group = block as usize / GROUP;
        self.groups[group] = sum(group_of(&self.weights, group));
    }

    /// Puts the weight of a block among the others.
    pub(crate) fn insert(&mut self, block: u32, weight: Weight)
        requires place { block ≤ length self.old.weights }
        requires few { length self.old.weights < 2 ^ 31 }
        requires room { length self.old.weights < self.old.capacity }
        requires light { IsLight weight }
        ensures weights { self.new.weights ≡ insert self.old.weights block weight }
        ensures capacity { self.new.capacity ≡ self.old.capacity }
    {
        self.weights.insert(block as usize, weight).unwrap();
        regroup(&self.weights, &mut self.groups, block as usize / GROUP);
    }

    /// Takes the weight of a block out.
    pub(crate) fn remove(&mut self, block: u32)
        requires { block < length self.old.weights }
        ensures weights { self.new.weights ≡ remove self.old.weights block }
        ensures capacity { self.new.capacity ≡ self.old.capacity }
    {
        self.weights.remove(block as usize);
        regroup(&self.weights, &mut self.groups, block as usize / GROUP);
    }

    /// What the blocks before one come to.
    pub(crate) fn before(&self, block: u32) -> Weight
        requires { block ≤ length self.now.weights }
        ensures { result ≡ weight_sum (take block self.now.weights) }
    {
        let group = block as usize / GROUP;
        let whole = sum(&self.groups[..group]);
        let part = sum(&self.weights[GROUP * group..block as usize]);
        Weight {
            count: whole.count + part.count,
            size: whole.size + part.size,
        }
    }

    /// The block of a place, the last one for the place behind all.
    pub(crate) fn find(&self, place: u32) -> Spot
        requires some { 0 < length self.now.weights }
        requires place { place ≤ count_sum self.now.weights }
        ensures { IsFound self.now.weights place result.block result.start }
    {
        let (group, front) = find(&self.groups, u64::from(place));
        let (block, start) = find(
            group_of(&self.weights, group as usize),
            u64::from(place) - front,
        );
        Spot {
            block: GROUP as u32 * group + block,
            start: (front + start) as u32,
        }
    }
}

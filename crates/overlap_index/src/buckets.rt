//! The live ids in buckets, found by a piece and its priority.
//!
//! There are as many buckets as ids. A piece and its priority lead to one of them by a number that is the same whenever it
//! is computed, so an id can only be in the bucket of its own piece and priority. The ids of a bucket follow one another by
//! what is written at each, the one that came last first. All of that is one row of numbers, made once: what follows each
//! id, and behind these the first id of each bucket, so that to come and to go take no memory and can't fail.
ghost use Rattle.std.specs.Prelude.{◌≡◌, ◌+◌, ◌<◌, ◌≤◌, ℕ, length, IfOk};
ghost use Rattle.std.specs.Iterator.{YieldsFirst, item_count};
ghost use Rattle.overlap_index.specs.Buckets.{IsOnPath, before_of, bucket_of, ids_in, mixed, next_of, no_links, with_first, without_link};

use rule_model::{Piece, Rank};
use slot_order::MOST_SLOTS;
use std::alloc::{AllocError, Global};
use std::marker::Model;

/// No id.
const NIL: u32 = 0xffff_ffff;

/// What the low part of a priority is multiplied by: an odd number whose bits show no pattern.
const LOW_FACTOR: u128 = 0x9e37_79b9_7f4a_7c15_f39c_c060_5ced_c835;

/// What its high part and the ports are multiplied by, likewise.
const REST_FACTOR: u128 = 0x243f_6a88_85a3_08d3_1319_8a2e_0370_7345;

/// Some ids below a number, each in a bucket.
#[derive(Drop)]
pub(crate) struct Buckets {
    // The number that ids are below, and the number of buckets.
    slots: u32,
    // What follows each id in its bucket, and behind these the first id of each bucket.
    nexts: Vec<u32>,
}

impl Model for Buckets {
    ghost use Rattle.std.specs.Prelude.{◌≡◌, ◌+◌, ◌≤◌, length};
    ghost use Rattle.slot_order.specs.Order.{most_slots};
    ghost use Rattle.overlap_index.specs.Buckets.{Links};

    ghost Value = { Links };

    ghost view = { λ b. record { slots = b.slots; nexts = b.nexts.items } };

    ghost invariant = { λ b. (1 ≤ b.slots) × (b.slots ≤ most_slots) × (length b.nexts.items ≡ b.slots + b.slots) };
}

impl Buckets {
    /// As many empty buckets as ids.
    pub(crate) fn new(alloc: Global, slots: u32) -> Result<Buckets, AllocError>
        requires { (1 ≤ slots) × (slots ≤ MOST_SLOTS) }
        ensures { IfOk result (λ buckets. buckets ≡ no_links slots) }
    {
        let nexts = Vec::from_elem(alloc, NIL, slots as usize + slots as usize)?;
        Ok(Buckets { slots, nexts })
    }

    /// An id comes into the bucket of its piece and its priority, as the first.
    pub(crate) fn came(&mut self, id: u32, piece: &Piece, priority: Rank)
        requires { id < self.old.slots }
        ensures { self.new ≡ with_first self.old (bucket_of self.old.slots piece.now priority) id }
    {
        let bucket = bucket_of(self.slots, piece, priority);
        self.nexts[id as usize] = self.nexts[bucket as usize];
        self.nexts[bucket as usize] = id;
    }

    /// An id goes from the bucket of its piece and its priority: what followed it follows the one before it.
    pub(crate) fn went(&mut self, id: u32, piece: &Piece, priority: Rank)
        requires small { id < self.old.slots }
        requires ends { IsOnPath self.old.nexts (next_of self.old.nexts (bucket_of self.old.slots piece.now priority)) }
        ensures { self.new ≡ without_link self.old (bucket_of self.old.slots piece.now priority) id }
    {
        let bucket = bucket_of(self.slots, piece, priority);
        let before = self.before(bucket, id);
        self.nexts[before as usize] = self.nexts[id as usize];
    }

    /// The ids in the bucket of a piece and its priority.
    pub(crate) fn ids(&self, piece: &Piece, priority: Rank) -> Bucket<'_>
        requires { IsOnPath self.now.nexts (next_of self.now.nexts (bucket_of self.now.slots piece.now priority)) }
        ensures { result ≡ ids_in self.now (bucket_of self.now.slots piece.now priority) }
    {
        self.from(bucket_of(self.slots, piece, priority))
    }

    /// The ids in a bucket.
    fn from(&self, bucket: u32) -> Bucket<'_>
        requires inside { bucket < length self.now.nexts }
        requires ends { IsOnPath self.now.nexts (next_of self.now.nexts bucket) }
        ensures { result ≡ ids_in self.now bucket }
    {
        Bucket {
            nexts: self.nexts.as_slice(),
            at: self.nexts[bucket as usize],
        }
    }

    /// The id before one in a bucket, or the bucket where that is its first.
    fn before(&self, bucket: u32, id: u32) -> u32
        requires inside { bucket < length self.now.nexts }
        requires ends { IsOnPath self.now.nexts (next_of self.now.nexts bucket) }
        ensures before { result ≡ before_of bucket (ids_in self.now bucket) id }
        ensures inside { result < length self.now.nexts }
    {
        let mut before = bucket;
        for other in self.from(bucket) {
            if other == id {
                return before;
            }
            before = other;
        }
        before
    }
}

/// The ids of a bucket, seen as the list of those that are left.
#[derive(Drop)]
pub(crate) struct Bucket<'a> {
    nexts: &'a [u32],
    // The next one.
    at: u32,
}

impl<'a> Model for Bucket<'a> {
    ghost use Rattle.std.specs.Prelude.{List, ℕ, length};
    ghost use Rattle.overlap_index.specs.Buckets.{IsOnPath, ids_from};

    ghost Value = { List ℕ };

    ghost view = { λ b. ids_from b.nexts.now (length b.nexts.now) b.at };

    ghost invariant = { λ b. IsOnPath b.nexts.now b.at };
}

impl<'a> Iterator for Bucket<'a> {
    type Item = u32;

    ghost next_gives = { YieldsFirst (λ rest. rest) };

    ghost remaining = { item_count (λ rest. rest) };

    fn next(&mut self) -> Option<u32> {
        if self.at == NIL {
            return None;
        }
        let id = self.at;
        self.at = self.nexts[id as usize];
        Some(id)
    }
}

/// The bucket of a piece and its priority, as the place of its first id.
fn bucket_of(slots: u32, piece: &Piece, priority: Rank) -> u32
    requires { (1 ≤ slots) × (slots ≤ MOST_SLOTS) }
    ensures bucket { result ≡ bucket_of slots piece.now priority }
    ensures inside { (slots ≤ result) × (result < slots + slots) }
{
    slots + mixed(piece, priority) % slots
}

/// A number that tells most pieces and priorities apart. What two pieces of one rule differ in are their ports, and of two
/// rules their priorities.
fn mixed(piece: &Piece, priority: Rank) -> u32
    ensures { result ≡ mixed piece.now priority }
{
    let ports = u128::from(piece.sport.lo()) * 0x1_0000 + u128::from(piece.dport.lo());
    let rest = u128::from(priority.high) * 0x1_0000_0000 + ports;
    let sum = priority
        .low
        .wrapping_mul(LOW_FACTOR)
        .wrapping_add(rest.wrapping_mul(REST_FACTOR));
    (sum >> 96) as u32
}

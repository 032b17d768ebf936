//! Pairs of ids, an upper and a lower one, found from either end.
//!
//! An `Edges` is its list of pairs of different ids below a number, no pair twice. `below` names the lower ids of an
//! upper one, `above` the upper ids of a lower one. Room for pairs is reserved before; to link two ids takes no memory
//! then, and can't fail.
//!
//! # The one hard idea
//! A pair is one node that is a member of two doubly linked lists at once: the below list of its upper id and the above
//! list of its lower id. So an id that goes takes each of its pairs out of the other end's list too, without a search.
//!
//! # How it stands
//! All nodes lie in one block of raw memory, side by side. Links are places in the block and not addresses, so a growth
//! may move the block. Free nodes are members of one more below list, that of the number of ids: taking a node and
//! giving it up are the same steps as linking. `raw` has what is proved by hand: a block is taken and given back, and a
//! place of it is written and read. Above it nothing is unsafe: `block` is a list of nodes, `chains` are steps on it,
//! and that the lists stay right is a matter of lists of numbers.
//!
//! # What it cost
//! A node takes 24 bytes, an id 8. To link two ids takes the same time whatever is there; an id goes in the time of its
//! pairs, and its partners are named in that time too. Growth copies the block, which doubles as long as its places are
//! numbers of 32 bits. The worst list, each entry over each other, has n (n - 1) / 2 pairs: 12 bytes times n squared,
//! 201 MB at 4,096 entries and 51 GB at 65,536, where a scan takes none. The block may have room for twice as many, and a
//! growth has the old block beside the new one. At 92,683 entries such a list has more pairs than places have numbers:
//! what overlaps so much finds no room there, whatever memory there is.
//!
//! # What isn't promised
//! Any order of the ids that are named. Room is never given back before the whole is; and that it is then no clause can
//! say, since what a value owns may always be dropped, and an allocator tells nothing of what it has back. The drivers in
//! C are tried for leaks (`examples/c/check`), as far as the sanitizers look for them.
//!
//! # Decided
//! - **`reserve` answers want of memory too where places would no longer fit 32 bits**, so no caller has to count
//!   pairs. Where there is room it changes nothing (`enough`): a body that took memory all the same met the other
//!   clauses.
#![tactic(auto)]

ghost use Rattle.std.specs.Prelude.{◌≡◌, ◌≢◌, ◌+◌, ◌^◌, ◌<◌, ◌≤◌, ◌↔◌, ◌++◌, ℕ, [], None, Some, Contains, replicate, map, slice_set, nat_eq, IfOk, IfSome, IfNone, OnOk, OnErr};
ghost use Rattle.std.specs.List.{IsDistinct};
ghost use Rattle.order_chains.specs.Ends.{has_upper, has_lower, without_those};
ghost use Rattle.order_chains.specs.Pairs.{AreDistinct, HasPair, IsLinked, Pair, held, spare_of, without};

mod block;
mod chains;
mod node;
mod partners;
mod raw;

use block::Block;
use chains::{NIL, Side};
pub use partners::Partners;
use slot_order::MOST_SLOTS;
use std::alloc::{AllocError, Global};
use std::marker::Model;

/// The greatest number of ids.
pub const MOST_IDS: u32 = MOST_SLOTS;

/// Pairs (upper, lower) of different ids below a number, no pair twice.
#[derive(Drop)]
pub struct Edges {
    // The number that ids are below.
    ids: u32,
    nodes: Block,
    // The first place of each id's below list; the last is that of the free nodes.
    below: Vec<u32>,
    // The first place of each id's above list.
    above: Vec<u32>,
    // The number of free nodes.
    spare: u32,
}

impl Model for Edges {
    ghost use Rattle.std.specs.Prelude.{◌≡◌, map, length, count_by, is_none};
    ghost use Rattle.order_chains.specs.Pairs.{Pairs, AreChains, pair_of};

    ghost Value = { Pairs };

    ghost view = { λ e. record { ids = e.ids; places = map (pair_of e.ids) e.nodes } };

    ghost invariant = { λ e. AreChains e.ids e.nodes e.below.items e.above.items (length e.nodes) × (count_by is_none (map (pair_of e.ids) e.nodes) ≡ e.spare) };
}

impl Edges {
    /// No pairs of ids below `ids`, from 1 to `MOST_IDS`.
    pub fn new(alloc: Global, ids: u32) -> Result<Edges, AllocError>
        requires some { 1 ≤ ids }
        requires most { ids ≤ MOST_IDS }
        ensures ids { IfOk result (λ edges. edges.ids ≡ ids) }
        ensures none { IfOk result (λ edges. edges.places ≡ []) }
    {
        let nodes = Block::new(alloc)?;
        let below = Vec::from_elem(alloc, NIL, ids as usize + 1)?;
        let above = Vec::from_elem(alloc, NIL, ids as usize)?;
        Ok(Edges {
            ids,
            nodes,
            below,
            above,
            spare: 0,
        })
    }

    /// How many pairs have room.
    pub fn spare(&self) -> u32
        ensures { result ≡ spare_of self.now }
    {
        self.spare
    }

    /// Makes room for at least `n` pairs; where there is room for so many nothing changes. It is refused for want of
    /// memory, and where the block would have 2^32 places or more. After a refusal all is as before.
    pub fn reserve(&mut self, n: u32) -> Result<(), AllocError>
        ensures room { OnOk result (n ≤ spare_of self.new) }
        ensures enough { n ≤ spare_of self.old → self.new ≡ self.old }
        ensures same { (more : ℕ) × (self.new.places ≡ self.old.places ++ replicate more None) }
        ensures ids { self.new.ids ≡ self.old.ids }
        ensures refused { OnErr result (self.new ≡ self.old) }
    {
        if n <= self.spare {
            return Ok(());
        }
        let from = self.nodes.len();
        let needed = (n - self.spare) as usize;
        // Each place is below `NIL`.
        if from + needed > NIL as usize {
            return Err(AllocError);
        }
        let more = growth(from, needed);
        self.nodes.grow(more, chains::free_node(self.ids))?;
        chains::free_all(&mut self.nodes, self.below.as_mut_slice(), self.ids, from);
        self.spare += more as u32;
        Ok(())
    }

    /// Makes a pair of an upper and a lower id.
    pub fn link(&mut self, upper: u32, lower: u32)
        requires room { 1 ≤ spare_of self.old }
        requires ids { (upper < self.old.ids) × (lower < self.old.ids) × (upper ≢ lower) }
        requires absent { HasPair self.old upper lower → ⊥ }
        ensures linked { IsLinked self.old.places self.new.places (upper, lower) }
        ensures ids { self.new.ids ≡ self.old.ids }
    {
        chains::link(
            &mut self.nodes,
            self.below.as_mut_slice(),
            self.above.as_mut_slice(),
            self.ids,
            upper,
            lower,
        );
        self.spare -= 1;
    }

    /// Takes away every pair with this end, and nothing else. Their places are empty then.
    pub fn drop_node(&mut self, id: u32)
        requires { id < self.old.ids }
        ensures gone { self.new.places ≡ map (without id) self.old.places }
        ensures ids { self.new.ids ≡ self.old.ids }
    {
        self.drop_below(id);
        self.drop_above(id);
    }

    /// Takes away every pair with this upper id, and nothing else.
    fn drop_below(&mut self, id: u32)
        requires { id < self.old.ids }
        ensures gone { self.new.places ≡ map (without_those (has_upper id)) self.old.places }
        ensures ids { self.new.ids ≡ self.old.ids }
    {
        while let Some(at) = self.first_below(id) {
            self.give_up(at);
        }
    }

    /// Takes away every pair with this lower id, and nothing else.
    fn drop_above(&mut self, id: u32)
        requires { id < self.old.ids }
        ensures gone { self.new.places ≡ map (without_those (has_lower id)) self.old.places }
        ensures ids { self.new.ids ≡ self.old.ids }
    {
        while let Some(at) = self.first_above(id) {
            self.give_up(at);
        }
    }

    /// The place of a pair with this upper id, if there is one.
    fn first_below(&self, id: u32) -> Option<u32>
        requires { id < self.now.ids }
        ensures first { IfSome result (λ at. (lower : ℕ) × (held self.now at ≡ Some (id, lower))) }
        ensures none { IfNone result ((at lower : ℕ) → held self.now at ≡ Some (id, lower) → ⊥) }
    {
        let at = self.below[id as usize];
        (at != NIL).then_some(at)
    }

    /// The place of a pair with this lower id, if there is one.
    fn first_above(&self, id: u32) -> Option<u32>
        requires { id < self.now.ids }
        ensures first { IfSome result (λ at. (upper : ℕ) × (held self.now at ≡ Some (upper, id))) }
        ensures none { IfNone result ((at upper : ℕ) → held self.now at ≡ Some (upper, id) → ⊥) }
    {
        let at = self.above[id as usize];
        (at != NIL).then_some(at)
    }

    /// The lower ids of the pairs of an upper one, each once, in any order.
    pub fn below(&self, id: u32) -> Partners<'_>
        requires { id < self.now.ids }
        ensures exact { (other : ℕ) → Contains result other ↔ HasPair self.now id other }
        ensures once { IsDistinct nat_eq result }
        ensures distinct { AreDistinct self.now.ids self.now.places }
    {
        Partners::new(&self.nodes, Side::Below, self.below[id as usize])
    }

    /// The upper ids of the pairs of a lower one, each once, in any order.
    pub fn above(&self, id: u32) -> Partners<'_>
        requires { id < self.now.ids }
        ensures exact { (other : ℕ) → Contains result other ↔ HasPair self.now other id }
        ensures once { IsDistinct nat_eq result }
        ensures distinct { AreDistinct self.now.ids self.now.places }
    {
        Partners::new(&self.nodes, Side::Above, self.above[id as usize])
    }

    /// Takes away the pair at a place.
    fn give_up(&mut self, at: u32)
        requires { (pair : Pair) × (held self.old at ≡ Some pair) }
        ensures gone { self.new.places ≡ slice_set self.old.places at None }
        ensures ids { self.new.ids ≡ self.old.ids }
    {
        chains::give_up(
            &mut self.nodes,
            self.below.as_mut_slice(),
            self.above.as_mut_slice(),
            self.ids,
            at,
        );
        self.spare += 1;
    }
}

/// By how many nodes a block of some grows that needs more: it doubles, where that is possible.
fn growth(len: usize, needed: usize) -> usize
    requires { (1 ≤ needed) × (len + needed < 2 ^ 32) }
    ensures { (needed ≤ result) × (len + result < 2 ^ 32) }
{
    if needed < len && len + len < 0x1_0000_0000 {
        len
    } else {
        needed
    }
}

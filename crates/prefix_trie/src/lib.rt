//! Routes by their prefixes, and the greatest slot inside each.
//!
//! Each id has a prefix, and it may stand in a slot. `last_inside` tells the greatest slot of those whose prefix lies
//! inside that of an id, `first_covering` the slot of the nearest that covers it, and `best` the id of the longest prefix
//! that holds an address. No call goes through what overlaps: each takes as many steps as prefixes cover the one asked for.
//!
//! # The one hard idea
//! The routes are a path-compressed trie, its nodes in one vector, and beside each node stands one number: the greatest slot
//! of the nodes that its prefix covers. That is said of prefixes and of no path: of two blocks that hold one address one
//! covers the other, so that "which lies below which" is "which of two prefixes is longer", and no proof needs an induction
//! over ways. The trie is said by pairs of nodes too: where one lies in a half of another, a child on that side covers it.
//!
//! While a slot changes the numbers of the nodes that cover it may be wrong, and all others are right. The way up
//! mends them, and ends where a number stays what it was: above such a node nothing changes.
//!
//! # What it costs
//! A node takes 48 bytes, and there are at most two for a route: that of its prefix, and one where two ways part. Beside
//! them stand 4 bytes an id. Only `new` and `insert` take memory, and places that routes left are taken again.
//! `last_inside` looks at one node and its children, `first_covering` and `best` at the nodes on one way, 15 to 25 in an
//! internet's table.
//!
//! # Decided
//! - **A trie, and no balanced tree by address and length**: inside is a range there too, but the nearest that covers isn't,
//!   and each turn of a balanced tree has to keep the order and the numbers.
//! - **Ids are asked about, and not prefixes**: the node of an id is at hand, so no question walks down first.
//! - **Places that were left are hints**: each is looked at before it is taken, so nothing has to hold of their list. Where
//!   memory is short a place may be forgotten, and stays empty.
//! - **A slot is below 2^32 - 1** (`put`), so that it stands in 32 bits with the mark that there is none.
#![tactic(auto)]

ghost use Rattle.std.specs.Prelude.{◌≡◌, ◌<◌, ◌≤◌, ◌-◌, ◌^◌, ℕ, Some, None, IsSome, IsTrue, IsFalse, IfSome, IfOk, OnErr, MatchOption, length, replicate, slice_set};
ghost use Rattle.std.specs.Option.{ForSome};
ghost use Rattle.prefix_trie.specs.Routes.{AreApart, HasPrefix, IsAnswer, IsLastInside, IsNearestAround, IsNew, route_of};
ghost use Rattle.prefix_trie.specs.Changes.{with_slot};
ghost use Rattle.prefix_trie.specs.Nested.{AreAllNested};

mod blocks;
mod cell;
mod growth;
mod ids;
mod nested;
mod node;
mod place;
mod read;
mod search;

use call_history::History;
use cell::Cell;
use growth::room;
use ids::{enter, leave, stand_at};
use node::{empty, is_empty};
use place::Place;
use rule_model::Prefix;
use search::{Sought, deepest, id_in, nearest};
use slot_order::MOST_SLOTS;
use std::alloc::{AllocError, Global};
use std::marker::Model;

/// The greatest number of ids.
pub const MOST_IDS: u32 = MOST_SLOTS;

/// What became of an id, as the history of a trie has it.
#[derive(Drop)]
enum Change {
    /// It came, with its prefix.
    Came(u32, Prefix),
    /// It went.
    Went(u32),
    /// It stands in a slot.
    Stood(u32, u32),
    /// It stands in none.
    Left(u32),
}

/// The prefixes of ids below a number, and the slots in which they stand.
#[derive(Drop)]
pub struct PrefixTrie {
    // The first is that of every address. An empty place is one that a node left, or that none has come to yet.
    nodes: Vec<Cell>,
    // The place of the node of each id.
    places: Vec<Place>,
    // Places that may be empty. Each is looked at before it is taken.
    left: Vec<u32>,
    // What each id has is known to contracts alone, by what became of it.
    history: History<Change>,
}

impl Model for PrefixTrie {
    ghost use Rattle.std.specs.Prelude.{length};
    ghost use Rattle.prefix_trie.specs.Routes.{Routes};
    ghost use Rattle.prefix_trie.specs.Changes.{routes_after};
    ghost use Rattle.prefix_trie.specs.Trie.{AreParts};

    ghost Value = { Routes };

    ghost view = { λ t. routes_after (length t.places.items) t.history.items };

    ghost invariant = { λ t. AreParts (routes_after (length t.places.items) t.history.items) t.places.items t.nodes.items };
}

impl PrefixTrie {
    /// Makes a trie of ids below `ids`, from 1 to `MOST_IDS`, none with a prefix. It is refused only where there is no memory.
    pub fn new(alloc: Global, ids: u32) -> Result<PrefixTrie, AllocError>
        requires some { 1 ≤ ids }
        requires most { ids ≤ MOST_IDS }
        ensures { IfOk result (λ trie. trie ≡ replicate ids None) }
    {
        let mut nodes = Vec::with_capacity(alloc, 1)?;
        nodes.push(Cell::of(&empty()))?;
        let places = Vec::from_elem(alloc, Place::none(), ids as usize)?;
        Ok(PrefixTrie {
            nodes,
            places,
            left: Vec::new(alloc),
            history: History::new(),
        })
    }

    /// Gives an id without a prefix one, if no id has it, and tells whether it did. The id stands in no slot then. It is
    /// refused only where there is no memory. Where it isn't done all is as before.
    pub fn insert(&mut self, prefix: &Prefix, id: u32) -> Result<bool, AllocError>
        requires small { id < length self.old }
        requires absent { route_of self.old id ≡ None }
        ensures new { IfOk result (λ done. IsTrue done → IsNew self.old prefix.now) }
        ensures done { IfOk result (λ done. IsTrue done → self.new ≡ slice_set self.old id (Some (record { block = prefix.now; slot = None }))) }
        ensures taken { IfOk result (λ done. IsFalse done → (other : ℕ) × HasPrefix self.old prefix.now other) }
        ensures same { IfOk result (λ done. IsFalse done → self.new ≡ self.old) }
        ensures refused { OnErr result (self.new ≡ self.old) }
    {
        let deep = deepest(&self.nodes, prefix);
        if id_in(&self.nodes, deep, prefix).is_some() {
            return Ok(false);
        }
        let first = room(&mut self.nodes, &mut self.left, 0)?;
        let second = room(&mut self.nodes, &mut self.left, first)?;
        enter(
            &mut self.nodes,
            &mut self.places,
            (first, second),
            deep,
            prefix,
            id,
        );
        self.history = self.history.and(&Change::Came(id, *prefix));
        self.give_back(Some(second));
        self.give_back(Some(first));
        Ok(true)
    }

    /// Takes away the prefix of an id that has one, and its slot. Its node goes too where no two ways part there.
    pub fn remove(&mut self, id: u32)
        requires { IsSome (route_of self.old id) }
        ensures { self.new ≡ slice_set self.old id None }
    {
        let (first, second) = leave(&mut self.nodes, &mut self.places, id);
        self.history = self.history.and(&Change::Went(id));
        self.give_back(second);
        self.give_back(first);
    }

    /// Keeps a place to be taken again, where it is empty.
    fn give_back(&mut self, place: Option<u32>)
        ensures { self.new ≡ self.old }
    {
        if let Some(place) = place {
            if is_empty(&self.nodes, place) {
                let _kept = self.left.push(place);
            }
        }
    }

    /// Lets an id that has a prefix stand in a slot, and in no other.
    pub fn put(&mut self, id: u32, slot: u32)
        requires some { IsSome (route_of self.old id) }
        requires small { slot < 2 ^ 32 - 1 }
        ensures { self.new ≡ with_slot self.old id (Some slot) }
    {
        stand_at(&mut self.nodes, &self.places, id, Place::some(slot));
        self.history = self.history.and(&Change::Stood(id, slot));
    }

    /// Lets an id that has a prefix stand in no slot.
    pub fn erase(&mut self, id: u32)
        requires { IsSome (route_of self.old id) }
        ensures { self.new ≡ with_slot self.old id None }
    {
        stand_at(&mut self.nodes, &self.places, id, Place::none());
        self.history = self.history.and(&Change::Left(id));
    }

    /// The greatest slot of the ids whose prefixes lie inside that of an id and aren't the same. It is None exactly where
    /// none of them stands in a slot.
    pub fn last_inside(&self, id: u32) -> Option<u32>
        requires { IsSome (route_of self.now id) }
        ensures { ForSome (route_of self.now id) (λ route. IsLastInside self.now route.block result) }
    {
        match self.places[id as usize].get() {
            None => None,
            Some(at) => search::last_inside(&self.nodes, at),
        }
    }

    /// Of the ids that stand in slots and whose prefixes are shorter and cover that of an id the slot of the longest. It is
    /// None exactly where there is no such id.
    pub fn first_covering(&self, id: u32) -> Option<u32>
        requires { IsSome (route_of self.now id) }
        ensures { ForSome (route_of self.now id) (λ route. IsNearestAround self.now route.block result) }
    {
        match self.places[id as usize].get() {
            None => None,
            Some(at) => nearest(&self.nodes, at, Sought::Slot),
        }
    }

    /// The ids whose prefixes cover a prefix or lie in it, each once. None is a walk that was given up, as it is past `most`
    /// nodes; no clause says when, so a caller has another way.
    pub fn nested(
        &self,
        alloc: Global,
        prefix: &Prefix,
        most: usize,
    ) -> Result<Option<Vec<u32>>, AllocError>
        ensures { IfOk result (λ found. IfSome found (λ ids. AreAllNested self.now prefix.now ids.items)) }
    {
        nested::nested(alloc, &self.nodes, prefix, most)
    }

    /// No two ids have one prefix.
    pub fn are_apart(&self)
        ensures { AreApart self.now }
    {
        let _ids = self.places.len();
    }

    /// The id that has a prefix.
    pub fn id_of(&self, prefix: &Prefix) -> Option<u32>
        ensures { MatchOption result (IsNew self.now prefix.now) (HasPrefix self.now prefix.now) }
    {
        search::id_of(&self.nodes, prefix)
    }

    /// The id of the longest prefix that holds an address, whether it stands in a slot or not. It is None exactly where no
    /// prefix does. An IPv4 address stands in the upper 32 bits.
    pub fn best(&self, address: u128) -> Option<u32>
        ensures { IsAnswer self.now address result }
    {
        search::best(&self.nodes, address)
    }
}

//! The live ids by their destinations, as long as no two have one.
ghost use Rattle.std.specs.Prelude.{◌≡◌, ◌<◌, ◌≤◌, Some, None, IsSome, IfOk, IfSome, length, replicate, slice_set};
ghost use Rattle.prefix_trie.specs.Routes.{Routes, route_of};
ghost use Rattle.prefix_trie.specs.Nested.{AreAllNested};

use prefix_trie::PrefixTrie;
use rule_model::Prefix;
use slot_order::MOST_SLOTS;
use std::alloc::{AllocError, Global};
use std::marker::Model;

/// With fewer ids a pass over all that is live takes less time than to keep a trie.
pub(crate) const MANY: u32 = 2_048;

/// The destination of each live id, or nothing: there is none for few ids, and it is given up for good once two ids have
/// one destination, as those of lists soon do, or memory is wanting.
#[derive(Drop)]
pub(crate) struct Destinations {
    trie: Option<PrefixTrie>,
}

impl Model for Destinations {
    ghost use Rattle.std.specs.Prelude.{Option};
    ghost use Rattle.prefix_trie.specs.Routes.{Routes};

    ghost Value = { Option Routes };

    ghost view = { λ d. d.trie };
}

impl Destinations {
    /// Those of no id, where there are many.
    pub(crate) fn new(alloc: Global, ids: u32) -> Result<Destinations, AllocError>
        requires some { 1 ≤ ids }
        requires most { ids ≤ MOST_SLOTS }
        ensures none { IfOk result (λ destinations. (routes : Routes) → destinations ≡ Some routes → routes ≡ replicate ids None) }
        ensures known { IfOk result (λ destinations. MANY ≤ ids → IsSome destinations) }
    {
        if ids < MANY {
            return Ok(Destinations { trie: None });
        }
        Ok(Destinations {
            trie: Some(PrefixTrie::new(alloc, ids)?),
        })
    }

    /// The ids whose destinations have an address in common with a block. None where that isn't known, or where a walk over
    /// more than `most` nodes was given up.
    pub(crate) fn nested(
        &self,
        alloc: Global,
        block: &Prefix,
        most: usize,
    ) -> Result<Option<Vec<u32>>, AllocError>
        ensures { IfOk result (λ found. IfSome found (λ ids. (routes : Routes) × (self.now ≡ Some routes) × AreAllNested routes block.now ids.items)) }
    {
        match &self.trie {
            Some(trie) => trie.nested(alloc, block, most),
            None => Ok(None),
        }
    }

    /// An id comes, with its destination.
    pub(crate) fn enter(&mut self, id: u32, block: &Prefix)
        requires small { (routes : Routes) → self.old ≡ Some routes → id < length routes }
        requires absent { (routes : Routes) → self.old ≡ Some routes → route_of routes id ≡ None }
        ensures { (routes : Routes) → self.new ≡ Some routes → (before : Routes) × (self.old ≡ Some before) × (routes ≡ slice_set before id (Some (record { block = block.now; slot = None }))) }
    {
        let Some(trie) = self.trie.take() else {
            return;
        };
        self.trie = with_id(trie, id, block);
    }

    /// An id goes.
    pub(crate) fn leave(&mut self, id: u32)
        requires { (routes : Routes) → self.old ≡ Some routes → IsSome (route_of routes id) }
        ensures gone { (routes : Routes) → self.new ≡ Some routes → (before : Routes) × (self.old ≡ Some before) × (routes ≡ slice_set before id None) }
        ensures known { IsSome self.old → IsSome self.new }
    {
        let Some(mut trie) = self.trie.take() else {
            return;
        };
        trie.remove(id);
        self.trie = Some(trie);
    }
}

/// A trie with one id more. None where another id has its destination, or memory is wanting.
fn with_id(mut trie: PrefixTrie, id: u32, block: &Prefix) -> Option<PrefixTrie>
    requires small { id < length trie }
    requires absent { route_of trie id ≡ None }
    ensures { IfSome result (λ more. more ≡ slice_set trie id (Some (record { block = block.now; slot = None }))) }
{
    match trie.insert(block, id) {
        Ok(true) => Some(trie),
        Ok(false) | Err(_) => None,
    }
}

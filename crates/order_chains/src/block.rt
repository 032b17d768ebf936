//! A block of nodes in one piece of raw memory, each read and written by its place.
ghost use Rattle.std.specs.Prelude.{◌≡◌, ℕ, ◌+◌, ◌^◌, ◌<◌, ◌≤◌, ◌++◌, [], Some, None, length, replicate, get_or, slice_set, IfOk, OnOk, OnErr};
ghost use Rattle.order_chains.specs.Nodes.{node_at};

use crate::node::Node;
use crate::raw::{Deed, Places, give_back, take};
use std::alloc::{AllocError, Global};
use std::marker::Model;

/// A list of nodes. A growth may move them, and their places stay.
pub(crate) struct Block {
    places: Places,
    deed: Deed<Global>,
    alloc: Global,
    len: usize,
}

impl Model for Block {
    ghost use Rattle.std.specs.Prelude.{List};
    ghost use Rattle.order_chains.specs.declared.node.Node.{Node};

    ghost Value = { List Node };

    ghost use Rattle.order_chains.specs.Whole.{somes, IsWhole};

    ghost view = { λ b. somes b.places.nodes };

    ghost invariant = { λ b. IsWhole b.places b.deed b.alloc b.len };
}

/// Puts a node into the places from `from` up to `to`.
fn fill(places: &mut Places, from: usize, to: usize, node: Node)
    requires { (from ≤ to) × (length places.old.nodes ≡ to) }
    ensures places { (places.new.at ≡ places.old.at) × (length places.new.nodes ≡ to) }
    ensures kept { (k : ℕ) → k < from → get_or places.new.nodes k None ≡ get_or places.old.nodes k None }
    ensures filled { (k : ℕ) → from ≤ k → k < to → get_or places.new.nodes k None ≡ Some node }
{
    for i in from..to {
        places.put(i, node);
    }
}

/// The nodes of the block, in the first places of `to`.
fn copy_into(from: &Block, to: &mut Places, len: usize)
    requires { (len ≡ length from.now) × (len ≤ length to.old.nodes) }
    ensures to { (to.new.at ≡ to.old.at) × (length to.new.nodes ≡ length to.old.nodes) }
    ensures copied { (k : ℕ) → k < len → get_or to.new.nodes k None ≡ Some (node_at from.now k) }
{
    for i in 0..len {
        to.put(i, from.load(i));
    }
}

impl Block {
    /// No nodes.
    pub(crate) fn new(alloc: Global) -> Result<Block, AllocError>
        ensures { IfOk result (λ b. b ≡ []) }
    {
        let (places, deed) = take(&alloc, 0)?;
        Ok(Block {
            places,
            deed,
            alloc,
            len: 0,
        })
    }

    pub(crate) fn len(&self) -> usize
        ensures { result ≡ length self.now }
    {
        self.len
    }

    pub(crate) fn load(&self, at: usize) -> Node
        requires { at < length self.now }
        ensures { result ≡ node_at self.now at }
    {
        *self.places.get(at)
    }

    pub(crate) fn store(&mut self, at: usize, node: Node)
        requires { at < length self.old }
        ensures { self.new ≡ slice_set self.old at node }
    {
        self.places.put(at, node);
    }

    /// `more` times the node, at the end. After a refusal all is as before.
    pub(crate) fn grow(&mut self, more: usize, node: Node) -> Result<(), AllocError>
        requires { length self.old + more < 2 ^ 32 }
        ensures ok { OnOk result (self.new ≡ self.old ++ replicate more node) }
        ensures refused { OnErr result (self.new ≡ self.old) }
    {
        let old_len = self.len;
        let len = old_len + more;
        let alloc = self.alloc;
        let (mut places, deed) = take(&alloc, len)?;
        copy_into(self, &mut places, old_len);
        fill(&mut places, old_len, len, node);
        *self = Block {
            places,
            deed,
            alloc,
            len,
        };
        Ok(())
    }
}

impl Drop for Block {
    fn drop(self) {
        let Block {
            places,
            deed,
            alloc,
            len,
        } = self;
        give_back(places, deed, &alloc, len);
    }
}

//! A node as it stands in memory.
ghost use Rattle.std.specs.Prelude.{◌≡◌, Some, None, is_none};
ghost use Rattle.std.specs.Option.{ForSome};
ghost use Rattle.prefix_trie.specs.Blocks.{covers};
ghost use Rattle.prefix_trie.specs.Nodes.{child_of, top_of};

use crate::blocks::covered_by;
use crate::node::Node;
use crate::place::Place;
use rule_model::Prefix;
use std::marker::Model;

/// The length of the prefix of no node.
const NO_NODE: u8 = 255;

/// A node, or none, in 48 bytes: the length of its prefix stands among its numbers, and tells that there is none.
#[derive(Debug, Drop)]
pub(crate) struct Cell {
    addr: u128,
    parent: Place,
    zero: Place,
    one: Place,
    id: Place,
    slot: Place,
    top: Place,
    len: u8,
}

impl Model for Cell {
    ghost use Rattle.std.specs.Prelude.{Option};
    ghost use Rattle.prefix_trie.specs.declared.node.Node.{Node};
    ghost use Rattle.prefix_trie.specs.Cells.{held_in, IsCell};

    ghost Value = { Option Node };

    ghost view = { λ c. held_in c.len (record { prefix = record { addr = c.addr; len = c.len }; parent = c.parent; zero = c.zero; one = c.one; id = c.id; slot = c.slot; top = c.top }) };

    ghost invariant = { λ c. IsCell c.addr c.len };
}

impl Cell {
    /// No node.
    pub(crate) fn none() -> Cell
        ensures { result ≡ None }
    {
        Cell {
            addr: 0,
            parent: Place::none(),
            zero: Place::none(),
            one: Place::none(),
            id: Place::none(),
            slot: Place::none(),
            top: Place::none(),
            len: NO_NODE,
        }
    }

    /// A node.
    pub(crate) fn of(node: &Node) -> Cell
        ensures { result ≡ Some node.now }
    {
        Cell {
            addr: node.prefix.addr(),
            parent: node.parent,
            zero: node.zero,
            one: node.one,
            id: node.id,
            slot: node.slot,
            top: node.top,
            len: node.prefix.len(),
        }
    }

    /// The node, or None exactly where there is none.
    pub(crate) fn get(&self) -> Option<Node>
        ensures { result ≡ self.now }
    {
        if self.len == NO_NODE {
            return None;
        }
        match Prefix::v6(self.addr, self.len) {
            Err(_) => None,
            Ok(prefix) => Some(Node {
                prefix,
                parent: self.parent,
                zero: self.zero,
                one: self.one,
                id: self.id,
                slot: self.slot,
                top: self.top,
            }),
        }
    }

    /// Whether there is no node.
    pub(crate) fn is_none(&self) -> bool
        ensures { result ≡ is_none self.now }
    {
        self.len == NO_NODE
    }

    /// The length of the prefix of the node.
    pub(crate) fn len(&self) -> u8
        ensures { ForSome self.now (λ node. result ≡ node.prefix.len) }
    {
        self.len
    }

    /// Whether the prefix of the node covers a block.
    pub(crate) fn covers(&self, block: &Prefix) -> bool
        ensures { ForSome self.now (λ node. result ≡ covers node.prefix block.now) }
    {
        covered_by(self.addr, self.len, block)
    }

    /// Whether a block covers the prefix of the node.
    pub(crate) fn lies_in(&self, block: &Prefix) -> bool
        ensures { ForSome self.now (λ node. result ≡ covers block.now node.prefix) }
    {
        block.len() <= self.len && block.holds(self.addr)
    }

    /// The child of the node on one side.
    pub(crate) fn child(&self, bit: bool) -> Place
        ensures { ForSome self.now (λ node. result ≡ child_of node bit) }
    {
        if bit { self.one } else { self.zero }
    }

    /// The parent of the node.
    pub(crate) fn parent(&self) -> Place
        ensures { ForSome self.now (λ node. result ≡ node.parent) }
    {
        self.parent
    }

    /// The id of the node.
    pub(crate) fn id(&self) -> Place
        ensures { ForSome self.now (λ node. result ≡ node.id) }
    {
        self.id
    }

    /// The greatest slot of the node and those below it, none where there is no node.
    pub(crate) fn top(&self) -> Place
        ensures { result ≡ top_of self.now }
    {
        if self.len == NO_NODE {
            Place::none()
        } else {
            self.top
        }
    }
}

//! The nodes of a trie.
ghost use Rattle.std.specs.Prelude.{◌≡◌, ◌<◌, ◌-◌, ◌^◌, ℕ, None, Some, IsSome, IsTrue, List, Option, slice_set, length};
ghost use Rattle.prefix_trie.specs.Greatest.{greater};
ghost use Rattle.prefix_trie.specs.Nodes.{node_at, child_of, top_at, turned, with_parent, adopted};

use crate::cell::Cell;
use crate::place::Place;
use rule_model::Prefix;

/// A node: the prefix that all below it have in common. One with an id is a route, any other only branches.
#[derive(Clone, Copy, Debug)]
pub(crate) struct Node {
    pub(crate) prefix: Prefix,
    pub(crate) parent: Place,
    pub(crate) zero: Place,
    pub(crate) one: Place,
    pub(crate) id: Place,
    pub(crate) slot: Place,
    // The greatest slot of this node and those below it.
    pub(crate) top: Place,
}

impl Node {
    /// The child on one side.
    pub(crate) fn child(&self, bit: bool) -> Place
        ensures { result ≡ child_of self.now bit }
    {
        if bit { self.one } else { self.zero }
    }

    /// The node with another child on one side.
    pub(crate) fn turned(self, bit: bool, child: Place) -> Node
        ensures { result ≡ turned self bit child }
    {
        if bit {
            Node { one: child, ..self }
        } else {
            Node {
                zero: child,
                ..self
            }
        }
    }
}

/// A node of every address.
pub(crate) fn empty() -> Node
    ensures { result
        ≡ record {
          prefix = record { addr = 0; len = 0 };
          parent = None;
          zero = None;
          one = None;
          id = None;
          slot = None;
          top = None;
        } }
{
    Node {
        prefix: Prefix::any(),
        parent: Place::none(),
        zero: Place::none(),
        one: Place::none(),
        id: Place::none(),
        slot: Place::none(),
        top: Place::none(),
    }
}

/// The node at a place.
pub(crate) fn node_at(nodes: &[Cell], at: u32) -> Node
    requires { IsSome (node_at nodes.now at) }
    ensures { node_at nodes.now at ≡ Some result }
{
    match nodes[at as usize].get() {
        Some(node) => node,
        None => empty(),
    }
}

/// Whether a place holds no node.
pub(crate) fn is_empty(nodes: &[Cell], at: u32) -> bool
    ensures { IsTrue result → node_at nodes.now at ≡ None }
{
    match nodes.get(at as usize) {
        Some(cell) => cell.is_none(),
        None => true,
    }
}

/// Lets a place hold a node.
pub(crate) fn set_node(nodes: &mut [Cell], at: u32, node: Node)
    requires { at < length nodes.old }
    ensures { nodes.new ≡ slice_set nodes.old at (Some node) }
{
    nodes[at as usize] = Cell::of(&node);
}

/// Lets a place hold no node.
pub(crate) fn clear(nodes: &mut [Cell], at: u32)
    requires { at < length nodes.old }
    ensures { nodes.new ≡ slice_set nodes.old at None }
{
    nodes[at as usize] = Cell::none();
}

/// Gives a child another parent, where there is a child.
pub(crate) fn adopt(nodes: &mut [Cell], child: Place, parent: u32)
    requires fits { parent < 2 ^ 32 - 1 }
    requires here { (place : ℕ) → child ≡ Some place → IsSome (node_at nodes.old place) }
    ensures { nodes.new ≡ adopted nodes.old child parent }
{
    if let Some(place) = child.get() {
        let node = node_at(nodes, place);
        let under = Node {
            parent: Place::some(parent),
            ..node
        };
        set_node(nodes, place, under);
    }
}

/// The greatest slot of a child and those below it.
pub(crate) fn top_at(nodes: &[Cell], child: Place) -> Place
    ensures { result ≡ top_at nodes.now child }
{
    match child.get() {
        None => Place::none(),
        Some(place) => match nodes.get(place as usize) {
            Some(cell) => cell.top(),
            None => Place::none(),
        },
    }
}

/// The greatest slot of those below a node.
pub(crate) fn top_below(nodes: &[Cell], node: &Node) -> Place
    ensures { result ≡ greater (top_at nodes.now node.now.zero) (top_at nodes.now node.now.one) }
{
    top_at(nodes, node.zero).greater(top_at(nodes, node.one))
}

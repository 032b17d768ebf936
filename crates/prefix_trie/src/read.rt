//! What is read of the node at a place, straight from its cell: a whole node would be copied, and its prefix tested anew.
ghost use Rattle.std.specs.Prelude.{◌≡◌, ◌<◌, IsSome, Some};
ghost use Rattle.std.specs.Option.{ForSome};
ghost use Rattle.prefix_trie.specs.declared.node.Node.{Node};
ghost use Rattle.prefix_trie.specs.Blocks.{bit_at, covers};
ghost use Rattle.prefix_trie.specs.Nodes.{child_of, node_at};

use crate::blocks::bit_at;
use crate::cell::Cell;
use crate::place::Place;
use rule_model::Prefix;

/// The length of the prefix of the node at a place.
pub(crate) fn len_at(nodes: &[Cell], at: u32) -> u8
    requires { IsSome (node_at nodes.now at) }
    ensures { ForSome (node_at nodes.now at) (λ node. result ≡ node.prefix.len) }
{
    nodes[at as usize].len()
}

/// Whether the prefix of the node at a place covers a block.
pub(crate) fn covers_at(nodes: &[Cell], at: u32, block: &Prefix) -> bool
    requires { IsSome (node_at nodes.now at) }
    ensures { ForSome (node_at nodes.now at) (λ node. result ≡ covers node.prefix block.now) }
{
    nodes[at as usize].covers(block)
}

/// Whether a block covers the prefix of the node at a place.
pub(crate) fn lies_at(nodes: &[Cell], at: u32, block: &Prefix) -> bool
    requires { IsSome (node_at nodes.now at) }
    ensures { ForSome (node_at nodes.now at) (λ node. result ≡ covers block.now node.prefix) }
{
    nodes[at as usize].lies_in(block)
}

/// The child of the node at a place, on one side.
pub(crate) fn child_at(nodes: &[Cell], at: u32, bit: bool) -> Place
    requires { IsSome (node_at nodes.now at) }
    ensures { ForSome (node_at nodes.now at) (λ node. result ≡ child_of node bit) }
{
    nodes[at as usize].child(bit)
}

/// The child of the node at a place, on the side of a longer block.
pub(crate) fn toward(nodes: &[Cell], at: u32, block: &Prefix) -> Place
    requires { (node : Node) × (node_at nodes.now at ≡ Some node) × (node.prefix.len < block.now.len) }
    ensures { ForSome (node_at nodes.now at) (λ node. result ≡ child_of node (bit_at block.now.addr node.prefix.len)) }
{
    let _len = block.len();
    child_at(nodes, at, bit_at(block.addr(), len_at(nodes, at)))
}

/// The parent of the node at a place.
pub(crate) fn parent_at(nodes: &[Cell], at: u32) -> Place
    requires { IsSome (node_at nodes.now at) }
    ensures { ForSome (node_at nodes.now at) (λ node. result ≡ node.parent) }
{
    nodes[at as usize].parent()
}

/// The id of the node at a place.
pub(crate) fn id_at(nodes: &[Cell], at: u32) -> Place
    requires { IsSome (node_at nodes.now at) }
    ensures { ForSome (node_at nodes.now at) (λ node. result ≡ node.id) }
{
    nodes[at as usize].id()
}

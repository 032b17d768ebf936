//! Walks down and up a trie.
ghost use Rattle.std.specs.Prelude.{◌≡◌, ◌<◌, ◌≤◌, ℕ, Some, None, IsSome};
ghost use Rattle.std.specs.Option.{ForSome};
ghost use Rattle.prefix_trie.specs.Nodes.{node_at};
ghost use Rattle.prefix_trie.specs.Trie.{IsTrie, IsOver, HaveTops, IsDeepest, IsStepTo, IsTopInside, IsNextAround, IsHolder, IsIdOf};
ghost use Rattle.prefix_trie.specs.Sought.{part_of};

use crate::blocks::whole;
use crate::cell::Cell;
use crate::node::{Node, node_at, top_below};
use crate::place::Place;
use crate::read::{covers_at, id_at, len_at, toward};
use rule_model::Prefix;

/// The deepest node that covers a block.
pub(crate) fn deepest(nodes: &[Cell], block: &Prefix) -> u32
    requires { IsTrie nodes.now }
    ensures { IsDeepest nodes.now block.now result }
{
    let _addr = block.addr();
    let mut at = 0;
    while let Some(next) = step(nodes, at, block) {
        at = next;
    }
    at
}

/// The child of a node that covers a block, if one does.
fn step(nodes: &[Cell], at: u32, block: &Prefix) -> Option<u32>
    requires trie { IsTrie nodes.now }
    requires here { IsOver nodes.now block.now at }
    ensures { ForSome (node_at nodes.now at) (λ node. IsStepTo nodes.now node block.now result) }
{
    if len_at(nodes, at) >= block.len() {
        return None;
    }
    match toward(nodes, at, block).get() {
        None => None,
        Some(child) => {
            if covers_at(nodes, child, block) {
                Some(child)
            } else {
                None
            }
        }
    }
}

/// The greatest slot of those strictly inside the prefix of a node.
pub(crate) fn last_inside(nodes: &[Cell], at: u32) -> Option<u32>
    requires trie { IsTrie nodes.now }
    requires tops { HaveTops nodes.now }
    requires here { IsSome (node_at nodes.now at) }
    ensures { ForSome (node_at nodes.now at) (λ node. IsTopInside nodes.now node.prefix result) }
{
    top_below(nodes, &node_at(nodes, at)).get()
}

/// What is looked for on the way up.
#[derive(Clone, Copy, Debug)]
pub(crate) enum Sought {
    Slot,
    Id,
}

/// What is looked for of a node.
fn part(node: &Node, sought: Sought) -> Place
    ensures { result ≡ part_of sought node.now }
{
    match sought {
        Sought::Slot => node.slot,
        Sought::Id => node.id,
    }
}

/// What is looked for, of the nearest node above that has it.
pub(crate) fn nearest(nodes: &[Cell], from: u32, sought: Sought) -> Option<u32>
    requires trie { IsTrie nodes.now }
    requires here { IsSome (node_at nodes.now from) }
    ensures { ForSome (node_at nodes.now from) (λ node. IsNextAround (part_of sought) nodes.now node.prefix result) }
{
    let mut at = from;
    while let Some(next) = node_at(nodes, at).parent.get() {
        let node = node_at(nodes, next);
        if let Some(found) = part(&node, sought).get() {
            return Some(found);
        }
        at = next;
    }
    None
}

/// The id of the node of a prefix.
pub(crate) fn id_of(nodes: &[Cell], block: &Prefix) -> Option<u32>
    requires { IsTrie nodes.now }
    ensures { IsIdOf nodes.now block.now result }
{
    id_in(nodes, deepest(nodes, block), block)
}

/// The id of the node of a prefix, where the deepest that covers it is known.
pub(crate) fn id_in(nodes: &[Cell], at: u32, block: &Prefix) -> Option<u32>
    requires trie { IsTrie nodes.now }
    requires deep { IsDeepest nodes.now block.now at }
    ensures { IsIdOf nodes.now block.now result }
{
    let _addr = block.addr();
    if len_at(nodes, at) < block.len() {
        None
    } else {
        id_at(nodes, at).get()
    }
}

/// The id of the longest prefix that holds an address.
pub(crate) fn best(nodes: &[Cell], address: u128) -> Option<u32>
    requires { IsTrie nodes.now }
    ensures { IsHolder nodes.now address result }
{
    let key = whole(address);
    let at = deepest(nodes, &key);
    match node_at(nodes, at).id.get() {
        Some(id) => Some(id),
        None => nearest(nodes, at, Sought::Id),
    }
}

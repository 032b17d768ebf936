//! How a trie gets a node and loses one, and how its greatest slots are kept.
ghost use Rattle.std.specs.Prelude.{◌≡◌, ◌≢◌, ◌<◌, ◌≤◌, ◌-◌, ◌^◌, ℕ, Some, None, IsSome, IfSome, IfOk, length, slice_set};
ghost use Rattle.std.specs.Option.{ForSome};
ghost use Rattle.rule_model.specs.AddressBlock.{IsAddressBlock};
ghost use Rattle.prefix_trie.specs.Nodes.{node_at, bare, top_at, whole, with_entry};
ghost use Rattle.prefix_trie.specs.Trie.{IsTrie, HaveTops, HaveTopsPast, HaveBare, AreLike, AreEntries, HasGap, IsAttached, IsFresh, IsDeepest, IsMade, IsRoom, HasOnly};

use crate::blocks::{bit_at, meet};
use crate::cell::Cell;
use crate::node::{Node, adopt, clear, empty, is_empty, node_at, set_node, top_at, top_below};
use crate::place::Place;
use rule_model::Prefix;
use std::alloc::AllocError;

/// A place that holds no node and isn't the one that is kept free. One that was left is taken first. It is refused where
/// there is no memory.
pub(crate) fn room(nodes: &mut Vec<Cell>, left: &mut Vec<u32>, but: u32) -> Result<u32, AllocError>
    requires { length nodes.old.items < 2 ^ 32 }
    ensures room { IfOk result (λ place. IsRoom nodes.new.items but place) }
    ensures like { AreLike whole nodes.old.items nodes.new.items }
    ensures few { length nodes.new.items < 2 ^ 32 }
    ensures grown { length nodes.old.items ≤ length nodes.new.items }
{
    if let Some(place) = left_place(nodes, left, but) {
        return Ok(place);
    }
    let place = nodes.len() as u32;
    if place > 0xffff_fff0 || place == but {
        return Err(AllocError);
    }
    nodes.push(Cell::none())?;
    Ok(place)
}

/// The last place that was left, where it is still empty and isn't the one that is kept free.
fn left_place(nodes: &[Cell], left: &mut Vec<u32>, but: u32) -> Option<u32>
    ensures { IfSome result (IsRoom nodes.now but) }
{
    let Some(place) = left.pop() else {
        return None;
    };
    if place != but && (place as usize) < nodes.len() && is_empty(nodes, place) {
        Some(place)
    } else {
        None
    }
}

/// The place of the node of a prefix, which is made where it is missing, in the first place or in both, below the deepest
/// node that covers it.
pub(crate) fn make(nodes: &mut [Cell], first: u32, second: u32, at: u32, prefix: &Prefix) -> u32
    requires few { length nodes.old < 2 ^ 32 }
    requires trie { IsTrie nodes.old }
    requires tops { HaveTops nodes.old }
    requires first { IsRoom nodes.old 0 first }
    requires second { IsRoom nodes.old first second }
    requires deep { IsDeepest nodes.old prefix.now at }
    ensures trie { IsTrie nodes.new }
    ensures tops { HaveTops nodes.new }
    ensures entries { AreEntries nodes.old nodes.new }
    ensures made { IsMade nodes.new prefix.now result }
{
    let addr = prefix.addr();
    let here = node_at(nodes, at);
    if here.prefix.len() == prefix.len() {
        return at;
    }
    let bit = bit_at(addr, here.prefix.len());
    let Some(child) = here.child(bit).get() else {
        attach(nodes, first, at, bit, prefix);
        return first;
    };
    let fork = meet(prefix, &node_at(nodes, child).prefix);
    attach(nodes, first, at, bit, &fork);
    if fork.len() == prefix.len() {
        return first;
    }
    attach(nodes, second, first, bit_at(addr, fork.len()), prefix);
    second
}

/// A new node at an empty place, on one side of another. What was there comes below it.
fn attach(nodes: &mut [Cell], place: u32, at: u32, bit: bool, block: &Prefix)
    requires few { length nodes.old < 2 ^ 32 }
    requires trie { IsTrie nodes.old }
    requires tops { HaveTops nodes.old }
    requires room { IsRoom nodes.old 0 place }
    requires gap { HasGap nodes.old at bit block.now }
    ensures trie { IsTrie nodes.new }
    ensures tops { HaveTops nodes.new }
    ensures entries { AreEntries nodes.old nodes.new }
    ensures attached { ForSome (node_at nodes.old at) (λ here. IsAttached nodes.old nodes.new at place bit block.now here) }
{
    let _addr = block.addr();
    let here = node_at(nodes, at);
    let child = here.child(bit);
    let new = fresh(nodes, block, at, child);
    adopt(nodes, child, place);
    set_node(nodes, at, here.turned(bit, Place::some(place)));
    set_node(nodes, place, new);
}

/// A new node of a block, with the child that there was on its side.
fn fresh(nodes: &[Cell], block: &Prefix, at: u32, child: Place) -> Node
    requires fits { at < 2 ^ 32 - 1 }
    requires here { (place : ℕ) → child ≡ Some place → IsSome (node_at nodes.now place) }
    requires longer { (place : ℕ) → child ≡ Some place → ForSome (node_at nodes.now place) (λ below. block.now.len < below.prefix.len) }
    ensures fresh { IsFresh nodes.now block.now at child result }
    ensures top { result.top ≡ top_at nodes.now child }
{
    let new = Node {
        prefix: *block,
        parent: Place::some(at),
        top: top_at(nodes, child),
        ..empty()
    };
    match child.get() {
        None => new,
        Some(place) => {
            let below = node_at(nodes, place);
            let _len = below.prefix.len();
            new.turned(bit_at(below.prefix.addr(), block.len()), child)
        }
    }
}

/// Finds the greatest slots anew, of a node and of those above it, up to one whose greatest stays.
fn climb(nodes: &mut [Cell], from: u32)
    requires trie { IsTrie nodes.old }
    requires past { HaveTopsPast nodes.old from }
    ensures trie { IsTrie nodes.new }
    ensures tops { HaveTops nodes.new }
    ensures like { AreLike bare nodes.old nodes.new }
{
    let mut next = Some(from);
    while let Some(at) = next {
        let node = node_at(nodes, at);
        let top = node.slot.greater(top_below(nodes, &node));
        if top.same(node.top) {
            return;
        }
        set_node(nodes, at, Node { top, ..node });
        next = node.parent.get();
    }
}

/// Gives a node an id and a slot, or none.
pub(crate) fn stand(nodes: &mut [Cell], at: u32, id: Place, slot: Place)
    requires trie { IsTrie nodes.old }
    requires tops { HaveTops nodes.old }
    requires here { IsSome (node_at nodes.old at) }
    ensures trie { IsTrie nodes.new }
    ensures tops { HaveTops nodes.new }
    ensures like { ForSome (node_at nodes.old at) (λ node. AreLike bare (slice_set nodes.old at (Some (with_entry node id slot))) nodes.new) }
{
    let node = node_at(nodes, at);
    set_node(nodes, at, Node { id, slot, ..node });
    climb(nodes, at);
}

/// Takes a node out where it has no id and at most one child, and its parent then where that does no more. Both places are
/// told where a node went.
pub(crate) fn prune(nodes: &mut [Cell], at: u32) -> (Option<u32>, Option<u32>)
    requires few { length nodes.old < 2 ^ 32 }
    requires trie { IsTrie nodes.old }
    requires tops { HaveTops nodes.old }
    requires bare { HaveBare nodes.old }
    requires here { IsSome (node_at nodes.old at) }
    ensures trie { IsTrie nodes.new }
    ensures tops { HaveTops nodes.new }
    ensures entries { AreEntries nodes.old nodes.new }
{
    let Some(parent) = detach(nodes, at) else {
        return (None, None);
    };
    if detach(nodes, parent).is_none() {
        return (Some(at), None);
    }
    (Some(at), Some(parent))
}

/// Takes a node out where it has no id and at most one child. Tells the place of its parent then.
fn detach(nodes: &mut [Cell], at: u32) -> Option<u32>
    requires few { length nodes.old < 2 ^ 32 }
    requires trie { IsTrie nodes.old }
    requires tops { HaveTops nodes.old }
    requires bare { HaveBare nodes.old }
    requires here { IsSome (node_at nodes.old at) }
    ensures trie { IsTrie nodes.new }
    ensures tops { HaveTops nodes.new }
    ensures entries { AreEntries nodes.old nodes.new }
    ensures parent { ForSome result (λ parent. IsSome (node_at nodes.new parent)) }
{
    let node = node_at(nodes, at);
    let Some(child) = only_child(&node) else {
        return None;
    };
    let Some(parent) = node.parent.get() else {
        return None;
    };
    let up = node_at(nodes, parent);
    let bit = bit_at(node.prefix.addr(), up.prefix.len());
    adopt(nodes, child, parent);
    set_node(nodes, parent, up.turned(bit, child));
    clear(nodes, at);
    Some(parent)
}

/// The child of a node that has no id and no other child.
fn only_child(node: &Node) -> Option<Place>
    ensures { IfSome result (HasOnly node.now) }
{
    if node.id.get().is_some() {
        return None;
    }
    if node.zero.get().is_none() {
        return Some(node.one);
    }
    if node.one.get().is_none() {
        return Some(node.zero);
    }
    None
}

//! The nodes whose prefixes cover a block or lie in it, one after the other.
ghost use Rattle.std.specs.Prelude.{◌≡◌, ◌≢◌, ◌<◌, ◌≤◌, ◌^◌, ◌*◌, ◌⊎◌, ◌||◌, ℕ, Some, None, IsSome, IfOk, IfSome, OnOk};
ghost use Rattle.std.specs.Option.{ForSome};
ghost use Rattle.prefix_trie.specs.Blocks.{Covers, covers};
ghost use Rattle.prefix_trie.specs.declared.node.Node.{Node};
ghost use Rattle.prefix_trie.specs.Nodes.{node_at};
ghost use Rattle.prefix_trie.specs.Trie.{IsTrie};
ghost use Rattle.prefix_trie.specs.Nested.{AreFoundBefore, HaveOnce, IsNestedAt, IsNextTo, with_id};

use crate::cell::Cell;
use crate::place::Place;
use crate::read::{child_at, covers_at, id_at, len_at, lies_at, parent_at, toward};
use rule_model::Prefix;
use std::alloc::{AllocError, Global};

/// The ids of the nodes whose prefixes cover a block or lie in it, in the order of their addresses. None is a walk that was
/// given up, as it is past `most` nodes.
pub(crate) fn nested(
    alloc: Global,
    nodes: &[Cell],
    block: &Prefix,
    most: usize,
) -> Result<Option<Vec<u32>>, AllocError>
    requires trie { IsTrie nodes.now }
    requires once { HaveOnce nodes.now }
    ensures { IfOk result (λ found. IfSome found (λ ids. AreFoundBefore nodes.now block.now (2 ^ 128 * 256) ids.items)) }
{
    let _addr = block.addr();
    let mut ids = Vec::new(alloc);
    let mut at = 0;
    let mut left = most;
    while left > 0 {
        push_id(&mut ids, id_at(nodes, at))?;
        let Some(next) = next_nested(nodes, at, block) else {
            return Ok(Some(ids));
        };
        at = next;
        left -= 1;
    }
    Ok(None)
}

/// Puts an id behind others, where there is one.
fn push_id(ids: &mut Vec<u32>, id: Place) -> Result<(), AllocError>
    ensures { OnOk result (ids.new.items ≡ with_id ids.old.items id) }
{
    if let Some(id) = id.get() {
        ids.push(id)?;
    }
    Ok(())
}

/// The next node behind one: on the way down to the block it is the child on its side, and in the block each child and what
/// it covers comes before what lies beside it.
fn next_nested(nodes: &[Cell], at: u32, block: &Prefix) -> Option<u32>
    requires trie { IsTrie nodes.now }
    requires here { IsNestedAt nodes.now block.now at }
    ensures { ForSome (node_at nodes.now at) (λ node. IsNextTo nodes.now block.now node.prefix result) }
{
    if len_at(nodes, at) < block.len() {
        next_toward(nodes, at, block)
    } else {
        match first_child(nodes, at) {
            Some(child) => Some(child),
            None => next_up(nodes, at, block),
        }
    }
}

/// The child of a shorter node on the side of the block, if it covers the block or lies in it.
fn next_toward(nodes: &[Cell], at: u32, block: &Prefix) -> Option<u32>
    requires trie { IsTrie nodes.now }
    requires here { (node : Node) × (node_at nodes.now at ≡ Some node) × Covers node.prefix block.now × (node.prefix.len < block.now.len) }
    ensures { ForSome (node_at nodes.now at) (λ node. IsNextTo nodes.now block.now node.prefix result) }
{
    let Some(child) = toward(nodes, at, block).get() else {
        return None;
    };
    if is_nested_at(nodes, child, block) {
        Some(child)
    } else {
        None
    }
}

/// Whether a block and the prefix of a node cover one another, in one way or the other.
fn is_nested_at(nodes: &[Cell], at: u32, block: &Prefix) -> bool
    requires { IsSome (node_at nodes.now at) }
    ensures { ForSome (node_at nodes.now at) (λ node. result ≡ (covers block.now node.prefix || covers node.prefix block.now)) }
{
    lies_at(nodes, at, block) || covers_at(nodes, at, block)
}

/// The child of a node whose addresses come first.
fn first_child(nodes: &[Cell], at: u32) -> Option<u32>
    requires { IsSome (node_at nodes.now at) }
    ensures some { ForSome (node_at nodes.now at) (λ here. IfSome result (λ child. (here.zero ≡ Some child) ⊎ ((here.zero ≡ None) × (here.one ≡ Some child)))) }
    ensures none { ForSome (node_at nodes.now at) (λ here. result ≡ None → (here.zero ≡ None) × (here.one ≡ None)) }
{
    match child_at(nodes, at, false).get() {
        Some(child) => Some(child),
        None => child_at(nodes, at, true).get(),
    }
}

/// The next node in the block behind one without children: the first on the way up to the right of it.
fn next_up(nodes: &[Cell], from: u32, block: &Prefix) -> Option<u32>
    requires trie { IsTrie nodes.now }
    requires here { ForSome (node_at nodes.now from) (λ node. (node.zero ≡ None) × (node.one ≡ None) × Covers block.now node.prefix) }
    requires some { IsSome (node_at nodes.now from) }
    ensures { ForSome (node_at nodes.now from) (λ node. IsNextTo nodes.now block.now node.prefix result) }
{
    let mut at = from;
    while let Some(parent) = parent_at(nodes, at).get() {
        if len_at(nodes, parent) < block.len() {
            return None;
        }
        if let Some(right) = beside(nodes, parent, at) {
            return Some(right);
        }
        at = parent;
    }
    None
}

/// The second child of a node, where it isn't one that is named.
fn beside(nodes: &[Cell], parent: u32, at: u32) -> Option<u32>
    requires { IsSome (node_at nodes.now parent) }
    ensures some { ForSome (node_at nodes.now parent) (λ above. IfSome result (λ right. (above.one ≡ Some right) × (right ≢ at))) }
    ensures none { ForSome (node_at nodes.now parent) (λ above. result ≡ None → (above.one ≡ None) ⊎ (above.one ≡ Some at)) }
{
    let right = child_at(nodes, parent, true).get()?;
    if right == at { None } else { Some(right) }
}

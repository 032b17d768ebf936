//! The lists that a block's nodes are members of, each from the first place of an id to no place.
ghost use Rattle.std.specs.Prelude.{◌≡◌, ◌≢◌, ◌<◌, ◌≤◌, ℕ, List, length, map, count_by, is_none, None, Some, Contains, slice_index_or, slice_set};
ghost use Rattle.order_chains.specs.Pairs.{AreChains, IsLinked, pair_of, upper_at, with_ends};
ghost use Rattle.order_chains.specs.Chains.{nil, next_at, back_at, link_of, with_link, with_next, with_back, pushed, unlinked, heads_unlinked};

use crate::block::Block;
use crate::node::{Link, Node};

/// No place.
pub(crate) const NIL: u32 = 0xffff_ffff;

/// One of the two kinds of lists that a node is a member of.
#[derive(Clone, Copy, Debug, Drop)]
pub(crate) enum Side {
    /// The below list of the upper id.
    Below,
    /// The above list of the lower id.
    Above,
}

/// The neighbours of a node.
pub(crate) fn link_of(node: &Node, side: Side) -> Link
    ensures { result ≡ link_of side node.now }
{
    match side {
        Side::Below => node.below,
        Side::Above => node.above,
    }
}

fn with_link(node: Node, side: Side, link: Link) -> Node
    ensures { result ≡ with_link side node link }
{
    match side {
        Side::Below => Node {
            below: link,
            ..node
        },
        Side::Above => Node {
            above: link,
            ..node
        },
    }
}

/// The node at a place is followed by another. Nothing where there is no place.
fn set_next(block: &mut Block, side: Side, at: u32, next: u32)
    requires { at ≢ nil → at < length block.old }
    ensures { block.new ≡ with_next side block.old at next }
{
    if at != NIL {
        let node = block.load(at as usize);
        let back = link_of(&node, side).back;
        block.store(at as usize, with_link(node, side, Link { next, back }));
    }
}

/// The node at a place follows another. Nothing where there is no place.
fn set_back(block: &mut Block, side: Side, at: u32, back: u32)
    requires { at ≢ nil → at < length block.old }
    ensures { block.new ≡ with_back side block.old at back }
{
    if at != NIL {
        let node = block.load(at as usize);
        let next = link_of(&node, side).next;
        block.store(at as usize, with_link(node, side, Link { next, back }));
    }
}

/// Puts the node at a place in front of an id's list.
pub(crate) fn push(block: &mut Block, heads: &mut [u32], side: Side, id: u32, at: u32)
    requires inside { (at < length block.old) × (id < length heads.old) }
    requires first { slice_index_or heads.old id nil ≢ nil → slice_index_or heads.old id nil < length block.old }
    ensures nodes { block.new ≡ pushed side block.old at (slice_index_or heads.old id nil) }
    ensures heads { heads.new ≡ slice_set heads.old id at }
{
    let next = heads[id as usize];
    let node = block.load(at as usize);
    block.store(at as usize, with_link(node, side, Link { next, back: NIL }));
    set_back(block, side, next, at);
    heads[id as usize] = at;
}

/// Takes the node at a place out of an id's list: its neighbours are linked to each other.
pub(crate) fn unlink(block: &mut Block, heads: &mut [u32], side: Side, id: u32, at: u32)
    requires inside { (at < length block.old) × (id < length heads.old) }
    requires next { next_at side block.old at ≢ nil → next_at side block.old at < length block.old }
    requires back { back_at side block.old at ≢ nil → back_at side block.old at < length block.old }
    ensures nodes { block.new ≡ unlinked side block.old at }
    ensures heads { heads.new ≡ heads_unlinked side block.old heads.old id at }
{
    let node = block.load(at as usize);
    let link = link_of(&node, side);
    set_next(block, side, link.back, link.next);
    set_back(block, side, link.next, link.back);
    if link.back == NIL {
        heads[id as usize] = link.next;
    }
}

/// A node of the list of free ones, which is that of the number of ids.
pub(crate) fn free_node(ids: u32) -> Node
    ensures { (result.upper ≡ ids) × (result.lower ≡ ids) }
{
    let link = Link {
        next: NIL,
        back: NIL,
    };
    Node {
        upper: ids,
        lower: ids,
        below: link,
        above: link,
    }
}

/// The node at a place gets other ends.
fn set_ends(block: &mut Block, at: u32, upper: u32, lower: u32)
    requires { at < length block.old }
    ensures { block.new ≡ with_ends block.old at upper lower }
{
    let node = block.load(at as usize);
    block.store(
        at as usize,
        Node {
            upper,
            lower,
            ..node
        },
    );
}

/// Puts the nodes from a place on into the list of free ones.
pub(crate) fn free_all(block: &mut Block, below: &mut [u32], ids: u32, from: usize)
    requires chains { (above : List ℕ) × AreChains ids block.old below.old above from }
    requires free { (p : ℕ) → from ≤ p → p < length block.old → upper_at block.old p ≡ ids }
    ensures chains { (above : List ℕ) → AreChains ids block.old below.old above from → AreChains ids block.new below.new above (length block.new) }
    ensures pairs { map (pair_of ids) block.new ≡ map (pair_of ids) block.old }
{
    for at in from..block.len() {
        push(block, below, Side::Below, ids, at as u32);
    }
}

/// The first free node becomes the pair of two ids.
pub(crate) fn link(
    block: &mut Block,
    below: &mut [u32],
    above: &mut [u32],
    ids: u32,
    upper: u32,
    lower: u32,
)
    requires chains { AreChains ids block.old below.old above.old (length block.old) }
    requires room { 1 ≤ count_by is_none (map (pair_of ids) block.old) }
    requires ends { (upper < ids) × (lower < ids) × (upper ≢ lower) }
    requires absent { Contains (map (pair_of ids) block.old) (Some (upper, lower)) → ⊥ }
    ensures chains { AreChains ids block.new below.new above.new (length block.new) }
    ensures linked { IsLinked (map (pair_of ids) block.old) (map (pair_of ids) block.new) (upper, lower) }
{
    let at = below[ids as usize];
    unlink(block, below, Side::Below, ids, at);
    set_ends(block, at, upper, lower);
    push(block, below, Side::Below, upper, at);
    push(block, above, Side::Above, lower, at);
}

/// The node at a place becomes a free one.
pub(crate) fn give_up(block: &mut Block, below: &mut [u32], above: &mut [u32], ids: u32, at: u32)
    requires chains { AreChains ids block.old below.old above.old (length block.old) }
    requires inside { at < length block.old }
    requires taken { upper_at block.old at < ids }
    ensures chains { AreChains ids block.new below.new above.new (length block.new) }
    ensures gone { map (pair_of ids) block.new ≡ slice_set (map (pair_of ids) block.old) at None }
{
    let node = block.load(at as usize);
    unlink(block, below, Side::Below, node.upper, at);
    unlink(block, above, Side::Above, node.lower, at);
    set_ends(block, at, ids, ids);
    push(block, below, Side::Below, ids, at);
}

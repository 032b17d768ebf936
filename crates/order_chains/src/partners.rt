//! The partners of an id, along one of its lists.
ghost use Rattle.std.specs.Prelude.{◌≡◌, length};
ghost use Rattle.std.specs.Iterator.{YieldsFirst, item_count};
ghost use Rattle.order_chains.specs.Partners.{other_end, along, IsOnList};

use crate::block::Block;
use crate::chains::{NIL, Side, link_of};
use crate::node::Node;
use std::marker::Model;

/// The partners of an id, seen as the list of those that are left.
#[derive(Drop)]
pub struct Partners<'a> {
    nodes: &'a Block,
    side: Side,
    // The place of the next one.
    at: u32,
}

impl<'a> Model for Partners<'a> {
    ghost use Rattle.std.specs.Prelude.{List, ℕ, length};
    ghost use Rattle.order_chains.specs.Partners.{along, IsOnList};

    ghost Value = { List ℕ };

    ghost view = { λ p. along p.side p.nodes.now (length p.nodes.now) p.at };

    ghost invariant = { λ p. IsOnList p.side p.nodes.now p.at };
}

impl<'a> Partners<'a> {
    /// The partners from a place of a list on.
    pub(crate) fn new(nodes: &'a Block, side: Side, at: u32) -> Partners<'a>
        requires { IsOnList side nodes.now at }
        ensures { result ≡ along side nodes.now (length nodes.now) at }
    {
        Partners { nodes, side, at }
    }
}

impl<'a> Iterator for Partners<'a> {
    type Item = u32;

    ghost next_gives = { YieldsFirst (λ rest. rest) };

    ghost remaining = { item_count (λ rest. rest) };

    fn next(&mut self) -> Option<u32> {
        if self.at == NIL {
            return None;
        }
        let node = self.nodes.load(self.at as usize);
        self.at = link_of(&node, self.side).next;
        Some(other_end(&node, self.side))
    }
}

/// The end of a node that isn't the owner of its list.
fn other_end(node: &Node, side: Side) -> u32
    ensures { result ≡ other_end side node.now }
{
    match side {
        Side::Below => node.lower,
        Side::Above => node.upper,
    }
}

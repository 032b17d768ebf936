//! Blocks in room of their own.

ghost use Rattle.std.specs.Prelude.{◌≡◌, ◌<◌, ◌≤◌, ◌++◌, ◌∷◌, [], length, slice_index_or};

use crate::Ports;
use std::marker::Model;

/// The greatest number of blocks in a cover.
pub const MOST_BLOCKS: usize = 30;

/// Blocks of ports, rising.
#[derive(Debug, Drop)]
pub struct Cover {
    blocks: [Ports; MOST_BLOCKS],
    len: usize,
}

impl Model for Cover {
    ghost use Rattle.std.specs.Prelude.{List, ◌≡◌, ◌≤◌, length, take};
    ghost use Rattle.rule_model.specs.PortRange.{PortRange};

    ghost Value = { List PortRange };

    ghost view = { λ c. take c.len c.blocks };

    ghost invariant = { λ c. (c.len ≤ 30) × (length c.blocks ≡ 30) };
}

impl Cover {
    /// The number of blocks, at most `MOST_BLOCKS`.
    pub fn len(&self) -> u32
        ensures number { result ≡ length self.now }
        ensures most { result ≤ MOST_BLOCKS }
    {
        self.len as u32
    }

    /// The block at a place, of which there are `len`.
    pub fn at(&self, i: u32) -> Ports
        requires { i < length self.now }
        ensures { result ≡ slice_index_or self.now i result }
    {
        self.blocks[i as usize]
    }

    /// No blocks.
    pub(crate) fn empty() -> Cover
        ensures { result ≡ [] }
    {
        Cover {
            blocks: [Ports::any(); MOST_BLOCKS],
            len: 0,
        }
    }

    /// Appends a block.
    pub(crate) fn push(&mut self, block: Ports)
        requires { length self.old < MOST_BLOCKS }
        ensures { self.new ≡ self.old ++ block ∷ [] }
    {
        self.blocks[self.len] = block;
        self.len += 1;
    }
}

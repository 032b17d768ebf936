//! The next hops that have a number: the first has 1, and so on.

ghost use Rattle.std.specs.Prelude.{◌≡◌, ◌+◌, ◌++◌, ◌∷◌, [], None, length, IfOk, IfSome, OnOk};
ghost use Rattle.ip_routes.specs.Telling.{hop_line, hop_number, hops_with, way_comment, way_number};

use crate::telling::put_hop;
use indexmap::IndexSet;
use std::alloc::{AllocError, Global};
use std::marker::Model;

/// The next hops that have a number, in words, in the order of their numbers. One is found by its hash, so that an input of
/// many next hops is read as fast as one of few. Contracts see the list.
#[derive(Drop)]
pub struct Hops {
    ways: IndexSet<Vec<u8>>,
}

impl Model for Hops {
    ghost use Rattle.std.specs.Prelude.{ℕ, List, map};

    ghost Value = { List (List ℕ) };

    ghost view = { λ h. map (λ way. way.items) h.ways.keys };
}

impl Hops {
    /// None has a number yet. Takes no memory.
    pub fn new(alloc: Global) -> Hops
        ensures { result ≡ [] }
    {
        Hops {
            ways: IndexSet::new(alloc),
        }
    }

    /// The number of a next hop, if it has one.
    pub fn number_of(&self, way: &[u8]) -> Option<usize>
        ensures { result ≡ hop_number self.now way.now }
    {
        let count = self.ways.len();
        match self.ways.get_index_of(way) {
            Some(place) => {
                prove!(place < count);
                Some(place + 1)
            }
            None => None,
        }
    }

    /// Gives a next hop that has none the next number, and answers it.
    fn add(&mut self, alloc: Global, way: &[u8]) -> Result<usize, AllocError>
        requires new { None ≡ hop_number self.old way.now }
        ensures number { IfOk result (λ number. number ≡ length self.old + 1) }
        ensures hops { OnOk result (self.new ≡ self.old ++ way.now ∷ []) }
    {
        let words = Vec::from_slice(alloc, way)?;
        self.ways.insert(words)?;
        Ok(self.ways.len())
    }
}

/// The number of a next hop: where it has none it gets the next one, and a comment says what that stands for.
pub fn number_way(
    alloc: Global,
    hops: &mut Hops,
    way: &[u8],
    into: &mut Vec<u8>,
) -> Result<usize, AllocError>
    ensures number { IfOk result (λ number. number ≡ way_number hops.old way.now) }
    ensures comment { OnOk result (into.new.items ≡ into.old.items ++ way_comment hops.old way.now) }
    ensures hops { OnOk result (hops.new ≡ hops_with hops.old way.now) }
{
    match hops.number_of(way) {
        Some(number) => Ok(number),
        None => add_way(alloc, hops, way, into),
    }
}

/// Gives a next hop that has none the next number, and says what it stands for.
fn add_way(
    alloc: Global,
    hops: &mut Hops,
    way: &[u8],
    into: &mut Vec<u8>,
) -> Result<usize, AllocError>
    requires new { None ≡ hop_number hops.old way.now }
    ensures number { IfOk result (λ number. number ≡ length hops.old + 1) }
    ensures comment { OnOk result (into.new.items ≡ into.old.items ++ hop_line (length hops.old + 1) way.now) }
    ensures hops { OnOk result (hops.new ≡ hops.old ++ way.now ∷ []) }
{
    let number = hops.add(alloc, way)?;
    put_hop(into, number, way)?;
    Ok(number)
}

//! What is kept of which live pieces overlap: of routes where they stand, and of others the pairs.
ghost use Rattle.std.specs.Prelude.{◌≡◌, ◌<◌, ◌≤◌, ◌-◌, ◌^◌, ℕ, List, [], ◌∷◌, ◌++◌, None, IsSome, IsTrue, IsFalse, IfOk, IfSome, OnOk, OnErr, length};
ghost use Rattle.std.specs.List.{swap_remove};
ghost use Rattle.prefix_trie.specs.Routes.{Routes, route_of};
ghost use Rattle.placement.specs.declared.LivePiece.{LivePiece};
ghost use Rattle.placement.specs.Live.{MayTell, without_id};
ghost use Rattle.overlap_index.specs.declared.ties.Ties.TheVariants as ties;
ghost use Rattle.overlap_index.specs.Tied.{AreTied, IsComing, IsEntered, IsGoing, stood_in, told_of};

use crate::destinations::MANY;
use crate::pairs::Linked;
use crate::routes::is_route;
use placement::LivePiece;
use prefix_trie::PrefixTrie;
use slot_order::MOST_SLOTS;
use std::alloc::{AllocError, Global};

/// What is kept of overlaps.
#[derive(Drop)]
pub(crate) enum Ties {
    /// All live pieces are routes, no two with one destination: these, and where they are told to stand.
    Told(PrefixTrie),
    /// Pieces of any kind, and which of them overlap.
    Linked(Linked),
}

impl Ties {
    /// What is kept while nothing is live: it is to be told of routes, where there are many ids.
    pub(crate) fn new(alloc: Global, ids: u32) -> Result<Ties, AllocError>
        requires some { 1 ≤ ids }
        requires most { ids ≤ MOST_SLOTS }
        ensures { IfOk result (AreTied ids [] []) }
    {
        if ids < MANY {
            return Ok(Ties::Linked(Linked::new(alloc, ids)?));
        }
        Ok(Ties::Told(PrefixTrie::new(alloc, ids)?))
    }

    /// Takes a piece more that becomes live, behind some, each at the place of its id. Routes are told where they stand as long
    /// as no other piece comes; then the pairs of all are made first. After a refusal there may be more room, and all else is
    /// as before.
    pub(crate) fn more(
        &mut self,
        alloc: Global,
        ids: u32,
        pieces: &[LivePiece],
        places: &[u32],
        one: &LivePiece,
    ) -> Result<(), AllocError>
        requires { (live : List LivePiece) × IsComing ids live pieces.now places.now one.now × AreTied ids live pieces.now self.old }
        ensures tied { OnOk result ((live : List LivePiece) → IsComing ids live pieces.now places.now one.now → AreTied ids live pieces.now self.old → AreTied ids (live ++ one.now ∷ []) (pieces.now ++ one.now ∷ []) self.new) }
        ensures told { OnOk result (MayTell (told_of self.old) one.now.id (told_of self.new)) }
        ensures refused { OnErr result ((live : List LivePiece) → AreTied ids live pieces.now self.old → AreTied ids live pieces.now self.new) }
        ensures kept { OnErr result (told_of self.new ≡ told_of self.old) }
    {
        if self.enter(one)? {
            return Ok(());
        }
        match self {
            Ties::Linked(linked) => linked.more(alloc, pieces, places, one),
            Ties::Told(_) => {
                let linked = Linked::of(alloc, ids, pieces, places, one)?;
                *self = Ties::Linked(linked);
                Ok(())
            }
        }
    }

    /// Puts a route among those that are told where they stand. False, and nothing changed, where they aren't told, where it
    /// is no route, and where another one has its destination.
    fn enter(&mut self, one: &LivePiece) -> Result<bool, AllocError>
        requires { (routes : Routes) → self.old ≡ ties.Told routes → (one.now.id < length routes) × (route_of routes one.now.id ≡ None) }
        ensures entered { IfOk result (λ entered. IsTrue entered → IsEntered self.old one.now self.new) }
        ensures not { IfOk result (λ entered. IsFalse entered → self.new ≡ self.old) }
        ensures refused { OnErr result (self.new ≡ self.old) }
    {
        match self {
            Ties::Told(trie) => {
                if is_route(&one.piece, one.rank) {
                    trie.insert(&one.piece.dst, one.id)
                } else {
                    Ok(false)
                }
            }
            Ties::Linked(_) => Ok(false),
        }
    }

    /// It is told that an id stands in a slot, or in none.
    pub(crate) fn stand(&mut self, id: u32, slot: Option<u32>)
        requires known { (routes : Routes) → self.old ≡ ties.Told routes → IsSome (route_of routes id) }
        requires small { IfSome slot (λ at. at < 2 ^ 32 - 1) }
        ensures { self.new ≡ stood_in self.old id slot }
    {
        match self {
            Ties::Told(trie) => match slot {
                Some(slot) => trie.put(id, slot),
                None => trie.erase(id),
            },
            Ties::Linked(_) => {}
        }
    }

    /// The id of a piece goes, and the last piece takes its place.
    pub(crate) fn less(&mut self, id: u32, place: usize)
        requires { (ids : ℕ) × (live : List LivePiece) × (pieces : List LivePiece) × IsGoing ids live pieces id place × AreTied ids live pieces self.old }
        ensures tied { (ids : ℕ) (live pieces : List LivePiece) (none : LivePiece) → IsGoing ids live pieces id place → AreTied ids live pieces self.old → AreTied ids (without_id live id) (swap_remove pieces place none) self.new }
        ensures told { MayTell (told_of self.old) id (told_of self.new) }
    {
        match self {
            Ties::Told(trie) => trie.remove(id),
            Ties::Linked(linked) => linked.less(id, place),
        }
    }
}

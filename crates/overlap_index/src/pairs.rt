//! The pairs of live pieces that overlap, and what finds those of a new one.
ghost use Rattle.std.specs.Prelude.{◌≤◌, ℕ, List, [], ◌∷◌, ◌++◌, IsTrue, IfOk, OnOk, OnErr, Contains, length};
ghost use Rattle.std.specs.List.{swap_remove};
ghost use Rattle.slot_order.specs.Order.{most_slots};
ghost use Rattle.placement.specs.declared.LivePiece.{LivePiece};
ghost use Rattle.placement.specs.Live.{is_live, without_id};
ghost use Rattle.overlap_index.specs.declared.scan.Side.TheVariants as side;
ghost use Rattle.overlap_index.specs.Sides.{AreAmong, AreOn};
ghost use Rattle.overlap_index.specs.Tied.{ArePaired, IsComing, IsGoing};

use crate::columns::Columns;
use crate::destinations::Destinations;
use crate::links::{link_above, link_below};
use crate::scan::{Found, overlapping};
use order_chains::Edges;
use placement::LivePiece;
use slot_order::MOST_SLOTS;
use std::alloc::{AllocError, Global};

/// How many nodes a walk may look at where few pieces are live: some more than stand on the way to one.
const LONG_WALK: usize = 64;

/// The pairs of live pieces that overlap, and what finds those of a new one.
#[derive(Drop)]
pub(crate) struct Linked {
    /// The addresses of the pieces, in the same order.
    pub(crate) columns: Columns,
    /// Their destinations, where no two are the same.
    pub(crate) destinations: Destinations,
    pub(crate) edges: Edges,
}

impl Linked {
    /// Those of no piece.
    pub(crate) fn new(alloc: Global, ids: u32) -> Result<Linked, AllocError>
        requires some { 1 ≤ ids }
        requires most { ids ≤ MOST_SLOTS }
        ensures { IfOk result (λ linked. ArePaired ids [] [] linked) }
    {
        let columns = Columns::new(alloc, ids as usize)?;
        let destinations = Destinations::new(alloc, ids)?;
        let edges = Edges::new(alloc, ids)?;
        Ok(Linked {
            columns,
            destinations,
            edges,
        })
    }

    /// Those of some pieces and of one more behind them, each at the place of its id.
    pub(crate) fn of(
        alloc: Global,
        ids: u32,
        pieces: &[LivePiece],
        places: &[u32],
        one: &LivePiece,
    ) -> Result<Linked, AllocError>
        requires { (live : List LivePiece) × IsComing ids live pieces.now places.now one.now }
        ensures { IfOk result (λ linked. (live : List LivePiece) → IsComing ids live pieces.now places.now one.now → ArePaired ids (live ++ one.now ∷ []) (pieces.now ++ one.now ∷ []) linked) }
    {
        let mut linked = Linked::new(alloc, ids)?;
        for place in 0..pieces.len() {
            linked.more(alloc, &pieces[..place], places, &pieces[place])?;
        }
        linked.more(alloc, pieces, places, one)?;
        Ok(linked)
    }

    /// Links one piece more to those of some that it overlaps. After a refusal there may be room for more links, and all
    /// else is as before.
    pub(crate) fn more(
        &mut self,
        alloc: Global,
        pieces: &[LivePiece],
        places: &[u32],
        one: &LivePiece,
    ) -> Result<(), AllocError>
        requires { (ids : ℕ) × (live : List LivePiece) × IsComing ids live pieces.now places.now one.now × ArePaired ids live pieces.now self.old }
        ensures paired { OnOk result ((ids : ℕ) (live : List LivePiece) → IsComing ids live pieces.now places.now one.now → ArePaired ids live pieces.now self.old → ArePaired ids (live ++ one.now ∷ []) (pieces.now ++ one.now ∷ []) self.new) }
        ensures refused { OnErr result ((ids : ℕ) (live : List LivePiece) → ArePaired ids live pieces.now self.old → ArePaired ids live pieces.now self.new) }
    {
        let found = self.overlapping(alloc, pieces, places, one)?;
        // Room comes first: once the columns are pushed, nothing can fail.
        self.edges
            .reserve((found.above.len() + found.below.len()) as u32)?;
        self.columns.push(&one.piece)?;
        link_above(&mut self.edges, &found.above, one.id);
        link_below(&mut self.edges, one.id, &found.below);
        self.destinations.enter(one.id, &one.piece.dst);
        Ok(())
    }

    /// The id of a piece goes, and the last piece takes its place.
    pub(crate) fn less(&mut self, id: u32, place: usize)
        requires { (ids : ℕ) × (live : List LivePiece) × (pieces : List LivePiece) × IsGoing ids live pieces id place × ArePaired ids live pieces self.old }
        ensures { (ids : ℕ) (live pieces : List LivePiece) (none : LivePiece) → IsGoing ids live pieces id place → ArePaired ids live pieces self.old → ArePaired ids (without_id live id) (swap_remove pieces place none) self.new }
    {
        self.columns.remove(place);
        self.edges.drop_node(id);
        self.destinations.leave(id);
    }

    /// The ids on either side of a piece: of those that a walk finds by their destinations, or else by a pass over all. The
    /// walk looks at a piece at a time and the pass at eight, so a long walk is given up for the pass.
    fn overlapping(
        &self,
        alloc: Global,
        pieces: &[LivePiece],
        places: &[u32],
        of: &LivePiece,
    ) -> Result<Found, AllocError>
        requires { (ids : ℕ) × (live : List LivePiece) × IsComing ids live pieces.now places.now of.now × ArePaired ids live pieces.now self.now }
        ensures above { IfOk result (λ found. (ids : ℕ) (live : List LivePiece) → IsComing ids live pieces.now places.now of.now → ArePaired ids live pieces.now self.now → AreOn side.Above of.now live found.above.items) }
        ensures below { IfOk result (λ found. (ids : ℕ) (live : List LivePiece) → IsComing ids live pieces.now places.now of.now → ArePaired ids live pieces.now self.now → AreOn side.Below of.now live found.below.items) }
        ensures few_above { IfOk result (λ found. length found.above.items ≤ most_slots) }
        ensures few_below { IfOk result (λ found. length found.below.items ≤ most_slots) }
    {
        let most = pieces.len() / 32 + LONG_WALK;
        let walked = self.destinations.nested(alloc, &of.piece.dst, most)?;
        match walked {
            Some(ids) => among(alloc, pieces, places, of, &ids),
            None => overlapping(alloc, of, pieces, &self.columns),
        }
    }
}

/// Of live ids those on either side of a piece.
fn among(
    alloc: Global,
    pieces: &[LivePiece],
    places: &[u32],
    of: &LivePiece,
    ids: &[u32],
) -> Result<Found, AllocError>
    requires { (slots : ℕ) × (live : List LivePiece) × IsComing slots live pieces.now places.now of.now × ((id : ℕ) → Contains ids.now id → IsTrue (is_live live id)) }
    ensures { IfOk result (λ found. (slots : ℕ) (live : List LivePiece) → IsComing slots live pieces.now places.now of.now → ((id : ℕ) → Contains ids.now id → IsTrue (is_live live id)) → AreAmong of.now live ids.now found.above.items found.below.items) }
{
    let mut found = Found {
        above: Vec::new(alloc),
        below: Vec::new(alloc),
    };
    for id in ids {
        let place = places[*id as usize];
        found.put(&pieces[place as usize], of)?;
    }
    Ok(found)
}

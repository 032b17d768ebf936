//! Which of the live ids overlap, above and below.
//!
//! An id is live from `add` to `remove`, with a piece of a rule and its priority. Of two live ids whose pieces overlap,
//! as some packet key matches both, the one of higher priority is above the other. `above` and `below` name them,
//! `is_above` says it of two, `rank_of` tells an id's priority, and `id_of` finds one by its piece and its priority.
//!
//! # The one hard idea
//! What is kept of overlaps goes by what is live (`ties`). Where there are many ids, and as long as all are routes and no
//! two have one destination, it is a trie of the destinations and nothing else: of two routes that overlap one lies in the
//! other, so the bounds of a gap are told by the trie (`last_above`, `first_below`), and no list of what overlaps is made as
//! ids come. Who asks for one all the same has it by a pass over all that is live.
//!
//! Once another piece comes the pairs of all are made, and kept from then on: which ids overlap is found once, when an id
//! comes, and not at each question. Each pair of overlapping ids is a link that both ends lead to, and a question only
//! follows the links of its id. To ask of two ids needs no link: a table has the place of each, and the pieces that stand
//! there are compared.
//!
//! Where there are many ids, and as long as no two live pieces have one destination, what overlaps a new one is found by a
//! walk in a trie of these: it covers the new destination or lies in it, and a table's other pieces aren't looked at
//! (`destinations`). Each of them is compared by priority and piece all the same, so that nothing is asked of their kind.
//!
//! Where two have one destination, as in lists, the trie is given up for good, and a new id is compared with every live
//! piece, as it is where there are few ids. But most of them have nothing to do with it, and almost all are told
//! apart by their addresses alone. So each is looked at once, but eight at a time, by a window of 32 bits of its
//! destination: the least and the greatest of what its addresses have there stand in columns of their own. Two blocks
//! that overlap have a number in common in every window, so any one may tell them apart, in any order. There are three:
//! the upper 32 bits, which are all of an IPv4 address, the next 32, by which routes within one IPv6 network differ,
//! and the lowest 32, by which its hosts do. The last window of which the new piece leaves something out is looked at
//! first, since the pieces of one network have those before in common. Where one of the eight is near by it, so are the
//! other windows, the sources and the destination ports, by columns of theirs; only those that are near by all are
//! compared by priority and piece. A rule's ports are cut into blocks that are apart, so ports tell most pieces of
//! lists apart.
//!
//! Live pieces, and the columns beside them, stand in no order that matters: where one goes the last takes its place.
//! In which order they came is known to contracts alone, by a history that takes no memory.
//!
//! An id is found by its piece and its priority in a bucket: these are mixed to a number, and the ids whose numbers lead to
//! one bucket follow one another (`buckets`). That the number is a function of piece and priority is all that is proved of
//! it, and all that finding needs.
//!
//! # What it cost
//! A question costs time by the number of ids that it names, and not by the number of live pieces, and `is_above`,
//! `is_live` and `rank_of` take the same time whatever is live; only `above` and `below` of an index that is told pass over all
//! that is live. There `add` takes a way down the trie, and the first piece that is no route costs as much as all that are live
//! would, had they come to a list. Else `add` walks by as many nodes as there are on the way to its
//! destination and inside it, or passes over the live pieces once, eight in a step, where these are more than one in 32 of
//! them, since a node costs some sixty instructions and a piece that is passed over three, and where there is no trie;
//! `id_of` looks at the ids of one bucket, and there are as many buckets as ids; `remove` takes as many steps as there are
//! links that go, and at most one for each id of a bucket, and moves one piece. Least and greatest numbers, and not
//! number and mask, are in the columns, since the order of numbers is all that the proof needs then.
//!
//! Only `new` and `add` take memory: 16 bytes an id beside the piece, which stands once, at most 96 a destination in the
//! trie, and once pairs are kept 48 more an id, and 24 bytes a pair of ids that overlap, whose room doubles where it grows.
//! The worst list, each piece over each other, has n (n - 1) / 2 pairs: 12 bytes times n squared, 201 MB at 4,096 ids and
//! 51 GB at 65,536, in a block with room for up to twice as many; from 92,683 ids on it has more pairs than links can be
//! numbered, and `add` is refused.
//!
//! # What isn't promised
//! Any order of the ids that are named. Lists in which many rules have both blocks and their ports in common, `any`
//! say, gain nothing from the columns, nor do IPv6 blocks that differ in their third 32 bits alone. Room for links
//! isn't given back before the whole index is. Nor that a bucket has few ids: how a piece is mixed is no secret, so whoever
//! chooses the rules can choose such that all lead to one bucket. Then `id_of` and `remove` look at each live id.
//!
//! # Decided
//! - **The trie is told where ids stand, as long as all are routes** (`stand`, `is_told`). Then it tells the bounds of a gap
//!   without a list of what overlaps (`last_above`, `first_below`). It follows no move: whoever makes moves tells where the ids
//!   stand once they are made.
//! - **No pair is kept while it is told**: a default route over a million others has a million pairs, 24 MB, and nobody asks
//!   for them, since of routes nothing crosses. So lists of overlaps are made by whoever asks (`overlaps`), and the first
//!   piece that is no route, or has a route's destination, pays for the pairs of all: they are made before anything changes,
//!   and let go where memory ends, so that a refusal leaves all as before. From then on nothing is told, also where all
//!   others go again.
//! - **A trie beside pairs that finds no memory is let go**, so that no refusal is its own; of one that is told it is that of
//!   `add`.
//! - **The id of a piece is found by buckets that are linked by numbers** (`id_of`), and not by the pass that finds its
//!   overlaps, as it once was: a commit asks for each entry that it rewrites or erases, and paid for the whole table each
//!   time. The price is 8 bytes an id. A map of the kit would ask for memory as ids come, take some 20 bytes an id and
//!   more, and keep one id a piece and priority, where `add` forbids no second one.
//! - **What is mixed are the priority and the ports**: two rules differ in their priorities, also routes, whose priority has
//!   their prefix, and two pieces of one rule in their ports. Where neither differs the pieces are compared.
//! - **Each window is a test of its own**, so no two have to be compared in order. The second and the third of the
//!   destination cost 16 bytes an id together.
//! - **What is found is kept as pairs**, so the planner, which asks for the overlaps of every entry that moves, pays
//!   for those and not for the table: half a megabyte of links where each of 4,096 entries overlaps 10. A test compares
//!   what is linked with a plain scan.
#![tactic(auto)]

ghost use Rattle.std.specs.Prelude.{◌≡◌, ◌<◌, ◌≤◌, ◌-◌, ◌^◌, ◌↔◌, ℕ, [], ◌∷◌, ◌++◌, IsTrue, IsFalse, IsNone, IfSome, IfOk, OnOk, OnErr, Contains, is_some, nat_eq};
ghost use Rattle.std.specs.List.{IsDistinct};
ghost use Rattle.std.specs.Option.{ForSome};
ghost use Rattle.placement.specs.declared.LivePiece.{LivePiece};
ghost use Rattle.placement.specs.Live.{AreApart, IsLastTold, IsNextTold, IsToldAt, MayTell, is_live, is_above, without_id, ids_above, ids_below, rank_in};
ghost use Rattle.overlap_index.specs.Sides.{ids_beside};

mod buckets;
mod columns;
mod destinations;
mod links;
mod near;
mod overlaps;
mod pairs;
mod routes;
mod scan;
mod ties;

use buckets::{Bucket, Buckets};
use call_history::History;
pub use overlaps::Overlaps;
use overlaps::{Origin, Pass};
use placement::LivePiece;
use rule_model::{Piece, Rank};
use scan::{Side, is_over};
use slot_order::MOST_SLOTS;
use std::alloc::{AllocError, AllocFailed, Global};
use std::marker::Model;
use ties::Ties;

/// The greatest number of ids.
pub const MOST_IDS: u32 = MOST_SLOTS;

/// What became of an id, as the history of an index has it.
#[derive(Drop)]
enum Change {
    /// It came, with its piece and its priority.
    Came(LivePiece),
    /// It went.
    Went(u32),
}

/// The live ids below a number, each with its piece and its priority.
#[derive(Drop)]
pub struct Index {
    // The number that ids are below.
    slots: u32,
    // The live pieces, none twice. Where one goes the last takes its place.
    pieces: Vec<LivePiece>,
    // The place of each live id among them; what stands at another id is of no account.
    places: Vec<u32>,
    // The live ids, by their pieces and their priorities.
    buckets: Buckets,
    // Where they stand, while all are routes, and else which of them overlap.
    ties: Ties,
    // Which ids came and went, by which contracts know the order in which those that are live came.
    history: History<Change>,
    alloc: Global,
}

impl Model for Index {
    ghost use Rattle.placement.specs.Live.{LivePieces};
    ghost use Rattle.overlap_index.specs.Changes.{live_after};
    ghost use Rattle.overlap_index.specs.Tied.{AreParts, told_of};

    ghost Value = { LivePieces };

    ghost view = { λ i. record { slots = i.slots; live = live_after i.history.items; told = told_of i.ties } };

    ghost invariant = { λ i. AreParts i.slots (live_after i.history.items) i.pieces.items i.places.items i.buckets i.ties };
}

impl Index {
    /// Makes an index of ids below `slots`, from 1 to `MOST_IDS`, none of them live.
    pub fn new(alloc: Global, slots: u32) -> Result<Index, AllocError>
        requires some { 1 ≤ slots }
        requires most { slots ≤ MOST_IDS }
        ensures slots { IfOk result (λ index. index.slots ≡ slots) }
        ensures live { IfOk result (λ index. index.live ≡ []) }
    {
        let pieces = Vec::with_capacity(alloc, slots as usize)?;
        let places = Vec::from_elem(alloc, 0, slots as usize)?;
        let buckets = Buckets::new(alloc, slots)?;
        let ties = Ties::new(alloc, slots)?;
        Ok(Index {
            slots,
            pieces,
            places,
            buckets,
            ties,
            history: History::new(),
            alloc,
        })
    }

    /// Makes an id live, with its piece and its priority. After a refusal all is as before.
    pub fn add(&mut self, id: u32, piece: &Piece, priority: Rank) -> Result<(), AllocError>
        requires small { id < self.old.slots }
        requires absent { IsFalse (is_live self.old.live id) }
        ensures live { OnOk result (self.new.live ≡ self.old.live ++ record { id = id; piece = piece.now; rank = priority } ∷ []) }
        ensures slots { self.new.slots ≡ self.old.slots }
        ensures told { OnOk result (MayTell self.old.told id self.new.told) }
        ensures refused { OnErr result (self.new ≡ self.old) }
    {
        let one = LivePiece {
            id,
            piece: *piece,
            rank: priority,
        };
        self.pieces.reserve(1)?;
        self.ties
            .more(self.alloc, self.slots, &self.pieces, &self.places, &one)?;
        self.places[id as usize] = self.pieces.len() as u32;
        self.pieces.push_reserved(one);
        self.buckets.came(id, piece, priority);
        self.history = self.history.and(&Change::Came(one));
        Ok(())
    }

    /// Makes a live id no longer live.
    pub fn remove(&mut self, id: u32)
        requires { IsTrue (is_live self.old.live id) }
        ensures live { self.new.live ≡ without_id self.old.live id }
        ensures slots { self.new.slots ≡ self.old.slots }
        ensures told { MayTell self.old.told id self.new.told }
    {
        let one = *self.piece_of(id);
        self.buckets.went(id, &one.piece, one.rank);
        let place = self.places[id as usize] as usize;
        let last = self.pieces[self.pieces.len() - 1].id;
        self.places[last as usize] = place as u32;
        self.pieces.swap_remove(place);
        self.ties.less(id, place);
        self.history = self.history.and(&Change::Went(id));
    }

    /// Whether it is kept where the ids stand: as long as all are routes, and no two have one destination. Then what is
    /// above an id is above all that it is above, since of routes that overlap the shorter covers the longer.
    pub fn is_told(&self) -> bool
        ensures told { result ≡ is_some self.now.told }
        ensures nested { IsTrue result → (upper middle lower : ℕ) → IsTrue (is_above self.now.live upper middle) → IsTrue (is_above self.now.live middle lower) → IsTrue (is_above self.now.live upper lower) }
        ensures apart { AreApart self.now.slots self.now.live }
    {
        match &self.ties {
            Ties::Told(trie) => {
                trie.are_apart();
                true
            }
            Ties::Linked(_) => false,
        }
    }

    /// Tells where a live id stands: in a slot, or in none. An id that becomes live stands in none.
    pub fn stand(&mut self, id: u32, slot: Option<u32>)
        requires live { IsTrue (is_live self.old.live id) }
        requires small { IfSome slot (λ at. at < 2 ^ 32 - 1) }
        ensures live { self.new.live ≡ self.old.live }
        ensures slots { self.new.slots ≡ self.old.slots }
        ensures told { IsToldAt self.old.told id slot self.new.told }
        ensures kept { is_some self.new.told ≡ is_some self.old.told }
    {
        self.ties.stand(id, slot);
    }

    /// The greatest slot of what is above a live id, by what was told. No other id is looked at.
    pub fn last_above(&self, id: u32) -> Option<u32>
        requires { IsTrue (is_live self.now.live id) }
        ensures { ForSome self.now.told (λ homes. IsLastTold (λ other. is_above self.now.live other id) homes result) }
    {
        match &self.ties {
            Ties::Told(trie) => {
                trie.are_apart();
                trie.last_inside(id)
            }
            Ties::Linked(_) => None,
        }
    }

    /// Of what is below a live id and stands in a slot, by what was told, the slot of that which is above all others.
    pub fn first_below(&self, id: u32) -> Option<u32>
        requires { IsTrue (is_live self.now.live id) }
        ensures { ForSome self.now.told (λ homes. IsNextTold (is_above self.now.live) homes id result) }
    {
        match &self.ties {
            Ties::Told(trie) => {
                trie.are_apart();
                trie.first_covering(id)
            }
            Ties::Linked(_) => None,
        }
    }

    /// The live ids of higher priority whose pieces overlap that of a live id, each once, in any
    /// order.
    pub fn above(&self, id: u32) -> Overlaps<'_>
        requires { IsTrue (is_live self.now.live id) }
        ensures exact { (other : ℕ) → Contains result other ↔ Contains (ids_above self.now.live id) other }
        ensures once { IsDistinct nat_eq result }
        ensures apart { AreApart self.now.slots self.now.live }
    {
        match &self.ties {
            Ties::Linked(linked) => Overlaps {
                origin: Origin::Linked(linked.edges.above(id)),
            },
            Ties::Told(_) => self.passed(id, Side::Above),
        }
    }

    /// The live ids of lower priority whose pieces overlap that of a live id, each once, in any
    /// order.
    pub fn below(&self, id: u32) -> Overlaps<'_>
        requires { IsTrue (is_live self.now.live id) }
        ensures exact { (other : ℕ) → Contains result other ↔ Contains (ids_below self.now.live id) other }
        ensures once { IsDistinct nat_eq result }
        ensures apart { AreApart self.now.slots self.now.live }
    {
        match &self.ties {
            Ties::Linked(linked) => Overlaps {
                origin: Origin::Linked(linked.edges.below(id)),
            },
            Ties::Told(_) => self.passed(id, Side::Below),
        }
    }

    /// Whether the pieces of two live ids overlap and the first has the higher priority. No other id is looked at.
    pub fn is_above(&self, upper: u32, lower: u32) -> bool
        requires upper { IsTrue (is_live self.now.live upper) }
        requires lower { IsTrue (is_live self.now.live lower) }
        ensures { result ≡ is_above self.now.live upper lower }
    {
        is_over(self.piece_of(upper), self.piece_of(lower))
    }

    /// The priority of a live id.
    pub fn rank_of(&self, id: u32) -> Rank
        requires { IsTrue (is_live self.now.live id) }
        ensures { result ≡ rank_in self.now.live id }
    {
        self.piece_of(id).rank
    }

    /// The live id of this piece and this priority, if there is one.
    pub fn id_of(&self, piece: &Piece, priority: Rank) -> Option<u32>
        ensures found { IfSome result (λ id. Contains self.now.live (record { id = id; piece = piece.now; rank = priority })) }
        ensures none { IsNone result → (one : LivePiece) → Contains self.now.live one → one.piece ≡ piece.now → one.rank ≡ priority → ⊥ }
    {
        for id in self.candidates(piece, priority) {
            if self.stands_for(id, piece, priority) {
                return Some(id);
            }
        }
        None
    }

    /// The live ids in the bucket of a piece and a priority.
    fn candidates(&self, piece: &Piece, priority: Rank) -> Bucket<'_>
        ensures live { (id : ℕ) → Contains result id → IsTrue (is_live self.now.live id) }
        ensures all { (one : LivePiece) → Contains self.now.live one → one.piece ≡ piece.now → one.rank ≡ priority → Contains result one.id }
    {
        self.buckets.ids(piece, priority)
    }

    /// Whether a live id has this piece and this priority. The priorities are looked at first, which few share.
    fn stands_for(&self, id: u32, piece: &Piece, priority: Rank) -> bool
        requires { IsTrue (is_live self.now.live id) }
        ensures { IsTrue result ↔ Contains self.now.live (record { id = id; piece = piece.now; rank = priority }) }
    {
        let one = self.piece_of(id);
        one.rank == priority && one.piece == *piece
    }

    /// Whether an id is live.
    pub fn is_live(&self, id: u32) -> bool
        ensures { result ≡ is_live self.now.live id }
    {
        if id >= self.slots {
            return false;
        }
        let place = self.places[id as usize] as usize;
        let standing = self.pieces.len();
        if place >= standing {
            return false;
        }
        self.pieces[place].id == id
    }

    /// A live id, with its piece and its priority.
    fn piece_of(&self, id: u32) -> &LivePiece
        requires { IsTrue (is_live self.now.live id) }
        ensures live { Contains self.now.live result.now }
        ensures id { result.now.id ≡ id }
        ensures apart { AreApart self.now.slots self.now.live }
    {
        &self.pieces[self.places[id as usize] as usize]
    }

    /// A pass over all live pieces for those on one side of a live id.
    fn passed(&self, id: u32, side: Side) -> Overlaps<'_>
        requires { IsTrue (is_live self.now.live id) }
        ensures exact { (other : ℕ) → Contains result other ↔ Contains (ids_beside side self.now.live id) other }
        ensures once { IsDistinct nat_eq result }
        ensures apart { AreApart self.now.slots self.now.live }
    {
        let of = *self.piece_of(id);
        Overlaps {
            origin: Origin::Passed(Pass {
                pieces: &self.pieces,
                of,
                side,
                at: 0,
            }),
        }
    }
}

//! The entries that are live, each under an id.

ghost use Rattle.std.specs.Prelude.{◌≡◌, ◌<◌, ◌≤◌, ◌+◌, ◌∷◌, ◌++◌, ℕ, IsTrue, IsFalse, IsNone, IsOk, IfSome, IfOk, OnOk, OnErr, Some, None, Contains, drop, length, nat_eq, replicate, slice_set, slice_index_or, vec_capacity};
ghost use Rattle.std.specs.List.{AllByRecursion, IsDistinct};
ghost use Rattle.rule_model.specs.Entry as words;
ghost use Rattle.rule_model.specs.Entry.{IsEncodable};
ghost use Rattle.placement.specs.declared.LivePiece.{LivePiece};
ghost use Rattle.placement.specs.Live.{AreApart, IsToldAt, MayTell, is_live, without_id};
ghost use Rattle.slot_pool.specs.Arrangement.{home_of};
ghost use Rattle.commit_writes.specs.Planned.{entry_at};
ghost use Rattle.commit_writes.specs.PlannedBatch.{rewritten_entries, erased_live};
ghost use Rattle.batch_order.specs.Entries.{AreAll, AreFollowed, KeepEntries, StayTold};

use commit_writes::Rewrite;
use move_planner::Moves;
use overlap_index::Index;
use placement::Move;
use rule_model::{Entry, LANES, Piece, Rank, Word, entry_of};
use slot_order::MOST_SLOTS;
use slot_pool::Arrangement;
use std::alloc::{AllocError, Global};
use std::marker::Model;

/// The live entries, each under an id below the number of slots, and which of them overlap.
#[derive(Drop)]
pub(crate) struct LiveEntries {
    index: Index,
    /// The entry of each live id. What stands at another id is of no account: the index tells which are live.
    entries: Vec<Entry>,
    /// The ids that aren't live.
    spare: Vec<u32>,
}

impl Model for LiveEntries {
    ghost use Rattle.std.specs.Prelude.{◌≤◌, vec_capacity};
    ghost use Rattle.batch_order.specs.Entries.{Entries, AreKept, live_entries};

    ghost Value = { Entries };

    ghost view = { λ l. record { slots = l.index.slots; live = l.index.live; entries = live_entries l.index.live l.entries.items; told = l.index.told } };

    ghost invariant = { λ l. AreKept l.index.slots l.index.live (live_entries l.index.live l.entries.items) l.spare.items × (l.index.slots ≤ vec_capacity l.spare) };
}

impl LiveEntries {
    ghost use Rattle.std.specs.Prelude.{[], IfOk, ◌≡◌};

    /// No entry, with ids for so many, 1 to `MOST_SLOTS`.
    pub(crate) fn new(alloc: Global, slots: u32) -> Result<LiveEntries, AllocError>
        requires least { 1 ≤ slots }
        requires most { slots ≤ MOST_SLOTS }
        ensures { IfOk result (λ made. made ≡ record { slots = slots; live = []; entries = replicate slots None; told = made.told }) }
    {
        let index = Index::new(alloc, slots)?;
        let entries = places_for(alloc, slots)?;
        let spare = all_ids(alloc, slots)?;
        Ok(LiveEntries {
            index,
            entries,
            spare,
        })
    }

    /// Which ids overlap.
    pub(crate) fn index(&self) -> &Index
        ensures slots { result.now.slots ≡ self.now.slots }
        ensures live { result.now.live ≡ self.now.live }
        ensures told { result.now.told ≡ self.now.told }
    {
        &self.index
    }

    /// The live ids are below the number of slots, each once.
    pub(crate) fn are_apart(&self)
        ensures { AreApart self.now.slots self.now.live }
    {
        let _spare = self.spare.len();
    }

    /// The entry of an id, or None where it isn't live.
    pub(crate) fn at(&self, id: u32) -> Option<Entry>
        ensures { result ≡ slice_index_or self.now.entries id None }
    {
        let live = self.index.is_live(id);
        if live {
            Some(self.entries[id as usize])
        } else {
            None
        }
    }

    /// Makes an entry live and answers its id, which wasn't live before; want of memory changes nothing.
    pub(crate) fn add(&mut self, piece: &Piece, tag: Rank, answer: u32) -> Result<u32, AllocError>
        requires room { length self.old.live < self.old.slots }
        requires encodable { IsEncodable piece.now }
        ensures id { IfOk result (λ id. id < self.old.slots) }
        ensures absent { IfOk result (λ id. IsFalse (is_live self.old.live id)) }
        ensures live { IfOk result (λ id. self.new.live ≡ self.old.live ++ record { id = id; piece = piece.now; rank = tag } ∷ []) }
        ensures entries { IfOk result (λ id. self.new.entries ≡ slice_set self.old.entries id (Some (words.entry_of piece.now tag answer))) }
        ensures entry { IfOk result (λ id. entry_at self.new.entries id ≡ Some (words.entry_of piece.now tag answer)) }
        ensures slots { self.new.slots ≡ self.old.slots }
        ensures told { IfOk result (λ id. MayTell self.old.told id self.new.told) }
        ensures refused { OnErr result (self.new ≡ self.old) }
    {
        let id = self.spare[self.spare.len() - 1];
        self.index.add(id, piece, tag)?;
        self.spare.pop();
        self.entries[id as usize] = entry_of(piece, tag, answer);
        Ok(id)
    }

    /// The live id of this piece and this tag, if there is one.
    pub(crate) fn id_of(&self, piece: &Piece, tag: Rank) -> Option<u32>
        ensures found { IfSome result (λ id. Contains self.now.live (record { id = id; piece = piece.now; rank = tag })) }
        ensures none { IsNone result → (one : LivePiece) → Contains self.now.live one → one.piece ≡ piece.now → one.rank ≡ tag → ⊥ }
    {
        self.index.id_of(piece, tag)
    }

    /// Each of some live ids gets its new entry.
    pub(crate) fn rewrite_all(&mut self, rewrites: &[Rewrite])
        requires { AllByRecursion (λ rewrite. IsTrue (is_live self.old.live rewrite.id)) rewrites.now }
        ensures live { self.new.live ≡ self.old.live }
        ensures entries { self.new.entries ≡ rewritten_entries self.old.entries rewrites.now }
        ensures slots { self.new.slots ≡ self.old.slots }
        ensures told { self.new.told ≡ self.old.told }
    {
        for rewrite in rewrites {
            self.rewrite(rewrite);
        }
    }

    /// A live id gets its new entry.
    fn rewrite(&mut self, rewrite: &Rewrite)
        requires { IsTrue (is_live self.old.live rewrite.now.id) }
        ensures live { self.new.live ≡ self.old.live }
        ensures entries { self.new.entries ≡ slice_set self.old.entries rewrite.now.id (Some rewrite.now.entry) }
        ensures slots { self.new.slots ≡ self.old.slots }
        ensures told { self.new.told ≡ self.old.told }
    {
        self.entries[rewrite.id as usize] = rewrite.entry;
    }

    /// Some ids are live no more.
    pub(crate) fn forget_each(&mut self, ids: &[u32])
        requires distinct { IsDistinct nat_eq ids.now }
        requires live { AllByRecursion (λ id. IsTrue (is_live self.old.live id)) ids.now }
        ensures live { self.new.live ≡ erased_live self.old.live ids.now }
        ensures kept { KeepEntries self.new.live self.old.entries self.new.entries }
        ensures slots { self.new.slots ≡ self.old.slots }
        ensures told { StayTold self.old self.new }
    {
        for id in ids {
            self.forget(*id);
        }
    }

    /// An id is live no more.
    pub(crate) fn forget(&mut self, id: u32)
        requires { IsTrue (is_live self.old.live id) }
        ensures apart { AreApart self.old.slots self.old.live }
        ensures live { self.new.live ≡ without_id self.old.live id }
        ensures entries { self.new.entries ≡ slice_set self.old.entries id None }
        ensures slots { self.new.slots ≡ self.old.slots }
        ensures told { StayTold self.old self.new }
    {
        self.index.remove(id);
        self.spare.push_reserved(id);
    }

    /// Tells where the ids stand that some moves put somewhere, from a move on. What a move's slot held before is named by
    /// what takes it back.
    pub(crate) fn follow(&mut self, arrangement: &Arrangement, moves: &Moves, from: u64)
        ensures live { self.new.live ≡ self.old.live }
        ensures entries { self.new.entries ≡ self.old.entries }
        ensures slots { self.new.slots ≡ self.old.slots }
        ensures told { AreFollowed self.old self.new arrangement.now (drop from moves.now) }
    {
        for place in from..moves.len() {
            if let Move::Put(_, id) = moves.at(place) {
                self.tell(arrangement, id);
            }
        }
    }

    /// Tells where an id stands, if it is live.
    pub(crate) fn tell(&mut self, arrangement: &Arrangement, id: u32)
        ensures live { self.new.live ≡ self.old.live }
        ensures entries { self.new.entries ≡ self.old.entries }
        ensures slots { self.new.slots ≡ self.old.slots }
        ensures told { IsTrue (is_live self.old.live id) → IsToldAt self.old.told id (home_of arrangement.now id) self.new.told }
        ensures same { IsFalse (is_live self.old.live id) → self.new.told ≡ self.old.told }
    {
        let _slots = arrangement.slots();
        if self.index.is_live(id) {
            self.index.stand(id, arrangement.home(id));
        }
    }
}

/// The places of so many entries.
fn places_for(alloc: Global, slots: u32) -> Result<Vec<Entry>, AllocError>
    ensures { IfOk result (λ entries. length entries.items ≡ slots) }
{
    let blank = Entry {
        value: Word { lane: [0; LANES] },
        mask: Word { lane: [0; LANES] },
        tag: Rank { high: 0, low: 0 },
        result: 0,
    };
    Vec::from_elem(alloc, blank, slots as usize)
}

/// All ids, rising.
fn all_ids(alloc: Global, slots: u32) -> Result<Vec<u32>, AllocError>
    ensures all { IfOk result (λ ids. AreAll slots ids.items) }
    ensures capacity { IfOk result (λ ids. slots ≤ vec_capacity ids) }
{
    let mut ids = Vec::with_capacity(alloc, slots as usize)?;
    for id in 0..slots {
        ids.push(id)?;
    }
    Ok(ids)
}

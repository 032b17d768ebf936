//! The parts of a commit: the pieces that go in, the ids that get a new entry, and the ids that go.

ghost use Rattle.std.specs.Prelude.{◌≡◌, None, IfOk};
ghost use Rattle.std.specs.List.{AllByRecursion, AllZip};
ghost use Rattle.rule_model.specs.Rule.{HasConditions};
ghost use Rattle.rule_model.specs.RuleSet.{IsRuleSet};
ghost use Rattle.rule_store.specs.Batch.{ChangesRules, batch_fault};
ghost use Rattle.rule_model.specs.Entry.{IsEncodable};
ghost use Rattle.commit_writes.specs.Shape.{erased_pieces, inserted_pieces, rewritten_pieces, set_pieces};
ghost use Rattle.commit_writes.specs.PlannedBatch.{IsIdOf, IsRewriteOf};
ghost use Rattle.commit_writes.specs.Changes.{coded_by, during_of};
ghost use Rattle.batch_order.specs.Entries.{HasId, HaveIds};

use crate::entries::LiveEntries;
use commit_writes::{FieldBits, Ranked, Rewrite, batch_pieces};
use rule_model::entry_of;
use rule_store::{Batch, Store};
use std::alloc::{AllocError, Global};

/// What a commit does: the pieces that it inserts, the new entry of each id whose piece gets a result, both by falling
/// priority, and the ids of the pieces that go, by rising priority.
#[derive(Drop)]
pub(crate) struct CommitParts {
    pub(crate) inserted: Vec<Ranked>,
    pub(crate) rewrites: Vec<Rewrite>,
    pub(crate) erased: Vec<u32>,
}

/// The parts of the commit of a batch that is taken.
pub(crate) fn parts_of(
    alloc: Global,
    rules: &Store,
    live: &LiveEntries,
    bits: &Option<FieldBits>,
    batch: &Batch,
) -> Result<CommitParts, AllocError>
    requires is_set { IsRuleSet rules.now.rules }
    requires right { AllByRecursion HasConditions rules.now.rules }
    requires changes { AllByRecursion ChangesRules batch.now }
    requires sound { batch_fault rules.now.rules batch.now ≡ None }
    requires encodable { AllByRecursion (λ ranked. IsEncodable ranked.piece) (rewritten_pieces (coded_by bits.now) (during_of bits.now) rules.now.rules batch.now) }
    requires live { HaveIds live.now.live (set_pieces (coded_by bits.now) (during_of bits.now) rules.now.rules) }
    ensures inserted { IfOk result (λ parts. parts.inserted.items ≡ inserted_pieces (coded_by bits.now) (during_of bits.now) rules.now.rules batch.now) }
    ensures rewrites { IfOk result (λ parts. AllZip (IsRewriteOf live.now.live) (rewritten_pieces (coded_by bits.now) (during_of bits.now) rules.now.rules batch.now) parts.rewrites.items) }
    ensures erased { IfOk result (λ parts. AllZip (IsIdOf live.now.live) (erased_pieces (coded_by bits.now) (during_of bits.now) rules.now.rules batch.now) parts.erased.items) }
{
    let pieces = batch_pieces(alloc, bits, rules, batch)?;
    let rewrites = rewrites(alloc, live, &pieces.rewritten)?;
    let erased = ids_of(alloc, live, &pieces.erased)?;
    Ok(CommitParts {
        inserted: pieces.inserted,
        rewrites,
        erased,
    })
}

/// The ids of some pieces, each with its new entry, in their order.
pub(crate) fn rewrites(
    alloc: Global,
    live: &LiveEntries,
    pieces: &[Ranked],
) -> Result<Vec<Rewrite>, AllocError>
    requires encodable { AllByRecursion (λ ranked. IsEncodable ranked.piece) pieces.now }
    requires live { HaveIds live.now.live pieces.now }
    ensures { IfOk result (λ rewrites. AllZip (IsRewriteOf live.now.live) pieces.now rewrites.items) }
{
    let mut rewrites = Vec::new(alloc);
    for ranked in pieces {
        rewrites.push(rewrite_of(live, ranked))?;
    }
    Ok(rewrites)
}

/// The id of a piece, with its new entry.
fn rewrite_of(live: &LiveEntries, ranked: &Ranked) -> Rewrite
    requires encodable { IsEncodable ranked.now.piece }
    requires live { HasId live.now.live ranked.now }
    ensures { IsRewriteOf live.now.live ranked.now result }
{
    Rewrite {
        id: id_of(live, ranked),
        entry: entry_of(&ranked.piece, ranked.rank, ranked.result),
    }
}

/// The ids of some pieces, in their order.
pub(crate) fn ids_of(
    alloc: Global,
    live: &LiveEntries,
    pieces: &[Ranked],
) -> Result<Vec<u32>, AllocError>
    requires live { HaveIds live.now.live pieces.now }
    ensures { IfOk result (λ ids. AllZip (IsIdOf live.now.live) pieces.now ids.items) }
{
    let mut ids = Vec::new(alloc);
    for ranked in pieces {
        ids.push(id_of(live, ranked))?;
    }
    Ok(ids)
}

/// The id of a piece that is live.
fn id_of(live: &LiveEntries, ranked: &Ranked) -> u32
    requires { HasId live.now.live ranked.now }
    ensures { IsIdOf live.now.live ranked.now result }
{
    live.id_of(&ranked.piece, ranked.rank).unwrap()
}

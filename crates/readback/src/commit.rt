//! The pieces of a commit, each with its entry.

ghost use Rattle.std.specs.Prelude.{◌≡◌, IfOk, filter};
ghost use Rattle.std.specs.List.{AllByRecursion};
ghost use Rattle.rule_model.specs.RuleSet.{IsRuleSet};
ghost use Rattle.rule_store.specs.Batch.{batch_fault};
ghost use Rattle.rule_model.specs.Entry.{IsEncodable};
ghost use Rattle.commit_writes.specs.Shape as shape;
ghost use Rattle.commit_writes.specs.Shape.{erased_pieces, inserted_pieces, rewritten_pieces};
ghost use Rattle.commit_writes.specs.Changes.{coded_by, during_of};
ghost use Rattle.readback.specs.Tasks as tasks;
ghost use Rattle.readback.specs.Tasks.{pieces_with};

use commit_writes::{FieldBits, Ranked, batch_pieces, set_pieces};
use rule_model::{Entry, Rank, entry_of};
use rule_store::{Batch, Store};
use std::alloc::{AllocError, Global};
use std::marker::Model;

/// A piece with its entry. Contracts see it as the piece.
#[derive(Drop)]
pub struct Coded {
    pub(crate) ranked: Ranked,
    pub(crate) entry: Entry,
}

impl Model for Coded {
    ghost use Rattle.std.specs.Prelude.{◌≡◌};
    ghost use Rattle.rule_model.specs.Entry.{RankedPiece, entry_for};

    ghost Value = { RankedPiece };

    ghost view = { λ c. c.ranked };

    ghost invariant = { λ c. c.entry ≡ entry_for c.ranked };
}

impl Coded {
    /// The piece.
    pub fn ranked(&self) -> Ranked
        ensures { result ≡ self.now }
    {
        self.ranked
    }

    /// The priority of the piece's rule.
    pub(crate) fn rank(&self) -> Rank
        ensures { result ≡ self.now.rank }
    {
        self.ranked.rank
    }
}

/// The pieces that a commit finds, and those that it puts in, that get another result, and that it takes out.
#[derive(Drop)]
pub(crate) struct Commit {
    pub(crate) old: Vec<Coded>,
    pub(crate) inserted: Vec<Coded>,
    pub(crate) rewritten: Vec<Coded>,
    pub(crate) erased: Vec<Coded>,
}

impl Model for Commit {
    ghost use Rattle.readback.specs.Tasks.{CommitPieces};

    ghost Value = { CommitPieces };

    ghost view = { λ c. record { old = c.old.items; inserted = c.inserted.items; rewritten = c.rewritten.items; erased = c.erased.items } };
}

/// The pieces of a batch's commit, by covers or with the bits that are live meanwhile.
pub(crate) fn commit_of(
    alloc: Global,
    bits: &Option<FieldBits>,
    rules: &Store,
    batch: &Batch,
) -> Result<Commit, AllocError>
    requires is_set { IsRuleSet rules.now.rules }
    requires sound { batch_fault rules.now.rules batch.now ≡ None }
    requires old { AllByRecursion (λ ranked. IsEncodable ranked.piece) (shape.set_pieces (coded_by bits.now) (during_of bits.now) rules.now.rules) }
    requires inserted { AllByRecursion (λ ranked. IsEncodable ranked.piece) (inserted_pieces (coded_by bits.now) (during_of bits.now) rules.now.rules batch.now) }
    requires rewritten { AllByRecursion (λ ranked. IsEncodable ranked.piece) (rewritten_pieces (coded_by bits.now) (during_of bits.now) rules.now.rules batch.now) }
    requires erased { AllByRecursion (λ ranked. IsEncodable ranked.piece) (erased_pieces (coded_by bits.now) (during_of bits.now) rules.now.rules batch.now) }
    ensures { IfOk result (λ commit. commit ≡ pieces_with (coded_by bits.now) (during_of bits.now) rules.now.rules batch.now) }
{
    let old = set_pieces(alloc, bits, rules)?;
    let pieces = batch_pieces(alloc, bits, rules, batch)?;
    Ok(Commit {
        old: all_with_entries(alloc, &old)?,
        inserted: all_with_entries(alloc, &pieces.inserted)?,
        rewritten: changing(alloc, rules, &pieces.rewritten)?,
        erased: all_with_entries(alloc, &pieces.erased)?,
    })
}

/// Some pieces with their entries.
fn all_with_entries(alloc: Global, pieces: &[Ranked]) -> Result<Vec<Coded>, AllocError>
    requires { AllByRecursion (λ ranked. IsEncodable ranked.piece) pieces.now }
    ensures { IfOk result (λ all. all.items ≡ pieces.now) }
{
    let mut all = Vec::new(alloc);
    for ranked in pieces {
        all.push(with_entry(ranked))?;
    }
    Ok(all)
}

/// Those of some pieces whose result isn't that of the set's rule.
fn changing(alloc: Global, rules: &Store, pieces: &[Ranked]) -> Result<Vec<Coded>, AllocError>
    requires { AllByRecursion (λ ranked. IsEncodable ranked.piece) pieces.now }
    ensures { IfOk result (λ some. some.items ≡ filter (tasks.changes_result rules.now.rules) pieces.now) }
{
    let mut some = Vec::new(alloc);
    for ranked in pieces {
        if changes_result(rules, ranked) {
            some.push(with_entry(ranked))?;
        }
    }
    Ok(some)
}

/// Whether a piece that both sets have gets another result than the set's rule has.
fn changes_result(rules: &Store, ranked: &Ranked) -> bool
    ensures { result ≡ tasks.changes_result rules.now.rules ranked.now }
{
    match rules.rule(ranked.rank) {
        None => true,
        Some(rule) => rule.result != ranked.result,
    }
}

/// A piece with its entry.
fn with_entry(ranked: &Ranked) -> Coded
    requires { IsEncodable ranked.now.piece }
    ensures { result ≡ ranked.now }
{
    Coded {
        ranked: *ranked,
        entry: entry_of(&ranked.piece, ranked.rank, ranked.result),
    }
}

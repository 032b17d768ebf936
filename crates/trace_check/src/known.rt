//! The pieces that may stand while a commit is made, each with its entry.

ghost use Rattle.std.specs.Prelude.{◌≡◌, ◌↔◌, IfOk, IfSome, IsNone, IsTrue, Contains, filter};
ghost use Rattle.std.specs.List.{AllByRecursion};
ghost use Rattle.rule_model.specs.Entry as entries;
ghost use Rattle.rule_model.specs.Entry.{RankedPiece, IsEncodable, entry_for};
ghost use Rattle.commit_writes.specs.Changes.{coded_by, during_of};
ghost use Rattle.commit_writes.specs.Shape as shape;
ghost use Rattle.readback.specs.Tasks as tasks;

use commit_writes::{FieldBits, Ranked, set_pieces};
use rule_model::{Entry, entry_of};
use rule_store::Store;
use std::alloc::{AllocError, Global};
use std::marker::Model;

/// A piece with its entry. Contracts see it as the piece.
#[derive(Drop)]
pub(crate) struct Known {
    pub(crate) ranked: Ranked,
    pub(crate) entry: Entry,
}

impl Model for Known {
    ghost use Rattle.std.specs.Prelude.{◌≡◌};
    ghost use Rattle.rule_model.specs.Entry.{RankedPiece, entry_for};

    ghost Value = { RankedPiece };

    ghost view = { λ k. k.ranked };

    ghost invariant = { λ k. k.entry ≡ entry_for k.ranked };
}

/// A piece with its entry.
pub(crate) fn with_entry(ranked: &Ranked) -> Known
    requires { IsEncodable ranked.now.piece }
    ensures { result ≡ ranked.now }
{
    Known {
        ranked: *ranked,
        entry: entry_of(&ranked.piece, ranked.rank, ranked.result),
    }
}

/// Some pieces with their entries.
pub(crate) fn with_entries(alloc: Global, pieces: &[Ranked]) -> Result<Vec<Known>, AllocError>
    requires { AllByRecursion (λ ranked. IsEncodable ranked.piece) pieces.now }
    ensures { IfOk result (λ all. all.items ≡ pieces.now) }
{
    let mut all = Vec::new(alloc);
    for ranked in pieces {
        all.push(with_entry(ranked))?;
    }
    Ok(all)
}

/// Those of some pieces whose result isn't that of the set's rule, with their entries.
pub(crate) fn changing(
    alloc: Global,
    rules: &Store,
    pieces: &[Ranked],
) -> Result<Vec<Known>, AllocError>
    requires { AllByRecursion (λ ranked. IsEncodable ranked.piece) pieces.now }
    ensures { IfOk result (λ some. some.items ≡ filter (tasks.changes_result rules.now.rules) pieces.now) }
{
    let mut some = Vec::new(alloc);
    for ranked in pieces {
        if changes_result(rules, ranked) {
            some.push(with_entry(ranked))?;
        }
    }
    Ok(some)
}

/// Whether a piece that both sets have gets another result than the set's rule has.
fn changes_result(rules: &Store, ranked: &Ranked) -> bool
    ensures { result ≡ tasks.changes_result rules.now.rules ranked.now }
{
    match rules.rule(ranked.rank) {
        None => true,
        Some(rule) => rule.result != ranked.result,
    }
}

/// Whether two entries have the same value, mask and tag. Tags differ most, and are compared first.
#[inline]
pub(crate) fn same_match(a: &Entry, b: &Entry) -> bool
    ensures { result ≡ entries.same_match a.now b.now }
{
    a.tag == b.tag && a.value == b.value && a.mask == b.mask
}

/// The first of some pieces that has the entry.
pub(crate) fn find(pieces: &[Known], entry: &Entry) -> Option<Ranked>
    ensures found { IfSome result (λ ranked. Contains pieces.now ranked × (entry_for ranked ≡ entry.now)) }
    ensures none { IsNone result → (ranked : RankedPiece) → Contains pieces.now ranked → entry_for ranked ≡ entry.now → ⊥ }
{
    for piece in pieces {
        if same_entry(&piece.entry, entry) {
            return Some(piece.ranked);
        }
    }
    None
}

/// The piece of a set that has the entry.
pub(crate) fn find_in_set(
    alloc: Global,
    live: &Option<FieldBits>,
    rules: &Store,
    entry: &Entry,
) -> Result<Option<Ranked>, AllocError>
    requires { AllByRecursion (λ ranked. IsEncodable ranked.piece) (shape.set_pieces (coded_by live.now) (during_of live.now) rules.now.rules) }
    ensures found { IfOk result (λ found. IfSome found (λ ranked. Contains (shape.set_pieces (coded_by live.now) (during_of live.now) rules.now.rules) ranked
        × (entry_for ranked ≡ entry.now))) }
    ensures none { IfOk result (λ found. IsNone found → (ranked : RankedPiece) → Contains (shape.set_pieces (coded_by live.now) (during_of live.now) rules.now.rules) ranked
        → entry_for ranked ≡ entry.now → ⊥) }
{
    let pieces = set_pieces(alloc, live, rules)?;
    let known = with_entries(alloc, &pieces)?;
    Ok(find(&known, entry))
}

/// Whether one of some pieces has an entry of the same value, mask and tag.
pub(crate) fn any_matches(pieces: &[Known], entry: &Entry) -> bool
    ensures { IsTrue result ↔ ((ranked : RankedPiece) × Contains pieces.now ranked × IsTrue (entries.same_match (entry_for ranked) entry.now)) }
{
    for piece in pieces {
        if same_match(&piece.entry, entry) {
            return true;
        }
    }
    false
}

/// Whether two entries are one, with their results.
pub(crate) fn same_entry(a: &Entry, b: &Entry) -> bool
    ensures { IsTrue result ↔ (a.now ≡ b.now) }
{
    same_match(a, b) && a.result == b.result
}

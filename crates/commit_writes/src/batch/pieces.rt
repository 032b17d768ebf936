//! The pieces of rules, each with its rule's priority and result: those of a set, and those that the changes of a batch
//! insert, rewrite and erase.

ghost use Rattle.std.specs.Prelude.{◌≡◌, ◌++◌, None, IfOk, OnOk, flat_map, map, reverse};
ghost use Rattle.rule_model.specs.Piece as model;
ghost use Rattle.rule_model.specs.RuleSet.{IsRuleSet};
ghost use Rattle.rule_store.specs.Batch.{batch_fault};
ghost use Rattle.rule_store.specs.Verdict as verdict;
ghost use Rattle.commit_writes.specs.Bits.{no_bits};
ghost use Rattle.commit_writes.specs.Shape as shape;
ghost use Rattle.commit_writes.specs.Shape.{erased_pieces, inserted_pieces, ranked_piece, ranked_pieces, rewritten_pieces};
ghost use Rattle.commit_writes.specs.Changes as changes;
ghost use Rattle.commit_writes.specs.Changes.{chosen_pieces, coded_by, during_of, pieces_at, inserted_by, rewritten_by, erased_by, is_among, wants};

use crate::FieldBits;
use crate::batch::changes::{Change, changes_of};
use rule_model::{Cover, Piece, Ports, Rank, Rule, cover};
use rule_store::{Batch, Mode, Store};
use std::alloc::{AllocError, Global};
use std::marker::Model;

/// A piece of a rule, with the rule's priority and its result.
#[derive(Clone, Copy)]
pub struct Ranked {
    pub piece: Piece,
    pub rank: Rank,
    pub result: u32,
}

impl Model for Ranked {
    ghost use Rattle.rule_model.specs.Entry.{RankedPiece};

    ghost Value = { RankedPiece };

    ghost view = { λ r. record { piece = r.piece; rank = r.rank; result = r.result } };

    ghost inverse = { λ r. record { piece = r.piece; rank = r.rank; result = r.result } };
}

/// Which pieces of a rule are meant, beside those of another.
#[derive(Clone, Copy)]
pub(crate) enum Choice {
    /// Those that the other rule has, too.
    Common,
    /// Those that the other rule hasn't.
    Fresh,
}

/// The pieces of a batch: those that new rules have and the old ones hadn't, those that both have, with their new
/// results, and those that old rules had and the new ones haven't.
#[derive(Drop)]
pub struct Pieces {
    pub inserted: Vec<Ranked>,
    pub rewritten: Vec<Ranked>,
    pub erased: Vec<Ranked>,
}

/// The pieces of a set's rules, by falling priority and in their order.
pub fn set_pieces(
    alloc: Global,
    bits: &Option<FieldBits>,
    rules: &Store,
) -> Result<Vec<Ranked>, AllocError>
    ensures { IfOk result (λ pieces. pieces.items ≡ shape.set_pieces (coded_by bits.now) (during_of bits.now) rules.now.rules) }
{
    let mut pieces = Vec::new(alloc);
    for place in 0..rules.len() {
        push_rule(bits, rules.at(place), &mut pieces)?;
    }
    Ok(pieces)
}

/// The pieces that a batch inserts, rewrites and erases in a set that takes it: the first two by falling priority, the
/// last by rising priority.
pub fn batch_pieces(
    alloc: Global,
    bits: &Option<FieldBits>,
    rules: &Store,
    batch: &Batch,
) -> Result<Pieces, AllocError>
    requires is_set { IsRuleSet rules.now.rules }
    requires sound { batch_fault rules.now.rules batch.now ≡ None }
    ensures inserted { IfOk result (λ pieces. pieces.inserted.items ≡ inserted_pieces (coded_by bits.now) (during_of bits.now) rules.now.rules batch.now) }
    ensures rewritten { IfOk result (λ pieces. pieces.rewritten.items ≡ rewritten_pieces (coded_by bits.now) (during_of bits.now) rules.now.rules batch.now) }
    ensures erased { IfOk result (λ pieces. pieces.erased.items ≡ erased_pieces (coded_by bits.now) (during_of bits.now) rules.now.rules batch.now) }
{
    let changes = changes_of(alloc, rules, batch)?;
    let pieces = pieces_of(alloc, bits, &changes)?;
    Ok(pieces)
}

/// The pieces of some changes, by covers or with the bits of their port ranges: inserted and rewritten ones in their
/// order, erased ones from the last change to the first.
fn pieces_of(
    alloc: Global,
    bits: &Option<FieldBits>,
    changes: &[Change],
) -> Result<Pieces, AllocError>
    ensures inserted { IfOk result (λ pieces. pieces.inserted.items ≡ flat_map (inserted_by (coded_by bits.now) (during_of bits.now)) changes.now) }
    ensures rewritten { IfOk result (λ pieces. pieces.rewritten.items ≡ flat_map (rewritten_by (coded_by bits.now) (during_of bits.now)) changes.now) }
    ensures erased { IfOk result (λ pieces. pieces.erased.items ≡ flat_map (erased_by (coded_by bits.now) (during_of bits.now)) (reverse changes.now)) }
{
    let mut pieces = Pieces {
        inserted: Vec::new(alloc),
        rewritten: Vec::new(alloc),
        erased: Vec::new(alloc),
    };
    for change in changes {
        push_change(alloc, bits, change, &mut pieces)?;
    }
    pieces.erased.reverse();
    Ok(pieces)
}

/// Puts the pieces of a change behind others, the erased ones from the last to the first.
fn push_change(
    alloc: Global,
    bits: &Option<FieldBits>,
    change: &Change,
    pieces: &mut Pieces,
) -> Result<(), AllocError>
    ensures inserted { OnOk result (pieces.new.inserted.items ≡ pieces.old.inserted.items ++ inserted_by (coded_by bits.now) (during_of bits.now) change.now) }
    ensures rewritten { OnOk result (pieces.new.rewritten.items ≡ pieces.old.rewritten.items ++ rewritten_by (coded_by bits.now) (during_of bits.now) change.now) }
    ensures erased { OnOk result (pieces.new.erased.items ≡ pieces.old.erased.items ++ reverse (erased_by (coded_by bits.now) (during_of bits.now) change.now)) }
{
    let mut old = cut(alloc, bits, &change.old)?;
    let new = cut(alloc, bits, &change.new)?;
    push_pieces(&new, &old, Choice::Fresh, &mut pieces.inserted)?;
    push_pieces(&new, &old, Choice::Common, &mut pieces.rewritten)?;
    old.reverse();
    push_pieces(&old, &new, Choice::Fresh, &mut pieces.erased)
}

/// Puts behind others the pieces that are meant beside some, in their order.
fn push_pieces(
    pieces: &[Ranked],
    others: &[Ranked],
    choice: Choice,
    ranked: &mut Vec<Ranked>,
) -> Result<(), AllocError>
    ensures { OnOk result (ranked.new.items ≡ ranked.old.items ++ chosen_pieces choice others.now pieces.now) }
{
    for piece in pieces {
        if is_wanted(choice, is_among(others, piece)) {
            ranked.push(*piece)?;
        }
    }
    Ok(())
}

/// Whether a piece is meant, which the other rule has or hasn't.
fn is_wanted(choice: Choice, has: bool) -> bool
    ensures { result ≡ wants choice has }
{
    match choice {
        Choice::Common => has,
        Choice::Fresh => !has,
    }
}

/// Whether one of some pieces has the same conditions.
fn is_among(others: &[Ranked], ranked: &Ranked) -> bool
    ensures { result ≡ changes.is_among others.now ranked.now }
{
    for other in others {
        if same_piece(&ranked.piece, &other.piece) {
            return true;
        }
    }
    false
}

/// Whether two pieces have the same conditions.
fn same_piece(a: &Piece, b: &Piece) -> bool
    ensures { result ≡ model.same_piece a.now b.now }
{
    a.src == b.src
        && a.dst == b.dst
        && a.proto == b.proto
        && a.sport == b.sport
        && a.dport == b.dport
}

/// The pieces of a rule, and none where there is no rule: by covers one for each block of its source range and each of
/// its destination range, and by bits one.
fn cut(
    alloc: Global,
    bits: &Option<FieldBits>,
    rule: &Option<Rule>,
) -> Result<Vec<Ranked>, AllocError>
    ensures { IfOk result (λ pieces. pieces.items ≡ pieces_at (coded_by bits.now) (during_of bits.now) rule.now) }
{
    let mut pieces = Vec::new(alloc);
    match rule {
        None => {}
        Some(rule) => push_rule(bits, rule, &mut pieces)?,
    }
    Ok(pieces)
}

/// Puts the pieces of a rule behind others.
fn push_rule(
    bits: &Option<FieldBits>,
    rule: &Rule,
    pieces: &mut Vec<Ranked>,
) -> Result<(), AllocError>
    ensures { OnOk result (pieces.new.items ≡ pieces.old.items ++ ranked_pieces (during_of bits.now) rule.now (verdict.pieces_of (coded_by bits.now) rule.now)) }
{
    match bits {
        None => push_blocks(rule, pieces)?,
        Some(bits) => pieces.push(whole(bits, rule))?,
    }
    Ok(())
}

/// The one piece of a rule with the bits of its port ranges.
fn whole(bits: &FieldBits, rule: &Rule) -> Ranked
    ensures { result ≡ ranked_piece bits.now rule.now (model.whole_piece rule.now) }
{
    Ranked {
        piece: bits.coded(&Piece::whole(rule)),
        rank: rule.priority,
        result: rule.result,
    }
}

/// Puts the pieces of a rule by covers behind others.
fn push_blocks(rule: &Rule, pieces: &mut Vec<Ranked>) -> Result<(), AllocError>
    ensures { OnOk result (pieces.new.items ≡ pieces.old.items ++ ranked_pieces no_bits rule.now (verdict.pieces_of Mode.Cover rule.now)) }
{
    let sources = cover(rule.sport);
    let destinations = cover(rule.dport);
    for place in 0..sources.len() {
        push_parts(rule, sources.at(place), &destinations, pieces)?;
    }
    Ok(())
}

/// Puts behind others the parts of a rule with one range of source ports, for each of some ranges of destination ports.
fn push_parts(
    rule: &Rule,
    sport: Ports,
    dports: &Cover,
    pieces: &mut Vec<Ranked>,
) -> Result<(), AllocError>
    ensures { OnOk result (pieces.new.items ≡ pieces.old.items ++ map (λ dport. ranked_piece no_bits rule.now (model.piece_of rule.now sport dport)) dports.now) }
{
    for place in 0..dports.len() {
        pieces.push(Ranked {
            piece: Piece::part_of(rule, sport, dports.at(place)),
            rank: rule.priority,
            result: rule.result,
        })?;
    }
    Ok(())
}

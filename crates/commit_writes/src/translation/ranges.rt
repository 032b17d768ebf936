//! The live ranges of both fields, and what a batch does to them.

ghost use Rattle.std.specs.Prelude.{◌≡◌, ◌+◌, ◌<◌, ◌≤◌, length, take, if◌then◌else◌};
ghost use Rattle.std.specs.List.{list_any};
ghost use Rattle.rule_model.specs.PortRange.{same_range};
ghost use Rattle.rule_model.specs.Rule as model;
ghost use Rattle.rule_store.specs.Verdict.{coded_ranges, field_bits};
ghost use Rattle.rule_store.specs.Batch.{additions};
ghost use Rattle.range_bits.specs.LiveRanges.{kept_ranges, with_ranges};
ghost use Rattle.range_bits.specs.FieldMap.{live_count};
ghost use Rattle.commit_writes.specs.Actions.{have_bits};
ghost use Rattle.commit_writes.specs.Bits.{bits_left, new_bits, no_bits, with_bits, ranges_in};
ghost use Rattle.commit_writes.specs.Needed as needed;
ghost use Rattle.commit_writes.specs.Needed.{ranges_needed, ranges_without, with_needed};

use range_bits::{BitMap, FIELD_BITS};
use rule_model::{Field, Piece, Ports, Rule};
use rule_store::{Batch, Command, Store};
use std::marker::Model;

/// The live ranges of the source and of the destination ports, by their bits.
#[derive(Clone, Copy, Debug)]
pub struct FieldBits {
    src: BitMap,
    dst: BitMap,
}

impl Model for FieldBits {
    ghost use Rattle.commit_writes.specs.Bits.{FieldBits};

    ghost Value = { FieldBits };

    ghost view = { λ b. record { src = b.src; dst = b.dst } };

    ghost inverse = { λ b. record { src = b.src; dst = b.dst } };
}

impl FieldBits {
    /// No live range: each bit of both fields is free.
    pub fn new() -> FieldBits
        ensures { result ≡ no_bits }
    {
        FieldBits {
            src: BitMap::new(),
            dst: BitMap::new(),
        }
    }

    /// The live ranges of both fields, by those of each.
    pub fn of_maps(src: BitMap, dst: BitMap) -> FieldBits
        ensures src { result.src ≡ src }
        ensures dst { result.dst ≡ dst }
    {
        FieldBits { src, dst }
    }

    /// How many bits of a field are free, at most 16.
    pub fn free(&self, field: Field) -> u32
        ensures count { result + live_count (ranges_in field self.now) ≡ field_bits }
    {
        u32::from(FIELD_BITS - self.of(field).live())
    }

    /// For how many ranges of a field a batch needs bits: its additions' that are no single block and aren't live, each
    /// counted once. They are at most as many as the batch has commands. No memory is taken: a range is looked for
    /// among the earlier commands.
    pub fn needed(&self, field: Field, batch: &Batch) -> u32
        ensures count { result ≡ length (ranges_needed field self.now batch.now) }
        ensures most { result ≤ length batch.now }
    {
        let live = self.of(field);
        let mut count = 0;
        for place in 0..batch.len() {
            if is_first_without(live, field, batch, place) {
                count += 1;
            }
        }
        count
    }

    /// The live ranges while a batch is carried out, for which as many bits must be free as `needed` tells: each range
    /// that needs a bit has the least that was free then, in the order of the additions, and all others keep theirs.
    pub fn with_new(&self, batch: &Batch) -> FieldBits
        requires src { live_count self.now.src + length (ranges_needed Field.Src self.now batch.now) ≤ field_bits }
        requires dst { live_count self.now.dst + length (ranges_needed Field.Dst self.now batch.now) ≤ field_bits }
        ensures { result ≡ with_needed self.now batch.now }
    {
        FieldBits {
            src: with_new_ranges(self.src, Field::Src, batch),
            dst: with_new_ranges(self.dst, Field::Dst, batch),
        }
    }

    /// The live ranges whose bits were free at an earlier moment, under the same bits.
    pub fn new_since(&self, before: &FieldBits) -> FieldBits
        ensures { result ≡ new_bits before.now self.now }
    {
        FieldBits {
            src: self.src.newer_than(&before.src),
            dst: self.dst.newer_than(&before.dst),
        }
    }

    /// Whether a range is live in either field.
    pub fn any(&self) -> bool
        ensures { result ≡ have_bits self.now }
    {
        self.src.live() > 0 || self.dst.live() > 0
    }

    /// The live ranges that some rule of a set has, under the same bits; the others have given up theirs.
    pub fn released(&self, rules: &Store) -> FieldBits
        ensures { result ≡ bits_left rules.now.rules self.now }
    {
        FieldBits {
            src: kept_by(self.src, Field::Src, rules),
            dst: kept_by(self.dst, Field::Dst, rules),
        }
    }

    /// A piece with the bits of its port ranges, and with none for a range that isn't live.
    pub fn coded(&self, piece: &Piece) -> Piece
        ensures { result ≡ with_bits self.now piece.now }
    {
        Piece {
            srcbit: self.src.bit_of(piece.sport),
            dstbit: self.dst.bit_of(piece.dport),
            ..*piece
        }
    }

    /// The live ranges of a field.
    pub fn of(&self, field: Field) -> &BitMap
        ensures { result.now ≡ ranges_in field self.now }
    {
        match field {
            Field::Src => &self.src,
            Field::Dst => &self.dst,
        }
    }
}

/// A rule's ports in a field.
pub(crate) fn range_of(field: Field, rule: &Rule) -> Ports
    ensures { result ≡ model.range_of field rule.now }
{
    match field {
        Field::Src => rule.sport,
        Field::Dst => rule.dport,
    }
}

/// The range for which a command needs a bit of a field, if it does: it adds a rule whose range isn't one block.
pub(crate) fn coded_range(field: Field, command: &Command) -> Option<Ports>
    ensures { result ≡ needed.coded_range field command.now }
{
    let Command::Add(rule) = command else {
        return None;
    };
    let range = range_of(field, rule);
    if range.block() { None } else { Some(range) }
}

/// Whether the command at a place adds a range that has no bit, and no earlier one adds it.
fn is_first_without(live: &BitMap, field: Field, batch: &Batch, place: u32) -> bool
    requires { place < length batch.now }
    ensures { length (ranges_without live.now field (take (place + 1) batch.now))
        ≡ length (ranges_without live.now field (take place batch.now)) + (if result then 1 else 0) }
{
    let Some(range) = coded_range(field, &batch.at(place)) else {
        return false;
    };
    live.bit_of(range).is_none() && !is_added_before(field, batch, place, range)
}

/// Whether a command before a place adds a range.
pub(crate) fn is_added_before(field: Field, batch: &Batch, place: u32, range: Ports) -> bool
    requires { place ≤ length batch.now }
    ensures { result ≡ list_any (same_range range) (coded_ranges field (additions (take place batch.now))) }
{
    for earlier in 0..place {
        if coded_range(field, &batch.at(earlier)) == Some(range) {
            return true;
        }
    }
    false
}

/// The live ranges of a field with those that a batch needs.
fn with_new_ranges(mut live: BitMap, field: Field, batch: &Batch) -> BitMap
    requires { live_count live + length (ranges_without live field batch.now) ≤ field_bits }
    ensures { result ≡ with_ranges live (ranges_without live field batch.now) }
{
    for place in 0..batch.len() {
        if let Some(range) = coded_range(field, &batch.at(place)) {
            if live.bit_of(range).is_none() {
                let _bit = live.assign(range);
            }
        }
    }
    live
}

/// The live ranges of a field that a rule of a set has.
fn kept_by(mut live: BitMap, field: Field, rules: &Store) -> BitMap
    ensures { result ≡ kept_ranges live (coded_ranges field rules.now.rules) }
{
    for bit in 0..FIELD_BITS {
        if let Some(range) = live.range_of(bit) {
            if !has_range(field, rules, range) {
                live.release(bit);
            }
        }
    }
    live
}

/// Whether a rule of a set has a range that isn't one block.
pub(crate) fn has_range(field: Field, rules: &Store, range: Ports) -> bool
    ensures { result ≡ list_any (same_range range) (coded_ranges field rules.now.rules) }
{
    if range.block() {
        return false;
    }
    for place in 0..rules.len() {
        if range_of(field, rules.at(place)) == range {
            return true;
        }
    }
    false
}

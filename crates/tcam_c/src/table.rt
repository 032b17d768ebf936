//! What a session leads: a memory of whole entries, or one whose results stand beside its slots, with its manager.

ghost use Rattle.std.specs.Prelude.{◌≡◌, ◌≤◌, ◌<◌, ◌+◌, ◌^◌, IfOk, IsSome, OnErr, OnOk, is_some, length, option_map, slice_get};
ghost use Rattle.rule_model.specs.RuleSet.{IsRuleSet};
ghost use Rattle.rule_chains.specs.Chains.{IsLongestChain};
ghost use Rattle.tcam_c.specs.Driven.{IsDue};
ghost use Rattle.tcam_c.specs.InHand.{held_of_table};
ghost use Rattle.tcam_c.specs.Ranges.{bits_of_table, both_fields};
ghost use Rattle.tcam_c.specs.Tables.{AbortsTable, IsServingTable, PassesTable, PreparesTable, TellsTable, answer_of_table, slots_left_of_table, fresh_table, kind_of_table, rules_of_table};

use crate::codes::{BACK, BEGUN, NOTHING_DUE, OK, RESTARTED};
use crate::plain::{TcamNumbers, TcamWrite, due_of, numbers_of, part_of, split_numbers_of};
use crate::split::{Cancelled, SplitTable};
use crate::steps::DueKind;
use crate::whole::WholeTable;
use batch_order::{AbortFault, Mode, Placement, Refusal};
use range_bits::BitMap;
use rule_model::{Key, Rank, Rule};
use rule_store::{Batch, Store};
use slot_order::MOST_SLOTS;
use std::alloc::{AllocError, Global};

/// A kind of memory.
#[derive(Clone, Copy)]
pub(crate) enum TableKind {
    Whole,
    Split,
}

/// A memory of one kind or the other, as its manager leads it.
#[derive(Drop)]
pub(crate) enum Table {
    Whole(WholeTable),
    Split(SplitTable),
}

impl Table {
    /// A blank memory of this kind with so many slots in use and no rules. It fails only for want of memory.
    pub(crate) fn new(
        alloc: Global,
        kind: TableKind,
        slots: u32,
        mode: Mode,
        placement: Placement,
    ) -> Result<Table, AllocError>
        requires least { 1 ≤ slots }
        requires most { slots ≤ MOST_SLOTS }
        ensures fresh { IfOk result (λ table. table ≡ fresh_table kind slots mode placement) }
        ensures serves { OnOk result (IsServingTable (fresh_table kind slots mode placement)) }
    {
        match kind {
            TableKind::Whole => match WholeTable::new(alloc, slots, mode, placement) {
                Ok(table) => Ok(Table::Whole(table)),
                Err(AllocError) => Err(AllocError),
            },
            TableKind::Split => match SplitTable::new(alloc, slots, mode, placement) {
                Ok(table) => Ok(Table::Split(table)),
                Err(AllocError) => Err(AllocError),
            },
        }
    }

    /// Has a batch judged and planned, and tells the numbers of its commit. A refusal leaves all as it was.
    pub(crate) fn prepare(&mut self, batch: &Batch) -> Result<TcamNumbers, Refusal>
        ensures prepared { PreparesTable batch.now result self.old self.new }
        ensures refused { OnErr result (self.new ≡ self.old) }
    {
        match self {
            Table::Whole(table) => match table.prepare(batch) {
                Ok(counts) => Ok(numbers_of(&counts)),
                Err(refusal) => Err(refusal),
            },
            Table::Split(table) => match table.prepare(batch) {
                Ok(counts) => Ok(split_numbers_of(&counts)),
                Err(refusal) => Err(refusal),
            },
        }
    }

    /// What is due, for C.
    pub(crate) fn due(&self) -> TcamWrite
        ensures { TellsTable result self.now }
    {
        match self {
            Table::Whole(table) => {
                let due = table.due();
                let from = table.source(&due);
                due_of(due, from)
            }
            Table::Split(table) => part_of(&table.due()),
        }
    }

    /// What kind of thing is due.
    pub(crate) fn kind_due(&self) -> DueKind
        ensures kind { result ≡ kind_of_table self.now }
        ensures serves { IsServingTable self.now }
    {
        match self {
            Table::Whole(table) => table.kind_due(),
            Table::Split(table) => table.kind_due(),
        }
    }

    /// What is due was made: what comes behind it is due then, or the commit has come to its end. It takes no memory.
    pub(crate) fn go_on(&mut self)
        requires { IsDue (kind_of_table self.old) }
        ensures on { PassesTable self.old self.new }
        ensures serves { IsServingTable self.new }
    {
        match self {
            Table::Whole(table) => table.go_on(),
            Table::Split(table) => table.go_on(),
        }
    }

    /// Turns the commit under way round, with whole entries, or drops its plan where nothing was made of it, and answers the
    /// code. Where that is done, or the commit is turned round already, it tells how many undo writes are left.
    pub(crate) fn abort(&mut self, left: &mut u64) -> u32
        ensures { AbortsTable left.old left.new result self.old self.new }
    {
        match self {
            Table::Whole(table) => match table.abort() {
                Ok(undone) => {
                    *left = undone;
                    OK
                }
                Err(AbortFault::Idle) => NOTHING_DUE,
                Err(AbortFault::Restarted) => RESTARTED,
                Err(AbortFault::Back { left: rest }) => {
                    *left = rest;
                    BACK
                }
            },
            Table::Split(table) => match table.cancel() {
                Cancelled::Dropped => {
                    *left = 0;
                    OK
                }
                Cancelled::Idle => NOTHING_DUE,
                Cancelled::Begun => BEGUN,
            },
        }
    }

    /// What a key is answered by what was made.
    pub(crate) fn look(&self, key: &Key) -> Option<(Rank, u32)>
        ensures answer { result ≡ answer_of_table self.now key.now }
        ensures serves { IsServingTable self.now }
    {
        match self {
            Table::Whole(table) => table.look(key),
            Table::Split(table) => table.look(key),
        }
    }

    /// The rules of the set, `MOST_SLOTS` at most; while a commit is under way, those of the old set.
    pub(crate) fn rules(&self) -> &Store
        ensures rules { result.now.rules ≡ rules_of_table self.now }
        ensures few { length (rules_of_table self.now) ≤ MOST_SLOTS }
    {
        match self {
            Table::Whole(table) => table.rules(),
            Table::Split(table) => table.rules(),
        }
    }

    /// Whether a commit is under way.
    pub(crate) fn is_busy(&self) -> bool
        ensures busy { result ≡ is_some (held_of_table self.now) }
        ensures serves { IsServingTable self.now }
    {
        match self {
            Table::Whole(table) => table.is_busy(),
            Table::Split(table) => table.is_busy(),
        }
    }

    /// The rule at a place of the set, from 0 by falling priority, or None where there is none.
    pub(crate) fn rule_at_place(&self, place: u32) -> Option<Rule>
        ensures rule { result ≡ slice_get (rules_of_table self.now) place }
        ensures more { IsSome result → place + 1 < 2 ^ 32 }
        ensures falling { IsRuleSet (rules_of_table self.now) }
    {
        match self {
            Table::Whole(table) => table.rule_at_place(place),
            Table::Split(table) => table.rule_at_place(place),
        }
    }

    /// The length of the longest overlap chain of the set. It fails only for want of memory.
    pub(crate) fn longest_chain(&self, alloc: Global) -> Result<u32, AllocError>
        ensures { IfOk result (λ longest. IsLongestChain (rules_of_table self.now) longest) }
    {
        match self {
            Table::Whole(table) => table.longest_chain(alloc),
            Table::Split(table) => table.longest_chain(alloc),
        }
    }

    /// The live port ranges of the set by their bits, of the source field and of the destination's. None comes where
    /// results stand beside the slots.
    pub(crate) fn bits(&self) -> Option<(BitMap, BitMap)>
        ensures { option_map both_fields result ≡ bits_of_table self.now }
    {
        match self {
            Table::Whole(table) => Some(table.bits()),
            Table::Split(_) => None,
        }
    }

    /// How many slots the entries of the set leave free.
    pub(crate) fn slots_left(&self) -> u32
        ensures { result ≡ slots_left_of_table self.now }
    {
        match self {
            Table::Whole(table) => table.slots_left(),
            Table::Split(table) => table.slots_left(),
        }
    }
}

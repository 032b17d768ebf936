//! What stands behind a handle: a manager with its memory, and the batch that waits for it.

ghost use Rattle.std.specs.Prelude.{◌≡◌, ◌≤◌, ◌<◌, ◌+◌, ◌^◌, [], ◌↔◌, Err, IfOk, OnOk, OnErr, IsSome, option_map, slice_get};
ghost use Rattle.rule_store.specs.Batch.{most_pending};
ghost use Rattle.rule_model.specs.RuleSet.{IsRuleSet};
ghost use Rattle.rule_chains.specs.Chains.{IsLongestChain};
ghost use Rattle.tcam_c.specs.Calls.{fresh_session};
ghost use Rattle.tcam_c.specs.Driven.{IsDue};
ghost use Rattle.tcam_c.specs.InHand.{PreparesAll, PreparesInHand, changes_in, command_joined, held_of_table, request_joined, requests_in};
ghost use Rattle.tcam_c.specs.Ranges.{bits_of_table, both_fields};
ghost use Rattle.tcam_c.specs.Tables.{AbortsTable, IsServingTable, PassesTable, TellsTable, answer_of_table, slots_left_of_table, fresh_table, kind_of_table, rules_of_table};

use crate::in_hand::PendingBatch;
use crate::plain::{TcamNumbers, TcamWrite};
use crate::preparing::{prepare_all, prepare_asked};
use crate::steps::DueKind;
use crate::table::{Table, TableKind};
use crate::told::Told;
use batch_order::{Mode, Placement, Refusal};
use range_bits::BitMap;
use rule_model::{Key, Rank, Rule};
use rule_store::{Command, PushFault};
use settled_changes::Request;
use slot_order::MOST_SLOTS;
use std::alloc::{AllocError, Global};

/// What stands behind a handle.
#[derive(Drop)]
pub(crate) struct Session {
    pub(crate) table: Table,
    pub(crate) batch: PendingBatch,
    // What is told of a restart that is begun.
    pub(crate) told: Option<Told>,
}

impl Session {
    /// A manager of a blank memory of this kind with so many slots in use and no rules, and an empty batch. It fails only
    /// for want of memory.
    pub(crate) fn new(
        alloc: Global,
        kind: TableKind,
        slots: u32,
        mode: Mode,
        placement: Placement,
    ) -> Result<Session, AllocError>
        requires least { 1 ≤ slots }
        requires most { slots ≤ MOST_SLOTS }
        ensures fresh { IfOk result (λ session. session ≡ fresh_session kind slots mode placement) }
        ensures serves { OnOk result (IsServingTable (fresh_table kind slots mode placement)) }
    {
        let table = Table::new(alloc, kind, slots, mode, placement)?;
        let batch = PendingBatch::new(alloc);
        Ok(Session {
            table,
            batch,
            told: None,
        })
    }

    /// Puts a change behind the others of the batch.
    pub(crate) fn push(&mut self, command: Command) -> Result<(), PushFault>
        ensures pushed { OnOk result (self.new ≡ record self.old { batch = command_joined self.old.batch command }) }
        ensures full { (result ≡ Err PushFault.Full) ↔ (most_pending ≤ changes_in self.old.batch) }
        ensures same { OnErr result (self.new ≡ self.old) }
    {
        self.batch.push(command)
    }

    /// Puts a forgiving change behind the others.
    pub(crate) fn ask(&mut self, alloc: Global, request: Request) -> Result<(), PushFault>
        ensures asked { OnOk result (self.new ≡ record self.old { batch = request_joined self.old.batch request }) }
        ensures full { (result ≡ Err PushFault.Full) ↔ (most_pending ≤ changes_in self.old.batch) }
        ensures same { OnErr result (self.new ≡ self.old) }
    {
        self.batch.ask(alloc, request)
    }

    /// Takes every change out of the batch.
    pub(crate) fn clear(&mut self, alloc: Global)
        ensures { self.new ≡ record self.old { batch = PendingBatch.Strict [] } }
    {
        self.batch.clear(alloc);
    }

    /// Has the batch judged and planned. Where it is taken the batch is empty then, and a commit with nothing to make
    /// has finished. A refusal leaves all as it was.
    pub(crate) fn prepare(&mut self, alloc: Global) -> Result<TcamNumbers, Refusal>
        ensures prepared { PreparesInHand self.old.batch result self.old.table self.new.table }
        ensures taken { OnOk result ((self.new.batch ≡ PendingBatch.Strict []) × (self.new.told ≡ self.old.told)) }
        ensures refused { OnErr result (self.new ≡ self.old) }
    {
        let answer = match &self.batch {
            PendingBatch::Strict(batch) => self.table.prepare(batch),
            PendingBatch::Asked(requests) => prepare_asked(&mut self.table, alloc, requests),
        };
        if answer.is_ok() {
            self.batch.clear(alloc);
        }
        answer
    }

    /// Likewise with the changes of the batch as the whole new set: what they make of no rules.
    pub(crate) fn prepare_all(&mut self, alloc: Global) -> Result<TcamNumbers, Refusal>
        ensures prepared { PreparesAll (held_of_table self.old.table) (requests_in self.old.batch) result self.old.table self.new.table }
        ensures taken { OnOk result ((self.new.batch ≡ PendingBatch.Strict []) × (self.new.told ≡ self.old.told)) }
        ensures refused { OnErr result (self.new ≡ self.old) }
    {
        let answer = prepare_all(&mut self.table, alloc, &self.batch);
        if answer.is_ok() {
            self.batch.clear(alloc);
        }
        answer
    }

    /// What is due, for C.
    pub(crate) fn due(&self) -> TcamWrite
        ensures { TellsTable result self.now.table }
    {
        self.table.due()
    }

    /// What kind of thing is due.
    pub(crate) fn kind_due(&self) -> DueKind
        ensures kind { result ≡ kind_of_table self.now.table }
        ensures serves { IsServingTable self.now.table }
    {
        self.table.kind_due()
    }

    /// What is due was made: what comes behind it is due then, or the commit has come to its end. It takes no memory.
    pub(crate) fn go_on(&mut self)
        requires { IsDue (kind_of_table self.old.table) }
        ensures on { PassesTable self.old.table self.new.table }
        ensures batch { self.new.batch ≡ self.old.batch }
        ensures told { self.new.told ≡ self.old.told }
        ensures serves { IsServingTable self.new.table }
    {
        self.table.go_on();
    }

    /// Takes the commit under way back, as far as that can be, and answers the code.
    pub(crate) fn abort(&mut self, left: &mut u64) -> u32
        ensures turned { AbortsTable left.old left.new result self.old.table self.new.table }
        ensures batch { self.new.batch ≡ self.old.batch }
        ensures told { self.new.told ≡ self.old.told }
    {
        self.table.abort(left)
    }

    /// What a key is answered by what was made.
    pub(crate) fn look(&self, key: &Key) -> Option<(Rank, u32)>
        ensures answer { result ≡ answer_of_table self.now.table key.now }
        ensures serves { IsServingTable self.now.table }
    {
        self.table.look(key)
    }

    /// The rule at a place of the set, from 0 by falling priority, or None where there is none.
    pub(crate) fn rule_at_place(&self, place: u32) -> Option<Rule>
        ensures rule { result ≡ slice_get (rules_of_table self.now.table) place }
        ensures more { IsSome result → place + 1 < 2 ^ 32 }
        ensures falling { IsRuleSet (rules_of_table self.now.table) }
    {
        self.table.rule_at_place(place)
    }

    /// The length of the longest overlap chain of the set. It fails only for want of memory.
    pub(crate) fn longest_chain(&self, alloc: Global) -> Result<u32, AllocError>
        ensures { IfOk result (λ longest. IsLongestChain (rules_of_table self.now.table) longest) }
    {
        self.table.longest_chain(alloc)
    }

    /// The live port ranges of the set by their bits, of the source field and of the destination's. None comes where
    /// results stand beside the slots.
    pub(crate) fn bits(&self) -> Option<(BitMap, BitMap)>
        ensures { option_map both_fields result ≡ bits_of_table self.now.table }
    {
        self.table.bits()
    }

    /// How many slots the entries of the set leave free.
    pub(crate) fn slots_left(&self) -> u32
        ensures { result ≡ slots_left_of_table self.now.table }
    {
        self.table.slots_left()
    }
}

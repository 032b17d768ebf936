//! How the batch in hand is judged and planned.

ghost use Rattle.std.specs.Prelude.{◌≡◌, ◌≤◌, [], IfErr, IfOk, OnErr, OnOk, length};
ghost use Rattle.rule_store.specs.Batch.{IsSound, set_after};
ghost use Rattle.settled_changes.specs.Requests.{AreTaken, asked_set};
ghost use Rattle.settled_changes.specs.Settled.{IsWhyNoSet, settled, whole_requests};
ghost use Rattle.tcam_c.specs.InHand.{PreparesAll, PreparesAsked, held_of_table, refusal_of_settling, requests_in};

use crate::in_hand::PendingBatch;
use crate::plain::TcamNumbers;
use crate::table::Table;
use batch_order::{Refusal, Rejection};
use rule_store::{Batch, Store};
use settled_changes::{Requests, SettleFault, settle, settle_all};
use slot_order::MOST_SLOTS;
use std::alloc::{AllocError, Global};

/// Has requests settled, and what they come to judged and planned.
#[tactic(auto, using(crate::proofs::Asked::busy_asked, crate::proofs::Asked::settled_asked, crate::proofs::Asked::none_asked))]
pub(crate) fn prepare_asked(
    table: &mut Table,
    alloc: Global,
    requests: &Requests,
) -> Result<TcamNumbers, Refusal>
    ensures prepared { PreparesAsked (held_of_table table.old) requests.now result table.old table.new }
    ensures refused { OnErr result (table.new ≡ table.old) }
{
    if table.is_busy() {
        return table.prepare(&Batch::new(alloc));
    }
    match settle(alloc, table.rules(), requests) {
        Ok(batch) => table.prepare(&batch),
        Err(fault) => Err(settle_refusal(fault)),
    }
}

/// Has the changes of a batch settled as the whole new set, and what they come to judged and planned.
#[tactic(auto, using(crate::proofs::Asked::busy_all, crate::proofs::Asked::settled_all, crate::proofs::Asked::none_all))]
pub(crate) fn prepare_all(
    table: &mut Table,
    alloc: Global,
    batch: &PendingBatch,
) -> Result<TcamNumbers, Refusal>
    ensures prepared { PreparesAll (held_of_table table.old) (requests_in batch.now) result table.old table.new }
    ensures refused { OnErr result (table.new ≡ table.old) }
{
    if table.is_busy() {
        return table.prepare(&Batch::new(alloc));
    }
    match whole_batch(alloc, table.rules(), batch) {
        Ok(batch) => table.prepare(&batch),
        Err(fault) => Err(settle_refusal(fault)),
    }
}

/// The batch that leads a set of rules to what the changes of a batch make of no rules.
fn whole_batch(alloc: Global, rules: &Store, batch: &PendingBatch) -> Result<Batch, SettleFault>
    requires few { length rules.now.rules ≤ MOST_SLOTS }
    ensures settled { IfOk result (λ made. made ≡ settled rules.now.rules (whole_requests rules.now.rules (asked_set [] (requests_in batch.now)))) }
    ensures taken { OnOk result (AreTaken [] (requests_in batch.now)) }
    ensures sound { IfOk result (λ made. IsSound rules.now.rules made) }
    ensures leads { IfOk result (λ made. set_after rules.now.rules made ≡ asked_set [] (requests_in batch.now)) }
    ensures fault { IfErr result (λ fault. IsWhyNoSet (requests_in batch.now) fault) }
{
    match batch {
        PendingBatch::Asked(requests) => settle_all(alloc, rules, requests),
        PendingBatch::Strict(batch) => match Requests::of_batch(alloc, batch) {
            Ok(requests) => settle_all(alloc, rules, &requests),
            Err(AllocError) => Err(SettleFault::Memory),
        },
    }
}

/// The refusal of changes that come to no batch.
fn settle_refusal(fault: SettleFault) -> Refusal
    ensures { result ≡ refusal_of_settling fault }
{
    match fault {
        SettleFault::Unsound(fault) => Refusal::Rejected(Rejection::Unsound(fault)),
        SettleFault::Memory => Refusal::Memory,
    }
}

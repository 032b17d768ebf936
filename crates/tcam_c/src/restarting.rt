//! What a restart does with what stands behind a handle.

ghost use Rattle.std.specs.Prelude.{◌≡◌, ℕ, IfErr, IfOk};
ghost use Rattle.tcam_c.specs.Restart.{BeginsRestart, ForgetsTold, GoesOnFor, IsFaultReply, IsGoOnReply, RefusesFor, TakesUp, TellsMore, answer_code, reply};
ghost use Rattle.tcam_c.specs.Told.{AddsRange, AddsSlot, AddsWord, TakesRule};

use crate::codes::{BESIDE, MEMORY, NO_RESTART, OK, SLOTS_RANGE, STAGE, USED, code_of_refusal};
use crate::in_hand::PendingBatch;
use crate::plain::{TcamRefusal, TcamStored, TcamWrite, refusal_of};
use crate::session::Session;
use crate::stage_told::{TcamRestartFault, stage_told};
use crate::table::Table;
use crate::told::Told;
use crate::whole::WholeTable;
use batch_order::{Refusal, Rejection, RestartFault};
use readback::StageFault;
use settled_changes::{SettleFault, settle};
use slot_order::MOST_SLOTS;
use std::alloc::{AllocError, Global};

/// Why no manager goes on.
#[derive(Drop)]
pub(crate) enum GoOnFault {
    /// The restart is refused.
    Restart(RestartFault),
    /// The batch in hand comes to no commands.
    Unsettled(SettleFault),
}

impl Session {
    /// Begins a restart: nothing is told yet, also where another one was begun.
    pub(crate) fn begin_restart(&mut self, alloc: Global) -> u32
        ensures { BeginsRestart self.old self.new result }
    {
        let (slots, mode, placement) = match &self.table {
            Table::Split(_) => return BESIDE,
            Table::Whole(table) => {
                if !table.is_unused() {
                    return USED;
                }
                table.setting()
            }
        };
        // No manager has other ones, but no clause of its says so.
        if slots < 1 || slots > MOST_SLOTS {
            return SLOTS_RANGE;
        }
        match Told::new(alloc, slots, mode, placement) {
            Ok(told) => {
                self.told = Some(told);
                OK
            }
            Err(AllocError) => MEMORY,
        }
    }

    /// A rule of the set is told.
    pub(crate) fn tell_rule(&mut self, stored: &TcamStored) -> u32
        ensures { TellsMore (TakesRule stored.now) self.old self.new result }
    {
        match &mut self.told {
            None => NO_RESTART,
            Some(told) => code_told(told.rule(stored)),
        }
    }

    /// The range of a field's bit is told.
    pub(crate) fn tell_range(&mut self, field: u32, bit: u8, first: u16, last: u16) -> u32
        ensures { TellsMore (AddsRange field bit first last) self.old self.new result }
    {
        match &mut self.told {
            None => NO_RESTART,
            Some(told) => code_told(told.range(field, bit, first, last)),
        }
    }

    /// What a slot holds is told.
    pub(crate) fn tell_slot(&mut self, entry: &TcamWrite) -> u32
        ensures { TellsMore (AddsSlot entry.now) self.old self.new result }
    {
        match &mut self.told {
            None => NO_RESTART,
            Some(told) => code_told(told.slot(entry)),
        }
    }

    /// A table's word at a port is told.
    pub(crate) fn tell_word(&mut self, field: u32, port: u16, word: u16) -> u32
        ensures { TellsMore (AddsWord field port word) self.old self.new result }
    {
        match &mut self.told {
            None => NO_RESTART,
            Some(told) => code_told(told.word(field, port, word)),
        }
    }

    /// Takes all out again that was told.
    pub(crate) fn forget(&mut self) -> u32
        ensures { ForgetsTold self.old self.new result }
    {
        self.told = None;
        OK
    }

    /// Goes on with the commit of the batch that the memory shows, by what was told. It tells how many writes are left, or
    /// why not, and then all stays as it was.
    pub(crate) fn restart(
        &mut self,
        alloc: Global,
        left: &mut u64,
        refusal: &mut TcamRefusal,
        fault: &mut TcamRestartFault,
    ) -> u32
        ensures { TakesUp (reply left.old refusal.old fault.old) (reply left.new refusal.new fault.new) self.old self.new result }
    {
        let unused = match &self.table {
            Table::Split(_) => return BESIDE,
            Table::Whole(table) => table.is_unused(),
        };
        let Some(told) = self.told.take() else {
            return NO_RESTART;
        };
        if !unused {
            self.told = Some(told);
            return USED;
        }
        match go_on_with(told, alloc, &self.batch) {
            Ok(table) => {
                *left = table.left();
                self.table = Table::Whole(table);
                self.batch.clear(alloc);
                OK
            }
            Err((refused, told)) => {
                self.told = Some(told);
                tell_why(&refused, refusal, fault)
            }
        }
    }
}

/// A manager that goes on with the commit of the batch in hand, which is settled over the rules that were told.
fn go_on_with(
    told: Told,
    alloc: Global,
    batch: &PendingBatch,
) -> Result<WholeTable, (GoOnFault, Told)>
    ensures goes_on { IfOk result (GoesOnFor told batch.now) }
    ensures refused { IfErr result (λ refused. RefusesFor told batch.now refused.0 × (refused.1 ≡ told)) }
{
    match batch {
        PendingBatch::Strict(batch) => match told.restart(alloc, batch) {
            Ok(table) => Ok(table),
            Err((fault, told)) => Err((GoOnFault::Restart(fault), told)),
        },
        PendingBatch::Asked(requests) => match settle(alloc, told.rules(), requests) {
            Ok(batch) => match told.restart(alloc, &batch) {
                Ok(table) => Ok(table),
                Err((fault, told)) => Err((GoOnFault::Restart(fault), told)),
            },
            Err(fault) => Err((GoOnFault::Unsettled(fault), told)),
        },
    }
}

/// The code of what was told.
fn code_told(answer: Result<(), u32>) -> u32
    ensures { result ≡ answer_code answer }
{
    match answer {
        Ok(()) => OK,
        Err(code) => code,
    }
}

/// Tells why no manager goes on.
fn tell_why(refused: &GoOnFault, refusal: &mut TcamRefusal, fault: &mut TcamRestartFault) -> u32
    ensures { (left : ℕ) → IsGoOnReply refused.now (reply left refusal.old fault.old) (reply left refusal.new fault.new) result }
{
    match refused {
        GoOnFault::Restart(restart) => tell_fault(restart, refusal, fault),
        GoOnFault::Unsettled(SettleFault::Unsound(unsound)) => {
            let verdict = Refusal::Rejected(Rejection::Unsound(*unsound));
            *refusal = refusal_of(&verdict);
            code_of_refusal(&verdict)
        }
        GoOnFault::Unsettled(SettleFault::Memory) => MEMORY,
    }
}

/// Tells why a restart is refused.
fn tell_fault(
    refused: &RestartFault,
    refusal: &mut TcamRefusal,
    fault: &mut TcamRestartFault,
) -> u32
    ensures { (left : ℕ) → IsFaultReply refused.now (reply left refusal.old fault.old) (reply left refusal.new fault.new) result }
{
    match *refused {
        RestartFault::Refused(rejection) => {
            let verdict = Refusal::Rejected(rejection);
            *refusal = refusal_of(&verdict);
            code_of_refusal(&verdict)
        }
        RestartFault::Stage(StageFault::Memory) => MEMORY,
        RestartFault::Stage(stage) => {
            *fault = stage_told(&stage);
            STAGE
        }
    }
}

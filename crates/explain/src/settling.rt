//! The strict commands to which pending changes come, and their lines.

ghost use Rattle.std.specs.Prelude.{◌≡◌, ◌<◌, IfNone, IfOk, IfSome, length, vec_len};
ghost use Rattle.rule_store.specs.Verdict.{Unsound};
ghost use Rattle.settled_changes.specs.Requested.{IsAsked, changes_in};
ghost use Rattle.explain.specs.Steps.{settled_to, verdict_in};

use crate::explainer::Explainer;
use rule_model::Rank;
use rule_store::{Batch, BatchFault};
use settled_changes::{Request, Requested, SettleFault};
use slot_order::MOST_SLOTS;
use std::alloc::AllocError;
use std::collections::BTreeMap;

impl Explainer {
    /// Puts the strict commands to which the pending changes come in their place, or answers the fault of the first change
    /// that the set doesn't take.
    pub(crate) fn settle(&mut self) -> Result<Option<BatchFault>, AllocError>
        ensures taken { IfOk result (λ fault. IfNone fault ((self.new ≡ settled_to self.old) × (verdict_in self.new ≡ verdict_in self.old))) }
        ensures refused { IfOk result (λ fault. IfSome fault (λ why. (self.new ≡ self.old) × (verdict_in self.old ≡ Unsound why))) }
    {
        if self.asked.is_any() {
            return self.settle_asked();
        }
        Ok(None)
    }

    /// The same where they aren't strict commands alone. A set of more rules than a table has slots has come of no commit; it
    /// would be told as want of memory.
    fn settle_asked(&mut self) -> Result<Option<BatchFault>, AllocError>
        requires { IsAsked self.old.asked }
        ensures taken { IfOk result (λ fault. IfNone fault ((self.new ≡ settled_to self.old) × (verdict_in self.new ≡ verdict_in self.old))) }
        ensures refused { IfOk result (λ fault. IfSome fault (λ why. (self.new ≡ self.old) × (verdict_in self.old ≡ Unsound why))) }
    {
        if self.rules.len() > MOST_SLOTS {
            return Err(AllocError);
        }
        match self.asked.settle(self.alloc, &self.rules) {
            Ok(batch) => {
                let lines = self.lines_of(&batch)?;
                self.lines = lines;
                self.batch = batch;
                self.asked = Requested::Nothing;
                Ok(None)
            }
            Err(SettleFault::Unsound(fault)) => Ok(Some(fault)),
            Err(SettleFault::Memory) => Err(AllocError),
        }
    }

    /// The lines of the commands to which the pending changes come: that of the last change of a rule, and where none names
    /// it, that which began the whole new set.
    fn lines_of(&self, batch: &Batch) -> Result<Vec<u32>, AllocError>
        ensures { IfOk result (λ lines. vec_len lines ≡ length batch.now) }
    {
        let last = self.last_lines()?;
        let mut lines = Vec::new(self.alloc);
        for i in 0..batch.len() {
            let line = last.get(&batch.at(i).priority()).copied();
            lines.push(line.unwrap_or(self.whole_line))?;
        }
        Ok(lines)
    }

    /// The line of the last pending change of each rule that one names.
    fn last_lines(&self) -> Result<BTreeMap<Rank, u32>, AllocError> {
        let mut last = BTreeMap::new(self.alloc);
        for i in 0..self.pending() {
            let line = self.lines[i as usize];
            if last.insert(self.change_at(i).priority(), line).is_err() {
                return Err(AllocError);
            }
        }
        Ok(last)
    }

    /// The pending change at a place, from 0 in the order of their lines.
    pub(crate) fn change_at(&self, i: u32) -> Request
        requires { i < changes_in self.now.batch self.now.asked }
    {
        match &self.asked {
            Requested::Nothing => Request::Strict(self.batch.at(i)),
            Requested::Changes(requests) | Requested::Whole(requests) => requests.at(i),
        }
    }
}

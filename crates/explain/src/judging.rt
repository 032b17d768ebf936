//! How what is pending is judged over a known set, and what is told of a refusal.

ghost use Rattle.std.specs.Prelude.{◌≡◌, ◌≢◌, ◌&&◌, [], IfOk, OnOk, length};
ghost use Rattle.rule_store.specs.Batch.{IsSound, set_after};
ghost use Rattle.replay.specs.Early.{goes_in_two};
ghost use Rattle.explain.specs.Steps.{changes_of, commit_verdict_in, committed, judged, refused, tried, verdict_in};

use crate::changes::{Seen, tell_changes};
use crate::explainer::{Explainer, Foretold, is_known};
use crate::room::{tell_bits, tell_slots};
use readback::{Rejection, verdict};
use replay::goes_in_two;
use rule_model::Rank;
use rule_store::{BATCH_COMMANDS, Batch, Command};
use settled_changes::Requested;
use slot_order::MOST_SLOTS;
use std::alloc::AllocError;
use std::collections::BTreeMap;

/// Notes the lines of the commands of a batch that is carried out.
fn note(seen: &mut BTreeMap<Rank, Seen>, batch: &Batch, lines: &[u32]) -> Result<(), AllocError>
    requires { length lines.now ≡ length batch.now }
{
    for i in 0..batch.len() {
        let command = batch.at(i);
        let line = lines[i as usize];
        let removed = match command {
            Command::Add(_) => false,
            Command::Del(_) => true,
            Command::Set { .. } => continue,
        };
        if seen
            .insert(command.priority(), Seen { line, removed })
            .is_err()
        {
            return Err(AllocError);
        }
    }
    Ok(())
}

impl Explainer {
    /// A commit: over a known set what is pending is judged, where removals go first by the rest that is left then, and else
    /// it goes.
    pub(crate) fn commit(&mut self, number: u32, text: &mut String) -> Result<(), AllocError>
        ensures { OnOk result (self.new ≡ judged self.old.foretold self.old (committed (commit_verdict_in self.old) self.old)) }
    {
        if is_known(self.foretold) {
            return self.judge_commit(number, text);
        }
        self.pass();
        Ok(())
    }

    /// A crash: over a known set what is pending is judged, and else it goes.
    pub(crate) fn crash(&mut self, number: u32, text: &mut String) -> Result<(), AllocError>
        ensures { OnOk result (self.new ≡ judged self.old.foretold self.old (committed (verdict_in self.old) self.old)) }
    {
        if is_known(self.foretold) {
            return self.judge(number, text);
        }
        self.pass();
        Ok(())
    }

    /// A trial: over a known set what is pending is judged, and else it goes. One of no changes is a commit.
    pub(crate) fn try_commit(&mut self, number: u32, text: &mut String) -> Result<(), AllocError>
        ensures { OnOk result (self.new ≡ judged self.old.foretold self.old (tried number (changes_of self.old) (verdict_in self.old) self.old)) }
    {
        if is_known(self.foretold) {
            return self.judge_trial(number, text);
        }
        self.pass();
        Ok(())
    }

    /// Judges what is pending over a known set, which it changes where it is taken.
    fn judge(&mut self, number: u32, text: &mut String) -> Result<(), AllocError>
        ensures { OnOk result (self.new ≡ committed (verdict_in self.old) self.old) }
    {
        match self.settle() {
            Ok(Some(fault)) => self.refuse(number, &Rejection::Unsound(fault), text),
            Ok(None) => self.judge_batch(number, text),
            Err(AllocError) => Err(AllocError),
        }
    }

    /// Judges what is pending at a commit over a known set.
    fn judge_commit(&mut self, number: u32, text: &mut String) -> Result<(), AllocError>
        ensures { OnOk result (self.new ≡ committed (commit_verdict_in self.old) self.old) }
    {
        match self.settle() {
            Ok(Some(fault)) => self.refuse(number, &Rejection::Unsound(fault), text),
            Ok(None) => self.judge_parts(number, text),
            Err(AllocError) => Err(AllocError),
        }
    }

    /// Judges the commands of a commit over a known set, which are carried out where they are made in two parts.
    fn judge_parts(&mut self, number: u32, text: &mut String) -> Result<(), AllocError>
        requires { self.old.asked ≡ Requested.Nothing }
        ensures { OnOk result (self.new ≡ committed (commit_verdict_in self.old) self.old) }
    {
        match self.is_parted() {
            Ok(true) => self.apply(),
            Ok(false) => self.judge_batch(number, text),
            Err(AllocError) => Err(AllocError),
        }
    }

    /// Whether strict commands are committed in two parts. Of a set of more rules than a table has slots want of memory is
    /// told.
    fn is_parted(&self) -> Result<bool, AllocError>
        ensures { IfOk result (λ in_two. in_two ≡ self.now.wanted.parts && goes_in_two self.now.wanted.slots self.now.wanted.mode self.now.rules self.now.batch Requested.Nothing) }
    {
        if !self.wanted.parts {
            return Ok(false);
        }
        if self.rules.len() > MOST_SLOTS {
            return Err(AllocError);
        }
        goes_in_two(
            self.alloc,
            &self.rules,
            &self.batch,
            self.wanted.slots,
            self.wanted.mode,
        )
    }

    /// Judges what is pending at a trial over a known set.
    fn judge_trial(&mut self, number: u32, text: &mut String) -> Result<(), AllocError>
        ensures { OnOk result (self.new ≡ tried number (changes_of self.old) (verdict_in self.old) self.old) }
    {
        match self.settle() {
            Ok(Some(fault)) => self.refuse(number, &Rejection::Unsound(fault), text),
            Ok(None) => self.try_batch(number, text),
            Err(AllocError) => Err(AllocError),
        }
    }

    /// Judges the commands of a trial over a known set.
    fn try_batch(&mut self, number: u32, text: &mut String) -> Result<(), AllocError>
        requires { self.old.asked ≡ Requested.Nothing }
        ensures { OnOk result (self.new ≡ tried number self.old.batch (verdict_in self.old) self.old) }
    {
        if self.batch.is_empty() {
            return self.judge_batch(number, text);
        }
        self.try_changes(number, text)
    }

    /// Judges strict commands over a known set, which they change where they are taken.
    fn judge_batch(&mut self, number: u32, text: &mut String) -> Result<(), AllocError>
        requires { self.old.asked ≡ Requested.Nothing }
        ensures { OnOk result (self.new ≡ committed (verdict_in self.old) self.old) }
    {
        match verdict(
            &self.rules,
            &self.batch,
            self.wanted.slots,
            self.wanted.mode,
        ) {
            Err(rejection) => self.refuse(number, &rejection, text),
            Ok(()) => self.apply(),
        }
    }

    /// Judges the changes of a trial over a known set, which isn't known behind it where they are taken.
    fn try_changes(&mut self, number: u32, text: &mut String) -> Result<(), AllocError>
        requires some { self.old.batch ≢ [] }
        requires strict { self.old.asked ≡ Requested.Nothing }
        ensures { OnOk result (self.new ≡ tried number self.old.batch (verdict_in self.old) self.old) }
    {
        match verdict(
            &self.rules,
            &self.batch,
            self.wanted.slots,
            self.wanted.mode,
        ) {
            Err(rejection) => self.refuse(number, &rejection, text),
            Ok(()) => {
                self.foretold = Foretold::BehindTrial { line: number };
                self.clear();
                Ok(())
            }
        }
    }

    /// What is pending goes, and a commit wasn't judged.
    fn pass(&mut self)
        ensures { self.new ≡ record self.old { batch = []; asked = Requested.Nothing } }
    {
        self.unjudged = true;
        self.clear();
    }

    /// Tells why what is pending is refused, which goes.
    fn refuse(
        &mut self,
        number: u32,
        rejection: &Rejection,
        text: &mut String,
    ) -> Result<(), AllocError>
        ensures { OnOk result (self.new ≡ refused self.old) }
    {
        self.wrong = true;
        self.tell_refusal(number, rejection, text)?;
        self.clear();
        Ok(())
    }

    /// Carries out the batch, which is taken, on the rule list alone. Past the last number of rules that are counted want of
    /// memory is told.
    fn apply(&mut self) -> Result<(), AllocError>
        requires sound { IsSound self.old.rules self.old.batch }
        requires strict { self.old.asked ≡ Requested.Nothing }
        ensures { OnOk result (self.new ≡ record self.old { rules = set_after self.old.rules self.old.batch; batch = []; asked = Requested.Nothing }) }
    {
        if self.rules.len() > u32::MAX - BATCH_COMMANDS {
            return Err(AllocError);
        }
        self.rules.reserve(self.batch.len())?;
        let commands = self.batch.commands(self.alloc)?;
        note(&mut self.seen, &self.batch, &self.lines)?;
        self.rules.apply(&commands);
        self.clear();
        Ok(())
    }

    /// Why a batch is refused, in a sentence or more.
    fn tell_refusal(
        &self,
        number: u32,
        rejection: &Rejection,
        text: &mut String,
    ) -> Result<(), AllocError> {
        match rejection {
            Rejection::Unsound(_) => tell_changes(self, text),
            Rejection::Bits { field, need, free } => tell_bits(number, *field, *need, *free, text),
            Rejection::Slots { need, free } => tell_slots(self, number, *need, *free, text),
        }
    }
}

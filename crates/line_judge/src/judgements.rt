//! Judgements of the keys that an entry hits, or a rule matches.

ghost use Rattle.std.specs.Prelude.{OnOk};
ghost use Rattle.driver_trace.specs.declared.Asked as asks;
ghost use Rattle.driver_trace.specs.declared.Compared as compared;
ghost use Rattle.word_cubes.specs.declared.Cube as cubes;
ghost use Rattle.write_judge.specs.Judging.{IsJudgedIn, StateBetween};
ghost use Rattle.line_judge.specs.Tracked.{AreRightWhereHit, IsBlockOutcome, IsEndOutcome, IsHeldOutcome, IsOutcome, IsPriorityOutcome, IsRightWhereHit, IsRuleOutcome};

use crate::LineFault;
use crate::cubes::rule_cube;
use crate::track::Track;
use driver_trace::Asked;
use leak_search::Question;
use rule_model::{Entry, Rank};
use std::alloc::AllocError;
use word_cubes::{Cube, cube_of};
use write_judge::{Judged, RuleView, judged_in};

impl Track {
    /// The judgement of a cube's keys, as the commit leads to this set.
    pub(crate) fn judge_cube(
        &self,
        ahead: &RuleView,
        cube: &Cube,
        asked: Asked,
    ) -> Result<(), LineFault>
        ensures { IsOutcome self.now.by asked (record { state = self.now.device; old = self.now.rules; new = ahead.now }) cube.now result }
    {
        let question = Question { by: self.by, asked };
        match judged_in(self.alloc, question, &self.device, &self.rules, ahead, cube) {
            Ok(judged) => outcome(judged),
            Err(AllocError) => Err(LineFault::Memory),
        }
    }

    /// The judgement of the keys that a slot's entry hits.
    pub(crate) fn judge_held(
        &self,
        ahead: &RuleView,
        content: &Option<Entry>,
    ) -> Result<(), LineFault>
        ensures { IsHeldOutcome self.now.by (record { state = self.now.device; old = self.now.rules; new = ahead.now }) content.now result }
    {
        match content {
            None => Ok(()),
            Some(entry) => {
                let cube = cube_of(entry);
                self.judge_cube(ahead, &cube, Asked::OldOrNew)
            }
        }
    }

    /// The judgement of the keys that one of two entries hits.
    pub(crate) fn judge_pair(
        &self,
        ahead: &RuleView,
        one: &Option<Entry>,
        other: &Option<Entry>,
    ) -> Result<(), LineFault>
        ensures one { IsHeldOutcome self.now.by (record { state = self.now.device; old = self.now.rules; new = ahead.now }) one.now result }
        ensures other { OnOk result (IsRightWhereHit self.now.by Asked.OldOrNew (record { state = self.now.device; old = self.now.rules; new = ahead.now }) other.now) }
    {
        match self.judge_held(ahead, one) {
            Ok(()) => self.judge_held(ahead, other),
            Err(fault) => Err(fault),
        }
    }

    /// The judgement of the keys that an entry of one of two blocks hits.
    pub(crate) fn judge_blocks(
        &self,
        ahead: &RuleView,
        one: &[Option<Entry>],
        other: &[Option<Entry>],
    ) -> Result<(), LineFault>
        ensures one { IsBlockOutcome self.now.by (record { state = self.now.device; old = self.now.rules; new = ahead.now }) one.now result }
        ensures other { OnOk result (AreRightWhereHit self.now.by (record { state = self.now.device; old = self.now.rules; new = ahead.now }) other.now) }
    {
        match self.judge_block(ahead, one) {
            Ok(()) => self.judge_block(ahead, other),
            Err(fault) => Err(fault),
        }
    }

    /// The judgement of the keys that an entry of a block hits.
    pub(crate) fn judge_block(
        &self,
        ahead: &RuleView,
        block: &[Option<Entry>],
    ) -> Result<(), LineFault>
        ensures { IsBlockOutcome self.now.by (record { state = self.now.device; old = self.now.rules; new = ahead.now }) block.now result }
    {
        for held in block {
            match self.judge_held(ahead, held) {
                Ok(()) => {}
                Err(fault) => return Err(fault),
            }
        }
        Ok(())
    }

    /// The judgement of the keys that a rule matches whose priority a command of the batch names.
    pub(crate) fn judge_end(&self, ahead: &RuleView, asked: Asked) -> Result<(), LineFault>
        ensures { IsEndOutcome self.now.by asked (record { state = self.now.device; old = self.now.rules; new = ahead.now }) self.now.batch result }
    {
        for i in 0..self.batch.len() {
            let command = self.batch.at(i);
            match self.judge_both(ahead, command.priority(), asked) {
                Ok(()) => {}
                Err(fault) => return Err(fault),
            }
        }
        Ok(())
    }

    /// The judgement of the keys that a rule of this priority matches, of either set.
    pub(crate) fn judge_both(
        &self,
        ahead: &RuleView,
        priority: Rank,
        asked: Asked,
    ) -> Result<(), LineFault>
        ensures { IsPriorityOutcome self.now.by asked (record { state = self.now.device; old = self.now.rules; new = ahead.now }) priority result }
    {
        match self.judge_rule(ahead, &self.rules, priority, asked) {
            Ok(()) => self.judge_rule(ahead, ahead, priority, asked),
            Err(fault) => Err(fault),
        }
    }

    /// The judgement of the keys that a set's rule of this priority matches, if there is one.
    pub(crate) fn judge_rule(
        &self,
        ahead: &RuleView,
        set: &RuleView,
        priority: Rank,
        asked: Asked,
    ) -> Result<(), LineFault>
        ensures { IsRuleOutcome self.now.by asked (record { state = self.now.device; old = self.now.rules; new = ahead.now }) set.now priority result }
    {
        set.is_right();
        self.device.has_words();
        let rules = set.rules();
        match rules.rule(priority) {
            None => Ok(()),
            Some(rule) => {
                let cube = rule_cube(rule);
                self.judge_cube(ahead, &cube, asked)
            }
        }
    }
}

/// What a judgement comes to.
fn outcome(judged: Judged) -> Result<(), LineFault>
    ensures { (by : compared.Compared) (asked : asks.Asked) (now : StateBetween) (cube : cubes.Cube) → IsJudgedIn by asked now cube judged → IsOutcome by asked now cube result }
{
    match judged {
        Judged::Right => Ok(()),
        Judged::Leaks(leak) => Err(LineFault::Leaks(leak)),
        Judged::Unsettled => Err(LineFault::NotJudged),
    }
}

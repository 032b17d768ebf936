//! Ends of commits, judged by the keys that a rule matches which its commands name.

ghost use Rattle.std.specs.Prelude.{◌≡◌, ◌+◌, [], IfErr, OnOk};
ghost use Rattle.rule_store.specs.Batch.{set_after};
ghost use Rattle.trace_file.specs.declared.TraceLine.TheVariants as lines;
ghost use Rattle.driver_trace.specs.declared.DriverLine.TheVariants as driver;
ghost use Rattle.line_judge.specs.Tracked.{IsEndedWith, IsFaultOf, IsOpen, MayBeTaken, StopsAt, TakesLine, between};

use crate::LineFault;
use crate::track::Track;
use driver_trace::Asked;
use write_judge::RuleView;

impl Track {
    /// The commit is done: its set is the set, and every key gets its answer.
    pub(crate) fn done(&mut self, n: u32) -> Result<(), LineFault>
        requires { MayBeTaken self.old (driver.Common (lines.Done n)) }
        ensures taken { OnOk result (TakesLine self.old (driver.Common (lines.Done n)) self.new) }
        ensures stopped { IfErr result (StopsAt self.old (driver.Common (lines.Done n))) }
    {
        match self.take_ahead() {
            Ok(ahead) => self.done_by(ahead),
            Err(fault) => Err(fault),
        }
    }

    /// Likewise, where the commit leads to this set.
    pub(crate) fn done_by(&mut self, ahead: RuleView) -> Result<(), LineFault>
        requires open { IsOpen self.old }
        requires ahead { ahead ≡ set_after self.old.rules self.old.batch }
        ensures taken { OnOk result (IsEndedWith self.old (set_after self.old.rules self.old.batch) self.new) }
        ensures stopped { IfErr result (IsFaultOf self.old.by Asked.New (between self.old)) }
    {
        self.rules.is_right();
        ahead.is_right();
        match self.judge_end(&ahead, Asked::New) {
            Ok(()) => {
                self.rules = ahead;
                self.close()
            }
            Err(fault) => Err(fault),
        }
    }

    /// The commit is taken back: the set is as before, and every key gets its answer.
    pub(crate) fn back(&mut self, n: u32) -> Result<(), LineFault>
        requires { MayBeTaken self.old (driver.Back n) }
        ensures taken { OnOk result (TakesLine self.old (driver.Back n) self.new) }
        ensures stopped { IfErr result (StopsAt self.old (driver.Back n)) }
    {
        match self.take_ahead() {
            Ok(ahead) => self.back_from(&ahead),
            Err(fault) => Err(fault),
        }
    }

    /// Likewise, where the commit led to this set.
    pub(crate) fn back_from(&mut self, ahead: &RuleView) -> Result<(), LineFault>
        requires open { IsOpen self.old }
        requires ahead { ahead.now ≡ set_after self.old.rules self.old.batch }
        ensures taken { OnOk result (IsEndedWith self.old self.old.rules self.new) }
        ensures stopped { IfErr result (IsFaultOf self.old.by Asked.Old (between self.old)) }
    {
        self.rules.is_right();
        ahead.is_right();
        match self.judge_end(ahead, Asked::Old) {
            Ok(()) => self.close(),
            Err(fault) => Err(fault),
        }
    }

    /// No commit is under way any more, and one more came to an end.
    pub(crate) fn close(&mut self) -> Result<(), LineFault>
        ensures closed { OnOk result (self.new ≡ record self.old { batch = []; ahead = None; commits = self.old.commits + 1 }) }
        ensures memory { IfErr result (λ fault. fault ≡ LineFault.Memory) }
    {
        match self.commits.checked_add(1) {
            Some(commits) => {
                self.batch.clear();
                self.ahead = None;
                self.commits = commits;
                Ok(())
            }
            None => Err(LineFault::Memory),
        }
    }
}

//! What a run tells of a commit before its first write, of a refused one, and at its end.

ghost use Rattle.std.specs.Prelude.{ℕ, ◌≡◌, ◌<◌, ◌≤◌, ◌^◌, true, length};
ghost use Rattle.json_text.specs.JsonText.{IsPlainText};
ghost use Rattle.report_lines.specs.Told.{verdict_told};
ghost use Rattle.replay.specs.Reports.{fault_told, head_due, opened, refusal_line};
ghost use Rattle.replay.specs.Run.{ending};
ghost use Rattle.report_lines.specs.Outside.{WritesLine};
ghost use Rattle.replay.specs.Outside.{WritesLines};
ghost use Rattle.replay.specs.Running.{IsRun, progress_of, setting_of};

use crate::json_report::{change_line, head_line, write_behind, write_json};
use crate::report::{Totals, write_end, write_refused};
use crate::run::Run;
use batch_order::Rejection;
use report_lines::write_fault;
use script_lines::{Failed, Sink};
use trace_file::TraceLine;

impl Run {
    /// Tells, in JSON, that a commit is accepted, and of its commands. The run is one, as its type says.
    pub(crate) fn open<K: Sink>(&self, sink: &mut K) -> Result<(), Failed>
        requires commits { self.now.commits < 2 ^ 28 }
        ensures lines { WritesLines K.taken K.accepted K.faults sink.old sink.new (opened (setting_of self.now) self.now.commits self.now.pending) result }
        ensures run { IsRun self.now }
    {
        if self.watch.is_json() {
            self.tell_commands(sink)
        } else {
            Ok(())
        }
    }

    // The number of a commit that is accepted, behind the head where that is due, and its commands.
    fn tell_commands<K: Sink>(&self, sink: &mut K) -> Result<(), Failed>
        requires json { self.now.json ≡ true }
        requires commits { self.now.commits < 2 ^ 28 }
        ensures { WritesLines K.taken K.accepted K.faults sink.old sink.new (opened (setting_of self.now) self.now.commits self.now.pending) result }
    {
        let line = TraceLine::Commit(self.commits + 1);
        write_behind(sink, self.head_due(), &line, "")?;
        let version = self.watch.family().version();
        for place in 0..self.pending.len() {
            write_json(sink, version, &change_line(&self.pending.at(place)))?;
        }
        Ok(())
    }

    // The head of a report in JSON, where no line was written yet.
    fn head_due(&self) -> Option<TraceLine>
        ensures { result ≡ head_due (setting_of self.now) self.now.commits }
    {
        if self.commits > 0 {
            return None;
        }
        let (slots, mode, _) = self.manager.setting();
        Some(head_line(self.watch.family(), mode, slots))
    }

    /// Writes the line of a commit that is refused and not counted yet, in JSON behind the head where that is due.
    pub(crate) fn tell_refused<K: Sink>(
        &self,
        rejection: &Rejection,
        sink: &mut K,
    ) -> Result<(), Failed>
        requires commits { self.now.commits < 2 ^ 28 }
        ensures { WritesLine K.taken K.accepted K.faults sink.old sink.new (refusal_line (setting_of self.now) self.now.commits (verdict_told rejection.now)) result }
    {
        let commit = self.commits + 1;
        if self.watch.is_json() {
            write_behind(sink, self.head_due(), &TraceLine::Refused(commit), "")
        } else {
            write_refused(sink, commit, self.watch.family(), rejection)
        }
    }

    /// Writes the last line of a run that came to its end.
    pub(crate) fn tell_end<K: Sink>(&self, sink: &mut K) -> Result<(), Failed>
        ensures { (device_slots : ℕ) → WritesLine K.taken K.accepted K.faults sink.old sink.new (ending (setting_of self.now) (progress_of device_slots self.now)) result }
    {
        if self.watch.is_json() {
            return write_behind(sink, self.head_due(), &TraceLine::End(self.writes), "");
        }
        let totals = Totals {
            rules: self.manager.rules().len(),
            entries: self.manager.entries(),
            writes: self.writes,
            pending: self.asked.changes_with(&self.pending),
        };
        write_end(sink, &totals)
    }

    /// Writes the last line of a run that ends at the fault of a line of its script, which is counted from 1; no commit
    /// is unfinished. The fault's text has at most 32 bytes, and no control character, quotation mark or backslash, so
    /// that it stands in JSON as it is. Where the sink fails, a part of the line was taken, perhaps none or all of it.
    pub fn finish_at_fault<K: Sink>(
        &self,
        line: u32,
        fault: &str,
        sink: &mut K,
    ) -> Result<(), Failed>
        requires short { length fault.now ≤ 32 }
        requires plain { IsPlainText fault.now }
        ensures { WritesLine K.taken K.accepted K.faults sink.old sink.new (fault_told (setting_of self.now) self.now.commits line fault.now) result }
    {
        if self.watch.is_json() {
            write_behind(sink, self.head_due(), &TraceLine::Fault(line), fault)
        } else {
            write_fault(sink, u64::from(line), fault)
        }
    }
}

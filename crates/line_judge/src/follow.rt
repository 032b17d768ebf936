//! Lines that are known to be hitless: no packet is looked at.

ghost use Rattle.std.specs.Prelude.{◌≡◌, ◌+◌, ◌<◌, IfErr, OnOk};
ghost use Rattle.rule_store.specs.Batch.{set_after};
ghost use Rattle.tcam_device.specs.declared.Write.TheVariants as writes;
ghost use Rattle.tcam_device.specs.State.{apply};
ghost use Rattle.trace_file.specs.declared.TraceLine.TheVariants as lines;
ghost use Rattle.driver_trace.specs.declared.DriverLine.TheVariants as driver;
ghost use Rattle.driver_trace.specs.Compared.{ShowsOldOrNewBy};
ghost use Rattle.driver_trace.specs.Judged.{IsHitlessLine};
ghost use Rattle.line_judge.specs.Tracked.{IsJudgedEvent, IsOpen, MayBeTaken, StopsAt, TakesLine, known_of};

use crate::LineFault;
use crate::track::Track;
use driver_trace::DriverLine;
use rule_model::{Entry, Field};
use std::alloc::AllocError;
use trace_file::TraceLine;

impl Track {
    /// Takes a line that may stand but for what is known, and that is hitless. Where it isn't taken nothing is told of what is
    /// known then.
    pub(crate) fn follow(&mut self, line: &DriverLine) -> Result<(), LineFault>
        requires may { MayBeTaken self.old line.now }
        requires hitless { IsHitlessLine self.old.by (known_of self.old) line.now }
        ensures taken { OnOk result (TakesLine self.old line.now self.new) }
        ensures stopped { IfErr result (StopsAt self.old line.now) }
    {
        match line {
            DriverLine::Common(line) => self.follow_common(line),
            DriverLine::Move { from, to, count } => self.take_move(*from, *to, *count),
            DriverLine::Back(n) => self.back(*n),
        }
    }

    /// Likewise, of a line that our own traces have too.
    fn follow_common(&mut self, line: &TraceLine) -> Result<(), LineFault>
        requires may { MayBeTaken self.old (driver.Common line.now) }
        requires hitless { IsHitlessLine self.old.by (known_of self.old) (driver.Common line.now) }
        ensures taken { OnOk result (TakesLine self.old (driver.Common line.now) self.new) }
        ensures stopped { IfErr result (StopsAt self.old (driver.Common line.now)) }
    {
        match line {
            TraceLine::Put(slot, entry) => self.follow_put(*slot, entry),
            TraceLine::Erase(slot) => self.follow_erase(*slot),
            TraceLine::Table(field, port, word) => self.follow_word(*field, *port, *word),
            TraceLine::Done(n) => self.follow_done(*n),
            _ => self.take_common(line),
        }
    }

    /// An entry is put.
    fn follow_put(&mut self, slot: u32, entry: &Entry) -> Result<(), LineFault>
        requires may { MayBeTaken self.old (driver.Common (lines.Put slot entry.now)) }
        requires hitless { IsHitlessLine self.old.by (known_of self.old) (driver.Common (lines.Put slot entry.now)) }
        ensures taken { OnOk result (TakesLine self.old (driver.Common (lines.Put slot entry.now)) self.new) }
        ensures stopped { IfErr result (StopsAt self.old (driver.Common (lines.Put slot entry.now))) }
    {
        let content = Some(*entry);
        self.follow_slot(slot, &content)
    }

    /// A slot is emptied.
    fn follow_erase(&mut self, slot: u32) -> Result<(), LineFault>
        requires may { MayBeTaken self.old (driver.Common (lines.Erase slot)) }
        requires hitless { IsHitlessLine self.old.by (known_of self.old) (driver.Common (lines.Erase slot)) }
        ensures taken { OnOk result (TakesLine self.old (driver.Common (lines.Erase slot)) self.new) }
        ensures stopped { IfErr result (StopsAt self.old (driver.Common (lines.Erase slot))) }
    {
        let content = None;
        self.follow_slot(slot, &content)
    }

    /// A slot is written, behind which every key has the old or the new answer.
    fn follow_slot(&mut self, slot: u32, content: &Option<Entry>) -> Result<(), LineFault>
        requires open { IsOpen self.old }
        requires used { slot < self.old.slots }
        requires shown { ShowsOldOrNewBy self.old.by (apply self.old.device (writes.Slot slot content.now)) self.old.rules (set_after self.old.rules self.old.batch) }
        ensures written { OnOk result (IsJudgedEvent self.old (apply self.old.device (writes.Slot slot content.now)) self.new) }
        ensures memory { IfErr result (λ fault. fault ≡ LineFault.Memory) }
    {
        let _stood = self.device.put(slot, content);
        self.count_write()
    }

    /// A word of a table is written, likewise.
    fn follow_word(&mut self, field: Field, port: u16, word: u16) -> Result<(), LineFault>
        requires may { MayBeTaken self.old (driver.Common (lines.Table field port word)) }
        requires hitless { IsHitlessLine self.old.by (known_of self.old) (driver.Common (lines.Table field port word)) }
        ensures taken { OnOk result (TakesLine self.old (driver.Common (lines.Table field port word)) self.new) }
        ensures stopped { IfErr result (StopsAt self.old (driver.Common (lines.Table field port word))) }
    {
        self.device.write(field, port, word);
        self.count_write()
    }

    /// One write more.
    fn count_write(&mut self) -> Result<(), LineFault>
        ensures counted { OnOk result (self.new ≡ record self.old { writes = self.old.writes + 1 }) }
        ensures memory { IfErr result (λ fault. fault ≡ LineFault.Memory) }
    {
        match self.writes.checked_add(1) {
            Some(writes) => {
                self.writes = writes;
                Ok(())
            }
            None => Err(LineFault::Memory),
        }
    }

    /// The commit is done: its set is the set.
    fn follow_done(&mut self, n: u32) -> Result<(), LineFault>
        requires may { MayBeTaken self.old (driver.Common (lines.Done n)) }
        requires hitless { IsHitlessLine self.old.by (known_of self.old) (driver.Common (lines.Done n)) }
        ensures taken { OnOk result (TakesLine self.old (driver.Common (lines.Done n)) self.new) }
        ensures stopped { IfErr result (StopsAt self.old (driver.Common (lines.Done n))) }
    {
        match self.rules.apply(self.alloc, &self.batch) {
            Ok(()) => self.close(),
            Err(AllocError) => Err(LineFault::Memory),
        }
    }
}

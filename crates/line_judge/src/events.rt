//! Events, each judged by the keys that it can matter to.

ghost use Rattle.std.specs.Prelude.{◌≡◌, ◌+◌, ◌<◌, ◌≤◌, IfErr, IfOk, OnOk, drop, take};
ghost use Rattle.rule_store.specs.Batch.{IsSound, set_after};
ghost use Rattle.tcam_device.specs.declared.Write.TheVariants as writes;
ghost use Rattle.tcam_device.specs.State.{apply};
ghost use Rattle.trace_file.specs.declared.TraceLine.TheVariants as lines;
ghost use Rattle.driver_trace.specs.declared.DriverLine.TheVariants as driver;
ghost use Rattle.driver_trace.specs.Known.{moved_slots};
ghost use Rattle.line_judge.specs.Tracked.{AreRightWhereHit, IsAhead, IsEventFault, IsFaultOf, IsJudgedEvent, IsOpen, MayBeTaken, StopsAt, TakesLine};

use crate::LineFault;
use crate::cubes::port_cube;
use crate::sets::set_behind;
use crate::track::Track;
use driver_trace::Asked;
use rule_model::{Entry, Field};
use rule_store::{Batch, Store};
use std::alloc::{AllocError, Global};
use write_judge::RuleView;

impl Track {
    /// The set that the commit under way leads to: it is handed out, and put back behind the event.
    pub(crate) fn take_ahead(&mut self) -> Result<RuleView, LineFault>
        requires sound { IsSound self.old.rules self.old.batch }
        requires ahead { IsAhead self.old }
        ensures set { IfOk result (λ set. set ≡ set_after self.old.rules self.old.batch) }
        ensures same { self.new ≡ record self.old { ahead = None } }
        ensures memory { IfErr result (λ fault. fault ≡ LineFault.Memory) }
    {
        match self.ahead.take() {
            Some(set) => Ok(set),
            None => self.make_ahead(),
        }
    }

    /// It is made, with its entries, and with those of the set.
    fn make_ahead(&mut self) -> Result<RuleView, LineFault>
        requires { IsSound self.old.rules self.old.batch }
        ensures set { IfOk result (λ set. set ≡ set_after self.old.rules self.old.batch) }
        ensures same { self.new ≡ self.old }
        ensures memory { IfErr result (λ fault. fault ≡ LineFault.Memory) }
    {
        match self.rules.complete(self.alloc) {
            Ok(()) => made_ahead(self.alloc, &self.rules, &self.batch),
            Err(AllocError) => Err(LineFault::Memory),
        }
    }

    /// An entry is put.
    pub(crate) fn put(&mut self, slot: u32, entry: &Entry) -> Result<(), LineFault>
        requires { MayBeTaken self.old (driver.Common (lines.Put slot entry.now)) }
        ensures taken { OnOk result (TakesLine self.old (driver.Common (lines.Put slot entry.now)) self.new) }
        ensures stopped { IfErr result (StopsAt self.old (driver.Common (lines.Put slot entry.now))) }
    {
        let content = Some(*entry);
        self.write_slot(slot, &content)
    }

    /// A slot is emptied.
    pub(crate) fn erase(&mut self, slot: u32) -> Result<(), LineFault>
        requires { MayBeTaken self.old (driver.Common (lines.Erase slot)) }
        ensures taken { OnOk result (TakesLine self.old (driver.Common (lines.Erase slot)) self.new) }
        ensures stopped { IfErr result (StopsAt self.old (driver.Common (lines.Erase slot))) }
    {
        let content = None;
        self.write_slot(slot, &content)
    }

    /// A slot is written, and the keys are judged that the entry hits which goes, or the one which comes.
    pub(crate) fn write_slot(&mut self, slot: u32, content: &Option<Entry>) -> Result<(), LineFault>
        requires open { IsOpen self.old }
        requires used { slot < self.old.slots }
        ensures written { OnOk result (IsJudgedEvent self.old (apply self.old.device (writes.Slot slot content.now)) self.new) }
        ensures stopped { IfErr result (IsEventFault self.old (apply self.old.device (writes.Slot slot content.now))) }
    {
        match self.take_ahead() {
            Ok(ahead) => self.write_slot_by(ahead, slot, content),
            Err(fault) => Err(fault),
        }
    }

    /// Likewise, where the commit leads to this set.
    pub(crate) fn write_slot_by(
        &mut self,
        ahead: RuleView,
        slot: u32,
        content: &Option<Entry>,
    ) -> Result<(), LineFault>
        requires open { IsOpen self.old }
        requires ahead { ahead ≡ set_after self.old.rules self.old.batch }
        requires used { slot < self.old.slots }
        ensures written { OnOk result (IsJudgedEvent self.old (apply self.old.device (writes.Slot slot content.now)) self.new) }
        ensures stopped { IfErr result (IsEventFault self.old (apply self.old.device (writes.Slot slot content.now))) }
    {
        let stood = self.device.put(slot, content);
        match self.judge_pair(&ahead, &stood, content) {
            Ok(()) => self.go_on(ahead),
            Err(fault) => Err(fault),
        }
    }

    /// A word of a table is written, and the keys with its port are judged.
    pub(crate) fn write_word(&mut self, field: Field, port: u16, word: u16) -> Result<(), LineFault>
        requires { MayBeTaken self.old (driver.Common (lines.Table field port word)) }
        ensures taken { OnOk result (TakesLine self.old (driver.Common (lines.Table field port word)) self.new) }
        ensures stopped { IfErr result (StopsAt self.old (driver.Common (lines.Table field port word))) }
    {
        match self.take_ahead() {
            Ok(ahead) => self.write_word_by(ahead, field, port, word),
            Err(fault) => Err(fault),
        }
    }

    /// Likewise, where the commit leads to this set.
    pub(crate) fn write_word_by(
        &mut self,
        ahead: RuleView,
        field: Field,
        port: u16,
        word: u16,
    ) -> Result<(), LineFault>
        requires open { IsOpen self.old }
        requires ahead { ahead ≡ set_after self.old.rules self.old.batch }
        ensures written { OnOk result (IsJudgedEvent self.old (apply self.old.device (writes.Table field port word)) self.new) }
        ensures stopped { IfErr result (IsEventFault self.old (apply self.old.device (writes.Table field port word))) }
    {
        self.device.write(field, port, word);
        let cube = port_cube(field, port);
        match self.judge_cube(&ahead, &cube, Asked::OldOrNew) {
            Ok(()) => self.go_on(ahead),
            Err(fault) => Err(fault),
        }
    }

    /// A block of slots moves.
    pub(crate) fn take_move(&mut self, from: u32, to: u32, count: u32) -> Result<(), LineFault>
        requires { MayBeTaken self.old (driver.Move from to count) }
        ensures taken { OnOk result (TakesLine self.old (driver.Move from to count) self.new) }
        ensures stopped { IfErr result (StopsAt self.old (driver.Move from to count)) }
    {
        match self.take_ahead() {
            Ok(ahead) => self.move_by(ahead, from, to, count),
            Err(fault) => Err(fault),
        }
    }

    /// Likewise, where the commit leads to this set: the keys are judged that an entry hits which stood in either block.
    pub(crate) fn move_by(
        &mut self,
        ahead: RuleView,
        from: u32,
        to: u32,
        count: u32,
    ) -> Result<(), LineFault>
        requires open { IsOpen self.old }
        requires ahead { ahead ≡ set_after self.old.rules self.old.batch }
        requires from { from + count ≤ self.old.slots }
        requires to { to + count ≤ self.old.slots }
        ensures written { OnOk result (IsJudgedEvent self.old (record self.old.device { slots = moved_slots self.old.device.slots from to count }) self.new) }
        ensures stopped { IfErr result (IsEventFault self.old (record self.old.device { slots = moved_slots self.old.device.slots from to count })) }
    {
        match self.device.block(self.alloc, from, count) {
            Ok(moved) => self.move_over(ahead, moved.as_slice(), from, to, count),
            Err(AllocError) => Err(LineFault::Memory),
        }
    }

    /// Likewise, where this is the block that moves.
    fn move_over(
        &mut self,
        ahead: RuleView,
        moved: &[Option<Entry>],
        from: u32,
        to: u32,
        count: u32,
    ) -> Result<(), LineFault>
        requires open { IsOpen self.old }
        requires ahead { ahead ≡ set_after self.old.rules self.old.batch }
        requires from { from + count ≤ self.old.slots }
        requires to { to + count ≤ self.old.slots }
        requires moved { moved.now ≡ take count (drop from self.old.device.slots) }
        ensures written { OnOk result (IsJudgedEvent self.old (record self.old.device { slots = moved_slots self.old.device.slots from to count }) self.new) }
        ensures stopped { IfErr result (IsEventFault self.old (record self.old.device { slots = moved_slots self.old.device.slots from to count })) }
    {
        match self.device.block(self.alloc, to, count) {
            Ok(gone) => self.move_both(ahead, moved, gone.as_slice(), from, to, count),
            Err(AllocError) => Err(LineFault::Memory),
        }
    }

    /// Likewise, where this is what it comes over.
    fn move_both(
        &mut self,
        ahead: RuleView,
        moved: &[Option<Entry>],
        gone: &[Option<Entry>],
        from: u32,
        to: u32,
        count: u32,
    ) -> Result<(), LineFault>
        requires open { IsOpen self.old }
        requires ahead { ahead ≡ set_after self.old.rules self.old.batch }
        requires from { from + count ≤ self.old.slots }
        requires to { to + count ≤ self.old.slots }
        requires moved { moved.now ≡ take count (drop from self.old.device.slots) }
        requires gone { gone.now ≡ take count (drop to self.old.device.slots) }
        ensures written { OnOk result (IsJudgedEvent self.old (record self.old.device { slots = moved_slots self.old.device.slots from to count }) self.new) }
        ensures stopped { IfErr result (IsEventFault self.old (record self.old.device { slots = moved_slots self.old.device.slots from to count })) }
    {
        match self.device.move_block(self.alloc, from, to, count) {
            Ok(()) => self.judge_move(ahead, moved, gone),
            Err(AllocError) => Err(LineFault::Memory),
        }
    }

    /// Goes on behind a move where no key gets a wrong answer that an entry of either block hits.
    fn judge_move(
        &mut self,
        ahead: RuleView,
        moved: &[Option<Entry>],
        gone: &[Option<Entry>],
    ) -> Result<(), LineFault>
        ensures judged { OnOk result (AreRightWhereHit self.old.by (record { state = self.old.device; old = self.old.rules; new = ahead }) moved.now
            × AreRightWhereHit self.old.by (record { state = self.old.device; old = self.old.rules; new = ahead }) gone.now × (self.new ≡ record self.old { ahead = Some ahead; writes = self.old.writes + 1 })) }
        ensures stopped { IfErr result (IsFaultOf self.old.by Asked.OldOrNew (record { state = self.old.device; old = self.old.rules; new = ahead })) }
    {
        match self.judge_blocks(&ahead, moved, gone) {
            Ok(()) => self.go_on(ahead),
            Err(fault) => Err(fault),
        }
    }

    /// One write more, behind which this is the set that the commit leads to.
    pub(crate) fn go_on(&mut self, ahead: RuleView) -> Result<(), LineFault>
        ensures counted { OnOk result (self.new ≡ record self.old { ahead = Some ahead; writes = self.old.writes + 1 }) }
        ensures memory { IfErr result (λ fault. fault ≡ LineFault.Memory) }
    {
        match self.writes.checked_add(1) {
            Some(writes) => {
                self.ahead = Some(ahead);
                self.writes = writes;
                Ok(())
            }
            None => Err(LineFault::Memory),
        }
    }
}

/// The set after a batch, with its entries.
fn made_ahead(alloc: Global, rules: &RuleView, batch: &Batch) -> Result<RuleView, LineFault>
    requires { IsSound rules.now batch.now }
    ensures set { IfOk result (λ set. set ≡ set_after rules.now batch.now) }
    ensures memory { IfErr result (λ fault. fault ≡ LineFault.Memory) }
{
    let known = rules.rules();
    match set_behind(alloc, known, batch) {
        Ok(set) => viewed(alloc, set),
        Err(AllocError) => Err(LineFault::Memory),
    }
}

/// A set with its entries.
fn viewed(alloc: Global, set: Store) -> Result<RuleView, LineFault>
    ensures set { IfOk result (λ view. view ≡ set.rules) }
    ensures memory { IfErr result (λ fault. fault ≡ LineFault.Memory) }
{
    match RuleView::new(alloc, set) {
        Ok(view) => Ok(view),
        Err(AllocError) => Err(LineFault::Memory),
    }
}

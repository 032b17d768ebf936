//! What is known of a trace so far, and how each line that may stand is judged by it.

ghost use Rattle.std.specs.Prelude.{◌≡◌, ◌+◌, ◌<◌, ◌++◌, ◌∷◌, [], true, None, Some, IfErr, IfOk, IsTrue, IsFalse, OnOk, option_copied, if◌then◌else◌};
ghost use Rattle.rule_store.specs.Batch.{IsSound, set_after};
ghost use Rattle.tcam_device.specs.declared.Write.TheVariants as writes;
ghost use Rattle.trace_file.specs.declared.TraceLine.TheVariants as lines;
ghost use Rattle.trace_check.specs.Checked.{without_made};
ghost use Rattle.trace_check.specs.Kept.{IsRefusal};
ghost use Rattle.trace_check.specs.Orderly.{IsDrained, gives_bit, untraced};
ghost use Rattle.trace_check.specs.Traced.{Breaks, IsOpen, IsOpened, IsSoundTrace, IsTraceSized, IsWritten, MayBeJudged, WriteStops, TakesLine, now_of};

use crate::CheckFault;
use crate::checker::Counts;
use crate::commit::{Commit, Device, begin_commit, blank_device};
use crate::places::Place;
use crate::words::is_right;
use commit_writes::FieldBits;
use rule_model::{Entry, Field, IpVersion, Rank, Rule};
use rule_store::{Batch, Command, Mode, Store};
use std::alloc::{AllocError, Global};
use trace_file::TraceLine;

/// What is known of a trace: where it stands, the version of IP of its rules, the set and its live ranges, the commands of the commit under way, what
/// the device holds, and how many commits and writes there were.
#[derive(Drop)]
pub(crate) struct Trace {
    pub(crate) alloc: Global,
    pub(crate) place: Place,
    pub(crate) version: IpVersion,
    pub(crate) slots: u32,
    pub(crate) mode: Mode,
    pub(crate) rules: Store,
    pub(crate) bits: FieldBits,
    pub(crate) batch: Batch,
    pub(crate) device: Device,
    pub(crate) counts: Counts,
    // of the commit under way: itself once its batch is judged, whether a slot was written, whether an entry was put, and
    // whether a drain stands behind its table lines
    pub(crate) commit: Option<Commit>,
    pub(crate) moved: bool,
    pub(crate) has_put: bool,
    pub(crate) drained: bool,
}

impl Trace {
    /// Before the first line. It fails only for want of memory.
    pub(crate) fn new(alloc: Global) -> Result<Trace, AllocError>
        ensures place { IfOk result (λ trace. trace.place ≡ Place.AtStart) }
        ensures known { IfOk result (λ trace. now_of trace ≡ without_made untraced) }
        ensures sound { IfOk result (λ trace. IsSoundTrace Place.AtStart trace) }
    {
        let device = blank_device(alloc, 0)?;
        Ok(Trace {
            alloc,
            place: Place::AtStart,
            version: IpVersion::V4,
            slots: 0,
            mode: Mode::Cover,
            rules: Store::new(alloc),
            bits: FieldBits::new(),
            batch: Batch::new(alloc),
            device,
            counts: Counts {
                commits: 0,
                writes: 0,
            },
            commit: None,
            moved: false,
            has_put: false,
            drained: false,
        })
    }

    /// Judges a line that may stand. Where it breaks the order nothing is told of what is known then.
    pub(crate) fn judge(&mut self, line: &TraceLine) -> Result<(), CheckFault>
        requires { MayBeJudged self.old line.now }
        ensures taken { OnOk result (TakesLine self.old line.now self.new) }
        ensures broken { IfErr result (Breaks self.old line.now) }
    {
        match line {
            TraceLine::Head {
                version,
                acl,
                bits,
                slots,
            } => self.begin(*version, *acl, *bits, *slots),
            TraceLine::Commit(n) => {
                self.begin_batch(*n);
                Ok(())
            }
            TraceLine::Add(rule) => self.add(rule),
            TraceLine::Set(priority, answer) => self.set(*priority, *answer),
            TraceLine::Del(priority) => self.del(*priority),
            TraceLine::Put(slot, entry) => self.put(*slot, entry),
            TraceLine::Erase(slot) => self.erase(*slot),
            TraceLine::Table(field, port, word) => self.write_word(*field, *port, *word),
            TraceLine::Drain => self.drain(),
            TraceLine::Done(n) => self.finish(*n),
            TraceLine::Refused(_) => Ok(()),
            TraceLine::End(writes) => self.check_count(*writes),
            TraceLine::Fault(_) => Ok(()),
        }
    }

    /// The head: a blank device of so many slots, without rules.
    fn begin(
        &mut self,
        version: IpVersion,
        acl: bool,
        bits: bool,
        slots: u32,
    ) -> Result<(), CheckFault>
        requires { MayBeJudged self.old (lines.Head version acl bits slots) }
        ensures taken { OnOk result (TakesLine self.old (lines.Head version acl bits slots) self.new) }
        ensures broken { IfErr result (Breaks self.old (lines.Head version acl bits slots)) }
    {
        match blank_device(self.alloc, slots) {
            Ok(device) => {
                self.device = device;
                self.version = version;
                self.slots = slots;
                self.mode = mode_of(bits);
                Ok(())
            }
            Err(AllocError) => Err(CheckFault::Memory),
        }
    }

    /// A commit begins.
    fn begin_batch(&mut self, n: u32)
        requires { MayBeJudged self.old (lines.Commit n) }
        ensures { TakesLine self.old (lines.Commit n) self.new }
    {
        self.batch.clear();
        self.commit = None;
        self.moved = false;
        self.has_put = false;
        self.drained = false;
    }

    /// A rule is added.
    fn add(&mut self, rule: &Rule) -> Result<(), CheckFault>
        requires { MayBeJudged self.old (lines.Add rule.now) }
        ensures taken { OnOk result (TakesLine self.old (lines.Add rule.now) self.new) }
        ensures broken { IfErr result (Breaks self.old (lines.Add rule.now)) }
    {
        self.push(Command::Add(*rule))
    }

    /// A rule gets another result.
    fn set(&mut self, priority: Rank, answer: u32) -> Result<(), CheckFault>
        requires { MayBeJudged self.old (lines.Set priority answer) }
        ensures taken { OnOk result (TakesLine self.old (lines.Set priority answer) self.new) }
        ensures broken { IfErr result (Breaks self.old (lines.Set priority answer)) }
    {
        self.push(Command::Set {
            priority,
            result: answer,
        })
    }

    /// A rule is removed.
    fn del(&mut self, priority: Rank) -> Result<(), CheckFault>
        requires { MayBeJudged self.old (lines.Del priority) }
        ensures taken { OnOk result (TakesLine self.old (lines.Del priority) self.new) }
        ensures broken { IfErr result (Breaks self.old (lines.Del priority)) }
    {
        self.push(Command::Del(priority))
    }

    /// One command more. There is room for it, by its place.
    fn push(&mut self, command: Command) -> Result<(), CheckFault>
        ensures pushed { OnOk result (self.new ≡ record self.old { batch = self.old.batch ++ command ∷ [] }) }
        ensures fault { IfErr result (λ fault. fault ≡ CheckFault.Memory) }
    {
        match self.batch.push_settled(command) {
            Ok(()) => Ok(()),
            Err(_) => Err(CheckFault::Memory),
        }
    }

    /// The commit under way, which is judged with its first event: it is handed out, and put back behind the event.
    fn under_way(&mut self) -> Result<Commit, CheckFault>
        requires sized { IsTraceSized self.old }
        requires open { IsOpen self.old }
        ensures opened { IfOk result (IsOpened self.new) }
        ensures same { self.new ≡ record self.old { commit = None } }
        ensures refused { IfErr result (IsRefusal self.old.slots self.old.mode self.old.rules.rules self.old.batch) }
    {
        match self.commit.take() {
            Some(commit) => Ok(commit),
            None => {
                self.batch.changes_rules();
                begin_commit(
                    self.alloc,
                    &self.bits,
                    &self.rules,
                    &self.batch,
                    self.slots,
                    self.mode,
                )
            }
        }
    }

    /// An entry is put, behind a drain where the commit gives a range a new bit.
    fn put(&mut self, slot: u32, entry: &Entry) -> Result<(), CheckFault>
        requires { MayBeJudged self.old (lines.Put slot entry.now) }
        ensures taken { OnOk result (TakesLine self.old (lines.Put slot entry.now) self.new) }
        ensures broken { IfErr result (Breaks self.old (lines.Put slot entry.now)) }
    {
        match self.under_way() {
            Ok(commit) => self.put_by(commit, slot, entry),
            Err(fault) => Err(fault),
        }
    }

    /// An entry is put by a commit under way.
    fn put_by(&mut self, commit: Commit, slot: u32, entry: &Entry) -> Result<(), CheckFault>
        requires sized { IsTraceSized self.old }
        requires opened { IsOpened self.old commit }
        requires used { slot < self.old.slots }
        ensures taken { OnOk result (TakesLine self.old (lines.Put slot entry.now) self.new) }
        ensures broken { IfErr result (Breaks self.old (lines.Put slot entry.now)) }
    {
        if !self.may_put(&commit) {
            return Err(CheckFault::Unordered);
        }
        self.has_put = true;
        self.write_slot(commit, slot, Some(entry))
    }

    /// Whether an entry may be put: one was, no range got a new bit, or a drain stands behind the table lines.
    fn may_put(&self, commit: &Commit) -> bool
        requires { commit.now.gives_bit ≡ gives_bit self.now.mode self.now.bits self.now.rules.rules self.now.batch }
        ensures may { IsTrue result → IsDrained (now_of self.now) }
        ensures must { IsFalse result → IsDrained (now_of self.now) → ⊥ }
    {
        if self.has_put {
            return true;
        }
        if !commit.gives_bit() {
            return true;
        }
        self.drained
    }

    /// A slot is emptied.
    fn erase(&mut self, slot: u32) -> Result<(), CheckFault>
        requires { MayBeJudged self.old (lines.Erase slot) }
        ensures taken { OnOk result (TakesLine self.old (lines.Erase slot) self.new) }
        ensures broken { IfErr result (Breaks self.old (lines.Erase slot)) }
    {
        match self.under_way() {
            Ok(commit) => self.write_slot(commit, slot, None),
            Err(fault) => Err(fault),
        }
    }

    /// A slot is written by a commit under way.
    fn write_slot(
        &mut self,
        mut commit: Commit,
        slot: u32,
        entry: Option<&Entry>,
    ) -> Result<(), CheckFault>
        requires sized { IsTraceSized self.old }
        requires opened { IsOpened self.old commit }
        requires used { slot < self.old.slots }
        ensures written { OnOk result (IsWritten self.old (writes.Slot slot (option_copied entry.entry)) true self.old.drained self.new) }
        ensures broken { IfErr result (WriteStops self.old (writes.Slot slot (option_copied entry.entry))) }
    {
        // Slots are counted by a `u32`.
        let _slots = self.slots;
        let Ok(taken) = commit.write(
            self.alloc,
            &self.rules,
            &mut self.device,
            slot as usize,
            entry,
        ) else {
            return Err(CheckFault::Memory);
        };
        if !taken {
            return Err(CheckFault::Unordered);
        }
        self.commit = Some(commit);
        self.moved = true;
        self.count_write()
    }

    /// A word of a table is written, before any slot.
    fn write_word(&mut self, field: Field, port: u16, word: u16) -> Result<(), CheckFault>
        requires { MayBeJudged self.old (lines.Table field port word) }
        ensures taken { OnOk result (TakesLine self.old (lines.Table field port word) self.new) }
        ensures broken { IfErr result (Breaks self.old (lines.Table field port word)) }
    {
        match self.under_way() {
            Ok(commit) => self.write_word_by(commit, field, port, word),
            Err(fault) => Err(fault),
        }
    }

    /// A word of a table is written by a commit under way.
    fn write_word_by(
        &mut self,
        commit: Commit,
        field: Field,
        port: u16,
        word: u16,
    ) -> Result<(), CheckFault>
        requires sized { IsTraceSized self.old }
        requires opened { IsOpened self.old commit }
        ensures taken { OnOk result (TakesLine self.old (lines.Table field port word) self.new) }
        ensures broken { IfErr result (Breaks self.old (lines.Table field port word)) }
    {
        if self.moved {
            return Err(CheckFault::Unordered);
        }
        if !is_right(self.bits.of(field), port, word) {
            return Err(CheckFault::Unordered);
        }
        self.device.write_word(field, port, word);
        self.commit = Some(commit);
        self.drained = false;
        self.count_write()
    }

    /// The words in flight are searched.
    fn drain(&mut self) -> Result<(), CheckFault>
        requires { MayBeJudged self.old (lines.Drain) }
        ensures taken { OnOk result (TakesLine self.old (lines.Drain) self.new) }
        ensures broken { IfErr result (Breaks self.old (lines.Drain)) }
    {
        match self.under_way() {
            Ok(commit) => {
                self.commit = Some(commit);
                self.drained = true;
                Ok(())
            }
            Err(fault) => Err(fault),
        }
    }

    /// One write more.
    fn count_write(&mut self) -> Result<(), CheckFault>
        ensures counted { OnOk result (self.new ≡ record self.old { counts = record self.old.counts { writes = self.old.counts.writes + 1 } }) }
        ensures memory { IfErr result (λ fault. fault ≡ CheckFault.Memory) }
    {
        match self.counts.writes.checked_add(1) {
            Some(writes) => {
                self.counts.writes = writes;
                Ok(())
            }
            None => Err(CheckFault::Memory),
        }
    }

    /// The commit is done: its set is the set, and the ranges that it needs are live.
    fn finish(&mut self, n: u32) -> Result<(), CheckFault>
        requires { MayBeJudged self.old (lines.Done n) }
        ensures taken { OnOk result (TakesLine self.old (lines.Done n) self.new) }
        ensures broken { IfErr result (Breaks self.old (lines.Done n)) }
    {
        match self.under_way() {
            Ok(commit) => self.finish_by(commit, n),
            Err(fault) => Err(fault),
        }
    }

    /// A commit under way is done.
    fn finish_by(&mut self, commit: Commit, n: u32) -> Result<(), CheckFault>
        requires sized { IsTraceSized self.old }
        requires opened { IsOpened self.old commit }
        ensures taken { OnOk result (TakesLine self.old (lines.Done n) self.new) }
        ensures broken { IfErr result (Breaks self.old (lines.Done n)) }
    {
        if !commit.is_over() {
            return Err(CheckFault::Unordered);
        }
        match self.apply_batch() {
            Ok(()) => {}
            Err(fault) => return Err(fault),
        }
        self.bits = commit.bits_left(&self.rules);
        self.count_commit()
    }

    /// One commit more.
    fn count_commit(&mut self) -> Result<(), CheckFault>
        ensures counted { OnOk result (self.new ≡ record self.old { counts = record self.old.counts { commits = self.old.counts.commits + 1 } }) }
        ensures memory { IfErr result (λ fault. fault ≡ CheckFault.Memory) }
    {
        match self.counts.commits.checked_add(1) {
            Some(commits) => {
                self.counts.commits = commits;
                Ok(())
            }
            None => Err(CheckFault::Memory),
        }
    }

    /// Makes the changes of the batch. More rules than a `u32` counts are told as want of memory.
    fn apply_batch(&mut self) -> Result<(), CheckFault>
        requires { IsSound self.old.rules.rules self.old.batch }
        ensures rules { OnOk result (self.new.rules.rules ≡ set_after self.old.rules.rules self.old.batch) }
        ensures others { OnOk result (self.new ≡ record self.old { rules = self.new.rules; batch = [] }) }
        ensures memory { IfErr result (λ fault. fault ≡ CheckFault.Memory) }
    {
        let more = self.batch.len();
        if self.rules.len().checked_add(more).is_none() {
            return Err(CheckFault::Memory);
        }
        if self.rules.reserve(more).is_err() {
            return Err(CheckFault::Memory);
        }
        let Ok(commands) = self.batch.commands(self.alloc) else {
            return Err(CheckFault::Memory);
        };
        self.rules.apply(&commands);
        self.batch.clear();
        Ok(())
    }

    /// The last line has the number of writes.
    fn check_count(&mut self, writes: u64) -> Result<(), CheckFault>
        requires { MayBeJudged self.old (lines.End writes) }
        ensures taken { OnOk result (TakesLine self.old (lines.End writes) self.new) }
        ensures broken { IfErr result (Breaks self.old (lines.End writes)) }
    {
        if writes == self.counts.writes {
            Ok(())
        } else {
            Err(CheckFault::Unordered)
        }
    }
}

/// How a head says that ranges are tested.
fn mode_of(bits: bool) -> Mode
    ensures { result ≡ (if bits then Mode.Bits else Mode.Cover) }
{
    if bits { Mode::Bits } else { Mode::Cover }
}

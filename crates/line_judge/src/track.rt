//! What is known of a trace so far, and how each line that may stand is judged by it.

ghost use Rattle.std.specs.Prelude.{◌≡◌, ◌++◌, ◌∷◌, [], IfErr, IfOk, OnOk};
ghost use Rattle.rule_store.specs.Batch.{IsSound};
ghost use Rattle.trace_file.specs.declared.TraceLine.TheVariants as lines;
ghost use Rattle.driver_trace.specs.declared.DriverLine.TheVariants as driver;
ghost use Rattle.driver_trace.specs.Known.{unknown};
ghost use Rattle.line_judge.specs.Tracked.{IsPushFault, IsRightTrack, MayBeTaken, StopsAt, TakesLine, known_of};

use crate::LineFault;
use crate::commands::{is_last_meant, is_unnamed};
use driver_trace::{Compared, DriverLine};
use rule_model::{IpVersion, Rank, Rule};
use rule_store::{Batch, Command, Store};
use std::alloc::{AllocError, Global};
use trace_check::Place;
use trace_file::TraceLine;
use write_judge::{RuleView, Watched};

/// What is known of a trace: where it stands, the version of IP of its rules, the slots in use, the set and the commands of
/// the commit under way, the set that it leads to, once that was asked for, what the device holds, and how many writes and
/// commits there were.
#[derive(Drop)]
pub(crate) struct Track {
    pub(crate) alloc: Global,
    pub(crate) by: Compared,
    pub(crate) place: Place,
    pub(crate) version: IpVersion,
    pub(crate) slots: u32,
    pub(crate) rules: RuleView,
    pub(crate) batch: Batch,
    pub(crate) ahead: Option<RuleView>,
    pub(crate) device: Watched,
    pub(crate) writes: u64,
    pub(crate) commits: u64,
}

impl Track {
    /// Before the first line. It fails only for want of memory.
    pub(crate) fn new(alloc: Global, by: Compared) -> Result<Track, AllocError>
        ensures place { IfOk result (λ track. track.place ≡ Place.AtStart) }
        ensures by { IfOk result (λ track. track.by ≡ by) }
        ensures known { IfOk result (λ track. known_of track ≡ unknown) }
        ensures right { IfOk result (λ track. IsRightTrack Place.AtStart track) }
    {
        let none = Store::new(alloc);
        let batch = Batch::new(alloc);
        let rules = RuleView::new(alloc, none)?;
        let device = Watched::new(alloc, 0)?;
        Ok(Track {
            alloc,
            by,
            place: Place::AtStart,
            version: IpVersion::V4,
            slots: 0,
            rules,
            batch,
            ahead: None,
            device,
            writes: 0,
            commits: 0,
        })
    }

    /// Judges a line that may stand but for what is known. Where it isn't taken nothing is told of what is known then.
    pub(crate) fn take(&mut self, line: &DriverLine) -> Result<(), LineFault>
        requires { MayBeTaken self.old line.now }
        ensures taken { OnOk result (TakesLine self.old line.now self.new) }
        ensures stopped { IfErr result (StopsAt self.old line.now) }
    {
        match line {
            DriverLine::Common(line) => self.take_common(line),
            DriverLine::Move { from, to, count } => self.take_move(*from, *to, *count),
            DriverLine::Back(n) => self.back(*n),
        }
    }

    /// A line that our own traces have too.
    pub(crate) fn take_common(&mut self, line: &TraceLine) -> Result<(), LineFault>
        requires { MayBeTaken self.old (driver.Common line.now) }
        ensures taken { OnOk result (TakesLine self.old (driver.Common line.now) self.new) }
        ensures stopped { IfErr result (StopsAt self.old (driver.Common line.now)) }
    {
        match line {
            TraceLine::Head {
                version,
                acl,
                bits,
                slots,
            } => self.begin(*version, *acl, *bits, *slots),
            TraceLine::Commit(_) => Ok(()),
            TraceLine::Add(rule) => self.add(rule),
            TraceLine::Set(priority, answer) => self.set(*priority, *answer),
            TraceLine::Del(priority) => self.del(*priority),
            TraceLine::Put(slot, entry) => self.put(*slot, entry),
            TraceLine::Erase(slot) => self.erase(*slot),
            TraceLine::Table(field, port, word) => self.write_word(*field, *port, *word),
            TraceLine::Drain => Ok(()),
            TraceLine::Done(n) => self.done(*n),
            TraceLine::Refused(_) => Ok(()),
            TraceLine::End(writes) => self.check_count(*writes),
            TraceLine::Fault(_) => Ok(()),
        }
    }

    /// The head: a blank device of so many slots, without rules.
    fn begin(
        &mut self,
        version: IpVersion,
        acl: bool,
        bits: bool,
        slots: u32,
    ) -> Result<(), LineFault>
        requires { MayBeTaken self.old (driver.Common (lines.Head version acl bits slots)) }
        ensures taken { OnOk result (TakesLine self.old (driver.Common (lines.Head version acl bits slots)) self.new) }
        ensures stopped { IfErr result (StopsAt self.old (driver.Common (lines.Head version acl bits slots))) }
    {
        let none = Store::new(self.alloc);
        match RuleView::new(self.alloc, none) {
            Ok(rules) => self.begin_over(rules, version, acl, bits, slots),
            Err(AllocError) => Err(LineFault::Memory),
        }
    }

    /// Likewise, with these rules, of which there are none.
    fn begin_over(
        &mut self,
        rules: RuleView,
        version: IpVersion,
        acl: bool,
        bits: bool,
        slots: u32,
    ) -> Result<(), LineFault>
        requires may { MayBeTaken self.old (driver.Common (lines.Head version acl bits slots)) }
        requires none { rules ≡ [] }
        ensures taken { OnOk result (TakesLine self.old (driver.Common (lines.Head version acl bits slots)) self.new) }
        ensures stopped { IfErr result (StopsAt self.old (driver.Common (lines.Head version acl bits slots))) }
    {
        match Watched::new(self.alloc, slots) {
            Ok(device) => {
                self.version = version;
                self.slots = slots;
                self.rules = rules;
                self.batch.clear();
                self.ahead = None;
                self.device = device;
                self.writes = 0;
                self.commits = 0;
                Ok(())
            }
            Err(AllocError) => Err(LineFault::Memory),
        }
    }

    /// A rule is added.
    fn add(&mut self, rule: &Rule) -> Result<(), LineFault>
        requires { MayBeTaken self.old (driver.Common (lines.Add rule.now)) }
        ensures taken { OnOk result (TakesLine self.old (driver.Common (lines.Add rule.now)) self.new) }
        ensures stopped { IfErr result (StopsAt self.old (driver.Common (lines.Add rule.now))) }
    {
        self.push(Command::Add(*rule))
    }

    /// A rule gets another result.
    fn set(&mut self, priority: Rank, answer: u32) -> Result<(), LineFault>
        requires { MayBeTaken self.old (driver.Common (lines.Set priority answer)) }
        ensures taken { OnOk result (TakesLine self.old (driver.Common (lines.Set priority answer)) self.new) }
        ensures stopped { IfErr result (StopsAt self.old (driver.Common (lines.Set priority answer))) }
    {
        self.push(Command::Set {
            priority,
            result: answer,
        })
    }

    /// A rule is removed.
    fn del(&mut self, priority: Rank) -> Result<(), LineFault>
        requires { MayBeTaken self.old (driver.Common (lines.Del priority)) }
        ensures taken { OnOk result (TakesLine self.old (driver.Common (lines.Del priority)) self.new) }
        ensures stopped { IfErr result (StopsAt self.old (driver.Common (lines.Del priority))) }
    {
        self.push(Command::Del(priority))
    }

    /// One command more, which has to be one that can be meant. There is room for it, by its place.
    fn push(&mut self, command: Command) -> Result<(), LineFault>
        requires { IsSound self.old.rules self.old.batch }
        ensures pushed { OnOk result (IsSound self.old.rules (self.old.batch ++ command ∷ [])
            × (self.new ≡ record self.old { batch = self.old.batch ++ command ∷ []; ahead = None })) }
        ensures stopped { IfErr result (IsPushFault self.old command) }
    {
        self.ahead = None;
        let unnamed = is_unnamed(&self.batch, command.priority());
        match self.batch.push_settled(command) {
            Ok(()) => {}
            Err(_) => return Err(LineFault::Memory),
        }
        let rules = self.rules.rules();
        if is_last_meant(rules, &self.batch, &command, unnamed) {
            Ok(())
        } else {
            Err(LineFault::Misplaced)
        }
    }

    /// The last line has the number of writes.
    fn check_count(&mut self, writes: u64) -> Result<(), LineFault>
        requires { MayBeTaken self.old (driver.Common (lines.End writes)) }
        ensures taken { OnOk result (TakesLine self.old (driver.Common (lines.End writes)) self.new) }
        ensures stopped { IfErr result (StopsAt self.old (driver.Common (lines.End writes))) }
    {
        if writes == self.writes {
            Ok(())
        } else {
            Err(LineFault::Misplaced)
        }
    }
}

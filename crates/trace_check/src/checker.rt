//! The check of a trace, line by line.

ghost use Rattle.std.specs.Prelude.{◌≡◌, IfOk, IfErr, IfSome, IsNone};
ghost use Rattle.trace_check.specs.Checked.{RefusesLine, Takes, nothing_checked};

use crate::CheckFault;
use crate::places::Place;
use crate::trace::Trace;
use rule_model::IpVersion;
use std::alloc::{AllocError, Global};
use std::marker::Model;
use trace_file::TraceLine;

/// How many commits of a trace were accepted, and how many device writes it has.
#[derive(Clone, Copy, Debug, PartialEq, Eq)]
pub struct Counts {
    pub commits: u64,
    pub writes: u64,
}

/// Where a check of a trace stands, and what is known of the trace so far.
#[derive(Drop)]
pub struct Checker {
    trace: Trace,
}

impl Model for Checker {
    ghost use Rattle.trace_check.specs.Checked.{Checked};
    ghost use Rattle.trace_check.specs.Traced.{IsSoundTrace, now_of};

    ghost Value = { Checked };

    ghost view = { λ c. record { place = c.trace.place; now = now_of c.trace } };

    ghost invariant = { λ c. IsSoundTrace c.trace.place c.trace };
}

impl Checker {
    /// Before the first line. It fails only for want of memory.
    pub fn new(alloc: Global) -> Result<Checker, AllocError>
        ensures { IfOk result (λ checker. checker ≡ nothing_checked) }
    {
        let trace = Trace::new(alloc)?;
        Ok(Checker { trace })
    }

    /// Takes the next line, where it may stand and keeps the order. `Misplaced` comes only where no trace has it there,
    /// `Unordered` only where it may stand and breaks the order, or tells another number of writes; Memory may come of any
    /// line. Where the line isn't taken the checker is spent.
    pub fn take(self, line: &TraceLine) -> Result<Checker, CheckFault>
        ensures taken { IfOk result (λ next. Takes self line.now next) }
        ensures refused { IfErr result (λ fault. RefusesLine self line.now fault) }
    {
        let mut trace = self.trace;
        let Some(next) = trace.place.after(trace.slots, line) else {
            return Err(CheckFault::Misplaced);
        };
        match trace.judge(line) {
            Ok(()) => {
                trace.place = next;
                Ok(Checker { trace })
            }
            Err(fault) => Err(fault),
        }
    }

    /// The version of IP by which the next line is to be read: the head tells it, and before it either one does.
    pub fn version(&self) -> IpVersion
        ensures { result ≡ self.now.now.version }
    {
        self.trace.version
    }

    /// How many commits and writes the trace has, where it is whole: None before its last line.
    pub fn end(&self) -> Option<Counts>
        ensures whole { IfSome result (λ counts. (self.now.place ≡ Place.AtEnd)
            × (counts.commits ≡ self.now.now.accepted) × (counts.writes ≡ self.now.now.writes)) }
        ensures cut { IsNone result → self.now.place ≡ Place.AtEnd → ⊥ }
    {
        match self.trace.place {
            Place::AtEnd => Some(self.trace.counts),
            _ => None,
        }
    }
}

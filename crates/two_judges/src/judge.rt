//! The judge of both.

ghost use Rattle.std.specs.Prelude.{◌≡◌, ◌<◌, ◌^◌, IfOk, IfErr, IfSome, IsNone};
ghost use Rattle.trace_check.specs.declared.places.Place.TheVariants as places;
ghost use Rattle.driver_trace.specs.declared.DriverLine.TheVariants as driver;
ghost use Rattle.driver_trace.specs.Judged.{IsHitlessLine};
ghost use Rattle.line_judge.specs.Followed.{Followed, RefusesLine, Takes, nothing_followed};
ghost use Rattle.two_judges.specs.InStep.{AreInStep, IsLineRight};

use driver_trace::{Compared, DriverLine};
use line_judge::{LineCounts, LineFault, LineJudge};
use rule_model::{IpVersion, rule_conditions};
use std::alloc::{AllocError, Global};
use std::marker::Model;
use trace_check::Checker;
use trace_file::TraceLine;

/// Where the judgement of a trace stands: the check of its order, as long as it was kept, and the judge of packets.
#[derive(Drop)]
pub struct DriverJudge {
    order: Option<Checker>,
    packets: LineJudge,
}

impl Model for DriverJudge {
    ghost use Rattle.std.specs.Prelude.{IfSome};
    ghost use Rattle.line_judge.specs.Followed.{Followed};
    ghost use Rattle.two_judges.specs.InStep.{AreInStep};

    ghost Value = { Followed };

    ghost view = { λ j. j.packets };

    ghost invariant = { λ j. IfSome j.order (λ check. AreInStep check j.packets) };
}

impl DriverJudge {
    /// Before the first line, where answers are so compared. It fails only for want of memory.
    pub fn new(alloc: Global, by: Compared) -> Result<DriverJudge, AllocError>
        ensures { IfOk result (λ judge. judge ≡ nothing_followed by) }
    {
        let packets = LineJudge::new(alloc, by)?;
        let order = Checker::new(alloc)?;
        Ok(DriverJudge {
            order: Some(order),
            packets,
        })
    }

    /// Takes the next line, where it may stand and is hitless. `Misplaced` comes only where no trace has it there; `Leaks`
    /// names a packet that gets a wrong answer behind it; `NotJudged` only of a line that asks something of the device;
    /// Memory may come of any line. Where the line isn't taken the judge is spent.
    pub fn take(self, line: &DriverLine) -> Result<DriverJudge, LineFault>
        ensures taken { IfOk result (λ next. Takes self line.now next) }
        ensures refused { IfErr result (λ fault. RefusesLine self line.now fault) }
    {
        let DriverJudge { order, packets } = self;
        match order {
            None => by_packets(packets, line),
            Some(check) => by_order(check, packets, line),
        }
    }

    /// The version of IP by which the next line is to be read: the head tells it, and before it either one does.
    pub fn version(&self) -> IpVersion
        ensures { result ≡ self.now.now.version }
    {
        self.packets.version()
    }

    /// How many commits and writes the trace has, where it is whole: None before its last line.
    pub fn end(&self) -> Option<LineCounts>
        ensures whole { IfSome result (λ counts. (self.now.place ≡ places.AtEnd)
            × (counts.commits ≡ self.now.now.commits) × (counts.writes ≡ self.now.now.writes)) }
        ensures cut { IsNone result → self.now.place ≡ places.AtEnd → ⊥ }
    {
        self.packets.end()
    }
}

/// Takes a line by its packets alone, and so all lines behind it.
fn by_packets(packets: LineJudge, line: &DriverLine) -> Result<DriverJudge, LineFault>
    ensures taken { IfOk result (λ next. Takes packets line.now next) }
    ensures refused { IfErr result (λ fault. RefusesLine packets line.now fault) }
{
    match packets.take(line) {
        Ok(packets) => Ok(DriverJudge {
            order: None,
            packets,
        }),
        Err(fault) => Err(fault),
    }
}

/// Takes a line by the order, where it is one that our own traces have.
fn by_order(check: Checker, packets: LineJudge, line: &DriverLine) -> Result<DriverJudge, LineFault>
    requires { AreInStep check packets }
    ensures taken { IfOk result (λ next. Takes packets line.now next) }
    ensures refused { IfErr result (λ fault. RefusesLine packets line.now fault) }
{
    match line {
        DriverLine::Common(common) => common_by_order(check, packets, common, line),
        DriverLine::Move { .. } => by_packets(packets, line),
        DriverLine::Back(_) => by_packets(packets, line),
    }
}

/// Takes such a line by the order, where it keeps it, and else by its packets.
fn common_by_order(
    check: Checker,
    packets: LineJudge,
    common: &TraceLine,
    line: &DriverLine,
) -> Result<DriverJudge, LineFault>
    requires step { AreInStep check packets }
    requires same { line.now ≡ driver.Common common.now }
    ensures taken { IfOk result (λ next. Takes packets line.now next) }
    ensures refused { IfErr result (λ fault. RefusesLine packets line.now fault) }
{
    line_is_right(common);
    match check.take(common) {
        Ok(order) => followed(order, packets, line),
        Err(_) => by_packets(packets, line),
    }
}

/// Takes a line that the check of the order took, and that is hitless therefore.
fn followed(order: Checker, packets: LineJudge, line: &DriverLine) -> Result<DriverJudge, LineFault>
    requires hitless { IsHitlessLine packets.by packets.now line.now }
    requires step { (next : Followed) → Takes packets line.now next → AreInStep order next }
    ensures taken { IfOk result (λ next. Takes packets line.now next) }
    ensures refused { IfErr result (λ fault. RefusesLine packets line.now fault) }
{
    match packets.follow(line) {
        Ok(packets) => Ok(DriverJudge {
            order: Some(order),
            packets,
        }),
        Err(fault) => Err(fault),
    }
}

/// The rule that a line adds has right conditions, and the word of a table 16 bits, by their types.
fn line_is_right(line: &TraceLine)
    ensures { IsLineRight line.now }
{
    match line {
        TraceLine::Add(rule) => rule_conditions(rule),
        TraceLine::Table(_, _, word) => is_word(*word),
        _ => {}
    }
}

/// A number of 16 bits is one.
fn is_word(word: u16)
    ensures { word < 2 ^ 16 }
{}

//! The judge of lines.

ghost use Rattle.std.specs.Prelude.{◌≡◌, IfOk, IfErr, IfSome, IsNone};
ghost use Rattle.driver_trace.specs.Judged.{IsHitlessLine};
ghost use Rattle.line_judge.specs.Followed.{RefusesLine, Takes, nothing_followed};

use crate::LineFault;
use crate::kinds::{kind_of, place_behind};
use crate::track::Track;
use driver_trace::{Compared, DriverLine};
use rule_model::IpVersion;
use std::alloc::{AllocError, Global};
use std::marker::Model;
use trace_check::Place;

/// How many commits of a trace came to an end, and how many device writes it has, a block move counted as one.
#[derive(Clone, Copy, Debug, PartialEq, Eq)]
pub struct LineCounts {
    pub commits: u64,
    pub writes: u64,
}

/// Where the judgement of a trace stands, and what is known of the trace so far.
#[derive(Drop)]
pub struct LineJudge {
    track: Track,
}

impl Model for LineJudge {
    ghost use Rattle.line_judge.specs.Followed.{Followed};
    ghost use Rattle.line_judge.specs.Tracked.{IsRightTrack, known_of};

    ghost Value = { Followed };

    ghost view = { λ j. record { by = j.track.by; place = j.track.place; now = known_of j.track } };

    ghost invariant = { λ j. IsRightTrack j.track.place j.track };
}

impl LineJudge {
    /// Before the first line, where answers are so compared. It fails only for want of memory.
    pub fn new(alloc: Global, by: Compared) -> Result<LineJudge, AllocError>
        ensures { IfOk result (λ judge. judge ≡ nothing_followed by) }
    {
        let track = Track::new(alloc, by)?;
        Ok(LineJudge { track })
    }

    /// Takes the next line, where it may stand and is hitless. `Misplaced` comes only where no trace has it there; `Leaks`
    /// names a packet that gets a wrong answer behind it; `NotJudged` only of a line that asks something of the device;
    /// Memory may come of any line. Where the line isn't taken the judge is spent.
    pub fn take(self, line: &DriverLine) -> Result<LineJudge, LineFault>
        ensures taken { IfOk result (λ next. Takes self line.now next) }
        ensures refused { IfErr result (λ fault. RefusesLine self line.now fault) }
    {
        let mut track = self.track;
        let kind = kind_of(line);
        match place_behind(track.slots, track.place, kind) {
            None => Err(LineFault::Misplaced),
            Some(next) => match track.take(line) {
                Ok(()) => {
                    track.place = next;
                    Ok(LineJudge { track })
                }
                Err(fault) => Err(fault),
            },
        }
    }

    /// Takes the next line, which is hitless, where it may stand, and looks at no packet. `Misplaced` comes only where no trace
    /// has it there; a move and an end that was taken back are judged. Where the line isn't taken the judge is spent.
    pub fn follow(self, line: &DriverLine) -> Result<LineJudge, LineFault>
        requires { IsHitlessLine self.by self.now line.now }
        ensures taken { IfOk result (λ next. Takes self line.now next) }
        ensures refused { IfErr result (λ fault. RefusesLine self line.now fault) }
    {
        let mut track = self.track;
        let kind = kind_of(line);
        match place_behind(track.slots, track.place, kind) {
            None => Err(LineFault::Misplaced),
            Some(next) => match track.follow(line) {
                Ok(()) => {
                    track.place = next;
                    Ok(LineJudge { track })
                }
                Err(fault) => Err(fault),
            },
        }
    }

    /// The version of IP by which the next line is to be read: the head tells it, and before it either one does.
    pub fn version(&self) -> IpVersion
        ensures { result ≡ self.now.now.version }
    {
        self.track.version
    }

    /// How many commits and writes the trace has, where it is whole: None before its last line.
    pub fn end(&self) -> Option<LineCounts>
        ensures whole { IfSome result (λ counts. (self.now.place ≡ Place.AtEnd)
            × (counts.commits ≡ self.now.now.commits) × (counts.writes ≡ self.now.now.writes)) }
        ensures cut { IsNone result → self.now.place ≡ Place.AtEnd → ⊥ }
    {
        match self.track.place {
            Place::AtEnd => Some(LineCounts {
                commits: self.track.commits,
                writes: self.track.writes,
            }),
            _ => None,
        }
    }
}

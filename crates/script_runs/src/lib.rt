//! Runs over scripts, whatever an act is and does: the acts that a script's bytes are, the runs of acts one after the
//! other, how such a run ends, and with which status.
//!
//! # The one hard idea
//! What is promised of a run is said by the acts that were carried out, by the one that was cut, and by the lines that came
//! before the last read. None of that rests on what an act does. So it is said once, over any **kind of runs**
//! (`RunKind` of `specs/Outcomes`): its step from where a run stands, its cut, its lines and its writes are arguments, and
//! each program's promise is the same definitions at its own step.
//!
//! # How it stands
//! `specs/Script` has the acts of a script by a **kind of scripts** (`ScriptKind`: how a line is read, what is counted of the
//! acts, when one has no room), and what the bytes so far are of it. `specs/Runs` has runs, `specs/Outcomes` how they end by
//! their status, `specs/InTime` what was carried out before the last read, `specs/Places` one word for what devices show on the
//! way. The lemmas speak of lines and acts.
//!
//! # What isn't here
//! What an act is and does, and the words of a command line: those are `replay`'s and `tcam_cli`'s. No code, but the
//! statuses.
#![tactic(auto)]

ghost use Rattle.std.specs.Prelude.{◌≡◌};
ghost use Rattle.script_runs.specs.ExitCodes.{exit_code};

/// How a run ends.
#[derive(Clone, Copy, Debug, PartialEq, Eq)]
pub enum Status {
    /// The input was read, or made, to its end, and no commit was refused; or it is a trace whose writes are hitless.
    Done,
    /// The input was read, or made, to its end, and some commit was refused; or it is a trace, and a line of it breaks
    /// the order.
    Refused,
    /// A line of the script is at fault, or of the trace.
    Script,
    /// The source failed.
    ReadFault,
    /// The sink failed.
    WriteFault,
    /// The device failed, at each try of one write.
    DeviceFault,
    /// Want of memory.
    Memory,
    /// The words are no command line.
    Usage,
}

impl Status {
    /// The exit code of the process.
    pub fn code(self) -> u8
        ensures { result ≡ exit_code self }
    {
        match self {
            Status::Done => 0,
            Status::Refused => 1,
            Status::Script => 2,
            Status::ReadFault => 3,
            Status::WriteFault => 4,
            Status::DeviceFault => 5,
            Status::Memory => 6,
            Status::Usage => 64,
        }
    }
}

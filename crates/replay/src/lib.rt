//! Runs of acts over a device: the pending batch, the commits, and the lines of the report.
//!
//! A [`Run`] takes the acts of a script one at a time. A change joins the pending batch; a packet is looked up in the
//! device as it stands; a commit is judged by the manager and, where it is taken, carried out write by write. Where a
//! trace is wanted each write has its line. Each probe is looked up again after each write, in two events: its word is
//! made then, and searched a depth of writes later, or before a drain or the commit's line.
//!
//! # The one hard idea
//! What an act does is a list of effects, device writes, drains and report lines in one order, said of rule lists,
//! journal and report alone (`specs/Run`). A body that prints first and writes later has other effects, and so has one
//! that answers a probe from the set and not from the device as it stands. `apply` has exactly the effects of its act,
//! or those before the line or the write that failed, and no memory is taken between two writes of a commit but where
//! it crashes. A write that fails is tried again at once, [`TRIES`] times in all.
//!
//! # How it stands
//! `run` has the acts, `joining` how changes join what is pending, `committing` how that is settled and judged, `carrying` a
//! commit from its first write to its line, `fate` what becomes of it, `steps` its loop, `watch` what is told after a
//! write, `telling` what is told before the first write and at the end, `report` the lines, made of the words of
//! `report_lines`, and `json_report` those in JSON. Each line goes to the sink, with its line
//! feed, before the next effect. `laws` has what packets see over a crash.
//!
//! # What it cost
//! A line is written as soon as it is known, so a trace takes a call of the sink for each line. A failed line of a
//! trace or a probe may stand within a commit; the commit is then still under way, as where a write fails.
//!
//! # A device that fails
//! Where a write failed at all of its tries the rest of its commit is held, and [`Run::resume`] goes on with it: the
//! writes and lines of both calls are those of the commit, each once. Until then no act is taken.
//!
//! # A manager that crashes
//! `Act::Crash` drops the manager within a commit, and another one goes on by what the device shows: what can be lost
//! is the plan, and a device that is read back tells as much of it as is needed (`carrying`).
//!
//! # What isn't promised
//! That a run can go on after a failed line: a part of it may stand in the report, so no call may follow a fault of the
//! sink; nor where a commit that crashed found no memory, since its manager is gone ([`Run::is_broken`]). That no write
//! is tried a fifth time where its act has made others before it: a device has one count for all of its failures.
//!
//! # Decided
//! - **A run stands at a value**, `progress_of`, that its manager, its pending batch and its counts give for a device
//!   of so many slots; clauses of `apply` speak of it under the premise that the device is there.
//! - **A batch is of strict commands until the first forgiving change** (`Requested`), so that each clause on a script of strict
//!   commands is the one that it was. From then on its changes are requests, and a commit settles them over the set, before
//!   it is judged, into a batch of strict commands that leads where they say (`settled_changes`). What is judged,
//!   carried out, told and held is that batch alone (`settled_at` in `specs/Run`), so no definition of a commit knows of
//!   requests. For want of memory the requests wait as before; once the batch is taken they are gone, and a run whose device
//!   failed goes on with the settled batch. `all` begins a whole new set: what the changes behind it make of no rules. It is
//!   taken only where nothing is pending, since else it would be unclear which changes belong to the set; and a commit right
//!   behind it empties the table, as it says.
//! - **A packet's line is the set's answer**, and no clause says who was asked. The run asks the device, which holds
//!   the manager's writes and so answers the same (`rules` of the manager).
//! - **A trial and a crash are turned at one place, by one loop** (`Fate::Turns`, `carry_out`): the writes up to `K` are
//!   made where it has more, right before a drain that is due then; it is handed over, and what is left then is made to the
//!   end. A trial hands over what undoes its writes, to its own manager and without memory (`take_back`), a crash what
//!   another manager plans (`restart`). What a trial makes is stated as one list, there and back (`course_of` in
//!   `specs/Running`), so `resume` goes on with one that a device stopped on either way. Its line counts both ways, since
//!   the device made both. A commit's writes are below `2^36`, twice those of a segment. `apply` and `resume` ask for room
//!   for the way back, which `prepare` reserves.
//! - **`crash K` is one commit with one list of actions** (`actions_over` in `specs/Run`): those up to the crash,
//!   without a drain that is due then, and those of the plan that goes on. So lines, numbers and words in flight of
//!   both parts are those of any commit (`carried`). One that is cut before its crash has no second part yet, and
//!   whether one can be planned isn't said there (`IsCutBeforeCrash`). The restart needs memory, and its want leaves a
//!   commit half made whose manager is gone: no call may follow (`broken`). The words in flight at the crash are
//!   current for the second manager by `unplaced` of `CanRestart`: nothing that a commit inserts stands before its
//!   first write to a slot. Before a crash the device has to be where the run stands (`stands`), which calls keep
//!   (`in_step`).
//! - **A commit that is cut keeps what is to become of it** ([`Run`]'s `Fate`; `act_is` of `StaysUnfinished`): else a
//!   crash or a trial that is cut could be gone on with as a plain commit, and every clause still held. Where the
//!   second manager aims is told too (`placed` of `Restarts`), at the price of six files more to believe.
//! - **A write that fails is tried again at once, four times in all** (`TRIES`, `step_tried`). One failure that passes,
//!   as of a busy bus, would end a run; few tries, so a device that stays stuck is told soon; no time between them,
//!   since a run has no clock. A try that failed wrote nothing, and nothing tells of failures that passed. The device's
//!   count rises by four where the run ends by the device, and by at most three for each write that was made. A device
//!   has one count for all of its failures, so the clauses refuse a fifth try only where the writes before it took all
//!   of theirs, as where there are none, and three tries only where failures before them don't make up for the fourth;
//!   else it is tested (`probed_over_a_failing_device`).
//! - **A run whose device failed goes on by `resume`, and meanwhile takes no act** (`ActFault::Held`, before any other
//!   answer, so that a caller learns it from each act). The run remembers how many writes of the commit were told, so
//!   the next one has its number. The clause of `resume` speaks of the whole commit: for each state in which it may
//!   have begun, and the effects since (`IsUnfinished`), those and the new ones are the commit's, or are cut where it
//!   failed (`ResumesTo`). When to go on, and how often, is the caller's choice. The price: a run asks that the sink
//!   didn't fail (`whole`), and a reader learns two more words of state (`told`, `broken`).
//! - **What a call hands to a sink, and leaves of sink and device, is said once** (`WritesLine`, `WritesLines`,
//!   `Leaves` in `specs/Outside`): that a line is taken whole, or in part where the sink fails, by either count; that
//!   what was told stays told; and which failure has which cause (the program's last line: `ClosesReport` in
//!   `tcam_cli/specs/Rounds`). An act's answer is one clause too, by cases (`ComesTo`), and `limit` is an equation: the
//!   text that the answer tells is the fault of an act for which there is no room. The price: a reader opens a record
//!   to see its facts, and the records take the members of the traits as arguments (`K.taken`).
//! - **What comes of a commit is said between two moments**: what stands outside of the run is one word (`Outside`: what was
//!   made of the device since it was blank, and what the sink took), and so is a commit under way (`Snapshot`: its manager,
//!   how far it has come, and what stands outside). What a call leaves of the device that no word of a run speaks of is
//!   one clause, by the records of its view (`tcam_device`'s `IsSameButFlight`, `IsSameButSpare`, `HasMade`, `IsUntouched`).
//! - **A probe's line is said by an undivided look-up** at the moment when its word is searched (`searches_of` in
//!   `specs/Effects`), so no reader of a report needs to know tables. That the word answers so is proved, from the live
//!   ranges that tables and slots serve (`ServesNow`) and from the words being current for them, which each step keeps
//!   but a drain. The price: a run keeps of how many writes the words wait (`Count`), `resume` asks for the words that
//!   were left (`AreLeft`), and behind a failed line nothing is said of them. All are searched before a drain and
//!   behind the last write, so no word outlives its commit. The device's history has the drains (`events`), so their
//!   place is promised too.
//! - **A line of a write may fail within a commit**: the run is cut at that line with its commit under way, as where a
//!   write fails, but no call follows. Where no trace is wanted and the script has no probe, a failed line leaves no
//!   commit half made.
//! - **An access list takes any rule that its types give** (`IsActOf`), but where the report is in JSON (below). A script
//!   gives sequence numbers from 1; no clause needs it, as the report names any priority by `2^32` less its lower part, or
//!   0 where that is more. Rules of a script of routes must be routes of its version of IP, on which their bounds rest.
//! - **A report in JSON has the effects of one in words, with other lines** (`specs/Reports`): a setting says which, and
//!   a statement without JSON is the same as before there was any. Its probes are counted, so that a script has the same
//!   fault in either report, and none of them is told of (`probes_told`), so no word of them is made. Its head is due with
//!   the first line, which is a commit's or the last one (`head_due`): so no act prints what isn't its own, a run that
//!   wants memory before its first commit prints nothing, and a run keeps nothing more for it than how many commits there
//!   were. Trials and crashes have no line in a trace file, so no such run takes them, and the numbers of
//!   its commands are within the limits of one (`IsToldIn`): else a line would tell of another rule than the one added.
//! - **A trace by names is read off the device** (`deed_told` in `specs/Effects`): what a write does hangs on what the slots
//!   hold before it, which the manager keeps to itself, and a device can be read back. So a write is looked at before it is
//!   made, and a copy costs a read of every slot, where names are wanted alone. That a write does so is said by the state that
//!   the effects of a commit lead through (`effects_of`), so a line tells of the write that was made. The price: all that makes
//!   writes asks for a device that can be read, as a run does anyway for its crashes.
//! - **A trace line takes any write, of any tag.** The tag's number may have more bits than a `u128`, so its last digit
//!   is reckoned apart. A trace of IPv6 names the rule instead, and prints all eleven lanes: the tag of a route has 136
//!   bits, which no one looks up by hand.
#![tactic(auto)]

mod carrying;
mod committing;
mod early;
mod fate;
mod joining;
mod json_report;
mod laws;
mod naming;
mod report;
mod run;
mod steps;
mod telling;
mod watch;

pub use batch_order::{Mode, Placement};
pub use early::goes_in_two;
pub use laws::{
    crashed_parts_are_old_or_new, rests_are_taken, routes_are_within_bound,
    two_parts_are_one_commit,
};
pub use report::{write_no, write_yes};
pub use report_lines::{Family, write_fault, write_text};
use rule_model::Key;
use rule_store::Command;
pub use run::Run;
use settled_changes::Request;
use std::alloc::AllocError;
use thiserror::Error;

/// How often a device write is tried before its failure ends the run. A failure that passes, as of a busy bus, mostly
/// has passed by then, and a lasting one is told soon.
pub const TRIES: u32 = 4;

/// What one line of a script does.
#[derive(Clone, Copy, Debug, PartialEq, Eq)]
pub enum Act {
    /// A strict change joins the pending batch.
    Command(Command),
    /// A change that doesn't ask what is there joins the pending batch, which is settled over the set from then on.
    Ask(Request),
    /// The changes from here to the commit make the whole new set.
    All,
    /// A key is looked up after each later write of a commit.
    Probe(Key),
    /// A packet is looked up.
    Packet(Key),
    /// The pending batch is committed.
    Commit,
    /// The pending batch is committed, and taken back right after so many writes where it has more.
    Trial(u32),
    /// The pending batch is committed, and where it has more than so many writes another manager goes on behind these.
    Crash(u32),
}

/// Why an act isn't carried out to its end.
#[derive(Clone, Copy, Debug, PartialEq, Eq, Error)]
pub enum ActFault {
    /// As many changes are pending as may wait, 4,096 or 1,048,576. Nothing has changed.
    #[error("batch full")]
    BatchFull,
    /// A whole new set can't be begun while changes are pending. Nothing has changed.
    #[error("changes pending")]
    ChangesPending,
    /// 16 keys are probed. Nothing has changed.
    #[error("too many probes")]
    ProbesFull,
    /// A commit is unfinished, since the device failed. Nothing has changed.
    #[error("a commit is unfinished, with {left} writes to make")]
    Held {
        /// The writes that are left to make.
        left: u64,
    },
    /// It was taken, and stopped.
    #[error("{0}")]
    Stopped(RunFault),
}

/// What stops an act that was taken, or a commit that is gone on with.
#[derive(Clone, Copy, Debug, PartialEq, Eq, Error)]
pub enum RunFault {
    /// The sink failed.
    #[error("the report can't be written")]
    Sink,
    /// The device failed, at each try of one write.
    #[error("the device can't be written")]
    Device,
    /// Want of memory.
    #[error("out of memory")]
    Memory,
}

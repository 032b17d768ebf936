//! The lines of a report.
//! What is said of a sink's bytes (`WritesLine`) holds of either count of them: of what it tells, and of what it
//! accepted.
ghost use Rattle.std.specs.Prelude.{◌≡◌, ◌<◌, [], ◌∷◌, ◌++◌, length};
ghost use Rattle.replay.specs.Text.{packet_line, probe_line, write_line, named_line, drain_line, aborted_line, accepted_line, early_line, restarted_line, refused_line, end_line, yes_line, no_line};
ghost use Rattle.report_lines.specs.Told.{verdict_told};
ghost use Rattle.report_lines.specs.Outside.{WritesLine};

use crate::Family;
use batch_order::{Done, Rejection};
use report_lines::{Deed, LINE_ROOM, ReportLine};
use rule_model::Rank;
use script_lines::{Failed, Sink};
use tcam_device::Write;

/// The numbers of a run that came to its end: rules of the set, their entries, device writes, and the changes that
/// are pending.
#[derive(Clone, Copy, Debug, PartialEq, Eq)]
pub struct Totals {
    pub rules: u32,
    pub entries: u32,
    pub writes: u64,
    pub pending: u32,
}

// The line of an accepted commit.
fn accepted(commit: u32, done: &Done) -> ReportLine
    ensures text { result ++ 10 ∷ [] ≡ accepted_line commit done.now }
    ensures len { length result < LINE_ROOM }
{
    ReportLine::new("commit")
        .number(u64::from(commit))
        .word("ok")
        .word("writes")
        .number(done.writes)
        .word("words")
        .number(u64::from(done.words))
        .word("most")
        .number(u64::from(done.most))
        .word("span")
        .number(u64::from(done.span))
}

// The line of removals that went before the rest of a commit.
fn early(commit: u32, done: &Done) -> ReportLine
    ensures text { result ++ 10 ∷ [] ≡ early_line commit done.now }
    ensures len { length result < LINE_ROOM }
{
    ReportLine::new("commit")
        .number(u64::from(commit))
        .word("early")
        .word("writes")
        .number(done.writes)
}

// The line of a commit that was taken back.
fn aborted(commit: u32, writes: u64) -> ReportLine
    ensures text { result ++ 10 ∷ [] ≡ aborted_line commit writes }
    ensures len { length result < LINE_ROOM }
{
    ReportLine::new("commit")
        .number(u64::from(commit))
        .word("aborted")
        .word("writes")
        .number(writes)
}

// The line of a commit that another manager went on with.
fn restarted(commit: u32, after: u32, writes: u64) -> ReportLine
    ensures text { result ++ 10 ∷ [] ≡ restarted_line commit after writes }
    ensures len { length result < LINE_ROOM }
{
    ReportLine::new("commit")
        .number(u64::from(commit))
        .word("restarted")
        .word("after")
        .number(u64::from(after))
        .word("writes")
        .number(writes)
}

// The line of a refused commit.
fn refused(commit: u32, family: Family, rejection: &Rejection) -> ReportLine
    ensures text { result ++ 10 ∷ [] ≡ refused_line family commit (verdict_told rejection.now) }
    ensures len { length result < LINE_ROOM }
{
    ReportLine::new("commit")
        .number(u64::from(commit))
        .word("refused")
        .reason(family, rejection)
}

// The line of a run that came to its end.
fn end(totals: &Totals) -> ReportLine
    ensures text { result ++ 10 ∷ [] ≡ end_line totals.now.rules totals.now.entries totals.now.writes totals.now.pending }
    ensures len { length result < LINE_ROOM }
{
    ReportLine::new("end")
        .word("rules")
        .number(u64::from(totals.rules))
        .word("entries")
        .number(u64::from(totals.entries))
        .word("writes")
        .number(totals.writes)
        .word("pending")
        .number(u64::from(totals.pending))
}

/// Writes what the set answers a packet: the name of the rule found and its result, or `none`. Takes no memory.
/// Where the sink fails, a part of the line was taken, perhaps none or all of it.
pub fn write_packet<K: Sink>(
    sink: &mut K,
    family: Family,
    found: Option<(Rank, u32)>,
) -> Result<(), Failed>
    ensures { WritesLine K.taken K.accepted K.faults sink.old sink.new (packet_line family found) result }
{
    ReportLine::new("packet").answer(family, found).write(sink)
}

/// Writes what the device answers a probe after a write of a commit, by the numbers of write and probe, each from 1.
/// Takes no memory. Where the sink fails, a part of the line was taken, perhaps none or all of it.
pub fn write_probe<K: Sink>(
    sink: &mut K,
    family: Family,
    number: u64,
    probe: u32,
    found: Option<(Rank, u32)>,
) -> Result<(), Failed>
    ensures { WritesLine K.taken K.accepted K.faults sink.old sink.new (probe_line family number probe found) result }
{
    ReportLine::new("w")
        .number(number)
        .word("p")
        .number(u64::from(probe))
        .answer(family, found)
        .write(sink)
}

/// Writes the trace line of a write of a commit, by its number, from 1. Takes no memory. Where the sink fails, a part
/// of the line was taken, perhaps none or all of it.
pub fn write_trace<K: Sink>(
    sink: &mut K,
    family: Family,
    number: u64,
    write: &Write,
) -> Result<(), Failed>
    ensures { WritesLine K.taken K.accepted K.faults sink.old sink.new (write_line family number write.now) result }
{
    ReportLine::new("w")
        .number(number)
        .device_write(family, write)
        .write(sink)
}

/// Writes the trace line of a write of a commit by what it does, by its number, from 1. Takes no memory. Where the sink
/// fails, a part of the line was taken, perhaps none or all of it.
pub fn write_named<K: Sink>(
    sink: &mut K,
    family: Family,
    number: u64,
    deed: &Deed,
) -> Result<(), Failed>
    ensures { WritesLine K.taken K.accepted K.faults sink.old sink.new (named_line family number deed.now) result }
{
    ReportLine::new("w")
        .number(number)
        .deed(family, deed)
        .write(sink)
}

/// Writes the trace line of a drain of a commit, behind so many of its writes. Takes no memory. Where the sink fails, a
/// part of the line was taken, perhaps none or all of it.
pub fn write_drain<K: Sink>(sink: &mut K, number: u64) -> Result<(), Failed>
    ensures { WritesLine K.taken K.accepted K.faults sink.old sink.new (drain_line number) result }
{
    ReportLine::new("w")
        .number(number)
        .word("drain")
        .write(sink)
}

/// Writes the line of an accepted commit, by its number, from 1, and the numbers of what it did. Takes no memory.
/// Where the sink fails, a part of the line was taken, perhaps none or all of it.
pub fn write_accepted<K: Sink>(sink: &mut K, commit: u32, done: &Done) -> Result<(), Failed>
    ensures { WritesLine K.taken K.accepted K.faults sink.old sink.new (accepted_line commit done.now) result }
{
    accepted(commit, done).write(sink)
}

/// Writes the line of removals that went before the rest of a commit, by the number of theirs, from 1, and what they did.
/// Takes no memory. Where the sink fails, a part of the line was taken, perhaps none or all of it.
pub fn write_early<K: Sink>(sink: &mut K, commit: u32, done: &Done) -> Result<(), Failed>
    ensures { WritesLine K.taken K.accepted K.faults sink.old sink.new (early_line commit done.now) result }
{
    early(commit, done).write(sink)
}

/// Writes the line of a commit that was taken back, by its number, from 1, and its writes both ways. Takes no memory.
/// Where the sink fails, a part of the line was taken, perhaps none or all of it.
pub fn write_aborted<K: Sink>(sink: &mut K, commit: u32, writes: u64) -> Result<(), Failed>
    ensures { WritesLine K.taken K.accepted K.faults sink.old sink.new (aborted_line commit writes) result }
{
    aborted(commit, writes).write(sink)
}

/// Writes the line of a commit that another manager went on with, by its number, from 1, the writes before that, and
/// all of its writes. Takes no memory. Where the sink fails, a part of the line was taken, perhaps none or all of it.
pub fn write_restarted<K: Sink>(
    sink: &mut K,
    commit: u32,
    after: u32,
    writes: u64,
) -> Result<(), Failed>
    ensures { WritesLine K.taken K.accepted K.faults sink.old sink.new (restarted_line commit after writes) result }
{
    restarted(commit, after, writes).write(sink)
}

/// Writes the line of a refused commit, by its number, from 1, and the reason. Takes no memory. Where the sink fails, a
/// part of the line was taken, perhaps none or all of it.
pub fn write_refused<K: Sink>(
    sink: &mut K,
    commit: u32,
    family: Family,
    rejection: &Rejection,
) -> Result<(), Failed>
    ensures { WritesLine K.taken K.accepted K.faults sink.old sink.new (refused_line family commit (verdict_told rejection.now)) result }
{
    refused(commit, family, rejection).write(sink)
}

/// Writes the last line of a run that came to its end. Takes no memory. Where the sink fails, a part of the line was
/// taken, perhaps none or all of it.
pub fn write_end<K: Sink>(sink: &mut K, totals: &Totals) -> Result<(), Failed>
    ensures { WritesLine K.taken K.accepted K.faults sink.old sink.new (end_line totals.now.rules totals.now.entries totals.now.writes totals.now.pending) result }
{
    end(totals).write(sink)
}

/// Writes what is told of a trace that is orderly: how many of its commits were accepted, and how many device writes
/// it has. Takes no memory. Where the sink fails, a part of the line was taken, perhaps none or all of it.
pub fn write_yes<K: Sink>(sink: &mut K, commits: u64, writes: u64) -> Result<(), Failed>
    ensures { WritesLine K.taken K.accepted K.faults sink.old sink.new (yes_line commits writes) result }
{
    ReportLine::new("yes")
        .word("commits")
        .number(commits)
        .word("writes")
        .number(writes)
        .write(sink)
}

/// Writes what is told of a trace that isn't, by its first line that breaks the order, counted from 1. Takes no memory.
/// Where the sink fails, a part of the line was taken, perhaps none or all of it.
pub fn write_no<K: Sink>(sink: &mut K, line: u64) -> Result<(), Failed>
    ensures { WritesLine K.taken K.accepted K.faults sink.old sink.new (no_line line) result }
{
    ReportLine::new("no").word("line").number(line).write(sink)
}

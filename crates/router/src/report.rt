//! The lines of a router's report.

ghost use Rattle.std.specs.Prelude.{◌≡◌, ◌<◌, true, [], ◌∷◌, ◌++◌, if◌then◌else◌, OnErr, length};
ghost use Rattle.report_lines.specs.Told.{verdict_told, with_words};
ghost use Rattle.report_lines.specs.Outside.{WritesLine};
ghost use Rattle.router.specs.Text.{accepted_line, action_line, end_line, family_of, packet_line, part_words, refused_line, side_word};

use crate::Side;
use report_lines::{Family, LINE_ROOM, ReportLine};
use rule_model::{IpVersion, Rank};
use script_lines::{Failed, Sink};
use split_device::{SplitAction, SplitWrite};
use split_order::Rejection;
use tcam_device::Write;

/// The numbers of a commit that was made: the writes of each table, and the drains of both.
#[derive(Clone, Copy, Debug, PartialEq, Eq)]
pub(crate) struct CommitNumbers {
    pub(crate) listed: u64,
    pub(crate) routed: u64,
    pub(crate) drains: u64,
}

/// What is told of the parts and drains of a table: a line of each, where a trace is wanted.
#[derive(Clone, Copy)]
pub(crate) struct PartsTold {
    pub(crate) trace: bool,
    pub(crate) version: IpVersion,
    pub(crate) side: Side,
}

/// The numbers of a run that came to its end: the rules of each table, the device writes, and the changes that are
/// pending.
#[derive(Clone, Copy, Debug, PartialEq, Eq)]
pub(crate) struct Totals {
    pub(crate) listed: u32,
    pub(crate) routed: u32,
    pub(crate) writes: u128,
    pub(crate) pending: u32,
}

// The name of a table, as a refusal has it.
fn word_of(side: Side) -> &'static str
    ensures word { result.now ≡ side_word side }
    ensures len { length result.now < 6 }
{
    match side {
        Side::List => "list",
        Side::Routes => "route",
    }
}

// How the rules of a table are named, of a router of this version of IP.
fn naming(version: IpVersion, side: Side) -> Family
    ensures { result ≡ family_of version side }
{
    match (version, side) {
        (IpVersion::V4, Side::List) => Family::Acl,
        (IpVersion::V4, Side::Routes) => Family::Route,
        (IpVersion::V6, Side::List) => Family::Acl6,
        (IpVersion::V6, Side::Routes) => Family::Route6,
    }
}

// The line of a packet.
fn packet(
    version: IpVersion,
    listed: Option<(Rank, u32)>,
    routed: Option<(Rank, u32)>,
) -> ReportLine
    ensures text { result ++ 10 ∷ [] ≡ packet_line version listed routed }
    ensures len { length result < LINE_ROOM }
{
    ReportLine::new("packet")
        .word("list")
        .answer(naming(version, Side::List), listed)
        .word("route")
        .answer(naming(version, Side::Routes), routed)
}

// The line of a commit that was made.
fn accepted(commit: u32, made: &CommitNumbers) -> ReportLine
    ensures text { result ++ 10 ∷ [] ≡ accepted_line commit made.now.listed made.now.routed made.now.drains }
    ensures len { length result < LINE_ROOM }
{
    ReportLine::new("commit")
        .number(u64::from(commit))
        .word("ok")
        .word("list")
        .word("writes")
        .number(made.listed)
        .word("route")
        .word("writes")
        .number(made.routed)
        .word("drains")
        .number(made.drains)
}

// The line of a refused commit.
fn refused(version: IpVersion, side: Side, commit: u32, rejection: &Rejection) -> ReportLine
    ensures text { result ++ 10 ∷ [] ≡ refused_line version side commit (verdict_told rejection.now) }
    ensures len { length result < LINE_ROOM }
{
    ReportLine::new("commit")
        .number(u64::from(commit))
        .word("refused")
        .word(word_of(side))
        .reason(naming(version, side), rejection)
}

// The line of a run that came to its end.
fn end(totals: &Totals) -> ReportLine
    ensures text { result ++ 10 ∷ [] ≡ end_line totals.now.listed totals.now.routed totals.now.writes totals.now.pending }
    ensures len { length result < LINE_ROOM }
{
    ReportLine::new("end")
        .word("list")
        .number(u64::from(totals.listed))
        .word("route")
        .number(u64::from(totals.routed))
        .word("writes")
        .long_number(totals.writes)
        .word("pending")
        .number(u64::from(totals.pending))
}

/// Writes what both tables answer a packet, by the version of IP of their rules. Takes no memory. Where the sink fails, a part
/// of the line was taken, perhaps none or all of it.
pub(crate) fn write_packet<K: Sink>(
    sink: &mut K,
    version: IpVersion,
    listed: Option<(Rank, u32)>,
    routed: Option<(Rank, u32)>,
) -> Result<(), Failed>
    ensures { WritesLine K.taken K.accepted K.faults sink.old sink.new (packet_line version listed routed) result }
{
    packet(version, listed, routed).write(sink)
}

/// Writes the line of a commit that was made, by its number, from 1, and its numbers. Takes no memory. Where the sink
/// fails, a part of the line was taken, perhaps none or all of it.
pub(crate) fn write_accepted<K: Sink>(
    sink: &mut K,
    commit: u32,
    made: &CommitNumbers,
) -> Result<(), Failed>
    ensures { WritesLine K.taken K.accepted K.faults sink.old sink.new (accepted_line commit made.now.listed made.now.routed made.now.drains) result }
{
    accepted(commit, made).write(sink)
}

/// Writes the line of a refused commit, by the version of IP of the rules, the table that refuses it, its number, from 1, and
/// the reason. Takes no memory. Where the sink fails, a part of the line was taken, perhaps none or all of it.
pub(crate) fn write_refused<K: Sink>(
    sink: &mut K,
    version: IpVersion,
    side: Side,
    commit: u32,
    rejection: &Rejection,
) -> Result<(), Failed>
    ensures { WritesLine K.taken K.accepted K.faults sink.old sink.new (refused_line version side commit (verdict_told rejection.now)) result }
{
    refused(version, side, commit, rejection).write(sink)
}

/// Writes the last line of a run that came to its end. Takes no memory. Where the sink fails, a part of the line was
/// taken, perhaps none or all of it.
pub(crate) fn write_end<K: Sink>(sink: &mut K, totals: &Totals) -> Result<(), Failed>
    ensures { WritesLine K.taken K.accepted K.faults sink.old sink.new (end_line totals.now.listed totals.now.routed totals.now.writes totals.now.pending) result }
{
    end(totals).write(sink)
}

// A line with a part of a write.
fn with_part(line: ReportLine, family: Family, part: &SplitWrite) -> ReportLine
    requires { length line < 30 }
    ensures text { result ≡ with_words line (part_words family part.now) }
    ensures len { length result < LINE_ROOM }
{
    match *part {
        SplitWrite::Slot(slot, Some((value, mask))) => line
            .word("slot")
            .number(u64::from(slot))
            .word("set")
            .lanes(family.version(), &value)
            .lanes(family.version(), &mask),
        SplitWrite::Slot(slot, None) => line.device_write(family, &Write::Slot(slot, None)),
        SplitWrite::Result(slot, tag, answer) => line
            .word("result")
            .number(u64::from(slot))
            .tag(family, tag)
            .number(u64::from(answer)),
        SplitWrite::Table(field, port, word) => {
            line.device_write(family, &Write::Table(field, port, word))
        }
    }
}

// The trace line of a part or a drain.
fn action(telling: &PartsTold, parts: u64, made: &SplitAction) -> ReportLine
    ensures text { result ++ 10 ∷ [] ≡ action_line telling.now.version telling.now.side parts made.now }
    ensures len { length result < LINE_ROOM }
{
    let line = ReportLine::new("w")
        .number(parts)
        .word(word_of(telling.side));
    match *made {
        SplitAction::Written(part) => {
            with_part(line, naming(telling.version, telling.side), &part)
        }
        SplitAction::Drained => line.word("drain"),
    }
}

/// Writes the trace line of a part that was made, by its number among those of its table in the commit, from 1, or of a
/// drain, by the number of the part before it, 0 where there is none. Where no trace is wanted it writes nothing. Takes no
/// memory. Where the sink fails, a part of the line was taken, perhaps none or all of it; without a trace it is never asked.
pub(crate) fn tell_action<K: Sink>(
    sink: &mut K,
    telling: &PartsTold,
    parts: u64,
    made: &SplitAction,
) -> Result<(), Failed>
    ensures line { WritesLine K.taken K.accepted K.faults sink.old sink.new (if telling.now.trace then action_line telling.now.version telling.now.side parts made.now else []) result }
    ensures wanted { OnErr result (telling.now.trace ≡ true) }
{
    if telling.trace {
        action(telling, parts, made).write(sink)
    } else {
        Ok(())
    }
}

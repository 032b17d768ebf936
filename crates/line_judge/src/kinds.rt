//! The kinds of lines, and where a trace is behind one of a kind.

ghost use Rattle.std.specs.Prelude.{◌≡◌, ◌+◌, ◌-◌, max, nat_eq};
ghost use Rattle.trace_check.specs.Places as places;
ghost use Rattle.driver_trace.specs.DriverLines as lines;
ghost use Rattle.line_judge.specs.Kinds.{kind_as};

use driver_trace::DriverLine;
use trace_check::Place;
use trace_file::TraceLine;

/// The most commands of a commit (`trace_commands` in definitions).
const MOST_COMMANDS: u32 = 12_288;

/// What a line is, by which it may stand somewhere.
#[derive(Clone, Copy, Debug, PartialEq, Eq)]
pub(crate) enum Kind {
    Head,
    Begin(u32),
    Change,
    /// An event, which names a slot, or none.
    Happen(Option<u64>),
    Finish(u32),
    Refuse(u32),
    End,
}

/// The kind of a line.
pub(crate) fn kind_of(line: &DriverLine) -> Kind
    ensures { kind_as result ≡ lines.driver_kind line.now }
{
    match line {
        DriverLine::Common(line) => common_kind(line),
        DriverLine::Move { from, to, count } => {
            Kind::Happen(Some(last_moved(*from, *to, *count)))
        }
        DriverLine::Back(n) => Kind::Finish(*n),
    }
}

/// The kind of a line that our own traces have too.
fn common_kind(line: &TraceLine) -> Kind
    ensures { kind_as result ≡ places.kind_of line.now }
{
    match line {
        TraceLine::Head { .. } => Kind::Head,
        TraceLine::Commit(n) => Kind::Begin(*n),
        TraceLine::Add(_) => Kind::Change,
        TraceLine::Set(_, _) => Kind::Change,
        TraceLine::Del(_) => Kind::Change,
        TraceLine::Put(slot, _) => Kind::Happen(Some(u64::from(*slot))),
        TraceLine::Erase(slot) => Kind::Happen(Some(u64::from(*slot))),
        TraceLine::Table(_, _, _) => Kind::Happen(None),
        TraceLine::Drain => Kind::Happen(None),
        TraceLine::Done(n) => Kind::Finish(*n),
        TraceLine::Refused(n) => Kind::Refuse(*n),
        TraceLine::End(_) => Kind::End,
        TraceLine::Fault(_) => Kind::End,
    }
}

/// The greatest slot that a move names.
fn last_moved(from: u32, to: u32, count: u32) -> u64
    ensures { result ≡ lines.last_moved from to count }
{
    u64::from(greater(from, to)) + u64::from(less_one(count))
}

/// The greater of two numbers.
fn greater(one: u32, other: u32) -> u32
    ensures { result ≡ max one other }
{
    if one < other { other } else { one }
}

/// One less, where that is a number.
fn less_one(count: u32) -> u32
    ensures { result ≡ count - 1 }
{
    if count == 0 { 0 } else { count - 1 }
}

/// Where a trace is after a line of a kind, over so many slots, if it may stand there.
pub(crate) fn place_behind(slots: u32, place: Place, kind: Kind) -> Option<Place>
    ensures { result ≡ places.place_by slots place (kind_as kind) }
{
    match place {
        Place::AtStart => behind_start(kind),
        Place::Between(commits) => behind_commits(commits, kind),
        Place::InBatch(commit, commands) => behind_command(slots, commit, commands, kind),
        Place::InEvents(commit) => behind_event(slots, commit, kind),
        Place::AtEnd => None,
    }
}

/// A trace begins with its head.
fn behind_start(kind: Kind) -> Option<Place>
    ensures { result ≡ places.place_by 0 Place.AtStart (kind_as kind) }
{
    match kind {
        Kind::Head => Some(Place::Between(0)),
        _ => None,
    }
}

/// Behind a commit comes the next one, which may be refused, or the last line.
fn behind_commits(commits: u32, kind: Kind) -> Option<Place>
    ensures { result ≡ places.place_by 0 (Place.Between commits) (kind_as kind) }
{
    match kind {
        Kind::Begin(n) => only_if(is_next(commits, n), Place::InBatch(n, 0)),
        Kind::Refuse(n) => only_if(is_next(commits, n), Place::Between(n)),
        Kind::End => Some(Place::AtEnd),
        _ => None,
    }
}

/// Behind the commands of a commit come more of them, up to 12,288, or its events, or it is finished.
fn behind_command(slots: u32, commit: u32, commands: u32, kind: Kind) -> Option<Place>
    ensures { result ≡ places.place_by slots (Place.InBatch commit commands) (kind_as kind) }
{
    match kind {
        Kind::Change => one_more(commit, commands),
        _ => behind_event(slots, commit, kind),
    }
}

/// One command more of a commit.
fn one_more(commit: u32, commands: u32) -> Option<Place>
    ensures { result ≡ places.place_by 0 (Place.InBatch commit commands) places.Changes }
{
    if commands < MOST_COMMANDS {
        Some(Place::InBatch(commit, commands + 1))
    } else {
        None
    }
}

/// Behind an event of a commit comes another one, of a slot in use where it names one, or the commit is finished.
fn behind_event(slots: u32, commit: u32, kind: Kind) -> Option<Place>
    ensures { result ≡ places.place_by slots (Place.InEvents commit) (kind_as kind) }
{
    match kind {
        Kind::Happen(Some(slot)) => only_if(slot < u64::from(slots), Place::InEvents(commit)),
        Kind::Happen(None) => Some(Place::InEvents(commit)),
        Kind::Finish(n) => only_if(n == commit, Place::Between(commit)),
        _ => None,
    }
}

/// A place, if a test passes.
fn only_if(test: bool, place: Place) -> Option<Place>
    ensures { result ≡ places.only_if test place }
{
    if test { Some(place) } else { None }
}

/// Whether a number is the next one behind another.
fn is_next(before: u32, number: u32) -> bool
    ensures { result ≡ nat_eq number (before + 1) }
{
    number > 0 && number - 1 == before
}

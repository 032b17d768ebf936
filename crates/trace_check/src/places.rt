//! Where a trace is after some lines, and which lines may stand there.

ghost use Rattle.std.specs.Prelude.{◌≡◌, ◌+◌, nat_eq};
ghost use Rattle.trace_check.specs.Places as places;
ghost use Rattle.trace_check.specs.Places.{place_after};

use trace_file::TraceLine;

/// The most commands of a commit (`trace_commands` in definitions).
const MOST_COMMANDS: u32 = 12_288;

/// Where a trace is after some lines.
#[derive(Clone, Copy, Debug, PartialEq, Eq)]
pub enum Place {
    AtStart,
    /// Between two commits: how many there were, refused ones too.
    Between(u32),
    /// Among the commands of a commit: its number, and how many there were.
    InBatch(u32, u32),
    /// Among the events of a commit, by its number.
    InEvents(u32),
    AtEnd,
}

impl Place {
    /// Where a trace is after one line more, over so many slots, if the line may stand there.
    pub(crate) fn after(self, slots: u32, line: &TraceLine) -> Option<Place>
        ensures { result ≡ place_after slots self line.now }
    {
        match self {
            Place::AtStart => behind_start(line),
            Place::Between(commits) => behind_commits(commits, line),
            Place::InBatch(commit, commands) => behind_command(slots, commit, commands, line),
            Place::InEvents(commit) => behind_event(slots, commit, line),
            Place::AtEnd => None,
        }
    }
}

/// A trace begins with its head.
fn behind_start(line: &TraceLine) -> Option<Place>
    ensures { result ≡ place_after 0 Place.AtStart line.now }
{
    match line {
        TraceLine::Head { .. } => Some(Place::Between(0)),
        _ => None,
    }
}

/// Behind a commit comes the next one, which may be refused, or the last line.
fn behind_commits(commits: u32, line: &TraceLine) -> Option<Place>
    ensures { result ≡ place_after 0 (Place.Between commits) line.now }
{
    match line {
        TraceLine::Commit(n) => only_if(is_next(commits, *n), Place::InBatch(*n, 0)),
        TraceLine::Refused(n) => only_if(is_next(commits, *n), Place::Between(*n)),
        TraceLine::End(_) => Some(Place::AtEnd),
        TraceLine::Fault(_) => Some(Place::AtEnd),
        _ => None,
    }
}

/// Behind the commands of a commit come more of them, up to 12,288, or its events, or it is done.
fn behind_command(slots: u32, commit: u32, commands: u32, line: &TraceLine) -> Option<Place>
    ensures { result ≡ place_after slots (Place.InBatch commit commands) line.now }
{
    match line {
        TraceLine::Add(_) => one_more(commit, commands),
        TraceLine::Set(_, _) => one_more(commit, commands),
        TraceLine::Del(_) => one_more(commit, commands),
        _ => behind_event(slots, commit, line),
    }
}

/// One command more of a commit.
fn one_more(commit: u32, commands: u32) -> Option<Place>
    ensures { result ≡ places.place_by 0 (Place.InBatch commit commands) places.Changes }
{
    if commands < MOST_COMMANDS {
        Some(Place::InBatch(commit, commands + 1))
    } else {
        None
    }
}

/// Behind an event of a commit comes another one, of a slot in use where it names one, or the commit is done.
fn behind_event(slots: u32, commit: u32, line: &TraceLine) -> Option<Place>
    ensures { result ≡ place_after slots (Place.InEvents commit) line.now }
{
    match line {
        TraceLine::Put(slot, _) => only_if(*slot < slots, Place::InEvents(commit)),
        TraceLine::Erase(slot) => only_if(*slot < slots, Place::InEvents(commit)),
        TraceLine::Table(_, _, _) => Some(Place::InEvents(commit)),
        TraceLine::Drain => Some(Place::InEvents(commit)),
        TraceLine::Done(n) => only_if(*n == commit, Place::Between(commit)),
        _ => None,
    }
}

/// A place, if a test passes.
fn only_if(test: bool, place: Place) -> Option<Place>
    ensures { result ≡ places.only_if test place }
{
    if test { Some(place) } else { None }
}

/// Whether a number is the next one behind another.
fn is_next(before: u32, number: u32) -> bool
    ensures { result ≡ nat_eq number (before + 1) }
{
    number > 0 && number - 1 == before
}

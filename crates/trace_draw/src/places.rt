//! Where a trace is after some lines, and which lines may stand there: those that `tcam verify` lets stand.

use trace_file::TraceLine;

/// The most commands of a commit.
const MOST_COMMANDS: u32 = 12_288;

/// Where a trace is after some lines.
#[derive(Clone, Copy, Debug, PartialEq, Eq)]
pub(crate) enum Place {
    AtStart,
    /// Between two commits: how many there were, refused ones too.
    Between(u32),
    /// Among the commands of a commit: its number, and how many there were.
    InBatch(u32, u32),
    /// Among the events of a commit, by its number.
    InEvents(u32),
    AtEnd,
}

impl Place {
    /// Where a trace is after one line more, over so many slots, if the line may stand there.
    pub(crate) fn after(self, slots: u32, line: &TraceLine) -> Option<Place> {
        match self {
            Place::AtStart => behind_start(line),
            Place::Between(commits) => behind_commits(commits, line),
            Place::InBatch(commit, commands) => behind_command(slots, commit, commands, line),
            Place::InEvents(commit) => behind_event(slots, commit, line),
            Place::AtEnd => None,
        }
    }
}

/// A trace begins with its head.
fn behind_start(line: &TraceLine) -> Option<Place> {
    match line {
        TraceLine::Head { .. } => Some(Place::Between(0)),
        _ => None,
    }
}

/// Behind a commit comes the next one, which may be refused, or the last line.
fn behind_commits(commits: u32, line: &TraceLine) -> Option<Place> {
    match line {
        TraceLine::Commit(n) => only_if(is_next(commits, *n), Place::InBatch(*n, 0)),
        TraceLine::Refused(n) => only_if(is_next(commits, *n), Place::Between(*n)),
        TraceLine::End(_) | TraceLine::Fault(_) => Some(Place::AtEnd),
        _ => None,
    }
}

/// Behind the commands of a commit come more of them, up to 12,288, or its events, or it is done.
fn behind_command(slots: u32, commit: u32, commands: u32, line: &TraceLine) -> Option<Place> {
    match line {
        TraceLine::Add(_) | TraceLine::Set(_, _) | TraceLine::Del(_) => {
            if commands < MOST_COMMANDS {
                Some(Place::InBatch(commit, commands + 1))
            } else {
                None
            }
        }
        _ => behind_event(slots, commit, line),
    }
}

/// Behind an event of a commit comes another one, of a slot in use where it names one, or the commit is done.
fn behind_event(slots: u32, commit: u32, line: &TraceLine) -> Option<Place> {
    match line {
        TraceLine::Put(slot, _) | TraceLine::Erase(slot) => {
            only_if(*slot < slots, Place::InEvents(commit))
        }
        TraceLine::Table(_, _, _) | TraceLine::Drain => Some(Place::InEvents(commit)),
        TraceLine::Done(n) => only_if(*n == commit, Place::Between(commit)),
        _ => None,
    }
}

/// A place, if a test passes.
fn only_if(test: bool, place: Place) -> Option<Place> {
    if test { Some(place) } else { None }
}

/// Whether a number is the next one behind another.
fn is_next(before: u32, number: u32) -> bool {
    number > 0 && number - 1 == before
}

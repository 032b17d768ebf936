//! How far a commit came behind a write of a slot: of the tasks that the write touches by what is done of them, of all
//! others as before.

ghost use Rattle.std.specs.Prelude.{◌≡◌, ◌+◌, ◌<◌, ◌≤◌, ◌^◌, ◌++◌, ℕ, List, IfSome, IsNone, length, map};
ghost use Rattle.readback.specs.Progress.{AreParted, IsOutOfTurn};
ghost use Rattle.readback.specs.Tasks as tasks;
ghost use Rattle.readback.specs.Tasks.{Task};
ghost use Rattle.trace_check.specs.Behind as behind;
ghost use Rattle.trace_check.specs.Behind.{ArePlacedTasks, done_behind, entries_in, task_by_kind};

use crate::known::{Known, same_match};
use crate::placed::Placed;
use crate::slots::{copy_of, standing};

/// How many tasks are done, and how many behind them are left. Three lists may have more elements than a `u64` counts.
#[derive(Clone, Copy)]
pub(crate) struct Progress {
    pub(crate) done: u128,
    pub(crate) left: u128,
}

/// What a task does to its piece.
#[derive(Clone, Copy)]
pub(crate) enum TaskKind {
    /// It goes in.
    Insert,
    /// It gets another result.
    Rewrite,
    /// It goes out.
    Erase,
}

/// Counts the tasks of some pieces behind earlier ones, where a slot was written in which this stood before, and so many
/// tasks were done before. None where one is done behind one that isn't.
pub(crate) fn count(
    places: &Placed,
    at: usize,
    before: &Option<Known>,
    kind: TaskKind,
    pieces: &[Known],
    were_done: u128,
    earlier: Progress,
) -> Option<Progress>
    requires inside { at < length places.now }
    requires few { earlier.done + earlier.left ≤ 2 ^ 66 }
    ensures number { IfSome result (λ came. came.done + came.left ≡ earlier.done + earlier.left + length pieces.now) }
    ensures parted { IfSome result (λ came. ArePlacedTasks places.now at before.now kind pieces.now (earlier.done + earlier.left) were_done
        → (first : List Task) → AreParted (entries_in places.now) first earlier.done earlier.left
        → AreParted (entries_in places.now) (first ++ map (task_by_kind kind) pieces.now) came.done came.left) }
    ensures early { IsNone result → ArePlacedTasks places.now at before.now kind pieces.now (earlier.done + earlier.left) were_done
        → (first later : List Task) → AreParted (entries_in places.now) first earlier.done earlier.left
        → (priority : ℕ) × IsOutOfTurn (entries_in places.now) (first ++ (map (task_by_kind kind) pieces.now ++ later)) priority }
{
    let mut came = earlier;
    for piece in pieces {
        let was_done = came.done + came.left < were_done;
        if !is_done(places, at, before, kind, piece, was_done) {
            came.left += 1;
        } else if came.left == 0 {
            came.done += 1;
        } else {
            return None;
        }
    }
    Some(came)
}

/// Whether a task of a piece is done behind a write, before which it was done or wasn't.
fn is_done(
    places: &Placed,
    at: usize,
    before: &Option<Known>,
    kind: TaskKind,
    piece: &Known,
    was_done: bool,
) -> bool
    requires { at < length places.now }
    ensures { result ≡ done_behind places.now at before.now was_done (task_by_kind kind piece.now) }
{
    if !is_of(before, piece) && !is_of(places.at(at), piece) {
        return was_done;
    }
    match kind {
        TaskKind::Insert => stands(places, piece),
        TaskKind::Rewrite => is_told(places, piece),
        TaskKind::Erase => !stands(places, piece),
    }
}

/// Whether a slot holds an entry of the piece, whatever its result.
fn is_of(place: &Option<Known>, piece: &Known) -> bool
    ensures { result ≡ behind.is_of piece.now place.now }
{
    match place {
        None => false,
        Some(held) => same_match(&piece.entry, &held.entry),
    }
}

/// Whether some slot holds an entry of the piece, whatever its result.
fn stands(places: &Placed, piece: &Known) -> bool
    ensures { result ≡ tasks.stands_in (entries_in places.now) piece.now }
{
    copy_of(places, places.len(), &piece.entry).is_some()
}

/// Whether some slot holds the piece's entry with its result.
fn is_told(places: &Placed, piece: &Known) -> bool
    ensures { result ≡ tasks.is_told_in (entries_in places.now) piece.now }
{
    standing(places, &piece.entry).is_some()
}

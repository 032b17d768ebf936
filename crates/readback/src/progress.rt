//! How far a commit came: its tasks in their order, and which of them are done.

ghost use Rattle.std.specs.Prelude.{◌≡◌, ◌+◌, ◌<◌, ◌≤◌, ◌^◌, ◌++◌, List, IfOk, IfErr, length, map};
ghost use Rattle.readback.specs.Tasks as tasks;
ghost use Rattle.readback.specs.Tasks.{Task, tasks_of};
ghost use Rattle.readback.specs.Progress.{AreParted, IsOutOfTurn, task_of};

use crate::commit::{Coded, Commit};
use crate::standing::{is_told, stands};
use rule_model::{Entry, Rank};

/// How many tasks are done, and how many behind them are left. Three lists may have more elements than a `u64` counts.
#[derive(Clone, Copy)]
pub(crate) struct Progress {
    pub(crate) done: u128,
    pub(crate) left: u128,
}

/// What a task does to its piece.
#[derive(Clone, Copy)]
pub(crate) enum Kind {
    /// It goes in.
    Insert,
    /// It gets another result.
    Rewrite,
    /// It goes out.
    Erase,
}

/// How many tasks of a commit are done, and how many are left, or the priority of one that is done behind one that
/// isn't.
pub(crate) fn count_tasks(held: &[Option<Entry>], commit: &Commit) -> Result<Progress, Rank>
    ensures parted { IfOk result (λ came. AreParted held.now (tasks_of commit.now) came.done came.left) }
    ensures early { IfErr result (λ priority. IsOutOfTurn held.now (tasks_of commit.now) priority) }
{
    let none = Progress { done: 0, left: 0 };
    let inserted = count(held, Kind::Insert, &commit.inserted, none)?;
    let rewritten = count(held, Kind::Rewrite, &commit.rewritten, inserted)?;
    count(held, Kind::Erase, &commit.erased, rewritten)
}

/// Counts the tasks of some pieces behind earlier ones.
fn count(
    held: &[Option<Entry>],
    kind: Kind,
    pieces: &[Coded],
    earlier: Progress,
) -> Result<Progress, Rank>
    requires few { earlier.done + earlier.left ≤ 2 ^ 66 }
    ensures number { IfOk result (λ came. came.done + came.left ≡ earlier.done + earlier.left + length pieces.now) }
    ensures parted { IfOk result (λ came. (before : List Task) → AreParted held.now before earlier.done earlier.left
        → AreParted held.now (before ++ map (task_of kind) pieces.now) came.done came.left) }
    ensures early { IfErr result (λ priority. (before later : List Task) → AreParted held.now before earlier.done earlier.left
        → IsOutOfTurn held.now (before ++ (map (task_of kind) pieces.now ++ later)) priority) }
{
    let mut came = earlier;
    for piece in pieces {
        if !is_done(held, kind, piece) {
            came.left += 1;
        } else if came.left == 0 {
            came.done += 1;
        } else {
            return Err(piece.rank());
        }
    }
    Ok(came)
}

/// Whether a task of a piece is done.
fn is_done(held: &[Option<Entry>], kind: Kind, piece: &Coded) -> bool
    ensures { result ≡ tasks.is_done held.now (task_of kind piece.now) }
{
    match kind {
        Kind::Insert => stands(held, piece),
        Kind::Rewrite => is_told(held, piece),
        Kind::Erase => !stands(held, piece),
    }
}

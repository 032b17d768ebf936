//! What a list of entries answers all words of a cube, if that is one answer; and what follows of three lists.

ghost use Rattle.std.specs.Prelude.{ℕ, ◌≡◌, ◌<◌, ◌↔◌, ◌⊎◌, IsTrue};
ghost use Rattle.rule_model.specs.RuleSet.{Answer};
ghost use Rattle.driver_trace.specs.Compared.{as_compared};
ghost use Rattle.driver_trace.specs.Judged.{IsWrong};
ghost use Rattle.leak_search.specs.Found as found;
ghost use Rattle.leak_search.specs.Found.{AnswerBy};
ghost use Rattle.leak_search.specs.Sought.{IsSettledAs};

use crate::Question;
use driver_trace::{Asked, Compared};
use rule_model::{Entry, Rank};
use word_cubes::{Cube, Extent, extent_of};

/// What is settled of a list's answer.
#[derive(Clone, Copy, Debug, PartialEq, Eq)]
pub(crate) enum Settled {
    /// It has this one for each word.
    Told(Option<(Rank, u32)>),
    /// The first entry tests this free bit of a lane.
    Open { lane: usize, bit: u32 },
}

/// What follows for a cube.
#[derive(Clone, Copy, Debug, PartialEq, Eq)]
pub(crate) enum Verdict {
    Right,
    Wrong,
    /// It has to be cut at this bit of a lane.
    Cut { lane: usize, bit: u32 },
}

/// What a list answers the words of a cube, by its first entry.
pub(crate) fn settle(entries: &[Entry], cube: &Cube) -> Settled
    ensures told { (told : Answer) → result ≡ Settled.Told told → AnswerBy cube.now entries.now told }
    ensures open { (lane bit : ℕ) → result ≡ Settled.Open lane bit → (lane < 11) × (bit < 32) }
{
    for entry in entries {
        match extent_of(entry, cube) {
            Extent::Misses => {}
            Extent::Hits => return Settled::Told(Some((entry.tag, entry.result))),
            Extent::Splits { lane, bit } => return Settled::Open { lane, bit },
        }
    }
    Settled::Told(None)
}

/// What follows where the device's answer is settled.
pub(crate) fn follows(
    question: Question,
    gets: &Option<(Rank, u32)>,
    old: Settled,
    new: Settled,
) -> Verdict
    requires old { (lane bit : ℕ) → old ≡ Settled.Open lane bit → (lane < 11) × (bit < 32) }
    requires new { (lane bit : ℕ) → new ≡ Settled.Open lane bit → (lane < 11) × (bit < 32) }
    ensures right { result ≡ Verdict.Right → (old_answer new_answer : Answer) → IsSettledAs old old_answer → IsSettledAs new new_answer
        → IsWrong question.by gets.now old_answer new_answer question.asked → ⊥ }
    ensures cut { (lane bit : ℕ) → result ≡ Verdict.Cut lane bit → (lane < 11) × (bit < 32) }
{
    match question.asked {
        Asked::OldOrNew => either(question.by, gets, old, new),
        Asked::New => only(question.by, gets, new),
        Asked::Old => only(question.by, gets, old),
        Asked::Nothing => Verdict::Right,
    }
}

/// What follows where one of two answers will do.
fn either(by: Compared, gets: &Option<(Rank, u32)>, old: Settled, new: Settled) -> Verdict
    requires old { (lane bit : ℕ) → old ≡ Settled.Open lane bit → (lane < 11) × (bit < 32) }
    requires new { (lane bit : ℕ) → new ≡ Settled.Open lane bit → (lane < 11) × (bit < 32) }
    ensures right { result ≡ Verdict.Right → (old_answer new_answer : Answer) → IsSettledAs old old_answer → IsSettledAs new new_answer
        → IsWrong by gets.now old_answer new_answer Asked.OldOrNew → ⊥ }
    ensures cut { (lane bit : ℕ) → result ≡ Verdict.Cut lane bit → (lane < 11) × (bit < 32) }
{
    let as_old = only(by, gets, old);
    let as_new = only(by, gets, new);
    joined(as_old, as_new)
}

/// What follows of two verdicts of which one will do: it is right, or has to be cut, where one of them says so.
fn joined(as_old: Verdict, as_new: Verdict) -> Verdict
    ensures { (result ≡ as_old) ⊎ (result ≡ as_new) }
{
    match as_old {
        Verdict::Right => as_old,
        Verdict::Wrong => as_new,
        Verdict::Cut { .. } => right_or(as_new, as_old),
    }
}

/// A verdict where it is that all is right, else the other one.
fn right_or(verdict: Verdict, other: Verdict) -> Verdict
    ensures { (result ≡ verdict) ⊎ (result ≡ other) }
{
    match verdict {
        Verdict::Right => verdict,
        _ => other,
    }
}

/// What follows where one answer is wanted.
fn only(by: Compared, gets: &Option<(Rank, u32)>, wanted: Settled) -> Verdict
    requires { (lane bit : ℕ) → wanted ≡ Settled.Open lane bit → (lane < 11) × (bit < 32) }
    ensures right { result ≡ Verdict.Right → (answer : Answer) → IsSettledAs wanted answer → as_compared by gets.now ≡ as_compared by answer }
    ensures cut { (lane bit : ℕ) → result ≡ Verdict.Cut lane bit → (lane < 11) × (bit < 32) }
{
    match wanted {
        Settled::Told(answer) => {
            if agree(by, gets, &answer) {
                Verdict::Right
            } else {
                Verdict::Wrong
            }
        }
        Settled::Open { lane, bit } => Verdict::Cut { lane, bit },
    }
}

/// Whether two answers agree, by what is compared of them.
pub fn agree(by: Compared, a: &Option<(Rank, u32)>, b: &Option<(Rank, u32)>) -> bool
    ensures { IsTrue result ↔ (as_compared by a.now ≡ as_compared by b.now) }
{
    are_same(by, a, b)
}

/// Whether two answers agree, by the test that definitions have.
fn are_same(by: Compared, a: &Option<(Rank, u32)>, b: &Option<(Rank, u32)>) -> bool
    ensures { result ≡ found.same_answer by a.now b.now }
{
    match a {
        None => is_nothing(b),
        Some(one) => is_other(by, one, b),
    }
}

/// Whether there is no answer.
fn is_nothing(answer: &Option<(Rank, u32)>) -> bool
    ensures { result ≡ found.is_nothing answer.now }
{
    match answer {
        None => true,
        Some(_) => false,
    }
}

/// Whether there is an answer that agrees with another one.
fn is_other(by: Compared, one: &(Rank, u32), b: &Option<(Rank, u32)>) -> bool
    ensures { result ≡ found.same_answer by (Some one.now) b.now }
{
    match b {
        None => false,
        Some(other) => same_told(by, one, other),
    }
}

/// Whether two answers agree that are the priority and the result of a rule.
pub(crate) fn same_told(by: Compared, one: &(Rank, u32), other: &(Rank, u32)) -> bool
    ensures { result ≡ found.same_told by one.now other.now }
{
    match by {
        Compared::Answers => one.0 == other.0 && one.1 == other.1,
        Compared::Results => one.1 == other.1,
    }
}

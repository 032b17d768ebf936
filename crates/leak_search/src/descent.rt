//! The search: a cube is judged whole, or cut in two.

ghost use Rattle.std.specs.Prelude.{◌≡◌, ◌<◌, ℕ, IfOk, IsTrue, List};
ghost use Rattle.rule_model.specs.declared.words.Word.{Word};
ghost use Rattle.word_cubes.specs.Cube.{IsWord, cube_holds};
ghost use Rattle.driver_trace.specs.Judged.{IsWrong};
ghost use Rattle.leak_search.specs.Found.{found_in};
ghost use Rattle.leak_search.specs.Sought.{IsClear, IsCutOf, IsStep, IsWrongAt};

use crate::alike::{best_cut, has_a_set};
use crate::narrowing::narrowed_lists;
use crate::settled::{Settled, Verdict, follows, settle};
use crate::tables::{PortTables, open_port, refined};
use crate::{AnswerLists, Question, Sought};
use rule_model::Rank;
use std::alloc::{AllocError, Global};
use word_cubes::{Cube, halves};

/// More often than a cube can be cut, one bit after the other.
const DEEPEST: u32 = 360;

/// A cube that is cut in two, with the entries that its words can find.
#[derive(Drop)]
pub(crate) struct CutCube {
    lists: AnswerLists,
    lower: Cube,
    upper: Cube,
}

/// How the search goes on in a cube.
#[derive(Drop)]
pub(crate) enum Step {
    Ends(Sought),
    Cuts(CutCube),
}

/// Seeks a key whose word is in the cube and that gets a wrong answer. It looks at no more cubes than there is room for,
/// which are taken from it: no clause says so. `Clear` says that there is none, and the others promise nothing.
pub fn search(
    alloc: Global,
    question: Question,
    tables: &PortTables,
    lists: &AnswerLists,
    cube: &Cube,
    room: &mut u32,
) -> Result<Sought, AllocError>
    ensures { result ≡ Ok Sought.Clear → IsClear question lists.now tables.now.src tables.now.dst cube.now }
{
    descend(alloc, question, tables, lists, cube, DEEPEST, room)
}

/// Likewise, where so many cuts may follow.
fn descend(
    alloc: Global,
    question: Question,
    tables: &PortTables,
    lists: &AnswerLists,
    cube: &Cube,
    depth: u32,
    room: &mut u32,
) -> Result<Sought, AllocError>
    ensures { result ≡ Ok Sought.Clear → IsClear question lists.now tables.now.src tables.now.dst cube.now }
{
    if depth == 0 {
        return Ok(Sought::TooMany);
    }
    if *room == 0 {
        return Ok(Sought::TooMany);
    }
    *room -= 1;
    let step = step_from(alloc, question, tables, lists, cube)?;
    match step {
        Step::Ends(sought) => Ok(sought),
        Step::Cuts(cut) => {
            let half = &cut.lower;
            let low = descend(alloc, question, tables, &cut.lists, half, depth - 1, room)?;
            match low {
                Sought::Clear => {
                    let half = &cut.upper;
                    let high = descend(alloc, question, tables, &cut.lists, half, depth - 1, room)?;
                    Ok(high)
                }
                _ => Ok(low),
            }
        }
    }
}

/// The next step in a cube.
fn step_from(
    alloc: Global,
    question: Question,
    tables: &PortTables,
    lists: &AnswerLists,
    cube: &Cube,
) -> Result<Step, AllocError>
    ensures { IfOk result (IsStep question lists.now tables.now.src tables.now.dst cube.now) }
{
    match refined(tables, cube) {
        None => Ok(Step::Ends(Sought::Clear)),
        Some(part) => step_in(alloc, question, lists, &part),
    }
}

/// The next step in a cube of which no more is known by the tables.
fn step_in(
    alloc: Global,
    question: Question,
    lists: &AnswerLists,
    part: &Cube,
) -> Result<Step, AllocError>
    ensures { IfOk result (λ step. (src dst : List ℕ) → IsStep question lists.now src dst part.now step) }
{
    let some = narrowed_lists(alloc, lists, part)?;
    match judged(question, &some, part) {
        Verdict::Right => Ok(Step::Ends(Sought::Clear)),
        Verdict::Wrong => Ok(wrong_in(some, part)),
        Verdict::Cut { lane, bit } => Ok(cut_in_two(some, part, lane, bit)),
    }
}

/// What follows for a cube all of whose words get a wrong answer. Where it tests a word of a port that may be one of several
/// few of them may be words of keys, so it is cut on.
fn wrong_in(lists: AnswerLists, part: &Cube) -> Step
    ensures { IsCutOf lists part.now result }
{
    match open_port(part) {
        None => Step::Ends(Sought::Leaks(*part)),
        Some((lane, bit)) => cut_in_two(lists, part, lane, bit),
    }
}

/// A cube is cut at a bit.
fn cut_in_two(lists: AnswerLists, part: &Cube, lane: usize, bit: u32) -> Step
    requires { (lane < 11) × (bit < 32) }
    ensures { IsCutOf lists part.now result }
{
    let (lower, upper) = halves(part, lane, bit);
    Step::Cuts(CutCube {
        lists,
        lower,
        upper,
    })
}

/// What follows for a cube.
fn judged(question: Question, lists: &AnswerLists, cube: &Cube) -> Verdict
    ensures right { result ≡ Verdict.Right → (word : Word) → IsWord word → IsTrue (cube_holds cube.now word) → IsWrongAt question lists.now word → ⊥ }
    ensures cut { (lane bit : ℕ) → result ≡ Verdict.Cut lane bit → (lane < 11) × (bit < 32) }
{
    if has_a_set(question, lists) {
        return Verdict::Right;
    }
    match best_cut(question, lists, cube) {
        Some((lane, bit)) => Verdict::Cut { lane, bit },
        None => judged_by_first(question, lists, cube),
    }
}

/// What follows from the first entries of the lists.
fn judged_by_first(question: Question, lists: &AnswerLists, cube: &Cube) -> Verdict
    ensures right { result ≡ Verdict.Right → (word : Word) → IsWord word → IsTrue (cube_holds cube.now word) → IsWrongAt question lists.now word → ⊥ }
    ensures cut { (lane bit : ℕ) → result ≡ Verdict.Cut lane bit → (lane < 11) × (bit < 32) }
{
    let entries = lists.device.as_slice();
    match settle(entries, cube) {
        Settled::Told(gets) => judged_where(question, gets, lists, cube),
        Settled::Open { lane, bit } => Verdict::Cut { lane, bit },
    }
}

/// What follows where the device has one answer for all words of a cube.
fn judged_where(
    question: Question,
    gets: Option<(Rank, u32)>,
    lists: &AnswerLists,
    cube: &Cube,
) -> Verdict
    ensures right { result ≡ Verdict.Right → (word : Word) → IsWord word → IsTrue (cube_holds cube.now word)
        → IsWrong question.by gets (found_in lists.now.old.items word) (found_in lists.now.new.items word) question.asked → ⊥ }
    ensures cut { (lane bit : ℕ) → result ≡ Verdict.Cut lane bit → (lane < 11) × (bit < 32) }
{
    let old_entries = lists.old.as_slice();
    let new_entries = lists.new.as_slice();
    let old = settle(old_entries, cube);
    let new = settle(new_entries, cube);
    follows(question, &gets, old, new)
}

//! The judgement of the keys whose words are in a cube.

ghost use Rattle.std.specs.Prelude.{◌≡◌, ◌≢◌, ◌<◌, IfOk, IfSome, IsTrue};
ghost use Rattle.slot_order.specs.Order.{first_hit};
ghost use Rattle.rule_model.specs.declared.words.Word.{Word};
ghost use Rattle.rule_model.specs.Entry.{hits};
ghost use Rattle.tcam_device.specs.State.{told};
ghost use Rattle.driver_trace.specs.Compared.{as_compared};
ghost use Rattle.driver_trace.specs.Judged.{IsLeak, IsWrong};
ghost use Rattle.word_cubes.specs.declared.Cube as cubes;
ghost use Rattle.word_cubes.specs.Cube.{IsWord, cube_holds};
ghost use Rattle.leak_search.specs.Found.{AnswerAlike, found_in};
ghost use Rattle.rule_entries.specs.RuleEntries.{rule_entries};
ghost use Rattle.write_judge.specs.Judging.{IsJudgedIn};

use crate::{Judged, RuleView, Watched};
use driver_trace::{Asked, Compared, Leak};
use leak_search::{AnswerLists, Question, Sought, agree, narrowed_slots, search};
use rule_model::{Key, Rank, key_fields};
use std::alloc::{AllocError, Global};
use word_cubes::Cube;

/// In how many cubes a judgement is sought.
pub const MOST_CUBES: u32 = 1_000_000;

/// The judgement of the keys whose words are in a cube. It fails only for want of memory.
pub fn judged_in(
    alloc: Global,
    question: Question,
    device: &Watched,
    old: &RuleView,
    new: &RuleView,
    cube: &Cube,
) -> Result<Judged, AllocError>
    ensures { IfOk result (IsJudgedIn question.by question.asked (record { state = device.now; old = old.now; new = new.now }) cube.now) }
{
    old.is_right();
    new.is_right();
    device.has_words();
    let tables = device.tables();
    let lists = lists_in(alloc, device, old, new, cube)?;
    let mut room = MOST_CUBES;
    let sought = search(alloc, question, tables, &lists, cube, &mut room)?;
    match sought {
        Sought::Clear => Ok(Judged::Right),
        Sought::TooMany => Ok(Judged::Unsettled),
        Sought::Leaks(part) => Ok(told_at(question, device, old, new, first_key(&part))),
    }
}

/// What device and sets answer the words of a cube by.
fn lists_in(
    alloc: Global,
    device: &Watched,
    old: &RuleView,
    new: &RuleView,
    cube: &Cube,
) -> Result<AnswerLists, AllocError>
    ensures device { IfOk result (λ lists. (word : Word) → IsWord word → IsTrue (cube_holds cube.now word)
        → found_in lists.device.items word ≡ told (first_hit hits device.now.slots word)) }
    ensures old { IfOk result (λ lists. AnswerAlike cube.now lists.old.items (rule_entries old.now)) }
    ensures new { IfOk result (λ lists. AnswerAlike cube.now lists.new.items (rule_entries new.now)) }
{
    let held = device.held();
    let from_device = narrowed_slots(alloc, held, cube)?;
    let from_old = old.narrowed(alloc, cube)?;
    let from_new = new.narrowed(alloc, cube)?;
    Ok(AnswerLists {
        device: from_device,
        old: from_old,
        new: from_new,
    })
}

/// What is told of a key.
fn told_at(question: Question, device: &Watched, old: &RuleView, new: &RuleView, key: Key) -> Judged
    ensures { (cube : cubes.Cube) → IsJudgedIn question.by question.asked (record { state = device.now; old = old.now; new = new.now }) cube result }
{
    match confirmed(question, device, old, new, key) {
        Some(leak) => Judged::Leaks(leak),
        None => Judged::Unsettled,
    }
}

/// The leak at a key, if it gets a wrong answer.
fn confirmed(
    question: Question,
    device: &Watched,
    old: &RuleView,
    new: &RuleView,
    key: Key,
) -> Option<Leak>
    ensures { IfSome result (IsLeak question.by device.now old.now new.now question.asked) }
{
    key_fields(&key);
    let gets = device.look(&key);
    let old_answer = old.answer(&key);
    let new_answer = new.answer(&key);
    if !is_wrong(question, &gets, &old_answer, &new_answer) {
        return None;
    }
    Some(Leak {
        key,
        gets,
        old: old_answer,
        new: new_answer,
    })
}

/// Whether an answer is wrong, by what is asked.
fn is_wrong(
    question: Question,
    gets: &Option<(Rank, u32)>,
    old: &Option<(Rank, u32)>,
    new: &Option<(Rank, u32)>,
) -> bool
    ensures { IsTrue result → IsWrong question.by gets.now old.now new.now question.asked }
{
    match question.asked {
        Asked::OldOrNew => differ_from_both(question.by, gets, old, new),
        Asked::New => differ(question.by, gets, new),
        Asked::Old => differ(question.by, gets, old),
        Asked::Nothing => false,
    }
}

/// Whether an answer differs from two others.
fn differ_from_both(
    by: Compared,
    gets: &Option<(Rank, u32)>,
    old: &Option<(Rank, u32)>,
    new: &Option<(Rank, u32)>,
) -> bool
    ensures { IsTrue result → (as_compared by gets.now ≢ as_compared by old.now) × (as_compared by gets.now ≢ as_compared by new.now) }
{
    let from_old = differ(by, gets, old);
    let from_new = differ(by, gets, new);
    if !from_old {
        return false;
    }
    from_new
}

/// Whether two answers differ, by what is compared of them.
fn differ(by: Compared, one: &Option<(Rank, u32)>, other: &Option<(Rank, u32)>) -> bool
    ensures { IsTrue result → as_compared by one.now ≢ as_compared by other.now }
{
    if agree(by, one, other) {
        return false;
    }
    true
}

/// A key whose word agrees with a cube but for the words of the tables: its free bits are 0.
fn first_key(cube: &Cube) -> Key {
    Key {
        src: first_address(cube, 0),
        dst: first_address(cube, 4),
        proto: (first_lane(cube, 9) / 16_777_216) as u8,
        sport: (first_lane(cube, 8) / 65_536) as u16,
        dport: (first_lane(cube, 8) % 65_536) as u16,
    }
}

/// The address in four lanes from one on.
fn first_address(cube: &Cube, lane: usize) -> u128
    requires { lane < 8 }
{
    joined(
        first_lane(cube, lane),
        first_lane(cube, lane + 1),
        first_lane(cube, lane + 2),
        first_lane(cube, lane + 3),
    )
}

/// A lane of such a word.
fn first_lane(cube: &Cube, lane: usize) -> u32
    requires { lane < 11 }
{
    cube.value.lane[lane] & cube.mask.lane[lane]
}

/// A number of four words of 32 bits, the highest first.
fn joined(first: u32, second: u32, third: u32, fourth: u32) -> u128 {
    (u128::from(first) << 96)
        | (u128::from(second) << 64)
        | (u128::from(third) << 32)
        | u128::from(fourth)
}

//! Lists that answer alike because they have alike entries; and where they have others, at which a cube is best cut.

ghost use Rattle.std.specs.Prelude.{ℕ, ◌≡◌, ◌⊎◌, ◌<◌, ◌≤◌, IfSome, IsTrue, length, slice_get};
ghost use Rattle.rule_model.specs.declared.words.Word.{Word};
ghost use Rattle.driver_trace.specs.Compared.{as_compared};
ghost use Rattle.leak_search.specs.Found.{AreAlike, found_in, same_entry};
ghost use Rattle.leak_search.specs.Sought.{IsWrongAt};

use crate::settled::same_told;
use crate::{AnswerLists, Question};
use driver_trace::{Asked, Compared};
use rule_model::Entry;
use word_cubes::{Cube, Extent, extent_of};

/// Whether the device has the entries of a set that will do, so that no word gets a wrong answer.
pub(crate) fn has_a_set(question: Question, lists: &AnswerLists) -> bool
    ensures { IsTrue result → (word : Word) → IsWrongAt question lists.now word → ⊥ }
{
    match question.asked {
        Asked::OldOrNew => has_either(question.by, lists),
        Asked::New => has_new(question.by, lists),
        Asked::Old => has_old(question.by, lists),
        Asked::Nothing => true,
    }
}

/// Whether the device has the entries of one of the sets.
fn has_either(by: Compared, lists: &AnswerLists) -> bool
    ensures { IsTrue result → (word : Word) → (as_compared by (found_in lists.now.device.items word) ≡ as_compared by (found_in lists.now.old.items word))
        ⊎ (as_compared by (found_in lists.now.device.items word) ≡ as_compared by (found_in lists.now.new.items word)) }
{
    if has_new(by, lists) {
        return true;
    }
    has_old(by, lists)
}

/// Whether the device has the entries of the new set.
fn has_new(by: Compared, lists: &AnswerLists) -> bool
    ensures { IsTrue result → (word : Word) → as_compared by (found_in lists.now.device.items word) ≡ as_compared by (found_in lists.now.new.items word) }
{
    let device = lists.device.as_slice();
    let new = lists.new.as_slice();
    same_lists(by, device, new)
}

/// Whether the device has the entries of the old set.
fn has_old(by: Compared, lists: &AnswerLists) -> bool
    ensures { IsTrue result → (word : Word) → as_compared by (found_in lists.now.device.items word) ≡ as_compared by (found_in lists.now.old.items word) }
{
    let device = lists.device.as_slice();
    let old = lists.old.as_slice();
    same_lists(by, device, old)
}

/// Whether two lists have alike entries.
fn same_lists(by: Compared, a: &[Entry], b: &[Entry]) -> bool
    ensures { IsTrue result → (word : Word) → as_compared by (found_in a.now word) ≡ as_compared by (found_in b.now word) }
{
    if a.len() != b.len() {
        return false;
    }
    if alike_until(by, a, b) < a.len() {
        return false;
    }
    true
}

/// How many entries two lists have alike at their heads.
fn alike_until(by: Compared, a: &[Entry], b: &[Entry]) -> usize
    ensures most { (result ≤ length a.now) × (result ≤ length b.now) }
    ensures alike { (i : ℕ) (one other : Entry) → i < result → slice_get a.now i ≡ Some one → slice_get b.now i ≡ Some other → AreAlike by one other }
{
    let most = lesser(a.len(), b.len());
    for i in 0..most {
        if !are_alike(by, &a[i], &b[i]) {
            return i;
        }
    }
    most
}

/// The lesser of two numbers.
fn lesser(one: usize, other: usize) -> usize
    ensures { (result ≤ one) × (result ≤ other) }
{
    if one < other { one } else { other }
}

/// Whether two entries hit the same words and answer alike.
fn are_alike(by: Compared, a: &Entry, b: &Entry) -> bool
    ensures { result ≡ same_entry by a.now b.now }
{
    let one = (a.tag, a.result);
    let other = (b.tag, b.result);
    same_told(by, &one, &other) && a.value == b.value && a.mask == b.mask
}

/// Where a cube is best cut: at a free bit of the first entry that the device has and not the set which it is more alike,
/// or that this set has and not the device.
pub(crate) fn best_cut(question: Question, lists: &AnswerLists, cube: &Cube) -> Option<(usize, u32)>
    ensures { IfSome result (λ at. (at.0 < 11) × (at.1 < 32)) }
{
    let device = lists.device.as_slice();
    let (old, new) = (lists.old.as_slice(), lists.new.as_slice());
    let as_old = alike_until(question.by, device, old);
    let as_new = alike_until(question.by, device, new);
    let by_new = match question.asked {
        Asked::OldOrNew => as_old <= as_new,
        Asked::New => true,
        Asked::Old | Asked::Nothing => false,
    };
    if by_new {
        cut_at_other(device, new, as_new, cube)
    } else {
        cut_at_other(device, old, as_old, cube)
    }
}

/// A free bit of the entry at a place of one list or of the other.
fn cut_at_other(one: &[Entry], other: &[Entry], place: usize, cube: &Cube) -> Option<(usize, u32)>
    ensures { IfSome result (λ at. (at.0 < 11) × (at.1 < 32)) }
{
    match cut_at_place(one, place, cube) {
        Some(at) => Some(at),
        None => cut_at_place(other, place, cube),
    }
}

/// A free bit of the entry at a place of a list.
fn cut_at_place(entries: &[Entry], place: usize, cube: &Cube) -> Option<(usize, u32)>
    ensures { IfSome result (λ at. (at.0 < 11) × (at.1 < 32)) }
{
    match extent_of(entries.get(place)?, cube) {
        Extent::Splits { lane, bit } => Some((lane, bit)),
        Extent::Misses | Extent::Hits => None,
    }
}

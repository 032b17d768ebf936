//! The numbers of lines of which some keep an older one.

ghost use Rattle.std.specs.Prelude.{◌≡◌, ◌+◌, ◌<◌, ◌≤◌, ◌++◌, ◌∷◌, ℕ, List, Option, Some, None, IfOk, IfSome, OnOk, MatchOption, length};
ghost use Rattle.kept_numbers.specs.Numbered.{numbered, numbers_for, put_before, spread, tens, went};

use crate::keeping::kept;
use crate::words::{OlderLine, Words};
use std::alloc::{AllocError, Global};

/// The most lines of a list.
pub const MOST_LINES: usize = 4096;

/// The greatest number of a line.
const TOP: u64 = 4_294_967_295;

/// The numbers of a list's lines, and whether all of them are new ones.
#[derive(Debug, Drop)]
pub struct Numbers {
    pub anew: bool,
    pub numbers: Vec<u64>,
}

/// The numbers of a list's lines, rising, by an older list: a line of the same words keeps its number, as `kept` says, a new
/// line gets one between. Where there is no room all lines are numbered by tens. It fails for want of memory alone.
pub fn numbers_for(
    alloc: Global,
    older: &[OlderLine],
    lines: &[Words],
) -> Result<Numbers, AllocError>
    requires { length lines.now ≤ MOST_LINES }
    ensures { IfOk result (λ all. numbers_for older.now lines.now ≡ (all.anew, all.numbers.items)) }
{
    let marks = kept(alloc, older, lines)?;
    match numbered(alloc, marks.as_slice())? {
        Some(numbers) => Ok(Numbers {
            anew: false,
            numbers,
        }),
        None => {
            let mut numbers = Vec::new(alloc);
            put_tens(&mut numbers, 10, lines.len())?;
            Ok(Numbers {
                anew: true,
                numbers,
            })
        }
    }
}

/// The numbers of lines of which some are given. None: there is no room for the others.
pub fn numbered(alloc: Global, marks: &[Option<u32>]) -> Result<Option<Vec<u64>>, AllocError>
    requires { length marks.now ≤ MOST_LINES }
    ensures { IfOk result (λ found. MatchOption found (numbered 0 0 marks.now ≡ None) (λ numbers. numbered 0 0 marks.now ≡ Some numbers.items)) }
{
    let mut numbers = Vec::new(alloc);
    let mut at = Waiting { low: 0, wait: 0 };
    for mark in marks {
        match put_mark(&mut numbers, at, *mark)? {
            Some(next) => at = next,
            None => return Ok(None),
        }
    }
    if at.low + 10 * at.wait as u64 > TOP {
        return Ok(None);
    }
    put_tens(&mut numbers, at.low + 10, at.wait)?;
    Ok(Some(numbers))
}

/// Lines that wait for numbers above one.
#[derive(Clone, Copy, Debug)]
struct Waiting {
    low: u64,
    wait: usize,
}

/// Puts the numbers there that come with a line, and answers what waits behind it. None: there is no room.
fn put_mark(
    into: &mut Vec<u64>,
    at: Waiting,
    mark: Option<u32>,
) -> Result<Option<Waiting>, AllocError>
    requires low { at.low ≤ 4294967295 }
    requires few { at.wait < 4096 }
    ensures goes { IfOk result (λ found. (marks : List (Option ℕ)) → put_before into.old.items (numbered at.low at.wait (mark ∷ marks)) ≡ went found into.new.items marks) }
    ensures low { IfOk result (λ found. IfSome found (λ next. next.low ≤ 4294967295)) }
    ensures few { IfOk result (λ found. IfSome found (λ next. next.wait ≤ at.wait + 1)) }
{
    match mark {
        None => Ok(Some(Waiting {
            low: at.low,
            wait: at.wait + 1,
        })),
        Some(given) => put_given(into, at, given),
    }
}

/// The same of a line that has a number.
fn put_given(into: &mut Vec<u64>, at: Waiting, given: u32) -> Result<Option<Waiting>, AllocError>
    requires low { at.low ≤ 4294967295 }
    requires few { at.wait < 4096 }
    ensures goes { IfOk result (λ found. (marks : List (Option ℕ)) → put_before into.old.items (numbered at.low at.wait (Some given ∷ marks)) ≡ went found into.new.items marks) }
    ensures low { IfOk result (λ found. IfSome found (λ next. next.low ≤ 4294967295)) }
    ensures few { IfOk result (λ found. IfSome found (λ next. next.wait ≤ at.wait + 1)) }
{
    let number = given as u64;
    if number <= at.low + at.wait as u64 {
        return Ok(None);
    }
    put_spread(into, at.low, number - at.low, at.wait)?;
    into.push(number)?;
    Ok(Some(Waiting {
        low: number,
        wait: 0,
    }))
}

/// Puts as many numbers there that part what lies above a number, up to the one as far above it, evenly.
fn put_spread(into: &mut Vec<u64>, low: u64, gap: u64, count: usize) -> Result<(), AllocError>
    requires low { low ≤ 4294967295 }
    requires gap { gap ≤ 4294967295 }
    requires count { count ≤ 4096 }
    ensures { OnOk result (into.new.items ≡ into.old.items ++ spread low gap (count + 1) 1 count) }
{
    let parts = count as u64 + 1;
    for place in 1..parts {
        into.push(low + gap * place / parts)?;
    }
    Ok(())
}

/// Puts as many numbers there, by tens from a first one.
fn put_tens(into: &mut Vec<u64>, first: u64, count: usize) -> Result<(), AllocError>
    requires first { first ≤ 4294967305 }
    requires count { count ≤ 4096 }
    ensures { OnOk result (into.new.items ≡ into.old.items ++ tens first count) }
{
    for place in 0..count {
        into.push(first + 10 * place as u64)?;
    }
    Ok(())
}

//! A chain written out.

ghost use Rattle.std.specs.Prelude.{false, ◌≡◌, ◌++◌, ◌∷◌, [], ℕ, Ok, Err, Some, None, IfOk, IfSome, OnOk, MatchResult, length, ◌≤◌};
ghost use Rattle.written_chains.specs.Written.{called_lines, joined, met_line, narrowed, target_lines, under, written_out};

use crate::meets::{Tests, meet};
use std::alloc::{AllocError, Global};

/// What becomes of a packet that a rule's tests hold.
#[derive(Clone, Copy, Debug, PartialEq, Eq)]
pub enum Target {
    /// It is permitted or denied.
    Decides(bool),
    /// It leaves the chain.
    Returns,
    /// It walks the chain of this number.
    Jumps(usize),
}

/// A rule of the chain of this number.
#[derive(Clone, Copy, Debug, PartialEq, Eq)]
pub struct ChainRule {
    pub chain: usize,
    pub tests: Tests,
    pub target: Target,
}

/// A line of a list: a packet that its tests hold is permitted or denied, or leaves the chain.
#[derive(Clone, Copy, Debug, PartialEq, Eq)]
pub struct Line {
    pub tests: Tests,
    pub action: Option<bool>,
}

/// Why a chain isn't written out.
#[derive(Clone, Copy, Debug, PartialEq, Eq)]
pub enum Refused {
    /// Jumps are nested deeper than that, or lead in a circle.
    TooDeep,
    /// The list would have more lines than that.
    TooMany,
}

/// Writes a chain out, by all rules in their order: a list in which the first line whose tests hold answers as the chain
/// does. `depth` bounds how deep its jumps are nested, this chain counted, and `most` how many lines there are. It fails for
/// want of memory alone.
pub fn written_out(
    alloc: Global,
    rules: &[ChainRule],
    chain: usize,
    depth: usize,
    most: usize,
) -> Result<Result<Vec<Line>, Refused>, AllocError>
    ensures list { IfOk result (λ answer. MatchResult answer (λ lines. written_out most rules.now depth chain ≡ Ok lines.items) (λ refused. written_out most rules.now depth chain ≡ Err refused)) }
    ensures few { IfOk result (λ answer. IfOk answer (λ lines. length lines.items ≤ most)) }
{
    if depth == 0 {
        return Ok(Err(Refused::TooDeep));
    }
    let mut behind = Vec::new(alloc);
    // The chain to which the last rule led, and its lines: rules that stand side by side mostly lead to the same one.
    let mut known = None;
    let mut kept = Vec::new(alloc);
    'rules: for place in (0..rules.len()).rev() {
        let rule = rules[place];
        if rule.chain == chain {
            if let Some(callee) = new_callee(known, rule.target) {
                match written_out(alloc, rules, callee, depth - 1, most)? {
                    Ok(lines) => {
                        known = Some(callee);
                        kept = lines;
                    }
                    Err(refused) => return Ok(Err(refused)),
                }
            }
            behind = joined(alloc, &rule, kept.as_slice(), behind.as_slice())?;
            if behind.len() > most {
                return Ok(Err(Refused::TooMany));
            }
        }
    }
    Ok(Ok(behind))
}

/// The chain to which a rule leads, if it isn't the one whose lines are known.
fn new_callee(known: Option<usize>, target: Target) -> Option<usize>
    ensures leads { IfSome result (λ callee. target ≡ Target.Jumps callee) }
    ensures known { result ≡ None → (callee : ℕ) → target ≡ Target.Jumps callee → known ≡ Some callee }
{
    match target {
        Target::Jumps(callee) => {
            if is_new(known, callee) {
                return Some(callee);
            }
            None
        }
        Target::Decides(_) => None,
        Target::Returns => None,
    }
}

/// Whether a chain isn't the one whose lines are known.
fn is_new(known: Option<usize>, callee: usize) -> bool
    ensures { result ≡ false → known ≡ Some callee }
{
    match known {
        Some(last) => last != callee,
        None => true,
    }
}

/// The lines of a rule, and those behind it.
fn joined(
    alloc: Global,
    rule: &ChainRule,
    called: &[Line],
    behind: &[Line],
) -> Result<Vec<Line>, AllocError>
    ensures { IfOk result (λ lines. lines.items ≡ joined rule.now called.now behind.now) }
{
    let mut lines = Vec::new(alloc);
    put_target(&mut lines, rule, called, behind)?;
    lines.extend_from_slice(behind)?;
    Ok(lines)
}

/// Puts the lines of a rule there, before those behind it.
fn put_target(
    into: &mut Vec<Line>,
    rule: &ChainRule,
    called: &[Line],
    behind: &[Line],
) -> Result<(), AllocError>
    ensures { OnOk result (into.new.items ≡ into.old.items ++ target_lines rule.now.tests rule.now.target called.now behind.now) }
{
    match rule.target {
        Target::Decides(permits) => put_line(into, rule.tests, Some(permits)),
        Target::Returns => put_line(into, rule.tests, None),
        Target::Jumps(_) => put_called(into, &rule.tests, called, behind),
    }
}

/// Puts a line there.
fn put_line(into: &mut Vec<Line>, tests: Tests, action: Option<bool>) -> Result<(), AllocError>
    ensures { OnOk result (into.new.items ≡ into.old.items ++ record { tests = tests; action = action } ∷ []) }
{
    into.push(Line { tests, action })?;
    Ok(())
}

/// Puts the lines of a chain there to which a rule of these tests jumps, before those behind that rule.
fn put_called(
    into: &mut Vec<Line>,
    tests: &Tests,
    called: &[Line],
    behind: &[Line],
) -> Result<(), AllocError>
    ensures { OnOk result (into.new.items ≡ into.old.items ++ called_lines tests.now called.now behind.now) }
{
    for line in called {
        put_under(into, meet(tests, &line.tests), line.action, behind)?;
    }
    Ok(())
}

/// Puts what becomes of packets there that these tests hold: an answer, or they leave their chain, and then go on by the
/// lines behind the jump.
fn put_under(
    into: &mut Vec<Line>,
    met: Option<Tests>,
    action: Option<bool>,
    behind: &[Line],
) -> Result<(), AllocError>
    ensures { OnOk result (into.new.items ≡ into.old.items ++ under met action behind.now) }
{
    match (met, action) {
        (None, _) => Ok(()),
        (Some(tests), Some(permits)) => put_line(into, tests, Some(permits)),
        (Some(tests), None) => put_left(into, &tests, behind),
    }
}

/// Puts the lines there by which a packet of these tests goes on.
fn put_left(into: &mut Vec<Line>, tests: &Tests, behind: &[Line]) -> Result<(), AllocError>
    ensures { OnOk result (into.new.items ≡ into.old.items ++ under (Some tests.now) None behind.now) }
{
    put_narrowed(into, tests, behind)?;
    put_line(into, *tests, None)
}

/// Puts lines there, narrowed to these tests.
fn put_narrowed(into: &mut Vec<Line>, tests: &Tests, lines: &[Line]) -> Result<(), AllocError>
    ensures { OnOk result (into.new.items ≡ into.old.items ++ narrowed tests.now lines.now) }
{
    for line in lines {
        put_met(into, meet(tests, &line.tests), line.action)?;
    }
    Ok(())
}

/// Puts a line of these tests there, if there are any.
fn put_met(into: &mut Vec<Line>, met: Option<Tests>, action: Option<bool>) -> Result<(), AllocError>
    ensures { OnOk result (into.new.items ≡ into.old.items ++ met_line met action) }
{
    match met {
        None => Ok(()),
        Some(tests) => put_line(into, tests, action),
    }
}

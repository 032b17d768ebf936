//! Ports: a range or several, and all others.

ghost use Rattle.std.specs.Prelude.{◌≡◌, ◌<◌, ◌++◌, [], ◌∷◌, Ok, Err, Some, None, IfSome, IfOk, OnOk, length, if◌then◌else◌};
ghost use Rattle.iptables.specs.Values.{above, any_tests, apart, around, below, colon_ports, each_range, first_colon, first_comma, has_ports, met_with, pair_of, port_pair, range_list, range_tests, ranges_of, with_range};

use crate::fields::{Side, any_tests, met_with, port_tests};
use line_words::{WordFault, port_of};
use rule_model::Ports;
use std::alloc::{AllocError, Global};
use written_chains::Tests;

/// The most members of a list of ports.
const MOST_RANGES: usize = 15;

/// Whether packets of a protocol have ports.
pub fn has_ports(proto: Option<u8>) -> bool
    ensures { result ≡ has_ports proto }
{
    match proto {
        Some(number) => number == 6 || number == 17,
        None => false,
    }
}

/// A port, or two with a colon between.
pub(crate) fn colon_ports(word: &[u8]) -> Option<Ports>
    ensures { result ≡ colon_ports word.now }
{
    match first_colon(word) {
        None => port_pair(word, word),
        Some(place) => port_pair(&word[..place], &word[place + 1..]),
    }
}

/// The place of the first colon of a word.
fn first_colon(word: &[u8]) -> Option<usize>
    ensures place { result ≡ first_colon word.now }
    ensures inside { IfSome result (λ place. place < length word.now) }
{
    word.iter().position(|byte| *byte == b':')
}

/// The ports from the first to the last.
fn port_pair(first: &[u8], last: &[u8]) -> Option<Ports>
    ensures { result ≡ port_pair first.now last.now }
{
    match port_of(first) {
        Ok(lo) => ports_from(lo, port_of(last)),
        Err(_) => None,
    }
}

/// The ports from this one to the last, if there is one.
fn ports_from(lo: u16, last: Result<u16, WordFault>) -> Option<Ports>
    ensures { result ≡ pair_of (Ok lo) last }
{
    match last {
        Ok(hi) => Ports::new(lo, hi),
        Err(_) => None,
    }
}

/// The place of the first comma of a word.
fn first_comma(word: &[u8]) -> Option<usize>
    ensures place { result ≡ first_comma word.now }
    ensures inside { IfSome result (λ place. place < length word.now) }
{
    word.iter().position(|byte| *byte == b',')
}

/// Puts the ranges of a word there, which is a list where it may have several. False: it is none.
pub(crate) fn put_ranges_of(
    into: &mut Vec<Ports>,
    several: bool,
    word: &[u8],
) -> Result<bool, AllocError>
    requires { into.old.items ≡ [] }
    ensures { IfOk result (λ is_said. ranges_of several word.now ≡ (if is_said then Some into.new.items else None)) }
{
    if several {
        return put_list(into, word, MOST_RANGES);
    }
    put_range(into, colon_ports(word))
}

/// Puts the ranges of a list there, of so many members at most. False: it is none.
fn put_list(into: &mut Vec<Ports>, word: &[u8], most: usize) -> Result<bool, AllocError>
    ensures { IfOk result (λ is_list. range_list most into.old.items word.now ≡ (if is_list then Some into.new.items else None)) }
{
    if most == 0 {
        return Ok(false);
    }
    match first_comma(word) {
        None => put_range(into, colon_ports(word)),
        Some(place) => {
            if !put_range(into, colon_ports(&word[..place]))? {
                return Ok(false);
            }
            let is_list = put_list(into, &word[place + 1..], most - 1)?;
            Ok(is_list)
        }
    }
}

/// Puts a range there. False: there is none.
fn put_range(into: &mut Vec<Ports>, range: Option<Ports>) -> Result<bool, AllocError>
    ensures { IfOk result (λ is_range. with_range into.old.items range ≡ (if is_range then Some into.new.items else None)) }
{
    match range {
        None => Ok(false),
        Some(found) => {
            into.push(found)?;
            Ok(true)
        }
    }
}

/// Tests on each of these ranges.
pub(crate) fn each_range(
    alloc: Global,
    side: Side,
    ranges: &[Ports],
) -> Result<Vec<Tests>, AllocError>
    ensures { IfOk result (λ tests. tests.items ≡ each_range side ranges.now) }
{
    let mut tests = Vec::new(alloc);
    for range in ranges {
        tests.push(port_tests(side, *range))?;
    }
    Ok(tests)
}

/// Tests on all ports beside these ranges.
pub(crate) fn apart(alloc: Global, side: Side, ranges: &[Ports]) -> Result<Vec<Tests>, AllocError>
    ensures { IfOk result (λ tests. tests.items ≡ apart side (any_tests ∷ []) ranges.now) }
{
    let mut left = Vec::new(alloc);
    left.push(any_tests())?;
    for range in ranges {
        left = left_beside(alloc, left.as_slice(), side, range)?;
    }
    Ok(left)
}

/// The tests of these that hold beside a range.
fn left_beside(
    alloc: Global,
    left: &[Tests],
    side: Side,
    range: &Ports,
) -> Result<Vec<Tests>, AllocError>
    ensures { IfOk result (λ tests. tests.items ≡ met_with left.now (around side range.now)) }
{
    let mut around = Vec::new(alloc);
    put_below(&mut around, side, range)?;
    put_above(&mut around, side, range)?;
    met_with(alloc, left, around.as_slice())
}

/// Puts tests on the ports below a range there.
fn put_below(into: &mut Vec<Tests>, side: Side, range: &Ports) -> Result<(), AllocError>
    ensures { OnOk result (into.new.items ≡ into.old.items ++ below side range.now) }
{
    if range.lo() == 0 {
        return Ok(());
    }
    put_ports(into, side, Ports::new(0, range.lo() - 1))
}

/// Puts tests on the ports above a range there.
fn put_above(into: &mut Vec<Tests>, side: Side, range: &Ports) -> Result<(), AllocError>
    ensures { OnOk result (into.new.items ≡ into.old.items ++ above side range.now) }
{
    if range.hi() == 65535 {
        return Ok(());
    }
    put_ports(into, side, Ports::new(range.hi() + 1, 65535))
}

/// Puts tests on ports there, if there are any.
fn put_ports(into: &mut Vec<Tests>, side: Side, range: Option<Ports>) -> Result<(), AllocError>
    ensures { OnOk result (into.new.items ≡ into.old.items ++ range_tests side range) }
{
    match range {
        None => Ok(()),
        Some(ports) => {
            into.push(port_tests(side, ports))?;
            Ok(())
        }
    }
}

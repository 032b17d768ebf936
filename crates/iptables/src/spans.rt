//! Addresses from one to another.

ghost use Rattle.std.specs.Prelude.{◌≡◌, ◌≤◌, ◌<◌, ◌++◌, IfOk, IfSome, OnOk, length};
ghost use Rattle.iptables.specs.Values.{any_tests, beside, bits_number, bits_of, first_dash, from_number, last_number, span_from, span_of, span_tests, up_to_number, word_span};

use crate::blocks::{Which, put_beside};
use crate::fields::{Side, any_tests, met_with};
use line_words::{WordFault, address_of};
use rule_model::{Addr, IpVersion};
use std::alloc::{AllocError, Global};
use written_chains::Tests;

/// The addresses from the first to the last, as numbers of the bits that an address has.
#[derive(Clone, Copy, Debug, PartialEq, Eq)]
pub(crate) struct Span {
    pub(crate) first: u128,
    pub(crate) last: u128,
}

/// The addresses that a word names, with a dash between the first and the last one.
pub(crate) fn word_span(version: IpVersion, word: &[u8]) -> Option<Span>
    ensures span { result ≡ word_span version word.now }
    ensures first { IfSome result (λ span. span.first ≤ last_number version) }
    ensures last { IfSome result (λ span. span.last ≤ last_number version) }
{
    match first_dash(word) {
        None => None,
        Some(place) => span_of(
            version,
            address_of(&word[..place], version),
            address_of(&word[place + 1..], version),
        ),
    }
}

/// The place of the first dash of a word.
fn first_dash(word: &[u8]) -> Option<usize>
    ensures place { result ≡ first_dash word.now }
    ensures inside { IfSome result (λ place. place < length word.now) }
{
    word.iter().position(|byte| *byte == b'-')
}

/// The addresses from one to another.
fn span_of(
    version: IpVersion,
    first: Result<Addr, WordFault>,
    last: Result<Addr, WordFault>,
) -> Option<Span>
    ensures span { result ≡ span_of version first last }
    ensures first { IfSome result (λ span. span.first ≤ last_number version) }
    ensures last { IfSome result (λ span. span.last ≤ last_number version) }
{
    match first {
        Err(_) => None,
        Ok(from) => match last {
            Err(_) => None,
            Ok(to) => span_from(version, from, to),
        },
    }
}

/// The same of two addresses, if the first isn't behind the last.
fn span_from(version: IpVersion, first: Addr, last: Addr) -> Option<Span>
    ensures span { result ≡ span_from (bits_number version first) (bits_number version last) }
    ensures first { IfSome result (λ span. span.first ≤ last_number version) }
    ensures last { IfSome result (λ span. span.last ≤ last_number version) }
{
    let from = bits_number(version, first);
    let to = bits_number(version, last);
    if from > to {
        return None;
    }
    Some(Span {
        first: from,
        last: to,
    })
}

/// An address as a number of the bits that it has.
fn bits_number(version: IpVersion, address: Addr) -> u128
    ensures number { result ≡ bits_number version address }
    ensures fits { result ≤ last_number version }
{
    match version {
        IpVersion::V4 => address >> 96,
        IpVersion::V6 => address,
    }
}

/// The last address.
fn last_number(version: IpVersion) -> u128
    ensures { result ≡ last_number version }
{
    match version {
        IpVersion::V4 => 4294967295,
        IpVersion::V6 => u128::MAX,
    }
}

/// Tests on the addresses from one to another, or on all others.
pub(crate) fn span_tests(
    alloc: Global,
    side: Side,
    version: IpVersion,
    negated: bool,
    span: Span,
) -> Result<Vec<Tests>, AllocError>
    requires first { span.first ≤ last_number version }
    requires last { span.last ≤ last_number version }
    ensures { IfOk result (λ tests. tests.items ≡ span_tests side version negated span) }
{
    let mut tests = Vec::new(alloc);
    if negated {
        put_numbers(&mut tests, side, version, Which::Below, span.first)?;
        put_numbers(&mut tests, side, version, Which::Above, span.last)?;
        return Ok(tests);
    }
    let mut others = Vec::new(alloc);
    put_from(&mut tests, side, version, span.first)?;
    put_up_to(&mut others, side, version, span.last)?;
    met_with(alloc, tests.as_slice(), others.as_slice())
}

/// Puts tests on the addresses there that stand beside one.
fn put_numbers(
    into: &mut Vec<Tests>,
    side: Side,
    version: IpVersion,
    which: Which,
    number: u128,
) -> Result<(), AllocError>
    requires { number ≤ last_number version }
    ensures { OnOk result (into.new.items ≡ into.old.items ++ beside side which (bits_of version) number) }
{
    match version {
        IpVersion::V4 => put_beside(into, side, which, 32, number),
        IpVersion::V6 => put_beside(into, side, which, 128, number),
    }
}

/// Puts tests on the addresses there from one on.
fn put_from(
    into: &mut Vec<Tests>,
    side: Side,
    version: IpVersion,
    number: u128,
) -> Result<(), AllocError>
    requires { number ≤ last_number version }
    ensures { OnOk result (into.new.items ≡ into.old.items ++ from_number side version number) }
{
    if number == 0 {
        into.push(any_tests())?;
        return Ok(());
    }
    put_numbers(into, side, version, Which::Above, number - 1)
}

/// Puts tests on the addresses there up to one.
fn put_up_to(
    into: &mut Vec<Tests>,
    side: Side,
    version: IpVersion,
    number: u128,
) -> Result<(), AllocError>
    requires { number ≤ last_number version }
    ensures { OnOk result (into.new.items ≡ into.old.items ++ up_to_number side version number) }
{
    if number == last_number(version) {
        into.push(any_tests())?;
        return Ok(());
    }
    put_numbers(into, side, version, Which::Below, number + 1)
}

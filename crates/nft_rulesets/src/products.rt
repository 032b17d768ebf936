//! The tests that a comparison is.

ghost use Rattle.std.specs.Prelude.{◌≡◌, ◌≤◌, ◌*◌, ◌++◌, ◌∷◌, [], Ok, Err, Some, None, true, IfOk, OnOk, MatchResult, length, map, false, is_some};
ghost use Rattle.nft_rulesets.specs.Spans.{blocks};
ghost use Rattle.nft_rulesets.specs.Products.{all_have_ports, all_tests, are_few, are_met, compared, compared_spans, is_met, is_right, meets_all, meets_one, met_tests, met_within, pair_tests, product, proto_test, proto_tests, receiver_test, source_test, span_tests, IsPut, dports_test, sports_test};

use crate::fields::Field;
use crate::spans::{Span, outside_up_to, put_blocks};
use crate::why::Why;
use iptables::{MOST_LINES, any_tests, has_ports};
use rule_model::{Ports, Prefix};
use std::alloc::{AllocError, Global};
use written_chains::{Tests, meet};

/// The blocks of a span.
fn blocks_of(alloc: Global, span: &Span) -> Result<Vec<Prefix>, AllocError>
    ensures { IfOk result (λ found. found.items ≡ blocks 128 0 span.now) }
{
    let mut found = Vec::new(alloc);
    put_blocks(&mut found, 128, 0, span)?;
    Ok(found)
}

/// The tests of packets from a block.
fn source_test(block: &Prefix) -> Tests
    ensures { result ≡ source_test block.now }
{
    Tests {
        src: *block,
        ..any_tests()
    }
}

/// And to one.
fn receiver_test(block: &Prefix) -> Tests
    ensures { result ≡ receiver_test block.now }
{
    Tests {
        dst: *block,
        ..any_tests()
    }
}

/// And of a protocol.
pub(crate) fn proto_test(proto: u8) -> Tests
    ensures { result ≡ proto_test proto }
{
    Tests {
        proto: Some(proto),
        ..any_tests()
    }
}

/// Puts the tests there of packets from these blocks.
fn put_sources(into: &mut Vec<Tests>, blocks: &[Prefix]) -> Result<(), AllocError>
    ensures { OnOk result (into.new.items ≡ into.old.items ++ map source_test blocks.now) }
{
    for block in blocks {
        into.push(source_test(block))?;
    }
    Ok(())
}

/// And those of packets to these blocks.
fn put_receivers(into: &mut Vec<Tests>, blocks: &[Prefix]) -> Result<(), AllocError>
    ensures { OnOk result (into.new.items ≡ into.old.items ++ map receiver_test blocks.now) }
{
    for block in blocks {
        into.push(receiver_test(block))?;
    }
    Ok(())
}

/// Whether a span is one of numbers up to a most one.
fn is_right(most: u128, span: &Span) -> bool
    ensures { result ≡ is_right most span.now }
{
    span.lo <= span.hi && span.hi <= most
}

/// Puts the tests there of packets of these protocols.
fn put_protos(into: &mut Vec<Tests>, span: &Span) -> Result<(), AllocError>
    requires right { is_right 255 span.now ≡ true }
    ensures { OnOk result (into.new.items ≡ into.old.items ++ proto_tests span.now) }
{
    for proto in span.lo..span.hi + 1 {
        into.push(proto_test(proto as u8))?;
    }
    Ok(())
}

/// The ports of a span, if it is one of ports.
fn ports_of(span: &Span) -> Option<Ports>
    ensures right { is_right 65535 span.now ≡ true → result ≡ Some (record { lo = span.now.lo; hi = span.now.hi }) }
    ensures wrong { is_right 65535 span.now ≡ false → result ≡ None }
{
    if is_right(65535, span) {
        return Ports::new(span.lo as u16, span.hi as u16);
    }
    None
}

/// Puts the tests there that a span of a field is, and answers whether it is one of that field.
fn put_span(
    alloc: Global,
    into: &mut Vec<Tests>,
    field: Field,
    span: &Span,
) -> Result<bool, AllocError>
    ensures { IfOk result (λ put. IsPut put (span_tests field span.now) into.old.items into.new.items) }
{
    match field {
        Field::Source => {
            put_sources(into, blocks_of(alloc, span)?.as_slice())?;
            Ok(true)
        }
        Field::Receiver => {
            put_receivers(into, blocks_of(alloc, span)?.as_slice())?;
            Ok(true)
        }
        Field::Protocol => {
            if !is_right(255, span) {
                return Ok(false);
            }
            put_protos(into, span)?;
            Ok(true)
        }
        Field::SourcePort(proto) => put_sport(into, proto, ports_of(span)),
        Field::ReceiverPort(proto) => put_dport(into, proto, ports_of(span)),
        Field::Version | Field::Absent => Ok(false),
    }
}

/// Puts the test of a sender's ports there, if there are any.
fn put_sport(
    into: &mut Vec<Tests>,
    proto: Option<u8>,
    ports: Option<Ports>,
) -> Result<bool, AllocError>
    ensures { IfOk result (λ put. IsPut put (sports_test proto ports) into.old.items into.new.items) }
{
    match ports {
        Some(sport) => {
            into.push(Tests {
                proto,
                sport,
                ..any_tests()
            })?;
            Ok(true)
        }
        None => Ok(false),
    }
}

/// And that of a receiver's.
fn put_dport(
    into: &mut Vec<Tests>,
    proto: Option<u8>,
    ports: Option<Ports>,
) -> Result<bool, AllocError>
    ensures { IfOk result (λ put. IsPut put (dports_test proto ports) into.old.items into.new.items) }
{
    match ports {
        Some(dport) => {
            into.push(Tests {
                proto,
                dport,
                ..any_tests()
            })?;
            Ok(true)
        }
        None => Ok(false),
    }
}

/// The tests that some spans of a field are. Err: one of them is none of that field.
fn all_tests(
    alloc: Global,
    field: Field,
    spans: &[Span],
) -> Result<Result<Vec<Tests>, Why>, AllocError>
    ensures { IfOk result (λ answer. MatchResult answer (λ tests. all_tests field spans.now ≡ Some tests.items)
        (λ why. (why ≡ Why.Values) × (all_tests field spans.now ≡ None))) }
{
    let mut tests = Vec::new(alloc);
    for span in spans {
        if !put_span(alloc, &mut tests, field, span)? {
            return Ok(Err(Why::Values));
        }
    }
    Ok(Ok(tests))
}

/// Puts tests there, if there are any.
fn put_met(into: &mut Vec<Tests>, met: Option<Tests>) -> Result<(), AllocError>
    ensures { OnOk result (into.new.items ≡ into.old.items ++ met_tests met) }
{
    if let Some(tests) = met {
        into.push(tests)?;
    }
    Ok(())
}

/// Puts the tests there that hold where these do and one of others.
fn put_meets(into: &mut Vec<Tests>, tests: &Tests, others: &[Tests]) -> Result<(), AllocError>
    ensures { OnOk result (into.new.items ≡ into.old.items ++ meets_one tests.now others.now) }
{
    for other in others {
        put_met(into, meet(tests, other))?;
    }
    Ok(())
}

/// The tests that hold where one of these does and one of others.
pub(crate) fn meets_all(
    alloc: Global,
    tests: &[Tests],
    others: &[Tests],
) -> Result<Vec<Tests>, AllocError>
    ensures { IfOk result (λ both. both.items ≡ meets_all tests.now others.now) }
{
    let mut both = Vec::new(alloc);
    for one in tests {
        put_meets(&mut both, one, others)?;
    }
    Ok(both)
}

/// Whether some packet is held by these tests and by one of others.
fn is_met(tests: &Tests, others: &[Tests]) -> bool
    ensures { result ≡ is_met tests.now others.now }
{
    for other in others {
        if meet(tests, other).is_some() {
            return true;
        }
    }
    false
}

/// Whether some packet is held by one of these tests and by one of others.
pub(crate) fn are_met(tests: &[Tests], others: &[Tests]) -> bool
    ensures { result ≡ are_met tests.now others.now }
{
    for one in tests {
        if is_met(one, others) {
            return true;
        }
    }
    false
}

/// Whether each of some tests holds packets that have ports.
fn all_have_ports(tests: &[Tests]) -> bool
    ensures { result ≡ all_have_ports tests.now }
{
    tests.iter().all(|one| has_ports(one.proto))
}

/// Whether there are no more of both than a list has lines.
fn are_few(tests: &[Tests], others: &[Tests]) -> bool
    ensures { result ≡ are_few tests.now others.now }
{
    if others.is_empty() {
        return true;
    }
    others.len() <= MOST_LINES && tests.len() <= MOST_LINES / others.len()
}

/// The tests of a rule that hold where a field is in one of some spans too. Err: why that isn't said.
pub(crate) fn product(
    alloc: Global,
    tests: &[Tests],
    field: Field,
    spans: &[Span],
) -> Result<Result<Vec<Tests>, Why>, AllocError>
    ensures { IfOk result (λ answer. MatchResult answer (λ both. product tests.now field spans.now ≡ Ok both.items) (λ why. product tests.now field spans.now ≡ Err why)) }
{
    if field.wants_proto() && !all_have_ports(tests) {
        return Ok(Err(Why::Ports));
    }
    match all_tests(alloc, field, spans)? {
        Ok(others) => {
            if !are_few(tests, others.as_slice()) {
                return Ok(Err(Why::Many));
            }
            Ok(Ok(meets_all(alloc, tests, others.as_slice())?))
        }
        Err(why) => Ok(Err(why)),
    }
}

/// The tests of a rule that hold where a field is in a span too, if there is one.
pub(crate) fn pair_tests(
    alloc: Global,
    tests: &[Tests],
    field: Field,
    span: Option<Span>,
) -> Result<Result<Vec<Tests>, Why>, AllocError>
    ensures { IfOk result (λ answer. MatchResult answer (λ both. pair_tests tests.now field span ≡ Ok both.items) (λ why. pair_tests tests.now field span ≡ Err why)) }
{
    match span {
        Some(found) => product(alloc, tests, field, &[found]),
        None => Ok(Err(Why::Values)),
    }
}

/// The same, or where it is negated, those that hold where the field is in none of them.
pub(crate) fn compared(
    alloc: Global,
    tests: &[Tests],
    field: Field,
    negated: bool,
    spans: &[Span],
) -> Result<Result<Vec<Tests>, Why>, AllocError>
    ensures { IfOk result (λ answer. MatchResult answer (λ both. compared tests.now field negated spans.now ≡ Ok both.items) (λ why. compared tests.now field negated spans.now ≡ Err why)) }
{
    if negated {
        let others = outside_up_to(alloc, field.most(), spans)?;
        return product(alloc, tests, field, others.as_slice());
    }
    product(alloc, tests, field, spans)
}

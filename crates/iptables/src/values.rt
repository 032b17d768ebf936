//! What the value of an option says: tests, one of which holds a packet where the option does.

ghost use Rattle.std.specs.Prelude.{◌≡◌, ◌≤◌, Ok, IfOk, IfSome, MatchResult};
ghost use Rattle.iptables.specs.Values.{block_said, blocks_tests, block_tests, beside, either_tests, ends_tests, face_tests, number_of, other_protos, ports_by, ports_said, proto_behind, proto_said, proto_tests, protos_tests, ranges_of, ranges_tests, last_number, span_said, value_said};

use crate::blocks::{Which, number_of, put_beside};
use crate::faces::names_face;
use crate::fields::{Ends, Side, any_tests, block_tests, met_with, proto_tests};
use crate::ports::{apart, each_range, has_ports, put_ranges_of};
use crate::protos::{proto_of, put_other_protos};
use crate::spans::{Span, span_tests, word_span};
use crate::why::Why;
use line_words::{WordFault, prefix_of};
use rule_model::{IpVersion, Ports, Prefix};
use std::alloc::{AllocError, Global};
use written_chains::Tests;

/// How many protocols there are.
const PROTOCOLS: u16 = 256;

/// The field that an option tests.
#[derive(Clone, Copy, Debug, PartialEq, Eq)]
pub(crate) enum Field {
    /// An address, by a prefix.
    Block(Side),
    /// An address, by the first and the last one.
    Span(Side),
    /// The protocol.
    Proto,
    /// A port, by one range or by a list of several.
    Ports(Ends, bool),
    /// The interface by which it came in.
    Face,
}

/// What a word says as the value of an option, behind `!` or not, where packets come in by this interface, and the rule is of
/// this protocol. Err: why it isn't said.
pub(crate) fn value_said(
    alloc: Global,
    version: IpVersion,
    face: &[u8],
    proto: Option<u8>,
    field: Field,
    negated: bool,
    word: &[u8],
) -> Result<Result<Vec<Tests>, Why>, AllocError>
    ensures { IfOk result (λ answer. MatchResult answer (λ said. value_said version face.now proto field negated word.now ≡ Ok said.items)
        (λ reason. value_said version face.now proto field negated word.now ≡ Err reason)) }
{
    match field {
        Field::Block(side) => block_said(alloc, side, negated, prefix_of(word, version)),
        Field::Span(side) => span_said(alloc, side, version, negated, word_span(version, word)),
        Field::Proto => proto_said(alloc, negated, proto_of(word)),
        Field::Ports(ends, several) => {
            ports_said(alloc, ends, negated, has_ports(proto), several, word)
        }
        Field::Face => Ok(Ok(face_tests(alloc, negated, names_face(word, face))?)),
    }
}

/// The protocol of which a rule is behind a value.
pub(crate) fn proto_behind(
    proto: Option<u8>,
    field: Field,
    negated: bool,
    word: &[u8],
) -> Option<u8>
    ensures { result ≡ proto_behind proto field negated word.now }
{
    match field {
        Field::Block(_) => proto,
        Field::Span(_) => proto,
        Field::Proto => { if negated { None } else { proto_of(word) } }
        Field::Ports(_, _) => proto,
        Field::Face => proto,
    }
}

/// Tests that hold each packet, where the interface is named or, behind `!`, isn't; none else.
fn face_tests(alloc: Global, negated: bool, named: bool) -> Result<Vec<Tests>, AllocError>
    ensures { IfOk result (λ said. said.items ≡ face_tests negated named) }
{
    let mut said = Vec::new(alloc);
    if negated != named {
        said.push(any_tests())?;
    }
    Ok(said)
}

/// What a prefix says of an address.
fn block_said(
    alloc: Global,
    side: Side,
    negated: bool,
    found: Result<Prefix, WordFault>,
) -> Result<Result<Vec<Tests>, Why>, AllocError>
    ensures { IfOk result (λ answer. MatchResult answer (λ said. block_said side negated found ≡ Ok said.items)
        (λ reason. block_said side negated found ≡ Err reason)) }
{
    match found {
        Ok(block) => Ok(Ok(block_or_not(alloc, side, negated, block)?)),
        Err(_) => Ok(Err(Why::Address)),
    }
}

/// Tests on the addresses in a block, or on all others.
fn block_or_not(
    alloc: Global,
    side: Side,
    negated: bool,
    block: Prefix,
) -> Result<Vec<Tests>, AllocError>
    ensures { IfOk result (λ said. said.items ≡ blocks_tests side negated block) }
{
    let mut said = Vec::new(alloc);
    if negated {
        put_beside(&mut said, side, Which::All, block.len(), number_of(&block))?;
        return Ok(said);
    }
    said.push(block_tests(side, block))?;
    Ok(said)
}

/// What the first and the last address say.
fn span_said(
    alloc: Global,
    side: Side,
    version: IpVersion,
    negated: bool,
    found: Option<Span>,
) -> Result<Result<Vec<Tests>, Why>, AllocError>
    requires first { IfSome found (λ span. span.first ≤ last_number version) }
    requires last { IfSome found (λ span. span.last ≤ last_number version) }
    ensures { IfOk result (λ answer. MatchResult answer (λ said. span_said side version negated found ≡ Ok said.items)
        (λ reason. span_said side version negated found ≡ Err reason)) }
{
    match found {
        Some(span) => Ok(Ok(span_tests(alloc, side, version, negated, span)?)),
        None => Ok(Err(Why::Span)),
    }
}

/// What a protocol says.
fn proto_said(
    alloc: Global,
    negated: bool,
    found: Option<u8>,
) -> Result<Result<Vec<Tests>, Why>, AllocError>
    ensures { IfOk result (λ answer. MatchResult answer (λ said. proto_said negated found ≡ Ok said.items)
        (λ reason. proto_said negated found ≡ Err reason)) }
{
    match found {
        Some(proto) => Ok(Ok(proto_or_not(alloc, negated, proto)?)),
        None => Ok(Err(Why::Protocol)),
    }
}

/// Tests on a protocol, or on all others.
fn proto_or_not(alloc: Global, negated: bool, proto: u8) -> Result<Vec<Tests>, AllocError>
    ensures { IfOk result (λ said. said.items ≡ protos_tests negated proto) }
{
    let mut said = Vec::new(alloc);
    if negated {
        put_other_protos(&mut said, proto, PROTOCOLS)?;
        return Ok(said);
    }
    said.push(proto_tests(proto))?;
    Ok(said)
}

/// What ports say, of a protocol that has them.
fn ports_said(
    alloc: Global,
    ends: Ends,
    negated: bool,
    has: bool,
    several: bool,
    word: &[u8],
) -> Result<Result<Vec<Tests>, Why>, AllocError>
    ensures { IfOk result (λ answer. MatchResult answer (λ said. ports_said ends negated has (ranges_of several word.now) ≡ Ok said.items)
        (λ reason. ports_said ends negated has (ranges_of several word.now) ≡ Err reason)) }
{
    if !has {
        return Ok(Err(Why::Ports));
    }
    let mut ranges = Vec::new(alloc);
    if !put_ranges_of(&mut ranges, several, word)? {
        return Ok(Err(Why::Ports));
    }
    Ok(Ok(ends_or_not(alloc, ends, negated, ranges.as_slice())?))
}

/// Tests on the ports of ranges of one end or of any, or on all others.
fn ends_or_not(
    alloc: Global,
    ends: Ends,
    negated: bool,
    ranges: &[Ports],
) -> Result<Vec<Tests>, AllocError>
    ensures { IfOk result (λ said. said.items ≡ ends_tests ends negated ranges.now) }
{
    match ends {
        Ends::Of(side) => ranges_or_not(alloc, side, negated, ranges),
        Ends::Either => either_or_not(alloc, negated, ranges),
    }
}

/// Tests on a port of either end that is one of these, or on both ports, where neither is.
fn either_or_not(alloc: Global, negated: bool, ranges: &[Ports]) -> Result<Vec<Tests>, AllocError>
    ensures { IfOk result (λ said. said.items ≡ either_tests negated ranges.now) }
{
    let mut senders = ranges_or_not(alloc, Side::Src, negated, ranges)?;
    let receivers = ranges_or_not(alloc, Side::Dst, negated, ranges)?;
    if negated {
        return met_with(alloc, senders.as_slice(), receivers.as_slice());
    }
    senders.extend_from_slice(receivers.as_slice())?;
    Ok(senders)
}

/// Tests on the ports of ranges, or on all others.
fn ranges_or_not(
    alloc: Global,
    side: Side,
    negated: bool,
    ranges: &[Ports],
) -> Result<Vec<Tests>, AllocError>
    ensures { IfOk result (λ said. said.items ≡ ranges_tests side negated ranges.now) }
{
    if negated {
        return apart(alloc, side, ranges);
    }
    each_range(alloc, side, ranges)
}

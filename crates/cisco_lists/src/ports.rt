//! The ports of a side: those of up to ten ranges.

ghost use Rattle.std.specs.Prelude.{◌≡◌};
ghost use Rattle.arrayvec.specs.ArrayVec.{array_vec_len};
ghost use Rattle.cisco_lists.specs.Ports.{above_at, all_ports, below_at, but_at, one_span, port_at, ports_as, ports_at, range_at, several_at, spans_but};
ghost use Rattle.cisco_lists.specs.Walk.{taken};

use crate::cursor::Cursor;
use crate::names::{PortNames, named_port, port_names};
use crate::why::{Why, is_group};
use arrayvec::ArrayVec;
use ip_routes::is_named;

/// The ports from the first to the last.
#[derive(Clone, Copy, Debug, Default, PartialEq, Eq)]
pub(crate) struct Span {
    pub(crate) first: u16,
    pub(crate) last: u16,
}

/// The most ports that one entry names of a side.
const MOST: usize = 10;

/// The ports that the next words are: all of them, where these words don't begin so.
pub(crate) fn ports(at: &mut Cursor<'_>, protocol: Option<u8>) -> ArrayVec<Span, MOST>
    ensures { taken result.items at.new ≡ ports_at protocol at.old }
{
    match port_names(protocol) {
        PortNames::Tcp => ports_as(at, PortNames::Tcp),
        PortNames::Udp => ports_as(at, PortNames::Udp),
        PortNames::Without => all(),
    }
}

/// Those of a protocol that has some.
fn ports_as(at: &mut Cursor<'_>, names: PortNames) -> ArrayVec<Span, MOST>
    ensures { taken result.items at.new ≡ ports_as names at.old }
{
    let word = at.peek();
    if is_named(word, b"eq") {
        at.next();
        return several(at, names);
    }
    if is_named(word, b"neq") {
        at.next();
        return but(at, names);
    }
    if is_named(word, b"gt") {
        at.next();
        return above(at, names);
    }
    if is_named(word, b"lt") {
        at.next();
        return below(at, names);
    }
    if is_named(word, b"range") {
        at.next();
        return range(at, names);
    }
    if is_group(word) {
        at.next();
        at.fail(Why::Group);
        return all();
    }
    all()
}

/// Every port.
fn all() -> ArrayVec<Span, MOST>
    ensures { result.items ≡ all_ports }
{
    one(0, 65535)
}

/// The ports from the first to the last.
fn one(first: u16, last: u16) -> ArrayVec<Span, MOST>
    ensures items { result.items ≡ one_span first last }
    ensures len { array_vec_len result ≡ 1 }
{
    let mut spans = ArrayVec::new();
    spans.push(Span { first, last });
    spans
}

/// The port that the next word is.
fn port(at: &mut Cursor<'_>, names: PortNames) -> u16
    ensures { taken result at.new ≡ port_at names at.old }
{
    let word = at.next();
    match named_port(names, word) {
        Some(port) => port,
        None => {
            at.fail(Why::Port);
            0
        }
    }
}

/// The ports that the next words are, ten at most.
fn several(at: &mut Cursor<'_>, names: PortNames) -> ArrayVec<Span, MOST>
    ensures { taken result.items at.new ≡ several_at names at.old }
{
    let first = port(at, names);
    let mut spans = one(first, first);
    'ports: for round in 0..9u32 {
        match named_port(names, at.peek()) {
            None => return spans,
            Some(port) => {
                at.next();
                spans.push(Span {
                    first: port,
                    last: port,
                });
            }
        }
    }
    spans
}

/// All ports but the next word.
fn but(at: &mut Cursor<'_>, names: PortNames) -> ArrayVec<Span, MOST>
    ensures { taken result.items at.new ≡ but_at names at.old }
{
    let port = port(at, names);
    spans_but(port)
}

/// All ports but this one.
fn spans_but(port: u16) -> ArrayVec<Span, MOST>
    ensures { result.items ≡ spans_but port }
{
    if port == 0 {
        return one(1, 65535);
    }
    let mut spans = one(0, port - 1);
    if port < 65535 {
        spans.push(Span {
            first: port + 1,
            last: 65535,
        });
    }
    spans
}

/// The ports above the next word, of which there has to be one.
fn above(at: &mut Cursor<'_>, names: PortNames) -> ArrayVec<Span, MOST>
    ensures { taken result.items at.new ≡ above_at names at.old }
{
    let port = port(at, names);
    if port == 65535 {
        at.fail(Why::Port);
        return all();
    }
    one(port + 1, 65535)
}

/// The ports below the next word, of which there has to be one.
fn below(at: &mut Cursor<'_>, names: PortNames) -> ArrayVec<Span, MOST>
    ensures { taken result.items at.new ≡ below_at names at.old }
{
    let port = port(at, names);
    if port == 0 {
        at.fail(Why::Port);
        return all();
    }
    one(0, port - 1)
}

/// The ports from the next word to the one behind it, which isn't below it.
fn range(at: &mut Cursor<'_>, names: PortNames) -> ArrayVec<Span, MOST>
    ensures { taken result.items at.new ≡ range_at names at.old }
{
    let first = port(at, names);
    let last = port(at, names);
    if last < first {
        at.fail(Why::Port);
        return all();
    }
    one(first, last)
}

//! Tests on a packet's key, and those that hold where two of them do.

ghost use Rattle.std.specs.Prelude.{◌≡◌, Some};
ghost use Rattle.written_chains.specs.Meets.{greater, lesser, meet, meet_blocks, meet_ports, meet_protos, narrower};

use rule_model::{Ports, Prefix};

/// What a rule tests: one block of each address, a protocol or any, and one range of each port.
#[derive(Clone, Copy, Debug, PartialEq, Eq)]
pub struct Tests {
    pub src: Prefix,
    pub dst: Prefix,
    pub proto: Option<u8>,
    pub sport: Ports,
    pub dport: Ports,
}

/// The tests that hold exactly where both of these do; none where they never hold together.
pub fn meet(a: &Tests, b: &Tests) -> Option<Tests>
    ensures { result ≡ meet a.now b.now }
{
    let src = meet_blocks(&a.src, &b.src)?;
    let dst = meet_blocks(&a.dst, &b.dst)?;
    let proto = meet_protos(a.proto, b.proto)?;
    let sport = meet_ports(&a.sport, &b.sport)?;
    let dport = meet_ports(&a.dport, &b.dport)?;
    Some(Tests {
        src,
        dst,
        proto,
        sport,
        dport,
    })
}

/// The block of the addresses that are in both.
fn meet_blocks(a: &Prefix, b: &Prefix) -> Option<Prefix>
    ensures { result ≡ meet_blocks a.now b.now }
{
    if a.meets(b) {
        return Some(narrower(a, b));
    }
    None
}

/// The longer one of two prefixes.
fn narrower(a: &Prefix, b: &Prefix) -> Prefix
    ensures { result ≡ narrower a.now b.now }
{
    if a.len() <= b.len() { *b } else { *a }
}

/// The protocol that both are.
fn meet_protos(a: Option<u8>, b: Option<u8>) -> Option<Option<u8>>
    ensures { result ≡ meet_protos a b }
{
    match (a, b) {
        (None, other) => Some(other),
        (Some(proto), None) => Some(Some(proto)),
        (Some(proto), Some(other)) => same_proto(proto, other),
    }
}

/// The protocol of two numbers.
fn same_proto(proto: u8, other: u8) -> Option<Option<u8>>
    ensures { result ≡ meet_protos (Some proto) (Some other) }
{
    if proto == other {
        return Some(Some(proto));
    }
    None
}

/// The ports that are in both ranges.
fn meet_ports(a: &Ports, b: &Ports) -> Option<Ports>
    ensures { result ≡ meet_ports a.now b.now }
{
    Ports::new(greater(a.lo(), b.lo()), lesser(a.hi(), b.hi()))
}

/// The greater one of two ports.
fn greater(a: u16, b: u16) -> u16
    ensures { result ≡ greater a b }
{
    if a <= b { b } else { a }
}

/// The lesser one.
fn lesser(a: u16, b: u16) -> u16
    ensures { result ≡ lesser a b }
{
    if a <= b { a } else { b }
}

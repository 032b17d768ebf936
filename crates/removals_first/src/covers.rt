//! Whether a rule matches all that two others both match, told by one of the two at each end.

ghost use Rattle.std.specs.Prelude.{◌≡◌, ◌||◌, ◌&&◌, nat_le};
ghost use Rattle.removals_first.specs.Early as spec;

use rule_model::{Ports, Prefix, Rule};

fn block_within(inner: &Prefix, outer: &Prefix) -> bool
    ensures { result ≡ spec.block_within inner.now outer.now }
{
    outer.len() <= inner.len() && outer.holds(inner.addr())
}

fn block_covers(cover: &Prefix, a: &Prefix, b: &Prefix) -> bool
    ensures { result ≡ spec.block_covers cover.now a.now b.now }
{
    block_within(a, cover) || block_within(b, cover)
}

fn is_proto(number: u8, proto: Option<u8>) -> bool
    ensures { result ≡ spec.is_proto number proto }
{
    match proto {
        None => false,
        Some(proto) => proto == number,
    }
}

fn proto_covers(cover: Option<u8>, a: Option<u8>, b: Option<u8>) -> bool
    ensures { result ≡ spec.proto_covers cover a b }
{
    match cover {
        None => true,
        Some(number) => is_proto(number, a) || is_proto(number, b),
    }
}

fn starts_before(cover: &Ports, a: &Ports, b: &Ports) -> bool
    ensures { result ≡ nat_le cover.now.lo a.now.lo || nat_le cover.now.lo b.now.lo }
{
    cover.lo() <= a.lo() || cover.lo() <= b.lo()
}

fn ends_behind(cover: &Ports, a: &Ports, b: &Ports) -> bool
    ensures { result ≡ nat_le a.now.hi cover.now.hi || nat_le b.now.hi cover.now.hi }
{
    a.hi() <= cover.hi() || b.hi() <= cover.hi()
}

fn range_covers(cover: &Ports, a: &Ports, b: &Ports) -> bool
    ensures { result ≡ spec.range_covers cover.now a.now b.now }
{
    starts_before(cover, a, b) && ends_behind(cover, a, b)
}

fn ports_covered(cover: &Rule, a: &Rule, b: &Rule) -> bool
    ensures { result ≡ spec.range_covers cover.now.sport a.now.sport b.now.sport
        && spec.range_covers cover.now.dport a.now.dport b.now.dport }
{
    range_covers(&cover.sport, &a.sport, &b.sport) && range_covers(&cover.dport, &a.dport, &b.dport)
}

fn rest_covered(cover: &Rule, a: &Rule, b: &Rule) -> bool
    ensures { result ≡ spec.proto_covers cover.now.proto a.now.proto b.now.proto
        && (spec.range_covers cover.now.sport a.now.sport b.now.sport
        && spec.range_covers cover.now.dport a.now.dport b.now.dport) }
{
    proto_covers(cover.proto, a.proto, b.proto) && ports_covered(cover, a, b)
}

/// Whether a rule matches whatever two others both match, where one block, protocol or end of a range of these shows it.
pub(crate) fn rule_covers(cover: &Rule, a: &Rule, b: &Rule) -> bool
    ensures { result ≡ spec.rule_covers cover.now a.now b.now }
{
    let addresses_covered = block_covers(&cover.src, &a.src, &b.src)
        && block_covers(&cover.dst, &a.dst, &b.dst);
    addresses_covered && rest_covered(cover, a, b)
}

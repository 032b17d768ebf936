//! Protocols: of a name or a number, and all others.

ghost use Rattle.std.specs.Prelude.{◌≡◌, ◌≤◌, ◌++◌, Ok, OnOk};
ghost use Rattle.line_words.specs.Kinds as kinds;
ghost use Rattle.iptables.specs.Values.{other_protos, proto_but, proto_named, proto_numbered, proto_of};

use crate::fields::proto_tests;
use crate::words::is_named;
use line_words::protocol_of;
use std::alloc::AllocError;
use written_chains::Tests;

/// A protocol of a name, or of a number above 0, which stands for any.
pub(crate) fn proto_of(word: &[u8]) -> Option<u8>
    ensures { result ≡ proto_of word.now }
{
    match proto_named(word) {
        Some(proto) => Some(proto),
        None => proto_numbered(word),
    }
}

/// A protocol of a name that scripts don't have.
pub fn proto_named(word: &[u8]) -> Option<u8>
    ensures { result ≡ proto_named word.now }
{
    if is_named(word, b"ipv6-icmp") || is_named(word, b"icmpv6") {
        Some(58)
    } else if is_named(word, b"igmp") {
        Some(2)
    } else if is_named(word, b"gre") {
        Some(47)
    } else if is_named(word, b"esp") {
        Some(50)
    } else if is_named(word, b"ah") {
        Some(51)
    } else if is_named(word, b"sctp") {
        Some(132)
    } else {
        None
    }
}

/// A protocol as scripts have it, but no 0.
fn proto_numbered(word: &[u8]) -> Option<u8>
    ensures { result ≡ proto_numbered (kinds.proto_of word.now) }
{
    match protocol_of(word) {
        Ok(proto) => nonzero(proto),
        Err(_) => None,
    }
}

/// A number but 0.
fn nonzero(proto: u8) -> Option<u8>
    ensures { result ≡ proto_numbered (Ok proto) }
{
    if proto == 0 {
        return None;
    }
    Some(proto)
}

/// Puts tests on the last protocols there up to 255, as many as `count` says, but this one.
pub(crate) fn put_other_protos(
    into: &mut Vec<Tests>,
    proto: u8,
    count: u16,
) -> Result<(), AllocError>
    requires { count ≤ 256 }
    ensures { OnOk result (into.new.items ≡ into.old.items ++ other_protos proto count) }
{
    let mut left = count;
    'protocols: while left > 0 {
        left -= 1;
        put_proto_but(into, proto, (255 - left) as u8)?;
    }
    Ok(())
}

/// Puts tests on a protocol there, if it isn't this one.
fn put_proto_but(into: &mut Vec<Tests>, proto: u8, other: u8) -> Result<(), AllocError>
    ensures { OnOk result (into.new.items ≡ into.old.items ++ proto_but proto other) }
{
    if proto == other {
        return Ok(());
    }
    into.push(proto_tests(other))?;
    Ok(())
}

//! Tests on one field, and those that hold where one of these and one of those do.

ghost use Rattle.std.specs.Prelude.{◌≡◌, ◌++◌, IfOk, OnOk};
ghost use Rattle.iptables.specs.Values.{any_tests, block_tests, met_each, met_tests, met_with, port_tests, proto_tests};

use rule_model::{Ports, Prefix};
use std::alloc::{AllocError, Global};
use written_chains::{Tests, meet};

/// An end of a packet's way.
#[derive(Clone, Copy, Debug, PartialEq, Eq)]
pub(crate) enum Side {
    /// Its sender.
    Src,
    /// Its receiver.
    Dst,
}

/// The ends of which a port is tested.
#[derive(Clone, Copy, Debug, PartialEq, Eq)]
pub(crate) enum Ends {
    /// This one.
    Of(Side),
    /// Any of the two.
    Either,
}

/// Tests that hold each packet.
pub fn any_tests() -> Tests
    ensures { result ≡ any_tests }
{
    Tests {
        src: Prefix::any(),
        dst: Prefix::any(),
        proto: None,
        sport: Ports::any(),
        dport: Ports::any(),
    }
}

/// Tests on one address alone.
pub(crate) fn block_tests(side: Side, block: Prefix) -> Tests
    ensures { result ≡ block_tests side block }
{
    match side {
        Side::Src => Tests {
            src: block,
            ..any_tests()
        },
        Side::Dst => Tests {
            dst: block,
            ..any_tests()
        },
    }
}

/// Tests on the protocol alone.
pub(crate) fn proto_tests(proto: u8) -> Tests
    ensures { result ≡ proto_tests proto }
{
    Tests {
        proto: Some(proto),
        ..any_tests()
    }
}

/// Tests on one port alone.
pub(crate) fn port_tests(side: Side, range: Ports) -> Tests
    ensures { result ≡ port_tests side range }
{
    match side {
        Side::Src => Tests {
            sport: range,
            ..any_tests()
        },
        Side::Dst => Tests {
            dport: range,
            ..any_tests()
        },
    }
}

/// The tests that hold where one of these and one of those do.
pub(crate) fn met_with(
    alloc: Global,
    tests: &[Tests],
    others: &[Tests],
) -> Result<Vec<Tests>, AllocError>
    ensures { IfOk result (λ met. met.items ≡ met_with tests.now others.now) }
{
    let mut met = Vec::new(alloc);
    for each in tests {
        put_each(&mut met, each, others)?;
    }
    Ok(met)
}

/// Puts those there that hold where these and one of those do.
fn put_each(into: &mut Vec<Tests>, tests: &Tests, others: &[Tests]) -> Result<(), AllocError>
    ensures { OnOk result (into.new.items ≡ into.old.items ++ met_each tests.now others.now) }
{
    for other in others {
        put_met(into, meet(tests, other))?;
    }
    Ok(())
}

/// Puts tests there, if there are any.
fn put_met(into: &mut Vec<Tests>, met: Option<Tests>) -> Result<(), AllocError>
    ensures { OnOk result (into.new.items ≡ into.old.items ++ met_tests met) }
{
    match met {
        None => Ok(()),
        Some(tests) => {
            into.push(tests)?;
            Ok(())
        }
    }
}

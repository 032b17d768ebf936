//! The forgiving changes that plain numbers stand for, of both versions.

ghost use Rattle.std.specs.Prelude.{◌≡◌};
ghost use Rattle.tcam_c.specs.Puts.{DropsRoute, DropsRoute6, DropsRule, PutsRoute, PutsRoute6, PutsRule, PutsRule6};

use crate::changes::{list_rule_of, prefix_of};
use crate::changes6::{list_rule6_of, prefix6_of};
use crate::codes::NUMBER;
use crate::plain::{TcamAddress, TcamRule, TcamRule6};
use rule_model::{ipv4_route_rank, ipv6_route_rank, ipv6_route_rule, list_rank, route_rule};
use settled_changes::Request;

/// A route is to stand.
pub(crate) fn puts_route(address: u32, length: u8, answer: u32) -> Result<Request, u32>
    ensures { PutsRoute address length answer result }
{
    match prefix_of(address, length) {
        Ok(prefix) => Ok(Request::Put(route_rule(prefix, answer))),
        Err(code) => Err(code),
    }
}

/// A route is to go.
pub(crate) fn drops_route(address: u32, length: u8) -> Result<Request, u32>
    ensures { DropsRoute address length result }
{
    match prefix_of(address, length) {
        Ok(prefix) => Ok(Request::Drop(ipv4_route_rank(&prefix))),
        Err(code) => Err(code),
    }
}

/// A rule of an access list is to stand.
pub(crate) fn puts_rule(rule: &TcamRule) -> Result<Request, u32>
    ensures { PutsRule rule.now result }
{
    match list_rule_of(rule) {
        Ok(made) => Ok(Request::Put(made)),
        Err(code) => Err(code),
    }
}

/// Such a rule is to go, of either version.
pub(crate) fn drops_rule(number: u32) -> Result<Request, u32>
    ensures { DropsRule number result }
{
    if number == 0 {
        return Err(NUMBER);
    }
    Ok(Request::Drop(list_rank(number)))
}

/// A route of IPv6 is to stand.
pub(crate) fn puts_route6(address: &TcamAddress, length: u8, answer: u32) -> Result<Request, u32>
    ensures { PutsRoute6 address.now length answer result }
{
    match prefix6_of(address, length) {
        Ok(prefix) => Ok(Request::Put(ipv6_route_rule(prefix, answer))),
        Err(code) => Err(code),
    }
}

/// A route of IPv6 is to go.
pub(crate) fn drops_route6(address: &TcamAddress, length: u8) -> Result<Request, u32>
    ensures { DropsRoute6 address.now length result }
{
    match prefix6_of(address, length) {
        Ok(prefix) => Ok(Request::Drop(ipv6_route_rank(&prefix))),
        Err(code) => Err(code),
    }
}

/// A rule of an access list with prefixes of IPv6 is to stand.
pub(crate) fn puts_rule6(rule: &TcamRule6) -> Result<Request, u32>
    ensures { PutsRule6 rule.now result }
{
    match list_rule6_of(rule) {
        Ok(made) => Ok(Request::Put(made)),
        Err(code) => Err(code),
    }
}

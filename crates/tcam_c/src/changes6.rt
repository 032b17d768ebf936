//! The commands that plain numbers of IPv6 stand for. A rule is changed and removed by its number alone, as one of IPv4.

ghost use Rattle.std.specs.Prelude.{◌≡◌};
ghost use Rattle.tcam_c.specs.Plain.{address_number};
ghost use Rattle.tcam_c.specs.Codes6.{AddsRoute6, AddsRule6, DelsRoute6, IsPrefix6Or, SetsRoute6};
ghost use Rattle.tcam_c.specs.Puts.{IsListRule6Or};

use crate::codes::{HOST_BITS, NUMBER, PORTS, PREFIX_LENGTH, PROTOCOL};
use crate::plain::{TcamAddress, TcamRule6};
use rule_model::{
    Addr, Ports, Prefix, PrefixFault, Rule, ipv6_route_rank, ipv6_route_rule, list_rank,
};
use rule_store::Command;

/// An address from its halves.
pub(crate) fn whole_address(address: &TcamAddress) -> Addr
    ensures { result ≡ address_number address.now }
{
    (Addr::from(address.upper) << 64) + Addr::from(address.lower)
}

/// A prefix of IPv6, or the code of what is wrong with the numbers.
pub(crate) fn prefix6_of(address: &TcamAddress, length: u8) -> Result<Prefix, u32>
    ensures { IsPrefix6Or address.now length result }
{
    match Prefix::v6(whole_address(address), length) {
        Ok(prefix) => Ok(prefix),
        Err(PrefixFault::Length) => Err(PREFIX_LENGTH),
        Err(PrefixFault::HostBits) => Err(HOST_BITS),
    }
}

/// The addition of a route.
pub(crate) fn adds_route6(address: &TcamAddress, length: u8, answer: u32) -> Result<Command, u32>
    ensures { AddsRoute6 address.now length answer result }
{
    match prefix6_of(address, length) {
        Ok(prefix) => Ok(Command::Add(ipv6_route_rule(prefix, answer))),
        Err(code) => Err(code),
    }
}

/// The change of a route's result.
pub(crate) fn sets_route6(address: &TcamAddress, length: u8, answer: u32) -> Result<Command, u32>
    ensures { SetsRoute6 address.now length answer result }
{
    match prefix6_of(address, length) {
        Ok(prefix) => Ok(Command::Set {
            priority: ipv6_route_rank(&prefix),
            result: answer,
        }),
        Err(code) => Err(code),
    }
}

/// The removal of a route.
pub(crate) fn dels_route6(address: &TcamAddress, length: u8) -> Result<Command, u32>
    ensures { DelsRoute6 address.now length result }
{
    match prefix6_of(address, length) {
        Ok(prefix) => Ok(Command::Del(ipv6_route_rank(&prefix))),
        Err(code) => Err(code),
    }
}

/// The rule of an access list that plain numbers stand for.
pub(crate) fn list_rule6_of(rule: &TcamRule6) -> Result<Rule, u32>
    ensures { IsListRule6Or rule.now result }
{
    if rule.number == 0 {
        return Err(NUMBER);
    }
    let src = match prefix6_of(&rule.source, rule.source_length) {
        Ok(prefix) => prefix,
        Err(code) => return Err(code),
    };
    let dst = match prefix6_of(&rule.destination, rule.destination_length) {
        Ok(prefix) => prefix,
        Err(code) => return Err(code),
    };
    let Some(sport) = Ports::new(rule.source_port_first, rule.source_port_last) else {
        return Err(PORTS);
    };
    let Some(dport) = Ports::new(rule.destination_port_first, rule.destination_port_last) else {
        return Err(PORTS);
    };
    if rule.protocol > 256 {
        return Err(PROTOCOL);
    }
    let proto = if rule.protocol == 256 {
        None
    } else {
        Some(rule.protocol as u8)
    };
    Ok(Rule {
        priority: list_rank(rule.number),
        src,
        dst,
        proto,
        sport,
        dport,
        result: rule.result,
    })
}

/// The addition of a rule of an access list.
pub(crate) fn adds_rule6(rule: &TcamRule6) -> Result<Command, u32>
    ensures { AddsRule6 rule.now result }
{
    match list_rule6_of(rule) {
        Ok(made) => Ok(Command::Add(made)),
        Err(code) => Err(code),
    }
}

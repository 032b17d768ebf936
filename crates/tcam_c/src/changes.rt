//! The commands that plain numbers stand for.

ghost use Rattle.std.specs.Prelude.{◌≡◌};
ghost use Rattle.tcam_c.specs.Codes.{AddsRoute, AddsRule, DelsRoute, DelsRule, IsPrefixOr, SetsRoute, SetsRule};
ghost use Rattle.tcam_c.specs.Puts.{IsListRuleOr};

use crate::codes::{HOST_BITS, NUMBER, PORTS, PREFIX_LENGTH, PROTOCOL};
use crate::plain::TcamRule;
use rule_model::{Ports, Prefix, PrefixFault, Rule, ipv4_route_rank, list_rank, route_rule};
use rule_store::Command;

/// A prefix of IPv4, or the code of what is wrong with the numbers.
pub(crate) fn prefix_of(address: u32, length: u8) -> Result<Prefix, u32>
    ensures { IsPrefixOr address length result }
{
    match Prefix::v4(address, length) {
        Ok(prefix) => Ok(prefix),
        Err(PrefixFault::Length) => Err(PREFIX_LENGTH),
        Err(PrefixFault::HostBits) => Err(HOST_BITS),
    }
}

/// The addition of a route.
pub(crate) fn adds_route(address: u32, length: u8, answer: u32) -> Result<Command, u32>
    ensures { AddsRoute address length answer result }
{
    match prefix_of(address, length) {
        Ok(prefix) => Ok(Command::Add(route_rule(prefix, answer))),
        Err(code) => Err(code),
    }
}

/// The change of a route's result.
pub(crate) fn sets_route(address: u32, length: u8, answer: u32) -> Result<Command, u32>
    ensures { SetsRoute address length answer result }
{
    match prefix_of(address, length) {
        Ok(prefix) => Ok(Command::Set {
            priority: ipv4_route_rank(&prefix),
            result: answer,
        }),
        Err(code) => Err(code),
    }
}

/// The removal of a route.
pub(crate) fn dels_route(address: u32, length: u8) -> Result<Command, u32>
    ensures { DelsRoute address length result }
{
    match prefix_of(address, length) {
        Ok(prefix) => Ok(Command::Del(ipv4_route_rank(&prefix))),
        Err(code) => Err(code),
    }
}

/// The rule of an access list that plain numbers stand for.
pub(crate) fn list_rule_of(rule: &TcamRule) -> Result<Rule, u32>
    ensures { IsListRuleOr rule.now result }
{
    if rule.number == 0 {
        return Err(NUMBER);
    }
    let src = match prefix_of(rule.source, rule.source_length) {
        Ok(prefix) => prefix,
        Err(code) => return Err(code),
    };
    let dst = match prefix_of(rule.destination, rule.destination_length) {
        Ok(prefix) => prefix,
        Err(code) => return Err(code),
    };
    let Some(sport) = Ports::new(rule.source_port_first, rule.source_port_last) else {
        return Err(PORTS);
    };
    let Some(dport) = Ports::new(rule.destination_port_first, rule.destination_port_last) else {
        return Err(PORTS);
    };
    if rule.protocol > 256 {
        return Err(PROTOCOL);
    }
    let proto = if rule.protocol == 256 {
        None
    } else {
        Some(rule.protocol as u8)
    };
    Ok(Rule {
        priority: list_rank(rule.number),
        src,
        dst,
        proto,
        sport,
        dport,
        result: rule.result,
    })
}

/// The addition of a rule of an access list.
pub(crate) fn adds_rule(rule: &TcamRule) -> Result<Command, u32>
    ensures { AddsRule rule.now result }
{
    match list_rule_of(rule) {
        Ok(made) => Ok(Command::Add(made)),
        Err(code) => Err(code),
    }
}

/// The change of such a rule's result.
pub(crate) fn sets_rule(number: u32, answer: u32) -> Result<Command, u32>
    ensures { SetsRule number answer result }
{
    if number == 0 {
        return Err(NUMBER);
    }
    Ok(Command::Set {
        priority: list_rank(number),
        result: answer,
    })
}

/// The removal of such a rule.
pub(crate) fn dels_rule(number: u32) -> Result<Command, u32>
    ensures { DelsRule number result }
{
    if number == 0 {
        return Err(NUMBER);
    }
    Ok(Command::Del(list_rank(number)))
}

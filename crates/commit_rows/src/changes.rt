//! Batches as rows of changes.
use rule_model::{Ports, Prefix, PrefixFault, Rank, Rule, ipv4_route_rank, list_rank, route_rule};
use rule_store::{Batch, Command, PushFault};
use std::alloc::Global;
use thiserror::Error;

/// One change of a batch. Priorities are those of IPv4 routes, by address and length, and of an access list's rules, by
/// sequence number. Where no other result is given it is the length, or the sequence number.
#[derive(Clone, Copy, Debug)]
pub enum Change {
    /// A route comes.
    Route(u32, u8),
    /// A route comes, with a result.
    RouteTo(u32, u8, u32),
    /// A route gets another result.
    Result(u32, u8, u32),
    /// A route goes.
    NoRoute(u32, u8),
    /// A rule comes for the packets to a prefix.
    Line(u32, u32, u8),
    /// A rule comes for the packets from some ports to some.
    Ports(u32, (u16, u16), (u16, u16)),
    /// The same with a result.
    PortsTo(u32, (u16, u16), (u16, u16), u32),
    /// A rule gets another result.
    RuleResult(u32, u32),
    /// A rule goes.
    NoRule(u32),
}

/// Every port.
pub const ANY_PORT: (u16, u16) = (0, 65_535);

/// Why a row makes no batch.
#[derive(Clone, Copy, Debug, PartialEq, Eq, Error)]
pub enum ChangeFault {
    /// Its prefix is none.
    #[error("no prefix: {0}")]
    Prefix(PrefixFault),
    /// The first of some ports is above the last.
    #[error("no port range")]
    Ports,
    /// The batch doesn't take its command.
    #[error("the batch takes no more: {0}")]
    Batch(PushFault),
}

impl From<PrefixFault> for ChangeFault {
    fn from(fault: PrefixFault) -> ChangeFault {
        ChangeFault::Prefix(fault)
    }
}

impl From<PushFault> for ChangeFault {
    fn from(fault: PushFault) -> ChangeFault {
        ChangeFault::Batch(fault)
    }
}

/// The rank of an IPv4 route.
fn route_rank(addr: u32, len: u8) -> Result<Rank, ChangeFault> {
    Ok(ipv4_route_rank(&Prefix::v4(addr, len)?))
}

/// A route with its result.
fn route(addr: u32, len: u8, answer: u32) -> Result<Rule, ChangeFault> {
    Ok(route_rule(Prefix::v4(addr, len)?, answer))
}

/// The rule at a sequence number for the packets to a prefix.
fn line(sequence: u32, addr: u32, len: u8) -> Result<Rule, ChangeFault> {
    let mut rule = route(addr, len, sequence)?;
    rule.priority = list_rank(sequence);
    Ok(rule)
}

/// A range of ports.
fn range((lo, hi): (u16, u16)) -> Result<Ports, ChangeFault> {
    Ports::new(lo, hi).ok_or(ChangeFault::Ports)
}

/// The rule at a sequence number for the packets from some ports to some, with its result.
fn of_ports(
    sequence: u32,
    from: (u16, u16),
    to: (u16, u16),
    answer: u32,
) -> Result<Rule, ChangeFault> {
    Ok(Rule {
        priority: list_rank(sequence),
        src: Prefix::any(),
        dst: Prefix::any(),
        proto: None,
        sport: range(from)?,
        dport: range(to)?,
        result: answer,
    })
}

/// A change as a command.
pub fn command(change: Change) -> Result<Command, ChangeFault> {
    Ok(match change {
        Change::Route(addr, len) => Command::Add(route(addr, len, u32::from(len))?),
        Change::RouteTo(addr, len, result) => Command::Add(route(addr, len, result)?),
        Change::Line(sequence, addr, len) => Command::Add(line(sequence, addr, len)?),
        Change::Ports(sequence, from, to) => Command::Add(of_ports(sequence, from, to, sequence)?),
        Change::PortsTo(sequence, from, to, result) => {
            Command::Add(of_ports(sequence, from, to, result)?)
        }
        Change::Result(addr, len, result) => Command::Set {
            priority: route_rank(addr, len)?,
            result,
        },
        Change::RuleResult(sequence, result) => Command::Set {
            priority: list_rank(sequence),
            result,
        },
        Change::NoRoute(addr, len) => Command::Del(route_rank(addr, len)?),
        Change::NoRule(sequence) => Command::Del(list_rank(sequence)),
    })
}

/// A batch of these changes.
pub fn batch(alloc: Global, changes: &[Change]) -> Result<Batch, ChangeFault> {
    let mut batch = Batch::new(alloc);
    for change in changes {
        batch.push(command(*change)?)?;
    }
    Ok(batch)
}

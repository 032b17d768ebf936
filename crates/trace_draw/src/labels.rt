//! What an entry is called: the prefix of a route or the number of a list's rule, and its result.

use rule_model::{Entry, IpVersion, Rank, list_number_of};
use std::fmt;
use std::net::{Ipv4Addr, Ipv6Addr};

/// The version of IP of a trace, whether its rules are an access list, how port ranges are tested, and the slots in use.
#[derive(Clone, Copy, Debug)]
pub(crate) struct Head {
    pub(crate) version: IpVersion,
    pub(crate) acl: bool,
    pub(crate) bits: bool,
    pub(crate) slots: u32,
}

/// What an entry's rule is called.
#[derive(Clone, Copy, Debug)]
pub(crate) enum Name {
    /// An IPv4 route, by its address and length.
    Ipv4(u32, u32),
    /// An IPv6 route, likewise.
    Ipv6(u128, u32),
    /// A rule of an access list.
    Sequence(u32),
    /// One whose priority is no such rule's.
    Priority(Rank),
}

/// What a packet gets.
#[derive(Clone, Copy, Debug)]
pub(crate) enum Answer {
    Permit,
    Deny,
    /// A list's result that is neither.
    Other(u32),
    Number(u32),
}

/// An entry in a picture.
#[derive(Clone, Copy, Debug)]
pub(crate) struct Label {
    pub(crate) name: Name,
    pub(crate) answer: Answer,
}

impl Label {
    /// The label of an entry in a trace.
    pub(crate) fn of(head: &Head, entry: &Entry) -> Label {
        Label {
            name: name_of(head, entry),
            answer: answer_of(head, entry.result),
        }
    }
}

/// What an entry's rule is called: in a list by its priority, else by the destinations that it hits.
fn name_of(head: &Head, entry: &Entry) -> Name {
    if head.acl {
        return match list_number_of(entry.tag) {
            Some(sequence) if sequence > 0 => Name::Sequence(sequence),
            _ => Name::Priority(entry.tag),
        };
    }
    match head.version {
        IpVersion::V4 => {
            let mask = entry.mask.lane[4];
            Name::Ipv4(entry.value.lane[4] & mask, mask.leading_ones())
        }
        IpVersion::V6 => {
            let mask = destination(&entry.mask.lane);
            Name::Ipv6(destination(&entry.value.lane) & mask, mask.leading_ones())
        }
    }
}

/// The 128 bits of a destination address.
fn destination(lanes: &[u32; 11]) -> u128 {
    let upper = (u128::from(lanes[4]) << 96) | (u128::from(lanes[5]) << 64);
    upper | (u128::from(lanes[6]) << 32) | u128::from(lanes[7])
}

/// What a packet gets by a result.
fn answer_of(head: &Head, number: u32) -> Answer {
    match number {
        0 if head.acl => Answer::Deny,
        1 if head.acl => Answer::Permit,
        _ if head.acl => Answer::Other(number),
        _ => Answer::Number(number),
    }
}

impl fmt::Display for Name {
    fn fmt<W: fmt::Write>(&self, f: &mut fmt::Formatter<W>) -> fmt::Result {
        match self {
            Name::Ipv4(address, length) => {
                let address = Ipv4Addr::from_bits(*address);
                write!(f, "{address}/{length}")
            }
            // In groups alone, as reports have an address.
            Name::Ipv6(address, length) => {
                let address = Ipv6Addr::from_bits(*address);
                write!(f, "{}/{length}", address.hex_groups())
            }
            Name::Sequence(sequence) => write!(f, "{sequence}"),
            Name::Priority(priority) => write!(f, "priority {priority}"),
        }
    }
}

impl fmt::Display for Answer {
    fn fmt<W: fmt::Write>(&self, f: &mut fmt::Formatter<W>) -> fmt::Result {
        match self {
            Answer::Permit => write!(f, "permit"),
            Answer::Deny => write!(f, "deny"),
            Answer::Other(number) => write!(f, "={number}"),
            Answer::Number(number) => write!(f, "{number}"),
        }
    }
}

impl fmt::Display for Label {
    fn fmt<W: fmt::Write>(&self, f: &mut fmt::Formatter<W>) -> fmt::Result {
        write!(f, "{} {}", self.name, self.answer)
    }
}

//! What a user calls a rule, whose priority is all that a refusal has of it.

ghost use Rattle.std.specs.Prelude.{◌≡◌};

use rule_model::{IpVersion, Rank, ipv4_route_of, ipv6_route_of, list_number_of};
use std::fmt;
use std::net::{Ipv4Addr, Ipv6Addr};

/// The name of a rule by its priority, as reports over routes of a version of IP have it: the prefix of a route, as
/// 10.0.0.0/8 or 2001:db8::/32, or the sequence number of a rule of an access list. No priority is that of both; one
/// that is neither's is written by its parts.
#[derive(Clone, Copy, Debug, PartialEq, Eq)]
pub struct RuleName {
    pub priority: Rank,
    pub version: IpVersion,
}

impl RuleName {
    /// Writes the prefix of a route, and answers whether the priority is that of one.
    fn write_route<W: fmt::Write>(&self, f: &mut fmt::Formatter<W>) -> Result<bool, fmt::Error> {
        match self.version {
            IpVersion::V4 => {
                let Some(prefix) = ipv4_route_of(self.priority) else {
                    return Ok(false);
                };
                let address = Ipv4Addr::from_bits((prefix.addr() >> 96) as u32);
                write!(f, "{address}/{}", prefix.len())?;
            }
            IpVersion::V6 => {
                let Some(prefix) = ipv6_route_of(self.priority) else {
                    return Ok(false);
                };
                // In groups alone, as reports have an address: `Display` would end ::ffff:0:0/96 in dotted form.
                let address = Ipv6Addr::from_bits(prefix.addr());
                write!(f, "{}/{}", address.hex_groups(), prefix.len())?;
            }
        }
        Ok(true)
    }
}

impl fmt::Display for RuleName {
    fn fmt<W: fmt::Write>(&self, f: &mut fmt::Formatter<W>) -> fmt::Result {
        if self.write_route(f)? {
            return Ok(());
        }
        let priority = self.priority;
        match list_number_of(priority) {
            Some(number) => write!(f, "{number}"),
            None => write!(f, "priority {priority}"),
        }
    }
}

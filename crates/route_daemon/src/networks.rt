//! Prefixes of either version of IP, as routes have them.

ghost use Rattle.std.specs.Prelude.{◌≡◌, ◌≢◌, ◌↔◌, ◌<◌, ◌≤◌, ◌-◌, ◌%◌, ◌^◌, Err, IfOk};
ghost use Rattle.route_daemon.specs.Asked.{address_in, length_in, longest_in, route_priority, route_to};

use rule_model::{
    Prefix, PrefixFault, Rank, Rule, ipv4_route_rank, ipv6_route_rank, ipv6_route_rule, route_rule,
};

/// The packets that a route is for: those to a prefix, by its address as a number and its length. 10.0.0.0/8 is
/// `V4(0x0a00_0000, 8)`, and 2001:db8::/32 is `V6(0x2001_0db8 << 96, 32)`. A manager has networks of one version.
#[derive(Clone, Copy, Debug, PartialEq, Eq)]
pub enum Network {
    /// Of IPv4, with a length up to 32.
    V4(u32, u8),
    /// Of IPv6, with a length up to 128.
    V6(u128, u8),
}

/// The route of a network to a port. It fails where the network is no prefix: too long, or with a bit set past its
/// length.
pub(crate) fn route_of(network: Network, port: u32) -> Result<Rule, PrefixFault>
    ensures route { IfOk result (λ rule. rule ≡ route_to network port) }
    ensures length { (result ≡ Err PrefixFault.Length) ↔ (longest_in network < length_in network) }
    ensures host_bits { (result ≡ Err PrefixFault.HostBits) ↔ ((length_in network ≤ longest_in network) × (address_in network % 2 ^ (longest_in network - length_in network) ≢ 0)) }
{
    match network {
        Network::V4(address, length) => Ok(route_rule(Prefix::v4(address, length)?, port)),
        Network::V6(address, length) => Ok(ipv6_route_rule(Prefix::v6(address, length)?, port)),
    }
}

/// The priority of a network's route. It fails as [`route_of`] does.
pub(crate) fn priority_of(network: Network) -> Result<Rank, PrefixFault>
    ensures priority { IfOk result (λ priority. priority ≡ route_priority network) }
    ensures length { (result ≡ Err PrefixFault.Length) ↔ (longest_in network < length_in network) }
    ensures host_bits { (result ≡ Err PrefixFault.HostBits) ↔ ((length_in network ≤ longest_in network) × (address_in network % 2 ^ (longest_in network - length_in network) ≢ 0)) }
{
    match network {
        Network::V4(address, length) => Ok(ipv4_route_rank(&Prefix::v4(address, length)?)),
        Network::V6(address, length) => Ok(ipv6_route_rank(&Prefix::v6(address, length)?)),
    }
}

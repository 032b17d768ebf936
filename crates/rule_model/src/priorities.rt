//! The priorities of routes and of rules of access lists, and routes as rules.

ghost use Rattle.std.specs.Prelude.{ℕ, ◌≡◌, ◌≢◌, ◌<◌, ◌^◌, IsNone, IfSome};
ghost use Rattle.rule_model.specs.AddressBlock.{AddressBlock, IsAddressBlock, IsIpv4Block};
ghost use Rattle.rule_model.specs.Rank as rank;
ghost use Rattle.rule_model.specs.Rule.{route_rule};

use crate::{Ports, Prefix, Rank, Rule};

/// The priority of an IPv4 route: its length and, below that, its address, so that a longer prefix is greater.
pub fn ipv4_route_rank(prefix: &Prefix) -> Rank
    ensures { result ≡ rank.ipv4_route_rank prefix.now }
{
    Rank {
        high: prefix.len(),
        low: prefix.addr() >> 96,
    }
}

/// The priority of an IPv6 route, likewise: its length and, below that, the 128 bits of its address.
pub fn ipv6_route_rank(prefix: &Prefix) -> Rank
    ensures { result ≡ rank.ipv6_route_rank prefix.now }
{
    Rank {
        high: prefix.len(),
        low: prefix.addr(),
    }
}

/// The priority of a rule of an access list, so that a lower sequence number is greater.
pub fn list_rank(sequence: u32) -> Rank
    ensures { result ≡ rank.list_rank sequence }
{
    Rank {
        high: 0,
        low: (1u128 << 32) - u128::from(sequence),
    }
}

/// The prefix whose priority as an IPv4 route a rank is, and None where it is that of no IPv4 route.
pub fn ipv4_route_of(priority: Rank) -> Option<Prefix>
    ensures found { IfSome result (λ prefix. IsIpv4Block prefix × (rank.ipv4_route_rank prefix ≡ priority)) }
    ensures none { IsNone result → (block : AddressBlock) → IsAddressBlock block → IsIpv4Block block → rank.ipv4_route_rank block ≢ priority }
{
    if priority.low >> 32 != 0 {
        return None;
    }
    Prefix::v4(priority.low as u32, priority.high).ok()
}

/// The prefix whose priority as an IPv6 route a rank is, and None where it is that of no IPv6 route.
pub fn ipv6_route_of(priority: Rank) -> Option<Prefix>
    ensures found { IfSome result (λ prefix. rank.ipv6_route_rank prefix ≡ priority) }
    ensures none { IsNone result → (block : AddressBlock) → IsAddressBlock block → rank.ipv6_route_rank block ≢ priority }
{
    Prefix::v6(priority.low, priority.high).ok()
}

/// The sequence number whose priority in an access list a rank is, and None where it is that of no such number.
pub fn list_number_of(priority: Rank) -> Option<u32>
    ensures found { IfSome result (λ sequence. rank.list_rank sequence ≡ priority) }
    ensures none { IsNone result → (sequence : ℕ) → sequence < 2 ^ 32 → rank.list_rank sequence ≢ priority }
{
    if priority.high != 0 || priority.low == 0 || priority.low > 1u128 << 32 {
        return None;
    }
    Some(((1u128 << 32) - priority.low) as u32)
}

/// A route of IPv4: a rule on the destination address alone.
pub fn route_rule(prefix: Prefix, answer: u32) -> Rule
    ensures { result ≡ route_rule (rank.ipv4_route_rank prefix) prefix answer }
{
    Rule {
        priority: ipv4_route_rank(&prefix),
        src: Prefix::any(),
        dst: prefix,
        proto: None,
        sport: Ports::any(),
        dport: Ports::any(),
        result: answer,
    }
}

/// A route of IPv6, likewise.
pub fn ipv6_route_rule(prefix: Prefix, answer: u32) -> Rule
    ensures { result ≡ route_rule (rank.ipv6_route_rank prefix) prefix answer }
{
    Rule {
        priority: ipv6_route_rank(&prefix),
        src: Prefix::any(),
        dst: prefix,
        proto: None,
        sport: Ports::any(),
        dport: Ports::any(),
        result: answer,
    }
}

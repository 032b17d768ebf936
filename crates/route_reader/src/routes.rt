//! The rules that the routes of a script are, by the version of IP.

ghost use Rattle.std.specs.Prelude.{◌≡◌};
ghost use Rattle.rule_model.specs.Routes.{IsIpv4Route};
ghost use Rattle.rule_model.specs.Routes6.{IsIpv6Route};
ghost use Rattle.rule_model.specs.Rule as rule;
ghost use Rattle.route_reader.specs.Routes as routes;

use rule_model::{
    IpVersion, Prefix, Rank, Rule, ipv4_route_rank, ipv6_route_rank, ipv6_route_rule, route_rule,
    rule_conditions,
};

/// The priority of a route of a version of IP, by its prefix.
pub fn route_rank(prefix: &Prefix, version: IpVersion) -> Rank
    ensures { result ≡ routes.route_rank version prefix.now }
{
    match version {
        IpVersion::V4 => ipv4_route_rank(prefix),
        IpVersion::V6 => ipv6_route_rank(prefix),
    }
}

/// The rule of a route of a version of IP, by its prefix and its result.
pub fn route_of(prefix: Prefix, answer: u32, version: IpVersion) -> Rule
    requires { routes.IsBlockOf version prefix }
    ensures rule { result ≡ rule.route_rule (routes.route_rank version prefix) prefix answer }
    ensures ipv4 { version ≡ IpVersion.V4 → IsIpv4Route result }
    ensures ipv6 { version ≡ IpVersion.V6 → IsIpv6Route result }
{
    let rule = match version {
        IpVersion::V4 => route_rule(prefix, answer),
        IpVersion::V6 => ipv6_route_rule(prefix, answer),
    };
    rule_conditions(&rule);
    rule
}

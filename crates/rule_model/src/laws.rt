//! Laws as calls: each makes nothing, and its contract is the law.
ghost use Rattle.std.specs.Prelude.{IfSome, ◌<◌, ◌^◌};
ghost use Rattle.rule_model.specs.Key.{IsKey};
ghost use Rattle.rule_model.specs.Rule.{AreConditions, HasConditions};
ghost use Rattle.rule_model.specs.RuleSet.{AnswersByItsBestRule, AnswersInAnyOrder};
ghost use Rattle.rule_model.specs.Routes.{Ipv4RoutesAreNested, Ipv4ChainsAreShort};
ghost use Rattle.rule_model.specs.Routes6.{Ipv6RoutesAreNested, Ipv6ChainsAreShort};

use crate::{Key, Piece, Rule};

/// The numbers of a key are within their fields, by their types.
pub fn key_fields(key: &Key)
    ensures { IsKey key.now }
{
    let (_src, _dst) = (key.src, key.dst);
    let (_proto, _sport, _dport) = (key.proto, key.sport, key.dport);
}

/// The blocks, the protocol and the ranges of a rule are right, by their types.
pub fn rule_conditions(rule: &Rule)
    ensures { HasConditions rule.now }
{
    piece_conditions(&Piece::whole(rule));
}

/// The blocks, the protocol and the ranges of a piece are right, by their types.
pub fn piece_conditions(piece: &Piece)
    ensures { AreConditions piece.now.src piece.now.dst piece.now.proto piece.now.sport piece.now.dport }
{
    let _ = (
        piece.src.addr(),
        piece.dst.addr(),
        piece.sport.lo(),
        piece.dport.lo(),
    );
    proto_fits(piece.proto);
}

/// What a set of rules answers is the result of a rule of it that matches the key, and that no other one which matches
/// it exceeds in priority; and nothing only where none matches.
pub fn answers_by_its_best_rule()
    ensures { AnswersByItsBestRule }
{}

/// The order in which a set of rules is listed doesn't change what it answers.
pub fn answers_in_any_order()
    ensures { AnswersInAnyOrder }
{}

/// Of two IPv4 routes that overlap, the one of greater priority has the longer prefix, which lies in the other.
pub fn ipv4_routes_are_nested()
    ensures { Ipv4RoutesAreNested }
{}

/// A chain of IPv4 routes, each overlapping the next, has 33 members at most, one for each length.
pub fn ipv4_chains_are_short()
    ensures { Ipv4ChainsAreShort }
{}

/// Of two IPv6 routes that overlap, the one of greater priority has the longer prefix, which lies in the other.
pub fn ipv6_routes_are_nested()
    ensures { Ipv6RoutesAreNested }
{}

/// A chain of IPv6 routes, each overlapping the next, has 129 members at most, one for each length.
pub fn ipv6_chains_are_short()
    ensures { Ipv6ChainsAreShort }
{}

/// A protocol has 8 bits, by its type.
fn proto_fits(proto: Option<u8>)
    ensures { IfSome proto (λ number. number < 2 ^ 8) }
{
    if let Some(_number) = proto {}
}

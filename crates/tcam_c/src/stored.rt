//! The rules of a set by their places.

ghost use Rattle.std.specs.Prelude.{◌≡◌, ◌+◌, ◌<◌, ◌^◌, IsSome, slice_get};
ghost use Rattle.rule_model.specs.RuleSet.{IsRuleSet};

use rule_model::Rule;
use rule_store::Store;

/// The rule at a place, from 0 by falling priority, or None where there is none. Behind one that there is another place
/// can be counted.
pub(crate) fn rule_at_place(rules: &Store, place: u32) -> Option<Rule>
    ensures rule { result ≡ slice_get rules.now.rules place }
    ensures more { IsSome result → place + 1 < 2 ^ 32 }
    ensures falling { IsRuleSet rules.now.rules }
{
    if place < rules.len() {
        Some(*rules.at(place))
    } else {
        None
    }
}

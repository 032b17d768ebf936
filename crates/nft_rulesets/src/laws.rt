//! Laws as calls: each makes nothing, and its contract is the law.

ghost use Rattle.nft_rulesets.specs.Laws.{BlocksAreTheSpan, ComparisonsHoldWhatTheySay, ElementsHoldTogether, OutsideIsTheRest, PairsAreApart, PartsHoldTogether};

use written_chains::lists_answer_as_walks;

/// An address is in one of the blocks of a span exactly where it is in the span.
pub fn blocks_are_the_span()
    ensures { BlocksAreTheSpan }
{}

/// A number is outside of some spans exactly where none of them has it.
pub fn outside_is_the_rest()
    ensures { OutsideIsTheRest }
{}

/// A comparison leaves of a rule's tests those packets whose field is in one of its spans, or, where it is negated, in none.
pub fn comparisons_hold_what_they_say()
    ensures { ComparisonsHoldWhatTheySay }
{
    // Of two tests that meet it is known by a list: the one of a rule that jumps to another rule.
    lists_answer_as_walks();
}

/// An element of fields together leaves of a rule's tests those packets that have each field in its part, as of a map's pair.
pub fn parts_hold_together()
    ensures { PartsHoldTogether }
{
    lists_answer_as_walks();
}

/// A comparison with a set of such elements leaves those that one of them holds.
pub fn elements_hold_together()
    ensures { ElementsHoldTogether }
{
    lists_answer_as_walks();
}

/// Of a map of fields together that is said no pair has a packet of one before it that lets packets go on.
pub fn pairs_are_apart()
    ensures { PairsAreApart }
{
    lists_answer_as_walks();
}

//! Searches of the rules by falling priority: the blocks are halved, and then a block.

ghost use Rattle.std.specs.Prelude.{◌≡◌, ◌+◌, ◌<◌, ◌≤◌, None, Some, drop, length, option_copied, MatchOption};
ghost use Rattle.counted_blocks.specs.Counted.{block_at, items_of, start_of};
ghost use Rattle.rule_model.specs.RuleSet.{IsRuleSet, best_rule};
ghost use Rattle.rule_store.specs.Store.{AreKeyed, IsAround, IsPlace, rules_under};

use counted_blocks::CountedBlocks;
use rule_model::{Key, Rank, Rule, matches};

// The last block whose first rule is above a priority, or the first block.
fn block_of(rules: &[Rule], order: &CountedBlocks, priority: Rank) -> u32
    requires some { 0 < length order.now.blocks }
    requires keyed { AreKeyed rules.now (items_of order.now.blocks) }
    requires falling { IsRuleSet (rules_under rules.now (items_of order.now.blocks)) }
    ensures { IsAround (rules_under rules.now (items_of order.now.blocks)) priority order.now.blocks result }
{
    let mut low = 1;
    let mut high = order.block_count();
    while low < high {
        let middle = low + (high - low) / 2;
        let item = order.item(middle, 0);
        if priority < rules[item.key as usize].priority {
            low = middle + 1;
        } else {
            high = middle;
        }
    }
    low - 1
}

// The place in a block of the first rule whose priority isn't above this one, by halving.
fn place_in(rules: &[Rule], order: &CountedBlocks, block: u32, priority: Rank) -> u32
    requires around { IsAround (rules_under rules.now (items_of order.now.blocks)) priority order.now.blocks block }
    requires keyed { AreKeyed rules.now (items_of order.now.blocks) }
    requires falling { IsRuleSet (rules_under rules.now (items_of order.now.blocks)) }
    ensures within { result ≤ length (block_at order.now.blocks block) }
    ensures place { IsPlace (rules_under rules.now (items_of order.now.blocks)) priority (start_of order.now.blocks block + result) }
{
    let mut low = 0;
    let mut high = order.block_len(block);
    while low < high {
        let middle = low + (high - low) / 2;
        let item = order.item(block, middle);
        if priority < rules[item.key as usize].priority {
            low = middle + 1;
        } else {
            high = middle;
        }
    }
    low
}

/// The place of the first rule whose priority isn't above this one.
pub(crate) fn place_of(rules: &[Rule], order: &CountedBlocks, priority: Rank) -> u32
    requires keyed { AreKeyed rules.now (items_of order.now.blocks) }
    requires falling { IsRuleSet (rules_under rules.now (items_of order.now.blocks)) }
    ensures { IsPlace (rules_under rules.now (items_of order.now.blocks)) priority result }
{
    let _count = order.len();
    if order.block_count() == 0 {
        return 0;
    }
    let block = block_of(rules, order, priority);
    let place = place_in(rules, order, block, priority);
    order.start(block) + place
}

/// The first rule of a block that matches a packet's key, if one does: the best of the rules from the block's first one on.
pub(crate) fn best_in<'a>(
    rules: &'a [Rule],
    order: &CountedBlocks,
    block: u32,
    key: &Key,
) -> Option<&'a Rule>
    requires block { block < length order.now.blocks }
    requires keyed { AreKeyed rules.now (items_of order.now.blocks) }
    requires falling { IsRuleSet (rules_under rules.now (items_of order.now.blocks)) }
    ensures { MatchOption result
        (best_rule (drop (start_of order.now.blocks block) (rules_under rules.now (items_of order.now.blocks))) key.now
        ≡ best_rule (drop (start_of order.now.blocks (block + 1)) (rules_under rules.now (items_of order.now.blocks))) key.now)
        (λ rule. best_rule (drop (start_of order.now.blocks block) (rules_under rules.now (items_of order.now.blocks))) key.now ≡ Some rule.now) }
{
    for i in 0..order.block_len(block) {
        let rule = &rules[order.item(block, i).key as usize];
        if matches(rule, key) {
            return Some(rule);
        }
    }
    None
}

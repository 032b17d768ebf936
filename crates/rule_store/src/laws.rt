//! Laws as calls: each makes nothing, and its contract is the law.
ghost use Rattle.rule_store.specs.Batch.{HasAddedAndKeptRules, IsASetAfterward};

/// The set after a batch has the rules that the batch adds, and those of the old set that it doesn't remove, with the
/// results that it gives them; and no others.
pub fn has_added_and_kept_rules()
    ensures { HasAddedAndKeptRules }
{}

/// After a sound batch the rules are a set again: no priority stands twice.
pub fn is_a_set_afterward()
    ensures { IsASetAfterward }
{}

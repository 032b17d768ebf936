//! Laws as calls: each makes nothing, and its contract is the law.
ghost use Rattle.rule_entries.specs.RuleEntries.{RuleEntriesAnswer};

/// The first entry of a set that hits a key's word answers as the set, whatever words the tables have.
pub fn rule_entries_answer()
    ensures { RuleEntriesAnswer }
{}

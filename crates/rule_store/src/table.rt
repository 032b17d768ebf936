//! Rules by their keys, and the keys that no rule has.

ghost use Rattle.std.specs.Prelude.{◌≡◌, ◌+◌, ◌-◌, ◌^◌, ◌<◌, ◌≤◌, [], All, length, vec_capacity, vec_len};
ghost use Rattle.rule_store.specs.Store.{PutsRule};

use rule_model::Rule;

/// Puts a rule under a key that none has: one that was given up, or else the next.
pub(crate) fn put(rules: &mut Vec<Rule>, free: &mut Vec<u32>, rule: Rule) -> u32
    requires within { All (λ key. key < length rules.old.items) free.old.items }
    requires few { free.old.items ≡ [] → length rules.old.items + 1 < 2 ^ 32 }
    requires room { free.old.items ≡ [] → length rules.old.items < vec_capacity rules.old }
    ensures puts { PutsRule rules.old.items free.old.items rules.new.items free.new.items result rule }
    ensures capacity { vec_capacity rules.new ≡ vec_capacity rules.old }
    ensures free_capacity { vec_capacity free.new ≡ vec_capacity free.old }
{
    match free.pop() {
        Some(key) => {
            rules[key as usize] = rule;
            key
        }
        None => {
            let key = rules.len() as u32;
            rules.push_reserved(rule);
            key
        }
    }
}

/// How many places more a table needs for some rules more, where so many of its places are free.
pub(crate) fn room_for(free: usize, more: usize) -> usize
    ensures { result ≡ more - free }
{
    more.saturating_sub(free)
}

//! A set of rules by falling priority.

ghost use Rattle.std.specs.Prelude.{◌≡◌, ◌↔◌, ◌+◌, ◌*◌, ◌<◌, ◌≤◌, ◌^◌, [], None, Some, IsTrue, IsFalse, OnOk, OnErr, length, slice_get, option_copied, is_some, MatchResult};
ghost use Rattle.rule_model.specs.RuleSet.{IsRuleSet, best_rule, has_priority, rule_at};
ghost use Rattle.rule_store.specs.Batch.{batch_fault, with_rule};
ghost use Rattle.rule_store.specs.Store.{rules_above, with_answer, without_rule};
ghost use Rattle.rule_store.specs.Naming.{named_fault};
ghost use Rattle.rule_store.specs.Verdict.{entries_of};

use crate::entries::entries_needed;
use crate::pending::{Named, Naming};
use crate::search::{best_in, place_of};
use crate::table::{put, room_for};
use crate::{Batch, BatchFault, Command, Mode};
use counted_blocks::{CountedBlocks, Item};
use rule_model::{Key, Rank, Rule};
use std::alloc::{AllocError, Global};
use std::marker::Model;

/// A set of rules, no two of one priority.
#[derive(Drop)]
pub struct Store {
    // The rules by their keys, and the keys that no rule has.
    rules: Vec<Rule>,
    free: Vec<u32>,
    // The keys of the rules by falling priority, each with how many entries its rule takes by covers.
    order: CountedBlocks,
    // How many rules more have their room in all three.
    spare: u32,
}

impl Model for Store {
    ghost use Rattle.std.specs.Prelude.{vec_capacity};
    ghost use Rattle.counted_blocks.specs.Counted.{items_of};
    ghost use Rattle.rule_store.specs.Store.{StoredRules, IsSized, rules_under};

    ghost Value = { StoredRules };

    ghost view = { λ s. record { rules = rules_under s.rules.items (items_of s.order.blocks); spare = s.spare } };

    ghost invariant = { λ s. IsSized s.rules.items (vec_capacity s.rules) s.free.items (vec_capacity s.free) (items_of s.order.blocks) s.order.room s.spare };
}

impl Store {
    /// A set without rules. It takes no memory yet.
    pub fn new(alloc: Global) -> Store
        ensures rules { result.rules ≡ [] }
        ensures spare { result.spare ≡ 0 }
    {
        Store {
            rules: Vec::new(alloc),
            free: Vec::new(alloc),
            order: CountedBlocks::new(alloc),
            spare: 0,
        }
    }

    /// Takes memory for `n` rules more, so that as many insertions need none.
    pub fn reserve(&mut self, n: u32) -> Result<(), AllocError>
        requires { length self.old.rules + n < 2 ^ 32 }
        ensures rules { self.new.rules ≡ self.old.rules }
        ensures enough { OnOk result (n ≤ self.new.spare) }
        ensures least { self.old.spare ≤ self.new.spare }
        ensures same { OnErr result (self.new ≡ self.old) }
    {
        if n <= self.spare {
            return Ok(());
        }
        self.order.reserve(n)?;
        let more = n as usize;
        self.rules.reserve(room_for(self.free.len(), more))?;
        self.free.reserve(self.rules.len() + more)?;
        self.spare = n;
        Ok(())
    }

    /// Puts a rule into the set, in the room that was reserved.
    pub fn insert(&mut self, rule: Rule)
        requires room { 0 < self.old.spare }
        requires absent { IsFalse (has_priority self.old.rules rule.priority) }
        ensures rules { self.new.rules ≡ with_rule self.old.rules rule }
        ensures spare { self.new.spare + 1 ≡ self.old.spare }
    {
        let place = place_of(&self.rules, &self.order, rule.priority);
        let size = entries_needed(Mode::Cover, &rule) as u16;
        let key = put(&mut self.rules, &mut self.free, rule);
        self.order.insert(place, Item { key, size });
        self.spare -= 1;
    }

    /// Gives a rule of the set another result.
    pub fn change(&mut self, priority: Rank, answer: u32)
        requires { IsTrue (has_priority self.old.rules priority) }
        ensures rules { self.new.rules ≡ with_answer self.old.rules priority answer }
        ensures spare { self.new.spare ≡ self.old.spare }
    {
        let place = place_of(&self.rules, &self.order, priority);
        self.rules[self.order.at(place).key as usize].result = answer;
    }

    /// Takes a rule out of the set. Its room stays for another.
    pub fn remove(&mut self, priority: Rank)
        requires { IsTrue (has_priority self.old.rules priority) }
        ensures rules { self.new.rules ≡ without_rule self.old.rules priority }
        ensures spare { self.new.spare ≡ self.old.spare + 1 }
    {
        let place = place_of(&self.rules, &self.order, priority);
        let item = self.order.remove(place);
        self.free.push_reserved(item.key);
        self.spare += 1;
    }

    /// How many rules there are.
    pub fn len(&self) -> u32
        ensures count { result ≡ length self.now.rules }
        ensures falling { IsRuleSet self.now.rules }
    {
        self.order.len()
    }

    /// How many entries the rules above a priority take. It asks the blocks for what stands before the first of the others.
    pub fn entries_above(&self, mode: Mode, priority: Rank) -> u64
        ensures count { result ≡ entries_of mode (rules_above self.now.rules priority) }
        ensures most { result ≤ entries_of mode self.now.rules }
    {
        let place = place_of(&self.rules, &self.order, priority);
        match mode {
            Mode::Cover => self.order.size_before(place),
            Mode::Bits => u64::from(place),
        }
    }

    /// How many entries the rules of the set take, 900 each at most. It reads no rule.
    pub fn entries_of(&self, mode: Mode) -> u64
        ensures count { result ≡ entries_of mode self.now.rules }
        ensures most { result ≤ 900 * length self.now.rules }
    {
        match mode {
            Mode::Cover => self.order.size(),
            Mode::Bits => u64::from(self.len()),
        }
    }

    /// Whether there is no rule.
    pub fn is_empty(&self) -> bool
        ensures { IsTrue result ↔ (self.now.rules ≡ []) }
    {
        self.order.is_empty()
    }

    /// The rule at a place, from 0 by falling priority.
    pub fn at(&self, i: u32) -> &Rule
        requires { i < length self.now.rules }
        ensures { slice_get self.now.rules i ≡ Some result.now }
    {
        &self.rules[self.order.at(i).key as usize]
    }

    /// The rule of this priority, if there is one.
    pub fn rule(&self, priority: Rank) -> Option<&Rule>
        ensures found { option_copied result ≡ rule_at self.now.rules priority }
        ensures present { is_some result ≡ has_priority self.now.rules priority }
    {
        let place = place_of(&self.rules, &self.order, priority);
        if place == self.order.len() {
            return None;
        }
        let rule = &self.rules[self.order.at(place).key as usize];
        if rule.priority == priority {
            Some(rule)
        } else {
            None
        }
    }

    /// The rule that answers a packet's key: of those that match it the one of greatest priority, and none
    /// only where none matches.
    pub fn best(&self, key: &Key) -> Option<&Rule>
        ensures { option_copied result ≡ best_rule self.now.rules key.now }
    {
        for block in 0..self.order.block_count() {
            if let Some(rule) = best_in(&self.rules, &self.order, block, key) {
                return Some(rule);
            }
        }
        None
    }

    /// The first command of a batch that the set doesn't take, and why: `Twice` where an earlier command of
    /// the batch names its priority, but for an addition behind one removal; else `Taken` where it adds a
    /// priority that the set has and the batch doesn't remove before; else `Absent` where it changes or
    /// removes a priority that the set doesn't have.
    pub fn check(&self, batch: &Batch) -> Result<(), BatchFault>
        ensures { MatchResult result (λ _. batch_fault self.now.rules batch.now ≡ None)
            (λ fault. batch_fault self.now.rules batch.now ≡ Some fault) }
    {
        for i in 0..batch.len() {
            if let Some(fault) = self.fault_of(&batch.named(i)) {
                return Err(fault);
            }
        }
        Ok(())
    }

    // Why a command that so names its priority fails, if it does.
    fn fault_of(&self, named: &Named) -> Option<BatchFault>
        ensures { result ≡ named_fault self.now.rules named.now }
    {
        let priority = named.command.priority();
        match named.naming {
            Naming::Repeated => Some(BatchFault::Twice(priority)),
            Naming::Replacing => None,
            Naming::First => match (named.command, self.rule(priority)) {
                (Command::Add(_), Some(_)) => Some(BatchFault::Taken(priority)),
                (Command::Add(_), None) => None,
                (_, Some(_)) => None,
                (_, None) => Some(BatchFault::Absent(priority)),
            },
        }
    }
}

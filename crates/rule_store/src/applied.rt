//! A batch applied to a set.

ghost use Rattle.std.specs.Prelude.{◌≡◌, ◌+◌, ◌≤◌, fold, length, map};
ghost use Rattle.rule_store.specs.Applied.{IsKeptPart, IsRemainder, remaining_rules};
ghost use Rattle.rule_store.specs.Batch.{IsSound, additions, set_after, with_result_after, with_rule};

use crate::{Command, Commands, Store};

impl Store {
    /// Makes the changes of a batch that `check` takes, in the room that was reserved for as many rules as
    /// it has commands: first its removals, then its changes of results, then its additions.
    pub fn apply(&mut self, batch: &Commands)
        requires sound { IsSound self.old.rules batch.now }
        requires room { length batch.now ≤ self.old.spare }
        ensures rules { self.new.rules ≡ set_after self.old.rules batch.now }
        ensures spare { self.old.spare ≤ self.new.spare + length batch.now }
    {
        self.remove_all(batch);
        self.change_all(batch);
        self.insert_all(batch);
    }

    // Makes the removals of a batch.
    fn remove_all(&mut self, batch: &Commands)
        requires { IsSound self.old.rules batch.now }
        ensures rules { self.new.rules ≡ remaining_rules self.old.rules batch.now }
        ensures spare { self.old.spare ≤ self.new.spare }
    {
        for i in 0..batch.len() {
            if let Command::Del(priority) = batch.at(i) {
                self.remove(priority);
            }
        }
    }

    // Makes the changes of results of a batch, behind its removals.
    fn change_all(&mut self, batch: &Commands)
        requires { IsRemainder self.old.rules batch.now }
        ensures rules { self.new.rules ≡ map (with_result_after batch.now) self.old.rules }
        ensures spare { self.new.spare ≡ self.old.spare }
    {
        for i in 0..batch.len() {
            if let Command::Set { priority, result } = batch.at(i) {
                self.change(priority, result);
            }
        }
    }

    // Makes the additions of a batch, behind its removals and changes.
    fn insert_all(&mut self, batch: &Commands)
        requires kept { IsKeptPart self.old.rules batch.now }
        requires room { length (additions batch.now) ≤ self.old.spare }
        ensures rules { self.new.rules ≡ fold with_rule self.old.rules (additions batch.now) }
        ensures spare { self.new.spare + length (additions batch.now) ≡ self.old.spare }
    {
        for i in 0..batch.len() {
            if let Command::Add(rule) = batch.at(i) {
                self.insert(rule);
            }
        }
    }
}

//! The commands, one after the other.

ghost use Rattle.std.specs.Prelude.{◌≡◌, ◌+◌, ◌*◌, ◌%◌, ◌<◌, ◌≤◌, ◌∷◌, [], ◌↔◌, IfNone, IfSome, IsNone, All, length};
ghost use Rattle.rule_gen.specs.Batches.{AreBatches};
ghost use Rattle.rule_gen.specs.Line.{IsListCommand};
ghost use Rattle.rule_gen.specs.Made.{made_commands, made_sequence};

use crate::Made;
use crate::draws::Draws;
use rule_model::list_rank;
use rule_store::Command;
use std::marker::Model;

/// The commands that a seed gives, seen as the list of those still to come.
#[derive(Debug, Drop)]
pub struct Maker {
    draws: Draws,
    rules: u32,
    batches: u32,
    // The batch at hand, from 1, and how many of its removals and of its additions have come.
    batch: u32,
    removed: u32,
    added: u32,
}

impl Model for Maker {
    ghost use Rattle.std.specs.Prelude.{List, ◌+◌, ◌-◌};
    ghost use Rattle.rule_gen.specs.declared.Made.{Made};
    ghost use Rattle.rule_gen.specs.Rest.{commands_left, AreCounters};

    ghost Value = { List Made };

    ghost view = { λ m. commands_left m.draws m.rules m.batch (m.batches + 1 - m.batch) m.removed m.added };

    ghost invariant = { λ m. AreCounters m.rules m.batches m.batch m.removed m.added };
}

impl Maker {
    /// All commands of a seed up to 2,147,483,647: 1 to 64 batches of 1 to 256 rules each. A batch first
    /// removes all rules of the one before it, then adds its own, and ends with a commit. It takes no memory.
    pub fn new(seed: u32, rules: u32, batches: u32) -> Maker
        requires seed { seed ≤ 2147483647 }
        requires some_rules { 1 ≤ rules }
        requires most_rules { rules ≤ 256 }
        requires some_batches { 1 ≤ batches }
        requires most_batches { batches ≤ 64 }
        ensures commands { result ≡ made_commands seed rules batches }

        // A script of an access list over IPv4 could ask for each change.
        ensures lines { All IsListCommand result }

        // Each batch has at most two changes for a rule, and is ended by its commit.
        ensures batches { AreBatches (2 * rules) 0 result }

        // There are at most 513 commands for each batch.
        ensures few { length result ≤ 513 * batches }
    {
        // The first batch has none before it, so that no removal is left in it.
        Maker {
            draws: Draws::new(seed),
            rules,
            batches,
            batch: 1,
            removed: rules,
            added: 0,
        }
    }

    /// The next command. None comes exactly where none is left, and then for ever. It takes no memory.
    pub fn next(&mut self) -> Option<Made>
        ensures next { IfSome result (λ made. self.old ≡ made ∷ self.new) }
        ensures end { IsNone result ↔ (self.old ≡ []) }
        ensures unchanged { IfNone result (self.new ≡ self.old) }

        // A script of an access list over IPv4 could ask for such a change.
        ensures line { IfSome result IsListCommand }
    {
        if self.batch > self.batches {
            return None;
        }
        if self.removed < self.rules {
            self.removed += 1;
            let sequence = sequence(self.batch - 1, self.removed);
            return Some(Made::Change(Command::Del(list_rank(sequence))));
        }
        if self.added < self.rules {
            self.added += 1;
            let rule = self.draws.rule(sequence(self.batch, self.added));
            return Some(Made::Change(Command::Add(rule)));
        }
        self.batch += 1;
        self.removed = 0;
        self.added = 0;
        Some(Made::Commit)
    }
}

// The sequence number of a rule of a batch, both numbered from 1.
fn sequence(batch: u32, index: u32) -> u32
    requires { index ≤ 256 }
    ensures { result ≡ made_sequence batch index }
{
    2 * index + batch % 2
}

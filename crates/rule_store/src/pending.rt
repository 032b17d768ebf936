//! The commands of a batch that waits for its commit.

ghost use Rattle.std.specs.Prelude.{◌≡◌, ◌↔◌, ◌<◌, ◌≤◌, [], ◌∷◌, ◌++◌, Err, Some, IsTrue, length, IfOk, OnOk, OnErr, slice_get, take};
ghost use Rattle.std.specs.List.{AllByRecursion};
ghost use Rattle.rule_store.specs.Batch.{ChangesRules};
ghost use Rattle.rule_store.specs.Naming as naming;

use crate::Command;
use rule_model::{Rank, rule_conditions};
use slot_order::MOST_SLOTS;
use std::alloc::{AllocError, Global};
use std::collections::BTreeMap;
use std::marker::Model;
use thiserror::Error;

/// The most changes that wait for a commit (`most_pending` in definitions).
pub const PENDING_COMMANDS: u32 = 4096;

/// The most commands of a batch (`most_commands` in definitions).
pub const BATCH_COMMANDS: u32 = 3 * MOST_SLOTS;

/// Why a batch doesn't take a command.
#[derive(Clone, Copy, Debug, PartialEq, Eq, Error)]
pub enum PushFault {
    /// It has as many commands as may wait, or as it may have.
    #[error("batch full")]
    Full,
    /// There is no memory for one more.
    #[error("out of memory")]
    Memory,
}

/// How the commands of a batch use a priority that they name.
#[derive(Clone, Copy, Debug, PartialEq, Eq)]
enum Uses {
    /// One command names it, and removes it.
    Removed,
    /// Otherwise.
    Used,
}

/// How a command names its priority among the earlier ones of its batch.
#[derive(Clone, Copy, Debug, PartialEq, Eq)]
pub(crate) enum Naming {
    /// None of them names it.
    First,
    /// One of them names it and removes it, and this one adds it.
    Replacing,
    /// Otherwise.
    Repeated,
}

/// A command, and how it names its priority.
#[derive(Clone, Copy, Debug, PartialEq, Eq)]
pub(crate) struct Named {
    pub(crate) command: Command,
    pub(crate) naming: Naming,
}

/// Commands in the order in which they came: 4,096 that wait for a commit, as many as the caller says, or `BATCH_COMMANDS` to
/// which changes were settled.
#[derive(Drop)]
pub struct Batch {
    commands: Vec<Named>,
    // How each priority that is named is used, so that a further command is told in few steps how it names its own.
    uses: BTreeMap<Rank, Uses>,
}

impl Model for Batch {
    ghost use Rattle.std.specs.Prelude.{List};
    ghost use Rattle.rule_store.specs.declared.Command.{Command};
    ghost use Rattle.rule_store.specs.Naming.{commands_of, IsIndexed};

    ghost Value = { List Command };

    ghost view = { λ b. commands_of b.commands.items };

    ghost invariant = { λ b. IsIndexed b.commands.items b.uses };
}

/// A batch with a limit of its own, beyond which it takes no command. Contracts see its commands and the limit.
#[derive(Drop)]
pub struct LimitedBatch {
    batch: Batch,
    most: u32,
}

impl Model for LimitedBatch {
    ghost use Rattle.std.specs.Prelude.{◌≤◌};
    ghost use Rattle.rule_store.specs.Batch.{Limited, most_commands};

    ghost Value = { Limited };

    ghost view = { λ l. record { commands = l.batch; most = l.most } };

    ghost invariant = { λ l. l.most ≤ most_commands };
}

/// The commands of a batch as they are kept for the end of its commit: without what only a further push asks for.
#[derive(Drop)]
pub struct Commands {
    commands: Vec<Named>,
}

impl Model for Commands {
    ghost use Rattle.std.specs.Prelude.{List, ◌≤◌, length};
    ghost use Rattle.rule_store.specs.declared.Command.{Command};
    ghost use Rattle.rule_store.specs.Batch.{most_commands};
    ghost use Rattle.rule_store.specs.Naming.{commands_of};

    ghost Value = { List Command };

    ghost view = { λ c. commands_of c.commands.items };

    ghost invariant = { λ c. length c.commands.items ≤ most_commands };
}

impl Commands {
    /// How many there are, `BATCH_COMMANDS` at most.
    pub(crate) fn len(&self) -> u32
        ensures count { result ≡ length self.now }
        ensures most { result ≤ BATCH_COMMANDS }
    {
        self.commands.len() as u32
    }

    /// The command at a place, from 0 in the order of the pushes.
    pub(crate) fn at(&self, i: u32) -> Command
        requires { i < length self.now }
        ensures { slice_get self.now i ≡ Some result }
    {
        self.commands[i as usize].command
    }
}

// How a priority is used after one command more.
fn uses_with(uses: Option<Uses>, command: &Command) -> Uses
    ensures { result ≡ naming.uses_with uses command.now }
{
    match (uses, command) {
        (None, Command::Del(_)) => Uses::Removed,
        _ => Uses::Used,
    }
}

// How a command names a priority that is used so.
fn naming_by(uses: Option<Uses>, command: &Command) -> Naming
    ensures { result ≡ naming.naming_by uses command.now }
{
    match (uses, command) {
        (None, _) => Naming::First,
        (Some(Uses::Removed), Command::Add(_)) => Naming::Replacing,
        _ => Naming::Repeated,
    }
}

/// The conditions of a rule that a command adds are right, by their types.
fn command_changes_rules(command: &Command)
    ensures { ChangesRules command.now }
{
    match command {
        Command::Add(rule) => rule_conditions(rule),
        Command::Set { .. } => {}
        Command::Del(_) => {}
    }
}

impl Batch {
    ghost use Rattle.rule_store.specs.Naming.{naming_after};

    /// A batch without commands. It takes no memory yet.
    pub fn new(alloc: Global) -> Batch
        ensures { result ≡ [] }
    {
        Batch {
            commands: Vec::new(alloc),
            uses: BTreeMap::new(alloc),
        }
    }

    /// A batch without commands, of so many at most, `BATCH_COMMANDS` or fewer: it refuses more by itself. It takes no memory
    /// yet.
    pub fn of_at_most(alloc: Global, most: u32) -> LimitedBatch
        requires { most ≤ BATCH_COMMANDS }
        ensures { result ≡ record { commands = []; most = most } }
    {
        LimitedBatch {
            batch: Batch::new(alloc),
            most,
        }
    }

    /// Puts a command behind the others, of those that wait for a commit. `Full` comes exactly from 4,096 commands on; after
    /// a refusal the batch is as before.
    pub fn push(&mut self, command: Command) -> Result<(), PushFault>
        ensures pushed { OnOk result (self.new ≡ self.old ++ command ∷ []) }
        ensures full { (result ≡ Err PushFault.Full) ↔ (PENDING_COMMANDS ≤ length self.old) }
        ensures same { OnErr result (self.new ≡ self.old) }
    {
        self.push_within(command, PENDING_COMMANDS)
    }

    /// Puts a command behind the others, where so many wait at most, `BATCH_COMMANDS` or fewer. `Full` comes exactly from so
    /// many on; after a refusal the batch is as before.
    pub fn push_within(&mut self, command: Command, most: u32) -> Result<(), PushFault>
        requires { most ≤ BATCH_COMMANDS }
        ensures pushed { OnOk result (self.new ≡ self.old ++ command ∷ []) }
        ensures full { (result ≡ Err PushFault.Full) ↔ (most ≤ length self.old) }
        ensures same { OnErr result (self.new ≡ self.old) }
    {
        if self.commands.len() >= most as usize {
            return Err(PushFault::Full);
        }
        self.push_settled(command)
    }

    /// Puts a command behind the others, of those to which changes are settled. `Full` comes exactly at `BATCH_COMMANDS`; after
    /// a refusal the batch is as before.
    pub fn push_settled(&mut self, command: Command) -> Result<(), PushFault>
        ensures pushed { OnOk result (self.new ≡ self.old ++ command ∷ []) }
        ensures full { (result ≡ Err PushFault.Full) ↔ (length self.old ≡ BATCH_COMMANDS) }
        ensures same { OnErr result (self.new ≡ self.old) }
    {
        if self.commands.len() >= BATCH_COMMANDS as usize {
            return Err(PushFault::Full);
        }
        command_changes_rules(&command);
        let priority = command.priority();
        let uses = self.uses.get(&priority).copied();
        let naming = naming_by(uses, &command);
        if self.commands.reserve(1).is_err() {
            return Err(PushFault::Memory);
        }
        if self
            .uses
            .insert(priority, uses_with(uses, &command))
            .is_err()
        {
            return Err(PushFault::Memory);
        }
        self.commands.push_reserved(Named { command, naming });
        Ok(())
    }

    /// How many commands there are, `BATCH_COMMANDS` at most.
    pub fn len(&self) -> u32
        ensures count { result ≡ length self.now }
        ensures most { result ≤ BATCH_COMMANDS }
    {
        self.commands.len() as u32
    }

    /// Whether there is no command.
    pub fn is_empty(&self) -> bool
        ensures { IsTrue result ↔ (self.now ≡ []) }
    {
        self.commands.is_empty()
    }

    /// The command at a place, from 0 in the order of the pushes.
    pub fn at(&self, i: u32) -> Command
        requires { i < length self.now }
        ensures { slice_get self.now i ≡ Some result }
    {
        self.commands[i as usize].command
    }

    /// The conditions of each rule that is added are right, by their types.
    pub fn changes_rules(&self)
        ensures { AllByRecursion ChangesRules self.now }
    {
        let _commands = self.commands.len();
    }

    /// Takes every command out. The memory of the list stays for later ones.
    pub fn clear(&mut self)
        ensures { self.new ≡ [] }
    {
        self.commands.clear();
        self.uses.clear();
    }

    /// The commands, to be carried out later; it fails only for want of memory.
    pub fn commands(&self, alloc: Global) -> Result<Commands, AllocError>
        ensures { IfOk result (λ commands. commands ≡ self.now) }
    {
        Ok(Commands {
            commands: Vec::from_slice(alloc, &self.commands)?,
        })
    }

    /// The command at a place, and how it names its priority.
    pub(crate) fn named(&self, i: u32) -> Named
        requires { i < length self.now }
        ensures command { slice_get self.now i ≡ Some result.command }
        ensures naming { result.naming ≡ naming_after (take i self.now) result.command }
    {
        self.commands[i as usize]
    }
}

impl LimitedBatch {
    /// Puts a command behind the others. `Full` comes exactly from as many commands on as the limit says; after a refusal all
    /// is as before.
    pub fn push(&mut self, command: Command) -> Result<(), PushFault>
        ensures pushed { OnOk result (self.new ≡ record self.old { commands = self.old.commands ++ command ∷ [] }) }
        ensures full { (result ≡ Err PushFault.Full) ↔ (self.old.most ≤ length self.old.commands) }
        ensures same { OnErr result (self.new ≡ self.old) }
    {
        self.batch.push_within(command, self.most)
    }

    /// The batch, as a manager takes it.
    pub fn batch(&self) -> &Batch
        ensures { result.now ≡ self.now.commands }
    {
        &self.batch
    }

    /// How many commands it takes at most.
    pub fn most(&self) -> u32
        ensures { result ≡ self.now.most }
    {
        self.most
    }

    /// Takes every command out. The limit stays, and so does the memory of the list.
    pub fn clear(&mut self)
        ensures { self.new ≡ record self.old { commands = [] } }
    {
        self.batch.clear();
    }
}

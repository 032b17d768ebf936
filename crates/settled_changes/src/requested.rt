//! What waits for a commit: strict commands, and what is asked for beside them.

ghost use Rattle.std.specs.Prelude.{◌≡◌, ◌↔◌, ◌≤◌, Err, List, IfErr, IfOk, IsTrue, OnErr, OnOk, length};
ghost use Rattle.rule_store.specs.Batch.{IsSound, most_pending};
ghost use Rattle.settled_changes.specs.Requested.{IsAsked, IsWhyNone, TakesAsked, asked_behind, asked_with, batch_behind, batch_with, changes_in, settled_batch};

use crate::{Request, Requests, SettleFault, settle, settle_all};
use rule_store::{Batch, Command, PENDING_COMMANDS, PushFault, Store};
use slot_order::MOST_SLOTS;
use std::alloc::{AllocError, Global};

/// Changes that are settled over the set before they are judged. While there are some, no command stands in the batch.
#[derive(Drop)]
pub enum Requested {
    /// None: what waits are the strict commands of the batch.
    Nothing,
    /// Forgiving changes, with strict commands among them or none.
    Changes(Requests),
    /// Changes that make the whole new set of no rules at all.
    Whole(Requests),
}

impl Requested {
    /// Whether there are some, or a whole new set was begun.
    pub fn is_any(&self) -> bool
        ensures { IsTrue result ↔ IsAsked self.now }
    {
        match self {
            Requested::Nothing => false,
            Requested::Changes(_) | Requested::Whole(_) => true,
        }
    }

    /// How many changes wait, with those of the batch or beside it.
    pub fn changes_with(&self, batch: &Batch) -> u32
        ensures { result ≡ changes_in batch.now self.now }
    {
        match self {
            Requested::Nothing => batch.len(),
            Requested::Changes(requests) => requests.len(),
            Requested::Whole(requests) => requests.len(),
        }
    }

    /// A strict command joins the batch, or what is asked for beside it. `Full` comes exactly where 4,096 changes wait or more;
    /// after a refusal all is as before.
    pub fn push(&mut self, command: Command, batch: &mut Batch) -> Result<(), PushFault>
        ensures pushed { OnOk result ((batch.new ≡ batch_with batch.old self.old command) × (self.new ≡ asked_with self.old command)) }
        ensures full { (result ≡ Err PushFault.Full) ↔ (most_pending ≤ changes_in batch.old self.old) }
        ensures same { OnErr result ((batch.new ≡ batch.old) × (self.new ≡ self.old)) }
    {
        self.push_within(command, batch, PENDING_COMMANDS)
    }

    /// The same where so many changes wait at most, `MOST_SLOTS` or fewer: `Full` comes exactly where so many wait or more.
    pub fn push_within(
        &mut self,
        command: Command,
        batch: &mut Batch,
        most: u32,
    ) -> Result<(), PushFault>
        requires { most ≤ MOST_SLOTS }
        ensures pushed { OnOk result ((batch.new ≡ batch_with batch.old self.old command) × (self.new ≡ asked_with self.old command)) }
        ensures full { (result ≡ Err PushFault.Full) ↔ (most ≤ changes_in batch.old self.old) }
        ensures same { OnErr result ((batch.new ≡ batch.old) × (self.new ≡ self.old)) }
    {
        match self {
            Requested::Nothing => batch.push_within(command, most),
            Requested::Changes(requests) => requests.push_within(Request::Strict(command), most),
            Requested::Whole(requests) => requests.push_within(Request::Strict(command), most),
        }
    }

    /// A change that doesn't ask what is there joins what is asked for. At the first one the commands of the batch are
    /// requests from then on, in their order. `Full` comes as at a strict one; after a refusal all is as before.
    pub fn ask(
        &mut self,
        alloc: Global,
        request: Request,
        batch: &mut Batch,
    ) -> Result<(), PushFault>
        ensures asked { OnOk result ((batch.new ≡ batch_behind batch.old self.old) × (self.new ≡ asked_behind batch.old self.old request)) }
        ensures full { (result ≡ Err PushFault.Full) ↔ (most_pending ≤ changes_in batch.old self.old) }
        ensures same { OnErr result ((batch.new ≡ batch.old) × (self.new ≡ self.old)) }
    {
        self.ask_within(alloc, request, batch, PENDING_COMMANDS)
    }

    /// The same where so many changes wait at most, `MOST_SLOTS` or fewer.
    pub fn ask_within(
        &mut self,
        alloc: Global,
        request: Request,
        batch: &mut Batch,
        most: u32,
    ) -> Result<(), PushFault>
        requires { most ≤ MOST_SLOTS }
        ensures asked { OnOk result ((batch.new ≡ batch_behind batch.old self.old) × (self.new ≡ asked_behind batch.old self.old request)) }
        ensures full { (result ≡ Err PushFault.Full) ↔ (most ≤ changes_in batch.old self.old) }
        ensures same { OnErr result ((batch.new ≡ batch.old) × (self.new ≡ self.old)) }
    {
        let mut requests = match self {
            Requested::Changes(requests) => return requests.push_within(request, most),
            Requested::Whole(requests) => return requests.push_within(request, most),
            Requested::Nothing => {
                if batch.len() >= most {
                    return Err(PushFault::Full);
                }
                match Requests::of_batch(alloc, batch) {
                    Ok(requests) => requests,
                    Err(AllocError) => return Err(PushFault::Memory),
                }
            }
        };
        match requests.push_within(request, most) {
            Ok(()) => {
                *self = Requested::Changes(requests);
                batch.clear();
                Ok(())
            }
            // There is room: the commands were fewer than requests may be.
            Err(_) => Err(PushFault::Memory),
        }
    }

    /// The batch that what is asked for comes to over a set of `MOST_SLOTS` rules at most; something is. It is sound over the set,
    /// and fails as `settle` and `settle_all` do.
    pub fn settle(&self, alloc: Global, rules: &Store) -> Result<Batch, SettleFault>
        requires asked { IsAsked self.now }
        requires few { length rules.now.rules ≤ MOST_SLOTS }
        ensures settled { (commands : List Command) → IfOk result (λ batch. batch ≡ settled_batch rules.now.rules commands self.now) }
        ensures taken { OnOk result (TakesAsked rules.now.rules self.now) }
        ensures sound { IfOk result (λ batch. IsSound rules.now.rules batch) }
        ensures fault { IfErr result (IsWhyNone rules.now.rules self.now) }
    {
        match self {
            Requested::Changes(requests) => settle(alloc, rules, requests),
            Requested::Whole(requests) => settle_all(alloc, rules, requests),
            // Something is asked for.
            Requested::Nothing => unreachable!(),
        }
    }
}

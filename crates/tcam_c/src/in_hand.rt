//! The batch in hand: the changes that wait for their commit.

ghost use Rattle.std.specs.Prelude.{◌≡◌, ◌↔◌, ◌≤◌, [], Err, OnOk, OnErr};
ghost use Rattle.rule_store.specs.Batch.{most_pending};
ghost use Rattle.tcam_c.specs.InHand.{changes_in, command_joined, request_joined};

use rule_store::{Batch, Command, PENDING_COMMANDS, PushFault};
use settled_changes::{Request, Requests};
use std::alloc::{AllocError, Global};

/// Changes in their order, 4,096 at most. Strict ones alone are a batch, which needs no settling; from the first forgiving one
/// on they are requests.
#[derive(Drop)]
pub(crate) enum PendingBatch {
    Strict(Batch),
    Asked(Requests),
}

impl PendingBatch {
    /// No change. It takes no memory yet.
    pub(crate) fn new(alloc: Global) -> PendingBatch
        ensures { result ≡ PendingBatch.Strict [] }
    {
        PendingBatch::Strict(Batch::new(alloc))
    }

    /// Puts a strict command behind the others.
    pub(crate) fn push(&mut self, command: Command) -> Result<(), PushFault>
        ensures pushed { OnOk result (self.new ≡ command_joined self.old command) }
        ensures full { (result ≡ Err PushFault.Full) ↔ (most_pending ≤ changes_in self.old) }
        ensures same { OnErr result (self.new ≡ self.old) }
    {
        match self {
            PendingBatch::Strict(batch) => batch.push(command),
            PendingBatch::Asked(requests) => requests.push(Request::Strict(command)),
        }
    }

    /// Puts a request behind the others, which are requests from then on.
    pub(crate) fn ask(&mut self, alloc: Global, request: Request) -> Result<(), PushFault>
        ensures asked { OnOk result (self.new ≡ request_joined self.old request) }
        ensures full { (result ≡ Err PushFault.Full) ↔ (most_pending ≤ changes_in self.old) }
        ensures same { OnErr result (self.new ≡ self.old) }
    {
        let mut requests = match self {
            PendingBatch::Asked(requests) => return requests.push(request),
            PendingBatch::Strict(batch) => {
                if batch.len() >= PENDING_COMMANDS {
                    return Err(PushFault::Full);
                }
                match Requests::of_batch(alloc, batch) {
                    Ok(requests) => requests,
                    Err(AllocError) => return Err(PushFault::Memory),
                }
            }
        };
        match requests.push(request) {
            Ok(()) => {
                *self = PendingBatch::Asked(requests);
                Ok(())
            }
            // There is room: the commands were fewer than requests may be.
            Err(_) => Err(PushFault::Memory),
        }
    }

    /// Takes every change out.
    pub(crate) fn clear(&mut self, alloc: Global)
        ensures { self.new ≡ PendingBatch.Strict [] }
    {
        if let PendingBatch::Strict(batch) = self {
            batch.clear();
        } else {
            *self = PendingBatch::new(alloc);
        }
    }
}

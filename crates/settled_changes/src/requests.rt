//! Requests that wait to be settled.

ghost use Rattle.std.specs.Prelude.{◌≡◌, ◌↔◌, ◌<◌, ◌≤◌, [], ◌∷◌, ◌++◌, Err, Some, IfOk, IsTrue, length, map, OnOk, OnErr, slice_get};

use crate::Request;
use rule_store::{Batch, Command, PENDING_COMMANDS, PushFault};
use slot_order::MOST_SLOTS;
use std::alloc::{AllocError, Global};
use std::marker::Model;

/// Requests in the order in which they came: 4,096 at most, or as many as who puts them in says, up to `MOST_SLOTS`.
#[derive(Drop)]
pub struct Requests {
    requests: Vec<Request>,
}

impl Model for Requests {
    ghost use Rattle.std.specs.Prelude.{List, ◌≤◌, length};
    ghost use Rattle.slot_order.specs.Order.{most_slots};
    ghost use Rattle.settled_changes.specs.declared.Request.{Request};

    ghost Value = { List Request };

    ghost view = { λ r. r.requests.items };

    ghost invariant = { λ r. length r.requests.items ≤ most_slots };
}

// No command. The borrow checker has a plan for a list of requests only where the type of their commands is named too, so
// whoever puts requests into one calls it.
pub(crate) fn no_command() -> Option<Command> {
    None
}

impl Requests {
    /// No requests. It takes no memory yet.
    pub fn new(alloc: Global) -> Requests
        ensures { result ≡ [] }
    {
        Requests {
            requests: Vec::new(alloc),
        }
    }

    /// Strict commands as requests, in their order: `MOST_SLOTS` of them at most. Where there are more the answer is as for
    /// want of memory.
    pub fn of_batch(alloc: Global, batch: &Batch) -> Result<Requests, AllocError>
        ensures { IfOk result (λ requests. requests ≡ map Request.Strict batch.now) }
    {
        let mut requests = Requests::new(alloc);
        for i in 0..batch.len() {
            let command = batch.at(i);
            match requests.push_within(Request::Strict(command), MOST_SLOTS) {
                Ok(()) => {}
                // There is no room for them: there are more commands than may wait, as only a settled batch has.
                Err(_) => return Err(AllocError),
            }
        }
        Ok(requests)
    }

    /// Puts a request behind the others. `Full` comes exactly from 4,096 requests on; after a refusal they are as before.
    pub fn push(&mut self, request: Request) -> Result<(), PushFault>
        ensures pushed { OnOk result (self.new ≡ self.old ++ request ∷ []) }
        ensures full { (result ≡ Err PushFault.Full) ↔ (PENDING_COMMANDS ≤ length self.old) }
        ensures same { OnErr result (self.new ≡ self.old) }
    {
        self.push_within(request, PENDING_COMMANDS)
    }

    /// Puts a request behind the others, where so many wait at most, `MOST_SLOTS` or fewer. `Full` comes exactly from so many
    /// on; after a refusal they are as before.
    pub fn push_within(&mut self, request: Request, most: u32) -> Result<(), PushFault>
        requires { most ≤ MOST_SLOTS }
        ensures pushed { OnOk result (self.new ≡ self.old ++ request ∷ []) }
        ensures full { (result ≡ Err PushFault.Full) ↔ (most ≤ length self.old) }
        ensures same { OnErr result (self.new ≡ self.old) }
    {
        if self.requests.len() >= most as usize {
            return Err(PushFault::Full);
        }
        let _named = no_command();
        if self.requests.reserve(1).is_err() {
            return Err(PushFault::Memory);
        }
        self.requests.push_reserved(request);
        Ok(())
    }

    /// How many requests there are, `MOST_SLOTS` at most.
    pub fn len(&self) -> u32
        ensures count { result ≡ length self.now }
        ensures most { result ≤ MOST_SLOTS }
    {
        self.requests.len() as u32
    }

    /// Whether there is no request.
    pub fn is_empty(&self) -> bool
        ensures { IsTrue result ↔ (self.now ≡ []) }
    {
        self.requests.is_empty()
    }

    /// The request at a place, from 0 in the order of the pushes.
    pub fn at(&self, i: u32) -> Request
        requires { i < length self.now }
        ensures { slice_get self.now i ≡ Some result }
    {
        self.requests[i as usize]
    }

    /// Takes every request out. The memory of the list stays for later ones.
    pub fn clear(&mut self)
        ensures { self.new ≡ [] }
    {
        self.requests.clear();
    }

    /// The requests as a list.
    pub(crate) fn as_slice(&self) -> &[Request]
        ensures { result.now ≡ self.now }
    {
        self.requests.as_slice()
    }
}

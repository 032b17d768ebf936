//! Which requests a set doesn't take.

ghost use Rattle.std.specs.Prelude.{◌≡◌, IfOk, unwrap_or};
ghost use Rattle.rule_store.specs.Batch.{batch_fault};
ghost use Rattle.settled_changes.specs.Requests.{requests_fault};

use crate::{Request, Requests};
use rule_store::{Batch, BatchFault, Store};
use std::alloc::{AllocError, Global};
use std::collections::BTreeSet;

/// Why the first request fails that a set doesn't take, if one fails.
pub(crate) fn first_fault(
    alloc: Global,
    rules: &Store,
    requests: &Requests,
) -> Result<Option<BatchFault>, AllocError>
    ensures { IfOk result (λ fault. fault ≡ requests_fault rules.now.rules requests.now) }
{
    let mut strict = Batch::new(alloc);
    let mut strictly = BTreeSet::new(alloc);
    let mut forgivingly = BTreeSet::new(alloc);
    for i in 0..requests.len() {
        let request = requests.at(i);
        let priority = request.priority();
        if let Request::Strict(command) = request {
            if forgivingly.contains(&priority) {
                return Ok(Some(fault_behind(rules, &strict, BatchFault::Twice(priority))));
            }
            strictly.insert(priority)?;
            match strict.push_settled(command) {
                Ok(()) => {}
                // There is room: there are no more commands than requests.
                Err(_) => return Err(AllocError),
            }
        } else {
            if strictly.contains(&priority) {
                return Ok(Some(fault_behind(rules, &strict, BatchFault::Twice(priority))));
            }
            forgivingly.insert(priority)?;
        }
    }
    Ok(rules.check(&strict).err())
}

// The fault of strict commands, or else this one behind them.
fn fault_behind(rules: &Store, strict: &Batch, fault: BatchFault) -> BatchFault
    ensures { result ≡ unwrap_or (batch_fault rules.now.rules strict.now) fault }
{
    match rules.check(strict) {
        Ok(()) => fault,
        Err(earlier) => earlier,
    }
}

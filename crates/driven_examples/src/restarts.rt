// A commit that another manager goes on with.

use crate::SLOTS;
use crate::commits::{begin, carry};
use batch_order::{Mode, Placement};
use driven_device::Driven;
use readback::Parts;
use rule_store::Batch;
use std::alloc::Global;
use tcam_device::ReadBack;

/// Goes on with the commit of a batch over a device that was stopped in it, by what the old manager left of itself.
pub fn go_on<D: ReadBack + Drop>(
    alloc: Global,
    parts: Parts,
    batch: &Batch,
    device: D,
) -> anyhow::Result<Driven<D>> {
    let (mode, placement) = (Mode::Cover, Placement::Rank);
    match Driven::restart(alloc, SLOTS, mode, placement, parts, batch, device) {
        Ok(mut driven) => match carry(&mut driven, 3) {
            Ok(()) => Ok(driven), // the rules are the new set
            Err(fault) => Err(fault.into()),
        },
        Err((fault, _parts, _device)) => Err(fault.into()), // both are as they were
    }
}

/// Begins the commit of a batch, lets the manager go, and has another one go on.
pub fn stop_and_go_on<D: ReadBack + Drop>(
    alloc: Global,
    driven: Driven<D>,
    batch: &Batch,
) -> anyhow::Result<Driven<D>> {
    let mut driven = driven;
    begin(&mut driven, batch)?;
    let (parts, device) = driven.into_parts(); // behind a crash the parts are read from a file
    go_on(alloc, parts, batch, device)
}

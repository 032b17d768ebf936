// A commit, to its end and back.

use anyhow::anyhow;
use batch_order::{Step, Unfinished};
use driven_device::Driven;
use rule_store::Batch;
use tcam_device::{Device, DeviceFault};

/// Commits a batch: it is judged, all of its writes are planned, and then they are made, each tried once.
pub fn commit<D: Device>(driven: &mut Driven<D>, batch: &Batch) -> anyhow::Result<()> {
    match driven.prepare(batch) {
        Ok(_) => {}
        Err(refusal) => return Err(anyhow!("{refusal}")), // nothing was written, and all is as before
    }
    match driven.carry_out(1) {
        Ok(_) => Ok(()), // the rules are the new set
        Err(unfinished) => Err(unfinished.into()), // the rest is held, and `carry_out` goes on with it
    }
}

/// Begins the commit of a batch, and makes its first write.
pub fn begin<D: Device>(driven: &mut Driven<D>, batch: &Batch) -> anyhow::Result<()> {
    match driven.prepare(batch) {
        Ok(_) => {}
        Err(refusal) => return Err(anyhow!("{refusal}")),
    }
    match driven.step() {
        Ok(_) => Ok(()),
        Err(fault) => Err(fault.into()),
    }
}

/// Begins the commit of a batch, and takes it back: what was written is undone, the last write first.
pub fn take_back<D: Device>(driven: &mut Driven<D>, batch: &Batch) -> anyhow::Result<()> {
    begin(driven, batch)?;
    match driven.abort() {
        Ok(_) => {}
        Err(fault) => return Err(fault.into()), // there is nothing to take back, or it can't be
    }
    match driven.carry_out(1) {
        Ok(_) | Err(Unfinished::Reverted { .. }) => Ok(()), // the rules are the old ones
        Err(unfinished) => Err(unfinished.into()), // the rest of the way back is held, and `carry_out` goes on with it
    }
}

/// Makes the writes of the commit under way, each again where it failed, up to so many failures in a row, with room for
/// look-ups behind each. With an Err it is still under way, and may be carried on.
pub fn carry<D: Device>(driven: &mut Driven<D>, patience: u32) -> Result<(), DeviceFault> {
    let mut in_a_row: u32 = 0;
    for _ in 0..u32::MAX {
        match driven.step() {
            Ok(Step::Wrote(_) | Step::Drained) => in_a_row = 0,
            Ok(Step::Finished(_) | Step::Reverted(_) | Step::Idle) => return Ok(()),
            Ok(Step::Waiting(_)) => {} // search the words in flight below
            Err(DeviceFault) => {
                in_a_row = in_a_row.saturating_add(1);
                if in_a_row >= patience {
                    return Err(DeviceFault);
                }
            }
        }
        // look packets up here
    }
    Err(DeviceFault)
}

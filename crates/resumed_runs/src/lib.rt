//! Runs that go on behind a write that failed four times, as a caller of [`replay::Run`] writes it.
//!
//! What the calls of a run ask for is one definition here (`CanGoOn` in `specs/Going`). A run over a blank device has it, and
//! each call keeps it, whatever it answers but a failure of the sink or want of memory: so any call may follow.
#![tactic(auto)]

ghost use Rattle.std.specs.Prelude.{◌≡◌, ◌≢◌, ◌+◌, ◌<◌, ◌≤◌, ◌^◌, [], true, false, Err, IfOk};
ghost use Rattle.tcam_device.specs.View.{DeviceView};
ghost use Rattle.replay.specs.Running.{IsActOf, begun};
ghost use Rattle.resumed_runs.specs.Going.{CanGoOn};

use replay::{Act, ActFault, Family, Mode, Placement, Run, RunFault};
use script_lines::Sink;
use slot_order::MOST_SLOTS;
use std::alloc::{AllocError, Global};
use tcam_device::ReadBack;

/// A run before its first act, for a blank device with at least so many slots: as [`Run::new`] makes it.
pub fn begin(
    alloc: Global,
    slots: u32,
    mode: Mode,
    placement: Placement,
    family: Family,
    trace: bool,
    depth: u32,
) -> Result<Run, AllocError>
    requires least { 1 ≤ slots }
    requires most { slots ≤ MOST_SLOTS }
    requires depth { depth ≤ 15 }
    ensures going { IfOk result (λ run. (device : DeviceView) → slots ≤ device.slots → device.events ≡ [] → device.flight ≡ [] → CanGoOn run device) }
    ensures begun { IfOk result (λ run. run ≡ begun slots mode placement family trace depth false false) }
    ensures begins { IfOk result (λ run. run.commits ≡ 0) }
{
    Ok(Run::new(
        alloc, slots, mode, placement, family, trace, depth, false, false,
    )?)
}

/// Carries out an act, as [`Run::apply`] does. Where memory is wanted behind a write, as it may be at a crash, no call may
/// follow.
pub fn apply<K: Sink, D: ReadBack>(
    run: &mut Run,
    act: &Act,
    sink: &mut K,
    device: &mut D,
) -> Result<(), ActFault>
    requires going { CanGoOn run.old (D.view device.old) }
    requires act { IsActOf run.old.family act.now }
    requires few { run.old.commits < 2 ^ 28 }
    ensures going { result ≢ Err (ActFault.Stopped RunFault.Sink) → result ≢ Err (ActFault.Stopped RunFault.Memory) → CanGoOn run.new (D.view device.new) }
    ensures lost { result ≡ Err (ActFault.Stopped RunFault.Memory) → (D.view device.new).events ≢ (D.view device.old).events → run.new.broken ≡ true }
    ensures family { run.new.family ≡ run.old.family }
    ensures few { run.new.commits ≤ run.old.commits + 1 }
{
    run.apply(act, sink, device)
}

/// Goes on with the commit that is unfinished, if one is, as [`Run::resume`] does.
pub fn resume<K: Sink, D: ReadBack>(
    run: &mut Run,
    sink: &mut K,
    device: &mut D,
) -> Result<(), RunFault>
    requires going { CanGoOn run.old (D.view device.old) }
    requires few { run.old.commits < 2 ^ 28 }
    ensures going { result ≢ Err RunFault.Sink → result ≢ Err RunFault.Memory → CanGoOn run.new (D.view device.new) }
    ensures family { run.new.family ≡ run.old.family }
    ensures few { run.new.commits ≤ run.old.commits + 1 }
{
    run.resume(sink, device)
}

//! An act of a script, of which a commit may be made in two parts.

ghost use Rattle.std.specs.Prelude.{Bool, false, ◌≡◌, ◌≢◌, ◌+◌, ◌<◌, ◌≤◌, ◌^◌, [], Err, None, OnOk, length};
ghost use Rattle.script_lines.specs.Given.{counted};
ghost use Rattle.report_lines.specs.Sizes.{sizes_by};
ghost use Rattle.report_lines.specs.Text.{family_version};
ghost use Rattle.settled_changes.specs.Requested.{changes_in};
ghost use Rattle.replay.specs.Carried.{IsAt};
ghost use Rattle.replay.specs.Outside.{Leaves};
ghost use Rattle.replay.specs.Running.{limit_text, progress_of, setting_of, AnswersHeld, IsActOf, IsToldIn};
ghost use Rattle.replay.specs.Script.{limit_fault};
ghost use Rattle.tcam_cli.specs.InTwo.{ComesToBy, IsIdleAt};
ghost use Rattle.tcam_cli.specs.Rounds.{status_of_fault};

use crate::Status;
use replay::{Act, ActFault, Run, RunFault};
use script_lines::Sink;
use std::alloc::AllocError;
use tcam_device::ReadBack;

/// Carries out an act of a script. A commit is carried out in two parts where removals are to go first and some may: first
/// these, and then the rest, each as any commit is.
pub(crate) fn apply_by<K: Sink, D: ReadBack>(
    run: &mut Run,
    act: &Act,
    sink: &mut K,
    device: &mut D,
) -> Result<(), ActFault>
    requires slots { run.old.manager.slots ≤ (D.view device.old).slots }
    requires none_in_flight { (D.view device.old).flight ≡ [] }
    requires idle { run.old.manager.held ≡ None }
    requires whole { run.old.broken ≡ false }
    requires act { IsActOf run.old.family act.now }
    requires told { IsToldIn run.old.json (family_version run.old.family) act.now }
    requires at { IsAt (D.view device.old).slots (D.view device.old).events (progress_of (D.view device.old).slots run.old) }
    requires commits { run.old.commits + 1 < 2 ^ 28 }
    ensures acts { (which : Bool) → ComesToBy (D.view device.old).slots run.old act.now run.new result
        (D.view device.old).events (D.view device.new).events (counted which (K.taken sink.old) (K.accepted sink.old)) (counted which (K.taken sink.new) (K.accepted sink.new)) }
    ensures held { AnswersHeld None result }
    ensures limit { limit_text result ≡ limit_fault (sizes_by run.old.large).commands act.now (changes_in run.old.pending run.old.asked) (length run.old.probes) }
    ensures stands { OnOk result (IsIdleAt (D.view device.new).slots (D.view device.new).events (D.view device.new).flight run.new) }
    ensures setting { setting_of run.new ≡ setting_of run.old }
    ensures commits { run.new.commits ≤ run.old.commits + 2 }
    ensures leaves { Leaves K.taken K.faults sink.old sink.new (D.view device.old) (D.view device.new) (result ≡ Err (ActFault.Stopped RunFault.Sink)) (result ≡ Err (ActFault.Stopped RunFault.Device)) }
{
    if *act == Act::Commit {
        commit_by(run, sink, device)
    } else {
        run.apply(act, sink, device)
    }
}

/// Carries out a commit, in two parts where removals are to go first and some may.
fn commit_by<K: Sink, D: ReadBack>(
    run: &mut Run,
    sink: &mut K,
    device: &mut D,
) -> Result<(), ActFault>
    requires slots { run.old.manager.slots ≤ (D.view device.old).slots }
    requires none_in_flight { (D.view device.old).flight ≡ [] }
    requires idle { run.old.manager.held ≡ None }
    requires whole { run.old.broken ≡ false }
    requires at { IsAt (D.view device.old).slots (D.view device.old).events (progress_of (D.view device.old).slots run.old) }
    requires commits { run.old.commits + 1 < 2 ^ 28 }
    ensures acts { (which : Bool) → ComesToBy (D.view device.old).slots run.old Act.Commit run.new result
        (D.view device.old).events (D.view device.new).events (counted which (K.taken sink.old) (K.accepted sink.old)) (counted which (K.taken sink.new) (K.accepted sink.new)) }
    ensures held { AnswersHeld None result }
    ensures limit { limit_text result ≡ None }
    ensures stands { OnOk result (IsIdleAt (D.view device.new).slots (D.view device.new).events (D.view device.new).flight run.new) }
    ensures setting { setting_of run.new ≡ setting_of run.old }
    ensures commits { run.new.commits ≤ run.old.commits + 2 }
    ensures leaves { Leaves K.taken K.faults sink.old sink.new (D.view device.old) (D.view device.new) (result ≡ Err (ActFault.Stopped RunFault.Sink)) (result ≡ Err (ActFault.Stopped RunFault.Device)) }
{
    match run.part() {
        Err(AllocError) => Err(ActFault::Stopped(RunFault::Memory)),
        Ok(None) => run.apply(&Act::Commit, sink, device),
        Ok(Some(rest)) => match run.apply(&Act::Commit, sink, device) {
            Err(fault) => Err(fault),
            Ok(()) => {
                run.join(rest);
                run.apply(&Act::Commit, sink, device)
            }
        },
    }
}

/// How a run ends at an act that was stopped.
pub(crate) fn status_of_fault(fault: &RunFault) -> Status
    ensures status { result ≡ status_of_fault fault.now }
    ensures kind { (result ≢ Status.Usage) × (result ≢ Status.ReadFault) }
{
    match fault {
        RunFault::Sink => Status::WriteFault,
        RunFault::Device => Status::DeviceFault,
        RunFault::Memory => Status::Memory,
    }
}

// The turns of a list, one after the other.
ghost use Rattle.std.specs.Prelude.{◌≡◌, ◌+◌, ◌<◌, ◌≤◌, ◌^◌, ◌++◌, [], Err, IfOk, OnErr, length, vec_len, vec_capacity};
ghost use Rattle.call_history.specs.Cause.{HasCause, IsCounted};
ghost use Rattle.rule_model.specs.Key.{IsKey};
ghost use Rattle.commit_writes.specs.InFlight.{AreCurrent};
ghost use Rattle.batch_order.specs.Managed.{live_now};
ghost use Rattle.split_device.specs.Flight.{state_of_events};
ghost use Rattle.split_order.specs.Left.{left_of};
ghost use Rattle.split_order.specs.Steps.{IsPartNext};
ghost use Rattle.split_turns.specs.Turns.{AreAllTaken, StandsBefore, with_turn_number, translated};
ghost use Rattle.split_turns.specs.Seen.{TurnsOn};

use crate::{SplitDriveFault, SplitTurn};
use rule_model::{Key, Rank, key_fields};
use split_device::SplitDevice;
use split_order::SplitManager;
use std::alloc::{AllocError, Global};
use tcam_device::{DeviceFault, MOST_IN_FLIGHT};

/// Makes one turn, and answers what a read answered.
fn turn_once<D: SplitDevice>(
    manager: &mut SplitManager,
    turn: &SplitTurn,
    device: &mut D,
) -> Result<Option<Option<(Rank, u32)>>, DeviceFault>
    requires slots { manager.old.whole.slots ≤ D.slot_count device.old }
    requires room { length (left_of (D.slot_count device.old) manager.old) ≤ D.spare device.old }
    requires on { D.events device.old ≡ manager.old.events }
    requires current { AreCurrent (live_now manager.old.whole) (D.flight device.old).words }
    ensures turned { IfOk result (λ answered. TurnsOn (D.slot_count device.old) manager.old (D.flight device.old) turn.now answered
        manager.new (D.flight device.new)) }
    ensures slots { manager.new.whole.slots ≤ D.slot_count device.new }
    ensures spare { D.spare device.new + length (D.events device.new) ≡ D.spare device.old + length (D.events device.old) }
    ensures room { length (left_of (D.slot_count device.new) manager.new) ≤ D.spare device.new }
    ensures on { D.events device.new ≡ manager.new.events }
    ensures current { AreCurrent (live_now manager.new.whole) (D.flight device.new).words }
    ensures failed { OnErr result (manager.new ≡ manager.old) }
    ensures step { OnErr result (turn.now ≡ SplitTurn.Step) }
    ensures due { OnErr result (IsPartNext (left_of (D.slot_count device.old) manager.old)) }
    ensures flight_err { OnErr result (D.flight device.new ≡ D.flight device.old) }
    ensures slot_count { D.slot_count device.new ≡ D.slot_count device.old }
    ensures cause { HasCause (D.faults device.old) (D.faults device.new) result }
{
    manager.serving();
    match turn {
        SplitTurn::Step => {
            manager.step(device)?;
            Ok(None)
        }
        SplitTurn::Translate(key) => {
            translate(key, device);
            Ok(None)
        }
        SplitTurn::Search => {
            let _found = device.search();
            Ok(None)
        }
        SplitTurn::Read => Ok(device.read()),
    }
}

/// Puts a key's word into flight, where there is room.
fn translate<D: SplitDevice>(key: &Key, device: &mut D)
    ensures valid { IsKey key.now }
    ensures flight { D.flight device.new ≡ translated (state_of_events (D.slot_count device.old) (D.events device.old)) key.now (D.flight device.old) }
    ensures events { D.events device.new ≡ D.events device.old }
    ensures spare { D.spare device.new ≡ D.spare device.old }
    ensures slot_count { D.slot_count device.new ≡ D.slot_count device.old }
    ensures faults { D.faults device.new ≡ D.faults device.old }
{
    key_fields(key);
    if device.in_flight() < MOST_IN_FLIGHT {
        device.translate(key);
    }
}

/// Notes what the turn of this number answered, if it was a read.
fn note(
    answers: &mut Vec<(u32, Option<(Rank, u32)>)>,
    place: usize,
    answered: Option<Option<(Rank, u32)>>,
)
    requires number { place < 2 ^ 32 }
    requires room { vec_len answers.old < vec_capacity answers.old }
    ensures items { answers.new.items ≡ answers.old.items ++ with_turn_number place answered }
    ensures capacity { vec_capacity answers.new ≡ vec_capacity answers.old }
{
    match answered {
        None => {}
        Some(found) => answers.push_reserved((place as u32, found)),
    }
}

/// Makes the turns in order, over the device that the manager's steps have, and answers each read with its turn's number,
/// counted from 0: the result word of the slot that was found, a tag and a result, or None where none was found.
///
/// A translation with 256 words and found slots in flight, a search without a word and a read without a found slot are
/// passed over. A step makes what [`SplitManager::step`] does, which may be to wait until nothing is in flight; with no
/// commit under way, and so behind its end, it is idle. Of what is reserved each part and each drain takes its own room alone.
///
/// Each read answers what an undivided look-up of its key would at a moment between its search and its read, which is the
/// answer of the rules then or of those that the commit under way led to then. The words that are in flight in the end are
/// current again, so another commit may be prepared then, and more turns be made. For that those in the beginning have to
/// be, as they are where none is in flight, no found slot may be unread, and the device has to hold what the manager made.
///
/// `Memory` comes only before the first turn, and nothing is done then. `Device` comes exactly where the device's count of
/// failures rose, by one: the turns before the one that failed stand, and that one, a step with a part due, changed nothing
/// and isn't tried again. After either the same manager and device may be driven on, once the found slots are read.
pub fn drive_split<D: SplitDevice>(
    alloc: Global,
    manager: &mut SplitManager,
    turns: &[SplitTurn],
    device: &mut D,
) -> Result<Vec<(u32, Option<(Rank, u32)>)>, SplitDriveFault>
    requires few { length turns.now < 2 ^ 32 }
    requires slots { manager.old.whole.slots ≤ D.slot_count device.old }
    requires room { length (left_of (D.slot_count device.old) manager.old) ≤ D.spare device.old }
    requires on { D.events device.old ≡ manager.old.events }
    requires current { AreCurrent (live_now manager.old.whole) (D.flight device.old).words }
    requires read { (D.flight device.old).found ≡ [] }
    ensures driven { IfOk result (λ answers. AreAllTaken (D.slot_count device.old) manager.old (D.flight device.old) turns.now answers.items
        manager.new (D.flight device.new)) }
    ensures stands { (result ≡ Err SplitDriveFault.Device) → StandsBefore (D.slot_count device.old) manager.old (D.flight device.old) turns.now
        manager.new (D.flight device.new) }
    ensures cause { IsCounted (result ≡ Err SplitDriveFault.Device) (D.faults device.old) (D.faults device.new) }
    ensures memory { (result ≡ Err SplitDriveFault.Memory) → (manager.new ≡ manager.old) × (device.new ≡ device.old) }
    ensures slots { manager.new.whole.slots ≤ D.slot_count device.new }
    ensures spare { D.spare device.new + length (D.events device.new) ≡ D.spare device.old + length (D.events device.old) }
    ensures room { length (left_of (D.slot_count device.new) manager.new) ≤ D.spare device.new }
    ensures on { D.events device.new ≡ manager.new.events }
    ensures current { AreCurrent (live_now manager.new.whole) (D.flight device.new).words }
    ensures slot_count { D.slot_count device.new ≡ D.slot_count device.old }
{
    let mut answers = Vec::new(alloc);
    match answers.reserve(turns.len()) {
        Ok(()) => {}
        Err(AllocError) => return Err(SplitDriveFault::Memory),
    }
    for place in 0..turns.len() {
        let answered = match turn_once(manager, &turns[place], device) {
            Ok(answered) => answered,
            Err(DeviceFault) => return Err(SplitDriveFault::Device),
        };
        note(&mut answers, place, answered);
    }
    Ok(answers)
}

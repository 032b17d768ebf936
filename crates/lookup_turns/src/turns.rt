// The turns of a list, one after the other.
ghost use Rattle.std.specs.Prelude.{◌≡◌, ◌+◌, ◌<◌, ◌≤◌, ◌^◌, ◌++◌, Err, IfOk, IsSome, OnErr, length, vec_len, vec_capacity};
ghost use Rattle.call_history.specs.Cause.{HasCause, IsCounted};
ghost use Rattle.rule_model.specs.Key.{IsKey};
ghost use Rattle.tcam_device.specs.State.{State};
ghost use Rattle.tcam_device.specs.View.{IsSameButFlight, IsUntouched, device_state, journal};
ghost use Rattle.commit_writes.specs.InFlight.{AreCurrent};
ghost use Rattle.batch_order.specs.Managed.{IsOn, live_now};
ghost use Rattle.batch_order.specs.Steps.{next_of};
ghost use Rattle.batch_order.specs.Passed.{WayBackFrom};
ghost use Rattle.batch_order.specs.CarriedOut.{HasRoomBothWays, HasRoomLeft};
ghost use Rattle.lookup_turns.specs.Turns.{IsTurned, AreDriven, StandsBefore, with_number, translated};

use crate::{DriveFault, Turn};
use batch_order::Manager;
use rule_model::{Key, Rank, key_fields};
use std::alloc::{AllocError, Global};
use tcam_device::{Device, DeviceFault, MOST_IN_FLIGHT};

/// Makes one turn, and answers what a search found.
fn turn_once<D: Device>(
    manager: &mut Manager,
    turn: &Turn,
    device: &mut D,
) -> Result<Option<Option<(Rank, u32)>>, DeviceFault>
    requires slots { manager.old.slots ≤ (D.view device.old).slots }
    requires room { HasRoomLeft manager.old.held (D.view device.old).spare }
    requires on { IsOn (D.view device.old).slots (journal (D.view device.old)) manager.old }
    requires current { AreCurrent (live_now manager.old) (D.view device.old).flight }
    ensures turned { IfOk result (λ answered. IsTurned (D.view device.old) (D.view device.new) manager.old turn.now answered manager.new) }
    ensures slots { manager.new.slots ≤ (D.view device.new).slots }
    ensures room { HasRoomLeft manager.new.held (D.view device.new).spare }
    ensures both_ways { HasRoomBothWays manager.old.held (D.view device.old).spare → HasRoomBothWays manager.new.held (D.view device.new).spare }
    ensures way_back { (begun : State) → WayBackFrom begun manager.old → WayBackFrom begun manager.new }
    ensures on { IsOn (D.view device.new).slots (journal (D.view device.new)) manager.new }
    ensures current { AreCurrent (live_now manager.new) (D.view device.new).flight }
    ensures failed { OnErr result (manager.new ≡ manager.old) }
    ensures step { OnErr result (turn.now ≡ Turn.Step) }
    ensures due { OnErr result (IsSome (next_of manager.old.held)) }
    ensures unmade { OnErr result (IsUntouched (D.view device.old) (D.view device.new)) }
    ensures cause { HasCause (D.view device.old).faults (D.view device.new).faults result }
{
    manager.serving();
    match turn {
        Turn::Step => {
            manager.step(device)?;
            Ok(None)
        }
        Turn::Translate(key) => {
            translate(key, device);
            Ok(None)
        }
        Turn::Search => Ok(device.search()),
    }
}

/// Puts a key's word into flight, where there is room.
fn translate<D: Device>(key: &Key, device: &mut D)
    ensures valid { IsKey key.now }
    ensures flight { (D.view device.new).flight ≡ translated (device_state (D.view device.old)) key.now (D.view device.old).flight }
    ensures others { IsSameButFlight (D.view device.old) (D.view device.new) }
{
    key_fields(key);
    if device.in_flight() < MOST_IN_FLIGHT {
        device.translate(key);
    }
}

/// Notes what the turn of this number answered, if it was a search.
fn note(
    answers: &mut Vec<(u32, Option<(Rank, u32)>)>,
    place: usize,
    answered: Option<Option<(Rank, u32)>>,
)
    requires number { place < 2 ^ 32 }
    requires room { vec_len answers.old < vec_capacity answers.old }
    ensures items { answers.new.items ≡ answers.old.items ++ with_number place answered }
    ensures capacity { vec_capacity answers.new ≡ vec_capacity answers.old }
{
    match answered {
        None => {}
        Some(found) => answers.push_reserved((place as u32, found)),
    }
}

/// Makes the turns in order, over the device that the manager's steps have, and answers each search with its turn's
/// number, counted from 0: tag and result of the entry that it found, or None where it found none.
///
/// A translation with 256 words in flight and a search with none are passed over. A step makes what
/// [`Manager::step`] does, which may be to wait for the words in flight.
///
/// Each search answers what an undivided look-up of its key would at that moment, which is the old rules' answer or
/// that of the new ones, and the words that are in flight in the end are current again. For that those in the beginning
/// have to be, as they are where none is in flight, and the device has to hold what the manager's writes left.
///
/// `Memory` comes only before the first turn, and nothing is done then. `Device` comes exactly where the device's count
/// of failures rose, by one: the turns before the one that failed stand, and that one, a step with a write due, changed
/// nothing and isn't tried again. After either the same manager and device may be driven on.
///
/// The commit under way can be taken back before these turns and after them, if it could: its way back, and the room
/// for it, are kept.
pub fn drive<D: Device>(
    alloc: Global,
    manager: &mut Manager,
    turns: &[Turn],
    device: &mut D,
) -> Result<Vec<(u32, Option<(Rank, u32)>)>, DriveFault>
    requires few { length turns.now < 2 ^ 32 }
    requires slots { manager.old.slots ≤ (D.view device.old).slots }
    requires room { HasRoomLeft manager.old.held (D.view device.old).spare }
    requires on { IsOn (D.view device.old).slots (journal (D.view device.old)) manager.old }
    requires current { AreCurrent (live_now manager.old) (D.view device.old).flight }
    ensures driven { IfOk result (λ answers. AreDriven (D.view device.old) (D.view device.new) manager.old turns.now answers.items manager.new) }
    ensures stands { (result ≡ Err DriveFault.Device) → StandsBefore (D.view device.old) (D.view device.new) manager.old turns.now manager.new }
    ensures cause { IsCounted (result ≡ Err DriveFault.Device) (D.view device.old).faults (D.view device.new).faults }
    ensures memory { (result ≡ Err DriveFault.Memory) → (manager.new ≡ manager.old) × (device.new ≡ device.old) }
    ensures slots { manager.new.slots ≤ (D.view device.new).slots }
    ensures room { HasRoomLeft manager.new.held (D.view device.new).spare }
    ensures both_ways { HasRoomBothWays manager.old.held (D.view device.old).spare → HasRoomBothWays manager.new.held (D.view device.new).spare }
    ensures way_back { (begun : State) → WayBackFrom begun manager.old → WayBackFrom begun manager.new }
    ensures on { IsOn (D.view device.new).slots (journal (D.view device.new)) manager.new }
    ensures current { AreCurrent (live_now manager.new) (D.view device.new).flight }
{
    let mut answers = Vec::new(alloc);
    match answers.reserve(turns.len()) {
        Ok(()) => {}
        Err(AllocError) => return Err(DriveFault::Memory),
    }
    for place in 0..turns.len() {
        let answered = match turn_once(manager, &turns[place], device) {
            Ok(answered) => answered,
            Err(DeviceFault) => return Err(DriveFault::Device),
        };
        note(&mut answers, place, answered);
    }
    Ok(answers)
}

//! The daemon's side of a commit.

ghost use Rattle.std.specs.Prelude.{◌≡◌, ◌≢◌, ◌↔◌, ◌<◌, ◌≤◌, ◌-◌, ◌%◌, ◌^◌, ◌++◌, ◌∷◌, [], None, Err, IfErr, OnOk, OnErr};
ghost use Rattle.call_history.specs.Cause.{HasCause, IsCounted};
ghost use Rattle.tcam_device.specs.State.{Shows};
ghost use Rattle.tcam_device.specs.View.{device_state, journal};
ghost use Rattle.rule_store.specs.Batch.{set_after};
ghost use Rattle.batch_order.specs.Managed.{IsOn};
ghost use Rattle.route_daemon.specs.Asked.{TakesNoMore, IsNetwork, address_in, length_in, longest_in, route_priority, route_to};
ghost use Rattle.batch_order.specs.CarriedOut.{IsServed, ahead, writes_left};
ghost use Rattle.route_daemon.specs.Served.{IsLed, IsRefused, IsStuck, TakesCommit};

use crate::networks::{Network, priority_of, route_of};
use batch_order::{Manager, Refusal, Unfinished};
use rule_model::{Addr, IpVersion, Key, PrefixFault};
use rule_store::{Batch, Command, PushFault};
use std::io;
use tcam_device::{Device, DeviceFault};
use thiserror::Error;

/// A packet that is looked up behind each commit: its version of IP, and its destination, as printed and as keys have
/// it.
#[derive(Clone, Copy, Debug)]
pub struct Packet {
    pub version: IpVersion,
    pub name: &'static str,
    pub address: Addr,
}

/// Why a change can't join a batch.
#[derive(Clone, Copy, Debug, PartialEq, Eq, Error)]
pub enum RouteFault {
    /// The network is no prefix.
    #[error(transparent)]
    Prefix(PrefixFault),
    /// The batch is full, or memory is wanting.
    #[error(transparent)]
    Batch(PushFault),
}

/// Why a commit doesn't come to its end.
#[derive(Clone, Copy, Debug, PartialEq, Eq, Error)]
pub enum CommitFault {
    /// The batch isn't taken. Nothing was written, and the manager is as before. The text of the refusal has the prefix
    /// of the route that is at fault: `Refusal::for_version` writes it for either version.
    #[error(transparent)]
    Refused(Refusal),
    /// A write failed. The commit is still under way: [`resume`] makes that write again, and those behind it.
    #[error("the device failed")]
    Stuck,
}

/// Adds a route in the pending batch: packets to the network go to `port`. It is refused exactly where that is no
/// prefix, too long or with a bit set past its length, else exactly where the batch has 4,096 commands or more, and else only
/// for want of memory. After a refusal the batch is as before.
///
/// Which routes there are is judged by [`commit`]. It refuses a batch that adds a route for a prefix that has one, or
/// that changes or withdraws one that there isn't; and one that names a prefix twice, unless it withdraws the route and
/// then adds another.
pub fn add_route(batch: &mut Batch, network: Network, port: u32) -> Result<(), RouteFault>
    ensures added { OnOk result (batch.new ≡ batch.old ++ Command.Add (route_to network port) ∷ []) }
    ensures length { (result ≡ Err (RouteFault.Prefix PrefixFault.Length)) ↔ (longest_in network < length_in network) }
    ensures host_bits { (result ≡ Err (RouteFault.Prefix PrefixFault.HostBits)) ↔ ((length_in network ≤ longest_in network) × (address_in network % 2 ^ (longest_in network - length_in network) ≢ 0)) }
    ensures full { (result ≡ Err (RouteFault.Batch PushFault.Full)) ↔ (IsNetwork network × TakesNoMore batch.old) }
    ensures refused { OnErr result (batch.new ≡ batch.old) }
{
    let route = route_of(network, port).map_err(RouteFault::Prefix)?;
    batch.push(Command::Add(route)).map_err(RouteFault::Batch)
}

/// Sends the packets of a route to another port, in the pending batch. It is refused as [`add_route`] is.
pub fn change_route(batch: &mut Batch, network: Network, port: u32) -> Result<(), RouteFault>
    ensures changed { OnOk result (batch.new ≡ batch.old ++ Command.Set (route_priority network) port ∷ []) }
    ensures length { (result ≡ Err (RouteFault.Prefix PrefixFault.Length)) ↔ (longest_in network < length_in network) }
    ensures host_bits { (result ≡ Err (RouteFault.Prefix PrefixFault.HostBits)) ↔ ((length_in network ≤ longest_in network) × (address_in network % 2 ^ (longest_in network - length_in network) ≢ 0)) }
    ensures full { (result ≡ Err (RouteFault.Batch PushFault.Full)) ↔ (IsNetwork network × TakesNoMore batch.old) }
    ensures refused { OnErr result (batch.new ≡ batch.old) }
{
    let priority = priority_of(network).map_err(RouteFault::Prefix)?;
    let change = Command::Set {
        priority,
        result: port,
    };
    batch.push(change).map_err(RouteFault::Batch)
}

/// Withdraws a route, in the pending batch. It is refused as [`add_route`] is.
pub fn withdraw_route(batch: &mut Batch, network: Network) -> Result<(), RouteFault>
    ensures withdrawn { OnOk result (batch.new ≡ batch.old ++ Command.Del (route_priority network) ∷ []) }
    ensures length { (result ≡ Err (RouteFault.Prefix PrefixFault.Length)) ↔ (longest_in network < length_in network) }
    ensures host_bits { (result ≡ Err (RouteFault.Prefix PrefixFault.HostBits)) ↔ ((length_in network ≤ longest_in network) × (address_in network % 2 ^ (longest_in network - length_in network) ≢ 0)) }
    ensures full { (result ≡ Err (RouteFault.Batch PushFault.Full)) ↔ (IsNetwork network × TakesNoMore batch.old) }
    ensures refused { OnErr result (batch.new ≡ batch.old) }
{
    let removal = Command::Del(priority_of(network).map_err(RouteFault::Prefix)?);
    batch.push(removal).map_err(RouteFault::Batch)
}

/// Carries a batch of changes to routes out: `prepare` judges and plans it, and [`resume`] makes its writes. By what
/// was written, each packet is answered as the old routes do before the first write, and after each write as the old
/// routes or the new ones do. With Ok the routes are the new ones, and each packet is answered by them.
///
/// `Refused` says why the batch isn't taken, by the rule lists alone or for want of memory, and all is as before: the
/// next batch may come. With any other answer the rule lists accept the batch.
///
/// `Stuck` comes exactly where the device's count of failures rose. What was written is the beginning of what was
/// planned, and the write that failed comes next. Each packet is still answered as the old routes or the new ones do,
/// even where that write was made all the same; and `resume` goes on with it. Until it has come to the end no other
/// batch is taken.
///
/// A look-up of this daemon is undivided, so no word is in flight, before and after.
pub fn commit<D: Device>(
    rt: &HostRuntime,
    manager: &mut Manager,
    batch: &Batch,
    device: &mut D,
    packet: &Packet,
) -> Result<(), CommitFault>
    requires slots { manager.old.slots ≤ (D.view device.old).slots }
    requires on { IsOn (D.view device.old).slots (journal (D.view device.old)) manager.old }
    requires none_in_flight { (D.view device.old).flight ≡ [] }
    requires idle { manager.old.held ≡ None }
    ensures slots { manager.new.slots ≡ manager.old.slots }
    ensures slot_count { (D.view device.new).slots ≡ (D.view device.old).slots }
    ensures led { IsLed manager.new (D.view device.new) }
    ensures before { Shows (device_state (D.view device.old)) manager.old.rules }
    ensures hitless { IsServed (D.view device.new).slots (journal (D.view device.old)) (journal (D.view device.new)) manager.old.rules (set_after manager.old.rules batch.now) }
    ensures idle { OnOk result (manager.new.held ≡ None) }
    ensures rules { OnOk result (manager.new.rules ≡ set_after manager.old.rules batch.now) }
    ensures shows { OnOk result (Shows (device_state (D.view device.new)) (set_after manager.old.rules batch.now)) }
    ensures taken { ((refusal : Refusal) → result ≢ Err (CommitFault.Refused refusal)) → TakesCommit manager.old manager.new batch.now (journal (D.view device.old)) (journal (D.view device.new)) }
    ensures refused { (refusal : Refusal) → (result ≡ Err (CommitFault.Refused refusal)) → IsRefused manager.old manager.new batch.now (journal (D.view device.old)) (journal (D.view device.new)) refusal }
    ensures stuck { (result ≡ Err CommitFault.Stuck) → IsStuck (D.view device.new).slots (journal (D.view device.new)) manager.old.rules (set_after manager.old.rules batch.now) manager.new }
    ensures cause { IsCounted (result ≡ Err CommitFault.Stuck) (D.view device.old).faults (D.view device.new).faults }
{
    match manager.prepare(batch, device) {
        Ok(counts) => {
            let _ = println!(rt; "commit writes {}", counts.writes);
        }
        Err(refusal) => return Err(CommitFault::Refused(refusal)),
    }
    match resume(rt, manager, device, packet) {
        Ok(()) => Ok(()),
        Err(DeviceFault) => Err(CommitFault::Stuck),
    }
}

/// Makes the writes that are left of the commit under way, in their order, none of them twice, and looks a packet up
/// behind them. With none under way there is nothing to do. Each packet is answered as [`commit`] says, before these
/// writes as well, and a write that fails leaves what it says of `Stuck`: so `resume` may be called again. What can't
/// be printed changes nothing. The daemon takes no commit back.
pub fn resume<D: Device>(
    rt: &HostRuntime,
    manager: &mut Manager,
    device: &mut D,
    packet: &Packet,
) -> Result<(), DeviceFault>
    requires led { IsLed manager.old (D.view device.old) }
    ensures slots { manager.new.slots ≡ manager.old.slots }
    ensures slot_count { (D.view device.new).slots ≡ (D.view device.old).slots }
    ensures led { IsLed manager.new (D.view device.new) }
    ensures hitless { IsServed (D.view device.new).slots (journal (D.view device.old)) (journal (D.view device.new)) manager.old.rules (ahead manager.old) }
    ensures made { journal (D.view device.new) ++ writes_left manager.new.held ≡ journal (D.view device.old) ++ writes_left manager.old.held }
    ensures idle { OnOk result (manager.new.held ≡ None) }
    ensures rules { OnOk result (manager.new.rules ≡ ahead manager.old) }
    ensures shows { OnOk result (Shows (device_state (D.view device.new)) (ahead manager.old)) }
    ensures stuck { OnErr result (IsStuck (D.view device.new).slots (journal (D.view device.new)) manager.old.rules (ahead manager.old) manager.new) }
    ensures cause { HasCause (D.view device.old).faults (D.view device.new).faults result }
{
    let carried = manager.carry_out(device, 1);
    let _ = tell(rt, device, packet);
    match carried {
        Ok(_) => Ok(()),
        Err(Unfinished::Stuck { .. }) => Err(DeviceFault),
        // No word is ever in flight here, and no commit is turned round.
        Err(Unfinished::Waiting { .. }) => unreachable!(),
        Err(Unfinished::Reverted { .. }) => unreachable!(),
    }
}

/// Prints where a packet goes.
fn tell<D: Device>(rt: &HostRuntime, device: &D, packet: &Packet) -> io::Result<()> {
    let key = Key {
        src: 0,
        dst: packet.address,
        proto: 0,
        sport: 0,
        dport: 0,
    };
    match device.look(&key) {
        Some((_, port)) => println!(rt; "  {} goes to {port}", packet.name)?,
        None => println!(rt; "  {} goes nowhere", packet.name)?,
    }
    Ok(())
}

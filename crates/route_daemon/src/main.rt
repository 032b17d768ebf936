//! How a route daemon drives the manager over a device of its own.
//!
//! The hardware is [`Registers`]: it stands for a memory behind registers, and tells nothing. `Shadowed` makes a device
//! of it, with slots and tables in memory that follow what was written. A commit is a batch, one `prepare`, and one
//! `carry_out`, which makes its writes; a packet is looked up behind it. A write that fails leaves the commit under
//! way, and `resume` goes on with that write. To drive a memory of your own, write another `Registers`.
//!
//! # Decided
//! - **`commit` says what each answer leaves.** Without that a body that gave up after its first write met it, and
//!   after a mere refusal no caller could show that no commit is under way. So a refusal is the verdict's own or want
//!   of memory, and leaves manager and journal; with any other answer the verdict accepts the batch, and what was
//!   written and what is left are together what was planned; a failed write is the next one. The price is a second
//!   entry, `resume`, with `commit` as `prepare` and then `resume`, that a line that can't be printed ends no commit,
//!   and that a packet is looked up behind a commit and no more between two writes, for which there is `step`.
#![tactic(auto)]

mod daemon;
mod networks;
mod registers;

ghost use Rattle.std.specs.Prelude.{◌≡◌, ◌≤◌, [], None, OnOk};
ghost use Rattle.rule_store.specs.Batch.{set_after};
ghost use Rattle.batch_order.specs.Managed.{IsOn};
ghost use Rattle.tcam_device.specs.View.{journal};

use anyhow::anyhow;
use batch_order::{Manager, Mode, Placement};
use daemon::{CommitFault, Packet, add_route, change_route, commit, resume, withdraw_route};
use memory_tcam::Shadowed;
use networks::Network;
use registers::{Registers, SLOTS};
use rule_model::IpVersion;
use rule_store::Batch;
use tcam_device::Device;

/// Routes of IPv4, and the same of IPv6 over another device.
fn main(rt: HostRuntime) -> anyhow::Result<()> {
    let packet = Packet {
        version: IpVersion::V4,
        name: "10.1.2.3",
        address: 0x0a01_0203 << 96,
    };
    let networks = [
        Network::V4(0x0a00_0000, 8),
        Network::V4(0x0a01_0200, 24),
        Network::V4(0x0a01_0000, 16),
        Network::V4(0x0a01_0000, 20),
    ];
    serve(&rt, networks, &packet)?;
    let packet = Packet {
        version: IpVersion::V6,
        name: "2001:db8:1:2::3",
        address: 0x2001_0db8_0001_0002_0000_0000_0000_0003,
    };
    let networks = [
        Network::V6(0x2001_0db8 << 96, 32),
        Network::V6(0x2001_0db8_0001_0002 << 64, 64),
        Network::V6(0x2001_0db8_0001 << 80, 48),
        Network::V6(0x2001_0db8_0001 << 80, 56),
    ];
    serve(&rt, networks, &packet)
}

/// A device of its own and a manager for routes of four networks.
fn serve(rt: &HostRuntime, networks: [Network; 4], packet: &Packet) -> anyhow::Result<()> {
    let mut device = Shadowed::new(rt.alloc(), Registers::new())?;
    let mut manager = Manager::new(rt.alloc(), SLOTS, Mode::Cover, Placement::Middle)?;
    change_routes(rt, networks, packet, &mut manager, &mut device)
}

/// Adds routes of four networks, a commit each. The last goes between two that stand side by side, so one of them
/// moves. Then one commit withdraws a route and changes the port of the next shorter one: the packet keeps the old
/// answer until the route is erased.
fn change_routes<D: Device>(
    rt: &HostRuntime,
    networks: [Network; 4],
    packet: &Packet,
    manager: &mut Manager,
    device: &mut D,
) -> anyhow::Result<()>
    requires slots { manager.old.slots ≤ (D.view device.old).slots }
    requires on { IsOn (D.view device.old).slots (journal (D.view device.old)) manager.old }
    requires none_in_flight { (D.view device.old).flight ≡ [] }
    requires idle { manager.old.held ≡ None }
{
    let mut batch = Batch::new(rt.alloc());
    let [shortest, longest, middle, last] = networks;
    for (network, port) in [(shortest, 7), (longest, 8), (middle, 9), (last, 5)] {
        batch.clear();
        add_route(&mut batch, network, port)?;
        push_batch(rt, manager, &batch, device, packet)?;
    }
    batch.clear();
    withdraw_route(&mut batch, longest)?;
    change_route(&mut batch, last, 6)?;
    push_batch(rt, manager, &batch, device, packet)
}

/// Commits a batch. Where a write fails it is made again, with those behind it: here once, and a daemon may try as
/// often as it likes.
fn push_batch<D: Device>(
    rt: &HostRuntime,
    manager: &mut Manager,
    batch: &Batch,
    device: &mut D,
    packet: &Packet,
) -> anyhow::Result<()>
    requires slots { manager.old.slots ≤ (D.view device.old).slots }
    requires on { IsOn (D.view device.old).slots (journal (D.view device.old)) manager.old }
    requires none_in_flight { (D.view device.old).flight ≡ [] }
    requires idle { manager.old.held ≡ None }
    ensures slots { manager.new.slots ≡ manager.old.slots }
    ensures slot_count { (D.view device.new).slots ≡ (D.view device.old).slots }
    ensures on { IsOn (D.view device.new).slots (journal (D.view device.new)) manager.new }
    ensures none_in_flight { (D.view device.new).flight ≡ [] }
    ensures idle { OnOk result (manager.new.held ≡ None) }
    ensures rules { OnOk result (manager.new.rules ≡ set_after manager.old.rules batch.now) }
{
    match commit(rt, manager, batch, device, packet) {
        Ok(()) => Ok(()),
        Err(CommitFault::Refused(refusal)) => {
            Err(anyhow!("{}", refusal.for_version(packet.version)))
        }
        Err(CommitFault::Stuck) => Ok(resume(rt, manager, device, packet)?),
    }
}

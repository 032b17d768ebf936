//! How a program drives a device, without a contract of its own: a commit, one that is taken back, and one that another
//! manager goes on with. README, LIBRARY and RESTART have pieces like these, which are proved and run here.
//!
//! The device is one in memory; a program makes one of its own hardware by `memory_tcam::Shadowed`, as `route_daemon`
//! does.
#![tactic(auto)]

mod commits;
mod restarts;

use batch_order::{Mode, Placement};
use commits::{commit, take_back};
use driven_device::Driven;
use memory_tcam::MemTcam;
use restarts::stop_and_go_on;
use rule_model::{Key, Prefix, ipv4_route_rank, route_rule};
use rule_store::{Batch, Command};
use std::alloc::Global;
use std::io;
use tcam_device::{Device, ReadBack};

/// How many slots there are.
const SLOTS: u32 = 8;

fn main(rt: HostRuntime) -> anyhow::Result<()> {
    let mut driven = blank_driven(rt.alloc())?;
    commit_routes(&rt, &mut driven)?;
    take_change_back(&rt, &mut driven)?;
    hand_change_over(&rt, driven)
}

/// A manager without rules, over a device in memory.
fn blank_driven(alloc: Global) -> anyhow::Result<Driven<MemTcam>> {
    let device = MemTcam::new(alloc, SLOTS)?;
    let driven = Driven::new(alloc, SLOTS, Mode::Cover, Placement::Rank, device)?;
    Ok(driven)
}

/// Commits two routes.
fn commit_routes<D: Device>(rt: &HostRuntime, driven: &mut Driven<D>) -> anyhow::Result<()> {
    let routes = two_routes(rt.alloc())?;
    commit(driven, &routes)?;
    tell(rt, driven)?;
    Ok(())
}

/// Begins a change of the routes, and takes it back.
fn take_change_back<D: Device>(rt: &HostRuntime, driven: &mut Driven<D>) -> anyhow::Result<()> {
    let fewer = one_route(rt.alloc())?;
    take_back(driven, &fewer)?;
    tell(rt, driven)?;
    Ok(())
}

/// Begins the change again, and has another manager go on with it.
fn hand_change_over<D: ReadBack + Drop>(rt: &HostRuntime, driven: Driven<D>) -> anyhow::Result<()> {
    let fewer = one_route(rt.alloc())?;
    let driven = stop_and_go_on(rt.alloc(), driven, &fewer)?;
    tell(rt, &driven)?;
    Ok(())
}

/// Packets to 10.0.0.0/8 go to port 7, and those to 10.1.0.0/16 to port 8.
fn two_routes(alloc: Global) -> anyhow::Result<Batch> {
    let mut batch = Batch::new(alloc);
    batch.push(Command::Add(route_rule(Prefix::v4(0x0a00_0000, 8)?, 7)))?;
    batch.push(Command::Add(route_rule(Prefix::v4(0x0a01_0000, 16)?, 8)))?;
    Ok(batch)
}

/// All packets to 10.0.0.0/8 go to port 5.
fn one_route(alloc: Global) -> anyhow::Result<Batch> {
    let mut batch = Batch::new(alloc);
    batch.push(Command::Set {
        priority: ipv4_route_rank(&Prefix::v4(0x0a00_0000, 8)?),
        result: 5,
    })?;
    batch.push(Command::Del(ipv4_route_rank(&Prefix::v4(0x0a01_0000, 16)?)))?;
    Ok(batch)
}

/// Prints where a packet goes.
fn tell<D: Device>(rt: &HostRuntime, driven: &Driven<D>) -> io::Result<()> {
    let free = driven.free_slots();
    match driven.look(&Key::v4(0, 0x0a01_0203, 0, 0, 0)) {
        Some((_, port)) => println!(rt; "10.1.2.3 goes to {port}, {free} slots are free"),
        None => println!(rt; "10.1.2.3 goes nowhere, {free} slots are free"),
    }
}

//! The functions that C calls for rules and packets of IPv6.

ghost use Rattle.std.specs.Prelude.{◌≡◌, IsNone};
ghost use Rattle.tcam_c.specs.Calls.{AnswersPacket, Called, Entered, packet_key6};
ghost use Rattle.tcam_c.specs.Codes6.{AddsRoute6, AddsRule6, DelsRoute6, SetsRoute6};

use crate::changes6::{adds_route6, adds_rule6, dels_route6, sets_route6, whole_address};
use crate::codes::{NO_MANAGER, OK};
use crate::exports::enter;
use crate::handle::TcamManager;
use crate::plain::{TcamAddress, TcamAnswer, TcamKey6, TcamRule6, answer_of};
use rule_model::Key;
use std::alloc::Global;

/// Adds a route of IPv6 in the batch.
#[unsafe(no_mangle)]
pub extern "C" fn tcam_c_add_route6(
    manager: &mut TcamManager,
    address: &TcamAddress,
    length: u8,
    answer: u32,
    alloc: Global,
) -> u32
    ensures { Entered (AddsRoute6 address.now length answer) manager.old.held.session manager.new.held.session result }
{
    enter(manager, alloc, adds_route6(address, length, answer))
}

/// Changes the result of a route of IPv6 in the batch.
#[unsafe(no_mangle)]
pub extern "C" fn tcam_c_set_route6(
    manager: &mut TcamManager,
    address: &TcamAddress,
    length: u8,
    answer: u32,
    alloc: Global,
) -> u32
    ensures { Entered (SetsRoute6 address.now length answer) manager.old.held.session manager.new.held.session result }
{
    enter(manager, alloc, sets_route6(address, length, answer))
}

/// Removes a route of IPv6 in the batch.
#[unsafe(no_mangle)]
pub extern "C" fn tcam_c_del_route6(
    manager: &mut TcamManager,
    address: &TcamAddress,
    length: u8,
    alloc: Global,
) -> u32
    ensures { Entered (DelsRoute6 address.now length) manager.old.held.session manager.new.held.session result }
{
    enter(manager, alloc, dels_route6(address, length))
}

/// Adds a rule of an access list with prefixes of IPv6 in the batch.
#[unsafe(no_mangle)]
pub extern "C" fn tcam_c_add_rule6(
    manager: &mut TcamManager,
    rule: &TcamRule6,
    alloc: Global,
) -> u32
    ensures { Entered (AddsRule6 rule.now) manager.old.held.session manager.new.held.session result }
{
    enter(manager, alloc, adds_rule6(rule))
}

/// Tells what a packet of IPv6 is answered by the writes that were made. It changes nothing else, and takes no memory.
#[unsafe(no_mangle)]
pub extern "C" fn tcam_c_answer6(
    manager: &mut TcamManager,
    key: &TcamKey6,
    answer: &mut TcamAnswer,
    alloc: Global,
) -> u32
    ensures told { Called (AnswersPacket (packet_key6 key.now) answer.new) manager.old.held.session manager.new.held.session result }
    ensures untold { IsNone manager.old.held.session → answer.new ≡ answer.old }
{
    let Some(session) = manager.take(alloc) else {
        return NO_MANAGER;
    };
    let asked = Key {
        src: whole_address(&key.source),
        dst: whole_address(&key.destination),
        proto: key.protocol,
        sport: key.source_port,
        dport: key.destination_port,
    };
    *answer = answer_of(session.look(&asked));
    manager.put(session);
    OK
}

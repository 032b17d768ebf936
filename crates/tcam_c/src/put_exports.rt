//! The functions that C calls for changes that don't ask what is there, and for a whole new set.

ghost use Rattle.std.specs.Prelude.{◌≡◌, IsNone};
ghost use Rattle.tcam_c.specs.Calls.{AskedFor, AsksOr, Called, PreparedAll};
ghost use Rattle.tcam_c.specs.Puts.{DropsRoute, DropsRoute6, DropsRule, PutsRoute, PutsRoute6, PutsRule, PutsRule6};

use crate::codes::{NO_MANAGER, code_of_push};
use crate::exports::tell_prepared;
use crate::handle::TcamManager;
use crate::plain::{TcamAddress, TcamNumbers, TcamRefusal, TcamRule, TcamRule6};
use crate::puts::{
    drops_route, drops_route6, drops_rule, puts_route, puts_route6, puts_rule, puts_rule6,
};
use settled_changes::Request;
use std::alloc::Global;

/// A forgiving change joins the batch.
fn ask(manager: &mut TcamManager, alloc: Global, wanted: Result<Request, u32>) -> u32
    ensures { Called (AsksOr wanted) manager.old.held.session manager.new.held.session result }
{
    let Some(mut session) = manager.take(alloc) else {
        return NO_MANAGER;
    };
    let code = match wanted {
        Ok(request) => code_of_push(session.ask(alloc, request)),
        Err(code) => code,
    };
    manager.put(session);
    code
}

/// Has a route stand in the batch, whatever stood there.
#[unsafe(no_mangle)]
pub extern "C" fn tcam_c_put_route(
    manager: &mut TcamManager,
    address: u32,
    length: u8,
    answer: u32,
    alloc: Global,
) -> u32
    ensures { AskedFor (PutsRoute address length answer) manager.old.held.session manager.new.held.session result }
{
    ask(manager, alloc, puts_route(address, length, answer))
}

/// Has no route of this prefix stand in the batch, whether one stood there or not.
#[unsafe(no_mangle)]
pub extern "C" fn tcam_c_drop_route(
    manager: &mut TcamManager,
    address: u32,
    length: u8,
    alloc: Global,
) -> u32
    ensures { AskedFor (DropsRoute address length) manager.old.held.session manager.new.held.session result }
{
    ask(manager, alloc, drops_route(address, length))
}

/// Has a rule of an access list stand in the batch, whatever stood there.
#[unsafe(no_mangle)]
pub extern "C" fn tcam_c_put_rule(manager: &mut TcamManager, rule: &TcamRule, alloc: Global) -> u32
    ensures { AskedFor (PutsRule rule.now) manager.old.held.session manager.new.held.session result }
{
    ask(manager, alloc, puts_rule(rule))
}

/// Has no rule of this number stand in the batch, of either version, whether one stood there or not.
#[unsafe(no_mangle)]
pub extern "C" fn tcam_c_drop_rule(manager: &mut TcamManager, number: u32, alloc: Global) -> u32
    ensures { AskedFor (DropsRule number) manager.old.held.session manager.new.held.session result }
{
    ask(manager, alloc, drops_rule(number))
}

/// Has a route of IPv6 stand in the batch, whatever stood there.
#[unsafe(no_mangle)]
pub extern "C" fn tcam_c_put_route6(
    manager: &mut TcamManager,
    address: &TcamAddress,
    length: u8,
    answer: u32,
    alloc: Global,
) -> u32
    ensures { AskedFor (PutsRoute6 address.now length answer) manager.old.held.session manager.new.held.session result }
{
    ask(manager, alloc, puts_route6(address, length, answer))
}

/// Has no route of this prefix of IPv6 stand in the batch, whether one stood there or not.
#[unsafe(no_mangle)]
pub extern "C" fn tcam_c_drop_route6(
    manager: &mut TcamManager,
    address: &TcamAddress,
    length: u8,
    alloc: Global,
) -> u32
    ensures { AskedFor (DropsRoute6 address.now length) manager.old.held.session manager.new.held.session result }
{
    ask(manager, alloc, drops_route6(address, length))
}

/// Has a rule of an access list with prefixes of IPv6 stand in the batch, whatever stood there.
#[unsafe(no_mangle)]
pub extern "C" fn tcam_c_put_rule6(
    manager: &mut TcamManager,
    rule: &TcamRule6,
    alloc: Global,
) -> u32
    ensures { AskedFor (PutsRule6 rule.now) manager.old.held.session manager.new.held.session result }
{
    ask(manager, alloc, puts_rule6(rule))
}

/// Has the batch judged and planned as the whole new set: what its changes make of no rules. The commands that lead there are
/// the least ones: rules that the new set lacks go, equal ones stay untouched, and others get another result or are replaced.
/// Where it is taken the numbers are written, and the batch is empty then; else what the refusal tells is, and the batch and
/// all else stay as they were.
#[unsafe(no_mangle)]
pub extern "C" fn tcam_c_prepare_all(
    manager: &mut TcamManager,
    numbers: &mut TcamNumbers,
    refusal: &mut TcamRefusal,
    alloc: Global,
) -> u32
    ensures prepared { Called (PreparedAll numbers.old numbers.new refusal.old refusal.new) manager.old.held.session manager.new.held.session result }
    ensures untold { IsNone manager.old.held.session → (numbers.new ≡ numbers.old) × (refusal.new ≡ refusal.old) }
{
    let Some(mut session) = manager.take(alloc) else {
        return NO_MANAGER;
    };
    let judged = session.prepare_all(alloc);
    manager.put(session);
    tell_prepared(judged, numbers, refusal)
}

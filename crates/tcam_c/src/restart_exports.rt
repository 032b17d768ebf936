//! The functions that C calls to save what a restart asks for, and to restart.

ghost use Rattle.std.specs.Prelude.{◌≡◌, IsNone};
ghost use Rattle.tcam_c.specs.Calls.{Called};
ghost use Rattle.tcam_c.specs.Restart.{BeginsRestart, ForgetsTold, TakesUp, TellsMore, reply};
ghost use Rattle.tcam_c.specs.Told.{AddsRange, AddsSlot, AddsWord, TakesRule};
ghost use Rattle.tcam_c.specs.Ranges.{TellsRange, both_fields, range_of_bit};

use crate::codes::{BESIDE, NO_MANAGER, NO_RANGE, OK, field_of};
use crate::handle::TcamManager;
use crate::plain::{TcamRefusal, TcamStored, TcamWrite};
use crate::stage_told::TcamRestartFault;
use range_bits::BitMap;
use rule_model::{Field, Ports};
use std::alloc::Global;

/// Tells the live port range of a field's bit, by its first and its last port. A driver saves them beside the rules. While a
/// commit is under way they are those of the old set. Where no range has the bit the code says so, as where there is no such
/// field or bit, and by covers; and another says so of a memory whose results stand beside its slots. It changes nothing else,
/// and takes no memory.
#[unsafe(no_mangle)]
pub extern "C" fn tcam_c_ranges(
    manager: &mut TcamManager,
    field: u32,
    bit: u8,
    first: &mut u16,
    last: &mut u16,
    alloc: Global,
) -> u32
    ensures told { Called (TellsRange field bit first.old first.new last.old last.new) manager.old.held.session manager.new.held.session result }
    ensures untold { IsNone manager.old.held.session → (first.new ≡ first.old) × (last.new ≡ last.old) }
{
    let Some(session) = manager.take(alloc) else {
        return NO_MANAGER;
    };
    let code = match session.bits() {
        None => BESIDE,
        Some(bits) => match range_at_bit(bits, field_of(field), bit) {
            None => NO_RANGE,
            Some(range) => {
                *first = range.lo();
                *last = range.hi();
                OK
            }
        },
    };
    manager.put(session);
    code
}

/// Begins a restart: nothing is told yet. The manager has no rules and no commit, of a memory of whole entries; what it leads is
/// the memory that outlived another manager. It takes memory as a new manager does.
#[unsafe(no_mangle)]
pub extern "C" fn tcam_c_restart_begin(manager: &mut TcamManager, alloc: Global) -> u32
    ensures { Called BeginsRestart manager.old.held.session manager.new.held.session result }
{
    let Some(mut session) = manager.take(alloc) else {
        return NO_MANAGER;
    };
    let code = session.begin_restart(alloc);
    manager.put(session);
    code
}

/// Tells a rule of the set that the other manager had; while a commit was under way, of the old set.
#[unsafe(no_mangle)]
pub extern "C" fn tcam_c_restart_rule(
    manager: &mut TcamManager,
    rule: &TcamStored,
    alloc: Global,
) -> u32
    ensures { Called (TellsMore (TakesRule rule.now)) manager.old.held.session manager.new.held.session result }
{
    let Some(mut session) = manager.take(alloc) else {
        return NO_MANAGER;
    };
    let code = session.tell_rule(rule);
    manager.put(session);
    code
}

/// Tells the port range that a field's bit had.
#[unsafe(no_mangle)]
pub extern "C" fn tcam_c_restart_range(
    manager: &mut TcamManager,
    field: u32,
    bit: u8,
    first: u16,
    last: u16,
    alloc: Global,
) -> u32
    ensures { Called (TellsMore (AddsRange field bit first last)) manager.old.held.session manager.new.held.session result }
{
    let Some(mut session) = manager.take(alloc) else {
        return NO_MANAGER;
    };
    let code = session.tell_range(field, bit, first, last);
    manager.put(session);
    code
}

/// Tells the entry that a slot of the memory holds. One that isn't told of is empty.
#[unsafe(no_mangle)]
pub extern "C" fn tcam_c_restart_slot(
    manager: &mut TcamManager,
    entry: &TcamWrite,
    alloc: Global,
) -> u32
    ensures { Called (TellsMore (AddsSlot entry.now)) manager.old.held.session manager.new.held.session result }
{
    let Some(mut session) = manager.take(alloc) else {
        return NO_MANAGER;
    };
    let code = session.tell_slot(entry);
    manager.put(session);
    code
}

/// Tells the word that a field's table has at a port. One that isn't told of is 0.
#[unsafe(no_mangle)]
pub extern "C" fn tcam_c_restart_word(
    manager: &mut TcamManager,
    field: u32,
    port: u16,
    word: u16,
    alloc: Global,
) -> u32
    ensures { Called (TellsMore (AddsWord field port word)) manager.old.held.session manager.new.held.session result }
{
    let Some(mut session) = manager.take(alloc) else {
        return NO_MANAGER;
    };
    let code = session.tell_word(field, port, word);
    manager.put(session);
    code
}

/// Goes on with the commit of the pending batch, by what was told: from now on the writes that are left are due, and the memory
/// that it takes the caller's to be holds what was told. It tells how many there are, and with none the commit has finished.
/// Where the rules alone refuse the batch, or the memory shows no stage of its commit, it tells why, and all stays as it was.
#[unsafe(no_mangle)]
pub extern "C" fn tcam_c_restart(
    manager: &mut TcamManager,
    left: &mut u64,
    refusal: &mut TcamRefusal,
    fault: &mut TcamRestartFault,
    alloc: Global,
) -> u32
    ensures restarted { Called (TakesUp (reply left.old refusal.old fault.old) (reply left.new refusal.new fault.new)) manager.old.held.session manager.new.held.session result }
    ensures untold { IsNone manager.old.held.session → reply left.new refusal.new fault.new ≡ reply left.old refusal.old fault.old }
{
    let Some(mut session) = manager.take(alloc) else {
        return NO_MANAGER;
    };
    let code = session.restart(alloc, left, refusal, fault);
    manager.put(session);
    code
}

/// Takes all out again that was told, and gives its memory back. No restart is begun then.
#[unsafe(no_mangle)]
pub extern "C" fn tcam_c_restart_clear(manager: &mut TcamManager, alloc: Global) -> u32
    ensures { Called ForgetsTold manager.old.held.session manager.new.held.session result }
{
    let Some(mut session) = manager.take(alloc) else {
        return NO_MANAGER;
    };
    let code = session.forget();
    manager.put(session);
    code
}

/// The live range of a field's bit, where the field is one and the bit has one.
fn range_at_bit(bits: (BitMap, BitMap), field: Option<Field>, bit: u8) -> Option<Ports>
    ensures { result ≡ range_of_bit (both_fields bits) field bit }
{
    match field {
        None => None,
        Some(Field::Src) => bits.0.range_of(bit),
        Some(Field::Dst) => bits.1.range_of(bit),
    }
}

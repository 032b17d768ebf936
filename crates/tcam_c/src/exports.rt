//! The functions that C calls.

ghost use Rattle.std.specs.Prelude.{◌≡◌, ◌≤◌, Some, None, IfSome, IsSome, IsNone};
ghost use Rattle.tcam_c.specs.Calls.{AnswersPacket, Called, Clears, Entered, Enters, IsFreed, IsMade, ListsRule, MakesOf, Nexts, Prepared, TellsAbort, TellsChain, TellsDrain, TellsFree, TellsWrite, Told, fresh_session, packet_key};
ghost use Rattle.tcam_c.specs.Codes.{AddsRoute, AddsRule, DelsRoute, DelsRule, SetsRoute, SetsRule};
ghost use Rattle.tcam_c.specs.Tables.{IsServingTable, fresh_table};

use crate::changes::{adds_route, adds_rule, dels_route, dels_rule, sets_route, sets_rule};
use crate::codes::{
    DRAIN_DUE, MADE_ALREADY, MEMORY, NO_MANAGER, NO_MODE, NO_PLACEMENT, NO_RULE, NOTHING_DUE, OK,
    SLOTS_RANGE, WRITE_DUE, code_of_push, code_of_refusal, mode_of, placement_of,
};
use crate::handle::TcamManager;
use crate::plain::{
    TcamAnswer, TcamKey, TcamNumbers, TcamRefusal, TcamRule, TcamStored, TcamWrite, answer_of,
    refusal_of, stored_of,
};
use crate::session::Session;
use crate::steps::DueKind;
use crate::table::TableKind;
use batch_order::{Mode, Placement, Refusal};
use rule_model::Key;
use rule_store::Command;
use slot_order::MOST_SLOTS;
use std::alloc::{AllocError, Global};

/// Makes a manager of a blank memory with so many slots, 1 to 1,048,576, and no rules. Mode 0 cuts port ranges by covers, 1
/// by bits; placement 0 aims at the middle of a gap, 1 at the slot of a rule's rank. A handle that has a manager stays
/// as it is, and so does one for which an argument is wrong or memory is wanting.
#[unsafe(no_mangle)]
pub extern "C" fn tcam_c_new(
    manager: &mut TcamManager,
    slots: u32,
    mode: u32,
    placement: u32,
    alloc: Global,
) -> u32
    ensures { IsMade TableKind.Whole slots mode placement manager.old.held.session manager.new.held.session result }
{
    make(manager, alloc, TableKind::Whole, slots, mode, placement)
}

/// Makes a manager of a blank memory whose results stand beside its slots, likewise: each slot empty, each result word of
/// the least tag and 0.
#[unsafe(no_mangle)]
pub extern "C" fn tcam_c_new_split(
    manager: &mut TcamManager,
    slots: u32,
    mode: u32,
    placement: u32,
    alloc: Global,
) -> u32
    ensures { IsMade TableKind.Split slots mode placement manager.old.held.session manager.new.held.session result }
{
    make(manager, alloc, TableKind::Split, slots, mode, placement)
}

/// Makes a manager of a blank memory of this kind.
fn make(
    manager: &mut TcamManager,
    alloc: Global,
    kind: TableKind,
    slots: u32,
    mode: u32,
    placement: u32,
) -> u32
    ensures { IsMade kind slots mode placement manager.old.held.session manager.new.held.session result }
{
    if manager.made {
        return MADE_ALREADY;
    }
    if slots < 1 || slots > MOST_SLOTS {
        return SLOTS_RANGE;
    }
    let Some(mode) = mode_of(mode) else {
        return NO_MODE;
    };
    let Some(placement) = placement_of(placement) else {
        return NO_PLACEMENT;
    };
    fill(manager, alloc, kind, slots, mode, placement)
}

/// Makes a manager of right numbers behind a handle that has none.
fn fill(
    manager: &mut TcamManager,
    alloc: Global,
    kind: TableKind,
    slots: u32,
    mode: Mode,
    placement: Placement,
) -> u32
    requires none { manager.old.held.session ≡ None }
    requires least { 1 ≤ slots }
    requires most { slots ≤ MOST_SLOTS }
    ensures { MakesOf kind slots (Some mode) (Some placement) manager.new.held.session result }
{
    match boxed(alloc, kind, slots, mode, placement) {
        None => MEMORY,
        Some(session) => {
            manager.put(session);
            OK
        }
    }
}

/// What stands behind a new handle, or None for want of memory.
fn boxed(
    alloc: Global,
    kind: TableKind,
    slots: u32,
    mode: Mode,
    placement: Placement,
) -> Option<Box<Session>>
    requires least { 1 ≤ slots }
    requires most { slots ≤ MOST_SLOTS }
    ensures fresh { IfSome result (λ session. session.value ≡ fresh_session kind slots mode placement) }
    ensures serves { IsSome result → IsServingTable (fresh_table kind slots mode placement) }
{
    let Ok(session) = Session::new(alloc, kind, slots, mode, placement) else {
        return None;
    };
    match Box::new(alloc, session) {
        Ok(session) => Some(session),
        Err(_) => None,
    }
}

/// Frees the manager of a handle, with a commit that is under way. The handle has none then.
#[unsafe(no_mangle)]
pub extern "C" fn tcam_c_free(manager: &mut TcamManager, alloc: Global) -> u32
    ensures { IsFreed manager.old.held.session manager.new.held.session result }
{
    match manager.take(alloc) {
        None => NO_MANAGER,
        Some(_session) => OK,
    }
}

/// A change joins the batch.
pub(crate) fn enter(manager: &mut TcamManager, alloc: Global, wanted: Result<Command, u32>) -> u32
    ensures { Called (Enters wanted) manager.old.held.session manager.new.held.session result }
{
    let Some(mut session) = manager.take(alloc) else {
        return NO_MANAGER;
    };
    let code = match wanted {
        Ok(command) => code_of_push(session.push(command)),
        Err(code) => code,
    };
    manager.put(session);
    code
}

/// Adds a route in the batch.
#[unsafe(no_mangle)]
pub extern "C" fn tcam_c_add_route(
    manager: &mut TcamManager,
    address: u32,
    length: u8,
    answer: u32,
    alloc: Global,
) -> u32
    ensures { Entered (AddsRoute address length answer) manager.old.held.session manager.new.held.session result }
{
    enter(manager, alloc, adds_route(address, length, answer))
}

/// Changes the result of a route in the batch.
#[unsafe(no_mangle)]
pub extern "C" fn tcam_c_set_route(
    manager: &mut TcamManager,
    address: u32,
    length: u8,
    answer: u32,
    alloc: Global,
) -> u32
    ensures { Entered (SetsRoute address length answer) manager.old.held.session manager.new.held.session result }
{
    enter(manager, alloc, sets_route(address, length, answer))
}

/// Removes a route in the batch.
#[unsafe(no_mangle)]
pub extern "C" fn tcam_c_del_route(
    manager: &mut TcamManager,
    address: u32,
    length: u8,
    alloc: Global,
) -> u32
    ensures { Entered (DelsRoute address length) manager.old.held.session manager.new.held.session result }
{
    enter(manager, alloc, dels_route(address, length))
}

/// Adds a rule of an access list in the batch.
#[unsafe(no_mangle)]
pub extern "C" fn tcam_c_add_rule(manager: &mut TcamManager, rule: &TcamRule, alloc: Global) -> u32
    ensures { Entered (AddsRule rule.now) manager.old.held.session manager.new.held.session result }
{
    enter(manager, alloc, adds_rule(rule))
}

/// Changes the result of a rule of an access list in the batch.
#[unsafe(no_mangle)]
pub extern "C" fn tcam_c_set_rule(
    manager: &mut TcamManager,
    number: u32,
    answer: u32,
    alloc: Global,
) -> u32
    ensures { Entered (SetsRule number answer) manager.old.held.session manager.new.held.session result }
{
    enter(manager, alloc, sets_rule(number, answer))
}

/// Removes a rule of an access list in the batch.
#[unsafe(no_mangle)]
pub extern "C" fn tcam_c_del_rule(manager: &mut TcamManager, number: u32, alloc: Global) -> u32
    ensures { Entered (DelsRule number) manager.old.held.session manager.new.held.session result }
{
    enter(manager, alloc, dels_rule(number))
}

/// Takes every change out of the batch.
#[unsafe(no_mangle)]
pub extern "C" fn tcam_c_clear(manager: &mut TcamManager, alloc: Global) -> u32
    ensures { Called Clears manager.old.held.session manager.new.held.session result }
{
    let Some(mut session) = manager.take(alloc) else {
        return NO_MANAGER;
    };
    session.clear(alloc);
    manager.put(session);
    OK
}

/// Has the batch judged and planned, and takes all memory that its commit needs. Where it is taken the numbers are
/// written, and the batch is empty then; else what the refusal tells is, and the batch and all else stay as they were.
#[unsafe(no_mangle)]
pub extern "C" fn tcam_c_prepare(
    manager: &mut TcamManager,
    numbers: &mut TcamNumbers,
    refusal: &mut TcamRefusal,
    alloc: Global,
) -> u32
    ensures prepared { Called (Prepared numbers.old numbers.new refusal.old refusal.new) manager.old.held.session manager.new.held.session result }
    ensures untold { IsNone manager.old.held.session → (numbers.new ≡ numbers.old) × (refusal.new ≡ refusal.old) }
{
    let Some(mut session) = manager.take(alloc) else {
        return NO_MANAGER;
    };
    let judged = session.prepare(alloc);
    manager.put(session);
    tell_prepared(judged, numbers, refusal)
}

/// Tells what a batch was answered.
pub(crate) fn tell_prepared(
    judged: Result<TcamNumbers, Refusal>,
    numbers: &mut TcamNumbers,
    refusal: &mut TcamRefusal,
) -> u32
    ensures { Told numbers.old numbers.new refusal.old refusal.new judged result }
{
    match judged {
        Ok(counts) => {
            *numbers = counts;
            OK
        }
        Err(fault) => {
            *refusal = refusal_of(&fault);
            code_of_refusal(&fault)
        }
    }
}

/// Tells what is due: a write or a part of one, a drain, or nothing where no commit is under way. Of a commit that is turned
/// round it is an undo write. It changes nothing else, and takes no memory.
#[unsafe(no_mangle)]
pub extern "C" fn tcam_c_next(
    manager: &mut TcamManager,
    write: &mut TcamWrite,
    alloc: Global,
) -> u32
    ensures told { Called (Nexts write.new) manager.old.held.session manager.new.held.session result }
    ensures untold { IsNone manager.old.held.session → write.new ≡ write.old }
{
    let Some(session) = manager.take(alloc) else {
        return NO_MANAGER;
    };
    *write = session.due();
    manager.put(session);
    OK
}

/// The write that is due was made: what comes behind it is due then, or the commit has come to its end. Where a drain
/// is due, or nothing, the code says so, and nothing changes. It takes no memory.
#[unsafe(no_mangle)]
pub extern "C" fn tcam_c_made(manager: &mut TcamManager, alloc: Global) -> u32
    ensures { Called TellsWrite manager.old.held.session manager.new.held.session result }
{
    let Some(mut session) = manager.take(alloc) else {
        return NO_MANAGER;
    };
    let code = match session.kind_due() {
        DueKind::Nothing => NOTHING_DUE,
        DueKind::Drain => DRAIN_DUE,
        DueKind::Write => {
            session.go_on();
            OK
        }
    };
    manager.put(session);
    code
}

/// The drain that is due was made: no look-up whose word was made before is still to be searched, nor to read its result
/// word where these stand beside the slots. Where a write is due, or nothing, the code says so, and nothing changes. It takes
/// no memory.
#[unsafe(no_mangle)]
pub extern "C" fn tcam_c_drained(manager: &mut TcamManager, alloc: Global) -> u32
    ensures { Called TellsDrain manager.old.held.session manager.new.held.session result }
{
    let Some(mut session) = manager.take(alloc) else {
        return NO_MANAGER;
    };
    let code = match session.kind_due() {
        DueKind::Nothing => NOTHING_DUE,
        DueKind::Write => WRITE_DUE,
        DueKind::Drain => {
            session.go_on();
            OK
        }
    };
    manager.put(session);
    code
}

/// Turns the commit under way round: from now on the writes that were told as made are undone, the last one first, and
/// no drain is due; once they are the rules are the old ones. It tells how many there are, and with none no commit is
/// under way. Where the commit is turned round already the code says so, with how many are left, and where none is
/// under way, and where one by parts has begun; then nothing changes. It takes no memory.
#[unsafe(no_mangle)]
pub extern "C" fn tcam_c_abort(manager: &mut TcamManager, left: &mut u64, alloc: Global) -> u32
    ensures turned { Called (TellsAbort left.old left.new) manager.old.held.session manager.new.held.session result }
    ensures untold { IsNone manager.old.held.session → left.new ≡ left.old }
{
    let Some(mut session) = manager.take(alloc) else {
        return NO_MANAGER;
    };
    let code = session.abort(left);
    manager.put(session);
    code
}

/// Tells what a packet is answered by the writes that were made. It changes nothing else, and takes no memory.
#[unsafe(no_mangle)]
pub extern "C" fn tcam_c_answer(
    manager: &mut TcamManager,
    key: &TcamKey,
    answer: &mut TcamAnswer,
    alloc: Global,
) -> u32
    ensures told { Called (AnswersPacket (packet_key key.now) answer.new) manager.old.held.session manager.new.held.session result }
    ensures untold { IsNone manager.old.held.session → answer.new ≡ answer.old }
{
    let Some(session) = manager.take(alloc) else {
        return NO_MANAGER;
    };
    let asked = Key::v4(
        key.source,
        key.destination,
        key.protocol,
        key.source_port,
        key.destination_port,
    );
    *answer = answer_of(session.look(&asked));
    manager.put(session);
    OK
}

/// Tells the rule at the cursor, from 0 by falling priority, and moves the cursor on to the next one. While a commit is
/// under way the rules are the old set. Where the set has no rule at the cursor the code says so. It changes nothing else,
/// and takes no memory.
#[unsafe(no_mangle)]
pub extern "C" fn tcam_c_rules(
    manager: &mut TcamManager,
    cursor: &mut u32,
    rule: &mut TcamStored,
    alloc: Global,
) -> u32
    ensures told { Called (ListsRule cursor.old cursor.new rule.old rule.new) manager.old.held.session manager.new.held.session result }
    ensures untold { IsNone manager.old.held.session → (cursor.new ≡ cursor.old) × (rule.new ≡ rule.old) }
{
    let Some(session) = manager.take(alloc) else {
        return NO_MANAGER;
    };
    let code = match session.rule_at_place(*cursor) {
        None => NO_RULE,
        Some(stored) => {
            *rule = stored_of(&stored);
            *cursor += 1;
            OK
        }
    };
    manager.put(session);
    code
}

/// Tells how many slots the entries of the set leave free; while a commit is under way, those of the old set. It changes
/// nothing else, and takes no memory.
#[unsafe(no_mangle)]
pub extern "C" fn tcam_c_free_slots(
    manager: &mut TcamManager,
    slots: &mut u32,
    alloc: Global,
) -> u32
    ensures told { Called (TellsFree slots.new) manager.old.held.session manager.new.held.session result }
    ensures untold { IsNone manager.old.held.session → slots.new ≡ slots.old }
{
    let Some(session) = manager.take(alloc) else {
        return NO_MANAGER;
    };
    *slots = session.slots_left();
    manager.put(session);
    OK
}

/// Tells the length of the longest overlap chain of the set; while a commit is under way, of the old set. It takes four bytes a
/// rule until it returns, and for want of them alone it tells nothing. It changes nothing else.
#[unsafe(no_mangle)]
pub extern "C" fn tcam_c_longest_chain(
    manager: &mut TcamManager,
    longest: &mut u32,
    alloc: Global,
) -> u32
    ensures told { Called (TellsChain longest.old longest.new) manager.old.held.session manager.new.held.session result }
    ensures untold { IsNone manager.old.held.session → longest.new ≡ longest.old }
{
    let Some(session) = manager.take(alloc) else {
        return NO_MANAGER;
    };
    let code = match session.longest_chain(alloc) {
        Err(AllocError) => MEMORY,
        Ok(found) => {
            *longest = found;
            OK
        }
    };
    manager.put(session);
    code
}

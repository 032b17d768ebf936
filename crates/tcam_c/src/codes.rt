//! The codes that each function answers, and what is made of plain numbers.

ghost use Rattle.std.specs.Prelude.{◌≡◌};
ghost use Rattle.tcam_c.specs.Codes.{push_code, refusal_code, mode_of_code, placement_by, field_of_code};

use batch_order::{BatchFault, Mode, Placement, Refusal, Rejection};
use rule_model::Field;
use rule_store::PushFault;

/// Done.
pub const OK: u32 = 0;
/// The handle has no manager: it is zeroed, or its manager was freed.
pub const NO_MANAGER: u32 = 1;
/// The handle has a manager already.
pub const MADE_ALREADY: u32 = 2;
/// There are 1 to 1,048,576 slots.
pub const SLOTS_RANGE: u32 = 3;
/// A mode is 0 or 1.
pub const NO_MODE: u32 = 4;
/// A placement is 0, 1 or 2.
pub const NO_PLACEMENT: u32 = 5;
/// A prefix of IPv4 is at most 32 bits long.
pub const PREFIX_LENGTH: u32 = 6;
/// A bit of the address past the prefix's length is set.
pub const HOST_BITS: u32 = 7;
/// A range of ports ends before it begins.
pub const PORTS: u32 = 8;
/// A protocol is at most 255, and 256 is any.
pub const PROTOCOL: u32 = 9;
/// The batch has 4,096 changes.
pub const BATCH_FULL: u32 = 10;
/// Want of memory.
pub const MEMORY: u32 = 11;
/// A commit is under way.
pub const BUSY: u32 = 12;
/// An earlier change of the batch names the rule.
pub const TWICE: u32 = 13;
/// A rule that is to be added is there.
pub const TAKEN: u32 = 14;
/// A rule that is to be changed or removed isn't there.
pub const ABSENT: u32 = 15;
/// Too few bits are free.
pub const BITS: u32 = 16;
/// Too few slots are free.
pub const SLOTS: u32 = 17;
/// No commit is under way, so nothing is due.
pub const NOTHING_DUE: u32 = 18;
/// A drain is due, and no write.
pub const DRAIN_DUE: u32 = 20;
/// A write is due, and no drain.
pub const WRITE_DUE: u32 = 21;
/// The commit that is under way is turned round already.
pub const BACK: u32 = 22;
/// A restart goes on with the commit that is under way, so it can't be taken back.
pub const RESTARTED: u32 = 23;
/// The commit under way is made by parts and has begun, so it can't be taken back.
pub const BEGUN: u32 = 24;
/// A rule of an access list has a number from 1 on.
pub const NUMBER: u32 = 25;
/// The set has no rule at the cursor.
pub const NO_RULE: u32 = 26;
/// No live range of ports has the bit.
pub const NO_RANGE: u32 = 27;
/// The results stand beside the slots, and a restart isn't there.
pub const BESIDE: u32 = 28;
/// The set has rules, or a commit is under way, so no restart is told to the manager.
pub const USED: u32 = 29;
/// No restart is begun.
pub const NO_RESTART: u32 = 30;
/// There is no such bit, or no such table.
pub const NO_BIT: u32 = 31;
/// The bit has another range, the range a bit, or it is one port.
pub const RANGE_TWICE: u32 = 32;
/// There is no such slot.
pub const NO_SUCH_SLOT: u32 = 33;
/// The memory shows no stage of the commit.
pub const STAGE: u32 = 34;

/// The code of a push.
pub(crate) fn code_of_push(pushed: Result<(), PushFault>) -> u32
    ensures { result ≡ push_code pushed }
{
    match pushed {
        Ok(()) => OK,
        Err(PushFault::Full) => BATCH_FULL,
        Err(PushFault::Memory) => MEMORY,
    }
}

/// The code of a refusal.
pub(crate) fn code_of_refusal(refusal: &Refusal) -> u32
    ensures { result ≡ refusal_code refusal.now }
{
    match refusal {
        Refusal::Busy { .. } => BUSY,
        Refusal::Rejected(Rejection::Unsound(fault)) => match fault {
            BatchFault::Twice(_) => TWICE,
            BatchFault::Taken(_) => TAKEN,
            BatchFault::Absent(_) => ABSENT,
        },
        Refusal::Rejected(Rejection::Bits { .. }) => BITS,
        Refusal::Rejected(Rejection::Slots { .. }) => SLOTS,
        Refusal::Memory => MEMORY,
    }
}

/// The mode of a number.
pub(crate) fn mode_of(number: u32) -> Option<Mode>
    ensures { result ≡ mode_of_code number }
{
    match number {
        0 => Some(Mode::Cover),
        1 => Some(Mode::Bits),
        _ => None,
    }
}

/// The field of a number.
pub(crate) fn field_of(number: u32) -> Option<Field>
    ensures { result ≡ field_of_code number }
{
    match number {
        0 => Some(Field::Src),
        1 => Some(Field::Dst),
        _ => None,
    }
}

/// The placement of a number.
pub(crate) fn placement_of(number: u32) -> Option<Placement>
    ensures { result ≡ placement_by number }
{
    match number {
        0 => Some(Placement::Middle),
        1 => Some(Placement::Rank),
        2 => Some(Placement::Ends),
        _ => None,
    }
}

//! What crosses to C: plain structs of numbers, in the lanes of a memory's entries.

ghost use Rattle.std.specs.Prelude.{◌≡◌, Some};
ghost use Rattle.tcam_c.specs.Plain.{IsDuePart, IsDueWrite, IsResultWrite, IsAnswer, IsStoredTold, IsTag, IsRefusalTold, address_number, field_code, protocol_code, slot_number, tag_number};

use batch_order::{BatchFault, Done, Refusal, Rejection};
use rule_model::{Addr, Entry, Field, Rank, Rule, Word};
use split_device::{SplitAction, SplitWrite};
use split_writes::SplitDone;
use tcam_device::{Action, Write};

/// A tag, which is the priority of the rule whose entry it is: of 136 bits, the eight upper ones and twice 64.
#[repr(C)]
#[derive(Clone, Copy)]
pub struct TcamTag {
    pub high: u8,
    pub low_upper: u64,
    pub low_lower: u64,
}

/// What is due, by its kind: nothing, an entry that a slot gets, an erase of a slot, a word that a table gets at a
/// port, or a drain. Where results stand beside the slots it is a value and a mask that a slot gets, or its result word.
/// Fields that the kind has no use for are 0, and `from` is [`NO_SLOT`] unless it is an entry that stands in a slot already.
#[repr(C)]
#[derive(Clone, Copy)]
pub struct TcamWrite {
    pub kind: u32,
    pub slot: u32,
    pub from: u32,
    pub value: [u32; 11],
    pub mask: [u32; 11],
    pub tag: TcamTag,
    pub result: u32,
    pub field: u32,
    pub port: u32,
    pub word: u32,
}

/// A packet's fields, of IPv4.
#[repr(C)]
#[derive(Clone, Copy)]
pub struct TcamKey {
    pub source: u32,
    pub destination: u32,
    pub source_port: u16,
    pub destination_port: u16,
    pub protocol: u8,
}

/// A packet's fields, of IPv6.
#[repr(C)]
#[derive(Clone, Copy)]
pub struct TcamKey6 {
    pub source: TcamAddress,
    pub destination: TcamAddress,
    pub source_port: u16,
    pub destination_port: u16,
    pub protocol: u8,
}

/// What a key is answered: whether a rule matches it, and the tag and the result of the one that decides.
#[repr(C)]
#[derive(Clone, Copy)]
pub struct TcamAnswer {
    pub found: u32,
    pub result: u32,
    pub tag: TcamTag,
}

/// A rule of an access list: its number, two prefixes, a protocol of which 256 is any, two ranges of ports, and a
/// result.
#[repr(C)]
#[derive(Clone, Copy)]
pub struct TcamRule {
    pub number: u32,
    pub source: u32,
    pub destination: u32,
    pub source_length: u8,
    pub destination_length: u8,
    pub protocol: u16,
    pub source_port_first: u16,
    pub source_port_last: u16,
    pub destination_port_first: u16,
    pub destination_port_last: u16,
    pub result: u32,
}

/// A rule of an access list with prefixes of IPv6.
#[repr(C)]
#[derive(Clone, Copy)]
pub struct TcamRule6 {
    pub number: u32,
    pub source: TcamAddress,
    pub destination: TcamAddress,
    pub source_length: u8,
    pub destination_length: u8,
    pub protocol: u16,
    pub source_port_first: u16,
    pub source_port_last: u16,
    pub destination_port_first: u16,
    pub destination_port_last: u16,
    pub result: u32,
}

/// An address of 128 bits, in two halves. One of IPv4 stands in the upper 32 bits.
#[repr(C)]
#[derive(Clone, Copy)]
pub struct TcamAddress {
    pub upper: u64,
    pub lower: u64,
}

/// A rule of the set, a route or one of an access list, which its tag tells: two prefixes, a protocol of which 256 is
/// any, two ranges of ports, and a result.
#[repr(C)]
#[derive(Clone, Copy)]
pub struct TcamStored {
    pub tag: TcamTag,
    pub source: TcamAddress,
    pub destination: TcamAddress,
    pub source_length: u8,
    pub destination_length: u8,
    pub protocol: u16,
    pub source_port_first: u16,
    pub source_port_last: u16,
    pub destination_port_first: u16,
    pub destination_port_last: u16,
    pub result: u32,
}

/// The numbers of a commit: its writes and those to the translation tables, the writes of its longest insertion, and
/// the greatest crossing span of one.
#[repr(C)]
#[derive(Clone, Copy)]
pub struct TcamNumbers {
    pub writes: u64,
    pub words: u32,
    pub most: u32,
    pub span: u32,
}

/// What a refusal tells besides its code: the writes that are left where a commit is under way, the tag of the rule
/// that is at fault, or how many bits of a field or slots are needed and free.
#[repr(C)]
#[derive(Clone, Copy)]
pub struct TcamRefusal {
    pub left: u64,
    pub tag: TcamTag,
    pub field: u32,
    pub need: u32,
    pub free: u32,
}

pub(crate) const NO_TAG: TcamTag = TcamTag {
    high: 0,
    low_upper: 0,
    low_lower: 0,
};

/// No slot has this number.
const NO_SLOT: u32 = u32::MAX;

const NO_WRITE: TcamWrite = TcamWrite {
    kind: 0,
    slot: 0,
    from: NO_SLOT,
    value: [0; 11],
    mask: [0; 11],
    tag: NO_TAG,
    result: 0,
    field: 0,
    port: 0,
    word: 0,
};

pub(crate) const NO_REFUSAL: TcamRefusal = TcamRefusal {
    left: 0,
    tag: NO_TAG,
    field: 0,
    need: 0,
    free: 0,
};

/// The tag of a priority.
pub(crate) fn tag_of(rank: Rank) -> TcamTag
    ensures { IsTag rank result }
{
    TcamTag {
        high: rank.high,
        low_upper: (rank.low >> 64) as u64,
        low_lower: (rank.low % (1u128 << 64)) as u64,
    }
}

/// The priority of a tag.
pub(crate) fn rank_of(tag: &TcamTag) -> Rank
    ensures { result ≡ tag_number tag.now }
{
    Rank {
        high: tag.high,
        low: (u128::from(tag.low_upper) << 64) + u128::from(tag.low_lower),
    }
}

/// An address in two halves.
fn halves_of(address: Addr) -> TcamAddress
    ensures { address_number result ≡ address }
{
    TcamAddress {
        upper: (address >> 64) as u64,
        lower: (address % (1u128 << 64)) as u64,
    }
}

/// A protocol, or any, as a number.
fn protocol_number(protocol: Option<u8>) -> u16
    ensures { result ≡ protocol_code protocol }
{
    match protocol {
        None => 256,
        Some(number) => u16::from(number),
    }
}

/// A rule of the set, for C.
pub(crate) fn stored_of(rule: &Rule) -> TcamStored
    ensures { IsStoredTold rule.now result }
{
    TcamStored {
        tag: tag_of(rule.priority),
        source: halves_of(rule.src.addr()),
        destination: halves_of(rule.dst.addr()),
        source_length: rule.src.len(),
        destination_length: rule.dst.len(),
        protocol: protocol_number(rule.proto),
        source_port_first: rule.sport.lo(),
        source_port_last: rule.sport.hi(),
        destination_port_first: rule.dport.lo(),
        destination_port_last: rule.dport.hi(),
        result: rule.result,
    }
}

/// A field as a number.
pub(crate) fn field_number(field: Field) -> u32
    ensures { result ≡ field_code field }
{
    match field {
        Field::Src => 0,
        Field::Dst => 1,
    }
}

/// A slot, or none, as a number.
fn from_number(from: Option<u32>) -> u32
    ensures { result ≡ slot_number from }
{
    match from {
        None => NO_SLOT,
        Some(slot) => slot,
    }
}

/// An entry that a slot gets, from this slot if it stands in one.
fn put_of(slot: u32, entry: Entry, from: Option<u32>) -> TcamWrite
    ensures { IsDueWrite (Some (Action.Written (Write.Slot slot (Some entry)))) from result }
{
    let value = entry.value.lane;
    let mask = entry.mask.lane;
    TcamWrite {
        kind: 1,
        slot,
        from: from_number(from),
        value,
        mask,
        tag: tag_of(entry.tag),
        result: entry.result,
        field: 0,
        port: 0,
        word: 0,
    }
}

/// What is due, for C, and the slot that an entry comes from.
pub(crate) fn due_of(due: Option<Action>, from: Option<u32>) -> TcamWrite
    ensures { IsDueWrite due from result }
{
    match due {
        None => NO_WRITE,
        Some(Action::Written(Write::Slot(slot, Some(entry)))) => put_of(slot, entry, from),
        Some(Action::Written(Write::Slot(slot, None))) => TcamWrite {
            kind: 2,
            slot,
            ..NO_WRITE
        },
        Some(Action::Written(Write::Table(field, port, word))) => TcamWrite {
            kind: 3,
            field: field_number(field),
            port: u32::from(port),
            word: u32::from(word),
            ..NO_WRITE
        },
        Some(Action::Drained) => TcamWrite {
            kind: 4,
            ..NO_WRITE
        },
    }
}

/// A value and a mask that a slot gets, or its erase.
fn slot_of(slot: u32, parts: &Option<(Word, Word)>) -> TcamWrite
    ensures { IsDuePart (Some (SplitAction.Written (SplitWrite.Slot slot parts.now))) result }
{
    match parts {
        None => TcamWrite {
            kind: 2,
            slot,
            ..NO_WRITE
        },
        Some((first, second)) => {
            let value = first.lane;
            let mask = second.lane;
            TcamWrite {
                kind: 1,
                slot,
                value,
                mask,
                ..NO_WRITE
            }
        }
    }
}

/// A result word that a slot gets.
fn result_of(slot: u32, tag: Rank, given: u32) -> TcamWrite
    ensures { IsResultWrite slot tag given result }
{
    TcamWrite {
        kind: 5,
        slot,
        tag: tag_of(tag),
        result: given,
        ..NO_WRITE
    }
}

/// A part that is due, for C.
fn written_of(part: &SplitWrite) -> TcamWrite
    ensures { IsDuePart (Some (SplitAction.Written part.now)) result }
{
    match part {
        SplitWrite::Slot(slot, parts) => slot_of(*slot, parts),
        SplitWrite::Result(slot, tag, given) => result_of(*slot, *tag, *given),
        SplitWrite::Table(field, port, word) => TcamWrite {
            kind: 3,
            field: field_number(*field),
            port: u32::from(*port),
            word: u32::from(*word),
            ..NO_WRITE
        },
    }
}

/// What is due where results stand beside the slots, for C.
pub(crate) fn part_of(due: &Option<SplitAction>) -> TcamWrite
    ensures { IsDuePart due.now result }
{
    match due {
        None => NO_WRITE,
        Some(SplitAction::Written(part)) => written_of(part),
        Some(SplitAction::Drained) => TcamWrite {
            kind: 4,
            ..NO_WRITE
        },
    }
}

/// What a key is answered, for C.
pub(crate) fn answer_of(answer: Option<(Rank, u32)>) -> TcamAnswer
    ensures { IsAnswer answer result }
{
    match answer {
        None => TcamAnswer {
            found: 0,
            result: 0,
            tag: NO_TAG,
        },
        Some((tag, given)) => TcamAnswer {
            found: 1,
            result: given,
            tag: tag_of(tag),
        },
    }
}

/// The numbers of a commit, for C.
pub(crate) fn numbers_of(counts: &Done) -> TcamNumbers
    ensures { result ≡ record { writes = counts.now.writes; words = counts.now.words; most = counts.now.most; span = counts.now.span } }
{
    TcamNumbers {
        writes: counts.writes,
        words: counts.words,
        most: counts.most,
        span: counts.span,
    }
}

/// Those of one by parts.
pub(crate) fn split_numbers_of(counts: &SplitDone) -> TcamNumbers
    ensures { result ≡ record { writes = counts.now.writes; words = counts.now.words; most = counts.now.most; span = counts.now.span } }
{
    TcamNumbers {
        writes: counts.writes,
        words: counts.words,
        most: counts.most,
        span: counts.span,
    }
}

/// What a refusal tells, for C.
pub(crate) fn refusal_of(refusal: &Refusal) -> TcamRefusal
    ensures { IsRefusalTold refusal.now result }
{
    match *refusal {
        Refusal::Busy { left } => TcamRefusal { left, ..NO_REFUSAL },
        Refusal::Rejected(Rejection::Unsound(fault)) => match fault {
            BatchFault::Twice(priority)
            | BatchFault::Taken(priority)
            | BatchFault::Absent(priority) => TcamRefusal {
                tag: tag_of(priority),
                ..NO_REFUSAL
            },
        },
        Refusal::Rejected(Rejection::Bits { field, need, free }) => TcamRefusal {
            field: field_number(field),
            need,
            free,
            ..NO_REFUSAL
        },
        Refusal::Rejected(Rejection::Slots { need, free }) => TcamRefusal {
            need,
            free,
            ..NO_REFUSAL
        },
        Refusal::Memory => NO_REFUSAL,
    }
}

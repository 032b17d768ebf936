//! Which slots hold an entry, by a number that entries of one value and tag share.

ghost use Rattle.std.specs.Prelude.{◌≡◌, ◌≢◌, ◌==◌, ◌++◌, ◌<◌, ◌^◌, ◌∷◌, ℕ, [], filter, not, IfOk, IfSome, Some, OnErr, OnOk, length};
ghost use Rattle.trace_check.specs.Groups as spec;
ghost use Rattle.trace_check.specs.Groups.{IsListed, group_count};

use rule_model::{Entry, Rank};
use std::alloc::{AllocError, Global};
use std::marker::Model;

/// How many groups there are.
pub(crate) const GROUPS: usize = 8_192;

/// The slots of a group: all that hold an entry of it, and maybe others. Contracts see their list.
#[derive(Drop)]
pub(crate) struct Group {
    slots: Vec<usize>,
}

impl Model for Group {
    ghost use Rattle.std.specs.Prelude.{List, ℕ};

    ghost Value = { List ℕ };

    ghost view = { λ g. g.slots.items };
}

impl Group {
    /// A group without slots. It takes no memory yet.
    fn new(alloc: Global) -> Group
        ensures { result ≡ [] }
    {
        Group {
            slots: Vec::new(alloc),
        }
    }

    /// Its slots.
    pub(crate) fn slots(&self) -> &[usize]
        ensures { result.now ≡ self.now }
    {
        &self.slots
    }

    /// Lists a slot.
    fn join(&mut self, at: usize) -> Result<(), AllocError>
        ensures joined { OnOk result (self.new ≡ self.old ++ at ∷ []) }
        ensures same { OnErr result (self.new ≡ self.old) }
    {
        match self.slots.push(at) {
            Ok(()) => Ok(()),
            Err(_) => Err(AllocError),
        }
    }

    /// Lists a slot no more, and all others as before.
    fn leave(&mut self, at: usize)
        ensures { self.new ≡ filter (λ slot. not (slot == at)) self.old }
    {
        self.slots.retain(|slot| *slot != at);
    }
}

/// So many groups without slots.
pub(crate) fn no_groups(alloc: Global) -> Result<Vec<Group>, AllocError>
    ensures { IfOk result (λ groups. length groups.items ≡ group_count) }
{
    let mut groups = Vec::new(alloc);
    for _ in 0..GROUPS {
        groups.push(Group::new(alloc))?;
    }
    Ok(groups)
}

/// The group of an entry: of a rule's pieces the ports alone differ, and of rules the ranks do. Bits that differ reach those
/// that are taken of the sum, wherever they stand in a word.
pub(crate) fn group_of(entry: &Entry) -> usize
    ensures group { result ≡ spec.group_of entry.now }
    ensures inside { result < group_count }
{
    let ports = u64::from(entry.value.lane[8]);
    ((tag_sum(entry.tag) + ports * 165_902_235) / 0x10_0000 % 8_192) as usize
}

/// The part of an entry's tag in its group.
fn tag_sum(tag: Rank) -> u64
    ensures sum { result ≡ spec.tag_sum tag }
    ensures most { result < 2 ^ 63 }
{
    let first = (tag.low / (1 << 96)) as u64;
    let second = (tag.low / (1 << 64) % (1 << 32)) as u64;
    let third = (tag.low / (1 << 32) % (1 << 32)) as u64;
    let last = (tag.low % (1 << 32)) as u64;
    u64::from(tag.high) * 41_766_579
        + first * 96_280_217
        + second * 214_557_397
        + third * 140_426_407
        + last * 204_155_619
}

/// Lists a slot in another group than before, or in none. It fails only for want of memory, and then all are as they were.
pub(crate) fn regroup(
    groups: &mut Vec<Group>,
    at: usize,
    goes: Option<usize>,
    comes: Option<usize>,
) -> Result<(), AllocError>
    requires goes { IfSome goes (λ group. group < length groups.old.items) }
    requires comes { IfSome comes (λ group. group < length groups.old.items) }
    ensures size { length groups.new.items ≡ length groups.old.items }
    ensures same { OnErr result (groups.new.items ≡ groups.old.items) }
    ensures others { OnOk result ((group k : ℕ) → k ≢ at → IsListed groups.old.items group k → IsListed groups.new.items group k) }
    ensures here { OnOk result ((group : ℕ) → comes ≡ Some group → (goes ≡ Some group → IsListed groups.old.items group at) → IsListed groups.new.items group at) }
{
    if goes == comes {
        return Ok(());
    }
    join_one(groups, at, comes)?;
    leave_one(groups, at, goes);
    Ok(())
}

/// Lists a slot in a group, if one is told.
fn join_one(groups: &mut Vec<Group>, at: usize, group: Option<usize>) -> Result<(), AllocError>
    requires { IfSome group (λ group. group < length groups.old.items) }
    ensures size { length groups.new.items ≡ length groups.old.items }
    ensures same { OnErr result (groups.new.items ≡ groups.old.items) }
    ensures others { OnOk result ((other k : ℕ) → IsListed groups.old.items other k → IsListed groups.new.items other k) }
    ensures here { OnOk result (IfSome group (λ group. IsListed groups.new.items group at)) }
{
    match group {
        None => Ok(()),
        Some(group) => groups[group].join(at),
    }
}

/// Lists a slot in a group no more, if one is told.
fn leave_one(groups: &mut Vec<Group>, at: usize, group: Option<usize>)
    requires { IfSome group (λ group. group < length groups.old.items) }
    ensures size { length groups.new.items ≡ length groups.old.items }
    ensures slots { (other k : ℕ) → k ≢ at → IsListed groups.old.items other k → IsListed groups.new.items other k }
    ensures groups { (other : ℕ) → (group ≡ Some other → ⊥) → IsListed groups.old.items other at → IsListed groups.new.items other at }
{
    if let Some(group) = group {
        groups[group].leave(at);
    }
}

//! What is told to a manager that is to be restarted.

ghost use Rattle.std.specs.Prelude.{◌≡◌, ◌≤◌, ◌<◌, ◌++◌, ◌∷◌, [], IfOk, IfErr, OnOk, OnErr};
ghost use Rattle.tcam_device.specs.State.{IsInUse};
ghost use Rattle.tcam_device.specs.Flight.{writes_in};
ghost use Rattle.tcam_c.specs.Restart.{GoesOnTold, RefusesTold};
ghost use Rattle.tcam_c.specs.Told.{AddsRange, AddsSlot, AddsStored, AddsWord, IsRuleOr, TakesRule, blank_account, entry_told};

use crate::changes6::prefix6_of;
use crate::codes::{
    MEMORY, NO_BIT, NO_SUCH_SLOT, PORTS, PROTOCOL, RANGE_TWICE, SLOTS, TAKEN, field_of,
};
use crate::outside::Outside;
use crate::plain::{TcamStored, TcamWrite, rank_of};
use crate::restart_steps::restart;
use crate::told_ranges::ToldRanges;
use crate::whole::WholeTable;
use batch_order::{Mode, Placement, RestartFault};
use memory_tcam::Shadowed;
use range_bits::FIELD_BITS;
use readback::Parts;
use rule_model::{Entry, Field, Ports, Rule, Word};
use rule_store::{Batch, Store};
use slot_order::MOST_SLOTS;
use std::alloc::{AllocError, Global};
use std::marker::Model;
use tcam_device::{Action, DeviceFault, Writable, Write};

/// What another manager left of itself, and a memory that holds what the caller's does.
#[derive(Drop)]
pub(crate) struct Told {
    mode: Mode,
    placement: Placement,
    rules: Store,
    src: ToldRanges,
    dst: ToldRanges,
    device: Shadowed<Outside>,
}

impl Model for Told {
    ghost use Rattle.tcam_c.specs.Told.{Account, IsAccount};

    ghost Value = { Account };

    ghost view = { λ t. record { slots = t.device.slots; mode = t.mode; placement = t.placement; rules = t.rules.rules; bits = record { src = t.src; dst = t.dst }; events = t.device.events } };

    ghost invariant = { λ t. IsAccount t.device.slots t.mode t.device.events t.device.flight };
}

impl Told {
    /// Nothing yet, to a manager of this setting.
    pub(crate) fn new(
        alloc: Global,
        slots: u32,
        mode: Mode,
        placement: Placement,
    ) -> Result<Told, AllocError>
        requires least { 1 ≤ slots }
        requires most { slots ≤ MOST_SLOTS }
        ensures { IfOk result (λ told. told ≡ blank_account slots mode placement) }
    {
        let device = Shadowed::new(alloc, Outside { slots })?;
        Ok(Told {
            mode,
            placement,
            rules: Store::new(alloc),
            src: ToldRanges::new(),
            dst: ToldRanges::new(),
            device,
        })
    }

    /// A manager that goes on with the commit of a batch which the memory shows, with all that is left of it planned, and one
    /// that has nothing left finished. Else all that was told is handed back with what is wrong.
    pub(crate) fn restart(
        self,
        alloc: Global,
        batch: &Batch,
    ) -> Result<WholeTable, (RestartFault, Told)>
        ensures goes_on { IfOk result (GoesOnTold self batch.now) }
        ensures refused { IfErr result (λ refused. RefusesTold self batch.now refused.0 × (refused.1 ≡ self)) }
    {
        let Told {
            mode,
            placement,
            rules,
            src,
            dst,
            mut device,
        } = self;
        let parts = Parts {
            rules,
            src: src.map(),
            dst: dst.map(),
        };
        match restart(alloc, mode, placement, parts, batch, &mut device) {
            Ok(manager) => Ok(WholeTable::led(manager, device)),
            Err((fault, parts)) => Err((
                fault,
                Told {
                    mode,
                    placement,
                    rules: parts.rules,
                    src,
                    dst,
                    device,
                },
            )),
        }
    }

    /// The rules that were told.
    pub(crate) fn rules(&self) -> &Store
        ensures { result.now.rules ≡ self.now.rules }
    {
        &self.rules
    }

    /// A rule of the set.
    pub(crate) fn rule(&mut self, stored: &TcamStored) -> Result<(), u32>
        ensures { TakesRule stored.now self.old result self.new }
    {
        match rule_of(stored) {
            Ok(rule) => self.join(rule),
            Err(code) => Err(code),
        }
    }

    /// A rule joins the set.
    fn join(&mut self, rule: Rule) -> Result<(), u32>
        ensures { AddsStored rule self.old result self.new }
    {
        if self.rules.rule(rule.priority).is_some() {
            return Err(TAKEN);
        }
        if self.rules.len() >= self.device.slots() {
            return Err(SLOTS);
        }
        match self.rules.reserve(1) {
            Ok(()) => {
                self.rules.insert(rule);
                Ok(())
            }
            Err(AllocError) => Err(MEMORY),
        }
    }

    /// The range of a field's bit.
    pub(crate) fn range(&mut self, field: u32, bit: u8, first: u16, last: u16) -> Result<(), u32>
        ensures { AddsRange field bit first last self.old result self.new }
    {
        if bit >= FIELD_BITS {
            return Err(NO_BIT);
        }
        let (Mode::Bits, Some(field)) = (self.mode, field_of(field)) else {
            return Err(NO_BIT);
        };
        let Some(range) = Ports::new(first, last) else {
            return Err(PORTS);
        };
        let placed = match field {
            Field::Src => self.src.put(bit, range),
            Field::Dst => self.dst.put(bit, range),
        };
        if placed { Ok(()) } else { Err(RANGE_TWICE) }
    }

    /// What a slot holds.
    pub(crate) fn slot(&mut self, entry: &TcamWrite) -> Result<(), u32>
        ensures { AddsSlot entry.now self.old result self.new }
    {
        if entry.slot >= self.device.slots() {
            return Err(NO_SUCH_SLOT);
        }
        match log(
            &mut self.device,
            Write::Slot(entry.slot, Some(entry_of(entry))),
        ) {
            Ok(()) => Ok(()),
            Err(AllocError) => Err(MEMORY),
        }
    }

    /// The word of a field's table at a port.
    pub(crate) fn word(&mut self, field: u32, port: u16, word: u16) -> Result<(), u32>
        ensures { AddsWord field port word self.old result self.new }
    {
        let (Mode::Bits, Some(field)) = (self.mode, field_of(field)) else {
            return Err(NO_BIT);
        };
        match log(&mut self.device, Write::Table(field, port, word)) {
            Ok(()) => Ok(()),
            Err(AllocError) => Err(MEMORY),
        }
    }
}

/// Makes the memory hold what is told.
fn log(device: &mut Shadowed<Outside>, write: Write) -> Result<(), AllocError>
    requires { IsInUse device.old.slots write }
    ensures logged { OnOk result (device.new.events ≡ device.old.events ++ Action.Written write ∷ []) }
    ensures journal { OnOk result (writes_in device.new.events ≡ writes_in device.old.events ++ write ∷ []) }
    ensures same { OnErr result (device.new.events ≡ device.old.events) }
    ensures flight { device.new.flight ≡ device.old.flight }
    ensures slots { device.new.slots ≡ device.old.slots }
{
    device.reserve(1)?;
    let _before = device.hardware();
    let written = device.write(write);
    let _after = device.hardware();
    match written {
        Ok(()) => Ok(()),
        Err(DeviceFault) => unreachable!(),
    }
}

/// An entry as it is told.
fn entry_of(told: &TcamWrite) -> Entry
    ensures { result ≡ entry_told told.now }
{
    Entry {
        value: Word { lane: told.value },
        mask: Word { lane: told.mask },
        tag: rank_of(&told.tag),
        result: told.result,
    }
}

/// A rule as it is told, or the code of what is wrong with its numbers.
fn rule_of(stored: &TcamStored) -> Result<Rule, u32>
    ensures { IsRuleOr stored.now result }
{
    let src = match prefix6_of(&stored.source, stored.source_length) {
        Ok(prefix) => prefix,
        Err(code) => return Err(code),
    };
    let dst = match prefix6_of(&stored.destination, stored.destination_length) {
        Ok(prefix) => prefix,
        Err(code) => return Err(code),
    };
    let Some(sport) = Ports::new(stored.source_port_first, stored.source_port_last) else {
        return Err(PORTS);
    };
    let Some(dport) = Ports::new(stored.destination_port_first, stored.destination_port_last) else {
        return Err(PORTS);
    };
    if stored.protocol > 256 {
        return Err(PROTOCOL);
    }
    let proto = if stored.protocol == 256 {
        None
    } else {
        Some(stored.protocol as u8)
    };
    Ok(Rule {
        priority: rank_of(&stored.tag),
        src,
        dst,
        proto,
        sport,
        dport,
        result: stored.result,
    })
}

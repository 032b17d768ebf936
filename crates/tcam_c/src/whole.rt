//! A manager of a memory whose slots hold whole entries, and the shadow of the caller's memory.

ghost use Rattle.std.specs.Prelude.{◌≡◌, ◌≤◌, ◌<◌, ◌+◌, ◌^◌, ◌↔◌, IsTrue, IfOk, IsOk, IsSome, OnOk, OnErr, Some, is_some, length, slice_get};
ghost use Rattle.tcam_device.specs.State.{lookup, replay};
ghost use Rattle.tcam_device.specs.Flight.{writes_in};
ghost use Rattle.commit_writes.specs.Bits as live_bits;
ghost use Rattle.batch_order.specs.Managed.{Judges, Serves};
ghost use Rattle.batch_order.specs.CarriedOut.{GoesForward, writes_left};
ghost use Rattle.batch_order.specs.Steps.{ServesNow};
ghost use Rattle.rule_model.specs.RuleSet.{IsRuleSet};
ghost use Rattle.rule_chains.specs.Chains.{IsLongestChain};
ghost use Rattle.tcam_c.specs.Tables.{slots_left};
ghost use Rattle.tcam_c.specs.Restart.{IsUnused};
ghost use Rattle.tcam_c.specs.Driven.{ComesFrom, Prepares, PassesOn, IsDue, IsEnded, KeepsLive, AbortsHeld, IsHandled, IsServing, IsServingAhead, due_of, fresh_driven, journal_of, kind_of_due};

use crate::moved::slot_holding;
use crate::outside::Outside;
use crate::steps::{DueKind, abort, due, go_on, kind_due, prepare};
use crate::stored::rule_at_place;
use batch_order::{AbortFault, Done, Manager, Mode, Placement, Refusal};
use memory_tcam::Shadowed;
use range_bits::BitMap;
use rule_chains::longest_chain;
use rule_model::{Key, Rank, Rule};
use rule_store::{Batch, Store};
use slot_order::MOST_SLOTS;
use std::alloc::{AllocError, Global};
use std::marker::Model;
use tcam_device::{Action, Device, Writable, Write};

/// Between two calls a commit is under way exactly where a write or a drain is due.
#[derive(Drop)]
pub(crate) struct WholeTable {
    manager: Manager,
    device: Shadowed<Outside>,
}

impl Model for WholeTable {
    ghost use Rattle.tcam_c.specs.Driven.{Driven, IsHandled};

    ghost Value = { Driven };

    ghost view = { λ t. record { manager = t.manager; events = t.device.events } };

    ghost invariant = { λ t. IsHandled t.manager t.device.slots t.device.events t.device.flight t.device.spare };
}

impl WholeTable {
    /// A manager of a blank memory with so many slots in use and no rules. It fails only for want of memory.
    pub(crate) fn new(
        alloc: Global,
        slots: u32,
        mode: Mode,
        placement: Placement,
    ) -> Result<WholeTable, AllocError>
        requires least { 1 ≤ slots }
        requires most { slots ≤ MOST_SLOTS }
        ensures fresh { IfOk result (λ table. table ≡ fresh_driven slots mode placement) }
        ensures serves { OnOk result (IsServing (fresh_driven slots mode placement)) }
    {
        let manager = Manager::new(alloc, slots, mode, placement)?;
        manager.serving();
        let device = Shadowed::new(alloc, Outside { slots })?;
        Ok(WholeTable { manager, device })
    }

    /// Has a batch judged and planned. Where it is taken a commit with nothing to make has finished. A refusal leaves all
    /// as it was.
    pub(crate) fn prepare(&mut self, batch: &Batch) -> Result<Done, Refusal>
        ensures judged { Judges self.old.manager self.old.manager.held batch.now result }
        ensures ready { IfOk result (λ counts. Prepares self.old batch.now counts self.new) }
        ensures refused { OnErr result (self.new ≡ self.old) }
        ensures keeps { KeepsLive self.old.manager self.new.manager }
        ensures before { IsServing self.old }
        ensures serves { IsServing self.new }
    {
        prepare(&mut self.manager, batch, &mut self.device)
    }

    /// The write or the drain that is due, or None where no commit is under way.
    pub(crate) fn due(&self) -> Option<Action>
        ensures due { result ≡ due_of self.now.manager.held }
        ensures ended { IsEnded self.now.manager.held result }
        ensures drain { result ≡ Some Action.Drained → GoesForward self.now.manager.held }
        ensures serves { IsServing self.now }
        ensures now { ServesNow self.now.manager }
        ensures ahead { IsServingAhead self.now result }
    {
        self.manager.serving();
        due(&self.manager)
    }

    /// The slot that an entry which is due comes from: the least one that holds it already. None comes where no slot does,
    /// and where no entry is due.
    pub(crate) fn source(&self, due: &Option<Action>) -> Option<u32>
        ensures { ComesFrom self.now due.now result }
    {
        match due {
            None => None,
            Some(Action::Drained) => None,
            Some(Action::Written(Write::Table(_, _, _))) => None,
            Some(Action::Written(Write::Slot(_, None))) => None,
            Some(Action::Written(Write::Slot(_, Some(entry)))) => slot_holding(&self.device, entry),
        }
    }

    /// What kind of thing is due.
    pub(crate) fn kind_due(&self) -> DueKind
        ensures kind { result ≡ kind_of_due (due_of self.now.manager.held) }
        ensures serves { IsServing self.now }
    {
        self.manager.serving();
        kind_due(&self.manager)
    }

    /// The write or the drain that is due was made: what comes behind it is due then, or the commit has come to its
    /// end. It takes no memory.
    pub(crate) fn go_on(&mut self)
        requires { IsDue (kind_of_due (due_of self.old.manager.held)) }
        ensures on { PassesOn self.old self.new }
        ensures serves { IsServing self.new }
    {
        go_on(&mut self.manager, &mut self.device);
    }

    /// Turns the commit under way round: from now on its undo writes are due, the last one first, and no drain. The
    /// answer is how many they are, and with none the commit is over. It takes no memory.
    pub(crate) fn abort(&mut self) -> Result<u64, AbortFault>
        ensures turned { AbortsHeld self.old self.old.manager.held result self.new }
        ensures before { IsServing self.old }
        ensures serves { IsServing self.new }
    {
        self.manager.serving();
        abort(&mut self.manager, &mut self.device)
    }

    /// What a key is answered by the writes that were made.
    pub(crate) fn look(&self, key: &Key) -> Option<(Rank, u32)>
        ensures answer { result ≡ lookup (replay self.now.manager.slots (journal_of self.now)) key.now }
        ensures serves { IsServing self.now }
    {
        let _rules = self.manager.rules();
        self.device.look(key)
    }

    /// The rule at a place of the set, from 0 by falling priority, or None where there is none.
    pub(crate) fn rule_at_place(&self, place: u32) -> Option<Rule>
        ensures rule { result ≡ slice_get self.now.manager.rules place }
        ensures more { IsSome result → place + 1 < 2 ^ 32 }
        ensures falling { IsRuleSet self.now.manager.rules }
    {
        rule_at_place(self.manager.rules(), place)
    }

    /// The length of the longest overlap chain of the set. It fails only for want of memory.
    pub(crate) fn longest_chain(&self, alloc: Global) -> Result<u32, AllocError>
        ensures { IfOk result (λ longest. IsLongestChain self.now.manager.rules longest) }
    {
        longest_chain(alloc, self.manager.rules())
    }

    /// The rules of the set, `MOST_SLOTS` at most; while a commit is under way, those of the old set.
    pub(crate) fn rules(&self) -> &Store
        ensures rules { result.now.rules ≡ self.now.manager.rules }
        ensures few { length self.now.manager.rules ≤ MOST_SLOTS }
    {
        self.manager.rules()
    }

    /// Whether a commit is under way.
    pub(crate) fn is_busy(&self) -> bool
        ensures busy { result ≡ is_some self.now.manager.held }
        ensures serves { IsServing self.now }
    {
        self.manager.serving();
        self.manager.left().is_some()
    }

    /// Over memory that holds what the manager takes it to hold.
    pub(crate) fn led(manager: Manager, device: Shadowed<Outside>) -> WholeTable
        requires driven { IsHandled manager device.slots device.events device.flight device.spare }
        requires serves { Serves (replay manager.slots (writes_in device.events)) manager.rules manager.held }
        ensures manager { result.manager ≡ manager }
        ensures events { result.events ≡ device.events }
        ensures serves { IsServing result }
    {
        WholeTable { manager, device }
    }

    /// How many writes are left of the commit under way.
    pub(crate) fn left(&self) -> u64
        ensures { result ≡ length (writes_left self.now.manager.held) }
    {
        match self.manager.left() {
            None => 0,
            Some(left) => left,
        }
    }

    /// Whether there are no rules, and no commit is under way.
    pub(crate) fn is_unused(&self) -> bool
        ensures { IsTrue result ↔ IsUnused self.now.manager }
    {
        self.manager.rules().is_empty() && self.manager.left().is_none()
    }

    /// The slots, the mode and the placement.
    pub(crate) fn setting(&self) -> (u32, Mode, Placement)
        ensures slots { result.0 ≡ self.now.manager.slots }
        ensures mode { result.1 ≡ self.now.manager.mode }
        ensures placement { result.2 ≡ self.now.manager.placement }
    {
        self.manager.setting()
    }

    /// The live port ranges of the set by their bits, of the source field and of the destination's.
    pub(crate) fn bits(&self) -> (BitMap, BitMap)
        ensures { ◌≡◌ {A = live_bits.FieldBits} (record { src = result.0; dst = result.1 }) self.now.manager.bits }
    {
        self.manager.bits()
    }

    /// How many slots the entries of the set leave free.
    pub(crate) fn slots_left(&self) -> u32
        ensures { result ≡ slots_left self.now.manager }
    {
        self.device.slots().saturating_sub(self.manager.entries())
    }
}

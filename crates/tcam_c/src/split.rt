//! A manager of a memory whose results stand beside its slots, and the shadow of the caller's memory.

ghost use Rattle.std.specs.Prelude.{◌≡◌, ◌≤◌, ◌<◌, ◌+◌, ◌^◌, IfOk, IsSome, OnOk, OnErr, is_some, length, slice_get};
ghost use Rattle.split_device.specs.State.{split_lookup};
ghost use Rattle.split_order.specs.Left.{state_on};
ghost use Rattle.split_order.specs.Managed.{fresh_split};
ghost use Rattle.split_order.specs.Prepared.{JudgesSplit};
ghost use Rattle.rule_model.specs.RuleSet.{IsRuleSet};
ghost use Rattle.rule_chains.specs.Chains.{IsLongestChain};
ghost use Rattle.tcam_c.specs.Driven.{IsDue, KeepsLive};
ghost use Rattle.tcam_c.specs.Tables.{slots_left};
ghost use Rattle.tcam_c.specs.Split.{Cancels, IsServingSplit, IsSplitEnded, PassesDue, PlansParts, ServesOn, cancelled_by, kind_of_part, part_due};

use crate::outside::Outside;
use crate::part_steps::{go_on, prepare};
use crate::steps::DueKind;
use crate::stored::rule_at_place;
use batch_order::{Mode, Placement, Refusal};
use rule_chains::longest_chain;
use rule_model::{Key, Rank, Rule};
use rule_store::{Batch, Store};
use slot_order::MOST_SLOTS;
use split_device::{SplitAction, SplitDevice};
use split_hardware::SplitShadowed;
use split_order::SplitManager;
use split_writes::SplitDone;
use std::alloc::{AllocError, Global};
use std::marker::Model;

/// What became of a plan that was to be dropped.
#[derive(Clone, Copy)]
pub(crate) enum Cancelled {
    /// Nothing was made of it, and it is dropped.
    Dropped,
    /// There is none.
    Idle,
    /// A part or a drain of it was made, and it stays.
    Begun,
}

/// Between two calls a commit is under way exactly where a part or a drain is due.
#[derive(Drop)]
pub(crate) struct SplitTable {
    manager: SplitManager,
    device: SplitShadowed<Outside>,
}

impl Model for SplitTable {
    ghost use Rattle.split_order.specs.Managed.{SplitManaged};
    ghost use Rattle.tcam_c.specs.Driven.{IsDue};
    ghost use Rattle.tcam_c.specs.Split.{IsSplitHandled};

    ghost Value = { SplitManaged };

    ghost view = { λ t. t.manager };

    ghost invariant = { λ t. IsSplitHandled t.manager t.device.slots t.device.events t.device.flight t.device.spare };
}

impl SplitTable {
    /// A manager of a blank memory with so many slots in use and no rules. It fails only for want of memory.
    pub(crate) fn new(
        alloc: Global,
        slots: u32,
        mode: Mode,
        placement: Placement,
    ) -> Result<SplitTable, AllocError>
        requires least { 1 ≤ slots }
        requires most { slots ≤ MOST_SLOTS }
        ensures fresh { IfOk result (λ table. table ≡ fresh_split slots mode placement) }
        ensures serves { OnOk result (IsServingSplit (fresh_split slots mode placement)) }
    {
        let manager = SplitManager::new(alloc, slots, mode, placement)?;
        manager.serving();
        let device = SplitShadowed::new(alloc, Outside { slots })?;
        Ok(SplitTable { manager, device })
    }

    /// Has a batch judged and planned. Where it is taken a commit with nothing to make has finished. A refusal leaves all
    /// as it was.
    pub(crate) fn prepare(&mut self, batch: &Batch) -> Result<SplitDone, Refusal>
        ensures judged { JudgesSplit self.old.whole.slots self.old self.old.whole.held batch.now result }
        ensures ready { IfOk result (λ counts. PlansParts self.old batch.now counts self.new) }
        ensures refused { OnErr result (self.new ≡ self.old) }
        ensures keeps { KeepsLive self.old.whole self.new.whole }
        ensures before { IsServingSplit self.old }
        ensures serves { IsServingSplit self.new }
    {
        prepare(&mut self.manager, batch, &mut self.device)
    }

    /// The part or the drain that is due, or None where no commit is under way.
    pub(crate) fn due(&self) -> Option<SplitAction>
        ensures due { result ≡ part_due self.now }
        ensures ended { IsSplitEnded self.now.whole.held result }
        ensures serves { ServesOn self.now }
    {
        self.manager.serving();
        self.manager.next_action()
    }

    /// What kind of thing is due.
    pub(crate) fn kind_due(&self) -> DueKind
        ensures kind { result ≡ kind_of_part (part_due self.now) }
        ensures serves { IsServingSplit self.now }
    {
        self.manager.serving();
        kind_of(&self.manager.next_action())
    }

    /// The part or the drain that is due was made: what comes behind it is due then, or the commit has come to its end. It
    /// takes no memory.
    pub(crate) fn go_on(&mut self)
        requires { IsDue (kind_of_part (part_due self.old)) }
        ensures on { PassesDue (part_due self.old) self.old self.new }
        ensures serves { IsServingSplit self.new }
    {
        go_on(&mut self.manager, &mut self.device);
    }

    /// Drops the plan of the commit under way where no part and no drain of it was made: no commit is under way then. It
    /// takes no memory.
    pub(crate) fn cancel(&mut self) -> Cancelled
        ensures cancels { Cancels self.old result self.new }
        ensures keeps { KeepsLive self.old.whole self.new.whole }
        ensures before { IsServingSplit self.old }
        ensures serves { IsServingSplit self.new }
    {
        self.manager.serving();
        let under_way = self.manager.left().is_some();
        let dropped = self.manager.cancel();
        self.manager.serving();
        what_became(dropped, under_way)
    }

    /// What a key is answered by the parts that were made.
    pub(crate) fn look(&self, key: &Key) -> Option<(Rank, u32)>
        ensures answer { result ≡ split_lookup (state_on self.now.whole.slots self.now) key.now }
        ensures serves { IsServingSplit self.now }
    {
        self.manager.serving();
        self.device.look(key)
    }

    /// The rule at a place of the set, from 0 by falling priority, or None where there is none.
    pub(crate) fn rule_at_place(&self, place: u32) -> Option<Rule>
        ensures rule { result ≡ slice_get self.now.whole.rules place }
        ensures more { IsSome result → place + 1 < 2 ^ 32 }
        ensures falling { IsRuleSet self.now.whole.rules }
    {
        rule_at_place(self.manager.rules(), place)
    }

    /// The length of the longest overlap chain of the set. It fails only for want of memory.
    pub(crate) fn longest_chain(&self, alloc: Global) -> Result<u32, AllocError>
        ensures { IfOk result (λ longest. IsLongestChain self.now.whole.rules longest) }
    {
        longest_chain(alloc, self.manager.rules())
    }

    /// The rules of the set, `MOST_SLOTS` at most; while a commit is under way, those of the old set.
    pub(crate) fn rules(&self) -> &Store
        ensures rules { result.now.rules ≡ self.now.whole.rules }
        ensures few { length self.now.whole.rules ≤ MOST_SLOTS }
    {
        self.manager.rules()
    }

    /// Whether a commit is under way.
    pub(crate) fn is_busy(&self) -> bool
        ensures busy { result ≡ is_some self.now.whole.held }
        ensures serves { IsServingSplit self.now }
    {
        self.manager.serving();
        self.manager.left().is_some()
    }

    /// How many slots the entries of the set leave free.
    pub(crate) fn slots_left(&self) -> u32
        ensures { result ≡ slots_left self.now.whole }
    {
        self.device.slots().saturating_sub(self.manager.entries())
    }
}

/// What became of a plan that was to be dropped, by whether it was and whether there was one.
fn what_became(dropped: bool, under_way: bool) -> Cancelled
    ensures { result ≡ cancelled_by dropped under_way }
{
    if dropped {
        Cancelled::Dropped
    } else if under_way {
        Cancelled::Begun
    } else {
        Cancelled::Idle
    }
}

/// What kind of thing a part or a drain is.
fn kind_of(due: &Option<SplitAction>) -> DueKind
    ensures { result ≡ kind_of_part due.now }
{
    match due {
        None => DueKind::Nothing,
        Some(SplitAction::Written(_)) => DueKind::Write,
        Some(SplitAction::Drained) => DueKind::Drain,
    }
}

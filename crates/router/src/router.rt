//! A run of acts over two devices.

ghost use Rattle.std.specs.Prelude.{Bool, false, ◌≡◌, ◌⊎◌, ◌+◌, ◌<◌, ◌≤◌, ◌^◌, ◌++◌, ◌∷◌, [], ℕ, Err, None, IsSome, IfOk, IfErr, OnOk, OnErr, length};
ghost use Rattle.script_lines.specs.Given.{counted};
ghost use Rattle.call_history.specs.Cause.{HasCause, IsCounted};
ghost use Rattle.report_lines.specs.Sizes.{sizes_by};
ghost use Rattle.report_lines.specs.Told.{verdict_told};
ghost use Rattle.report_lines.specs.Outside.{WritesLine};
ghost use Rattle.split_device.specs.Flight.{no_flight};
ghost use Rattle.split_order.specs.Left.{left_of};
ghost use Rattle.router.specs.Text.{refused_line};
ghost use Rattle.router.specs.Run.{ending, start};
ghost use Rattle.router.specs.Script.{full_fault, limit_fault};
ghost use Rattle.router.specs.Routing.{begun, progress_of, setting_of, slots_of, pending_of, has_failed, held_left, limit_text, with_refusal, with_push, AreAt, FitsBoth, IsActOf, IsIdle, IsRouter, Routing};
ghost use Rattle.router.specs.Carried.{LeavesDevice};
ghost use Rattle.router.specs.Taken.{AreBothTaken};
ghost use Rattle.router.specs.Acting.{AnswersHeld, ComesTo, FailedAt, IsNotHeld, outside};

use crate::carrying::Halt;
use crate::committing::Unplanned;
use crate::report::{Totals, write_end, write_packet, write_refused};
use crate::{RouterAct, RouterFault, Side};
use report_lines::sizes_by;
use rule_model::{IpVersion, Key, key_fields};
use rule_store::{Batch, Command, PushFault};
use script_lines::{Failed, Sink};
use slot_order::MOST_SLOTS;
use split_device::SplitDevice;
use split_order::{Mode, Placement, Rejection, SplitManager};
use std::alloc::{AllocError, Global};
use std::marker::Model;

/// A router: the manager and the pending batch of each table, and what the report counts.
#[derive(Drop)]
pub struct Router {
    pub(crate) listed: SplitManager,
    pub(crate) routed: SplitManager,
    pub(crate) list_batch: Batch,
    pub(crate) route_batch: Batch,
    pub(crate) version: IpVersion,
    /// Whether each part of a commit has a line.
    pub(crate) trace: bool,
    /// Whether large batches may wait.
    large: bool,
    pub(crate) commits: u32,
    pub(crate) writes: u128,
    refused: bool,
    /// Whether the sink failed, behind which no call may follow.
    broken: bool,
}

impl Model for Router {
    ghost use Rattle.router.specs.Routing.{Routing, IsRouter};

    ghost Value = { Routing };

    ghost view = { λ r. record { listed = r.listed; routed = r.routed; list_batch = r.list_batch; route_batch = r.route_batch; version = r.version; trace = r.trace; large = r.large; commits = r.commits; writes = r.writes; refused = r.refused; broken = r.broken } };

    ghost invariant = { λ r. IsRouter (record { listed = r.listed; routed = r.routed; list_batch = r.list_batch; route_batch = r.route_batch; version = r.version; trace = r.trace; large = r.large; commits = r.commits; writes = r.writes; refused = r.refused; broken = r.broken }) };
}

impl Router {
    /// A router before its first act, over two blank devices with so many slots in use of each, 1 to `MOST_SLOTS`: no rules, and no
    /// change pending. The mode says how port ranges are tested, and the placement where an insertion of either table aims. Of
    /// the version of IP are the routes that it takes, and by it the report names rules. With a trace each part that is made of
    /// a device has a line, and each drain. It fails only for want of memory.
    pub fn new(
        alloc: Global,
        slots: u32,
        mode: Mode,
        placement: Placement,
        version: IpVersion,
        trace: bool,
    ) -> Result<Router, AllocError>
        requires least { 1 ≤ slots }
        requires most { slots ≤ MOST_SLOTS }
        ensures begun { IfOk result (λ router. router ≡ begun slots mode placement version trace) }
        ensures starts { IfOk result (λ router. progress_of router ≡ start) }
    {
        Ok(Router {
            listed: SplitManager::new(alloc, slots, mode, placement)?,
            routed: SplitManager::new(alloc, slots, mode, placement)?,
            list_batch: Batch::new(alloc),
            route_batch: Batch::new(alloc),
            version,
            trace,
            large: false,
            commits: 0,
            writes: 0,
            refused: false,
            broken: false,
        })
    }

    /// Whether large batches may wait.
    pub fn is_large(&self) -> bool
        ensures { result ≡ self.now.large }
    {
        self.large
    }

    /// The router, of which from now on up to 1,048,576 changes of each table may wait for a commit, or 4,096.
    pub fn with_large(mut self, large: bool) -> Router
        ensures { result ≡ record self { large = large } }
    {
        self.large = large;
        self
    }

    /// Carries out an act of a router's script, over two devices, the list's and the routes', each with at least as many
    /// slots as the router uses, and each where the router stands: it was blank before the first act, and nobody else has
    /// written it since. Nothing is in flight in them while no commit is unfinished. Each route that is added is one of a
    /// prefix of the router's version of IP. The router has made fewer than 268,435,456 commits.
    ///
    /// A change joins the pending batch of its table. With 4,096 changes pending there, or 1,048,576 where large batches may
    /// wait, the answer is `BatchFull`, and nothing has changed; each table counts its own. A packet's line has what the
    /// rules of each table answer; the devices are asked, which hold what the router made and so answer the same.
    ///
    /// A commit is judged by the set, the batch and the slots of each table alone, the list's first. Where one is refused
    /// neither device is written: a line is written with the table and its first reason, and both sets stay. Where both are
    /// accepted the list's parts and drains are made one at a time, and then the routes', each with its line behind it where a
    /// trace is wanted; none of them leaves a state of its device in which a key gets another answer than that of the old set
    /// of its table or of the new one. Then both sets are those after their batches, and the commit's line is written, with the
    /// parts of each table and the drains of both.
    /// Either kind of commit is counted, and drops both batches.
    ///
    /// `Held` comes exactly where a commit is unfinished after `Device`, before any other answer, with the parts that are
    /// left of both tables; nothing has changed. `Memory` comes at a change, or at a commit whose batch the list accepts;
    /// nothing has changed. `Sink` comes exactly where the sink's count of failures rose: all that comes before the line
    /// was done, with a trace perhaps a part of a commit, and a part of the line was taken, perhaps none or all of it. No
    /// call may follow it. `Device` comes where one part failed four times, and its device's count of failures rose by
    /// that: the parts before the failed one were made, and the commit's line wasn't written. The rest of it is held, of
    /// both tables. A part that fails less often is made, once, and its failures show in the device's count alone.
    pub fn apply<K: Sink, D: SplitDevice>(
        &mut self,
        act: &RouterAct,
        sink: &mut K,
        list: &mut D,
        routes: &mut D,
    ) -> Result<(), RouterFault>
        requires slots { FitsBoth self.old (slots_of (D.slot_count list.old) (D.slot_count routes.old)) }
        requires none_in_flight { IsIdle self.old → (D.flight list.old ≡ no_flight) × (D.flight routes.old ≡ no_flight) }
        requires act { IsActOf self.old.version act.now }
        requires whole { self.old.broken ≡ false }
        requires commits { self.old.commits < 2 ^ 28 }
        ensures acts { (which : Bool) → ComesTo (slots_of (D.slot_count list.old) (D.slot_count routes.old)) self.old act.now self.new result
            (outside (D.events list.old) (D.events routes.old) (counted which (K.taken sink.old) (K.accepted sink.old)))
            (outside (D.events list.new) (D.events routes.new) (counted which (K.taken sink.new) (K.accepted sink.new))) }
        ensures held { AnswersHeld (held_left (slots_of (D.slot_count list.old) (D.slot_count routes.old)) self.old) result }
        ensures limit { IsIdle self.old → limit_text result ≡ limit_fault (sizes_by self.old.large).commands act.now (pending_of self.old) }
        ensures idle { OnOk result (IsIdle self.new) }
        ensures broken { self.new.broken ≡ has_failed result }
        ensures setting { setting_of self.new ≡ setting_of self.old }
        ensures commits { self.new.commits ≤ self.old.commits + 1 }
        ensures in_step { AreAt self.old (D.events list.old) (D.events routes.old) → AreAt self.new (D.events list.new) (D.events routes.new) }
        ensures list { LeavesDevice D.slot_count D.events D.flight D.faults list.old list.new (FailedAt Side.List self.new result) }
        ensures routes { LeavesDevice D.slot_count D.events D.flight D.faults routes.old routes.new (FailedAt Side.Routes self.new result) }
        ensures told { IsSome (K.taken sink.old) → IsSome (K.taken sink.new) }
        ensures cause { IsCounted (result ≡ Err RouterFault.Sink) (K.faults sink.old) (K.faults sink.new) }
    {
        if let Some(left) = self.left() {
            return Err(RouterFault::Held { left });
        }
        let result = self.perform(act, sink, list, routes);
        self.mark(&result);
        result
    }

    // How many parts are left to make of an unfinished commit, of both tables.
    fn left(&self) -> Option<u64>
        ensures { (list_slots route_slots : ℕ) → FitsBoth self.now (slots_of list_slots route_slots) → result ≡ held_left (slots_of list_slots route_slots) self.now }
    {
        match (self.listed.left(), self.routed.left()) {
            (None, None) => None,
            (Some(listed), None) => Some(listed),
            (None, Some(routed)) => Some(routed),
            (Some(listed), Some(routed)) => Some(listed + routed),
        }
    }

    // Remembers whether the sink failed.
    fn mark(&mut self, outcome: &Result<(), RouterFault>)
        requires whole { self.old.broken ≡ false }
        ensures { self.new ≡ record self.old { broken = has_failed outcome.now } }
    {
        self.broken = matches!(outcome, Err(RouterFault::Sink));
    }

    // Carries out an act while no commit is unfinished.
    fn perform<K: Sink, D: SplitDevice>(
        &mut self,
        act: &RouterAct,
        sink: &mut K,
        list: &mut D,
        routes: &mut D,
    ) -> Result<(), RouterFault>
        requires slots { FitsBoth self.old (slots_of (D.slot_count list.old) (D.slot_count routes.old)) }
        requires list_flight { D.flight list.old ≡ no_flight }
        requires route_flight { D.flight routes.old ≡ no_flight }
        requires idle { IsIdle self.old }
        requires act { IsActOf self.old.version act.now }
        requires whole { self.old.broken ≡ false }
        requires commits { self.old.commits < 2 ^ 28 }
        ensures acts { (which : Bool) → ComesTo (slots_of (D.slot_count list.old) (D.slot_count routes.old)) self.old act.now self.new result
            (outside (D.events list.old) (D.events routes.old) (counted which (K.taken sink.old) (K.accepted sink.old)))
            (outside (D.events list.new) (D.events routes.new) (counted which (K.taken sink.new) (K.accepted sink.new))) }
        ensures taken { IsNotHeld result }
        ensures limit { limit_text result ≡ limit_fault (sizes_by self.old.large).commands act.now (pending_of self.old) }
        ensures idle { OnOk result (IsIdle self.new) }
        ensures unbroken { self.new.broken ≡ false }
        ensures setting { setting_of self.new ≡ setting_of self.old }
        ensures commits { self.new.commits ≤ self.old.commits + 1 }
        ensures in_step { AreAt self.old (D.events list.old) (D.events routes.old) → AreAt self.new (D.events list.new) (D.events routes.new) }
        ensures list { LeavesDevice D.slot_count D.events D.flight D.faults list.old list.new (FailedAt Side.List self.new result) }
        ensures routes { LeavesDevice D.slot_count D.events D.flight D.faults routes.old routes.new (FailedAt Side.Routes self.new result) }
        ensures told { IsSome (K.taken sink.old) → IsSome (K.taken sink.new) }
        ensures cause { IsCounted (result ≡ Err RouterFault.Sink) (K.faults sink.old) (K.faults sink.new) }
    {
        match *act {
            RouterAct::Change(side, command) => self.push(side, command),
            RouterAct::Packet(key) => self.packet(&key, sink, list, routes),
            RouterAct::Commit => self.commit(sink, list, routes),
        }
    }

    // A change joins the pending batch of its table.
    fn push(&mut self, side: Side, command: Command) -> Result<(), RouterFault>
        requires change { IsActOf self.old.version (RouterAct.Change side command) }
        ensures pushed { OnOk result (self.new ≡ with_push self.old side command) }
        ensures limit { limit_text result ≡ limit_fault (sizes_by self.old.large).commands (RouterAct.Change side command) (pending_of self.old) }
        ensures unchanged { OnErr result (self.new ≡ self.old) }
        ensures kind { IfErr result (λ fault. (fault ≡ RouterFault.BatchFull) ⊎ (fault ≡ RouterFault.Memory)) }
    {
        let most = sizes_by(self.large).commands;
        match side {
            Side::List => join(&mut self.list_batch, command, most),
            Side::Routes => join(&mut self.route_batch, command, most),
        }
    }

    // Looks a packet up in both tables, and writes what they find.
    fn packet<K: Sink, D: SplitDevice>(
        &self,
        key: &Key,
        sink: &mut K,
        list: &D,
        routes: &D,
    ) -> Result<(), RouterFault>
        requires slots { FitsBoth self.now (slots_of (D.slot_count list.now) (D.slot_count routes.now)) }
        requires idle { IsIdle self.now }
        ensures acts { (which : Bool) → ComesTo (slots_of (D.slot_count list.now) (D.slot_count routes.now)) self.now (RouterAct.Packet key.now) self.now result
            (outside (D.events list.now) (D.events routes.now) (counted which (K.taken sink.old) (K.accepted sink.old)))
            (outside (D.events list.now) (D.events routes.now) (counted which (K.taken sink.new) (K.accepted sink.new))) }
        ensures kind { IfErr result (λ fault. fault ≡ RouterFault.Sink) }
        ensures told { IsSome (K.taken sink.old) → IsSome (K.taken sink.new) }
        ensures cause { HasCause (K.faults sink.old) (K.faults sink.new) result }
    {
        key_fields(key);
        self.listed.serving();
        self.routed.serving();
        match write_packet(sink, self.version, list.look(key), routes.look(key)) {
            Ok(()) => Ok(()),
            Err(Failed) => Err(RouterFault::Sink),
        }
    }

    // Commits both pending batches, which are empty afterwards unless memory was wanting.
    fn commit<K: Sink, D: SplitDevice>(
        &mut self,
        sink: &mut K,
        list: &mut D,
        routes: &mut D,
    ) -> Result<(), RouterFault>
        requires slots { FitsBoth self.old (slots_of (D.slot_count list.old) (D.slot_count routes.old)) }
        requires list_flight { D.flight list.old ≡ no_flight }
        requires route_flight { D.flight routes.old ≡ no_flight }
        requires idle { IsIdle self.old }
        requires whole { self.old.broken ≡ false }
        requires commits { self.old.commits < 2 ^ 28 }
        ensures acts { (which : Bool) → ComesTo (slots_of (D.slot_count list.old) (D.slot_count routes.old)) self.old RouterAct.Commit self.new result
            (outside (D.events list.old) (D.events routes.old) (counted which (K.taken sink.old) (K.accepted sink.old)))
            (outside (D.events list.new) (D.events routes.new) (counted which (K.taken sink.new) (K.accepted sink.new))) }
        ensures taken { IsNotHeld result }
        ensures limit { limit_text result ≡ None }
        ensures idle { OnOk result (IsIdle self.new) }
        ensures unbroken { self.new.broken ≡ false }
        ensures setting { setting_of self.new ≡ setting_of self.old }
        ensures commits { self.new.commits ≤ self.old.commits + 1 }
        ensures in_step { AreAt self.old (D.events list.old) (D.events routes.old) → AreAt self.new (D.events list.new) (D.events routes.new) }
        ensures list { LeavesDevice D.slot_count D.events D.flight D.faults list.old list.new (FailedAt Side.List self.new result) }
        ensures routes { LeavesDevice D.slot_count D.events D.flight D.faults routes.old routes.new (FailedAt Side.Routes self.new result) }
        ensures told { IsSome (K.taken sink.old) → IsSome (K.taken sink.new) }
        ensures cause { IsCounted (result ≡ Err RouterFault.Sink) (K.faults sink.old) (K.faults sink.new) }
    {
        match self.plan(list, routes) {
            Ok((listed, routed)) => self.make(listed, routed, sink, list, routes),
            Err(Unplanned::Memory) => Err(RouterFault::Memory),
            Err(Unplanned::Refused(side, rejection)) => self.refuse(side, rejection, sink),
        }
    }

    // Makes the parts of a commit that both tables have taken, the list's first, and writes its line.
    fn make<K: Sink, D: SplitDevice>(
        &mut self,
        listed: u64,
        routed: u64,
        sink: &mut K,
        list: &mut D,
        routes: &mut D,
    ) -> Result<(), RouterFault>
        requires slots { FitsBoth self.old (slots_of (D.slot_count list.old) (D.slot_count routes.old)) }
        requires list_flight { D.flight list.old ≡ no_flight }
        requires route_flight { D.flight routes.old ≡ no_flight }
        requires taken { (before : Routing) × AreBothTaken before self.old listed routed }
        requires list_room { length (left_of (D.slot_count list.old) self.old.listed) ≤ D.spare list.old }
        requires route_room { length (left_of (D.slot_count routes.old) self.old.routed) ≤ D.spare routes.old }
        requires whole { self.old.broken ≡ false }
        requires commits { self.old.commits < 2 ^ 28 }
        ensures acts { (which : Bool) → (before : Routing) → AreBothTaken before self.old listed routed → ComesTo (slots_of (D.slot_count list.old) (D.slot_count routes.old)) before RouterAct.Commit self.new result
            (outside (D.events list.old) (D.events routes.old) (counted which (K.taken sink.old) (K.accepted sink.old)))
            (outside (D.events list.new) (D.events routes.new) (counted which (K.taken sink.new) (K.accepted sink.new))) }
        ensures kind { IfErr result (λ fault. (fault ≡ RouterFault.Sink) ⊎ (fault ≡ RouterFault.Device)) }
        ensures idle { OnOk result (IsIdle self.new) }
        ensures unbroken { self.new.broken ≡ false }
        ensures setting { setting_of self.new ≡ setting_of self.old }
        ensures commits { self.new.commits ≤ self.old.commits + 1 }
        ensures in_step { AreAt self.old (D.events list.old) (D.events routes.old) → AreAt self.new (D.events list.new) (D.events routes.new) }
        ensures list { LeavesDevice D.slot_count D.events D.flight D.faults list.old list.new (FailedAt Side.List self.new result) }
        ensures routes { LeavesDevice D.slot_count D.events D.flight D.faults routes.old routes.new (FailedAt Side.Routes self.new result) }
        ensures told { IsSome (K.taken sink.old) → IsSome (K.taken sink.new) }
        ensures cause { IsCounted (result ≡ Err RouterFault.Sink) (K.faults sink.old) (K.faults sink.new) }
    {
        let drains = match self.carry_both(list, routes, sink) {
            Ok(drains) => drains,
            Err(Halt::Device) => return Err(RouterFault::Device),
            Err(Halt::Sink) => return Err(RouterFault::Sink),
        };
        let told = self.tell_made(listed, routed, drains, sink);
        self.count_writes(listed, routed);
        match told {
            Ok(()) => Ok(()),
            Err(Failed) => Err(RouterFault::Sink),
        }
    }

    // Counts a commit that one table refuses, drops both batches, and writes its line.
    fn refuse<K: Sink>(
        &mut self,
        side: Side,
        rejection: Rejection,
        sink: &mut K,
    ) -> Result<(), RouterFault>
        requires idle { IsIdle self.old }
        requires commits { self.old.commits < 2 ^ 28 }
        ensures refused { self.new ≡ with_refusal self.old }
        ensures line { WritesLine K.taken K.accepted K.faults sink.old sink.new (refused_line self.old.version side (self.old.commits + 1) (verdict_told rejection)) result }
        ensures kind { IfErr result (λ fault. fault ≡ RouterFault.Sink) }
    {
        let told = self.tell_refused(side, &rejection, sink);
        self.count_commit();
        self.refused = true;
        match told {
            Ok(()) => Ok(()),
            Err(Failed) => Err(RouterFault::Sink),
        }
    }

    // Writes the line of a commit that one table refuses.
    fn tell_refused<K: Sink>(
        &self,
        side: Side,
        rejection: &Rejection,
        sink: &mut K,
    ) -> Result<(), Failed>
        requires commits { self.now.commits < 2 ^ 28 }
        ensures { WritesLine K.taken K.accepted K.faults sink.old sink.new (refused_line self.now.version side (self.now.commits + 1) (verdict_told rejection.now)) result }
    {
        write_refused(sink, self.version, side, self.commits + 1, rejection)
    }

    // Counts a commit, and drops both batches.
    fn count_commit(&mut self)
        requires commits { self.old.commits < 2 ^ 28 }
        ensures { self.new ≡ record self.old { list_batch = []; route_batch = []; commits = self.old.commits + 1 } }
    {
        self.list_batch.clear();
        self.route_batch.clear();
        self.commits += 1;
    }

    /// The version of IP of its routes and of its report.
    pub fn version(&self) -> IpVersion
        ensures { result ≡ self.now.version }
    {
        self.version
    }

    /// Writes the last line of a run that came to its end: the rules of each table, the device writes of all commits, none of
    /// which is unfinished, and the changes that are pending in both tables. Answers whether a commit was refused. Where the
    /// sink fails, a part of the line was taken, perhaps none or all of it. The router stays as it was.
    pub fn finish<K: Sink>(&mut self, sink: &mut K) -> Result<bool, Failed>
        requires whole { self.old.broken ≡ false }
        requires idle { IsIdle self.old }
        ensures refused { IfOk result (λ refused. refused ≡ self.old.refused) }
        ensures unchanged { self.new ≡ self.old }
        ensures line { WritesLine K.taken K.accepted K.faults sink.old sink.new (ending (progress_of self.old)) result }
    {
        match self.tell_end(sink) {
            Ok(()) => Ok(self.refused),
            Err(Failed) => Err(Failed),
        }
    }

    // Writes the last line.
    fn tell_end<K: Sink>(&self, sink: &mut K) -> Result<(), Failed>
        ensures { WritesLine K.taken K.accepted K.faults sink.old sink.new (ending (progress_of self.now)) result }
    {
        let totals = Totals {
            listed: self.listed.rules().len(),
            routed: self.routed.rules().len(),
            writes: self.writes,
            pending: self.list_batch.len() + self.route_batch.len(),
        };
        write_end(sink, &totals)
    }
}

// A change joins a batch, of so many at most.
fn join(batch: &mut Batch, command: Command, most: u32) -> Result<(), RouterFault>
    requires { most ≤ MOST_SLOTS }
    ensures pushed { OnOk result (batch.new ≡ batch.old ++ command ∷ []) }
    ensures limit { limit_text result ≡ full_fault most (length batch.old) }
    ensures unchanged { OnErr result (batch.new ≡ batch.old) }
    ensures kind { IfErr result (λ fault. (fault ≡ RouterFault.BatchFull) ⊎ (fault ≡ RouterFault.Memory)) }
{
    match batch.push_within(command, most) {
        Ok(()) => Ok(()),
        Err(PushFault::Full) => Err(RouterFault::BatchFull),
        Err(PushFault::Memory) => Err(RouterFault::Memory),
    }
}

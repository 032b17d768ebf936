//! Both parts of a commit are planned, made and counted.

ghost use Rattle.std.specs.Prelude.{◌≡◌, ◌+◌, ◌<◌, ◌≤◌, ◌^◌, [], ℕ, Bool, Err, None, IsSome, IfOk, IfErr, OnOk, OnErr, length};
ghost use Rattle.call_history.specs.Cause.{IsCounted};
ghost use Rattle.script_lines.specs.Given.{counted};
ghost use Rattle.report_lines.specs.Outside.{WritesLine};
ghost use Rattle.split_device.specs.Flight.{no_flight};
ghost use Rattle.split_order.specs.Left.{left_of};
ghost use Rattle.router.specs.Text.{accepted_line};
ghost use Rattle.router.specs.Routing.{slots_of, FitsBoth, IsIdle, IsRouter, Routing};
ghost use Rattle.router.specs.Carried.{LeavesAll, LeavesDevice};
ghost use Rattle.router.specs.Taken.{AreBothTaken, AreBothTold, IsMadeBy, IsNotBusy, IsUnplannedBy, StopsBoth, made_on, unplanned_by};

use crate::Side;
use crate::carrying::{Halt, carry};
use crate::report::{CommitNumbers, PartsTold, write_accepted};
use crate::router::Router;
use script_lines::{Failed, Sink};
use split_device::SplitDevice;
use split_order::{Refusal, Rejection};

/// Why a commit isn't planned.
#[derive(Clone, Copy, Debug, PartialEq, Eq)]
pub(crate) enum Unplanned {
    /// There is no memory for it.
    Memory,
    /// This table refuses its batch.
    Refused(Side, Rejection),
}

impl Router {
    /// Plans both parts of a commit, and answers how many writes each has. Where the routes don't take theirs the list's plan
    /// is dropped.
    pub(crate) fn plan<D: SplitDevice>(
        &mut self,
        list: &mut D,
        routes: &mut D,
    ) -> Result<(u64, u64), Unplanned>
        requires slots { FitsBoth self.old (slots_of (D.slot_count list.old) (D.slot_count routes.old)) }
        requires idle { IsIdle self.old }
        ensures taken { IfOk result (λ writes. AreBothTaken self.old self.new writes.0 writes.1) }
        ensures unplanned { IfErr result (IsUnplannedBy self.old) }
        ensures unchanged { OnErr result (self.new ≡ self.old) }
        ensures list_room { OnOk result (length (left_of (D.slot_count list.new) self.new.listed) ≤ D.spare list.new) }
        ensures route_room { OnOk result (length (left_of (D.slot_count routes.new) self.new.routed) ≤ D.spare routes.new) }
        ensures list { LeavesAll D.slot_count D.events D.flight D.faults list.old list.new }
        ensures routes { LeavesAll D.slot_count D.events D.flight D.faults routes.old routes.new }
    {
        self.listed.serving();
        let listed = match self.listed.prepare(&self.list_batch, list) {
            Ok(counts) => counts.writes,
            Err(refusal) => return Err(why_unplanned(Side::List, refusal)),
        };
        match self.routed.prepare(&self.route_batch, routes) {
            Ok(counts) => Ok((listed, counts.writes)),
            Err(refusal) => {
                self.listed.cancel();
                Err(why_unplanned(Side::Routes, refusal))
            }
        }
    }

    /// Makes the parts and drains of both tables, the list's first, each with its line where a trace is wanted, and answers how
    /// many drains there were.
    pub(crate) fn carry_both<D: SplitDevice, K: Sink>(
        &mut self,
        list: &mut D,
        routes: &mut D,
        sink: &mut K,
    ) -> Result<u64, Halt>
        requires slots { FitsBoth self.old (slots_of (D.slot_count list.old) (D.slot_count routes.old)) }
        requires list_flight { D.flight list.old ≡ no_flight }
        requires route_flight { D.flight routes.old ≡ no_flight }
        requires taken { (before : Routing) × (listed : ℕ) × (routed : ℕ) × AreBothTaken before self.old listed routed }
        requires list_room { length (left_of (D.slot_count list.old) self.old.listed) ≤ D.spare list.old }
        requires route_room { length (left_of (D.slot_count routes.old) self.old.routed) ≤ D.spare routes.old }
        ensures made { IfOk result (λ drains. IsMadeBy (slots_of (D.slot_count list.old) (D.slot_count routes.old)) self.old drains self.new
            (made_on (D.events list.old) (D.events routes.old)) (made_on (D.events list.new) (D.events routes.new))) }
        ensures small { IfOk result (λ drains. drains < 2 ^ 44) }
        ensures router { IsRouter self.old }
        ensures lines { IfOk result (λ drains. (which : Bool) → AreBothTold self.old.trace self.old.version
            (made_on (D.events list.old) (D.events routes.old)) (made_on (D.events list.new) (D.events routes.new))
            (counted which (K.taken sink.old) (K.accepted sink.old)) (counted which (K.taken sink.new) (K.accepted sink.new))) }
        ensures stopped { IfErr result (λ why. StopsBoth why (slots_of (D.slot_count list.old) (D.slot_count routes.old)) self.old self.new
            (made_on (D.events list.old) (D.events routes.old)) (made_on (D.events list.new) (D.events routes.new))
            (λ which. counted which (K.taken sink.old) (K.accepted sink.old)) (λ which. counted which (K.taken sink.new) (K.accepted sink.new))) }
        ensures list { LeavesDevice D.slot_count D.events D.flight D.faults list.old list.new ((result ≡ Err Halt.Device) × IsSome self.new.listed.whole.held) }
        ensures routes { LeavesDevice D.slot_count D.events D.flight D.faults routes.old routes.new ((result ≡ Err Halt.Device) × (self.new.listed.whole.held ≡ None)) }
        ensures told { IsSome (K.taken sink.old) → IsSome (K.taken sink.new) }
        ensures cause { IsCounted (result ≡ Err Halt.Sink) (K.faults sink.old) (K.faults sink.new) }
    {
        let of_list = PartsTold {
            trace: self.trace,
            version: self.version,
            side: Side::List,
        };
        let of_routes = PartsTold {
            trace: self.trace,
            version: self.version,
            side: Side::Routes,
        };
        let list_drains = match carry(&mut self.listed, list, &of_list, sink) {
            Ok(drains) => drains,
            Err(why) => return Err(why),
        };
        match carry(&mut self.routed, routes, &of_routes, sink) {
            Ok(drains) => Ok(list_drains + drains),
            Err(why) => Err(why),
        }
    }

    /// Writes the line of a commit that was made.
    pub(crate) fn tell_made<K: Sink>(
        &self,
        listed: u64,
        routed: u64,
        drains: u64,
        sink: &mut K,
    ) -> Result<(), Failed>
        requires commits { self.now.commits < 2 ^ 28 }
        ensures { WritesLine K.taken K.accepted K.faults sink.old sink.new (accepted_line (self.now.commits + 1) listed routed drains) result }
    {
        let made = CommitNumbers {
            listed,
            routed,
            drains,
        };
        write_accepted(sink, self.commits + 1, &made)
    }

    /// Counts a commit and its writes, and drops both batches.
    pub(crate) fn count_writes(&mut self, listed: u64, routed: u64)
        requires commits { self.old.commits < 2 ^ 28 }
        requires list_few { listed ≤ 2 ^ 41 }
        requires route_few { routed ≤ 2 ^ 41 }
        ensures { self.new ≡ record self.old { list_batch = []; route_batch = []; commits = self.old.commits + 1; writes = self.old.writes + (listed + routed) } }
    {
        self.list_batch.clear();
        self.route_batch.clear();
        self.commits += 1;
        self.writes += u128::from(listed) + u128::from(routed);
    }
}

// Why a commit isn't planned, by what the manager of a table answered that had no commit under way.
fn why_unplanned(side: Side, refusal: Refusal) -> Unplanned
    requires idle { IsNotBusy refusal }
    ensures { result ≡ unplanned_by side refusal }
{
    match refusal {
        Refusal::Memory => Unplanned::Memory,
        Refusal::Rejected(rejection) => Unplanned::Refused(side, rejection),
        Refusal::Busy { .. } => unreachable!(),
    }
}

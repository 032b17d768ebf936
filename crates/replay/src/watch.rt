//! What the report shows after each write of a commit.
//!
//! A probe is a look-up of two events: after each write the words of all probes are put into flight, and they are
//! searched a depth of writes later. Behind the search a line tells what it answered.

ghost use Rattle.std.specs.Prelude.{false, ◌≡◌, ◌≢◌, ◌↔◌, ◌==◌, ◌+◌, ◌≤◌, ◌++◌, ◌∷◌, [], IsTrue, IfOk, OnOk, length, take, drop};
ghost use Rattle.std.specs.List.{AllByRecursion};
ghost use Rattle.rule_model.specs.Key.{IsKey};
ghost use Rattle.tcam_device.specs.View.{device_state, IsSameButFlight};
ghost use Rattle.batch_order.specs.Steps.{next_of};
ghost use Rattle.report_lines.specs.Outside.{WritesLine};
ghost use Rattle.replay.specs.Effects.{drain_told, probes_told, trace_line, write_told};
ghost use Rattle.replay.specs.Naming.{next_deed};
ghost use Rattle.replay.specs.InFlight.{AreOf, flight_left, found_after, found_all, found_lines, probe_words};
ghost use Rattle.replay.specs.Outside.{WritesLines};
ghost use Rattle.replay.specs.Script.{most_probes};

use crate::Family;
use crate::json_report::{journal_line, write_json, write_shared};
use crate::naming::deed_of;
use crate::report::{write_drain, write_named, write_probe, write_trace};
use batch_order::Manager;
use report_lines::Deed;
use rule_model::{Key, key_fields};
use script_lines::{Failed, Sink};
use std::alloc::{AllocError, Global};
use std::marker::Model;
use tcam_device::{Device, ReadBack, Write};
use trace_file::TraceLine;

/// The most keys that are probed.
pub(crate) const MOST_PROBES: usize = 16;

/// How far an unfinished commit has come: how many of its writes were made and told, and of how many of these the
/// probes' words are in flight.
#[derive(Clone, Copy, Debug, PartialEq, Eq)]
pub(crate) struct Count {
    pub(crate) told: u64,
    pub(crate) waiting: u32,
}

/// No commit is unfinished, or none of its writes is made.
pub(crate) const NOTHING: Count = Count {
    told: 0,
    waiting: 0,
};

/// What is told of each write: the write itself, or what it does, where a trace is wanted, and what the device answers each
/// probe, whose words are searched a depth of writes behind the one that they were made after. In JSON each write is told,
/// and no probe.
#[derive(Drop)]
pub(crate) struct Watch {
    family: Family,
    trace: bool,
    depth: u32,
    json: bool,
    names: bool,
    // Whether removals go first where they may: of a write it tells nothing.
    parts: bool,
    // Whether large batches may wait: likewise.
    large: bool,
    // There is room for the most probes from the start, so that a probe takes no memory.
    probes: Vec<Key>,
}

impl Model for Watch {
    ghost use Rattle.std.specs.Prelude.{◌≤◌, length, vec_capacity};
    ghost use Rattle.replay.specs.Running.{Watching};

    ghost Value = { Watching };

    ghost view = { λ w. record { family = w.family; trace = w.trace; depth = w.depth; json = w.json; names = w.names; parts = w.parts; large = w.large; probes = w.probes.items } };

    ghost invariant = { λ w. (length w.probes.items ≤ 16) × (16 ≤ vec_capacity w.probes) × (w.depth ≤ 15) };
}

impl Watch {
    /// No key is probed yet.
    pub(crate) fn new(
        alloc: Global,
        family: Family,
        trace: bool,
        depth: u32,
        json: bool,
        names: bool,
    ) -> Result<Watch, AllocError>
        requires depth { depth ≤ 15 }
        ensures { IfOk result (λ watch. watch ≡ record { family = family; trace = trace; depth = depth; json = json; names = names; parts = false; large = false; probes = [] }) }
    {
        Ok(Watch {
            family,
            trace,
            depth,
            json,
            names,
            parts: false,
            large: false,
            probes: Vec::with_capacity(alloc, MOST_PROBES)?,
        })
    }

    /// Whether removals go first where they may.
    pub(crate) fn parts(&self) -> bool
        ensures { result ≡ self.now.parts }
    {
        self.parts
    }

    /// Removals go first where they may, or they don't.
    pub(crate) fn put_parts(&mut self, parts: bool)
        ensures { self.new ≡ record self.old { parts = parts } }
    {
        self.parts = parts;
    }

    /// Whether large batches may wait.
    pub(crate) fn is_large(&self) -> bool
        ensures { result ≡ self.now.large }
    {
        self.large
    }

    /// Large batches may wait, or they may not.
    pub(crate) fn put_large(&mut self, large: bool)
        ensures { self.new ≡ record self.old { large = large } }
    {
        self.large = large;
    }

    /// How the rules are named.
    pub(crate) fn family(&self) -> Family
        ensures { result ≡ self.now.family }
    {
        self.family
    }

    /// After how many further writes the words of the probes are searched.
    pub(crate) fn depth(&self) -> u32
        ensures { result ≡ self.now.depth }
    {
        self.depth
    }

    /// Whether all is told in JSON.
    pub(crate) fn is_json(&self) -> bool
        ensures { result ≡ self.now.json }
    {
        self.json
    }

    // How many probes are told of.
    fn told(&self) -> usize
        ensures number { result ≡ length (probes_told self.now.json self.now.probes) }
        ensures most { result ≤ length self.now.probes }
    {
        if self.json { 0 } else { self.probes.len() }
    }

    /// Whether as many keys are probed as may be.
    pub(crate) fn is_full(&self) -> bool
        ensures { IsTrue result ↔ (length self.now.probes ≡ most_probes) }
    {
        self.probes.len() >= MOST_PROBES
    }

    /// Probes one key more. It takes no memory.
    pub(crate) fn probe(&mut self, key: Key)
        requires room { length self.old.probes ≢ most_probes }
        ensures { self.new ≡ record self.old { probes = self.old.probes ++ key ∷ [] } }
    {
        self.probes.push_reserved(key);
    }

    /// What the next write of a manager's commit does, where a trace is to tell that and one is due.
    pub(crate) fn next_deed<D: ReadBack>(&self, manager: &Manager, device: &D) -> Option<Deed>
        requires { manager.now.slots ≤ (D.view device.now).slots }
        ensures { result ≡ next_deed self.now.names (device_state (D.view device.now)) (next_of manager.now.held) }
    {
        if !self.names {
            return None;
        }
        match manager.next_write() {
            None => None,
            Some(write) => Some(deed_of(&write, device)),
        }
    }

    /// Tells of a write that was made and counted, while the words of so many writes before it wait: the words of all
    /// probes follow them into flight, and with a depth of them waiting already the oldest are searched. Where the sink
    /// fails, the lines before the one that it didn't take whole are written. It takes no memory.
    pub(crate) fn tell<K: Sink, D: Device>(
        &self,
        number: u64,
        waiting: u32,
        deed: &Option<Deed>,
        write: &Write,
        sink: &mut K,
        device: &mut D,
    ) -> Result<(), Failed>
        requires words { AreOf (probes_told self.now.json self.now.probes) waiting (D.view device.old).flight }
        requires few { waiting ≤ self.now.depth }
        ensures lines { WritesLines K.taken K.accepted K.faults sink.old sink.new
            (write_told self.now.json self.now.trace self.now.family number deed.now write.now ++ found_after self.now.family (probes_told self.now.json self.now.probes) self.now.depth number waiting (device_state (D.view device.old)) (D.view device.old).flight) result }
        ensures flight { OnOk result ((D.view device.new).flight ≡ flight_left (probes_told self.now.json self.now.probes) self.now.depth waiting (device_state (D.view device.old)) (D.view device.old).flight) }
        ensures keys { AllByRecursion IsKey (probes_told self.now.json self.now.probes) }
        ensures others { IsSameButFlight (D.view device.old) (D.view device.new) }
    {
        let depth = self.depth;
        self.translate(device);
        self.tell_write(number, deed, write, sink)?;
        if waiting == depth {
            self.search(number, sink, device)?;
        }
        Ok(())
    }

    // Writes the line of a write, in JSON or where a trace is wanted.
    fn tell_write<K: Sink>(
        &self,
        number: u64,
        deed: &Option<Deed>,
        write: &Write,
        sink: &mut K,
    ) -> Result<(), Failed>
        ensures { WritesLines K.taken K.accepted K.faults sink.old sink.new (write_told self.now.json self.now.trace self.now.family number deed.now write.now) result }
    {
        if self.json {
            return write_json(sink, self.family.version(), &journal_line(write));
        }
        if self.trace {
            self.trace_write(number, deed, write, sink)?;
        }
        Ok(())
    }

    // Writes the trace line of a write, by what it does where that is to be told.
    fn trace_write<K: Sink>(
        &self,
        number: u64,
        deed: &Option<Deed>,
        write: &Write,
        sink: &mut K,
    ) -> Result<(), Failed>
        ensures { WritesLine K.taken K.accepted K.faults sink.old sink.new (trace_line self.now.family number deed.now write.now) result }
    {
        match deed {
            None => write_trace(sink, self.family, number, write),
            Some(deed) => write_named(sink, self.family, number, deed),
        }
    }

    /// Tells of a drain, behind so many writes, in JSON or where a trace is wanted.
    pub(crate) fn tell_drain<K: Sink>(&self, number: u64, sink: &mut K) -> Result<(), Failed>
        ensures { WritesLines K.taken K.accepted K.faults sink.old sink.new (drain_told self.now.json self.now.trace number) result }
    {
        if self.json {
            return write_shared(sink, &TraceLine::Drain);
        }
        if self.trace {
            write_drain(sink, number)?;
        }
        Ok(())
    }

    /// Searches all words in flight, those of the probes of so many writes, the oldest first.
    pub(crate) fn search_all<K: Sink, D: Device>(
        &self,
        count: &Count,
        sink: &mut K,
        device: &mut D,
    ) -> Result<(), Failed>
        requires words { AreOf (probes_told self.now.json self.now.probes) count.now.waiting (D.view device.old).flight }
        ensures lines { WritesLines K.taken K.accepted K.faults sink.old sink.new
            (found_all self.now.family count.now.told (device_state (D.view device.old)) (length (probes_told self.now.json self.now.probes)) count.now.waiting (D.view device.old).flight) result }
        ensures flight { OnOk result ((D.view device.new).flight ≡ []) }
        ensures others { IsSameButFlight (D.view device.old) (D.view device.new) }
    {
        for place in 0..count.waiting {
            self.search(count.told, sink, device)?;
        }
        Ok(())
    }

    // Puts the word of each probe that is told of into flight, in their order.
    fn translate<D: Device>(&self, device: &mut D)
        requires room { length (D.view device.old).flight + length (probes_told self.now.json self.now.probes) ≤ 256 }
        ensures flight { (D.view device.new).flight
            ≡ (D.view device.old).flight ++ probe_words (device_state (D.view device.old)) (probes_told self.now.json self.now.probes) }
        ensures keys { AllByRecursion IsKey (probes_told self.now.json self.now.probes) }
        ensures others { IsSameButFlight (D.view device.old) (D.view device.new) }
    {
        for place in 0..self.told() {
            let key = &self.probes[place];
            key_fields(key);
            device.translate(key);
        }
    }

    // Searches the oldest word of each probe that is told of, in their order.
    fn search<K: Sink, D: Device>(
        &self,
        number: u64,
        sink: &mut K,
        device: &mut D,
    ) -> Result<(), Failed>
        requires words { length (probes_told self.now.json self.now.probes) ≤ length (D.view device.old).flight }
        ensures lines { WritesLines K.taken K.accepted K.faults sink.old sink.new
            (found_lines self.now.family number (device_state (D.view device.old)) 1 (take (length (probes_told self.now.json self.now.probes)) (D.view device.old).flight)) result }
        ensures flight { OnOk result ((D.view device.new).flight ≡ drop (length (probes_told self.now.json self.now.probes)) (D.view device.old).flight) }
        ensures others { IsSameButFlight (D.view device.old) (D.view device.new) }
    {
        for place in 0..self.told() {
            match device.search() {
                Some(found) => write_probe(sink, self.family, number, place as u32 + 1, found)?,
                // There is a word in flight for each probe.
                None => unreachable!(),
            }
        }
        Ok(())
    }
}

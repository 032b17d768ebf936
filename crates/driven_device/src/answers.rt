//! What a manager and its device answer.
ghost use Rattle.std.specs.Prelude.{◌≡◌, ◌-◌, ◌<◌, ◌↔◌, ◌⊎◌, None, IsTrue, IsFalse, drop, length, option_map};
ghost use Rattle.rule_model.specs.RuleSet as sets;
ghost use Rattle.rule_store.specs.Verdict.{entries_of};
ghost use Rattle.tcam_device.specs.State.{lookup};
ghost use Rattle.tcam_device.specs.Flight.{most_in_flight, search_answer, with_word, writes_in};
ghost use Rattle.tcam_device.specs.View.{IsSameButFlight, device_state};
ghost use Rattle.batch_order.specs.Managed.{Serves};
ghost use Rattle.batch_order.specs.CarriedOut.{ahead};
ghost use Rattle.driven_device.specs.Driven.{IsDriven};

use crate::Driven;
use batch_order::Manager;
use rule_model::{Key, Rank, key_fields};
use rule_store::Store;
use tcam_device::{Device, MOST_IN_FLIGHT};

/// Priority and result of the best of some rules that a packet matches.
fn best_of(rules: &Store, key: &Key) -> Option<(Rank, u32)>
    ensures { result ≡ sets.answer rules.now.rules key.now }
{
    match rules.best(key) {
        Some(rule) => Some((rule.priority, rule.result)),
        None => None,
    }
}

impl<D: Device> Driven<D> {
    /// What a packet is answered now, by the device: tag and result of the entry that it hits, or None where it hits none.
    /// That is the answer of the rules, and while a commit is under way that of the old ones or of the new ones.
    pub fn look(&self, key: &Key) -> Option<(Rank, u32)>
        ensures now { result ≡ lookup (device_state self.now.device) key.now }
        ensures rules { self.now.manager.held ≡ None → result ≡ sets.answer self.now.manager.rules key.now }
        ensures old_or_new { (result ≡ sets.answer self.now.manager.rules key.now) ⊎ (result ≡ sets.answer (ahead self.now.manager) key.now) }
    {
        key_fields(key);
        self.manager.serving();
        self.device.look(key)
    }

    /// What the rules of the set answer a packet: priority and result of the best rule that it matches, or None where it
    /// matches none. While a commit is under way they are the old ones; with none under way the device answers the same.
    pub fn answer(&self, key: &Key) -> Option<(Rank, u32)>
        ensures rules { result ≡ sets.answer self.now.manager.rules key.now }
        ensures device { self.now.manager.held ≡ None → result ≡ lookup (device_state self.now.device) key.now }
    {
        key_fields(key);
        self.manager.serving();
        best_of(self.manager.rules(), key)
    }

    /// What is so at any time, for whoever has something to show of it: each key is answered as the rules do, and while a
    /// commit is under way as the old ones or the new ones do; and the device has what the manager's calls ask for, and holds
    /// what the manager takes it to hold.
    pub fn serving(&self)
        ensures serves { Serves (device_state self.now.device) self.now.manager.rules self.now.manager.held }
        ensures driven { IsDriven self.now.manager self.now.device }
    {
        self.manager.serving();
    }

    /// The rules of the set; while a commit is under way those of the old set.
    pub fn rules(&self) -> &Store
        ensures { result.now.rules ≡ self.now.manager.rules }
    {
        self.manager.rules()
    }

    /// How many writes of the commit under way are still to make, forward, or back once it is turned round. None comes
    /// exactly where no commit is under way.
    pub fn left(&self) -> Option<u64>
        ensures { result ≡ option_map (λ held. length (writes_in held.actions)) self.now.manager.held }
    {
        self.manager.left()
    }

    /// How many entries the rules of the set take.
    pub fn entries(&self) -> u32
        ensures { result ≡ entries_of self.now.manager.mode self.now.manager.rules }
    {
        self.manager.entries()
    }

    /// How many of the slots in use they leave free. A batch whose additions take more is refused.
    pub fn free_slots(&self) -> u32
        ensures { result ≡ self.now.manager.slots - entries_of self.now.manager.mode self.now.manager.rules }
    {
        let (slots, _, _) = self.manager.setting();
        slots.saturating_sub(self.manager.entries())
    }

    /// The manager, to be asked: its port ranges by bits, its slots, mode and placement, the next write.
    pub fn manager(&self) -> &Manager
        ensures { result.now ≡ self.now.manager }
    {
        &self.manager
    }

    /// The device, to be looked at.
    pub fn device(&self) -> &D
        ensures { D.view result.now ≡ self.now.device }
    {
        &self.device
    }

    /// Puts a packet's word by the tables now into flight, behind those that are. False comes exactly where 256 are, and
    /// nothing changes then.
    pub fn translate(&mut self, key: &Key) -> bool
        ensures room { IsTrue result ↔ (length self.old.device.flight < most_in_flight) }
        ensures taken { IsTrue result → self.new.device.flight ≡ with_word (device_state self.old.device) key.now self.old.device.flight }
        ensures full { IsFalse result → self.new.device.flight ≡ self.old.device.flight }
        ensures manager { self.new.manager ≡ self.old.manager }
        ensures others { IsSameButFlight self.old.device self.new.device }
    {
        if self.device.in_flight() >= MOST_IN_FLIGHT {
            return false;
        }
        self.device.translate(key);
        true
    }

    /// Takes the oldest word out of flight, and answers tag and result of the entry that it hits now, or None inside where
    /// it hits none. The outer None comes exactly where no word is in flight.
    pub fn search(&mut self) -> Option<Option<(Rank, u32)>>
        ensures answer { result ≡ search_answer (device_state self.old.device) self.old.device.flight }
        ensures flight { self.new.device.flight ≡ drop 1 self.old.device.flight }
        ensures manager { self.new.manager ≡ self.old.manager }
        ensures others { IsSameButFlight self.old.device self.new.device }
    {
        self.device.search()
    }
}

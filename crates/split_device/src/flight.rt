// What is in flight: words and found slots, each a queue with room for all.
ghost use Rattle.std.specs.Prelude.{◌≡◌, ◌<◌, ◌≤◌, ◌+◌, ◌-◌, ◌++◌, ◌∷◌, [], length, drop, Some, None, IfOk, OnSome, slice_get};
ghost use Rattle.split_device.specs.Flight.{no_flight, flight_count};

use rule_model::{Key, Word};
use std::alloc::{AllocError, Global};
use std::marker::Model;
use tcam_device::MOST_IN_FLIGHT;

/// How much may be in flight, words or found slots.
const MOST: usize = MOST_IN_FLIGHT as usize;

/// The words with their keys, and the found slots with theirs, the oldest first.
#[derive(Drop)]
pub(crate) struct InFlight {
    words: Vec<(Key, Word)>,
    found: Vec<(Key, Option<u32>)>,
}

impl Model for InFlight {
    ghost use Rattle.std.specs.Prelude.{vec_capacity};
    ghost use Rattle.split_device.specs.Flight.{Flight};
    ghost use Rattle.split_device.specs.Memory.{HasFlightRoom};

    ghost Value = { Flight };

    ghost view = { λ f. record { words = f.words.items; found = f.found.items } };

    ghost invariant = { λ f. HasFlightRoom (record { words = f.words.items; found = f.found.items }) (vec_capacity f.words) (vec_capacity f.found) };
}

impl InFlight {
    /// Nothing in flight.
    pub(crate) fn new(alloc: Global) -> Result<InFlight, AllocError>
        ensures { IfOk result (λ flight. flight ≡ no_flight) }
    {
        Ok(InFlight {
            words: Vec::with_capacity(alloc, MOST)?,
            found: Vec::with_capacity(alloc, MOST)?,
        })
    }

    /// How many words and found slots there are.
    pub(crate) fn count(&self) -> u32
        ensures { result ≡ flight_count self.now }
    {
        self.words.len() as u32 + self.found.len() as u32
    }

    /// Puts a word behind the others.
    pub(crate) fn push(&mut self, key: Key, word: Word)
        requires { flight_count self.old < 256 }
        ensures { self.new ≡ record self.old { words = self.old.words ++ (key, word) ∷ [] } }
    {
        self.words.push_reserved((key, word));
    }

    /// Takes the oldest word.
    pub(crate) fn take_word(&mut self) -> Option<(Key, Word)>
        ensures word { result ≡ slice_get self.old.words 0 }
        ensures fits { OnSome result (flight_count self.new < 256) }
        ensures rest { self.new ≡ record self.old { words = drop 1 self.old.words } }
    {
        if self.words.is_empty() {
            return None;
        }
        Some(self.words.remove(0))
    }

    /// Puts a found slot behind the others.
    pub(crate) fn found(&mut self, key: Key, slot: Option<u32>)
        requires { flight_count self.old < 256 }
        ensures { self.new ≡ record self.old { found = self.old.found ++ (key, slot) ∷ [] } }
    {
        self.found.push_reserved((key, slot));
    }

    /// Takes the oldest found slot.
    pub(crate) fn take_found(&mut self) -> Option<(Key, Option<u32>)>
        ensures slot { result ≡ slice_get self.old.found 0 }
        ensures rest { self.new ≡ record self.old { found = drop 1 self.old.found } }
    {
        if self.found.is_empty() {
            return None;
        }
        Some(self.found.remove(0))
    }
}

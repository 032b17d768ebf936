//! All routes that the events tell of, by their prefixes.

ghost use Rattle.std.specs.Prelude.{◌≡◌, [], OnOk};
ghost use Rattle.ip_monitor.specs.Standings.{ranks_of, with_ranks};

use crate::ranks::Ranked;
use indexmap::IndexMap;
use rule_model::{Addr, Prefix};
use std::alloc::{AllocError, Global};
use std::marker::Model;

/// The routes of each prefix that came. Contracts see a list of them.
#[derive(Drop)]
pub(crate) struct Standings {
    // By address and length.
    routes: IndexMap<(Addr, u8), Vec<Ranked>>,
}

impl Model for Standings {
    ghost use Rattle.std.specs.Prelude.{List, map};
    ghost use Rattle.ip_monitor.specs.Standings.{Standing};

    ghost Value = { List Standing };

    ghost view = { λ s. map (λ e. record { block = record { addr = e.0.0; len = e.0.1 }; ranks = e.1.items }) s.routes.entries };
}

impl Standings {
    /// No route came yet. Takes no memory.
    pub(crate) fn new(alloc: Global) -> Standings
        ensures { result ≡ [] }
    {
        Standings {
            routes: IndexMap::new(alloc),
        }
    }

    /// The routes of a prefix.
    pub(crate) fn ranks_of(&self, prefix: Prefix) -> &[Ranked]
        ensures { result.now ≡ ranks_of prefix self.now }
    {
        match self.routes.get(&(prefix.addr(), prefix.len())) {
            Some(ranks) => ranks.as_slice(),
            None => &[],
        }
    }

    /// Puts these in their place. It fails for want of memory alone.
    pub(crate) fn set(&mut self, prefix: Prefix, ranks: Vec<Ranked>) -> Result<(), AllocError>
        ensures { OnOk result (self.new ≡ with_ranks prefix ranks.items self.old) }
    {
        self.routes.insert((prefix.addr(), prefix.len()), ranks)?;
        Ok(())
    }
}

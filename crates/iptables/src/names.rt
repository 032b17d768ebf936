//! The chains of a table, by their names: the first has the number 0, and so on.

ghost use Rattle.std.specs.Prelude.{◌≡◌, ◌++◌, ◌∷◌, [], None, OnOk};
ghost use Rattle.iptables.specs.Names.{name_number, names_with};

use indexmap::IndexSet;
use std::alloc::{AllocError, Global};
use std::marker::Model;

/// The names of chains, in the order of their numbers. One is found by its hash. Contracts see the list.
#[derive(Drop)]
pub(crate) struct Names {
    names: IndexSet<Vec<u8>>,
}

impl Model for Names {
    ghost use Rattle.std.specs.Prelude.{ℕ, List, map};

    ghost Value = { List (List ℕ) };

    ghost view = { λ n. map (λ name. name.items) n.names.keys };
}

impl Names {
    /// No chain is declared yet. Takes no memory.
    pub(crate) fn new(alloc: Global) -> Names
        ensures { result ≡ [] }
    {
        Names {
            names: IndexSet::new(alloc),
        }
    }

    /// The number of a chain, if it is declared.
    pub(crate) fn number_of(&self, name: &[u8]) -> Option<usize>
        ensures { result ≡ name_number self.now name.now }
    {
        self.names.get_index_of(name)
    }

    /// Gives a chain the next number, if it has none.
    pub(crate) fn declare(&mut self, alloc: Global, name: &[u8]) -> Result<(), AllocError>
        ensures { OnOk result (self.new ≡ names_with self.old name.now) }
    {
        match self.number_of(name) {
            Some(_) => Ok(()),
            None => self.add(alloc, name),
        }
    }

    /// Gives a chain that has no number the next one.
    fn add(&mut self, alloc: Global, name: &[u8]) -> Result<(), AllocError>
        requires new { None ≡ name_number self.old name.now }
        ensures { OnOk result (self.new ≡ self.old ++ name.now ∷ []) }
    {
        let bytes = Vec::from_slice(alloc, name)?;
        self.names.insert(bytes)?;
        Ok(())
    }
}

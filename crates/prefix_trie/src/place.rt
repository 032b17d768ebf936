//! A place, an id or a slot, or none, in 32 bits.
ghost use Rattle.std.specs.Prelude.{◌≡◌, ◌<◌, ◌-◌, ◌^◌, Some, None, IsTrue, ◌↔◌};
ghost use Rattle.prefix_trie.specs.Greatest.{greater};

use std::marker::Model;

/// A number below 2^32 - 1, or none.
#[derive(Clone, Copy, Debug)]
pub(crate) struct Place {
    // 0 for none, and otherwise the number and one, so that the greater of two is the greater code.
    code: u32,
}

impl Model for Place {
    ghost use Rattle.std.specs.Prelude.{ℕ, Option};
    ghost use Rattle.std.proofs.Common.{ap};
    ghost use Rattle.prefix_trie.specs.Place.{number_in, code_of, code-back};

    ghost Value = { Option ℕ };

    ghost view = { λ p. number_in p.code };

    ghost inverse = { λ v. record { code = code_of v } };

    ghost inverse_ok = { λ a h. ap (λ (n : ℕ). record { code = n }) (code-back a.code) };
}

impl Place {
    /// None.
    pub(crate) fn none() -> Place
        ensures { result ≡ None }
    {
        Place { code: 0 }
    }

    /// A number.
    pub(crate) fn some(number: u32) -> Place
        requires { number < 2 ^ 32 - 1 }
        ensures { result ≡ Some number }
    {
        Place { code: number + 1 }
    }

    /// The number, or None exactly where there is none.
    pub(crate) fn get(self) -> Option<u32>
        ensures { result ≡ self }
    {
        if self.code == 0 {
            None
        } else {
            Some(self.code - 1)
        }
    }

    /// The greater of two, or the one that there is.
    pub(crate) fn greater(self, other: Place) -> Place
        ensures { result ≡ greater self other }
    {
        Place {
            code: self.code.max(other.code),
        }
    }

    /// Whether both are one number, or none.
    pub(crate) fn same(self, other: Place) -> bool
        ensures { IsTrue result ↔ (self ≡ other) }
    {
        self.code == other.code
    }
}

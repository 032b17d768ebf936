//! Where entries stood, as only proofs know it.

ghost use Rattle.std.specs.Prelude.{◌≡◌};

use slot_pool::Arrangement;
use std::marker::Model;
use std::snapshot::Snapshot;

/// Where entries stand at a moment, or stood: it takes no memory, and nothing is read from it.
#[derive(Drop)]
pub(crate) struct Stood {
    at: Snapshot<Arrangement>,
}

impl Model for Stood {
    ghost use Rattle.slot_pool.specs.Arrangement.{Slots};

    ghost Value = { Slots };

    ghost view = { λ s. s.at.value };
}

impl Stood {
    /// Where they stand now.
    pub(crate) fn of(arrangement: &Arrangement) -> Stood
        ensures { result ≡ arrangement.now }
    {
        Stood {
            at: Snapshot::of(arrangement),
        }
    }

    /// Where they stood in an arrangement that is let go.
    pub(crate) fn of_gone(arrangement: Arrangement) -> Stood
        ensures { result ≡ arrangement }
    {
        Stood::of(&arrangement)
    }
}

//! What becomes of a commit that was taken.

ghost use Rattle.std.specs.Prelude.{◌≡◌};

/// How a commit that is turned goes on.
#[derive(Clone, Copy, Debug, PartialEq, Eq)]
pub(crate) enum Then {
    /// It is taken back.
    Back,
    /// Its manager is dropped, and another one goes on.
    Restart,
}

/// What becomes of the commit that is under way.
#[derive(Clone, Copy, Debug, PartialEq, Eq)]
pub(crate) enum Fate {
    /// It finishes.
    Finishes,
    /// It is turned right after so many writes, where it has more.
    Turns { after: u32, then: Then },
    /// It was turned behind so many writes.
    Turned { after: u32, then: Then },
}

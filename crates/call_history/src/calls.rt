// Which calls of an object are to fail, and how many were made.
ghost use Rattle.std.specs.Prelude.{◌≡◌, ◌↔◌, IsTrue};
ghost use Rattle.call_history.specs.Calls.{IsNextListed, with_call};

use std::marker::Model;

/// The numbers of the calls that are to fail. Calls are counted from 1, failed ones too, up to the last value of a u64,
/// and no call past that is listed.
#[derive(Drop)]
pub struct Calls<'a> {
    listed: &'a [u64],
    made: u64,
}

impl<'a> Model for Calls<'a> {
    ghost use Rattle.call_history.specs.Calls.{CallCount};

    ghost Value = { CallCount };

    ghost view = { λ c. record { listed = c.listed.now; made = c.made } };
}

impl<'a> Calls<'a> {
    /// No call was made yet.
    pub fn new(listed: &'a [u64]) -> Calls<'a>
        ensures { result ≡ record { listed = listed.entry.now; made = 0 } }
    {
        Calls { listed, made: 0 }
    }

    /// Counts a call, and tells whether it is one of those that are to fail.
    pub fn next_fails(&mut self) -> bool
        ensures fails { IsTrue result ↔ IsNextListed self.old }
        ensures counted { self.new ≡ with_call self.old }
    {
        if self.made == u64::MAX {
            return false;
        }
        self.made += 1;
        self.listed.contains(&self.made)
    }
}

// Where bytes come from.
ghost use Rattle.std.specs.Prelude.{◌≤◌, ◌<◌, ℕ, List, Option, length, IfOk};
ghost use Rattle.std.specs.Io.KnownBytes.{ReadConsumes};
ghost use Rattle.call_history.specs.Cause.{HasCause};
ghost use Rattle.script_lines.specs.Given.{Gives};

use crate::Failed;

/// Gives bytes, some at a time.
pub trait Source {
    /// The bytes still to come, where the source tells them: one over standard input foretells nothing.
    ghost left: { Self → Option (List ℕ) };

    /// What its reads gave so far, a piece for each read that answered Ok, the oldest first. Every source
    /// tells this, since it has only to remember. They are pieces and not bytes alone, since a piece of
    /// nothing is the end of the input, which the bytes alone don't show.
    ghost given: { Self → List (List ℕ) };

    /// How often a read has failed.
    ghost faults: { Self → ℕ };

    /// Puts bytes into the front of `into`, and answers how many: at most its length, and none of a
    /// buffer that isn't empty only at the end of the input. A failed read takes nothing from what is
    /// left and gives nothing; what it leaves in `into` means nothing. What a read into an empty buffer
    /// gives isn't said, since its piece of nothing would be no end.
    fn read(&mut self, into: &mut [u8]) -> Result<usize, Failed>
        ensures count { IfOk result (λ n. n ≤ length into.new) }
        ensures bytes { ReadConsumes (left self.old) (left self.new) result into.new }
        ensures given { 0 < length into.new → Gives (given self.old) (given self.new) result into.new }
        ensures cause { HasCause (faults self.old) (faults self.new) result };
}

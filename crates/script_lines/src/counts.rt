// Counts of failures.
ghost use Rattle.std.specs.Prelude.{◌≡◌, ◌≤◌};
ghost use Rattle.call_history.specs.Cause.{raised};

use crate::Failed;

/// Counts a failure, and answers it. A count at the end of its type stands still.
pub fn fail(count: &mut u64) -> Failed
    ensures counted { count.new ≡ raised count.old }
    ensures later { count.old ≤ count.new }
{
    *count = count.saturating_add(1);
    Failed
}

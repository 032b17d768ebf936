//! Laws as calls: each makes nothing, and its contract is the law.
ghost use Rattle.driver_trace.specs.Judged.{LeaksAreNotHitless};
ghost use Rattle.driver_trace.specs.Told.{NoIsALeak, YesIsHitlessByLines};

/// A line behind which a packet gets a wrong answer isn't hitless.
pub fn leaks_are_not_hitless()
    ensures { LeaksAreNotHitless }
{}

/// Where it is told that every write is hitless, the text was read to its end and is a trace, each line of which is.
pub fn yes_is_hitless_by_lines()
    ensures { YesIsHitlessByLines }
{}

/// Where a leak is told at a line, the lines before it are the first of a trace, each of them is hitless, and behind this
/// one that packet gets a wrong answer.
pub fn no_is_a_leak()
    ensures { NoIsALeak }
{}

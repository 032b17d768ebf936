// What packets see of commits on a device with split results: laws, in which there is nothing to run.
ghost use Rattle.split_writes.specs.Laws.{CommitsAreUnderWay, MakesSegments, PartsAreHitless, SeesOldOrNew, SeesOldOrNewOnTheWay};
ghost use Rattle.split_writes.specs.UnderWay.{GoesOnByDrains, GoesOnByEvents, GoesOnByWrites};

/// The parts of a commit's writes are hitless too.
pub fn parts_are_hitless()
    ensures { PartsAreHitless }
{}

/// What is made of a planned commit is a segment by parts, within the bound on insertions.
pub fn makes_segments()
    ensures { MakesSegments }
{}

/// While a commit's parts and drains are made in their order, each look-up of three events is one of its key at a moment
/// between its search and its read, and gets the old or the new set's answer, where those that waited before the commit
/// have seen no other set.
pub fn sees_old_or_new()
    ensures { SeesOldOrNew }
{}

/// Before its first part or drain a commit is under way.
pub fn commits_are_under_way()
    ensures { CommitsAreUnderWay }
{}

/// After a write it is so still.
pub fn goes_on_by_writes()
    ensures { GoesOnByWrites }
{}

/// After a drain too.
pub fn goes_on_by_drains()
    ensures { GoesOnByDrains }
{}

/// And after any events, with what is in flight then.
pub fn goes_on_by_events()
    ensures { GoesOnByEvents }
{}

/// From any point of a commit under way each look-up of three events is one of its key at a moment between its search and
/// its read, and gets the old or the new set's answer, where those that waited before have seen no other set.
pub fn sees_old_or_new_on_the_way()
    ensures { SeesOldOrNewOnTheWay }
{}

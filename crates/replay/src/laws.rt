//! Laws as calls without a body: what holds of a commit of routes, of one that crashed, and of one in two parts.

ghost use Rattle.replay.specs.Bounds.{RoutesAreWithinBound};
ghost use Rattle.replay.specs.Crash.{CrashedPartsAreOldOrNew};
ghost use Rattle.replay.specs.Early.{RestsAreTaken, TwoPartsAreOneCommit};

/// An insertion of a route takes no more writes than the bound for its chains of 33 gives.
pub fn routes_are_within_bound()
    ensures { RoutesAreWithinBound }
{}

/// After each write of a commit that crashed and was gone on with every key has the old or the new answer, and the new
/// one in the end.
pub fn crashed_parts_are_old_or_new()
    ensures { CrashedPartsAreOldOrNew }
{}

/// Of a commit in two parts the set takes the first and the set behind it the rest, and both lead where the whole would.
pub fn rests_are_taken()
    ensures { RestsAreTaken }
{}

/// To packets the two parts are one commit from the old set to the new one.
pub fn two_parts_are_one_commit()
    ensures { TwoPartsAreOneCommit }
{}

// What packets see of commits and of returns whose look-ups are two events, and what follows from what a commit keeps: laws,
// in which there is nothing to run.
ghost use Rattle.commit_writes.specs.Bounds.{TightIsWithin, WordsLeaveSlots};
ghost use Rattle.commit_writes.specs.InFlight.{AnswerAsLookUps, StayCurrent};
ghost use Rattle.commit_writes.specs.Segments.{CommitsServe, ReturnsServe, SeesOldOrNew, SeesOldOrNewBack, CommitsComeToRest, RestsOnWiderDevices, ReturnsAreHitless};
ghost use Rattle.commit_writes.specs.Undo.{PassesNoNewState, EndsWhereItBegan};

/// While the device serves the live ranges that the words in flight are current for, each search answers what an
/// undivided look-up of its key would answer in the state at that search, whatever stands between.
pub fn searches_answer_as_look_ups()
    ensures { AnswerAsLookUps }
{}

/// Behind all that the device serves the words in flight are current still.
pub fn words_stay_current()
    ensures { StayCurrent }
{}

/// A commit serves the live ranges before it, and from its drain on those that are live meanwhile.
pub fn commits_serve()
    ensures { CommitsServe }
{}

/// A commit that is taken back leads to the ranges that were live before it.
pub fn returns_serve()
    ensures { ReturnsServe }
{}

/// While a commit's writes and its drain are made in their order, look-ups of two events answer as undivided ones would
/// in the state at the search, and so by the old or the new set.
pub fn sees_old_or_new()
    ensures { SeesOldOrNew }
{}

/// The same while a commit is taken back.
pub fn sees_old_or_new_back()
    ensures { SeesOldOrNewBack }
{}

/// After a commit's last write the next one may begin, with the bits that are left.
pub fn commits_come_to_rest()
    ensures { CommitsComeToRest }
{}

/// Where a set is at rest in the slots in use, it is so on a device with more of them.
pub fn rests_on_wider_devices()
    ensures { RestsOnWiderDevices }
{}

/// While a commit is taken back each key has the old or the new set's answer after every write, and in the end the
/// device is as it was.
pub fn returns_are_hitless()
    ensures { ReturnsAreHitless }
{}

/// Each state of the second half of a return is one that its first half passed.
pub fn passes_no_new_state()
    ensures { PassesNoNewState }
{}

/// A return ends in the state that it began in.
pub fn ends_where_it_began()
    ensures { EndsWhereItBegan }
{}

/// Insertions within the bound that a commit keeps are within the greater one that holds where a move erases first, too.
pub fn tight_is_within()
    ensures { TightIsWithin }
{}

/// The words of a commit's new bits leave the slots as they are.
pub fn words_leave_slots()
    ensures { WordsLeaveSlots }
{}

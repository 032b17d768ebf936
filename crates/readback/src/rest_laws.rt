//! Laws as calls: each makes nothing, and its contract is the law.
ghost use Rattle.readback.specs.Ending.{PlannedRestartsLeadOn, PlannedRestartsComeToRest};
ghost use Rattle.readback.specs.Narrow.{StagesUseNoOtherSlots};
ghost use Rattle.readback.specs.PlannedRest.{PlannedRestsPassStages};
ghost use Rattle.readback.specs.Restart.{PlannedRestartsGoOn, PlannedRestartsAreCounted, PlannedRestartsCrossNothing};
ghost use Rattle.readback.specs.Serving.{StagesServe, PlannedRestartsServe, PlannedRestartsShowOldOrNew, StoppedCommitsAreCurrent, StoppedRestartsAreCurrent};
ghost use Rattle.readback.specs.Standing.{StagesHaveStandingIds};

/// Ids that are given to what the slots of a stage hold, once its twin is erased, are in order.
pub fn stages_have_standing_ids()
    ensures { StagesHaveStandingIds }
{}

/// From a stage without a twin the writes of a planned rest pass only stages, and end at one with no task left.
pub fn planned_rests_pass_stages()
    ensures { PlannedRestsPassStages }
{}

/// From a stage a planned restart goes on to the new set, hitless after every write and within the bounds.
pub fn planned_restarts_go_on()
    ensures { PlannedRestartsGoOn }
{}

/// The numbers of a planned restart are those of its plan.
pub fn planned_restarts_are_counted()
    ensures { PlannedRestartsAreCounted }
{}

/// Where all rules are routes, a planned restart crosses nothing.
pub fn planned_restarts_cross_nothing()
    ensures { PlannedRestartsCrossNothing }
{}

/// A planned restart leads to the ids of the new set's pieces, each with its entry, as they were arranged.
pub fn planned_restarts_lead_on()
    ensures { PlannedRestartsLeadOn }
{}

/// After a planned restart the next commit may begin.
pub fn planned_restarts_come_to_rest()
    ensures { PlannedRestartsComeToRest }
{}

/// A stage serves the ranges that words in flight are current for.
pub fn stages_serve()
    ensures { StagesServe }
{}

/// A planned restart serves them on, and from its drain on those that are live meanwhile.
pub fn planned_restarts_serve()
    ensures { PlannedRestartsServe }
{}

/// A stage holds nothing but what its slots in use hold.
pub fn stages_use_no_other_slots()
    ensures { StagesUseNoOtherSlots }
{}

/// So packets see the old or the new set's answer all through it.
pub fn planned_restarts_show_old_or_new()
    ensures { PlannedRestartsShowOldOrNew }
{}

/// Where a commit was stopped the words in flight are current for the ranges that the stage tells.
pub fn stopped_commits_are_current()
    ensures { StoppedCommitsAreCurrent }
{}

/// And so they are where a restart was stopped.
pub fn stopped_restarts_are_current()
    ensures { StoppedRestartsAreCurrent }
{}

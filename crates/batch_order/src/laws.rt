//! What follows of a manager from what its calls say of it.

ghost use Rattle.batch_order.specs.Laws.{CarryingEnds, CarryingTakesRules, JournalsGrow, StepsLeave, TurnsLeave, WaysBackGoBack};
ghost use Rattle.batch_order.specs.RestPlan.{PlansRest};
ghost use Rattle.batch_order.specs.Passed.{GoesBackThroughStates};
ghost use Rattle.batch_order.specs.Turning.{RevertsToTheOldState, StepsKeepTheWayBack, WritesLeaveCurrent};

/// A step of a commit that doesn't end it keeps the state that its undo writes lead to.
pub fn steps_keep_the_way_back()
    ensures { StepsKeepTheWayBack }
{}

/// On the way on a write leaves the ranges that words in flight are current for as they are.
pub fn writes_leave_current()
    ensures { WritesLeaveCurrent }
{}

/// Where a commit has been taken back the device holds what it held before, and rules and live ranges are the old ones.
pub fn reverts_to_the_old_state()
    ensures { RevertsToTheOldState }
{}

/// Going back passes no state that the commit didn't pass before.
pub fn goes_back_through_states()
    ensures { GoesBackThroughStates }
{}

/// All that is planned for what is left of a stage is a planned restart, and the plan's writes are those of it.
pub fn plans_of_rests_are_restarts()
    ensures { PlansRest }
{}

/// Whoever has a way back passes no state on it that the commit didn't pass before, and ends where it began.
pub fn ways_back_go_back()
    ensures { WaysBackGoBack }
{}

/// A step leaves the number of slots in use, a commit that goes forward, and room for what is left, one way and both ways.
pub fn steps_leave()
    ensures { StepsLeave }
{}

/// A commit that was planned for a batch and carried to its end has the rules behind that batch.
pub fn carrying_takes_rules()
    ensures { CarryingTakesRules }
{}

/// Where a commit was carried to its end, all of its actions are the device's last events, and its writes the journal's.
pub fn carrying_ends()
    ensures { CarryingEnds }
{}

/// The writes that were made of a device are the last of its journal.
pub fn journals_grow()
    ensures { JournalsGrow }
{}

/// Turning a commit round leaves state and slots, and room for the way back where there was room both ways.
pub fn turns_leave()
    ensures { TurnsLeave }
{}

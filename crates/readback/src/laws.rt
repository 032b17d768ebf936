//! Laws as calls: each makes nothing, and its contract is the law.
ghost use Rattle.readback.specs.Fault.{StagesHaveNoFault, OnlyStagesHaveNoFault};
ghost use Rattle.readback.specs.Laws.{StagesAnswerOldOrNew, LastStagesAnswerNew, SegmentsPassStages, ReturnsPassStages, RestsPassStages, OnePieceStandsTwice, TasksPartOnce};

/// A stage answers every key as the old set or as the new one.
pub fn stages_answer_old_or_new()
    ensures { StagesAnswerOldOrNew }
{}

/// A stage with no task left answers every key as the new set.
pub fn last_stages_answer_new()
    ensures { LastStagesAnswerNew }
{}

/// A segment that writes slots in use alone passes only stages.
pub fn segments_pass_stages()
    ensures { SegmentsPassStages }
{}

/// So does a segment that is taken back.
pub fn returns_pass_stages()
    ensures { ReturnsPassStages }
{}

/// The writes that go on from a stage, with insertions that keep the order, pass only stages, and end at one with no
/// task left.
pub fn rests_pass_stages()
    ensures { RestsPassStages }
{}

/// A stage of the set's own bits is refused for nothing but want of memory.
pub fn stages_have_no_fault()
    ensures { StagesHaveNoFault }
{}

/// Where at most one slot is a twin, at most one piece stands in two slots, and none in three.
pub fn one_piece_stands_twice()
    ensures { OnePieceStandsTwice }
{}

/// A state tells how many tasks are done.
pub fn tasks_part_once()
    ensures { TasksPartOnce }
{}

/// Where no fault but want of memory applies, the state is a stage: so a fault comes wherever it is none.
pub fn only_stages_have_no_fault()
    ensures { OnlyStagesHaveNoFault }
{}

//! Laws as calls: each makes nothing, and its contract is the law. They say for which cubes a judgement is enough.
ghost use Rattle.write_judge.specs.Events.{EndsAreJudgedByCubes, SlotsAreJudgedByCubes, TablesAreJudgedByCubes};

/// Behind changed slots, the cubes of the entries that go and come are enough.
pub fn slots_are_judged_by_cubes()
    ensures { SlotsAreJudgedByCubes }
{}

/// Behind a write of a table's word, a cube of the port is.
pub fn tables_are_judged_by_cubes()
    ensures { TablesAreJudgedByCubes }
{}

/// Behind the end of a commit, the cubes of changed rules are.
pub fn ends_are_judged_by_cubes()
    ensures { EndsAreJudgedByCubes }
{}

//! Laws as calls: each makes nothing, and its contract is the law.
ghost use Rattle.trace_check.specs.Places.{PlacesAreExact};
ghost use Rattle.trace_check.specs.Hitless.{OrderlyTracesAreHitless, TracesAreCommits};
ghost use Rattle.trace_check.specs.Answers.{AnswersAreOne, YesIsOrderly, YesIsHitless, OrderlyTracesGetYes};
ghost use Rattle.trace_check.specs.Segments.{SegmentsAreOrderly};
ghost use Rattle.trace_check.specs.Checked.{TakenTracesAreHitless, OrderlyTracesAreTaken};
ghost use Rattle.trace_check.specs.Local.{SlotWritesAreLocal, TableWritesAreLocal};

/// A line may stand at its place exactly where some whole trace goes on so.
pub fn places_are_exact()
    ensures { PlacesAreExact }
{}

/// The commits of a trace follow one another, and every write of it is one of theirs.
pub fn traces_are_commits()
    ensures { TracesAreCommits }
{}

/// Every write of an orderly trace is hitless for every key.
pub fn orderly_traces_are_hitless()
    ensures { OrderlyTracesAreHitless }
{}

/// A text of which yes is told is an orderly trace, with so many commits and writes.
pub fn yes_is_orderly()
    ensures { YesIsOrderly }
{}

/// A text of which yes is told is a trace of hitless writes.
pub fn yes_is_hitless()
    ensures { YesIsHitless }
{}

/// No two answers are told of one text.
pub fn answers_are_one()
    ensures { AnswersAreOne }
{}

/// An orderly trace gets yes.
pub fn orderly_traces_get_yes()
    ensures { OrderlyTracesGetYes }
{}

/// The lines of an accepted commit keep the order of a trace, by covers and by bits.
pub fn segments_are_orderly()
    ensures { SegmentsAreOrderly }
{}

/// A write of a slot leads from a stage to a stage exactly where it is right at that slot.
pub fn slot_writes_are_local()
    ensures { SlotWritesAreLocal }
{}

/// A write of a table's word does, before a piece was inserted, exactly where the word has the old bits right.
pub fn table_writes_are_local()
    ensures { TableWritesAreLocal }
{}

/// Lines that are all taken, to the last one, are an orderly trace, and each commit of it is hitless for every key.
pub fn taken_traces_are_hitless()
    ensures { TakenTracesAreHitless }
{}

/// No line of an orderly trace is refused but for want of memory.
pub fn orderly_traces_are_taken()
    ensures { OrderlyTracesAreTaken }
{}

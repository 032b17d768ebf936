//! Laws as calls: each makes nothing, and its contract is the law.
ghost use Rattle.trace_lookups.specs.LookUps.{OrderlyTracesAnswerAsLookUps, OrderlyTracesServe, OrderlyTracesServeLookUps, TakenTracesServeLookUps};

/// Over an orderly trace, or the first lines of one, each look-up of two events has the answer of the set before the commit
/// under way at its search, or of the set after it.
pub fn orderly_traces_serve_look_ups()
    ensures { OrderlyTracesServeLookUps }
{}

/// So it has over lines that a checker took.
pub fn taken_traces_serve_look_ups()
    ensures { TakenTracesServeLookUps }
{}

/// The writes and drains of an orderly trace, or of its first lines, serve live ranges all the way.
pub fn orderly_traces_serve()
    ensures { OrderlyTracesServe }
{}

/// While they are made, each search of a word in flight answers as an undivided look-up of its key would at that moment,
/// and so with the old or the new set's answer.
pub fn orderly_traces_answer_as_look_ups()
    ensures { OrderlyTracesAnswerAsLookUps }
{}

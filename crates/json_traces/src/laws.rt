//! Laws as calls: each makes nothing, and its contract is the law.
ghost use Rattle.json_traces.specs.OnDevices.{SegmentsAreOrderlyOnDevices};
ghost use Rattle.json_traces.specs.Traces.{JsonRunsAreOrderly};
ghost use Rattle.json_traces.specs.Reported.{OrderlyReportsGetYes};
ghost use Rattle.json_traces.specs.Promised.{JsonReportsGetYes};

/// The lines of a commit keep the order in the slots in use where the device has more of them.
pub fn segments_are_orderly_on_devices()
    ensures { SegmentsAreOrderlyOnDevices }
{}

/// The report in JSON of acts that were all carried out is an orderly trace, whose writes are the device's.
pub fn json_runs_are_orderly()
    ensures { JsonRunsAreOrderly }
{}

/// A report that is an orderly trace gets yes.
pub fn orderly_reports_get_yes()
    ensures { OrderlyReportsGetYes }
{}

/// What the top call reported in JSON gets yes, where the script was carried out to its end or to the fault of a line.
pub fn json_reports_get_yes()
    ensures { JsonReportsGetYes }
{}

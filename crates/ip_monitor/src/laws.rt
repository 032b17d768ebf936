//! A law as a call: it makes nothing, and its contract is the law.

ghost use Rattle.ip_monitor.specs.Laws.{LeastCounts};

/// A prefix is answered its route of least metric of those that stand by the events; an event gives its own prefix the
/// answer that it writes, and leaves all others theirs.
pub fn least_metrics_count()
    ensures { LeastCounts }
{}

//! The routes of one prefix, by their metrics.

ghost use Rattle.std.specs.Prelude.{◌≡◌, ◌==◌, ◌++◌, ◌∷◌, [], IfOk, OnOk};
ghost use Rattle.ip_monitor.specs.Ranks.{least_of, lesser, number_at, others};

use std::alloc::{AllocError, Global};

/// A route of a prefix: its metric, and the number of its next hop.
#[derive(Clone, Copy, Debug, PartialEq, Eq)]
pub(crate) struct Ranked {
    pub(crate) metric: u32,
    pub(crate) number: usize,
}

impl Ranked {
    /// Whether it has this metric.
    fn is_at(&self, metric: u32) -> bool
        ensures { result ≡ (self.now.metric == metric) }
    {
        self.metric == metric
    }
}

/// The number of the route of this metric, if there is one.
pub(crate) fn number_at(ranks: &[Ranked], metric: u32) -> Option<usize>
    ensures { result ≡ number_at metric ranks.now }
{
    for rank in ranks {
        if rank.is_at(metric) {
            return Some(rank.number);
        }
    }
    None
}

/// The routes of other metrics than this one.
pub(crate) fn others(
    alloc: Global,
    ranks: &[Ranked],
    metric: u32,
) -> Result<Vec<Ranked>, AllocError>
    ensures { IfOk result (λ kept. kept.items ≡ others metric ranks.now) }
{
    let mut kept = Vec::new(alloc);
    for rank in ranks {
        put_other(&mut kept, *rank, metric)?;
    }
    Ok(kept)
}

/// Puts a route behind others, if it is of another metric than this one.
fn put_other(kept: &mut Vec<Ranked>, rank: Ranked, metric: u32) -> Result<(), AllocError>
    ensures { OnOk result (kept.new.items ≡ kept.old.items ++ others metric (rank ∷ [])) }
{
    if rank.is_at(metric) {
        return Ok(());
    }
    kept.push(rank)?;
    Ok(())
}

/// The route of least metric, the first of equals.
pub(crate) fn least_of(ranks: &[Ranked]) -> Option<Ranked>
    ensures { result ≡ least_of ranks.now }
{
    let (first, behind) = match ranks.split_first() {
        Some(found) => found,
        None => return None,
    };
    let mut least = *first;
    for rank in behind {
        least = lesser(least, *rank);
    }
    Some(least)
}

/// The one of lesser metric, the first of equals.
fn lesser(first: Ranked, second: Ranked) -> Ranked
    ensures { result ≡ lesser first second }
{
    if second.metric < first.metric {
        return second;
    }
    first
}

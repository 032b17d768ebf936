//! The format: a line is told by what is known of those before it.

ghost use Rattle.std.specs.Prelude.{◌≡◌, ◌++◌, [], Some, None, IfOk, OnOk, if◌then◌else◌};
ghost use Rattle.rule_model.specs.AddressBlock.{same_block};
ghost use Rattle.import_lines.specs.Import.{IsTold};
ghost use Rattle.ip_routes.specs.Words.{gap_words};
ghost use Rattle.ip_routes.specs.Reading.{first_reading, read_words};
ghost use Rattle.ip_routes.specs.Telling.{added, after_behind, after_of, behind_of, by_metric, known_with, no_less, route_after, route_closed, route_told, told_behind, told_of};

use crate::attributes::Why;
use crate::hops::{Hops, number_way};
use crate::reading::Reading;
use crate::telling::{put_kept, put_route, put_why};
use crate::words::first_word;
use import_lines::{LineFormat, Told};
use rule_model::{IpVersion, Prefix};
use std::alloc::{AllocError, Global};
use std::marker::Model;

/// A route that is said: its prefix and its metric.
#[derive(Clone, Copy, Debug, PartialEq, Eq)]
struct SaidRoute {
    prefix: Prefix,
    metric: u32,
}

/// What a route is behind the one that was said last.
#[derive(Clone, Copy, Debug, PartialEq, Eq)]
enum Behind {
    /// The first of its prefix.
    New,
    /// Another one of the same prefix, which doesn't count.
    Kept,
    /// One that isn't said.
    Unsaid(Why),
}

/// What a route is behind one of the same prefix and of this metric.
fn by_metric(version: IpVersion, last: u32, metric: u32) -> Behind
    ensures { result ≡ by_metric version last metric }
{
    if metric < last {
        return Behind::Unsaid(Why::Order);
    }
    no_less(version, last, metric)
}

/// The same where its metric is no less. In IPv6 the neighbour that is reached counts of two that have the same one.
fn no_less(version: IpVersion, last: u32, metric: u32) -> Behind
    ensures { result ≡ no_less version last metric }
{
    match version {
        IpVersion::V4 => Behind::Kept,
        IpVersion::V6 => by_neighbour(metric == last),
    }
}

/// The same in IPv6, by whether the metrics are the same.
fn by_neighbour(same: bool) -> Behind
    ensures { result ≡ (if same then Behind.Unsaid Why.Equal else Behind.Kept) }
{
    if same {
        return Behind::Unsaid(Why::Equal);
    }
    Behind::Kept
}

/// Whether two prefixes are the same.
fn is_same(a: &Prefix, b: &Prefix) -> bool
    ensures { result ≡ same_block a.now b.now }
{
    a.addr() == b.addr() && a.len() == b.len()
}

/// What a route is behind this one.
fn behind_said(version: IpVersion, last: &SaidRoute, route: &Reading) -> Behind
    ensures { result ≡ behind_of version (Some last.now) route.now }
{
    if is_same(&last.prefix, &route.prefix()) {
        return by_metric(version, last.metric, route.metric());
    }
    Behind::New
}

/// Routes as `ip -o route show` prints them, of one version of IP.
#[derive(Drop)]
pub struct IpRoutes {
    version: IpVersion,
    // The next hops that have a number, the first of them 1.
    hops: Hops,
    // The route that was said last.
    last: Option<SaidRoute>,
}

impl Model for IpRoutes {
    ghost use Rattle.ip_routes.specs.Telling.{Known};

    ghost Value = { Known };

    ghost view = { λ f. record { version = f.version; hops = f.hops; last = f.last } };
}

impl IpRoutes {
    /// No line is read yet. Takes no memory.
    pub fn new(alloc: Global, version: IpVersion) -> IpRoutes
        ensures { result ≡ record { version = version; hops = []; last = None } }
    {
        IpRoutes {
            version,
            hops: Hops::new(alloc),
            last: None,
        }
    }

    /// Tells a line that has a word.
    fn take_words(
        &mut self,
        alloc: Global,
        text: &[u8],
        into: &mut Vec<u8>,
    ) -> Result<Told, AllocError>
        requires { into.old.items ≡ [] }
        ensures told { IfOk result (λ answer. IsTold answer into.new.items (told_of self.old (read_words self.old.version first_reading [] (gap_words text.now)))) }
        ensures said { IfOk result (λ answer. answer ≡ Told.Said → self.new ≡ after_of self.old (read_words self.old.version first_reading [] (gap_words text.now))) }
        ensures unsaid { IfOk result (λ answer. answer ≡ Told.Unsaid → self.new ≡ self.old) }
    {
        let mut route = Reading::new(false);
        match route.read(text, self.version()) {
            Ok(()) => self.tell(alloc, &route, into),
            Err(unsaid) => {
                put_why(into, unsaid.0, unsaid.1)?;
                Ok(Told::Unsaid)
            }
        }
    }

    /// Tells a line that was read.
    fn tell(
        &mut self,
        alloc: Global,
        route: &Reading,
        into: &mut Vec<u8>,
    ) -> Result<Told, AllocError>
        requires { into.old.items ≡ [] }
        ensures told { IfOk result (λ answer. IsTold answer into.new.items (told_behind self.old route.now (behind_of self.old.version self.old.last route.now))) }
        ensures said { IfOk result (λ answer. answer ≡ Told.Said → self.new ≡ after_behind self.old route.now (behind_of self.old.version self.old.last route.now)) }
        ensures unsaid { IfOk result (λ answer. answer ≡ Told.Unsaid → self.new ≡ self.old) }
    {
        match self.behind(route) {
            Behind::New => {
                self.add(alloc, route, into)?;
                Ok(Told::Said)
            }
            Behind::Kept => {
                put_kept(into, route)?;
                Ok(Told::Said)
            }
            Behind::Unsaid(why) => {
                put_why(into, why, route.text())?;
                Ok(Told::Unsaid)
            }
        }
    }

    /// The version of IP.
    fn version(&self) -> IpVersion
        ensures { result ≡ self.now.version }
    {
        self.version
    }

    /// The route that was said last.
    fn last(&self) -> Option<SaidRoute>
        ensures { result ≡ self.now.last }
    {
        self.last
    }

    /// What a route is behind the one that was said last.
    fn behind(&self, route: &Reading) -> Behind
        ensures { result ≡ behind_of self.now.version self.now.last route.now }
    {
        match self.last() {
            None => Behind::New,
            Some(last) => behind_said(self.version(), &last, route),
        }
    }

    /// Adds a route, and a number before it where its next hop has none.
    fn add(&mut self, alloc: Global, route: &Reading, into: &mut Vec<u8>) -> Result<(), AllocError>
        ensures added { OnOk result (into.new.items ≡ into.old.items ++ added self.old route.now) }
        ensures known { OnOk result (self.new ≡ known_with self.old route.now) }
    {
        let number = number_way(alloc, &mut self.hops, route.way(), into)?;
        put_route(into, route.text(), number)?;
        self.last = Some(SaidRoute {
            prefix: route.prefix(),
            metric: route.metric(),
        });
        Ok(())
    }
}

impl LineFormat for IpRoutes {
    ghost told = { route_told };

    ghost behind = { route_after };

    ghost closing = { route_closed };

    fn take(&mut self, alloc: Global, text: &[u8], into: &mut Vec<u8>) -> Result<Told, AllocError> {
        match first_word(text) {
            None => Ok(Told::Said),
            Some(_) => self.take_words(alloc, text, into),
        }
    }

    fn close(&self, _alloc: Global, into: &mut Vec<u8>) -> Result<Told, AllocError> {
        into.extend_from_slice(b"commit\n")?;
        Ok(Told::Said)
    }
}

//! The format: an event is told by the routes of its prefix that stand before it.

ghost use Rattle.std.specs.Prelude.{◌≡◌, ◌++◌, ◌&&◌, ◌||◌, [], IfOk, OnOk};
ghost use Rattle.import_lines.specs.Import.{IsTold};
ghost use Rattle.ip_routes.specs.Words.{gap_words};
ghost use Rattle.ip_routes.specs.Reading.{read_words, reading_of};
ghost use Rattle.ip_monitor.specs.Events.{is_advertised};
ghost use Rattle.ip_monitor.specs.Telling.{changed_text, clashes, comment_of, event_after, event_told, hops_after, is_other, known_after, monitor_after, monitor_closing, monitor_told, rank_of, read_after, read_told, route_told, why_unclear};

use crate::events::{is_advertised, passed_of};
use crate::ranks::{Ranked, least_of, number_at, others};
use crate::standings::Standings;
use crate::telling::{put_answer, put_passed};
use import_lines::{LineFormat, Told};
use ip_routes::{Hops, Reading, Why, first_word, is_named, number_way, put_why};
use rule_model::IpVersion;
use std::alloc::{AllocError, Global};
use std::marker::Model;

/// Events as `ip -o monitor route` prints them, told for one version of IP.
#[derive(Drop)]
pub struct IpMonitor {
    version: IpVersion,
    // The next hops that have a number, the first of them 1.
    hops: Hops,
    // The routes that stand by the events so far.
    standings: Standings,
}

impl Model for IpMonitor {
    ghost use Rattle.ip_monitor.specs.Telling.{Known};

    ghost Value = { Known };

    ghost view = { λ f. record { version = f.version; hops = f.hops; standings = f.standings } };
}

/// Whether a route that is known, if there is one, has another number than this one, if there is one.
fn is_other(known: Option<usize>, number: Option<usize>) -> bool
    ensures { result ≡ is_other known number }
{
    match known {
        None => false,
        Some(known) => match number {
            None => true,
            Some(number) => known != number,
        },
    }
}

/// Why an event isn't said whose route clashes with the one that is known.
fn why_unclear(gone: bool) -> Why
    ensures { result ≡ why_unclear gone }
{
    if gone {
        return Why::OtherHop;
    }
    Why::Equal
}

impl IpMonitor {
    /// No event is read yet. Takes no memory.
    pub fn new(alloc: Global, version: IpVersion) -> IpMonitor
        ensures { result ≡ record { version = version; hops = []; standings = [] } }
    {
        IpMonitor {
            version,
            hops: Hops::new(alloc),
            standings: Standings::new(alloc),
        }
    }

    /// The version of IP.
    fn version(&self) -> IpVersion
        ensures { result ≡ self.now.version }
    {
        self.version
    }

    /// Tells an event, of a route that goes or of one that stands.
    fn take_event(
        &mut self,
        alloc: Global,
        gone: bool,
        text: &[u8],
        into: &mut Vec<u8>,
    ) -> Result<Told, AllocError>
        requires { into.old.items ≡ [] }
        ensures told { IfOk result (λ answer. IsTold answer into.new.items (event_told self.old gone (gap_words text.now))) }
        ensures said { IfOk result (λ answer. answer ≡ Told.Said → self.new ≡ event_after self.old gone (gap_words text.now)) }
        ensures unsaid { IfOk result (λ answer. answer ≡ Told.Unsaid → self.new ≡ self.old) }
    {
        match passed_of(self.version(), text) {
            Some((passed, word)) => {
                put_passed(into, passed, word)?;
                Ok(Told::Said)
            }
            None => self.read_event(alloc, gone, text, into),
        }
    }

    /// Reads an event of this table, and tells it.
    fn read_event(
        &mut self,
        alloc: Global,
        gone: bool,
        text: &[u8],
        into: &mut Vec<u8>,
    ) -> Result<Told, AllocError>
        requires { into.old.items ≡ [] }
        ensures told { IfOk result (λ answer. IsTold answer into.new.items
            (read_told self.old gone (is_advertised (gap_words text.now)) (read_words self.old.version (reading_of gone) [] (gap_words text.now)))) }
        ensures said { IfOk result (λ answer. answer ≡ Told.Said
            → self.new ≡ read_after self.old gone (read_words self.old.version (reading_of gone) [] (gap_words text.now))) }
        ensures unsaid { IfOk result (λ answer. answer ≡ Told.Unsaid → self.new ≡ self.old) }
    {
        let mut route = Reading::new(gone);
        match route.read(text, self.version()) {
            Ok(()) => self.tell(alloc, gone, is_advertised(text), &route, into),
            Err(unsaid) => {
                put_why(into, unsaid.0, unsaid.1)?;
                Ok(Told::Unsaid)
            }
        }
    }

    /// Tells an event that was read.
    fn tell(
        &mut self,
        alloc: Global,
        gone: bool,
        advertised: bool,
        route: &Reading,
        into: &mut Vec<u8>,
    ) -> Result<Told, AllocError>
        requires { into.old.items ≡ [] }
        ensures told { IfOk result (λ answer. IsTold answer into.new.items (route_told self.old gone advertised route.now)) }
        ensures said { IfOk result (λ answer. answer ≡ Told.Said → self.new ≡ known_after self.old gone route.now) }
        ensures unsaid { IfOk result (λ answer. answer ≡ Told.Unsaid → self.new ≡ self.old) }
    {
        if self.is_unclear(gone, advertised, route) {
            put_why(into, why_unclear(gone), route.text())?;
            return Ok(Told::Unsaid);
        }
        self.change(alloc, gone, route, into)?;
        Ok(Told::Said)
    }

    /// Whether it can't be told what an event leaves.
    fn is_unclear(&self, gone: bool, advertised: bool, route: &Reading) -> bool
        ensures { result ≡ ((gone || advertised) && clashes self.now route.now) }
    {
        (gone || advertised) && self.clashes(route)
    }

    /// Whether the route of the same prefix and metric that is known has another next hop.
    fn clashes(&self, route: &Reading) -> bool
        ensures { result ≡ clashes self.now route.now }
    {
        let known = number_at(self.standings.ranks_of(route.prefix()), route.metric());
        is_other(known, self.hops.number_of(route.way()))
    }

    /// Makes the change that an event tells of.
    fn change(
        &mut self,
        alloc: Global,
        gone: bool,
        route: &Reading,
        into: &mut Vec<u8>,
    ) -> Result<(), AllocError>
        ensures changed { OnOk result (into.new.items ≡ into.old.items ++ changed_text self.old gone route.now) }
        ensures known { OnOk result (self.new ≡ known_after self.old gone route.now) }
    {
        let mut ranks = others(
            alloc,
            self.standings.ranks_of(route.prefix()),
            route.metric(),
        )?;
        add_rank(alloc, &mut self.hops, gone, route, &mut ranks, into)?;
        put_answer(into, route.text(), least_of(ranks.as_slice()))?;
        self.standings.set(route.prefix(), ranks)?;
        Ok(())
    }
}

/// Puts a route that stands behind those of other metrics, and a number before it where its next hop has none.
fn add_rank(
    alloc: Global,
    hops: &mut Hops,
    gone: bool,
    route: &Reading,
    ranks: &mut Vec<Ranked>,
    into: &mut Vec<u8>,
) -> Result<(), AllocError>
    ensures ranks { OnOk result (ranks.new.items ≡ ranks.old.items ++ rank_of hops.old gone route.now) }
    ensures hops { OnOk result (hops.new ≡ hops_after hops.old gone route.now) }
    ensures comment { OnOk result (into.new.items ≡ into.old.items ++ comment_of hops.old gone route.now) }
{
    if gone {
        return Ok(());
    }
    let number = number_way(alloc, hops, route.way(), into)?;
    ranks.push(Ranked {
        metric: route.metric(),
        number,
    })?;
    Ok(())
}

impl LineFormat for IpMonitor {
    ghost told = { monitor_told };

    ghost behind = { monitor_after };

    ghost closing = { monitor_closing };

    fn take(&mut self, alloc: Global, text: &[u8], into: &mut Vec<u8>) -> Result<Told, AllocError> {
        match first_word(text) {
            None => Ok(Told::Said),
            Some((word, behind)) => {
                if is_named(word, b"Deleted") {
                    return self.take_event(alloc, true, behind, into);
                }
                self.take_event(alloc, false, text, into)
            }
        }
    }

    fn close(&self, _alloc: Global, _into: &mut Vec<u8>) -> Result<Told, AllocError> {
        Ok(Told::Said)
    }
}

//! An entry of a list, by its words.

ghost use Rattle.std.specs.Prelude.{◌≡◌, ◌≤◌, length};
ghost use Rattle.cisco_lists.specs.Entries.{end_at, entry_at, is_any, is_log, logs_at, permits_at, protocol_at};
ghost use Rattle.cisco_lists.specs.Walk.{taken};

use crate::cursor::Cursor;
use crate::names::protocol_number;
use crate::ports::{Span, ports};
use crate::sides::side;
use crate::why::{Why, why_of};
use arrayvec::ArrayVec;
use ip_routes::is_named;
use rule_model::Prefix;
use std::marker::Model;

/// What an entry says: whether it permits, its protocol, or none for any, its sides and their ports, and whether packets are
/// logged.
#[derive(Drop)]
pub(crate) struct Entry {
    pub(crate) permits: bool,
    pub(crate) protocol: Option<u8>,
    pub(crate) src: Prefix,
    pub(crate) dst: Prefix,
    pub(crate) sports: ArrayVec<Span, 10>,
    pub(crate) dports: ArrayVec<Span, 10>,
    pub(crate) logs: bool,
}

impl Model for Entry {
    ghost use Rattle.cisco_lists.specs.Entries.{EntryRead};

    ghost Value = { EntryRead };

    ghost view = { λ e. record { permits = e.permits; protocol = e.protocol; src = e.src; dst = e.dst; sports = e.sports.items; dports = e.dports.items; logs = e.logs } };
}

impl Entry {
    /// The ranges of its source ports.
    pub(crate) fn source_ports(&self) -> &[Span]
        ensures value { result.now ≡ self.now.sports }
        ensures few { length result.now ≤ 10 }
    {
        self.sports.as_slice()
    }

    /// Those of its destination ports.
    pub(crate) fn destination_ports(&self) -> &[Span]
        ensures value { result.now ≡ self.now.dports }
        ensures few { length result.now ≤ 10 }
    {
        self.dports.as_slice()
    }

    /// Whether its packets are logged.
    pub(crate) fn is_logged(&self) -> bool
        ensures { result ≡ self.now.logs }
    {
        self.logs
    }
}

/// The entry that the next words are.
pub(crate) fn read_entry(at: &mut Cursor<'_>) -> Entry
    ensures { taken result at.new ≡ entry_at at.old }
{
    let permits = permits(at);
    let protocol = protocol(at);
    let src = side(at);
    let sports = ports(at, protocol);
    let dst = side(at);
    let dports = ports(at, protocol);
    let logs = logs(at, protocol);
    Entry {
        permits,
        protocol,
        src,
        dst,
        sports,
        dports,
        logs,
    }
}

/// Whether it permits.
fn permits(at: &mut Cursor<'_>) -> bool
    ensures { taken result at.new ≡ permits_at at.old }
{
    let word = at.next();
    if is_named(word, b"permit") {
        return true;
    }
    if is_named(word, b"deny") {
        return false;
    }
    at.fail(Why::Word);
    false
}

/// Its protocol: none where it holds for each.
fn protocol(at: &mut Cursor<'_>) -> Option<u8>
    ensures { taken result at.new ≡ protocol_at at.old }
{
    let word = at.next();
    if is_any(word) {
        return None;
    }
    match protocol_number(word) {
        Some(number) => Some(number),
        None => {
            at.fail(Why::Protocol);
            None
        }
    }
}

/// Whether a word is each protocol: both systems take 0 for `ip`.
fn is_any(word: &[u8]) -> bool
    ensures { result ≡ is_any word.now }
{
    is_named(word, b"ip") || is_named(word, b"0")
}

/// Whether packets are logged, which the last word says. There has to be no other one.
fn logs(at: &mut Cursor<'_>, protocol: Option<u8>) -> bool
    ensures { taken result at.new ≡ logs_at protocol at.old }
{
    let word = at.next();
    if word.is_empty() {
        return false;
    }
    if is_log(word) {
        end(at);
        return true;
    }
    at.fail(why_of(protocol, word));
    false
}

/// Whether a word says that packets are logged.
fn is_log(word: &[u8]) -> bool
    ensures { result ≡ is_log word.now }
{
    is_named(word, b"log") || is_named(word, b"log-input")
}

/// No word is left.
fn end(at: &mut Cursor<'_>)
    ensures { at.new ≡ end_at at.old }
{
    let word = at.next();
    if !word.is_empty() {
        at.fail(Why::Word);
    }
}

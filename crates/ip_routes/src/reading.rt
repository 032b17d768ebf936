//! A line, word by word.

ghost use Rattle.std.specs.Prelude.{◌≡◌, ◌+◌, ◌++◌, ◌==◌, [], Ok, Err, nat_le, length, IsTrue, MatchResult};
ghost use Rattle.line_words.specs.Kinds.{result_of};
ghost use Rattle.ip_routes.specs.Words.{attribute_in, gap_words};
ghost use Rattle.line_words.specs.Notations.{notation_for};
ghost use Rattle.ip_routes.specs.Reading.{behind_part, behind_via, end_as, every_address, expecting, has_slash, hop_of, missing_length, prefix_text, put_bytes, put_hop, read_address, read_as, read_first, read_hop_value, read_metric, read_prefix, read_words, reading_of, said_or, step, way_of, whole_length, with_block};

use crate::attributes::{
    Attribute, RouteKind, Why, attribute_in, is_another_kind, is_family, is_named, kind_of, why_of,
};
use crate::words::first_word;
use arrayvec::ArrayVec;
use line_words::{prefix_of, result_of};
use rule_model::{IpVersion, Prefix};
use std::marker::Model;

/// The most bytes of a next hop that is said.
const HOP_BYTES: usize = 400;

/// More bytes than the text of a prefix has that is said: an address of IPv6, a slash and a length have at most 43.
const PREFIX_BYTES: usize = 64;

/// What the next word of a line is to be.
#[derive(Clone, Copy, Debug, PartialEq, Eq)]
pub(crate) enum Expects {
    /// A kind of route, or the prefix.
    Kind,
    /// The prefix.
    Prefix,
    /// One that says what it is.
    Attribute,
    /// What stands behind `via`: an address, or the version of IP of one that comes next.
    Address,
    /// A part of the next hop.
    HopValue,
    /// A word without a part in the answer.
    Skipped,
    /// A metric.
    Metric,
}

/// What the words of a line have said so far.
#[derive(Drop)]
pub struct Reading {
    // Whether the route goes.
    gone: bool,
    expects: Expects,
    kind: RouteKind,
    prefix: Prefix,
    // The prefix as a script has it.
    text: ArrayVec<u8, PREFIX_BYTES>,
    metric: u32,
    // The next hop's words, with a space between two.
    hop: ArrayVec<u8, HOP_BYTES>,
}

impl Model for Reading {
    ghost use Rattle.ip_routes.specs.Reading.{RouteReading};

    ghost Value = { RouteReading };

    ghost view = { λ r. record { gone = r.gone; expects = r.expects; kind = r.kind; block = r.prefix; text = r.text.items; metric = r.metric; hop = r.hop.items } };
}

impl Reading {
    /// Nothing is said yet, of a route that goes or of one that stands.
    pub fn new(gone: bool) -> Reading
        ensures { result ≡ reading_of gone }
    {
        Reading {
            gone,
            expects: Expects::Kind,
            kind: RouteKind::Unicast,
            prefix: Prefix::any(),
            text: ArrayVec::new(),
            metric: 0,
            hop: ArrayVec::new(),
        }
    }

    /// Whether the route goes.
    fn gone(&self) -> bool
        ensures { result ≡ self.now.gone }
    {
        self.gone
    }

    /// What the next word is to be.
    fn expects(&self) -> Expects
        ensures { result ≡ self.now.expects }
    {
        self.expects
    }

    /// The kind of route.
    fn kind(&self) -> RouteKind
        ensures { result ≡ self.now.kind }
    {
        self.kind
    }

    /// The prefix of the route.
    pub fn prefix(&self) -> Prefix
        ensures { result ≡ self.now.block }
    {
        self.prefix
    }

    /// The prefix as a script has it.
    pub fn text(&self) -> &[u8]
        ensures { result.now ≡ self.now.text }
    {
        self.text.as_slice()
    }

    /// The metric of the route.
    pub fn metric(&self) -> u32
        ensures { result ≡ self.now.metric }
    {
        self.metric
    }

    /// The next hop, in words.
    fn hop(&self) -> &[u8]
        ensures { result.now ≡ self.now.hop }
    {
        self.hop.as_slice()
    }

    /// Whether no next hop is named.
    fn is_without_hop(&self) -> bool
        ensures { result ≡ (length self.now.hop == 0) }
    {
        self.hop.is_empty()
    }

    /// Where the route's packets go, in words.
    pub fn way(&self) -> &[u8]
        ensures { result.now ≡ way_of self.now }
    {
        match self.kind() {
            RouteKind::Unicast => self.hop(),
            RouteKind::Blackhole => "blackhole".as_bytes(),
            RouteKind::Unreachable => "unreachable".as_bytes(),
            RouteKind::Prohibit => "prohibit".as_bytes(),
        }
    }

    /// Says what the next word is to be.
    fn expect(&mut self, next: Expects)
        ensures { self.new ≡ expecting next self.old }
    {
        self.expects = next;
    }

    /// Reads all words of a line. Err: why it isn't said, and the word.
    pub fn read<'t>(&mut self, text: &'t [u8], version: IpVersion) -> Result<(), (Why, &'t [u8])>
        ensures { MatchResult result (λ _. read_words version self.old [] (gap_words text.now) ≡ Ok self.new)
            (λ unsaid. read_words version self.old [] (gap_words text.now)
            ≡ Err (record { why = unsaid.0; word = unsaid.1.now })) }
    {
        let mut rest = text;
        let mut last: &[u8] = b"";
        'words: loop {
            let found = match first_word(rest) {
                Some(found) => found,
                None => match self.end() {
                    Ok(()) => return Ok(()),
                    Err(why) => return Err((why, last)),
                },
            };
            match self.step(found.0, version) {
                Ok(()) => {}
                Err(why) => return Err((why, found.0)),
            }
            last = found.0;
            rest = found.1;
        }
    }

    /// Reads a word. Err: why the line isn't said.
    fn step(&mut self, word: &[u8], version: IpVersion) -> Result<(), Why>
        ensures { said_or result self.new ≡ step version self.old word.now }
    {
        match self.expects() {
            Expects::Kind => self.read_first(word, version),
            Expects::Prefix => self.read_prefix(word, version),
            Expects::Attribute => self.read_attribute(word, version),
            Expects::Address => self.read_address(word),
            Expects::HopValue => self.read_hop_value(word),
            Expects::Skipped => {
                self.expect(Expects::Attribute);
                Ok(())
            }
            Expects::Metric => self.read_metric(word),
        }
    }

    /// Reads the first word: a kind of route, or the prefix.
    fn read_first(&mut self, word: &[u8], version: IpVersion) -> Result<(), Why>
        ensures { said_or result self.new ≡ read_first version self.old word.now }
    {
        if is_another_kind(word) {
            return Err(Why::Kind);
        }
        match kind_of(word) {
            Some(kind) => {
                self.set_kind(kind);
                Ok(())
            }
            None => self.read_prefix(word, version),
        }
    }

    /// Takes a kind of route, behind which the prefix is to come.
    fn set_kind(&mut self, kind: RouteKind)
        ensures { self.new ≡ record self.old { expects = Expects.Prefix; kind = kind } }
    {
        self.expects = Expects::Prefix;
        self.kind = kind;
    }

    /// Reads the prefix.
    pub fn read_prefix(&mut self, word: &[u8], version: IpVersion) -> Result<(), Why>
        ensures { said_or result self.new ≡ read_prefix version self.old word.now }
    {
        self.text.clear();
        let fits = put_prefix(&mut self.text, word, version);
        if fits {
            return self.read_text(version);
        }
        Err(Why::Prefix)
    }

    /// Reads the prefix as a script has it.
    fn read_text(&mut self, version: IpVersion) -> Result<(), Why>
        ensures { said_or result self.new ≡ with_block self.old self.old.text ((notation_for version).block self.old.text) }
    {
        match prefix_of(self.text.as_slice(), version) {
            Ok(prefix) => {
                self.expects = Expects::Attribute;
                self.prefix = prefix;
                Ok(())
            }
            Err(_) => Err(Why::Prefix),
        }
    }

    /// Reads a word that says what it is.
    fn read_attribute(&mut self, word: &[u8], version: IpVersion) -> Result<(), Why>
        ensures { said_or result self.new ≡ read_as self.old word.now (attribute_in version self.old.gone word.now) }
    {
        match attribute_in(version, self.gone(), word) {
            Attribute::Hop => self.put_hop(word),
            Attribute::HopValue => {
                self.expect(behind_part(word));
                self.put_hop(word)
            }
            Attribute::Flag => Ok(()),
            Attribute::Skipped => {
                self.expect(Expects::Skipped);
                Ok(())
            }
            Attribute::Metric => {
                self.expect(Expects::Metric);
                Ok(())
            }
            Attribute::Unsaid => Err(why_of(word)),
        }
    }

    /// Reads what stands behind `via`: behind the name of a version of IP an address is to come.
    fn read_address(&mut self, word: &[u8]) -> Result<(), Why>
        ensures { said_or result self.new ≡ read_address self.old word.now }
    {
        self.expect(behind_via(word));
        self.put_hop(word)
    }

    /// Reads a part of the next hop.
    fn read_hop_value(&mut self, word: &[u8]) -> Result<(), Why>
        ensures { said_or result self.new ≡ read_hop_value self.old word.now }
    {
        self.expect(Expects::Attribute);
        self.put_hop(word)
    }

    /// Reads a metric.
    fn read_metric(&mut self, word: &[u8]) -> Result<(), Why>
        ensures { said_or result self.new ≡ read_metric self.old (result_of word.now) }
    {
        match result_of(word) {
            Ok(metric) => {
                self.set_metric(metric);
                Ok(())
            }
            Err(_) => Err(Why::Metric),
        }
    }

    /// Takes a metric.
    fn set_metric(&mut self, metric: u32)
        ensures { self.new ≡ record self.old { expects = Expects.Attribute; metric = metric } }
    {
        self.expects = Expects::Attribute;
        self.metric = metric;
    }

    /// One word more of the next hop, behind a space where it isn't the first.
    fn put_hop(&mut self, word: &[u8]) -> Result<(), Why>
        ensures { said_or result self.new ≡ put_hop self.old word.now }
    {
        if self.is_without_hop() {
            return self.put_bytes(word);
        }
        match self.hop.try_push(b' ') {
            Ok(()) => self.put_bytes(word),
            Err(_) => Err(Why::LongHop),
        }
    }

    /// Bytes of the next hop, if they fit.
    fn put_bytes(&mut self, bytes: &[u8]) -> Result<(), Why>
        ensures { said_or result self.new ≡ put_bytes self.old bytes.now }
    {
        match self.hop.try_extend_from_slice(bytes) {
            Ok(()) => {}
            Err(_) => return Err(Why::LongHop),
        }
        Ok(())
    }

    /// Ends the line. Err: why it isn't said.
    fn end(&self) -> Result<(), Why>
        ensures { result ≡ end_as self.now self.now.expects }
    {
        match self.expects() {
            Expects::Kind => Err(Why::Prefix),
            Expects::Prefix => Err(Why::Prefix),
            Expects::Attribute => self.end_hop(),
            Expects::Address => Err(Why::Value),
            Expects::HopValue => Err(Why::Value),
            Expects::Skipped => Err(Why::Value),
            Expects::Metric => Err(Why::Value),
        }
    }

    /// A route to a next hop names one.
    fn end_hop(&self) -> Result<(), Why>
        ensures { result ≡ hop_of self.now.kind self.now.hop }
    {
        match self.kind() {
            RouteKind::Unicast => self.end_unicast(),
            RouteKind::Blackhole => Ok(()),
            RouteKind::Unreachable => Ok(()),
            RouteKind::Prohibit => Ok(()),
        }
    }

    /// This one does.
    fn end_unicast(&self) -> Result<(), Why>
        ensures { result ≡ hop_of RouteKind.Unicast self.now.hop }
    {
        if self.is_without_hop() {
            return Err(Why::Hop);
        }
        Ok(())
    }
}

/// What is to come behind a word that begins a part of the next hop.
fn behind_part(word: &[u8]) -> Expects
    ensures { result ≡ behind_part word.now }
{
    if is_named(word, b"via") {
        return Expects::Address;
    }
    Expects::HopValue
}

/// What is to come behind the word behind `via`. A device may have the name of a version of IP; an address may not.
fn behind_via(word: &[u8]) -> Expects
    ensures { result ≡ behind_via word.now }
{
    if is_family(word) {
        return Expects::HopValue;
    }
    Expects::Attribute
}

/// Puts a prefix as a script has it into room that is empty: `default` by its address and length, an address alone with the
/// length of an address. False: it is too long.
fn put_prefix(text: &mut ArrayVec<u8, PREFIX_BYTES>, word: &[u8], version: IpVersion) -> bool
    requires { text.old.items ≡ [] }
    ensures fits { result ≡ nat_le (length (prefix_text version word.now)) 64 }
    ensures text { IsTrue result → text.new.items ≡ prefix_text version word.now }
{
    if is_named(word, b"default") {
        return put_part(text, every_address(version).as_bytes());
    }
    put_address(text, word, version)
}

/// Puts a prefix there, or an address and the length of one. False: it is too long.
fn put_address(text: &mut ArrayVec<u8, PREFIX_BYTES>, word: &[u8], version: IpVersion) -> bool
    ensures fits { result ≡ nat_le (length text.old.items + length (word.now ++ missing_length version word.now)) 64 }
    ensures text { IsTrue result → text.new.items ≡ text.old.items ++ (word.now ++ missing_length version word.now) }
{
    let fits = put_part(text, word);
    if fits {
        return put_part(text, missing_length(word, version).as_bytes());
    }
    false
}

/// Puts a part of a prefix there. False: it is too long.
fn put_part(text: &mut ArrayVec<u8, PREFIX_BYTES>, part: &[u8]) -> bool
    ensures fits { result ≡ nat_le (length text.old.items + length part.now) 64 }
    ensures text { IsTrue result → text.new.items ≡ text.old.items ++ part.now }
{
    match text.try_extend_from_slice(part) {
        Ok(()) => true,
        Err(_) => false,
    }
}

/// The prefix of every address.
fn every_address(version: IpVersion) -> &'static str
    ensures { result.now ≡ every_address version }
{
    match version {
        IpVersion::V4 => "0.0.0.0/0",
        IpVersion::V6 => "::/0",
    }
}

/// What an address lacks to be a prefix: nothing where the word has a slash.
fn missing_length(word: &[u8], version: IpVersion) -> &'static str
    ensures { result.now ≡ missing_length version word.now }
{
    if has_slash(word) {
        return "";
    }
    whole_length(version)
}

/// The length of an address, behind a slash.
fn whole_length(version: IpVersion) -> &'static str
    ensures { result.now ≡ whole_length version }
{
    match version {
        IpVersion::V4 => "/32",
        IpVersion::V6 => "/128",
    }
}

/// Whether a word has a slash.
fn has_slash(word: &[u8]) -> bool
    ensures { result ≡ has_slash word.now }
{
    word.iter().any(|byte| *byte == b'/')
}

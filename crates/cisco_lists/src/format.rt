//! The format: a line is told by the list that it stands in and the last number that was given.

ghost use Rattle.std.specs.Prelude.{◌≡◌, ◌<◌, ◌≤◌, ◌*◌, [], Ok, Some, IfOk, OnOk, option_map};
ghost use Rattle.cisco_lists.specs.Telling.{count_of, unsaid_text};
ghost use Rattle.cisco_lists.specs.Lines.{IsOutcome, choice_by, choice_of, cisco_after, cisco_closing, cisco_told, elsewhere, entered, entry_outcome, first_known, header_outcome, ip_outcome, kind_outcome, line_outcome, number_by, number_of, numbered_as, numbered_entry, numbered_outcome, other_kind, other_outcome, place_outcome, placed};

use crate::cursor::Cursor;
use crate::entry::{Entry, read_entry};
use crate::first_words::{is_entry, is_other, is_passed, starts_number};
use crate::telling::{put_bytes, put_entry, put_named, put_remark, put_why};
use crate::why::Why;
use import_lines::{LineFormat, Told};
use ip_routes::is_named;
use line_words::sequence_of;
use std::alloc::{AllocError, Global};
use std::marker::Model;

/// Where a line stands.
#[derive(Clone, Copy, Debug, PartialEq, Eq)]
enum Place {
    /// In no list.
    Outside,
    /// In the list that is imported.
    Inside,
    /// In another one.
    Elsewhere,
}

/// Which list one of this name is.
#[derive(Clone, Copy, Debug, PartialEq, Eq)]
enum Choice {
    /// The one that is imported.
    Chosen,
    /// A second one, where there may be one alone.
    Second,
    /// Another one.
    Another,
}

/// One extended list, and what else stands around it.
#[derive(Drop)]
pub struct CiscoList {
    // The name of the list that is imported, where it is known.
    list: Option<Vec<u8>>,
    // Whether there may be no second one.
    only: bool,
    place: Place,
    // Whether an entry came that shows no number.
    counted: bool,
    // The last number that was given, 0 where there is none yet.
    last: u32,
}

impl Model for CiscoList {
    ghost use Rattle.std.specs.Prelude.{option_map};
    ghost use Rattle.cisco_lists.specs.Lines.{Known};

    ghost Value = { Known };

    ghost view = { λ f. record { list = option_map (λ name. name.items) f.list; only = f.only; place = f.place; counted = f.counted; last = f.last } };
}

/// The number of an entry that shows this word, or none.
fn number_of(counted: bool, last: u32, word: &[u8]) -> Result<u64, Why>
    ensures number { result ≡ number_of counted last word.now }
    ensures some { IfOk result (λ number. 0 < number) }
    ensures small { IfOk result (λ number. number ≤ 4294967305) }
{
    if word.is_empty() {
        return Ok((u64::from(last) / 10 + 1) * 10);
    }
    match sequence_of(word) {
        Ok(number) => above(counted, last, number),
        Err(_) => Err(Why::Number),
    }
}

/// This number, where it is above the last one, and no entry came that shows none.
fn above(counted: bool, last: u32, number: u32) -> Result<u64, Why>
    ensures number { result ≡ number_by counted last (Ok number) }
    ensures some { IfOk result (λ number. 0 < number) }
    ensures small { IfOk result (λ number. number ≤ 4294967305) }
{
    if counted || number <= last {
        return Err(Why::Order);
    }
    Ok(u64::from(number))
}

/// How many numbers an entry takes.
fn count_of(entry: &Entry) -> u64
    ensures count { result ≡ count_of entry.now }
    ensures few { result ≤ 100 }
{
    let sports = entry.source_ports();
    let dports = entry.destination_ports();
    pairs(sports.len() as u64, dports.len() as u64)
}

/// How many pairs there are of one of so many and one of so many.
fn pairs(sports: u64, dports: u64) -> u64
    requires first { sports ≤ 10 }
    requires second { dports ≤ 10 }
    ensures count { result ≡ sports * dports }
    ensures few { result ≤ 100 }
{
    sports * dports
}

/// Puts there why a line isn't said, and the word.
fn unsaid(into: &mut Vec<u8>, why: Why, word: &[u8]) -> Result<Told, AllocError>
    requires { into.old.items ≡ [] }
    ensures answer { IfOk result (λ answer. answer ≡ Told.Unsaid) }
    ensures text { OnOk result (into.new.items ≡ unsaid_text why word.now) }
{
    put_why(into, why, word)?;
    Ok(Told::Unsaid)
}

impl CiscoList {
    /// No line is read yet. The list of this name is imported, or the first one where none is named; then there may be no
    /// second one, if `only` says so.
    pub fn new(list: Option<Vec<u8>>, only: bool) -> CiscoList
        ensures { result ≡ first_known (option_map (λ name. name.items) list) only }
    {
        CiscoList {
            list,
            only,
            place: Place::Outside,
            counted: false,
            last: 0,
        }
    }

    /// Which list one of this name is.
    fn choice(&self, name: &[u8]) -> Choice
        ensures { result ≡ choice_of self.now name.now }
    {
        match &self.list {
            None => Choice::Chosen,
            Some(list) => self.choice_beside(list.as_slice(), name),
        }
    }

    /// The same, where the name of the list that is imported is known.
    fn choice_beside(&self, list: &[u8], name: &[u8]) -> Choice
        ensures { result ≡ choice_by self.now.only name.now (Some list.now) }
    {
        if is_named(list, name) {
            return Choice::Chosen;
        }
        if self.only {
            return Choice::Second;
        }
        Choice::Another
    }

    /// Where the line stands.
    fn place(&self) -> Place
        ensures { result ≡ self.now.place }
    {
        self.place
    }

    /// Whether an entry came that shows no number.
    fn is_counted(&self) -> bool
        ensures { result ≡ self.now.counted }
    {
        self.counted
    }

    /// The last number that was given.
    fn last(&self) -> u32
        ensures { result ≡ self.now.last }
    {
        self.last
    }

    /// The lines behind this one stand in the list of this name.
    fn enter(&mut self, alloc: Global, name: &[u8]) -> Result<(), AllocError>
        ensures { OnOk result (self.new ≡ entered name.now self.old) }
    {
        self.list = Some(Vec::from_slice(alloc, name)?);
        self.place = Place::Inside;
        Ok(())
    }

    /// They stand in another one.
    fn leave(&mut self)
        ensures { self.new ≡ elsewhere self.old }
    {
        self.place = Place::Elsewhere;
    }

    /// An entry that shows a number or not took them up to the last one.
    fn set_last(&mut self, counted: bool, last: u32)
        ensures { self.new ≡ record self.old { counted = counted; last = last } }
    {
        self.counted = counted;
        self.last = last;
    }

    /// Tells a line.
    fn take_line(
        &mut self,
        alloc: Global,
        text: &[u8],
        into: &mut Vec<u8>,
    ) -> Result<Told, AllocError>
        requires { into.old.items ≡ [] }
        ensures { IfOk result (λ answer. IsOutcome (line_outcome self.old text.now) self.old answer into.new.items self.new) }
    {
        let mut at = Cursor::new(text);
        let word = at.next();
        if is_passed(word) {
            return Ok(Told::Said);
        }
        if is_named(word, b"ip") {
            return self.take_ip(alloc, &mut at, into);
        }
        if is_named(word, b"access-list") {
            return self.take_numbered(alloc, text, &mut at, into);
        }
        if is_other(word) {
            return self.take_other(word, &mut at, into);
        }
        if is_entry(word) {
            return self.take_place(text, into);
        }
        unsaid(into, Why::Word, word)
    }

    /// Tells what stands behind `ip`.
    fn take_ip(
        &mut self,
        alloc: Global,
        at: &mut Cursor<'_>,
        into: &mut Vec<u8>,
    ) -> Result<Told, AllocError>
        requires { into.old.items ≡ [] }
        ensures { IfOk result (λ answer. IsOutcome (ip_outcome self.old at.old) self.old answer into.new.items self.new) }
    {
        let word = at.next();
        if is_named(word, b"access-list") {
            return self.take_kind(alloc, at, into);
        }
        unsaid(into, Why::Word, b"ip")
    }

    /// Tells what stands behind `ip access-list`.
    fn take_kind(
        &mut self,
        alloc: Global,
        at: &mut Cursor<'_>,
        into: &mut Vec<u8>,
    ) -> Result<Told, AllocError>
        requires { into.old.items ≡ [] }
        ensures { IfOk result (λ answer. IsOutcome (kind_outcome self.old at.old) self.old answer into.new.items self.new) }
    {
        let kind = at.next();
        let name = at.next();
        let more = at.next();
        if kind.is_empty() {
            return unsaid(into, Why::Value, b"access-list");
        }
        if name.is_empty() {
            return self.take_header(alloc, kind, into);
        }
        if !more.is_empty() {
            return unsaid(into, Why::Word, more);
        }
        if is_named(kind, b"extended") {
            return self.take_header(alloc, name, into);
        }
        self.pass_kind(name, into)
    }

    /// Tells the head of a list.
    fn take_header(
        &mut self,
        alloc: Global,
        name: &[u8],
        into: &mut Vec<u8>,
    ) -> Result<Told, AllocError>
        requires { into.old.items ≡ [] }
        ensures { IfOk result (λ answer. IsOutcome (header_outcome self.old name.now) self.old answer into.new.items self.new) }
    {
        match self.choice(name) {
            Choice::Chosen => {
                put_named(into, b"# list: ", name)?;
                self.enter(alloc, name)?;
                Ok(Told::Said)
            }
            Choice::Second => unsaid(into, Why::List, name),
            Choice::Another => {
                put_named(into, b"# another list: ", name)?;
                self.leave();
                Ok(Told::Said)
            }
        }
    }

    /// Tells the head of a list that is no extended list of IPv4.
    fn pass_kind(&mut self, name: &[u8], into: &mut Vec<u8>) -> Result<Told, AllocError>
        requires { into.old.items ≡ [] }
        ensures { IfOk result (λ answer. IsOutcome (other_kind self.old name.now) self.old answer into.new.items self.new) }
    {
        put_named(into, b"# another kind of list: ", name)?;
        self.leave();
        Ok(Told::Said)
    }

    /// Tells what stands behind `ipv6` or `mac`, this word.
    fn take_other(
        &mut self,
        word: &[u8],
        at: &mut Cursor<'_>,
        into: &mut Vec<u8>,
    ) -> Result<Told, AllocError>
        requires { into.old.items ≡ [] }
        ensures { IfOk result (λ answer. IsOutcome (other_outcome self.old word.now at.old) self.old answer into.new.items self.new) }
    {
        let next = at.next();
        if is_named(next, b"access-list") {
            return self.pass_kind(word, into);
        }
        unsaid(into, Why::Word, word)
    }

    /// Tells what stands behind `access-list`.
    fn take_numbered(
        &mut self,
        alloc: Global,
        text: &[u8],
        at: &mut Cursor<'_>,
        into: &mut Vec<u8>,
    ) -> Result<Told, AllocError>
        requires { into.old.items ≡ [] }
        ensures { IfOk result (λ answer. IsOutcome (numbered_outcome self.old text.now at.old) self.old answer into.new.items self.new) }
    {
        let name = at.next();
        if name.is_empty() {
            return unsaid(into, Why::Value, b"access-list");
        }
        match self.choice(name) {
            Choice::Chosen => self.take_named(alloc, text, name, at, into),
            Choice::Second => unsaid(into, Why::List, name),
            Choice::Another => {
                put_named(into, b"# another list: ", name)?;
                Ok(Told::Said)
            }
        }
    }

    /// Tells an entry of the list, whose name stands in its line.
    fn take_named(
        &mut self,
        alloc: Global,
        text: &[u8],
        name: &[u8],
        at: &mut Cursor<'_>,
        into: &mut Vec<u8>,
    ) -> Result<Told, AllocError>
        requires { into.old.items ≡ [] }
        ensures { IfOk result (λ answer. IsOutcome (numbered_as self.old text.now name.now at.old Choice.Chosen) self.old answer into.new.items self.new) }
    {
        match self.take_entry(text, at, into)? {
            Told::Said => {
                self.enter(alloc, name)?;
                Ok(Told::Said)
            }
            Told::Unsaid => Ok(Told::Unsaid),
        }
    }

    /// Tells a line that begins as an entry, by where it stands.
    fn take_place(&mut self, text: &[u8], into: &mut Vec<u8>) -> Result<Told, AllocError>
        requires { into.old.items ≡ [] }
        ensures { IfOk result (λ answer. IsOutcome (place_outcome self.old text.now self.old.place) self.old answer into.new.items self.new) }
    {
        let mut at = Cursor::new(text);
        match self.place() {
            Place::Inside => self.take_entry(text, &mut at, into),
            Place::Outside => unsaid(into, Why::NoList, at.peek()),
            Place::Elsewhere => Ok(Told::Said),
        }
    }

    /// Tells an entry.
    fn take_entry(
        &mut self,
        text: &[u8],
        at: &mut Cursor<'_>,
        into: &mut Vec<u8>,
    ) -> Result<Told, AllocError>
        requires { into.old.items ≡ [] }
        ensures { IfOk result (λ answer. IsOutcome (entry_outcome self.old text.now at.old) self.old answer into.new.items self.new) }
    {
        if starts_number(at.peek()) {
            let word = at.next();
            return self.take_behind(text, word, at, into);
        }
        self.take_behind(text, b"", at, into)
    }

    /// Tells a remark or an entry, behind the word of its number.
    fn take_behind(
        &mut self,
        text: &[u8],
        word: &[u8],
        at: &mut Cursor<'_>,
        into: &mut Vec<u8>,
    ) -> Result<Told, AllocError>
        requires { into.old.items ≡ [] }
        ensures { IfOk result (λ answer. IsOutcome (numbered_entry self.old text.now word.now at.old) self.old answer into.new.items self.new) }
    {
        if is_named(at.peek(), b"remark") {
            put_remark(into, text)?;
            return Ok(Told::Said);
        }
        let entry = read_entry(at);
        match at.fault() {
            None => self.place_entry(&entry, word, into),
            Some(why) => unsaid(into, why, at.word()),
        }
    }

    /// Tells an entry that was read, which shows this word of a number, or none.
    fn place_entry(
        &mut self,
        entry: &Entry,
        word: &[u8],
        into: &mut Vec<u8>,
    ) -> Result<Told, AllocError>
        requires { into.old.items ≡ [] }
        ensures { IfOk result (λ answer. IsOutcome (placed self.old word.now entry.now (number_of self.old.counted self.old.last word.now)) self.old answer into.new.items self.new) }
    {
        match number_of(self.is_counted(), self.last(), word) {
            Ok(number) => self.number_entry(entry, word, number, into),
            Err(why) => unsaid(into, why, word),
        }
    }

    /// Tells an entry of this number, where there are as many left as it takes.
    fn number_entry(
        &mut self,
        entry: &Entry,
        word: &[u8],
        number: u64,
        into: &mut Vec<u8>,
    ) -> Result<Told, AllocError>
        requires empty { into.old.items ≡ [] }
        requires some { 0 < number }
        requires small { number ≤ 4294967305 }
        ensures { IfOk result (λ answer. IsOutcome (placed self.old word.now entry.now (Ok number)) self.old answer into.new.items self.new) }
    {
        let behind = number + count_of(entry);
        if behind > 4_294_967_295 {
            return unsaid(into, Why::Number, word);
        }
        put_entry(into, number, entry)?;
        self.set_last(word.is_empty(), (behind - 1) as u32);
        Ok(Told::Said)
    }
}

impl LineFormat for CiscoList {
    ghost told = { cisco_told };

    ghost behind = { cisco_after };

    ghost closing = { cisco_closing };

    fn take(&mut self, alloc: Global, text: &[u8], into: &mut Vec<u8>) -> Result<Told, AllocError> {
        self.take_line(alloc, text, into)
    }

    fn close(&self, _alloc: Global, into: &mut Vec<u8>) -> Result<Told, AllocError> {
        if self.last() == 0 {
            put_bytes(into, b"no entries")?;
            return Ok(Told::Unsaid);
        }
        put_bytes(
            into,
            b"acl add 4294967295 deny any any any any any\ncommit\n",
        )?;
        Ok(Told::Said)
    }
}

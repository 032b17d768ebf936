//! A translation table in memory, which takes its memory as words are written.
//!
//! A device in memory has two tables of 65,536 words. By covers no entry tests a word, and none is ever written; so a table
//! keeps the words that were written, each with its port, in room that is taken before. It becomes a whole one, with a word
//! for each port, where more is to be written than that is good for, or where something was written already.
//!
//! # The one hard idea
//! That a table will be written nobody says: what makes room knows how many writes come, and not of what. So room for words
//! is taken for each of them, four bytes a write, and not 131,072 bytes.
//!
//! # What it cost
//! Until the table is whole a look-up goes through the words that were written. That is those of one commit: the next one makes
//! the table whole before its first write.
//!
//! # Decided
//! - **No blocks of words** that are made when first written: each write may be the first of its block, so room for as many
//!   blocks would have to be taken, 128 bytes a write for blocks of 64 words.
//! - **Becoming whole fails for want of memory in `reserve`, and nowhere else**: a write can't.
#![tactic(auto)]

ghost use Rattle.std.specs.Prelude.{◌≡◌, ◌≤◌, ◌<◌, ◌+◌, ◌^◌, IsTrue, OnOk, OnErr, length, slice_index, slice_set, if◌then◌else◌};
ghost use Rattle.tcam_device.specs.State.{blank_table};
ghost use Rattle.port_table.specs.Table as spec;
ghost use Rattle.port_table.specs.Table.{after_words, words_by};

use std::alloc::{AllocError, Global};
use std::marker::Model;

/// How many words a table has, one a port.
const PORTS: usize = 65_536;

/// Up to how many writes room is taken for words one by one.
const MOST_KEPT: u64 = 16_384;

/// A translation table: a word for each port.
#[derive(Drop)]
pub struct PortTable {
    alloc: Global,
    // The words that were written, each with its port, where the table isn't whole.
    written: Vec<(u16, u16)>,
    // The word of each port, where it is.
    words: Vec<u16>,
    is_whole: bool,
    // How many words more have their room.
    room: u64,
}

impl Model for PortTable {
    ghost use Rattle.std.specs.Prelude.{◌-◌, vec_len, vec_capacity};
    ghost use Rattle.port_table.specs.Table.{RoomyTable, IsKept, words_by};

    ghost Value = { RoomyTable };

    ghost view = { λ t. record { words = words_by t.is_whole t.words.items t.written.items; spare = t.room } };

    ghost invariant = { λ t. IsKept t.is_whole t.words.items t.room (vec_capacity t.written - vec_len t.written) };
}

impl PortTable {
    /// A table of words that are 0, and room for none yet. It takes no memory.
    pub fn new(alloc: Global) -> PortTable
        ensures words { result.words ≡ blank_table }
        ensures spare { result.spare ≡ 0 }
    {
        PortTable {
            alloc,
            written: Vec::new(alloc),
            words: Vec::new(alloc),
            is_whole: false,
            room: 0,
        }
    }

    /// The word of a port.
    pub fn word(&self, port: u16) -> u16
        ensures { result ≡ slice_index self.now.words port }
    {
        word_in(self.is_whole, &self.words, &self.written, port)
    }

    /// Makes room for writes of this many words. It fails only for want of memory, of four bytes a write, or of 131,072 bytes
    /// for a table that becomes whole; the words stay as they are.
    pub fn reserve(&mut self, n: u64) -> Result<(), AllocError>
        ensures words { self.new.words ≡ self.old.words }
        ensures enough { OnOk result (n ≤ self.new.spare) }
        ensures least { self.old.spare ≤ self.new.spare }
        ensures spare_err { OnErr result (self.new.spare ≡ self.old.spare) }
    {
        let outgrown = self.is_outgrown(n);
        self.make_whole(outgrown)?;
        self.make_room(n)
    }

    /// Writes the word of a port. It takes no memory.
    pub fn set(&mut self, port: u16, word: u16)
        requires { 0 < self.old.spare }
        ensures words { self.new.words ≡ slice_set self.old.words port word }
        ensures spare { self.new.spare + 1 ≡ self.old.spare }
    {
        self.room -= 1;
        if self.is_whole {
            self.words[port as usize] = word;
            return;
        }
        self.written.push_reserved((port, word));
    }

    // Whether writes of this many words ask for a whole table.
    fn is_outgrown(&self, n: u64) -> bool {
        n > MOST_KEPT || !self.written.is_empty()
    }

    // Makes room in the table as it is, whole or not.
    fn make_room(&mut self, n: u64) -> Result<(), AllocError>
        ensures words { self.new.words ≡ self.old.words }
        ensures enough { OnOk result (n ≤ self.new.spare) }
        ensures least { self.old.spare ≤ self.new.spare }
        ensures spare_err { OnErr result (self.new.spare ≡ self.old.spare) }
    {
        let more = words_more(self.is_whole, n);
        self.written.reserve(more as usize)?;
        self.room = self.room.max(n);
        Ok(())
    }

    // Where it is wanted, the table has a word for each port from here on.
    fn make_whole(&mut self, wanted: bool) -> Result<(), AllocError>
        ensures words { self.new.words ≡ self.old.words }
        ensures spare { self.new.spare ≡ self.old.spare }
    {
        if self.is_whole {
            return Ok(());
        }
        if !wanted {
            return Ok(());
        }
        let alloc = self.alloc;
        let mut words = vec![in alloc; 0u16; PORTS]?;
        put_all(&self.written, &mut words);
        self.words = words;
        self.is_whole = true;
        self.written = Vec::new(alloc);
        Ok(())
    }
}

// How many words more are to be kept one by one.
fn words_more(is_whole: bool, n: u64) -> u64
    ensures { result ≡ (if is_whole then 0 else n) }
{
    if is_whole { 0 } else { n }
}

// The word of a port in a table that is whole or isn't.
fn word_in(is_whole: bool, words: &[u16], written: &[(u16, u16)], port: u16) -> u16
    requires { IsTrue is_whole → length words.now ≡ 2 ^ 16 }
    ensures { result ≡ slice_index (words_by is_whole words.now written.now) port }
{
    if is_whole {
        words[port as usize]
    } else {
        written_word(written, port)
    }
}

// The word that some words leave at a port of a blank table.
fn written_word(written: &[(u16, u16)], port: u16) -> u16
    ensures { result ≡ slice_index (after_words blank_table written.now) port }
{
    let mut word = 0;
    for one in written {
        word = word_after(port, word, *one);
    }
    word
}

// The word that a port has after one more is written.
fn word_after(port: u16, word: u16, one: (u16, u16)) -> u16
    ensures word { result ≡ spec.word_after port word one }
    ensures inside { one.0 < 2 ^ 16 }
{
    if one.0 == port { one.1 } else { word }
}

// Writes some words into a whole table.
fn put_all(written: &[(u16, u16)], words: &mut [u16])
    requires { length words.old ≡ 2 ^ 16 }
    ensures { words.new ≡ after_words words.old written.now }
{
    for one in written {
        put(words, *one);
    }
}

// Writes a word into a whole table.
fn put(words: &mut [u16], one: (u16, u16))
    requires { length words.old ≡ 2 ^ 16 }
    ensures { words.new ≡ slice_set words.old one.0 one.1 }
{
    words[one.0 as usize] = one.1;
}

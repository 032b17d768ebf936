//! The words of both translation tables.

ghost use Rattle.std.specs.Prelude.{◌≡◌, true, [], ℕ, ◌+◌, ◌<◌, ◌≤◌, ◌^◌, ◌*◌, ◌++◌, IfOk, OnOk, length, slice_index};
ghost use Rattle.tcam_device.specs.Insertion.{is_table_write};
ghost use Rattle.tcam_device.specs.State.{apply, blank, table_of};
ghost use Rattle.tcam_device.specs.View.{device_state};
ghost use Rattle.commit_writes.specs.Shape as shape;
ghost use Rattle.commit_writes.specs.Shape.{bit_writes, field_writes};
ghost use Rattle.commit_writes.specs.Undo.{restoring};

use crate::FieldBits;
use range_bits::BitMap;
use rule_model::Field;
use std::alloc::{AllocError, Global};
use std::marker::Model;
use tcam_device::{ReadBack, Write};

/// How many words a translation table has, one a port.
const PORTS: usize = 65_536;

/// The word that a port gets in a field's table, in fewer bytes than a device write. Contracts see it as that write.
#[derive(Clone, Copy, Debug, PartialEq, Eq)]
pub struct TableWord {
    field: Field,
    port: u16,
    word: u16,
}

impl Model for TableWord {
    ghost use Rattle.tcam_device.specs.declared.Write.{Write};
    ghost use Rattle.tcam_device.specs.declared.Write.TheVariants.{Table};
    ghost use Rattle.commit_writes.specs.Words.{field_in, port_in, word_in};

    ghost Value = { Write };

    ghost view = { λ w. Table w.field w.port w.word };

    ghost inverse = { λ w. record { field = field_in w; port = port_in w; word = word_in w } };
}

impl TableWord {
    /// The device write.
    pub fn write(&self) -> Write
        ensures { result ≡ self.now }
    {
        Write::Table(self.field, self.port, self.word)
    }
}

/// Both translation tables of a device, a word of 16 bits for each port.
#[derive(Drop)]
pub struct Tables {
    src: Vec<u16>,
    dst: Vec<u16>,
}

impl Model for Tables {
    ghost use Rattle.std.specs.Prelude.{[]};
    ghost use Rattle.tcam_device.specs.State.{State, IsState};

    ghost Value = { State };

    ghost view = { λ t. record { slots = []; src = t.src.items; dst = t.dst.items } };

    ghost invariant = { λ t. IsState 0 (record { slots = []; src = t.src.items; dst = t.dst.items }) };
}

impl Tables {
    /// The tables of a blank device: each word is 0. It fails only for want of memory, of 256 KiB.
    pub fn new(alloc: Global) -> Result<Tables, AllocError>
        ensures { IfOk result (λ tables. tables ≡ blank 0) }
    {
        let src = vec![in alloc; 0u16; PORTS]?;
        let dst = vec![in alloc; 0u16; PORTS]?;
        Ok(Tables { src, dst })
    }

    /// The tables as they stand in a device. It fails only for want of memory, of 256 KiB.
    pub fn read_back<D: ReadBack>(alloc: Global, device: &D) -> Result<Tables, AllocError>
        ensures { IfOk result (λ tables. tables ≡ record (device_state (D.view device.now)) { slots = [] }) }
    {
        let src = read_table(alloc, Field::Src, device)?;
        let dst = read_table(alloc, Field::Dst, device)?;
        Ok(Tables { src, dst })
    }

    /// Puts behind some words each that differs once new bits are set exactly at their ranges' ports: the source
    /// table's, then the destination table's, ports rising, at most one for each port. Nothing is pushed where no bit
    /// is new. It fails only for want of memory, and then some of them may be pushed.
    pub fn plan_words(&self, new: &FieldBits, words: &mut Vec<TableWord>) -> Result<(), AllocError>
        ensures writes { OnOk result (words.new.items ≡ words.old.items ++ bit_writes self.now new.now) }
        ensures most { OnOk result (length words.new.items ≤ length words.old.items + 2 * 2 ^ 16) }
    {
        plan_field(Field::Src, new.of(Field::Src), &self.src, words)?;
        plan_field(Field::Dst, new.of(Field::Dst), &self.dst, words)
    }

    /// A word was written to the device.
    pub fn set(&mut self, word: TableWord)
        ensures { self.new ≡ apply self.old word }
    {
        match word.field {
            Field::Src => self.src[word.port as usize] = word.word,
            Field::Dst => self.dst[word.port as usize] = word.word,
        }
    }

    /// A word was written to the device. Answers the word that puts back what its port had before.
    pub fn replace(&mut self, word: TableWord) -> TableWord
        ensures set { self.new ≡ apply self.old word }
        ensures before { result ≡ restoring self.old word }
        ensures is_word { is_table_write word ≡ true }
    {
        let before = self.before(word);
        self.set(word);
        before
    }

    /// The word that puts back what a word's port has now.
    fn before(&self, word: TableWord) -> TableWord
        ensures { result ≡ restoring self.now word }
    {
        match word.field {
            Field::Src => TableWord {
                field: Field::Src,
                port: word.port,
                word: self.src[word.port as usize],
            },
            Field::Dst => TableWord {
                field: Field::Dst,
                port: word.port,
                word: self.dst[word.port as usize],
            },
        }
    }
}

/// The words of a field's table as they stand in a device.
fn read_table<D: ReadBack>(alloc: Global, field: Field, device: &D) -> Result<Vec<u16>, AllocError>
    ensures words { IfOk result (λ words. words.items ≡ table_of field (device_state (D.view device.now))) }
    ensures short { IfOk result (λ words. (port : ℕ) → slice_index words.items port < 2 ^ 16) }
{
    let mut words = Vec::with_capacity(alloc, PORTS)?;
    for port in 0..65_536u32 {
        words.push(device.read_word(field, port as u16))?;
    }
    Ok(words)
}

/// The words of one table that differ.
fn plan_field(
    field: Field,
    new: &BitMap,
    words: &[u16],
    writes: &mut Vec<TableWord>,
) -> Result<(), AllocError>
    requires { length words.now ≡ 2 ^ 16 }
    ensures { OnOk result (writes.new.items ≡ writes.old.items ++ field_writes field new.now words.now) }
{
    if new.live() == 0 {
        return Ok(());
    }
    for (port, old) in words.iter().enumerate() {
        if let Some(write) = word_write(field, new, port as u16, *old) {
            writes.push(write)?;
        }
    }
    Ok(())
}

/// A port's word, if it changes.
fn word_write(field: Field, new: &BitMap, port: u16, old: u16) -> Option<TableWord>
    ensures { result ≡ shape.word_write field new.now (port, old) }
{
    let word = new.word_for(port, old);
    if word == old {
        None
    } else {
        Some(TableWord { field, port, word })
    }
}

//! The words of the translation tables, and what is known of them in a cube.

ghost use Rattle.std.specs.Prelude.{ℕ, ◌≡◌, ◌<◌, ◌/◌, ◌%◌, ◌^◌, IsNone, IfOk, IfSome, IsTrue, bit_and, bit_xor, slice_index, slice_set};
ghost use Rattle.rule_model.specs.declared.Key.{Key};
ghost use Rattle.rule_model.specs.Key.{IsKey};
ghost use Rattle.rule_model.specs.Word.{pair_lane};
ghost use Rattle.tcam_device.specs.State.{blank_table};
ghost use Rattle.word_cubes.specs.Cube.{cube_holds};
ghost use Rattle.leak_search.specs.Found.{AreWords, key_word};

use std::alloc::{AllocError, Global};
use std::marker::Model;
use std::vec::Vec;
use word_cubes::{Cube, lane_of, with_lane};

/// All bits of a port or a word.
const ALL_BITS: u16 = 65_535;

/// The words of one table, by port.
#[derive(Drop)]
pub struct PortWords {
    words: Vec<u16>,
}

/// Both tables.
#[derive(Drop)]
pub struct PortTables {
    pub src: PortWords,
    pub dst: PortWords,
}

impl Model for PortWords {
    ghost use Rattle.std.specs.Prelude.{ℕ, ◌≡◌, ◌^◌, List, length};
    ghost use Rattle.leak_search.specs.Found.{AreWords};

    ghost Value = { List ℕ };

    ghost view = { λ p. p.words.items };

    ghost invariant = { λ p. (length p.words.items ≡ 2 ^ 16) × AreWords p.words.items };
}

impl PortWords {
    /// Words that are all 0. It fails only for want of memory.
    pub fn new(alloc: Global) -> Result<PortWords, AllocError>
        ensures { IfOk result (λ words. words ≡ blank_table) }
    {
        let words = vec![in alloc; 0u16; 65_536]?;
        Ok(PortWords { words })
    }

    /// Gives a port a word.
    pub fn set(&mut self, port: u16, word: u16)
        ensures { self.new ≡ slice_set self.old port word }
    {
        self.words[usize::from(port)] = word;
    }

    /// The word at a port.
    pub fn at(&self, port: u16) -> u16
        ensures { result ≡ slice_index self.now port }
    {
        self.words[usize::from(port)]
    }

    /// They are words of 16 bits, by their type.
    pub fn are_words(&self)
        ensures { AreWords self.now }
    {
        let _words = self.words.len();
    }

    /// Which bits the words at all ports that agree with a value wherever a mask is set have in common: their value,
    /// and where it is known. Where several ports agree it is told only if it is asked for: it takes a while.
    fn known(&self, value: u16, mask: u16, asked: bool) -> (u16, u16)
        ensures { (port : ℕ) → port < 2 ^ 16 → bit_and (bit_xor port value) mask ≡ 0
            → bit_and (bit_xor (slice_index self.now port) result.0) result.1 ≡ 0 }
    {
        if mask == ALL_BITS {
            let word = self.at(value);
            (word, ALL_BITS)
        } else if asked {
            let word = self.at(value);
            let shared = self.shared_by(value, mask, word);
            (word, shared)
        } else {
            (0, 0)
        }
    }

    /// Which bits the words at all such ports have in common with a word.
    fn shared_by(&self, value: u16, mask: u16, word: u16) -> u16
        ensures { (port : ℕ) → port < 2 ^ 16 → bit_and (bit_xor port value) mask ≡ 0
            → bit_and (bit_xor (slice_index self.now port) word) result ≡ 0 }
    {
        let mut shared = ALL_BITS;
        for i in 0..65_536usize {
            if (i as u16 ^ value) & mask == 0 {
                shared = shared_with(shared, self.words[i], word);
            }
        }
        shared
    }
}

/// Those of some bits that two words have in common.
fn shared_with(bits: u16, one: u16, other: u16) -> u16
    ensures shared { bit_and (bit_xor one other) result ≡ 0 }
    ensures kept { (n : ℕ) → bit_and n bits ≡ 0 → bit_and n result ≡ 0 }
{
    bits & !(one ^ other)
}

/// The part of a cube in which a key's word can be, by what is known of the words of both tables. None comes only where
/// there is no such key.
pub(crate) fn refined(tables: &PortTables, cube: &Cube) -> Option<Cube>
    ensures some { IfSome result (λ part. (key : Key) → IsKey key → IsTrue (cube_holds cube.now (key_word tables.now.src tables.now.dst key))
        → IsTrue (cube_holds part (key_word tables.now.src tables.now.dst key))) }
    ensures none { IsNone result → (key : Key) → IsKey key → IsTrue (cube_holds cube.now (key_word tables.now.src tables.now.dst key)) → ⊥ }
{
    tables.dst.are_words();
    let ports = lane_of(cube, 8);
    let src_value = upper(ports.0);
    let src_mask = upper(ports.1);
    let dst_value = lower(ports.0);
    let dst_mask = lower(ports.1);
    let src = tables
        .src
        .known(src_value, src_mask, cube.mask.lane[10] >= 65_536);
    let dst = tables
        .dst
        .known(dst_value, dst_mask, cube.mask.lane[10] % 65_536 > 0);
    let value = pair(src.0, dst.0);
    let mask = pair(src.1, dst.1);
    with_lane(cube, 10, value, mask)
}

/// The upper 16 bits of a lane.
fn upper(lane: u32) -> u16
    ensures { result ≡ lane / 2 ^ 16 }
{
    (lane / 65_536) as u16
}

/// The lower 16 bits of a lane.
fn lower(lane: u32) -> u16
    ensures { result ≡ lane % 2 ^ 16 }
{
    (lane % 65_536) as u16
}

/// Two numbers of 16 bits in one lane.
fn pair(upper: u16, lower: u16) -> u32
    ensures { result ≡ pair_lane upper lower }
{
    u32::from(upper) * 65_536 + u32::from(lower)
}

/// Where a cube tests bits of the word of a port that may be one of several, the greatest bit of that port which is free.
pub(crate) fn open_port(cube: &Cube) -> Option<(usize, u32)>
    ensures { IfSome result (λ at. (at.0 < 11) × (at.1 < 32)) }
{
    match open_in(cube, 65_535 << 16) {
        Some(at) => Some(at),
        None => open_in(cube, 65_535),
    }
}

/// Likewise, of the port in this half of the lane.
fn open_in(cube: &Cube, half: u32) -> Option<(usize, u32)>
    ensures { IfSome result (λ at. (at.0 < 11) × (at.1 < 32)) }
{
    let tested = half & cube.mask.lane[10];
    let free = half & !cube.mask.lane[8];
    if tested == 0 || free == 0 {
        None
    } else {
        Some((8, free.ilog2()))
    }
}

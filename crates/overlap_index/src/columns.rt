//! Columns beside the live pieces, by which those that have nothing to do with a piece are passed over.
ghost use Rattle.std.specs.Prelude.{◌≡◌, ℕ, ◌+◌, ◌<◌, ◌≤◌, false, [], length, IfOk, OnOk, OnErr};
ghost use Rattle.overlap_index.specs.Near.{columns_of, with_row, without_row, is_near};

use crate::near::{Spans, spans_of};
use block_windows::{also_apart, apart_eight, is_all, meets_at, pass_apart};
use eight_lanes::first_zero;
use rule_model::Piece;
use std::alloc::{AllocError, Global};
use std::marker::Model;

/// The first and the last of three windows of some pieces' destinations, of one of their sources, and of their
/// destination ports.
#[derive(Drop)]
pub(crate) struct Columns {
    dst_firsts: Vec<u32>,
    dst_lasts: Vec<u32>,
    next_firsts: Vec<u32>,
    next_lasts: Vec<u32>,
    low_firsts: Vec<u32>,
    low_lasts: Vec<u32>,
    src_firsts: Vec<u32>,
    src_lasts: Vec<u32>,
    port_firsts: Vec<u32>,
    port_lasts: Vec<u32>,
}

impl Model for Columns {
    ghost use Rattle.overlap_index.specs.Near.{SpanColumns, AreLevel};

    ghost Value = { SpanColumns };

    ghost view = { λ c. record { dst_firsts = c.dst_firsts.items; dst_lasts = c.dst_lasts.items; next_firsts = c.next_firsts.items; next_lasts = c.next_lasts.items; low_firsts = c.low_firsts.items; low_lasts = c.low_lasts.items; src_firsts = c.src_firsts.items; src_lasts = c.src_lasts.items; port_firsts = c.port_firsts.items; port_lasts = c.port_lasts.items } };

    ghost invariant = { λ c. AreLevel (record { dst_firsts = c.dst_firsts.items; dst_lasts = c.dst_lasts.items; next_firsts = c.next_firsts.items; next_lasts = c.next_lasts.items; low_firsts = c.low_firsts.items; low_lasts = c.low_lasts.items; src_firsts = c.src_firsts.items; src_lasts = c.src_lasts.items; port_firsts = c.port_firsts.items; port_lasts = c.port_lasts.items }) };
}

impl Columns {
    /// Those of no piece, with room for some.
    pub(crate) fn new(alloc: Global, places: usize) -> Result<Columns, AllocError>
        ensures { IfOk result (λ columns. columns ≡ columns_of []) }
    {
        Ok(Columns {
            dst_firsts: Vec::with_capacity(alloc, places)?,
            dst_lasts: Vec::with_capacity(alloc, places)?,
            next_firsts: Vec::with_capacity(alloc, places)?,
            next_lasts: Vec::with_capacity(alloc, places)?,
            low_firsts: Vec::with_capacity(alloc, places)?,
            low_lasts: Vec::with_capacity(alloc, places)?,
            src_firsts: Vec::with_capacity(alloc, places)?,
            src_lasts: Vec::with_capacity(alloc, places)?,
            port_firsts: Vec::with_capacity(alloc, places)?,
            port_lasts: Vec::with_capacity(alloc, places)?,
        })
    }

    /// Puts one piece more at the end. After a refusal all is as before.
    pub(crate) fn push(&mut self, piece: &Piece) -> Result<(), AllocError>
        ensures more { OnOk result (self.new ≡ with_row self.old piece.now) }
        ensures refused { OnErr result (self.new ≡ self.old) }
    {
        self.dst_firsts.reserve(1)?;
        self.dst_lasts.reserve(1)?;
        self.next_firsts.reserve(1)?;
        self.next_lasts.reserve(1)?;
        self.low_firsts.reserve(1)?;
        self.low_lasts.reserve(1)?;
        self.src_firsts.reserve(1)?;
        self.src_lasts.reserve(1)?;
        self.port_firsts.reserve(1)?;
        self.port_lasts.reserve(1)?;
        let spans = spans_of(piece);
        self.dst_firsts.push_reserved(spans.dst.first);
        self.dst_lasts.push_reserved(spans.dst.last);
        self.next_firsts.push_reserved(spans.next.first);
        self.next_lasts.push_reserved(spans.next.last);
        self.low_firsts.push_reserved(spans.low.first);
        self.low_lasts.push_reserved(spans.low.last);
        self.src_firsts.push_reserved(spans.src.first);
        self.src_lasts.push_reserved(spans.src.last);
        self.port_firsts.push_reserved(spans.ports.first);
        self.port_lasts.push_reserved(spans.ports.last);
        Ok(())
    }

    /// Takes out the piece at a place, which the last takes.
    pub(crate) fn remove(&mut self, place: usize)
        requires { place < length self.old.dst_firsts }
        ensures { self.new ≡ without_row self.old place }
    {
        self.dst_firsts.swap_remove(place);
        self.dst_lasts.swap_remove(place);
        self.next_firsts.swap_remove(place);
        self.next_lasts.swap_remove(place);
        self.low_firsts.swap_remove(place);
        self.low_lasts.swap_remove(place);
        self.src_firsts.swap_remove(place);
        self.src_lasts.swap_remove(place);
        self.port_firsts.swap_remove(place);
        self.port_lasts.swap_remove(place);
    }

    /// The next place from `at` on that may be near. Those that are passed over aren't; past the last eight each
    /// place may be.
    pub(crate) fn next_near(&self, spans: Spans, at: usize) -> usize
        requires { at ≤ length self.now.dst_firsts }
        ensures from { at ≤ result }
        ensures most { result ≤ length self.now.dst_firsts }
        ensures passed { (k : ℕ) → at ≤ k → k < result → is_near self.now spans k ≡ false }
    {
        let places = self.dst_firsts.len();
        // Where many are near, the next one often is.
        if at < places && self.is_near(spans, at) {
            return at;
        }
        let mut next = self.pass_far(spans, at);
        while places - next >= 8 {
            let before = self.before_near(spans, next);
            if before < 8 {
                return next + before as usize;
            }
            next = self.pass_far(spans, next + 8);
        }
        next
    }

    /// Passes over places from `at` on, eight in a step, that aren't near by the last window of which the destination
    /// leaves something out. The blocks of one network differ there, and have the windows before in common.
    fn pass_far(&self, spans: Spans, at: usize) -> usize
        requires { at ≤ length self.now.dst_firsts }
        ensures from { at ≤ result }
        ensures most { result ≤ length self.now.dst_firsts }
        ensures passed { (k : ℕ) → at ≤ k → k < result → is_near self.now spans k ≡ false }
    {
        if !is_all(spans.low) {
            pass_apart(&self.low_firsts, &self.low_lasts, spans.low, at)
        } else if !is_all(spans.next) {
            pass_apart(&self.next_firsts, &self.next_lasts, spans.next, at)
        } else {
            pass_apart(&self.dst_firsts, &self.dst_lasts, spans.dst, at)
        }
    }

    /// Whether the destinations, the sources and the ports at a place are near.
    fn is_near(&self, spans: Spans, at: usize) -> bool
        requires { at < length self.now.dst_firsts }
        ensures { result ≡ is_near self.now spans at }
    {
        meets_at(&self.dst_firsts, &self.dst_lasts, spans.dst, at)
            && meets_at(&self.next_firsts, &self.next_lasts, spans.next, at)
            && meets_at(&self.low_firsts, &self.low_lasts, spans.low, at)
            && meets_at(&self.src_firsts, &self.src_lasts, spans.src, at)
            && meets_at(&self.port_firsts, &self.port_lasts, spans.ports, at)
    }

    /// How many of the eight places from `at` on come before the first that is near, 8 where none is.
    fn before_near(&self, spans: Spans, at: usize) -> u32
        requires { at + 8 ≤ length self.now.dst_firsts }
        ensures most { result ≤ 8 }
        ensures before { (k : ℕ) → k < result → is_near self.now spans (at + k) ≡ false }
    {
        let dst = apart_eight(&self.dst_firsts, &self.dst_lasts, spans.dst, at);
        let next = also_apart(dst, &self.next_firsts, &self.next_lasts, spans.next, at);
        let low = also_apart(next, &self.low_firsts, &self.low_lasts, spans.low, at);
        let src = also_apart(low, &self.src_firsts, &self.src_lasts, spans.src, at);
        let ports = also_apart(src, &self.port_firsts, &self.port_lasts, spans.ports, at);
        first_zero(ports)
    }
}

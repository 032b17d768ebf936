//! Numbers from a first to a last one: those outside of some spans, and the blocks that a span is.

ghost use Rattle.std.specs.Prelude.{◌≡◌, ◌+◌, ◌-◌, ◌%◌, ◌^◌, ◌<◌, ◌≤◌, ◌++◌, ◌∷◌, [], IfOk, OnOk};
ghost use Rattle.nft_rulesets.specs.Spans.{above, below, block_span, blocks, is_inside, misses, outside, outside_up_to, without};

use rule_model::{Addr, Prefix};
use std::alloc::{AllocError, Global};

/// The numbers from a first to a last one.
#[derive(Clone, Copy, Debug, PartialEq, Eq)]
pub(crate) struct Span {
    pub(crate) lo: u128,
    pub(crate) hi: u128,
}

/// Puts there what of a span is below another one.
fn put_below(into: &mut Vec<Span>, cut: &Span, span: &Span) -> Result<(), AllocError>
    ensures { OnOk result (into.new.items ≡ into.old.items ++ below cut.now span.now) }
{
    if span.lo < cut.lo {
        let last = cut.lo - 1;
        into.push(Span {
            lo: span.lo,
            hi: if span.hi <= last { span.hi } else { last },
        })?;
    }
    Ok(())
}

/// And what is above it.
fn put_above(into: &mut Vec<Span>, cut: &Span, span: &Span) -> Result<(), AllocError>
    ensures { OnOk result (into.new.items ≡ into.old.items ++ above cut.now span.now) }
{
    if cut.hi < span.hi {
        let first = cut.hi + 1;
        into.push(Span {
            lo: if span.lo <= first { first } else { span.lo },
            hi: span.hi,
        })?;
    }
    Ok(())
}

/// What of some spans is outside of one.
fn without(alloc: Global, cut: &Span, spans: &[Span]) -> Result<Vec<Span>, AllocError>
    ensures { IfOk result (λ left. left.items ≡ without cut.now spans.now) }
{
    let mut left = Vec::new(alloc);
    for span in spans {
        put_below(&mut left, cut, span)?;
        put_above(&mut left, cut, span)?;
    }
    Ok(left)
}

/// The numbers up to a most one outside of some spans.
pub(crate) fn outside_up_to(
    alloc: Global,
    most: u128,
    cuts: &[Span],
) -> Result<Vec<Span>, AllocError>
    ensures { IfOk result (λ left. left.items ≡ outside_up_to most cuts.now) }
{
    let mut left = Vec::new(alloc);
    left.push(Span { lo: 0, hi: most })?;
    for cut in cuts {
        left = without(alloc, cut, left.as_slice())?;
    }
    Ok(left)
}

/// One less than so many addresses as have this many bits past a length.
fn ones(past: u8) -> u128
    requires { past ≤ 128 }
    ensures { result ≡ 2 ^ past - 1 }
{
    if past == 0 {
        return 0;
    }
    u128::MAX >> (128 - past)
}

/// So many addresses.
fn size(past: u8) -> u128
    requires { past < 128 }
    ensures { result ≡ 2 ^ past }
{
    1 << past
}

/// The addresses of a block, if no bit past its length is set.
pub(crate) fn block_span(addr: Addr, len: u8) -> Option<Span>
    requires { len ≤ 128 }
    ensures { result ≡ block_span addr len }
{
    match Prefix::v6(addr, len) {
        Ok(_) => Some(Span {
            lo: addr,
            hi: addr + ones(128 - len),
        }),
        Err(_) => None,
    }
}

/// Whether the block of so many bits past its length that begins at this address has none of a span.
fn misses(past: u8, addr: Addr, span: &Span) -> bool
    requires past { past ≤ 128 }
    requires room { addr + 2 ^ past ≤ 2 ^ 128 }
    ensures { result ≡ misses past addr span.now }
{
    addr + ones(past) < span.lo || span.hi < addr
}

/// Whether it has no others.
fn is_inside(past: u8, addr: Addr, span: &Span) -> bool
    requires past { past ≤ 128 }
    requires room { addr + 2 ^ past ≤ 2 ^ 128 }
    ensures { result ≡ is_inside past addr span.now }
{
    span.lo <= addr && addr + ones(past) <= span.hi
}

/// Puts the blocks there of those addresses of one that are in a span.
pub(crate) fn put_blocks(
    into: &mut Vec<Prefix>,
    past: u8,
    addr: Addr,
    span: &Span,
) -> Result<(), AllocError>
    requires past { past ≤ 128 }
    requires room { addr + 2 ^ past ≤ 2 ^ 128 }
    requires block { addr % 2 ^ past ≡ 0 }
    ensures { OnOk result (into.new.items ≡ into.old.items ++ blocks past addr span.now) }
{
    if misses(past, addr, span) {
        return Ok(());
    }
    if is_inside(past, addr, span) {
        return put_block(into, addr, 128 - past);
    }
    if past == 0 {
        return Ok(());
    }
    let half = past - 1;
    put_blocks(into, half, addr, span)?;
    put_blocks(into, half, addr + size(half), span)
}

/// Puts a block there.
fn put_block(into: &mut Vec<Prefix>, addr: Addr, len: u8) -> Result<(), AllocError>
    requires len { len ≤ 128 }
    requires block { addr % 2 ^ (128 - len) ≡ 0 }
    ensures { OnOk result (into.new.items ≡ into.old.items ++ record { addr = addr; len = len } ∷ []) }
{
    if let Ok(block) = Prefix::v6(addr, len) {
        into.push(block)?;
    }
    Ok(())
}

//! The cover of a range of ports: the largest blocks inside it.
//!
//! An entry without a translation table tests a port by one block: as many ports as a power of two,
//! the first of which is a multiple of that number. So a range takes an entry for each block of its
//! cover, those inside the range whose parent, the block of twice the size around them, isn't:
//!
//!     80-443 = 80-95 + 96-127 + 128-255 + 256-383 + 384-415 + 416-431 + 432-439 + 440-443
//!
//! `cover` takes the largest block that the range begins with, and goes on behind it. So sizes rise
//! and then fall, and there are at most two blocks of each size from 1 to 16,384, as in 1-65534. A
//! `Cover` has room for these 30 in itself, and no call takes memory.

ghost use Rattle.std.specs.Prelude.{◌≡◌, ℕ, ◌+◌, ◌%◌, ◌^◌, ◌<◌, ◌≤◌, ◌↔◌, Contains, AllPairs, IsTrue, IsNone, IfSome};
ghost use Rattle.std.specs.List.{list_any};
ghost use Rattle.rule_model.specs.PortRange.{PortRange, IsPortRange, IsCoverBlock, range_holds, cover, cover_size};
ghost use Rattle.rule_model.specs.FirstBlock.{BeginsWith, IsFirstBlock};

use crate::Ports;

mod blocks;

pub use blocks::{Cover, MOST_BLOCKS};

/// The cover of a range: all blocks inside it whose parent isn't inside, rising.
pub fn cover(ports: Ports) -> Cover
    ensures list { result ≡ cover ports }
    ensures blocks { (block : PortRange) → Contains result block ↔ IsCoverBlock ports block }
    ensures rising { AllPairs (λ lower upper. lower.hi < upper.lo) result }
    ensures exact { (port : ℕ) → port < 2 ^ 16 → list_any (λ block. range_holds block port) result ≡ range_holds ports port }
{
    let mut cover = Cover::empty();
    let mut range = ports;
    loop {
        let block = first_block(range);
        cover.push(block);
        match range_behind(range, block) {
            Some(behind) => range = behind,
            None => return cover,
        }
    }
}

/// The number of blocks in the cover of a range, at most `MOST_BLOCKS`.
pub fn cover_size(ports: Ports) -> u32
    ensures number { result ≡ cover_size ports }
    ensures most { result ≤ MOST_BLOCKS }
{
    cover(ports).len()
}

/// The largest block that a range begins with.
fn first_block(range: Ports) -> Ports
    ensures largest { IsFirstBlock range result }
    ensures inside { result.hi ≤ range.hi }
    ensures range { IsPortRange range }
{
    let last = u32::from(range.lo()) + (1 << first_level(range)) - 1;
    Ports::new(range.lo(), last as u16).unwrap()
}

/// The greatest `k` for which a range begins with a block of `2^k` ports.
fn first_level(range: Ports) -> u32
    ensures { BeginsWith range result }
{
    let size = u32::from(range.hi()) - u32::from(range.lo()) + 1;
    range.lo().trailing_zeros().min(size.ilog2())
}

/// The ports of a range behind a block that it begins with. None comes exactly where there are none.
fn range_behind(range: Ports, block: Ports) -> Option<Ports>
    requires { block.hi ≤ range.hi }
    ensures none { IsNone result ↔ (block.hi ≡ range.hi) }
    ensures behind { IfSome result (λ rest. rest ≡ record { lo = block.hi + 1; hi = range.hi }) }
{
    if block.hi() == range.hi() {
        return None;
    }
    Ports::new(block.hi() + 1, range.hi())
}

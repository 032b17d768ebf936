//! Ranges of ports that are told of their bits, in any order.
//!
//! A map of bits gives a range the least free bit. So that one that is told gets its own, all other bits are taken: each by the
//! range that was told of it, or by one port, which needs no bit and so is told of none.

ghost use Rattle.std.specs.Prelude.{◌≡◌, ◌<◌, ℕ, Some};
ghost use Rattle.rule_model.specs.PortRange.{PortRange};
ghost use Rattle.range_bits.specs.FieldMap.{IsFieldMap, live_count};
ghost use Rattle.range_bits.specs.LiveRanges.{newly_live, no_ranges, range_at};
ghost use Rattle.tcam_c.specs.Told.{HavePlaces, Places};

use range_bits::{BitMap, FIELD_BITS};
use rule_model::Ports;
use std::marker::Model;

/// Ranges that were told of bits of a field.
#[derive(Drop)]
pub(crate) struct ToldRanges {
    // A range at each bit: the one that was told of it, or one port.
    given: BitMap,
    // One port at each bit of which none was told.
    untold: BitMap,
}

impl Model for ToldRanges {
    ghost use Rattle.range_bits.specs.LiveRanges.{LiveRanges, newly_live};
    ghost use Rattle.tcam_c.specs.Told.{HavePlaces};

    ghost Value = { LiveRanges };

    ghost view = { λ t. newly_live t.untold t.given };

    ghost invariant = { λ t. HavePlaces t.untold t.given };
}

impl ToldRanges {
    /// None was told yet.
    pub(crate) fn new() -> ToldRanges
        ensures { result ≡ no_ranges }
    {
        let given = port_at_each_bit();
        ToldRanges {
            given,
            untold: given,
        }
    }

    /// Puts a range at its bit. False comes exactly where another one was told of the bit, or the range of a bit, or it is
    /// one port.
    pub(crate) fn put(&mut self, bit: u8, range: Ports) -> bool
        requires { bit < FIELD_BITS }
        ensures { Places bit range result self.old self.new }
    {
        put(&mut self.given, &mut self.untold, bit, range)
    }

    /// The map of them all.
    pub(crate) fn map(&self) -> BitMap
        ensures { result ≡ self.now }
    {
        self.given.newer_than(&self.untold)
    }
}

/// A map of which each bit has one port.
fn port_at_each_bit() -> BitMap
    ensures map { IsFieldMap result }
    ensures full { live_count result ≡ FIELD_BITS }
    ensures ports { (bit : ℕ) (range : PortRange) → range_at result bit ≡ Some range → range.lo ≡ range.hi }
{
    let mut map = BitMap::new();
    for port in 0..u16::from(FIELD_BITS) {
        if let Some(range) = Ports::new(port, port) {
            let _bit = map.assign(range);
        }
    }
    map
}

/// Puts a range at a bit that has one port, in place of it.
fn put(given: &mut BitMap, untold: &mut BitMap, bit: u8, range: Ports) -> bool
    requires below { bit < FIELD_BITS }
    requires placed { HavePlaces untold.old given.old }
    ensures placed { HavePlaces untold.new given.new }
    ensures put { Places bit range result (newly_live untold.old given.old) (newly_live untold.new given.new) }
{
    let _live = given.live();
    let _untold = untold.live();
    if range.lo() == range.hi() {
        return false;
    }
    if given.bit_of(range).is_some() {
        return false;
    }
    if untold.range_of(bit).is_none() {
        return false;
    }
    given.release(bit);
    let _bit = given.assign(range);
    untold.release(bit);
    true
}

//! Of two blocks one may lie in the other, and then in one of its halves.
ghost use Rattle.std.specs.Prelude.{◌≡◌, ◌<◌, ◌≤◌, ◌/◌, ◌-◌, ◌*◌, ◌^◌};
ghost use Rattle.rule_model.specs.AddressBlock.{IsAddressBlock};
ghost use Rattle.prefix_trie.specs.Blocks.{IsMeet, bit_at, covers};

use rule_model::Prefix;

/// Whether each address of a block is in that of an address and a length.
pub(crate) fn covered_by(addr: u128, len: u8, inner: &Prefix) -> bool
    ensures { result ≡ covers (record { addr = addr; len = len }) inner.now }
{
    len <= inner.len() && upper(inner.addr(), len) == upper(addr, len)
}

/// The bit of an address that has so many before it.
pub(crate) fn bit_at(addr: u128, before: u8) -> bool
    requires { before < 128 }
    ensures { result ≡ bit_at addr before }
{
    (addr >> (127 - before)) % 2 == 1
}

/// The upper bits of an address, all but so many.
fn upper(addr: u128, len: u8) -> u128
    requires { len ≤ 128 }
    ensures { result ≡ addr / 2 ^ (128 - len) }
{
    if len == 0 { 0 } else { addr >> (128 - len) }
}

/// The longest block that covers both.
pub(crate) fn meet(a: &Prefix, b: &Prefix) -> Prefix
    ensures { IsMeet a.now b.now result }
{
    let first = a.addr();
    let second = b.addr();
    let mut low: u8 = 0;
    let mut high: u8 = a.len().min(b.len()) + 1;
    while high - low > 1 {
        let mid = low + (high - low) / 2;
        if upper(first, mid) == upper(second, mid) {
            low = mid;
        } else {
            high = mid;
        }
    }
    shortened(a, low)
}

/// The bits of an address before a length, and no others.
fn cut(addr: u128, len: u8) -> u128
    requires { len ≤ 128 }
    ensures { result ≡ addr / 2 ^ (128 - len) * 2 ^ (128 - len) }
{
    if len == 0 {
        0
    } else {
        (addr >> (128 - len)) << (128 - len)
    }
}

/// The block of a length that covers a longer one.
fn shortened(block: &Prefix, len: u8) -> Prefix
    requires fits { len ≤ 128 }
    ensures right { IsAddressBlock result }
    ensures len { result.len ≡ len }
    ensures same { result.addr / 2 ^ (128 - len) ≡ block.now.addr / 2 ^ (128 - len) }
{
    let addr = cut(block.addr(), len);
    let made = match Prefix::v6(addr, len) {
        Ok(prefix) => prefix,
        Err(_) => *block,
    };
    let _addr = made.addr();
    made
}

/// The block of one address.
pub(crate) fn whole(address: u128) -> Prefix
    ensures { result ≡ record { addr = address; len = 128 } }
{
    match Prefix::v6(address, 128) {
        Ok(prefix) => prefix,
        Err(_) => Prefix::any(),
    }
}

//! Addresses and prefixes, as each version of IP writes them.

ghost use Rattle.std.specs.Prelude.{◌≡◌};
ghost use Rattle.line_words.specs.Kinds.{address_of, side_of};
ghost use Rattle.line_words.specs.Notations.{notation_for};

use crate::WordFault;
use crate::ipv4::{ipv4_address, ipv4_prefix};
use crate::ipv6::{ipv6_address, ipv6_prefix};
use rule_model::{Addr, IpVersion, Prefix};

/// An address of a version, or BadAddress.
pub fn address_of(word: &[u8], version: IpVersion) -> Result<Addr, WordFault>
    ensures { result ≡ address_of (notation_for version) word.now }
{
    match version {
        IpVersion::V4 => ipv4_address(word),
        IpVersion::V6 => ipv6_address(word),
    }
}

/// A prefix of a version: an address, a slash and a length up to that of an address, 32 or 128.
///
/// BadPrefix where the word has another form, and HostBits where it has this form and a bit past the
/// length is set.
pub fn prefix_of(word: &[u8], version: IpVersion) -> Result<Prefix, WordFault>
    ensures { result ≡ (notation_for version).block word.now }
{
    match version {
        IpVersion::V4 => ipv4_prefix(word),
        IpVersion::V6 => ipv6_prefix(word),
    }
}

/// Every address for `any`, or a prefix of a version with its faults.
pub fn side_of(word: &[u8], version: IpVersion) -> Result<Prefix, WordFault>
    ensures { result ≡ side_of (notation_for version) word.now }
{
    match word {
        b"any" => Ok(Prefix::any()),
        _ => prefix_of(word, version),
    }
}

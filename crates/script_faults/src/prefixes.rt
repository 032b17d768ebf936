//! Sentences on prefixes and sides.

ghost use Rattle.std.specs.Prelude.{◌≤◌};

use crate::addresses::{is_address, other, tell_address, tell_version};
use crate::parts::{tell, value_of, without_zeros};
use line_words::{Ipv6Text, address_of};
use rule_model::{Addr, IpVersion};
use std::alloc::AllocError;

/// The longest prefix of a version.
fn longest(version: IpVersion) -> u8
    ensures { result ≤ 128 }
{
    match version {
        IpVersion::V4 => 32,
        IpVersion::V6 => 128,
    }
}

/// What is wrong with a side of a rule.
pub(crate) fn tell_side(
    text: &mut String,
    word: &str,
    version: IpVersion,
) -> Result<(), AllocError> {
    match word {
        "Any" | "ANY" | "all" | "ALL" | "*" | "default" => {
            write!(text, "{word}: every address is any")
        }
        "host" => tell(
            text,
            word,
            "an address alone is a prefix of the whole length, as 10.0.0.1/32",
        ),
        _ => tell_prefix(text, word, version),
    }
}

/// What is wrong with a prefix.
pub(crate) fn tell_prefix(
    text: &mut String,
    word: &str,
    version: IpVersion,
) -> Result<(), AllocError> {
    if matches!(word, "any" | "Any" | "ANY" | "all" | "*" | "default") {
        let every = match version {
            IpVersion::V4 => "0.0.0.0/0",
            IpVersion::V6 => "::/0",
        };
        return write!(text, "{word}: every address is {every}");
    }
    match word.split_once('/') {
        None => tell_lone(text, word, version),
        Some((address, len)) => tell_parts(text, word, address, len, version),
    }
}

/// What is wrong with a prefix that has no slash.
fn tell_lone(text: &mut String, word: &str, version: IpVersion) -> Result<(), AllocError> {
    if is_address(word, version) {
        let most = longest(version);
        return write!(text, "{word}: an address alone is {word}/{most}");
    }
    match word.split_once('-') {
        Some((first, _)) if is_address(first, version) => {
            tell(
                text,
                word,
                "a range of addresses is a prefix for each of its blocks",
            )
        }
        _ => tell_address(text, word, version),
    }
}

/// What is wrong with a prefix of these two parts.
fn tell_parts(
    text: &mut String,
    word: &str,
    address: &str,
    len: &str,
    version: IpVersion,
) -> Result<(), AllocError> {
    let Ok(number) = address_of(address.as_bytes(), version) else {
        return tell_no_address(text, word, address, version);
    };
    if len.contains('/') {
        return tell(text, word, "a prefix has one slash");
    }
    match value_of(len) {
        Some(bits) if without_zeros(len).len() == len.len() => {
            tell_length(text, word, number, bits, version)
        }
        Some(_) => {
            let plain = without_zeros(len);
            write!(text, "/{len}: no zeros in front; /{plain}?")
        }
        None => tell_odd_length(text, word, len, version),
    }
}

/// What is wrong with a prefix before whose slash no address of the version stands.
fn tell_no_address(
    text: &mut String,
    word: &str,
    address: &str,
    version: IpVersion,
) -> Result<(), AllocError> {
    if address.is_empty() {
        return tell(text, word, "an address stands before the slash");
    }
    if is_address(address, other(version)) {
        return tell_version(text, word, version);
    }
    tell_address(text, address, version)
}

/// What is wrong with a prefix whose length is a number: it is too great, or bits are set past it.
fn tell_length(
    text: &mut String,
    word: &str,
    address: Addr,
    bits: u64,
    version: IpVersion,
) -> Result<(), AllocError> {
    let most = longest(version);
    if bits > u64::from(most) {
        return write!(text, "/{bits}: at most {most}");
    }
    write!(text, "{word}: bits past the length; ")?;
    write_address(text, masked(address, bits as u8), version)?;
    write!(text, "/{bits}?")
}

/// An address without the bits past a length.
fn masked(address: Addr, len: u8) -> Addr
    requires { len ≤ 128 }
{
    if len == 0 {
        return 0;
    }
    address.saturating_sub(address % (1u128 << (128 - len)))
}

/// Writes an address behind a text, as its version writes it.
pub fn write_address(
    text: &mut String,
    address: Addr,
    version: IpVersion,
) -> Result<(), AllocError> {
    match version {
        IpVersion::V4 => {
            let [a, b, c, d] = ((address >> 96) as u32).to_be_bytes();
            write!(text, "{a}.{b}.{c}.{d}")
        }
        IpVersion::V6 => text.push_str(Ipv6Text::new(address).as_str()),
    }
}

/// What is wrong with a length that is no number.
fn tell_odd_length(
    text: &mut String,
    word: &str,
    len: &str,
    version: IpVersion,
) -> Result<(), AllocError> {
    let most = longest(version);
    if len.is_empty() {
        return write!(text, "{word}: a length is missing, up to {most}");
    }
    match mask_length(len) {
        Some(bits) if version == IpVersion::V4 => {
            write!(text, "/{len}: a mask is written as its length; /{bits}?")
        }
        _ => write!(text, "/{len}: a length is a number up to {most}"),
    }
}

/// The length that a mask of IPv4 stands for, or an inverted one, if it does.
fn mask_length(mask: &str) -> Option<u32> {
    let address = address_of(mask.as_bytes(), IpVersion::V4).ok()?;
    let number = (address >> 96) as u32;
    let ones = number.leading_ones();
    if number.count_ones() == ones {
        return Some(ones);
    }
    let zeros = number.leading_zeros();
    if number.count_zeros() == zeros {
        return Some(zeros);
    }
    None
}

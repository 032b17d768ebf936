//! Sentences on addresses.

use crate::numbers::tell_number;
use crate::parts::{is_hex, tell, value_of};
use line_words::address_of;
use rule_model::IpVersion;
use std::alloc::AllocError;

/// The other version.
pub(crate) fn other(version: IpVersion) -> IpVersion {
    match version {
        IpVersion::V4 => IpVersion::V6,
        IpVersion::V6 => IpVersion::V4,
    }
}

/// Whether a word is an address of a version.
pub(crate) fn is_address(word: &str, version: IpVersion) -> bool {
    address_of(word.as_bytes(), version).is_ok()
}

/// What is wrong with the address of a packet.
pub(crate) fn tell_packet_address(
    text: &mut String,
    word: &str,
    version: IpVersion,
) -> Result<(), AllocError> {
    if word == "any" {
        return tell(text, word, "a packet has one address");
    }
    match word.split_once('/') {
        Some((address, _)) if is_address(address, version) => {
            write!(text, "{word}: a packet has one address; {address}?")
        }
        _ => tell_address(text, word, version),
    }
}

/// What is wrong with a word that is to be an address of a version, and isn't.
pub(crate) fn tell_address(
    text: &mut String,
    word: &str,
    version: IpVersion,
) -> Result<(), AllocError> {
    if is_address(word, other(version)) {
        return tell_version(text, word, version);
    }
    match version {
        IpVersion::V4 => tell_ipv4(text, word),
        IpVersion::V6 => tell_ipv6(text, word),
    }
}

/// That a word is of the other version of IP than the script.
pub(crate) fn tell_version(
    text: &mut String,
    word: &str,
    version: IpVersion,
) -> Result<(), AllocError> {
    match version {
        IpVersion::V4 => tell(
            text,
            word,
            "of IPv6, for tcam route6 and acl6; this script is of IPv4",
        ),
        IpVersion::V6 => tell(
            text,
            word,
            "of IPv4, for tcam route and acl; this script is of IPv6",
        ),
    }
}

/// What is wrong with a word that is to be an address of IPv4, and isn't.
fn tell_ipv4(text: &mut String, word: &str) -> Result<(), AllocError> {
    for part in word.split('.') {
        if !is_byte(part) {
            return tell_ipv4_part(text, word, part);
        }
    }
    write!(text, "{word}: an address has four numbers parted by dots")?;
    match word.split('.').count() {
        1 => write!(text, "; {word}.0.0.0?"),
        2 => write!(text, "; {word}.0.0?"),
        3 => write!(text, "; {word}.0?"),
        _ => Ok(()),
    }
}

/// Whether a part of an address of IPv4 is right.
fn is_byte(part: &str) -> bool {
    match value_of(part) {
        Some(value) => value <= 255 && (part.len() == 1 || !part.starts_with('0')),
        None => false,
    }
}

/// What is wrong with a part of an address of IPv4.
fn tell_ipv4_part(text: &mut String, word: &str, part: &str) -> Result<(), AllocError> {
    if value_of(part).is_some() {
        return tell_number(text, part, 0, 255);
    }
    tell(
        text,
        word,
        "an address has four numbers up to 255 parted by dots, as 10.0.0.1",
    )
}

/// What is wrong with a word that is to be an address of IPv6, and isn't.
fn tell_ipv6(text: &mut String, word: &str) -> Result<(), AllocError> {
    if !word.contains(':') {
        return tell(
            text,
            word,
            "an address has eight groups parted by colons, as 2001:db8::1",
        );
    }
    if word.contains('%') {
        return tell(text, word, "an address stands without a zone");
    }
    if word.contains(":::") {
        return tell(
            text,
            word,
            "two colons stand for the groups that are 0, and never three",
        );
    }
    for group in word.split(':') {
        if !group.is_empty() && !(is_hex(group) && group.len() <= 4) {
            return tell_group(text, group);
        }
    }
    tell_groups(text, word)
}

/// What is wrong with a group of an address of IPv6.
fn tell_group(text: &mut String, group: &str) -> Result<(), AllocError> {
    if is_hex(group) {
        return tell(text, group, "a group has four hexadecimal digits at most");
    }
    match address_of(group.as_bytes(), IpVersion::V4) {
        Ok(address) => {
            let high = ((address >> 112) % 65536) as u16;
            let low = ((address >> 96) % 65536) as u16;
            write!(text, "{group}: written as two groups; {high:x}:{low:x}?")
        }
        Err(_) => tell(text, group, "a group has one to four hexadecimal digits"),
    }
}

/// What is wrong with the number of groups, each of which is right.
fn tell_groups(text: &mut String, word: &str) -> Result<(), AllocError> {
    let doubles = word.matches("::").count();
    if doubles > 1 {
        return tell(text, word, "two colons together stand once at most");
    }
    let groups = word.split(':').filter(|group| !group.is_empty()).count();
    if doubles == 1 && groups >= 8 {
        return tell(
            text,
            word,
            "two colons together stand for one group at least, of eight",
        );
    }
    if doubles == 0 && (word.starts_with(':') || word.ends_with(':')) {
        return tell(
            text,
            word,
            "a colon parts two groups, and two stand for those that are 0",
        );
    }
    write!(
        text,
        "{word}: an address has eight groups, and this one has {groups}"
    )?;
    if groups < 8 {
        write!(text, "; {word}::?")?;
    }
    Ok(())
}

//! Sentences on ports.

use crate::numbers::tell_number;
use crate::parts::{is_digits, tell, value_of};
use line_words::ports_of;
use std::alloc::AllocError;

/// What is wrong with the ports of a rule.
pub(crate) fn tell_ports(text: &mut String, word: &str) -> Result<(), AllocError> {
    if matches!(word, "*" | "all" | "ANY" | "Any") {
        return tell(text, word, "any?");
    }
    if word.contains(',') {
        return tell(text, word, "one range alone; a rule for each of these");
    }
    match word.split_once('-') {
        Some((first, last)) => tell_range(text, word, first, last),
        None => tell_port(text, word),
    }
}

/// What is wrong with two ports that have a dash between them.
fn tell_range(text: &mut String, word: &str, first: &str, last: &str) -> Result<(), AllocError> {
    if first.is_empty() || last.is_empty() {
        return tell(text, word, "a range has two ports, as 1024-65535");
    }
    if ports_of(first.as_bytes()).is_err() {
        return tell_port(text, first);
    }
    if ports_of(last.as_bytes()).is_err() {
        return tell_port(text, last);
    }
    match (value_of(first), value_of(last)) {
        (Some(low), Some(high)) if low > high => {
            write!(text, "{word}: the lower port stands first; {last}-{first}?")
        }
        _ => tell(text, word, "a range has two ports, as 1024-65535"),
    }
}

/// What is wrong with one port of a rule.
fn tell_port(text: &mut String, word: &str) -> Result<(), AllocError> {
    if is_digits(word) {
        return tell_number(text, word, 0, 65535);
    }
    if let Some((first, last)) = word.split_once(':') {
        if is_digits(first) && is_digits(last) {
            return write!(text, "{word}: a range has a dash; {first}-{last}?");
        }
    }
    match service_port(word) {
        Some(port) => write!(text, "{word}: ports are numbers; {port}?"),
        None => tell(text, word, "any, a port up to 65535, or two as 1024-65535"),
    }
}

/// What is wrong with a port of a packet.
pub(crate) fn tell_packet_port(text: &mut String, word: &str) -> Result<(), AllocError> {
    if word == "any" || ports_of(word.as_bytes()).is_ok() {
        return tell(text, word, "a packet has one port, up to 65535");
    }
    match service_port(word) {
        Some(port) => write!(text, "{word}: ports are numbers; {port}?"),
        None => tell_number(text, word, 0, 65535),
    }
}

/// The port of a service that is often named.
fn service_port(name: &str) -> Option<u16> {
    match name {
        "ftp" => Some(21),
        "ssh" => Some(22),
        "telnet" => Some(23),
        "smtp" => Some(25),
        "domain" | "dns" => Some(53),
        "http" | "www" => Some(80),
        "ntp" => Some(123),
        "snmp" => Some(161),
        "bgp" => Some(179),
        "https" => Some(443),
        _ => None,
    }
}

//! Sentences on protocols.

use crate::numbers::tell_number;
use crate::parts::{tell, value_of};
use std::alloc::AllocError;

/// What is wrong with the protocol of a rule, which may be any, or of a packet.
pub(crate) fn tell_protocol(
    text: &mut String,
    word: &str,
    of_packet: bool,
) -> Result<(), AllocError> {
    if value_of(word).is_some() {
        return tell_number(text, word, 0, 255);
    }
    match word {
        "TCP" | "Tcp" => tell(text, word, "tcp?"),
        "UDP" | "Udp" => tell(text, word, "udp?"),
        "ICMP" | "Icmp" => tell(text, word, "icmp?"),
        "icmpv6" | "icmp6" | "ipv6-icmp" => tell(text, word, "58?"),
        "gre" => tell(text, word, "47?"),
        "esp" => tell(text, word, "50?"),
        "ospf" => tell(text, word, "89?"),
        "sctp" => tell(text, word, "132?"),
        _ if of_packet => tell(text, word, "icmp, tcp, udp, or a number up to 255"),
        "ip" | "ipv4" | "ipv6" | "all" | "*" | "ANY" | "Any" => tell(text, word, "any?"),
        _ => tell(text, word, "any, icmp, tcp, udp, or a number up to 255"),
    }
}

//! The words of script lines, for the readers of both kinds of script.
//!
//! A line is cut into words at blanks (`Words`), from the left and one at a time, so that no room is
//! kept for them. A reader first takes as many words as its command has, and only then looks at what
//! they are: a wrong number of words is found before a bad word, and of bad words the leftmost.
//!
//!     route add 10.0.0.0/8 7     a reader's own: two words, a prefix and a result
//!     acl set 10 deny            a reader's own: two words, a sequence number and an action
//!     probe KEY                  common to both: five words, two addresses, a protocol, two ports
//!     packet KEY                 common to both: the same five words
//!     frame HEX                  common to both: one word, the bytes of a packet
//!     commit                     common to both: no word
//!     trial COUNT                common to both: one word, a number of writes
//!     crash COUNT                common to both: the same one word
//!
//! Each kind of word has one function (`numbers`, `addresses`, `kinds`), and each fault of a word one
//! variant of `WordFault`. Addresses, prefixes and frames are those of the version of IP that the caller
//! names last, each written in its own way (`ipv4`, `ipv6`). Nothing takes memory: a frame is decoded into
//! fixed room.
//!
//! An IPv6 address has many texts, of which RFC 5952 recommends one. `Ipv6Text` is that one, in fixed room,
//! and it is read back as the address.
//!
//! # Decided
//! - **An IPv6 address is groups of one to four hexadecimal digits** of either case (RFC 4291, section 2.2): eight, or
//!   at most seven with two colons together, once. So `1:2:3:4:5:6:7::` is read, though RFC 5952 never prints it. The
//!   form with a dotted IPv4 part isn't taken, nor a zone. A length past 128 is of the wrong form, a bad prefix, as one
//!   past 32 is for IPv4.
//! - **It is printed as RFC 5952 recommends**: lower case, no leading zeros, two colons for the longest run of two or
//!   more zero groups, the first of equals. Two laws say it apart from the definition (`printed_is_read_back`,
//!   `shortens_the_longest`).
#![tactic(auto)]

ghost use Rattle.std.specs.Prelude.{◌≡◌, Some};

use packet_keys::FrameFault;
use std::error::Error;
use std::fmt;

mod addresses;
mod commands;
mod ipv4;
mod ipv6;
mod kinds;
mod laws;
mod numbers;
mod printed;
mod words;

pub use addresses::{address_of, prefix_of, side_of};
pub use commands::{CommonCommand, common_command};
pub use kinds::{
    action_of, count_of, frame_key, key_of, port_of, ports_of, protocol_choice, protocol_of,
    result_of, sequence_of,
};
pub use laws::{printed_is_read_back, shortens_the_longest};
pub use printed::Ipv6Text;
pub use words::{Words, command_words, cut_word, without_blanks};

/// Why a line is no command.
#[derive(Clone, Copy, Debug, PartialEq, Eq)]
pub enum WordFault {
    /// The first words begin no command of the script's kind.
    UnknownCommand,
    /// The command has another number of words.
    WordCount,
    /// The word is not an address, a slash and a length.
    BadPrefix,
    /// A bit past the prefix's length is set.
    HostBits,
    /// The word is no number of 32 bits.
    BadResult,
    /// The word is no number of 32 bits above 0.
    BadSequence,
    /// The word is no number of 32 bits.
    BadCount,
    /// The word is neither `permit` nor `deny`, nor `=` with a number of 32 bits behind it.
    BadAction,
    /// The word is neither a protocol's name nor a number of 8 bits.
    BadProtocol,
    /// The word is no port, or no range of ports.
    BadPorts,
    /// The word is no address.
    BadAddress,
    /// The word is not pairs of hexadecimal digits.
    BadHex,
    /// The word's bytes are a frame that has no key.
    Frame(FrameFault),
}

impl WordFault {
    ghost use Rattle.line_words.specs.Texts.{word_fault_text};

    /// The fault's name in a report.
    pub fn text(&self) -> &'static str
        ensures { result.now ≡ word_fault_text self.now }
    {
        match self {
            WordFault::UnknownCommand => "unknown command",
            WordFault::WordCount => "word count",
            WordFault::BadPrefix => "bad prefix",
            WordFault::HostBits => "host bits",
            WordFault::BadResult => "bad result",
            WordFault::BadSequence => "bad sequence",
            WordFault::BadCount => "bad count",
            WordFault::BadAction => "bad action",
            WordFault::BadProtocol => "bad protocol",
            WordFault::BadPorts => "bad ports",
            WordFault::BadAddress => "bad address",
            WordFault::BadHex => "bad hex",
            WordFault::Frame(FrameFault::Empty) => "empty packet",
            WordFault::Frame(FrameFault::Version) => "bad version",
            WordFault::Frame(FrameFault::HeaderLength) => "bad header length",
            WordFault::Frame(FrameFault::Short) => "short packet",
        }
    }
}

impl fmt::Display for WordFault {
    ghost use Rattle.line_words.specs.Texts.{word_fault_text};

    ghost output = { λ fault. Some (word_fault_text fault) };

    fn fmt<W: fmt::Write>(&self, f: &mut fmt::Formatter<W>) -> fmt::Result {
        f.write_str(self.text())
    }
}

impl Error for WordFault {}

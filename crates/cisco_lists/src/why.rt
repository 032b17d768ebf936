//! Why a line isn't said.

ghost use Rattle.std.specs.Prelude.{◌≡◌};
ghost use Rattle.cisco_lists.specs.Words.{has_types, is_flag, is_fragment, is_group, is_service, why_of, why_text};

use ip_routes::is_named;

/// Why a line isn't said.
#[derive(Clone, Copy, Debug, PartialEq, Eq)]
pub enum Why {
    /// The word isn't known where it stands.
    Word,
    /// The line ends where a word is wanted.
    Value,
    /// The line is of a second list, and none was chosen.
    List,
    /// It is an entry of no list.
    NoList,
    /// The word is no number of an entry, or there are none left.
    Number,
    /// An entry before it has this number or a greater one.
    Order,
    /// The word is no protocol.
    Protocol,
    /// The word is no address, or it has a bit that its mask lets go.
    Address,
    /// The word is no wildcard mask of a prefix.
    Wildcard,
    /// The word is no port, or no port is left.
    Port,
    /// The entry is of connections that stand.
    Established,
    /// It asks for flags of TCP.
    Flags,
    /// It asks for a type of ICMP, or of IGMP.
    Type,
    /// It asks for a type of service.
    Service,
    /// It is of fragments.
    Fragments,
    /// It holds at some times.
    Times,
    /// It names a group of addresses or ports.
    Group,
}

impl Why {
    /// Why, in the words of a script.
    pub(crate) fn text(self) -> &'static str
        ensures { result.now ≡ why_text self }
    {
        match self {
            Why::Word => "unknown word",
            Why::Value => "no value",
            Why::List => "another list",
            Why::NoList => "no list",
            Why::Number => "bad number",
            Why::Order => "order of numbers",
            Why::Protocol => "bad protocol",
            Why::Address => "bad address",
            Why::Wildcard => "bad wildcard mask",
            Why::Port => "bad port",
            Why::Established => "established",
            Why::Flags => "flags",
            Why::Type => "type",
            Why::Service => "type of service",
            Why::Fragments => "fragments",
            Why::Times => "time range",
            Why::Group => "group",
        }
    }
}

/// Why an entry of this protocol isn't said that has this word behind its sides.
pub(crate) fn why_of(protocol: Option<u8>, word: &[u8]) -> Why
    ensures { result ≡ why_of protocol word.now }
{
    if is_named(word, b"established") {
        Why::Established
    } else if is_flag(word) {
        Why::Flags
    } else if is_service(word) {
        Why::Service
    } else if is_fragment(word) {
        Why::Fragments
    } else if is_named(word, b"time-range") {
        Why::Times
    } else if is_group(word) {
        Why::Group
    } else if has_types(protocol) {
        Why::Type
    } else {
        Why::Word
    }
}

/// A word that asks for flags of TCP.
fn is_flag(word: &[u8]) -> bool
    ensures { result ≡ is_flag word.now }
{
    is_named(word, b"ack")
        || is_named(word, b"fin")
        || is_named(word, b"psh")
        || is_named(word, b"rst")
        || is_named(word, b"syn")
        || is_named(word, b"urg")
        || is_named(word, b"match-all")
        || is_named(word, b"match-any")
}

/// A word behind which a type of service stands.
fn is_service(word: &[u8]) -> bool
    ensures { result ≡ is_service word.now }
{
    is_named(word, b"dscp")
        || is_named(word, b"precedence")
        || is_named(word, b"tos")
        || is_named(word, b"ecn")
}

/// A word of fragments.
fn is_fragment(word: &[u8]) -> bool
    ensures { result ≡ is_fragment word.now }
{
    is_named(word, b"fragments") || is_named(word, b"fragment")
}

/// A word behind which the name of a group stands.
pub(crate) fn is_group(word: &[u8]) -> bool
    ensures { result ≡ is_group word.now }
{
    is_named(word, b"object-group") || is_named(word, b"addrgroup") || is_named(word, b"portgroup")
}

/// Whether packets of a protocol have types: those of ICMP and of IGMP.
fn has_types(protocol: Option<u8>) -> bool
    ensures { result ≡ has_types protocol }
{
    match protocol {
        None => false,
        Some(number) => number == 1 || number == 2,
    }
}

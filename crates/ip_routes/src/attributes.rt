//! What the words behind a route's prefix are, and why a line isn't said.

ghost use Rattle.std.specs.Prelude.{◌≡◌};
ghost use Rattle.std.specs.Str.{bytes_eq};
ghost use Rattle.ip_routes.specs.Words.{attribute_for, attribute_in, attribute_of, is_another_kind, is_down, is_family, is_flag, is_hop_value, is_of_origin, is_of_sending, is_preference, is_service, kind_of, why_of, why_text};

use rule_model::IpVersion;

/// Where packets of a route go.
#[derive(Clone, Copy, Debug, PartialEq, Eq)]
pub enum RouteKind {
    /// To the next hop that the line names.
    Unicast,
    /// Nowhere, and nothing is said.
    Blackhole,
    /// Nowhere, and the sender is told that there is no way.
    Unreachable,
    /// Nowhere, and the sender is told that it isn't allowed.
    Prohibit,
}

/// What a word behind the prefix asks for.
#[derive(Clone, Copy, Debug, PartialEq, Eq)]
pub(crate) enum Attribute {
    /// It is a part of the next hop.
    Hop,
    /// It is one, and so is the word behind it.
    HopValue,
    /// It has no part in the answer.
    Flag,
    /// Neither has the word behind it.
    Skipped,
    /// The word behind it is the metric.
    Metric,
    /// It isn't known, or says that the route holds for some packets alone.
    Unsaid,
}

/// Why a line isn't said.
#[derive(Clone, Copy, Debug, PartialEq, Eq)]
pub enum Why {
    /// A route of this kind has no answer of its own.
    Kind,
    /// The word is no prefix of this version of IP.
    Prefix,
    /// The route stands in another table.
    Table,
    /// It is one of the other version of IP.
    Version,
    /// It holds for packets of one type of service.
    Service,
    /// It holds for packets of some senders.
    Sender,
    /// Packets are wrapped up before they are sent.
    Encap,
    /// It is there and not in use.
    Down,
    /// The word isn't known.
    Word,
    /// The line ends behind a word that wants another one.
    Value,
    /// The word is no metric.
    Metric,
    /// A route to a next hop names none.
    Hop,
    /// The next hop has too many bytes for a comment.
    LongHop,
    /// The route of this prefix before it has a greater metric.
    Order,
    /// The route of this prefix before it has the same metric, and in IPv6 either may count.
    Equal,
    /// A route goes, and the one of its prefix and metric that is known has another next hop.
    OtherHop,
}

impl Why {
    /// Why, in the words of a script.
    pub(crate) fn text(self) -> &'static str
        ensures { result.now ≡ why_text self }
    {
        match self {
            Why::Kind => "kind of route",
            Why::Prefix => "no prefix",
            Why::Table => "another table",
            Why::Version => "another version",
            Why::Service => "type of service",
            Why::Sender => "by sender",
            Why::Encap => "encapsulation",
            Why::Down => "not in use",
            Why::Word => "unknown word",
            Why::Value => "no value",
            Why::Metric => "bad metric",
            Why::Hop => "no next hop",
            Why::LongHop => "long next hop",
            Why::Order => "order of metrics",
            Why::Equal => "same metric",
            Why::OtherHop => "another next hop",
        }
    }
}

/// The kind of route that a word names, if it names one that is said.
pub fn kind_of(word: &[u8]) -> Option<RouteKind>
    ensures { result ≡ kind_of word.now }
{
    if is_named(word, b"unicast") {
        Some(RouteKind::Unicast)
    } else if is_named(word, b"blackhole") {
        Some(RouteKind::Blackhole)
    } else if is_named(word, b"unreachable") {
        Some(RouteKind::Unreachable)
    } else if is_named(word, b"prohibit") {
        Some(RouteKind::Prohibit)
    } else {
        None
    }
}

/// Whether a word names a kind of route that leads to something else than one place: to this machine, to several, or to
/// another table.
pub fn is_another_kind(word: &[u8]) -> bool
    ensures { result ≡ is_another_kind word.now }
{
    is_named(word, b"local")
        || is_named(word, b"broadcast")
        || is_named(word, b"multicast")
        || is_named(word, b"anycast")
        || is_named(word, b"throw")
        || is_named(word, b"nat")
        || is_named(word, b"xresolve")
}

/// What a word behind the prefix asks for.
fn attribute_of(word: &[u8]) -> Attribute
    ensures { result ≡ attribute_of word.now }
{
    if is_named(word, b"nexthop") {
        Attribute::Hop
    } else if is_hop_value(word) {
        Attribute::HopValue
    } else if is_flag(word) {
        Attribute::Flag
    } else if is_of_origin(word) {
        Attribute::Skipped
    } else if is_of_sending(word) {
        Attribute::Skipped
    } else if is_named(word, b"metric") {
        Attribute::Metric
    } else {
        Attribute::Unsaid
    }
}

/// A word that is a part of the next hop, and so is the one behind it.
fn is_hop_value(word: &[u8]) -> bool
    ensures { result ≡ is_hop_value word.now }
{
    is_named(word, b"via") || is_named(word, b"dev") || is_named(word, b"weight")
}

/// A word that says something to this machine alone, or to its hardware.
fn is_flag(word: &[u8]) -> bool
    ensures { result ≡ is_flag word.now }
{
    is_named(word, b"onlink")
        || is_named(word, b"offload")
        || is_named(word, b"rt_offload")
        || is_named(word, b"trap")
        || is_named(word, b"rt_trap")
}

/// A word behind which stands where a route comes from, or what it is to this machine.
fn is_of_origin(word: &[u8]) -> bool
    ensures { result ≡ is_of_origin word.now }
{
    is_named(word, b"proto")
        || is_named(word, b"scope")
        || is_named(word, b"src")
        || is_named(word, b"pref")
        || is_named(word, b"nhid")
}

/// A word behind which stands how packets are sent, and not where to.
fn is_of_sending(word: &[u8]) -> bool
    ensures { result ≡ is_of_sending word.now }
{
    is_named(word, b"mtu")
        || is_named(word, b"advmss")
        || is_named(word, b"hoplimit")
        || is_named(word, b"expires")
        || is_named(word, b"error")
}

/// What a word behind the prefix asks for, of a route that goes or of one that stands: of one that goes it doesn't matter
/// whether it was in use.
fn attribute_for(gone: bool, word: &[u8]) -> Attribute
    ensures { result ≡ attribute_for gone word.now }
{
    if gone && is_down(word) {
        return Attribute::Flag;
    }
    attribute_of(word)
}

/// The same by the version of IP: of IPv4 no route has a preference.
pub(crate) fn attribute_in(version: IpVersion, gone: bool, word: &[u8]) -> Attribute
    ensures { result ≡ attribute_in version gone word.now }
{
    match version {
        IpVersion::V4 => attribute_in_four(gone, word),
        IpVersion::V6 => attribute_for(gone, word),
    }
}

/// The same of IPv4.
fn attribute_in_four(gone: bool, word: &[u8]) -> Attribute
    ensures { result ≡ attribute_in IpVersion.V4 gone word.now }
{
    if is_preference(word) {
        return Attribute::Unsaid;
    }
    attribute_for(gone, word)
}

/// A router's preference, which a route of IPv6 has.
fn is_preference(word: &[u8]) -> bool
    ensures { result ≡ is_preference word.now }
{
    is_named(word, b"pref")
}

/// Why a line isn't said that has this word where one is that says something of the route.
pub(crate) fn why_of(word: &[u8]) -> Why
    ensures { result ≡ why_of word.now }
{
    if is_named(word, b"table") {
        Why::Table
    } else if is_service(word) {
        Why::Service
    } else if is_named(word, b"from") {
        Why::Sender
    } else if is_preference(word) {
        Why::Version
    } else if is_named(word, b"encap") {
        Why::Encap
    } else if is_down(word) {
        Why::Down
    } else {
        Why::Word
    }
}

/// A word behind which the type of service stands.
fn is_service(word: &[u8]) -> bool
    ensures { result ≡ is_service word.now }
{
    is_named(word, b"tos") || is_named(word, b"dsfield")
}

/// A word of a route that is there and not in use.
fn is_down(word: &[u8]) -> bool
    ensures { result ≡ is_down word.now }
{
    is_named(word, b"dead") || is_named(word, b"linkdown") || is_named(word, b"unresolved")
}

/// Whether a word behind `via` names the version of IP of the address behind it.
pub(crate) fn is_family(word: &[u8]) -> bool
    ensures { result ≡ is_family word.now }
{
    is_named(word, b"inet") || is_named(word, b"inet6")
}

/// Whether a word is this one.
pub fn is_named(word: &[u8], name: &[u8]) -> bool
    ensures { result ≡ bytes_eq word.now name.now }
{
    word == name
}

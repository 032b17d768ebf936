//! Why a frame isn't said.

ghost use Rattle.std.specs.Prelude.{◌≡◌};
ghost use Rattle.fpm_routes.specs.Telling.{why_text};

/// Why a frame isn't said. What the number beside it is of, each says.
#[derive(Clone, Copy, Debug, PartialEq, Eq)]
pub(crate) enum Why {
    /// A message of this kind isn't known.
    Message,
    /// A message, an attribute or a member of this length isn't there as a whole.
    Cut,
    /// An attribute of this kind, or a message, has another length.
    Length,
    /// An attribute of this kind comes twice.
    Twice,
    /// An attribute of this kind isn't known.
    Attribute,
    /// This attribute says how packets are wrapped.
    Encapsulation,
    /// This attribute says whose packets a route is of, or so many bits of a sender.
    Sender,
    /// A route is of this family of addresses, and of neither version of IP.
    Family,
    /// A route is of this kind.
    Kind,
    /// A route is of this type of service.
    Service,
    /// Of so many bits there is no prefix.
    Prefix,
    /// A route of this kind names no next hop.
    Hop,
    /// A next hop has so many bytes in words.
    LongHop,
}

impl Why {
    /// What it says of the number behind it.
    pub(crate) fn text(self) -> &'static str
        ensures { result.now ≡ why_text self }
    {
        match self {
            Why::Message => "unknown message",
            Why::Cut => "cut off",
            Why::Length => "length",
            Why::Twice => "attribute twice",
            Why::Attribute => "unknown attribute",
            Why::Encapsulation => "encapsulation",
            Why::Sender => "by sender",
            Why::Family => "family",
            Why::Kind => "kind of route",
            Why::Service => "type of service",
            Why::Prefix => "no prefix",
            Why::Hop => "no next hop",
            Why::LongHop => "long next hop",
        }
    }
}

/// Why a frame isn't said, and a number.
#[derive(Clone, Copy, Debug, PartialEq, Eq)]
pub(crate) struct Unsaid {
    pub(crate) why: Why,
    pub(crate) number: u32,
}

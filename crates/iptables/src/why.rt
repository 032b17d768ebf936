//! Why a line isn't said.

ghost use Rattle.std.specs.Prelude.{◌≡◌};
ghost use Rattle.iptables.specs.Words.{why_text};

/// Why a line isn't said.
#[derive(Clone, Copy, Debug, PartialEq, Eq)]
pub(crate) enum Why {
    /// The word isn't known.
    Word,
    /// The line ends behind a word that wants another one.
    Value,
    /// The word has a backslash, by which quotes within quotes are written.
    Escape,
    /// The word is no prefix of this version of IP.
    Address,
    /// The word is no two addresses of this version, in their order, with a dash between.
    Span,
    /// The word is no protocol that is known by its name or its number.
    Protocol,
    /// The word is no port and no range of ports, or the protocol has none.
    Ports,
    /// The rule holds for packets of a connection's state.
    State,
    /// It holds for packets by something else.
    Match,
    /// It holds for all packets but those that the word names.
    Negation,
    /// It holds for packets of an interface.
    Interface,
    /// The target isn't known, and there is no such chain.
    Target,
    /// A target stands there twice.
    Twice,
    /// There is no such chain.
    Chain,
    /// The chain has no policy of its own.
    Policy,
    /// The list would have too many lines.
    Many,
    /// Jumps are nested too deep, or lead in a circle.
    Deep,
    /// Chains of nft stand beside those that are printed.
    Beside,
    /// A list stands before it.
    Second,
}

impl Why {
    /// Why, in the words of a script.
    pub(crate) fn text(self) -> &'static str
        ensures { result.now ≡ why_text self }
    {
        match self {
            Why::Word => "unknown word",
            Why::Value => "no value",
            Why::Escape => "backslash",
            Why::Address => "no prefix",
            Why::Span => "no range",
            Why::Protocol => "unknown protocol",
            Why::Ports => "no ports",
            Why::State => "conntrack state",
            Why::Match => "match",
            Why::Negation => "negation",
            Why::Interface => "interface",
            Why::Target => "target",
            Why::Twice => "two targets",
            Why::Chain => "no chain",
            Why::Policy => "no policy",
            Why::Many => "too many lines",
            Why::Deep => "jumps too deep",
            Why::Beside => "chains beside",
            Why::Second => "another list",
        }
    }
}

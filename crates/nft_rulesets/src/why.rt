//! Why a rule isn't said.

ghost use Rattle.std.specs.Prelude.{◌≡◌};
ghost use Rattle.nft_rulesets.specs.Rules.{why_text};

/// Why a rule, or a list, isn't said.
#[derive(Clone, Copy, Debug, PartialEq, Eq)]
pub(crate) enum Why {
    /// The statement isn't known.
    Statement,
    /// It is about a connection.
    State,
    /// It tests what a key of a script doesn't have, or what isn't known.
    Match,
    /// It compares in another way.
    Operator,
    /// What it compares with isn't known.
    Values,
    /// There is no set, or no map, of that name, or it has what isn't known.
    Set,
    /// It tests a port of packets that may have none.
    Ports,
    /// It stands behind a verdict.
    Behind,
    /// There is no chain to which it leads.
    Target,
    /// A pair of a map has packets of one before it that lets them go on.
    Overlap,
    /// There would be too many lines.
    Many,
    /// Jumps are nested too deep, or lead in a circle.
    Deep,
}

impl Why {
    /// Why, in the words of a script.
    pub(crate) fn text(self) -> &'static str
        ensures { result.now ≡ why_text self }
    {
        match self {
            Why::Statement => "statement",
            Why::State => "conntrack state",
            Why::Match => "match",
            Why::Operator => "operator",
            Why::Values => "no values",
            Why::Set => "no set of values",
            Why::Ports => "no ports",
            Why::Behind => "behind a verdict",
            Why::Target => "target",
            Why::Overlap => "overlapping pairs",
            Why::Many => "too many lines",
            Why::Deep => "jumps too deep",
        }
    }
}

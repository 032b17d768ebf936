//! What a key of a route, or of a next hop, asks for.

ghost use Rattle.std.specs.Prelude.{◌≡◌};
ghost use Rattle.json_routes.specs.Lines.{is_bare, is_named_so, is_of_address, is_passed, other_part, part_of};

/// What a member comes to.
#[derive(Clone, Copy, Debug, PartialEq, Eq)]
pub(crate) enum Part {
    /// Its value, a word.
    Bare,
    /// The address of a next hop, behind `via`.
    Gateway,
    /// Its value behind its key.
    Named,
    /// The address of a next hop of the other version of IP.
    Address,
    /// Words, perhaps none.
    Flags,
    /// Nothing.
    Passed,
    /// The route isn't said.
    Encap,
    /// It isn't either.
    Unknown,
}

/// A key whose value is a word that no name stands before.
fn is_bare(key: &str) -> bool
    ensures { result ≡ is_bare key.now }
{
    key == "type" || key == "dst"
}

/// One whose value is a word behind the name of the key.
fn is_named_so(key: &str) -> bool
    ensures { result ≡ is_named_so key.now }
{
    key == "dev"
        || key == "weight"
        || key == "metric"
        || key == "table"
        || key == "pref"
        || key == "from"
        || key == "tos"
}

/// One that says where a route comes from, or what it is to this machine, or how packets are sent, and not where to.
fn is_passed(key: &str) -> bool
    ensures { result ≡ is_passed key.now }
{
    key == "protocol"
        || key == "scope"
        || key == "prefsrc"
        || key == "nhid"
        || key == "metrics"
        || key == "expires"
        || key == "error"
}

/// A key of an address of the other version of IP.
pub(crate) fn is_of_address(key: &str) -> bool
    ensures { result ≡ is_of_address key.now }
{
    key == "family" || key == "host"
}

/// What the member of a key comes to.
pub(crate) fn part_of(key: &str) -> Part
    ensures { result ≡ part_of key.now }
{
    if is_bare(key) {
        return Part::Bare;
    }
    if key == "gateway" {
        return Part::Gateway;
    }
    if is_named_so(key) {
        return Part::Named;
    }
    other_part(key)
}

/// The same of the other keys.
fn other_part(key: &str) -> Part
    ensures { result ≡ other_part key.now }
{
    match key {
        "via" => Part::Address,
        "flags" => Part::Flags,
        "encap" => Part::Encap,
        _ => {
            if is_passed(key) {
                return Part::Passed;
            }
            Part::Unknown
        }
    }
}

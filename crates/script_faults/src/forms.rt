//! The words that each command of a script takes.

ghost use Rattle.std.specs.Prelude.{◌≡◌, ◌≤◌, IfErr};
ghost use Rattle.script_faults.specs.Troubles.{grammar_version};

use rule_model::IpVersion;

/// The kinds of scripts, by their commands.
#[derive(Clone, Copy, Debug, PartialEq, Eq)]
pub enum Grammar {
    /// Routes of a version of IP.
    Routes(IpVersion),
    /// An access list of a version of IP.
    List(IpVersion),
    /// A router's two tables, a list and routes of a version of IP.
    Router(IpVersion),
}

impl Grammar {
    /// The version of IP of its addresses, prefixes and frames.
    pub fn version(self) -> IpVersion
        ensures { result ≡ grammar_version self }
    {
        match self {
            Grammar::Routes(version) | Grammar::List(version) | Grammar::Router(version) => version,
        }
    }
}

/// A kind of word.
#[derive(Clone, Copy, Debug, PartialEq, Eq)]
pub enum Kind {
    /// A route's prefix.
    Prefix,
    /// A route's result.
    Answer,
    /// The sequence number of a rule of an access list.
    Sequence,
    /// The action of a rule of an access list.
    Action,
    /// The source's or the destination's side of a rule.
    Side,
    /// The protocol of a rule, or any.
    ProtocolSpec,
    /// The ports of a rule.
    PortSpec,
    /// An address of a packet.
    Address,
    /// The protocol of a packet.
    Protocol,
    /// A port of a packet.
    Port,
    /// The number of writes of a trial or a crash.
    Count,
    /// The bytes of a frame.
    Hex,
}

/// The commands, by the words that they take.
#[derive(Clone, Copy, Debug, PartialEq, Eq)]
pub enum Form {
    /// `route add`, `route set` and `route put`: a prefix and a result.
    Route,
    /// `route del` and `route drop`: a prefix.
    RouteDel,
    /// `acl add` and `acl put`: all of a rule.
    AclAdd,
    /// `acl set`: a sequence number and an action.
    AclSet,
    /// `acl del` and `acl drop`: a sequence number.
    AclDel,
    /// `route all` and `acl all`: nothing more.
    All,
    /// `probe` and `packet`: a key.
    Key,
    /// `frame`: the bytes of a packet.
    Frame,
    /// `commit`: nothing.
    Commit,
    /// `trial` and `crash`: a number of writes.
    Limit,
}

/// The command that a line's first two words begin. Err: the place of the word, from 0, that begins none.
pub(crate) fn form_of(grammar: Grammar, first: &[u8], second: Option<&[u8]>) -> Result<Form, usize>
    ensures { IfErr result (λ place. place ≤ 1) }
{
    match (grammar, first) {
        (Grammar::Routes(_), b"route") | (Grammar::Router(_), b"route") => route_form(second),
        (Grammar::List(_), b"acl") | (Grammar::Router(_), b"acl") => list_form(second),
        (Grammar::Router(_), b"probe") => Err(0),
        (Grammar::Router(_), b"trial") | (Grammar::Router(_), b"crash") => Err(0),
        (_, b"probe") | (_, b"packet") => Ok(Form::Key),
        (_, b"frame") => Ok(Form::Frame),
        (_, b"commit") => Ok(Form::Commit),
        (_, b"trial") | (_, b"crash") => Ok(Form::Limit),
        _ => Err(0),
    }
}

/// The command that `route` and this word begin.
fn route_form(second: Option<&[u8]>) -> Result<Form, usize>
    ensures { IfErr result (λ place. place ≤ 1) }
{
    match second {
        Some(b"add") | Some(b"set") | Some(b"put") => Ok(Form::Route),
        Some(b"del") | Some(b"drop") => Ok(Form::RouteDel),
        Some(b"all") => Ok(Form::All),
        _ => Err(1),
    }
}

/// The command that `acl` and this word begin.
fn list_form(second: Option<&[u8]>) -> Result<Form, usize>
    ensures { IfErr result (λ place. place ≤ 1) }
{
    match second {
        Some(b"add") | Some(b"put") => Ok(Form::AclAdd),
        Some(b"set") => Ok(Form::AclSet),
        Some(b"del") | Some(b"drop") => Ok(Form::AclDel),
        Some(b"all") => Ok(Form::All),
        _ => Err(1),
    }
}

/// The kind of the word at a place of a command, from 0 in its line: none for the words that name the command, and none
/// behind the last one.
pub(crate) fn kind_at(form: Form, place: usize) -> Option<Kind> {
    match (form, place) {
        (Form::Route, 2) | (Form::RouteDel, 2) => Some(Kind::Prefix),
        (Form::Route, 3) => Some(Kind::Answer),
        (Form::AclAdd, 2) | (Form::AclSet, 2) | (Form::AclDel, 2) => Some(Kind::Sequence),
        (Form::AclAdd, 3) | (Form::AclSet, 3) => Some(Kind::Action),
        (Form::AclAdd, 4) | (Form::AclAdd, 5) => Some(Kind::Side),
        (Form::AclAdd, 6) => Some(Kind::ProtocolSpec),
        (Form::AclAdd, 7) | (Form::AclAdd, 8) => Some(Kind::PortSpec),
        (Form::Key, 1) | (Form::Key, 2) => Some(Kind::Address),
        (Form::Key, 3) => Some(Kind::Protocol),
        (Form::Key, 4) | (Form::Key, 5) => Some(Kind::Port),
        (Form::Frame, 1) => Some(Kind::Hex),
        (Form::Limit, 1) => Some(Kind::Count),
        _ => None,
    }
}

/// The place of the first word of a command that doesn't name it.
pub(crate) fn first_place(form: Form) -> usize {
    match form {
        Form::Key | Form::Frame | Form::Commit | Form::Limit => 1,
        Form::Route | Form::RouteDel | Form::AclAdd | Form::AclSet | Form::AclDel | Form::All => 2,
    }
}

/// How many words a command has.
pub(crate) fn words_in(form: Form) -> usize
    ensures { result ≤ 9 }
{
    match form {
        Form::Route => 4,
        Form::RouteDel => 3,
        Form::AclAdd => 9,
        Form::AclSet => 4,
        Form::AclDel => 3,
        Form::All => 2,
        Form::Key => 6,
        Form::Frame => 2,
        Form::Commit => 1,
        Form::Limit => 2,
    }
}

/// A command as the manual writes it.
pub(crate) fn form_text(form: Form) -> &'static str {
    match form {
        Form::Route => "PREFIX RESULT",
        Form::RouteDel => "PREFIX",
        Form::AclAdd => "SEQ ACTION SIDE SIDE PROTOSPEC PORTSPEC PORTSPEC",
        Form::AclSet => "SEQ ACTION",
        Form::AclDel => "SEQ",
        Form::All => "no word",
        Form::Key => "SRC DST PROTO SPORT DPORT",
        Form::Frame => "HEX",
        Form::Commit => "no word",
        Form::Limit => "a number of writes",
    }
}

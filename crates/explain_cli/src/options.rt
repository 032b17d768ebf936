//! The options that each command takes.

ghost use Rattle.std.specs.Prelude.{◌<◌};

use import_cli::{ChainName, FaceName};
use option_words::{mode_named, number_of, placement_of};
use report_lines::sizes_by;

/// The commands of the program, by their options.
#[derive(Clone, Copy, Debug, PartialEq, Eq)]
pub(crate) enum Subcommand {
    Route,
    Acl,
    Router,
    Gen,
    Verify,
    Draw,
    Import,
    Judge,
}

/// The options that some command has.
#[derive(Clone, Copy, Debug, PartialEq, Eq)]
pub(crate) enum Name {
    Slots,
    Ranges,
    Placement,
    Trace,
    Names,
    Removals,
    Depth,
    Json,
    Commit,
    Commits,
    Occupancy,
    Version,
    LeaveOut,
    List,
    Chain,
    In,
    Since,
    Results,
    Large,
    Help,
}

/// How many options there are.
pub(crate) const NAMES: usize = 20;

/// The command that a word names.
pub(crate) fn subcommand_named(word: &str) -> Option<Subcommand> {
    match word {
        "route" | "route6" => Some(Subcommand::Route),
        "acl" | "acl6" => Some(Subcommand::Acl),
        "router" | "router6" => Some(Subcommand::Router),
        "gen" => Some(Subcommand::Gen),
        "verify" => Some(Subcommand::Verify),
        "draw" => Some(Subcommand::Draw),
        "import" => Some(Subcommand::Import),
        "judge" => Some(Subcommand::Judge),
        _ => None,
    }
}

/// The option that a word names, if some command has one.
pub(crate) fn option_named(word: &str) -> Option<Name> {
    match word {
        "--slots" => Some(Name::Slots),
        "--ranges" => Some(Name::Ranges),
        "--placement" => Some(Name::Placement),
        "--trace" => Some(Name::Trace),
        "--names" => Some(Name::Names),
        "--removals" => Some(Name::Removals),
        "--depth" => Some(Name::Depth),
        "--json" => Some(Name::Json),
        "--commit" => Some(Name::Commit),
        "--commits" => Some(Name::Commits),
        "--occupancy" => Some(Name::Occupancy),
        "--version" => Some(Name::Version),
        "--leave-out" => Some(Name::LeaveOut),
        "--list" => Some(Name::List),
        "--chain" => Some(Name::Chain),
        "--in" => Some(Name::In),
        "--since" => Some(Name::Since),
        "--results" => Some(Name::Results),
        "--large" => Some(Name::Large),
        "--help" | "-h" => Some(Name::Help),
        _ => None,
    }
}

/// Whether a command has an option.
pub(crate) fn has_option(subcommand: Subcommand, name: Name) -> bool {
    match name {
        Name::Help => true,
        Name::Slots | Name::Placement => matches!(
            subcommand,
            Subcommand::Route | Subcommand::Acl | Subcommand::Router | Subcommand::Gen
        ),
        Name::Ranges => matches!(
            subcommand,
            Subcommand::Acl | Subcommand::Router | Subcommand::Gen
        ),
        Name::Trace | Name::Large => matches!(
            subcommand,
            Subcommand::Route | Subcommand::Acl | Subcommand::Router
        ),
        Name::Names | Name::Removals | Name::Depth | Name::Json => {
            matches!(subcommand, Subcommand::Route | Subcommand::Acl)
        }
        Name::Commit | Name::Commits | Name::Occupancy => subcommand == Subcommand::Draw,
        Name::Version | Name::LeaveOut | Name::List | Name::Chain | Name::In | Name::Since =>
            subcommand == Subcommand::Import,
        Name::Results => subcommand == Subcommand::Judge,
    }
}

/// The options of a command, as a sentence has them.
pub(crate) fn options_text(subcommand: Subcommand) -> &'static str {
    match subcommand {
        Subcommand::Route =>
            "--slots, --placement, --removals, --trace, --names, --depth, --json and --large",
        Subcommand::Acl =>
            "--slots, --ranges, --placement, --removals, --trace, --names, --depth, --json and --large",
        Subcommand::Router => "--slots, --ranges, --placement, --trace and --large",
        Subcommand::Gen => "--slots, --ranges and --placement",
        Subcommand::Verify => "no option",
        Subcommand::Draw => "--commit, --commits and --occupancy",
        Subcommand::Import => "--version, --leave-out, --list, --chain, --in and --since",
        Subcommand::Judge => "--results",
    }
}

/// What may stand behind an option, as a sentence has it, of words with `--large` or without; none where nothing may.
pub(crate) fn values_text(name: Name, large: bool) -> Option<&'static str> {
    match name {
        Name::Slots if large => Some("1 to 1048576"),
        Name::Slots => Some("1 to 4096"),
        Name::Ranges => Some("cover or bits"),
        Name::Placement => Some("middle, rank or ends"),
        Name::Removals => Some("first or last"),
        Name::Depth => Some("0 to 15"),
        Name::Commit => Some("a number from 1"),
        Name::Commits => Some("two numbers from 1, as 2-5"),
        Name::Version => Some("4 or 6"),
        Name::List => Some("the name of a list, of cisco"),
        Name::Chain => Some(
            "INPUT, FORWARD or OUTPUT, of iptables, or three names, of nft: family, table and chain",
        ),
        Name::In => Some("the name of an interface, of iptables"),
        Name::Since => Some("the name of a file, of iptables and nft"),
        Name::Trace
        | Name::Names
        | Name::Json
        | Name::Occupancy
        | Name::LeaveOut
        | Name::Results
        | Name::Large
        | Name::Help => None,
    }
}

/// Whether a value may stand behind an option, of words with `--large` or without.
pub(crate) fn is_value(name: Name, value: &str, large: bool) -> bool {
    match name {
        Name::Slots => number_of(value, 1, sizes_by(large).slots).is_some(),
        Name::Ranges => mode_named(value).is_some(),
        Name::Placement => placement_of(value).is_some(),
        Name::Removals => matches!(value, "first" | "last"),
        Name::Depth => number_of(value, 0, 15).is_some(),
        Name::Commit => is_commit(value),
        Name::Commits => are_commits(value),
        Name::Version => matches!(value, "4" | "6"),
        Name::List => value.len() <= 64,
        Name::Chain => is_chain(value),
        Name::In => FaceName::new(value.as_bytes()).is_some(),
        Name::Since => !value.is_empty(),
        Name::Trace
        | Name::Names
        | Name::Json
        | Name::Occupancy
        | Name::LeaveOut
        | Name::Results
        | Name::Large
        | Name::Help => false,
    }
}

/// Whether a value is a chain of iptables, or one of nft.
fn is_chain(value: &str) -> bool {
    matches!(value, "INPUT" | "FORWARD" | "OUTPUT") || ChainName::new(value).is_some()
}

/// Whether a value is the number of a commit.
fn is_commit(value: &str) -> bool {
    number_of(value, 1, u32::MAX).is_some()
}

/// Whether a value is two numbers of commits, the second no less.
fn are_commits(value: &str) -> bool {
    match value.split_once('-') {
        Some((first, last)) => match (number_of(first, 1, u32::MAX), number_of(last, 1, u32::MAX)) {
            (Some(first), Some(last)) => first <= last,
            _ => false,
        },
        None => false,
    }
}

/// The place of an option among all.
pub(crate) fn place_of(name: Name) -> usize
    ensures { result < NAMES }
{
    match name {
        Name::Slots => 0,
        Name::Ranges => 1,
        Name::Placement => 2,
        Name::Trace => 3,
        Name::Depth => 4,
        Name::Json => 5,
        Name::Commit => 6,
        Name::Commits => 7,
        Name::Occupancy => 8,
        Name::Help => 9,
        Name::Version => 10,
        Name::LeaveOut => 11,
        Name::Names => 12,
        Name::Removals => 13,
        Name::Results => 14,
        Name::List => 15,
        Name::Chain => 16,
        Name::In => 17,
        Name::Since => 18,
        Name::Large => 19,
    }
}

/// An option whose name is like a word, if there is one.
pub(crate) fn option_like(word: &str) -> Option<&'static str> {
    match word {
        "--slot" | "--size" | "-s" => Some("--slots"),
        "--range" | "--bits" | "--cover" | "-r" => Some("--ranges"),
        "--place" | "--placements" | "-p" => Some("--placement"),
        "--traces" | "--verbose" | "-v" | "-t" => Some("--trace"),
        "--name" | "--named" | "-n" => Some("--names"),
        "--removal" | "--remove" => Some("--removals"),
        "--depths" | "-d" => Some("--depth"),
        "--JSON" | "-j" => Some("--json"),
        "--big" | "--huge" | "-l" => Some("--large"),
        "-help" | "-?" => Some("--help"),
        _ => None,
    }
}

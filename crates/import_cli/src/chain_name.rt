//! The name of a chain of a ruleset, as a command line has it.

ghost use Rattle.std.specs.Prelude.{◌≡◌, option_map};
ghost use Rattle.import_cli.specs.ChainName.{chain_in, cut, input_chain, with_names};
ghost use Rattle.import_cli.specs.ListName.{name_in};

use crate::list_name::ListName;

/// A chain: the family and the name of its table, and its own name, each in the room of a list's name.
#[derive(Drop)]
pub struct ChainName {
    pub family: ListName,
    pub table: ListName,
    pub name: ListName,
}

impl ChainName {
    /// The chain `input` of the table `filter` of both versions of IP.
    pub fn input() -> ChainName
        ensures { result ≡ input_chain }
    {
        ChainName {
            family: ListName::of(b"inet"),
            table: ListName::of(b"filter"),
            name: ListName::of(b"input"),
        }
    }

    /// The chain that a word names by its three names, a blank between them.
    pub fn new(word: &str) -> Option<ChainName>
        ensures { result ≡ chain_in word.now }
    {
        let (family, rest) = cut(word)?;
        let (table, name) = cut(rest)?;
        with_names(family, table, name)
    }
}

/// What stands before the first blank of a word, and what stands behind it.
fn cut(word: &str) -> Option<(&str, &str)>
    ensures { option_map (λ parts. (parts.0.now, parts.1.now)) result ≡ cut word.now }
{
    word.split_once(' ')
}

/// The chain of three names, if each has its room.
fn with_names(family: &str, table: &str, name: &str) -> Option<ChainName>
    ensures { result ≡ with_names (name_in family.now) (name_in table.now) (name_in name.now) }
{
    let family = ListName::new(family.as_bytes())?;
    let table = ListName::new(table.as_bytes())?;
    let name = ListName::new(name.as_bytes())?;
    Some(ChainName {
        family,
        table,
        name,
    })
}

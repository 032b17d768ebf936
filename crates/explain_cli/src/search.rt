//! Which words of a command line are wrong, and what they may be.

use crate::options::{
    NAMES, Name, Subcommand, has_option, is_value, option_like, option_named, options_text,
    place_of, subcommand_named, values_text,
};
use option_words::number_of;
use std::alloc::AllocError;

/// The names of the commands, as a sentence has them.
const COMMANDS: &str =
    "route, acl, route6, acl6, router, router6, gen, verify, draw, import or judge";

/// A walk over the words behind a command's name: whether the large sizes are among them, which options came, and how many
/// other words.
#[derive(Drop)]
struct Walk<'a> {
    subcommand: Subcommand,
    name: &'a str,
    large: bool,
    came: [bool; NAMES],
    others: usize,
}

/// Writes a line for each word that is wrong, of words that are no command line, the program's name first.
pub(crate) fn tell_words(text: &mut String, words: &[String]) -> Result<(), AllocError> {
    let Some(first) = words.get(1) else {
        return writeln!(text, "a command is missing: {COMMANDS}");
    };
    let name = first.as_str();
    match subcommand_named(name) {
        Some(subcommand) => tell_behind(text, subcommand, name, words),
        None => tell_command(text, name),
    }
}

/// What is wrong with a word that names no command.
fn tell_command(text: &mut String, word: &str) -> Result<(), AllocError> {
    match word {
        "help" => text.push_str("help: --help\n"),
        "version" => text.push_str("version: --version\n"),
        "explain" => writeln!(text, "explain: once alone, before {COMMANDS}"),
        _ if word.starts_with('-') => {
            writeln!(text, "{word}: a command stands first: {COMMANDS}")
        }
        _ => writeln!(text, "{word}: {COMMANDS}"),
    }
}

/// What is wrong with the words behind a command's name.
fn tell_behind(
    text: &mut String,
    subcommand: Subcommand,
    name: &str,
    words: &[String],
) -> Result<(), AllocError> {
    let mut walk = Walk {
        subcommand,
        name,
        large: is_large(subcommand, words),
        came: [false; NAMES],
        others: 0,
    };
    let mut value_due = false;
    for place in 2..words.len() {
        let word = words[place].as_str();
        let next = match words.get(place + 1) {
            Some(next) => Some(next.as_str()),
            None => None,
        };
        if value_due {
            value_due = false;
        } else {
            value_due = tell_word(text, &mut walk, word, next)?;
        }
    }
    tell_both(text, &walk)?;
    tell_missing(text, &walk)
}

/// Whether words ask for the large sizes, of a command that has them.
fn is_large(subcommand: Subcommand, words: &[String]) -> bool {
    let mut found = false;
    for word in words {
        found = found || word.as_str() == "--large";
    }
    found && has_option(subcommand, Name::Large)
}

/// That two options don't stand together, where they do.
fn tell_both(text: &mut String, walk: &Walk<'_>) -> Result<(), AllocError> {
    if walk.came[place_of(Name::Large)] && walk.came[place_of(Name::Json)] {
        return text.push_str(
            "--json: not with --large, since a trace tells of 4096 slots at most\n",
        );
    }
    Ok(())
}

/// What is wrong with a word, if something is, and whether the next word is its value.
fn tell_word(
    text: &mut String,
    walk: &mut Walk<'_>,
    word: &str,
    next: Option<&str>,
) -> Result<bool, AllocError> {
    if !word.starts_with('-') || word == "-" {
        tell_other(text, walk, word)?;
        return Ok(false);
    }
    let (option, inline) = match word.split_once('=') {
        Some((option, value)) => (option, Some(value)),
        None => (word, None),
    };
    match option_named(option) {
        Some(name) if has_option(walk.subcommand, name) => {
            tell_option(text, walk, name, option, inline, next)
        }
        found => {
            tell_no_option(text, walk, option)?;
            let takes = match found {
                Some(name) => values_text(name, walk.large).is_some(),
                None => option_like(option).is_some(),
            };
            Ok(takes && inline.is_none() && !begins_option(next))
        }
    }
}

/// Whether there is no next word, or one that begins as options do.
fn begins_option(next: Option<&str>) -> bool {
    match next {
        Some(next) => next.starts_with("--"),
        None => true,
    }
}

/// That a command has no such option.
fn tell_no_option(text: &mut String, walk: &Walk<'_>, option: &str) -> Result<(), AllocError> {
    let name = walk.name;
    match option_like(option) {
        Some(like) => writeln!(text, "{option}: {like}?"),
        None => {
            let options = options_text(walk.subcommand);
            writeln!(text, "{option}: {name} has {options}")
        }
    }
}

/// What is wrong with an option that the command has, if something is, and whether the next word is its value.
fn tell_option(
    text: &mut String,
    walk: &mut Walk<'_>,
    name: Name,
    option: &str,
    inline: Option<&str>,
    next: Option<&str>,
) -> Result<bool, AllocError> {
    let place = place_of(name);
    if walk.came[place] && name != Name::Help {
        writeln!(text, "{option}: once alone")?;
    }
    walk.came[place] = true;
    let Some(values) = values_text(name, walk.large) else {
        if let Some(value) = inline {
            writeln!(text, "{option}={value}: {option} alone, without a value")?;
        }
        return Ok(false);
    };
    match inline {
        Some(value) => {
            if !is_value(name, value, walk.large) {
                writeln!(text, "{option}={value}: {values}")?;
            }
            Ok(false)
        }
        None if begins_option(next) => {
            writeln!(text, "{option}: a value is missing, {values}")?;
            Ok(false)
        }
        None => {
            let value = next.unwrap_or("");
            if !is_value(name, value, walk.large) {
                writeln!(text, "{option} {value}: {values}")?;
            }
            Ok(true)
        }
    }
}

/// What is wrong with a word that is no option, if something is.
fn tell_other(text: &mut String, walk: &mut Walk<'_>, word: &str) -> Result<(), AllocError> {
    let name = walk.name;
    let place = walk.others;
    walk.others = walk.others.saturating_add(1);
    match walk.subcommand {
        Subcommand::Gen => tell_made(text, place, word),
        Subcommand::Import => tell_format(text, place, word),
        Subcommand::Verify | Subcommand::Draw | Subcommand::Judge => {
            writeln!(
                text,
                "{word}: the trace comes on standard input: tcam {name} < {word}"
            )
        }
        Subcommand::Route | Subcommand::Acl | Subcommand::Router => {
            writeln!(
                text,
                "{word}: the script comes on standard input: tcam {name} < {word}"
            )
        }
    }
}

/// What is wrong with a word of an import that is no option, by its place among these.
fn tell_format(text: &mut String, place: usize, word: &str) -> Result<(), AllocError> {
    match (place, word) {
        (0, "ip-routes" | "ip-monitor" | "ip-json" | "cisco" | "fpm" | "iptables" | "nft") => Ok(
            (),
        ),
        (0, _) => {
            writeln!(
                text,
                "{word}: ip-routes, ip-monitor, ip-json, cisco, fpm, iptables or nft"
            )
        }
        _ => {
            writeln!(
                text,
                "{word}: what is imported comes on standard input: tcam import FORMAT < {word}"
            )
        }
    }
}

/// What is wrong with a number of made commands, by its place among these.
fn tell_made(text: &mut String, place: usize, word: &str) -> Result<(), AllocError> {
    match place {
        0 => tell_number(text, "SEED", word, 0, 2147483647),
        1 => tell_number(text, "RULES", word, 1, 256),
        2 => tell_number(text, "BATCHES", word, 1, 64),
        _ => writeln!(text, "{word}: gen has three numbers, SEED RULES BATCHES"),
    }
}

/// That a number isn't in its range, where it isn't.
fn tell_number(
    text: &mut String,
    name: &str,
    word: &str,
    least: u32,
    most: u32,
) -> Result<(), AllocError> {
    if number_of(word, least, most).is_some() {
        return Ok(());
    }
    writeln!(text, "{word}: {name} is {least} to {most}")
}

/// Which words that are no options are missing.
fn tell_missing(text: &mut String, walk: &Walk<'_>) -> Result<(), AllocError> {
    match walk.subcommand {
        Subcommand::Gen => tell_missing_numbers(text, walk.others),
        Subcommand::Import if walk.others == 0 => {
            text.push_str(
                "import: FORMAT is missing: ip-routes, ip-monitor, ip-json, cisco, fpm, iptables or nft\n",
            )
        }
        _ => Ok(()),
    }
}

/// Which numbers of made commands are missing behind some.
fn tell_missing_numbers(text: &mut String, came: usize) -> Result<(), AllocError> {
    match came {
        0 => text.push_str(
            "gen: SEED, RULES and BATCHES are missing: 0 to 2147483647, 1 to 256 and 1 to 64\n",
        ),
        1 => text.push_str("gen: RULES and BATCHES are missing: 1 to 256 and 1 to 64\n"),
        2 => text.push_str("gen: BATCHES is missing: 1 to 64\n"),
        _ => Ok(()),
    }
}

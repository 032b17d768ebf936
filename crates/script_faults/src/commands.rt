//! Sentences on the words that name commands, and on their number.

use crate::forms::{Form, Grammar, first_place, form_text};
use crate::parts::{tell, write_word};
use std::alloc::AllocError;

/// What is wrong with the first word, which begins no command of a script of this kind.
pub(crate) fn tell_first(
    text: &mut String,
    word: &str,
    grammar: Grammar,
) -> Result<(), AllocError> {
    if let Some(meant) = other_kind(grammar, word) {
        return tell(text, word, meant);
    }
    match (grammar, word) {
        (Grammar::Routes(_), "add" | "set" | "del" | "put" | "drop" | "all") => {
            write!(text, "{word}: route {word}?")
        }
        (Grammar::List(_), "add" | "set" | "del" | "put" | "drop" | "all") => {
            write!(text, "{word}: acl {word}?")
        }
        (Grammar::List(_), "permit" | "deny") => {
            write!(
                text,
                "{word}: acl add SEQ {word}, with the rule's number for SEQ?"
            )
        }
        _ => tell(text, word, commands_of(grammar)),
    }
}

/// What a first word is of, where it begins commands of another kind of script.
fn other_kind(grammar: Grammar, word: &str) -> Option<&'static str> {
    match (grammar, word) {
        (Grammar::Routes(_), "acl") => {
            Some("of an access list, for tcam acl and acl6; this script is of routes")
        }
        (Grammar::List(_), "route") => {
            Some("of routes, for tcam route and route6; this script is of an access list")
        }
        (Grammar::Router(_), "probe" | "trial" | "crash") => {
            Some("of scripts of one table; a router's has none")
        }
        _ => None,
    }
}

/// The words that begin commands.
fn commands_of(grammar: Grammar) -> &'static str {
    match grammar {
        Grammar::Routes(_) => "route, packet, frame, probe, commit, trial or crash",
        Grammar::List(_) => "acl, packet, frame, probe, commit, trial or crash",
        Grammar::Router(_) => "acl, route, packet, frame or commit",
    }
}

/// What is wrong with the second word, behind `route` or `acl`.
pub(crate) fn tell_verb(text: &mut String, word: &str, grammar: Grammar) -> Result<(), AllocError> {
    match word {
        "delete" | "remove" | "rm" | "Del" | "DEL" => tell(text, word, "del?"),
        "change" | "replace" | "Set" | "SET" => tell(text, word, "set?"),
        "insert" | "append" | "Add" | "ADD" => tell(text, word, "add?"),
        _ => tell(text, word, verbs_of(grammar)),
    }
}

/// The words that may stand behind `route` or `acl`.
pub(crate) fn verbs_of(grammar: Grammar) -> &'static str {
    match grammar {
        Grammar::Routes(_) | Grammar::List(_) => "add, set, del, put, drop or all",
        Grammar::Router(_) => "add, set or del",
    }
}

/// That a word is one too many.
pub(crate) fn tell_too_many(text: &mut String, word: &str, form: Form) -> Result<(), AllocError> {
    if word.starts_with('#') {
        return tell(text, word, "a comment is a line of its own");
    }
    let words = form_text(form);
    match form {
        Form::Frame => tell(text, word, "the digits of a frame are one word"),
        Form::Commit => tell(text, word, "no word follows commit"),
        Form::All => tell(text, word, "no word follows all"),
        _ => {
            write_word(text, word)?;
            write!(text, ": one word too many, behind {words}")
        }
    }
}

/// That the word of a place is missing, before the one that stands there.
pub(crate) fn tell_skipped(
    text: &mut String,
    word: &str,
    form: Form,
    place: usize,
) -> Result<(), AllocError> {
    let words = form_text(form);
    let missing = words
        .split(' ')
        .nth(place.saturating_sub(first_place(form)));
    let name = missing.unwrap_or("a word");
    write_word(text, word)?;
    write!(text, ": {name} is missing before it, of {words}")
}

/// That a word is missing.
pub(crate) fn tell_missing(text: &mut String, form: Form) -> Result<(), AllocError> {
    let words = form_text(form);
    write!(text, " is missing, of {words}")
}

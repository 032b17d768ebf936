//! What the words of a command line ask for, as `clap` takes them.

use clap::error::ErrorKind;
use clap::{Arg, ArgAction, ArgMatches, Command, Error};
use std::alloc::{AllocError, Global};

/// What a picture is to show of a trace.
#[derive(Clone, Copy, Debug, PartialEq, Eq)]
pub enum Wanted {
    /// The writes of the last commit that was carried out.
    Last,
    /// The writes of the commits from one number to another one.
    Commits { first: u32, last: u32 },
    /// How full the table is behind each commit.
    Occupancy,
}

/// What a command line asks for.
#[derive(Clone, Copy, Debug, PartialEq, Eq)]
pub enum Asked {
    Picture(Wanted),
    Help,
}

/// Why words ask for nothing.
#[derive(Clone, Copy, Debug, PartialEq, Eq)]
pub enum WordsFault {
    /// They are no command line.
    Usage,
    /// Want of memory.
    Memory,
}

/// The declared command line.
fn draw_command<'a>(alloc: Global) -> Result<Command<'a>, AllocError> {
    Ok(
        Command::new(alloc, "draw")
            .arg(value_arg(alloc, "commit"))?
            .arg(value_arg(alloc, "commits"))?
            .arg(flag_arg(alloc, "occupancy"))?,
    )
}

/// An option that takes a value.
fn value_arg<'a>(alloc: Global, name: &'a str) -> Arg<'a> {
    Arg::new(alloc, name).long(name).action(ArgAction::Set)
}

/// An option without one.
fn flag_arg<'a>(alloc: Global, name: &'a str) -> Arg<'a> {
    Arg::new(alloc, name).long(name).action(ArgAction::SetTrue)
}

/// What the words ask for: the program's name first, and `draw` behind it.
pub fn read_words(alloc: Global, words: &[String]) -> Result<Asked, WordsFault> {
    let Some((_, own)) = words.split_first() else {
        return Err(WordsFault::Usage);
    };
    let command = match draw_command(alloc) {
        Ok(command) => command,
        Err(AllocError) => return Err(WordsFault::Memory),
    };
    match command.try_get_matches_from(own) {
        Ok(found) => match wanted_of(&found) {
            Some(wanted) => Ok(Asked::Picture(wanted)),
            None => Err(WordsFault::Usage),
        },
        Err(error) => asked_by_error(&error),
    }
}

/// What words that `clap` took ask for, if they name one picture.
fn wanted_of(found: &ArgMatches) -> Option<Wanted> {
    let occupancy = found.get_flag("occupancy");
    match (found.get_str("commit"), found.get_str("commits")) {
        (None, None) if occupancy => Some(Wanted::Occupancy),
        (None, None) => Some(Wanted::Last),
        (Some(text), None) if !occupancy => {
            let commit = commit_number(text)?;
            Some(Wanted::Commits {
                first: commit,
                last: commit,
            })
        }
        (None, Some(text)) if !occupancy => commits_between(text),
        _ => None,
    }
}

/// A number from 1 on.
fn commit_number(text: &str) -> Option<u32> {
    match text.parse::<u32>() {
        Ok(number) if number > 0 => Some(number),
        _ => None,
    }
}

/// Two numbers with a hyphen between them, the second no less than the first.
fn commits_between(text: &str) -> Option<Wanted> {
    let (first, last) = text.split_once('-')?;
    let first = commit_number(first)?;
    let last = commit_number(last)?;
    if first <= last {
        Some(Wanted::Commits { first, last })
    } else {
        None
    }
}

/// What words that `clap` didn't take ask for: help, or nothing.
fn asked_by_error(error: &Error) -> Result<Asked, WordsFault> {
    match error.kind() {
        ErrorKind::DisplayHelp => Ok(Asked::Help),
        ErrorKind::OutOfMemory => Err(WordsFault::Memory),
        _ => Err(WordsFault::Usage),
    }
}

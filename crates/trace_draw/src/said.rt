//! What a picture says in words: a line of text for each of its rows.

use crate::labels::{Head, Label};
use crate::levels::Level;
use crate::rows::{Counts, Kind, Ports, Row, SlotWrite, Words};
use rule_model::IpVersion;
use std::alloc::{AllocError, Global};

/// The line of a row.
pub(crate) fn row_text(alloc: Global, row: &Row) -> Result<String, AllocError> {
    match row {
        Row::Begins(commit) => format!(in alloc; "commit {commit}"),
        Row::Refused(commit) => format!(in alloc; "commit {commit} was refused"),
        Row::Slot(write) => write_text(alloc, write),
        Row::Words(words) => words_text(alloc, words),
        Row::Drain => String::from_str(alloc, "drain: look-ups under way are waited for"),
    }
}

/// The line of a write.
fn write_text(alloc: Global, write: &SlotWrite) -> Result<String, AllocError> {
    let number = write.number;
    let kind = kind_text(write.kind);
    let slot = write.slot;
    let mut text = format!(in alloc; "write {number}, {kind}: slot {slot} ")?;
    match (&write.now, &write.before) {
        (Some(now), before) => put_text(&mut text, write, now, before)?,
        (None, Some(before)) => {
            write!(text, "is erased: {before}")?;
            other_text(&mut text, write.other)?;
        }
        (None, None) => text.push_str("is erased, and was empty")?,
    }
    Ok(text)
}

/// What a slot gets, from where, and over what.
fn put_text(
    text: &mut String,
    write: &SlotWrite,
    now: &Label,
    before: &Option<Label>,
) -> Result<(), AllocError> {
    write!(text, "gets {now}")?;
    match (write.kind, before) {
        (Kind::Result, Some(before)) => write!(text, ", where it was {}", before.answer),
        (_, Some(before)) => {
            other_text(text, write.other)?;
            write!(text, ", over {before}")
        }
        (_, None) => other_text(text, write.other),
    }
}

/// The other slot that has the entry, if there is one.
fn other_text(text: &mut String, other: Option<u32>) -> Result<(), AllocError> {
    match other {
        Some(slot) => write!(text, ", whose entry slot {slot} has too"),
        None => Ok(()),
    }
}

/// What a write is called.
pub(crate) fn kind_text(kind: Kind) -> &'static str {
    match kind {
        Kind::New => "new entry",
        Kind::Copy => "copy",
        Kind::Result => "new result",
        Kind::Erase => "erase",
    }
}

/// The line of words of the tables.
fn words_text(alloc: Global, words: &Words) -> Result<String, AllocError> {
    let mut text = String::from_str(alloc, "tables: ")?;
    field_text(&mut text, "src", &words.src)?;
    if words.src.count > 0 && words.dst.count > 0 {
        text.push_str(" and ")?;
    }
    field_text(&mut text, "dst", &words.dst)?;
    Ok(text)
}

/// The words of a field's table, if there are any.
fn field_text(text: &mut String, field: &str, ports: &Ports) -> Result<(), AllocError> {
    if ports.count == 0 {
        return Ok(());
    }
    counted_text(text, ports.count, "word", "words")?;
    write!(text, " of {field}, ports {} to {}", ports.low, ports.high)
}

/// A number of things.
pub(crate) fn counted_text(
    text: &mut String,
    count: u64,
    one: &str,
    several: &str,
) -> Result<(), AllocError> {
    if count == 1 {
        write!(text, "1 {one}")
    } else {
        write!(text, "{count} {several}")
    }
}

/// What is shown of how many commits.
pub(crate) fn commits_title(
    alloc: Global,
    first: u32,
    last: u32,
    all: u32,
    counts: &Counts,
) -> Result<String, AllocError> {
    let mut text = if first == last {
        format!(in alloc; "Commit {first} of {all}: ")?
    } else {
        format!(in alloc; "Commits {first} to {last} of {all}: ")?
    };
    counted_text(&mut text, counts.writes, "write", "writes")?;
    if counts.words > 0 {
        text.push_str(" and ")?;
        counted_text(
            &mut text,
            counts.words,
            "word of a table",
            "words of tables",
        )?;
    }
    Ok(text)
}

/// Which rules the commits change, and of which table.
pub(crate) fn commits_description(
    alloc: Global,
    head: &Head,
    counts: &Counts,
) -> Result<String, AllocError> {
    let mut text = table_text(alloc, head)?;
    text.push_str(": ")?;
    counted_text(&mut text, counts.adds, "rule comes", "rules come")?;
    text.push_str(", ")?;
    counted_text(
        &mut text,
        counts.sets,
        "gets another result",
        "get another result",
    )?;
    text.push_str(", ")?;
    counted_text(&mut text, counts.dels, "goes", "go")?;
    Ok(text)
}

/// Which table it is.
pub(crate) fn table_text(alloc: Global, head: &Head) -> Result<String, AllocError> {
    let family = match (head.acl, head.version) {
        (false, IpVersion::V4) => "Routes of IPv4",
        (false, IpVersion::V6) => "Routes of IPv6",
        (true, IpVersion::V4) => "An access list of IPv4",
        (true, IpVersion::V6) => "An access list of IPv6",
    };
    let mode = if head.bits {
        ", port ranges by bits"
    } else {
        ""
    };
    let mut text = format!(in alloc; "{family}{mode}, ")?;
    counted_text(&mut text, u64::from(head.slots), "slot", "slots")?;
    Ok(text)
}

/// The line of a table behind a commit.
pub(crate) fn level_text(alloc: Global, head: &Head, level: &Level) -> Result<String, AllocError> {
    let commit = level.commit;
    let used = level.used;
    let free = u64::from(head.slots).saturating_sub(used);
    if level.refused {
        return format!(in alloc; "commit {commit} was refused: {used} used, {free} free");
    }
    let mut text = format!(in alloc; "commit {commit}: {used} used, {free} free, ")?;
    counted_text(&mut text, level.writes, "write", "writes")?;
    if level.words > 0 {
        text.push_str(" and ")?;
        counted_text(&mut text, level.words, "word", "words")?;
    }
    if level.most > 0 {
        write!(text, ", at most {} an insertion", level.most)?;
    }
    Ok(text)
}

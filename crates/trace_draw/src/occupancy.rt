//! The picture of how full the table is behind each commit: a bar of the slots a commit.

use crate::ends::{AT_EITHER_END, Ends};
use crate::labels::Head;
use crate::levels::{Level, part_begins, parts_of};
use crate::said::{level_text, table_text};
use crate::shapes::{
    begin_item, begin_picture, end_picture, letters_width, put_box, put_text, put_text_at,
};
use crate::tracer::Tracer;
use std::alloc::{AllocError, Global};

/// How far bars are apart.
const ROW: u64 = 24;

/// Where the first bar stands.
const FIRST: u64 = 84;

/// Where a bar begins, and how wide and high it is.
const LEFT: u64 = 64;

const WIDTH: u64 = 512;

const HEIGHT: u64 = 16;

/// Where its line of text stands.
const TEXT: u64 = 588;

/// The least width of a picture.
const LEAST_WIDTH: u64 = 760;

/// The picture of the table behind each commit.
pub(crate) fn draw_occupancy(alloc: Global, tracer: &Tracer) -> Result<String, AllocError> {
    let levels = &tracer.levels;
    let commits = tracer.commits();
    let title = format!(in alloc; "Used slots behind {commits} commits")?;
    let description = table_text(alloc, &tracer.head)?;
    let bottom = top_of(levels, levels.shown());
    let text = text_width(alloc, &tracer.head, levels)?;
    let width = TEXT
        .saturating_add(text)
        .saturating_add(16)
        .max(LEAST_WIDTH);
    let mut out = String::new(alloc);
    begin_picture(
        &mut out,
        width,
        bottom.saturating_add(8),
        &title,
        &description,
    )?;
    put_text(&mut out, "title", 16, 26, &title)?;
    put_text(&mut out, "say", 16, 46, &description)?;
    put_text(
        &mut out,
        "say",
        16,
        68,
        "A bar is the table, with slot 0 at the left: the more slots of a part are used, the higher it is filled.",
    )?;
    put_levels(alloc, &mut out, &tracer.head, levels)?;
    end_picture(&mut out)?;
    Ok(out)
}

/// Where the bar of a place stands.
fn top_of(levels: &Ends<Level>, place: usize) -> u64 {
    FIRST.saturating_add(levels.lines_above(place).saturating_mul(ROW))
}

/// The bars, as items of a list.
fn put_levels(
    alloc: Global,
    out: &mut String,
    head: &Head,
    levels: &Ends<Level>,
) -> Result<(), AllocError> {
    out.push_str("<g role=\"list\">\n")?;
    for place in 0..levels.shown() {
        if place == AT_EITHER_END {
            put_left_out(alloc, out, levels)?;
        }
        if let Some(level) = levels.get(place) {
            put_level(alloc, out, head, &level, top_of(levels, place))?;
        }
    }
    out.push_str("</g>\n")
}

/// The line of the commits that are left out, if there are any.
fn put_left_out(alloc: Global, out: &mut String, levels: &Ends<Level>) -> Result<(), AllocError> {
    let count = levels.left_out();
    if count == 0 {
        return Ok(());
    }
    let y = FIRST.saturating_add((AT_EITHER_END as u64).saturating_mul(ROW));
    let text = format!(in alloc; "{count} commits are left out here")?;
    begin_item(out, &text)?;
    put_text(out, "say", LEFT, y.saturating_add(13), &text)?;
    out.push_str("</g>\n")
}

/// The bar of a commit, with its line of text.
fn put_level(
    alloc: Global,
    out: &mut String,
    head: &Head,
    level: &Level,
    y: u64,
) -> Result<(), AllocError> {
    let text = level_text(alloc, head, level)?;
    begin_item(out, &text)?;
    let commit = level.commit;
    let number = format!(in alloc; "{commit}")?;
    let base = y.saturating_add(13);
    put_text_at(out, "faint", "end", LEFT.saturating_sub(8), base, &number)?;
    put_box(out, "free", LEFT, y, WIDTH, HEIGHT)?;
    put_parts(out, head, level, y)?;
    put_text(out, "name", TEXT, base, &text)?;
    out.push_str("</g>\n")
}

/// What is used of each part of the table, as one shape.
fn put_parts(out: &mut String, head: &Head, level: &Level, y: u64) -> Result<(), AllocError> {
    if level.used == 0 {
        return Ok(());
    }
    out.push_str("<path class=\"used\" d=\"")?;
    for part in 0..parts_of(head.slots) {
        let used = match level.parts.get(part as usize) {
            Some(used) => *used,
            None => 0,
        };
        put_part(out, head.slots, part, used, y)?;
    }
    out.push_str("\"/>\n")
}

/// What is used of a part.
fn put_part(out: &mut String, slots: u32, part: u64, used: u8, y: u64) -> Result<(), AllocError> {
    let next = part.saturating_add(1);
    let size = part_begins(slots, next).saturating_sub(part_begins(slots, part));
    let height = (u64::from(used) * HEIGHT).div_ceil(size.max(1));
    if height == 0 {
        return Ok(());
    }
    let left = part_left(slots, part);
    let width = part_left(slots, next).saturating_sub(left);
    let bottom = y.saturating_add(HEIGHT);
    write!(out, "M{left} {bottom}v-{height}h{width}v{height}z")
}

/// Where a part stands.
fn part_left(slots: u32, part: u64) -> u64 {
    LEFT.saturating_add(part.saturating_mul(WIDTH) / parts_of(slots))
}

/// How wide the widest line of text is.
fn text_width(alloc: Global, head: &Head, levels: &Ends<Level>) -> Result<u64, AllocError> {
    let mut width = 0;
    for place in 0..levels.shown() {
        if let Some(level) = levels.get(place) {
            let text = level_text(alloc, head, &level)?;
            width = letters_width(text.len()).max(width);
        }
    }
    Ok(width)
}

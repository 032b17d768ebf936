//! The picture of the writes of commits: a row a write, and a column a slot.

use crate::columns::{Column, Columns, LEFT, columns_of};
use crate::ends::{AT_EITHER_END, Ends};
use crate::labels::Label;
use crate::rows::{Kind, Row, SlotWrite};
use crate::said::{commits_description, commits_title, kind_text, row_text};
use crate::shapes::{
    CELL, begin_item, begin_picture, end_picture, put_arrow, put_box, put_cell, put_line, put_text,
    put_text_at,
};
use crate::tracer::Tracer;
use std::alloc::{AllocError, Global};

/// How far rows are apart.
const ROW: u64 = 32;

/// Where what the slots held before stands.
const BEFORE: u64 = 112;

/// Where the first row stands.
const FIRST: u64 = 152;

/// What stands at the right of all.
const RIGHT: u64 = 16;

/// The least place where a picture ends at the right.
const LEAST_END: u64 = 664;

/// The picture of these commits.
pub(crate) fn draw_commits(
    alloc: Global,
    tracer: &Tracer,
    first: u32,
    last: u32,
) -> Result<String, AllocError> {
    let counts = &tracer.rows.counts;
    let title = commits_title(alloc, first, last, tracer.commits(), counts)?;
    let description = commits_description(alloc, &tracer.head, counts)?;
    let rows = &tracer.rows.rows;
    let mut columns = columns_of(alloc, rows, tracer.head.slots)?;
    let end = columns.end.max(LEAST_END);
    let bottom = top_of(rows, rows.shown());
    let mut out = String::new(alloc);
    begin_picture(
        &mut out,
        end.saturating_add(RIGHT),
        bottom.saturating_add(ROW),
        &title,
        &description,
    )?;
    put_text(&mut out, "title", 16, 26, &title)?;
    put_text(&mut out, "say", 16, 46, &description)?;
    put_legend(&mut out)?;
    put_heads(alloc, &mut out, &columns, bottom)?;
    put_held(alloc, &mut out, &columns, "before", BEFORE)?;
    put_lines(&mut out, rows, &mut columns, bottom)?;
    put_rows(alloc, &mut out, rows, &columns, end)?;
    put_held(alloc, &mut out, &columns, "behind", bottom)?;
    end_picture(&mut out)?;
    Ok(out)
}

/// Where the row of a place stands, and behind the last one what the slots hold then.
fn top_of(rows: &Ends<Row>, place: usize) -> u64 {
    FIRST.saturating_add(rows.lines_above(place).saturating_mul(ROW))
}

/// What the shapes mean.
fn put_legend(out: &mut String) -> Result<(), AllocError> {
    let mut x = 16u64;
    for kind in [Kind::New, Kind::Copy, Kind::Result, Kind::Erase] {
        put_cell(out, kind, x, 58, 28)?;
        put_text(out, "say", x.saturating_add(36), 74, kind_text(kind))?;
        x = x.saturating_add(130);
    }
    put_line(
        out,
        "held",
        (x.saturating_add(14), 58),
        (x.saturating_add(14), 80),
    )?;
    put_text(out, "say", x.saturating_add(24), 74, "a slot that is used")
}

/// The slots' numbers above the columns, and the gaps between them.
fn put_heads(
    alloc: Global,
    out: &mut String,
    columns: &Columns,
    bottom: u64,
) -> Result<(), AllocError> {
    for column in columns.list.iter() {
        put_gap(alloc, out, column.gap, column.left, bottom)?;
        let slot = column.slot;
        let text = format!(in alloc; "slot {slot}")?;
        put_text_at(out, "faint", "middle", column.middle(), 104, &text)?;
    }
    put_gap(alloc, out, columns.gap, columns.end, bottom)
}

/// The slots that no write touches before a place, if there are any.
fn put_gap(
    alloc: Global,
    out: &mut String,
    gap: Option<(u32, u32)>,
    before: u64,
    bottom: u64,
) -> Result<(), AllocError> {
    let Some((first, last)) = gap else {
        return Ok(());
    };
    let x = before.saturating_sub(48);
    let text = if first == last {
        format!(in alloc; "{first}")?
    } else {
        format!(in alloc; "{first}-{last}")?
    };
    put_text_at(out, "faint", "middle", x, 104, &text)?;
    put_line(out, "gap", (x, BEFORE), (x, bottom.saturating_add(CELL)))
}

/// What each slot holds before the rows, or behind them.
fn put_held(
    alloc: Global,
    out: &mut String,
    columns: &Columns,
    when: &str,
    y: u64,
) -> Result<(), AllocError> {
    let base = y.saturating_add(15);
    put_text_at(out, "faint", "end", LEFT.saturating_sub(12), base, when)?;
    for column in columns.list.iter() {
        if let Some(label) = &column.holds {
            let text = format!(in alloc; "{label}")?;
            put_text_at(out, "faint", "middle", column.middle(), base, &text)?;
        }
    }
    Ok(())
}

/// What each slot holds begins below what it held before.
fn begin_columns(columns: &mut Columns) {
    for column in columns.list.iter_mut() {
        column.since = BEFORE.saturating_add(CELL);
    }
}

/// The lines of slots that are used, from write to write. Behind it the columns hold what the slots do at the end.
fn put_lines(
    out: &mut String,
    rows: &Ends<Row>,
    columns: &mut Columns,
    bottom: u64,
) -> Result<(), AllocError> {
    begin_columns(columns);
    for place in 0..rows.shown() {
        if place == AT_EITHER_END && rows.left_out() > 0 {
            let y = top_of(rows, place).saturating_sub(ROW);
            end_columns(out, columns, y)?;
            forget(columns, y.saturating_add(CELL));
        }
        if let Some(Row::Slot(write)) = rows.get(place) {
            put_line_above(out, &write, columns, top_of(rows, place))?;
        }
    }
    end_columns(out, columns, bottom)
}

/// The line above a write, where its slot was used. From there on the slot holds what the write leaves there.
fn put_line_above(
    out: &mut String,
    write: &SlotWrite,
    columns: &mut Columns,
    y: u64,
) -> Result<(), AllocError> {
    let Some(place) = columns.place_of(write.slot) else {
        return Ok(());
    };
    let Some(column) = columns.list.get_mut(place) else {
        return Ok(());
    };
    let (middle, since) = (column.middle(), column.since);
    column.holds = write.now;
    column.since = y.saturating_add(CELL);
    if write.before.is_some() {
        put_line(out, "held", (middle, since), (middle, y))?;
    }
    Ok(())
}

/// The lines of what is held, down to here.
fn end_columns(out: &mut String, columns: &Columns, y: u64) -> Result<(), AllocError> {
    for column in columns.list.iter() {
        if column.holds.is_some() {
            put_line(
                out,
                "held",
                (column.middle(), column.since),
                (column.middle(), y),
            )?;
        }
    }
    Ok(())
}

/// What the slots hold isn't known from here on.
fn forget(columns: &mut Columns, y: u64) {
    for column in columns.list.iter_mut() {
        column.holds = None;
        column.since = y;
    }
}

/// The rows, as items of a list.
fn put_rows(
    alloc: Global,
    out: &mut String,
    rows: &Ends<Row>,
    columns: &Columns,
    end: u64,
) -> Result<(), AllocError> {
    out.push_str("<g role=\"list\">\n")?;
    for place in 0..rows.shown() {
        if place == AT_EITHER_END {
            put_left_out(alloc, out, rows)?;
        }
        if let Some(row) = rows.get(place) {
            put_row(alloc, out, &row, columns, top_of(rows, place), end)?;
        }
    }
    out.push_str("</g>\n")
}

/// The line of the rows that are left out, if there are any.
fn put_left_out(alloc: Global, out: &mut String, rows: &Ends<Row>) -> Result<(), AllocError> {
    let count = rows.left_out();
    if count == 0 {
        return Ok(());
    }
    let y = FIRST.saturating_add((AT_EITHER_END as u64).saturating_mul(ROW));
    let text = format!(in alloc; "{count} rows are left out here")?;
    begin_item(out, &text)?;
    put_text(out, "say", LEFT, y.saturating_add(15), &text)?;
    out.push_str("</g>\n")
}

/// One row.
fn put_row(
    alloc: Global,
    out: &mut String,
    row: &Row,
    columns: &Columns,
    y: u64,
    end: u64,
) -> Result<(), AllocError> {
    let text = row_text(alloc, row)?;
    begin_item(out, &text)?;
    let base = y.saturating_add(15);
    match row {
        Row::Begins(_) | Row::Refused(_) => {
            put_line(out, "rule", (16, y), (end, y))?;
            put_text(out, "say over", 16, base, &text)?;
        }
        Row::Slot(write) => put_write(alloc, out, write, columns, y)?,
        Row::Words(_) => {
            put_box(out, "words", LEFT, y, end.saturating_sub(LEFT), CELL)?;
            put_text(out, "name", LEFT.saturating_add(9), base, &text)?;
        }
        Row::Drain => {
            put_line(out, "drain", (16, base), (end, base))?;
            put_text(out, "say over", LEFT, y.saturating_add(9), &text)?;
        }
    }
    out.push_str("</g>\n")
}

/// The cell of a write, with its number, and the arrow of a copy.
fn put_write(
    alloc: Global,
    out: &mut String,
    write: &SlotWrite,
    columns: &Columns,
    y: u64,
) -> Result<(), AllocError> {
    let number = write.number;
    let text = format!(in alloc; "{number}")?;
    let base = y.saturating_add(15);
    put_text_at(out, "faint", "end", LEFT.saturating_sub(12), base, &text)?;
    let Some(column) = columns.get(write.slot) else {
        return Ok(());
    };
    if write.kind == Kind::Copy {
        put_move(alloc, out, write, columns, &column, y)?;
    }
    put_cell(out, write.kind, column.left, y, column.width)?;
    let label = if write.now.is_some() {
        &write.now
    } else {
        &write.before
    };
    put_label(alloc, out, label, column.left.saturating_add(26), base)
}

/// What a cell's slot gets, or what it loses.
fn put_label(
    alloc: Global,
    out: &mut String,
    label: &Option<Label>,
    x: u64,
    y: u64,
) -> Result<(), AllocError> {
    match label {
        Some(label) => {
            let text = format!(in alloc; "{label}")?;
            put_text(out, "name", x, y, &text)
        }
        None => put_text(out, "faint", x, y, "free"),
    }
}

/// The arrow of a copy, with the number of its move where it begins.
fn put_move(
    alloc: Global,
    out: &mut String,
    write: &SlotWrite,
    columns: &Columns,
    target: &Column,
    y: u64,
) -> Result<(), AllocError> {
    let Some(other) = write.other else {
        return Ok(());
    };
    let Some(source) = columns.get(other) else {
        return Ok(());
    };
    let step = write.step;
    let text = format!(in alloc; "{step}")?;
    let middle = y.saturating_add(11);
    let from = source.middle();
    if from < target.left {
        put_text_at(
            out,
            "faint",
            "start",
            from.saturating_add(7),
            y.saturating_add(6),
            &text,
        )?;
        put_arrow(out, from, target.left, middle)
    } else {
        put_text_at(
            out,
            "faint",
            "end",
            from.saturating_sub(7),
            y.saturating_add(6),
            &text,
        )?;
        put_arrow(out, from, target.left.saturating_add(target.width), middle)
    }
}

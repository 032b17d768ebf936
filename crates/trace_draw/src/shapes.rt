//! Text and shapes as elements of an SVG. Each is appended to what is there, and fails only for want of memory.

use crate::rows::Kind;
use std::alloc::AllocError;

/// Where a picture's shapes have their colours: those of the page that plays a trace.
const STYLE: &str = "\
<style>
text { font: 12px ui-monospace, 'DejaVu Sans Mono', monospace; fill: #1b1e23; }
.title { font: bold 16px system-ui, 'DejaVu Sans', sans-serif; }
.say { font: 13px system-ui, 'DejaVu Sans', sans-serif; }
.over { paint-order: stroke; stroke: #ffffff; stroke-width: 4; }
.faint { fill: #59616e; }
.ground { fill: #ffffff; }
.rule { stroke: #c9cdd4; fill: none; }
.gap { stroke: #c9cdd4; stroke-dasharray: 1 5; fill: none; }
.held { stroke: #59616e; stroke-width: 2; fill: none; }
.sign { stroke: #1b1e23; stroke-width: 1.5; fill: none; }
.new { fill: #d3edd9; stroke: #1d6b32; stroke-width: 2; }
.copy { fill: #d9e8ff; stroke: #0b57d0; }
.result { fill: #f4f5f7; stroke: #1b1e23; }
.erase { fill: #ffffff; stroke: #b00020; stroke-dasharray: 5 3; }
.words { fill: #f4f5f7; stroke: #59616e; }
.arrow { stroke: #0b57d0; stroke-width: 2; fill: none; }
.head { fill: #0b57d0; }
.drain { stroke: #1b1e23; stroke-width: 2; stroke-dasharray: 10 5; fill: none; }
.used { fill: #0b57d0; }
.free { fill: #f4f5f7; stroke: #c9cdd4; }
@media (prefers-color-scheme: dark) {
text { fill: #e6e8eb; }
.over { stroke: #15171b; }
.faint { fill: #a3abb8; }
.ground { fill: #15171b; }
.rule, .gap { stroke: #3d434d; }
.held { stroke: #a3abb8; }
.sign, .drain { stroke: #e6e8eb; }
.new { fill: #1c3a26; stroke: #7fd694; }
.copy { fill: #20385e; stroke: #8ab4f8; }
.result { fill: #1e2127; stroke: #e6e8eb; }
.erase { fill: #15171b; stroke: #ff8a80; }
.words { fill: #1e2127; stroke: #a3abb8; }
.arrow { stroke: #8ab4f8; }
.head, .used { fill: #8ab4f8; }
.free { fill: #1e2127; stroke: #3d434d; }
}
</style>
";

/// How wide a letter is, in tenths.
const LETTER: u64 = 73;

/// How wide so many letters are.
pub(crate) fn letters_width(letters: usize) -> u64 {
    (letters as u64).saturating_mul(LETTER).saturating_add(9) / 10
}

/// The head of a picture of this size, with its title and what describes it.
pub(crate) fn begin_picture(
    out: &mut String,
    width: u64,
    height: u64,
    title: &str,
    description: &str,
) -> Result<(), AllocError> {
    write!(
        out,
        "<svg xmlns=\"http://www.w3.org/2000/svg\" width=\"{width}\" height=\"{height}\""
    )?;
    write!(
        out,
        " viewBox=\"0 0 {width} {height}\" role=\"group\" aria-labelledby=\"title description\">\n"
    )?;
    out.push_str("<title id=\"title\">")?;
    escape(out, title)?;
    out.push_str("</title>\n<desc id=\"description\">")?;
    escape(out, description)?;
    out.push_str("</desc>\n")?;
    out.push_str(STYLE)?;
    write!(
        out,
        "<rect class=\"ground\" width=\"{width}\" height=\"{height}\"/>\n"
    )
}

/// The end of a picture.
pub(crate) fn end_picture(out: &mut String) -> Result<(), AllocError> {
    out.push_str("</svg>\n")
}

/// A group of shapes that is an item of a list, of this text.
pub(crate) fn begin_item(out: &mut String, text: &str) -> Result<(), AllocError> {
    out.push_str("<g role=\"listitem\" aria-label=\"")?;
    escape(out, text)?;
    out.push_str("\"><title>")?;
    escape(out, text)?;
    out.push_str("</title>\n")
}

/// A text as it stands in XML.
pub(crate) fn escape(out: &mut String, text: &str) -> Result<(), AllocError> {
    for letter in text.chars() {
        match letter {
            '&' => out.push_str("&amp;")?,
            '<' => out.push_str("&lt;")?,
            '>' => out.push_str("&gt;")?,
            '"' => out.push_str("&quot;")?,
            _ => out.push(letter)?,
        }
    }
    Ok(())
}

/// A text that begins at a place.
pub(crate) fn put_text(
    out: &mut String,
    class: &str,
    x: u64,
    y: u64,
    text: &str,
) -> Result<(), AllocError> {
    write!(out, "<text class=\"{class}\" x=\"{x}\" y=\"{y}\">")?;
    escape(out, text)?;
    out.push_str("</text>\n")
}

/// A text about a place, or before it.
pub(crate) fn put_text_at(
    out: &mut String,
    class: &str,
    anchor: &str,
    x: u64,
    y: u64,
    text: &str,
) -> Result<(), AllocError> {
    write!(
        out,
        "<text class=\"{class}\" text-anchor=\"{anchor}\" x=\"{x}\" y=\"{y}\">"
    )?;
    escape(out, text)?;
    out.push_str("</text>\n")
}

/// A line from one place to another.
pub(crate) fn put_line(
    out: &mut String,
    class: &str,
    from: (u64, u64),
    to: (u64, u64),
) -> Result<(), AllocError> {
    let (x, y) = from;
    let (end_x, end_y) = to;
    write!(
        out,
        "<path class=\"{class}\" d=\"M{x} {y}L{end_x} {end_y}\"/>\n"
    )
}

/// A box.
pub(crate) fn put_box(
    out: &mut String,
    class: &str,
    x: u64,
    y: u64,
    width: u64,
    height: u64,
) -> Result<(), AllocError> {
    write!(
        out,
        "<rect class=\"{class}\" x=\"{x}\" y=\"{y}\" width=\"{width}\" height=\"{height}\"/>\n"
    )
}

/// How high a cell is.
pub(crate) const CELL: u64 = 22;

/// What a kind of write is called in the picture's style.
fn class_of(kind: Kind) -> &'static str {
    match kind {
        Kind::New => "new",
        Kind::Copy => "copy",
        Kind::Result => "result",
        Kind::Erase => "erase",
    }
}

/// A cell of this kind: its shape, and its sign at the left.
pub(crate) fn put_cell(
    out: &mut String,
    kind: Kind,
    x: u64,
    y: u64,
    width: u64,
) -> Result<(), AllocError> {
    let class = class_of(kind);
    match kind {
        Kind::New | Kind::Erase => put_box(out, class, x, y, width, CELL)?,
        Kind::Copy => write!(
            out,
            "<rect class=\"{class}\" x=\"{x}\" y=\"{y}\" width=\"{width}\" height=\"{CELL}\" rx=\"11\"/>\n"
        )?,
        Kind::Result => {
            let side = width.saturating_sub(16);
            let x = x.saturating_add(8);
            write!(
                out,
                "<path class=\"{class}\" d=\"M{x} {y}h{side}l8 11l-8 11h-{side}l-8 -11z\"/>\n"
            )?;
        }
    }
    put_sign(out, kind, x.saturating_add(9), y.saturating_add(6))
}

/// The sign of a kind of write.
fn put_sign(out: &mut String, kind: Kind, x: u64, y: u64) -> Result<(), AllocError> {
    let strokes = match kind {
        Kind::New => "m5 0v10m-5 -5h10",
        Kind::Copy => "h7v7h-7zm3 3h7v7h-7z",
        Kind::Result => "m0 3h10m-10 4h10",
        Kind::Erase => "l10 10m0 -10l-10 10",
    };
    write!(out, "<path class=\"sign\" d=\"M{x} {y}{strokes}\"/>\n")
}

/// An arrow to the left or to the right, with a dot where it begins.
pub(crate) fn put_arrow(out: &mut String, from: u64, to: u64, y: u64) -> Result<(), AllocError> {
    write!(
        out,
        "<circle class=\"head\" cx=\"{from}\" cy=\"{y}\" r=\"4\"/>\n"
    )?;
    put_line(out, "arrow", (from, y), (to, y))?;
    let back = if from < to { "-9" } else { "9" };
    write!(
        out,
        "<path class=\"head\" d=\"M{to} {y}l{back} -5v10z\"/>\n"
    )
}

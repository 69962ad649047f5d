// The frame of the picture: its size, its style and what is written above the strips.
ghost use Rattle.std.specs.Prelude.{◌≤◌};
ghost use Rattle.diagram.specs.Page.{kept_ticks, highest_strip};

use diagram::places::number_of;
use input::LINE;
use program::report::{Report, Text};
use program::writer::{Writer, Written};
use trace::notes::{Form, has_refused, has_rest, put_refused, put_rest};

// What a picture shows: n ticks, those before them, all ticks that ran, and the rows as a set, in
// the order in which they are drawn.
#[derive(Clone, Copy)]
pub struct Shape {
    pub n: usize,
    pub before: u64,
    pub total: u64,
    pub rows: u64,
}

// The height of the title and the legend, and of a line below them.
const HEAD: u64 = 52;

const NOTE: u64 = 18;

// What the legend needs.
const NARROWEST: u64 = 500;

// ---- the size

fn note_height(has: bool) -> u64
    ensures { result ≤ 18 }
{
    if has { NOTE } else { 0 }
}

// The height of all that is written above the strips.
pub fn head_height(report: Report) -> u64
    ensures { result ≤ highest_strip }
{
    HEAD + note_height(has_refused(report)) + note_height(has_rest(report))
}

// The height of a picture of n ticks, in strips of a height below its head.
pub fn height_of(n: usize, head: u64, strip: u64) -> u64
    requires n_le_kept_ticks { n ≤ kept_ticks }
    requires head_le_highest_strip { head ≤ highest_strip }
    requires strip_le_highest_strip { strip ≤ highest_strip }
{
    match (n + 59) / 60 {
        0 => head,
        1 => head + strip,
        2 => head + 2 * strip,
        3 => head + 3 * strip,
        4 => head + 4 * strip,
        _ => head + 5 * strip,
    }
}

// The room that a line below the legend needs, with a text in it.
fn note_width(has: bool, text: Text) -> u64 {
    if has {
        return 7 * (75 + text.len.min(LINE) as u64);
    }
    0
}

// The width of a picture with so wide a strip. The head has room in it, too.
pub fn width_for(strip: u64, report: Report) -> u64 {
    let refused = note_width(has_refused(report), report.line);
    let rest = note_width(has_rest(report), report.rest);
    strip.max(NARROWEST).max(refused).max(rest)
}

pub fn put_size(out: &mut Writer, width: u64, height: u64) -> Written {
    out.put_with(
        b"<svg xmlns=\"http://www.w3.org/2000/svg\" width=\"",
        width,
        b"\" height=\"",
    )?;
    out.put_with(b"", height, b"\" viewBox=\"0 0 ")?;
    out.put_with(b"", width, b" ")?;
    out.put_with(b"", height, b"\"")
}

// ---- style

// The fonts, the colours and the white ground: w waves, n numbers, f the mark of a full tick, b the
// box of a cell that woke, a that of one that only the full tick worked out, e what was refused.
pub fn put_style(out: &mut Writer) -> Written {
    out.put(b" font-family=\"Helvetica, Arial, sans-serif\" font-size=\"12\">\n")?;
    out.put(
        b"<style>.w{fill:none;stroke:#123a6b;stroke-width:1.6}.n{font-size:10px;fill:#555;text-anchor:middle}",
    )?;
    out.put(b".f{font-size:10px;font-weight:bold;fill:#8a1c7c;text-anchor:middle}")?;
    out.put(b".b{fill:#ffc966}.a{fill:#ffefcf}.e{fill:#b00020}</style>\n")?;
    out.put(b"<rect width=\"100%\" height=\"100%\" fill=\"#fff\"/>\n")
}

// ---- the head

// How to see the ticks after those that are shown, if there are any.
fn put_more(out: &mut Writer, next: u64, total: u64) -> Written {
    if total < next {
        return Ok(());
    }
    out.put_with(b"; --from ", next, b" shows the next")
}

// Where no tick is shown.
fn put_none(out: &mut Writer, total: u64) -> Written {
    if total == 0 {
        return out.put(b"no tick ran");
    }
    out.put_with(b"ticks that ran: ", total, b", so none is shown")
}

// "ticks 1 to 300 of 305; --from 301 shows the next"
fn put_span(out: &mut Writer, p: Shape) -> Written {
    if p.n == 0 {
        return put_none(out, p.total);
    }
    out.put_with(b"ticks ", number_of(p.before, 0), b" to ")?;
    out.put_with(b"", number_of(p.before, p.n - 1), b" of ")?;
    out.put_number(p.total)?;
    put_more(out, number_of(p.before, p.n), p.total)
}

// The title.
fn put_title(out: &mut Writer, p: Shape) -> Written {
    out.put(b"<text x=\"10\" y=\"20\" font-size=\"14\" font-weight=\"bold\">Trigger card: ")?;
    put_span(out, p)?;
    out.put(b"</text>\n")
}

// What the tints and marks mean.
fn put_legend(out: &mut Writer) -> Written {
    out.put(
        b"<path class=\"b\" d=\"M10 30h12v14H10z\"/><text x=\"28\" y=\"41\">cell woken in that tick</text>\n",
    )?;
    out.put(
        b"<text class=\"f\" x=\"184\" y=\"41\">F</text><text x=\"194\" y=\"41\">full tick</text>\n",
    )?;
    out.put(
        b"<path class=\"a\" d=\"M262 30h12v14h-12z\"/><text x=\"280\" y=\"41\">worked out only because it is full</text>\n",
    )
}

// A line below the legend begins, at a height.
fn put_note(out: &mut Writer, y: u64) -> Written {
    out.put_with(b"<text class=\"e\" x=\"10\" y=\"", y, b"\">")
}

// The lines that were refused, if there are any.
fn put_refusals(out: &mut Writer, report: Report) -> Written {
    if !has_refused(report) {
        return Ok(());
    }
    put_note(out, HEAD + 7)?;
    put_refused(out, report, Form::Picture)?;
    out.put(b"</text>\n")
}

// A last line that was not entered.
fn put_unended(out: &mut Writer, report: Report) -> Written {
    if !has_rest(report) {
        return Ok(());
    }
    put_note(out, HEAD + 7 + note_height(has_refused(report)))?;
    put_rest(out, report, Form::Picture)?;
    out.put(b"</text>\n")
}

pub fn put_head(out: &mut Writer, p: Shape, report: Report) -> Written {
    put_title(out, p)?;
    put_legend(out)?;
    put_refusals(out, report)?;
    put_unended(out, report)
}

// The picture as text: its head, and its strips one below the other.
ghost use Rattle.std.specs.Prelude.{◌≤◌};
ghost use Rattle.diagram.specs.Page.{kept_ticks, most_rows, highest_strip, Fits};

use crate::frame::{Shape, head_height, height_of, put_head, put_size, put_style, width_for};
use card::card::Card;
use diagram::kept::Ticks;
use diagram::places::{COLUMNS, GAP, NUMBERS, RIGHT, ROW, ROWS, Strip, end_of, x_of};
use diagram::strip::put_strip;
use program::report::Report;
use program::writer::{Writer, Written};

// How many rows a set has.
fn count_rows(rows: u64) -> u64
    ensures { result ≤ most_rows }
{
    let n = u64::count_ones(rows);
    if n < ROWS { n as u64 } else { ROWS as u64 }
}

// A strip that begins at height y.
fn put_strip_at(
    out: &mut Writer,
    card: Card,
    ticks: &Ticks,
    s: Strip,
    rows: u64,
    low: u64,
    y: u64,
) -> Written
    requires { Fits s }
{
    out.put_with(b"<g transform=\"translate(0 ", y, b")\">\n")?;
    put_strip(out, card, ticks, s, rows, low)?;
    out.put(b"</g>\n")
}

// The strips of a picture below its head, each with rows down to `low`.
fn put_strips(out: &mut Writer, card: Card, ticks: &Ticks, p: Shape, low: u64, head: u64) -> Written
    requires n_le_kept_ticks { p.n ≤ kept_ticks }
    requires low_le_highest_strip { low ≤ highest_strip }
    requires head_le_highest_strip { head ≤ highest_strip }
{
    let n = p.n;
    let rows = p.rows;
    let mut start: usize = 0;
    let mut y = head;
    while start < n {
        let s = Strip {
            start: start,
            end: end_of(start, n),
            before: p.before,
            wide: is_wide(n),
        };
        put_strip_at(out, card, ticks, s, rows, low, y)?;
        y = y + low + GAP;
        start = start + COLUMNS;
    }
    Ok(())
}

// Whether n ticks have wide columns.
fn is_wide(n: usize) -> bool {
    n <= 30
}

// The width of a picture of n ticks.
fn width_of(n: usize, report: Report) -> u64 {
    width_for(x_of(end_of(0, n), is_wide(n)) + RIGHT, report)
}

// What is above the strips, each of which has a height.
fn put_frame(out: &mut Writer, p: Shape, report: Report, head: u64, strip: u64) -> Written
    requires n_le_kept_ticks { p.n ≤ kept_ticks }
    requires head_le_highest_strip { head ≤ highest_strip }
    requires strip_le_highest_strip { strip ≤ highest_strip }
{
    let n = p.n;
    put_size(out, width_of(n, report), height_of(n, head, strip))?;
    put_style(out)?;
    put_head(out, p, report)
}

// The picture, with rows named by the card's wiring. A write that fails ends it.
pub fn put_page(out: &mut Writer, card: Card, ticks: &Ticks, p: Shape, report: Report) -> Written
    requires { p.n ≤ kept_ticks }
{
    let low = NUMBERS + ROW * count_rows(p.rows);
    let head = head_height(report);
    put_frame(out, p, report, head, low + GAP)?;
    put_strips(out, card, ticks, p, low, head)?;
    out.put(b"</svg>\n")?;
    out.flush()
}

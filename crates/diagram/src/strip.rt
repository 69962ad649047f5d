// A strip of the picture: ticks side by side, with the rows below their numbers.
ghost use Rattle.std.specs.Prelude.{◌+◌, ◌<◌, ◌≤◌};
ghost use Rattle.diagram.specs.Page.{columns, most_rows, Fits};

use crate::boxes::put_boxes;
use crate::kept::Ticks;
use crate::labels::put_name;
use crate::places::{
    LEFT, NUMBERS, ROW, ROWS, Strip, bit_of, column_width, number_of, put_x, x_of,
};
use card::card::Card;
use program::writer::{Writer, Written};

// ---- a wave

// The height of a wave in its row.
fn put_y(out: &mut Writer, high: bool) -> Written {
    if high {
        return out.put(b"4");
    }
    out.put(b"18")
}

// A wave begins at the left, high or low.
fn put_start(out: &mut Writer, high: bool) -> Written {
    out.put_with(b"<path class=\"w\" d=\"M", LEFT, b" ")?;
    put_y(out, high)
}

// Bit i of what tick t showed.
fn shows(ticks: &Ticks, t: usize, i: u32) -> bool {
    words::bit(ticks.at(t).waves, i % 64)
}

// The wave of a bit, with an edge where it differs from the tick before, in the first column too.
fn put_wave(out: &mut Writer, ticks: &Ticks, s: Strip, i: u32) -> Written
    requires { Fits s }
{
    let mut last = shows(ticks, s.start, i);
    put_start(out, last)?;
    for t in s.start..s.end {
        let now = shows(ticks, t + 1, i);
        if now ^ last {
            put_step(out, now, t - s.start, s.wide)?;
        }
        last = now;
    }
    put_x(out, b"H", s.end - s.start, s.wide)?;
    out.put(b"\"/>\n")
}

// The wave goes on to column k, and there high or low.
fn put_step(out: &mut Writer, high: bool, k: usize, wide: bool) -> Written
    requires { k ≤ columns }
{
    put_x(out, b"H", k, wide)?;
    out.put(b"V")?;
    put_y(out, high)
}

// ---- above and behind the rows

// A text in the middle of column k.
fn put_over(out: &mut Writer, class: &[u8], k: usize, wide: bool) -> Written
    requires { k ≤ columns }
{
    out.put(b"<text class=\"")?;
    out.put(class)?;
    out.put_with(
        b"\" x=\"",
        x_of(k, wide) + column_width(wide) / 2,
        b"\" y=\"",
    )
}

// The number of a tick, over column k, if it is the first of the strip or ends in 0 or 5.
fn put_number_over(out: &mut Writer, number: u64, k: usize, wide: bool) -> Written
    requires { k ≤ columns }
{
    if (k != 0) & (number % 5 != 0) {
        return Ok(());
    }
    put_over(out, b"n", k, wide)?;
    out.put_with(b"12\">", number, b"</text>\n")
}

// An F over a full tick.
fn put_full_over(out: &mut Writer, full: bool, k: usize, wide: bool) -> Written
    requires { k ≤ columns }
{
    if !full {
        return Ok(());
    }
    put_over(out, b"f", k, wide)?;
    out.put(b"25\">F</text>\n")
}

fn put_column_head(out: &mut Writer, number: u64, full: bool, k: usize, wide: bool) -> Written
    requires { k ≤ columns }
{
    put_number_over(out, number, k, wide)?;
    put_full_over(out, full, k, wide)
}

// What is written over each column.
fn put_numbers(out: &mut Writer, ticks: &Ticks, s: Strip) -> Written
    requires { Fits s }
{
    out.put_with(
        b"<text class=\"n\" x=\"",
        LEFT - 40,
        b"\" y=\"12\">tick</text>\n",
    )?;
    for t in s.start..s.end {
        let number = number_of(s.before, t);
        let full = ticks.at(t + 1).full;
        put_column_head(out, number, full, t - s.start, s.wide)?;
    }
    Ok(())
}

// A path of a colour.
fn put_path(out: &mut Writer, colour: &[u8]) -> Written {
    out.put(b"<path stroke=\"#")?;
    out.put(colour)?;
    out.put(b"\" d=\"M0 0")
}

// Upright lines down to `low`, of n columns, at every `step` of them counted from `offset`.
fn put_grid(
    out: &mut Writer,
    colour: &[u8],
    n: usize,
    wide: bool,
    step: usize,
    offset: usize,
    low: u64,
) -> Written
    requires n_le_columns { n ≤ columns }
    requires step_nonzero { 0 < step }
    requires offset_bound { offset < 5 }
{
    put_path(out, colour)?;
    for k in 0..n + 1 {
        if (offset + k) % step == 0 {
            put_upright(out, k, wide, low)?;
        }
    }
    out.put(b"\"/>\n")
}

// One of them, at column k.
fn put_upright(out: &mut Writer, k: usize, wide: bool, low: u64) -> Written
    requires { k ≤ columns }
{
    put_x(out, b"M", k, wide)?;
    out.put_with(b" 30V", low, b"")
}

// ---- rows

// The boxes of row r, if it is a cell's.
fn put_row_boxes(out: &mut Writer, ticks: &Ticks, s: Strip, r: u32, y: u64) -> Written
    requires fits { Fits s }
    requires r_lt_most_rows { r < most_rows }
{
    if r < 16 {
        return Ok(());
    }
    if 47 < r {
        return Ok(());
    }
    out.put_with(b"<g transform=\"translate(0 ", y, b")\">\n")?;
    put_boxes(out, ticks, s, r - 16)?;
    out.put(b"</g>\n")
}

// The boxes of all cells.
fn put_all_boxes(out: &mut Writer, ticks: &Ticks, s: Strip, rows: u64) -> Written
    requires { Fits s }
{
    let mut y = NUMBERS;
    for r in 0..ROWS {
        if words::bit(rows, r) {
            put_row_boxes(out, ticks, s, r, y)?;
            y += ROW;
        }
    }
    Ok(())
}

// A row with its label and its wave.
fn put_row(out: &mut Writer, card: Card, ticks: &Ticks, s: Strip, r: u32, y: u64) -> Written
    requires fits { Fits s }
    requires r_lt_most_rows { r < most_rows }
{
    out.put_with(
        b"<g transform=\"translate(0 ",
        y,
        b")\"><text x=\"10\" y=\"15\">",
    )?;
    put_name(out, card, r)?;
    out.put_with(
        b"</text><path stroke=\"#e2e2e2\" d=\"M10 22H",
        x_of(s.end - s.start, s.wide),
        b"\"/>",
    )?;
    put_wave(out, ticks, s, bit_of(r))?;
    out.put(b"</g>\n")
}

// All rows, one below the other.
fn put_rows(out: &mut Writer, card: Card, ticks: &Ticks, s: Strip, rows: u64) -> Written
    requires { Fits s }
{
    let mut y = NUMBERS;
    for r in 0..ROWS {
        if words::bit(rows, r) {
            put_row(out, card, ticks, s, r, y)?;
            y += ROW;
        }
    }
    Ok(())
}

// The lines between ticks, and stronger ones after every fifth.
fn put_grids(out: &mut Writer, s: Strip, low: u64) -> Written
    requires { Fits s }
{
    let n = s.end - s.start;
    put_grid(out, b"e2e2e2", n, s.wide, 1, 0, low)?;
    put_grid(out, b"b4b4b4", n, s.wide, 5, (s.before % 5) as usize, low)
}

// The ticks side by side, with the rows of a set, which end at `low`.
pub fn put_strip(
    out: &mut Writer,
    card: Card,
    ticks: &Ticks,
    s: Strip,
    rows: u64,
    low: u64,
) -> Written
    requires { Fits s }
{
    put_numbers(out, ticks, s)?;
    put_all_boxes(out, ticks, s, rows)?;
    put_grids(out, s, low)?;
    put_rows(out, card, ticks, s, rows)
}

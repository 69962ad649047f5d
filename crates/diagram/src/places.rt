// Where things are in a picture. Lengths are in pixels, of which a printed page has about 96 to
// the inch.
ghost use Rattle.std.specs.Prelude.{◌+◌, ◌<◌, ◌≤◌};
ghost use Rattle.diagram.specs.Page.{columns, most_rows};

use program::writer::{Writer, Written};

// `columns`: ticks side by side.
pub const COLUMNS: usize = 60;

// `most_rows`: connectors that are inputs, cells, connectors that are outputs.
pub const ROWS: u32 = 64;

// The label column, a tick's column, wide or narrow, and the space to the right of them.
pub const LEFT: u64 = 215;

pub const WIDE: u64 = 20;

pub const NARROW: u64 = 10;

pub const RIGHT: u64 = 20;

// The tick numbers above a strip, a row, and the space below a strip.
pub const NUMBERS: u64 = 30;

pub const ROW: u64 = 22;

pub const GAP: u64 = 16;

// Ticks side by side: from tick `start` up to `end`, counted from 0 among those kept; `before` came
// before these. Their columns are wide where the picture has few.
#[derive(Clone, Copy)]
pub struct Strip {
    pub start: usize,
    pub end: usize,
    pub before: u64,
    pub wide: bool,
}

// The left edge of column k of a strip; at k = columns the right edge of the last.
pub fn x_of(k: usize, wide: bool) -> u64
    requires { k ≤ columns }
    ensures { result ≤ 1500 }
{
    if wide {
        LEFT + WIDE * (k as u64)
    } else {
        LEFT + NARROW * (k as u64)
    }
}

pub fn put_x(out: &mut Writer, command: &[u8], k: usize, wide: bool) -> Written
    requires { k ≤ columns }
{
    out.put_with(command, x_of(k, wide), b"")
}

pub fn column_width(wide: bool) -> u64
    ensures { result ≤ 20 }
{
    if wide { WIDE } else { NARROW }
}

// The number of tick t after others, counted from 1. No run has so many ticks that the sum wraps.
pub fn number_of(before: u64, t: usize) -> u64 {
    before.wrapping_add(t as u64).wrapping_add(1)
}

// The bit of what a tick showed that row r shows.
pub fn bit_of(r: u32) -> u32
    requires { r < most_rows }
    ensures { result < 64 }
{
    if r < 16 {
        return r;
    }
    if r < 48 { r + 16 } else { r - 48 }
}

// Where the strip ends that starts at a tick, of n.
pub fn end_of(start: usize, n: usize) -> usize
    requires { start ≤ n }
    ensures lower_bound { start ≤ result }
    ensures upper_bound { result ≤ n }
    ensures upper_bound_2 { result ≤ start + columns }
{
    if n - start < COLUMNS {
        n
    } else {
        start + COLUMNS
    }
}

// The boxes behind a cell's wave: the ticks in which it woke. A browser shows why where one points
// at a box.
ghost use Rattle.diagram.specs.Page.{Fits};

use crate::kept::{Ticks, Why};
use crate::places::{Strip, column_width, number_of, x_of};
use card::limits::CELLS;
use phrases::terms::{is_counter, is_timer};
use program::writer::{Writer, Written};
use reasons::cell::any_reason;

// Why a cell wakes: ", X changed, clock high while active".
fn put_reasons(out: &mut Writer, why: &Why) -> Written {
    let q = why.found;
    let counter = is_counter(why.kind);
    let timed = counter | is_timer(why.kind);
    let reasons = [
        (q.edited, ", edited"),
        (q.moved.x, ", X changed"),
        (q.moved.y, ", Y changed"),
        (q.moved.z, ", Z changed"),
        (q.moved.f, ", F changed"),
        (q.trigger & counter, ", start high"),
        (q.trigger & !counter, ", trigger high"),
        (q.other & counter, ", stop high"),
        (q.other & !counter, ", second trigger high"),
        (q.clock & timed, ", clock high while active"),
        (q.clock & !timed, ", clock high"),
    ];
    for (holds, text) in reasons {
        if holds {
            out.put(text.as_bytes())?;
        }
    }
    Ok(())
}

// The box of a cell in a tick, which has a number, in a column that begins at x. A cell that the
// rules do not name is worked out because the tick is full. Its title is as
// "tick 5, X changed, clock high".
fn put_box(out: &mut Writer, x: u64, width: u64, number: u64, full: bool, why: &Why) -> Written {
    out.put(if any_reason(why.found) {
        b"<path class=\"b\" d=\"M"
    } else {
        b"<path class=\"a\" d=\"M"
    })?;
    out.put_with(b"", x, b" 0h")?;
    out.put_with(b"", width, b"v21H")?;
    out.put_with(b"", x, b"z\">")?;
    out.put_with(b"<title>tick ", number, b"")?;
    put_reasons(out, why)?;
    if full {
        out.put(b", full tick")?;
    }
    out.put(b"</title></path>\n")
}

// All boxes of cell i in a strip.
pub fn put_boxes(out: &mut Writer, ticks: &Ticks, s: Strip, i: u32) -> Written
    requires { Fits s }
{
    for t in s.start..s.end {
        let tick = ticks.at(t + 1);
        if words::bit(tick.woken as u64, i % 64) {
            let x = x_of(t - s.start, s.wide);
            let number = number_of(s.before, t);
            let why = &tick.cells[i as usize % CELLS];
            put_box(out, x, column_width(s.wide), number, tick.full, why)?;
        }
    }
    Ok(())
}

// The chart of the cell types, courses of two timers and of the counters, and how many slots the
// gates of four slots look at.
//
// A row of the chart: the type, the used slots, the edge slots, the largest configuration; `-` for
// none. A row of a course: the readings X Y Z F, then the count, bit, pulse and output that they
// lead to. A counter's bit is "active", where it keeps that. A row of a gate: the type, the
// readings X Y Z F, and how many slots it looks at.
use crate::{put, put_byte, put_field, put_number};
use Slot::{F, X, Y, Z};
use cells::cell::{Cell, Config, Pulses, State, Worked};
use cells::reading::{Quarters, Seen};
use cells::table::{Row, Slots, TYPES, packed, row_of, unpacked};
use cells::work::{DECIDES_AND, DECIDES_OR, Effect, Looked, look};

// Of both timers.
const DURATION: Config = 2;

const KINDS: u8 = TYPES as u8;

// The slots of a cell.
#[derive(Clone, Copy, PartialEq, Eq)]
enum Slot {
    X,
    Y,
    Z,
    F,
}

// A step of a course is the slots that read 1: X is a timer's trigger, and a counter's A or start;
// Y is the clock, and Z the reset; F is a counter's B or stop.
type Step = &'static [Slot];

// The pulse starts where the count reaches 0, and the next clock edge ends it.
const DELAY: [Step; 6] = [&[X], &[Y], &[Y], &[Y], &[X, Y], &[Z]];

// Two triggers come while it runs, and are ignored. The second brings a clock edge, which counts.
const ONE_SHOT: [Step; 6] = [&[X], &[Y], &[X], &[X, Y], &[X, Y], &[Z]];

// Type 19 counts while A and B are high; its reset takes the count and leaves the output.
const WHILE_BOTH: [Step; 6] = [
    &[X, Y],
    &[X, Y, F],
    &[X, Y, F],
    &[Y, F],
    &[X, Y, Z, F],
    &[X, Y, F],
];

// Type 20 counts while one of them is.
const WHILE_EITHER: [Step; 6] = [&[X, Y], &[Y, F], &[Y], &[X, Y, F], &[X, Z], &[X, Y]];

// Type 21 counts in the tick that starts it and not in the one that stops it; stop wins over start,
// reset over all; a start keeps the count.
const FROM_START: [Step; 6] = [&[X, Y], &[Y], &[Y, F], &[X, Y], &[X, Y, F], &[X, Y, Z, F]];

// Type 22 does not start again until its count is 0.
const FROM_START_AT_ZERO: [Step; 6] = [&[X, Y], &[Y], &[Y, F], &[X, Y], &[Z], &[X, Y]];

// Nothing is kept yet.
const CLEAR: State = State {
    bit: false,
    count: Pulses(0),
    pulse: false,
};

fn reading(step: Step) -> Slots {
    Slots {
        x: step.contains(&Slot::X),
        y: step.contains(&Slot::Y),
        z: step.contains(&Slot::Z),
        f: step.contains(&Slot::F),
    }
}

fn put_slots(set: Slots) {
    let none = !set.any();
    let letters = [
        (set.x, b'X'),
        (set.y, b'Y'),
        (set.z, b'Z'),
        (set.f, b'F'),
        (none, b'-'),
    ];
    for (shown, letter) in letters {
        if shown {
            put_byte(letter);
        }
    }
    put_byte(b' ');
}

fn put_largest(row: Row) {
    match row.largest {
        Some(largest) => put_number(u64::from(largest)),
        None => put_byte(b'-'),
    }
}

fn put_row(kind: u8) {
    let row = row_of(kind);
    put_field(kind as u64);
    put_slots(row.used);
    put_slots(row.edge);
    put_largest(row);
    put_byte(b'\n');
}

fn put_chart() {
    for kind in 0..KINDS {
        put_row(kind);
    }
}

fn put_step(r: Slots, w: Worked) {
    let s = w.state;
    for read in [r.x, r.y, r.z, r.f] {
        put_field(u64::from(read));
    }
    put_field(u64::from(s.count.0));
    put_field(u64::from(s.bit));
    put_field(u64::from(s.pulse));
    put_number(u64::from(w.out));
    put_byte(b'\n');
}

// Words of which the addresses 0 to 3 read these four.
fn levels(r: Slots) -> Quarters {
    let p = packed(r.x, r.y, r.z, r.f);
    [p as u64, 0, 0, 0]
}

// What a cell of state s keeps and puts out, where its last output was low.
fn worked(s: State, e: Effect) -> Worked {
    let (state, out) = match e {
        Effect::Slept => (s, false),
        Effect::Same(out) => (s, out),
        Effect::Bit(bit) => (State { bit, ..s }, bit),
        Effect::Count(count) => (State { count, ..s }, 0 < count.0),
        Effect::Timed(count, pulse) => (State { count, pulse, ..s }, pulse),
        Effect::Counted(count, bit, out) => (State { count, bit, ..s }, out),
    };
    Worked { state, out }
}

// Works out a cell and prints the step. The result is the state that the cell keeps.
fn step(kind: u8, s: State, r: Slots) -> State {
    let q = levels(r);
    let cell = Cell {
        config: DURATION,
        count: s.count,
        slots: [0, 1, 2, 3],
        kind,
        bit: s.bit,
        pulse: s.pulse,
    };
    let t = cells::step::step(true, false, cell, &Seen { reads: q, moved: q });
    let w = worked(s, t.effect);
    put_step(r, w);
    w.state
}

fn put_duration(row: Row) {
    if row.largest.is_some() {
        put(b" duration ");
        put_number(DURATION as u64);
    }
}

fn put_head(kind: u8) {
    put(b"type ");
    put_number(kind as u64);
    put_duration(row_of(kind));
    put_byte(b'\n');
}

// A cell's course from nothing kept.
fn put_course(kind: u8, steps: &[Step]) {
    put_head(kind);
    let mut s = CLEAR;
    for read in steps {
        s = step(kind, s, reading(*read));
    }
}

// How a gate of four slots looks at these readings.
fn look_at(deciding: bool, r: Slots) -> Looked {
    let q = levels(r);
    look(deciding, [0, 1, 2, 3], &q)
}

fn put_look(kind: u8, r: Slots, l: Looked) {
    put_field(kind as u64);
    put_number(r.x as u64);
    put_number(r.y as u64);
    put_number(r.z as u64);
    put_field(r.f as u64);
    put_number(l.slots as u64);
    put_byte(b'\n');
}

// The readings X Y Z F that a number has from its highest bit to its lowest.
fn readings(n: u32) -> Slots {
    let r = unpacked(n);
    Slots {
        x: r.f,
        y: r.z,
        z: r.y,
        f: r.x,
    }
}

// A gate under all sixteen readings.
fn put_looks(kind: u8, deciding: bool) {
    for n in 0..16 {
        let r = readings(n);
        put_look(kind, r, look_at(deciding, r));
    }
}

pub fn put_table() {
    put_chart();
    put_course(9, &DELAY);
    put_course(14, &ONE_SHOT);
    put_course(19, &WHILE_BOTH);
    put_course(20, &WHILE_EITHER);
    put_course(21, &FROM_START);
    put_course(22, &FROM_START_AT_ZERO);
    put_looks(10, DECIDES_AND);
    put_looks(11, DECIDES_OR);
}

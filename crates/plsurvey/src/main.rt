// Prints what depends on each line, for the card that an input leaves: a row for each connector
// that something else depends on, and after these, for each output that something else moves, the
// lines that can reach it. The second rows are the columns of the first: what is in no row is in no
// column.
#![tactic(auto)]

ghost use Rattle.std.specs.Prelude.{◌≤◌, ◌<◌};

use card::card::Card;
use card::limits::Number;
use input::system::STDOUT;
use program::arguments::{Switch, read};
use ticks::view::sees;

// Cells and connectors are known by their bases: the first of the cells, that of the connectors,
// and the one after the last.
const FIRST_CELL: u32 = 1;

const FIRST: u32 = 33;

const END: u32 = 49;

// The bases of the cells in a set, and those of the connectors.
const CELL_BASES: u64 = 0x1_ffff_fffe;

const LINE_BASES: u64 = 0x1_fffe_0000_0000;

fn put(text: &[u8]) {
    io::write_all(STDOUT, text);
}

fn put_number(n: u32) {
    io::print_decimal(STDOUT, n as u64);
}

// A cell by its number, a connector by its name.
fn put_name(b: u32) {
    if b < FIRST {
        put_number(b);
        return;
    }
    let name = phrases::names::connector(((b - FIRST) % 16) as u8);
    put(&name);
}

// A name after a blank.
fn put_part(b: u32) {
    put(b" ");
    put_name(b);
}

// The names in a set, from one base up to another.
fn put_names(set: u64, first: u32, end: u32)
    requires first_le_end { first ≤ end }
    requires end_bound { end ≤ 64 }
{
    for b in first..end {
        if words::bit(set, b) {
            put_part(b);
        }
    }
}

// What depends on a connector besides itself.
fn others(card: Card, b: u32) -> u64
    requires { b < 64 }
{
    let s = survey::dependents(card, b as Number);
    let set = sees(0, s.cells, s.cells, s.connectors);
    words::with_set(set, b) ^ words::with_set(0, b)
}

// The end of a line that goes before another one.
fn put_break(wanted: bool) {
    if wanted {
        put(b"\n");
    }
}

// The row of a connector, where something depends on it; `before` says whether a row comes before
// it. The result is whether something does.
fn put_row(card: Card, b: u32, before: bool) -> bool
    requires { b < 64 }
{
    let set = others(card, b);
    if set == 0 {
        return false;
    }
    put_break(before);
    put_name(b);
    put(b":");
    if (set & CELL_BASES) != 0 {
        put(b" cells");
        put_names(set, FIRST_CELL, FIRST);
        if (set & LINE_BASES) != 0 {
            put(b";");
        }
    }
    put_names(set, FIRST, END);
    true
}

// The rows of all connectors. The result is whether there are any.
fn put_rows(card: Card) -> bool {
    let mut any = false;
    for b in FIRST..END {
        if put_row(card, b, any) {
            any = true;
        }
    }
    any
}

// The other lines that can reach a connector. There are none unless it is an output.
fn lines_to(card: Card, b: u32) -> u64
    requires { b < 64 }
{
    let mut set: u64 = 0;
    for a in FIRST..END {
        if words::bit(others(card, a), b) {
            set = words::with_set(set, a);
        }
    }
    set
}

// A column, after the rows.
fn put_column(card: Card, b: u32)
    requires { b < 64 }
{
    let set = lines_to(card, b);
    if set == 0 {
        return;
    }
    put(b"\n");
    put_name(b);
    put(b" <-");
    put_names(set, FIRST, END);
}

fn put_columns(card: Card) {
    for b in FIRST..END {
        put_column(card, b);
    }
}

// The end of the last line is written with a check, so that an output which takes nothing is
// reported once.
fn survey_of(card: Card) {
    if put_rows(card) {
        put_columns(card);
    } else {
        put(b"Nothing depends on any line.");
    }
    let _ = program::writer::write(b"\n");
}

fn main(rt: HostRuntime) {
    let given = read(
        &rt,
        b"plsurvey reads lines of a card and ticks, and prints what depends on each line of the rig.

usage: plsurvey [--cells 32] [--anyway] [FILE]     with no FILE it reads standard input

`TTL0: cells 1 2; BNC1` says that cells 1 and 2 and the connector BNC1 can depend on TTL0, and nothing else
can. `BNC1 <- TTL0` says the same of an output: only TTL0 can move it. Where the card refuses a line, the error
output says which and why, and nothing is printed; --anyway prints all the same. --cells 32 is for a card of
thirty-two cells.

    plsurvey examples/clock.lines
",
        &[Switch::Cells, Switch::Anyway],
    );
    if let Some(card) = given.and_then(wiring_input::wiring_from) {
        survey_of(card);
    }
}

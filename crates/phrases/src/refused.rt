// A refused line: the rule in words, and what to do. Every number that a line or a load can give.
use crate::form::put_form;
use crate::names::type_name;
use crate::page::{Page, low};
use crate::terms::{Place, is_counter, is_flop};
use card::context::Context;
use card::limits::{LARGE, Number};
use card::place::cells_for;
use card::valid;
use cells::cell::Cell;
use cells::table::row_of;
use grammar::grammar::{Command, NoCommand, Pairs};

// 5: there is no such place.
fn put_place(page: &mut Page, v: Number, size: u8) {
    page.say(format_args!(
        "    5: the pointer cannot go to {}.
       Cells are 1 to {}, BNC1 to BNC8 are 33 to 40, TTL0 to TTL7 are 41 to 48.\n",
        low(v),
        cells_for(size)
    ));
}

// 6: the pointer is at a connector.
fn put_at_connector(page: &mut Page, pointer: u8) {
    page.say(format_args!(
        "    6: the pointer is at {}, and a connector has no slots and no state.
       Go to a cell first: M E=1\n",
        Place(pointer)
    ));
}

// 7: no such type, or clock.
fn put_type(page: &mut Page, at_cell: bool, v: Number) {
    let given = low(v);
    if at_cell {
        return page.say(format_args!(
            "    7: there is no cell type {given}. They go from 0 to 22.\n"
        ));
    }
    page.say(format_args!(
        "    7: there is no connector type {given}.
       They are 0 input, 1 open-drain, 2 push-pull.\n"
    ));
}

fn put_clock(page: &mut Page, v: Number) {
    let given = low(v);
    page.say(format_args!("    7: there is no clock {given}. They go from 0 to 4.\n"));
}

// 8: a preset that is not offered.
fn put_preset(page: &mut Page, v: Number, size: u8) {
    let given = low(v);
    page.say(format_args!("    8: there is no preset {given}.\n"));
    page.say(if size == LARGE {
        "       Offered are 0, 2-13, 15, 17-31, 35-59.\n"
    } else {
        "       Offered are 0, 2-13, 15, 17-31, 35-50, 52-59.\n"
    });
}

// 9: no configuration, or over its range.
fn put_config(page: &mut Page, cell: Cell) {
    let name = type_name(cell.kind);
    if let Some(largest) = row_of(cell.kind).largest {
        return page.say(format_args!("    9: {name} takes a configuration from 0 to {largest}.\n"));
    }
    if is_counter(cell.kind) {
        return page.say(format_args!(
            "    9: {name} has no configuration to set. Its count is F.\n"
        ));
    }
    page.say(format_args!(
        "    9: {name} has no configuration.
       Constants, lookups, one-shots and delays have one.\n"
    ));
}

// 10: a slot that the type does not use.
fn put_unused(page: &mut Page, kind: u8) {
    let used = row_of(kind).used;
    let name = type_name(kind);
    if !used.any() {
        return page.say(format_args!("    10: {name} has no slots.\n"));
    }
    page.say(format_args!("    10: {name} uses only the slots"));
    for (slot, letter) in [(used.x, 'X'), (used.y, 'Y'), (used.z, 'Z'), (used.f, 'F')] {
        if slot {
            page.say(format_args!(" {letter}"));
        }
    }
    page.say(".\n");
}

// 11: no address.
fn put_address(page: &mut Page, v: Number, size: u8) {
    let given = low(v);
    if v < 256 {
        page.say(format_args!("    11: address {given} is reserved.\n"));
    } else {
        page.say(format_args!("    11: {given} is no address. They go from 0 to 255.\n"));
    }
    page.say(format_args!(
        "        Levels: 1-{} cells, 33-40 BNC1 to BNC8, 41-48 TTL0 to TTL7.
        64 more: the inverse; 128 more: its rise; 192 more: its fall.\n",
        cells_for(size)
    ));
}

// The first number of a line's slots that is no address.
fn bad_number(p: Pairs, size: u8) -> Number {
    let first = bad_in(p.x, size).or(bad_in(p.y, size));
    first.or(bad_in(p.z, size)).or(p.f).unwrap_or(0)
}

// The number of a slot that is no address.
fn bad_in(slot: Option<Number>, size: u8) -> Option<Number> {
    slot.filter(|v| valid::bad_address(*v, size))
}

// 12: no state, or over its range.
fn put_state(page: &mut Page, kind: u8) {
    if is_flop(kind) {
        return page.say("    12: the state of a flip-flop is 0 or 1.\n");
    }
    if is_counter(kind) {
        return page.say("    12: the count of a counter goes to 65535.\n");
    }
    page.say(format_args!(
        "    12: {} keeps no state.
        Flip-flops, one-shots, delays and counters do.\n",
        type_name(kind)
    ));
}

// 5, 7, 8 and 11, by the command: those that name a number of the line.
fn put_numbered(page: &mut Page, x: Context, command: Command) {
    match command {
        Command::Move(v) => put_place(page, v, x.size),
        Command::Trigger(v) => put_clock(page, v),
        Command::SetKind(v) => put_type(page, x.at_cell, v),
        Command::Preset(v) => put_preset(page, v, x.size),
        Command::SetConfig(v) => put_address(page, v, x.size),
        Command::SetSlots(p) => put_address(page, bad_number(p, x.size), x.size),
        _ => {}
    }
}

// A command of this card that was refused with k.
fn put_command(page: &mut Page, k: u8, x: Context, command: Command) {
    let cell = x.cell;
    match k {
        1 => page.say("    1: the store is too short for a record.\n"),
        4 => page.say("    4: no number of a line goes over 4294967295.\n"),
        6 => put_at_connector(page, x.pointer),
        9 => put_config(page, cell),
        10 => put_unused(page, cell.kind),
        12 => put_state(page, cell.kind),
        13 => page.say(
            "    13: clock 4 comes in at BNC1, so BNC1 must stay an input.
        Choose another clock first: PM E=0\n",
        ),
        _ => put_numbered(page, x, command),
    }
}

// A line that was refused with k.
pub fn put_refused(page: &mut Page, text: &[u8], k: u8, x: Context, p: Result<Command, NoCommand>) {
    match p {
        Err(NoCommand::Malformed) => put_form(page, text),
        Err(NoCommand::Elsewhere) => page.say(
            "    3: the line is for another card. This one has the address 36: write that.\n",
        ),
        Ok(command) => put_command(page, k, x, command),
    }
}

// A load that was refused.
pub fn put_unloaded(page: &mut Page, k: u8) {
    page.say(if k == 14 {
        "    14: the store holds no record. Save one first: 36SS Z\n"
    } else {
        "    15: the record in the store has a value that no line could set.\n"
    });
}

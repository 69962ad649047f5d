// An accepted line: what it changed, or what it read.
use card::card::Card;
use card::context::{Context, context_of};
use card::limits::{FIRST_CONNECTOR, LARGE, Number};
use cells::table::{Class, class_of};
use grammar::grammar::{Command, Pairs, Slot};
use phrases::page::{Page, low};
use phrases::terms::{
    Address, Level, Line, Setting, SlotName, Source, TypedCell, address_in, is_counter, is_delay,
    is_flop,
};
use phrases::wiring::{put_cell, put_changes, put_connector, put_high, put_set, put_trigger};
use std::fmt;

// The index of the cell, or the connector, at the pointer.
fn cell_index(x: Context) -> u8 {
    x.pointer.saturating_sub(1)
}

fn connector_index(x: Context) -> u8 {
    x.pointer.saturating_sub(FIRST_CONNECTOR)
}

// What is at the pointer: "cell 1 (AND2)", or "BNC1".
#[derive(Clone, Copy)]
enum Here {
    Cell(TypedCell),
    Connector(Line),
}

impl fmt::Display for Here {
    fn fmt<W: fmt::Write>(&self, f: &mut fmt::Formatter<W>) -> fmt::Result {
        match self {
            Here::Cell(cell) => write!(f, "{cell}"),
            Here::Connector(line) => write!(f, "{line}"),
        }
    }
}

impl From<Context> for Here {
    fn from(x: Context) -> Self {
        if x.at_cell {
            return Here::Cell(TypedCell {
                i: cell_index(x),
                kind: x.cell.kind,
            });
        }
        Here::Connector(Line(connector_index(x)))
    }
}

// The type and the source of the connector at the pointer.
fn source_here(x: Context) -> Source {
    Source {
        kind: x.connector.kind,
        source: x.connector.source,
    }
}

// Where the pointer is, and what is there.
fn put_pointer(page: &mut Page, x: Context) {
    let here = Here::from(x);
    if x.at_cell {
        return page.say(format_args!("    The pointer is at {here}.\n"));
    }
    let source = source_here(x);
    page.say(format_args!("    The pointer is at {here}, {source}.\n"));
}

fn put_clock(page: &mut Page, v: Number) {
    put_trigger(page, low(v));
    if v == 4 {
        page.say("    Clock 4 comes in at BNC1, which is an input now.\n");
    }
}

fn put_preset(page: &mut Page, v: Number, before: &Card, after: &Card) {
    page.say(format_args!("    Preset {} is set.\n", low(v)));
    put_changes(page, before, after);
}

// A new type.
fn put_kind(page: &mut Page, x: Context) {
    if !x.at_cell {
        return put_connector(page, connector_index(x), x.connector);
    }
    put_cell(page, cell_index(x), x.cell);
    page.say("    Its configuration, slots and state are cleared.\n");
}

// What follows from a new configuration.
fn put_configured(page: &mut Page, kind: u8) {
    match class_of(kind) {
        Class::Constant => page.say("    The output follows in the next tick.\n"),
        Class::Gate(_) => {
            page.say("    Bit p of the code is the output, p = X + 2Y + 4Z + 8F.\n")
        }
        Class::OneShot(_) => {
            page.say("    It counts clock edges, not ticks. Its count is 0 now.\n")
        }
        Class::Delay(_) => page.say(
            "    It counts clock edges, not ticks. Its count is 0 now, and a pulse is over.\n",
        ),
        _ => {}
    }
}

// The source of a connector: "    BNC1: its source is 1, cell 1".
fn put_source(page: &mut Page, x: Context) {
    let read = Address(x.connector.source);
    page.say(format_args!("    {}: its source is {read}.", Here::from(x)));
    if x.connector.kind == 0 {
        page.say(" As an input it does not use it.");
    }
    page.say("\n");
}

// The configuration of a cell: "    cell 1 (delay): duration 2".
fn put_config(page: &mut Page, x: Context) {
    let setting = Setting {
        kind: x.cell.kind,
        config: x.cell.config,
    };
    page.say(format_args!("    {}: {setting}.\n", Here::from(x)));
}

// A new configuration, or a new source.
fn put_set_config(page: &mut Page, x: Context) {
    if !x.at_cell {
        return put_source(page, x);
    }
    put_config(page, x);
    put_configured(page, x.cell.kind);
}

// The state of the cell at the pointer.
fn put_state(page: &mut Page, x: Context) {
    let here = Here::from(x);
    if is_flop(x.cell.kind) {
        let bit = Level(x.cell.bit);
        return page.say(format_args!("    {here}: its bit is {bit}.\n"));
    }
    let count = x.cell.count.0;
    page.say(format_args!("    {here}: its count is {count}.\n"));
}

// A new state. The output waits, and a delay's pulse is over.
fn put_set_state(page: &mut Page, x: Context) {
    put_state(page, x);
    if is_delay(x.cell.kind) {
        page.say("    A pulse is over.\n");
    }
    page.say("    The output waits for the next tick.\n");
}

// What a slot reads: "    cell 1 (AND2): X reads 41, TTL0".
fn put_slot(page: &mut Page, x: Context, slot: Slot) {
    let kind = x.cell.kind;
    page.say(format_args!(
        "    {}: {} reads {}.\n",
        Here::from(x),
        SlotName { kind, slot },
        Address(address_in(x.cell, slot))
    ));
}

// A slot that was given a number. An edge slot may have stored another address.
fn put_given(page: &mut Page, x: Context, slot: Slot, v: Number) {
    put_slot(page, x, slot);
    let stored = address_in(x.cell, slot);
    if stored as u64 != v {
        page.say(format_args!(
            "    The slot takes edges: {} is stored as {stored}.\n",
            low(v)
        ));
    }
}

// The slots that were given a number.
fn put_slots(page: &mut Page, x: Context, p: Pairs) {
    let slots = [
        (Slot::X, p.x),
        (Slot::Y, p.y),
        (Slot::Z, p.z),
        (Slot::F, p.f),
    ];
    for (slot, number) in slots {
        if let Some(v) = number {
            put_given(page, x, slot, v);
        }
    }
}

// The type at the pointer.
fn put_get_kind(page: &mut Page, x: Context) {
    let here = Here::from(x);
    if x.at_cell {
        return page.say(format_args!("    {here}: type {}.\n", x.cell.kind));
    }
    let source = source_here(x);
    page.say(format_args!("    {here}: type {}, {source}.\n", source.kind));
}

// The configuration at the pointer; a counter shows its count, a connector its source.
fn put_get_config(page: &mut Page, x: Context) {
    if !x.at_cell {
        return put_source(page, x);
    }
    if is_counter(x.cell.kind) {
        return put_state(page, x);
    }
    put_config(page, x);
}

// The cells of a half that are high: on a card of sixteen these are all.
fn put_outputs(page: &mut Page, x: Context, upper: bool) {
    let all = x.outputs as u64;
    if x.size != LARGE {
        page.say("    High cells since the last tick:");
        return put_set(page, all);
    }
    if upper {
        page.say("    High since the last tick, of cells 17 to 32:");
        return put_set(page, all & 0xffff0000);
    }
    page.say("    High since the last tick, of cells 1 to 16:");
    put_set(page, all & 0xffff);
}

// A command that changes the card, by the card after it.
fn put_write(page: &mut Page, command: Command, before: &Card, after: &Card) {
    let x = context_of(*after);
    match command {
        Command::Move(_) => put_pointer(page, x),
        Command::Trigger(v) => put_clock(page, v),
        Command::Home => page.say(
            "    Every state is cleared: bits, counts, pulses.
    The outputs wait for the next tick.\n",
        ),
        Command::Preset(v) => put_preset(page, v, before, after),
        Command::SetKind(_) => put_kind(page, x),
        Command::SetConfig(_) => put_set_config(page, x),
        Command::SetState(_) => put_set_state(page, x),
        Command::SetSlots(p) => put_slots(page, x, p),
        _ => {}
    }
}

// A command that reads, or saves.
fn put_read(page: &mut Page, command: Command, x: Context) {
    match command {
        Command::Where => put_pointer(page, x),
        Command::GetKind => put_get_kind(page, x),
        Command::GetConfig => put_get_config(page, x),
        Command::GetState => put_state(page, x),
        Command::GetSlot(slot) => put_slot(page, x, slot),
        Command::Front => {
            page.say("    High on the front in the last tick:");
            put_high(page, x.levels, 0, 8);
        }
        Command::Back => {
            page.say("    High on the backplane in the last tick:");
            put_high(page, x.levels, 8, 16);
        }
        Command::Cells => put_outputs(page, x, false),
        Command::Upper => put_outputs(page, x, true),
        Command::Save => page.say("    All settings are in the store. L loads them.\n"),
        _ => {}
    }
}

// What an accepted command did.
pub fn put_accepted(page: &mut Page, command: Command, before: &Card, after: &Card) {
    put_write(page, command, before, after);
    put_read(page, command, context_of(*before));
}

// An accepted load.
pub fn put_loaded(page: &mut Page, before: &Card, after: &Card) {
    page.say("    The card powers up with the settings in the store.\n");
    put_changes(page, before, after);
    page.say("    The pointer is at cell 1. States, outputs and levels are cleared.\n");
}

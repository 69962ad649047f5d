// Cells and connectors with their settings, and which of them differ between two cards; in
// sentences, or as lists of a row.
ghost use Rattle.std.specs.Prelude.{◌≤◌};

use crate::names::type_name;
use crate::page::Page;
use crate::terms::{Address, CellName, Line, Setting, SlotName, Source};
use card::card::{Card, Connector};
use card::connectors::each_of;
use card::limits::{CELLS, CONNECTORS, EditedSet};
use card::place::cells_for;
use cells::cell::Cell;
use cells::table::row_of;
use grammar::grammar::Slot;

// ---- cells and connectors

// A slot of a cell, where it is used: "Y (clock) 192, always high". A semicolon comes before all
// but the first.
fn put_slot(page: &mut Page, first: usize, used: bool, kind: u8, slot: Slot, address: u8) {
    if used {
        page.separate(first, b"; ");
        page.say(format_args!("{} {}", SlotName { kind, slot }, Address(address)));
    }
}

// The slots that a cell uses, in a line of their own.
fn put_slots(page: &mut Page, cell: Cell) {
    let used = row_of(cell.kind).used;
    let [x, y, z, f] = cell.slots;
    if !used.any() {
        return;
    }
    page.say("      ");
    let first = page.len();
    put_slot(page, first, used.x, cell.kind, Slot::X, x);
    put_slot(page, first, used.y, cell.kind, Slot::Y, y);
    put_slot(page, first, used.z, cell.kind, Slot::Z, z);
    put_slot(page, first, used.f, cell.kind, Slot::F, f);
    page.say(".\n");
}

// The settings of cell i, with its configuration where the type has one.
pub fn put_cell(page: &mut Page, i: u8, cell: Cell) {
    let kind = cell.kind;
    page.say(format_args!("    {}: {}", CellName(i), type_name(kind)));
    if row_of(kind).largest.is_some() {
        let config = cell.config;
        page.say(format_args!(", {}", Setting { kind, config }));
    }
    page.say(".\n");
    put_slots(page, cell);
}

// What a connector is.
fn source_of(c: Connector) -> Source {
    Source {
        kind: c.kind,
        source: c.source,
    }
}

// The settings of connector k, in a line.
pub fn put_connector(page: &mut Page, k: u8, c: Connector) {
    page.say(format_args!("    {}: {}.\n", Line(k), source_of(c)));
}

// A cell of a row: its settings and its state.
fn put_cell_item(page: &mut Page, i: u8, cell: Cell) {
    page.say(format_args!(
        "{{\"cell\":{},\"type\":{},\"config\":{}",
        i as u32 + 1,
        cell.kind,
        cell.config
    ));
    let [x, y, z, f] = cell.slots;
    page.say(format_args!(",\"slots\":[{x},{y},{z},{f}]"));
    page.say(format_args!(
        ",\"bit\":{},\"count\":{},\"pulse\":{}}}",
        cell.bit, cell.count.0, cell.pulse
    ));
}

// A connector of a row.
fn put_connector_item(page: &mut Page, k: u8, c: Connector) {
    page.say(format_args!(
        "{{\"connector\":\"{}\",\"type\":{},\"source\":{}}}",
        Line(k),
        c.kind,
        c.source
    ));
}

// ---- what differs between two cards

// Whether two cells have the same settings, whatever their states are.
fn alike(a: Cell, b: Cell) -> bool {
    (a.kind == b.kind) & (a.config == b.config) & (a.slots == b.slots)
}

// Cells that have other settings now, and in a row those that have another state.
fn put_cells(page: &mut Page, rows: bool, before: [Cell; CELLS], after: [Cell; CELLS]) {
    let first = page.len();
    for i in 0..CELLS as u8 {
        let was = before[i as usize];
        let is = after[i as usize];
        if rows {
            if was != is {
                page.separate(first, b",");
                put_cell_item(page, i, is);
            }
        } else if !alike(was, is) {
            put_cell(page, i, is);
        }
    }
}

// Connectors that have other settings now.
fn put_connectors(
    page: &mut Page,
    rows: bool,
    before: [Connector; CONNECTORS],
    after: [Connector; CONNECTORS],
) {
    let first = page.len();
    for k in 0..CONNECTORS as u8 {
        let was = before[k as usize];
        let is = after[k as usize];
        if was != is {
            if rows {
                page.separate(first, b",");
                put_connector_item(page, k, is);
            } else {
                put_connector(page, k, is);
            }
        }
    }
}

// Which ticks run now.
pub fn put_trigger(page: &mut Page, trigger: u32) {
    page.say(format_args!("    Ticks of clock {trigger} run now, and others are idle.\n"));
}

// The settings in which two cards differ, a line for each.
pub fn put_changes(page: &mut Page, before: &Card, after: &Card) {
    let first = page.len();
    if before.trigger != after.trigger {
        put_trigger(page, after.trigger as u32);
    }
    put_cells(page, false, before.cells, after.cells);
    put_connectors(
        page,
        false,
        each_of(before.connectors),
        each_of(after.connectors),
    );
    if page.len() == first {
        page.say("    No setting is another one than before.\n");
    }
}

// What differs between two cards, as members of a row. Pointer and trigger are always there.
pub fn put_change_row(page: &mut Page, before: &Card, after: &Card) {
    page.say(format_args!(
        ",\"pointer\":{},\"trigger\":{},\"changed\":{{\"cells\":[",
        after.pointer, after.trigger
    ));
    put_cells(page, true, before.cells, after.cells);
    page.say("],\"connectors\":[");
    put_connectors(
        page,
        true,
        each_of(before.connectors),
        each_of(after.connectors),
    );
    page.say("]}");
}

// ---- sets

// The cells of a set: " cell 1 cell 10", or in a row their numbers, "1,10".
pub fn put_members(page: &mut Page, rows: bool, set: u64) {
    let first = page.len();
    for i in 0..CELLS as u32 {
        if words::bit(set, i) {
            if rows {
                page.separate(first, b",");
                page.say(i + 1);
            } else {
                page.say(format_args!(" cell {}", i + 1));
            }
        }
    }
}

// What ends a list that began at a place: " none." where it is empty.
fn end_list(page: &mut Page, first: usize) {
    page.say(if page.len() == first {
        " none.\n"
    } else {
        ".\n"
    });
}

// The cells of a set: " cell 1 cell 10.", or " none.".
pub fn put_set(page: &mut Page, set: u64) {
    let first = page.len();
    put_members(page, false, set);
    end_list(page, first);
}

// The connectors of a range that are high: " BNC1 BNC3.", or " none.".
pub fn put_high(page: &mut Page, levels: u16, from: u32, to: u32)
    requires from_le_to { from ≤ to }
    requires to_bound { to ≤ 16 }
{
    let first = page.len();
    for k in from..to {
        if words::bit(levels as u64, k) {
            page.say(format_args!(" {}", Line(k as u8)));
        }
    }
    end_list(page, first);
}

// Which cells of a card of this size a call has edited.
pub fn put_edited(page: &mut Page, set: EditedSet, size: u8) {
    if set == 0 {
        return;
    }
    if set.count_ones() == cells_for(size) as u32 {
        return page.say("    All cells are edited: they wake in the next tick.\n");
    }
    page.say("    Edited, so it wakes in the next tick:");
    put_set(page, set);
}

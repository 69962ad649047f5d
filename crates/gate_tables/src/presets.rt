// What each preset sets, to be checked against document 01's table of presets by hand.
//
// Two runs over the numbers 0 to 65, the second under trigger 4. A row: the number; the number that
// a line with this preset is refused with, 0 where it is accepted; each cell that is set, as
// number:type/configuration/slots; each connector that is sourced, as address=source/type; `-`
// where nothing changed. The front connectors start as open-drain from 16, so that one that is
// sourced shows.
use crate::{put, put_byte, put_field, put_number};
use card::card::{Card, Connector};
use card::connectors::each_of;
use card::edits::{move_to, set_connector_type, set_source, set_trigger};
use card::limits::Number;
use card::presets::{apply_preset, bad_preset, sets_front};
use cells::cell::Cell;

// A byte after a separator.
fn put_part(mark: u8, n: u8) {
    put_byte(mark);
    put_number(n as u64);
}

fn put_cell(i: usize, cell: Cell) {
    put_byte(b' ');
    put_number(i as u64);
    put_part(b':', cell.kind);
    put_byte(b'/');
    put_number(cell.config as u64);
    put_part(b'/', cell.slots[0]);
    put_part(b',', cell.slots[1]);
    put_part(b',', cell.slots[2]);
    put_part(b',', cell.slots[3]);
}

fn put_connector(k: usize, c: Connector) {
    put_byte(b' ');
    put_number(k as u64);
    put_part(b'=', c.source);
    put_part(b'/', c.kind);
}

// The edited cells. The result is whether there are any.
fn put_cells(card: Card) -> bool {
    let mut any = false;
    for (i, cell) in card.cells.iter().take(16).enumerate() {
        if words::bit(card.edited, i as u32) {
            put_cell(i + 1, *cell);
            any = true;
        }
    }
    any
}

// The connectors that changed. The result is whether there are any.
fn put_connectors(before: Card, after: Card) -> bool {
    let olds = each_of(before.connectors);
    let news = each_of(after.connectors);
    let mut any = false;
    for (k, (old, new)) in olds.iter().zip(&news).enumerate() {
        if *old != *new {
            put_connector(k + 33, *new);
            any = true;
        }
    }
    any
}

// The refusal of a line with this preset.
fn refusal(card: Card, v: Number) -> u64 {
    if bad_preset(v, card.size) {
        return 8;
    }
    if card.trigger == 4 && sets_front(v, card.size) {
        return 13;
    }
    0
}

fn put_line(card: Card, v: Number) {
    let after = apply_preset(card, v);
    put_field(v);
    put_number(refusal(card, v));
    let cells = put_cells(after);
    let connectors = put_connectors(card, after);
    if !cells && !connectors {
        put(b" -");
    }
    put_byte(b'\n');
}

fn put_all(card: Card) {
    for v in 0..66 {
        put_line(card, v);
    }
}

fn marked() -> Card {
    let mut card = card::card::fresh();
    for p in 33..41 {
        card = set_source(set_connector_type(move_to(card, p), 1), 16);
    }
    card
}

pub fn put_table() {
    let card = marked();
    put_all(card);
    put(b"trigger 4\n");
    put_all(set_trigger(card, 4));
}

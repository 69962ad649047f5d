// Which connectors and cells have a row: those that change, and those that are wired. A set has bit
// k for connector k, BNC1 first, and bit 32 + i for cell i, as in what a tick showed
// (`trace::packed`).
//
// A cell is wired where it is anything but a constant 0. A connector is wired where it is an output
// with a source other than 0, or where a wired cell or such an output reads it. A fresh card's
// front connectors are outputs from 0, so they have no row of their own.
//
// Inputs are drawn first, then cells, then outputs: `in_order` gives the set of rows in that order,
// sixteen bits, thirty-two and sixteen.
ghost use Rattle.std.specs.Prelude.{◌<◌};

use card::card::{Card, Connector};
use card::connectors::connector_at;
use card::limits::{CELLS, CONNECTORS, CONNECTORS_END, FIRST_CONNECTOR, INPUT};
use cells::cell::Cell;

// The connector that an address reads, in any of its four ways; none where it reads something else.
fn connector_in(address: u8) -> u64 {
    let base = address % 64;
    match base {
        FIRST_CONNECTOR..CONNECTORS_END => words::with_set(0, (base - FIRST_CONNECTOR) as u32),
        _ => 0,
    }
}

// The connectors that a cell's slots read. A slot that its type does not use is 0.
fn read_by(cell: Cell) -> u64 {
    let mut set = 0;
    for address in cell.slots {
        set |= connector_in(address);
    }
    set
}

// Cell i and what it reads, where it is wired.
fn by_cell(i: u32, cell: Cell) -> u64
    requires { i < 32 }
{
    if (cell.kind == 0) & (cell.config == 0) {
        return 0;
    }
    words::with_set(read_by(cell), 32 + i)
}

// Connector k and what it reads, where it is an output with a source.
fn by_connector(k: u32, c: Connector) -> u64
    requires { k < 16 }
{
    if (c.kind == INPUT) | (c.source == 0) {
        return 0;
    }
    words::with_set(connector_in(c.source), k)
}

// All that is wired.
pub fn wired(card: Card) -> u64 {
    let mut set = 0;
    for i in 0..CELLS as u32 {
        set |= by_cell(i, card.cells[i as usize]);
    }
    for k in 0..CONNECTORS as u32 {
        set |= by_connector(k, connector_at(card.connectors, k));
    }
    set
}

// The rows of a set, by what the connectors of a card are.
pub fn in_order(set: u64, card: Card) -> u64 {
    let row = card.connectors;
    let outputs = (row.push_pull as u64) | (row.open_drain as u64);
    let connectors = set % 65536;
    let driven = connectors & outputs;
    let cells = set >> 32;
    ((connectors ^ driven) | (cells << 16)) | (driven << 48)
}

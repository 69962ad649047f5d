// The names of the rows, by the wiring: "TTL2 in", "cell 1 one-shot", "BNC1 <- cell 2".
ghost use Rattle.std.specs.Prelude.{◌<◌};
ghost use Rattle.diagram.specs.Page.{most_rows};

use card::card::Card;
use card::connectors::connector_at;
use card::limits::{CONNECTORS_END, FIRST_CONNECTOR, OPEN_DRAIN};
use phrases::names::{connector, type_name};
use program::writer::{Writer, Written};

fn put_cell_name(out: &mut Writer, card: Card, i: u32) -> Written
    requires { i < 32 }
{
    let cells = card.cells;
    let cell = cells[i as usize];
    out.put_with(b"cell ", i as u64 + 1, b" ")?;
    out.put(type_name(cell.kind).as_bytes())
}

// Connector k, BNC1 first.
fn put_connector(out: &mut Writer, k: u8) -> Written {
    out.put(&connector(k))
}

// What is at a base: a cell or a connector.
fn put_base(out: &mut Writer, base: u8) -> Written {
    if base < FIRST_CONNECTOR {
        return out.put_with(b"cell ", base as u64, b"");
    }
    if base < CONNECTORS_END {
        return put_connector(out, base - FIRST_CONNECTOR);
    }
    out.put(b"reserved")
}

// How an address reads it.
fn put_reading(out: &mut Writer, quarter: u8) -> Written {
    match quarter {
        0 => Ok(()),
        1 => out.put(b"inverse of "),
        2 => out.put(b"rise of "),
        _ => out.put(b"fall of "),
    }
}

// An address, by what it reads.
fn put_address(out: &mut Writer, address: u8) -> Written {
    let base = address % 64;
    let quarter = address / 64;
    if base != 0 {
        put_reading(out, quarter)?;
        return put_base(out, base);
    }
    if quarter % 2 == 1 {
        return out.put(b"always high");
    }
    out.put(b"always low")
}

// Connector k as an output, with its source.
fn put_output(out: &mut Writer, card: Card, k: u32) -> Written
    requires { k < 16 }
{
    let row = card.connectors;
    let c = connector_at(row, k);
    put_connector(out, k as u8)?;
    out.put(b" &lt;- ")?;
    put_address(out, c.source)?;
    if c.kind == OPEN_DRAIN {
        return out.put(b", open-drain");
    }
    Ok(())
}

// The name of row r: inputs, cells, outputs.
pub fn put_name(out: &mut Writer, card: Card, r: u32) -> Written
    requires { r < most_rows }
{
    if r < 16 {
        put_connector(out, r as u8)?;
        return out.put(b" in");
    }
    if r < 48 {
        return put_cell_name(out, card, r - 16);
    }
    put_output(out, card, r - 48)
}

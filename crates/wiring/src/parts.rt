// The parts of a printed wiring, each written after the last: a number after its word, the slots
// of a cell, a cell, a connector.
ghost use Rattle.std.specs.Prelude.{◌≡◌, ◌+◌, ◌*◌, ◌^◌, ◌<◌, ◌≤◌, length, take};
ghost use Rattle.std.proofs.lemmas.List.Edits.{sets};
ghost use Rattle.text.specs.Decimal.{max_digits};
ghost use Rattle.card.specs.Address.{cell_room, connector_count};
ghost use Rattle.wiring.specs.Wiring.{cell_commands, connector_commands, commands_from};
ghost use Rattle.wiring.specs.Parts.{commands_text, slots_text, slots_most, cell_most, connector_most, cells_most};
ghost use Rattle.wiring.specs.Parts.{text_most};
ghost use Rattle.wiring.specs.Parts;

use card::card::Connector;
use card::limits::{CELLS, CONNECTORS, FIRST_CELL, FIRST_CONNECTOR};
use cells::cell::Cell;

// `max_digits`: the most digits of a number.
const DIGITS: usize = 10;

// The most bytes of a line of one number, of a line of slots, of a cell and of a connector.
const NUMBER_MOST: usize = 8 + (DIGITS + 1);

const SLOTS_MOST: usize = 5 + (4 * (3 + DIGITS) + 1);

const CELL_MOST: usize = 3 * NUMBER_MOST + SLOTS_MOST;

const CONNECTOR_MOST: usize = 3 * NUMBER_MOST;

// `text_most`: any card's wiring has room here.
pub const TEXT_MOST: usize = CELLS * CELL_MOST + (CONNECTORS * CONNECTOR_MOST + NUMBER_MOST);

// A number after a word and before an ending, where it is given; the result is the place after it.
pub(crate) fn put(
    out: &mut [u8; TEXT_MOST],
    at: usize,
    given: bool,
    word: &[u8],
    v: u32,
    ending: &[u8],
) -> usize
    requires v_bound { v < 10 ^ max_digits }
    requires ending_bound { at + (length word.now + (max_digits + length ending.now)) ≤ text_most }
    ensures out_after { out.new
        ≡ sets out.old at (Parts.part given word.now v ending.now) }
    ensures value { result ≡ at + length (Parts.part given word.now v ending.now) }
    ensures upper_bound { result ≤ at + (length word.now + (max_digits + length ending.now)) }
{
    if !given {
        return at;
    }
    let number = text::copy(out, at, word);
    let end = text::put_decimal(out, number, v);
    text::copy(out, end, ending)
}

// A slot's address as a number.
fn wide(b: u8) -> u32
    ensures value { result ≡ b }
    ensures upper_bound { result < 256 }
{
    b as u32
}

// The line of the slots that are used, in the order X Y Z F, if there are any.
fn put_slots(out: &mut [u8; TEXT_MOST], at: usize, cell: Cell) -> usize
    requires { at + slots_most ≤ text_most }
    ensures out_after { out.new ≡ sets out.old at (slots_text cell) }
    ensures value { result ≡ at + length (slots_text cell) }
    ensures upper_bound { result ≤ at + slots_most }
{
    let row = cells::table::row_of(cell.kind);
    let used = row.used;
    let s = cell.slots;
    if !((used.x | used.y) | (used.z | used.f)) {
        return at;
    }
    let x = text::copy(out, at, b"36CCB");
    let y = put(out, x, used.x, b" X=", wide(s[0]), b"");
    let z = put(out, y, used.y, b" Y=", wide(s[1]), b"");
    let f = put(out, z, used.z, b" Z=", wide(s[2]), b"");
    let end = put(out, f, used.f, b" F=", wide(s[3]), b"");
    text::copy(out, end, b"\n")
}

// The lines of cell i.
fn put_cell(out: &mut [u8; TEXT_MOST], at: usize, i: u8, cell: Cell) -> usize
    requires i_lt_cell_room { i < cell_room }
    requires cell_most_bound { at + cell_most ≤ text_most }
    ensures out_after { out.new ≡ sets out.old at (commands_text (cell_commands i cell)) }
    ensures value { result ≡ at + length (commands_text (cell_commands i cell)) }
    ensures upper_bound { result ≤ at + cell_most }
{
    let row = cells::table::row_of(cell.kind);
    let y = put(out, at, true, b"M E=", (i + FIRST_CELL) as u32, b"\n");
    let z = put(out, y, true, b"36CCA Y=", cell.kind as u32, b"\n");
    let x = put(
        out,
        z,
        row.largest.is_some(),
        b"36CCA Z=",
        cell.config,
        b"\n",
    );
    put_slots(out, x, cell)
}

// The lines of connector k.
fn put_connector(out: &mut [u8; TEXT_MOST], at: usize, k: u8, c: Connector) -> usize
    requires k_lt_connector_count { k < connector_count }
    requires connector_most_bound { at + connector_most ≤ text_most }
    ensures out_after { out.new ≡ sets out.old at (commands_text (connector_commands k c)) }
    ensures value { result ≡ at + length (commands_text (connector_commands k c)) }
    ensures upper_bound { result ≤ at + connector_most }
{
    let y = put(out, at, true, b"M E=", (k + FIRST_CONNECTOR) as u32, b"\n");
    let z = put(out, y, true, b"36CCA Y=", c.kind as u32, b"\n");
    put(out, z, true, b"36CCA Z=", c.source as u32, b"\n")
}

// The lines of the first n cells, at the front.
pub(crate) fn put_cells(out: &mut [u8; TEXT_MOST], cells: [Cell; CELLS], n: u8) -> usize
    requires { n ≤ cell_room }
    ensures out_after { out.new
        ≡ sets out.old 0 (commands_text (commands_from cell_commands 0 (take n cells))) }
    ensures value { result ≡ 0 + length (commands_text (commands_from cell_commands 0 (take n cells))) }
    ensures upper_bound { result ≤ cells_most }
{
    let mut at: usize = 0;
    for i in 0..n {
        let k = i as usize;
        at = put_cell(out, at, i, cells[k]);
    }
    at
}

// The lines of all connectors, after those of the cells.
pub(crate) fn put_connectors(
    out: &mut [u8; TEXT_MOST],
    start: usize,
    connectors: [Connector; CONNECTORS],
) -> usize
    requires { start ≤ cells_most }
    ensures out_after { out.new
        ≡ sets out.old start (commands_text (commands_from connector_commands 0 connectors)) }
    ensures value { result ≡ start + length (commands_text (commands_from connector_commands 0 connectors)) }
    ensures upper_bound { result ≤ start + connector_count * connector_most }
{
    let mut at = start;
    for k in 0..CONNECTORS as u8 {
        let n = k as usize;
        at = put_connector(out, at, k, connectors[n]);
    }
    at
}

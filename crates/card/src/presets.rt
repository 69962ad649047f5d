// Presets: two constant tables by preset number, and what a preset does to the card.
ghost use Rattle.std.specs.Prelude.{◌≡◌, ℕ, ◌<◌, ◌≤◌, not, ◌||◌, ◌++◌, drop, if◌then◌else◌, slice_index_or};
ghost use Rattle.std.proofs.Math.Option;
ghost use Rattle.words.specs.Bits.{bit_at, word_of};
ghost use Rattle.words.specs.Listed.{listed};
ghost use Rattle.card.specs.Address.{cell_count, cell_room, cells_for, connector_count};
ghost use Rattle.card.specs.Connectors.{no_connector};
ghost use Rattle.card.specs.PresetRows;
ghost use Rattle.card.specs.PresetRows.{row_byte, source_under, wired_cell, cell_under, SourceRows, LargeRow};
ghost use Rattle.card.specs.PresetRows.{CellRows};
ghost use Rattle.card.specs.Presets.{offered, is_large, preset_cell, preset_source, sets_front, sourced, preset};
ghost use Rattle.card.specs.Fresh.{no_cell};

use crate::card::{BLANK, Card, Connector};
use crate::connectors::{each_of, from_each};
use crate::limits::{CELLS, CONNECTORS, EditedSet, FIRST_CELL, LARGE, Number, PUSH_PULL};
use crate::place::cells_for;
use cells::cell::{Cell, Config};

// How many rows the two tables have: no preset has a number past the first, and none past the
// second sets a cell.
const SOURCE_ROWS: usize = 60;

const CELL_ROWS: usize = 37;

// A row for each preset number, read by bytes: the connectors that it sources, a bit for each from
// BNC1 on; those of them that take the first address; the first and the second address; 1 where a
// connector's address is its index further.
static SOURCES: [u64; SOURCE_ROWS] = [
    0x00_00_00_00_00,
    0x00_00_00_00_00,
    0x00_00_00_00_00,
    0x00_00_00_00_00,
    0x00_00_00_00_00,
    0xf0_10_0a_00_00,
    0xf0_20_0a_00_00,
    0xf0_40_0a_00_00,
    0xf0_80_0a_00_00,
    0xf0_00_0a_00_00,
    0x00_00_00_00_00,
    0x00_00_00_00_00,
    0x00_00_00_00_00,
    0x08_08_0c_00_00,
    0x00_00_00_00_00,
    0x00_00_00_00_00,
    0x00_00_00_00_00,
    0x00_00_00_00_00,
    0x00_00_00_00_00,
    0xff_ff_09_00_01,
    0xf0_f0_09_00_01,
    0x00_00_00_00_00,
    0x00_00_00_00_00,
    0xff_ff_29_00_01,
    0x04_04_01_00_00,
    0x04_04_08_00_00,
    0x00_00_00_00_00,
    0x04_04_0a_00_00,
    0xf0_60_0a_00_00,
    0xf0_70_0a_00_00,
    0xf0_f0_0a_00_00,
    0xf0_50_06_07_00,
    0x00_00_00_00_00,
    0x00_00_00_00_00,
    0x00_00_00_00_00,
    0x04_04_0b_00_00,
    0x00_00_00_00_00,
    0x7f_01_0a_00_00,
    0x7f_02_0a_00_00,
    0x7f_04_0a_00_00,
    0x7f_08_0a_00_00,
    0x7f_10_0a_00_00,
    0x7f_20_0a_00_00,
    0x7f_40_0a_00_00,
    0x7f_0a_0a_00_00,
    0x7f_14_0a_00_00,
    0x7f_28_0a_00_00,
    0x7f_50_0a_00_00,
    0x7f_15_0a_00_00,
    0x7f_2a_0a_00_00,
    0x7f_00_0a_00_00,
    0x00_00_00_00_00,
    0x04_04_2e_00_00,
    0x7f_21_0a_00_00,
    0x7f_29_0a_00_00,
    0x7f_09_0a_00_00,
    0x7f_12_0a_00_00,
    0x7f_24_0a_00_00,
    0x7f_11_0a_00_00,
    0x7f_22_0a_00_00,
];

// Two rows for each preset number, read by bytes: the first cell that it sets and how many from
// there, then that cell's type, configuration and slots X Y Z F; in the second row, after a zero,
// 1 where the addresses in X and Y are the cell's index further, then the type, configuration and
// slots of the other cells. No later preset sets a cell.
static SET_CELLS: [u64; 2 * CELL_ROWS] = [
    0x01_10_00_00_00_00_00_00,
    0x00_00_00_00_00_00_00_00,
    0x00_00_00_00_00_00_00_00,
    0x00_00_00_00_00_00_00_00,
    0x01_01_00_00_00_00_00_00,
    0x00_00_00_00_00_00_00_00,
    0x01_01_00_01_00_00_00_00,
    0x00_00_00_00_00_00_00_00,
    0x01_10_01_00_41_c0_00_00,
    0x00_01_01_00_41_c0_00_00,
    0x00_00_00_00_00_00_00_00,
    0x00_00_00_00_00_00_00_00,
    0x00_00_00_00_00_00_00_00,
    0x00_00_00_00_00_00_00_00,
    0x00_00_00_00_00_00_00_00,
    0x00_00_00_00_00_00_00_00,
    0x00_00_00_00_00_00_00_00,
    0x00_00_00_00_00_00_00_00,
    0x00_00_00_00_00_00_00_00,
    0x00_00_00_00_00_00_00_00,
    0x08_01_00_00_00_00_00_00,
    0x00_00_00_00_00_00_00_00,
    0x08_01_00_01_00_00_00_00,
    0x00_00_00_00_00_00_00_00,
    0x0a_01_05_00_2a_08_00_00,
    0x00_00_00_00_00_00_00_00,
    0x0c_01_03_a8_2c_0a_01_00,
    0x00_00_00_00_00_00_00_00,
    0x00_00_00_00_00_00_00_00,
    0x00_00_00_00_00_00_00_00,
    0x03_02_01_00_43_82_00_00,
    0x00_00_01_00_44_c3_00_00,
    0x00_00_00_00_00_00_00_00,
    0x00_00_00_00_00_00_00_00,
    0x02_01_05_00_6a_40_00_00,
    0x00_00_00_00_00_00_00_00,
    0x02_01_05_00_6c_40_00_00,
    0x00_00_00_00_00_00_00_00,
    0x00_00_00_00_00_00_00_00,
    0x00_00_00_00_00_00_00_00,
    0x00_00_00_00_00_00_00_00,
    0x00_00_00_00_00_00_00_00,
    0x03_02_01_00_43_82_00_00,
    0x00_00_00_00_00_00_00_00,
    0x03_02_00_00_00_00_00_00,
    0x00_00_00_00_00_00_00_00,
    0x00_00_00_00_00_00_00_00,
    0x00_00_00_00_00_00_00_00,
    0x00_00_00_00_00_00_00_00,
    0x00_00_00_00_00_00_00_00,
    0x00_00_00_00_00_00_00_00,
    0x00_00_00_00_00_00_00_00,
    0x02_01_05_00_2c_40_00_00,
    0x00_00_00_00_00_00_00_00,
    0x00_00_00_00_00_00_00_00,
    0x00_00_00_00_00_00_00_00,
    0x00_00_00_00_00_00_00_00,
    0x00_00_00_00_00_00_00_00,
    0x00_00_00_00_00_00_00_00,
    0x00_00_00_00_00_00_00_00,
    0x00_00_00_00_00_00_00_00,
    0x00_00_00_00_00_00_00_00,
    0x06_02_0a_00_2a_08_6c_40,
    0x00_00_0a_00_2a_08_2c_40,
    0x00_00_00_00_00_00_00_00,
    0x00_00_00_00_00_00_00_00,
    0x00_00_00_00_00_00_00_00,
    0x00_00_00_00_00_00_00_00,
    0x00_00_00_00_00_00_00_00,
    0x00_00_00_00_00_00_00_00,
    0x00_00_00_00_00_00_00_00,
    0x00_00_00_00_00_00_00_00,
    0x0a_01_05_00_08_40_00_00,
    0x00_00_00_00_00_00_00_00,
];

// The preset that only a large card has, and its row: the BNCs from cells 17 to 24.
const LARGE_PRESET: Number = 51;

const LARGE_SOURCES: u64 = 0xff_ff_11_00_01;

// A bit for each preset number that every card offers.
const OFFERED: u64 = 0x0ff7fff8fffebffd;

// The two rows of a preset.
#[derive(Clone, Copy, Debug, PartialEq, Eq)]
pub struct CellRow(pub u64, pub u64);

pub fn bad_preset(v: Number, size: u8) -> bool
    ensures { result ≡ not (offered (cells_for size) v) }
{
    if is_large(v, size) {
        return false;
    }
    if v < 64 {
        !words::bit(OFFERED, v as u32)
    } else {
        true
    }
}

// Whether a card is large, and this is the preset that only a large card has.
fn is_large(v: Number, size: u8) -> bool
    ensures { result ≡ is_large (cells_for size) v }
{
    (size == LARGE) & (v == LARGE_PRESET)
}

#[tactic(auto, unfolding(words::specs::Bits::bit_at, words::specs::Listed::listed, crate::specs::PresetRows::row_byte, crate::specs::PresetRows::source_under, crate::specs::PresetRows::SourceRows, crate::specs::Presets::preset_table, crate::specs::Presets::setting_of, crate::specs::Presets::preset_source))]
fn source_rows() -> &'static [u64; SOURCE_ROWS]
    ensures { SourceRows result.now }
{
    &SOURCES
}

#[tactic(auto, unfolding(words::specs::Bits::bit_at, words::specs::Listed::listed, crate::specs::PresetRows::row_byte, crate::specs::PresetRows::source_under, crate::specs::PresetRows::LargeRow, crate::specs::Presets::preset_source))]
fn large_row() -> u64
    ensures { LargeRow result }
{
    LARGE_SOURCES
}

#[tactic(auto, unfolding(words::specs::Bits::bit_at, words::specs::Listed::listed, crate::specs::PresetRows::row_byte, crate::specs::PresetRows::wired_cell, crate::specs::PresetRows::covers, crate::specs::PresetRows::cell_under, crate::specs::PresetRows::CellRows, crate::specs::Presets::preset_table, crate::specs::Presets::setting_of, crate::specs::Presets::preset_cell))]
fn cell_rows() -> &'static [u64; 2 * CELL_ROWS]
    ensures { CellRows result.now }
{
    &SET_CELLS
}

// A number past the table sources nothing.
fn source_row(v: Number, size: u8) -> u64
    ensures { (k : ℕ) → k < connector_count → source_under result k ≡ preset_source (cells_for size) v k }
{
    if is_large(v, size) {
        return large_row();
    }
    small_row(v)
}

fn small_row(v: Number) -> u64
    ensures { (k : ℕ) → k < connector_count → source_under result k ≡ preset_source cell_count v k }
{
    let rows = source_rows();
    let n = v as usize;
    if n < SOURCE_ROWS { rows[n] } else { 0 }
}

// A number past the table sets no cell.
fn cell_row(v: Number) -> CellRow
    ensures { (i : ℕ) → i < cell_room → cell_under result.0 result.1 i ≡ preset_cell v i }
{
    let rows = cell_rows();
    let n = v as usize;
    if n < CELL_ROWS {
        CellRow(rows[2 * n], rows[2 * n + 1])
    } else {
        CellRow(0, 0)
    }
}

// Whether BNC1 becomes an output, which it may not be while it brings the trigger.
pub fn sets_front(v: Number, size: u8) -> bool
    ensures { result ≡ sets_front (cells_for size) v }
{
    words::bit(source_row(v, size), 32)
}

#[tactic(auto, unfolding(crate::specs::PresetRows::row_byte))]
fn byte(w: u64, i: u32) -> u8
    requires { i < 8 }
    ensures { result ≡ row_byte w i }
{
    ((w >> (8 * i)) % 256) as u8
}

// Nothing says here that the sum fits, so it wraps; no row of the tables comes to 256.
fn offset_address(step: bool, place: u8, a: u8) -> u8
    ensures { result ≡ PresetRows.offset_address step place a }
{
    if step { a.wrapping_add(place) } else { a }
}

// One of two values.
fn either<T: Copy>(first: bool, a: T, b: T) -> T
    ensures { result ≡ (if first then a else b) }
{
    if first { a } else { b }
}

// The connector at index k under a row: sourced, or as it was.
#[tactic(auto, unfolding(crate::specs::PresetRows::source_under))]
fn connector_under(row: u64, k: u32, old: Connector) -> Connector
    requires { k < connector_count }
    ensures { result ≡ sourced (source_under row k) old }
{
    if words::bit(row, 32 + k) {
        let first = words::bit(row, 24 + k);
        let a = either(first, byte(row, 2), byte(row, 1));
        Connector {
            kind: PUSH_PULL,
            source: offset_address(words::bit(row, 0), k as u8, a),
        }
    } else {
        old
    }
}

#[tactic(auto, unfolding(crate::specs::PresetRows::wired_cell))]
fn wired_cell(step: bool, place: u8, w: u64) -> Cell
    ensures { result ≡ wired_cell step place w }
{
    Cell {
        kind: byte(w, 5),
        config: Config::from(byte(w, 4)),
        slots: [
            offset_address(step, place, byte(w, 3)),
            offset_address(step, place, byte(w, 2)),
            byte(w, 1),
            byte(w, 0),
        ],
        ..BLANK
    }
}

// Whether a row sets the cell at index i.
#[tactic(auto, unfolding(crate::specs::PresetRows::covers))]
fn covers(row: u64, i: u32) -> bool
    requires { i < cell_room }
    ensures { result ≡ PresetRows.covers row i }
{
    let from = byte(row, 7) as u32;
    let count = byte(row, 6) as u32;
    let place = FIRST_CELL as u32 + i;
    (from <= place) & (place < from + count)
}

// The cell at index i under a row: set whole, or as it was.
#[tactic(auto, unfolding(crate::specs::PresetRows::cell_under))]
fn cell_under(row: CellRow, i: u32, old: Cell) -> Cell
    requires { i < cell_room }
    ensures { result ≡ Option.get_or (cell_under row.0 row.1 i) old }
{
    if covers(row.0, i) {
        let first = byte(row.0, 7) as u32 == FIRST_CELL as u32 + i;
        let w = either(first, row.0, row.1);
        wired_cell(words::bit(row.1, 48), i as u8, w)
    } else {
        old
    }
}

fn connectors_under(row: u64, connectors: [Connector; CONNECTORS]) -> [Connector; CONNECTORS]
    ensures { result ≡ listed (λ k. sourced (source_under row k) (slice_index_or connectors k no_connector)) connector_count }
{
    let mut next = connectors;
    for k in 0..CONNECTORS as u32 {
        let at = k as usize;
        next[at] = connector_under(row, k, connectors[at]);
    }
    next
}

// The first n cells under a row.
fn cells_under(row: CellRow, cells: [Cell; CELLS], n: u32) -> [Cell; CELLS]
    requires { n ≤ cell_room }
    ensures { result
        ≡ listed (λ i. Option.get_or (cell_under row.0 row.1 i) (slice_index_or cells i no_cell)) n ++ drop n cells }
{
    let mut next = cells;
    for i in 0..n {
        let at = i as usize;
        next[at] = cell_under(row, i, cells[at]);
    }
    next
}

fn edited_under(row: u64, edited: EditedSet, n: u32) -> EditedSet
    requires { n ≤ cell_room }
    ensures { result ≡ word_of (λ i. bit_at edited i || PresetRows.covers row i) n }
{
    let mut next: EditedSet = 0;
    for i in 0..n {
        let old = words::bit(edited, i);
        next = words::pushed(next, i, old | covers(row, i));
    }
    next
}

// The card after a preset. A number that is not offered changes nothing.
pub fn apply_preset(card: Card, v: Number) -> Card
    ensures { result ≡ preset (cells_for card.size) card v }
{
    let row = cell_row(v);
    let n = cells_for(card.size) as u32;
    let routed = connectors_under(source_row(v, card.size), each_of(card.connectors));
    Card {
        cells: cells_under(row, card.cells, n),
        connectors: from_each(routed),
        edited: edited_under(row.0, card.edited, n),
        ..card
    }
}

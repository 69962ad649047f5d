// The saved record: the settings as bytes, and what a load makes of some bytes. A record has a
// form, the width of a configuration in it; its length shows which.
ghost use Rattle.std.specs.Prelude.{not, ◌++◌, ◌≡◌, ◌+◌, ◌*◌, ◌<◌, ◌≤◌, ltb, length, take, drop};
ghost use Rattle.std.proofs.lemmas.List.Edits.{sets};
ghost use Rattle.card.specs.Address.{cell_room, cells_for, connector_count};
ghost use Rattle.saved.specs.Record.{config_width, cell_length, connector_length, trigger_length, record_length};
ghost use Rattle.saved.specs.Headers.{every_below, numbered_at, headed};
ghost use Rattle.saved.specs.Record.{big_endian, big_value, cell_field, connector_field, fields_from, encode};
ghost use Rattle.saved.specs.Record.{normal_config, normal_cell, load_cells, cell_in, connector_in, connectors_in};
ghost use Rattle.saved.specs.Record.{width_of, load_number_as, loaded_as, load_number, loaded, saved_to};

use card::card::{Card, Connector, started};
use card::connectors::{each_of, from_each};
use card::edits::all_edited;
use card::limits::{CELLS, CONNECTORS, FIRST_CELL, FIRST_CONNECTOR, LARGE, SMALL};
use card::place::cells_for;
use card::valid::valid_settings;
use cells::cell::{Cell, Config, Pulses};
use cells::table::{CONSTANT, LARGEST_CONSTANT};

// A field is its tag, the number of the bytes that follow in two bytes, and these bytes.
const HEAD: usize = 3;

// The field of the trigger has one byte.
const TRIGGER_TAG: u8 = 1;

const TRIGGER_SIZE: u8 = 1;

const TRIGGER_LENGTH: usize = HEAD + TRIGGER_SIZE as usize;

// The bytes of a configuration; in the old form there were fewer.
pub const WIDTH: usize = 4;

pub const NARROW_WIDTH: usize = 2;

// The field of a cell has its number, its type, its configuration and its slots. Without the
// configuration:
const CELL_TAG: u8 = 2;

const CELL_SIZE: u8 = 6;

const CELL_LENGTH: usize = HEAD + CELL_SIZE as usize;

// That of a connector has its address, its type and its source.
const CONNECTOR_TAG: u8 = 3;

const CONNECTOR_SIZE: u8 = 3;

const CONNECTOR_LENGTH: usize = HEAD + CONNECTOR_SIZE as usize;

// The number or the address comes first in a field, then the type; then a connector's source, or a
// cell's configuration, high byte first.
const KIND_AT: usize = HEAD + 1;

const SOURCE_AT: usize = KIND_AT + 1;

const CONFIG_AT: usize = KIND_AT + 1;

// The slots come after these, further on by the width of a configuration.
const X_AT: usize = CONFIG_AT;

const Y_AT: usize = X_AT + 1;

const Z_AT: usize = Y_AT + 1;

const F_AT: usize = Z_AT + 1;

// How many bytes the record of a small card has: without its configurations, and in either form.
const BARE_LENGTH: usize = TRIGGER_LENGTH
    + SMALL as usize * CELL_LENGTH
    + CONNECTORS * CONNECTOR_LENGTH;

pub const RECORD_LENGTH: usize = BARE_LENGTH + SMALL as usize * WIDTH;

pub const NARROW_LENGTH: usize = BARE_LENGTH + SMALL as usize * NARROW_WIDTH;

// The place of the connectors in a record of n cells.
fn connectors_at(n: u8, width: usize) -> usize
    requires n_le_cell_room { n ≤ cell_room }
    requires width_le_config_width { width ≤ config_width }
    ensures value { result ≡ trigger_length + n * cell_length width }
    ensures upper_bound { result ≤ 420 }
{
    TRIGGER_LENGTH + n as usize * (CELL_LENGTH + width)
}

// The length of the record of a card of a size.
pub fn record_length(size: u8) -> usize
    ensures { result ≡ record_length (cells_for size) config_width }
{
    let n = cells_for(size);
    connectors_at(n, WIDTH) + CONNECTORS * CONNECTOR_LENGTH
}

// What a load gives: the card, and the number that refuses it, 0 where none does.
#[repr(C)]
#[derive(Clone, Copy)]
pub struct Loaded {
    pub card: Card,
    pub k: u8,
}

// ---- bytes out

// A configuration, high byte first.
fn config_bytes(config: Config) -> [u8; WIDTH]
    ensures { result ≡ big_endian config_width config }
{
    [
        (config / 16777216 % 256) as u8,
        (config / 65536 % 256) as u8,
        (config / 256 % 256) as u8,
        (config % 256) as u8,
    ]
}

// The field of cell i, whose number is i + FIRST_CELL, to a place.
fn put_cell(out: &mut [u8], at: usize, width: usize, i: u8, cell: Cell)
    requires width_in_bounds { at + cell_length width ≤ length out.old }
    requires width_le_config_width { width ≤ config_width }
    requires i_lt_cell_room { i < cell_room }
    ensures out_after { out.new ≡ sets out.old at (cell_field width i cell) }
    ensures cell_len { length (cell_field width i cell) ≡ cell_length width }
{
    let head = [
        CELL_TAG,
        0,
        CELL_SIZE + width as u8,
        i + FIRST_CELL,
        cell.kind,
    ];
    let config = config_bytes(cell.config);
    let slots = cell.slots;
    let next = text::copy(out, at, &head);
    let next = text::copy(out, next, &config[WIDTH - width..WIDTH]);
    text::copy(out, next, &slots);
}

// The field of connector k, whose address is k + FIRST_CONNECTOR.
fn connector_bytes(k: u8, c: Connector) -> [u8; CONNECTOR_LENGTH]
    requires { k < connector_count }
    ensures { result ≡ connector_field k c }
{
    [
        CONNECTOR_TAG,
        0,
        CONNECTOR_SIZE,
        k + FIRST_CONNECTOR,
        c.kind,
        c.source,
    ]
}

// The fields of the first n cells, after that of the trigger.
fn put_cells(out: &mut [u8], width: usize, cells: [Cell; CELLS], n: u8)
    requires width_in_bounds { trigger_length + n * cell_length width ≤ length out.old }
    requires width_le_config_width { width ≤ config_width }
    requires n_le_cell_room { n ≤ cell_room }
    ensures out_after { out.new
        ≡ sets out.old trigger_length (fields_from (cell_field width) 0 (take n cells)) }
    ensures cells_len { length (fields_from (cell_field width) 0 (take n cells)) ≡ n * cell_length width }
{
    for i in 0..n {
        let at = i as usize;
        let cell = cells[at];
        put_cell(
            out,
            TRIGGER_LENGTH + at * (CELL_LENGTH + width),
            width,
            i,
            cell,
        );
    }
}

// The fields of all connectors, from a place on.
fn put_connectors(out: &mut [u8], start: usize, connectors: [Connector; CONNECTORS])
    requires { start + connector_count * connector_length ≤ length out.old }
    ensures { out.new ≡ sets out.old start (fields_from connector_field 0 connectors) }
{
    for k in 0..CONNECTORS as u8 {
        let at = k as usize;
        let bytes = connector_bytes(k, connectors[at]);
        text::copy(out, start + CONNECTOR_LENGTH * at, &bytes);
    }
}

// The settings as bytes, in the form of a width, to the front of a buffer that has room; what
// follows them stays.
pub fn encode_to(
    out: &mut [u8],
    width: usize,
    trigger: u8,
    cells: [Cell; CELLS],
    connectors: [Connector; CONNECTORS],
    n: u8,
)
    requires n_le_cell_room { n ≤ cell_room }
    requires width_in_bounds { record_length n width ≤ length out.old }
    requires width_le_config_width { width ≤ config_width }
    ensures { out.new ≡ sets out.old 0 (encode width trigger (take n cells) connectors) }
{
    let first = [TRIGGER_TAG, 0, TRIGGER_SIZE, trigger];
    text::copy(out, 0, &first);
    put_cells(out, width, cells, n);
    let at = connectors_at(n, width);
    put_connectors(out, at, connectors);
}

// ---- bytes in

// The number in `width` bytes from a place on, high first.
fn config_in(bytes: &[u8], at: usize, width: usize) -> Config
    requires width_in_bounds { at + width ≤ length bytes.now }
    requires width_le_config_width { width ≤ config_width }
    ensures { result ≡ big_value 0 (take width (drop at bytes.now)) }
{
    let mut v: Config = 0;
    for i in 0..width {
        v = v * 256 + bytes[at + i] as Config;
    }
    v
}

// The cell whose field is number i.
fn cell_in(bytes: &[u8], width: usize, i: usize) -> Cell
    requires width_in_bounds { trigger_length + (i + 1) * cell_length width ≤ length bytes.now }
    requires width_le_config_width { width ≤ config_width }
    requires i_lt_cell_room { i < cell_room }
    ensures { result ≡ cell_in width bytes.now i }
{
    let at = TRIGGER_LENGTH + i * (CELL_LENGTH + width);
    let slots = [
        bytes[at + (X_AT + width)],
        bytes[at + (Y_AT + width)],
        bytes[at + (Z_AT + width)],
        bytes[at + (F_AT + width)],
    ];
    Cell {
        kind: bytes[at + KIND_AT],
        config: config_in(bytes, at + CONFIG_AT, width),
        slots: slots,
        count: Pulses(0),
        bit: false,
        pulse: false,
    }
}

// The connector whose field is number k.
fn connector_in(bytes: &[u8], width: usize, k: usize, n: u8) -> Connector
    requires n_le_cell_room { n ≤ cell_room }
    requires bytes_len { length bytes.now ≡ record_length n width }
    requires width_le_config_width { width ≤ config_width }
    requires k_lt_connector_count { k < connector_count }
    ensures { result ≡ connector_in n width bytes.now k }
{
    let at = connectors_at(n, width) + k * CONNECTOR_LENGTH;
    Connector {
        kind: bytes[at + KIND_AT],
        source: bytes[at + SOURCE_AT],
    }
}

// A constant above the largest is loaded as the largest; anything else as it is.
fn normal_config(kind: u8, config: Config) -> Config
    ensures { result ≡ normal_config kind config }
{
    if (kind == CONSTANT) & (LARGEST_CONSTANT < config) {
        LARGEST_CONSTANT
    } else {
        config
    }
}

// The cell that a load gives for field number i.
fn load_cell(bytes: &[u8], width: usize, i: usize) -> Cell
    requires width_in_bounds { trigger_length + (i + 1) * cell_length width ≤ length bytes.now }
    requires width_le_config_width { width ≤ config_width }
    requires i_lt_cell_room { i < cell_room }
    ensures { result ≡ normal_cell (cell_in width bytes.now i) }
{
    let mut cell = cell_in(bytes, width, i);
    let config = normal_config(cell.kind, cell.config);
    cell.config = config;
    cell
}

// The first n cells that a load gives, in the place of others.
fn cells_in(bytes: &[u8], width: usize, cells: [Cell; CELLS], n: usize) -> [Cell; CELLS]
    requires width_in_bounds { trigger_length + n * cell_length width ≤ length bytes.now }
    requires width_le_config_width { width ≤ config_width }
    requires n_le_cell_room { n ≤ cell_room }
    ensures { result ≡ load_cells n width bytes.now ++ drop n cells }
{
    let mut next = cells;
    for i in 0..n {
        next[i] = load_cell(bytes, width, i);
    }
    next
}

// All its connectors.
fn connectors_in(
    bytes: &[u8],
    width: usize,
    connectors: [Connector; CONNECTORS],
    n: u8,
) -> [Connector; CONNECTORS]
    requires n_le_cell_room { n ≤ cell_room }
    requires bytes_len { length bytes.now ≡ record_length n width }
    requires width_le_config_width { width ≤ config_width }
    ensures { result ≡ connectors_in n width bytes.now }
{
    let mut next = connectors;
    for k in 0..CONNECTORS {
        let c = connector_in(bytes, width, k, n);
        next[k] = c;
    }
    next
}

// ---- the heads of fields

// Whether a field of a tag and a size starts at a place, and a number comes after its head: that
// of a cell, or the address of a connector.
fn numbered_at(bytes: &[u8], at: usize, tag: u8, size: u8, number: u8) -> bool
    requires { at + 4 ≤ length bytes.now }
    ensures { result ≡ numbered_at bytes.now at tag size number }
{
    let head = (tag == bytes[at]) & ((0 == bytes[at + 1]) & (size == bytes[at + 2]));
    head & (number == bytes[at + 3])
}

// So each of `count` fields in a row, every one `step` bytes long, with numbers from `first` on.
fn all_numbered(
    bytes: &[u8],
    start: usize,
    step: usize,
    count: u8,
    tag: u8,
    size: u8,
    first: u8,
) -> bool
    requires { (start + count * step ≤ length bytes.now) × (4 ≤ step) × (count + first < 256) }
    ensures { result
        ≡ every_below (λ i. numbered_at bytes.now (start + i * step) tag size (i + first)) count }
{
    let mut ok = true;
    for i in 0..count {
        let at = start + i as usize * step;
        let v = numbered_at(bytes, at, tag, size, i + first);
        ok = ok & v;
    }
    ok
}

// Whether the bytes have the length of a record in the form of a width, and the heads of its
// fields. What the fields hold is another question.
fn is_headed(bytes: &[u8], width: usize, n: u8) -> bool
    requires n_le_cell_room { n ≤ cell_room }
    requires width_le_config_width { width ≤ config_width }
    ensures { result ≡ headed n width bytes.now }
{
    let place = connectors_at(n, width);
    if bytes.len() != place + CONNECTORS * CONNECTOR_LENGTH {
        return false;
    }
    let trigger = (TRIGGER_TAG == bytes[0]) & ((0 == bytes[1]) & (TRIGGER_SIZE == bytes[2]));
    let cells = all_numbered(
        bytes,
        TRIGGER_LENGTH,
        CELL_LENGTH + width,
        n,
        CELL_TAG,
        CELL_SIZE + width as u8,
        FIRST_CELL,
    );
    let connectors = all_numbered(
        bytes,
        place,
        CONNECTOR_LENGTH,
        CONNECTORS as u8,
        CONNECTOR_TAG,
        CONNECTOR_SIZE,
        FIRST_CONNECTOR,
    );
    trigger & (cells & connectors)
}

// ---- load and save

// A load of any bytes by one form. The card powers up with them, and every cell counts as edited; a
// refused load leaves it as it was. k is 0, 14 where these are not the bytes of a record, or 15
// where its settings, constants above 1 made 1, are none that lines can set.
fn load_as(card: Card, width: usize, bytes: &[u8], n: u8) -> Loaded
    requires n_value { n ≡ cells_for card.size }
    requires n_le_cell_room { n ≤ cell_room }
    requires width_le_config_width { width ≤ config_width }
    ensures card_value { result.card ≡ loaded_as n width card bytes.now }
    ensures k_value { result.k ≡ load_number_as n width bytes.now }
{
    if !is_headed(bytes, width, n) {
        return Loaded { card: card, k: 14 };
    }
    let trigger = bytes[HEAD];
    let cells = card.cells;
    let connectors = card.connectors;
    let cells = cells_in(bytes, width, cells, n as usize);
    let connectors = connectors_in(bytes, width, each_of(connectors), n);
    let routed = from_each(connectors);
    let next = started(card.size, trigger, cells, routed, all_edited(n));
    if !valid_settings(trigger, cells, connectors, card.size) {
        return Loaded { card: card, k: 15 };
    }
    Loaded { card: next, k: 0 }
}

// The form that the length of a record shows.
fn width_of(bytes: &[u8], size: u8) -> usize
    ensures value { result ≡ width_of (cells_for size) bytes.now }
    ensures upper_bound { result ≤ config_width }
{
    if (size != LARGE) & (bytes.len() == NARROW_LENGTH) {
        NARROW_WIDTH
    } else {
        WIDTH
    }
}

// A load of any bytes, by the form that their length shows.
pub fn load(card: Card, bytes: &[u8]) -> Loaded
    ensures card_value { result.card ≡ loaded (cells_for card.size) card bytes.now }
    ensures k_value { result.k ≡ load_number (cells_for card.size) bytes.now }
{
    let n = cells_for(card.size);
    let width = width_of(bytes, card.size);
    load_as(card, width, bytes, n)
}

// The record of a card to the front of a store, if it has room; what follows it stays. Else
// the store stays, and the answer is false.
pub fn save(card: Card, store: &mut [u8]) -> bool
    ensures store_after { store.new ≡ saved_to (cells_for card.size) config_width card store.old }
    ensures value { result ≡ not (ltb (length store.old) (record_length (cells_for card.size) config_width)) }
{
    let n = cells_for(card.size);
    if store.len() < record_length(card.size) {
        return false;
    }
    let cells = card.cells;
    let connectors = card.connectors;
    encode_to(store, WIDTH, card.trigger, cells, each_of(connectors), n);
    true
}

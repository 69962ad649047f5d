// What an accepted line does to the card: one function for each effect.
ghost use Rattle.std.specs.Prelude.{◌≡◌, ◌-◌, ◌^◌, ◌<◌, ◌≤◌};
ghost use Rattle.card.specs.Address.{cell_room, cells_for};
ghost use Rattle.card.specs.Edits;
ghost use Rattle.card.specs.Edits.{is_at_cell, current_cell, current_connector, put_cell, put_connectors, set_trigger};
ghost use Rattle.card.specs.Edits.{configured_state, stated_as, wired_slot, bit_state, count_state, recounted_state};
ghost use Rattle.card.specs.Edits.{cleared_cell, cleared_cells};
ghost use Rattle.card.specs.Edits.{set_type, set_config, set_state, wired_slots, set_slots, set_connector_type};
ghost use Rattle.card.specs.Edits.{set_source, blank_slot};

use crate::card::{BLANK, Card, Connector};
use crate::connectors::{connector_at, with_kind, with_source};
use crate::limits::{
    CELLS, EDGES, EditedSet, FIRST_CELL, FIRST_CONNECTOR, FRONT_TRIGGER, INPUT, Number,
};
use crate::place::{cells_for, is_cell, is_connector};
use cells::cell::{Cell, Config, Count, Pulses, State};
use cells::table::{Kept, Slots, row_of};

const CLEAR: State = State {
    bit: false,
    count: Pulses(0),
    pulse: false,
};

// Whether the pointer is at a cell.
pub(crate) fn at_cell(card: Card) -> bool
    ensures { result ≡ is_at_cell (cells_for card.size) card }
{
    is_cell(card.pointer as Number, card.size)
}

// The cell at the pointer.
#[tactic(auto, unfolding(crate::specs::Edits::current_cell))]
pub(crate) fn current_cell(card: Card) -> Cell
    ensures { result ≡ current_cell (cells_for card.size) card }
{
    let p = card.pointer;
    if is_cell(p as Number, card.size) {
        let at = (p - FIRST_CELL) as usize;
        card.cells[at]
    } else {
        BLANK
    }
}

// The connector at the pointer.
#[tactic(auto, unfolding(crate::specs::Edits::current_connector))]
pub(crate) fn current_connector(card: Card) -> Connector
    ensures { result ≡ current_connector card }
{
    let p = card.pointer;
    if is_connector(p as Number) {
        connector_at(card.connectors, u32::from(p - FIRST_CONNECTOR))
    } else {
        Connector {
            kind: INPUT,
            source: 0,
        }
    }
}

// The cell at the pointer replaced, and edited.
#[tactic(auto, unfolding(crate::specs::Edits::put_cell))]
fn put_cell(card: Card, cell: Cell) -> Card
    ensures { result ≡ put_cell (cells_for card.size) card cell }
{
    let p = card.pointer;
    if is_cell(p as Number, card.size) {
        let i = (p - FIRST_CELL) as u32;
        let at = i as usize;
        let mut next = card;
        next.cells[at] = cell;
        next.edited = words::with_set(card.edited, i);
        next
    } else {
        card
    }
}

pub fn move_to(card: Card, p: u8) -> Card
    ensures { result ≡ Edits.move card p }
{
    Card { pointer: p, ..card }
}

// Under clock 4 the front connector BNC1 brings the trigger, so it becomes an input.
#[tactic(auto, unfolding(crate::specs::Edits::set_trigger))]
pub fn set_trigger(card: Card, t: u8) -> Card
    ensures { result ≡ set_trigger card t }
{
    let connectors = if t == FRONT_TRIGGER {
        with_kind(card.connectors, 0, INPUT)
    } else {
        card.connectors
    };
    Card {
        trigger: t,
        connectors,
        ..card
    }
}

// A cell with its state cleared.
fn cleared_cell(cell: Cell) -> Cell
    ensures { result ≡ cleared_cell cell }
{
    cell.with_state(CLEAR)
}

// The first n cells with their states cleared. A loop up to a number that the card gives is not
// unrolled into its callers, as one of constant length is.
fn cleared(cells: [Cell; CELLS], n: usize) -> [Cell; CELLS]
    requires { n ≤ cell_room }
    ensures { result ≡ cleared_cells n cells }
{
    let mut next = cells;
    for cell in &mut next[..n] {
        *cell = cleared_cell(*cell);
    }
    next
}

// The set of the first n cells.
pub fn all_edited(n: u8) -> EditedSet
    requires { n ≤ cell_room }
    ensures { result ≡ 2 ^ n - 1 }
{
    let one: EditedSet = 1;
    (one << (n as u32)) - 1
}

#[tactic(auto, unfolding(crate::specs::Edits::home))]
pub(crate) fn home(card: Card) -> Card
    ensures { result ≡ Edits.home (cells_for card.size) card }
{
    let n = cells_for(card.size);
    Card {
        cells: cleared(card.cells, n as usize),
        edited: all_edited(n),
        ..card
    }
}

// The slots of a cell that has just been given its type.
fn blank_slot(edge: bool) -> u8
    ensures { result ≡ blank_slot edge }
{
    if edge { EDGES } else { 0 }
}

#[tactic(auto, unfolding(crate::specs::Edits::typed))]
fn typed(kind: u8) -> Cell
    ensures { result ≡ Edits.typed kind }
{
    let edge = row_of(kind).edge;
    Cell {
        kind,
        slots: [
            blank_slot(edge.x),
            blank_slot(edge.y),
            blank_slot(edge.z),
            blank_slot(edge.f),
        ],
        ..BLANK
    }
}

#[tactic(auto, unfolding(crate::specs::Edits::set_type))]
pub(crate) fn set_type(card: Card, kind: u8) -> Card
    ensures { result ≡ set_type (cells_for card.size) card kind }
{
    put_cell(card, typed(kind))
}

// A timer starts anew under another duration.
#[tactic(auto, unfolding(crate::specs::Edits::configured_state))]
fn configured_state(kept: Kept, s: State) -> State
    ensures { result ≡ configured_state kept s }
{
    match kept {
        Kept::Count => CLEAR,
        Kept::Stateless | Kept::Bit | Kept::Counted => s,
    }
}

#[tactic(auto, unfolding(crate::specs::Edits::configured, crate::specs::Edits::set_config))]
pub(crate) fn set_config(card: Card, config: Config) -> Card
    ensures { result ≡ set_config (cells_for card.size) card config }
{
    let cell = current_cell(card);
    let s = configured_state(row_of(cell.kind).kept, State::from(cell));
    let next = Cell {
        config,
        ..cell.with_state(s)
    };
    put_cell(card, next)
}

fn with_bit(s: State, bit: bool) -> State
    ensures { result ≡ bit_state s bit }
{
    State { bit, ..s }
}

// Another count ends a pulse.
fn with_count(s: State, count: Pulses) -> State
    ensures { result ≡ count_state s count }
{
    State {
        count,
        pulse: false,
        ..s
    }
}

// A counter with another count stays active, or inactive.
fn recounted(s: State, count: Pulses) -> State
    ensures { result ≡ recounted_state s count }
{
    State { count, ..s }
}

#[tactic(auto, unfolding(crate::specs::Edits::stated_as))]
fn stated_as(kept: Kept, s: State, v: Count) -> State
    ensures { result ≡ stated_as kept s v }
{
    match kept {
        Kept::Stateless => s,
        Kept::Bit => with_bit(s, v != 0),
        Kept::Count => with_count(s, Pulses(v)),
        Kept::Counted => recounted(s, Pulses(v)),
    }
}

#[tactic(auto, unfolding(crate::specs::Edits::stated, crate::specs::Edits::set_state))]
pub(crate) fn set_state(card: Card, v: Count) -> Card
    ensures { result ≡ set_state (cells_for card.size) card v }
{
    let cell = current_cell(card);
    let s = stated_as(row_of(cell.kind).kept, State::from(cell), v);
    put_cell(card, cell.with_state(s))
}

// What a slot holds after a write: an edge slot stores the address of an edge.
fn wired_slot(given: bool, edge: bool, v: u8, old: u8) -> u8
    ensures { result ≡ wired_slot given edge v old }
{
    if given {
        if edge & (v < EDGES) { v + EDGES } else { v }
    } else {
        old
    }
}

// The four slots.
fn wired_slots(old: [u8; 4], given: Slots, edge: Slots, v: [u8; 4]) -> [u8; 4]
    ensures { result ≡ wired_slots given edge v old }
{
    [
        wired_slot(given.x, edge.x, v[0], old[0]),
        wired_slot(given.y, edge.y, v[1], old[1]),
        wired_slot(given.z, edge.z, v[2], old[2]),
        wired_slot(given.f, edge.f, v[3], old[3]),
    ]
}

#[tactic(auto, unfolding(crate::specs::Edits::wired, crate::specs::Edits::set_slots))]
pub(crate) fn set_slots(card: Card, given: Slots, v: [u8; 4]) -> Card
    ensures { result ≡ set_slots (cells_for card.size) card given v }
{
    let cell = current_cell(card);
    let slots = wired_slots(cell.slots, given, row_of(cell.kind).edge, v);
    put_cell(card, Cell { slots, ..cell })
}

#[tactic(auto, unfolding(crate::specs::Edits::put_connectors, crate::specs::Edits::set_connector_type))]
pub fn set_connector_type(card: Card, kind: u8) -> Card
    ensures { result ≡ set_connector_type card kind }
{
    let p = card.pointer;
    if is_connector(p as Number) {
        let connectors = with_kind(card.connectors, u32::from(p - FIRST_CONNECTOR), kind);
        Card { connectors, ..card }
    } else {
        card
    }
}

#[tactic(auto, unfolding(crate::specs::Edits::put_connectors, crate::specs::Edits::set_source))]
pub fn set_source(card: Card, source: u8) -> Card
    ensures { result ≡ set_source card source }
{
    let p = card.pointer;
    if is_connector(p as Number) {
        let connectors = with_source(card.connectors, u32::from(p - FIRST_CONNECTOR), source);
        Card { connectors, ..card }
    } else {
        card
    }
}

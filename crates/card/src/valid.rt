// Rows 5 to 13 of "When the card says no" as tests of single values, and the settings that a record
// may hold.
ghost use Rattle.std.specs.Prelude.{◌≡◌, ◌≤◌, take};
ghost use Rattle.cells.specs.Table.{slots};
ghost use Rattle.card.specs.Address.{cell_room, cells_for};
ghost use Rattle.card.specs.Valid.{bad_place, bad_cell_type, bad_connector_type, bad_clock, bad_config, unused_slot};
ghost use Rattle.card.specs.Valid.{bad_address, front_driven};
ghost use Rattle.std.specs.List.{list_all};
ghost use Rattle.card.specs.Valid.{valid_slot, valid_slots, valid_cell, valid_connector, valid, is_counted, no_config};
ghost use Rattle.card.specs.Valid.{bad_state_as, bad_state, no_state};

use crate::card::Connector;
use crate::chart::entry_of;
use crate::limits::{
    CELLS, CONNECTORS, FRONT_TRIGGER, LARGEST_ADDRESS, LARGEST_CLOCK, Number, OPEN_DRAIN, PUSH_PULL,
};
use crate::place::{cells_for, is_cell, is_connector};
use cells::cell::Cell;
use cells::table::{Kept, Row, Slots, TYPES, row_of};
use cells::work::LARGEST_COUNT;

// 5: no place of a cell or a connector.
#[tactic(auto, unfolding(crate::specs::Valid::bad_place))]
pub fn bad_place(v: Number, size: u8) -> bool
    ensures { result ≡ bad_place (cells_for size) v }
{
    !(is_cell(v, size) | is_connector(v))
}

// 7: a type or a clock code that there is not.
#[tactic(auto, unfolding(crate::specs::Valid::bad_cell_type))]
pub fn bad_cell_type(v: Number) -> bool
    ensures { result ≡ bad_cell_type v }
{
    TYPES as Number <= v
}

#[tactic(auto, unfolding(crate::specs::Valid::bad_connector_type))]
pub fn bad_connector_type(v: Number) -> bool
    ensures { result ≡ bad_connector_type v }
{
    (PUSH_PULL as Number) < v
}

#[tactic(auto, unfolding(crate::specs::Valid::bad_clock))]
pub fn bad_clock(v: Number) -> bool
    ensures { result ≡ bad_clock v }
{
    LARGEST_CLOCK < v
}

// 9: a configuration that a cell of this type cannot have.
#[tactic(auto, unfolding(crate::specs::Valid::bad_config))]
pub fn bad_config(kind: u8, v: Number) -> bool
    ensures { result ≡ bad_config kind v }
{
    match row_of(kind).largest {
        Some(largest) => Number::from(largest) < v,
        None => true,
    }
}

// 10: one of the given slots is not used.
#[tactic(auto, unfolding(crate::specs::Valid::unused_slot))]
pub fn unused_slot(kind: u8, given: Slots) -> bool
    ensures { result ≡ unused_slot kind given }
{
    let used = row_of(kind).used;
    ((given.x & !used.x) | (given.y & !used.y)) | ((given.z & !used.z) | (given.f & !used.f))
}

// 11: an address that is none, or reserved, by its entry.
#[tactic(auto, unfolding(crate::specs::Valid::bad_address))]
pub fn bad_address(a: Number, size: u8) -> bool
    ensures { result ≡ bad_address (cells_for size) a }
{
    if LARGEST_ADDRESS < a {
        return true;
    }
    !entry_of(a as u8, size).permitted
}

// The same of four addresses.
pub fn bad_addresses(x: Number, y: Number, z: Number, f: Number, size: u8) -> Slots
    ensures { result
        ≡ slots (bad_address (cells_for size) x) (bad_address (cells_for size) y) (bad_address (cells_for size) z)
        (bad_address (cells_for size) f) }
{
    Slots {
        x: bad_address(x, size),
        y: bad_address(y, size),
        z: bad_address(z, size),
        f: bad_address(f, size),
    }
}

// 13: the type of BNC1 makes it an output while the trigger comes in by it.
#[tactic(auto, unfolding(crate::specs::Valid::front_driven))]
pub(crate) fn front_driven(trigger: u8, kind: Number) -> bool
    ensures { result ≡ front_driven trigger kind }
{
    (trigger == FRONT_TRIGGER) & ((kind == OPEN_DRAIN as Number) | (kind == PUSH_PULL as Number))
}

// What a slot may hold.
#[tactic(auto, using(crate::proofs::ChartLaws::entry_allowed), unfolding(crate::specs::Valid::valid_slot))]
fn valid_slot(used: bool, edge: bool, a: u8, size: u8) -> bool
    ensures { result ≡ valid_slot (cells_for size) used edge a }
{
    if used {
        let e = entry_of(a, size);
        e.permitted & (!edge | e.edge)
    } else {
        a == 0
    }
}

// What the four slots of a type may hold. There are four, since the array has that length.
#[tactic(auto, unfolding(crate::specs::Valid::valid_slots))]
fn valid_slots(row: Row, s: [u8; 4], size: u8) -> bool
    ensures { result ≡ valid_slots (cells_for size) row s }
{
    let Row { used, edge, .. } = row;
    let x = valid_slot(used.x, edge.x, s[0], size);
    let y = valid_slot(used.y, edge.y, s[1], size);
    let z = valid_slot(used.z, edge.z, s[2], size);
    let f = valid_slot(used.f, edge.f, s[3], size);
    (x & y) & (z & f)
}

// The settings that a cell may have.
#[tactic(auto, unfolding(crate::specs::Valid::valid_cell))]
fn valid_cell(cell: Cell, size: u8) -> bool
    ensures { result ≡ valid_cell (cells_for size) cell }
{
    let row = row_of(cell.kind);
    let fits = cell.config <= row.largest.unwrap_or(0);
    (!bad_cell_type(Number::from(cell.kind)) & fits) & valid_slots(row, cell.slots, size)
}

// The settings that a connector may have.
#[tactic(auto, using(crate::proofs::ChartLaws::entry_allowed), unfolding(crate::specs::Valid::valid_connector))]
fn valid_connector(c: Connector, size: u8) -> bool
    ensures { result ≡ valid_connector (cells_for size) c }
{
    !bad_connector_type(Number::from(c.kind)) & entry_of(c.source, size).permitted
}

// Each of the first n cells may have its settings.
fn valid_cells(cells: [Cell; CELLS], n: usize, size: u8) -> bool
    requires n_le_cell_room { n ≤ cell_room }
    ensures { result ≡ list_all (valid_cell (cells_for size)) (take n cells) }
{
    cells[..n].iter().all(|&cell| valid_cell(cell, size))
}

// So may every connector.
fn valid_connectors(connectors: [Connector; CONNECTORS], size: u8) -> bool
    ensures { result ≡ list_all (valid_connector (cells_for size)) connectors }
{
    connectors.iter().all(|&c| valid_connector(c, size))
}

// The settings that lines can set.
pub fn valid_settings(
    trigger: u8,
    cells: [Cell; CELLS],
    connectors: [Connector; CONNECTORS],
    size: u8,
) -> bool
    ensures { result ≡ valid (cells_for size) trigger cells connectors }
{
    let front = connectors[0].kind as Number;
    let clock = !bad_clock(trigger as Number) & !front_driven(trigger, front);
    let n = cells_for(size) as usize;
    clock & (valid_cells(cells, n, size) & valid_connectors(connectors, size))
}

// A counter: its count is read where other types have a configuration.
pub(crate) fn is_counted(kept: Kept) -> bool
    ensures { result ≡ is_counted kept }
{
    matches!(kept, Kept::Counted)
}

// 9, of a read.
#[tactic(auto, unfolding(crate::specs::Valid::no_config))]
pub fn no_config(kind: u8) -> bool
    ensures { result ≡ no_config kind }
{
    let row = row_of(kind);
    !(row.largest.is_some() | is_counted(row.kept))
}

#[tactic(auto, unfolding(crate::specs::Valid::bad_state_as))]
fn bad_state_as(kept: Kept, v: Number) -> bool
    ensures { result ≡ bad_state_as kept v }
{
    match kept {
        Kept::Stateless => true,
        Kept::Bit => 1 < v,
        Kept::Count => false,
        Kept::Counted => (LARGEST_COUNT as Number) < v,
    }
}

#[tactic(auto, unfolding(crate::specs::Valid::bad_state))]
pub fn bad_state(kind: u8, v: Number) -> bool
    ensures { result ≡ bad_state kind v }
{
    bad_state_as(row_of(kind).kept, v)
}

#[tactic(auto, unfolding(crate::specs::Valid::no_state))]
pub fn no_state(kind: u8) -> bool
    ensures { result ≡ no_state kind }
{
    bad_state(kind, 0)
}

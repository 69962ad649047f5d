// What a line goes by, and what its reads give: where the pointer is and what is there, the
// trigger source, the words of the last tick.
ghost use Rattle.std.specs.Prelude.{◌≡◌};
ghost use Rattle.card.specs.Address.{cells_for};
ghost use Rattle.card.specs.Context.{context_of, type_read, config_shown, config_read, state_as, state_read, slot_read};
ghost use Rattle.card.specs.Context.{front_read, back_read, lower_read, upper_read};
ghost use Rattle.card.specs.Context.{drives_front, preset_drives};

use crate::card::{Card, Connector};
use crate::edits::{at_cell, current_cell, current_connector};
use crate::limits::{CellWord, FIRST_CONNECTOR, FRONT_TRIGGER, Number};
use crate::presets::sets_front;
use crate::valid::{front_driven, is_counted};
use cells::cell::{Cell, Config, State};
use cells::table::{Kept, row_of};

// What a read gives: anything that the card holds, and nothing is wider than a configuration.
pub type Value = Config;

// A small part of the card: no line looks at more before it changes something. `at_cell` says
// whether the pointer is at a cell.
#[derive(Clone, Copy, Debug, PartialEq, Eq)]
pub struct Context {
    pub pointer: u8,
    pub at_cell: bool,
    pub trigger: u8,
    pub cell: Cell,
    pub connector: Connector,
    pub levels: u16,
    pub outputs: CellWord,
    pub size: u8,
}

pub fn context_of(card: Card) -> Context
    ensures { result ≡ context_of (cells_for card.size) card }
{
    Context {
        pointer: card.pointer,
        at_cell: at_cell(card),
        trigger: card.trigger,
        cell: current_cell(card),
        connector: current_connector(card),
        levels: card.memory.levels,
        outputs: card.memory.outputs,
        size: card.size,
    }
}

// The type at the pointer.
pub fn read_type(x: Context) -> Value
    ensures { result ≡ type_read x }
{
    if x.at_cell {
        Value::from(x.cell.kind)
    } else {
        Value::from(x.connector.kind)
    }
}

// A cell's configuration, or a counter's count.
#[tactic(auto, unfolding(crate::specs::Context::config_shown))]
fn config_shown(cell: Cell) -> Value
    ensures { result ≡ config_shown cell }
{
    if is_counted(row_of(cell.kind).kept) {
        cell.count.0
    } else {
        cell.config
    }
}

// The configuration of the cell, or the source of the connector, at the pointer.
pub fn read_config(x: Context) -> Value
    ensures { result ≡ config_read x }
{
    if x.at_cell {
        config_shown(x.cell)
    } else {
        Value::from(x.connector.source)
    }
}

#[tactic(auto, unfolding(crate::specs::Context::state_as))]
fn state_as(kept: Kept, s: State) -> Value
    ensures { result ≡ state_as kept s }
{
    match kept {
        Kept::Stateless => 0,
        Kept::Bit => Value::from(s.bit),
        Kept::Count | Kept::Counted => s.count.0,
    }
}

// The state of the cell at the pointer: a flip-flop's bit, a timer's or a counter's count, 0 where
// it keeps none.
pub fn read_state(x: Context) -> Value
    ensures { result ≡ state_read x }
{
    state_as(row_of(x.cell.kind).kept, State::from(x.cell))
}

// What slot number i of the cell at the pointer holds, X being 0; there is none from 4 on, and its
// answer is 0.
pub fn read_slot(x: Context, i: usize) -> Value
    ensures { result ≡ slot_read x i }
{
    if i < 4 {
        Value::from(x.cell.slots[i])
    } else {
        0
    }
}

// The levels of the front connectors, and of the backplane, as of the last tick.
pub fn read_front(x: Context) -> Value
    ensures { result ≡ front_read x }
{
    Value::from(x.levels % 256)
}

pub fn read_back(x: Context) -> Value
    ensures { result ≡ back_read x }
{
    Value::from(x.levels / 256)
}

// The cells 1 to 16, and 17 to 32.
pub fn read_lower(x: Context) -> Value
    ensures { result ≡ lower_read x }
{
    x.outputs % 65536
}

pub fn read_upper(x: Context) -> Value
    ensures { result ≡ upper_read x }
{
    x.outputs / 65536
}

// 13: the pointer is at BNC1, and this type would make it an output while it brings the
// trigger.
pub fn drives_front(x: Context, v: Number) -> bool
    ensures { result ≡ drives_front x v }
{
    (x.pointer == FIRST_CONNECTOR) & front_driven(x.trigger, v)
}

// 13: the preset makes BNC1 an output while it brings the trigger.
pub fn preset_drives(x: Context, v: Number) -> bool
    ensures { result ≡ preset_drives (cells_for x.size) x v }
{
    sets_front(v, x.size) & (x.trigger == FRONT_TRIGGER)
}

// What the card holds, by value.
ghost use Rattle.std.specs.Prelude.{◌≡◌};
ghost use Rattle.card.specs.Address.{cells_for};
ghost use Rattle.card.specs.Fresh;

use crate::limits::{CELLS, CONNECTORS, CellWord, EditedSet, FIRST_CELL, FRONT_WORD, SMALL};
use crate::place::cells_for;
use crate::tallies::{Tallies, no_tallies};
use cells::cell::{Cell, Pulses};

// A front or backplane connector by itself: its type (0 input, 1 open-drain, 2 push-pull) and the
// address that it is driven from.
#[derive(Clone, Copy, Debug, PartialEq, Eq)]
pub struct Connector {
    pub kind: u8,
    pub source: u8,
}

// All connectors: the addresses that they are driven from, and of each type of outputs the word of
// those that are of it, bit 0 for BNC1 to bit 15 for TTL7 as in the sample. The others are inputs.
// One that is in both words is push-pull; lines and loads leave none.
#[repr(C)]
#[derive(Clone, Copy, Debug, PartialEq, Eq)]
pub struct Connectors {
    pub sources: [u8; CONNECTORS],
    pub push_pull: u16,
    pub open_drain: u16,
}

// What is remembered of ticks. The words of the last tick that ran are `driven`, `pulled`,
// `outputs` and `levels`; `pulled` has the lines of the backplane that it pulled low. `outputs2`
// and `levels2` are those of the tick before it, and `outputs3` those of the one before that. No
// tick has to write anything for a cell that sleeps.
#[repr(C)]
#[derive(Clone, Copy, Debug, PartialEq, Eq)]
pub struct Memory {
    pub driven: u16,
    pub pulled: u16,
    pub outputs: CellWord,
    pub outputs2: CellWord,
    pub outputs3: CellWord,
    pub levels: u16,
    pub levels2: u16,
}

// The card.
#[repr(C)]
#[derive(Clone, Copy, Debug, PartialEq, Eq)]
pub struct Card {
    pub cells: [Cell; CELLS],
    pub connectors: Connectors,
    pub edited: EditedSet,
    pub memory: Memory,
    pub pointer: u8,
    pub trigger: u8,
    pub size: u8,
    pub tallies: Tallies,
}

// A constant 0, which a cell is before anything sets it.
pub(crate) const BLANK: Cell = Cell {
    kind: 0,
    config: 0,
    slots: [0; 4],
    count: Pulses(0),
    bit: false,
    pulse: false,
};

// A card that powers up with settings: all else is fresh.
pub fn started(
    size: u8,
    trigger: u8,
    cells: [Cell; CELLS],
    connectors: Connectors,
    edited: EditedSet,
) -> Card
    ensures { result ≡ Fresh.started size trigger cells connectors edited }
{
    let memory = Memory {
        driven: 0,
        pulled: 0,
        outputs: 0,
        outputs2: 0,
        outputs3: 0,
        levels: 0,
        levels2: 0,
    };
    Card {
        cells,
        connectors,
        edited,
        memory,
        pointer: FIRST_CELL,
        trigger,
        size,
        tallies: no_tallies(),
    }
}

// A card of a size as it first powers up.
#[tactic(auto, unfolding(crate::specs::Address::cells_for))]
pub fn fresh_of(size: u8) -> Card
    ensures { result ≡ Fresh.fresh_of (cells_for size) }
{
    let connectors = Connectors {
        sources: [0; CONNECTORS],
        push_pull: FRONT_WORD,
        open_drain: 0,
    };
    started(cells_for(size), 0, [BLANK; CELLS], connectors, 0)
}

// A small card as it first powers up.
#[tactic(auto, unfolding(crate::specs::Fresh::fresh, crate::specs::Address::cells_for))]
pub fn fresh() -> Card
    ensures { result ≡ Fresh.fresh }
{
    fresh_of(SMALL)
}

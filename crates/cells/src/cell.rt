// A cell as the card holds it.
ghost use Rattle.std.specs.Prelude.{◌≡◌};
ghost use Rattle.cells.specs.State.{state_of, with_state};

// A configuration: a constant, a lookup's code, a duration. A count is as wide, since a duration
// sets it.
pub type Config = u32;

pub type Count = Config;

// A number of pulses, which are clock edges and never ticks: a duration, a count of pulses left, or
// a counter's count.
#[repr(C)]
#[derive(Clone, Copy, Debug, PartialEq, Eq)]
pub struct Pulses(pub Count);

// A number of ticks, which a tally counts.
#[repr(C)]
#[derive(Clone, Copy, Debug, PartialEq, Eq)]
pub struct Ticks(pub u32);

// What a cell keeps between ticks, the same for every type: a flip-flop's bit, a timer's count and
// pulse, a counter's count. In a counter that is started and stopped the bit says "active".
#[repr(C)]
#[derive(Clone, Copy, Debug, PartialEq, Eq)]
pub struct State {
    pub count: Pulses,
    pub bit: bool,
    pub pulse: bool,
}

// One of the card's cells: its settings (type, configuration, the addresses in its slots X Y Z F)
// and its state, part by part, in 16 bytes. A tick passes the parts on as they are: a State made
// there would be packed and unpacked once for each cell.
#[repr(C)]
#[derive(Clone, Copy, Debug, PartialEq, Eq)]
pub struct Cell {
    pub config: Config,
    pub count: Pulses,
    pub slots: [u8; 4],
    pub kind: u8,
    pub bit: bool,
    pub pulse: bool,
}

// A cell's state as a whole, and the cell with another one.
impl From<Cell> for State {
    ghost from_gives = { λ cell s. s ≡ state_of cell };

    fn from(cell: Cell) -> State {
        State {
            count: cell.count,
            bit: cell.bit,
            pulse: cell.pulse,
        }
    }
}

impl Cell {
    pub fn with_state(self, s: State) -> Cell
        ensures { result ≡ with_state self s }
    {
        Cell {
            count: s.count,
            bit: s.bit,
            pulse: s.pulse,
            ..self
        }
    }
}

// What working out a cell gives: the state that it keeps, and its output.
#[repr(C)]
#[derive(Clone, Copy, Debug, PartialEq, Eq)]
pub struct Worked {
    pub state: State,
    pub out: bool,
}

// The ticks that a picture keeps: what each of them showed, and why the cells woke in it.
ghost use Rattle.std.specs.Prelude.{◌≡◌, ◌%◌, slice_index_or};

use card::card::Card;
use card::limits::{CELLS, CellWord};
use cells::table::Slots;
use reasons::cell::Reasons;
use trace::{Shown, packed};

// `kept_ticks`: of a longer run only these are drawn.
pub const KEPT: usize = 300;

// These, and the tick before the first of them.
const TICKS: usize = KEPT + 1;

// A cell in a tick: its type, and the reasons for which it wakes.
#[derive(Clone, Copy)]
pub struct Why {
    pub kind: u8,
    pub found: Reasons,
}

// A tick: what it showed (`trace::packed`), whether it is full, the cells that woke, and why.
#[derive(Clone, Copy)]
pub struct Kept {
    pub waves: u64,
    pub full: bool,
    pub woken: CellWord,
    pub cells: [Why; CELLS],
}

// A tick that showed this. Nothing more is known of it.
fn bare(waves: u64) -> Kept {
    let none = Slots {
        x: false,
        y: false,
        z: false,
        f: false,
    };
    let why = Why {
        kind: 0,
        found: Reasons {
            edited: false,
            moved: none,
            now: none,
            clock: false,
            trigger: false,
            other: false,
        },
    };
    Kept {
        waves,
        full: false,
        woken: 0,
        cells: [why; CELLS],
    }
}

// Ticks by their numbers, counted from 1; 0 is the tick before the first.
#[derive(Clone, Copy)]
pub struct Ticks {
    ticks: [Kept; TICKS],
}

impl Ticks {
    // None is kept, and the tick before the first showed this.
    pub fn new(before: u64) -> Self {
        Ticks {
            ticks: [bare(before); TICKS],
        }
    }

    // Tick t. The remainder changes no tick of a picture: with it no caller has to show that there
    // is room.
    pub fn at(&self, t: usize) -> &Kept
        ensures { result.now ≡ slice_index_or self.now.ticks (t % 301) result.now }
    {
        &self.ticks[t % TICKS]
    }

    // Tick t is kept, with why the cells of the card that it met wake in it.
    pub fn keep(&mut self, t: usize, shown: Shown, before: &Card) {
        let tick = shown.tick;
        let found = reasons::reasons(*before, tick.input, tick.full);
        let kept = &mut self.ticks[t % TICKS];
        kept.waves = packed(shown);
        kept.full = tick.full;
        kept.woken = tick.answer.woken;
        for i in 0..CELLS {
            kept.cells[i] = Why {
                kind: before.cells[i].kind,
                found: found[i],
            };
        }
    }
}

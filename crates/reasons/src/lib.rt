// Why the cells of a card wake in a tick.
#![tactic(auto)]

pub mod cell; // why a single cell wakes

ghost use Rattle.std.specs.Prelude.{◌++◌, ◌≡◌, ◌^◌, ◌<◌, ◌≤◌, get_or, drop, replicate};
ghost use Rattle.words.specs.Listed.{listed};
ghost use Rattle.card.specs.Address.{cell_room, cells_for};
ghost use Rattle.card.specs.Fresh.{no_cell};
ghost use Rattle.ticks.specs.Tick;
ghost use Rattle.ticks.specs.Words.{Fits};
ghost use Rattle.reasons.specs.Reasons.{reasons_at, no_reasons, tick_reasons};

use crate::cell::{Reasons, reasons_of};
use card::card::Card;
use card::limits::{CELLS, CellWord, EditedSet};
use card::place::cells_for;
use cells::cell::{Cell, State};
use cells::reading::read_slots;
use cells::table::Slots;
use ticks::tick::{Ticked, full_tick, quick_tick, seen_memory};
use ticks::view::{Input, Wires, wires_of, words_last, words_now};

// Why cell i wakes, with what it reads in the tick and read in the last one.
fn reasons_at(cell: Cell, i: u32, edited: EditedSet, w: Wires, below: CellWord, n: u8) -> Reasons
    requires n_le_cell_room { n ≤ cell_room }
    requires i_lt_n { i < n }
    requires below_bound { below < 2 ^ n }
    requires fits { Fits n w }
    ensures { result ≡ reasons_at n cell i edited w below }
{
    let q = words_now(i, below, w);
    let p = words_last(i, w);
    let is_edited = words::bit(edited, i);
    let now = read_slots(&q, cell.slots);
    let last = read_slots(&p, cell.slots);
    reasons_of(cell.kind, State::from(cell), is_edited, now, last)
}

// No cell has a reason.
fn none() -> [Reasons; CELLS]
    ensures { result ≡ replicate cell_room no_reasons }
{
    let low = Slots {
        x: false,
        y: false,
        z: false,
        f: false,
    };
    let no = Reasons {
        edited: false,
        moved: low,
        now: low,
        clock: false,
        trigger: false,
        other: false,
    };
    [no; CELLS]
}

// Why each of the first n cells wakes.
fn each(
    cells: [Cell; CELLS],
    edited: EditedSet,
    w: Wires,
    below: CellWord,
    blank: [Reasons; CELLS],
    n: u8,
) -> [Reasons; CELLS]
    requires n_le_cell_room { n ≤ cell_room }
    requires below_bound { below < 2 ^ n }
    requires fits { Fits n w }
    ensures { result ≡ listed (λ i. reasons_at n (get_or cells i no_cell) i edited w below) n ++ drop n blank }
{
    let mut next = blank;
    for i in 0..n as u32 {
        let at = i as usize;
        let r = reasons_at(cells[at], i, edited, w, below, n);
        next[at] = r;
    }
    next
}

fn ticked(card: Card, input: Input, full: bool) -> Ticked
    ensures { result ≡ Tick.tick (cells_for card.size) full card input }
{
    if full {
        return full_tick(card, input);
    }
    quick_tick(card, input)
}

// Why each cell would wake in a tick with the input. The card is not changed: the tick is made only
// for its answer, whose cell word says what each reader sees of the cells below it. After the
// cells of the card there are none.
pub fn reasons(card: Card, input: Input, full: bool) -> [Reasons; CELLS]
    ensures { result
        ≡ tick_reasons (cells_for card.size) full card input ++ drop (cells_for card.size)
        (replicate cell_room no_reasons) }
{
    let blank = none();
    if input.code != card.trigger {
        return blank;
    }
    let n = cells_for(card.size);
    let t = ticked(card, input, full);
    let answer = t.answer;
    let after = t.card;
    let m = after.memory;
    let before = seen_memory(card.memory, n);
    let w = wires_of(before, m.levels);
    let cells = card.cells;
    each(cells, card.edited, w, answer.cells, blank, n)
}

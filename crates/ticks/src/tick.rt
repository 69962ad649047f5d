// Ticks: full and quick.
ghost use Rattle.std.specs.Prelude.{Bool, true, false, not, ◌||◌, ◌≡◌, ℕ, ◌+◌, ◌*◌, ◌%◌, ◌^◌, ◌≤◌, ◌<◌, eqb};
ghost use Rattle.words.specs.Bits.{bit_at, with_bit, bit_number};
ghost use Rattle.cells.specs.State.{state_of};
ghost use Rattle.cells.specs.Effect.{StepsTo};
ghost use Rattle.cells.specs.Work.{looked_at, work_out};
ghost use Rattle.card.specs.Address.{cell_room, cells_for};
ghost use Rattle.ticks.specs.Reading.{slots_read};
ghost use Rattle.ticks.specs.Rest.{turned_to};
ghost use Rattle.ticks.specs.Levels.{effective_sample};
ghost use Rattle.ticks.specs.Tick;
ghost use Rattle.ticks.specs.Tick.{rules_name, turned, trimmed, wires_of, lines_in, ran_with};
ghost use Rattle.ticks.specs.Words.{ReadsAs, MovesAs, shifted_at, FitsMemory};

use crate::connectors::{Lines, drive, effective};
use crate::quiet::is_quiet;
use crate::view::{ALL, Input, Wires, seen_by, sees, wires_of};
use card::card::{Card, Connectors, Memory};
use card::edits::all_edited;
use card::limits::{CELLS, CellWord, EditedSet};
use card::place::cells_for;
use card::tallies::tally;
use cells::cell::Cell;
use cells::reading::Seen;
use cells::step::{Stepped, step};
use cells::work::Effect;

// What a tick makes of all cells.
#[derive(Clone, Copy, Debug, PartialEq, Eq)]
pub struct Turned {
    pub cells: [Cell; CELLS],
    pub outputs: CellWord,
    pub named: CellWord,
    pub woken: CellWord,
}

// A tick's answer. An idle tick has not run, and its words are 0.
#[repr(C)]
#[derive(Clone, Copy, Debug, PartialEq, Eq)]
pub struct Answer {
    pub ran: bool,
    pub driven: u16,
    pub cells: CellWord,
    pub woken: CellWord,
    pub count: u32,
}

// That of an idle tick.
pub(crate) const IDLE: Answer = Answer {
    ran: false,
    driven: 0,
    cells: 0,
    woken: 0,
    count: 0,
};

#[repr(C)]
#[derive(Clone, Copy, Debug, PartialEq, Eq)]
pub struct Ticked {
    pub card: Card,
    pub answer: Answer,
}

// A cell asked and, where it is due, worked out.
fn stepped(full: bool, edited: bool, cell: Cell, seen: &Seen) -> Stepped
    ensures { (f g h : ℕ → Bool) → ReadsAs seen.now.reads f g → MovesAs seen.now.moved f g h →
        let read = slots_read f g cell.slots in
        StepsTo result full (rules_name cell edited read (slots_read g h cell.slots)) (state_of cell)
        (work_out cell.kind cell.config (state_of cell) read) (looked_at cell.kind read) }
{
    step(full, edited, cell, seen)
}

// The first n bits of a word.
pub(crate) fn low(w: EditedSet, n: u8) -> CellWord
    requires { n ≤ cell_room }
    ensures { result ≡ w % 2 ^ n }
{
    (w & all_edited(n)) as CellWord
}

// The memory as a card of n cells sees it.
pub fn seen_memory(m: Memory, n: u8) -> Memory
    requires { n ≤ cell_room }
    ensures { result ≡ trimmed n m }
{
    Memory {
        outputs: low(m.outputs as EditedSet, n),
        outputs2: low(m.outputs2 as EditedSet, n),
        outputs3: low(m.outputs3 as EditedSet, n),
        ..m
    }
}

// The cells that are worked out: all in a full tick, and those that the rules name.
fn woken_by(full: bool, named: EditedSet, n: u8) -> CellWord
    requires { n ≤ cell_room }
    ensures by_index { (i : ℕ) → i < n → bit_at result i ≡ (full || bit_at named i) }
    ensures upper_bound { result < 2 ^ n }
{
    if full { low(ALL, n) } else { low(named, n) }
}

// The cells whose output changed in one of the last two ticks.
fn shifted(w: Wires) -> CellWord
    ensures { (i : ℕ) → bit_at result i ≡ shifted_at i w }
{
    (w.outputs ^ w.outputs2) | (w.outputs2 ^ w.outputs3)
}

// A word with the bit of cell i flipped.
fn flipped(w: CellWord, i: u32) -> CellWord
    requires { i < cell_room }
    ensures { result ≡ with_bit w i (not (bit_at w i)) }
{
    w ^ (1 << i)
}

// A set of the cells below i with cell i, where the rules name it. The set is left alone where they
// do not, which is the way of most turns.
fn noted(named: EditedSet, i: u32, is: bool) -> EditedSet
    requires i_bound { i < 64 }
    requires named_bound { named < 2 ^ i }
    ensures { result ≡ named + bit_number is * 2 ^ i }
{
    if is {
        words::pushed(named, i, true)
    } else {
        named
    }
}

// ---- a tick
//
// The two kinds are written side by side: where two branches end in one card, the compiler copies
// that card once more.

// The connectors, driven from the last tick's words, and the levels of what comes in.
pub(crate) fn lines_in(connectors: Connectors, m: Memory, input: Input) -> Lines
    ensures { (n : ℕ) → n ≤ cell_room → FitsMemory n m
        → result ≡ lines_in n m connectors (effective_sample input.sample input.attached) }
{
    let now = sees(0, m.outputs, m.outputs, m.levels);
    let before = sees(0, m.outputs2, m.outputs2, m.levels2);
    let sample = effective(input.sample, input.attached);
    drive(connectors, now, before, sample)
}

// The memory after a tick that ran, with what it drove, pulled low and showed, and its outputs.
pub(crate) fn moved_on(m: Memory, l: Lines, outputs: CellWord) -> Memory
    ensures { result ≡ Tick.moved m l outputs }
{
    Memory {
        driven: l.driven,
        pulled: l.pulled,
        outputs,
        outputs2: m.outputs,
        outputs3: m.outputs2,
        levels: l.levels,
        levels2: m.levels,
    }
}

// The card after a tick that ran, and its answer. The cells are turned already, and the memory m is
// moved on; `named` are the cells that the rules name.
fn ran_with(
    card: Card,
    m: Memory,
    l: Lines,
    outputs: CellWord,
    named: CellWord,
    woken: CellWord,
) -> Ticked
    ensures { (n : ℕ) → n ≤ cell_room → named < 2 ^ n
        → result ≡ ran_with n m card l (turned_to card.cells outputs named woken) }
{
    let tallies = tally(card.tallies, named);
    let mut next = card;
    next.edited = 0;
    next.memory = moved_on(m, l, outputs);
    next.tallies = tallies;
    let answer = Answer {
        ran: true,
        driven: l.driven,
        cells: outputs,
        woken,
        count: woken.count_ones(),
    };
    Ticked { card: next, answer }
}

// A tick that runs: the turns of all cells, in order. The outputs start as those of the last tick,
// so a cell that sleeps changes none. The words for the next reader are made anew only where
// readers above the cell see something else of it, in this tick or the last two, than readers up to
// it do.
fn turn_each(full: bool, card: Card, m: Memory, l: Lines, n: u8) -> Ticked
    requires n_le_cell_room { n ≤ cell_room }
    requires fits_memory { FitsMemory n m }
    ensures { result ≡ ran_with n m card l (turned n full card.cells card.edited (wires_of m l.levels)) }
{
    let w = wires_of(m, l.levels);
    let shifted = shifted(w);
    let mut next = card;
    let mut outputs = w.outputs;
    let mut named: EditedSet = 0;
    let mut seen = seen_by(0, outputs, w);
    for i in 0..n as u32 {
        let at = i as usize;
        let edited = words::bit(card.edited, i);
        let step = stepped(full, edited, next.cells[at], &seen);
        let last = words::bit(outputs as u64, i);
        let mut out = last;
        let effect = step.effect;
        match effect {
            Effect::Slept => {}
            Effect::Same(o) => {
                out = o;
            }
            Effect::Bit(b) => {
                next.cells[at].bit = b;
                out = b;
            }
            Effect::Count(n) => {
                next.cells[at].count = n;
                out = 0 < n.0;
            }
            Effect::Timed(n, p) => {
                next.cells[at] = Cell {
                    count: n,
                    pulse: p,
                    ..next.cells[at]
                };
                out = p;
            }
            Effect::Counted(n, b, o) => {
                next.cells[at] = Cell {
                    count: n,
                    bit: b,
                    ..next.cells[at]
                };
                out = o;
            }
        }
        named = noted(named, i, step.named);
        let mut moved = words::bit(shifted as u64, i);
        if out ^ last {
            outputs = flipped(outputs, i);
            moved = true;
        }
        if moved {
            seen = seen_by(i + 1, outputs, w);
        }
    }
    let woken = woken_by(full, named, n);
    ran_with(next, m, l, outputs, named as CellWord, woken)
}

// Whether a clock is the card's trigger source.
fn is_own(code: u8, trigger: u8) -> bool
    ensures { result ≡ eqb code trigger }
{
    code == trigger
}

// A tick whose clock is not the card's.
pub fn idle(card: Card) -> Ticked
    ensures { result ≡ Tick.idle card }
{
    Ticked { card, answer: IDLE }
}

// Every cell is worked out.
pub fn full_tick(card: Card, input: Input) -> Ticked
    ensures { result ≡ Tick.tick (cells_for card.size) true card input }
{
    if !is_own(input.code, card.trigger) {
        return idle(card);
    }
    let n = cells_for(card.size);
    let m = seen_memory(card.memory, n);
    let l = lines_in(card.connectors, m, input);
    turn_each(true, card, m, l, n)
}

// The cells that the waking rules name are worked out.
pub fn quick_tick(card: Card, input: Input) -> Ticked
    ensures { result ≡ Tick.tick (cells_for card.size) false card input }
{
    if !is_own(input.code, card.trigger) {
        return idle(card);
    }
    let n = cells_for(card.size);
    let m = seen_memory(card.memory, n);
    let l = lines_in(card.connectors, m, input);
    if is_quiet(card.cells, card.edited, wires_of(m, l.levels), n) {
        return ran_with(card, m, l, m.outputs, 0, 0);
    }
    turn_each(false, card, m, l, n)
}

// ---- a tick with given lines, for a card that shares its backplane

// The lines of a card by itself.
pub fn lines_of(card: Card, input: Input) -> Lines
    ensures { result ≡ Tick.lines (cells_for card.size) card input }
{
    let n = cells_for(card.size);
    let m = seen_memory(card.memory, n);
    lines_in(card.connectors, m, input)
}

// A tick of either kind that runs with these lines, without a look whether it is quiet.
pub fn turned_on(full: bool, card: Card, l: Lines) -> Ticked
    ensures { result ≡ Tick.ticked_on (cells_for card.size) full card l }
{
    let n = cells_for(card.size);
    let m = seen_memory(card.memory, n);
    turn_each(full, card, m, l, n)
}

// The lines of a card by itself, by what they depend on.
pub fn lines_by(memory: Memory, connectors: Connectors, size: u8, input: Input) -> Lines
    ensures { result
        ≡ lines_in (cells_for size) memory connectors (effective_sample input.sample input.attached) }
{
    let n = cells_for(size);
    let m = seen_memory(memory, n);
    lines_in(connectors, m, input)
}

// A tick that runs with these lines: every cell is worked out.
pub fn full_tick_on(card: Card, l: Lines) -> Ticked
    ensures { result ≡ Tick.ticked_on (cells_for card.size) true card l }
{
    turned_on(true, card, l)
}

// The same, of the cells that the waking rules name.
pub fn quick_tick_on(card: Card, l: Lines) -> Ticked
    ensures { result ≡ Tick.ticked_on (cells_for card.size) false card l }
{
    let n = cells_for(card.size);
    let m = seen_memory(card.memory, n);
    if is_quiet(card.cells, card.edited, wires_of(m, l.levels), n) {
        return ran_with(card, m, l, m.outputs, 0, 0);
    }
    turn_each(false, card, m, l, n)
}

// Many ticks at once. Where a quick tick changes nothing but counts, the ticks after it with the
// same input do the same again until a count comes to its end. So they are made in one step, and a
// processor may sleep until then, or until an input changes.
#![tactic(auto)]

ghost use Rattle.std.specs.Prelude.{◌≡◌, ◌&&◌, ◌+◌, ◌-◌, ◌≤◌, ◌<◌};
ghost use Rattle.words.specs.Bits.{bit_at};
ghost use Rattle.cells.specs.Work.{largest_count};
ghost use Rattle.card.specs.Address.{cell_room, cells_for};
ghost use Rattle.ticks.specs.Rest.{total_after};
ghost use Rattle.steady.specs.Steady.{count_holds, cell_holds, least_holds, same_words, same_outputs, steady_from};
ghost use Rattle.steady.specs.Steady.{steady_for, count_through, cell_through, cells_through};
ghost use Rattle.steady.specs.Steady.{counted_for, tallied_for, card_through, made_of, advanced};

use card::card::{Card, Memory};
use card::limits::{CELLS, CellWord};
use card::place::cells_for;
use card::tallies::Tallies;
use cells::cell::{Cell, Count, Pulses, Ticks};
use cells::work::LARGEST_COUNT;
use ticks::tick::{Answer, Ticked, idle, quick_tick};
use ticks::view::Input;

// No more ticks can be asked for; and no tally goes beyond it.
const FOREVER: u32 = u32::MAX;

// Ticks made at once: the card after them, the answer of the last, and how many were made.
#[repr(C)]
#[derive(Clone, Copy)]
pub struct Advanced {
    pub card: Card,
    pub answer: Answer,
    pub made: u32,
}

// ---- for how many ticks

// For how many ticks a count goes on as in the tick that took it from x to y.
#[tactic(auto, unfolding(crate::specs::Steady::count_holds))]
fn count_holds(config: u32, x: Count, y: Count) -> u32
    ensures { result ≡ count_holds config x y }
{
    if x == y {
        return FOREVER;
    }
    if y == config {
        return 0;
    }
    if x as u64 == y as u64 + 1 {
        return y;
    }
    if y as u64 == x as u64 + 1 {
        return LARGEST_COUNT.saturating_sub(x);
    }
    0
}

#[tactic(auto, unfolding(crate::specs::Steady::state_holds))]
fn cell_holds(a: Cell, b: Cell) -> u32
    ensures { result ≡ cell_holds a b }
{
    if (a.bit != b.bit) | (a.pulse != b.pulse) {
        0
    } else {
        count_holds(a.config, a.count.0, b.count.0)
    }
}

fn least_holds(before: [Cell; CELLS], after: [Cell; CELLS], n: u8) -> u32
    requires { n ≤ cell_room }
    ensures { result ≡ least_holds n before after }
{
    let mut all = FOREVER;
    for i in 0..n as usize {
        all = all.min(cell_holds(before[i], after[i]));
    }
    all
}

// Word by word, as its definition is and the law on it (`same-means`), which speaks of each.
fn same_memory(a: Memory, b: Memory) -> bool
    ensures { result ≡ (same_words a b && same_outputs a b) }
{
    (((a.driven == b.driven) & (a.pulled == b.pulled))
        & ((a.levels == b.levels) & (a.levels2 == b.levels2)))
        & (((a.outputs == b.outputs) & (a.outputs2 == b.outputs2)) & (a.outputs3 == b.outputs3))
}

// Of a card and the card after one tick: for how many ticks, that one among them, nothing but
// counts changes.
fn steady_from(c: Card, d: Card, n: u8) -> u32
    requires { n ≤ cell_room }
    ensures { result ≡ steady_from n c d }
{
    if (c.edited == d.edited) & same_memory(c.memory, d.memory) {
        least_holds(c.cells, d.cells, n)
    } else {
        0
    }
}

// For how many quick ticks with the input nothing but counts changes, and no count comes to its
// end. A card at rest is steady for ever.
#[tactic(auto, unfolding(crate::specs::Steady::steady_for))]
pub fn steady_for(card: Card, input: Input) -> u32
    ensures { result ≡ steady_for (cells_for card.size) card input }
{
    let n = cells_for(card.size);
    let t = quick_tick(card, input);
    steady_from(card, t.card, n)
}

// ---- the card after them

#[tactic(auto, unfolding(crate::specs::Steady::count_through))]
fn count_through(x: Count, y: Count, m: u32) -> Count
    requires { x < y → x + m ≤ largest_count }
    ensures { result ≡ count_through x y m }
{
    if y < x {
        x.saturating_sub(m)
    } else if x < y {
        x + m
    } else {
        x
    }
}

fn cell_through(a: Cell, b: Cell, m: u32) -> Cell
    requires m_nonzero { 0 < m }
    requires m_bound { m ≤ cell_holds a b }
    ensures { result ≡ cell_through a b m }
{
    let count = count_through(a.count.0, b.count.0, m);
    Cell {
        count: Pulses(count),
        ..a
    }
}

fn cells_through(before: [Cell; CELLS], after: [Cell; CELLS], m: u32, n: u8) -> [Cell; CELLS]
    requires n_le_cell_room { n ≤ cell_room }
    requires m_nonzero { 0 < m }
    requires m_bound { m ≤ least_holds n before after }
    ensures { result ≡ cells_through n before after m }
{
    let mut next = before;
    for i in 0..n as usize {
        next[i] = cell_through(before[i], after[i], m);
    }
    next
}

// A number of ticks, k later, up to the standstill.
fn total_after(total: u32, k: u32) -> u32
    ensures { result ≡ total_after total k }
{
    total.saturating_add(k)
}

#[tactic(auto, unfolding(crate::specs::Steady::counted_for))]
fn counted_for(named: bool, d: u32, v: Ticks) -> Ticks
    ensures { result ≡ counted_for named d v }
{
    if named { Ticks(total_after(v.0, d)) } else { v }
}

// The tallies after m ticks that ran, each of which named these cells.
fn tallies_through(t: Tallies, named: CellWord, m: u32, n: u8) -> Tallies
    requires { n ≤ cell_room }
    ensures { result ≡ tallied_for n (bit_at named) m t }
{
    let total = total_after(t.total.0, m);
    let d = total - t.total.0;
    let mut next = t;
    next.total = Ticks(total);
    for i in 0..n as u32 {
        let at = i as usize;
        next.cells[at] = counted_for(words::bit(named as u64, i), d, next.cells[at]);
    }
    next
}

// The card after m ticks, of which t is the first.
#[tactic(auto, unfolding(crate::specs::Steady::card_through))]
fn card_through(c: Card, t: Ticked, m: u32, n: u8) -> Card
    requires n_le_cell_room { n ≤ cell_room }
    requires m_nonzero { 0 < m }
    requires m_bound { m ≤ least_holds n c.cells t.card.cells }
    ensures { result ≡ card_through n c t m }
{
    let mut next = c;
    next.cells = cells_through(c.cells, t.card.cells, m, n);
    if t.answer.ran {
        next.tallies = tallies_through(c.tallies, t.answer.woken, m, n);
    }
    next
}

// ---- ticks at once

// How many ticks are made where k are asked for.
fn made_of(k: u32, steady: u32) -> u32
    ensures { result ≡ made_of k steady }
{
    k.min(steady.max(1))
}

// Up to k quick ticks with one input: the first of them, and the others as long as nothing but
// counts changes.
pub fn advance(card: Card, input: Input, k: u32) -> Advanced
    ensures { result ≡ advanced (cells_for card.size) card input k }
{
    if k == 0 {
        let t = idle(card);
        return Advanced {
            card: t.card,
            answer: t.answer,
            made: 0,
        };
    }
    let n = cells_for(card.size);
    let t = quick_tick(card, input);
    let made = made_of(k, steady_from(card, t.card, n));
    if made < 2 {
        return Advanced {
            card: t.card,
            answer: t.answer,
            made,
        };
    }
    Advanced {
        card: card_through(card, t, made, n),
        answer: t.answer,
        made,
    }
}

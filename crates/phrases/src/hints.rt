// Hints on wirings that are legal, and of no use or surprising. A hint is given where it holds of a
// card and did not hold of an earlier one, whose hints have been given.
ghost use Rattle.std.specs.Prelude.{◌<◌, ◌≤◌};

use crate::page::Page;
use crate::terms::{
    Address, Line, SlotName, TypedCell, address_in, clock_slot, is_counter, is_flop, is_timer,
    letter,
};
use card::card::Card;
use card::connectors::connector_at;
use card::limits::{CELLS, CONNECTORS, CONNECTORS_END, EDGES, FIRST_CONNECTOR, INPUT, PUSH_PULL};
use cells::cell::Cell;
use cells::table::{Class, class_of, row_of};
use grammar::grammar::Slot;

// What a hint is on.
#[derive(Clone, Copy, PartialEq, Eq)]
enum Hint {
    // a one-shot, or a delay, of duration 0
    NoPulse,
    NoWait,
    // a clock that never comes
    NoClock,
    // a slot that reads a connector which the card alone drives
    ReadsOutput,
    // one that reads a higher cell, one tick late; the same of two flip-flops of one clock, which
    // is how a bit is shifted
    OneTickLate,
    Shifts,
    // one of a flip-flop that reads a lower one of the same clock, so that a bit passes through
    // both in one tick
    PassesThrough,
}

impl Hint {
    // Its code in a row.
    fn code(self) -> &'static str {
        match self {
            Hint::NoPulse => "no_pulse",
            Hint::NoWait => "no_wait",
            Hint::NoClock => "no_clock",
            Hint::ReadsOutput => "reads_output",
            Hint::OneTickLate => "one_tick_late",
            Hint::Shifts => "shifts",
            Hint::PassesThrough => "passes_through",
        }
    }

    // What follows from what holds.
    fn effect(self) -> &'static str {
        match self {
            Hint::NoPulse => " has duration 0, so no trigger makes it high",
            Hint::NoWait => {
                " has duration 0, so it does not wait: its pulse starts in the tick of its trigger"
            }
            Hint::NoClock => ", so no clock edge ever comes. 192 is high in every tick",
            Hint::ReadsOutput => {
                ", which is push-pull: it shows what the card drives, not what comes in"
            }
            Hint::OneTickLate => ", a higher cell, so it sees that cell one tick late",
            Hint::Shifts => {
                ", a higher flip-flop of the same clock, which changes later: \
                each clock edge shifts the bit by one cell"
            }
            Hint::PassesThrough => {
                ", a lower flip-flop of the same clock, which changes first: \
                a bit passes through both in one tick. To shift it, read a higher cell"
            }
        }
    }

    // Whether it is on a slot, and not on a duration.
    fn has_slot(self) -> bool {
        !matches!(self, Hint::NoPulse | Hint::NoWait)
    }
}

// ---- what holds

// A timer of duration 0.
fn duration_hint(c: Cell) -> Option<Hint> {
    let zero = c.config == 0;
    match class_of(c.kind) {
        Class::OneShot(_) => zero.then_some(Hint::NoPulse),
        Class::Delay(_) => zero.then_some(Hint::NoWait),
        _ => None,
    }
}

// What the clock's slot holds.
fn clock_of(c: Cell) -> u8 {
    address_in(c, clock_slot(c.kind))
}

// A clock that never comes. A D-flop that is preset by a line needs none: it is set and reset.
fn clock_hint(c: Cell) -> Option<Hint> {
    let clocked = is_flop(c.kind) | is_timer(c.kind) | is_counter(c.kind);
    let preset = (c.kind == 1) & (address_in(c, Slot::F) != 0);
    let never = clock_of(c) == EDGES;
    (clocked & never & !preset).then_some(Hint::NoClock)
}

// Whether a type uses a slot.
fn uses(kind: u8, slot: Slot) -> bool {
    let used = row_of(kind).used;
    match slot {
        Slot::X => used.x,
        Slot::Y => used.y,
        Slot::Z => used.z,
        Slot::F => used.f,
    }
}

// What a slot reads, its inverse or its edges; 0 where it is not used or reads nothing.
fn base_read(c: Cell, slot: Slot) -> u8 {
    if uses(c.kind, slot) {
        address_in(c, slot) % 64
    } else {
        0
    }
}

// Whether a slot is one of those that a flip-flop takes at its clock: D, or J and K.
fn is_data(kind: u8, slot: Slot) -> bool {
    match slot {
        Slot::X => is_flop(kind),
        Slot::Y => kind == 13,
        Slot::Z | Slot::F => false,
    }
}

// Whether a slot of a flip-flop takes what another flip-flop of the same clock has.
fn is_stage(c: Cell, slot: Slot, other: Cell) -> bool {
    let clock = clock_of(c);
    let same = (clock == clock_of(other)) & (clock != EDGES);
    (is_data(c.kind, slot) & is_flop(other.kind)) & same
}

// A slot of cell i that reads cell k.
fn cell_hint(card: &Card, c: Cell, slot: Slot, i: u8, k: u8) -> Option<Hint>
    requires { k < 32 }
{
    let stage = is_stage(c, slot, card.cells[k as usize]);
    if i < k {
        return Some(if stage {
            Hint::Shifts
        } else {
            Hint::OneTickLate
        });
    }
    (stage & (k < i)).then_some(Hint::PassesThrough)
}

// A slot that reads connector k.
fn connector_hint(card: &Card, k: u32) -> Option<Hint>
    requires { k < 16 }
{
    let driven = connector_at(card.connectors, k).kind == PUSH_PULL;
    driven.then_some(Hint::ReadsOutput)
}

// A slot of cell i.
fn slot_hint(card: &Card, i: u8, c: Cell, slot: Slot) -> Option<Hint> {
    let base = base_read(c, slot);
    match base {
        1..FIRST_CONNECTOR => cell_hint(card, c, slot, i, base - 1),
        FIRST_CONNECTOR..CONNECTORS_END => connector_hint(card, (base - FIRST_CONNECTOR) as u32),
        _ => None,
    }
}

// What may hold of a cell, and the slot that it is of.
#[derive(Clone, Copy)]
struct Found {
    hint: Option<Hint>,
    slot: Slot,
}

fn of_slot(card: &Card, i: u8, c: Cell, slot: Slot) -> Found {
    Found {
        hint: slot_hint(card, i, c, slot),
        slot,
    }
}

// What holds of cell i: of its duration, its clock, and each slot.
fn found_of(card: &Card, i: u8) -> [Found; 6]
    requires { i < 32 }
{
    let c = card.cells[i as usize];
    [
        Found {
            hint: duration_hint(c),
            slot: Slot::X,
        },
        Found {
            hint: clock_hint(c),
            slot: clock_slot(c.kind),
        },
        of_slot(card, i, c, Slot::X),
        of_slot(card, i, c, Slot::Y),
        of_slot(card, i, c, Slot::Z),
        of_slot(card, i, c, Slot::F),
    ]
}

// An output whose source is a cell, or its inverse or edge, that is constant 0, as a fresh one is.
fn is_unwired(card: &Card, k: u8) -> bool
    requires { k < 16 }
{
    let c = connector_at(card.connectors, k as u32);
    let base = c.source % 64;
    match base {
        1..FIRST_CONNECTOR => {
            let cell = card.cells[(base - 1) as usize];
            (c.kind != INPUT) & (cell.kind == 0) & (cell.config == 0)
        }
        _ => false,
    }
}

// ---- what is given

// "    Hint: cell 1 (AND2): X reads 34, BNC2, which is push-pull: ..".
fn put_sentence(page: &mut Page, hint: Hint, i: u8, c: Cell, slot: Slot) {
    let kind = c.kind;
    page.say(format_args!("    Hint: {}", TypedCell { i, kind }));
    if hint.has_slot() {
        let read = Address(address_in(c, slot));
        page.say(format_args!(": {} reads {read}", SlotName { kind, slot }));
    }
    page.say(format_args!("{}.\n", hint.effect()));
}

// {"code":"no_pulse","cell":1}, or with the slot that it is of.
fn put_item(page: &mut Page, hint: Hint, i: u8, slot: Slot) {
    page.say(format_args!("{{\"code\":\"{}\",\"cell\":{}", hint.code(), i as u32 + 1));
    if hint.has_slot() {
        page.say(format_args!(",\"slot\":\"{}\"", letter(slot)));
    }
    page.say("}");
}

// The hints of cell i that are new, in a list that begins at a place.
fn put_of_cell(page: &mut Page, first: usize, rows: bool, then: &Card, card: &Card, i: u8)
    requires { i < 32 }
{
    let c = card.cells[i as usize];
    for (was, is) in found_of(then, i).iter().zip(&found_of(card, i)) {
        if let Some(hint) = is.hint
            && was.hint != is.hint
        {
            if rows {
                page.separate(first, b",");
                put_item(page, hint, i, is.slot);
            } else {
                put_sentence(page, hint, i, c, is.slot);
            }
        }
    }
}

// An output that is driven from a cell that is not wired.
fn put_unwired(page: &mut Page, first: usize, rows: bool, line: Line, source: Address) {
    if rows {
        page.separate(first, b",");
        return page.say(format_args!("{{\"code\":\"not_wired\",\"connector\":\"{line}\"}}"));
    }
    page.say(format_args!(
        "    Hint: {line} is driven from {source}, and that cell is constant 0: it is not wired.\n"
    ));
}

// The hints on a card that were not given on an earlier one, in sentences or as the items of a
// list.
pub fn put_hints(page: &mut Page, rows: bool, then: &Card, card: &Card) {
    let first = page.len();
    for i in 0..CELLS as u8 {
        put_of_cell(page, first, rows, then, card, i);
    }
    for k in 0..CONNECTORS as u8 {
        if is_unwired(card, k) & !is_unwired(then, k) {
            let c = connector_at(card.connectors, k as u32);
            put_unwired(page, first, rows, Line(k), Address(c.source));
        }
    }
}

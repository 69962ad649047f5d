// The reasons for which a cell was worked out, in words or as a list for a row.
use crate::page::Page;
use crate::terms::{Address, SlotName, address_in, clock_slot, is_counter, is_timer, letter};
use cells::cell::Cell;
use grammar::grammar::Slot;
use reasons::cell::Reasons;

// What a reason is: a level slot that has another value, or an edge slot that is high.
#[derive(Clone, Copy)]
enum Why {
    WentLow,
    WentHigh,
    Clock,
    Trigger,
    SecondTrigger,
    Start,
    Stop,
}

impl Why {
    // The word of a reason in a row.
    fn word(self) -> &'static str {
        match self {
            Why::WentLow => "went_low",
            Why::WentHigh => "went_high",
            Why::Clock => "clock",
            Why::Trigger => "trigger",
            Why::SecondTrigger => "second_trigger",
            Why::Start => "start",
            Why::Stop => "stop",
        }
    }

    // What is said of its slot.
    fn verb(self) -> &'static str {
        match self {
            Why::WentLow => "went from high to low",
            Why::WentHigh => "went from low to high",
            _ => "is high",
        }
    }
}

// A reason, and the slot that it is of.
#[derive(Clone, Copy)]
struct Reason {
    why: Why,
    slot: Slot,
}

fn moved_to(high: bool) -> Why {
    if high { Why::WentHigh } else { Why::WentLow }
}

fn when(holds: bool, why: Why, slot: Slot) -> Option<Reason> {
    holds.then_some(Reason { why, slot })
}

// The reasons of a cell's slots: the level slots that have another value; X as a trigger or a
// start, F as the other trigger or a stop; the clock.
fn reasons_of(kind: u8, q: Reasons) -> [Option<Reason>; 7] {
    let counter = is_counter(kind);
    let x = if counter { Why::Start } else { Why::Trigger };
    let f = if counter {
        Why::Stop
    } else {
        Why::SecondTrigger
    };
    [
        when(q.moved.x, moved_to(q.now.x), Slot::X),
        when(q.moved.y, moved_to(q.now.y), Slot::Y),
        when(q.moved.z, moved_to(q.now.z), Slot::Z),
        when(q.moved.f, moved_to(q.now.f), Slot::F),
        when(q.trigger, x, Slot::X),
        when(q.other, f, Slot::F),
        when(q.clock, Why::Clock, clock_slot(kind)),
    ]
}

// A reason in a row: {"why":"clock","slot":"Y","address":192}.
fn put_item(page: &mut Page, reason: Reason, cell: Cell) {
    page.say(format_args!(
        "{{\"why\":\"{}\",\"slot\":\"{}\",\"address\":{}}}",
        reason.why.word(),
        letter(reason.slot),
        address_in(cell, reason.slot)
    ));
}

// Why a clock counts: a flip-flop's always does.
fn put_while(page: &mut Page, cell: Cell) {
    let count = cell.count.0;
    if is_counter(cell.kind) {
        return page.say(" while it is active");
    }
    if !is_timer(cell.kind) {
        return;
    }
    if 0 < count {
        return page.say(format_args!(" while the count is {count}"));
    }
    page.say(" while the pulse is on");
}

// A reason in words: "X went from low to high (41, TTL0)", or of an edge slot
// "X (trigger) is high (169, rise of TTL0)".
fn put_reason(page: &mut Page, reason: Reason, cell: Cell) {
    page.say(format_args!(
        "{} {} ({})",
        SlotName {
            kind: cell.kind,
            slot: reason.slot,
        },
        reason.why.verb(),
        Address(address_in(cell, reason.slot))
    ));
    if let Why::Clock = reason.why {
        put_while(page, cell);
    }
}

// All reasons of a cell, by its state before the tick; an edit comes first.
pub fn put_reasons(page: &mut Page, rows: bool, cell: Cell, q: Reasons) {
    let first = page.len();
    if q.edited {
        page.say(if rows {
            "{\"why\":\"edited\"}"
        } else {
            "it was edited"
        });
    }
    for reason in reasons_of(cell.kind, q).iter().flatten() {
        if rows {
            page.separate(first, b",");
            put_item(page, *reason, cell);
        } else {
            page.separate(first, b"; ");
            put_reason(page, *reason, cell);
        }
    }
}

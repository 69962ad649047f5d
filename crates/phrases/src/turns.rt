// A cell in a tick: why it was worked out and what became of it, or why it sleeps.
use crate::causes::put_reasons;
use crate::page::Page;
use crate::terms::{Level, TypedCell, is_counter, is_flop, is_timer};
use cells::cell::Cell;
use cells::table::{Class, class_of};
use reasons::cell::{Reasons, any_reason};

// A cell in a tick: its place, as it was and is, its output then and now, and its reasons.
#[derive(Clone, Copy)]
pub struct Turn {
    pub i: u8,
    pub old: Cell,
    pub new: Cell,
    pub was: bool,
    pub is: bool,
    pub found: Reasons,
}

// Whether a timer takes a trigger that comes now: one that is not retriggerable ignores it while
// the count is above 0.
fn takes_trigger(cell: Cell) -> bool {
    match class_of(cell.kind) {
        Class::OneShot(again) | Class::Delay(again) => again | (cell.count.0 == 0),
        _ => false,
    }
}

// Whether a counter goes from start to stop.
fn is_started(kind: u8) -> bool {
    match class_of(kind) {
        Class::Counter(counter) => cells::wake::has_start(counter),
        _ => false,
    }
}

// Why a clock does not wake a cell: it is low, or there is nothing for it to do.
fn idle_clock(kind: u8, high: bool) -> &'static str {
    if is_flop(kind) | !high {
        return ", its clock is low";
    }
    if is_timer(kind) {
        return ", its clock is high but there is nothing to count";
    }
    ", its clock is high but it is not active"
}

// The state and the output of a cell.
fn put_state(page: &mut Page, cell: Cell, output: bool) {
    page.say(format_args!(
        "{{\"output\":{output},\"bit\":{},\"count\":{},\"pulse\":{}}}",
        cell.bit, cell.count.0, cell.pulse
    ));
}

impl Turn {
    // The cell's name, with its type.
    fn name(self) -> TypedCell {
        TypedCell {
            i: self.i,
            kind: self.old.kind,
        }
    }

    // Whether the clock of a timer is high in the tick of a trigger that it takes. A reset comes
    // before both.
    fn ignores_clock(self) -> bool {
        let q = self.found;
        let triggered = (q.trigger | q.other) & !q.now.z;
        (takes_trigger(self.old) & triggered) & q.now.y
    }

    // The lines of a cell that was worked out. A timer and a counter show what they have counted
    // to.
    fn put_worked_out(self, page: &mut Page) {
        page.say(format_args!("    {}: ", self.name()));
        put_reasons(page, false, self.old, self.found);
        let verb = if self.was == self.is { "stays" } else { "goes" };
        page.say(format_args!(". Output {verb} {}", Level(self.is)));
        if is_timer(self.new.kind) | is_counter(self.new.kind) {
            page.say(format_args!(", count {}", self.new.count.0));
        }
        page.say(".\n");
        if self.ignores_clock() {
            page.say("      The clock is high as well; a taken trigger ignores it.\n");
        }
    }

    // The line of a cell that sleeps: no trigger wakes a timer, and no start or stop a counter.
    fn put_asleep(self, page: &mut Page) {
        let kind = self.old.kind;
        page.say(format_args!("    {} sleeps: no level slot has changed", self.name()));
        if is_timer(kind) {
            page.say(", no trigger is high");
        }
        if is_started(kind) {
            page.say(", neither start nor stop is high");
        }
        if is_flop(kind) | is_timer(kind) | is_counter(kind) {
            page.say(idle_clock(kind, self.found.now.y));
        }
        page.say(".\n");
    }

    // A cell of a row. One that sleeps has no reasons.
    fn put_item(self, page: &mut Page) {
        page.say(format_args!(
            "{{\"cell\":{},\"type\":{},\"reasons\":[",
            self.i as u32 + 1,
            self.old.kind
        ));
        put_reasons(page, true, self.old, self.found);
        page.say("],\"before\":");
        put_state(page, self.old, self.was);
        page.say(",\"after\":");
        put_state(page, self.new, self.is);
        page.say(format_args!(",\"clock_ignored\":{}}}", self.ignores_clock()));
    }

    // Whether a cell is shown. Of those that the rules name a sentence leaves out the constants
    // that keep their output; of the others those that are wired are shown where it is asked.
    fn is_shown(self, rows: bool, asleep: bool) -> bool {
        let wired = self.old.kind != 0;
        if any_reason(self.found) {
            return rows | (wired | (self.was != self.is));
        }
        asleep & wired
    }

    // The cell, where it is shown, in a list that begins at a place.
    pub fn put(self, page: &mut Page, first: usize, rows: bool, asleep: bool) {
        if !self.is_shown(rows, asleep) {
            return;
        }
        if rows {
            page.separate(first, b",");
            return self.put_item(page);
        }
        if any_reason(self.found) {
            return self.put_worked_out(page);
        }
        self.put_asleep(page);
    }
}

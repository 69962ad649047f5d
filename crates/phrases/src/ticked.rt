// A tick: each cell that was worked out, with its reasons and its output, and the connectors that
// changed; in sentences, or as the members of a row.
ghost use Rattle.std.specs.Prelude.{◌<◌, ◌≤◌};

use crate::page::Page;
use crate::terms::{Level, Line, Source};
use crate::turns::Turn;
use crate::wiring::{put_high, put_set};
use card::card::{Card, Connector};
use card::connectors::connector_at;
use card::limits::{CELLS, CONNECTORS, OPEN_DRAIN};
use card::place::cells_for;
use reasons::cell::{Reasons, any_reason};
use ticks::tick::Answer;
use ticks::view::Input;

// A tick: what came in with it, its kind, its answer, and the card before it and after it.
#[derive(Clone, Copy)]
pub struct Tick {
    pub input: Input,
    pub full: bool,
    pub answer: Answer,
    pub before: Card,
    pub after: Card,
}

// ---- cells

// The set with cell i, where it belongs there.
fn with_cell(set: u64, i: u32, belongs: bool) -> u64
    requires { i < 32 }
{
    if belongs {
        words::with_set(set, i)
    } else {
        set
    }
}

// A connector that shows another level, or may: which it is, its settings, and its level in the
// last tick and in this one. `drove` and `drives` say whether it was driven in that and is in this.
#[derive(Clone, Copy)]
struct Moved {
    line: Line,
    connector: Connector,
    was: bool,
    is: bool,
    drove: bool,
    drives: bool,
    attached: bool,
}

impl Tick {
    // Why each cell of the card before it wakes in it.
    fn found(&self) -> [Reasons; CELLS] {
        reasons::reasons(self.before, self.input, self.full)
    }

    // How many cells the card has.
    fn count(&self) -> u32
        ensures { result ≤ 32 }
    {
        cells_for(self.before.size) as u32
    }

    // Cell i in the tick.
    fn turn(&self, i: u32, found: Reasons) -> Turn
        requires { i < 32 }
    {
        Turn {
            i: i as u8,
            old: self.before.cells[i as usize],
            new: self.after.cells[i as usize],
            was: words::bit(self.before.memory.outputs as u64, i),
            is: words::bit(self.answer.cells as u64, i),
            found,
        }
    }

    // Connector k in the tick.
    fn moved(&self, k: u32) -> Moved
        requires { k < 16 }
    {
        let last = self.before.memory;
        Moved {
            line: Line(k as u8),
            connector: connector_at(self.before.connectors, k),
            was: words::bit(last.levels as u64, k),
            is: words::bit(self.after.memory.levels as u64, k),
            drove: words::bit(last.driven as u64, k),
            drives: words::bit(self.answer.driven as u64, k),
            attached: words::bit(self.input.attached as u64, k),
        }
    }
}

// All cells of a tick that are shown.
fn put_cells(page: &mut Page, rows: bool, asleep: bool, t: &Tick, found: &[Reasons; CELLS]) {
    let first = page.len();
    for i in 0..t.count() {
        t.turn(i, found[i as usize]).put(page, first, rows, asleep);
    }
}

// The cells that the rules name.
fn named_by(found: &[Reasons; CELLS], count: u32) -> u64
    requires { count ≤ 32 }
{
    let mut set: u64 = 0;
    for i in 0..count {
        set = with_cell(set, i, any_reason(found[i as usize]));
    }
    set
}

// The constants among them that keep their output. They are many after a load, and nothing is to be
// said of them but that they were edited.
fn still_of(t: &Tick, found: &[Reasons; CELLS], count: u32) -> u64
    requires { count ≤ 32 }
{
    let mut still: u64 = 0;
    for i in 0..count {
        let turn = t.turn(i, found[i as usize]);
        let quiet = (turn.old.kind == 0) & (turn.was == turn.is);
        still = with_cell(still, i, quiet & any_reason(turn.found));
    }
    still
}

// The cells of a tick that ran. In a quick tick those that the rules name are worked out, and a full
// tick works out all. On a card that calls reach it leaves the others what they had, as a quick one
// does.
fn put_worked(page: &mut Page, asleep: bool, t: &Tick) {
    let found = t.found();
    let named = named_by(&found, t.count());
    let still = still_of(t, &found, t.count());
    if t.full {
        page.say("    The rules name:");
        put_set(page, named);
    } else if named == 0 {
        page.say("    No cell wakes.\n");
    }
    put_cells(page, false, asleep, t, &found);
    if still != 0 {
        page.say("    Constants that were edited, and stay as they were:");
        put_set(page, still);
    }
    if t.full & (named.count_ones() < t.count()) {
        page.say(
            "    The tick is full: cells that the rules do not name are worked out too, and keep what they had.\n",
        );
    }
}

// ---- connectors

impl Moved {
    // Whether the sample is what moved an open-drain line: it is low though the card drives it high,
    // or high again where the card drove it high before.
    fn is_by_sample(self) -> bool {
        let open_drain = self.connector.kind == OPEN_DRAIN;
        open_drain & ((self.is & self.drove) | (!self.is & self.drives))
    }

    // A connector that shows another level: what moved it. Outputs follow the last tick.
    fn put(self, page: &mut Page) {
        let source = Source {
            kind: self.connector.kind,
            source: self.connector.source,
        };
        let is = Level(self.is);
        page.say(format_args!("    {} goes {is}: ", self.line));
        if self.is_by_sample() {
            if !self.attached {
                page.say("nothing is attached, and ");
            }
            return page.say(format_args!("the sample is {is} ({source}).\n"));
        }
        page.say(source);
        page.say(if self.connector.kind != 0 {
            " in the last tick.\n"
        } else if self.attached {
            ".\n"
        } else {
            " with nothing attached.\n"
        });
    }
}

// All connectors that show another level.
fn put_connectors(page: &mut Page, t: &Tick) {
    for k in 0..CONNECTORS as u32 {
        let moved = t.moved(k);
        if moved.was != moved.is {
            moved.put(page);
        }
    }
}

// ---- the tick

// What a tick did. First what the words of the answer say: the connectors that are driven high, and
// the cells that are high.
pub fn put_tick(page: &mut Page, asleep: bool, t: &Tick) {
    if !t.answer.ran {
        return page.say(format_args!(
            "    The card ticks on clock {}, and this is clock {}: nothing happens.\n",
            t.before.trigger, t.input.code
        ));
    }
    page.say("    Driven high:");
    put_high(page, t.answer.driven, 0, 16);
    page.say("    High cells:");
    put_set(page, t.answer.cells as u64);
    put_worked(page, asleep, t);
    put_connectors(page, t);
}

// A tick as members of a row; those of its answer where it ran.
pub fn put_tick_row(page: &mut Page, asleep: bool, t: &Tick) {
    let input = t.input;
    page.say(format_args!(
        ",\"full\":{},\"clock\":{},\"sample\":{},\"attached\":{}",
        t.full, input.code, input.sample, input.attached
    ));
    let answer = t.answer;
    page.say(format_args!(",\"ran\":{}", answer.ran));
    if answer.ran {
        page.say(format_args!(
            ",\"driven\":{},\"cells\":{},\"woken\":{},\"levels\":{},\"named\":[",
            answer.driven, answer.cells, answer.woken, t.after.memory.levels
        ));
        put_cells(page, true, asleep, t, &t.found());
        page.say("]");
    }
}

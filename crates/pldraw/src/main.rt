// Draws a run as a timing diagram in SVG: it reads what plrun reads, and shows each tick that ran
// as a column.
//
// A row is a connector's level or a cell's output; who has one is said in `rows`. A cell's row is
// tinted in the ticks that woke it. Sixty ticks are side by side, and the next sixty below them.
// The picture keeps 300 ticks, from the one that is asked for, and says how many there are. Rows
// are named by the wiring of the last tick that is drawn. No contract can say what is written.
#![tactic(auto)]

mod frame; // the size, the style and the head of a picture
mod page; // the picture as text
mod rows; // who has a row

ghost use Rattle.std.specs.Prelude.{◌≤◌};
ghost use Rattle.diagram.specs.Page.{kept_ticks};

use card::card::Card;
use diagram::kept::{KEPT, Ticks};
use frame::Shape;
use input::Found;
use input::system::Source;
use program::arguments::{Switch, read};
use program::writer::Writer;
use session::feed::{Buffers, Feed};

// Ticks that were passed over: how many, and what the last of them showed.
#[derive(Clone, Copy)]
pub struct Passed {
    pub count: u64,
    pub word: u64,
}

// At most so many ticks are passed over.
fn pass(feed: &mut Feed, most: u64, input: &mut Source, buffers: &mut Buffers) -> Passed {
    let mut word: u64 = 0;
    for count in 0..most {
        let Some(shown) = trace::next(feed, input, buffers) else {
            return Passed { count, word };
        };
        word = trace::packed(shown);
    }
    Passed { count: most, word }
}

// The ticks that were kept: the card at the last of them, how many, and who has a row.
#[derive(Clone, Copy)]
pub struct Gathered {
    pub card: Card,
    pub n: usize,
    pub set: u64,
}

fn gather(feed: &mut Feed, ticks: &mut Ticks, input: &mut Source, buffers: &mut Buffers) -> Gathered
    ensures { result.n ≤ kept_ticks }
{
    let mut card = feed.card;
    let mut set = 0;
    for n in 0..KEPT {
        let Some(shown) = trace::next(feed, input, buffers) else {
            return Gathered { card, n, set };
        };
        ticks.keep(n + 1, shown, &feed.before);
        card = feed.card;
        set |= rows::wired(card) | (ticks.at(n + 1).waves ^ ticks.at(1).waves);
    }
    Gathered { card, n: KEPT, set }
}

// What the picture shows. No run has so many ticks that a sum wraps.
fn shape_of(before: u64, drawn: Gathered, behind: u64) -> Shape
    requires { drawn.n ≤ kept_ticks }
    ensures { result.n ≤ kept_ticks }
{
    let through = before.wrapping_add(drawn.n as u64);
    Shape {
        n: drawn.n,
        before,
        total: through.wrapping_add(behind),
        rows: rows::in_order(drawn.set, drawn.card),
    }
}

// The run of an input to a card of 16 or 32 cells, from tick `from` on. Where a read fails, that is
// reported, and nothing is drawn.
fn draw(input: &mut Source, cells: u8, from: u64) {
    let mut buffers = Buffers::new();
    let mut feed = Feed::new(cells);
    let start = pass(&mut feed, from.saturating_sub(1), input, &mut buffers);
    let mut ticks = Ticks::new(start.word);
    let drawn = gather(&mut feed, &mut ticks, input, &mut buffers);
    let rest = pass(&mut feed, u64::MAX, input, &mut buffers);
    if feed.reader.found == Found::Failure {
        return;
    }
    let report = feed.report;
    let shape = shape_of(start.count, drawn, rest.count);
    let mut out = Writer::new();
    let _ = page::put_page(&mut out, drawn.card, &ticks, shape, report);
    program::report::say(report);
}

fn main(rt: HostRuntime) {
    let given = read(
        &rt,
        b"pldraw reads lines of a card and ticks, and draws a timing diagram of the ticks that ran, as an SVG picture.

usage: pldraw [--cells 32] [--from N] [FILE]     with no FILE it reads standard input

A picture has 300 ticks, from tick N on, counted from 1. A tinted box is a cell that woke; where one points at it, a browser says why. Lines that were
refused are reported in the picture and on the error output. --cells 32 is for a card of thirty-two cells.

    pldraw first.lines > first.svg
",
        &[Switch::Cells, Switch::From],
    );
    if let Some(mut given) = given {
        let cells = given.cells;
        let from = given.from;
        draw(&mut given.input, cells, from);
    }
}

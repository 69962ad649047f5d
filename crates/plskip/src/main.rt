// Counts how many ticks of a run a processor may sleep through: it reads what plrun reads, and
// counts the ticks in which nothing but counts changes. It works as the loop of a float does: it
// asks for how many ticks the card is steady, sleeps through them, makes the next one, and asks
// again; a line and another input end the sleep, and are followed by the question too. An idle tick
// is no tick of the card's clock, and is left out.
#![tactic(auto)]

use card::card::Card;
use input::Found;
use input::system::Source;
use program::arguments::{Switch, read};
use program::writer::{Writer, Written};
use session::Event;
use session::feed::{Buffers, Feed};
use steady::steady_for;
use ticks::view::Input;

// ---- one line

// Between two lines: the input of the last tick that ran, and for how many ticks more with it the
// card is steady, unless a line has come since.
#[derive(Clone, Copy)]
struct Run {
    input: Input,
    left: Option<u32>,
    counts: Counts,
}

// Ticks that ran, those of them that were slept through, those with another input than the tick
// before, and lines of the card and loads.
#[derive(Clone, Copy)]
struct Counts {
    ticks: u64,
    slept: u64,
    changes: u64,
    lines: u64,
}

// A line of the card, or a load: the card may be another.
fn after_line(run: Run) -> Run {
    let mut next = run;
    next.left = None;
    next.counts.lines = run.counts.lines.saturating_add(1);
    next
}

// A tick that ran, with the card that it met and the one that it left.
fn after_tick(run: Run, before: Card, card: Card, input: Input) -> Run {
    let same_input = run.input == input;
    let left = match run.left {
        Some(left) if same_input => left,
        _ => steady_for(before, input),
    };
    let asleep = 0 < left;
    let mut counts = run.counts;
    if (0 < counts.ticks) & !same_input {
        counts.changes = counts.changes.saturating_add(1);
    }
    if asleep {
        counts.slept = counts.slept.saturating_add(1);
    }
    counts.ticks = counts.ticks.saturating_add(1);
    Run {
        input,
        left: Some(if asleep {
            left - 1
        } else {
            steady_for(card, input)
        }),
        counts,
    }
}

// After the line that a feed has given, if it has given one.
fn after(run: Run, feed: &Feed) -> Run {
    if !feed.reader.has_line() {
        return run;
    }
    match feed.event {
        Event::Tick(t) => {
            if !t.answer.ran {
                return run;
            }
            after_tick(run, feed.before, feed.card, t.input)
        }
        Event::Load(_) | Event::Line(_) => after_line(run),
    }
}

// ---- the input

fn fresh_run() -> Run {
    let input = Input {
        code: 0,
        sample: 0,
        attached: 0,
    };
    let counts = Counts {
        ticks: 0,
        slept: 0,
        changes: 0,
        lines: 0,
    };
    Run {
        input,
        left: None,
        counts,
    }
}

// The run of an input. What was refused is reported, and where a read fails nothing is printed.
fn run_from(file: &mut Source, cells: u8) {
    let mut buffers = Buffers::new();
    let mut run = fresh_run();
    let mut feed = Feed::new(cells);
    'lines: while feed.goes_on() {
        feed.next(file, &mut buffers);
        run = after(run, &feed);
    }
    program::report::say(feed.report);
    if feed.reader.found != Found::Failure {
        print(run.counts);
    }
}

// ---- what is printed

// What part a number is of a total, in percent, cut to a tenth.
fn put_share(out: &mut Writer, n: u64, total: u64) -> Written {
    if total == 0 {
        return Ok(());
    }
    let tenths = (n % 281474976710656) * 1000 / total;
    out.put_with(b", ", tenths / 10, b".")?;
    out.put_with(b"", tenths % 10, b" %")
}

fn put_counts(out: &mut Writer, c: Counts) -> Written {
    out.put_with(b"ticks: ", c.ticks, b"")?;
    out.put_with(b"\nslept through: ", c.slept, b"")?;
    put_share(out, c.slept, c.ticks)?;
    let awake = c.ticks.saturating_sub(c.slept);
    out.put_with(b"\nawake: ", awake, b" ticks, ")?;
    out.put_with(b"", c.changes, b" other inputs, ")?;
    out.put_with(b"", c.lines, b" lines\n")?;
    out.flush()
}

fn print(c: Counts) {
    let mut out = Writer::new();
    let _ = put_counts(&mut out, c);
}

fn main(rt: HostRuntime) {
    let given = read(
        &rt,
        b"plskip reads lines of a card and ticks, and prints how many of the ticks a processor may sleep through.

usage: plskip [--cells 32] [FILE]     with no FILE it reads standard input

In a tick that is slept through nothing changes but counts, and none comes to its end: the outputs stay as they
are, and the tick may be made later, with others at once. The processor is awake for the other ticks, and
wakes where an input changes and where a line comes. Idle ticks are left out. What was refused is reported on the
error output. --cells 32 is for a card of thirty-two cells.

    plskip examples/clock.lines
",
        &[Switch::Cells],
    );
    if let Some(mut given) = given {
        let cells = given.cells;
        run_from(&mut given.input, cells);
    }
}

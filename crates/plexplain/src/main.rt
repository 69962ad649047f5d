// Explains a run: it reads what plrun reads, and writes each line with its answer and what that
// means. It takes constant memory, whatever the input.
#![tactic(auto)]

use explain::facts::Run;
use explain::line::{Style, explain, put_unended};
use input::system::{Source, fail};
use input::{BUFFER, Found, LINE, each_line};
use phrases::page::Page;
use program::arguments::{Switch, read};
use program::form::{Form, form_of, say_form};
use program::writer::{Written, write};
use saved::record::record_length;

// The bytes of a record of thirty-two cells, the longest.
const LONGEST_RECORD: usize = 516;

// A line has ended: it is entered, and what is said of it is written. The store is as long as a
// record of the card.
fn end_line(
    run: &mut Run,
    text: &[u8],
    store: &mut [u8],
    page: &mut Page,
    style: Style,
) -> Written {
    let room = record_length(run.card.size).min(store.len());
    *run = explain(*run, text, &mut store[..room], page, style);
    write(page.bytes())
}

// Whether the first line shows that the file is none of lines with LF at their ends: every line
// would be refused, so that is said once instead. Blanks at a line's end are explained where they
// are.
fn is_foreign(run: &Run, text: &[u8]) -> bool {
    if 0 < run.lines {
        return false;
    }
    match form_of(text, 1) {
        None | Some(Form::BlankAtEnd) => false,
        Some(form) => {
            say_form(form, 1);
            true
        }
    }
}

// A line, cut to the bytes that are kept of one that ends in another block, so that what is said
// does not depend on how the input comes. No line that is obeyed is longer. Where the input has
// ended, or a read failed, which is reported, bytes after the last LF are named. The result is
// whether the run goes on.
fn take(
    run: &mut Run,
    found: Found,
    line: &[u8],
    store: &mut [u8],
    page: &mut Page,
    style: Style,
) -> bool {
    let text = &line[..line.len().min(LINE)];
    if is_foreign(run, text) {
        return false;
    }
    if found == Found::Line {
        return end_line(run, text, store, page, style).is_ok();
    }
    if found == Found::Failure {
        fail(b"the input");
    }
    put_unended(page, style.rows, text, run.lines.saturating_add(1));
    let _ = write(page.bytes());
    false
}

// The run ends with the input, and where a write fails.
fn run_from(input: &mut Source, size: u8, style: Style) {
    let mut block = [0u8; BUFFER];
    let mut line = [0u8; LINE];
    let mut store = [0u8; LONGEST_RECORD];
    let mut page = Page::new();
    let mut run = explain::facts::start(size);
    each_line(input, &mut block, &mut line, |found, text| {
        take(&mut run, found, text, &mut store, &mut page, style)
    });
}

fn main(rt: HostRuntime) {
    let given = read(
        &rt,
        b"plexplain reads lines of a card and ticks, and says of each what it did and why.

usage: plexplain [--cells 32] [--rows] [--asleep] [FILE]     with no FILE it reads standard input

It writes each line after its number, `9> ` or `9, tick 1> ` where a tick ran; below it the answer, as plrun prints
it; and below that sentences: why the line was refused, what it changed, which cells woke and for what reasons, and
hints on a wiring that is legal and surprising or of no use.

--cells 32   the card has thirty-two cells
--rows       the same facts, one line of JSON for each line of input; the manual has a table of the fields
--asleep     the cells that sleep in a tick are named too, each with why

    plexplain examples/clock.lines
",
        &[Switch::Cells, Switch::Rows, Switch::Asleep],
    );
    if let Some(mut given) = given {
        let cells = given.cells;
        let style = Style {
            rows: given.rows,
            asleep: given.asleep,
        };
        run_from(&mut given.input, cells, style);
    }
}

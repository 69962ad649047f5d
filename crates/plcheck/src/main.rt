// Compares a transcript with what the card answers: its inputs are entered, and the answers below
// them are what must come. It takes constant memory, whatever the input.
#![tactic(auto)]

use explain::checking::Check;
use input::system::{Source, fail};
use input::{BUFFER, Found, LINE, each_line};
use phrases::page::Page;
use program::arguments::{Switch, read};
use program::writer::{Written, write};
use saved::record::record_length;

// The bytes of a record of thirty-two cells, the longest.
const LONGEST_RECORD: usize = 516;

// The input has ended, with these bytes after its last LF.
fn take_end(check: &mut Check, text: &[u8], store: &mut [u8], page: &mut Page) -> Written {
    check.take_last(text, store, page);
    write(page.bytes())?;
    check.end(page);
    write(page.bytes())
}

// A line, cut to the bytes that are kept of one that ends in another block. Where a read failed,
// that is reported, and nothing is counted, since what comes after it is not known. As much of the
// store is used as a record of the card is long. The result is whether the transcript goes on: all
// that was said could be written.
fn take(
    check: &mut Check,
    size: u8,
    found: Found,
    line: &[u8],
    store: &mut [u8],
    page: &mut Page,
) -> bool {
    let text = &line[..line.len().min(LINE)];
    let room = record_length(size).min(store.len());
    let store = &mut store[..room];
    match found {
        Found::Line => {
            check.take(text, store, page);
            write(page.bytes()).is_ok()
        }
        Found::End => {
            let _ = take_end(check, text, store, page);
            false
        }
        Found::Failure => {
            fail(b"the input");
            false
        }
    }
}

// The run ends with the input, and where a write fails.
fn run_from(input: &mut Source, size: u8) {
    let mut block = [0u8; BUFFER];
    let mut line = [0u8; LINE];
    let mut store = [0u8; LONGEST_RECORD];
    let mut page = Page::new();
    let mut check = Check::new(size);
    each_line(input, &mut block, &mut line, |found, text| {
        take(&mut check, size, found, text, &mut store, &mut page)
    });
}

fn main(rt: HostRuntime) {
    let given = read(
        &rt,
        b"plcheck reads a wiring and a transcript, lines with the answers that must come, and compares.

usage: plcheck [--cells 32] [FILE]     with no FILE it reads standard input

After `> ` comes a line that is entered, and below it the answer that must come. A line without `> ` is entered and
not compared. Blank lines are passed over, and so are remarks after #. CR LF, blanks at the end of lines without `> `,
and a last line with no line end are taken, and each is reported once.

It reports the first answer that is another one: its line and tick, what must come, what came, and why. The last line
counts, as `10 answers agree, 0 differ`.

--cells 32   the card has thirty-two cells

    cat examples/exercises/one-flash.lines examples/exercises/one-flash.ticks | plcheck
",
        &[Switch::Cells],
    );
    if let Some(mut given) = given {
        let cells = given.cells;
        run_from(&mut given.input, cells);
    }
}

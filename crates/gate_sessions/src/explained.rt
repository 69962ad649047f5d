// What plexplain writes of a stored session: its sentences or its rows, on a card of either size.
use crate::lines_of::STORE;
use crate::put;
use explain::facts::Run;
use explain::line::{Style, explain, put_unended};
use input::system::Source;
use input::{BUFFER, Found, LINE, each_line};
use phrases::page::Page;
use saved::record::record_length;

// A line, or what comes after the last LF.
fn take(
    run: Run,
    found: Found,
    line: &[u8],
    store: &mut [u8],
    page: &mut Page,
    style: Style,
) -> Run {
    let text = &line[..line.len().min(LINE)];
    if found != Found::Line {
        put_unended(page, style.rows, text, run.lines.saturating_add(1));
        put(page.bytes());
        return run;
    }
    let room = record_length(run.card.size).min(store.len());
    let next = explain(run, text, &mut store[..room], page, style);
    put(page.bytes());
    next
}

pub fn run(file: &mut Source, size: u8, style: Style) {
    let mut block = [0u8; BUFFER];
    let mut line = [0u8; LINE];
    let mut store = [0u8; STORE];
    let mut page = Page::new();
    let mut run = explain::facts::start(size);
    each_line(file, &mut block, &mut line, |found, text| {
        run = take(run, found, text, &mut store, &mut page, style);
        true
    });
}

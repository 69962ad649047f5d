// What plcheck writes of a stored transcript, on a card of either size.
use crate::lines_of::STORE;
use crate::put;
use explain::checking::Check;
use input::system::Source;
use input::{BUFFER, Found, LINE, each_line};
use phrases::page::Page;
use saved::record::record_length;

// A line, or the end with what comes after the last LF.
fn take(check: &mut Check, size: u8, found: Found, line: &[u8], store: &mut [u8], page: &mut Page) {
    let text = &line[..line.len().min(LINE)];
    let room = record_length(size).min(store.len());
    let store = &mut store[..room];
    if found == Found::Line {
        check.take(text, store, page);
        return put(page.bytes());
    }
    check.take_last(text, store, page);
    put(page.bytes());
    check.end(page);
    put(page.bytes());
}

pub fn run(file: &mut Source, size: u8) {
    let mut block = [0u8; BUFFER];
    let mut line = [0u8; LINE];
    let mut store = [0u8; STORE];
    let mut page = Page::new();
    let mut check = Check::new(size);
    each_line(file, &mut block, &mut line, |found, text| {
        take(&mut check, size, found, text, &mut store, &mut page);
        true
    });
}

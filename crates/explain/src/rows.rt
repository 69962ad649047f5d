// A line of input as one line of JSON: the same facts as the sentences, for a machine.
use crate::facts::Facts;
use crate::line::{is_astray, tick_of};
use phrases::hints::put_hints;
use phrases::json::Quoted;
use phrases::page::Page;
use phrases::ticked::put_tick_row;
use phrases::wiring::{put_change_row, put_members};
use session::{Event, TickDone, refusal_of};

// The line's number and itself.
fn put_head(page: &mut Page, text: &[u8], line: u32) {
    let text = Quoted(text);
    page.say(format_args!("{{\"line\":{line},\"text\":{text}"));
}

// A tick: its number, what it did, and the hints that the run has not given.
fn put_tick(page: &mut Page, asleep: bool, t: TickDone, f: &Facts) {
    page.say(",\"event\":\"tick\"");
    if !t.answer.ran {
        page.say(",\"tick\":null");
        return put_tick_row(page, asleep, &tick_of(t, f));
    }
    page.say(format_args!(",\"tick\":{}", f.after.ticks));
    put_tick_row(page, asleep, &tick_of(t, f));
    page.say(",\"hints\":[");
    put_hints(page, true, &f.before.hinted, &f.after.card);
    page.say("]");
}

// A line or a load: what it changed.
fn put_changes(page: &mut Page, f: &Facts) {
    put_change_row(page, &f.before.card, &f.after.card);
    page.say(",\"edited\":[");
    put_members(page, true, f.edits);
    page.say(format_args!("],\"pointer_did_not_move\":{}", is_astray(f)));
}

// What the line did.
fn put_event(page: &mut Page, asleep: bool, f: &Facts) {
    match f.event {
        Event::Tick(t) => put_tick(page, asleep, t, f),
        Event::Load(_) => {
            page.say(",\"event\":\"load\"");
            put_changes(page, f)
        }
        Event::Line(_) => {
            page.say(",\"event\":\"line\"");
            put_changes(page, f)
        }
    }
}

// The row of a line. The answer is without its LF there.
pub fn put_row(page: &mut Page, text: &[u8], answer: &[u8], asleep: bool, f: &Facts) {
    put_head(page, text, f.after.lines);
    page.say(format_args!(
        ",\"answer\":{},\"refusal\":{}",
        Quoted(answer.strip_suffix(b"\n").unwrap_or(answer)),
        refusal_of(f.event)
    ));
    put_event(page, asleep, f);
    page.say("}\n");
}

// The bytes after the last LF of an input, which are no line.
pub fn put_unended(page: &mut Page, text: &[u8], line: u32) {
    put_head(page, text, line);
    page.say(",\"event\":\"unended\"}\n");
}

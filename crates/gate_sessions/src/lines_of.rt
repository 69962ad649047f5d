// The lines of a stored session, and what each of them prints.
use crate::{Form, put};
use card::card::Card;
use input::system::Source;
use input::{BUFFER, Found, LINE, each_line};
use saved::record::record_length;
use session::{Event, LONGEST_PRINT};
use ticks::rest::at_rest;

// The record of a card of thirty-two cells; that of a card of sixteen is shorter.
pub const STORE: usize = 516;

// What a tick printed, and whether the card is at rest.
fn put_tick(printed: &[u8], rests: bool) {
    put(printed.strip_suffix(b"\n").unwrap_or(printed));
    if rests {
        put(b" rest\n");
    } else {
        put(b" on\n");
    }
}

// A line, and what its form prints of it. The card is at rest where a further tick with the same
// input would change nothing.
pub fn take_line(card: Card, line: &[u8], store: &mut [u8], form: Form) -> Card {
    let mut out = [0u8; LONGEST_PRINT];
    let entered = session::enter(card, line, store, &mut out);
    let next = entered.card;
    let printed = &out[..entered.len];
    match (form, entered.event) {
        (Form::Session | Form::Tallies, _) => put(printed),
        (Form::Rests, Event::Tick(t)) => put_tick(printed, at_rest(next, t.input)),
        _ => {}
    }
    next
}

// What was found of the file: a line uses as much of the store as a record of the card is long.
fn take(card: Card, found: Found, line: &[u8], store: &mut [u8], form: Form) -> Card {
    if found != Found::Line {
        return card;
    }
    let n = record_length(card.size).min(store.len());
    let store = &mut store[..n];
    match form {
        Form::Tallies => crate::tallies::take_line(card, line, store),
        _ => take_line(card, line, store, form),
    }
}

// The card that the lines of an open file leave.
pub fn run(file: &mut Source, size: u8, form: Form) -> Card {
    let mut block = [0u8; BUFFER];
    let mut line = [0u8; LINE];
    let mut store = [0u8; STORE];
    let mut card = card::card::fresh_of(size);
    each_line(file, &mut block, &mut line, |found, text| {
        card = take(card, found, text, &mut store, form);
        true
    });
    card
}

// What is printed of the card that a session leaves.
use crate::{put, put_number};
use card::card::Card;
use card::limits::Number;
use input::system::STDOUT;
use wiring::parts::TEXT_MOST;

// What a card prints of itself.
pub fn put_wiring(card: Card) {
    let mut text = [0u8; TEXT_MOST];
    let printed = wiring::print::print(card, &mut text);
    put(&text[..printed.len]);
}

// What depends on a place: `ADDRESS K CELLS CONNECTORS`, the words in hex. A cell word has a hex
// digit for four cells.
fn put_survey(card: Card, place: Number) {
    let s = survey::dependents(card, place);
    put_number(place);
    put(b" ");
    put_number(s.k as u64);
    put(b" ");
    io::print_hex(STDOUT, s.cells as u64, card.size as usize / 4);
    put(b" ");
    io::print_hex(STDOUT, s.connectors as u64, 4);
    put(b"\n");
}

// Places at the ends of the cells, of the connectors, and of what reads them otherwise; among them
// some that are no connector.
pub fn put_surveys(card: Card) {
    for place in [0, 1, 16, 17, 32] {
        put_survey(card, place);
    }
    for place in 33..50 {
        put_survey(card, place);
    }
    for place in [64, 97, 161, 225, 255, 256] {
        put_survey(card, place);
    }
}

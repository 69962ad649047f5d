// Sessions that ask for the tallies: a line `#` prints the tick total and the tally of each cell,
// and `# TOTAL N1 N2 ..` gives the card these numbers and prints `ok`. Other lines are the card's.
use crate::{Form, lines_of, put, put_number};
use card::card::Card;
use card::tallies::{Tallies, no_tallies};
use cells::cell::Ticks;

fn put_tallies(t: Tallies, cells: u8) {
    put_number(t.total.0 as u64);
    for tally in t.cells.iter().take(cells as usize) {
        put(b" ");
        put_number(tally.0 as u64);
    }
    put(b"\n");
}

// A number with one more digit, of which 32 bits are kept.
fn with_digit(n: u32, b: u8) -> u32 {
    n.wrapping_mul(10).wrapping_add((b % 16) as u32)
}

fn number(digits: &[u8]) -> u32 {
    let mut n = 0;
    for b in digits {
        n = with_digit(n, *b);
    }
    n
}

// The numbers after the first two bytes of a line, one blank between them: the total, and then the
// tally of each cell.
fn given(line: &[u8]) -> Tallies {
    let mut t = no_tallies();
    let mut numbers = line[line.len().min(2)..].split(|b| *b == b' ');
    if let Some(total) = numbers.next() {
        t.total = Ticks(number(total));
    }
    for (tally, digits) in t.cells.iter_mut().zip(numbers) {
        *tally = Ticks(number(digits));
    }
    t
}

// Whether a line is one of the card's.
fn is_plain(line: &[u8]) -> bool {
    line.first() != Some(&b'#')
}

pub fn take_line(card: Card, line: &[u8], store: &mut [u8]) -> Card {
    if is_plain(line) {
        return lines_of::take_line(card, line, store, Form::Tallies);
    }
    if line.len() == 1 {
        put_tallies(card.tallies, card.size);
        return card;
    }
    let mut next = card;
    next.tallies = given(line);
    put(b"ok\n");
    next
}

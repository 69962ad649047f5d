// Writes a saved record as lines: it reads a record as a card would load it, and writes the wiring
// that the card then has, or why the card refuses it.
#![tactic(auto)]

use input::system::{STDERR, fail};
use program::arguments::{Arguments, Switch, read};
use wiring::parts::TEXT_MOST;

// One byte more than the longest record has: an input that goes on is of no record's length.
const ROOM: usize = 517;

fn say(text: &[u8]) {
    io::write_all(STDERR, text);
}

// `:N-k` and the rule.
fn refuse(k: u8, cells: u8) {
    say(b":N-");
    io::print_decimal(STDERR, k as u64);
    if k != 14 {
        say(b": the record holds settings that no lines could set\n");
        return;
    }
    if cells == 32 {
        say(
            b": this is no record of a card of thirty-two cells, which has 516 bytes with fields in order\n",
        );
        return;
    }
    say(
        b": this is no record of a card of sixteen cells, which has 276 or 308 bytes with fields in order\n",
    );
}

// A load of these bytes to a fresh card, and the card's wiring, or why there is none.
fn load(bytes: &[u8], cells: u8) {
    let fresh = card::card::fresh_of(cells);
    let loaded = saved::record::load(fresh, bytes);
    if loaded.k != 0 {
        refuse(loaded.k, cells);
        return;
    }
    let card = loaded.card;
    let mut text = [0u8; TEXT_MOST];
    let printed = wiring::print::print(card, &mut text);
    let _ = program::writer::write(&text[..printed.len.min(TEXT_MOST)]);
}

fn load_from(mut given: Arguments) {
    let mut bytes = [0u8; ROOM];
    match input::read_all(&mut given.input, &mut bytes) {
        Ok(len) => load(&bytes[..len], given.cells),
        Err(_) => fail(b"the input"),
    }
}

fn main(rt: HostRuntime) {
    let given = read(
        &rt,
        b"plload reads a record of a card, 276 or 308 bytes, and prints its wiring as lines, which set it again.

usage: plload [--cells 32] [FILE]     with no FILE it reads standard input

plsave makes such a record of lines. With --cells 32 it is the record of a card of thirty-two cells, 516 bytes.
Where a card would refuse the record, nothing is printed, and :N-14 or :N-15 on the error output says why.

    plsave wiring.lines | plconvert | plload
",
        &[Switch::Cells],
    );
    if let Some(given) = given {
        load_from(given);
    }
}

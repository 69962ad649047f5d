// Saves a wiring as a record: it reads what plrun reads, and at the end writes the record of the
// card, which `plload` turns into lines again.
#![tactic(auto)]

ghost use Rattle.std.specs.Prelude.{◌≤◌};

use card::limits::LARGE;
use program::arguments::{Arguments, Switch, read};
use saved::record::RECORD_LENGTH;
use session::feed::STORE;

// How many bytes the record of a card of so many cells has.
fn length_for(cells: u8) -> usize
    ensures { result ≤ 516 }
{
    if cells == LARGE { STORE } else { RECORD_LENGTH }
}

fn save_from(given: Arguments) {
    let Some(card) = wiring_input::wiring_from(given) else {
        return;
    };
    let len = length_for(card.size);
    let mut store = [0u8; STORE];
    saved::record::save(card, &mut store);
    let _ = program::writer::write(&store[..len]);
}

fn main(rt: HostRuntime) {
    let given = read(
        &rt,
        b"plsave reads lines of a card and ticks, and writes the record of the card that they leave: 308 bytes.

usage: plsave [--cells 32] [--anyway] [FILE] > RECORD     with no FILE it reads standard input

The record holds the settings, not the states and the pointer. plload prints it as lines, plconvert makes the
276 bytes for older cards of it. Where the card refuses a line, the error output says which and why, and no
record is written; --anyway writes it all the same. With --cells 32 the record has 516 bytes.

    plsave wiring.lines > wiring.record
",
        &[Switch::Cells, Switch::Anyway],
    );
    if let Some(given) = given {
        save_from(given);
    }
}

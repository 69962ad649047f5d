// Prints the wiring of a card as lines: it reads what plrun reads, and at the end writes the wiring
// of the card. It is the program of document 02, "Print the wiring as lines".
#![tactic(auto)]

use program::arguments::{Arguments, Switch, read};
use wiring::parts::TEXT_MOST;

fn print_from(given: Arguments) {
    let Some(card) = wiring_input::wiring_from(given) else {
        return;
    };
    let mut text = [0u8; TEXT_MOST];
    let printed = wiring::print::print(card, &mut text);
    let _ = program::writer::write(&text[..printed.len.min(TEXT_MOST)]);
}

fn main(rt: HostRuntime) {
    let given = read(
        &rt,
        b"plprint reads lines of a card and ticks, and prints the wiring that they leave, as lines that set it again.

usage: plprint [--cells 32] [--anyway] [FILE]     with no FILE it reads standard input

It prints the wiring alone, no answers. Where the card refuses a line, the error output says which and why, and
nothing is printed; --anyway prints all the same. --cells 32 is for a card of thirty-two cells. To see what a
preset sets:

    printf '36CCA X=19\\n' | plprint

To compare two wirings, compare what it prints of each by diff.
",
        &[Switch::Cells, Switch::Anyway],
    );
    if let Some(given) = given {
        print_from(given);
    }
}

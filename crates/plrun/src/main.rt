// Runs the lines of an input through one card, and prints the answers: document 01, "One run".
#![tactic(auto)]

use input::system::STDOUT;

fn main(rt: HostRuntime) {
    let given = program::arguments::read(
        &rt,
        b"plrun reads lines of a card and ticks, and prints an answer for each.

usage: plrun [FILE]     with no FILE it reads standard input

A line ends with LF. `M E=1` and the like are lines of the card, `T 0 0100 ffff Q` is a tick (clock, sample,
attached lines, Quick or Full), and `L` loads what `36SS Z` saved. A line prints :A, :A and a number, or :N-
and the number of its refusal; a tick prints T, driven word, cell word, woken set and count, or T - if idle.

    printf 'M E=1\\n36CCA Y=5\\n36CCA Y?\\n' | plrun

docs/MANUAL.md says what each line, word and number means; plexplain says why each answer came.
",
        &[],
    );
    if let Some(mut given) = given {
        session::run::run_from(&mut given.input, STDOUT);
    }
}

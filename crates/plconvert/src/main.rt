// Converts a saved record: it reads one record and writes the same settings in the other form,
// those of a card of 32 cells in the old form of sixteen. A refusal is a line `:N-k` on the error
// output. It is the program of document 02, "Records for cards already at sea".
#![tactic(auto)]

use input::system::{STDERR, Source, fail};
use saved::record::RECORD_LENGTH;

// `:N-k` and LF.
fn refuse(k: u8) {
    let mut line = [0u8; 16];
    let n = text::put_numbered(&mut line, b":N-", k as u32, b"\n");
    io::write_all(STDERR, &line[..n]);
}

// The longest record, that of a card of 32 cells. One byte more is read: an input that goes on is of
// no form's length.
const LONGEST: usize = 516;

const ROOM: usize = LONGEST + 1;

fn convert_from(input: &mut Source) {
    let mut bytes = [0u8; ROOM];
    let mut result = [0u8; RECORD_LENGTH];
    let Ok(len) = input::read_all(input, &mut bytes) else {
        fail(b"the input");
        return;
    };
    let done = convert::convert(&bytes[..len], &mut result);
    if done.k == 0 {
        let _ = program::writer::write(&result[..done.len]);
    } else {
        refuse(done.k);
    }
}

fn main(rt: HostRuntime) {
    let given = program::arguments::read(
        &rt,
        b"plconvert reads a saved record and writes the same settings in the other form, for older or newer cards.

usage: plconvert [FILE]     with no FILE it reads standard input

A record of 308 bytes, or of 516 from a card of 32 cells, becomes one of 276; one of 276 becomes one of 308.
Where the record cannot be converted, nothing is written, and :N- and a number on the error output say why.

    plsave wiring.lines | plconvert > old.record
",
        &[],
    );
    if let Some(mut given) = given {
        convert_from(&mut given.input);
    }
}

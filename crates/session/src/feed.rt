// The lines of an input, one after the other, to one card: the loop of every program that is not
// plrun. `next` goes on to the next line. After each line a program sees the card before and after
// it, what the line did, and the line itself.
ghost use Rattle.std.specs.Prelude.{◌≤◌};
ghost use Rattle.input.specs.Lines.{buffer_length};

use crate::Event;
use card::card::Card;
use input::{BUFFER, LINE, Reader};
use program::report::Report;

// The store of a card of thirty-two cells, which has 516 bytes; one of sixteen has the first 308.
// "The program's store starts as 308 zeros."
pub const STORE: usize = 516;

// What a feed works in: a block of input with room for a line before it, the line that has not
// ended, and the store, for the whole of an input.
#[derive(Clone, Copy)]
pub struct Buffers {
    pub block: [u8; BUFFER],
    pub line: [u8; LINE],
    pub store: [u8; STORE],
}

// Between two lines. The line that was given last lies in the block.
#[derive(Clone, Copy)]
pub struct Feed {
    // the card that the last line met, and the one that it left
    pub before: Card,
    pub card: Card,
    // what the last line did
    pub event: Event,
    pub reader: Reader,
    pub report: Report,
    ghost ready: { reader.n ≤ buffer_length },
}

// Where a reader of lines is between two lines.
ghost use Rattle.std.specs.Prelude.{◌≤◌};

// What was found last of an input. A failed read is the last thing that is found of it.
#[derive(Clone, Copy, Debug, PartialEq, Eq)]
pub enum Found {
    Line,
    End,
    Failure,
}

// Where the line that was given last lies in a block, from `start` to its LF at `end`, and how many
// bytes of the block have been read. Where no line was given, what follows the last LF lies there.
#[derive(Clone, Copy)]
pub struct Reader {
    pub start: usize,
    pub end: usize,
    pub n: usize,
    pub found: Found,
    // lines that may still be given, and reads that may be made
    pub left: u64,
    ghost within: { end ≤ n },
}

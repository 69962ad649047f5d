// Lines of an input: where they end, what is kept of one that has not ended, and the reads.
//
// What bytes of input do is a definition, `takes_all`, whatever a program does with a line. A
// program that holds bytes in memory goes from LF to LF by `line_end`. One that reads goes from
// line to line by `next_line`, in constant memory: a block of input with room for a line before it,
// and the line that has not ended. The call that reads is in `read_into`; no contract can say
// which bytes come there.
#![tactic(auto)]

mod reader; // where a reader of lines is
pub mod system; // what a program reads and writes, and why a call failed

ghost use Rattle.std.specs.Prelude.{true, false, ltb, ◌≡◌, ℕ, ◌≤◌, ◌<◌, ◌+◌, min, length, take, get_or, MatchResult};
ghost use Rattle.std.specs.List.{position};
ghost use Rattle.input.specs.Lines.{is_lf, part, kept, block_length, most_reads};
ghost use Rattle.input.specs.Reading.{is_line, Looked, Refilled, Next};

pub use reader::{Found, Reader};
use std::io::Read;
use system::Source;

// `block_length`: the length of a block of input.
pub const BLOCK: usize = 2048;

// `kept`: more than the 80 bytes of the longest line, so that a longer one, cut to this, is still
// too long.
pub const LINE: usize = 96;

// A line that has not ended, and after it a block.
pub const BUFFER: usize = LINE + BLOCK;

// `most_reads`: a proved loop has to end, and nothing says that the input does. At a microsecond a
// read these last for more than four years.
pub const READS: u64 = 1 << 47;

pub fn least(a: usize, b: usize) -> usize
    ensures value { result ≡ min a b }
    ensures upper_bound { result ≤ a }
    ensures upper_bound_2 { result ≤ b }
{
    if a < b { a } else { b }
}

fn first_lf(text: &[u8]) -> Option<usize>
    ensures { result ≡ position is_lf text.now }
{
    text.iter().position(|b| *b == b'\n')
}

// The index of the first LF of a block's n bytes at or after `at`, or n.
pub fn line_end(block: &[u8], at: usize, n: usize) -> usize
    requires at_le_n { at ≤ n }
    requires n_in_bounds { n ≤ length block.now }
    ensures lower_bound { at ≤ result }
    ensures upper_bound { result ≤ n }
    ensures by_index { (k : ℕ) → k < result → at ≤ k → get_or block.now k 0 ≡ 10 → ⊥ }
    ensures result_value { result < n → get_or block.now result 0 ≡ 10 }
{
    match first_lf(&block[at..n]) {
        Some(k) => at + k,
        None => n,
    }
}

// What is kept of a line that has not ended: its first bytes, as many as there is room for.
pub fn keep(line: &mut [u8], text: &[u8]) -> usize
    ensures line_after { take result line.new ≡ take (length line.old) text.now }
    ensures upper_bound { result ≤ length line.old }
    ensures line_len_unchanged { length line.new ≡ length line.old }
{
    let n = text.len().min(line.len());
    text::copy(line, 0, &text[..n])
}

// A read that failed, after so many bytes had come: `system::fail` says why.
#[derive(Clone, Copy, Debug, PartialEq, Eq)]
pub struct ReadFailed {
    pub after: usize,
}

// One read, to the front of a part of a buffer; how many bytes came. It is one call of the system,
// so that what a person types is given at once, and nothing is read ahead.
fn read_into(input: &mut Source, part: &mut [u8]) -> Result<usize, ReadFailed>
    ensures { MatchResult result (λ n. n ≤ length part.old) (λ e. e.after ≡ 0) }
{
    let got = match input {
        Source::Standard(standard) => standard.read(part),
        Source::Named(file) => file.read(part),
    };
    got.map_err(|_| ReadFailed { after: 0 })
}

// One read, to a place of a block.
fn read_at(input: &mut Source, block: &mut [u8], at: usize) -> Result<usize, ReadFailed>
    requires { at + block_length ≤ length block.old }
    ensures n_le_block_length { MatchResult result (λ n. n ≤ block_length) (λ e. e.after ≤ block_length) }
    ensures block_unchanged { take at block.new ≡ take at block.old }
{
    read_into(input, &mut block[at..at + BLOCK])
}

// One read, after the first `len` bytes of a line.
pub fn read_behind(
    input: &mut Source,
    block: &mut [u8],
    line: &[u8],
    len: usize,
) -> Result<usize, ReadFailed>
    requires len_in_bounds { len ≤ length line.now }
    requires block_length_in_bounds { len + block_length ≤ length block.old }
    ensures n_le_block_length { MatchResult result (λ n. n ≤ block_length) (λ e. e.after ≤ block_length) }
    ensures block_after { take len block.new ≡ take len line.now }
{
    text::copy(block, 0, &line[..len]);
    read_at(input, block, len)
}

// Reads until a buffer is full or the input ends; how many bytes came.
pub fn read_all(input: &mut Source, buffer: &mut [u8]) -> Result<usize, ReadFailed>
    ensures { MatchResult result (λ n. n ≤ length buffer.new) (λ e. e.after ≤ length buffer.new) }
{
    let mut n: usize = 0;
    while n < buffer.len() {
        match read_into(input, &mut buffer[n..]) {
            Ok(0) => break,
            Ok(more) => n += more,
            Err(_) => return Err(ReadFailed { after: n }),
        }
    }
    Ok(n)
}

// ---- line by line

// What a read found, with so many reads left. A line may come where it gave a byte, and another
// read may be made.
fn found_by(got: Result<usize, ReadFailed>, left: u64) -> Found
    ensures { is_line result ≡ true → 1 < left }
{
    match got {
        Ok(n) if n > 0 && left > 1 => Found::Line,
        Ok(_) => Found::End,
        Err(_) => Found::Failure,
    }
}

impl Reader {
    // Before the first byte of an input.
    pub fn new() -> Reader
        ensures start_value { (result.start ≡ 0) × (result.end ≡ 0) × (result.n ≡ 0) }
        ensures found_value { result.found ≡ Found.Line }
        ensures left_value { result.left ≡ most_reads }
    {
        Reader {
            start: 0,
            end: 0,
            n: 0,
            found: Found::Line,
            left: READS,
        }
    }

    // Whether a line was given, or, before the first, whether one may come.
    pub fn has_line(&self) -> bool
        ensures { result ≡ is_line self.now.found }
    {
        match self.found {
            Found::Line => true,
            _ => false,
        }
    }

    // The line that was given last, or what follows the last LF, in the block of the reader. `part`
    // is empty where `end` is before `start`, which `new` and `next_line` never leave.
    pub fn text<'a>(&self, block: &'a [u8]) -> &'a [u8]
        requires { self.now.n ≤ length block.now }
        ensures { result.now ≡ part self.now.start self.now.end block.now }
    {
        if self.end < self.start {
            return &[];
        }
        &block[self.start..self.end]
    }

    // The bytes after the line that was given last, up to the next LF, or to the last that has been
    // read.
    fn behind(self, block: &[u8]) -> Reader
        requires n_in_bounds { self.n ≤ length block.now }
        requires left_nonzero { 0 < self.left }
        ensures { Looked self result block.now }
    {
        let start = self.n.min(self.end + 1);
        Reader {
            start: start,
            end: line_end(block, start, self.n),
            n: self.n,
            found: if self.left > 1 {
                Found::Line
            } else {
                Found::End
            },
            left: self.left - 1,
        }
    }

    // The line from `start` has no LF up to the last byte that has been read. Its first bytes, as
    // many as are kept, go to the front of the block, and the bytes of a read after them.
    fn refilled(self, input: &mut Source, block: &mut [u8], line: &mut [u8]) -> Reader
        requires start_le_n { self.start ≤ self.n }
        requires n_in_bounds { self.n ≤ length block.old }
        requires block_length_in_bounds { length line.old + block_length ≤ length block.old }
        requires left_nonzero { 0 < self.left }
        ensures { Refilled (length line.old) self result block.old block.new }
    {
        let len = keep(line, &block[self.start..self.n]);
        let got = read_behind(input, block, line, len);
        let all = len + got.unwrap_or(0);
        Reader {
            start: 0,
            end: line_end(block, len, all),
            n: all,
            found: found_by(got, self.left),
            left: self.left - 1,
        }
    }

    // Whether the line that is looked for has ended, and why not.
    fn found_at_end(&self) -> Found
        requires { self.now.end ≡ self.now.n → is_line self.now.found ≡ false }
        ensures { is_line result ≡ ltb self.now.end self.now.n }
    {
        if self.end < self.n {
            Found::Line
        } else {
            self.found
        }
    }

    // The next line. It lies in the block, from `start` to `end`, without its LF; where no further
    // LF comes, none is given. The reader is what `new` or this function left, with the same buffers.
    pub fn next_line(&mut self, input: &mut Source, block: &mut [u8], line: &mut [u8])
        requires n_in_bounds { self.old.n ≤ length block.old }
        requires block_length_in_bounds { length line.old + block_length ≤ length block.old }
        requires left_nonzero { 0 < self.old.left }
        ensures next { Next (length line.old) self.old self.new block.old block.new }
        ensures start_le_end { self.new.start ≤ self.new.end }
        ensures n_in_bounds_2 { self.new.n ≤ length block.new }
        ensures left_lt_left { self.new.left < self.old.left }
    {
        let mut q = self.behind(block);
        while q.end == q.n && q.has_line() {
            q = q.refilled(input, block, line);
        }
        *self = Reader {
            start: q.start,
            end: q.end,
            n: q.n,
            found: q.found_at_end(),
            left: q.left,
        };
    }
}

// The lines of an input one after the other, each with what the reader found: what follows the last
// LF comes at the end, and where a read fails. It goes on as long as `take` says.
pub fn each_line<F: FnMut(Found, &[u8]) -> bool>(
    input: &mut Source,
    block: &mut [u8],
    line: &mut [u8],
    mut take: F,
)
    requires block_length_in_bounds { length line.old + block_length ≤ length block.old }
    requires callable { F.IsAlwaysCallable take }
{
    let mut r = Reader::new();
    let mut on = true;
    while on && r.left > 0 && r.has_line() {
        r.next_line(input, block, line);
        on = take(r.found, r.text(block));
    }
}

// Runs: the lines of an input go through one card, and what they print goes to an output.
//
// A run takes constant memory, whatever the input: a block of input with room for a line before it,
// the line that has not ended, the store and the output. A block is so small that all it can print
// fits the output. So a turn is one read, all its bytes taken and all that they printed given to
// one write, and nothing printed waits for the next turn.
//
// What bytes of input do is a definition, `takes_all` of the crate `input`, with the step `enters`.
// `take_lines` does it for bytes that lie in memory, and two calls are made of it. `run_over` is a
// run over the bytes of a buffer, and its contract says all that it does. `run_from` is the loop of
// plrun, which reads and writes: `turn` gives the bytes of one read to `take_lines`, and gives what
// they printed to one write. No contract can say which bytes a read brings, and what becomes of
// those that are written.
ghost use Rattle.std.specs.Prelude.{true, List, ◌++◌, ◌≡◌, ℕ, ◌≤◌, ◌<◌, ◌+◌, ◌-◌, ◌*◌, length, take, drop};
ghost use Rattle.card.specs.Address.{cell_count, cells_for};
ghost use Rattle.card.specs.Fresh.{fresh};
ghost use Rattle.input.specs.Lines.{takes_all, part, kept, most_reads};
ghost use Rattle.session.specs.Session.{longest_print, entered};
ghost use Rattle.session.specs.Run.{enters, kept_of, standing, state_of, output_length};
ghost use Rattle.session.specs.Run.{Stopped, RanOver, Counted, Ran, Turned, Ended};

use crate::LONGEST_PRINT;
use card::card::Card;
use input::system::{Source, fail};
use input::{BLOCK, BUFFER, LINE, READS, keep, line_end, read_behind};
use program::report::{say_rest, text_of};
use saved::record::RECORD_LENGTH;

// "The program's store starts as 308 zeros."
pub const STORE: usize = RECORD_LENGTH;

// `output_length`: each byte of a block ends one line at most.
const OUTPUT: usize = LONGEST_PRINT * BLOCK;

// Between two bytes of the input: the card, the bytes of the line that has not ended yet, and the
// bytes of the output that are printed.
#[derive(Clone, Copy)]
pub struct State {
    pub card: Card,
    pub len: usize,
    pub used: usize,
}

// Between two reads.
#[derive(Clone, Copy)]
pub struct Run {
    pub card: Card,
    // bytes of the line that has not ended yet
    pub len: usize,
    // bytes that the last read gave: 0 at the input's end, and where it failed
    pub got: usize,
    // whether the last read failed
    pub failed: bool,
    // bytes that its lines printed, at the front of the output: they were given to write
    pub used: usize,
    // what write answered
    pub wrote: bool,
    // nothing has failed, and the input goes on
    pub going: bool,
    // bytes that all reads gave, and that their lines printed
    pub taken: u64,
    pub printed: u64,
    // reads that may still be made
    pub left: u64,
}

// Where the lines of a block stop: the line from `start` to `end` has not ended, or there is no
// room for what it prints.
#[derive(Clone, Copy)]
pub struct Lines {
    pub card: Card,
    pub start: usize,
    pub end: usize,
    pub used: usize,
}

// A run over the bytes of a buffer: the card that it leaves, the bytes that it took, and those that
// it printed.
#[derive(Clone, Copy)]
pub struct Over {
    pub card: Card,
    pub taken: usize,
    pub printed: usize,
}

// A line has ended: it is entered, and what it prints goes after what is printed already.
fn enter(state: State, text: &[u8], store: &mut [u8], out: &mut [u8]) -> State
    requires { state.used + longest_print ≤ length out.old }
    ensures card_value { result.card
        ≡ (entered (cells_for state.card.size) state.card text.now store.old).card }
    ensures store_after { store.new
        ≡ (entered (cells_for state.card.size) state.card text.now store.old).store }
    ensures out_after { take result.used out.new
        ≡ take state.used out.old ++ (entered (cells_for state.card.size) state.card
        text.now store.old).printed }
    ensures used_bound { result.used ≤ state.used + longest_print }
    ensures used_le_used { state.used ≤ result.used }
    ensures out_unchanged { drop result.used out.new ≡ drop result.used out.old }
{
    let card = state.card;
    let used = state.used;
    let entered = crate::enter(card, text, store, &mut out[used..]);
    let next = entered.card;
    State {
        card: next,
        len: 0,
        used: used + entered.len,
    }
}

// The bytes of a block from the unfinished line's end up to n. Each line that ends is entered where
// it lies, as long as there is room for what any line prints.
fn take_lines(state: State, block: &[u8], n: usize, store: &mut [u8], out: &mut [u8]) -> Lines
    requires len_le_n { state.len ≤ n }
    requires n_in_bounds { n ≤ length block.now }
    requires used_in_bounds { state.used ≤ length out.old }
    ensures out_after { standing result block.now store.new out.new
        ≡ takes_all enters (state_of state store.old block.now out.old)
        (part state.len result.end block.now) }
    ensures stopped { Stopped state result n block.now out.old out.new }
{
    let mut s = state;
    let mut start: usize = 0;
    let mut end = line_end(block, state.len, n);
    while end < n && LONGEST_PRINT <= out.len() - s.used {
        s = enter(s, &block[start..end], store, out);
        start = end + 1;
        end = line_end(block, start, n);
    }
    let card = s.card;
    Lines {
        card: card,
        start: start,
        end: end,
        used: s.used,
    }
}

// The same, where there is room for all that the bytes can print. What is left is kept.
fn take_block(
    state: State,
    block: &[u8],
    n: usize,
    line: &mut [u8; LINE],
    store: &mut [u8; STORE],
    out: &mut [u8; OUTPUT],
) -> State
    requires len_le_n { state.len ≤ n }
    requires n_in_bounds { n ≤ length block.now }
    requires len_bound { state.used + longest_print * (n - state.len) ≤ output_length }
    ensures out_after { state_of result store.new line.new out.new
        ≡ kept_of (takes_all enters (state_of state store.old block.now out.old)
        (part state.len n block.now)) }
    ensures len_le_kept { result.len ≤ kept }
    ensures line_len { length line.new ≡ kept }
    ensures used_bound { result.used ≤ state.used + longest_print * (n - state.len) }
{
    let lines = take_lines(state, block, n, store, out);
    let card = lines.card;
    let start = lines.start;
    let rest = keep(line, &block[start..n]);
    State {
        card: card,
        len: rest,
        used: lines.used,
    }
}

// A fresh card and a store of zeros, fed with the lines of a buffer; what they print goes to
// another buffer. It stops at the end of a line for which there may be no room.
pub fn run_over(input: &[u8], output: &mut [u8]) -> Over
    ensures { RanOver cell_count result input.now output.old output.new }
{
    let card = card::card::fresh();
    let mut store = [0u8; STORE];
    let s = State {
        card: card,
        len: 0,
        used: 0,
    };
    let lines = take_lines(s, input, input.len(), &mut store, output);
    let after = lines.card;
    Over {
        card: after,
        taken: lines.end,
        printed: lines.used,
    }
}

// One read, and what its lines print. After a write that failed nothing more is written, so that
// what came out is never without its middle.
fn turn(
    run: Run,
    input: &mut Source,
    output: i32,
    block: &mut [u8; BUFFER],
    line: &mut [u8; LINE],
    store: &mut [u8; STORE],
    out: &mut [u8; OUTPUT],
) -> Run
    requires len_le_kept { run.len ≤ kept }
    requires line_len { length line.old ≡ kept }
    requires left_nonzero { 0 < run.left }
    requires counted { Counted run }
    ensures { Turned run result store.old line.old out.old
        block.new store.new line.new out.new }
{
    let card = run.card;
    let len = run.len;
    let s = State {
        card: card,
        len: len,
        used: 0,
    };
    let read = read_behind(input, block, line, len);
    let got = read.unwrap_or(0);
    let next = take_block(s, block, len + got, line, store, out);
    let wrote = io::write_all(output, &out[..next.used]);
    let after = next.card;
    Run {
        card: after,
        len: next.len,
        got: got,
        failed: read.is_err(),
        used: next.used,
        wrote: wrote,
        going: (got > 0) & wrote,
        taken: run.taken + got as u64,
        printed: run.printed + next.used as u64,
        left: run.left - 1,
    }
}

fn start() -> Run
    ensures card_value { result.card ≡ fresh }
    ensures len_value { result.len ≡ 0 }
    ensures going_value { result.going ≡ true }
    ensures taken_value { (result.taken ≡ 0) × (result.printed ≡ 0) × (result.left ≡ most_reads) }
{
    let card = card::card::fresh();
    Run {
        card: card,
        len: 0,
        got: 0,
        failed: false,
        used: 0,
        wrote: true,
        going: true,
        taken: 0,
        printed: 0,
        left: READS,
    }
}

// A fresh card and a store of zeros, fed with the lines of an input to its end; what they print is
// written. The line that has not ended is left at the front of `line`.
fn run_with(input: &mut Source, output: i32, line: &mut [u8; LINE]) -> Run
    requires { length line.old ≡ kept }
    ensures by_index { (bytes : List ℕ) × Ran cell_count result bytes }
    ensures ended { Ended result }
{
    let mut block = [0u8; BUFFER];
    let mut out = [0u8; OUTPUT];
    let mut store = [0u8; STORE];
    let mut r = start();
    while r.left > 0 && r.going {
        r = turn(r, input, output, &mut block, line, &mut store, &mut out);
    }
    r
}

// What a run has to report, on the error output: a call that failed, and a line that has not ended.
fn say(run: Run, line: &[u8; LINE]) {
    if !run.wrote {
        fail(b"the output");
    }
    if run.failed {
        fail(b"the input");
    }
    say_rest(text_of(&line[..run.len.min(LINE)]));
}

// The run of plrun: what the lines of an input print goes to an output.
pub fn run_from(input: &mut Source, output: i32) -> Run
    ensures by_index { (bytes : List ℕ) × Ran cell_count result bytes }
    ensures ended { Ended result }
{
    let mut line = [0u8; LINE];
    let run = run_with(input, output, &mut line);
    say(run, &line);
    run
}

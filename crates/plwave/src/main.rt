// Writes a Value Change Dump (IEEE 1364) of a run: it reads what plrun reads, and shows each tick
// that ran as one unit of time. An idle tick takes no time.
//
// The first tick's values are written whole, and after it those that changed. A tick without a
// change writes nothing; the time after the last tick is written at the end, so that a viewer shows
// it as long as the others. Before it are comments on lines that were refused, or not entered;
// viewers do not show them, so the error output has them too. What a tick writes is a definition,
// `changes`; no contract can say what is written. All goes to standard output by the buffer.
//
// The wires of a card of n cells, in order: the levels of the sixteen connectors, what the card
// drives, the outputs of the cells, and which of these woke, 32 + 2n in all.
#![tactic(auto)]

ghost use Rattle.std.specs.Prelude.{◌≡◌, ◌≤◌, ◌<◌, ◌+◌, length};
ghost use Rattle.std.proofs.lemmas.List.Edits.{sets};
ghost use Rattle.plwave.specs.Dump.{code_of, digit_of, change_of, changes, most_wires};

use card::place::cells_for;
use input::system::Source;
use phrases::names::connector;
use program::arguments::{Switch, read};
use program::report::Report;
use program::writer::{Writer, Written};
use session::feed::{Buffers, Feed};
use trace::notes::{Form, has_refused, has_rest, put_refused, put_rest};
use trace::{Shown, packed};

// The identifier of wire i at `at`, and the place after it: printable bytes, one for the first 94
// wires and two for the others.
fn put_code(out: &mut [u8], at: usize, i: u32) -> usize
    requires i_lt_most_wires { i < most_wires }
    requires at_in_bounds { at + 2 ≤ length out.old }
    ensures out_after { out.new ≡ sets out.old at (code_of i) }
    ensures value { result ≡ at + length (code_of i) }
    ensures upper_bound { result ≤ at + 2 }
{
    if i < 94 {
        let one = [33 + i as u8];
        return text::copy(out, at, &one);
    }
    let two = [33 + (i - 94) as u8, b'!'];
    text::copy(out, at, &two)
}

// ---- the header

fn put_connector(out: &mut Writer, k: u8) -> Written {
    out.put(&connector(k))
}

// The name of wire i of a card of n cells. It says what is driven, since some viewers show no
// scopes.
fn put_name(out: &mut Writer, i: u32, n: u32) -> Written
    requires n_bound { n ≤ 32 }
    requires i_lt_most_wires { i < most_wires }
{
    if i < 16 {
        return put_connector(out, i as u8);
    }
    if i < 32 {
        out.put(b"drive_")?;
        return put_connector(out, (i - 16) as u8);
    }
    if i < 32 + n {
        return out.put_with(b"cell", i as u64 - 31, b"");
    }
    out.put_with(b"woken", (i - n) as u64 - 31, b"")
}

fn put_wire(out: &mut Writer, i: u32, n: u32) -> Written
    requires n_bound { n ≤ 32 }
    requires i_lt_most_wires { i < most_wires }
{
    let mut code = [0u8; 2];
    let len = put_code(&mut code, 0, i);
    out.put(b"$var wire 1 ")?;
    out.put(&code[0..len])?;
    out.put_byte(b' ')?;
    put_name(out, i, n)?;
    out.put(b" $end\n")
}

fn put_wires(out: &mut Writer, from: u32, to: u32, n: u32) -> Written
    requires from_le_to { from ≤ to }
    requires to_le_most_wires { to ≤ most_wires }
    requires n_bound { n ≤ 32 }
{
    for i in from..to {
        put_wire(out, i, n)?;
    }
    Ok(())
}

fn put_scope(out: &mut Writer, name: &[u8]) -> Written {
    out.put(b"$scope module ")?;
    out.put(name)?;
    out.put(b" $end\n")
}

fn end_scope(out: &mut Writer) -> Written {
    out.put(b"$upscope $end\n")
}

// A scope with some of the wires of a card of n cells.
fn put_group(out: &mut Writer, name: &[u8], from: u32, to: u32, n: u32) -> Written
    requires from_le_to { from ≤ to }
    requires to_le_most_wires { to ≤ most_wires }
    requires n_bound { n ≤ 32 }
{
    put_scope(out, name)?;
    put_wires(out, from, to, n)?;
    end_scope(out)
}

fn put_connector_groups(out: &mut Writer, cells: u8) -> Written {
    let n = cells_for(cells) as u32;
    put_group(out, b"front", 0, 8, n)?;
    put_group(out, b"backplane", 8, 16, n)?;
    put_group(out, b"driven", 16, 32, n)
}

fn put_cell_groups(out: &mut Writer, cells: u8) -> Written {
    let n = cells_for(cells) as u32;
    let woken = 32 + n;
    let end = woken + n;
    put_group(out, b"cells", 32, woken, n)?;
    put_group(out, b"woken", woken, end, n)
}

// It is written at once, so that an output that takes nothing ends the program before it reads.
fn put_header(out: &mut Writer, cells: u8) -> Written {
    out.put(b"$version plwave $end\n")?;
    out.put(b"$comment one unit of time is one tick that ran $end\n$timescale 1 us $end\n")?;
    put_scope(out, b"card")?;
    put_connector_groups(out, cells)?;
    put_cell_groups(out, cells)?;
    end_scope(out)?;
    out.put(b"$enddefinitions $end\n")?;
    out.flush()
}

// ---- ticks

fn digit(b: bool) -> u8
    ensures { result ≡ digit_of b }
{
    if b { b'1' } else { b'0' }
}

// The value of wire i at `at`, where it is shown, and the place after it.
fn put_change(out: &mut [u8], at: usize, i: u32, shown: bool, b: bool) -> usize
    requires i_lt_most_wires { i < most_wires }
    requires at_in_bounds { at + 4 ≤ length out.old }
    ensures out_after { out.new ≡ sets out.old at (change_of i shown b) }
    ensures value { result ≡ at + length (change_of i shown b) }
    ensures upper_bound { result ≤ at + 4 }
{
    if !shown {
        return at;
    }
    let value = [digit(b)];
    let code = text::copy(out, at, &value);
    let end = put_code(out, code, i);
    text::copy(out, end, b"\n")
}

// The first `count` bits of a word that are in a set, as values of the wires from `from` on, to the
// front of `out`. The result is how many bytes they take.
fn put_changes(out: &mut [u8], word: u64, set: u64, from: u32, count: u32) -> usize
    requires count_bound { count ≤ 64 }
    requires count_bound_2 { from + count ≤ most_wires }
    requires out_len { length out.old ≡ 256 }
    ensures out_after { out.new ≡ sets out.old 0 (changes from word set count) }
    ensures value { result ≡ length (changes from word set count) }
    ensures upper_bound { result ≤ length out.new }
{
    let mut at: usize = 0;
    for i in 0..count {
        at = put_change(out, at, from + i, words::bit(set, i), words::bit(word, i));
    }
    at
}

// The same, to the output.
fn put_bits(out: &mut Writer, word: u64, set: u64, from: u32, count: u32) -> Written
    requires count_bound { count ≤ 64 }
    requires count_bound_2 { from + count ≤ most_wires }
{
    let mut bits = [0u8; 256];
    let n = put_changes(&mut bits, word, set, from, count);
    out.put(&bits[0..n])
}

fn put_time(out: &mut Writer, t: u64) -> Written {
    out.put_with(b"#", t, b"\n")
}

// The wires of a tick: those but the last n, and the last n, those of the cells that woke.
#[derive(Clone, Copy)]
struct Values {
    waves: u64,
    woken: u64,
}

fn values_of(shown: Shown) -> Values {
    Values {
        waves: packed(shown),
        woken: shown.tick.answer.woken as u64,
    }
}

// Those that are in a set.
fn put_values(out: &mut Writer, now: Values, set: Values, cells: u8) -> Written {
    let n = cells_for(cells) as u32;
    put_bits(out, now.waves, set.waves, 0, 32 + n)?;
    put_bits(out, now.woken, set.woken, 32 + n, n)
}

// The first tick, whole.
fn put_first(out: &mut Writer, now: Values, cells: u8) -> Written {
    let all = Values {
        waves: u64::MAX,
        woken: u64::MAX,
    };
    put_time(out, 0)?;
    out.put(b"$dumpvars\n")?;
    put_values(out, now, all, cells)?;
    out.put(b"$end\n")
}

// A tick at time t, after one that showed `last`.
fn put_tick(out: &mut Writer, t: u64, now: Values, last: Values, cells: u8) -> Written {
    if t == 0 {
        return put_first(out, now, cells);
    }
    let set = Values {
        waves: now.waves ^ last.waves,
        woken: now.woken ^ last.woken,
    };
    if (set.waves | set.woken) == 0 {
        return Ok(());
    }
    put_time(out, t)?;
    put_values(out, now, set, cells)
}

// ---- the end

// The lines that were refused, as a comment.
fn put_refusals(out: &mut Writer, report: Report) -> Written {
    if !has_refused(report) {
        return Ok(());
    }
    out.put(b"$comment ")?;
    put_refused(out, report, Form::Wave)?;
    out.put(b" $end\n")
}

// A last line that was not entered.
fn put_unended(out: &mut Writer, report: Report) -> Written {
    if !has_rest(report) {
        return Ok(());
    }
    out.put(b"$comment ")?;
    put_rest(out, report, Form::Wave)?;
    out.put(b" $end\n")
}

// What no wave shows, the time after the last tick, and all that waits.
fn finish(out: &mut Writer, report: Report, t: u64) -> Written {
    put_refusals(out, report)?;
    put_unended(out, report)?;
    put_time(out, t)?;
    out.flush()
}

// The wave file of an input, of a card of 16 or 32 cells. Time has 64 bits, and the ticks after so
// many are left out. The feed is left where a write fails, or at the input's end.
fn put_wave(
    out: &mut Writer,
    feed: &mut Feed,
    input: &mut Source,
    buffers: &mut Buffers,
    cells: u8,
) -> Written {
    put_header(out, cells)?;
    let mut last = Values { waves: 0, woken: 0 };
    for t in 0..u64::MAX {
        let Some(shown) = trace::next(feed, input, buffers) else {
            return finish(out, feed.report, t);
        };
        let now = values_of(shown);
        put_tick(out, t, now, last, cells)?;
        last = now;
    }
    finish(out, feed.report, u64::MAX)
}

// A write that fails ends the program.
fn write_wave(input: &mut Source, cells: u8) {
    let mut buffers = Buffers::new();
    let mut out = Writer::new();
    let mut feed = Feed::new(cells);
    let _ = put_wave(&mut out, &mut feed, input, &mut buffers, cells);
    program::report::say(feed.report);
}

fn main(rt: HostRuntime) {
    let given = read(
        &rt,
        b"plwave reads lines of a card and ticks, and writes a wave file (Value Change Dump) of the ticks that ran.

usage: plwave [--cells 32] [FILE]     with no FILE it reads standard input

Each tick that ran is one unit of time; tick 1 is at time 0. Lines that were refused are reported in a comment at the end and on the error output.
--cells 32 is for a card of thirty-two cells.

    plwave first.lines > first.vcd
    gtkwave first.vcd examples/card.gtkw
",
        &[Switch::Cells],
    );
    if let Some(mut given) = given {
        let cells = given.cells;
        write_wave(&mut given.input, cells);
    }
}

// One line of input of a run: a tick, a load or a card line, and what it prints.
#![tactic(auto)]

pub mod feed; // the lines of an input, for every program but plrun
pub mod run; // the loop of plrun
mod step; // the next line of a feed

ghost use Rattle.std.specs.Prelude.{◌++◌, ◌≡◌, ◌≤◌, ◌<◌, ◌+◌, ◌-◌, length};
ghost use Rattle.std.proofs.lemmas.List.Edits.{sets};
ghost use Rattle.text.specs.Hex.{hex4};
ghost use Rattle.card.specs.Address.{cells_for};
ghost use Rattle.ticks.specs.Tick.{tick};
ghost use Rattle.session.specs.Session.{tick_line, cell_digits, tick_text, is_load_line, load_text, plain_reply};
ghost use Rattle.session.specs.Session.{longest_print, by_line, entered, event_of, refusal_of, Enters};
ghost use Rattle.lines.specs.Line.{shortest_reply, line_outcome};

use card::card::Card;
use card::limits::{CellWord, LARGE};
use lines::line::SHORTEST_REPLY;
use ticks::tick::{Answer, Ticked, full_tick, quick_tick};
use ticks::view::Input;

// `longest_print`: no line prints more.
pub const LONGEST_PRINT: usize = 36;

// A line that asks for a tick: its kind, and what comes in with it.
#[derive(Clone, Copy)]
pub struct TickLine {
    pub full: bool,
    pub input: Input,
}

// A tick that a line asked for: its kind, what came in with it, and the card's answer.
#[derive(Clone, Copy)]
pub struct TickDone {
    pub full: bool,
    pub input: Input,
    pub answer: Answer,
}

// What a line of input did: a tick; a load or a card line with 0 or the number of its refusal.
#[derive(Clone, Copy)]
pub enum Event {
    Tick(TickDone),
    Load(u8),
    Line(u8),
}

// The card after a line of input, what the line did, and how many bytes it prints.
#[derive(Clone, Copy)]
pub struct Entered {
    pub card: Card,
    pub event: Event,
    pub len: usize,
}

// The number of a line's refusal, or 0.
pub fn refusal_of(event: Event) -> u8
    ensures { result ≡ refusal_of event }
{
    match event {
        Event::Tick(_) => 0,
        Event::Load(k) => k,
        Event::Line(k) => k,
    }
}

// The line read as a tick, if it is one.
pub fn tick_line(text: &[u8]) -> Option<TickLine>
    ensures { result ≡ tick_line text.now }
{
    if text.len() != 15 {
        return None;
    }
    let code = text[2];
    let sample = text::hex4_at(text, 4);
    let attached = text::hex4_at(text, 9);
    let kind = text[14];
    let head = ((text[0] == b'T') & (text[1] == b' ')) & (text::is_digit(code) & (text[3] == b' '));
    let words = (sample.is_some() & (text[8] == b' ')) & (attached.is_some() & (text[13] == b' '));
    if head & (words & ((kind == b'F') | (kind == b'Q'))) {
        let input = Input {
            code: code - b'0',
            sample: sample.unwrap_or(0),
            attached: attached.unwrap_or(0),
        };
        Some(TickLine {
            full: kind == b'F',
            input: input,
        })
    } else {
        None
    }
}

// A part of the output: four hex digits and a byte after them.
fn put_word(out: &mut [u8], at: usize, w: u16, byte: &[u8]) -> usize
    requires at_in_bounds { at + 5 ≤ length out.old }
    requires byte_len { length byte.now ≡ 1 }
    ensures { (out.new ≡ sets out.old at (hex4 w ++ byte.now)) × (result ≡ at + 5) }
{
    let end = text::put_hex4(out, at, w);
    text::copy(out, end, byte)
}

// A word of the cells: eight digits of a large card, else four.
fn put_cells(out: &mut [u8], at: usize, w: CellWord, size: u8, byte: &[u8]) -> usize
    requires at_in_bounds { at + 9 ≤ length out.old }
    requires byte_len { length byte.now ≡ 1 }
    ensures out_after { (out.new ≡ sets out.old at (cell_digits (cells_for size) w ++ byte.now))
        × (result ≡ at + length (cell_digits (cells_for size) w ++ byte.now)) }
    ensures upper_bound { result ≤ at + 9 }
{
    if size == LARGE {
        let next = text::put_hex4(out, at, (w / 65536) as u16);
        return put_word(out, next, (w % 65536) as u16, byte);
    }
    put_word(out, at, (w % 65536) as u16, byte)
}

// What a tick of a card of this size prints.
fn put_tick(out: &mut [u8], a: Answer, size: u8) -> usize
    requires longest_print_in_bounds { longest_print ≤ length out.old }
    requires count_bound { a.count < 100 }
    ensures out_after { out.new ≡ sets out.old 0 (tick_text (cells_for size) a) }
    ensures value { result ≡ length (tick_text (cells_for size) a) }
    ensures upper_bound { result ≤ longest_print }
{
    if !a.ran {
        return text::copy(out, 0, b"T -\n");
    }
    let driven = text::copy(out, 0, b"T ");
    let cells = put_word(out, driven, a.driven, b" ");
    let woken = put_cells(out, cells, a.cells, size, b" ");
    let count = put_cells(out, woken, a.woken, size, b" ");
    let end = text::put_decimal(out, count, a.count);
    text::copy(out, end, b"\n")
}

// What a load prints.
fn put_load(out: &mut [u8], k: u8) -> usize
    requires { longest_print ≤ length out.old }
    ensures out_after { out.new ≡ sets out.old 0 (load_text k) }
    ensures value { result ≡ length (load_text k) }
    ensures upper_bound { result ≤ longest_print }
{
    if k == 0 {
        return text::copy(out, 0, b":A\n");
    }
    text::put_numbered(out, b":N-", k as u32, b"\n")
}

// n less m, and 0 where m is more.
fn without(n: usize, m: usize) -> usize
    ensures { result ≡ n - m }
{
    n.saturating_sub(m)
}

// A reply of a line, with LF in place of CR LF.
fn put_plain(out: &mut [u8], reply: &[u8]) -> usize
    requires reply_len_bound { length reply.now ≤ shortest_reply }
    requires longest_print_in_bounds { longest_print ≤ length out.old }
    ensures out_after { out.new ≡ sets out.old 0 (plain_reply reply.now) }
    ensures value { result ≡ length (plain_reply reply.now) }
    ensures upper_bound { result ≤ longest_print }
{
    let n = without(reply.len(), 2);
    let end = text::copy(out, 0, &reply[0..n]);
    text::copy(out, end, b"\n")
}

// A line that asks for a load of the store.
pub fn is_load(text: &[u8]) -> bool
    ensures { result ≡ is_load_line text.now }
{
    text.len() == 1 && text[0] == b'L'
}

// The tick that a line asks for.
pub fn do_tick(card: Card, t: TickLine) -> Ticked
    ensures { (result ≡ tick (cells_for card.size) t.full card t.input) × (result.answer.count < 100) }
{
    let input = t.input;
    if t.full {
        full_tick(card, input)
    } else {
        quick_tick(card, input)
    }
}

// A card line, with its reply in the place of the output.
fn enter_line(card: Card, text: &[u8], store: &mut [u8], out: &mut [u8]) -> Entered
    requires { longest_print ≤ length out.old }
    ensures { Enters (by_line (cells_for card.size) card text.now store.old)
        (Event.Line
        (line_outcome (cells_for card.size) card text.now shortest_reply (length store.old)).k)
        result store.new out.old out.new }
{
    let mut reply = [0u8; SHORTEST_REPLY];
    let a = lines::line::line(card, text, &mut reply, store);
    let n = a.len;
    let next = a.card;
    let event = Event::Line(a.k);
    let len = put_plain(out, &reply[0..n]);
    Entered {
        card: next,
        event: event,
        len: len,
    }
}

// One line of input, without its LF: a tick, a load of the store, or a card line. What it prints
// goes to the front of `out`, which needs room for the longest print.
pub fn enter(card: Card, text: &[u8], store: &mut [u8], out: &mut [u8]) -> Entered
    requires { longest_print ≤ length out.old }
    ensures { Enters (entered (cells_for card.size) card text.now store.old)
        (event_of (cells_for card.size) card text.now store.old)
        result store.new out.old out.new }
{
    if let Some(t) = tick_line(text) {
        let done = do_tick(card, t);
        let tick = TickDone {
            full: t.full,
            input: t.input,
            answer: done.answer,
        };
        return Entered {
            card: done.card,
            event: Event::Tick(tick),
            len: put_tick(out, done.answer, card.size),
        };
    }
    if is_load(text) {
        let loaded = saved::record::load(card, store);
        return Entered {
            card: loaded.card,
            event: Event::Load(loaded.k),
            len: put_load(out, loaded.k),
        };
    }
    enter_line(card, text, store, out)
}

// Runs a rig of cards on one backplane. Each line of the input is a call on a row of cards, and
// each has a line of output:
//     rack N, rack N 32   makes a row of N fresh cards of sixteen cells, 0 to 5, or with thirty-two
//                         in the last of them, and prints `ok`
//     start               a start; prints the number
//     line C R TEXT       a line to card C with a reply buffer of R bytes, up to 99; prints the
//                         number, the reply's length and the reply
//     load C RECORD       a load of a record in hex to card C, - for no bytes; prints the number
//     tick CODE F|Q ..    a tick: sample and attached of the backplane, then of each front; prints
//                         the number, and where it is 0 the answers
// A line of another form, and one of more than 640 bytes, prints `?`, and the error output says
// what form was expected. Bytes after the last LF are dropped, and the program says so.
#![tactic(auto)]

mod fields; // the fields of a call

ghost use Rattle.std.specs.Prelude.{◌≤◌, length};

use card::card::{Card, fresh_of};
use card::limits::{LARGE, SMALL};
use fields::{RECORD, REPLY, digit, fronts, number, pair, record};
use input::system::{STDERR, STDOUT, Source};
use input::{BLOCK, Found, each_line};
use rack::rack_calls::{rack_line, rack_load, rack_start, rack_tick};
use rack::row::start_card;
use rack::supply::HELD;
use rack::tick::RackInput;
use saved::record::RECORD_LENGTH;
use ticks::tick::Answer;

// One card more than a rack may have.
const ROOM: usize = HELD;

// The longest line that is kept whole, and the longest that is taken.
const KEPT: usize = 644;

const LONGEST: usize = 640;

const BUFFER: usize = KEPT + BLOCK;

// A line of another form: which was expected.
#[derive(Clone, Copy)]
enum Expected {
    Shorter,
    Call,
    Rack,
    Start,
    Tick,
    Line,
    Load,
}

impl Expected {
    fn form(self) -> &'static [u8] {
        match self {
            Expected::Shorter => b"at most 640 bytes",
            Expected::Call => b"a call begins with rack, start, line, load or tick",
            Expected::Rack => b"rack N, or rack N 32, with N from 0 to 5",
            Expected::Start => b"start, and nothing after it",
            Expected::Tick => {
                b"tick CODE F, or tick CODE Q, then sample and attached of the backplane and of each front, two digits in hex each"
            }
            Expected::Line => b"line CARD ROOM TEXT, with two numbers in decimals",
            Expected::Load => { b"load CARD RECORD, with the record's bytes in hex, or - for none" }
        }
    }
}

// The cards, of which the first n are the row.
#[derive(Drop)]
struct Rig {
    cards: [Card; ROOM],
    n: usize,
}

impl Rig {
    fn row(&mut self) -> &mut [Card] {
        let n = self.n.min(ROOM);
        &mut self.cards[..n]
    }
}

fn put(text: &[u8]) {
    io::write_all(STDOUT, text);
}

fn put_number(v: u64) {
    io::print_decimal(STDOUT, v);
}

// ---- the calls: what each answers is printed but for its last piece, which it gives back

fn make(rig: &mut Rig, fields: &[u8]) -> Result<&'static [u8], Expected> {
    let (count, large) = match fields {
        [count] => (*count, false),
        [count, b' ', b'3', b'2'] => (*count, true),
        _ => return Err(Expected::Rack),
    };
    let n = digit(count).ok_or(Expected::Rack)? as usize;
    if ROOM < n {
        return Err(Expected::Rack);
    }
    rig.cards = [fresh_of(SMALL); ROOM];
    rig.n = n;
    if large && 0 < n {
        rig.cards[n - 1] = fresh_of(LARGE);
    }
    Ok(b"ok\n")
}

fn start(rig: &mut Rig, fields: &[u8]) -> Result<&'static [u8], Expected> {
    if !fields.is_empty() {
        return Err(Expected::Start);
    }
    put_number(rack_start(rig.row()) as u64);
    Ok(b"\n")
}

fn put_word(v: u32) {
    put(b" ");
    io::print_hex(STDOUT, v as u64, 4);
}

fn put_answer(a: Answer) {
    put(b";T");
    if a.ran {
        put_word(a.driven as u32);
        put_word(a.cells);
        put_word(a.woken);
        put(b" ");
        put_number(a.count as u64);
    } else {
        put(b" -");
    }
}

// Whether a tick is a full one, and what comes in with it.
fn tick_input(fields: &[u8]) -> Option<(bool, RackInput)> {
    let [code, b' ', kind, pairs @ ..] = fields else {
        return None;
    };
    let full = match *kind {
        b'F' => true,
        b'Q' => false,
        _ => return None,
    };
    let code = digit(*code)?;
    if 10 <= code {
        return None;
    }
    let back = pair(pairs.get(..6)?)?;
    let (count, fronts) = fronts(pairs.get(6..)?)?;
    let input = RackInput {
        code,
        sample: back.sample,
        attached: back.attached,
        count,
        fronts,
    };
    Some((full, input))
}

fn tick(rig: &mut Rig, fields: &[u8]) -> Result<&'static [u8], Expected> {
    let (full, input) = tick_input(fields).ok_or(Expected::Tick)?;
    let ticked = rack_tick(rig.row(), full, input);
    put_number(ticked.k as u64);
    if ticked.k == 0 {
        for answer in ticked.answers.iter().take(rig.n) {
            put_answer(*answer);
        }
    }
    Ok(b"\n")
}

// A reply without its CR and LF, and what comes before it.
fn put_reply(k: u8, len: usize, reply: &[u8]) {
    put_number(k as u64);
    put(b" ");
    put_number(len as u64);
    put(b" ");
    if len < 2 || reply.len() < len {
        put(b"-");
    } else {
        put(&reply[..len - 2]);
    }
}

fn line_to(rig: &mut Rig, fields: &[u8]) -> Result<&'static [u8], Expected> {
    let (card, rest) = number(fields).ok_or(Expected::Line)?;
    let (room, text) = number(rest).ok_or(Expected::Line)?;
    let size = room.min(REPLY as u64) as usize;
    let mut buffer = [0u8; REPLY];
    let reply = &mut buffer[..size];
    let mut store = [0u8; RECORD_LENGTH];
    let replied = rack_line(rig.row(), card as usize, text, reply, &mut store);
    put_reply(replied.k, replied.len, reply);
    Ok(b"\n")
}

fn load(rig: &mut Rig, fields: &[u8]) -> Result<&'static [u8], Expected> {
    let (card, rest) = number(fields).ok_or(Expected::Load)?;
    let mut bytes = [0u8; RECORD];
    let len = record(rest, &mut bytes).ok_or(Expected::Load)?;
    put_number(rack_load(rig.row(), card as usize, &bytes[..len]) as u64);
    Ok(b"\n")
}

fn call(rig: &mut Rig, line: &[u8]) -> Result<&'static [u8], Expected> {
    if LONGEST < line.len() {
        return Err(Expected::Shorter);
    }
    if let Some(fields) = line.strip_prefix(b"rack ") {
        make(rig, fields)
    } else if let Some(fields) = line.strip_prefix(b"start") {
        start(rig, fields)
    } else if let Some(fields) = line.strip_prefix(b"tick ") {
        tick(rig, fields)
    } else if let Some(fields) = line.strip_prefix(b"line ") {
        line_to(rig, fields)
    } else if let Some(fields) = line.strip_prefix(b"load ") {
        load(rig, fields)
    } else {
        Err(Expected::Call)
    }
}

// A call and its answer, whose last piece is written with a check: whether that went.
fn answer(rig: &mut Rig, line: &[u8]) -> bool {
    match call(rig, line) {
        Ok(last) => program::writer::write(last).is_ok(),
        Err(expected) => {
            io::write_all(STDERR, b"plrack: a line is refused: ");
            io::write_all(STDERR, expected.form());
            io::write_all(STDERR, b"\n");
            program::writer::write(b"?\n").is_ok()
        }
    }
}

// The calls of an input. A write that fails ends them.
fn run(input: &mut Source) {
    let mut block = [0u8; BUFFER];
    let mut line = [0u8; KEPT];
    let mut rig = Rig {
        cards: [start_card(); ROOM],
        n: 0,
    };
    each_line(input, &mut block, &mut line, |found, text| {
        if found == Found::Line {
            return answer(&mut rig, text);
        }
        if !text.is_empty() {
            io::write_all(
                STDERR,
                b"plrack: the last line has no LF, and is not taken\n",
            );
        }
        false
    });
}

fn main(rt: HostRuntime) {
    let given = program::arguments::read(
        &rt,
        b"plrack reads calls on up to four cards that share a backplane, and prints an answer for each.

usage: plrack [FILE]     with no FILE it reads standard input

    rack 2                             a row of two fresh cards (`rack 2 32`: the last with 32 cells)
    start                              a start: BNC1 to BNC8 of each become inputs
    line 1 99 M E=33                   a line to card 1, with room for a reply of 99 bytes
    load 1 RECORD                      a record in hex to card 1
    tick 0 Q 01 ff 00 ff 00 ff         clock, Full or Quick; sample and attached of the backplane and of each front

A call prints its number, 0 where it is accepted, and what it answers; a line of another form prints `?`.

    plrack examples/two-cards.rack
",
        &[],
    );
    if let Some(mut given) = given {
        run(&mut given.input);
    }
}

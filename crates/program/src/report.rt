// What a program reports of its input besides what it prints: the lines that the card refused, and
// a last line that has not ended, which is never entered.
//
// It says how many there were and which came first, on the error output.
ghost use Rattle.std.specs.Prelude.{◌≡◌};
ghost use Rattle.program.specs.Report.{text_of, one_more, after_line, after_first, at_end};

use input::LINE;
use input::system::STDERR;

// The first bytes of a line, all of one that a card takes.
#[derive(Clone, Copy)]
pub struct Text {
    pub bytes: [u8; LINE],
    pub len: usize,
}

// What is reported of the lines so far. Lines are counted from 1.
#[derive(Clone, Copy)]
pub struct Report {
    pub lines: u64,
    pub refused: u64,
    // the first one that was refused: its place among the lines, its refusal, and itself
    pub number: u64,
    pub k: u8,
    pub line: Text,
    // what comes after the last LF of the input
    pub rest: Text,
}

impl Text {
    pub fn as_slice(&self) -> &[u8] {
        &self.bytes[..self.len.min(LINE)]
    }
}

fn no_text() -> Text {
    let bytes = [0u8; LINE];
    Text {
        bytes: bytes,
        len: 0,
    }
}

pub fn text_of(line: &[u8]) -> Text
    ensures { result ≡ text_of line.now }
{
    let mut bytes = [0u8; LINE];
    let n = line.len().min(LINE);
    text::copy(&mut bytes, 0, &line[..n]);
    Text {
        bytes: bytes,
        len: n,
    }
}

// Before the first line.
pub fn none() -> Report
    ensures { (result.lines ≡ 0) × (result.refused ≡ 0) }
{
    let line = no_text();
    let rest = no_text();
    Report {
        lines: 0,
        refused: 0,
        number: 0,
        k: 0,
        line: line,
        rest: rest,
    }
}

// ---- a line

// One more, as far as there is room.
fn one_more(n: u64) -> u64
    ensures { result ≡ one_more n }
{
    if n < u64::MAX { n + 1 } else { n }
}

// The first line that was refused.
fn first_refused(report: Report, line: &[u8], k: u8) -> Report
    ensures { result ≡ after_first report line.now k }
{
    let text = text_of(line);
    let rest = report.rest;
    let number = one_more(report.lines);
    let refused = one_more(report.refused);
    Report {
        lines: number,
        refused: refused,
        number: number,
        k: k,
        line: text,
        rest: rest,
    }
}

// After a line that was entered: 0, or the number of its refusal.
pub fn after(report: Report, line: &[u8], k: u8) -> Report
    ensures { result ≡ after_line report line.now k }
{
    if k == 0 {
        let mut taken = report;
        taken.lines = one_more(report.lines);
        return taken;
    }
    if report.refused == 0 {
        return first_refused(report, line, k);
    }
    let mut later = report;
    later.lines = one_more(report.lines);
    later.refused = one_more(report.refused);
    later
}

// After the end of the input, with what comes after its last LF.
pub fn at_end(report: Report, rest: &[u8]) -> Report
    ensures { result ≡ at_end report rest.now }
{
    let text = text_of(rest);
    let line = report.line;
    Report {
        lines: report.lines,
        refused: report.refused,
        number: report.number,
        k: report.k,
        line: line,
        rest: text,
    }
}

// ---- what is said

// A byte that no line has is shown as `?`.
pub fn shown(b: u8) -> u8 {
    if (b < 32) | (126 < b) { b'?' } else { b }
}

fn say_bytes(bytes: &[u8]) {
    io::write_all(STDERR, bytes);
}

fn say_text(text: Text) {
    let mut shows = text;
    for b in shows.bytes.iter_mut() {
        *b = shown(*b);
    }
    say_bytes(shows.as_slice());
}

// "2 lines were refused; the first is line 7: 36CCA Y=99 (:N-7)"
fn say_refused(report: Report) {
    let line = report.line;
    if report.refused == 1 {
        say_bytes(b"1 line was refused; it is line ");
    } else {
        io::print_decimal(STDERR, report.refused);
        say_bytes(b" lines were refused; the first is line ");
    }
    io::print_decimal(STDERR, report.number);
    say_bytes(b": ");
    say_text(line);
    say_bytes(b" (:N-");
    io::print_decimal(STDERR, report.k as u64);
    say_bytes(b")\n");
}

// "The last line has no LF and was not entered: T 0 0100 ffff Q"
pub fn say_rest(rest: Text) {
    if rest.len == 0 {
        return;
    }
    say_bytes(b"The last line has no LF and was not entered: ");
    say_text(rest);
    say_bytes(b"\n");
}

// Both, where there is something to say.
pub fn say(report: Report) {
    if 0 < report.refused {
        say_refused(report);
    }
    let rest = report.rest;
    say_rest(rest);
}

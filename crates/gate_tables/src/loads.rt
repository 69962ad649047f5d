// Records that are loaded into fresh cards, or converted. A row of standard input is a record in
// small hex digits, two to a byte; `-`, or no digits, is a record of no bytes. `RECORD` is for a
// card of sixteen cells and `32 RECORD` for one of thirty-two. `ROOM RECORD` is a record to
// convert, with the length of the buffer for the result in four hex digits.
//
// A load prints `K SAVED`: its number, 0 where it is accepted, and the record that a save of the
// loaded card writes, `-` where the load was refused. A conversion prints `K LENGTH RESULT`, with 0
// and `-` where it is refused. A row of another form, of more than 1100 bytes, or with a buffer
// over 620 bytes prints `?`.
ghost use Rattle.std.specs.Prelude.{◌≤◌, ◌<◌, length, IfSome};

use crate::{put, put_field, put_number};
use card::limits::{LARGE, SMALL};
use input::system::{STDOUT, Source};
use input::{BLOCK, Found, each_line};

// The longest row of digits, the bytes that it says, and the longest buffer for a conversion.
const LONGEST_ROW: usize = 1100;

const MOST_BYTES: usize = 550;

const MOST_ROOM: usize = 620;

// The record of a card of thirty-two cells.
const STORE: usize = 516;

// More than the longest row, so that a longer one, cut to this, is still too long.
const KEPT: usize = 1104;

const BUFFER: usize = KEPT + BLOCK;

// ---- hex digits

fn digit(b: u8) -> Option<u8>
    ensures { IfSome result (λ d. d < 16) }
{
    match b {
        b'0'..=b'9' => Some(b - b'0'),
        b'a'..=b'f' => Some(b - b'a' + 10),
        _ => None,
    }
}

// The bytes that a row says, at the front of a buffer: how many they are.
fn bytes_in(row: &[u8], bytes: &mut [u8; MOST_BYTES]) -> Option<usize>
    ensures { IfSome result (λ n. n ≤ 550) }
{
    if matches!(row, [b'-']) {
        return Some(0);
    }
    if 2 * MOST_BYTES < row.len() {
        return None;
    }
    for (byte, digits) in bytes.iter_mut().zip(row.chunks(2)) {
        let [high, low] = digits else {
            return None;
        };
        *byte = digit(*high)? * 16 + digit(*low)?;
    }
    Some(row.len() / 2)
}

fn put_hex(bytes: &[u8]) {
    for byte in bytes {
        io::print_hex(STDOUT, u64::from(*byte), 2);
    }
}

// The first n bytes, or all where there are fewer.
fn put_front(bytes: &[u8], n: usize) {
    put_hex(&bytes[..n.min(bytes.len())]);
    put(b"\n");
}

// ---- a row

// The load of a record into a fresh card of a size.
fn put_load(bytes: &[u8], size: u8) {
    let loaded = saved::record::load(card::card::fresh_of(size), bytes);
    put_number(u64::from(loaded.k));
    if loaded.k != 0 {
        put(b" -\n");
        return;
    }
    let mut store = [0u8; STORE];
    saved::record::save(loaded.card, &mut store);
    put(b" ");
    put_front(&store, saved::record::record_length(size));
}

// The conversion of a record, with a buffer for the result.
fn put_conversion(bytes: &[u8], buffer: &mut [u8]) {
    let done = convert::convert(bytes, buffer);
    put_field(u64::from(done.k));
    put_field(done.len as u64);
    if done.k != 0 {
        put(b"-\n");
        return;
    }
    put_front(buffer, done.len);
}

// A load of the record that some digits say, unless they have another form.
fn put_record(digits: &[u8], size: u8) -> Option<()> {
    let mut bytes = [0u8; MOST_BYTES];
    let n = bytes_in(digits, &mut bytes)?;
    put_load(&bytes[..n], size);
    Some(())
}

// The conversion of the record that some digits say. The buffer is not empty, so that a byte of it
// which is no part of the result would show.
fn put_converted(room: u16, digits: &[u8]) -> Option<()> {
    let mut buffer = [165u8; MOST_ROOM];
    let room = buffer.get_mut(..room as usize)?;
    let mut bytes = [0u8; MOST_BYTES];
    let n = bytes_in(digits, &mut bytes)?;
    put_conversion(&bytes[..n], room);
    Some(())
}

// What a row comes to, unless it has another form.
fn put_answer(row: &[u8]) -> Option<()> {
    if LONGEST_ROW < row.len() {
        return None;
    }
    match row {
        [_, _, _, _, b' ', digits @ ..] => put_converted(text::hex4_at(row, 0)?, digits),
        [b'3', b'2', b' ', digits @ ..] => put_record(digits, LARGE),
        [_, _, b' ', ..] => None,
        _ => put_record(row, SMALL),
    }
}

fn put_row(row: &[u8]) {
    if put_answer(row).is_none() {
        put(b"?\n");
    }
}

// ---- the input

pub fn put_table(rt: &HostRuntime) {
    let mut block = [0u8; BUFFER];
    let mut row = [0u8; KEPT];
    let mut rows = Source::Standard(rt.stdin());
    each_line(&mut rows, &mut block, &mut row, |found, line| {
        if found == Found::Line {
            put_row(line);
        }
        true
    });
}

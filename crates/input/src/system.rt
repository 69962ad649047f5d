// What a program has of the system: what it reads, the two outputs by their numbers, and the words
// of a call that failed.
ghost use Rattle.std.specs.Prelude.{◌≤◌, length};

use std::fs::File;
use std::io::{Error, Stdin, Write};
use std_io::io::last_error;

// The standard output and the error output.
pub const STDOUT: i32 = 1;

pub const STDERR: i32 = 2;

// What a program reads.
#[derive(Drop)]
pub enum Source {
    Standard(Stdin),
    Named(File),
}

// The file of a name, opened to be read, if it can be. A name is UTF-8.
pub fn open_read(rt: &HostRuntime, name: &[u8]) -> Option<File> {
    let path = std::str::from_utf8(name).ok()?;
    std::fs::open(rt, path).ok()
}

// The most bytes of the words of an error.
const WORDS: usize = 128;

// What std writes after the words of an error: its number, which is not shown.
const NUMBER: &[u8] = b" (os error";

// Says on the error output what failed, and the system's words for why the last call failed.
pub fn fail(what: &[u8]) {
    let error = last_error();
    let mut text = [0u8; WORDS];
    let mut rest: &mut [u8] = &mut text;
    let _ = write!(rest, "{error}");
    let left = rest.len();
    let words = &text[..WORDS.saturating_sub(left)];
    let number = words.windows(NUMBER.len()).position(|w| w == NUMBER);
    io::write_all(STDERR, what);
    io::write_all(STDERR, b": ");
    io::write_all(STDERR, &words[..number.unwrap_or(words.len())]);
    io::write_all(STDERR, b"\n");
}

// A page: what is written of one line of input, piece by piece. A text with parts is a format, and
// each part a type with `Display`.
ghost use Rattle.std.specs.Prelude.{◌≡◌, ◌≤◌, ◌+◌, ℕ, List, [], ◌++◌, cond, leb, length, take};

use std::fmt;
use std::fmt::{Display, Write};
use std::marker::Model;

// Room for all that is written of one line of input: of a tick at most 55 lines, each below 300
// bytes, and 208 hints, each below 200; of a preset or a load at most 86 lines.
pub const ROOM: usize = 65536;

// The bytes that are written so far. A contract sees them alone.
#[derive(Clone, Drop)]
pub struct Page {
    bytes: [u8; ROOM],
    len: usize,
}

impl Model for Page {
    ghost Value = { List ℕ };

    ghost view = { λ p. take p.len p.bytes };

    ghost invariant = { λ p. p.len ≤ 65536 };
}

impl Page {
    pub fn new() -> Self
        ensures { result ≡ [] }
    {
        Page {
            bytes: [0; ROOM],
            len: 0,
        }
    }

    // The page is empty again.
    pub fn clear(&mut self)
        ensures { self.new ≡ [] }
    {
        self.len = 0;
    }

    pub fn len(&self) -> usize
        ensures { result ≡ length self.now }
    {
        self.bytes().len()
    }

    pub fn bytes(&self) -> &[u8]
        ensures { result.now ≡ self.now }
    {
        &self.bytes[..self.len]
    }

    // A piece after what is written. One that has no room is left out whole.
    pub fn put(&mut self, piece: &[u8])
        ensures { self.new ≡ cond (leb (length self.old + length piece.now) 65536) (self.old ++ piece.now) self.old }
    {
        let end = self.len + piece.len();
        if end <= ROOM {
            self.len = text::copy(&mut self.bytes, self.len, piece);
        }
    }

    // A text after what is written: a `&str`, a name, or a format with its parts.
    pub fn say<T: Display + Drop>(&mut self, text: T) {
        let _ = write!(self, "{text}");
    }

    // What goes before each item of a list but the first. The list begins at a place.
    pub fn separate(&mut self, first: usize, separator: &[u8])
        ensures { length self.old ≡ first → self.new ≡ self.old }
    {
        if self.len != first {
            self.put(separator);
        }
    }
}

// A page takes every text.
impl fmt::Write for Page {
    fn write_str(&mut self, text: &str) -> fmt::Result {
        self.put(text.as_bytes());
        Ok(())
    }
}

// Whether a line may have a byte.
fn is_plain(byte: u8) -> bool {
    matches!(byte, b' '..=b'~')
}

// How many bytes of a line are shown at once: one by one they cost three times as much.
const PART: usize = 128;

// A line of input, or of a file, as it is shown: a byte that no line has is `?`.
#[derive(Clone, Copy)]
pub struct Shown<'a>(pub &'a [u8]);

impl Display for Shown<'_> {
    fn fmt<W: fmt::Write>(&self, f: &mut fmt::Formatter<W>) -> fmt::Result {
        for part in self.0.chunks(PART) {
            let mut shown = [b'?'; PART];
            for (to, byte) in shown.iter_mut().zip(part) {
                if is_plain(*byte) {
                    *to = *byte;
                }
            }
            let text = str::from_utf8(&shown[..part.len().min(PART)]).map_err(|_| fmt::Error)?;
            f.write_str(text)?;
        }
        Ok(())
    }
}

// The low 32 bits of a number of a line; all of it where it was not refused with 4.
pub fn low(v: u64) -> u32 {
    (v % 4294967296) as u32
}

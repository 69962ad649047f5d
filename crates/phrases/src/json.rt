// Pieces of JSON (RFC 8259), for the rows that a machine reads.
use std::fmt;

// A string. A byte that is no printable ASCII is the character of that number, so that a row is
// ASCII whatever the input has.
#[derive(Clone, Copy)]
pub struct Quoted<'a>(pub &'a [u8]);

impl fmt::Display for Quoted<'_> {
    fn fmt<W: fmt::Write>(&self, f: &mut fmt::Formatter<W>) -> fmt::Result {
        f.write_str("\"")?;
        for byte in self.0 {
            let b = *byte;
            match b {
                b'"' | b'\\' => write!(f, "\\{}", b as char)?,
                b' '..=b'~' => f.write_char(b as char)?,
                _ => write!(f, "\\u{b:04x}")?,
            }
        }
        f.write_str("\"")
    }
}

// What a picture says of its input: the lines that the card refused, and a last line that has not
// ended (`program::report`).
//
// What a line holds is shown byte by byte, so that it does not break the picture or the wave file:
// `Form` says where it is shown.
use program::report::{Report, Text, shown};
use program::writer::{Writer, Written};

// Where a line is shown: in XML, or in a comment of a wave file.
#[derive(Clone, Copy)]
pub enum Form {
    Picture,
    Wave,
}

// A byte in XML.
fn put_in_picture(out: &mut Writer, b: u8) -> Written {
    match b {
        b'&' => out.put(b"&amp;"),
        b'<' => out.put(b"&lt;"),
        b'>' => out.put(b"&gt;"),
        _ => out.put_byte(b),
    }
}

// In a comment, which ends at the word `$end`.
fn put_in_wave(out: &mut Writer, b: u8) -> Written {
    if b == b'$' {
        return out.put(b"?");
    }
    out.put_byte(b)
}

// A byte of a line.
fn put_shown(out: &mut Writer, b: u8, form: Form) -> Written {
    let b = shown(b);
    match form {
        Form::Picture => put_in_picture(out, b),
        Form::Wave => put_in_wave(out, b),
    }
}

fn put_bytes(out: &mut Writer, bytes: &[u8], form: Form) -> Written {
    for b in bytes {
        put_shown(out, *b, form)?;
    }
    Ok(())
}

fn put_text(out: &mut Writer, text: Text, form: Form) -> Written {
    put_bytes(out, text.as_slice(), form)
}

// Whether there is something to say of refused lines, and of a last one.
pub fn has_refused(report: Report) -> bool {
    0 < report.refused
}

pub fn has_rest(report: Report) -> bool {
    let rest = report.rest;
    0 < rest.len
}

// How many there were.
fn put_count(out: &mut Writer, n: u64) -> Written {
    if n == 1 {
        return out.put(b"1 line was refused; it is line ");
    }
    out.put_with(b"", n, b" lines were refused; the first is line ")
}

// "2 lines were refused; the first is line 7: 36CCA Y=99 (:N-7)"
pub fn put_refused(out: &mut Writer, report: Report, form: Form) -> Written {
    put_count(out, report.refused)?;
    out.put_with(b"", report.number, b": ")?;
    put_text(out, report.line, form)?;
    out.put_with(b" (:N-", report.k as u64, b")")
}

// "The last line has no LF and was not entered: T 0 0100 ffff Q"
pub fn put_rest(out: &mut Writer, report: Report, form: Form) -> Written {
    out.put(b"The last line has no LF and was not entered: ")?;
    put_text(out, report.rest, form)
}

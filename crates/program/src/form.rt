// Inputs of a form that no program but plrun takes: text with another line end than LF, with a byte
// order mark, of two bytes a character, or with blanks at the end of a line. Its lines would all be
// refused, so a program says what the file is and what to do, and stops.
use input::system::STDERR;

#[derive(Clone, Copy, Debug, PartialEq, Eq)]
pub enum Form {
    CrLf,
    ByteOrderMark,
    Utf16,
    BlankAtEnd,
}

// The form by how an input begins.
fn form_of_start(line: &[u8]) -> Option<Form> {
    match line {
        [0xff, 0xfe, ..] | [0xfe, 0xff, ..] => Some(Form::Utf16),
        [0, ..] | [_, 0, ..] => Some(Form::Utf16),
        [0xef, 0xbb, 0xbf, ..] => Some(Form::ByteOrderMark),
        _ => None,
    }
}

// The form by how a line ends.
fn form_of_end(line: &[u8]) -> Option<Form> {
    match line {
        [.., b'\r'] => Some(Form::CrLf),
        [.., b' ' | b'\t'] => Some(Form::BlankAtEnd),
        _ => None,
    }
}

// The form that a line shows, without its LF; lines are counted from 1. There is none where lines
// are as the card takes them, as far as this one shows.
pub fn form_of(line: &[u8], number: u64) -> Option<Form> {
    let start = if number == 1 {
        form_of_start(line)
    } else {
        None
    };
    start.or(form_of_end(line))
}

fn say(text: &[u8]) {
    io::write_all(STDERR, text);
}

fn say_line(number: u64, text: &[u8]) {
    say(b"line ");
    io::print_decimal(STDERR, number);
    say(text);
}

// Says what the file is and what to do, with the line that shows it.
pub fn say_form(form: Form, number: u64) {
    match form {
        Form::CrLf => say_line(
            number,
            b": lines end with CR LF: save with Unix line ends, or take the CR out by tr -d '\\r'\n",
        ),
        Form::ByteOrderMark => say(
            b"the file begins with a byte order mark: save it as plain text without one\n",
        ),
        Form::Utf16 => say(
            b"the file has two bytes for each character (UTF-16): save it as plain text, or convert it by iconv -f UTF-16 -t ASCII\n",
        ),
        Form::BlankAtEnd => say_line(
            number,
            b" ends with a blank: take it out, or all of them by sed 's/[[:blank:]]*$//'\n",
        ),
    }
}

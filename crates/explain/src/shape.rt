// What a line of a transcript is: `> ` and a line of the card, an answer, a remark after `#`, or a
// line of the card without `> `.
ghost use Rattle.std.specs.Prelude.{◌≤◌, length};

// The place of the first `#` that has a blank, or nothing, before it; else the line's end.
fn remark_start(text: &[u8]) -> usize
    ensures { result ≤ length text.now }
{
    let mut before = b' ';
    for (i, b) in text.iter().enumerate() {
        if (*b == b'#') & (before == b' ') {
            return i;
        }
        before = *b;
    }
    text.len()
}

// A line without its remark and the blanks there, or without the blanks at its end.
pub fn plain(text: &[u8]) -> &[u8] {
    let mut rest = &text[..remark_start(text)];
    while let [front @ .., b' '] = rest {
        rest = front;
    }
    rest
}

// Whether a line ends in a blank that is no part of a remark.
pub fn ends_blank(text: &[u8]) -> bool {
    (remark_start(text) == text.len()) & text.ends_with(b" ")
}

// Whether a line is an input of a transcript: `> ` and the line, or `>` alone for an empty one.
pub fn is_input(text: &[u8]) -> bool {
    matches!(text, b">" | [b'>', b' ', ..])
}

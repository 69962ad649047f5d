// 2: a line of another form or length. What a line has that no line may have is reported, each
// thing by itself; where there is none, the forms are.
use crate::page::Page;
use std::fmt;

// ---- faults

// What a line can have.
#[derive(Clone, Copy, PartialEq, Eq)]
enum Fault {
    Empty,
    TooLong,
    OrderMark,
    Returned,
    Remark,
    Transcript,
    FirstBlank,
    LastBlank,
    TwoBlanks,
    OddByte,
    Small,
    LeadingZero,
    LongNumber,
    Several,
    Twice,
    Sourced,
    Addressed,
    Bare,
    ShortAddress,
    Parted,
}

// All of them, in the order in which they are reported.
const FAULTS: [Fault; 20] = [
    Fault::Empty,
    Fault::TooLong,
    Fault::OrderMark,
    Fault::Returned,
    Fault::Remark,
    Fault::Transcript,
    Fault::FirstBlank,
    Fault::LastBlank,
    Fault::TwoBlanks,
    Fault::OddByte,
    Fault::Small,
    Fault::LeadingZero,
    Fault::LongNumber,
    Fault::Several,
    Fault::Twice,
    Fault::Sourced,
    Fault::Addressed,
    Fault::Bare,
    Fault::ShortAddress,
    Fault::Parted,
];

impl fmt::Display for Fault {
    fn fmt<W: fmt::Write>(&self, f: &mut fmt::Formatter<W>) -> fmt::Result {
        f.write_str(match self {
            Fault::Empty => "the line is empty. Leave it out",
            Fault::TooLong => "the line is longer than 80 bytes",
            Fault::OrderMark => "the line begins with a byte-order mark. Save the file without one",
            Fault::Returned => "the line ends in CR. Save the file with LF line ends",
            Fault::Remark => {
                "the card takes no remarks. Leave out the #, what stands behind it, and blanks before it"
            }
            Fault::Transcript => "this is a line of a transcript, with its >. plcheck reads these",
            Fault::FirstBlank => "the line begins with a blank",
            Fault::LastBlank => "the line ends in a blank",
            Fault::TwoBlanks => "the line has two blanks side by side",
            Fault::OddByte => {
                "the line has a byte that no line has, shown as ?: a tab, say, or a letter outside ASCII"
            }
            Fault::Small => "the line has small letters. Commands are written in capitals",
            Fault::LeadingZero => "a number has a leading 0. Leave it out",
            Fault::LongNumber => "a number has more than 10 digits",
            Fault::Several => "CCA takes one letter. CCB sets several slots in one line",
            Fault::Twice => "a letter stands twice in the line. Give each slot once",
            Fault::Sourced => {
                "only the source page has this form. The card cannot be asked for this"
            }
            Fault::Addressed => "M, W, PM, HOME and ! have no address before them",
            Fault::Bare => "the card's address goes before the command: write 36 there",
            Fault::ShortAddress => "an address has two digits. This card's is 36",
            Fault::Parted => "no blank stands between the address 36 and the command",
        })
    }
}

// ---- bytes

// The most digits of a number.
const DIGITS: u8 = 10;

// The letters that were given a number.
#[derive(Clone, Copy, Default)]
struct Given {
    x: bool,
    y: bool,
    z: bool,
    f: bool,
}

impl Given {
    // Whether the letter was given one, where a byte is a letter.
    fn letter(&mut self, b: u8) -> Option<&mut bool> {
        match b {
            b'X' => Some(&mut self.x),
            b'Y' => Some(&mut self.y),
            b'Z' => Some(&mut self.z),
            b'F' => Some(&mut self.f),
            _ => None,
        }
    }

    fn any(self) -> bool {
        self.x | self.y | self.z | self.f
    }
}

// What the bytes of a line up to one of them have.
#[derive(Clone, Copy, Default)]
struct Marks {
    // the byte before, how many digits of a number end there, and whether that number starts with 0
    before: u8,
    digits: u8,
    led: bool,
    given: Given,
    // the faults that single bytes show, and that a second letter is given a number
    remark: bool,
    odd_byte: bool,
    two_blanks: bool,
    small: bool,
    leading_zero: bool,
    long_number: bool,
    twice: bool,
    second: bool,
}

impl Marks {
    // The digits of a number up to this byte. A number comes after `=`. They are counted up to what
    // shows that there are too many.
    fn take_digit(&mut self, b: u8) {
        let first = self.before == b'=';
        if !text::is_digit(b) | !(first | (0 < self.digits)) {
            self.digits = 0;
            return;
        }
        if first {
            self.digits = 1;
            self.led = b == b'0';
            return;
        }
        self.leading_zero |= self.led;
        if self.digits < DIGITS {
            self.digits += 1;
        } else {
            self.long_number = true;
        }
    }

    // The letter before this byte is given a number.
    fn take_letter(&mut self) {
        self.second |= self.given.any();
        if let Some(given) = self.given.letter(self.before) {
            self.twice |= *given;
            *given = true;
        }
    }

    // A byte more.
    fn take(&mut self, b: u8) {
        self.take_digit(b);
        if b == b'=' {
            self.take_letter();
        }
        self.remark |= b == b'#';
        self.odd_byte |= (b < 32) | (126 < b);
        self.two_blanks |= (b == b' ') & (self.before == b' ');
        self.small |= b.is_ascii_lowercase();
        self.before = b;
    }
}

// What a line has.
fn marks_of(text: &[u8]) -> Marks {
    let mut marks = Marks::default();
    for b in text {
        marks.take(*b);
    }
    marks
}

// ---- words

// Whether a line was to move the pointer, well formed or not.
pub fn is_move(text: &[u8]) -> bool {
    let plain = text.starts_with(b"M") | text.starts_with(b"36M");
    let small = text.starts_with(b"m") | text.starts_with(b" m");
    (plain | small) | (text.starts_with(b" M") | text.starts_with(b"\xef\xbb\xbfM"))
}

// A command without an address that has one.
fn is_addressed(text: &[u8]) -> bool {
    let moves = text.starts_with(b"36M ") | text.starts_with(b"36W ");
    let homes = text.starts_with(b"36HOME") | text.starts_with(b"36!");
    (moves | homes) | text.starts_with(b"36PM ")
}

// A command of the card that has no address.
fn is_bare(text: &[u8]) -> bool {
    let settings = text.starts_with(b"CCA ") | text.starts_with(b"CCB ");
    settings | text.starts_with(b"RDADC ") | text.starts_with(b"SS ")
}

// A command after an address of one digit.
fn is_short(text: &[u8]) -> bool {
    match text {
        [first, second, ..] => text::is_digit(*first) & !text::is_digit(*second),
        _ => false,
    }
}

// ---- the faults of a line

// What a line is. A remark and a line of a transcript are reported alone.
#[derive(Clone, Copy, PartialEq, Eq)]
enum Kind {
    Empty,
    TooLong,
    Remark,
    Transcript,
    Tick,
    Command,
}

// A line: what it is, what it has between a byte-order mark and a CR, and whether it has these.
#[derive(Clone, Copy)]
struct Line<'a> {
    kind: Kind,
    body: &'a [u8],
    marks: Marks,
    order_mark: bool,
    returned: bool,
}

// What a line is that has these bytes between a byte-order mark and a CR.
fn kind_of(text: &[u8], body: &[u8], marks: Marks) -> Kind {
    if text.is_empty() {
        return Kind::Empty;
    }
    if 80 < text.len() {
        return Kind::TooLong;
    }
    if marks.remark {
        return Kind::Remark;
    }
    match body.first() {
        Some(b'>') => Kind::Transcript,
        Some(b'T') => Kind::Tick,
        _ => Kind::Command,
    }
}

fn line_of(text: &[u8]) -> Line<'_> {
    let unmarked = text.strip_prefix(b"\xef\xbb\xbf").unwrap_or(text);
    let body = unmarked.strip_suffix(b"\r").unwrap_or(unmarked);
    let marks = marks_of(body);
    Line {
        kind: kind_of(text, body, marks),
        body,
        marks,
        order_mark: unmarked.len() < text.len(),
        returned: body.len() < unmarked.len(),
    }
}

impl Line<'_> {
    fn has(&self, fault: Fault) -> bool {
        match self.kind {
            Kind::Empty => fault == Fault::Empty,
            Kind::TooLong => fault == Fault::TooLong,
            Kind::Remark => (fault == Fault::Remark) | self.ends_so(fault),
            Kind::Transcript => (fault == Fault::Transcript) | self.ends_so(fault),
            Kind::Tick => self.has_byte(fault) | self.ends_so(fault),
            Kind::Command => self.is_miswritten(fault) | self.has_byte(fault) | self.ends_so(fault),
        }
    }

    // What is before and after the bytes of any line.
    fn ends_so(&self, fault: Fault) -> bool {
        match fault {
            Fault::OrderMark => self.order_mark,
            Fault::Returned => self.returned,
            _ => false,
        }
    }

    // What a tick can have too: blanks and odd bytes.
    fn has_byte(&self, fault: Fault) -> bool {
        match fault {
            Fault::FirstBlank => self.body.starts_with(b" "),
            Fault::LastBlank => self.body.ends_with(b" "),
            Fault::TwoBlanks => self.marks.two_blanks,
            Fault::OddByte => self.marks.odd_byte,
            _ => false,
        }
    }

    // What a command alone can have. Several letters after CCA are reported, and not that one
    // stands there twice.
    fn is_miswritten(&self, fault: Fault) -> bool {
        let several = self.marks.second && self.body.starts_with(b"36CCA ");
        match fault {
            Fault::Small => self.marks.small,
            Fault::LeadingZero => self.marks.leading_zero,
            Fault::LongNumber => self.marks.long_number,
            Fault::Several => several,
            Fault::Twice => self.marks.twice & !several,
            Fault::Sourced => matches!(self.body, b"PM E?" | b"36CCA X?" | b"36RDADC F?"),
            Fault::Addressed => is_addressed(self.body),
            Fault::Bare => is_bare(self.body),
            Fault::ShortAddress => is_short(self.body),
            Fault::Parted => self.body.starts_with(b"36 "),
            _ => false,
        }
    }
}

// ---- what is said

// The forms that there are.
fn put_forms(page: &mut Page, tick: bool) {
    if tick {
        return page.say(
            "    2: this is no tick. Write T, the clock's digit, the sample, what is attached
       (four hex digits each, small letters), and Q or F: T 0 0100 ffff Q\n",
        );
    }
    page.say(
        "    2: the line has none of the card's forms. They are, with p for X, Y, Z or F:
       M E=n  W E  PM E=n  HOME E  36CCA p=n  36CCA p?  36CCB p=n ..  36CCB p?
       36RDADC p?  36SS Z  T c wwww aaaa Q  L
       Capitals, single blanks, numbers of 1 to 10 digits with no leading 0.\n",
    )
}

// 2, by its cause.
pub fn put_form(page: &mut Page, text: &[u8]) {
    let line = line_of(text);
    let first = page.len();
    for fault in FAULTS {
        if line.has(fault) {
            page.say(format_args!("    2: {fault}.\n"));
        }
    }
    if page.len() == first {
        put_forms(page, text.starts_with(b"T"));
    }
}

// Numbers in text: decimal and hexadecimal, read from bytes and written as bytes.
#![tactic(auto)]

ghost use Rattle.std.specs.Prelude.{◌≡◌, true, ◌++◌, ◌+◌, ◌^◌, ◌≤◌, ◌<◌, length};
ghost use Rattle.text.specs.Digits.{every};
ghost use Rattle.std.proofs.lemmas.List.Edits.{sets};
ghost use Rattle.text.specs.Decimal.{digits_of, value_from, max_digits, plain, is_digit, number_at, decimal};
ghost use Rattle.text.specs.Hex.{hex_digit, hex_value, is_hex, hex4, hex_in, hex_at};

// The most digits that a number may have, leading zeros not being allowed.
const MAX_DIGITS: usize = 10;

// What was read at a place of a text: the number, if there is one, and where the text goes on.
#[derive(Clone, Copy)]
pub struct Number {
    pub value: Option<u64>,
    pub next: usize,
}

// Whether a byte is one of 0 to 9.
pub fn is_digit(b: u8) -> bool
    ensures { result ≡ is_digit b }
{
    matches!(b, b'0'..=b'9')
}

// The digits at the front of a text.
fn digits_of(text: &[u8]) -> &[u8]
    ensures { result.now ≡ digits_of text.now }
{
    for (i, b) in text.iter().enumerate() {
        if !is_digit(*b) {
            return &text[..i];
        }
    }
    text
}

// Whether digits have the form of a number.
fn is_plain(digits: &[u8]) -> bool
    ensures { result ≡ plain digits.now }
{
    match digits.len() {
        0 => false,
        1 => true,
        2..=MAX_DIGITS => digits[0] != b'0',
        _ => false,
    }
}

// The number that digits of its form say.
fn digits_value(digits: &[u8]) -> u64
    requires all_digits { every is_digit digits.now ≡ true }
    requires few { length digits.now ≤ max_digits }
    ensures { result ≡ value_from 0 digits.now }
{
    let mut value = 0;
    for digit in digits {
        value = value * 10 + ((*digit - b'0') as u64);
    }
    value
}

// The number at a place of a text, and where the text goes on after its digits. Where there is no
// digit, or too many, or a leading zero, there is none; the digits are passed over all the same.
pub fn number_at(text: &[u8], at: usize) -> Number
    requires { at ≤ length text.now }
    ensures { result ≡ number_at text.now at }
{
    let digits = digits_of(&text[at..]);
    let value = if is_plain(digits) {
        Some(digits_value(digits))
    } else {
        None
    };
    Number {
        value,
        next: at + digits.len(),
    }
}

// Writes the bytes at `at`, and returns the place after them. The caller sees to it that they have
// room; nothing else of `out` changes. The library's copy_from_slice takes an address as a number of
// 64 bits, which the processors of the firmware do not have.
pub fn copy(out: &mut [u8], at: usize, bytes: &[u8]) -> usize
    requires { at + length bytes.now ≤ length out.old }
    ensures out_after { out.new ≡ sets out.old at bytes.now }
    ensures value { result ≡ at + length bytes.now }
{
    for (i, byte) in bytes.iter().enumerate() {
        out[at + i] = *byte;
    }
    at + bytes.len()
}

// Writes n in decimal at `at`, the higher digits first, and returns the place after it. There must
// be room for the most digits, however many n has.
pub fn put_decimal(out: &mut [u8], at: usize, n: u32) -> usize
    requires n_bound { n < 10 ^ max_digits }
    requires max_digits_in_bounds { at + max_digits ≤ length out.old }
    ensures out_after { out.new ≡ sets out.old at (decimal n) }
    ensures value { result ≡ at + length (decimal n) }
{
    let mut place = at;
    if 10 <= n {
        place = put_decimal(out, at, n / 10);
    }
    out[place] = b'0' + ((n % 10) as u8);
    place + 1
}

// Writes a word, a number and an ending to the front, and returns the place after them.
pub fn put_numbered(out: &mut [u8], word: &[u8], n: u32, ending: &[u8]) -> usize
    requires n_bound { n < 10 ^ max_digits }
    requires ending_in_bounds { length word.now + max_digits + length ending.now ≤ length out.old }
    ensures out_after { out.new
        ≡ sets out.old 0 (word.now ++ (decimal n ++ ending.now)) }
    ensures value { result ≡ length (word.now ++ (decimal n ++ ending.now)) }
    ensures upper_bound { result ≤ length word.now + max_digits + length ending.now }
{
    let at = copy(out, 0, word);
    let end = put_decimal(out, at, n);
    copy(out, end, ending)
}

// The byte of a hexadecimal digit, in lower case.
pub fn hex_digit(d: u16) -> u8
    requires { d < 16 }
    ensures { result ≡ hex_digit d }
{
    if d < 10 {
        b'0' + (d as u8)
    } else {
        b'a' + (d as u8) - 10
    }
}

// Writes w as four hexadecimal digits at `at`, leading zeros too, and returns the place after
// them.
pub fn put_hex4(out: &mut [u8], at: usize, w: u16) -> usize
    requires { at + 4 ≤ length out.old }
    ensures out_after { out.new ≡ sets out.old at (hex4 w) }
    ensures value { result ≡ at + 4 }
{
    let w1 = w / 16;
    let w2 = w1 / 16;
    let w3 = w2 / 16;
    let digits = [
        hex_digit(w3 % 16),
        hex_digit(w2 % 16),
        hex_digit(w1 % 16),
        hex_digit(w % 16),
    ];
    copy(out, at, &digits)
}

// Whether a byte is a hexadecimal digit. Capital letters are none.
pub fn is_hex(b: u8) -> bool
    ensures { result ≡ is_hex b }
{
    is_digit(b) | ((b'a' <= b) & (b <= b'f'))
}

// The value of a hexadecimal digit. The caller has tested it by is_hex.
pub fn hex_value(b: u8) -> u16
    requires { is_hex b ≡ true }
    ensures { result ≡ hex_value b }
{
    if is_digit(b) {
        (b - b'0') as u16
    } else {
        (b - b'a') as u16 + 10
    }
}

// The word that up to four bytes say, if each of them is a digit.
fn hex_word(digits: &[u8]) -> Option<u16>
    requires { length digits.now ≤ 4 }
    ensures { result ≡ hex_in digits.now }
{
    let mut value = 0;
    for digit in digits {
        if !is_hex(*digit) {
            return None;
        }
        value = value * 16 + hex_value(*digit);
    }
    Some(value)
}

// The word that the four bytes at a place of a text say, if each of them is a digit.
pub fn hex4_at(text: &[u8], at: usize) -> Option<u16>
    requires { at + 4 ≤ length text.now }
    ensures { result ≡ hex_at text.now at }
{
    hex_word(&text[at..at + 4])
}

// The fields of a call, each read from the front of what is left of its line. There is none where
// the line has another form there.
ghost use Rattle.std.specs.Prelude.{◌<◌, ◌≤◌, IfSome};

use rack::supply::MOST;
use rack::tick::Front;

// The longest reply buffer; a larger number counts as this one.
pub const REPLY: usize = 99;

// The most bytes of a record that a line of 640 bytes can give, and a few more.
pub const RECORD: usize = 320;

// The most fronts of a tick that a line may have; a rack takes fewer.
const FRONTS: usize = 14;

// How many bytes a pair has.
const PAIR: usize = 6;

// A digit in hex.
pub fn digit(b: u8) -> Option<u8>
    ensures { IfSome result (λ d. d < 16) }
{
    match b {
        b'0'..=b'9' => Some(b - b'0'),
        b'a'..=b'f' => Some(b - b'a' + 10),
        _ => None,
    }
}

// A byte in two digits.
fn byte(high: u8, low: u8) -> Option<u8> {
    Some(digit(high)? * 16 + digit(low)?)
}

// A sample and what is attached, of the backplane or of a front: a blank comes before each.
pub fn pair(text: &[u8]) -> Option<Front> {
    match text {
        [b' ', high, low, b' ', upper, lower] => Some(Front {
            sample: byte(*high, *low)?,
            attached: byte(*upper, *lower)?,
        }),
        _ => None,
    }
}

// The pairs to the end of the line: how many they are, and the first four.
pub fn fronts(text: &[u8]) -> Option<(u8, [Front; MOST])> {
    let none = Front {
        sample: 0,
        attached: 0,
    };
    let mut fronts = [none; MOST];
    if FRONTS * PAIR < text.len() {
        return None;
    }
    for (at, part) in text.chunks(PAIR).enumerate() {
        let front = pair(part)?;
        if at < MOST {
            fronts[at] = front;
        }
    }
    Some(((text.len() / PAIR) as u8, fronts))
}

// A number, and what comes after the blank that ends it.
pub fn number(text: &[u8]) -> Option<(u64, &[u8])> {
    let read = text::number_at(text, 0);
    let value = read.value?;
    match text.get(read.next..)? {
        [b' ', rest @ ..] => Some((value, rest)),
        _ => None,
    }
}

// The bytes of a record in hex to the end of the line, or a dash for none, at the front of a
// buffer: how many they are.
pub fn record(text: &[u8], bytes: &mut [u8; RECORD]) -> Option<usize>
    ensures { IfSome result (λ n. n ≤ 320) }
{
    if matches!(text, [b'-']) {
        return Some(0);
    }
    if text.is_empty() || 2 * RECORD < text.len() {
        return None;
    }
    for (place, part) in bytes.iter_mut().zip(text.chunks(2)) {
        let [high, low] = part else {
            return None;
        };
        *place = byte(*high, *low)?;
    }
    Some(text.len() / 2)
}

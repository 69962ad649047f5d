// The forms of a line: from its bytes to a command.
ghost use Rattle.std.specs.Prelude.{◌≡◌, ◌≤◌, length};
ghost use Rattle.cells.specs.Table.{any_slot};
ghost use Rattle.text.specs.Decimal.{number_at};
ghost use Rattle.card.specs.Address.{cells_for};
ghost use Rattle.grammar.specs.Grammar;
ghost use Rattle.grammar.specs.Grammar.{longest_line, char_at, is_word, is_whole, to_end, slot_of};
ghost use Rattle.grammar.specs.Grammar.{write_of, cca_read, cca_form, ccb_form, read_of, read_form, card_form, plain_form, parse};

use crate::pairs::all_pairs;
use card::limits::{LARGE, Number};

// The most bytes that a line may have.
const LONGEST_LINE: usize = 80;

// The slots that one line gives, each with its number.
#[derive(Clone, Copy)]
pub struct Pairs {
    pub x: Option<Number>,
    pub y: Option<Number>,
    pub z: Option<Number>,
    pub f: Option<Number>,
}

// A slot's letter.
#[derive(Clone, Copy, PartialEq, Eq)]
pub enum Slot {
    X,
    Y,
    Z,
    F,
}

// What a well-formed line asks for.
#[derive(Clone, Copy)]
pub enum Command {
    Move(Number),
    Where,
    Trigger(Number),
    Home,
    Preset(Number),
    SetKind(Number),
    SetConfig(Number),
    SetState(Number),
    GetKind,
    GetConfig,
    GetState,
    SetSlots(Pairs),
    GetSlot(Slot),
    Front,
    Back,
    Cells,
    Upper,
    Save,
}

// Why a line is no command of this card: it is of no form, or it is a command for another card.
#[derive(Clone, Copy, PartialEq, Eq)]
pub enum NoCommand {
    Malformed,
    Elsewhere,
}

// The pairs that have been read, and where the next one starts.
#[derive(Clone, Copy)]
pub struct Reading {
    pub pairs: Pairs,
    pub at: usize,
}

// The byte at a place; past the end 0, which no form has.
pub(crate) fn char_at(text: &[u8], at: usize) -> u8
    ensures { result ≡ char_at text.now at }
{
    if at < text.len() { text[at] } else { 0 }
}

// Whether a word is at a place.
fn is_word(text: &[u8], at: usize, word: &[u8]) -> bool
    requires at_le_longest_line { at ≤ longest_line }
    requires word_len_bound { length word.now ≤ 8 }
    ensures { result ≡ is_word word.now at text.now }
{
    for i in 0..word.len() {
        if char_at(text, at + i) != word[i] {
            return false;
        }
    }
    true
}

// Whether a line is this word and no more.
#[tactic(auto, unfolding(crate::specs::Grammar::is_whole))]
fn is_whole(text: &[u8], word: &[u8]) -> bool
    requires { length word.now ≤ 8 }
    ensures { result ≡ is_whole word.now text.now }
{
    is_word(text, 0, word) & (text.len() == word.len())
}

// The number at a place, which may lie past the end.
#[tactic(auto, using(crate::proofs::Words::number_past))]
pub(crate) fn number_from(text: &[u8], at: usize) -> text::Number
    ensures { result ≡ number_at text.now at }
{
    if at <= text.len() {
        text::number_at(text, at)
    } else {
        text::Number {
            value: None,
            next: at,
        }
    }
}

// The number from a place to the end of the line.
#[tactic(auto, unfolding(crate::specs::Grammar::to_end))]
fn to_end(text: &[u8], at: usize) -> Option<Number>
    ensures { result ≡ to_end text.now at }
{
    let number = number_from(text, at);
    if number.next == text.len() {
        number.value
    } else {
        None
    }
}

// The slot that a letter names.
#[tactic(auto, unfolding(crate::specs::Grammar::slot_of))]
pub(crate) fn slot_of(letter: u8) -> Option<Slot>
    ensures { result ≡ slot_of letter }
{
    match letter {
        b'X' => Some(Slot::X),
        b'Y' => Some(Slot::Y),
        b'Z' => Some(Slot::Z),
        b'F' => Some(Slot::F),
        _ => None,
    }
}

// The command of `36CCA p=v`.
fn write_of(slot: Slot, v: Number) -> Command
    ensures { result ≡ write_of slot v }
{
    match slot {
        Slot::X => Command::Preset(v),
        Slot::Y => Command::SetKind(v),
        Slot::Z => Command::SetConfig(v),
        Slot::F => Command::SetState(v),
    }
}

// The command of `36CCA p?`.
fn cca_read(slot: Slot) -> Option<Command>
    ensures { result ≡ cca_read slot }
{
    match slot {
        Slot::X => None,
        Slot::Y => Some(Command::GetKind),
        Slot::Z => Some(Command::GetConfig),
        Slot::F => Some(Command::GetState),
    }
}

// What follows `36CCA `.
#[tactic(auto, unfolding(crate::specs::Grammar::cca_form))]
fn cca_form(text: &[u8]) -> Option<Command>
    ensures { result ≡ cca_form text.now }
{
    let slot = slot_of(char_at(text, 6))?;
    let sign = char_at(text, 7);
    if sign == b'=' {
        return Some(write_of(slot, to_end(text, 8)?));
    }
    if (sign == b'?') & (text.len() == 8) {
        return cca_read(slot);
    }
    None
}

// What follows `36CCB`.
#[tactic(auto, unfolding(crate::specs::Grammar::ccb_form))]
fn ccb_form(text: &[u8]) -> Option<Command>
    requires { length text.now ≤ longest_line }
    ensures { result ≡ ccb_form text.now }
{
    let framed = (char_at(text, 5) == b' ') & (char_at(text, 7) == b'?');
    if framed & (text.len() == 8) {
        return Some(Command::GetSlot(slot_of(char_at(text, 6))?));
    }
    Some(Command::SetSlots(all_pairs(text, 5)?))
}

// The command of `36RDADC p?`; F only a large card has.
#[tactic(auto, unfolding(card::specs::Address::cells_for))]
fn read_of(slot: Slot, size: u8) -> Option<Command>
    ensures { result ≡ read_of (cells_for size) slot }
{
    match slot {
        Slot::X => Some(Command::Front),
        Slot::Y => Some(Command::Back),
        Slot::Z => Some(Command::Cells),
        Slot::F => (size == LARGE).then_some(Command::Upper),
    }
}

// What follows `36RDADC `.
#[tactic(auto, unfolding(crate::specs::Grammar::read_form))]
fn read_form(text: &[u8], size: u8) -> Option<Command>
    ensures { result ≡ read_form (cells_for size) text.now }
{
    if (char_at(text, 9) == b'?') & (text.len() == 10) {
        return read_of(slot_of(char_at(text, 8))?, size);
    }
    None
}

// A card command, after the two digits of a card's address.
#[tactic(auto, unfolding(crate::specs::Grammar::card_form))]
fn card_form(text: &[u8], size: u8) -> Option<Command>
    requires { length text.now ≤ longest_line }
    ensures { result ≡ card_form (cells_for size) text.now }
{
    if is_word(text, 2, b"CCA ") {
        return cca_form(text);
    }
    if is_word(text, 2, b"CCB") {
        return ccb_form(text);
    }
    if is_word(text, 2, b"RDADC ") {
        return read_form(text, size);
    }
    (is_word(text, 2, b"SS Z") & (text.len() == 6)).then_some(Command::Save)
}

// The commands with no address.
#[tactic(auto, unfolding(crate::specs::Grammar::plain_form))]
fn plain_form(text: &[u8]) -> Option<Command>
    ensures { result ≡ plain_form text.now }
{
    if is_word(text, 0, b"M E=") {
        return Some(Command::Move(to_end(text, 4)?));
    }
    if is_word(text, 0, b"PM E=") {
        return Some(Command::Trigger(to_end(text, 5)?));
    }
    if is_whole(text, b"W E") {
        return Some(Command::Where);
    }
    (is_whole(text, b"HOME E") | is_whole(text, b"! E")).then_some(Command::Home)
}

// What the bytes of a line are: any bytes will do, and those of no form are malformed. A command
// for another card is only known as such.
#[tactic(auto, unfolding(crate::specs::Grammar::parse, crate::specs::Grammar::addressed))]
pub fn parse_line(text: &[u8], size: u8) -> Result<Command, NoCommand>
    ensures { result ≡ parse (cells_for size) text.now }
{
    if text.is_empty() | (LONGEST_LINE < text.len()) {
        return Err(NoCommand::Malformed);
    }
    let a = char_at(text, 0);
    let b = char_at(text, 1);
    if text::is_digit(a) & text::is_digit(b) {
        let command = card_form(text, size).ok_or(NoCommand::Malformed)?;
        if (a == b'3') & (b == b'6') {
            return Ok(command);
        }
        return Err(NoCommand::Elsewhere);
    }
    plain_form(text).ok_or(NoCommand::Malformed)
}

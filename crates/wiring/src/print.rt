// The public call: a card's wiring, written to a buffer that the caller gives.
ghost use Rattle.std.specs.Prelude.{◌≡◌, ◌≤◌, length};
ghost use Rattle.std.proofs.lemmas.List.Edits.{sets};
ghost use Rattle.card.specs.Address.{cells_for};
ghost use Rattle.wiring.specs.Parts.{text_most};
ghost use Rattle.wiring.specs.Print.{wiring_text, print_number, print_length, printed_to};

use crate::parts::{TEXT_MOST, put, put_cells, put_connectors};
use card::card::Card;
use card::connectors::each_of;
use card::place::cells_for;

// 0 or the number of the refusal, and the text's length, 0 where it is refused.
#[repr(C)]
#[derive(Clone, Copy)]
pub struct Printed {
    pub k: u8,
    pub len: usize,
}

// The whole wiring, at the front of a text that has room for any.
fn put_wiring(out: &mut [u8; TEXT_MOST], card: Card) -> usize
    ensures out_after { out.new ≡ sets out.old 0 (wiring_text (cells_for card.size) card) }
    ensures value { result ≡ length (wiring_text (cells_for card.size) card) }
    ensures upper_bound { result ≤ text_most }
{
    let n = cells_for(card.size);
    let cells = card.cells;
    let row = card.connectors;
    let connectors = each_of(row);
    let first = put_cells(out, cells, n);
    let last = put_connectors(out, first, connectors);
    put(out, last, true, b"PM E=", card.trigger as u32, b"\n")
}

// The settings of a card as lines, each ended by LF, written to the front of a buffer; beyond them
// the buffer is as it was. Any card prints. k is 16 where the text is longer than the buffer, which
// then stays as it was.
pub fn print(card: Card, buffer: &mut [u8]) -> Printed
    ensures k_value { result.k ≡ print_number (cells_for card.size) card (length buffer.old) }
    ensures len_value { result.len ≡ print_length (cells_for card.size) card (length buffer.old) }
    ensures buffer_after { buffer.new ≡ printed_to (cells_for card.size) card buffer.old }
    ensures len_in_bounds { result.len ≤ length buffer.new }
{
    let mut text = [0u8; TEXT_MOST];
    let len = put_wiring(&mut text, card);
    if buffer.len() < len {
        return Printed { k: 16, len: 0 };
    }
    text::copy(buffer, 0, &text[0..len]);
    Printed { k: 0, len: len }
}

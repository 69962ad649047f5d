// The calls on a row of cards, which the caller holds. `rack_c` exports them to C.
ghost use Rattle.std.specs.Prelude.{◌≡◌, ◌≤◌};
ghost use Rattle.lines.specs.Line.{shortest_reply};
ghost use Rattle.card.specs.Address.{cell_count};
ghost use Rattle.rack.specs.Rack.{start_number, started_row, row_ticked, ticked_row, row_result, row_result_of};
ghost use Rattle.rack.specs.Rack.{row_load_number, loaded_row};

use crate::row::{Refused, is_rack, line_in, load_in, start_card};
use crate::supply::MOST;
use crate::tick::{IDLE, RackInput, RackTicked, tick_all};
use card::card::Card;
use lines::decision::Response;
use lines::line::{put_reply_if, save_if};

// What a call on a row answers: 0 or the number of the refusal, and the reply's length.
#[repr(C)]
#[derive(Clone, Copy)]
pub struct Replied {
    pub k: u8,
    pub len: usize,
}

// Every card of the row fresh, but with all connectors as inputs.
pub fn rack_start(row: &mut [Card]) -> u8
    ensures { (result ≡ start_number row.old)
        × (row.new ≡ started_row cell_count row.old) }
{
    if !is_rack(row) {
        return Refused::NoRack.number();
    }
    row.fill(start_card());
    0
}

// A tick of all cards: all drive, then all sample, then all work out their cells.
pub fn rack_tick(row: &mut [Card], full: bool, input: RackInput) -> RackTicked
    ensures { (result ≡ row_ticked cell_count full input row.old)
        × (row.new ≡ ticked_row cell_count full input row.old) }
{
    if !is_rack(row) || input.count as usize != row.len() {
        return RackTicked {
            k: Refused::NoRack.number(),
            answers: [IDLE; MOST],
        };
    }
    let answers = tick_all(row, full, input);
    RackTicked { k: 0, answers }
}

// A line to the card of a number: any bytes, without the line's own ending. The reply is written to
// the front of its buffer, and a save writes the record to the front of the store.
pub fn rack_line(
    row: &mut [Card],
    number: usize,
    text: &[u8],
    reply: &mut [u8],
    store: &mut [u8],
) -> Replied
    ensures { (row_result_of result row.new reply.new store.new
        ≡ row_result cell_count row.old number text.now reply.old store.old)
        × (result.len ≤ shortest_reply) }
{
    match line_in(row, number, text, reply.len(), store.len()) {
        Ok(line) => {
            let len = put_reply_if(reply, 0, line.response);
            save_if(line.response.saves(), row[line.place], store);
            row[line.place] = line.card;
            Replied { k: 0, len }
        }
        Err(refused) => {
            let k = refused.number();
            let len = put_reply_if(reply, k, Response::Silent);
            Replied { k, len }
        }
    }
}

// A load of any bytes to the card of a number.
pub fn rack_load(row: &mut [Card], number: usize, bytes: &[u8]) -> u8
    ensures { (result ≡ row_load_number cell_count row.old number bytes.now)
        × (row.new ≡ loaded_row cell_count row.old number bytes.now) }
{
    match load_in(row, number, bytes) {
        Ok((place, card)) => {
            row[place] = card;
            0
        }
        Err(refused) => refused.number(),
    }
}

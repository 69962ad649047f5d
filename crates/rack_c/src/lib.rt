// The calls on a row of cards, for programs in C and Rust: a static library whose calls take the
// row as a pointer and a length. Each is the call of `rack` with its contract.
#![tactic(auto)]

ghost use Rattle.std.specs.Prelude.{◌≡◌, ◌≤◌};
ghost use Rattle.lines.specs.Line.{shortest_reply};
ghost use Rattle.card.specs.Address.{cell_count};
ghost use Rattle.rack.specs.Rack.{start_number, started_row, row_ticked, ticked_row, row_result, row_result_of};
ghost use Rattle.rack.specs.Rack.{row_load_number, loaded_row};

use card::card::Card;
use rack::rack_calls;
use rack::rack_calls::Replied;
use rack::tick::{RackInput, RackTicked};

// Every card of the row fresh, but with all connectors as inputs.
#[unsafe(no_mangle)]
pub extern "C" fn rack_start(row: &mut [Card]) -> u8
    ensures { (result ≡ start_number row.old)
        × (row.new ≡ started_row cell_count row.old) }
{
    rack_calls::rack_start(row)
}

// A tick of all cards: all drive, then all sample, then all work out their cells.
#[unsafe(no_mangle)]
pub extern "C" fn rack_tick(row: &mut [Card], full: bool, input: RackInput) -> RackTicked
    ensures { (result ≡ row_ticked cell_count full input row.old)
        × (row.new ≡ ticked_row cell_count full input row.old) }
{
    rack_calls::rack_tick(row, full, input)
}

// A line to the card of a number: any bytes, without the line's own ending. The reply is written to
// the front of its buffer, and a save writes the record to the front of the store.
#[unsafe(no_mangle)]
pub extern "C" fn rack_line(
    row: &mut [Card],
    number: usize,
    text: &[u8],
    reply: &mut [u8],
    store: &mut [u8],
) -> Replied
    ensures { (row_result_of result row.new reply.new store.new
        ≡ row_result cell_count row.old number text.now reply.old store.old)
        × (result.len ≤ shortest_reply) }
{
    rack_calls::rack_line(row, number, text, reply, store)
}

// A load of any bytes to the card of a number.
#[unsafe(no_mangle)]
pub extern "C" fn rack_load(row: &mut [Card], number: usize, bytes: &[u8]) -> u8
    ensures { (result ≡ row_load_number cell_count row.old number bytes.now)
        × (row.new ≡ loaded_row cell_count row.old number bytes.now) }
{
    rack_calls::rack_load(row, number, bytes)
}

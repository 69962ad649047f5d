// The public calls on one card, for programs in C and Rust: a static library whose calls take and
// give the card by value; those whose name ends in `_in` change it where it is.
#![tactic(auto)]

ghost use Rattle.std.specs.Prelude.{true, false, ◌≡◌, ◌≤◌, length};
ghost use Rattle.card.specs.Address.{cell_count, cell_room, cells_for};
ghost use Rattle.card.specs.Fresh;
ghost use Rattle.ticks.specs.Rest.{Decides, AtRest};
ghost use Rattle.ticks.specs.Tick.{tick};
ghost use Rattle.saved.specs.Record.{load_number, loaded};
ghost use Rattle.convert.specs.Convert.{convert_number, convert_length, converted_to};
ghost use Rattle.lines.specs.Line.{shortest_reply, line_result, result_of};
ghost use Rattle.wiring.specs.Print.{print_number, print_length, printed_to};
ghost use Rattle.survey.specs.Survey.{Survey};
ghost use Rattle.steady.specs.Steady.{steady_for, advanced};

use card::card::Card;
use card::limits::{LARGE, Number};
use card::tallies::Tallies;
use convert::Converted;
use lines::line::Answered;
use saved::record::Loaded;
use steady::Advanced;
use survey::Surveyed;
use ticks::brief::{in_brief, no_answer};
use ticks::tick::{Answer, Ticked, lines_by, turned_on};
use ticks::view::Input;
use wiring::print::Printed;

// A card of sixteen cells as it powers up.
#[unsafe(no_mangle)]
pub extern "C" fn trigger_fresh() -> Card
    ensures { result ≡ Fresh.fresh }
{
    card::card::fresh()
}

// A card of thirty-two cells as it powers up.
#[unsafe(no_mangle)]
pub extern "C" fn trigger_fresh_large() -> Card
    ensures { result ≡ Fresh.fresh_of cell_room }
{
    card::card::fresh_of(LARGE)
}

// Every cell is worked out.
#[unsafe(no_mangle)]
pub extern "C" fn trigger_full_tick(card: Card, input: Input) -> Ticked
    ensures { result ≡ tick (cells_for card.size) true card input }
{
    ticks::tick::full_tick(card, input)
}

// The cells that the waking rules name are worked out.
#[unsafe(no_mangle)]
pub extern "C" fn trigger_quick_tick(card: Card, input: Input) -> Ticked
    ensures { result ≡ tick (cells_for card.size) false card input }
{
    ticks::tick::quick_tick(card, input)
}

// ---- the card where it is. A tick of another clock is answered before anything is copied.

// The same as `trigger_quick_tick`, of a card that is given by reference. Where every cell sleeps
// the memory and the tick total are all that is written.
#[unsafe(no_mangle)]
pub extern "C" fn trigger_quick_tick_in(card: &mut Card, input: Input) -> Answer
    ensures { (result ≡ (tick (cells_for card.old.size) false card.old input).answer)
        × (card.new ≡ (tick (cells_for card.old.size) false card.old input).card) }
{
    if input.code != card.trigger {
        return no_answer();
    }
    let b = in_brief(*card, input);
    if b.quiet {
        card.memory = b.memory;
        card.tallies.total = b.total;
        return b.answer;
    }
    let t = turned_on(false, *card, b.lines);
    *card = t.card;
    t.answer
}

// The same as `trigger_full_tick`, of a card that is given by reference.
#[unsafe(no_mangle)]
pub extern "C" fn trigger_full_tick_in(card: &mut Card, input: Input) -> Answer
    ensures { (result ≡ (tick (cells_for card.old.size) true card.old input).answer)
        × (card.new ≡ (tick (cells_for card.old.size) true card.old input).card) }
{
    if input.code != card.trigger {
        return no_answer();
    }
    let l = lines_by(card.memory, card.connectors, card.size, input);
    let t = turned_on(true, *card, l);
    *card = t.card;
    t.answer
}

// Whether a quick tick with the input would name no cell and leave the card as it is but for the
// tick total. Then every tick with it does, and the clock may stop.
#[unsafe(no_mangle)]
pub extern "C" fn trigger_at_rest(card: Card, input: Input) -> bool
    ensures { Decides result (AtRest (cells_for card.size) card input) }
{
    ticks::rest::at_rest(card, input)
}

// For how many quick ticks with the input nothing changes but the counts of cells, the tallies and
// the tick total, and no count comes to its end. A processor may sleep so long, or until an input
// changes, and then make the ticks at once.
#[unsafe(no_mangle)]
pub extern "C" fn trigger_steady_for(card: Card, input: Input) -> u32
    ensures { result ≡ steady_for (cells_for card.size) card input }
{
    steady::steady_for(card, input)
}

// Up to k quick ticks with one input at once: one, and more as long as nothing but counts changes.
// The card and the answer are those of so many quick ticks.
#[unsafe(no_mangle)]
pub extern "C" fn trigger_advance(card: Card, input: Input, k: u32) -> Advanced
    ensures { result ≡ advanced (cells_for card.size) card input k }
{
    steady::advance(card, input, k)
}

// A load of any bytes: the card powers up with them, and a refused load leaves it as it was.
#[unsafe(no_mangle)]
pub extern "C" fn trigger_load(card: Card, bytes: &[u8]) -> Loaded
    ensures card_value { result.card ≡ loaded (cells_for card.size) card bytes.now }
    ensures k_value { result.k ≡ load_number (cells_for card.size) bytes.now }
{
    saved::record::load(card, bytes)
}

// A line obeyed or refused, its reply written, the record saved.
#[unsafe(no_mangle)]
pub extern "C" fn trigger_line(
    card: Card,
    text: &[u8],
    reply: &mut [u8],
    store: &mut [u8],
) -> Answered
    ensures store_after { result_of result reply.new store.new
        ≡ line_result (cells_for card.size) card text.now reply.old store.old }
    ensures len_le_shortest_reply { result.len ≤ shortest_reply }
{
    lines::line::line(card, text, reply, store)
}

// The settings of a card as lines, each ended by LF, written to the front of the buffer. Any card
// prints; 16 where the text is longer than the buffer.
#[unsafe(no_mangle)]
pub extern "C" fn trigger_print(card: Card, buffer: &mut [u8]) -> Printed
    ensures k_value { result.k ≡ print_number (cells_for card.size) card (length buffer.old) }
    ensures len_value { result.len ≡ print_length (cells_for card.size) card (length buffer.old) }
    ensures buffer_after { buffer.new ≡ printed_to (cells_for card.size) card buffer.old }
    ensures len_in_bounds { result.len ≤ length buffer.new }
{
    wiring::print::print(card, buffer)
}

// A record in the other of its two forms, written to the front of the buffer. The record's length
// picks the way; a refusal writes nothing.
#[unsafe(no_mangle)]
pub extern "C" fn trigger_convert(bytes: &[u8], buffer: &mut [u8]) -> Converted
    ensures k_value { result.k ≡ convert_number cell_count (length buffer.old) bytes.now }
    ensures len_value { result.len ≡ convert_length cell_count (length buffer.old) bytes.now }
    ensures buffer_after { buffer.new ≡ converted_to cell_count bytes.now buffer.old }
    ensures len_in_bounds { result.len ≤ length buffer.new }
{
    convert::convert(bytes, buffer)
}

// What depends on the connector at a place, 33 to 48: the smallest set of cells and connectors that
// a change of its line can reach. 5 for another place.
#[unsafe(no_mangle)]
pub extern "C" fn trigger_survey(card: Card, place: Number) -> Surveyed
    ensures { Survey (cells_for card.size) card place result }
{
    survey::dependents(card, place)
}

// All tallies: in how many ticks the waking rules named each cell, and how many ticks ran.
#[unsafe(no_mangle)]
pub extern "C" fn trigger_read_tallies(card: Card) -> Tallies
    ensures { result ≡ card.tallies }
{
    card.tallies
}

// What a line and a load to one card of a row come to, and what the rack itself refuses of them.
ghost use Rattle.std.specs.Prelude.{◌≡◌, ◌≤◌, ◌<◌, ◌-◌, not, true, false, length, get_or, eqb, MatchResult};
ghost use Rattle.card.specs.Address.{cell_count};
ghost use Rattle.saved.specs.Record;
ghost use Rattle.lines.specs.Refusal.{number_of};
ghost use Rattle.rack.specs.declared.row.Refused.TheVariants.{OverSupply, NoRack, ByCard};
ghost use Rattle.rack.specs.Supply;
ghost use Rattle.rack.specs.Supply.{most_cards, draws_of};
ghost use Rattle.rack.specs.Rack;
ghost use Rattle.rack.specs.Rack.{bad_row, bad_number, card_of, start_card, row_outcome, row_load_number};
ghost use Rattle.rack.specs.Row.{IsPlace, IsLined, IsRefused};

use crate::supply::{MOST, over};
use card::card::{Card, Connectors};
use card::limits::{CONNECTORS, LARGE};
use lines::decision::Response;

// What is refused: by the rack itself, a change that the supply does not bear, and a row, number or
// tick that is no rack's; or by the card, with a number of its own.
#[derive(Clone, Copy, Debug, PartialEq, Eq)]
pub enum Refused {
    OverSupply,
    NoRack,
    ByCard(u8),
}

impl Refused {
    // The number of the refusal.
    pub fn number(self) -> u8
        ensures { result ≡ Rack.refusal_number self }
    {
        match self {
            Refused::OverSupply => 19,
            Refused::NoRack => 20,
            Refused::ByCard(k) => k,
        }
    }
}

impl From<lines::refused::Refused> for Refused {
    ghost from_gives = { λ why e. e ≡ ByCard (number_of why) };

    fn from(why: lines::refused::Refused) -> Refused {
        Refused::ByCard(why.number())
    }
}

// A line that is accepted: the place of its card, the card after it, and the response.
#[derive(Clone, Copy)]
pub(crate) struct Lined {
    pub place: usize,
    pub card: Card,
    pub response: Response,
}

// A card as a rack's start leaves it: fresh, but with all connectors as inputs.
pub fn start_card() -> Card
    ensures { result ≡ start_card cell_count }
{
    let connectors = Connectors {
        sources: [0; CONNECTORS],
        push_pull: 0,
        open_drain: 0,
    };
    Card {
        connectors,
        ..card::card::fresh()
    }
}

// Whether a row is a rack: 1 to MOST cards, and none with thirty-two cells.
pub(crate) fn is_rack(row: &[Card]) -> bool
    ensures { result ≡ not (bad_row row.now) }
{
    0 < row.len() && row.len() <= MOST && !row.iter().any(|card| card.size == LARGE)
}

// The place of a card by its number, from 1.
fn place_of(row: &[Card], number: usize) -> Result<usize, Refused>
    ensures { MatchResult result (λ place. IsPlace row.now number place)
        (λ e. (e ≡ NoRack) × (bad_number row.now number ≡ true)) }
{
    if !is_rack(row) || number < 1 || row.len() < number {
        return Err(Refused::NoRack);
    }
    Ok(number - 1)
}

// The supply bears a change of the connectors of the card at a place.
fn check_supply(row: &[Card], place: usize, after: Connectors) -> Result<(), Refused>
    requires few { length row.now ≤ most_cards }
    requires place_in_bounds { place < length row.now }
    ensures { (d : Card) → let many = Supply.over (draws_of row.now) place
        (get_or row.now place d).connectors after in
        MatchResult result (λ _. many ≡ false) (λ e. (e ≡ OverSupply) × (many ≡ true)) }
{
    if over(row, place, after) {
        Err(Refused::OverSupply)
    } else {
        Ok(())
    }
}

// A line to the card of a number, by the lengths of the two buffers; the card is not changed yet.
pub(crate) fn line_in(
    row: &[Card],
    number: usize,
    text: &[u8],
    reply: usize,
    store: usize,
) -> Result<Lined, Refused>
    ensures { let o = row_outcome cell_count row.now number text.now reply store in
        MatchResult result (λ l. IsLined row.now number o l)
        (λ e. IsRefused (card_of cell_count row.now number) o e) }
{
    let place = place_of(row, number)?;
    let card = row[place];
    let accepted = lines::line::judge(card, text, reply, store)?;
    let next = card::change::apply(card, accepted.change);
    check_supply(row, place, next.connectors)?;
    Ok(Lined {
        place,
        card: next,
        response: accepted.response,
    })
}

// A load to the card of a number: its place, and the card then.
pub(crate) fn load_in(row: &[Card], number: usize, bytes: &[u8]) -> Result<(usize, Card), Refused>
    ensures { let k = row_load_number cell_count row.now number bytes.now in MatchResult result
        (λ l. IsPlace row.now number l.0 × (k ≡ 0)
        × (l.1 ≡ Record.loaded cell_count (card_of cell_count row.now number) bytes.now))
        (λ e. (k ≡ Rack.refusal_number e) × (eqb k 0 ≡ false)) }
{
    let place = place_of(row, number)?;
    let l = saved::record::load(row[place], bytes);
    if l.k != 0 {
        return Err(Refused::ByCard(l.k));
    }
    check_supply(row, place, l.card.connectors)?;
    Ok((place, l.card))
}

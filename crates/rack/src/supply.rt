// The supply that the front lamps of a rack share.
ghost use Rattle.std.specs.Prelude.{◌≡◌, ◌≤◌, ◌<◌, ◌^◌, length, get_or};
ghost use Rattle.rack.specs.Supply;
ghost use Rattle.rack.specs.Supply.{most_cards, draws, draws_of};

use card::card::{Card, Connectors};
use card::connectors::kind_at;
use card::limits::{FRONT, FRONT_WORD};

// The most cards of a rack.
pub const MOST: usize = 4;

// One card more: what a program holds that also asks of rows that are no racks.
pub const HELD: usize = MOST + 1;

// What the lamps of a rack may draw together, and the share that is each card's own.
const SUPPLY: u32 = 16;

const SHARE: u8 = 4;

// The push-pull front connectors of a card.
fn pushes(c: Connectors) -> u8
    ensures { result ≡ Supply.pushes c }
{
    (c.push_pull & FRONT_WORD).count_ones() as u8
}

// What a card draws: the larger of its share and the number of its push-pull front connectors.
fn draw(c: Connectors) -> u8
    ensures { result ≡ Supply.draw c }
{
    pushes(c).max(SHARE)
}

// Whether no front connector has another type.
fn same_fronts(a: Connectors, b: Connectors) -> bool
    ensures { result ≡ Supply.same_fronts a b }
{
    (0..FRONT as u32).all(|k| kind_at(a, k) == kind_at(b, k))
}

// What the cards of a row draw together.
fn sum(row: &[Card]) -> u32
    requires { draws row.now < 2 ^ 32 }
    ensures { result ≡ draws row.now }
{
    row.iter()
        .map(|card| u32::from(draw(card.connectors)))
        .sum()
}

// Whether a row whose card at a place has other connectors is more than the supply bears: the type
// of a front one changed, and the sum with them is over it.
pub(crate) fn over(row: &[Card], place: usize, after: Connectors) -> bool
    requires few { length row.now ≤ most_cards }
    requires place_in_bounds { place < length row.now }
    ensures { (d : Card) → result
        ≡ Supply.over (draws_of row.now) place (get_or row.now place d).connectors after }
{
    let before = row[place].connectors;
    if same_fronts(before, after) {
        return false;
    }
    SUPPLY + u32::from(draw(before)) < sum(row) + u32::from(draw(after))
}

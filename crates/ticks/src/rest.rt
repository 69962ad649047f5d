// Cards at rest: a tick would name no cell and change nothing but the tick total.
ghost use Rattle.std.specs.Prelude.{true, ◌&&◌, ◌≡◌, ◌%◌, ◌^◌, ◌≤◌, ◌<◌, eqb};
ghost use Rattle.card.specs.Address.{cell_room, cells_for};
ghost use Rattle.ticks.specs.Tick.{wires_of};
ghost use Rattle.ticks.specs.Rest.{steady, Decides, AtRest};

use crate::quiet::{all_rest, unchanged};
use crate::tick::{lines_in, low};
use crate::view::{Input, sees, wires_of};
use card::card::{Card, Memory};
use card::limits::EditedSet;
use card::place::cells_for;

// Whether the words of the last two ticks are the same, and the cell word one of n cells.
fn holds_still(m: Memory, n: u8) -> bool
    requires { n ≤ cell_room }
    ensures { result ≡ (eqb m.outputs (m.outputs % 2 ^ n) && steady (wires_of m m.levels)) }
{
    (m.outputs == low(m.outputs as EditedSet, n)) & unchanged(wires_of(m, m.levels))
}

// Whether the connectors and the cells rest too.
fn rests_on(card: Card, input: Input, n: u8) -> bool
    requires n_le_cell_room { n ≤ cell_room }
    requires code_value { input.code ≡ card.trigger }
    requires edited_value { card.edited ≡ 0 }
    requires outputs_bound { card.memory.outputs < 2 ^ n }
    requires levels_value { steady (wires_of card.memory card.memory.levels) ≡ true }
    ensures { Decides result (AtRest n card input) }
{
    let m = card.memory;
    let l = lines_in(card.connectors, m, input);
    if ((l.driven != m.driven) | (l.pulled != m.pulled)) | (l.levels != m.levels) {
        return false;
    }
    all_rest(card.cells, sees(0, m.outputs, m.outputs, m.levels), n)
}

// Whether a quick tick with the input would name no cell and leave all but the tick total as it is.
// No tick is made: the last words are compared, the connectors driven, and the cells with edge
// slots looked at.
pub fn at_rest(card: Card, input: Input) -> bool
    ensures { Decides result (AtRest (cells_for card.size) card input) }
{
    if input.code != card.trigger {
        return true;
    }
    let n = cells_for(card.size);
    let m = card.memory;
    if (card.edited != 0) | !holds_still(m, n) {
        return false;
    }
    rests_on(card, input, n)
}

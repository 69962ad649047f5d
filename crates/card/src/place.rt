// The places of cells and connectors.
ghost use Rattle.std.specs.Prelude.{◌≡◌, ◌≤◌};
ghost use Rattle.card.specs.Address.{cell_room, cells_for, connector_count, first_cell, first_connector, among};

use crate::limits::{CONNECTORS_END, FIRST_CELL, FIRST_CONNECTOR, LARGE, Number, SMALL};

// The number of cells of a card of this size.
#[tactic(auto, unfolding(crate::specs::Address::cells_for))]
pub fn cells_for(size: u8) -> u8
    ensures value { result ≡ cells_for size }
    ensures upper_bound { result ≤ cell_room }
{
    if size == LARGE { LARGE } else { SMALL }
}

// The place of a cell.
pub(crate) fn is_cell(p: Number, size: u8) -> bool
    ensures { result ≡ among first_cell (cells_for size) p }
{
    let n = cells_for(size);
    (FIRST_CELL as Number <= p) & (p < FIRST_CELL as Number + n as Number)
}

// The place of a connector.
pub fn is_connector(p: Number) -> bool
    ensures { result ≡ among first_connector connector_count p }
{
    (FIRST_CONNECTOR as Number <= p) & (p < CONNECTORS_END as Number)
}

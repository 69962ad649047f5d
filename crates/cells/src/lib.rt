// The cells of a card: their types, what their slots read, what wakes them, and what they work out.
#![tactic(auto)]

pub mod cell; // a cell as the card holds it
mod families; // one cell in a tick, family by family
pub mod reading; // what the slots of a cell read
pub mod step; // one cell in a tick: asked, and worked out
pub mod table; // the table of cell types
pub mod wake; // which edges stir a cell
pub mod work; // a cell worked out, family by family

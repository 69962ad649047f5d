// Sentences about a card for people, written piece by piece to a page: names of types, slots,
// places and addresses; cells and connectors with their settings; why a line was refused; what a
// tick did and why; and hints. plexplain and plcheck are made of them. Stored output checks what
// they say.
#![tactic(auto)]

mod causes; // why a cell was worked out
pub mod form; // what is wrong with a malformed line
pub mod hints; // hints on legal wirings
pub mod json; // pieces of JSON
pub mod names; // the names of types and connectors
pub mod page; // what is written of a line
pub mod refused; // why a line was refused
pub mod terms; // the names of slots, places and addresses
pub mod ticked; // what a tick did
mod turns; // what a cell did in a tick
pub mod wiring; // cells and connectors with their settings

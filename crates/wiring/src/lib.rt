// A card's wiring as lines: what the card writes out of itself, for another card to be fed with.
#![tactic(auto)]

pub mod parts; // the lines of cells and connectors
pub mod print; // the public call

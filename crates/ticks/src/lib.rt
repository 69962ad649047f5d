// Ticks of the card: what a reader sees at an address, the connectors, and the cells in order.
#![tactic(auto)]

pub mod brief; // a quick tick for a card that is changed where it is
pub mod connectors; // what the connectors drive and show
mod quiet; // ticks in which no cell wakes
pub mod rest; // cards that no tick changes
pub mod tick; // full and quick ticks
pub mod view; // what a reader sees at each address

// The card: what it holds, and how lines change its settings.
#![tactic(auto)]

pub mod card; // what a card holds
pub mod change; // what a line changes in a card, as a value
pub mod chart; // the chart of the addresses
pub mod connectors; // the connectors one by one
pub mod context; // the part of a card that a line is judged by
pub mod edits; // what an accepted line does to a card
pub mod limits; // the limits of a card by name
pub mod place; // the places of cells and connectors
pub mod presets; // the presets and their tables
pub mod tallies; // how often each cell was named
pub mod valid; // the values that settings may have

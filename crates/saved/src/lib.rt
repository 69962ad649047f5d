// The saved record of a card's settings.
#![tactic(auto)]

pub mod record; // saving and loading

// Up to four cards on one backplane: a row of cards that the caller holds, each changed where it
// is.
#![tactic(auto)]

pub mod rack_calls; // the public calls
pub mod row; // what a line and a load to one card of a row come to
pub mod shared; // a tick of one card on a shared backplane
pub mod supply; // the shared supply of the front lamps
pub mod tick; // a tick of all cards

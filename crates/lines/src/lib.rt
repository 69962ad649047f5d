// The line reader: refusals, replies, and what a line does to the card.
#![tactic(auto)]

pub mod decision; // what a line comes to
pub mod line; // the public call
mod reads; // the commands that read or save
pub mod refused; // why the card says no
mod writes; // the commands that change the card

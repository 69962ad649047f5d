// Says what a line did and why, for people and as rows for machines, and compares transcripts,
// which are lines with the answers that must come. `facts` enters a line once, `line` and `rows`
// say what it did, `checking` compares. Stored output checks what they write.
#![tactic(auto)]

mod accepted; // what an accepted line changed or read
pub mod checking; // a transcript compared with the card's answers
pub mod facts; // what a line did
pub mod line; // what a line did, in sentences
mod rows; // what a line did, as a row of JSON
mod shape; // what kind of line of a transcript a line is

// What a timing diagram keeps of a run, and its strips: ticks side by side with their rows, the
// names of these, and the boxes of the cells that woke. The program pldraw reads the run and puts
// strips and a head on a page.
#![tactic(auto)]

pub mod boxes; // the ticks in which a cell woke
pub mod kept; // the ticks that a picture keeps
pub mod labels; // the names of the rows
pub mod places; // where things are in a picture
pub mod strip; // ticks side by side with their rows

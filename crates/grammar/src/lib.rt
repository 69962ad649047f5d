// The commands that lines say: from the bytes of a line to a command, or to none.
#![tactic(auto)]

pub mod grammar; // the forms of a line
mod pairs; // the slots that `36CCB` gives

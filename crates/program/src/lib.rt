// What programs share: the words that a program is started with, what it writes, what it reports of
// its input, and inputs of a form that no program takes.
#![tactic(auto)]

pub mod arguments; // options and the input file
pub mod form; // inputs of a form that no program takes
pub mod report; // refused lines, and a last line without LF
pub mod writer; // buffered standard output

// Lists of calls: lines, record loads, full ticks and quick ticks, in any order. There is nothing
// to run here: specs/ says what a list answers and leaves, with demand 3, and proofs/ has its
// theorems.
#![tactic(auto)]

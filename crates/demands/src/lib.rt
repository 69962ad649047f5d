// What is promised of the card, as one theorem. There is nothing to run here: specs/Demands.antt is
// the page that an auditor reads first.
#![tactic(auto)]

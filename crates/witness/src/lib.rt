// Witnesses that last for hours: samples with how often each comes, run exactly on the true card,
// and a search for them.
#![tactic(auto)]

pub mod leaps; // the search
pub mod replay; // the exact run

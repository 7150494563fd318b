// What the simulator's calls are made of: their refusals, and the loops that update a state row by row. `running` puts them together.
// The loops require a state and columns of lengths that fit.
#![tactic(auto)]

pub mod check;
pub mod state;

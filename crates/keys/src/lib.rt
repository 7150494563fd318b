// Settling by the keys of the dust: 16 times the level less the hops by which it comes.
#![tactic(auto)]

mod key;
mod pass;
mod rounds;
mod search;
pub mod settle;

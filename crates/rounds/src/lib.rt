// The rounds in code, over a network in columns.
#![tactic(auto)]

mod run;
pub mod settle;

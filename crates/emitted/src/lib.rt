// Device columns, and the levels that rows emit with them.
#![tactic(auto)]

pub mod device;
pub mod output;

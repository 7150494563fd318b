// How power goes from dust to dust.
#![tactic(auto)]

pub mod transfer;

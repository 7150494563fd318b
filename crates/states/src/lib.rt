// One row's sixteen bytes of state: their fields, and whether they are within the layout.
#![tactic(auto)]

pub mod bits;
pub mod row;

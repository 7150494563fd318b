// The block world as a packed table: the fields of a row, and look-up by position.
#![tactic(auto)]

pub mod find;
pub mod row;

// The arms of dust drawn anew: definitions, in specs/, and laws, also around a switch. No function.
#![tactic(auto)]

// The arms of a dust as its row stores them: 0 no entry, 2 Side, 3 Up.
#[derive(Clone, Copy)]
pub struct Arms {
    pub north: u8,
    pub east: u8,
    pub south: u8,
    pub west: u8,
}

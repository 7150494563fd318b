// A network in two columns, and the rows that its edges lead to.
#![tactic(auto)]

ghost use Rattle.circuit.specs.Circuit.{Shaped};

mod edges;
pub mod sinks;

// The edges of a network.
#[derive(Clone, Copy)]
pub enum Edge {
    EmittedToStrong,
    StrongToWeak,
    DustToWeak,
    Transmits,
    EmittedToDust,
    StrongToDust,
}

// A network in two columns: the rows by each row, place by place, and the class of each row.
#[derive(Clone, Copy)]
pub struct Network<'a> {
    pub near: &'a [u16],
    pub class: &'a [u32],
    ghost shaped: { Shaped near.now class.now },
}

// The rows that an edge leads to. A way that leads to none leads to `NO_ROW`, which is past the last row.
ghost use Rattle.std.specs.Prelude.{◌≡◌, ◌<◌};
ghost use Rattle.columns.specs.Column.{row};
ghost use Rattle.classes.specs.Towards.{places};
ghost use Rattle.circuit.specs.Circuit.{beside_in, sink_if, level_sink, upper_sink, lower_sink, sink_of, ways};
ghost use Rattle.circuit.specs.Sinks.{sends_in, strong_sink, weak_sink, touched_sink, over_sink, side_sink};
ghost use Rattle.circuit.specs.declared.Edge.TheVariants.{EmittedToStrong, StrongToWeak, DustToWeak, Transmits, EmittedToDust, StrongToDust};

use crate::{Edge, Network};
use classes::towards::{charges_in, feeds_in, leads_in, touched_in};
use classes::{arm_against, arm_in, drives_in, is_dust_in, rises_by_in, strong_in, weak_in};

// The entry where there is no row. A number and no Option: `near` is a column of numbers, by its definition.
pub const NO_ROW: u16 = 65535;

// The places above and below a row, as indices into `near`.
pub const ABOVE: usize = 4;

pub const BELOW: usize = 5;

// The class of a row, 0 past the last.
pub fn class_at(class: &[u32], i: usize) -> u32
    ensures { result ≡ row class.now i }
{
    class.get(i).copied().unwrap_or(0)
}

fn sink_if(edge: bool, i: usize) -> usize
    ensures { result ≡ sink_if edge i }
{
    if edge { i } else { NO_ROW as usize }
}

impl Edge {
    // Whether a row of the class may have the edge to some row.
    pub fn sends_in(self, class: u32) -> bool
        ensures { result ≡ sends_in self class }
    {
        match self {
            Edge::EmittedToStrong => true,
            Edge::StrongToWeak => true,
            Edge::DustToWeak => is_dust_in(class),
            Edge::Transmits => is_dust_in(class),
            Edge::EmittedToDust => true,
            Edge::StrongToDust => drives_in(class),
        }
    }

    // How many rows an edge may lead to from one row.
    pub fn ways(self) -> usize
        ensures { result ≡ ways self }
    {
        match self {
            Edge::EmittedToStrong => 7,
            Edge::StrongToWeak => 6,
            Edge::DustToWeak => 6,
            Edge::Transmits => 12,
            Edge::EmittedToDust => 6,
            Edge::StrongToDust => 6,
        }
    }
}

impl Network<'_> {
    // The class of a row, 0 past the last.
    pub fn class_at(self, i: usize) -> u32
        ensures { result ≡ row self.entry.class.now i }
    {
        class_at(self.class, i)
    }

    // The row at place k by row j.
    #[tactic(auto, using(crate::proofs::Shape::beside_row, crate::proofs::Shape::beside_none))]
    pub fn beside(self, j: usize, k: usize) -> usize
        requires { k < places }
        ensures { result ≡ beside_in self.entry.near.now self.entry.class.now j k }
    {
        if j < self.class.len() {
            self.near[k * self.class.len() + j] as usize
        } else {
            NO_ROW as usize
        }
    }

    // The row at place k by row j, where it receives strong power.
    fn strong_sink(self, j: usize, k: usize) -> usize
        requires { k < places }
        ensures { result ≡ strong_sink self.entry.near.now self.entry.class.now j k }
    {
        let i = self.beside(j, k);
        sink_if(strong_in(self.class_at(i)), i)
    }

    // The row at place k by row j, where it receives weak power.
    fn weak_sink(self, j: usize, k: usize) -> usize
        requires { k < places }
        ensures { result ≡ weak_sink self.entry.near.now self.entry.class.now j k }
    {
        let i = self.beside(j, k);
        sink_if(weak_in(self.class_at(i)), i)
    }

    // The dust at place k that touches row j.
    fn touched_sink(self, j: usize, k: usize) -> usize
        requires { k < places }
        ensures { result ≡ touched_sink self.entry.near.now self.entry.class.now j k }
    {
        let i = self.beside(j, k);
        sink_if(touched_in(self.class_at(i), k as u8), i)
    }

    // The dust beside along the facing f + 1.
    #[tactic(auto, unfolding(crate::specs::Circuit::level_sink))]
    pub fn level_sink(self, j: usize, f: usize) -> usize
        requires { f < 4 }
        ensures { result ≡ level_sink self.entry.near.now self.entry.class.now j f }
    {
        if leads_in(self.class_at(j), f as u8) {
            self.touched_sink(j, f)
        } else {
            NO_ROW as usize
        }
    }

    // The dust above row a, where a rises by the arm.
    fn over_sink(self, a: usize, arm: u32) -> usize
        ensures { result ≡ over_sink self.entry.near.now self.entry.class.now a arm }
    {
        if rises_by_in(self.class_at(a), arm) {
            let i = self.beside(a, ABOVE);
            sink_if(is_dust_in(self.class_at(i)), i)
        } else {
            NO_ROW as usize
        }
    }

    // The dust above the cell beside. Without an arm there is none.
    #[tactic(auto, using(crate::proofs::Upper::upper_over, crate::proofs::Upper::upper_none))]
    pub fn upper_sink(self, j: usize, f: usize) -> usize
        requires { f < 4 }
        ensures { result ≡ upper_sink self.entry.near.now self.entry.class.now j f }
    {
        let own = self.class_at(j);
        if leads_in(own, f as u8) {
            self.over_sink(self.beside(j, f), arm_in(own, (f + 1) as u8))
        } else {
            NO_ROW as usize
        }
    }

    // The dust beside row b, where b drives dust and rises by its arm.
    fn side_sink(self, b: usize, f: usize) -> usize
        requires { f < 4 }
        ensures { result ≡ side_sink self.entry.near.now self.entry.class.now b f }
    {
        let own = self.class_at(b);
        if drives_in(own) {
            let i = self.beside(b, f);
            let other = self.class_at(i);
            sink_if(
                is_dust_in(other) & rises_by_in(own, arm_against(other, (f + 1) as u8)),
                i,
            )
        } else {
            NO_ROW as usize
        }
    }

    // The dust below the cell beside.
    #[tactic(auto, unfolding(crate::specs::Circuit::lower_sink))]
    pub fn lower_sink(self, j: usize, f: usize) -> usize
        requires { f < 4 }
        ensures { result ≡ lower_sink self.entry.near.now self.entry.class.now j f }
    {
        if is_dust_in(self.class_at(j)) {
            self.side_sink(self.beside(j, BELOW), f)
        } else {
            NO_ROW as usize
        }
    }

    #[tactic(auto, using(crate::proofs::Ways::way_level, crate::proofs::Ways::way_upper, crate::proofs::Ways::way_lower))]
    fn transmit_sink(self, j: usize, k: usize) -> usize
        requires { k < 12 }
        ensures { result ≡ sink_of self.entry.near.now self.entry.class.now Transmits j k }
    {
        if k < 4 {
            self.level_sink(j, k)
        } else if k < 8 {
            self.upper_sink(j, k - 4)
        } else {
            self.lower_sink(j, k - 8)
        }
    }

    // The k-th row that an edge leads to from row j.
    #[tactic(auto, unfolding(crate::specs::Circuit::sink_of))]
    pub fn sink_of(self, edge: Edge, j: usize, k: usize) -> usize
        requires { k < ways edge }
        ensures { result ≡ sink_of self.entry.near.now self.entry.class.now edge j k }
    {
        let own = self.class_at(j);
        let place = k as u8;
        match edge {
            Edge::EmittedToStrong if charges_in(own, place) => self.strong_sink(j, k),
            Edge::StrongToWeak => self.weak_sink(j, k),
            Edge::DustToWeak if leads_in(own, place) => self.weak_sink(j, k),
            Edge::Transmits => self.transmit_sink(j, k),
            Edge::EmittedToDust if feeds_in(own, place) => self.touched_sink(j, k),
            Edge::StrongToDust if !feeds_in(own, place) && drives_in(own) => self.touched_sink(
                j, k,
            ),
            _ => NO_ROW as usize,
        }
    }
}

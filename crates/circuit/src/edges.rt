// Whether a row has an edge to another.
ghost use Rattle.std.specs.Prelude.{◌≡◌, eqb};
ghost use Rattle.circuit.specs.Circuit.{sink_of, ways, some_below, edge_in};

use crate::{Edge, Network};

impl Network<'_> {
    #[tactic(auto, using(crate::proofs::Ways::holds_some), unfolding(crate::specs::Circuit::some_below))]
    // Whether some way leads from row j to row i.
    fn leads_to(self, edge: Edge, j: usize, i: usize) -> bool
        ensures { result ≡ some_below (λ k. eqb (sink_of self.entry.near.now self.entry.class.now edge j k) i) (ways edge) }
    {
        for k in 0..edge.ways() {
            if self.sink_of(edge, j, k) == i {
                return true;
            }
        }
        false
    }

    // Whether row j has the edge to row i. The ways of a row that can send nothing are not walked.
    #[tactic(auto, using(crate::proofs::Ends::none_sent), unfolding(crate::specs::Circuit::edge_in))]
    pub fn has_edge(self, edge: Edge, j: usize, i: usize) -> bool
        ensures { result ≡ edge_in self.entry.near.now self.entry.class.now edge j i }
    {
        i < self.class.len() && edge.sends_in(self.class_at(j)) && self.leads_to(edge, j, i)
    }
}

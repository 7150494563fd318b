// What spreads along the edges.
#![tactic(auto)]

ghost use Rattle.std.specs.Prelude.{◌≡◌, length};
ghost use Rattle.spread.specs.Spread.{raised, spread_from, spread};
ghost use Rattle.circuit.specs.declared.Edge.TheVariants.{Transmits};

use circuit::{Edge, Network};
use columns::larger;

// Raises a row to a level. A row past the last is none.
#[tactic(auto, using(crate::proofs::Lifted::set_raised, crate::proofs::Lifted::past_raised))]
pub fn raise(out: &mut [u8], i: usize, level: u8)
    ensures { out.new ≡ raised out.old i level }
{
    if i < out.len() {
        out[i] = larger(out[i], level);
    }
}

// Raises the rows that row j has the edge to, way by way.
fn raise_sinks(edge: Edge, network: Network, j: usize, level: u8, out: &mut [u8])
    requires out_len { length out.old ≡ length network.class.now }
    ensures { out.new ≡ spread_from edge network.entry.near.now network.entry.class.now j level out.old }
{
    for k in 0..edge.ways() {
        raise(out, network.sink_of(edge, j, k), level);
    }
}

// Raises the dust that dust j transmits to. The ways along one facing stand together, so that the compiler reads once what they read in common.
fn raise_around(network: Network, j: usize, level: u8, out: &mut [u8])
    requires out_len { length out.old ≡ length network.class.now }
    ensures { out.new ≡ spread_from Transmits network.entry.near.now network.entry.class.now j level out.old }
{
    for f in 0..4 {
        let beside = network.level_sink(j, f);
        let above = network.upper_sink(j, f);
        let below = network.lower_sink(j, f);
        raise(out, beside, level);
        raise(out, above, level);
        raise(out, below, level);
    }
}

// Raises the rows that row j has the edge to. Each arm names its edge, so that the compiler makes a loop for each, in which the edge is not asked for.
fn raise_all(edge: Edge, network: Network, j: usize, level: u8, out: &mut [u8])
    requires out_len { length out.old ≡ length network.class.now }
    ensures { out.new ≡ spread_from edge network.entry.near.now network.entry.class.now j level out.old }
{
    match edge {
        Edge::EmittedToStrong => raise_sinks(Edge::EmittedToStrong, network, j, level, out),
        Edge::StrongToWeak => raise_sinks(Edge::StrongToWeak, network, j, level, out),
        Edge::DustToWeak => raise_sinks(Edge::DustToWeak, network, j, level, out),
        Edge::Transmits => raise_around(network, j, level, out),
        Edge::EmittedToDust => raise_sinks(Edge::EmittedToDust, network, j, level, out),
        Edge::StrongToDust => raise_sinks(Edge::StrongToDust, network, j, level, out),
    }
}

// Raises the rows that row j has the edge to, if it may have any.
pub fn spread_from(edge: Edge, network: Network, j: usize, level: u8, out: &mut [u8])
    requires out_len { length out.old ≡ length network.class.now }
    ensures { out.new ≡ spread_from edge network.entry.near.now network.entry.class.now j level out.old }
{
    if edge.sends_in(network.class_at(j)) {
        raise_all(edge, network, j, level, out);
    }
}

// Raises every row to the largest level that arrives, less the loss. A source of which nothing is left is passed over.
pub fn spread(edge: Edge, loss: u8, network: Network, levels: &[u8], out: &mut [u8])
    requires out_len { length out.old ≡ length network.class.now }
    requires levels_len { length levels.now ≡ length network.class.now }
    ensures { out.new ≡ spread edge network.entry.near.now network.entry.class.now loss levels.now out.old }
{
    for j in 0..levels.len() {
        if loss < levels[j] {
            spread_from(edge, network, j, levels[j] - loss, out);
        }
    }
}

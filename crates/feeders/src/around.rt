// The rows at the twelve positions around a dust from which dust can transmit to it, in the table's order: three to the West, North and South by
// turns, three to the East.
ghost use Rattle.std.specs.Prelude.{◌≡◌, ◌<◌};
ghost use Rattle.feeding.specs.Around.{around_place, around_height, around_in, feeder_in};

use circuit::sinks::{ABOVE, BELOW, NO_ROW};
use circuit::{Edge, Network};

const NORTH: usize = 0;

const EAST: usize = 1;

const SOUTH: usize = 2;

const WEST: usize = 3;

// The place beside the dust of the k-th of them.
fn around_place(k: usize) -> usize
    ensures { (result ≡ around_place k) × (result < 4) }
{
    if k < 3 {
        WEST
    } else if 9 <= k {
        EAST
    } else if k % 2 == 1 {
        NORTH
    } else {
        SOUTH
    }
}

// Its height: 0 below the cell beside, 1 in it, 2 above it.
fn around_height(k: usize) -> usize
    ensures { result ≡ around_height k }
{
    if k < 3 {
        k
    } else if 9 <= k {
        k - 9
    } else {
        (k - 3) / 2
    }
}

#[tactic(auto, unfolding(feeding::specs::Around::around_in))]
// The row there: where it is higher or lower, past the block that is beside the lower of the two and under the upper.
fn around(network: Network, row: usize, k: usize) -> usize
    ensures { result ≡ around_in network.entry.near.now network.entry.class.now row k }
{
    let place = around_place(k);
    match around_height(k) {
        0 => network.beside(network.beside(row, BELOW), place),
        1 => network.beside(row, place),
        _ => network.beside(network.beside(row, place), ABOVE),
    }
}

#[tactic(auto, using(circuit::proofs::Ends::none_past), unfolding(feeding::specs::Around::feeder_in))]
// The row there that transmits to the dust.
pub fn feeder_at(network: Network, row: usize, k: usize) -> u16
    ensures { result ≡ feeder_in network.entry.near.now network.entry.class.now row k }
{
    let feeder = around(network, row, k);
    if feeder < network.class.len() && network.has_edge(Edge::Transmits, feeder, row) {
        feeder as u16
    } else {
        NO_ROW
    }
}

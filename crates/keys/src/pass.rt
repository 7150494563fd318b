// The pass over the keys: level by level, each dust of the level gives its key less 17 to the dust that it transmits to.
ghost use Rattle.std.specs.Prelude.{◌≡◌, ℕ, ◌≤◌, length};
ghost use Rattle.columns.specs.Column.{row};
ghost use Rattle.circuit.specs.declared.Edge.TheVariants.{Transmits};
ghost use Rattle.circuit.specs.Circuit.{edge_in};
ghost use Rattle.keys.specs.Pass.{own_keys, Passes, Kept};

use crate::key::own_key;
use crate::search::next_within;
use circuit::{Edge, Network};
use levels::signal::Signal;
use spread::spread_from;

// The key that each direct level is.
fn fill_own(direct: &[u8], keys: &mut [u8])
    requires { length direct.now ≡ length keys.old }
    ensures { keys.new ≡ own_keys direct.now }
{
    for (i, key) in keys.iter_mut().enumerate() {
        *key = own_key(direct[i]);
    }
}

// The dust of one level: its keys are above the key of the level below with no hops, and at most that of the level with no hops.
fn pass_level(network: Network, level: u8, keys: &mut [u8])
    requires { (length keys.old ≡ length network.class.now) × (2 ≤ level) }
    ensures { Passes (length network.entry.class.now) (edge_in network.entry.near.now network.entry.class.now Transmits) level keys.old keys.new }
{
    let low = own_key(level - 1);
    let high = own_key(level);
    let mut j = next_within(keys, 0, low, high);
    // Each next row is searched for in the keys that the pass has written so far.
    while j < keys.len() {
        spread_from(Edge::Transmits, network, j, keys[j] - 17, keys);
        j = next_within(keys, j + 1, low, high);
    }
}

// All levels: dust of level 1 gives nothing.
fn pass_levels(network: Network, keys: &mut [u8])
    requires { (length keys.old ≡ length network.class.now) × ((i : ℕ) → row keys.old i ≤ 240) }
    ensures { Kept (length network.entry.class.now) (edge_in network.entry.near.now network.entry.class.now Transmits) keys.old keys.new }
{
    for level in (2..=Signal::MAX).rev() {
        pass_level(network, level, keys);
    }
}

// The keys of the dust, of its direct levels.
pub fn fill_keys(network: Network, direct: &[u8], keys: &mut [u8])
    requires { (length direct.now ≡ length network.class.now) × (length keys.old ≡ length network.class.now) }
    ensures { Kept (length network.entry.class.now) (edge_in network.entry.near.now network.entry.class.now Transmits) (own_keys direct.now) keys.new }
{
    fill_own(direct, keys);
    pass_levels(network, keys);
}

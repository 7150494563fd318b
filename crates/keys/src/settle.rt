// Settling by one pass over the keys.
ghost use Rattle.std.specs.Prelude.{◌≡◌, cond, max, length};
ghost use Rattle.network.specs.Laws.Keys.{level_of};
ghost use Rattle.network.specs.Laws.Loop.{Answered};
ghost use Rattle.blocks.specs.Kind.{is_dust};
ghost use Rattle.circuit.specs.declared.Edge.TheVariants.{Transmits};
ghost use Rattle.classes.specs.Class.{kind_in};
ghost use Rattle.circuit.specs.Circuit.{edge_in, circuit};
ghost use Rattle.keys.specs.Pass.{own_keys, Kept};
ghost use Rattle.keys.specs.Settle.{under_of, signals_by, weak_by, rounds_from, Outputs, Room};

use crate::key::level_of;
use crate::pass::fill_keys;
use crate::rounds::{last_of, last_shown};
use circuit::{Edge, Network};
use classes::is_dust_in;
use columns::{larger, zeros};
use power::{fill_power, none_mapped};
use spread::spread;

// The largest key of the dust that gives each row weak power.
fn fill_under(network: Network, keys: &[u8], under: &mut [u8])
    requires { (length keys.now ≡ length network.class.now) × (length under.old ≡ length network.class.now) }
    ensures { under.new ≡ under_of network.entry.near.now network.entry.class.now keys.now }
{
    zeros(under);
    spread(Edge::DustToWeak, 0, network, keys, under);
}

fn signal_by(class: u32, emitted: u8, key: u8) -> u8
    ensures { result ≡ cond (is_dust (kind_in class)) (level_of key) emitted }
{
    if is_dust_in(class) {
        level_of(key)
    } else {
        emitted
    }
}

fn fill_signals(class: &[u32], emitted: &[u8], keys: &[u8], signal: &mut [u8])
    requires { (length emitted.now ≡ length class.now) × (length keys.now ≡ length class.now) × (length signal.old ≡ length class.now) }
    ensures { signal.new ≡ signals_by class.now emitted.now keys.now }
{
    for (i, level) in signal.iter_mut().enumerate() {
        *level = signal_by(class[i], emitted[i], keys[i]);
    }
}

fn fill_weak(base: &[u8], under: &[u8], weak: &mut [u8])
    requires { (length under.now ≡ length base.now) × (length weak.old ≡ length base.now) }
    ensures { weak.new ≡ weak_by base.now under.now }
{
    for (i, level) in weak.iter_mut().enumerate() {
        *level = larger(base[i], level_of(under[i]));
    }
}

fn rounds_from(class: &[u32], keys: &[u8], base: &[u8], under: &[u8]) -> u32
    requires { length base.now ≡ length under.now }
    ensures { result ≡ rounds_from class.now keys.now base.now under.now }
{
    let dust = last_of(keys) as u32 + 1;
    if none_mapped(class) {
        dust
    } else {
        dust.max(last_shown(base, under) as u32 + 2)
    }
}

// The keys of the dust, of its direct levels, and in their place the largest keys that give weak power.
fn fill_reach(network: Network, under: &mut [u8], keys: &mut [u8])
    requires { (length under.old ≡ length network.class.now) × (length keys.old ≡ length network.class.now) }
    ensures keys { Kept (length network.entry.class.now) (edge_in network.entry.near.now network.entry.class.now Transmits) (own_keys under.old) keys.new }
    ensures under { under.new ≡ under_of network.entry.near.now network.entry.class.now keys.new }
{
    fill_keys(network, under, keys);
    fill_under(network, keys, under);
}

// The settled signals and weak power, and the number of rounds.
fn fill_settled(
    class: &[u32],
    emitted: &[u8],
    base: &[u8],
    under: &[u8],
    keys: &[u8],
    signal: &mut [u8],
    weak: &mut [u8],
) -> u32
    requires { Room (length class.now) base.now under.now keys.now × (length emitted.now ≡ length class.now) × (length signal.old ≡ length class.now) × (length weak.old ≡ length class.now) }
    ensures signal { signal.new ≡ signals_by class.now emitted.now keys.now }
    ensures weak { weak.new ≡ weak_by base.now under.now }
    ensures rounds { result ≡ rounds_from class.now keys.now base.now under.now }
{
    fill_signals(class, emitted, keys, signal);
    fill_weak(base, under, weak);
    rounds_from(class, keys, base, under)
}

// Fills the settled columns of the emitted levels, and gives the number of rounds.
pub fn settle(
    network: Network,
    emitted: &[u8],
    signal: &mut [u8],
    weak: &mut [u8],
    strong: &mut [u8],
) -> u32
    requires outputs { Outputs (length network.class.now) emitted.now signal.old weak.old strong.old }
    ensures { Answered (circuit network.entry.near.now network.entry.class.now) emitted.now strong.new result signal.new weak.new }
{
    let n = network.class.len();
    let mut base = [0u8; 1024];
    let mut under = [0u8; 1024];
    let mut keys = [0u8; 1024];
    let base = &mut base[..n];
    let under = &mut under[..n];
    let keys = &mut keys[..n];
    fill_power(network, emitted, strong, base, under);
    fill_reach(network, under, keys);
    fill_settled(network.class, emitted, base, under, keys, signal, weak)
}

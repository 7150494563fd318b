// One round, from the last signals alone, over a network in columns.
#![tactic(auto)]

ghost use Rattle.std.specs.Prelude.{◌≡◌, cond, min, length};
ghost use Rattle.columns.specs.Column.{row};
ghost use Rattle.columns.specs.Signal.{max_signal};
ghost use Rattle.network.specs.Laws.Loop.{repeats};
ghost use Rattle.blocks.specs.Kind.{is_dust};
ghost use Rattle.classes.specs.Class.{kind_in};
ghost use Rattle.circuit.specs.Circuit.{circuit, signals_in};
ghost use Rattle.power.specs.Power.{none_mapped};
ghost use Rattle.round.specs.Round.{next_signals, next_weaks};

use circuit::{Edge, Network};
use classes::is_dust_in;
use columns::{copy, same, zeros};
use levels::signal::Signal;
use power::none_mapped;
use spread::spread;

// The signal of a row that the level reaches: only dust takes it, capped.
fn signal_of(class: u32, emitted: u8, level: u8) -> u8
    ensures { result ≡ cond (is_dust (kind_in class)) (min max_signal level) emitted }
{
    if is_dust_in(class) {
        Signal { level }.capped().level
    } else {
        emitted
    }
}

// Makes signals of levels, in place.
fn make_signals(class: &[u32], emitted: &[u8], levels: &mut [u8])
    requires { (length emitted.now ≡ length class.now) × (length levels.old ≡ length class.now) }
    ensures { levels.new ≡ signals_in class.now emitted.now (λ i. min max_signal (row levels.old i)) }
{
    for (i, level) in levels.iter_mut().enumerate() {
        *level = signal_of(class[i], emitted[i], *level);
    }
}

// The signals of the next round.
pub fn next_signals(network: Network, emitted: &[u8], direct: &[u8], signal: &[u8], out: &mut [u8])
    requires emitted_len { (length emitted.now ≡ length network.class.now) × (length direct.now ≡ length network.class.now) }
    requires signal_len { (length signal.now ≡ length network.class.now) × (length out.old ≡ length network.class.now) }
    ensures { out.new ≡ next_signals (circuit network.entry.near.now network.entry.class.now) emitted.now direct.now signal.now }
{
    copy(direct, out);
    spread(Edge::Transmits, 1, network, signal, out);
    make_signals(network.class, emitted, out);
}

// The weak power of the next round.
pub fn next_weaks(network: Network, base: &[u8], signal: &[u8], out: &mut [u8])
    requires base_len { (length base.now ≡ length network.class.now) × (length signal.now ≡ length network.class.now) × (length out.old ≡ length network.class.now) }
    ensures { out.new ≡ next_weaks (circuit network.entry.near.now network.entry.class.now) base.now signal.now }
{
    copy(base, out);
    spread(Edge::DustToWeak, 0, network, signal, out);
}

// The signals before the first round: dust starts at 0.
pub fn first_signals(class: &[u32], emitted: &[u8], out: &mut [u8])
    requires { (length emitted.now ≡ length class.now) × (length out.old ≡ length class.now) }
    ensures { out.new ≡ signals_in class.now emitted.now (λ _. 0) }
{
    zeros(out);
    make_signals(class, emitted, out);
}

// Whether a round answers: signals and power map both equal the last. The map is empty before the first round, and the same after every round.
pub fn answers(
    class: &[u32],
    rounds: u32,
    signal: &[u8],
    weak: &[u8],
    next_signal: &[u8],
    next_weak: &[u8],
) -> bool
    ensures { result ≡ repeats (none_mapped class.now) rounds signal.now weak.now next_signal.now next_weak.now }
{
    same(signal, next_signal) & same(weak, next_weak) & ((0 < rounds) | none_mapped(class))
}

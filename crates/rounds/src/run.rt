// The loop of rounds over the prepared columns.
ghost use Rattle.std.specs.Prelude.{◌≡◌, length};
ghost use Rattle.columns.specs.Column.{tabulate};
ghost use Rattle.circuit.specs.Circuit.{circuit, signals_in};
ghost use Rattle.rounds.specs.Prepared.{Prepared, Room, Turns};
ghost use Rattle.rounds.specs.Outcome.{RunsRounds};

use circuit::Network;
use columns::{copy, zeros};
use levels::signal::Rounds;
use round::{answers, first_signals, next_signals, next_weaks};

// The signals and the weak power before the first round.
fn start(class: &[u32], emitted: &[u8], s0: &mut [u8], w0: &mut [u8])
    requires { (length emitted.now ≡ length class.now) × (length s0.old ≡ length class.now) × (length w0.old ≡ length class.now) }
    ensures s0_after { s0.new ≡ signals_in class.now emitted.now (λ _. 0) }
    ensures w0_after { w0.new ≡ tabulate (length w0.old) (λ _. 0) }
{
    first_signals(class, emitted, s0);
    zeros(w0);
}

// One round, and whether it answers: from the last one's signals, which stand in s0, and its weak power in w0.
fn turn(
    network: Network,
    emitted: &[u8],
    base: &[u8],
    direct: &[u8],
    rounds: u32,
    s0: &[u8],
    w0: &[u8],
    s1: &mut [u8],
    w1: &mut [u8],
) -> bool
    requires prepared { Prepared network.near.now network.class.now emitted.now base.now direct.now }
    requires room { Room (length network.class.now) s0.now w0.now s1.old w1.old }
    ensures { Turns (circuit network.entry.near.now network.entry.class.now) emitted.now rounds s0.now w0.now s1.new w1.new result }
{
    next_signals(network, emitted, direct, s0, s1);
    next_weaks(network, base, s0, w1);
    answers(network.class, rounds, s0, w0, s1, w1)
}

// The round just made is the last one.
fn advance(s1: &[u8], w1: &[u8], s0: &mut [u8], w0: &mut [u8])
    requires { (length s1.now ≡ length s0.old) × (length w1.now ≡ length w0.old) }
    ensures s0_after { s0.new ≡ s1.now }
    ensures w0_after { w0.new ≡ w1.now }
{
    copy(s1, s0);
    copy(w1, w0);
}

// Rounds until one answers, while the limit lasts, which falls with each round: one answers by the 17th. The answering round's columns stand in s1 and w1.
pub fn run(
    network: Network,
    emitted: &[u8],
    base: &[u8],
    direct: &[u8],
    limit: u32,
    s1: &mut [u8],
    w1: &mut [u8],
) -> Option<Rounds>
    requires prepared { Prepared network.near.now network.class.now emitted.now base.now direct.now }
    requires s1_len { (length s1.old ≡ length network.class.now) × (length w1.old ≡ length network.class.now) }
    ensures { RunsRounds (circuit network.entry.near.now network.entry.class.now) emitted.now limit s1.new w1.new result }
{
    let n = network.class.len();
    let mut s0 = [0u8; 1024];
    let mut w0 = [0u8; 1024];
    let s0 = &mut s0[..n];
    let w0 = &mut w0[..n];
    start(network.class, emitted, s0, w0);
    let mut rounds = 0;
    let mut left = limit.min(Rounds::MAX);
    while 0 < left {
        left -= 1;
        let answered = turn(network, emitted, base, direct, rounds, s0, w0, s1, w1);
        rounds += 1;
        if answered {
            return Some(Rounds { count: rounds });
        }
        advance(s1, w1, s0, w0);
    }
    None
}

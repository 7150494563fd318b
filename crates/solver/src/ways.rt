// The two ways in which the settled numbers are found: both have the same contract.
ghost use Rattle.std.specs.Prelude.{◌≡◌, length};
ghost use Rattle.network.specs.Settled.{rounds_of, settled};
ghost use Rattle.circuit.specs.Circuit.{circuit};
ghost use Rattle.keys.specs.Settle.{Outputs};
ghost use Rattle.rounds.specs.Outcome.{outcome_of, Solves};

use circuit::Network;
use levels::signal::Rounds;
use rounds::settle::write;

pub trait Way {
    // Settles a network with its emitted levels, within a limit: fills the three columns, or leaves them.
    fn settle(
        network: Network,
        emitted: &[u8],
        limit: u32,
        signal: &mut [u8],
        weak: &mut [u8],
        strong: &mut [u8],
    ) -> Option<Rounds>
        requires { Outputs (length network.class.now) emitted.now signal.old weak.old strong.old }
        ensures { Solves (rounds_of (circuit network.entry.near.now network.entry.class.now) emitted.now) (settled (circuit network.entry.near.now network.entry.class.now) emitted.now) limit signal.old weak.old strong.old signal.new weak.new strong.new result };
}

// By one pass over the keys of the dust.
pub struct Keys;

// Round by round.
pub struct ByRounds;

// The rounds, unless the limit is below them.
#[tactic(auto, unfolding(rounds::specs::Outcome::outcome_of))]
fn outcome_of(rounds: u32, limit: u32) -> Option<Rounds>
    ensures { result ≡ outcome_of rounds limit }
{
    if rounds <= limit {
        Some(Rounds { count: rounds })
    } else {
        None
    }
}

impl Way for Keys {
    fn settle(
        network: Network,
        emitted: &[u8],
        limit: u32,
        signal: &mut [u8],
        weak: &mut [u8],
        strong: &mut [u8],
    ) -> Option<Rounds> {
        let n = network.class.len();
        let mut s1 = [0u8; 1024];
        let mut w1 = [0u8; 1024];
        let mut charged = [0u8; 1024];
        let s1 = &mut s1[..n];
        let w1 = &mut w1[..n];
        let charged = &mut charged[..n];
        let rounds = outcome_of(
            keys::settle::settle(network, emitted, s1, w1, charged),
            limit,
        );
        write(rounds, s1, w1, charged, signal, weak, strong);
        rounds
    }
}

impl Way for ByRounds {
    fn settle(
        network: Network,
        emitted: &[u8],
        limit: u32,
        signal: &mut [u8],
        weak: &mut [u8],
        strong: &mut [u8],
    ) -> Option<Rounds> {
        rounds::settle::settle(network, emitted, limit, signal, weak, strong)
    }
}

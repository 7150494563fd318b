// Settling, with room of its own for the columns that it makes.
ghost use Rattle.std.specs.Prelude.{◌≡◌, length};
ghost use Rattle.network.specs.Settled.{rounds_of, settled};
ghost use Rattle.circuit.specs.Circuit.{circuit};
ghost use Rattle.rounds.specs.Prepared.{Outputs};
ghost use Rattle.rounds.specs.Outcome.{written_by, Solves};

use crate::run::run;
use circuit::Network;
use columns::copy;
use levels::signal::Rounds;
use power::fill_power;

// The columns of the answering round, unless there was none.
pub fn write(
    rounds: Option<Rounds>,
    s1: &[u8],
    w1: &[u8],
    charged: &[u8],
    signal: &mut [u8],
    weak: &mut [u8],
    strong: &mut [u8],
)
    requires { (length s1.now ≡ length signal.old) × (length w1.now ≡ length weak.old) × (length charged.now ≡ length strong.old) }
    ensures signal_after { signal.new ≡ written_by rounds signal.old s1.now }
    ensures weak_after { weak.new ≡ written_by rounds weak.old w1.now }
    ensures strong_after { strong.new ≡ written_by rounds strong.old charged.now }
{
    if rounds.is_some() {
        copy(s1, signal);
        copy(w1, weak);
        copy(charged, strong);
    }
}

// Settles a network of at most 1,024 rows with its emitted levels, round by round.
pub fn settle(
    network: Network,
    emitted: &[u8],
    limit: u32,
    signal: &mut [u8],
    weak: &mut [u8],
    strong: &mut [u8],
) -> Option<Rounds>
    requires emitted_len { length emitted.now ≡ length network.class.now }
    requires outputs { Outputs (length network.class.now) signal.old weak.old strong.old }
    ensures { Solves (rounds_of (circuit network.entry.near.now network.entry.class.now) emitted.now) (settled (circuit network.entry.near.now network.entry.class.now) emitted.now) limit signal.old weak.old strong.old signal.new weak.new strong.new result }
{
    let n = network.class.len();
    let mut charged = [0u8; 1024];
    let mut base = [0u8; 1024];
    let mut direct = [0u8; 1024];
    let mut s1 = [0u8; 1024];
    let mut w1 = [0u8; 1024];
    let charged = &mut charged[..n];
    let base = &mut base[..n];
    let direct = &mut direct[..n];
    let s1 = &mut s1[..n];
    let w1 = &mut w1[..n];
    fill_power(network, emitted, charged, base, direct);
    let rounds = run(network, emitted, base, direct, limit, s1, w1);
    write(rounds, s1, w1, charged, signal, weak, strong);
    rounds
}

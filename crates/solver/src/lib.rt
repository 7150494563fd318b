// Settling: `solve_instantaneous`, by one pass over the keys of the dust, level by level, or round by round. What either asks of the table is prepared first.
#![tactic(auto)]

mod ways;

ghost use Rattle.std.specs.Prelude.{◌≡◌};
ghost use Rattle.world.specs.Rows.{rows as rows_of};
ghost use Rattle.refusals.specs.Accepted.{Table};
ghost use Rattle.electrical.specs.Answer.{rounds_of, settled, Settles};
ghost use Rattle.rounds.specs.Prepared.{Outputs};
ghost use Rattle.rounds.specs.Outcome.{Solves};
ghost use Rattle.solver.specs.Answer.{answer_by};

use crate::ways::{ByRounds, Keys, Way};
use circuit::Network;
use electrical::check_call;
use emitted::output::fill_emitted;
use levels::signal::Rounds;
use prepare::prepare;
use refusals::Refused;
use world::row::rows;

// A limit below the rounds needed: row 0.
const UNSETTLED: Refused = Refused {
    number: Refused::UNSETTLED,
    row: 0,
};

// Settles a table whose inputs passed their checks.
fn solve<W: Way>(
    profile: &[u8],
    table: &[u8],
    devices: &[u8],
    limit: u32,
    signal: &mut [u8],
    weak: &mut [u8],
    strong: &mut [u8],
) -> Option<Rounds>
    requires table { Table table.now }
    requires outputs { Outputs (rows_of table.now) signal.old weak.old strong.old }
    ensures { Solves (rounds_of profile.now table.now devices.now) (settled profile.now table.now devices.now) limit signal.old weak.old strong.old signal.new weak.new strong.new result }
{
    let n = rows(table);
    let mut near = [0u16; 7168];
    let mut class = [0u32; 1024];
    let mut emitted = [0u8; 1024];
    let near = &mut near[..n * 7];
    let class = &mut class[..n];
    let emitted = &mut emitted[..n];
    prepare(profile, table, near, class);
    fill_emitted(table, devices, emitted);
    W::settle(
        Network { near, class },
        emitted,
        limit,
        signal,
        weak,
        strong,
    )
}

// The number that a call answers: the rounds, or number 8.
fn answer_by(rounds: Option<Rounds>) -> u32
    ensures { result ≡ answer_by rounds }
{
    match rounds {
        Some(rounds) => rounds.count,
        None => UNSETTLED.answer(),
    }
}

// Settles a table with a device column: fills the three columns and answers the rounds, or writes nothing and answers the refusal.
fn settle<W: Way>(
    profile: &[u8],
    table: &[u8],
    devices: &[u8],
    limit: u32,
    signal: &mut [u8],
    weak: &mut [u8],
    strong: &mut [u8],
) -> u32
    ensures { Settles profile.now table.now devices.now limit signal.old weak.old strong.old signal.new weak.new strong.new result }
{
    let checked = check_call(
        profile,
        table,
        devices,
        signal.len(),
        weak.len(),
        strong.len(),
    );
    if let Err(refused) = checked {
        return refused.answer();
    }
    answer_by(solve::<W>(profile, table, devices, limit, signal, weak, strong))
}

// By one pass over the keys.
pub fn solve_instantaneous(
    profile: &[u8],
    table: &[u8],
    devices: &[u8],
    limit: u32,
    signal: &mut [u8],
    weak: &mut [u8],
    strong: &mut [u8],
) -> u32
    ensures { Settles profile.now table.now devices.now limit signal.old weak.old strong.old signal.new weak.new strong.new result }
{
    settle::<Keys>(profile, table, devices, limit, signal, weak, strong)
}

// Round by round, as document 01 names it.
pub fn solve_by_rounds(
    profile: &[u8],
    table: &[u8],
    devices: &[u8],
    limit: u32,
    signal: &mut [u8],
    weak: &mut [u8],
    strong: &mut [u8],
) -> u32
    ensures { Settles profile.now table.now devices.now limit signal.old weak.old strong.old signal.new weak.new strong.new result }
{
    settle::<ByRounds>(profile, table, devices, limit, signal, weak, strong)
}

// What a table settles to with its fresh devices, in columns of its own.
#![tactic(auto)]

ghost use Rattle.std.specs.Prelude.{◌≤◌};
ghost use Rattle.world.specs.Rows.{rows};
ghost use Rattle.initial.specs.SettlesFresh.{SettlesFresh};

use world::row;

// The rounds or the refusal, and three columns: an entry for each row, and then zeros.
#[derive(Drop)]
pub struct Initial {
    pub answer: u32,
    pub signal: [u8; 1024],
    pub weak: [u8; 1024],
    pub strong: [u8; 1024],
}

// Settles a table of at most 1,024 rows with its fresh devices.
pub fn settle(profile: &[u8], table: &[u8]) -> Initial
    requires { rows table.now ≤ 1024 }
    ensures { SettlesFresh profile.now table.now result }
{
    let mut state = [0u8; 16384];
    let mut signal = [0u8; 1024];
    let mut weak = [0u8; 1024];
    let mut strong = [0u8; 1024];
    let n = row::rows(table);
    let answer = sim::fresh(
        profile,
        table,
        &mut state[..n * 16],
        &mut signal[..n],
        &mut weak[..n],
        &mut strong[..n],
    );
    Initial {
        answer,
        signal,
        weak,
        strong,
    }
}
